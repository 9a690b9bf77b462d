//! What audits of small files say, and what they leave.

use pos_audit::{AuditFault, AuditName, Audited, audit};
use pos_edge::{Disk, MemoryDisk};
use pos_layout::Damage;
use std::alloc::{AllocError, Global};
use std::process::Abort;
use std::test::Fail;

// The audit of the file `p`, with files whose names begin with `s`.
fn audit_of_p<D: Disk>(alloc: Global, disk: &mut D) -> Result<Audited, AuditFault> {
    audit(alloc, "p", "s", disk)
}

// The first 56 bytes of a file of size 10 and the id of zeros: of this layout, and with as many memo bytes.
fn push_front(bytes: &mut Vec<u8>, layout: u8, memo: u8) -> Result<(), AllocError> {
    bytes.extend_from_slice(b"\x01SPACEPLOT-OWN-")?;
    bytes.extend_from_slice(&[layout])?;
    bytes.extend_from_slice(&[0; 32])?;
    bytes.extend_from_slice(&[10, 0, memo, 0, 0, 0, 0, 0])
}

// The count of a table and where its directory stands; or one number alone.
fn push_column(bytes: &mut Vec<u8>, count: u64, directory: u64) -> Result<(), AllocError> {
    bytes.extend_from_slice(&count.to_be_bytes())?;
    bytes.extend_from_slice(&directory.to_be_bytes())
}

// Six tables without numbers, whose directories stand here.
fn push_six(bytes: &mut Vec<u8>, directory: u64) -> Result<(), AllocError> {
    for _ in 0..6 {
        push_column(bytes, 0, directory)?;
    }
    Ok(())
}

// The file without numbers in the first layout: it has 176 bytes.
fn empty_file(alloc: Global) -> Result<Vec<u8>, AllocError> {
    let mut bytes = Vec::new(alloc);
    push_front(&mut bytes, b'1', 0)?;
    push_six(&mut bytes, 176)?;
    push_column(&mut bytes, 0, 176)?;
    bytes.extend_from_slice(&176u64.to_be_bytes())?;
    Ok(bytes)
}

// The file without numbers in the second layout, with a memo of two bytes behind its header.
fn file_with_memo(alloc: Global) -> Result<Vec<u8>, AllocError> {
    let mut bytes = Vec::new(alloc);
    push_front(&mut bytes, b'2', 2)?;
    push_six(&mut bytes, 178)?;
    push_column(&mut bytes, 0, 178)?;
    bytes.extend_from_slice(&178u64.to_be_bytes())?;
    bytes.extend_from_slice(&[7, 8])?;
    Ok(bytes)
}

// A file that opens, and says that table 7 has one number: its directory has one entry, of zeros.
fn file_of_one_number(alloc: Global) -> Result<Vec<u8>, AllocError> {
    let mut bytes = Vec::new(alloc);
    push_front(&mut bytes, b'1', 0)?;
    push_six(&mut bytes, 176)?;
    push_column(&mut bytes, 1, 176)?;
    bytes.extend_from_slice(&208u64.to_be_bytes())?;
    bytes.extend_from_slice(&[0; 32])?;
    Ok(bytes)
}

// What is said of these bytes, where the other names are absent: and after an answer no file of the run is left.
fn said_of(
    rt: &impl Abort,
    alloc: Global,
    bytes: &[u8],
    want: Result<Audited, AuditFault>,
) -> Result<(), Fail> {
    let mut disk = MemoryDisk::new(alloc, Vec::new(alloc));
    disk.add("p", bytes)?;
    assert_eq!(rt; audit_of_p(alloc, &mut disk), want);
    assert!(rt; disk.contents("s-audit").is_none());
    assert!(rt; disk.contents("s.0").is_none());
    Ok(())
}

// The plot of the id of zeros at size 10 has no numbers, as plain loops give it.
#[test]
fn a_file_without_numbers_is_the_plot_of_zeros(rt: HostRuntime) -> Result<(), Fail> {
    let alloc = rt.alloc();
    let first = empty_file(alloc)?;
    said_of(&rt, alloc, &first, Ok(Audited::Same { length: 176 }))?;
    let second = file_with_memo(alloc)?;
    said_of(&rt, alloc, &second, Ok(Audited::Same { length: 178 }))
}

// They differ first in the low byte of table 7's count.
#[test]
fn a_number_too_many_is_found(rt: HostRuntime) -> Result<(), Fail> {
    let alloc = rt.alloc();
    let file = file_of_one_number(alloc)?;
    let differs = Audited::Differs {
        at: 159,
        want: Some(0),
        found: Some(1),
    };
    said_of(&rt, alloc, &file, Ok(differs))?;
    let cut = Damage::NotOpen { length: 3, gate: 1 };
    said_of(&rt, alloc, b"\x01SP", Err(AuditFault::Damage(cut)))
}

#[test]
fn a_name_that_is_there_is_named_and_kept(rt: HostRuntime) -> Result<(), Fail> {
    let alloc = rt.alloc();
    let mut empty = MemoryDisk::new(alloc, Vec::new(alloc));
    assert_eq!(rt; audit_of_p(alloc, &mut empty), Err(AuditFault::Absent));
    let file = empty_file(alloc)?;
    let mut disk = MemoryDisk::new(alloc, Vec::new(alloc));
    disk.add("p", &file)?;
    disk.add("s.1", b"kept")?;
    let there = Err(AuditFault::Exists(AuditName::Scratch(1)));
    assert_eq!(rt; audit_of_p(alloc, &mut disk), there);
    assert!(rt; disk.contents("s.1").is_some_and(|bytes| bytes.len() == 4));
    // That run has left the second file.
    let second = Err(AuditFault::Exists(AuditName::Second));
    assert_eq!(rt; audit_of_p(alloc, &mut disk), second);
    Ok(())
}
