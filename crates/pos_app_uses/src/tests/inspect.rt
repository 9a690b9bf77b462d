//! `inspect` of two small files, of files that are damaged, and of none.

use crate::tests::answer_on;
use pos_edge::MemoryDisk;
use std::alloc::Global;
use std::test::Fail;

// The first 16 bytes of SHA-256 of four zero bytes.
const DIGEST: [u8; 16] = [
    0xdf, 0x3f, 0x61, 0x98, 0x04, 0xa9, 0x2f, 0xdb, 0x40, 0x57, 0x19, 0x2d, 0xc4, 0x3d, 0xd7, 0x48,
];

// A layout: the last letter of the name, and how many bytes of a digest an entry has.
#[derive(Clone, Copy)]
pub struct Form {
    letter: u8,
    digest: usize,
}

pub const ONE: Form = Form {
    letter: b'1',
    digest: 8,
};

pub const TWO: Form = Form {
    letter: b'2',
    digest: 16,
};

// Gate, name, 32 zero bytes of id, size 10, the length of the memo and five zeros.
fn begin_header(alloc: Global, form: Form, memo: &[u8]) -> Result<Vec<u8>, Fail> {
    let mut bytes = Vec::new(alloc);
    bytes.extend_from_slice(b"\x01SPACEPLOT-OWN-")?;
    bytes.push(form.letter)?;
    bytes.extend_from_slice(&[0; 32])?;
    bytes.push(10)?;
    bytes.extend_from_slice(&(memo.len() as u64).to_be_bytes()[6..])?;
    bytes.extend_from_slice(&[0; 5])?;
    Ok(bytes)
}

// A file of layout 1 of seven tables without numbers.
pub fn empty_file(alloc: Global) -> Result<Vec<u8>, Fail> {
    let mut bytes = begin_header(alloc, ONE, &[])?;
    for _ in 0..7 {
        bytes.extend_from_slice(&0u64.to_be_bytes())?;
        bytes.extend_from_slice(&176u64.to_be_bytes())?;
    }
    bytes.extend_from_slice(&176u64.to_be_bytes())?;
    Ok(bytes)
}

// How many numbers each table of the toy file has.
const COUNTS: [u32; 7] = [3, 3, 3, 3, 3, 1, 1];

// A file of seven tables with one park of four zero bytes each, one behind the other from the end of the memo on.
pub fn toy_of(alloc: Global, form: Form, memo: &[u8]) -> Result<Vec<u8>, Fail> {
    let digest = DIGEST.get(..form.digest).ok_or("no such digest")?;
    let mut bytes = begin_header(alloc, form, memo)?;
    let table = 28 + digest.len() as u64;
    let mut park = 176 + memo.len() as u64;
    for count in COUNTS {
        bytes.extend_from_slice(&u64::from(count).to_be_bytes())?;
        bytes.extend_from_slice(&park.wrapping_add(4).to_be_bytes())?;
        park = park.wrapping_add(table);
    }
    bytes.extend_from_slice(&park.to_be_bytes())?;
    bytes.extend_from_slice(memo)?;
    park = 176 + memo.len() as u64;
    for count in COUNTS {
        bytes.extend_from_slice(&[0; 4])?;
        bytes.extend_from_slice(&park.to_be_bytes())?;
        bytes.extend_from_slice(&4u32.to_be_bytes())?;
        bytes.extend_from_slice(&count.to_be_bytes())?;
        bytes.extend_from_slice(digest)?;
        bytes.extend_from_slice(&0u64.to_be_bytes())?;
        park = park.wrapping_add(table);
    }
    Ok(bytes)
}

// The toy file of layout 1.
pub fn toy_file(alloc: Global) -> Result<Vec<u8>, Fail> {
    toy_of(alloc, ONE, &[])
}

// The status and the text of a run, over a disk with one file, which fails at the calls of these numbers.
pub fn answer_over(
    alloc: Global,
    words: &[&str],
    bytes: &[u8],
    failing: &[u64],
) -> Result<(u8, Vec<u8>), Fail> {
    let mut disk = MemoryDisk::new(alloc, failing.to_vec(alloc)?);
    disk.add("toy", bytes)?;
    answer_on(alloc, words, &[], &mut disk)
}

#[test]
fn small_files_show_their_headers(rt: HostRuntime) -> Result<(), Fail> {
    let alloc = rt.alloc();
    let toy = toy_file(alloc)?;
    assert_eq!(rt; toy.len(), 428);
    let (status, text) = answer_over(alloc, &["inspect", "toy"], toy.as_slice(), &[])?;
    let wanted =
        b"id 0000000000000000000000000000000000000000000000000000000000000000\nk 10\ntable 1 3\ntable 2 3\ntable 3 3\ntable 4 3\ntable 5 3\ntable 6 1\ntable 7 1\nlength 428\n";
    assert_eq!(rt; text.as_slice(), wanted.as_slice());
    assert_eq!(rt; status, 0);
    let empty = empty_file(alloc)?;
    let (status, text) = answer_over(alloc, &["inspect", "toy"], empty.as_slice(), &[])?;
    let wanted =
        b"id 0000000000000000000000000000000000000000000000000000000000000000\nk 10\ntable 1 0\ntable 2 0\ntable 3 0\ntable 4 0\ntable 5 0\ntable 6 0\ntable 7 0\nlength 176\n";
    assert_eq!(rt; text.as_slice(), wanted.as_slice());
    assert_eq!(rt; status, 0);
    let mut largest = empty_file(alloc)?;
    *largest.get_mut(48).ok_or("no size")? = 50;
    let (status, text) = answer_over(alloc, &["inspect", "toy"], largest.as_slice(), &[])?;
    let wanted =
        b"id 0000000000000000000000000000000000000000000000000000000000000000\nk 50\ntable 1 0\ntable 2 0\ntable 3 0\ntable 4 0\ntable 5 0\ntable 6 0\ntable 7 0\nlength 176\n";
    assert_eq!(rt; text.as_slice(), wanted.as_slice());
    assert_eq!(rt; status, 0);
    Ok(())
}

#[test]
fn a_file_of_layout_2_shows_its_layout_and_its_memo(rt: HostRuntime) -> Result<(), Fail> {
    let alloc = rt.alloc();
    let front =
        "id 0000000000000000000000000000000000000000000000000000000000000000\nk 10\ntable 1 3\ntable 2 3\ntable 3 3\ntable 4 3\ntable 5 3\ntable 6 1\ntable 7 1\n";
    let rows: [(&[u8], &str); 2] = [
        (&[], "length 484\nlayout 2\nmemo\n"),
        (&[0xab, 0xcd], "length 486\nlayout 2\nmemo abcd\n"),
    ];
    for (memo, end) in rows {
        let toy = toy_of(alloc, TWO, memo)?;
        let (status, text) = answer_over(alloc, &["inspect", "toy"], toy.as_slice(), &[])?;
        let wanted = format!(in alloc; "{front}{end}")?;
        assert_eq!(rt; text.as_slice(), wanted.as_bytes());
        assert_eq!(rt; status, 0);
    }
    Ok(())
}

#[test]
fn changed_bytes_show_the_first_damage(rt: HostRuntime) -> Result<(), Fail> {
    let alloc = rt.alloc();
    let rows: [(usize, u8, &str); 11] = [
        (0, 0, "damage not-open 428 0\n"),
        (0, 2, "damage not-open 428 2\n"),
        (1, 0, "damage header name\n"),
        (48, 0, "damage header size\n"),
        (48, 51, "damage header size\n"),
        (49, 1, "damage header zeros\n"),
        // 2049 numbers, one more than size 10 allows, where the other byte is 1
        (62, 8, "damage header counts\n"),
        (56, 255, "damage header counts\n"),
        (71, 175, "damage directory 1 0\n"),
        (175, 0, "damage length 256 428\n"),
        (168, 255, "damage length 18374686479671624108 428\n"),
    ];
    for (at, byte, wanted) in rows {
        let mut bytes = toy_file(alloc)?;
        *bytes.get_mut(at).ok_or("no such place")? = byte;
        let (status, text) = answer_over(alloc, &["inspect", "toy"], bytes.as_slice(), &[])?;
        assert_eq!(rt; text.as_slice(), wanted.as_bytes());
        assert_eq!(rt; status, 4);
    }
    Ok(())
}

#[test]
fn changed_bytes_of_layout_2_show_the_first_damage(rt: HostRuntime) -> Result<(), Fail> {
    let alloc = rt.alloc();
    let rows: [(usize, u8, &str); 6] = [
        // the other layout's name, and none's
        (15, b'1', "damage header zeros\n"),
        (15, b'3', "damage header name\n"),
        (51, 1, "damage header zeros\n"),
        // memos of 258 bytes, and of 7, which end behind the first directory's place
        (49, 1, "damage header memo\n"),
        (50, 7, "damage directory 1 0\n"),
        (48, 51, "damage header size\n"),
    ];
    for (at, byte, wanted) in rows {
        let mut bytes = toy_of(alloc, TWO, &[0xab, 0xcd])?;
        *bytes.get_mut(at).ok_or("no such place")? = byte;
        let (status, text) = answer_over(alloc, &["inspect", "toy"], bytes.as_slice(), &[])?;
        assert_eq!(rt; text.as_slice(), wanted.as_bytes());
        assert_eq!(rt; status, 4);
    }
    Ok(())
}

#[test]
fn short_files_are_not_open(rt: HostRuntime) -> Result<(), Fail> {
    let alloc = rt.alloc();
    let toy = toy_file(alloc)?;
    let rows = [
        (0, "damage not-open 0 0\n"),
        (1, "damage not-open 1 1\n"),
        (175, "damage not-open 175 1\n"),
        (176, "damage length 428 176\n"),
        (427, "damage length 428 427\n"),
    ];
    for (length, wanted) in rows {
        let front = toy.get(..length).ok_or("too short")?;
        let (status, text) = answer_over(alloc, &["inspect", "toy"], front, &[])?;
        assert_eq!(rt; text.as_slice(), wanted.as_bytes());
        assert_eq!(rt; status, 4);
    }
    Ok(())
}

#[test]
fn no_file_and_no_disk_have_their_lines(rt: HostRuntime) -> Result<(), Fail> {
    let alloc = rt.alloc();
    let toy = toy_file(alloc)?;
    let (status, text) = answer_over(alloc, &["inspect", "nothing"], toy.as_slice(), &[])?;
    assert_eq!(rt; text.as_slice(), b"absent nothing\n".as_slice());
    assert_eq!(rt; status, 5);
    // the first call opens, the second reads
    for call in [0, 1] {
        let (status, text) = answer_over(alloc, &["inspect", "toy"], toy.as_slice(), &[call])?;
        assert_eq!(rt; text.as_slice(), b"disk fault\n".as_slice());
        assert_eq!(rt; status, 3);
    }
    Ok(())
}
