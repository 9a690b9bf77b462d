ghost use Rattle.std.specs.Prelude.{◌≡◌, ◌+◌, ◌*◌, ◌^◌, ◌<◌, ◌≤◌, length, false, true, IfOk, IsTrue, OnOk};
ghost use Rattle.pos_edge.specs.Calls.{IsThere};
ghost use Rattle.pos_record.specs.Fields.{IsRecordSize};
ghost use Rattle.pos_runs.specs.Pages.{ListStands};
ghost use Rattle.pos_runs.specs.Runs.{StandsSealed};

use crate::{EightLists, copy_pairs};
use pos_bits::BitString;
use pos_edge::{BlankDisk, Disk, MemoryDisk, Scratch, WorkFault};
use pos_record::{First, Last, Middle, Number, Pair, Record, Value};
use pos_runs::Ordered;
use std::alloc::Global;
use std::fmt::Debug;
use std::process::Abort;
use std::test::Fail;

// The greatest number of so many bits, or 0.
fn limit(top: bool, width: u32) -> u64
    requires { width ≤ 56 }
    ensures { result < 2 ^ width }
{
    if top { (1 << width) - 1 } else { 0 }
}

// The same of up to 120 bits.
fn wide_limit(top: bool, width: u32) -> u128
    requires { width ≤ 120 }
    ensures { result < 2 ^ width }
{
    if top { (1 << width) - 1 } else { 0 }
}

// A string of one bit over and over.
fn string_of(bit: bool, width: u32) -> BitString
    requires { width ≤ 200 }
    ensures { length result ≡ width }
{
    let mut string = BitString::empty();
    string.push(wide_limit(bit, width / 2), width / 2);
    string.push(wide_limit(bit, width - width / 2), width - width / 2);
    string
}

// A record with all its bits alike is written as so many of them behind three other bits, and comes back.
fn comes_back<R: Record<K> + PartialEq + Debug, const K: u32>(
    rt: &impl Abort,
    item: R,
    width: u32,
    bit: bool,
)
    requires size { IsRecordSize K }
    requires fits { R.fits item }
    requires short { R.bit_count ≤ 512 }
    requires as_short { width ≤ 512 }
{
    assert_eq!(rt; R::width(), width);
    assert!(rt; R::take(&item.put()) == item);
    let mut bytes = [0xaa; 65];
    item.append_at(&mut bytes, 3);
    assert_eq!(rt; bytes[0] >> 5, 0b101);
    for i in 3..3 + width {
        let found = (bytes[(i / 8) as usize] >> (7 - i % 8)) % 2 == 1;
        assert_eq!(rt; found, bit);
    }
    assert!(rt; R::take_at(&bytes, 3) == item);
}

// Each kind with all fields 0, or all as great as fits.
fn kinds_come_back<const K: u32>(rt: &impl Abort, top: bool)
    requires { IsRecordSize K }
{
    let y = limit(top, K + 6);
    let x = limit(top, K);
    let left = limit(top, K + 1);
    let right = limit(top, K + 1);
    let number = wide_limit(top, 2 * K + 2);
    let meta = string_of(top, 4 * K);
    comes_back::<First, K>(rt, First { y, x }, 2 * K + 6, top);
    comes_back::<Value, K>(rt, Value { x }, K, top);
    let middle = Middle::<3> {
        y,
        meta,
        left,
        right,
    };
    comes_back::<Middle<3>, K>(rt, middle, 7 * K + 8, top);
    comes_back::<Last, K>(rt, Last { y, left, right }, 3 * K + 8, top);
    comes_back::<Pair, K>(rt, Pair { left, right }, 2 * K + 2, top);
    comes_back::<Number, K>(rt, Number { number }, 2 * K + 2, top);
}

#[test]
fn each_kind_comes_back_with_fields_at_their_limits(rt: HostRuntime) {
    for top in [false, true] {
        kinds_come_back::<10>(&rt, top);
        kinds_come_back::<12>(&rt, top);
        kinds_come_back::<32>(&rt, top);
        kinds_come_back::<50>(&rt, top);
    }
}

// Pushes so many values, each of its place, and answers how many come back as others.
fn wrong_values<D: Disk>(
    list: &mut Ordered<Value, 50>,
    disk: &mut D,
    count: u64,
) -> Result<u64, WorkFault>
    requires stands { ListStands 50 list.old (D.view disk.old) }
    requires unsealed { list.old.is_sealed ≡ false }
    requires none { list.old.count ≡ 0 }
    requires few { count ≤ 100000 }
    ensures file { list.new.file ≡ list.old.file }
    ensures live { IsTrue ((D.view disk.new).is_live list.old.file) }
    ensures there { IsThere list.old.file (D.view disk.new) }
{
    for x in 0..count {
        list.push(disk, &Value { x })?;
    }
    list.seal(disk)?;
    let mut wrong = 0;
    for i in 0..count {
        let found = list.get(disk, i)?;
        if found.x != i {
            wrong += 1;
        }
    }
    Ok(wrong)
}

// The life of a list. Its file is removed also after a refusal.
fn wrong_in_a_life<D: Disk>(alloc: Global, disk: &mut D, count: u64) -> Result<u64, WorkFault>
    requires { count ≤ 100000 }
{
    let Ok(mut scratch) = Scratch::new(alloc, "s") else {
        return Err(WorkFault::Memory);
    };
    let mut list = Ordered::<Value, 50>::new(alloc, &mut scratch, disk)?;
    let wrong = wrong_values(&mut list, disk, count);
    list.remove(&mut scratch, disk)?;
    wrong
}

// A list of one page and one record makes its file, writes two pages, reads two and removes the file. A page has room
// for 10,485 values of 50 bits.
#[test]
fn each_failing_call_is_answered_and_no_file_is_left(rt: HostRuntime) -> Result<(), Fail> {
    for call in 0..6 {
        let failing = vec![in rt.alloc(); call]?;
        let mut disk = MemoryDisk::new(rt.alloc(), failing);
        let answer = wrong_in_a_life(rt.alloc(), &mut disk, 10_486);
        assert_eq!(rt; answer, Err(WorkFault::DiskFailed));
        assert!(rt; disk.contents("s.0").is_none() || call == 5);
    }
    let mut disk = MemoryDisk::new(rt.alloc(), Vec::new(rt.alloc()));
    assert_eq!(rt; wrong_in_a_life(rt.alloc(), &mut disk, 10_486)?, 0);
    assert_eq!(rt; disk.calls(), 6);
    Ok(())
}

// All values but the first come back as 0.
#[test]
fn a_disk_that_keeps_no_bytes_gives_zeros(rt: HostRuntime) -> Result<(), Fail> {
    for count in [0, 1, 10_485, 10_486, 31_455] {
        let mut disk = BlankDisk::new(rt.alloc());
        assert_eq!(rt;
            wrong_in_a_life(rt.alloc(), &mut disk, count)?,
            count.max(1) - 1
        );
    }
    Ok(())
}

// Eight new lists, of which `p6` has two pairs and is sealed.
fn with_two_pairs<D: Disk>(
    alloc: Global,
    scratch: &mut Scratch,
    disk: &mut D,
) -> Result<EightLists<12>, WorkFault>
    requires { scratch.old.made ≡ 0 }
    ensures read { IfOk result (λ lists. StandsSealed 26 lists.p6 (D.view disk.new)) }
    ensures two { IfOk result (λ lists. lists.p6.count ≡ 2) }
    ensures pushed { IfOk result (λ lists. ListStands 26 lists.p7 (D.view disk.new)) }
    ensures none { IfOk result (λ lists. lists.p7.count ≡ 0) }
    ensures number { IfOk result (λ lists. lists.p7.number ≡ 7) }
    ensures unsealed { IfOk result (λ lists. lists.p7.is_sealed ≡ false) }
    ensures made { OnOk result (scratch.new.made ≡ 8) }
{
    let values = Ordered::new(alloc, scratch, disk)?;
    let p2 = Ordered::new(alloc, scratch, disk)?;
    let p3 = Ordered::new(alloc, scratch, disk)?;
    let p4 = Ordered::new(alloc, scratch, disk)?;
    let p5 = Ordered::new(alloc, scratch, disk)?;
    let last = Ordered::new(alloc, scratch, disk)?;
    let mut p6 = Ordered::<Pair, 12>::new(alloc, scratch, disk)?;
    p6.push(disk, &Pair { left: 4, right: 1 })?;
    p6.push(disk, &Pair { left: 7, right: 2 })?;
    p6.seal(disk)?;
    let p7 = Ordered::<Pair, 12>::new(alloc, scratch, disk)?;
    Ok(EightLists {
        values,
        p2,
        p3,
        p4,
        p5,
        p6,
        p7,
        last,
    })
}

// The second pair is passed on, and then copied to one more list.
fn passed_and_copied<D: Disk>(alloc: Global, disk: &mut D) -> Result<Pair, WorkFault> {
    let Ok(mut scratch) = Scratch::new(alloc, "s") else {
        return Err(WorkFault::Memory);
    };
    let mut lists = with_two_pairs(alloc, &mut scratch, disk)?;
    lists.pass_on(disk, 1)?;
    lists.p7.seal(disk)?;
    let mut copy = Ordered::<Pair, 12>::new(alloc, &mut scratch, disk)?;
    copy_pairs(disk, &mut lists.p7, &mut copy)?;
    copy.seal(disk)?;
    copy.get(disk, 0)
}

#[test]
fn a_pair_is_passed_on_and_copied(rt: HostRuntime) -> Result<(), Fail> {
    let mut disk = MemoryDisk::new(rt.alloc(), Vec::new(rt.alloc()));
    assert_eq!(rt;
        passed_and_copied(rt.alloc(), &mut disk)?,
        Pair { left: 7, right: 2 }
    );
    Ok(())
}
