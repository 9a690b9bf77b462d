ghost use Rattle.std.specs.Prelude.{◌≡◌, ◌^◌, ◌<◌, ◌≤◌, ℕ, Bool, IfOk, OnOk};
ghost use Rattle.pos_edge.specs.ScratchNames.{with_file};
ghost use Rattle.pos_marks.specs.Marks.{AreSealed, Marked, marks_file, place_count};

use pos_edge::{BlankDisk, Disk, MemoryDisk, Scratch, WorkFault};
use pos_marks::Marks;
use std::alloc::Global;
use std::test::Fail;

// How many of no places are marked.
fn none_of_none<D: Disk>(alloc: Global, disk: &mut D) -> Result<u64, WorkFault> {
    let mut scratch = Scratch::new(alloc, "s").map_err(|_| WorkFault::Memory)?;
    let mut marks = Marks::new(alloc, 0, &mut scratch, disk)?;
    marks.seal(disk)?;
    marks.rank(disk, 0)
}

#[test]
fn of_no_places_none_is_marked(rt: HostRuntime) -> Result<(), Fail> {
    let mut disk = MemoryDisk::new(rt.alloc(), Vec::new(rt.alloc()));
    assert_eq!(rt; none_of_none(rt.alloc(), &mut disk)?, 0);
    Ok(())
}

// Sealed marks of ten places, with place 2 marked twice and place 7 once.
fn two_of_ten<D: Disk>(
    alloc: Global,
    scratch: &mut Scratch,
    disk: &mut D,
) -> Result<Marks, WorkFault>
    requires { scratch.old.made ≡ 0 }
    ensures stands { IfOk result (λ marks. (p : ℕ → Bool) × Marked marks p (D.view disk.new)) }
    ensures sealed { IfOk result (λ marks. AreSealed marks) }
    ensures places { IfOk result (λ marks. place_count marks ≡ 10) }
    ensures made { IfOk result (λ marks. scratch.new ≡ with_file scratch.old (marks_file marks)) }
{
    let mut marks = Marks::new(alloc, 10, scratch, disk)?;
    marks.set(disk, 2)?;
    marks.set(disk, 7)?;
    marks.set(disk, 2)?;
    marks.seal(disk)?;
    Ok(marks)
}

// Of each of ten places, whether it is marked.
fn marked_of_ten<D: Disk>(marks: &mut Marks, disk: &mut D) -> Result<[bool; 10], WorkFault>
    requires stands { (p : ℕ → Bool) × Marked marks.old p (D.view disk.old) }
    requires sealed { AreSealed marks.old }
    requires places { place_count marks.old ≡ 10 }
    ensures stands { OnOk result ((p : ℕ → Bool) × Marked marks.new p (D.view disk.new)) }
    ensures sealed { AreSealed marks.new }
    ensures places { place_count marks.new ≡ 10 }
    ensures file { marks_file marks.new ≡ marks_file marks.old }
{
    let mut marked = [false; 10];
    for i in 0..10 {
        marked[i] = marks.has(disk, i as u64)?;
    }
    Ok(marked)
}

// Of each of ten places and of their limit, how many places below it are marked.
fn below_of_ten<D: Disk>(marks: &mut Marks, disk: &mut D) -> Result<[u64; 11], WorkFault>
    requires stands { (p : ℕ → Bool) × Marked marks.old p (D.view disk.old) }
    requires sealed { AreSealed marks.old }
    requires places { place_count marks.old ≡ 10 }
    ensures stands { OnOk result ((p : ℕ → Bool) × Marked marks.new p (D.view disk.new)) }
    ensures file { marks_file marks.new ≡ marks_file marks.old }
{
    let mut below = [0; 11];
    for i in 0..11 {
        below[i] = marks.rank(disk, i as u64)?;
    }
    Ok(below)
}

// The life of a set of marks, with what it answered.
fn life_of_two<D: Disk>(
    alloc: Global,
    disk: &mut D,
) -> Result<([bool; 10], [u64; 11], u32), WorkFault> {
    let mut scratch = Scratch::new(alloc, "s").map_err(|_| WorkFault::Memory)?;
    let mut marks = two_of_ten(alloc, &mut scratch, disk)?;
    let marked = marked_of_ten(&mut marks, disk)?;
    let below = below_of_ten(&mut marks, disk)?;
    let file = marks.file();
    marks.remove(&mut scratch, disk)?;
    Ok((marked, below, file))
}

#[test]
fn two_places_of_ten_are_marked_and_counted(rt: HostRuntime) -> Result<(), Fail> {
    let mut disk = MemoryDisk::new(rt.alloc(), Vec::new(rt.alloc()));
    let (marked, below, file) = life_of_two(rt.alloc(), &mut disk)?;
    let at_two_and_seven = [
        false, false, true, false, false, false, false, true, false, false,
    ];
    assert_eq!(rt; marked, at_two_and_seven);
    assert_eq!(rt; below, [0, 0, 0, 1, 1, 1, 1, 1, 2, 2, 2]);
    assert_eq!(rt; file, 0);
    assert!(rt; disk.contents("s.0").is_none());
    Ok(())
}

// A disk that keeps no bytes gives zeros.
#[test]
fn on_a_disk_that_keeps_no_bytes_none_is_marked(rt: HostRuntime) -> Result<(), Fail> {
    let mut disk = BlankDisk::new(rt.alloc());
    let (marked, below, _) = life_of_two(rt.alloc(), &mut disk)?;
    assert_eq!(rt; marked, [false; 10]);
    assert_eq!(rt; below, [0; 11]);
    Ok(())
}

// Sealed marks of so many places, with the first and the last one marked.
fn marked_ends<D: Disk>(
    alloc: Global,
    places: u64,
    scratch: &mut Scratch,
    disk: &mut D,
) -> Result<Marks, WorkFault>
    requires some { 0 < places }
    requires few { places ≤ 2 ^ 20 }
    requires room { scratch.old.made ≡ 0 }
    ensures stands { IfOk result (λ marks. (p : ℕ → Bool) × Marked marks p (D.view disk.new)) }
    ensures sealed { IfOk result (λ marks. AreSealed marks) }
    ensures places { IfOk result (λ marks. place_count marks ≡ places) }
{
    let mut marks = Marks::new(alloc, places, scratch, disk)?;
    marks.set(disk, 0)?;
    marks.set(disk, places - 1)?;
    marks.seal(disk)?;
    Ok(marks)
}

// Whether a place is marked, and how many are up to and with it.
fn asked<D: Disk>(marks: &mut Marks, disk: &mut D, i: u64) -> Result<(bool, u64), WorkFault>
    requires stands { (p : ℕ → Bool) × Marked marks.old p (D.view disk.old) }
    requires sealed { AreSealed marks.old }
    requires few { i < 2 ^ 20 }
    requires inside { i < place_count marks.old }
    ensures stands { OnOk result ((p : ℕ → Bool) × Marked marks.new p (D.view disk.new)) }
    ensures sealed { AreSealed marks.new }
    ensures places { place_count marks.new ≡ place_count marks.old }
{
    let is_marked = marks.has(disk, i)?;
    let up_to = marks.rank(disk, i + 1)?;
    Ok((is_marked, up_to))
}

// What is answered at the first and at the last of so many places, both of them marked.
fn ends_of<D: Disk>(
    alloc: Global,
    disk: &mut D,
    places: u64,
) -> Result<((bool, u64), (bool, u64)), WorkFault>
    requires some { 0 < places }
    requires few { places ≤ 2 ^ 20 }
{
    let mut scratch = Scratch::new(alloc, "s").map_err(|_| WorkFault::Memory)?;
    let mut marks = marked_ends(alloc, places, &mut scratch, disk)?;
    let first = asked(&mut marks, disk, 0)?;
    let last = asked(&mut marks, disk, places - 1)?;
    Ok((first, last))
}

// A page has 524,288 places, and marks are counted in memory before each multiple of 4,096. A disk that keeps no bytes
// leaves those counts.
#[test]
fn the_ends_of_a_page_are_marked_and_counted(rt: HostRuntime) -> Result<(), Fail> {
    for (places, both, counted) in [(1, 1, 0), (524_287, 2, 1), (524_288, 2, 2), (524_289, 2, 1)] {
        let mut disk = MemoryDisk::new(rt.alloc(), Vec::new(rt.alloc()));
        assert_eq!(rt;
            ends_of(rt.alloc(), &mut disk, places)?,
            ((true, 1), (true, both))
        );
        let mut blank = BlankDisk::new(rt.alloc());
        assert_eq!(rt;
            ends_of(rt.alloc(), &mut blank, places)?,
            ((false, 0), (false, counted))
        );
    }
    Ok(())
}
