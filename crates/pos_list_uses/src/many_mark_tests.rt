ghost use Rattle.std.specs.Prelude.{◌≡◌, ◌^◌, ◌<◌, ◌≤◌, ℕ, Bool, length, IfOk, OnOk};
ghost use Rattle.pos_marks.specs.Marks.{AreSealed, AreUnsealed, Marked, place_count};

use pos_edge::{Disk, MemoryDisk, Scratch, WorkFault};
use pos_marks::Marks;
use std::alloc::Global;
use std::test::Fail;

// How many places there are: two whole pages of 524,288 and a part of a third, and 292 whole blocks and a part of another.
const PLACES: usize = 1_200_000;

// How many times a place is marked.
const MARKINGS: u64 = 12_000;

// How many places are asked for out of order.
const JUMPS: u64 = 600;

// How many places a block has: marks are counted before each.
const BLOCK_PLACES: u64 = 4096;

// The number after this one in a linear congruential sequence.
fn next_number(number: u64) -> u64 {
    number
        .wrapping_mul(6_364_136_223_846_793_005)
        .wrapping_add(1_442_695_040_888_963_407)
}

// The place that a number stands for. One number in sixteen stands for the first place of a block, and one for the last.
fn place_of(number: u64, places: usize) -> usize
    requires { 0 < places }
    ensures { result < places }
{
    let limit = places as u64;
    let place = (number >> 32) % limit;
    let first = place - place % BLOCK_PLACES;
    let last = first + (BLOCK_PLACES - 1);
    let chosen = match number % (1 << 32) >> 28 {
        0 => first,
        1 => last,
        _ => place,
    };
    if chosen < limit {
        chosen as usize
    } else {
        place as usize
    }
}

// Marks places in no order, some of them twice, and notes each.
fn mark_and_note<D: Disk>(
    marks: &mut Marks,
    noted: &mut [bool],
    disk: &mut D,
) -> Result<(), WorkFault>
    requires stands { (p : ℕ → Bool) × Marked marks.old p (D.view disk.old) }
    requires unsealed { AreUnsealed marks.old }
    requires some { 0 < length noted.old }
    requires places { place_count marks.old ≡ length noted.old }
    ensures stands { (p : ℕ → Bool) × Marked marks.new p (D.view disk.new) }
    ensures unsealed { AreUnsealed marks.new }
    ensures places { place_count marks.new ≡ length noted.old }
    ensures count { length noted.new ≡ length noted.old }
{
    let mut number = 1u64;
    for _ in 0..MARKINGS {
        number = next_number(number);
        let place = place_of(number, noted.len());
        marks.set(disk, place as u64)?;
        noted[place] = true;
    }
    Ok(())
}

// Sealed marks, with the same places marked that are noted.
fn marked_and_noted<D: Disk>(
    alloc: Global,
    noted: &mut [bool],
    scratch: &mut Scratch,
    disk: &mut D,
) -> Result<Marks, WorkFault>
    requires some { 0 < length noted.old }
    requires few { length noted.old < 2 ^ 40 }
    requires room { scratch.old.made ≡ 0 }
    ensures stands { IfOk result (λ marks. (p : ℕ → Bool) × Marked marks p (D.view disk.new)) }
    ensures sealed { IfOk result (λ marks. AreSealed marks) }
    ensures places { IfOk result (λ marks. place_count marks ≡ length noted.old) }
    ensures count { OnOk result (length noted.new ≡ length noted.old) }
{
    let mut marks = Marks::new(alloc, noted.len() as u64, scratch, disk)?;
    mark_and_note(&mut marks, noted, disk)?;
    marks.seal(disk)?;
    Ok(marks)
}

// How many places are noted.
fn noted_of(noted: &[bool]) -> u64 {
    let mut count = 0u64;
    for i in 0..noted.len() {
        if noted[i] {
            count += 1;
        }
    }
    count
}

// Of each place, how many places below it are noted.
fn below_each(alloc: Global, noted: &[bool]) -> Result<Vec<u64>, WorkFault>
    ensures { IfOk result (λ below. length below.items ≡ length noted.now) }
{
    let mut below = vec![in alloc; 0u64; noted.len()].map_err(|_| WorkFault::Memory)?;
    let mut count = 0u64;
    for i in 0..noted.len() {
        below[i] = count;
        if noted[i] {
            count += 1;
        }
    }
    Ok(below)
}

// Whether a place is marked and not noted, or noted and not marked, or the marks count other places below it than are noted.
fn differs<D: Disk>(
    marks: &mut Marks,
    place: usize,
    is_noted: bool,
    below: u64,
    disk: &mut D,
) -> Result<bool, WorkFault>
    requires stands { (p : ℕ → Bool) × Marked marks.old p (D.view disk.old) }
    requires sealed { AreSealed marks.old }
    requires inside { place < place_count marks.old }
    ensures stands { OnOk result ((p : ℕ → Bool) × Marked marks.new p (D.view disk.new)) }
    ensures sealed { AreSealed marks.new }
    ensures places { place_count marks.new ≡ place_count marks.old }
{
    let is_marked = marks.has(disk, place as u64)?;
    let counted = marks.rank(disk, place as u64)?;
    Ok(is_marked != is_noted || counted != below)
}

// Whether a place is one of those asked for in order: every seventh, and the first and last two of each block.
fn is_asked(place: usize) -> bool {
    let in_block = place as u64 % BLOCK_PLACES;
    place % 7 == 0 || in_block < 2 || BLOCK_PLACES - 2 <= in_block
}

// How many places are asked for in order, and at how many of them the marks differ.
fn differing_in_order<D: Disk>(
    marks: &mut Marks,
    noted: &[bool],
    below: &[u64],
    disk: &mut D,
) -> Result<[u64; 2], WorkFault>
    requires stands { (p : ℕ → Bool) × Marked marks.old p (D.view disk.old) }
    requires sealed { AreSealed marks.old }
    requires places { place_count marks.old ≡ length noted.now }
    requires count { length below.now ≡ length noted.now }
    ensures stands { OnOk result ((p : ℕ → Bool) × Marked marks.new p (D.view disk.new)) }
    ensures sealed { AreSealed marks.new }
    ensures places { place_count marks.new ≡ length noted.now }
{
    let mut asked = 0u64;
    let mut differing = 0u64;
    for i in 0..noted.len() {
        if is_asked(i) {
            asked += 1;
            if differs(marks, i, noted[i], below[i], disk)? {
                differing += 1;
            }
        }
    }
    Ok([asked, differing])
}

// At how many places the marks differ that are asked for in no order.
fn differing_in_jumps<D: Disk>(
    marks: &mut Marks,
    noted: &[bool],
    below: &[u64],
    disk: &mut D,
) -> Result<u64, WorkFault>
    requires stands { (p : ℕ → Bool) × Marked marks.old p (D.view disk.old) }
    requires sealed { AreSealed marks.old }
    requires some { 0 < length noted.now }
    requires places { place_count marks.old ≡ length noted.now }
    requires count { length below.now ≡ length noted.now }
    ensures stands { OnOk result ((p : ℕ → Bool) × Marked marks.new p (D.view disk.new)) }
    ensures sealed { AreSealed marks.new }
    ensures places { place_count marks.new ≡ length noted.now }
{
    let mut differing = 0u64;
    let mut number = 2u64;
    for _ in 0..JUMPS {
        number = next_number(number);
        let place = place_of(number, noted.len());
        if differs(marks, place, noted[place], below[place], disk)? {
            differing += 1;
        }
    }
    Ok(differing)
}

// How many places are noted, how many the marks count, how many are asked for in order, at how many of these the marks differ,
// and at how many that are asked for in no order.
fn compared<D: Disk>(alloc: Global, noted: &mut [bool], disk: &mut D) -> Result<[u64; 5], WorkFault>
    requires some { 0 < length noted.old }
    requires few { length noted.old < 2 ^ 40 }
{
    let mut scratch = Scratch::new(alloc, "s").map_err(|_| WorkFault::Memory)?;
    let mut marks = marked_and_noted(alloc, noted, &mut scratch, disk)?;
    let below = below_each(alloc, noted)?;
    let [asked, in_order] = differing_in_order(&mut marks, noted, &below, disk)?;
    let in_jumps = differing_in_jumps(&mut marks, noted, &below, disk)?;
    let counted = marks.rank(disk, noted.len() as u64)?;
    Ok([noted_of(noted), counted, asked, in_order, in_jumps])
}

// The same places are noted in memory, a bool for each, and plain loops count them. How many are noted, some of the markings
// being of a place that was marked before, and how many are asked for are numbers that an independent program gives.
#[test]
fn the_places_of_three_pages_are_marked_and_counted(rt: HostRuntime) -> Result<(), Fail> {
    let mut noted = vec![in rt.alloc(); false; PLACES]?;
    let mut disk = MemoryDisk::new(rt.alloc(), Vec::new(rt.alloc()));
    assert_eq!(rt;
        compared(rt.alloc(), noted.as_mut_slice(), &mut disk)?,
        [11_026, 11_026, 172_432, 0, 0]
    );
    Ok(())
}
