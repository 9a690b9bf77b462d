//! Entries of a level that are numbered by their points, in both widths.
ghost use Rattle.std.specs.Prelude.{◌≡◌, ◌^◌, ◌<◌, ◌≤◌, ◌++◌, ◌∷◌, [], All, IfErr, OnOk};

use pos_edge::{CreateFault, Disk, MemoryDisk, ScratchDamage, WorkFault};
use pos_layout::{Layout, PlotWriter};
use pos_relocate::{Narrow, Pointed, Wide, number};
use pos_tuple::{Id, Size};
use std::alloc::Global;
use std::test::Fail;

// Appends an item; the only error is want of memory.
fn push<T: Copy>(items: &mut Vec<T>, item: T) -> Result<(), WorkFault>
    ensures ok { OnOk result (items.new.items ≡ items.old.items ++ item ∷ []) }
    ensures fault { IfErr result (λ fault. fault ≡ WorkFault.Memory) }
{
    if items.push(item).is_err() {
        return Err(WorkFault::Memory);
    }
    Ok(())
}

// The new places of a level of five places at size 10, of which places 0, 2 and 4 have these points.
fn places_of_three<P: Pointed>(alloc: Global, points: &[u128; 3]) -> Result<Vec<u64>, WorkFault>
    requires room { 2 ^ 22 ≤ P.bound }
    requires small { All (λ point. point < 2 ^ 22) points.now }
{
    let mut disk = MemoryDisk::new(alloc, Vec::new(alloc));
    let file = match disk.create("p") {
        Ok(file) => file,
        Err(CreateFault::Memory) => return Err(WorkFault::Memory),
        Err(_) => return Err(WorkFault::DiskFailed),
    };
    let id = Id([0; 32]);
    let mut writer = PlotWriter::begin(
        alloc,
        file,
        Layout::Two,
        &[],
        &id,
        Size::of(10),
        &mut disk,
    )?;
    let mut entries = Vec::new(alloc);
    push(&mut entries, P::new(points[0], 0))?;
    push(&mut entries, P::new(points[1], 2))?;
    push(&mut entries, P::new(points[2], 4))?;
    number::<P, MemoryDisk, 10>(alloc, entries, 5, 7, &mut writer, &mut disk)
}

// 3 is the least, then 5, then 7.
#[test]
fn entries_are_numbered_by_point_in_both_widths(rt: HostRuntime) -> Result<(), Fail> {
    let want = [2, 0, 0, 0, 1];
    let narrow = places_of_three::<Narrow>(rt.alloc(), &[7, 3, 5])?;
    assert_eq!(rt; narrow.as_slice(), want.as_slice());
    let wide = places_of_three::<Wide>(rt.alloc(), &[7, 3, 5])?;
    assert_eq!(rt; wide.as_slice(), want.as_slice());
    Ok(())
}

// The first and the last have one point: either may come second.
#[test]
fn a_repeated_point_is_damage(rt: HostRuntime) -> Result<(), Fail> {
    match places_of_three::<Narrow>(rt.alloc(), &[7, 3, 7]) {
        Err(
            WorkFault::Scratch(
                ScratchDamage {
                    file,
                    at,
                    found,
                    least,
                    limit,
                },
            ),
        ) => {
            assert_eq!(rt; (file, at % 4, found), (7, 0, 7));
            assert_eq!(rt; (least, limit), (8, 4_194_304));
        }
        _ => assert!(rt; false),
    }
    Ok(())
}
