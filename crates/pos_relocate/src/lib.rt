//! Relocation: the used entries of a run's tables get new places by the order of their line points, and the numbers of
//! the plot file's seven tables are written from them.
//!
//! A pass over one table gathers its used entries with their points, sorts them by point with one call of the library's
//! sort, adds the points to the writer, and keeps the new places by old place in memory for the table above. So each list
//! on pages is read once and in order, and no scratch file is made.
//! Source: the Construction document, "compression" and "sort on line points".
#![tactic(auto)]

ghost use Rattle.std.specs.Prelude.{◌≡◌, ◌++◌, ◌∷◌, [], IfErr, IfOk, OnOk};

mod blocks;
mod chosen;
mod gathering;
mod lasts;
mod levels;
mod numbering;
mod numbers;
mod pointed;
mod relocating;

pub use numbering::number;
pub use pointed::{Narrow, Pointed, Wide};
use pos_edge::WorkFault;
pub use relocating::relocate_tables;
use std::alloc::Global;

// No items, with room for so many.
fn with_room<T: Copy>(alloc: Global, count: u64) -> Result<Vec<T>, WorkFault>
    ensures ok { IfOk result (λ items. items.items ≡ []) }
    ensures fault { IfErr result (λ fault. fault ≡ WorkFault.Memory) }
{
    Vec::with_capacity(alloc, count as usize).map_err(|_| WorkFault::Memory)
}

// Appends an item; the only error is want of memory.
#[inline(always)]
fn push<T: Copy>(items: &mut Vec<T>, item: T) -> Result<(), WorkFault>
    ensures ok { OnOk result (items.new.items ≡ items.old.items ++ item ∷ []) }
    ensures fault { IfErr result (λ fault. fault ≡ WorkFault.Memory) }
{
    if items.push(item).is_err() {
        return Err(WorkFault::Memory);
    }
    Ok(())
}
