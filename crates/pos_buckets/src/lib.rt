//! The matching pairs of two neighbouring buckets.
//!
//! Given the values of one bucket and those of the next, `Targets` lists each pair of places whose values match, once.
//! Each left value has 64 targets in the next bucket; they are sums of two small tables. Which places of that bucket
//! have a value, and which is the first there, is kept in `Places`, which is made once and used for every bucket.
//! Source of the rule: the Proof of Space Construction document, version 1.1, "matching function"; chiapos, `FxCalculator`.
#![tactic(auto)]

ghost use Rattle.std.specs.Prelude.{◌≡◌, ◌++◌, ◌∷◌, [], OnOk};

mod pairs;
mod places;
mod targets;

pub use places::Places;
use pos_bits::Memory;
pub use targets::Targets;

// Appends an item; the only error is want of memory.
#[inline(always)]
fn push<T: Copy>(items: &mut Vec<T>, item: T) -> Result<(), Memory>
    ensures { OnOk result (items.new.items ≡ items.old.items ++ item ∷ []) }
{
    if items.push(item).is_err() {
        return Err(Memory);
    }
    Ok(())
}

#[cfg(test)]
mod tests;
