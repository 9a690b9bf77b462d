//! The seven tables of a plotting run, each made of the one below.
//!
//! Table 1 has the y of every value. Each next table has an entry for each matching pair of the table below, ordered by
//! y. The entries below are taken one after another, in order; two buckets of them are kept at a time.
//! Source: the Proof of Space Construction document, version 1.1, "forward propagation"; chiapos.
#![tactic(auto)]

ghost use Rattle.std.specs.Prelude.{◌≡◌, ◌++◌, ◌∷◌, [], OnOk};

mod buckets;
mod drafts;
mod entries;
mod faults;
mod first;
mod further;
mod gather;
mod kinds;
mod levels;
mod matcher;
mod seven;
mod store;
mod waiting;

pub use drafts::{Draft, Drafts};
pub use entries::entry_of_parts;
pub use faults::ForwardFault;
pub use first::first_table;
pub use matcher::{MatchFault, Matcher};
use pos_bits::Memory;
pub use seven::forward;

// Appends an item; the only error is want of memory.
#[inline(always)]
fn push<T: Copy>(items: &mut Vec<T>, item: T) -> Result<(), Memory>
    ensures { OnOk result (items.new.items ≡ items.old.items ++ item ∷ []) }
{
    if items.push(item).is_err() {
        return Err(Memory);
    }
    Ok(())
}
