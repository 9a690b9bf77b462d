//! Several plots asked for a challenge, and the best of their answers.
ghost use Rattle.std.specs.Prelude.{◌≡◌, ◌≤◌, ℕ, All, IfOk, length, map, string_bytes};
ghost use Rattle.pos_edge.specs.Faults.{RoseBy};
ghost use Rattle.pos_edge.specs.Frame.{ChangesOnly, Nothing, SameFaults};
ghost use Rattle.pos_farm.specs.Offers.{IsFirstOf};
ghost use Rattle.pos_farm.specs.PlotAnswers.{AreAnswers, OffersTruly, bests_from, failures};
ghost use Rattle.pos_farm.specs.declared.list.TheConstants.{MOST_NAMES};

use crate::asking::ask;
use crate::list::MOST_NAMES;
use crate::offer::{Answer, Offer, best_in, better_plot};
use pos_edge::{Disk, Memory};
use pos_tuple::Challenge;
use std::alloc::Global;

/// Asks the plot files of these names, at most 256, for their proofs of a challenge, one after another.
///
/// Each answer is that of its plot alone, as `ask` says it: a plot that is absent, damaged or fails ends nothing. The disk's
/// faults rose at least as often as `DiskFailed` is answered, and are as they were where it is not. No file changes. At a want
/// of memory nothing is said of the plots.
pub fn farm<D: Disk>(
    alloc: Global,
    names: &[String],
    challenge: &Challenge,
    disk: &mut D,
) -> Result<Vec<Answer>, Memory>
    requires { length names.now ≤ MOST_NAMES }
    ensures kept { ChangesOnly Nothing Nothing (D.view disk.old) (D.view disk.new) }
    ensures answers { IfOk result (λ answers. AreAnswers (map string_bytes names.now) challenge.now.0 (D.view disk.old) answers.items) }
    ensures truly { IfOk result (λ answers. All (OffersTruly challenge.now.0) answers.items) }
    ensures failed { IfOk result (λ answers. RoseBy (failures answers.items) (D.view disk.old).faults (D.view disk.new).faults) }
    ensures quiet { IfOk result (λ answers. failures answers.items ≡ 0 → SameFaults (D.view disk.old) (D.view disk.new)) }
{
    let mut answers = Vec::new(alloc);
    for i in 0..names.len() {
        let answer = ask(alloc, names[i].as_str(), challenge, disk)?;
        let Ok(()) = answers.push(answer) else {
            return Err(Memory);
        };
    }
    Ok(answers)
}

/// The first offer of all that these answers name, with the number of its plot. None exactly where no plot has an offer. No
/// memory.
pub fn best(answers: &[Answer]) -> Option<(u64, Offer)>
    ensures { IsFirstOf (bests_from 0 answers.now) result }
{
    let mut best = None;
    for i in 0..answers.len() {
        best = better_plot(best, i as u64, best_in(&answers[i]));
    }
    best
}
