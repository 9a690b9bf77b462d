//! What holds of summaries, whatever the code: each law is what a function with an empty body ensures.
ghost use Rattle.pos_check.specs.SummaryLaws.{EachChallengeIsChecked, OneSummary, OnlyAPlaceStopsACheck, SummaryIsOfTheProofs};

/// Over the plot of an id the summary of some challenges is that of all its proofs for them, and no damage is shown in place
/// of it.
pub fn a_plots_summary_is_of_its_proofs()
    ensures summary { SummaryIsOfTheProofs }
    ensures no_damage { EachChallengeIsChecked }
{}

/// Over a whole file there is just one summary of so many challenges, and in place of it only a place without a proof.
pub fn a_whole_files_summary_is_one()
    ensures one { OneSummary }
    ensures without_proof { OnlyAPlaceStopsACheck }
{}
