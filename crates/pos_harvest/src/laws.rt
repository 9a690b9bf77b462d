//! What holds of files, whatever the code: each law is what a function with an empty body ensures.
ghost use Rattle.pos_harvest.specs.CauseLaws.{CountDamageHasItsCause, HeadDamageHasItsCause, NumberDamageHasItsCause};
ghost use Rattle.pos_harvest.specs.DamageLaws.{BranchDamageIsOfANumber, ProofListDamageIsOfTheFile, QualityListDamageIsOfANumber, SpanDamageIsOfANumber, TupleDamageIsOfANumber};
ghost use Rattle.pos_harvest.specs.ListLaws.{EachPlaceHasAProof, EachPlaceHasAQuality, ListedAreTheProofs, ListedAreTheQualities, OnlyAPlaceWithoutProof, QualityIsOfTheBranch, QualityIsOfTheProof, TupleIsTheTree};
ghost use Rattle.pos_harvest.specs.SpanLaws.{BoundIsOfTheList, NoLastDamage, OneSpan, SpanIsOfTheList};

/// Over a file that stores a plot, the bounds and the span that reads of table 7 show are those of the plot's list. There is
/// just one span, and no such read shows a damage.
pub fn a_plots_span_is_shown()
    ensures bound { BoundIsOfTheList }
    ensures span { SpanIsOfTheList }
    ensures one { OneSpan }
    ensures no_damage { NoLastDamage }
{}

/// Over a whole file each place of table 7 unfolds to the tree of its place of table 6 and has the quality of this tree's
/// branch, which is that of the proof, where the place shows one. In place of qualities no damage is shown, and in place of
/// proofs only a place without one.
pub fn a_whole_files_places_are_shown()
    ensures tuple { TupleIsTheTree }
    ensures branch { QualityIsOfTheBranch }
    ensures quality { QualityIsOfTheProof }
    ensures no_damage { EachPlaceHasAQuality }
    ensures without_proof { OnlyAPlaceWithoutProof }
{}

/// Over the plot of an id, what is listed for a challenge is exactly its proofs, each once, by rising plot order, and the
/// qualities listed are those of these proofs, in their order; and no damage is shown in place of them.
pub fn a_plots_proofs_are_listed()
    ensures proofs { ListedAreTheProofs }
    ensures qualities { ListedAreTheQualities }
    ensures no_damage { EachPlaceHasAProof }
{}

/// In a file that opens, whatever its bytes are, the damage of a number, of a head and of a count comes exactly where its cause
/// holds.
pub fn damages_have_their_causes()
    ensures number { NumberDamageHasItsCause }
    ensures head { HeadDamageHasItsCause }
    ensures count { CountDamageHasItsCause }
{}

/// In a file that opens, whatever its bytes are, each damage of a span, of the tuple of a place and of its branch is one of a
/// number; so what is answered in place of a list is a damage of the file.
pub fn damages_are_of_the_file()
    ensures span { SpanDamageIsOfANumber }
    ensures tuple { TupleDamageIsOfANumber }
    ensures branch { BranchDamageIsOfANumber }
    ensures proofs { ProofListDamageIsOfTheFile }
    ensures qualities { QualityListDamageIsOfANumber }
{}
