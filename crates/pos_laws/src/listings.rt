//! Turned to proofs, the listing of a plot is exactly the list of the proofs for a challenge.

ghost use Rattle.pos_laws.specs.ListingLaws.{ListingTurns, TurnedListingIsTheList, OneList, PairsGiveTheQualities};

/// Each tuple of the listing of the plot of an id has a turning that is a proof.
pub fn listing_turns()
    ensures { ListingTurns }
{}

/// These turnings, in the order of the listing, are exactly the proofs in plot order.
pub fn turned_listing_is_the_list()
    ensures { TurnedListingIsTheList }
{}

/// There is at most one list of the proofs for a challenge.
pub fn one_list()
    ensures { OneList }
{}

/// The quality of each listed proof is that of the listing's pair of values.
pub fn pairs_give_the_qualities()
    ensures { PairsGiveTheQualities }
{}
