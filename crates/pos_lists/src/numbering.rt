//! Numbering the marked places of a level by rising point.

ghost use Rattle.pos_lists.specs.NumberingLaws.{NothingIsGathered, APlaceIsGathered, APlaceIsPassedOver, RisesOrRepeats};

/// Of no places nothing is gathered.
pub fn nothing_is_gathered()
    ensures { NothingIsGathered }
{}

/// A marked place goes to the end of what is gathered.
pub fn a_place_is_gathered()
    ensures { APlaceIsGathered }
{}

/// A place that is not marked is passed over.
pub fn a_place_is_passed_over()
    ensures { APlaceIsPassedOver }
{}

/// A list that never falls rises, or has a first repetition.
pub fn rises_or_repeats()
    ensures { RisesOrRepeats }
{}
