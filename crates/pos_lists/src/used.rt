//! Marks that go down table by table are on exactly the used places.

ghost use Rattle.pos_lists.specs.UsedLaws.{UsedIsInside, MarkedByTheNextTable, PrunedByTables, NothingIsNamed, APairIsNamed, APairIsPassedOver};

/// Where the pairs point into the level below, used places are places.
pub fn used_is_inside()
    ensures { UsedIsInside }
{}

/// The used places of a level are those that the used places of the next are made of.
pub fn marked_by_the_next_table()
    ensures { MarkedByTheNextTable }
{}

/// Marks on all of level 6, and below on what is marked above, are on the used places.
pub fn pruned_by_tables()
    ensures { PrunedByTables }
{}

/// Before a pass over the pairs of a table nothing is named below.
pub fn nothing_is_named()
    ensures { NothingIsNamed }
{}

/// A marked place names its two places.
pub fn a_pair_is_named()
    ensures { APairIsNamed }
{}

/// A place that is not marked names none.
pub fn a_pair_is_passed_over()
    ensures { APairIsPassedOver }
{}
