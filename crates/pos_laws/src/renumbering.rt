//! The order of line points and a count of marks give each used place one new place.

ghost use Rattle.pos_laws.specs.RenumberingLaws.{NumberedIsRenumbered, NumberedIsApart, GatheredIsRenumbered, ValuesAreApart, PairsDiffer, PointsDiffer, RenumberedIsApart, LastNumbersDiffer, SortedIsLastTable};

/// The work on one level renumbers it.
pub fn numbered_is_renumbered()
    ensures { NumberedIsRenumbered }
{}

/// It gives different used places different new ones, whatever the tables are.
pub fn numbered_is_apart()
    ensures { NumberedIsApart }
{}

/// The same work with the new numbers by old place renumbers the level too.
pub fn gathered_is_renumbered()
    ensures { GatheredIsRenumbered }
{}

/// The values of level 0 differ.
pub fn values_are_apart()
    ensures { ValuesAreApart }
{}

/// The two new places of a used pair differ.
pub fn pairs_differ()
    ensures { PairsDiffer }
{}

/// The line points of two used pairs differ.
pub fn points_differ()
    ensures { PointsDiffer }
{}

/// A renumbering over places that are apart gives places that are apart.
pub fn renumbered_is_apart()
    ensures { RenumberedIsApart }
{}

/// The numbers of table 7 differ.
pub fn last_numbers_differ()
    ensures { LastNumbersDiffer }
{}

/// The numbers of level 6, sorted, are table 7.
pub fn sorted_is_last_table()
    ensures { SortedIsLastTable }
{}
