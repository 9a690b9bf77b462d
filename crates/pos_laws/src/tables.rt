//! Made table by table, the tables describe the id; their counts are those of the tuples with a node.

ghost use Rattle.pos_laws.specs.TableLaws.{FirstTableIsRight, NextTableIsRight, FirstTableIsMade, NextTableIsMade, MadeTablesDescribe, NoneIsAbove, EntriesAreAbove, PairsAreAbove, DescribedIsSound, MorePairsAreFull, NoneIsFull, OneIsFull};

/// The entries of all values are those of level 0.
pub fn first_table_is_right()
    ensures { FirstTableIsRight }
{}

/// The entries of all matching pairs of a level are those of the next level.
pub fn next_table_is_right()
    ensures { NextTableIsRight }
{}

/// A run that has the first table, in the order of y, has made level 0.
pub fn first_table_is_made()
    ensures { FirstTableIsMade }
{}

/// A run that adds the next table, in the order of y, has made one more level.
pub fn next_table_is_made()
    ensures { NextTableIsMade }
{}

/// Tables that are made up to level 6, with the y of its entries, are those of the id.
pub fn made_tables_describe()
    ensures { MadeTablesDescribe }
{}

/// A level with at most c entries has no more than c tuples with a node.
pub fn none_is_above()
    ensures { NoneIsAbove }
{}

/// A level with more than c entries has more than c tuples with a node.
pub fn entries_are_above()
    ensures { EntriesAreAbove }
{}

/// More than c matching pairs of a level are more than c tuples with a node at the next.
pub fn pairs_are_above()
    ensures { PairsAreAbove }
{}

/// The tables of an id are sound.
pub fn described_is_sound()
    ensures { DescribedIsSound }
{}

/// Where the levels so far are not too long and the next has too many pairs, the next table is the first that is full.
pub fn more_pairs_are_full()
    ensures { MorePairsAreFull }
{}

/// Where no level is too long no table is full.
pub fn none_is_full()
    ensures { NoneIsFull }
{}

/// At most one table is the first that is full.
pub fn one_is_full()
    ensures { OneIsFull }
{}
