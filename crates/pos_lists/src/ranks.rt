//! In a rising list of the marked places each stands at its rank.

ghost use Rattle.pos_lists.specs.RankLaws.{RanksAreBelow, RanksOfAll, RanksAreIndices};

/// A rank is at most its place.
pub fn ranks_are_below()
    ensures { RanksAreBelow }
{}

/// Where every place below is marked, a rank is its place.
pub fn ranks_of_all()
    ensures { RanksOfAll }
{}

/// In a rising list of the marked places each stands at its rank.
pub fn ranks_are_indices()
    ensures { RanksAreIndices }
{}
