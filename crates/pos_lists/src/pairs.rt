//! The pairs in order.

ghost use Rattle.pos_lists.specs.PairLaws.{PairsAreInOrder};

/// Each pair has its greater number first.
pub fn pairs_are_in_order()
    ensures { PairsAreInOrder }
{}
