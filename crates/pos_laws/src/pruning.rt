//! Over the tables of an id, pruning keeps exactly the kept tuples.

ghost use Rattle.pos_laws.specs.PruningLaws.{UsedIsKept};

/// Over the tables of an id, the used places stand for exactly the kept tuples.
pub fn used_is_kept()
    ensures { UsedIsKept }
{}
