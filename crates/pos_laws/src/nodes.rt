//! No pair matches both ways, and a node's parts have their sizes.

ghost use Rattle.pos_laws.specs.NodeLaws.{MatchGoesOneWay, NodesHaveTheirLength, NodeValuesAreBelow, NodesHaveTheirBits, NodesHaveTheirMetadata};

/// A right value matches no left value back.
pub fn match_goes_one_way()
    ensures { MatchGoesOneWay }
{}

/// A tuple with a node at level n has 2 ^ n values.
pub fn nodes_have_their_length()
    ensures { NodesHaveTheirLength }
{}

/// Each value of a tuple with a node is below 2 ^ k.
pub fn node_values_are_below()
    ensures { NodeValuesAreBelow }
{}

/// The y of a node has k + 6 bits.
pub fn nodes_have_their_bits()
    ensures { NodesHaveTheirBits }
{}

/// The metadata of a node has the bits of its table.
pub fn nodes_have_their_metadata()
    ensures { NodesHaveTheirMetadata }
{}
