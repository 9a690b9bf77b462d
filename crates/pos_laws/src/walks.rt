//! A span bounds the listing, a walk gives a tree, and one branch the two values of the quality.

ghost use Rattle.pos_laws.specs.WalkLaws.{BranchIsOfTheTree, BranchGivesTheQuality, PairsAreBranches, SpanIsAsked, ListingBySpan, PairsBySpan, BoundsAreThere, OneBound, SpanIsOrdered, WalkIsTheTree, LimbIsTheBranch, WalkFromTheTop, LimbFromTheTop, WalksHaveTheirLength, WalksHaveTheirValues, LimbsHaveTheirValues};

/// A branch ends at the two values of the tree that its bits choose.
pub fn branch_is_of_the_tree()
    ensures { BranchIsOfTheTree }
{}

/// The branch of a place that stands for a tuple in plot order gives the tuple's quality.
pub fn branch_gives_the_quality()
    ensures { BranchGivesTheQuality }
{}

/// The pairs of the listing are the ends of these branches, place by place.
pub fn pairs_are_branches()
    ensures { PairsAreBranches }
{}

/// The numbers asked for are those of the span.
pub fn span_is_asked()
    ensures { SpanIsAsked }
{}

/// The listing is that of the span's places, in order.
pub fn listing_by_span()
    ensures { ListingBySpan }
{}

/// The pairs of the listing are those of the span's places, in order.
pub fn pairs_by_span()
    ensures { PairsBySpan }
{}

/// Where the numbers rise there is a bound for each f7.
pub fn bounds_are_there()
    ensures { BoundsAreThere }
{}

/// There is never more than one bound for an f7.
pub fn one_bound()
    ensures { OneBound }
{}

/// A span is ordered, and ends at the count of table 7 at most.
pub fn span_is_ordered()
    ensures { SpanIsOrdered }
{}

/// Reading the numbers of a plot in range gives its trees.
pub fn walk_is_the_tree<E>()
    ensures { WalkIsTheTree E }
{}

/// Reading one branch of a plot in range gives the branch's two values.
pub fn limb_is_the_branch<E>()
    ensures { LimbIsTheBranch E }
{}

/// Reading from a place of table 7 on gives the tree of its place of table 6.
pub fn walk_from_the_top<E>()
    ensures { WalkFromTheTop E }
{}

/// Reading one branch from a place of table 7 on gives the two values of its place of table 6.
pub fn limb_from_the_top<E>()
    ensures { LimbFromTheTop E }
{}

/// Over any readings a walk that meets nothing wrong gives 2 ^ n values.
pub fn walks_have_their_length<E>()
    ensures { WalksHaveTheirLength E }
{}

/// These are below 2 ^ k where all numbers of table 1 are of values below 2 ^ k.
pub fn walks_have_their_values<E>()
    ensures { WalksHaveTheirValues E }
{}

/// So are the two values of a branch, the lesser first.
pub fn limbs_have_their_values<E>()
    ensures { LimbsHaveTheirValues E }
{}
