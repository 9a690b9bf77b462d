//! Line points keep the order of trees, and a tuple is a turning of its plot order.

ghost use Rattle.pos_laws.specs.OrderLaws.{BelowIsTotal, BelowGoesOneWay, BelowIsTransitive, PointsRise, PointsRiseAsTrees, PointsArePlotOrdered, TuplesTurnTheirPlotOrder};

/// Of two different tuples of one length just one is below the other.
pub fn below_is_total()
    ensures { BelowIsTotal }
{}

/// Two tuples are not both below each other.
pub fn below_goes_one_way()
    ensures { BelowGoesOneWay }
{}

/// A tuple is below what a tuple above it is below.
pub fn below_is_transitive()
    ensures { BelowIsTransitive }
{}

/// Line points rise with the greater number, and then with the lesser one.
pub fn points_rise()
    ensures { PointsRise }
{}

/// Over trees that rise, rising line points give joined trees that rise.
pub fn points_rise_as_trees()
    ensures { PointsRiseAsTrees }
{}

/// The joined tree of two places' line point has the lesser of their trees first.
pub fn points_are_plot_ordered()
    ensures { PointsArePlotOrdered }
{}

/// A tuple is a turning of its plot order.
pub fn tuples_turn_their_plot_order()
    ensures { TuplesTurnTheirPlotOrder }
{}
