// Laws of plot order: each is the contract of a function that does nothing.
ghost use Rattle.pos_order.specs.OrderLaws.{OneTurning, PlotOrderIsExact, TurningsHaveOnePlotOrder, TurningsHaveOneQuality};

/// A tuple and each of its turnings have one plot order.
pub fn turnings_have_one_plot_order()
    ensures { TurningsHaveOnePlotOrder }
{}

/// A proof and each of its turnings have one quality.
pub fn turnings_have_one_quality()
    ensures { TurningsHaveOneQuality }
{}

/// Two tuples that have a node and one plot order are one tuple.
pub fn plot_order_is_exact()
    ensures { PlotOrderIsExact }
{}

/// At most one turning of a tuple has a node.
pub fn one_turning()
    ensures { OneTurning }
{}
