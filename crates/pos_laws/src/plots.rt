//! The pruned and renumbered tables are the plot of the id, and there is only one.

ghost use Rattle.pos_laws.specs.PlotLaws.{KeptIsHalved, RelocatedIsThePlot, RelocatedIsInRange, NoneIsDead, OnePlot, PlotNumbersRise, TreesRiseByPlace, TreesArePlotOrdered, TreesHaveTheirLength, TreeValuesAreBelow};

/// What is kept is exactly what comes by halving tuples of 64 that have a node.
pub fn kept_is_halved()
    ensures { KeptIsHalved }
{}

/// The tables of an id, renumbered, are the plot of the id.
pub fn relocated_is_the_plot()
    ensures { RelocatedIsThePlot }
{}

/// They are in range, where table 6 has at most 2 ^ (k + 1) numbers.
pub fn relocated_is_in_range()
    ensures { RelocatedIsInRange }
{}

/// Every number of tables 1 to 5 is named by a number of the next table.
pub fn none_is_dead()
    ensures { NoneIsDead }
{}

/// An id and a size have at most one plot.
pub fn one_plot()
    ensures { OnePlot }
{}

/// The numbers of the plot of an id rise in every table.
pub fn plot_numbers_rise()
    ensures { PlotNumbersRise }
{}

/// In any plot in range whose numbers rise, the trees of a table rise by place.
pub fn trees_rise_by_place()
    ensures { TreesRiseByPlace }
{}

/// In any plot in range whose numbers rise, the trees stand in plot order.
pub fn trees_are_plot_ordered()
    ensures { TreesArePlotOrdered }
{}

/// A tree of table n has 2 ^ n values.
pub fn trees_have_their_length()
    ensures { TreesHaveTheirLength }
{}

/// In any plot in range the values of a tree are below 2 ^ k.
pub fn tree_values_are_below()
    ensures { TreeValuesAreBelow }
{}
