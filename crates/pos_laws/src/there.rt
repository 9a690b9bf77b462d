//! All that the other laws speak of is there: tables, renumbering, plot and list.

ghost use Rattle.pos_laws.specs.ThereLaws.{TablesAreThere, RenumberingIsThere, PlotIsThere, ListIsThere, SmallSizesAreNeverAbove};

/// Each id and each size has its tables.
pub fn tables_are_there()
    ensures { TablesAreThere }
{}

/// The tables of an id can be renumbered, where not too many tuples of 64 have a node.
pub fn renumbering_is_there()
    ensures { RenumberingIsThere }
{}

/// An id and a size have a plot, where not too many tuples of 64 have a node.
pub fn plot_is_there()
    ensures { PlotIsThere }
{}

/// Over the plot of an id each challenge has its list of proofs.
pub fn list_is_there()
    ensures { ListIsThere }
{}

/// For a size up to 7 no two values match, so no tuple of 64 has a node.
pub fn small_sizes_are_never_above()
    ensures { SmallSizesAreNeverAbove }
{}
