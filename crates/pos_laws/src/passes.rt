//! Level by level the passes over the tables give the plot of the id.

ghost use Rattle.pos_laws.specs.PassLaws.{NothingIsRenumbered, ALevelIsRenumbered, SixPassesRelocate, SixPassesGiveThePlot};

/// Before the first pass the places of level 0 are the values.
pub fn nothing_is_renumbered()
    ensures { NothingIsRenumbered }
{}

/// A pass adds one level.
pub fn a_level_is_renumbered()
    ensures { ALevelIsRenumbered }
{}

/// Six of them and the last table relocate the tables.
pub fn six_passes_relocate()
    ensures { SixPassesRelocate }
{}

/// So over the tables of an id their lists are the plot of the id.
pub fn six_passes_give_the_plot()
    ensures { SixPassesGiveThePlot }
{}
