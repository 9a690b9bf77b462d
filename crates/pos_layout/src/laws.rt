//! What holds of plot files, whatever the code: each law is what a function with an empty body ensures.

ghost use Rattle.pos_layout.specs.FileLaws.{NoMemoIsAMemo, BareIsAPlot, AFileStoresItsPlot, AFileIsWell, AFileHasItsMemo, AFileIsBytes, TheNameSaysTheLayout, AnotherNameIsNone, AnOpenFileSaysItsLayout, AnOpenFileHasAMemo, AStoredPlotIsAPlot, OneStoredPlot, OneFile, OneFileOfAPlot, OpeningFindsNothing, OpeningFindsTheCause, OpenImageIsTheFile, OpensIsTheFile, ShutDoesNotOpen, TinyDoesNotOpen, PointsInsideByPairs};
ghost use Rattle.pos_layout.specs.ReadingLaws.{ParksAreRead, HeadsAreRead, CountsAreRead, NumbersAreRead, AWholeFileShowsItsLists, NumbersPointInside, AnyFileReadsValues};

/// In each layout a file may have no memo, and at each size each id has a plot with seven empty tables, so the laws below
/// speak of something.
pub fn memos_and_plots_are_there()
    ensures memo { NoMemoIsAMemo }
    ensures plot { BareIsAPlot }
{}

/// The file of a plot stores it, has the memo that it was made with, and is well where the pointers are in range. Parks are
/// within their limit: nothing is asked of their lengths.
pub fn a_file_stores_its_plot()
    ensures stores { AFileStoresItsPlot }
    ensures well { AFileIsWell }
    ensures memo { AFileHasItsMemo }
    ensures bytes { AFileIsBytes }
{}

/// What a file of bytes stores is a plot, and the file stores no other.
pub fn a_file_has_one_plot()
    ensures a_plot { AStoredPlotIsAPlot }
    ensures one { OneStoredPlot }
{}

/// What stores a plot is the file of the plot with its layout and memo, so at most one file stores it for each of these.
pub fn a_plot_has_one_file()
    ensures the_file { OneFile }
    ensures one { OneFileOfAPlot }
{}

/// The name says the layout, and no other name is that of one. What opens says its layout and has a memo that is allowed.
pub fn a_file_has_one_layout_and_memo()
    ensures layout { TheNameSaysTheLayout }
    ensures no_other { AnotherNameIsNone }
    ensures says { AnOpenFileSaysItsLayout }
    ensures memo { AnOpenFileHasAMemo }
{}

/// Opening finds nothing exactly where the file opens.
pub fn opening_finds_nothing_where_a_file_opens()
    ensures { OpeningFindsNothing }
{}

/// Opening finds each damage exactly where its cause holds: the tests before it found all right, and its own found it wrong.
pub fn opening_finds_each_damage_by_its_cause()
    ensures { OpeningFindsTheCause }
{}

/// Of what a crash may leave of a file that is written, nothing opens but the finished file.
pub fn only_the_finished_file_opens()
    ensures tiny { TinyDoesNotOpen }
    ensures shut { ShutDoesNotOpen }
    ensures finished { OpensIsTheFile }
    ensures any_image { OpenImageIsTheFile }
{}

/// The greater of a line point's pair is below a count exactly where the line point is below the count of pairs below it.
pub fn points_inside_are_counted_by_pairs()
    ensures { PointsInsideByPairs }
{}

/// Over the file of a plot each park reads as its part of the table's list, a head as the f7 of its park's first number, a
/// count as how many numbers of the park have a lesser f7, and where no number points outside each place as the list's number.
pub fn reading_shows_the_lists()
    ensures parks { ParksAreRead }
    ensures heads { HeadsAreRead }
    ensures counts { CountsAreRead }
    ensures numbers { NumbersAreRead }
{}

/// A whole file shows numbers that rise, point inside and are read as they stand, with few enough in table 6: all that the
/// laws on plain lists ask for.
pub fn a_whole_file_shows_its_lists()
    ensures { AWholeFileShowsItsLists }
{}

/// Whatever the bytes of a file are, a number that is read points inside by the counts of the header, and in table 1 to two
/// values of k bits.
pub fn numbers_that_are_read_point_inside()
    ensures inside { NumbersPointInside }
    ensures values { AnyFileReadsValues }
{}
