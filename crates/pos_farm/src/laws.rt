//! What holds of lists of names and of answers, whatever the code: each law is what a function with an empty body ensures.
ghost use Rattle.pos_farm.specs.FarmLaws.{BestIsOfAllOffers, OneAnswer};
ghost use Rattle.pos_farm.specs.NameLaws.{ListOrBadLine, OneBadLine, OneNameList};

/// Bytes list names in one way and have one first bad line, and never both: so a line is named exactly where one is bad.
pub fn bytes_list_names_or_have_a_bad_line()
    ensures names { OneNameList }
    ensures line { OneBadLine }
    ensures either { ListOrBadLine }
{}

/// Over a whole file there is one answer, whatever the other names and files are. The first of the offers that answers name is
/// the first of all offers of all plots.
pub fn answers_are_of_their_plots()
    ensures one { OneAnswer }
    ensures best { BestIsOfAllOffers }
{}
