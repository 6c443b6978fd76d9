//! Laws on the texts of filters: functions that do nothing, whose contracts are the laws.
ghost use Rattle.ifmap_filter.specs.Laws.{FilterOrStop, OneFilter, OnePlace, PrintedIsAnsweredBack, PrintedIsParsedBack, PrintedNestsNoDeeper, StopsWhereNone};
ghost use Rattle.ifmap_filter.specs.Spaces.{ListedServeEach, MoreServe};

/// Each text writes a filter in a scope, or stops to write one somewhere; and never both.
pub fn text_is_filter_or_stops()
    ensures decided { FilterOrStop }
    ensures apart { StopsWhereNone }
{}

/// A text writes one filter at most in a scope.
pub fn text_is_one_filter()
    ensures { OneFilter }
{}

/// A text stops to write a filter in a scope at one place at most.
pub fn text_stops_at_one_place()
    ensures { OnePlace }
{}

/// What is printed of a filter that some text writes, where each of its namespaces has a prefix,
/// writes that filter in the scope of these prefixes, with parentheses that nest no deeper than
/// those of that text; and `parse` answers it, unless there is want of memory.
pub fn printed_filter_is_parsed_back()
    ensures written { PrintedIsParsedBack }
    ensures nesting { PrintedNestsNoDeeper }
    ensures answered { PrintedIsAnsweredBack }
{}

/// The namespaces of several filters, each once, serve to print each of them; and where some serve,
/// so do they with others after them.
pub fn listed_spaces_serve_each_filter()
    ensures each { ListedServeEach }
    ensures more { MoreServe }
{}
