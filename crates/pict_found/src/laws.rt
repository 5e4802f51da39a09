// What is found for type fields. It is a function that does nothing: its contract is the law.

ghost use Rattle.pict_found.specs.Laws.{FoundStays};

/// A type field that is found keeps its argument, whatever is matched later, so of several places the first that finds it counts;
/// and no matching makes type fields more or fewer.
pub fn law_found_stays()
    ensures { FoundStays }
{}
