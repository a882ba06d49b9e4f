//! The laws of parts: their concatenation.

ghost use Rattle.ix_jobs.specs.Laws.{ArePartsWhole, AreReportsMerged};

/// Says that the parts of a list, concatenated, are the list.
pub fn parts_are_the_whole<T>()
    ensures { ArePartsWhole T }
{}

/// Says that the report of concatenated jobs has the lines of their reports but the last ones, and then
/// one with their sums.
pub fn reports_are_merged()
    ensures { AreReportsMerged }
{}
