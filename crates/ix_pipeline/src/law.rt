//! Laws of what is sent for what was taken, and of what is collected.

ghost use Rattle.ix_pipeline.specs.Laws.{GivesGood, IsOnceEach, IsWithinVisits};
ghost use Rattle.ix_pipeline.specs.Laws.{BeginsSafe, BeginsCollected, GivesExported};

use ix_car::Sink;

/// States that what is sent for good items is good.
pub fn sent_for_good()
    ensures { GivesGood }
{}

/// States that of good items no pair is checked twice, and each pair is that of a visit.
pub fn good_is_checked_once()
    ensures once { IsOnceEach }
    ensures within { IsWithinVisits }
{}

/// States that a collector that has received nothing may call sinks that were not called yet, and
/// has collected no item.
pub fn unused_has_collected_nothing<S: Sink>()
    ensures may { BeginsSafe S.calls }
    ensures collected { BeginsCollected S.calls }
{}

/// States what follows if every sink was closed and the items that were received are good: none was
/// unexpected, each sink got what its job calls for, and each visit was checked as often as it is
/// to be.
pub fn collected_is_exported<S: Sink>()
    ensures { GivesExported S.calls }
{}
