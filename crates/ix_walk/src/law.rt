//! Laws of link-visit-once.

ghost use Rattle.ix_walk.specs.Laws.{OnceMeetsTheSame, OnceArrivesNoMore, LimitHoldsForLinks, OnceMeetsWhatIsReached};

/// States that if the traversal that expands a CID at every link ends, link-visit-once meets the
/// same CIDs, each first in the same order. It takes no more visits, and if it takes no more than a
/// limit, the other follows no more links than that on a path.
pub fn once_meets_the_same()
    ensures same { OnceMeetsTheSame }
    ensures fewer { OnceArrivesNoMore }
    ensures links { LimitHoldsForLinks }
{}

/// States that if link-visit-once ends, it has met exactly the CIDs that can be reached by
/// following links, however many, also if CIDs lead back to themselves.
pub fn once_meets_what_is_reached()
    ensures { OnceMeetsWhatIsReached }
{}
