//! Laws of cutting and of archives.

ghost use Rattle.std.specs.Prelude.{◌≡◌, []};
ghost use Rattle.ix_car.specs.Kept.{kept};
ghost use Rattle.ix_car.specs.Laws.{KeptIsVerified, KeptBeginsVerified, FirstIsKept};
ghost use Rattle.ix_car.specs.Laws.{GoodIsSound, OnceIsUncut, OnceIsWithin, OnceArchivesTheSame};
ghost use Rattle.ix_car.specs.Laws.{OnceArchivesTheEnded, OnceBeginsTheEnded, OnceArchivesTheReached};
ghost use Rattle.ix_car.specs.Laws.{FaithfulIsArchived, HasWholeArchive, HasBegunArchive, DifferenceIsTheRest, PlacesAreOfTheBase};
ghost use Rattle.ix_car.specs.Laws.{DifferenceIsOfPairs, DifferenceThenBaseRestores, BaseThenDifferenceRestores};
ghost use Rattle.ix_car.specs.Laws.{DifferenceThenBaseRestoresBesideSkips, BaseThenDifferenceRestoresBesideSkips};

use ix_selector::law;
use std::io::Write;

/// States that what is kept of a job's visits, cut by depth, is the traversal that expands only
/// what has a good verdict.
pub fn cutting_is_never_going_in()
    ensures whole { KeptIsVerified }
    ensures beginning { KeptBeginsVerified }
{}

/// States that the first delivery is kept. What is kept after it is what is kept of the rest if it
/// is good, and else what is kept of the rest without its longest prefix of deeper deliveries.
pub fn kept_by_its_first()
    ensures none { kept [] ≡ [] }
    ensures first { FirstIsKept }
{}

/// States what the archive of a job with link-visit-once is. Such a job expands a CID once with
/// each residual, and only if its block is sound, so nothing of its visits is cut.
///
/// If the job is within its limit at every link, it is within it with link-visit-once too, and
/// writes the same archive. If it is so with link-visit-once alone, that holds if the verified
/// traversal ends. Whatever the limit, its first visits write a beginning of the archive of that
/// traversal, if it ends. Also if CIDs lead back to themselves, so that it doesn't end, the
/// sections are those of the sound blocks that can be reached.
pub fn going_in_once_writes_the_same()
    ensures sound { GoodIsSound }
    ensures uncut { OnceIsUncut }
    ensures limit { OnceIsWithin }
    ensures whole { OnceArchivesTheSame }
    ensures ends { OnceArchivesTheEnded }
    ensures beginning { OnceBeginsTheEnded }
    ensures sections { OnceArchivesTheReached }
{
    law::residual_is_the_rest();
}

/// States that the archive of a sink that was faithful to its job is that of the job if it was
/// done, and else a beginning of it.
pub fn faithful_is_archived()
    ensures { FaithfulIsArchived }
{}

/// States what an archive's writer has in the end, if it had no bytes at first: an archive whose
/// guarantee held for a store and a job, and whose calls are faithful to the job, has written the
/// archive of the job, without the sections of known CIDs, if it was done, and a beginning of it
/// whatever the end.
pub fn archive_is_of_its_job<W: Write>()
    ensures whole { HasWholeArchive W.contents }
    ensures beginning { HasBegunArchive W.contents }
{}

/// States what leaving out known CIDs leaves: the sections of the whole archive whose CID isn't known,
/// in their order.
pub fn difference_is_the_rest()
    ensures { DifferenceIsTheRest }
{}

/// States what known positions in a store stand for, if they are those of the blocks under whose CIDs a
/// base has a sound one: the archive leaves out, and counts, the CIDs that the base knows.
pub fn known_places_are_of_the_base()
    ensures { PlacesAreOfTheBase }
{}

/// States what a base and a difference restore. The difference of a job is its archive without the
/// sections of the CIDs under which the first copy in the base is sound. The base's other first copies
/// may be anything.
///
/// If the job is within its limit over a store and skips nothing, it is so too over the first copies
/// in the difference followed by the base, and its archive is the same, byte for byte. The base
/// followed by the difference does the same if the first copies in the base are all sound.
///
/// A premise is that the base and the store have the same first copy under each CID for which both
/// have a sound one: no proof can exclude two blocks with one digest.
pub fn base_and_difference_restore()
    ensures pairs { DifferenceIsOfPairs }
    ensures difference_first { DifferenceThenBaseRestores }
    ensures base_first { BaseThenDifferenceRestores }
{}

/// States what a base and a difference restore of a job that skips blocks, if the base has no sound copy of
/// any block that the job skips over the store, and the job is within its limit there.
///
/// Over the first copies in the difference followed by the base, its archive is the same, byte for byte.
/// With link-visit-once the job is within its limit there too. If it is, it skips the same CIDs, in the
/// same order, though a verdict may differ. The base followed by the difference does the same if the first
/// copies in the base are all sound.
///
/// The base and the store have the same first copy under each CID for which both have a sound one, as in
/// `base_and_difference_restore`.
pub fn base_and_difference_restore_beside_skips()
    ensures difference_first { DifferenceThenBaseRestoresBesideSkips }
    ensures base_first { BaseThenDifferenceRestoresBesideSkips }
{}
