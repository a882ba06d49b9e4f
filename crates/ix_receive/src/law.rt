//! Laws of received archives.

ghost use Rattle.ix_receive.specs.Own.{ArchiveIsItsOwn, OwnArchiveIsOfItsStore};
ghost use Rattle.ix_receive.specs.Receiving.{NoneIsReceived, ReceivedStay, NextIsReceived, ReceivedAreTheirOwn, OwnAreReceived};
ghost use Rattle.ix_store.specs.Store.{Blocks};
ghost use Rattle.ix_receive.specs.Base.{KnownBlocksAreKnown, DifferenceIsItsOwn};

use ix_car::law;

/// States that the archive of a job within its limit is its own archive for the job with
/// link-visit-once: over any store, whatever is skipped, and whichever way the job was traversed.
/// An archive that is its own is, byte for byte, that of the job over its own sections.
pub fn archive_is_its_own()
    ensures own { ArchiveIsItsOwn }
    ensures bytes { OwnArchiveIsOfItsStore }
{
    law::going_in_once_writes_the_same();
}

/// States how sections can be received one by one, whatever base there is. None is received at first, and sections that
/// are received stay so, however many visits follow. A section that is sound is received if its CID
/// is that of the next visit over the base and the sections before it, and of none before, and the base
/// doesn't have it. It changes no visit up to that.
///
/// Sections that are received are their own if the job is within its limit over the base and them. Of sections
/// that are their own each is received in this way, at a visit within the limit.
pub fn received_one_by_one()
    ensures none { NoneIsReceived }
    ensures stay { ReceivedStay }
    ensures next { NextIsReceived }
    ensures own { ReceivedAreTheirOwn }
    ensures each { (base : Blocks) → OwnAreReceived base }
{}

/// States that the base that a receiver has of a store is what is left out for it: its blocks are sound, and
/// are those that are known to a receiver that has the store (`known`). The archive of a job within its limit
/// without what is known of a store is its own archive for the job with that base, traversed with
/// link-visit-once, over any store that has the known blocks that the job visits (`own`).
pub fn difference_is_its_own()
    ensures known { KnownBlocksAreKnown }
    ensures own { DifferenceIsItsOwn }
{}
