//! Going on with a traversal: past links whose blocks are here, or may be missing.

ghost use Rattle.std.specs.Prelude.{◌≡◌, ◌+◌, ◌<◌, ◌^◌, IfOk, IfErr, OnOk, MatchOption};
ghost use Rattle.std.specs.List.{Contains};
ghost use Rattle.ix_verdict.specs.AllowMissing.{may_lack};
ghost use Rattle.ix_receive.specs.Base.{store_of};
ghost use Rattle.ix_receive.specs.Traversal.{as_pending, visited};
ghost use Rattle.ix_receive.specs.Passing.{CanNote, IsNoted, IsNotedMissing, IsPassing, IsBefore, IsStopped, IsPassed, IsFound, IsNotFound, IsAtEnd, IsNotAtEnd};

use crate::fault::ReceiveFault;
use crate::request::Request;
use crate::sections::Sections;
use crate::traversal::{Skips, Traversal, WaitingLink, expand_link, next_link};
use ix_cid::Cid;
use ix_verdict::Verdict;
use std::alloc::AllocError;

// Whether a block may be missing under a CID.
fn may_lack(asked: &Request<'_>, cid: &Cid) -> bool
    ensures { result ≡ may_lack asked.now.allowed asked.now.job.now.roots cid.now }
{
    asked.allowed.allows(cid.codec()) && !asked.job.roots().contains(cid)
}

// Notes the visit of a CID, if its block is missing or it isn't read. Returns whether that may be.
fn note_visit(
    asked: &Request<'_>,
    sections: &Sections<'_>,
    cid: &Cid,
    skips: &mut Skips,
) -> Result<bool, AllocError>
    requires { CanNote (store_of sections.now) skips.old }
    ensures { IfOk result (IsNoted asked.now.allowed asked.now.job.now.roots
        (store_of sections.now) cid.now skips.old skips.new) }
{
    match sections.verdict(cid) {
        Verdict::Sound | Verdict::Inline => Ok(true),
        Verdict::Missing => note_missing(asked, cid, skips),
        Verdict::Codec | Verdict::Hash | Verdict::Damaged | Verdict::Malformed => {
            skips.unread += 1;
            Ok(true)
        }
    }
}

// Notes the visit of a CID whose block is missing. Returns whether that may be.
fn note_missing(asked: &Request<'_>, cid: &Cid, skips: &mut Skips) -> Result<bool, AllocError>
    requires { skips.old.absent + 1 < 2 ^ 32 }
    ensures { IfOk result (IsNotedMissing asked.now.allowed asked.now.job.now.roots cid.now
        skips.old skips.new) }
{
    if !may_lack(asked, cid) {
        return Ok(false);
    }
    skips.missing.insert(cid.try_clone(asked.alloc)?)?;
    skips.absent += 1;
    Ok(true)
}

// Visits a link, unless its block is missing and may not be: returns its CID then.
fn pass_link<'s>(
    asked: &Request<'s>,
    sections: &Sections<'_>,
    link: WaitingLink<'s>,
    t: &mut Traversal<'s>,
) -> Result<Option<Cid>, AllocError>
    requires few { t.old.visits + 1 < 2 ^ 32 }
    requires before { IsBefore asked.now.job.now asked.now.allowed (store_of sections.now)
        (as_pending link) t.old }
    ensures { IfOk result (λ o. MatchOption o
        (IsPassed asked.now.job.now asked.now.allowed (store_of sections.now) (as_pending link.entry) t.old t.new)
        (IsStopped asked.now.job.now asked.now.allowed (store_of sections.now) (as_pending link.entry) t.old)) }
{
    let passes = note_visit(asked, sections, &link.cid, &mut t.skips)?;
    if !passes {
        let WaitingLink {
            residual: _,
            cid,
            depth: _,
        } = link;
        return Ok(Some(cid));
    }
    expand_link(asked.alloc, sections, link, &mut t.expanded, &mut t.links)?;
    t.visits += 1;
    Ok(None)
}

// Goes on to the first visit of a CID, and returns its link.
pub(crate) fn advance_to<'s>(
    asked: &Request<'s>,
    sections: &Sections<'_>,
    cid: &Cid,
    t: &mut Traversal<'s>,
) -> Result<WaitingLink<'s>, ReceiveFault>
    requires passing { IsPassing asked.now.job.now asked.now.allowed (store_of sections.now) t.old }
    requires first { Contains (visited t.old.visits asked.now.job.now (store_of sections.now))
        cid.now → ⊥ }
    ensures found { IfOk result (λ link. IsFound asked.now.job.now asked.now.allowed
        (store_of sections.now) cid.now (as_pending link) t.old t.new) }
    ensures refused { IfErr result (IsNotFound asked.now.job.now asked.now.allowed
        (store_of sections.now) cid.now) }
{
    while let Some(link) = next_link(asked, &mut t.links, &mut t.roots)? {
        if t.visits == asked.job.limit() {
            return Err(ReceiveFault::Limit);
        }
        if link.cid == *cid {
            return Ok(link);
        }
        if let Some(missing) = pass_link(asked, sections, link, t)? {
            return Err(ReceiveFault::Missing(missing));
        }
    }
    Err(ReceiveFault::NotAskedFor)
}

// Goes on to the end.
pub(crate) fn pass_all<'s>(
    asked: &Request<'s>,
    sections: &Sections<'_>,
    t: &mut Traversal<'s>,
) -> Result<(), ReceiveFault>
    requires { IsPassing asked.now.job.now asked.now.allowed (store_of sections.now) t.old }
    ensures whole { OnOk result (IsAtEnd asked.now.job.now asked.now.allowed
        (store_of sections.now) t.old t.new) }
    ensures refused { IfErr result (IsNotAtEnd asked.now.job.now asked.now.allowed
        (store_of sections.now)) }
{
    while let Some(link) = next_link(asked, &mut t.links, &mut t.roots)? {
        if t.visits == asked.job.limit() {
            return Err(ReceiveFault::Limit);
        }
        if let Some(missing) = pass_link(asked, sections, link, t)? {
            return Err(ReceiveFault::Missing(missing));
        }
    }
    Ok(())
}
