//! The receiver.

ghost use Rattle.std.specs.Prelude.{◌≡◌, true, false, map, Some, IfOk, IfErr, OnOk, OnErr};
ghost use Rattle.ix_verdict.specs.Verdict.{verdict_with};
ghost use Rattle.ix_receive.specs.Base.{HaveSound, store_of};
ghost use Rattle.ix_known.specs.Known.{known_blocks};
ghost use Rattle.ix_receive.specs.Keeping.{kept_of};
ghost use Rattle.ix_receive.specs.Roots.{RootsPass, IsRootRefused};
ghost use Rattle.ix_receive.specs.Reception.{nothing_received, nothing_received_with, IsReceiving, IsReceived, Receives, reception_with, IsRefused, IsRightlyRefused, IsWhole, IsUnfinished};

use crate::counts::Counts;
use crate::fault::ReceiveFault;
use crate::passing::{advance_to, pass_all};
use crate::request::Request;
use crate::sections::Sections;
use crate::traversal::{Skips, Traversal, expand_link};
use ix_cid::Cid;
use ix_known::KnownBlocks;
use ix_selector::law;
use ix_store::{Store, verdict_on};
use ix_verdict::{AllowMissing, Verdict};
use ix_walk::Job;
use std::alloc::Global;
use std::collections::BTreeSet;
use std::marker::Model;

/// What has come of an archive: it is given the sections one after another, and says of each whether
/// the archive of a job can go on with it.
///
/// It advances the job's traversal, with link-visit-once, only as far as what has come. It keeps the
/// blocks that are DAG-CBOR. The bytes of a raw block, which has no links, aren't kept, but only its
/// CID.
pub struct Receiver<'s> {
    asked: Request<'s>,
    sections: Sections<'s>,
    traversal: Traversal<'s>,
    ended: bool,
}

// Written by hand: a derived drop is inlined in each function that drops one, at each of its exits.
impl<'s> Drop for Receiver<'s> {
    fn drop(self) {
        let Receiver {
            asked,
            sections,
            traversal,
            ended: _,
        } = self;
        drop(asked);
        drop(sections);
        drop(traversal);
    }
}

impl<'s> Model for Receiver<'s> {
    ghost use Rattle.ix_receive.specs.Reception.{Reception, coded_reception};

    ghost Value = { Reception };

    ghost coded = { coded_reception };

    ghost use Rattle.std.specs.Prelude.{◌≡◌, false};
    ghost use Rattle.ix_receive.specs.Reception.{reception_with, IsReceiving};

    ghost view = { λ r. reception_with r.sections.0 r.asked.job.now r.asked.allowed r.sections.1
        r.traversal.visits r.ended };

    ghost invariant = { λ r. r.ended ≡ false
        → IsReceiving r.sections.0 r.asked.job.now r.asked.allowed r.sections.1 r.traversal };
}

// Receives the next section, on which this is the verdict, if it is sound, the base doesn't have its block,
// and the first visit of its CID is still to come.
fn receive<'s>(
    asked: &Request<'s>,
    sections: &mut Sections<'s>,
    t: &mut Traversal<'s>,
    cid: Cid,
    block: &[u8],
    verdict: Verdict,
) -> Result<(), ReceiveFault>
    requires receiving { IsReceiving sections.old.0 asked.now.job.now asked.now.allowed sections.old.1 t.old }
    requires judged { verdict ≡ verdict_with cid (Some block.now) }
    ensures received { OnOk result (IsReceived asked.now.job.now asked.now.allowed sections.old t.old.visits
        (cid, block.now) sections.new t.new) }
    ensures refused { IfErr result (IsRefused (reception_with sections.old.0 asked.now.job.now
        asked.now.allowed sections.old.1 t.old.visits false) (cid, block.now)) }
    ensures rightly { IfErr result (IsRightlyRefused (reception_with sections.old.0
        asked.now.job.now asked.now.allowed sections.old.1 t.old.visits false) (cid, block.now)) }
{
    if !verdict.is_sound() {
        return Err(ReceiveFault::Unsound(verdict));
    }
    if sections.is_in_base(&cid) {
        return Err(ReceiveFault::InBase);
    }
    if sections.has_come(&cid) {
        return Err(ReceiveFault::Repeated);
    }
    if t.skips.missing.contains(&cid) {
        return Err(ReceiveFault::OutOfOrder);
    }
    let link = advance_to(asked, sections, &cid, t)?;
    sections.add(cid, block)?;
    expand_link(asked.alloc, sections, link, &mut t.expanded, &mut t.links)?;
    t.visits += 1;
    Ok(())
}

// Checks that the verdict on each root is Sound or Inline.
fn check_roots(asked: &Request<'_>, sections: &Sections<'_>) -> Result<(), ReceiveFault>
    requires { HaveSound sections.now }
    ensures pass { OnOk result (RootsPass (store_of sections.now) asked.now.job.now.roots) }
    ensures refused { IfErr result (IsRootRefused (store_of sections.now) asked.now.job.now.roots) }
{
    for root in asked.job.roots() {
        let verdict = sections.verdict(root);
        if !verdict.passes() {
            return Err(ReceiveFault::Root(root.try_clone(asked.alloc)?, verdict));
        }
    }
    Ok(())
}

impl<'s> Receiver<'s> {
    /// Creates a receiver of an archive of a job, which has received nothing. It takes the job's
    /// traversal with link-visit-once, whichever way the job asks for. Blocks may be missing as
    /// `allowed` says.
    pub fn new(alloc: Global, job: &'s Job, allowed: AllowMissing) -> Receiver<'s>
        ensures { result ≡ nothing_received job.now allowed }
    {
        Receiver::over(alloc, job, allowed, KnownBlocks::none())
    }

    /// Creates a receiver that has a base: the blocks of a store whose first copy is sound. The archive is
    /// the difference, without them. A damaged block of the store has to come.
    pub fn with_base(
        alloc: Global,
        job: &'s Job,
        allowed: AllowMissing,
        base: &'s Store,
    ) -> Receiver<'s>
        ensures { result ≡ nothing_received_with (known_blocks base.now) job.now allowed }
    {
        Receiver::over(alloc, job, allowed, KnownBlocks::of(base))
    }

    // Creates a receiver with a base.
    fn over(
        alloc: Global,
        job: &'s Job,
        allowed: AllowMissing,
        base: KnownBlocks<'s>,
    ) -> Receiver<'s>
        ensures { result ≡ nothing_received_with base.entry job.now allowed }
    {
        law::residual_is_the_rest();
        law::selector_is_one(job.selector());
        base.are_sound();
        Receiver {
            asked: Request {
                alloc,
                job,
                allowed,
            },
            sections: Sections::new(alloc, base),
            traversal: Traversal {
                expanded: BTreeSet::new(alloc),
                links: Vec::new(alloc),
                roots: job.roots(),
                visits: 0,
                skips: Skips {
                    missing: BTreeSet::new(alloc),
                    absent: 0,
                    unread: 0,
                },
            },
            ended: false,
        }
    }

    /// Receives the next section of the archive: a CID and its block. After an error nothing more is
    /// received.
    pub fn offer(&mut self, cid: Cid, block: &[u8]) -> Result<(), ReceiveFault>
        ensures received { OnOk result (Receives self.old (cid, block.now) self.new) }
        ensures refused { IfErr result (IsRefused self.old (cid, block.now)) }
        ensures rightly { IfErr result (IsRightlyRefused self.old (cid, block.now)) }
        ensures ended { OnErr result (self.new.ended ≡ true) }
    {
        let verdict = verdict_on(cid.as_bytes(), block);
        self.offer_judged(cid, block, verdict)
    }

    /// Receives the next section as `offer` does, by the verdict that `ix_store::verdict_on` returns for it. So the
    /// blocks of several sections can be hashed at the same time before these are received in order.
    pub fn offer_judged(
        &mut self,
        cid: Cid,
        block: &[u8],
        verdict: Verdict,
    ) -> Result<(), ReceiveFault>
        requires { verdict ≡ verdict_with cid (Some block.now) }
        ensures received { OnOk result (Receives self.old (cid, block.now) self.new) }
        ensures refused { IfErr result (IsRefused self.old (cid, block.now)) }
        ensures rightly { IfErr result (IsRightlyRefused self.old (cid, block.now)) }
        ensures ended { OnErr result (self.new.ended ≡ true) }
    {
        if self.ended {
            return Err(ReceiveFault::Ended);
        }
        self.ended = true;
        receive(
            &self.asked,
            &mut self.sections,
            &mut self.traversal,
            cid,
            block,
            verdict,
        )?;
        self.ended = false;
        Ok(())
    }

    /// Ends the archive. The sections are then its own archive, each root is sound or inline, and no block is
    /// missing that may not be.
    pub fn finish(self) -> Result<Counts, ReceiveFault>
        ensures whole { IfOk result (IsWhole self.entry) }
        ensures refused { IfErr result (IsUnfinished self.entry) }
    {
        let mut receiver = self;
        receiver.close()
    }

    /// Ends the archive as `finish` does, after which nothing more is received.
    pub fn close(&mut self) -> Result<Counts, ReceiveFault>
        ensures whole { IfOk result (IsWhole self.old) }
        ensures refused { IfErr result (IsUnfinished self.old) }
        ensures sections { self.new.sections ≡ self.old.sections }
    {
        if self.ended {
            return Err(ReceiveFault::Ended);
        }
        self.ended = true;
        pass_all(&self.asked, &self.sections, &mut self.traversal)?;
        check_roots(&self.asked, &self.sections)?;
        Ok(Counts {
            visits: self.traversal.visits,
            missing: self.traversal.skips.absent,
            unread: self.traversal.skips.unread,
        })
    }

    /// Returns what is kept of the sections that came: the blocks that are DAG-CBOR, and of every other
    /// section its CID, with no bytes.
    pub fn into_kept(self) -> Store
        ensures { result ≡ map kept_of self.entry.sections }
    {
        let Receiver {
            asked,
            sections,
            traversal,
            ended: _,
        } = self;
        drop(asked);
        drop(traversal);
        sections.into_kept()
    }
}
