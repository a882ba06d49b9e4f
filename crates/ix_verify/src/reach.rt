//! Walks everything below the roots of a file.

ghost use Rattle.std.specs.Prelude.{◌≡◌, ◌+◌, ◌≤◌, ◌&&◌, IfOk, OnOk};
ghost use Rattle.ix_verdict.specs.AllowMissing.{may_lack};
ghost use Rattle.ix_walk.specs.Once.{first_ones};
ghost use Rattle.ix_check.specs.Visits.{IsVisitOf};
ghost use Rattle.ix_check.specs.Verdict.{verdict_of};
ghost use Rattle.ix_verify.specs.Outcome.{link_finding};
ghost use Rattle.ix_verdict.specs.Verdict.{is_missing};
ghost use Rattle.ix_verify.specs.Noting.{NotesMore};
ghost use Rattle.ix_verify.specs.Walked.{skip_at, absent_at, lack_of, roots_as_blocks, IsReachedBy, IsReachedFrom, IsReachedFromNone};

use crate::everything::roots_job;
use crate::noted::Noted;
use crate::observer::Observer;
use ix_car::Skip;
use ix_check::{Check, PlainCheck, Verdict};
use ix_cid::Cid;
use ix_store::Store;
use ix_verdict::AllowMissing;
use ix_walk::{Job, Visit, Walk, WalkStop};
use std::alloc::{AllocError, Global};

// The findings of a walk from roots.
#[derive(Drop)]
pub(crate) struct Reached {
    pub(crate) skips: Noted<Skip>,
    pub(crate) absent: usize,
    pub(crate) is_over_limit: bool,
}

impl Reached {
    // Returns no findings, for no roots.
    pub(crate) fn nothing(alloc: Global) -> Reached
        ensures { IsReachedFromNone result }
    {
        Reached {
            skips: Noted::new(alloc),
            absent: 0,
            is_over_limit: false,
        }
    }
}

// What a walk looks at: a store, the roots as a set, the links that may lead to blocks that aren't there, and
// how many that lead to nothing sound are kept at most.
#[derive(Drop, Clone, Copy)]
struct Watch<'a> {
    store: &'a Store,
    roots: &'a Store,
    allowed: AllowMissing,
    most: usize,
}

impl Watch<'_> {
    // Returns whether the block of a CID may be lacking: a root's may not.
    fn may_lack(&self, cid: &Cid) -> bool
        ensures { result ≡ lack_of self.now cid.now }
    {
        self.allowed.allows(cid.codec()) && self.roots.find(cid).is_none()
    }

    // Returns whether a visit of a CID with this verdict leads to a block that isn't there and may be lacking.
    fn lacks(&self, cid: &Cid, verdict: Verdict) -> bool
        ensures { result ≡ (is_missing verdict && lack_of self.now cid.now) }
    {
        match verdict {
            Verdict::Missing => self.may_lack(cid),
            Verdict::Codec
            | Verdict::Hash
            | Verdict::Damaged
            | Verdict::Malformed
            | Verdict::Sound
            | Verdict::Inline => false,
        }
    }
}

// Walks everything below these roots once, and keeps at most so many links that lead to nothing sound.
pub(crate) fn walk_roots<V: Observer>(
    alloc: Global,
    store: &Store,
    allowed: AllowMissing,
    roots: &[Cid],
    most: usize,
    observer: &V,
) -> Result<Reached, AllocError>
    ensures { IfOk result (IsReachedFrom allowed store.now roots.now most) }
{
    let (distinct, set) = distinct_roots(alloc, roots)?;
    if distinct.is_empty() {
        return Ok(Reached::nothing(alloc));
    }
    let job = roots_job(alloc, distinct)?;
    let watch = Watch {
        store,
        roots: &set,
        allowed,
        most,
    };
    walk_job(alloc, watch, &job, observer)
}

// Walks a job, and keeps at most so many links that lead to nothing sound.
pub(crate) fn walk_given<V: Observer>(
    alloc: Global,
    store: &Store,
    allowed: AllowMissing,
    job: &Job,
    most: usize,
    observer: &V,
) -> Result<Reached, AllocError>
    ensures { IfOk result (IsReachedBy (may_lack allowed (first_ones job.now.roots)) store.now job.now most) }
{
    let (_, set) = distinct_roots(alloc, job.roots())?;
    let watch = Watch {
        store,
        roots: &set,
        allowed,
        most,
    };
    walk_job(alloc, watch, job, observer)
}

// Returns each root once, in the order of first occurrences, and a set of them.
fn distinct_roots(alloc: Global, roots: &[Cid]) -> Result<(Vec<Cid>, Store), AllocError>
    ensures once { IfOk result (λ r. r.0.items ≡ first_ones roots.now) }
    ensures set { IfOk result (λ r. r.1 ≡ roots_as_blocks r.0.items) }
{
    let mut seen = Store::new(alloc);
    let mut distinct = Vec::new(alloc);
    for root in roots {
        let is_new = seen.add(root.try_clone(alloc)?, Vec::new(alloc))?;
        if is_new {
            distinct.push(root.try_clone(alloc)?)?;
        }
    }
    Ok((distinct, seen))
}

// Walks a job and returns its findings.
fn walk_job<V: Observer>(
    alloc: Global,
    watch: Watch<'_>,
    job: &Job,
    observer: &V,
) -> Result<Reached, AllocError>
    ensures { IfOk result (IsReachedBy (lack_of watch.entry) watch.entry.store.now job.now watch.entry.most) }
{
    let mut skips = Noted::new(alloc);
    let mut absent = 0;
    for item in Walk::new(alloc, watch.store, job, 0)? {
        match item {
            Ok(visit) => {
                observer.on_visit();
                note_visit(alloc, watch, visit, &mut skips, &mut absent)?;
            }
            Err(WalkStop::Limit) => {
                return Ok(Reached {
                    skips,
                    absent,
                    is_over_limit: true,
                });
            }
            Err(WalkStop::Memory) => return Err(AllocError),
        }
    }
    Ok(Reached {
        skips,
        absent,
        is_over_limit: false,
    })
}

// Records a visit whose verdict isn't good, or counts it if its block isn't there and may be lacking.
fn note_visit(
    alloc: Global,
    watch: Watch<'_>,
    visit: Visit,
    skips: &mut Noted<Skip>,
    absent: &mut usize,
) -> Result<(), AllocError>
    requires visit { IsVisitOf watch.store.now visit }
    requires count { skips.old.count ≤ visit.seq }
    requires lacking { absent.old ≤ visit.seq }
    ensures noted { OnOk result (NotesMore link_finding watch.entry.most
        (skip_at (lack_of watch.entry) watch.entry.store.now visit) skips.old skips.new) }
    ensures counted { OnOk result (
        absent.new ≡ absent.old + absent_at (lack_of watch.entry) watch.entry.store.now visit) }
{
    let verdict = verdict_of(alloc, watch.store, &visit)?;
    if verdict.passes() {
        return Ok(());
    }
    if watch.lacks(&visit.cid, verdict) {
        *absent += 1;
        return Ok(());
    }
    let skip = Skip {
        seq: visit.seq,
        cid: visit.cid,
        verdict,
    };
    skips.note(watch.most, verdict, skip)?;
    Ok(())
}

// Returns the verdict on a visit.
fn verdict_of(alloc: Global, store: &Store, visit: &Visit) -> Result<Verdict, AllocError>
    requires { IsVisitOf store.now visit.now }
    ensures { IfOk result (λ verdict. verdict ≡ verdict_of store.now visit.now.cid) }
{
    // A check costs nothing, so there is one for each visit.
    let mut check = PlainCheck::new();
    check.check(alloc, store, &visit)
}
