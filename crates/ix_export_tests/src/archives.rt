//! Exports by walkers and verifiers that wait for one another, and by some that run out of memory or
//! aren't started.

ghost use Rattle.std.specs.Prelude.{◌≡◌, [], length, vec_len, IfOk};
ghost use Rattle.std.specs.Arc.{arc_value};
ghost use Rattle.ix_walk.specs.JobMeaning.{AreFew};
ghost use Rattle.ix_car.specs.ArchiveMeaning.{calls_of, events_of};
ghost use Rattle.ix_car.specs.Headline.{EachFresh, EachUnused, IsUnusedCheck};
ghost use Rattle.ix_pipeline.specs.Planned.{IsPlan};

use crate::exporting::{ExportInput, chain, list, plan_of, started};
use ix_car::{Archive, Counts, End, Skip};
use ix_check::{Check, ShaCheck};
use ix_fixtures::{Awaited, Before, CheckAfter, Refusing, TURNS, chain_archive, list_archive};
use ix_pipeline::{Gate, Open, Outcome, Plan, export};
use ix_store::Store;
use ix_walk::{Job, Visit};
use std::alloc::{AllocError, Global};
use std::process::Abort;
use std::sync::Wait;
use std::test::Fail;
use std::thread::Threads;

// Two sides that are to meet.
#[derive(Drop)]
struct Meeting {
    first: Awaited,
    second: Awaited,
}

impl Meeting {
    fn new() -> Meeting {
        Meeting {
            first: Awaited::new(1),
            second: Awaited::new(1),
        }
    }

    // Begins one side, and waits until the other began. The meeting is missed where it never does.
    fn meet(&self, is_first: bool) {
        let (mine, other) = if is_first {
            (&self.first, &self.second)
        } else {
            (&self.second, &self.first)
        };
        mine.signal();
        other.wait(TURNS);
    }

    // Whether both sides began, and neither missed the other.
    fn is_met(&self) -> bool {
        let is_missed = self.first.is_missed() || self.second.is_missed();
        self.first.has_begun() && self.second.has_begun() && !is_missed
    }
}

// Holds each check of one side until a call on the check of the other began.
#[derive(Drop)]
struct Held<'a> {
    meeting: &'a Meeting,
    is_first: bool,
}

impl Before for Held<'_> {
    fn before(&self, _visit: &Visit) -> Result<(), AllocError> {
        self.meeting.meet(self.is_first);
        Ok(())
    }
}

// A check of one side.
fn check_of<'a>(alloc: Global, meeting: &'a Meeting, is_first: bool) -> CheckAfter<Held<'a>>
    ensures { IsUnusedCheck (λ c. c.check) result }
{
    CheckAfter::new(alloc, Held { meeting, is_first })
}

// Holds the walker of each of two jobs at its first visit until the walk of the other began.
#[derive(Drop)]
struct HeldGate {
    meeting: Meeting,
}

impl Gate for HeldGate {
    fn pass(&self, job: u32, seq: u32) {
        if seq == 0 {
            self.meeting.meet(job == 0);
        }
    }
}

// An archive in memory that received nothing so far.
fn archive_of<'a>(alloc: Global, store: &'a Store, job: &Job) -> Result<Archive<'a, Vec<u8>>, Fail>
    ensures events { IfOk result (λ a. events_of a ≡ []) }
    ensures failed { IfOk result (λ a. a.failed ≡ []) }
{
    match Archive::new(alloc, store, job, Vec::new(alloc)) {
        Ok(archive) => Ok(archive),
        Err(_) => Err(Fail::from(AllocError)),
    }
}

// Such an archive for each job.
fn archives_of<'a>(
    alloc: Global,
    store: &'a Store,
    jobs: &[Job],
) -> Result<Vec<Archive<'a, Vec<u8>>>, Fail>
    ensures count { IfOk result (λ r. length r.items ≡ length jobs.now) }
    ensures fresh { IfOk result (λ r. EachFresh calls_of r.items) }
{
    let mut archives = Vec::new(alloc);
    for job in jobs {
        archives.push(archive_of(alloc, store, job)?)?;
    }
    Ok(archives)
}

/// The final state of an archive in memory.
#[derive(Drop)]
pub struct Left {
    pub bytes: Vec<u8>,
    pub skips: Vec<Skip>,
    pub counts: Counts,
}

/// Exports into such archives. Returns the final state of each, and the result of the export.
pub fn archived<C, G, R>(
    rt: &R,
    alloc: Global,
    input: &ExportInput,
    checks: Vec<C>,
    gate: &G,
    plan: Plan,
) -> Result<(Vec<Left>, Outcome<C>), Fail>
where
    C: Check + Send + Drop,
    G: Gate + Sync,
    R: Threads + Wait + Sync,
    requires unused { EachUnused C.checked checks.items }
    requires jobs { AreFew (arc_value input.now.jobs).items }
    requires plan { IsPlan plan (vec_len checks) }
{
    let ExportInput { store, jobs } = input;
    let mut archives = archives_of(alloc, store, jobs.as_slice())?;
    let sinks = archives.as_mut_slice();
    let out = started(export(rt, alloc, store, jobs, sinks, checks, gate, plan))?;
    let mut all_left = Vec::new(alloc);
    for archive in archives {
        let (bytes, skips, counts) = archive.into_parts();
        all_left.push(Left {
            bytes,
            skips,
            counts,
        })?;
    }
    Ok((all_left, out))
}

// Whether so many jobs over the chain are done, each with its whole archive.
fn are_done(alloc: Global, all_left: &[Left], ends: &[End], count: usize) -> Result<bool, Fail> {
    let whole = chain_archive(alloc)?;
    let are_whole = all_left
        .iter()
        .all(|left| left.bytes.as_slice() == whole.as_slice());
    let all_done = ends.iter().all(|end| *end == End::Done);
    Ok(all_left.len() == count && ends.len() == count && all_done && are_whole)
}

#[test]
fn held_verifiers(rt: HostRuntime) -> Result<(), Fail> {
    let alloc = rt.alloc();
    let input = chain(alloc, 1)?;
    let meeting = Meeting::new();
    let checks = vec![in alloc;
        check_of(alloc, &meeting, true),
        check_of(alloc, &meeting, false),
    ]?;
    let plan = plan_of(1, 256, 64);
    let (all_left, out) = archived(&rt, alloc, &input, checks, &Open, plan)?;
    assert!(rt;
        meeting.is_met(),
        "a check didn't begin while the other waited"
    );
    assert!(rt; are_done(alloc, all_left.as_slice(), out.ends.as_slice(), 1)?);
    Ok(())
}

#[test]
fn held_walkers(rt: HostRuntime) -> Result<(), Fail> {
    let alloc = rt.alloc();
    let input = chain(alloc, 2)?;
    let checks = vec![in alloc; ShaCheck::new(alloc)]?;
    let gate = HeldGate {
        meeting: Meeting::new(),
    };
    let plan = plan_of(2, 256, 64);
    let (all_left, out) = archived(&rt, alloc, &input, checks, &gate, plan)?;
    assert!(rt;
        gate.meeting.is_met(),
        "a walk didn't begin while the other waited"
    );
    assert!(rt; are_done(alloc, all_left.as_slice(), out.ends.as_slice(), 2)?);
    Ok(())
}

// An archive has so many sections, which are a prefix of this one, and skips nothing.
fn has_begun(rt: &impl Abort, left: &Left, sections: u32, bytes: u64, whole: &[u8]) {
    let wanted = Counts {
        visits: sections,
        kept: sections,
        sections,
        bytes,
        known: None,
    };
    assert_eq!(rt; left.counts, wanted);
    assert!(rt; whole.starts_with(left.bytes.as_slice()));
    assert_eq!(rt; left.bytes.len() as u64, bytes);
    assert!(rt; left.skips.is_empty());
}

// Each of two checks runs out of memory at the third visit of the first job.
#[test]
fn refused_memory(rt: HostRuntime) -> Result<(), Fail> {
    let alloc = rt.alloc();
    let input = chain(alloc, 2)?;
    let checks = vec![in alloc;
        CheckAfter::new(alloc, Refusing),
        CheckAfter::new(alloc, Refusing),
    ]?;
    let plan = plan_of(2, 256, 64);
    let (all_left, out) = archived(&rt, alloc, &input, checks, &Open, plan)?;
    assert!(rt; out.ends.as_slice() == [End::Memory, End::Done].as_slice());
    assert_eq!(rt; all_left.len(), 2);
    let whole = chain_archive(alloc)?;
    for (left, (sections, bytes)) in all_left.iter().zip([(2, 217), (4, 336)]) {
        has_begun(&rt, left, sections, bytes, whole.as_slice());
    }
    Ok(())
}

// What was written is a prefix of the whole archive, with as many bytes as the end says.
fn says_what_was_written(rt: &impl Abort, end: End, written: &[u8], whole: &[u8]) {
    assert!(rt; whole.starts_with(written));
    match end {
        End::Done => assert_eq!(rt; written.len(), whole.len()),
        End::Start => assert_eq!(rt; written.len(), 59),
        _ => {}
    }
}

// What each end says of an archive. Where an allocation fails or a thread can't be started, this
// ends with an error or fails at the last assertion alone.
#[test]
fn ends_say_what_was_written(rt: HostRuntime) -> Result<(), Fail> {
    let alloc = rt.alloc();
    let input = list(alloc, 3)?;
    let whole = list_archive(alloc)?;
    let checks = vec![in alloc; ShaCheck::new(alloc), ShaCheck::new(alloc)]?;
    let plan = plan_of(2, 256, 64);
    let (all_left, out) = archived(&rt, alloc, &input, checks, &Open, plan)?;
    assert_eq!(rt; all_left.len(), 3);
    for (left, end) in all_left.iter().zip(out.ends.iter()) {
        says_what_was_written(&rt, *end, left.bytes.as_slice(), whole.as_slice());
    }
    assert_eq!(rt; out.ends.as_slice(), [End::Done; 3].as_slice());
    Ok(())
}
