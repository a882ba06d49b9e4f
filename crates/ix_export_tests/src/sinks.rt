//! What sinks that fail to write receive.

ghost use Rattle.std.specs.Prelude.{◌≡◌, ◌≤◌, [], length, vec_len};
ghost use Rattle.std.specs.Arc.{arc_value};
ghost use Rattle.ix_pipeline.specs.Headline.{EachUnused};

use crate::exporting::{ExportInput, list, plan_of, started};
use ix_car::End;
use ix_check::{ShaCheck, Verdict};
use ix_fixtures::{ABC_SECTION, ALL, Log, ONE_LINK, ONE_LINK_SECTION, job_of, store_of};
use ix_pipeline::{Open, export, export_plain};
use ix_store::Store;
use ix_walk::Job;
use std::alloc::Global;
use std::sync::{Arc, Wait};
use std::test::Fail;
use std::thread::Threads;

// The numbers of the visits of the damaged list, with their verdicts.
const LIST_VERDICTS: [(u32, Verdict); 5] = [
    (0, Verdict::Sound),
    (1, Verdict::Damaged),
    (2, Verdict::Sound),
    (3, Verdict::Sound),
    (4, Verdict::Sound),
];

// Two jobs over a list of one link, the second with a limit of one visit.
fn two_jobs(alloc: Global) -> Result<[Job; 2], Fail> {
    Ok([
        job_of(alloc, ONE_LINK, ALL, 100)?,
        job_of(alloc, ONE_LINK, ALL, 1)?,
    ])
}

// How two jobs end on one thread, where the first fails to write at its first delivery.
fn plain_ends(
    alloc: Global,
    store: &Store,
    jobs: &[Job],
    check: &mut ShaCheck,
) -> Result<Vec<End>, Fail>
    requires jobs { length jobs.now ≡ 2 }
    requires unused { check.old ≡ [] }
{
    let mut logs = [Log::new(alloc, 0)?, Log::new(alloc, 9)?];
    Ok(export_plain(alloc, store, jobs, &mut logs, check)?)
}

#[test]
fn ends_and_receipts(rt: HostRuntime) -> Result<(), Fail> {
    let alloc = rt.alloc();
    let store = store_of(alloc, &[ABC_SECTION, ONE_LINK_SECTION])?;
    let jobs = two_jobs(alloc)?;
    let mut check = ShaCheck::new(alloc);
    let ends = plain_ends(alloc, &store, &jobs, &mut check)?;
    assert!(rt; ends.as_slice() == [End::Write, End::Limit].as_slice());
    assert!(rt; check.receipts() == [(0, 0), (0, 1), (1, 0)].as_slice());
    Ok(())
}

// Whether a log has so many deliveries, the first of the damaged list, and this end.
fn has_list(log: &Log, end: End, count: usize) -> bool {
    log.closed == Some(end)
        && log.deliveries.len() == count
        && log.deliveries.iter().zip(LIST_VERDICTS).all(|(delivery, (seq, verdict))| {
            delivery.visit.seq == seq && delivery.verdict == verdict
        })
}

// Whether the sinks of three equal jobs received this and ended so, where the second fails to write at its third
// delivery.
fn are_logged(logs: &[Log], ends: &[End]) -> bool {
    let [first, second, third] = logs else {
        return false;
    };
    ends == [End::Done, End::Write, End::Done].as_slice()
        && has_list(first, End::Done, 5)
        && has_list(second, End::Write, 2)
        && second
            .failed
            .as_ref()
            .is_some_and(|failed| failed.visit.seq == 2)
        && has_list(third, End::Done, 5)
}

// Exports three jobs, and returns whether their sinks received this.
fn export_three<R: Threads + Wait + Sync>(
    rt: &R,
    alloc: Global,
    store: &Arc<Store>,
    jobs: &Arc<Vec<Job>>,
    walkers: u32,
    checks: Vec<ShaCheck>,
) -> Result<bool, Fail>
    requires jobs { length (arc_value jobs.now).items ≡ 3 }
    requires walkers { (1 ≤ walkers) × (walkers ≤ 64) }
    requires checks { (1 ≤ vec_len checks) × (vec_len checks ≤ 64) }
    requires unused { EachUnused (λ c. c) checks.items }
{
    let mut logs = [
        Log::new(alloc, 9)?,
        Log::new(alloc, 2)?,
        Log::new(alloc, 9)?,
    ];
    let plan = plan_of(walkers, 1, 1);
    let out = started(export(rt, alloc, store, jobs, &mut logs, checks, &Open, plan))?;
    Ok(are_logged(&logs, out.ends.as_slice()))
}

#[test]
fn three_equal_jobs(rt: HostRuntime) -> Result<(), Fail> {
    let alloc = rt.alloc();
    let ExportInput { store, jobs } = list(alloc, 3)?;
    let four = vec![in alloc;
        ShaCheck::new(alloc),
        ShaCheck::new(alloc),
        ShaCheck::new(alloc),
        ShaCheck::new(alloc),
    ]?;
    let by_many = export_three(&rt, alloc, &store, &jobs, 3, four)?;
    let one = vec![in alloc; ShaCheck::new(alloc)]?;
    let by_one = export_three(&rt, alloc, &store, &jobs, 1, one)?;
    assert_eq!(rt; [by_many, by_one], [true, true]);
    Ok(())
}
