//! Runs: every job's archive, the report and the status.

ghost use Rattle.std.specs.Prelude.{◌≡◌, [], ◌∷◌, None, length, vec_len, IfOk, IfErr};
ghost use Rattle.std.specs.Arc.{arc_value};
ghost use Rattle.std.specs.Io.KnownBytes.{Keeps};
ghost use Rattle.ix_car.specs.Archive.{known_at};
ghost use Rattle.ix_car.specs.ArchiveMeaning.{borrowed};
ghost use Rattle.ix_car.specs.Headline.{EachUnused, IsUnusedCheck};
ghost use Rattle.ix_pipeline.specs.Exporting.{CanExport, HasExported};
ghost use Rattle.ix_pipeline.specs.Planned.{IsPlan};
ghost use Rattle.ix_run.specs.Run.{
  CanRun,
  HaveRun,
  RunsTo,
  IsLeftOf,
  IsRun,
  IsRunRefusal,
  EachBegun,
  EachEnded,
  IsEndOf,
};

use crate::fault::RunFault;
use crate::observer::{Observed, Observer, Unobserved};
use ix_car::{Archive, ArchiveNew, End, Sink};
use ix_check::{Check, PlainCheck};
use ix_jobs::{JobResult, report, status};
use ix_pipeline::{JobWalks, NotStarted, Outcome, Plan, Prefetch, export_plain, export_walks};
use ix_store::{PlaceSet, Store};
use ix_walk::Job;
use std::alloc::{AllocError, Global};
use std::io::Write;
use std::slice;
use std::sync::{Arc, Wait};
use std::thread::Threads;

/// The result of a run: the report, the exit status, and, in the order of the jobs, the results in the
/// report and the writers.
#[derive(Drop)]
pub struct RunOut<W> {
    pub report: Vec<u8>,
    pub status: u8,
    /// The end of each is that in the report: the end of the job's close, or a failed write if its
    /// writer could not be flushed.
    pub results: Vec<JobResult>,
    pub writers: Vec<W>,
}

/// Runs the jobs over the store, with the plan's walkers and so many verifiers, and writes the archive
/// of each to its writer.
///
/// All headers are written first; the first that can't be written is the error. If the flush of a
/// writer fails in the end, its job is reported as ended by a failed write.
pub fn run<'a, R: Threads + Wait + Sync, W: Write + Drop>(
    rt: &R,
    alloc: Global,
    store: &'a Arc<Store>,
    jobs: &'a Arc<Vec<Job>>,
    writers: Vec<W>,
    verifiers: u32,
    plan: Plan,
) -> Result<RunOut<W>, RunFault>
    requires run { CanRun (arc_value jobs.now).items writers.items }
    requires plan { IsPlan plan verifiers }
    ensures ran { RunsTo W.contents None store.now jobs.now writers.items result }
    ensures refused { IfErr result (λ fault. IsRunRefusal (arc_value jobs.now).items fault) }
{
    let input = RunInput {
        store,
        known: None,
        jobs,
        verifiers,
        plan,
        prefetch: None,
    };
    run_observed(rt, alloc, input, writers, &Unobserved)
}

/// The inputs of a run besides its writers: the blocks, those of them that the receiver has, the jobs,
/// the number of threads, and how the jobs are prefetched.
#[derive(Drop)]
pub struct RunInput<'a> {
    pub store: &'a Arc<Store>,
    /// The positions in the store of the blocks whose sections are left out, if some are.
    pub known: Option<&'a PlaceSet>,
    pub jobs: &'a Arc<Vec<Job>>,
    /// The number of verifiers.
    pub verifiers: u32,
    pub plan: Plan,
    /// How the jobs are prefetched, if they are.
    pub prefetch: Option<Prefetch>,
}

/// Runs the jobs as `run` does, and notifies an observer: first of the bytes of each header, then of each
/// delivery and its bytes, and of each close. An archive is whole in its writer when its close is notified, but
/// for what the writer buffers; the writers are flushed after the last close.
pub fn run_observed<R: Threads + Wait + Sync, W: Write + Drop, V: Observer>(
    rt: &R,
    alloc: Global,
    input: RunInput<'_>,
    writers: Vec<W>,
    observer: &V,
) -> Result<RunOut<W>, RunFault>
    requires run { CanRun (arc_value input.jobs.now).items writers.items }
    requires plan { IsPlan input.plan input.verifiers }
    ensures ran { RunsTo W.contents (borrowed input.entry.known)
        input.entry.store.now input.entry.jobs.now writers.items result }
    ensures refused { IfErr result (λ fault.
        IsRunRefusal (arc_value input.entry.jobs.now).items fault) }
{
    let RunInput {
        store,
        known,
        jobs,
        verifiers,
        plan,
        prefetch,
    } = input;
    let mut archives = start_archives(alloc, store, known, jobs.as_slice(), writers, observer)?;
    let checks = plain_checks(alloc, verifiers)?;
    let sinks = archives.as_mut_slice();
    let exported = ExportInput {
        store,
        jobs,
        plan,
        prefetch,
    };
    let Ok(outcome) = export_prefetched(rt, alloc, exported, sinks, checks) else {
        return Err(RunFault::Memory);
    };
    let (results, writers) = finish_archives(alloc, archives, outcome.ends.as_slice())?;
    Ok(summarize(alloc, jobs.as_slice(), results, writers)?)
}

// The inputs of an export besides its sinks and its checks.
#[derive(Drop)]
struct ExportInput<'a> {
    store: &'a Arc<Store>,
    jobs: &'a Arc<Vec<Job>>,
    plan: Plan,
    prefetch: Option<Prefetch>,
}

// Exports the jobs, by tables of expansions if they are prefetched. If memory runs out before a thread is
// started, the tables are dropped, and the jobs are exported without.
fn export_prefetched<S: Sink, R: Threads + Wait + Sync>(
    rt: &R,
    alloc: Global,
    input: ExportInput<'_>,
    sinks: &mut [S],
    checks: Vec<PlainCheck>,
) -> Result<Outcome<PlainCheck>, NotStarted<PlainCheck>>
    requires { CanExport S.calls (λ c. c) (arc_value input.jobs.now).items sinks.old checks input.plan }
    ensures { HasExported S.calls S.guarantee (λ c. c)
        (record { store = arc_value input.entry.store.now; jobs = (arc_value input.entry.jobs.now).items })
        sinks.old sinks.new checks result }
{
    let ExportInput {
        store,
        jobs,
        plan,
        prefetch,
    } = input;
    let walks = JobWalks::prefetched(rt, alloc, store, jobs, prefetch);
    match export_walks(rt, alloc, &walks, sinks, checks, plan) {
        Ok(outcome) => Ok(outcome),
        Err(NotStarted { checks }) => {
            drop(walks);
            let walks = JobWalks::new(alloc, store, jobs);
            export_walks(rt, alloc, &walks, sinks, checks, plan)
        }
    }
}

// Returns the result of a run from the jobs' results and their writers.
fn summarize<W: Drop>(
    alloc: Global,
    jobs: &[Job],
    results: Vec<JobResult>,
    writers: Vec<W>,
) -> Result<RunOut<W>, AllocError>
    requires { length jobs.now ≡ length results.items }
    ensures left { IfOk result (IsLeftOf jobs.now results.items) }
    ensures writers { IfOk result (λ out. out.writers.items ≡ writers.items) }
{
    let report = report(alloc, jobs, results.as_slice())?;
    let status = status(results.as_slice());
    Ok(RunOut {
        report,
        status,
        results,
        writers,
    })
}

// Makes so many checks that have checked nothing so far.
fn plain_checks(alloc: Global, count: u32) -> Result<Vec<PlainCheck>, AllocError>
    ensures unused { IfOk result (λ checks. EachUnused (λ c. c) checks.items) }
    ensures count { IfOk result (λ checks. vec_len checks ≡ count) }
{
    let mut checks = Vec::with_capacity(alloc, count as usize)?;
    for _ in 0..count {
        checks.push_reserved(PlainCheck::new());
    }
    Ok(checks)
}

/// Runs the jobs over the store on one thread. Returns the result of each and its writer.
pub fn run_jobs<W: Write + Drop, C: Check>(
    alloc: Global,
    store: &Store,
    jobs: &[Job],
    writers: Vec<W>,
    check: &mut C,
) -> Result<(Vec<JobResult>, Vec<W>), RunFault>
    requires unused { IsUnusedCheck C.checked check.old }
    requires run { CanRun jobs.now writers.items }
    ensures ran { IfOk result (λ out. HaveRun W.contents None store.now jobs.now writers.items out) }
    ensures refused { IfErr result (λ fault. IsRunRefusal jobs.now fault) }
{
    run_jobs_without(alloc, store, None, jobs, writers, check)
}

// Runs the jobs as `run_jobs` does, and leaves out the sections of the blocks at known positions in the
// store, if they are given.
fn run_jobs_without<W: Write + Drop, C: Check>(
    alloc: Global,
    store: &Store,
    known: Option<&PlaceSet>,
    list: &[Job],
    writers: Vec<W>,
    check: &mut C,
) -> Result<(Vec<JobResult>, Vec<W>), RunFault>
    requires unused { IsUnusedCheck C.checked check.old }
    requires run { CanRun list.now writers.items }
    ensures ran { IfOk result (λ out.
        HaveRun W.contents (known_at store.now (borrowed known.entry)) store.now list.now writers.items out) }
    ensures refused { IfErr result (λ fault. IsRunRefusal list.now fault) }
{
    let observer = Unobserved;
    let mut archives = start_archives(alloc, store, known, list, writers, &observer)?;
    let ends = export_plain(alloc, store, list, archives.as_mut_slice(), check)?;
    Ok(finish_archives(alloc, archives, ends.as_slice())?)
}

/// Runs one job over the store on one thread. Returns its result and its writer.
pub fn run_one<W: Write + Drop>(
    alloc: Global,
    store: &Store,
    job: &Job,
    writer: W,
) -> Result<(JobResult, W), RunFault>
    ensures ran { IfOk result (λ out. IsRun W.contents None store.now 0 job.now writer out.0 out.1) }
    ensures refused { IfErr result (λ fault. IsRunRefusal (job.now ∷ []) fault) }
{
    run_one_without(alloc, store, None, job, writer)
}

/// Runs one job as `run_one` does, and leaves out the sections of the blocks at known positions in the
/// store, if they are given.
pub fn run_one_without<W: Write + Drop>(
    alloc: Global,
    store: &Store,
    known: Option<&PlaceSet>,
    job: &Job,
    writer: W,
) -> Result<(JobResult, W), RunFault>
    ensures ran { IfOk result (λ out.
        IsRun W.contents (known_at store.now (borrowed known.entry)) store.now 0 job.now writer out.0 out.1) }
    ensures refused { IfErr result (λ fault. IsRunRefusal (job.now ∷ []) fault) }
{
    let mut given = Vec::with_capacity(alloc, 1)?;
    given.push(writer)?;
    let mut check = PlainCheck::new();
    let (mut results, mut writers) = run_jobs_without(
        alloc,
        store,
        known,
        slice::from_ref(job),
        given,
        &mut check,
    )?;
    match (results.pop(), writers.pop()) {
        (Some(result), Some(writer)) => Ok((result, writer)),
        _ => Err(RunFault::Memory),
    }
}

// Makes an archive for each job, without the blocks at known positions, writes its header, and
// notifies the observer.
fn start_archives<'a, W: Write + Drop, V: Observer>(
    alloc: Global,
    store: &'a Store,
    known: Option<&'a PlaceSet>,
    jobs: &[Job],
    writers: Vec<W>,
    observer: &'a V,
) -> Result<Vec<Observed<'a, W, V>>, RunFault>
    requires { CanRun jobs.now writers.items }
    ensures begun { IfOk result (λ archives.
        EachBegun W.contents (known_at store.now (borrowed known.entry))
        store.now jobs.now writers.items archives.items) }
    ensures refused { IfErr result (λ fault. IsRunRefusal jobs.now fault) }
{
    let mut archives = Vec::with_capacity(alloc, jobs.len())?;
    for (job, writer) in jobs.iter().zip(writers) {
        match Archive::without(alloc, store, known, job, writer) {
            Ok(archive) => {
                let number = archives.len();
                archives.push(Observed::new(archive, number, observer))?;
            }
            Err(ArchiveNew::Write(_)) => return Err(RunFault::Write(archives.len() as u32)),
            Err(ArchiveNew::Memory(_)) => return Err(RunFault::Memory),
        }
    }
    Ok(archives)
}

// Returns the results of the archives whose jobs were closed with these ends, and their writers.
fn finish_archives<'a, W: Write + Drop, V: Observer>(
    alloc: Global,
    archives: Vec<Observed<'a, W, V>>,
    ends: &[End],
) -> Result<(Vec<JobResult>, Vec<W>), AllocError>
    requires { length archives.items ≡ length ends.now }
    ensures { IfOk result (λ out.
        EachEnded W.contents archives.entry.items ends.now out.0.items out.1.items) }
{
    let mut results = Vec::with_capacity(alloc, ends.len())?;
    let mut writers = Vec::with_capacity(alloc, ends.len())?;
    for (archive, end) in archives.into_iter().zip(ends) {
        let (mut writer, skips, counts) = archive.into_parts();
        let end = flush_writer(&mut writer, *end);
        results.push(JobResult { end, counts, skips })?;
        writers.push(writer)?;
    }
    Ok((results, writers))
}

// Flushes the writer of a job that was closed with this end, and returns the end in the report: a flush
// that fails is a failed write. If memory ran out, that is reported first.
fn flush_writer<W: Write>(writer: &mut W, end: End) -> End
    ensures end { IsEndOf end result }
    ensures bytes { Keeps (W.contents writer.old) (W.contents writer.new) }
{
    match (writer.flush(), end) {
        (Err(_), End::Done | End::Limit) => End::Write,
        (_, end) => end,
    }
}
