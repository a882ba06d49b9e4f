//! Runs of an example, and reports.

ghost use Rattle.std.specs.Prelude.{◌≡◌};
ghost use Rattle.std.specs.Arc.{arc_value};
ghost use Rattle.ix_walk.specs.JobMeaning.{AreFew};
ghost use Rattle.ix_pipeline.specs.Planned.{IsPlan};
ghost use Rattle.ix_run.specs.Run.{CanRun};

use crate::example::Example;
use crate::jobs::line_of_fault;
use anyhow::{Error, Result, bail};
use ix_case_formats::texts::{escaped, hex_of};
use ix_jobs::{report, status};
use ix_pipeline::{Plan, Prefetch};
use ix_run::{RunFault, RunInput, RunOut, Unobserved, prepare, run, run_observed};
use ix_store::Store;
use ix_walk::Job;
use std::alloc::{AllocError, Global};
use std::io::{self, ErrorKind, Write};
use std::sync::{Arc, Wait};
use std::thread::Threads;

// The answer if everything is as the example says.
const AS_WRITTEN: &str = "as written";

// How many runs are prefetched, and how many bytes of links and pairs one may take more than the one before. A pair
// has 16 bytes and a link 12.
const PREFETCHED_RUNS: usize = 12;

const STEP: usize = 36;

// A writer that takes so many bytes and then fails.
#[derive(Drop)]
struct Narrow {
    bytes: Vec<u8>,
    room: usize,
}

impl Write for Narrow {
    fn write(&mut self, buf: &[u8]) -> io::Result<usize> {
        let count = buf.len().min(self.room);
        if count == 0 && !buf.is_empty() {
            return Err(io::Error::from(ErrorKind::StorageFull));
        }
        self.bytes.extend_from_slice(&buf[..count])?;
        self.room = self.room.saturating_sub(count);
        Ok(count)
    }

    fn flush(&mut self) -> io::Result<()> {
        Ok(())
    }
}

/// `run = as written`, where report, status and archives are as the example says by each plan, and with
/// prefetching that ends early or late; else the first that differs, or the line of the fault
pub fn runs<R: Threads + Wait + Sync>(rt: &R, alloc: Global, example: &Example) -> Result<String> {
    let first = run_by(rt, alloc, example, 2, plan_of(2, 256, 64), None)?;
    let second = run_by(rt, alloc, example, 4, plan_of(3, 1, 1), None)?;
    let answer = first_differing(first, second);
    let third = run_by(rt, alloc, example, 1, plan_of(1, 1, 1), None)?;
    let answer = first_differing(answer, third);
    let fourth = run_by(rt, alloc, example, 64, plan_of(64, 4096, 4096), None)?;
    let answer = first_differing(answer, fourth);
    let prefetched = prefetched_runs(rt, alloc, example)?;
    Ok(first_differing(answer, prefetched))
}

// The same with prefetching that ends once the tables have so many bytes, from none to more than they need.
fn prefetched_runs<R: Threads + Wait + Sync>(
    rt: &R,
    alloc: Global,
    example: &Example,
) -> Result<String> {
    let mut answer = String::from_str(alloc, AS_WRITTEN)?;
    for number in 0..PREFETCHED_RUNS {
        let prefetch = Prefetch {
            threads: 2,
            most_bytes: number.saturating_mul(STEP),
        };
        let next = run_by(rt, alloc, example, 2, plan_of(2, 256, 64), Some(prefetch))?;
        answer = first_differing(answer, next);
    }
    Ok(answer)
}

// The first answer, or the second where the first is that all is as written.
fn first_differing(first: String, second: String) -> String {
    if is_as_written(first.as_str()) {
        second
    } else {
        first
    }
}

// Whether an answer is that all is as written.
fn is_as_written(answer: &str) -> bool {
    answer == AS_WRITTEN
}

// So many walkers, and so much room in the queue and in each lane.
fn plan_of(walkers: u32, queue: u32, lane: u32) -> Plan
    ensures { (result.walkers ≡ walkers) × (result.queue ≡ queue) × (result.lane ≡ lane) }
{
    Plan {
        walkers,
        queue,
        lane,
    }
}

// The same by so many verifiers and one plan, with prefetching if it says how.
fn run_by<R: Threads + Wait + Sync>(
    rt: &R,
    alloc: Global,
    example: &Example,
    verifiers: u32,
    plan: Plan,
    prefetch: Option<Prefetch>,
) -> Result<String>
    requires { IsPlan plan verifiers }
{
    let car = example.car()?;
    match prepare(alloc, car.as_slice(), example.jobs.as_bytes()) {
        Ok(prepared) => {
            let (store, jobs) = &prepared;
            let input = RunInput {
                store,
                known: None,
                jobs,
                verifiers,
                plan,
                prefetch,
            };
            run_prepared(rt, alloc, example, input)
        }
        Err(fault) => line_of_fault(alloc, &fault),
    }
}

// The same of the inputs that a run needs.
fn run_prepared<R: Threads + Wait + Sync>(
    rt: &R,
    alloc: Global,
    example: &Example,
    input: RunInput<'_>,
) -> Result<String>
    requires jobs { AreFew (arc_value input.jobs.now).items }
    requires plan { IsPlan input.plan input.verifiers }
{
    let count = input.jobs.len();
    let writers = writers_of(alloc, example, count)?;
    if writers.len() != count {
        bail!("a writer for each job was wanted");
    }
    match run_with(rt, alloc, input, writers) {
        Ok(out) => compared(alloc, example, &out),
        Err(fault) => line_of_fault(alloc, &fault),
    }
}

// Runs the jobs by the call that is specified, or by the one that prefetches.
fn run_with<R: Threads + Wait + Sync>(
    rt: &R,
    alloc: Global,
    input: RunInput<'_>,
    writers: Vec<Narrow>,
) -> Result<RunOut<Narrow>, RunFault>
    requires run { CanRun (arc_value input.jobs.now).items writers.items }
    requires plan { IsPlan input.plan input.verifiers }
{
    if input.prefetch.is_some() {
        return run_observed(rt, alloc, input, writers, &Unobserved);
    }
    let (store, jobs) = (input.store, input.jobs);
    run(rt, alloc, store, jobs, writers, input.verifiers, input.plan)
}

// A writer for each of so many jobs.
fn writers_of(alloc: Global, example: &Example, count: usize) -> Result<Vec<Narrow>, AllocError> {
    let mut writers = Vec::new(alloc);
    for number in 0..count {
        writers.push(Narrow {
            bytes: Vec::new(alloc),
            room: example.rooms.get(number).copied().unwrap_or(usize::MAX),
        })?;
    }
    Ok(writers)
}

// What a run left that isn't as the example says.
fn compared(alloc: Global, example: &Example, out: &RunOut<Narrow>) -> Result<String> {
    match difference(alloc, example, out.report.as_slice(), out.status)? {
        Some(answer) => Ok(answer),
        None => compared_archives(alloc, &out.writers, &example.archives),
    }
}

// The report, or else the status, where it isn't as the example says.
fn difference(
    alloc: Global,
    example: &Example,
    report: &[u8],
    status: u8,
) -> Result<Option<String>> {
    if report != example.report.as_bytes() {
        return Ok(Some(escaped(alloc, report)?));
    }
    difference_of_status(alloc, example.status.as_str(), status).map_err(Error::from)
}

// A status that isn't the one that is wanted.
fn difference_of_status(
    alloc: Global,
    wanted: &str,
    status: u8,
) -> Result<Option<String>, AllocError> {
    let status = status.to_string(alloc)?;
    if status.as_str() == wanted {
        return Ok(None);
    }
    Ok(Some(format!(in alloc; "status {status}")?))
}

// The first archive that isn't the one that is wanted.
fn compared_archives(alloc: Global, writers: &[Narrow], archives: &[Vec<u8>]) -> Result<String> {
    if writers.len() != archives.len() {
        bail!("an archive for each job is wanted");
    }
    for (writer, archive) in writers.iter().zip(archives) {
        if writer.bytes.as_slice() != archive.as_slice() {
            return hex_of(alloc, writer.bytes.as_slice());
        }
    }
    String::from_str(alloc, AS_WRITTEN).map_err(Error::from)
}

/// `tell = as written`, if the report and the status of the jobs' results are as the example says; else the one that differs
pub fn told(alloc: Global, example: &Example) -> Result<String> {
    let results = example.results.as_slice();
    if example.told.len() != results.len() {
        bail!("a result for each job is wanted");
    }
    let report = report(alloc, example.told.as_slice(), results)?;
    let difference = difference(alloc, example, report.as_slice(), status(results))?;
    or_as_written(alloc, difference).map_err(Error::from)
}

// What differs, or that all is as written.
fn or_as_written(alloc: Global, difference: Option<String>) -> Result<String, AllocError> {
    match difference {
        Some(answer) => Ok(answer),
        None => String::from_str(alloc, AS_WRITTEN),
    }
}
