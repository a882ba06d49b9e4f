//! How many threads a command has.

ghost use Rattle.std.specs.Prelude.{◌≤◌, IfOk, IfErr};
ghost use Rattle.std.specs.Arc.{arc_value};
ghost use Rattle.ix_car.specs.Archive.{known_at};
ghost use Rattle.ix_run.specs.Run.{CanRun, IsRunRefusal};
ghost use Rattle.ix_load.specs.Ran.{HasReported, HasReportedToFiles};

use crate::blocks::LoadedBlocks;
use crate::prefetching::Prefetching;
use clap::ArgMatches;
use ix_cli_io::{
    ClosingArchives, NamingRule, Output, Progress, WriteErrors, buffers_of, writers_to,
};
use ix_jobs::{JobResult, report_with_absent, separate_absent, status};
use ix_options::{
    Host, VERIFIERS, VERIFIERS_4, WALKERS, WALKERS_4, at_most_processors, available_processors,
};
use ix_pipeline::{Plan, Prefetch};
use ix_run::{Observer, RunFault, RunInput, Unobserved, run_observed};
use ix_verdict::AllowMissing;
use ix_walk::Job;
use std::alloc::{AllocError, Global};
use std::io::Write;
use std::rt::Clock;
use std::sync::{Arc, Wait};
use std::thread::Threads;

// The capacity of the queue, in visits, and of each verifier's lane, in verdicts: about as many as come
// while a waiting thread sleeps a few times.
const QUEUE: u32 = 1024;

const LANE: u32 = 256;

// How many threads walk, and how many hash, where the processors don't decide.
const USUAL: usize = 4;

// How many threads prefetch at least. One alone makes no table.
const FEWEST: usize = 2;

/// How many threads walk and hash in a run, 1 to 64 of each, and whether they prefetch.
#[derive(Clone, Copy)]
pub struct ThreadCounts {
    walkers: u32,
    verifiers: u32,
    prefetching: Prefetching,
    ghost few_walkers: { (1 ≤ walkers) × (walkers ≤ 64) },
    ghost few_verifiers: { (1 ≤ verifiers) × (verifiers ≤ 64) },
}

/// Where the archives of a run go, in the order of the jobs, and which of them get their names. The first error
/// of a write is recorded.
#[derive(Clone, Copy)]
pub struct RunOutputs<'a> {
    pub outputs: &'a [Output],
    pub errors: &'a WriteErrors,
    pub rule: NamingRule,
}

/// What a run leaves besides its archives: the report, the status, and the result of each job.
#[derive(Drop)]
pub struct RunReport {
    pub report: Vec<u8>,
    pub status: u8,
    pub results: Vec<JobResult>,
    // How many skips of each job were absent, if some may be.
    absent: Option<Vec<usize>>,
}

impl RunReport {
    /// Takes the absent skips out of the results, if some blocks may be missing. The report and the status
    /// are those of what is left.
    pub fn allowing(
        self,
        alloc: Global,
        allowed: Option<AllowMissing>,
        jobs: &[Job],
    ) -> Result<RunReport, AllocError> {
        let Some(which) = allowed else {
            return Ok(self);
        };
        let told = separate_absent(alloc, which, jobs, self.results)?;
        let (results, absent) = (told.results, told.absent);
        Ok(RunReport {
            report: report_with_absent(alloc, jobs, results.as_slice(), absent.as_slice())?,
            status: status(results.as_slice()),
            results,
            absent: Some(absent),
        })
    }

    /// Returns how many skips of the job of this number were absent, if some may be.
    pub fn absent_of(&self, number: usize) -> Option<usize> {
        self.absent.as_ref()?.get(number).copied()
    }
}

impl ThreadCounts {
    /// Returns the numbers that were given, or 4 of each.
    pub fn given<'a>(words: &ArgMatches<'a>, prefetching: Prefetching) -> ThreadCounts {
        ThreadCounts {
            walkers: WALKERS_4.threads(words, USUAL),
            verifiers: VERIFIERS_4.threads(words, USUAL),
            prefetching,
        }
    }

    /// Returns the numbers that were given, or those by this number of processors: half of them walk, or two of two or
    /// three, so that one job is prefetched; and all but one hash, since one job has one walker.
    pub fn by_processors<'a>(
        words: &ArgMatches<'a>,
        processors: usize,
        prefetching: Prefetching,
    ) -> ThreadCounts {
        let walkers = (processors / 2).max(processors.min(2));
        let verifiers = processors.saturating_sub(1);
        ThreadCounts {
            walkers: WALKERS.threads(words, walkers),
            verifiers: VERIFIERS.threads(words, verifiers),
            prefetching,
        }
    }

    // Returns how this many jobs over these blocks are prefetched, if they are.
    fn prefetch<R: Threads>(&self, rt: &R, blocks: &LoadedBlocks, jobs: usize) -> Option<Prefetch> {
        let walkers = self.walkers as usize;
        let processors = available_processors(rt);
        if !self.prefetching.is_on(jobs, walkers, processors) {
            return None;
        }
        Some(Prefetch {
            threads: self.loaders(rt).max(FEWEST),
            most_bytes: blocks.most_table_bytes(),
        })
    }

    /// Returns how many threads index the blocks: as many as walk and hash, but no more than processors.
    pub fn loaders<R: Threads>(&self, rt: &R) -> usize {
        at_most_processors(rt, self.walkers as usize + self.verifiers as usize)
    }

    /// Runs the jobs over these blocks with so many threads, and shows progress if it is asked for. The sections of the
    /// blocks that the receiver has are left out.
    pub fn run<R: AllocGlobal + Clock + Eprint + Threads + Wait + Sync, W: Write + Drop>(
        &self,
        rt: &R,
        blocks: &LoadedBlocks,
        jobs: &Arc<Vec<Job>>,
        writers: Vec<W>,
        progress: &Progress<R>,
    ) -> Result<RunReport, RunFault>
        requires { CanRun (arc_value jobs.now).items writers.items }
        ensures ran { IfOk result (HasReported W.contents
            (known_at (arc_value blocks.now.store) blocks.now.known)
            (arc_value blocks.now.store) (arc_value jobs.now).items writers.items) }
        ensures refused { IfErr result (λ fault. IsRunRefusal (arc_value jobs.now).items fault) }
    {
        let ran = if progress.is_shown() {
            progress.begin(jobs.len());
            self.run_observed(rt, blocks, jobs, writers, progress)
        } else {
            self.run_observed(rt, blocks, jobs, writers, &Unobserved)
        };
        progress.end();
        ran
    }

    /// Runs the jobs as `run` does, writes their archives to these outputs, and gives each its name as its job
    /// ends, if it gets one. A job whose archive can't be named ends with a failed write.
    ///
    /// An error may come after archives have got their names.
    pub fn run_to<R: Host>(
        &self,
        rt: &R,
        blocks: &LoadedBlocks,
        jobs: &Arc<Vec<Job>>,
        archives: RunOutputs<'_>,
        progress: &Progress<R>,
    ) -> Result<RunReport, RunFault>
        requires { CanRun (arc_value jobs.now).items archives.outputs.now }
        ensures { IfOk result (HasReportedToFiles
            (known_at (arc_value blocks.now.store) blocks.now.known)
            (arc_value blocks.now.store) (arc_value jobs.now).items) }
    {
        let alloc = rt.alloc();
        let buffers = buffers_of(alloc, archives.outputs, archives.errors)?;
        let writers = writers_to(alloc, buffers.as_slice())?;
        let observer = ClosingArchives {
            rt,
            jobs: jobs.as_slice(),
            rule: archives.rule,
            buffers: buffers.as_slice(),
            progress: progress.shown(),
        };
        progress.begin(jobs.len());
        let ran = self.run_observed(rt, blocks, jobs, writers, &observer);
        progress.end();
        ran
    }

    // Runs the jobs with so many threads, and notifies an observer.
    fn run_observed<R: AllocGlobal + Threads + Wait + Sync, W: Write + Drop, V: Observer>(
        &self,
        rt: &R,
        blocks: &LoadedBlocks,
        jobs: &Arc<Vec<Job>>,
        writers: Vec<W>,
        observer: &V,
    ) -> Result<RunReport, RunFault>
        requires { CanRun (arc_value jobs.now).items writers.items }
        ensures ran { IfOk result (HasReported W.contents
            (known_at (arc_value blocks.now.store) blocks.now.known)
            (arc_value blocks.now.store) (arc_value jobs.now).items writers.items) }
        ensures refused { IfErr result (λ fault. IsRunRefusal (arc_value jobs.now).items fault) }
    {
        let input = RunInput {
            store: &blocks.store,
            known: blocks.known.as_ref(),
            jobs,
            verifiers: self.verifiers,
            plan: Plan {
                walkers: self.walkers,
                queue: QUEUE,
                lane: LANE,
            },
            prefetch: self.prefetch(rt, blocks, jobs.len()),
        };
        let out = run_observed(rt, rt.alloc(), input, writers, observer)?;
        Ok(RunReport {
            report: out.report,
            status: out.status,
            results: out.results,
            absent: None,
        })
    }
}
