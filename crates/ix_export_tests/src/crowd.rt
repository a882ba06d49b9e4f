//! As many jobs as there may be, by as many threads, which have room for one item.

use crate::input::{CHAIN_JOBS, chain_car};
use ix_fixtures::chain_archive;
use ix_pipeline::Plan;
use ix_run::{RunOut, prepare, run};
use std::alloc::{AllocError, Global};
use std::io::{self, Write};
use std::sync::Wait;
use std::test::Fail;
use std::thread::{self, Threads};

const JOBS: usize = 1_000;

const THREADS: u32 = 64;

// How often a test runs all jobs; two of them make ten runs.
const RUNS: u32 = 5;

// The job whose writer may be slow, and how often that gives its processor away at each write.
const SLOW: usize = 7;

const YIELDS: u32 = 1_000;

// A writer in memory that gives its processor away so often at each write.
#[derive(Drop)]
struct Slow {
    bytes: Vec<u8>,
    yields: u32,
}

impl Write for Slow {
    fn write(&mut self, buf: &[u8]) -> io::Result<usize> {
        for _ in 0..self.yields {
            thread::yield_now();
        }
        self.bytes.extend_from_slice(buf)?;
        Ok(buf.len())
    }

    fn flush(&mut self) -> io::Result<()> {
        Ok(())
    }
}

// A job file with so many jobs, each over all of the chain.
fn job_file(alloc: Global) -> Result<String, Fail> {
    let (_, like_the_first) = CHAIN_JOBS.split_once('\n').unwrap_or(("", CHAIN_JOBS));
    let (_, after_its_name) = like_the_first.split_once(' ').unwrap_or(("", ""));
    let mut text = String::new(alloc);
    for number in 0..JOBS {
        text.push_str(format!(in alloc; "{number} {after_its_name}")?.as_str())?;
    }
    Ok(text)
}

// A writer for each of the jobs, of which one gives its processor away so often at each write.
fn writers(alloc: Global, yields: u32) -> Result<Vec<Slow>, AllocError> {
    let mut writers = Vec::new(alloc);
    for number in 0..JOBS {
        let bytes = Vec::new(alloc);
        let yields = if number == SLOW { yields } else { 0 };
        writers.push(Slow { bytes, yields })?;
    }
    Ok(writers)
}

// The report: every job is done, with the four blocks of the chain.
fn wanted_report(alloc: Global) -> Result<String, AllocError> {
    let mut text = String::new(alloc);
    for number in 0..JOBS {
        let line = format!(in alloc; "{number} done visits=4 kept=4 sections=4 bytes=336\n")?;
        text.push_str(line.as_str())?;
    }
    let last = format!(in alloc; "total jobs={JOBS} done={JOBS} skips=0\n")?;
    text.push_str(last.as_str())?;
    Ok(text)
}

// Runs all jobs, with room for one item in the queue and in each lane.
fn run_all<R: Threads + Wait + Sync>(
    rt: &R,
    alloc: Global,
    yields: u32,
) -> Result<RunOut<Slow>, Fail> {
    let car = chain_car(alloc)?;
    let (store, jobs) = prepare(alloc, car.as_slice(), job_file(alloc)?.as_bytes())?;
    let writers = writers(alloc, yields)?;
    if jobs.len() != writers.len() {
        return Err("a thousand jobs were wanted".into());
    }
    let plan = Plan {
        walkers: THREADS,
        queue: 1,
        lane: 1,
    };
    Ok(run(rt, alloc, &store, &jobs, writers, THREADS, plan)?)
}

// Whether each job's archive and the report are those of one thread.
fn is_whole(out: &RunOut<Slow>, archive: &[u8], report: &str) -> bool {
    out.report.as_slice() == report.as_bytes()
        && out.writers.len() == JOBS
        && out
            .writers
            .iter()
            .all(|writer| writer.bytes.as_slice() == archive)
}

// Whether all jobs, run so often, come to the archives and the report of one thread each time.
fn are_whole<R: Threads + Wait + Sync>(
    rt: &R,
    alloc: Global,
    runs: u32,
    yields: u32,
) -> Result<bool, Fail> {
    let archive = chain_archive(alloc)?;
    let report = wanted_report(alloc)?;
    for _ in 0..runs {
        let out = run_all(rt, alloc, yields)?;
        if !is_whole(&out, archive.as_slice(), report.as_str()) {
            return Ok(false);
        }
    }
    Ok(true)
}

#[test]
fn thousand_jobs_by_sixty_four_threads(rt: HostRuntime) -> Result<(), Fail> {
    assert!(rt; are_whole(&rt, rt.alloc(), RUNS, 0)?);
    Ok(())
}

#[test]
fn thousand_jobs_by_sixty_four_threads_again(rt: HostRuntime) -> Result<(), Fail> {
    assert!(rt; are_whole(&rt, rt.alloc(), RUNS, 0)?);
    Ok(())
}

#[test]
fn thousand_jobs_with_a_slow_writer(rt: HostRuntime) -> Result<(), Fail> {
    assert!(rt; are_whole(&rt, rt.alloc(), 1, YIELDS)?);
    Ok(())
}
