//! Runs with a check that runs out of memory, and with a writer of a test's own.

ghost use Rattle.std.specs.Prelude.{◌≡◌, length, IfOk};
ghost use Rattle.std.specs.Arc.{arc_value};
ghost use Rattle.ix_car.specs.Headline.{IsUnusedCheck};
ghost use Rattle.ix_run.specs.Run.{CanRun};

use crate::input::{CHAIN_JOBS, chain_car};
use ix_check::{Check, ShaCheck};
use ix_fixtures::{CHAIN, CheckAfter, OUTER, Refusing, archive_of, chain_archive};
use ix_jobs::{JobResult, report, status};
use ix_run::{prepare, run_jobs};
use ix_store::Store;
use ix_walk::Job;
use std::alloc::Global;
use std::io::{self, ErrorKind, Write};
use std::sync::Arc;
use std::test::Fail;

// A writer in memory whose flush may fail.
#[derive(Drop)]
struct Flushed {
    bytes: Vec<u8>,
    fails: bool,
}

impl Write for Flushed {
    fn write(&mut self, buf: &[u8]) -> io::Result<usize> {
        self.bytes.extend_from_slice(buf)?;
        Ok(buf.len())
    }

    fn flush(&mut self) -> io::Result<()> {
        if self.fails {
            return Err(io::Error::from(ErrorKind::StorageFull));
        }
        Ok(())
    }
}

// The report of a run, and what it wrote.
#[derive(Drop)]
struct Ran<W> {
    report: Vec<u8>,
    status: u8,
    writers: Vec<W>,
}

// The chain, and its two jobs.
fn two_jobs(alloc: Global) -> Result<(Arc<Store>, Arc<Vec<Job>>), Fail>
    ensures { IfOk result (λ p. length (arc_value p.1).items ≡ 2) }
{
    let car = chain_car(alloc)?;
    let (store, jobs) = prepare(alloc, car.as_slice(), CHAIN_JOBS.as_bytes())?;
    if jobs.len() != 2 {
        return Err("two jobs were wanted".into());
    }
    Ok((store, jobs))
}

// Runs jobs by this check, to these writers.
fn run_two<W: Write + Drop, C: Check>(
    alloc: Global,
    store: &Store,
    jobs: &[Job],
    writers: Vec<W>,
    check: &mut C,
) -> Result<Ran<W>, Fail>
    requires unused { IsUnusedCheck C.checked check.old }
    requires run { CanRun jobs.now writers.items }
{
    let (results, writers) = run_jobs(alloc, store, jobs, writers, check)?;
    let report = report_of(alloc, jobs, results.as_slice())?;
    Ok(Ran {
        report,
        status: status(results.as_slice()),
        writers,
    })
}

// The report of jobs with these results.
fn report_of(alloc: Global, jobs: &[Job], results: &[JobResult]) -> Result<Vec<u8>, Fail> {
    if results.len() != jobs.len() {
        return Err("a result for each job was wanted".into());
    }
    Ok(report(alloc, jobs, results)?)
}

// Whether a run has this report, in which a job ends otherwise than done.
fn reports<W>(ran: &Ran<W>, report: &str) -> bool {
    ran.report.as_slice() == report.as_bytes() && ran.status == 4
}

// Whether the first writer has the archive up to its third section, and the second has all of it.
fn are_cut_and_whole(alloc: Global, writers: &[Vec<u8>]) -> Result<bool, Fail> {
    let beginning = archive_of(alloc, OUTER, &CHAIN[..2])?;
    let whole = chain_archive(alloc)?;
    Ok(match writers {
        [first, second] => *first == beginning && *second == whole,
        _ => false,
    })
}

#[test]
fn out_of_memory(rt: HostRuntime) -> Result<(), Fail> {
    let alloc = rt.alloc();
    let (store, jobs) = two_jobs(alloc)?;
    let mut check = CheckAfter::new(alloc, Refusing);
    let writers = vec![in alloc; Vec::new(alloc), Vec::new(alloc)]?;
    let ran = run_two(alloc, &store, jobs.as_slice(), writers, &mut check)?;
    let report = "a memory visits=2 kept=2 sections=2 bytes=217\n\
        b done visits=4 kept=4 sections=4 bytes=336\n\
        total jobs=2 done=1 skips=0\n";
    assert!(rt; reports(&ran, report));
    assert!(rt; are_cut_and_whole(alloc, ran.writers.as_slice())?);
    Ok(())
}

// A writer to which nothing was written so far.
fn empty_writer(alloc: Global, fails: bool) -> Flushed {
    Flushed {
        bytes: Vec::new(alloc),
        fails,
    }
}

// Whether two writers have the archive.
fn are_whole(alloc: Global, writers: &[Flushed]) -> Result<bool, Fail> {
    let whole = chain_archive(alloc)?;
    Ok(writers.len() == 2 && writers.iter().all(|writer| writer.bytes == whole))
}

// A flush that fails is a failed write, and the bytes are there.
#[test]
fn failing_flush(rt: HostRuntime) -> Result<(), Fail> {
    let alloc = rt.alloc();
    let (store, jobs) = two_jobs(alloc)?;
    let mut check = ShaCheck::new(alloc);
    let writers = vec![in alloc; empty_writer(alloc, false), empty_writer(alloc, true)]?;
    let ran = run_two(alloc, &store, jobs.as_slice(), writers, &mut check)?;
    let report = "a done visits=4 kept=4 sections=4 bytes=336\n\
        b write visits=4 kept=4 sections=4 bytes=336\n\
        total jobs=2 done=1 skips=0\n";
    assert!(rt; reports(&ran, report));
    assert!(rt; are_whole(alloc, ran.writers.as_slice())?);
    Ok(())
}
