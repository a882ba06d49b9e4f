//! Exports of jobs with far more visits than the ring of a job has room for: with checks that are held
//! while others begin, and to a sink that fails at once.

use crate::archives::archived;
use crate::exporting::{ExportInput, plan_of, started};
use crate::layers::{is_layers, layers};
use ix_car::End;
use ix_check::ShaCheck;
use ix_fixtures::{ALL, Awaited, Before, CheckAfter, Log, TURNS, job_at};
use ix_pipeline::{Gate, Open, export};
use ix_walk::Visit;
use std::alloc::AllocError;
use std::sync::Arc;
use std::sync::atomic::{AtomicU32, Ordering};
use std::test::Fail;
use std::thread;

// How many numbers from the next one on the ring of a job has room for.
const WINDOW: u32 = 16_384;

// How many visits a job has: more than a hundred times as many, so that a ring without a bound shows.
const VISITS: u32 = 2_000_000;

// How many items the queue has room for, and each lane.
const QUEUE: u32 = 256;

const LANE: u32 = 16;

// How many checks of a job can begin while its first is held: as many as its ring has room for, and
// for each other verifier those that wait in its lane, and one that waits to be sent.
const MOST_BY_TWO: u32 = WINDOW - 1 + (LANE + 1);

const MOST_BY_THREE: u32 = WINDOW - 1 + 2 * (LANE + 1);

// How often a verifier gives its processor away before a held check goes on, so that others begin all
// that they can.
const YIELDS: u32 = 10_000;

// How many checks of a job began after its first, and how many of them before the first went on.
#[derive(Drop)]
struct Begun {
    now: AtomicU32,
    meanwhile: AtomicU32,
}

impl Begun {
    fn new() -> Begun {
        Begun {
            now: AtomicU32::new(0),
            meanwhile: AtomicU32::new(0),
        }
    }

    fn count(&self) {
        self.now.fetch_add(1, Ordering::SeqCst);
    }

    // Records how many began so far.
    fn record(&self) {
        let count = self.now.load(Ordering::SeqCst);
        self.meanwhile.store(count, Ordering::SeqCst);
    }

    // Returns how many began before the first check went on.
    fn meanwhile(&self) -> u32 {
        self.meanwhile.load(Ordering::SeqCst)
    }
}

// What the checks of a run with one job or two share.
#[derive(Drop)]
struct Held {
    // That the first check of each job is held.
    all: Awaited,
    // That a check began for whose visit there is no room while the first of its job is held.
    beyond: Awaited,
    first: Begun,
    second: Begun,
}

impl Held {
    fn new(jobs: u32) -> Held {
        Held {
            all: Awaited::new(jobs),
            beyond: Awaited::new(1),
            first: Begun::new(),
            second: Begun::new(),
        }
    }

    // Holds the first check of a job until one began that is beyond the window.
    fn hold(&self, begun: &Begun) {
        self.all.signal();
        self.beyond.wait(TURNS);
        for _ in 0..YIELDS {
            thread::yield_now();
        }
        begun.record();
    }

    // Whether each first check was held until the others had begun.
    fn is_met(&self) -> bool {
        self.all.has_begun() && !self.all.is_missed() && !self.beyond.is_missed()
    }
}

// Holds the first check of each job.
#[derive(Drop)]
struct FirstHeld<'a> {
    held: &'a Held,
}

impl Before for FirstHeld<'_> {
    fn before(&self, visit: &Visit) -> Result<(), AllocError> {
        let held = self.held;
        let begun = if visit.job == 0 {
            &held.first
        } else {
            &held.second
        };
        if visit.seq == 0 {
            held.hold(begun);
            return Ok(());
        }
        begun.count();
        if visit.seq == WINDOW {
            held.beyond.signal();
        }
        Ok(())
    }
}

// Holds each walk at its second visit until the first checks of all jobs are held.
#[derive(Drop)]
struct SecondHeld<'a> {
    held: &'a Held,
}

impl Gate for SecondHeld<'_> {
    fn pass(&self, _job: u32, seq: u32) {
        if seq == 1 {
            self.held.all.wait(TURNS);
        }
    }
}

#[test]
fn check_held_beyond_the_window(rt: HostRuntime) -> Result<(), Fail> {
    let alloc = rt.alloc();
    let (store, root, archive) = layers(alloc)?;
    let store = Arc::new(alloc, store)?;
    let jobs = Arc::new(alloc, vec![in alloc; job_at(alloc, root, ALL, VISITS)?]?)?;
    let input = ExportInput { store, jobs };
    let held = Held::new(1);
    let checks = vec![in alloc;
        CheckAfter::new(alloc, FirstHeld { held: &held }),
        CheckAfter::new(alloc, FirstHeld { held: &held }),
    ]?;
    let plan = plan_of(1, QUEUE, LANE);
    let (all_left, out) = archived(&rt, alloc, &input, checks, &Open, plan)?;
    assert!(rt; held.is_met(), "no check beyond the window began");
    let begun = held.first.meanwhile();
    assert!(rt;
        WINDOW <= begun && begun <= MOST_BY_TWO,
        "{begun} checks began while the first was held"
    );
    assert!(rt; out.ends.as_slice() == [End::Limit].as_slice());
    for left in &all_left {
        assert!(rt; is_layers(left, VISITS, archive.as_slice()));
    }
    Ok(())
}

#[test]
fn two_checks_held_beyond_the_window(rt: HostRuntime) -> Result<(), Fail> {
    let alloc = rt.alloc();
    let (store, root, archive) = layers(alloc)?;
    let store = Arc::new(alloc, store)?;
    let jobs = Arc::new(
        alloc,
        vec![in alloc;
            job_at(alloc, root.try_clone(alloc)?, ALL, VISITS)?,
            job_at(alloc, root, ALL, VISITS)?,
        ]?,
    )?;
    let input = ExportInput { store, jobs };
    let held = Held::new(2);
    let checks = vec![in alloc;
        CheckAfter::new(alloc, FirstHeld { held: &held }),
        CheckAfter::new(alloc, FirstHeld { held: &held }),
        CheckAfter::new(alloc, FirstHeld { held: &held }),
    ]?;
    let gate = SecondHeld { held: &held };
    let plan = plan_of(2, QUEUE, LANE);
    let (all_left, out) = archived(&rt, alloc, &input, checks, &gate, plan)?;
    assert!(rt; held.is_met(), "no check beyond the window began");
    for begun in [held.first.meanwhile(), held.second.meanwhile()] {
        assert!(rt;
            begun <= MOST_BY_THREE,
            "{begun} checks began while the first was held"
        );
    }
    assert!(rt; out.ends.as_slice() == [End::Limit; 2].as_slice());
    for left in &all_left {
        assert!(rt; is_layers(left, VISITS, archive.as_slice()));
    }
    Ok(())
}

// A job whose sink has failed moves its ring no more, and all its visits are still checked.
#[test]
fn sink_that_fails_at_the_first_visit(rt: HostRuntime) -> Result<(), Fail> {
    let alloc = rt.alloc();
    let (store, root, _) = layers(alloc)?;
    let store = Arc::new(alloc, store)?;
    let jobs = Arc::new(alloc, vec![in alloc; job_at(alloc, root, ALL, VISITS)?]?)?;
    let mut sinks = [Log::new(alloc, 0)?];
    let checks = vec![in alloc; ShaCheck::new(alloc), ShaCheck::new(alloc)]?;
    let plan = plan_of(1, QUEUE, LANE);
    let out = started(export(&rt, alloc, &store, &jobs, &mut sinks, checks, &Open, plan))?;
    assert!(rt; out.ends.as_slice() == [End::Write].as_slice());
    let mut checked = 0usize;
    for check in &out.checks {
        checked = checked.saturating_add(check.receipts().len());
    }
    assert_eq!(rt; checked, VISITS as usize);
    Ok(())
}
