//! An export of which some threads can't be started: which checks come back, and what they checked.
//!
//! The environment says which starts fail, as `tests/memory.sh` passes it to the library that makes
//! them fail: bit i of `REFUSE_THREADS` for the thread start with number i, verifiers before walkers.
//! Without it all threads are started.

use crate::exporting::{ExportInput, list, plan_of, started};
use ix_car::End;
use ix_fixtures::{Before, CheckAfter, Log};
use ix_pipeline::{Open, export};
use ix_walk::Visit;
use std::alloc::AllocError;
use std::env;
use std::rt::Env;
use std::test::Fail;

// The verifiers, by the bits of their starts, and the walkers after them.
const VERIFIERS: u32 = 0b111;

const WALKERS: u32 = 0b11000;

// How many visits the three jobs have together.
const VISITS: usize = 15;

// The number of a check's verifier, for which nothing else is done.
#[derive(Drop)]
struct Number(u32);

impl Before for Number {
    fn before(&self, _visit: &Visit) -> Result<(), AllocError> {
        Ok(())
    }
}

// The thread starts that fail, a bit for each.
fn refused_starts<R: AllocGlobal + Env>(rt: &R) -> u32 {
    match env::var(rt, "REFUSE_THREADS") {
        Ok(text) => text.as_str().parse().unwrap_or(0),
        Err(_) => 0,
    }
}

// Whether these checks are those of the verifiers whose starts didn't fail, in their order.
fn are_started(checks: &[CheckAfter<Number>], refused: u32) -> bool {
    let started = (0..3).filter(|number| refused >> number & 1 == 0);
    checks.iter().map(|numbered| numbered.first.0).eq(started)
}

// How many visits they checked.
fn checked_by(checks: &[CheckAfter<Number>]) -> usize {
    let mut count = 0usize;
    for numbered in checks {
        count = count.saturating_add(numbered.check.receipts().len());
    }
    count
}

#[test]
fn checks_of_verifiers_that_started(rt: HostRuntime) -> Result<(), Fail> {
    let alloc = rt.alloc();
    let ExportInput { store, jobs } = list(alloc, 3)?;
    let mut sinks = [
        Log::new(alloc, 9)?,
        Log::new(alloc, 9)?,
        Log::new(alloc, 9)?,
    ];
    let checks = vec![in alloc;
        CheckAfter::new(alloc, Number(0)),
        CheckAfter::new(alloc, Number(1)),
        CheckAfter::new(alloc, Number(2)),
    ]?;
    let plan = plan_of(2, 1, 1);
    let out = started(export(&rt, alloc, &store, &jobs, &mut sinks, checks, &Open, plan))?;
    let refused = refused_starts(&rt);
    let is_idle = refused & VERIFIERS == VERIFIERS || refused & WALKERS == WALKERS;
    let (end, visits) = if is_idle {
        (End::Start, 0)
    } else {
        (End::Done, VISITS)
    };
    assert!(rt; are_started(out.checks.as_slice(), refused));
    assert_eq!(rt; checked_by(out.checks.as_slice()), visits);
    assert!(rt; out.ends.as_slice() == [end; 3].as_slice());
    Ok(())
}
