//! A check before which something else is done, and one that runs out of memory at one visit.

ghost use Rattle.ix_car.specs.Headline.{IsUnusedCheck};

use ix_check::{Check, ShaCheck, Verdict};
use ix_store::Store;
use ix_walk::Visit;
use std::alloc::{AllocError, Global};

/// What is done before a visit is checked.
pub trait Before {
    /// Signals another side, waits for one, or runs out of memory, before this visit is checked.
    fn before(&self, visit: &Visit) -> Result<(), AllocError>;
}

/// Checks as `ShaCheck` does, each visit once something else was done.
#[derive(Drop)]
pub struct CheckAfter<B> {
    /// What is done first.
    pub first: B,
    /// What checks then.
    pub check: ShaCheck,
}

impl<B> CheckAfter<B> {
    /// Makes a check that has checked nothing so far.
    pub fn new(alloc: Global, first: B) -> CheckAfter<B>
        ensures { IsUnusedCheck (λ c. c.check) result }
    {
        CheckAfter {
            first,
            check: ShaCheck::new(alloc),
        }
    }
}

impl<B: Before> Check for CheckAfter<B> {
    ghost checked = { λ c. c.check };

    fn check(
        &mut self,
        alloc: Global,
        store: &Store,
        visit: &Visit,
    ) -> Result<Verdict, AllocError> {
        self.first.before(visit)?;
        self.check.check(alloc, store, visit)
    }
}

// The third visit of the first job.
const REFUSED: (u32, u32) = (0, 2);

/// Runs out of memory at the third visit of the first job.
#[derive(Drop)]
pub struct Refusing;

impl Before for Refusing {
    fn before(&self, visit: &Visit) -> Result<(), AllocError> {
        if (visit.job, visit.seq) == REFUSED {
            return Err(AllocError);
        }
        Ok(())
    }
}
