//! Many steps from one place.

ghost use Rattle.std.specs.Prelude.{◌≡◌, [], IfOk, IfSome, IfNone};
ghost use Rattle.ix_selector.specs.Residual.{ResidualEnters, EntersAfter, LeavesOut, step_of, IsAfter};
ghost use Rattle.ix_selector.specs.Behind.{IsLeftAfter, NothingIsLeftAfter};

use crate::residual::Residual;
use crate::step::Step;
use std::alloc::{AllocError, Global};
use std::marker::Model;

/// The residual of a selector at a list or a map, from which many steps are taken. If no selector
/// depends on the step, each step leaves the same, which is computed once and shared.
pub struct Steps<'s> {
    from: Residual<'s>,
    // What each step leaves, once it is known.
    each: Option<Box<Residual<'s>>>,
}

// Written by hand: a derived drop is inlined in each function that drops one, at each of its exits.
impl<'s> Drop for Steps<'s> {
    fn drop(self) {
        let Steps { from, each } = self;
        drop(from);
        drop(each);
    }
}

impl<'s> Model for Steps<'s> {
    ghost use Rattle.std.specs.Prelude.{List, IfSome};
    ghost use Rattle.ix_selector.specs.Residual.{Place, coded_places};
    ghost use Rattle.ix_selector.specs.Alike.{EachStepLeaves};

    ghost Value = { List Place };

    ghost coded = { coded_places };

    ghost view = { λ s. s.from };

    ghost invariant = { λ s. IfSome s.each (λ r. EachStepLeaves s.from r.value) };
}

impl<'s> Steps<'s> {
    /// Takes the residual from which the steps are taken.
    pub fn of(residual: Residual<'s>) -> Steps<'s>
        ensures { result ≡ residual.entry }
    {
        Steps {
            from: residual,
            each: None,
        }
    }

    /// Returns the residual after a step, or `None` if the child isn't entered. Fails if memory
    /// runs out.
    pub fn step(&mut self, alloc: Global, step: &Step) -> Result<Option<Residual<'s>>, AllocError>
        ensures same { self.new ≡ self.old }
        ensures entered { IfOk result (λ o. IfSome o (λ r. ResidualEnters r [])) }
        ensures below { IfOk result (λ o. IfSome o (EntersAfter self.old (step_of step.now))) }
        ensures none { IfOk result (λ o. IfNone o (LeavesOut self.old (step_of step.now))) }
        ensures tested { IfOk result (IsAfter self.old (step_of step.now)) }
        ensures exact { IfOk result (λ o. IfSome o (IsLeftAfter self.old (step_of step.now))) }
        ensures stays_out { IfOk result (λ o. IfNone o (NothingIsLeftAfter self.old (step_of step.now))) }
    {
        if let Some(each) = &self.each {
            return Ok(Some(each.try_clone(alloc)?));
        }
        let next = self.from.step(alloc, step)?;
        if let Some(left) = &next {
            if left.is_shared() && self.from.looks_at_no_step() {
                self.each = Some(Box::new(alloc, left.try_clone(alloc)?)?);
            }
        }
        Ok(next)
    }
}
