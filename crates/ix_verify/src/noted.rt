//! Counted findings, of which the first are kept.

ghost use Rattle.std.specs.Prelude.{◌≡◌, ℕ, ◌+◌, ◌^◌, ◌<◌, [], ◌∷◌, false, nat_lt, length, OnOk};
ghost use Rattle.ix_verdict.specs.declared.verdict.Verdict.{Verdict as VerdictValue};
ghost use Rattle.ix_verify.specs.Noting.{IsNoted, NotesMore};

use crate::found::Outcome;
use ix_check::Verdict;
use std::alloc::{AllocError, Global};

/// The number of findings, the first of them, no more than are to be kept, and the worst that their verdicts
/// make of a file.
#[derive(Drop)]
pub struct Noted<T> {
    pub count: usize,
    pub first: Vec<T>,
    pub worst: Outcome,
}

impl<T: Drop> Noted<T> {
    // Returns no findings.
    pub(crate) fn new(alloc: Global) -> Noted<T>
        ensures { (verdict : T → VerdictValue) (most : ℕ) → IsNoted verdict most [] result }
    {
        Noted {
            count: 0,
            first: Vec::new(alloc),
            worst: Outcome::Sound,
        }
    }

    // Returns whether one more is kept, if so many are to be.
    pub(crate) fn has_room(&self, most: usize) -> bool
        ensures { result ≡ nat_lt (length self.now.first.items) most }
    {
        self.first.len() < most
    }

    // Counts one more with this verdict, without keeping it: as many as are to be kept are there.
    pub(crate) fn count(&mut self, most: usize, verdict: Verdict)
        requires full { nat_lt (length self.old.first.items) most ≡ false }
        requires fits { self.old.count + 1 < 2 ^ 64 }
        ensures { (of : T → VerdictValue) (item : T) → of item ≡ verdict
            → NotesMore of most (item ∷ []) self.old self.new }
    {
        self.worst = self.worst.worse(Outcome::on(verdict));
        self.count += 1;
    }

    // Counts one more with this verdict, and keeps it if it is among the first.
    pub(crate) fn note(&mut self, most: usize, verdict: Verdict, item: T) -> Result<(), AllocError>
        requires { self.old.count + 1 < 2 ^ 64 }
        ensures { (of : T → VerdictValue) → of item ≡ verdict
            → OnOk result (NotesMore of most (item ∷ []) self.old self.new) }
    {
        if self.has_room(most) {
            self.first.push(item)?;
        }
        self.worst = self.worst.worse(Outcome::on(verdict));
        self.count += 1;
        Ok(())
    }
}
