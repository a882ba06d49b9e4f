//! Checks of visits.

ghost use Rattle.std.specs.Prelude.{◌≡◌, []};
ghost use Rattle.ix_check.specs.Verdict.{verdict_of};
ghost use Rattle.ix_check.specs.Visits.{IsUnused, IsVisitOf};

use crate::history::History;
use ix_cid::Cid;
use ix_store::{Store, verdict_at};
use ix_verdict::{Needed, Verdict, bytes_needed};
use ix_walk::Visit;
use std::alloc::{AllocError, Global};
use std::marker::Model;

/// A check of visits, which records what it checked.
pub trait Check {
    ghost use Rattle.std.specs.Prelude.{◌≡◌, ◌++◌, ◌∷◌, [], IfOk, OnOk, OnErr, List, ℕ};
    ghost use Rattle.ix_check.specs.Verdict.{verdict_of};
    ghost use Rattle.ix_check.specs.Visits.{IsVisitOf, receipt_of};

    /// The job and number of each visit that was checked, in order.
    ghost checked: { Self → List (ℕ × ℕ) };

    /// Returns the verdict on a visit's CID. Fails if memory runs out, and then changes nothing.
    fn check(&mut self, alloc: Global, store: &Store, visit: &Visit) -> Result<Verdict, AllocError>
        requires { IsVisitOf store.now visit.now }
        ensures verdict { IfOk result (λ v. v ≡ verdict_of store.now visit.now.cid) }
        ensures noted { OnOk result (checked self.new ≡ checked self.old ++ receipt_of visit.now ∷ []) }
        ensures err { OnErr result (checked self.new ≡ checked self.old) };
}

/// A check by SHA-256 and SHA-512 (FIPS 180-4), which keeps a receipt of each visit that it
/// checked.
#[derive(Drop)]
pub struct ShaCheck {
    receipts: Vec<(u32, u32)>,
}

impl Model for ShaCheck {
    ghost use Rattle.std.specs.Prelude.{List, ℕ};

    ghost Value = { List (ℕ × ℕ) };

    ghost view = { λ c. c.receipts.items };
}

impl ShaCheck {
    /// Creates a check that has checked nothing.
    pub fn new(alloc: Global) -> ShaCheck
        ensures { result ≡ [] }
    {
        ShaCheck {
            receipts: Vec::new(alloc),
        }
    }

    /// The job and number of each visit that was checked, in order.
    pub fn receipts(&self) -> &[(u32, u32)]
        ensures { result.now ≡ self.now }
    {
        self.receipts.as_slice()
    }
}

impl Check for ShaCheck {
    ghost checked = { λ c. c };

    fn check(
        &mut self,
        _alloc: Global,
        store: &Store,
        visit: &Visit,
    ) -> Result<Verdict, AllocError> {
        self.receipts.reserve(1)?;
        let verdict = verdict_of(store, visit);
        self.receipts.push_reserved((visit.job, visit.seq));
        Ok(verdict)
    }
}

/// A check as `ShaCheck`, which keeps nothing: what it checked is seen by contracts alone.
#[derive(Drop)]
pub struct PlainCheck {
    receipts: History<(u32, u32)>,
}

impl Model for PlainCheck {
    ghost use Rattle.std.specs.Prelude.{List, ℕ};

    ghost Value = { List (ℕ × ℕ) };

    ghost view = { λ c. c.receipts };
}

impl PlainCheck {
    /// Creates a check that has checked nothing.
    pub fn new() -> PlainCheck
        ensures { IsUnused result }
    {
        PlainCheck {
            receipts: History::new(),
        }
    }
}

impl Check for PlainCheck {
    ghost checked = { λ c. c };

    fn check(
        &mut self,
        _alloc: Global,
        store: &Store,
        visit: &Visit,
    ) -> Result<Verdict, AllocError> {
        self.receipts.push(&(visit.job, visit.seq));
        Ok(verdict_of(store, visit))
    }
}

/// Returns the verdict on a CID in a store, as a check does on a visit of it.
pub fn verdict_in(store: &Store, cid: &Cid) -> Verdict
    ensures { result ≡ verdict_of store.now cid.now }
{
    verdict_at(store, cid, store.find(cid))
}

// Returns the first verdict that holds of a visit's CID. The visit says whether its bytes are valid
// DAG-CBOR, and the store whether a block's hash matches, which it computes at the first visit. So
// no block is decoded or hashed again, and an identity CID is neither.
fn verdict_of(store: &Store, visit: &Visit) -> Verdict
    requires { IsVisitOf store.now visit.now }
    ensures { result ≡ verdict_of store.now visit.now.cid }
{
    match bytes_needed(&visit.cid.parts()) {
        Needed::Nothing(verdict) => verdict,
        Needed::Digest => Verdict::of_inline(visit.malformed),
        Needed::Block(_) => match visit.block {
            None => Verdict::Missing,
            Some(place) => Verdict::of_block(store.hash_matches(place), visit.malformed),
        },
    }
}
