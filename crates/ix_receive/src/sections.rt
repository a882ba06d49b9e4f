//! The blocks that a receiver has: those of its base, and the sections that have come, of which DAG-CBOR
//! blocks alone are kept.

ghost use Rattle.std.specs.Prelude.{◌≡◌, false, [], ◌∷◌, ◌++◌, map, IfSome, OnOk};
ghost use Rattle.ix_store.specs.Store.{has_cid, value_of};
ghost use Rattle.ix_walk.specs.Arriving.{IsValue};
ghost use Rattle.ix_walk.specs.Descent.{IsItem};
ghost use Rattle.ix_receive.specs.Keeping.{kept_of};
ghost use Rattle.ix_check.specs.Verdict.{verdict_of};
ghost use Rattle.ix_receive.specs.Base.{HaveSound, store_of};

use ix_check::{History, verdict_in};
use ix_cid::Cid;
use ix_cid::code::DAG_CBOR;
use ix_known::KnownBlocks;
use ix_store::{Cursor, Store};
use ix_verdict::{Needed, Verdict, bytes_needed};
use ix_walk::read_block;
use std::alloc::{AllocError, Global};
use std::marker::Model;
use std::snapshot::Snapshot;

// A CID and its block as contracts see them. It has no bytes.
#[derive(Drop)]
struct PastSection {
    cid: Snapshot<Cid>,
    block: History<u8>,
}

impl Model for PastSection {
    ghost use Rattle.std.specs.Prelude.{List, ℕ};

    ghost Value = { List ℕ × List ℕ };

    ghost view = { λ s. (s.cid.value, s.block) };
}

impl PastSection {
    // Records a section for contracts. The loop does nothing, and the optimizer removes it.
    fn of(cid: &Cid, block: &[u8]) -> PastSection
        ensures { result ≡ (cid.now, block.now) }
    {
        let mut bytes = History::new();
        for byte in block {
            bytes.push(byte);
        }
        PastSection {
            cid: Snapshot::of(cid),
            block: bytes,
        }
    }
}

// A base, and the sections that have come, each with its block as contracts see it. Of a leaf the CID
// alone is kept, since its block has no links.
pub(crate) struct Sections<'s> {
    // Of the blocks here, those of the base come first.
    base: KnownBlocks<'s>,
    // The sections, those of leaves with no bytes.
    kept: Store,
    // The sections as they came, for contracts only.
    history: History<PastSection>,
}

// Written by hand: a derived drop is inlined in each function that drops one, at each of its exits.
impl<'s> Drop for Sections<'s> {
    fn drop(self) {
        let Sections {
            base: _,
            kept,
            history,
        } = self;
        drop(kept);
        drop(history);
    }
}

impl<'s> Model for Sections<'s> {
    ghost use Rattle.std.specs.Prelude.{◌≡◌, List, ℕ, map};
    ghost use Rattle.ix_receive.specs.Keeping.{kept_of};

    ghost Value = { List (List ℕ × List ℕ) × List (List ℕ × List ℕ) };

    ghost view = { λ s. (s.base, s.history) };

    ghost invariant = { λ s. s.kept ≡ map kept_of s.history };
}

// Returns the bytes to keep of a block: all if it is DAG-CBOR, and otherwise none.
fn kept_bytes<'a>(cid: &Cid, block: &'a [u8]) -> &'a [u8]
    ensures { (cid.now, result.now) ≡ kept_of (cid.now, block.now) }
{
    if cid.codec() == DAG_CBOR { block } else { &[] }
}

impl<'s> Sections<'s> {
    // Creates the sections of an archive of which none has come.
    pub(crate) fn new(alloc: Global, base: KnownBlocks<'s>) -> Sections<'s>
        ensures { result ≡ (base.entry, []) }
    {
        Sections {
            base,
            kept: Store::new(alloc),
            history: History::new(),
        }
    }

    // Whether the base has the block of a CID.
    pub(crate) fn is_in_base(&self, cid: &Cid) -> bool
        ensures { result ≡ has_cid self.now.0 cid.now }
    {
        self.base.store_with(cid).is_some()
    }

    // Whether the section of a CID has come.
    pub(crate) fn has_come(&self, cid: &Cid) -> bool
        ensures { result ≡ has_cid self.now.1 cid.now }
    {
        self.kept.find(cid).is_some()
    }

    // Whether there is a block of a CID.
    pub(crate) fn has(&self, cid: &Cid) -> bool
        ensures { result ≡ has_cid (store_of self.now) cid.now }
    {
        self.is_in_base(cid) || self.has_come(cid)
    }

    // Returns the verdict on a CID. A block that is here is sound.
    pub(crate) fn verdict(&self, cid: &Cid) -> Verdict
        requires { HaveSound self.now }
        ensures { result ≡ verdict_of (store_of self.now) cid.now }
    {
        match bytes_needed(&cid.parts()) {
            Needed::Nothing(verdict) => verdict,
            // It depends on the CID alone.
            Needed::Digest => verdict_in(&self.kept, cid),
            Needed::Block(_) => {
                if self.has(cid) {
                    Verdict::Sound
                } else {
                    Verdict::Missing
                }
            }
        }
    }

    // Returns the store that has the block of a CID, if there is one.
    fn store_with(&self, cid: &Cid) -> &Store
        ensures { value_of result.now cid.now ≡ value_of (store_of self.now) cid.now }
    {
        match self.base.store_with(cid) {
            Some(store) => store,
            None => &self.kept,
        }
    }

    // Returns the DAG-CBOR that a CID names: that inline in it (an identity CID), or its block.
    pub(crate) fn read<'a>(&'a self, cid: &'a Cid) -> Option<Cursor<'a>>
        ensures value { IsValue (value_of (store_of self.now) cid.now) result }
        ensures item { IfSome result (λ b. IsItem b) }
    {
        let store = self.store_with(cid);
        let block = store.find(cid);
        let (bytes, _) = read_block(store, &cid.by_ref(), block);
        bytes
    }

    // Adds a section, with the bytes of its block unless that is a leaf.
    pub(crate) fn add(&mut self, cid: Cid, block: &[u8]) -> Result<(), AllocError>
        requires { has_cid self.old.1 cid ≡ false }
        ensures { OnOk result (self.new ≡ (self.old.0, self.old.1 ++ (cid, block.now) ∷ [])) }
    {
        let section = PastSection::of(&cid, block);
        let bytes = kept_bytes(&cid, block);
        self.kept.add_copy(cid, bytes)?;
        self.history.push(&section);
        Ok(())
    }

    // Returns what is kept of the sections.
    pub(crate) fn into_kept(self) -> Store
        ensures { result ≡ map kept_of self.entry.1 }
    {
        let Sections {
            base: _,
            kept,
            history,
        } = self;
        drop(history);
        kept
    }
}
