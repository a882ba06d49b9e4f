//! CIDs, seen as their bytes.

ghost use Rattle.std.specs.Prelude.{◌≡◌, drop, Ok, IfOk, string_bytes};
ghost use Rattle.std.specs.Arc.{arc_value};
ghost use Rattle.std.specs.Cmp.Lexicographic.{slice_cmp};
ghost use Rattle.std.specs.Ordering.{nat_cmp};

use crate::cid_ref::CidRef;
use crate::fault::CidFault;
use crate::held::{Held, behind};
use crate::parts::{Parts, numbered_length, parts_at, split_cid};
use crate::{base32, hexadecimal};
use std::alloc::{AllocError, Global};
use std::cmp::Ordering;
use std::fmt;
use std::hash::{Hash, Hasher};
use std::marker::Model;
use std::sync::Arc;

/// A CID (multiformats CID), of any version, codec and hash function. Contracts see its bytes;
/// equality, order and hashing are those of the bytes. One of at most 36 bytes is stored inline,
/// and a longer one is a share of bytes that contain it.
pub struct Cid {
    pub(crate) held: Held,
}

// Written by hand: a derived drop is inlined in each function that drops one, at each of its exits.
impl Drop for Cid {
    fn drop(self) {
        let Cid { held } = self;
        drop(held);
    }
}

impl Model for Cid {
    ghost use Rattle.std.specs.Prelude.{List, ℕ};
    ghost use Rattle.ix_cid.specs.Cid.{IsCid};
    ghost use Rattle.ix_cid.specs.Held.{content};

    ghost Value = { List ℕ };

    ghost view = { λ c. content c.held };

    ghost invariant = { λ c. IsCid (content c.held) };
}

impl Cid {
    ghost use Rattle.ix_cid.specs.Cid.{◌>>=◌ as ◌and_then◌, cid_at, version_of, codec_of, hash_code_of, digest_of, parts_of, IsCid};
    ghost use Rattle.ix_cid.specs.CidText.{text_of, cid_of_text};
    ghost use Rattle.ix_cid.specs.Gives.{Gives};
    ghost use Rattle.ix_cid.specs.Parts.{parts_view};
    ghost use Rattle.ix_cid.specs.Results.{Reads};

    /// The bytes.
    #[inline]
    pub fn as_bytes(&self) -> &[u8]
        ensures bytes { result.now ≡ self.now }
        ensures cid { IsCid result.now }
    {
        self.held.bytes()
    }

    /// Borrows the CID in place.
    pub fn by_ref(&self) -> CidRef<'_>
        ensures same { result ≡ self.now }
    {
        let cid = self.as_bytes();
        match &self.held {
            Held::Own { .. } => CidRef::of(cid),
            Held::Within { bytes, start, .. } => CidRef::within(cid, bytes, *start),
        }
    }

    /// Clones the CID. One of more than 36 bytes is shared and not copied. Fails if memory runs
    /// out.
    pub fn try_clone(&self, alloc: Global) -> Result<Cid, AllocError>
        ensures same { IfOk result (λ c. c ≡ self.now) }
    {
        self.by_ref().to_cid(alloc)
    }

    /// Reads the CID at the front, and returns it with its length in bytes. What follows it isn't
    /// looked at. The error is that of the first part that isn't valid, or `Memory`.
    pub fn read(alloc: Global, bytes: &[u8]) -> Result<(Cid, usize), CidFault>
        ensures exact { Gives (λ r. (r.0, r.1)) result (cid_at bytes.now) }
    {
        let cid = split_cid(bytes)?;
        let held = Held::copy(alloc, cid)?;
        Ok((Cid { held }, cid.len()))
    }

    /// Reads the CID in shared bytes from an offset on, and returns it with its length, as `read`
    /// does for the bytes from there on. One of more than 36 bytes is shared and not copied.
    pub fn read_within(
        alloc: Global,
        bytes: &Arc<Vec<u8>>,
        start: usize,
    ) -> Result<(Cid, usize), CidFault>
        ensures exact { Gives (λ r. (r.0, r.1)) result (cid_at (drop start (arc_value bytes.now).items)) }
    {
        let cid = split_cid(behind(bytes.as_slice(), start))?;
        let held = Held::within(alloc, cid, bytes, start)?;
        Ok((Cid { held }, cid.len()))
    }

    /// Returns the length of the CID at the front, which is not copied. The errors are those of
    /// `read`, except for `Memory`.
    pub fn length_at(bytes: &[u8]) -> Result<usize, CidFault>
        ensures exact { Reads (λ n. n) result (cid_at bytes.now and_then (λ r. Ok r.1)) }
    {
        Ok(split_cid(bytes)?.len())
    }

    /// Returns all parts, from one reading of the bytes.
    pub fn parts(&self) -> Parts<'_>
        ensures { parts_view result ≡ parts_of self.now }
    {
        parts_at(self.as_bytes())
    }

    /// The version, 0 or 1.
    pub fn version(&self) -> u64
        ensures { result ≡ version_of self.now }
    {
        self.parts().version
    }

    /// The codec of the block: that of dag-pb for a CIDv0.
    pub fn codec(&self) -> u64
        ensures { result ≡ codec_of self.now }
    {
        self.parts().codec
    }

    /// The code of the hash function: that of sha2-256 for a CIDv0.
    pub fn hash_code(&self) -> u64
        ensures { result ≡ hash_code_of self.now }
    {
        self.parts().hash_code
    }

    /// The digest, without its length.
    pub fn digest(&self) -> &[u8]
        ensures { result.now ≡ digest_of self.now }
    {
        self.parts().digest
    }

    /// Returns the text: multibase base32 (RFC 4648) of a CIDv1, `v0-` and hex of a CIDv0. Fails if
    /// memory runs out.
    pub fn text(&self, alloc: Global) -> Result<String, AllocError>
        ensures exact { IfOk result (λ s. string_bytes s ≡ text_of self.now) }
    {
        let mut text = String::new(alloc);
        if self.version() == 0 {
            text.push_str("v0-")?;
            hexadecimal::append(alloc, &mut text, self.as_bytes())?;
        } else {
            text.push('b')?;
            base32::append(&mut text, self.as_bytes())?;
        }
        Ok(text)
    }

    /// Parses the CIDv1 with this text.
    pub fn from_text(alloc: Global, text: &str) -> Result<Cid, CidFault>
        ensures exact { Gives (λ c. c) result (cid_of_text text.now) }
    {
        let Some((b'b', letters)) = text.as_bytes().split_first() else {
            return Err(CidFault::Multibase);
        };
        let bytes = base32::decode(alloc, letters)?;
        if numbered_length(bytes.as_slice())? < bytes.len() {
            return Err(CidFault::Rest);
        }
        let held = Held::keep(alloc, bytes)?;
        Ok(Cid { held })
    }
}

impl fmt::Debug for Cid {
    fn fmt<W: fmt::Write>(&self, f: &mut fmt::Formatter<W>) -> fmt::Result {
        self.as_bytes().fmt(f)
    }
}

impl PartialEq for Cid {
    ghost use Rattle.std.specs.Prelude.{bytes_eq};
    ghost use Rattle.std.proofs.Common.{rules};
    ghost use Rattle.std.specs.Cmp.Rules.{comparing};

    ghost eq = { bytes_eq };

    ghost laws = { Prim.search (comparing, rules) };

    fn eq(&self, other: &Cid) -> bool {
        self.as_bytes() == other.as_bytes()
    }
}

impl Eq for Cid {
    ghost use Rattle.std.proofs.Common.{rules};
    ghost use Rattle.std.specs.Cmp.Rules.{comparing};

    ghost laws = { Prim.search (comparing, rules) };
}

// Compares bytes, eight at a time as one number. CIDs begin alike, and a tree of them compares
// many. An attacker can choose long ones that agree up to their ends, so this is a loop.
fn order_of_bytes(left: &[u8], right: &[u8]) -> Ordering
    ensures { result ≡ slice_cmp nat_cmp left.now right.now }
{
    let mut here = left;
    let mut there = right;
    'words: while let (Some((front, more)), Some((other, rest))) = (
        here.split_first_chunk(),
        there.split_first_chunk(),
    ) {
        match order_of_words(front, other) {
            Ordering::Equal => (here, there) = (more, rest),
            order => return order,
        }
    }
    here.cmp(there)
}

// Compares eight bytes.
fn order_of_words(left: &[u8; 8], right: &[u8; 8]) -> Ordering
    ensures { result ≡ slice_cmp nat_cmp left.now right.now }
{
    u64::from_be_bytes(*left).cmp(&u64::from_be_bytes(*right))
}

impl Ord for Cid {
    ghost use Rattle.std.specs.Ordering.{nat_cmp};
    ghost use Rattle.std.proofs.Common.{rules};
    ghost use Rattle.std.specs.Cmp.Rules.{comparing};
    ghost use Rattle.std.specs.Cmp.Lexicographic.{slice_cmp};

    ghost cmp = { slice_cmp nat_cmp };

    ghost total = { Prim.search (comparing, rules) };

    ghost matches_partial_cmp = { Prim.search (comparing, rules) };

    ghost matches_eq = { Prim.search (comparing, rules) };

    fn cmp(&self, other: &Cid) -> Ordering {
        order_of_bytes(self.as_bytes(), other.as_bytes())
    }
}

impl PartialOrd for Cid {
    ghost use Rattle.std.specs.Ordering.{nat_cmp, as_partial_cmp};
    ghost use Rattle.std.proofs.Common.{rules};
    ghost use Rattle.std.specs.Cmp.{partial_order_from_own_ties};
    ghost use Rattle.std.specs.Cmp.Rules.{comparing};
    ghost use Rattle.std.specs.Cmp.Lexicographic.{slice_cmp};

    ghost partial_cmp = { as_partial_cmp (slice_cmp nat_cmp) };

    ghost laws = { partial_order_from_own_ties (Prim.search (comparing, rules)) (Prim.search (comparing, rules)) };

    fn partial_cmp(&self, other: &Cid) -> Option<Ordering> {
        Some(self.cmp(other))
    }
}

impl Hash for Cid {
    ghost use Rattle.std.specs.Hash as fed;
    ghost use Rattle.std.proofs.Common.{rules};
    ghost use Rattle.std.specs.Cmp.Rules.{hashing};

    ghost hash_input = { λ c. fed.slice fed.u8 c };

    ghost respects_eq = { Prim.search (hashing, rules) };

    fn hash<H: Hasher>(&self, state: &mut H) {
        self.as_bytes().hash(state);
    }
}
