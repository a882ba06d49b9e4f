//! CIDs in place in other bytes.

ghost use Rattle.std.specs.Prelude.{◌≡◌, IfOk, IfSome};
ghost use Rattle.std.specs.Arc.{arc_value};
ghost use Rattle.ix_cid.specs.Cid.{parts_of, IsCid};
ghost use Rattle.ix_cid.specs.Held.{StandsAt};
ghost use Rattle.ix_cid.specs.Parts.{parts_view};

use crate::cid::Cid;
use crate::held::Held;
use crate::parts::{Parts, parts_at};
use std::alloc::{AllocError, Global};
use std::fmt;
use std::marker::Model;
use std::sync::Arc;

/// A CID in place in other bytes. Contracts see its bytes, as those of a `Cid`.
#[derive(Drop)]
pub struct CidRef<'a> {
    bytes: &'a [u8],
    // The shared bytes and the CID's offset in them, if known.
    place: Option<(&'a Arc<Vec<u8>>, usize)>,
}

impl<'a> Model for CidRef<'a> {
    ghost use Rattle.std.specs.Prelude.{List, ℕ, IfSome};
    ghost use Rattle.std.specs.Arc.{arc_value};
    ghost use Rattle.ix_cid.specs.Cid.{IsCid};
    ghost use Rattle.ix_cid.specs.Held.{StandsAt};

    ghost Value = { List ℕ };

    ghost view = { λ c. c.bytes.now };

    ghost invariant = { λ c. IsCid c.bytes.now × IfSome c.place (λ p. StandsAt (arc_value p.0.now).items p.1 c.bytes.now) };
}

impl<'a> CidRef<'a> {
    /// Makes a reference to the CID that these bytes are.
    #[inline]
    pub fn of(bytes: &'a [u8]) -> CidRef<'a>
        requires cid { IsCid bytes.now }
        ensures same { result ≡ bytes.now }
    {
        CidRef { bytes, place: None }
    }

    /// Makes a reference to the CID that these bytes are, which are at an offset of shared ones.
    #[inline]
    pub fn within(bytes: &'a [u8], shared: &'a Arc<Vec<u8>>, start: usize) -> CidRef<'a>
        requires cid { IsCid bytes.now }
        requires place { StandsAt (arc_value shared.now).items start bytes.now }
        ensures same { result ≡ bytes.now }
    {
        CidRef {
            bytes,
            place: Some((shared, start)),
        }
    }

    /// The bytes, which live as long as those that contain the CID.
    #[inline]
    pub fn as_bytes(&self) -> &'a [u8]
        ensures bytes { result.now ≡ self.now }
        ensures cid { IsCid result.now }
    {
        self.bytes
    }

    /// The shared bytes that contain the CID and its offset in them, if known.
    #[inline]
    pub fn shared(&self) -> Option<(&'a Arc<Vec<u8>>, usize)>
        ensures place { IfSome result (λ p. StandsAt (arc_value p.0.now).items p.1 self.now) }
    {
        self.place
    }

    /// Returns all parts, from one reading of the bytes. The digest lives as long as these.
    pub fn parts(&self) -> Parts<'a>
        ensures { parts_view result ≡ parts_of self.now }
    {
        parts_at(self.bytes)
    }

    /// Returns the CID with bytes of its own, or with a share of those that contain a long one. The
    /// bytes of a long one are copied if no share is known. Fails if memory runs out.
    pub fn to_cid(&self, alloc: Global) -> Result<Cid, AllocError>
        ensures same { IfOk result (λ c. c ≡ self.now) }
    {
        let held = match self.place {
            Some((shared, start)) => Held::within(alloc, self.bytes, shared, start)?,
            None => Held::copy(alloc, self.bytes)?,
        };
        Ok(Cid { held })
    }
}

impl<'a> fmt::Debug for CidRef<'a> {
    fn fmt<W: fmt::Write>(&self, f: &mut fmt::Formatter<W>) -> fmt::Result {
        self.bytes.fmt(f)
    }
}
