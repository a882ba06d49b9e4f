//! A cursor of a walk: the bytes of a block from its position on.

ghost use Rattle.std.specs.Prelude.{◌≡◌, IfSome};
ghost use Rattle.std.specs.Arc.{arc_value};
ghost use Rattle.ix_cid.specs.Cid.{digest_of, IsCid};
ghost use Rattle.ix_cid.specs.Held.{StandsAt};
ghost use Rattle.ix_store.specs.Cursor.{EndsAt, EndsWith, HasBefore, resumed};

use ix_cid::CidRef;
use std::marker::Model;
use std::sync::Arc;

/// A cursor: the bytes from a walk's position to the end of a block or digest, and, if known, where
/// that end is in bytes that can be shared. A long CID at the position is then shared and not
/// copied. Contracts see the bytes.
#[derive(Drop)]
pub struct Cursor<'a> {
    bytes: &'a [u8],
    end: Option<(&'a Arc<Vec<u8>>, usize)>,
}

impl<'a> Model for Cursor<'a> {
    ghost use Rattle.std.specs.Prelude.{List, ℕ, IfSome};
    ghost use Rattle.std.specs.Arc.{arc_value};
    ghost use Rattle.ix_store.specs.Cursor.{EndsAt};

    ghost Value = { List ℕ };

    ghost view = { λ a. a.bytes.now };

    ghost invariant = { λ a. IfSome a.end (λ p. EndsAt (arc_value p.0.now).items p.1 a.bytes.now) };
}

impl<'a> Cursor<'a> {
    /// A cursor over bytes that can't be shared.
    #[inline]
    pub fn of(bytes: &'a [u8]) -> Cursor<'a>
        ensures { result ≡ bytes.now }
    {
        Cursor { bytes, end: None }
    }

    /// A cursor over bytes that end at a position of shared ones.
    #[inline]
    pub fn within(bytes: &'a [u8], shared: &'a Arc<Vec<u8>>, end: usize) -> Cursor<'a>
        requires { EndsAt (arc_value shared.now).items end bytes.now }
        ensures { result ≡ bytes.now }
    {
        Cursor {
            bytes,
            end: Some((shared, end)),
        }
    }

    /// A cursor over the digest of a CID, which may be at a position of shared bytes: the digest
    /// ends where the CID does.
    pub fn of_digest(
        cid: &'a [u8],
        place: Option<(&'a Arc<Vec<u8>>, usize)>,
        digest: &'a [u8],
    ) -> Cursor<'a>
        requires cid { IsCid cid.now }
        requires place { IfSome place (λ p. StandsAt (arc_value p.0.now).items p.1 cid.now) }
        requires digest { digest.now ≡ digest_of cid.now }
        ensures { result ≡ digest.now }
    {
        match place {
            Some((shared, start)) => Cursor::within(digest, shared, start + cid.len()),
            None => Cursor::of(digest),
        }
    }

    /// The bytes.
    #[inline]
    pub fn bytes(&self) -> &'a [u8]
        ensures { result.now ≡ self.now }
    {
        self.bytes
    }

    /// Clones the cursor.
    #[inline]
    pub fn duplicate(&self) -> Cursor<'a>
        ensures { result ≡ self.now }
    {
        Cursor {
            bytes: self.bytes,
            end: self.end,
        }
    }

    /// Moves on to the rest.
    #[inline]
    pub fn seek(&mut self, rest: &'a [u8])
        requires { EndsWith self.old rest.now }
        ensures { self.new ≡ rest.now }
    {
        self.bytes = rest;
    }

    /// Moves on after an open list or map: to where the walk came from, if the list or map is all
    /// of its block.
    pub fn resume(&mut self, outer: &Option<Cursor<'a>>)
        ensures { self.new ≡ resumed outer.now self.old }
    {
        if let Some(outer) = outer {
            *self = outer.duplicate();
        }
    }

    /// Returns the CID that is in the bytes before the rest.
    #[inline]
    pub fn cid_before(&self, cid: &'a [u8], rest: &'a [u8]) -> CidRef<'a>
        requires cid { IsCid cid.now }
        requires place { HasBefore self.now cid.now rest.now }
        ensures { result ≡ cid.now }
    {
        match self.end {
            Some((shared, end)) => CidRef::within(cid, shared, end - rest.len() - cid.len()),
            None => CidRef::of(cid),
        }
    }
}
