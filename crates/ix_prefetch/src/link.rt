//! What a table keeps of a link, and of a block with a residual.

ghost use Rattle.std.specs.Prelude.{◌≡◌, ◌==◌, ◌&&◌};

use crate::state::ListLeft;
use ix_cid::CidRef;

/// A link of a list, in twelve bytes.
#[derive(Clone, Copy)]
pub(crate) enum Link {
    // To a block of the store, by its place, under a CID of a known codec that names it by its hash.
    // The pair of the place and the residual may have that number.
    Stored {
        residual: u16,
        place: u32,
        pair: u32,
    },
    // To any other CID, by its number.
    Written {
        residual: u16,
        cid: u32,
    },
}

/// A link of a list, with its CID if that isn't known by a place.
#[derive(Drop)]
pub(crate) enum LinkAt<'a> {
    Stored {
        residual: u16,
        place: u32,
        pair: u32,
    },
    Written {
        residual: u16,
        cid: CidRef<'a>,
    },
}

/// A block of the store with a residual, and where in the links of the table its list is: in sixteen
/// bytes.
#[derive(Clone, Copy)]
pub(crate) struct Pair {
    pub place: u32,
    pub from: u32,
    pub to: u32,
    // The number of the residual.
    pub residual: u16,
    // Whether the block should be DAG-CBOR and is not.
    pub malformed: bool,
    // Whether nothing below the block is visited by a walk with link-visit-once.
    pub barren: bool,
}

impl Pair {
    /// Its list, with the links at a depth.
    pub(crate) fn list(self, depth: u32) -> ListLeft
        ensures { result ≡ record { from = self.from; to = self.to; depth = depth } }
    {
        ListLeft {
            from: self.from,
            to: self.to,
            depth,
        }
    }

    /// Whether it is the pair of this place and residual.
    pub(crate) fn is_of(&self, place: usize, residual: u16) -> bool
        ensures { result ≡ (self.now.place == place && self.now.residual == residual) }
    {
        self.place as usize == place && self.residual == residual
    }
}
