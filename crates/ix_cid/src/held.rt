//! The storage of a CID's bytes.

ghost use Rattle.std.specs.Prelude.{◌≡◌, take, drop, IfOk};
ghost use Rattle.std.specs.Arc.{arc_value};
ghost use Rattle.ix_cid.specs.Held.{content, StandsAt};

use std::alloc::{AllocError, Global};
use std::sync::Arc;

// The most bytes of a CID that is stored inline: those of a CIDv1 under SHA-256.
const MOST_OWN: usize = 36;

// The bytes of a CID. Untrusted input decides how long a CID is and how often it is linked, so a
// long one is shared by all that have it.
#[derive(Drop)]
pub(crate) enum Held {
    // A few bytes, inline: the first `size` of these.
    Own {
        bytes: [u8; MOST_OWN],
        size: u8,
    },
    // A range of other bytes, which are shared.
    Within {
        bytes: Arc<Vec<u8>>,
        start: usize,
        size: usize,
    },
}

impl Held {
    #[inline]
    pub(crate) fn bytes(&self) -> &[u8]
        ensures { result.now ≡ content self.now }
    {
        match self {
            Held::Own { bytes, size } => front(bytes, usize::from(*size)),
            Held::Within { bytes, start, size } => front(behind(bytes.as_slice(), *start), *size),
        }
    }

    // Copies these bytes. If they are many, the copy can be shared.
    pub(crate) fn copy(alloc: Global, bytes: &[u8]) -> Result<Held, AllocError>
        ensures { IfOk result (λ h. content h ≡ bytes.now) }
    {
        if bytes.len() > MOST_OWN {
            return Held::shared(alloc, Vec::from_slice(alloc, bytes)?);
        }
        let mut own = [0; MOST_OWN];
        own[..bytes.len()].copy_from_slice(bytes);
        Ok(Held::Own {
            bytes: own,
            size: bytes.len() as u8,
        })
    }

    // Takes these bytes. If they are many, they are not copied and can be shared.
    pub(crate) fn keep(alloc: Global, bytes: Vec<u8>) -> Result<Held, AllocError>
        ensures { IfOk result (λ h. content h ≡ bytes.items) }
    {
        if bytes.len() <= MOST_OWN {
            Held::copy(alloc, bytes.as_slice())
        } else {
            Held::shared(alloc, bytes)
        }
    }

    // Makes these bytes shareable.
    fn shared(alloc: Global, bytes: Vec<u8>) -> Result<Held, AllocError>
        ensures { IfOk result (λ h. content h ≡ bytes.items) }
    {
        let size = bytes.len();
        Ok(Held::Within {
            bytes: Arc::new(alloc, bytes)?,
            start: 0,
            size,
        })
    }

    // Takes bytes at an offset of shared ones: copies a few, and shares more.
    pub(crate) fn within(
        alloc: Global,
        bytes: &[u8],
        shared: &Arc<Vec<u8>>,
        start: usize,
    ) -> Result<Held, AllocError>
        requires { StandsAt (arc_value shared.now).items start bytes.now }
        ensures { IfOk result (λ h. content h ≡ bytes.now) }
    {
        if bytes.len() <= MOST_OWN {
            return Held::copy(alloc, bytes);
        }
        Ok(Held::Within {
            bytes: Arc::try_clone(shared)?,
            start,
            size: bytes.len(),
        })
    }
}

// Returns what follows an offset, which may be past the end.
pub(crate) fn behind(bytes: &[u8], start: usize) -> &[u8]
    ensures { result.now ≡ drop start bytes.now }
{
    let (_, rest) = bytes.split_at(start.min(bytes.len()));
    rest
}

// Returns the first `size` bytes, or all if there are fewer.
#[inline]
fn front(bytes: &[u8], size: usize) -> &[u8]
    ensures { result.now ≡ take size bytes.now }
{
    let (front, _) = bytes.split_at(size.min(bytes.len()));
    front
}
