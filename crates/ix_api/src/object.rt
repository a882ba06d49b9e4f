//! The contents of a handle.

ghost use Rattle.std.specs.Prelude.{◌≡◌, MatchOption, MatchResult, IfOk};
ghost use Rattle.std.specs.Arc.{arc_value};
ghost use Rattle.ix_api.specs.Parts.{Has, HasNo};

use crate::checked::Rejection;
use crate::exported::Exported;
use crate::request::Request;
use ix_own_archive::Counts;
use ix_store::Store;
use std::alloc::{AllocError, Global};
use std::sync::Arc;

/// The contents of a handle.
#[derive(Drop)]
pub enum Object {
    /// A store to which blocks can be added.
    Open(Store),
    /// A frozen store: shared, and it doesn't change.
    Frozen(Arc<Store>),
    /// A job, and what its receiver has.
    Job(Request),
    /// The result of an export.
    Exported(Exported),
    /// The counts of an archive that a check accepted.
    Accepted(Counts),
    /// Why a check rejected an archive.
    Rejected(Rejection),
    /// A text: the selector of a JSON text.
    Text(Vec<u8>),
    /// An error in place of anything else: its line.
    Refusal(Vec<u8>),
}

/// Parts of a handle's contents, as bytes.
#[derive(Debug, Drop, Clone, Copy, PartialEq, Eq)]
pub enum Piece {
    /// The archive of an export.
    Archive,
    /// The report of an export.
    Report,
    /// A text, the line of an error, or why an archive is rejected.
    Text,
}

impl Object {
    /// Returns the bytes of a part, if there is one.
    pub fn bytes(&self, part: Piece) -> Option<&[u8]>
        ensures { MatchOption result (HasNo part self.now) (λ bytes. Has part self.now bytes.now) }
    {
        match (part, self) {
            (Piece::Archive, Object::Exported(out)) => Some(out.archive.as_slice()),
            (Piece::Report, Object::Exported(out)) => Some(out.report.as_slice()),
            (Piece::Text, Object::Text(text) | Object::Refusal(text)) => Some(text.as_slice()),
            (Piece::Text, Object::Rejected(found)) => Some(found.line.as_slice()),
            _ => None,
        }
    }
}

/// Freezes a store: it is then shared and doesn't change, and its verdicts are cached. If memory runs
/// out, the store is returned with the same blocks.
pub fn freeze(alloc: Global, store: Store) -> Result<Arc<Store>, Store>
    ensures { MatchResult result (λ frozen. arc_value frozen ≡ store) (λ same. same ≡ store) }
{
    let mut store = store;
    if store.enable_memo().is_err() {
        return Err(store);
    }
    match Arc::new(alloc, store) {
        Ok(frozen) => Ok(frozen),
        Err(failed) => Err(failed.value),
    }
}

/// Returns one more owner of a store, or out of memory if there are too many to count.
pub fn share(store: &Arc<Store>) -> Result<Arc<Store>, AllocError>
    ensures { IfOk result (λ other. arc_value other ≡ arc_value store.now) }
{
    Arc::try_clone(store)
}
