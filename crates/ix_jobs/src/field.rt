//! The roots, the limit and the selector of a job, as their fields.

ghost use Rattle.std.specs.Prelude.{◌≤◌, length, IfOk};
ghost use Rattle.ix_cid.specs.Results.{Reads};
ghost use Rattle.ix_jobs.specs.Jobs.{root_in, roots_in, limit_in, bytes_in, data_in, selector_in};
ghost use Rattle.ix_jobs.specs.Gives.{Gives};

use crate::fault::JobErrorKind;
use hex::FromHexError;
use ix_cbor::{CborKind, Tree, decode};
use ix_cid::{Cid, CidFault};
use ix_selector::{SelFault, Selector};
use ix_walk::MOST_ROOTS;
use std::alloc::Global;

/// Parses one to 64 comma-separated CIDv1s.
pub(crate) fn roots_in(alloc: Global, text: &str) -> Result<Vec<Cid>, JobErrorKind>
    ensures exact { Gives (λ roots. roots.items) result (roots_in text.now) }
    ensures within { IfOk result (λ roots. (1 ≤ length roots.items) × (length roots.items ≤ 64)) }
{
    if text.split(',').count() > MOST_ROOTS {
        return Err(JobErrorKind::Root);
    }
    let mut roots = Vec::new(alloc);
    for part in text.split(',') {
        roots.push(root_in(alloc, part)?)?;
    }
    Ok(roots)
}

// Parses the text of a CIDv1.
fn root_in(alloc: Global, text: &str) -> Result<Cid, JobErrorKind>
    ensures { Gives (λ cid. cid) result (root_in text.now) }
{
    match Cid::from_text(alloc, text) {
        Ok(cid) => Ok(cid),
        Err(CidFault::Memory) => Err(JobErrorKind::Memory),
        Err(_) => Err(JobErrorKind::Root),
    }
}

/// Parses decimal digits without a leading zero as a number from 1 to the greatest limit. The error is
/// `Limit`.
pub fn limit_in(text: &str, greatest: u32) -> Result<u32, JobErrorKind>
    ensures exact { Reads (λ limit. limit) result (limit_in greatest text.now) }
    ensures within { IfOk result (λ limit. (1 ≤ limit) × (limit ≤ greatest)) }
{
    let Some(b'1'..=b'9') = text.as_bytes().first() else {
        return Err(JobErrorKind::Limit);
    };
    match text.parse::<u32>() {
        Ok(limit) if limit <= greatest => Ok(limit),
        _ => Err(JobErrorKind::Limit),
    }
}

/// Parses a selector in hex. The error is `Hex`, `Selector` or `Memory`.
pub fn selector_in(alloc: Global, text: &str) -> Result<Selector, JobErrorKind>
    ensures { Gives (λ selector. selector) result (selector_in text.now) }
{
    let tree = tree_in(alloc, bytes_in(alloc, text)?)?;
    match Selector::read_owned(alloc, tree) {
        Ok(selector) => Ok(selector),
        Err(SelFault::Memory) => Err(JobErrorKind::Memory),
        Err(_) => Err(JobErrorKind::Selector),
    }
}

// Decodes hex digits, in either case (RFC 4648, section 8).
fn bytes_in(alloc: Global, text: &str) -> Result<Vec<u8>, JobErrorKind>
    ensures { Gives (λ bytes. bytes.items) result (bytes_in text.now) }
{
    match hex::decode(alloc, text) {
        Ok(bytes) => Ok(bytes),
        Err(FromHexError::OutOfMemory) => Err(JobErrorKind::Memory),
        Err(_) => Err(JobErrorKind::Hex),
    }
}

// Decodes the tree of bytes, which are dropped before it is read as a selector.
fn tree_in(alloc: Global, bytes: Vec<u8>) -> Result<Tree, JobErrorKind>
    ensures { Gives (λ tree. tree) result (data_in bytes.items) }
{
    match decode(alloc, bytes.as_slice()) {
        Ok(tree) => Ok(tree),
        Err(fault) => match fault.kind {
            CborKind::Memory => Err(JobErrorKind::Memory),
            _ => Err(JobErrorKind::Selector),
        },
    }
}
