//! The job of everything below roots.

ghost use Rattle.std.specs.Prelude.{◌≡◌, IfOk};
ghost use Rattle.ix_verify.specs.Roots.{holder_of, few_roots};
ghost use Rattle.ix_verify.specs.Found.{roots_job};

use ix_cid::Cid;
use ix_sections::header_of;
use ix_selector::Selector;
use ix_walk::{Job, MOST_ROOTS};
use std::alloc::{AllocError, Global};

// The front of an identity CIDv1 of DAG-CBOR, up to the block's length.
const HOLDER: &[u8; 3] = b"\x01\x71\x00";

// Makes the job of everything below roots, at least one: its walk expands each CID once.
pub(crate) fn roots_job(alloc: Global, roots: Vec<Cid>) -> Result<Job, AllocError>
    ensures { IfOk result (λ job. job ≡ roots_job roots.items) }
{
    let name = String::from_str(alloc, "verify")?;
    let selector = Selector::everything(alloc)?;
    let few = few_roots(alloc, roots)?;
    // The name, the number of roots and the limit are valid.
    match Job::with_limit_up_to(u32::MAX, name, few, selector, u32::MAX) {
        Ok(job) => Ok(job.links_once()),
        Err(_) => Err(AllocError),
    }
}

// Returns roots as a job takes them: if there are too many, one identity CID has them all.
fn few_roots(alloc: Global, roots: Vec<Cid>) -> Result<Vec<Cid>, AllocError>
    ensures { IfOk result (λ few. few.items ≡ few_roots roots.items) }
{
    if roots.len() <= MOST_ROOTS {
        return Ok(roots);
    }
    let holder = holder_of(alloc, roots.as_slice())?;
    Ok(vec![in alloc; holder]?)
}

// Returns an identity CID of the header with these roots, so a walk from it continues at each of them.
fn holder_of(alloc: Global, roots: &[Cid]) -> Result<Cid, AllocError>
    ensures { IfOk result (λ cid. cid ≡ holder_of roots.now) }
{
    let header = header_of(alloc, roots)?;
    let mut bytes = Vec::from_slice(alloc, HOLDER)?;
    bytes.extend_from_slice(header.as_slice())?;
    // The bytes are a CID, so the only error is out of memory.
    match Cid::read(alloc, bytes.as_slice()) {
        Ok((cid, _)) if cid.as_bytes() == bytes.as_slice() => Ok(cid),
        _ => Err(AllocError),
    }
}
