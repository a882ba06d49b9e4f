//! Makes a job from its parts.

ghost use Rattle.std.specs.Prelude.{◌≡◌, Ok, IfOk, IfErr};
ghost use Rattle.ix_api.specs.JobParts.{root_at, roots_in, data_in, selector_in, job_of_parts, Gives};
ghost use Rattle.ix_api.specs.Failures.{IsPartsFailure};

use crate::failure::Failure;
use ix_cbor::{CborFault, CborKind, Tree, decode};
use ix_cid::{Cid, CidFault};
use ix_selector::{SelFault, Selector};
use ix_walk::{Job, JobFault, MOST_ROOTS};
use std::alloc::{AllocError, AllocFailed, Global};

/// Why parts make no job: the first check that fails, in this order. Only a root too many is reported
/// after the 64 before it are read.
#[derive(Debug, Drop)]
pub enum PartsFault {
    /// There is no CID where a root should begin.
    Root(CidFault),
    /// The selector's bytes are not a block.
    Block(CborFault),
    /// The block is not a selector.
    Selector(SelFault),
    /// A limit or a number of roots that no job has.
    Job(JobFault),
    /// Memory ran out.
    Memory,
}

impl From<AllocError> for PartsFault {
    ghost use Rattle.std.specs.Prelude.{◌≡◌};
    ghost use Rattle.ix_api.specs.declared.job_parts.PartsFault.TheVariants.{Memory};

    ghost from_gives = { λ _ fault. fault ≡ Memory };

    fn from(_error: AllocError) -> PartsFault {
        PartsFault::Memory
    }
}

impl<T: Drop> From<AllocFailed<T>> for PartsFault {
    ghost use Rattle.std.specs.Prelude.{◌≡◌};
    ghost use Rattle.ix_api.specs.declared.job_parts.PartsFault.TheVariants.{Memory};

    ghost from_gives = { λ _ fault. fault ≡ Memory };

    fn from(_error: AllocFailed<T>) -> PartsFault {
        PartsFault::Memory
    }
}

/// Returns the job with these parts and the name `job`: the CIDs of its roots in binary, concatenated,
/// its selector as DAG-CBOR, and its limit of visits.
pub fn job_of_parts(
    alloc: Global,
    roots: &[u8],
    selector: &[u8],
    limit: u32,
) -> Result<Job, Failure>
    ensures job { IfOk result (λ job. job_of_parts roots.now selector.now limit ≡ Ok job) }
    ensures failed { IfErr result (IsPartsFailure roots.now selector.now limit) }
{
    match made(alloc, roots, selector, limit) {
        Ok(job) => Ok(job),
        Err(PartsFault::Memory) => Err(Failure::Memory),
        Err(fault) => Err(Failure::of_parts(alloc, fault)),
    }
}

// Returns the job, or why there is none.
fn made(alloc: Global, roots: &[u8], selector: &[u8], limit: u32) -> Result<Job, PartsFault>
    ensures { Gives (λ job. job) result (job_of_parts roots.now selector.now limit) }
{
    let roots = roots_in(alloc, roots)?;
    let selector = selector_in(alloc, selector)?;
    let name = String::from_str(alloc, "job")?;
    match Job::new(name, roots, selector, limit) {
        Ok(job) => Ok(job),
        Err(fault) => Err(PartsFault::Job(fault)),
    }
}

// Parses concatenated CIDs, at most 64.
fn roots_in(alloc: Global, bytes: &[u8]) -> Result<Vec<Cid>, PartsFault>
    ensures { Gives (λ roots. roots.items) result (roots_in bytes.now) }
{
    let mut roots = Vec::new(alloc);
    let mut rest = bytes;
    let mut left = MOST_ROOTS;
    while !rest.is_empty() {
        if left == 0 {
            return Err(PartsFault::Job(JobFault::TooManyRoots));
        }
        let (root, behind) = root_at(alloc, rest)?;
        roots.push(root)?;
        rest = behind;
        left -= 1;
    }
    Ok(roots)
}

// Parses the root at the front, and returns the bytes after it.
fn root_at(alloc: Global, bytes: &[u8]) -> Result<(Cid, &[u8]), PartsFault>
    ensures { Gives (λ r. (r.0, r.1.now)) result (root_at bytes.now) }
{
    match Cid::read(alloc, bytes) {
        Ok((root, length)) => Ok((root, &bytes[length..])),
        Err(CidFault::Memory) => Err(PartsFault::Memory),
        Err(fault) => Err(PartsFault::Root(fault)),
    }
}

// Parses the selector of bytes.
fn selector_in(alloc: Global, bytes: &[u8]) -> Result<Selector, PartsFault>
    ensures { Gives (λ selector. selector) result (selector_in bytes.now) }
{
    let tree = tree_in(alloc, bytes)?;
    match Selector::read_owned(alloc, tree) {
        Ok(selector) => Ok(selector),
        Err(SelFault::Memory) => Err(PartsFault::Memory),
        Err(fault) => Err(PartsFault::Selector(fault)),
    }
}

// Decodes the tree of bytes.
fn tree_in(alloc: Global, bytes: &[u8]) -> Result<Tree, PartsFault>
    ensures { Gives (λ tree. tree) result (data_in bytes.now) }
{
    match decode(alloc, bytes) {
        Ok(tree) => Ok(tree),
        Err(fault) if fault.kind == CborKind::Memory => Err(PartsFault::Memory),
        Err(fault) => Err(PartsFault::Block(fault)),
    }
}
