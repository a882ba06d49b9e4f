//! Jobs over blocks.

ghost use Rattle.std.specs.Prelude.{◌≡◌, ◌≤◌, All, IfOk, length};

use crate::blocks::cid_of;
use ix_cbor::decode;
use ix_cid::Cid;
use ix_selector::Selector;
use ix_walk::Job;
use std::alloc::Global;
use std::test::Fail;

/// The selector of everything below.
pub const ALL: &str = "a16152a2616ca1646e6f6e65a0623a3ea16161a1613ea16140a0";

// The selector in hex.
fn selector_of(alloc: Global, text: &str) -> Result<Selector, Fail> {
    let block = hex::decode(alloc, text)?;
    let tree = decode(alloc, block.as_slice())?;
    Ok(Selector::read(alloc, &tree)?)
}

/// The job of a root, a selector in hex and a limit.
pub fn job_at(alloc: Global, root: Cid, selector: &str, limit: u32) -> Result<Job, Fail>
    ensures { IfOk result (λ job. job.limit ≡ limit) }
{
    let selector = selector_of(alloc, selector)?;
    let name = String::from_str(alloc, "a")?;
    let roots = vec![in alloc; root]?;
    Ok(Job::with_limit_up_to(u32::MAX, name, roots, selector, limit)?)
}

/// The same of a root in hex.
pub fn job_of(alloc: Global, root: &str, selector: &str, limit: u32) -> Result<Job, Fail>
    ensures { IfOk result (λ job. job.limit ≡ limit) }
{
    job_at(alloc, cid_of(alloc, root)?, selector, limit)
}

/// So many jobs of everything below a root in hex.
pub fn jobs_of(alloc: Global, root: &str, count: u32, limit: u32) -> Result<Vec<Job>, Fail>
    ensures small { IfOk result (λ jobs. All (λ job. job.limit ≤ 4294967295) jobs.items) }
    ensures each { IfOk result (λ jobs. length jobs.items ≡ count) }
{
    let mut jobs = Vec::new(alloc);
    for _ in 0..count {
        jobs.push(job_of(alloc, root, ALL, limit)?)?;
    }
    Ok(jobs)
}
