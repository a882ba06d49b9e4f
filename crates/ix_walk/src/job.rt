//! Jobs.

ghost use Rattle.std.specs.Prelude.{◌≡◌, ◌≤◌, true, false, Some, None, IfOk, IfErr, OnOk, string_bytes};
ghost use Rattle.ix_walk.specs.Job.{JobMeaning, job_fault, job_fault_up_to};
ghost use Rattle.ix_walk.specs.JobMeaning.{job_of, going_in, is_name, is_name_byte};

use crate::fault::JobFault;
use ix_cid::Cid;
use ix_selector::Selector;
use std::marker::Model;

/// How many bytes a name may have.
pub const LONGEST_NAME: usize = 64;

/// The greatest limit of `Job::new`: how many visits a job may ask for there.
pub const GREATEST_LIMIT: u32 = 1_000_000;

/// How many roots a job may have.
pub const MOST_ROOTS: usize = 64;

/// A name, roots, a selector and a link budget.
pub struct Job {
    name: String,
    roots: Vec<Cid>,
    selector: Selector,
    limit: u32,
    once: bool,
}

// Written by hand: a derived drop is inlined in each function that drops one, at each of its exits.
impl Drop for Job {
    fn drop(self) {
        let Job {
            name,
            roots,
            selector,
            limit: _,
            once: _,
        } = self;
        drop(name);
        drop(roots);
        drop(selector);
    }
}

impl Model for Job {
    ghost use Rattle.std.specs.Prelude.{string_bytes};
    ghost use Rattle.ix_walk.specs.JobMeaning.{JobMeaning, coded_job, IsJob};

    ghost Value = { JobMeaning };

    ghost coded = { coded_job };

    ghost view = { λ j. record { name = string_bytes j.name; roots = j.roots.items; selector = j.selector; limit = j.limit; once = j.once } };

    ghost invariant = { λ j. IsJob (record { name = string_bytes j.name; roots = j.roots.items; selector = j.selector; limit = j.limit; once = j.once }) };
}

impl Job {
    /// Returns the job, or its first error: the name, then the limit, then the number of roots.
    pub fn new(
        name: String,
        roots: Vec<Cid>,
        selector: Selector,
        limit: u32,
    ) -> Result<Job, JobFault>
        ensures ok { IfOk result (λ j. j ≡ job_of (string_bytes name) roots.items selector limit) }
        ensures fits { OnOk result (job_fault (string_bytes name) roots.items limit ≡ None) }
        ensures fault { IfErr result (λ e. job_fault (string_bytes name) roots.items limit ≡ Some e) }
    {
        Job::with_limit_up_to(GREATEST_LIMIT, name, roots, selector, limit)
    }

    /// Returns the job, or its first error as `new` does, with limits up to `most` in place of
    /// 1,000,000.
    pub fn with_limit_up_to(
        most: u32,
        name: String,
        roots: Vec<Cid>,
        selector: Selector,
        limit: u32,
    ) -> Result<Job, JobFault>
        ensures ok { IfOk result (λ j. j ≡ job_of (string_bytes name) roots.items selector limit) }
        ensures fits { OnOk result (job_fault_up_to most (string_bytes name) roots.items limit ≡ None) }
        ensures fault { IfErr result (λ e. job_fault_up_to most (string_bytes name) roots.items limit ≡ Some e) }
    {
        if !is_name(name.as_str()) {
            return Err(JobFault::Name);
        }
        if limit == 0 {
            return Err(JobFault::LimitZero);
        }
        if limit > most {
            return Err(JobFault::LimitTooLarge);
        }
        if roots.is_empty() {
            return Err(JobFault::NoRoot);
        }
        if roots.len() > MOST_ROOTS {
            return Err(JobFault::TooManyRoots);
        }
        Ok(Job {
            name,
            roots,
            selector,
            limit,
            once: false,
        })
    }

    /// Returns the same job with link-visit-once: its walk expands a CID at its first visit with
    /// each residual of the selector, and only if its block is sound. A later one is a visit like
    /// any other, with nothing below it.
    pub fn links_once(self) -> Job
        ensures { result ≡ going_in true self }
    {
        let mut job = self;
        job.once = true;
        job
    }

    /// The name.
    pub fn name(&self) -> &str
        ensures { result.now ≡ self.now.name }
    {
        self.name.as_str()
    }

    /// The roots, at which a walk starts, one after the other.
    pub fn roots(&self) -> &[Cid]
        ensures { result.now ≡ self.now.roots }
    {
        self.roots.as_slice()
    }

    /// The selector, which says what a walk enters.
    pub fn selector(&self) -> &Selector
        ensures { result.now ≡ self.now.selector }
    {
        &self.selector
    }

    /// Whether its walk expands a CID once (link-visit-once), and not at every link to it.
    pub fn visits_links_once(&self) -> bool
        ensures { result ≡ self.now.once }
    {
        self.once
    }

    /// The link budget: how many visits a walk returns at most.
    pub fn limit(&self) -> u32
        ensures { result ≡ self.now.limit }
    {
        self.limit
    }
}

/// Whether a string may be a job's name: 1 to 64 bytes of `a` to `z`, `0` to `9`, `-` and `_`.
pub fn is_name(name: &str) -> bool
    ensures { result ≡ is_name name.now }
{
    let bytes = name.as_bytes();
    if bytes.is_empty() || bytes.len() > LONGEST_NAME {
        return false;
    }
    bytes.iter().all(|byte| is_name_byte(*byte))
}

// Whether a byte may be in a name: `a` to `z`, `0` to `9`, `-` or `_`.
fn is_name_byte(byte: u8) -> bool
    ensures { result ≡ is_name_byte byte }
{
    matches!(byte, b'a'..=b'z' | b'0'..=b'9' | b'-' | b'_')
}
