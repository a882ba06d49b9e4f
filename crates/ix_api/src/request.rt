//! What is to be exported.

ghost use Rattle.std.specs.Prelude.{◌≡◌, None};
ghost use Rattle.ix_api.specs.Requests.{once_of, with_base};

use ix_store::Store;
use ix_walk::Job;
use std::sync::Arc;

/// What is to be exported: a job, and what its receiver has.
#[derive(Drop)]
pub struct Request {
    pub job: Job,
    /// The base: a store whose sound blocks have no section in the archive.
    pub base: Option<Arc<Store>>,
}

impl Request {
    /// Makes the request for a whole archive.
    pub fn of(job: Job) -> Request
        ensures { result ≡ record { job = job; base = None } }
    {
        Request { job, base: None }
    }

    /// Returns the request whose job expands each CID once.
    pub fn links_once(self) -> Request
        ensures { result ≡ once_of self }
    {
        Request {
            job: self.job.links_once(),
            base: self.base,
        }
    }

    /// Returns the request with this base, in place of the one that it has.
    pub fn without(self, base: Arc<Store>) -> Request
        ensures { result ≡ with_base base self }
    {
        Request {
            job: self.job,
            base: Some(base),
        }
    }
}
