//! The walks of the jobs of an export.

ghost use Rattle.std.specs.Prelude.{◌≡◌};
ghost use Rattle.ix_stages.specs.JobWalks.{AreTablesOf};

use crate::job_walk::{JobWalk, WalkKind};
use ix_prefetch::{Expansions, TableWalk};
use ix_store::Store;
use ix_walk::{Job, Walk};
use std::alloc::{AllocError, Global};
use std::marker::Model;
use std::thread::Threads;

/// How jobs are prefetched: by how many threads, and how many bytes their tables may take together.
#[derive(Debug, Drop, Clone, Copy, PartialEq, Eq)]
pub struct Prefetch {
    pub threads: usize,
    pub most_bytes: usize,
}

/// The walks of jobs over a store, by the tables of their expansions if there are some: the visits are the
/// same.
pub struct JobWalks<'a> {
    store: &'a Store,
    jobs: &'a Vec<Job>,
    // The table of each job, which may have no expansion; empty if the jobs have none.
    tables: Vec<Expansions<'a>>,
}

// Written by hand: a derived drop is inlined in each function that drops one, at each of its exits.
impl<'a> Drop for JobWalks<'a> {
    fn drop(self) {
        let JobWalks {
            store: _,
            jobs: _,
            tables,
        } = self;
        drop(tables);
    }
}

impl<'a> Model for JobWalks<'a> {
    ghost use Rattle.ix_stages.specs.JobWalks.{WalksMeaning, coded_walks, AreTablesOf};

    ghost Value = { WalksMeaning };

    ghost coded = { coded_walks };

    ghost view = { λ w. record { store = w.store.now; jobs = w.jobs.now.items } };

    ghost invariant = { λ w. AreTablesOf w.store.now w.jobs.now.items w.tables.items };
}

impl<'a> JobWalks<'a> {
    ghost use Rattle.std.specs.Prelude.{◌≡◌, Some, slice_get, IfOk, IfSome};
    ghost use Rattle.ix_walk.specs.Visits.{whole_walk};

    /// Returns walks without tables.
    pub fn new(alloc: Global, store: &'a Store, jobs: &'a Vec<Job>) -> JobWalks<'a>
        ensures { result ≡ record { store = store.now; jobs = jobs.now.items } }
    {
        JobWalks {
            store,
            jobs,
            tables: Vec::new(alloc),
        }
    }

    /// Returns walks with the tables that threads make of the jobs, if these are prefetched. If memory runs
    /// out for a table, there are none.
    pub fn prefetched<R: Threads + Sync>(
        rt: &R,
        alloc: Global,
        store: &'a Store,
        jobs: &'a Vec<Job>,
        prefetch: Option<Prefetch>,
    ) -> JobWalks<'a>
        ensures { result ≡ record { store = store.now; jobs = jobs.now.items } }
    {
        let tables = tables_of(rt, alloc, store, jobs.as_slice(), prefetch);
        JobWalks {
            store,
            jobs,
            tables,
        }
    }

    /// Returns the blocks.
    pub fn store(&self) -> &'a Store
        ensures { result.now ≡ self.now.store }
    {
        self.store
    }

    /// Returns the jobs.
    pub fn jobs(&self) -> &'a Vec<Job>
        ensures { result.now.items ≡ self.now.jobs }
    {
        self.jobs
    }

    /// Returns the walk of the job with this number.
    pub fn walk<'t>(
        &'t self,
        alloc: Global,
        job: &'t Job,
        number: u32,
    ) -> Result<JobWalk<'t, 'a>, AllocError>
        requires { slice_get self.now.jobs number ≡ Some job.now }
        ensures { IfOk result (λ w. w ≡ whole_walk self.now.store number job.now) }
    {
        let kind = match self.table_of(number) {
            Some(table) if table.len() > 0 => {
                WalkKind::Table(TableWalk::new(alloc, table, number)?)
            }
            _ => WalkKind::Blocks(Walk::new(alloc, self.store, job, number)?),
        };
        Ok(JobWalk { kind })
    }

    // Returns the table of the job with this number, if it has one.
    fn table_of(&self, number: u32) -> Option<&Expansions<'a>>
        ensures store { IfSome result (λ t. t.now.store ≡ self.now.store) }
        ensures job { IfSome result (λ t. slice_get self.now.jobs number ≡ Some t.now.job) }
    {
        self.tables.get(number as usize)
    }
}

// Makes the tables of jobs by threads. Each may take an even share of the bytes. If memory runs out for a
// table, there are none.
fn tables_of<'a, R: Threads + Sync>(
    rt: &R,
    alloc: Global,
    store: &'a Store,
    jobs: &'a [Job],
    prefetch: Option<Prefetch>,
) -> Vec<Expansions<'a>>
    ensures { AreTablesOf store.now jobs.now result.items }
{
    let Some(how) = prefetch else {
        return Vec::new(alloc);
    };
    let Ok(mut tables) = Vec::with_capacity(alloc, jobs.len()) else {
        return Vec::new(alloc);
    };
    let share = how.most_bytes / jobs.len().max(1);
    for job in jobs {
        let Some(table) = ix_prefetch::prefetch(rt, alloc, store, job, how.threads, share) else {
            return Vec::new(alloc);
        };
        tables.push_reserved(table);
    }
    tables
}
