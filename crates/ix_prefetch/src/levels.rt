//! Expansions made ahead of a walk, level by level, each level by several threads.

ghost use Rattle.std.specs.Prelude.{◌≡◌, ◌<◌, true, false, IfOk, IfSome, IsNone, IsOk, IsErr, IsErrOf, length};
ghost use Rattle.ix_prefetch.specs.Expansions.{IsTableOf};
ghost use Rattle.ix_prefetch.specs.Levels.{ArePartsOf};

use crate::expansions::Expansions;
use crate::pair_index::Task;
use crate::stop::TableStop;
use ix_store::Store;
use ix_walk::Job;
use std::alloc::{AllocError, Global};
use std::thread::{Threads, map_indices};

// A level with fewer pairs than this is narrow.
const NARROW: usize = 128;

// How many narrow levels in a row end the making of a table: what is below is a chain.
const MOST_NARROW: u32 = 64;

// How many pairs of a level are worth a thread.
const SHARE: usize = 64;

// What a thread returns for its share of a level: the expansions of its pairs, in their order.
type Part<'a> = Result<Expansions<'a>, AllocError>;

/// Makes expansions of what a job's walk will visit, level by level from the roots, each level by at
/// most so many threads. It ends after 64 levels in a row with fewer than 128 pairs, at as many pairs
/// as the job's limit, and where the table takes about as many bytes as it may: then it returns what
/// was made. If no level was wide, as in a chain, the table is empty: a walk is faster without one.
/// Returns `None` if memory runs out, with all that was made freed, and with fewer than two threads.
pub fn prefetch<'a, R: Threads + Sync>(
    rt: &R,
    alloc: Global,
    store: &'a Store,
    job: &'a Job,
    threads: usize,
    most_bytes: usize,
) -> Option<Expansions<'a>>
    ensures store { IfSome result (λ t. t.store ≡ store.now) }
    ensures job { IfSome result (λ t. t.job ≡ job.now) }
    ensures alone { threads < 2 → IsNone result }
{
    if threads < 2 {
        return None;
    }
    let Ok(mut table) = Expansions::new(alloc, store, job) else {
        return None;
    };
    match add_levels(rt, alloc, &mut table, threads, most_bytes) {
        Ok(true) => Expansions::new(alloc, store, job).ok(),
        Ok(false) | Err(TableStop::Full) => Some(table),
        Err(TableStop::Memory) => None,
    }
}

// Adds the expansions of all levels, or of the first if the table is full before. Returns whether narrow
// levels ended it and no level was wide.
fn add_levels<R: Threads + Sync>(
    rt: &R,
    alloc: Global,
    table: &mut Expansions<'_>,
    threads: usize,
    most_bytes: usize,
) -> Result<bool, TableStop>
    requires { 0 < threads }
    ensures { IsTableOf table.old table.new }
{
    let mut level = table.root_level(alloc)?.tasks;
    let mut narrow = 0u32;
    let mut wide = false;
    // Each level has a pair, and there are at most as many pairs as the limit.
    for _level in 0..table.job().limit() {
        if level.is_empty() || narrow == MOST_NARROW {
            break;
        }
        if level.len() < NARROW {
            narrow = narrow.saturating_add(1);
        } else {
            narrow = 0;
            wide = true;
        }
        let parts = make_parts(rt, alloc, table, level.as_slice(), threads, most_bytes)?;
        level = merge_parts(alloc, table, level.len(), parts.as_slice())?;
    }
    Ok(narrow == MOST_NARROW && !wide)
}

// Makes the expansions of a level, in parts, each by a thread.
fn make_parts<'a, R: Threads + Sync>(
    rt: &R,
    alloc: Global,
    table: &Expansions<'a>,
    level: &[Task],
    threads: usize,
    most_bytes: usize,
) -> Result<Vec<Part<'a>>, AllocError>
    requires { 0 < threads }
    ensures some { IfOk result (λ parts. 0 < length parts.items) }
    ensures parts { IfOk result (λ parts. ArePartsOf table.now parts.items) }
{
    let count = threads.min(level.len() / SHARE + 1);
    let share = most_bytes.saturating_sub(table.bytes()) / count;
    map_indices(
        rt,
        alloc,
        count,
        &|number| make_part(alloc, table, level, count, number, share),
    )
}

// Returns whether there was room for an expansion, from what adding it came to.
fn had_room(outcome: Result<(), TableStop>) -> Result<bool, AllocError>
    ensures added { IsOk outcome → result ≡ Ok true }
    ensures full { IsErrOf outcome TableStop.Full → result ≡ Ok false }
    ensures memory { IsErrOf outcome TableStop.Memory → IsErr result }
{
    match outcome {
        Ok(()) => Ok(true),
        Err(TableStop::Full) => Ok(false),
        Err(TableStop::Memory) => Err(AllocError),
    }
}

// Adds the expansion of a task, whose residual has its number in another table, to a part with at most so
// many bytes. Returns whether there was room for it.
fn adds_task<'a>(
    alloc: Global,
    part: &mut Expansions<'a>,
    table: &Expansions<'a>,
    task: Task,
    most_bytes: usize,
) -> Result<bool, AllocError>
    requires { IsTableOf table.now part.old }
    ensures { IsTableOf table.now part.new }
{
    if part.bytes() > most_bytes {
        return Ok(false);
    }
    let outcome = part.add_task(alloc, table, task);
    had_room(outcome)
}

// Makes the expansions of the pair with this number of each `count` of a level, or of the first of them
// if there is no room for all.
fn make_part<'a>(
    alloc: Global,
    table: &Expansions<'a>,
    level: &[Task],
    count: usize,
    number: usize,
    most_bytes: usize,
) -> Part<'a>
    requires { 0 < count }
    ensures { IfOk result (IsTableOf table.now) }
{
    let mut part = Expansions::new(alloc, table.store(), table.job())?;
    for row in level.chunks(count) {
        let Some(task) = row.get(number) else {
            break;
        };
        if !adds_task(alloc, &mut part, table, *task, most_bytes)? {
            break;
        }
    }
    Ok(part)
}

// Adds the expansions of a level of so many pairs, in their order, up to the first for which there was no
// room. Returns the pairs of the next level. Adds none if memory ran out for a part.
fn merge_parts<'a>(
    alloc: Global,
    table: &mut Expansions<'a>,
    pairs: usize,
    parts: &[Part<'a>],
) -> Result<Vec<Task>, TableStop>
    requires some { 0 < length parts.now }
    requires parts { ArePartsOf table.old parts.now }
    ensures { IsTableOf table.old table.new }
{
    if parts.iter().any(|part| part.is_err()) {
        return Err(TableStop::Memory);
    }
    let mut next = table.next_level(alloc, pairs);
    for index in 0..pairs {
        match &parts[index % parts.len()] {
            Ok(part) => table.append(alloc, part, index / parts.len(), &mut next)?,
            Err(_) => return Err(TableStop::Memory),
        }
    }
    Ok(next.tasks)
}
