//! The exporter for C: a static library, whose header is `include/ix_export.h`.
//!
//! Each call returns the number of a `Status`. It works on handles that C owns, each a struct of two
//! fields. It starts no thread, never waits and never ends the process. A frozen store is shared by as
//! many handles as there are threads. A call that isn't done leaves what its pointers lead to unchanged; an
//! open store into which a file is read may have more blocks if memory runs out.
#![tactic(auto)]

ghost use Rattle.std.specs.Prelude.{◌≡◌};
ghost use Rattle.ix_capi.specs.Answers.{ByStatus};
ghost use Rattle.ix_capi.specs.Calls.{
  Stays,
  IsEmptied,
  FillsWithNoBlocks,
  Reads,
  FillsWithJobOf,
  FillsWithJobOfParts,
  FillsWithSelectorOf,
  Adds,
  Freezes,
  MakesOnce,
  LeavesOut,
  SharesWith,
  ExportsTo,
  ChecksTo,
  SetsEnd,
  SetsCounts,
  SetsKnown,
  SetsArchiveLength,
  SetsReportLength,
  SetsPartLength,
  SetsLineLength,
  SetsChecked,
  SetsPlace,
  SetsBlamedLength,
  SetsSkip,
  SetsCidLength,
  IsCounted,
  Copies,
};
ghost use Rattle.ix_capi.specs.Results.{IsLeft};

mod address;
mod checking;
mod exporting;
mod filling;
mod findings;
mod handle;
mod inputs;
mod into_raw;
mod jobs;
mod raw_box;
mod results;
mod status;
mod stores;

use crate::findings::CheckCounts;
use crate::handle::Handle;
use crate::results::{Counts, SkipRecord, part_numbered};
use ix_api::Piece;
use std::alloc::Global;

/// Returns the version of this interface, which grows with each added call and each change of one.
#[unsafe(no_mangle)]
pub extern "C" fn ix_version() -> u32
    ensures { result ≡ 5 }
{
    5
}

/// Frees the contents of a handle, which is then empty.
#[unsafe(no_mangle)]
pub extern "C" fn ix_free(alloc: Global, handle: &mut Handle)
    ensures { IsEmptied handle.new }
{
    handle.take(alloc);
}

/// `ix_free` for a store. The blocks are freed with the last of its handles.
#[unsafe(no_mangle)]
pub extern "C" fn ix_store_free(alloc: Global, store: &mut Handle)
    ensures { IsEmptied store.new }
{
    ix_free(alloc, store)
}

/// `ix_free` for a job.
#[unsafe(no_mangle)]
pub extern "C" fn ix_job_free(alloc: Global, job: &mut Handle)
    ensures { IsEmptied job.new }
{
    ix_free(alloc, job)
}

/// `ix_free` for a result.
#[unsafe(no_mangle)]
pub extern "C" fn ix_result_free(alloc: Global, exported: &mut Handle)
    ensures { IsEmptied exported.new }
{
    ix_free(alloc, exported)
}

/// Fills a handle with an open store without blocks.
#[unsafe(no_mangle)]
pub extern "C" fn ix_store_new(alloc: Global, store: &mut Handle) -> u32
    ensures { ByStatus (FillsWithNoBlocks store.old store.new) result }
{
    inputs::new_store(alloc, store).code()
}

/// Adds copies of the blocks of a CARv1 file to the open store of a handle, or else fills the handle with
/// an open store of them. Of blocks with one CID the first counts.
#[unsafe(no_mangle)]
pub extern "C" fn ix_store_read_car(alloc: Global, store: &mut Handle, car: &[u8]) -> u32
    ensures { ByStatus (Reads car.now store.old store.new) result }
{
    inputs::read_car(alloc, store, car).code()
}

/// Adds a copy of a block to an open store under its CID, unless there is one.
#[unsafe(no_mangle)]
pub extern "C" fn ix_store_add(alloc: Global, store: &mut Handle, cid: &[u8], block: &[u8]) -> u32
    ensures { ByStatus (Adds cid.now block.now store.old store.new) result }
{
    stores::add(alloc, store, cid, block).code()
}

/// Freezes an open store: from then on it is shared and doesn't change.
#[unsafe(no_mangle)]
pub extern "C" fn ix_store_freeze(alloc: Global, store: &mut Handle) -> u32
    ensures { ByStatus (Freezes store.old store.new) result }
{
    stores::freeze(alloc, store).code()
}

/// Fills another handle with the same frozen store, for another thread.
#[unsafe(no_mangle)]
pub extern "C" fn ix_store_share(alloc: Global, store: &mut Handle, other: &mut Handle) -> u32
    ensures { ByStatus (SharesWith store.old store.new other.old other.new) result }
{
    stores::share(alloc, store, other).code()
}

/// Fills a handle with the job of a line of a job file.
#[unsafe(no_mangle)]
pub extern "C" fn ix_job_from_line(alloc: Global, job: &mut Handle, line: &[u8]) -> u32
    ensures { ByStatus (FillsWithJobOf line.now job.old job.new) result }
{
    inputs::job_from_line(alloc, job, line).code()
}

/// Fills a handle with the job of these parts: the CIDs of its roots in binary, concatenated, its
/// selector as DAG-CBOR, and its limit of visits. Its name is `job`.
#[unsafe(no_mangle)]
pub extern "C" fn ix_job_new(
    alloc: Global,
    job: &mut Handle,
    roots: &[u8],
    selector: &[u8],
    limit: u32,
) -> u32
    ensures { ByStatus (FillsWithJobOfParts roots.now selector.now limit job.old job.new) result }
{
    inputs::job_new(alloc, job, roots, selector, limit).code()
}

/// Makes a job expand each CID once, and not at every link.
#[unsafe(no_mangle)]
pub extern "C" fn ix_job_once(alloc: Global, job: &mut Handle) -> u32
    ensures { ByStatus (MakesOnce job.old job.new) result }
{
    jobs::once(alloc, job).code()
}

/// Makes a job leave out the blocks that its receiver has: those under whose CID the base, a frozen
/// store, has a sound block.
#[unsafe(no_mangle)]
pub extern "C" fn ix_job_without(alloc: Global, job: &mut Handle, base: &mut Handle) -> u32
    ensures { ByStatus (LeavesOut job.old job.new base.old base.new) result }
{
    jobs::without(alloc, job, base).code()
}

/// Fills a handle with the hex of the selector of a JSON text, which is the last field of a job's line.
#[unsafe(no_mangle)]
pub extern "C" fn ix_selector_from_json(alloc: Global, text: &mut Handle, json: &[u8]) -> u32
    ensures { ByStatus (FillsWithSelectorOf json.now text.old text.new) result }
{
    inputs::selector_from_json(alloc, text, json).code()
}

/// Exports a job over a frozen store on the caller's thread, and fills a handle with the result.
#[unsafe(no_mangle)]
pub extern "C" fn ix_export(
    alloc: Global,
    store: &mut Handle,
    job: &mut Handle,
    out: &mut Handle,
) -> u32
    ensures { ByStatus (ExportsTo store.old store.new job.old job.new out.old out.new) result }
{
    exporting::export_into(alloc, store, job, out).code()
}

/// Checks that the bytes of a CARv1 file are the own archive of a job, traversed with link-visit-once, and
/// fills a handle with what is found. The flags say which blocks may be missing.
#[unsafe(no_mangle)]
pub extern "C" fn ix_archive_check(
    alloc: Global,
    job: &mut Handle,
    archive: &[u8],
    allowed: u32,
    out: &mut Handle,
) -> u32
    ensures { ByStatus (ChecksTo archive.now allowed job.old job.new out.old out.new) result }
{
    checking::check_into(alloc, job, archive, allowed, out).code()
}

/// Returns the counts of an archive that is a job's own.
#[unsafe(no_mangle)]
pub extern "C" fn ix_check_counts(
    alloc: Global,
    handle: &mut Handle,
    counts: &mut CheckCounts,
) -> u32
    ensures { ByStatus (SetsChecked handle.old handle.new counts.old counts.new) result }
{
    findings::check_counts(alloc, handle, counts).code()
}

/// Returns where an archive is rejected, and the address and length of the CID that is missing or refused.
#[unsafe(no_mangle)]
pub extern "C" fn ix_check_fault(
    alloc: Global,
    handle: &mut Handle,
    place: &mut usize,
    cid: &mut *const u8,
    length: &mut usize,
) -> u32
    ensures place { ByStatus (SetsPlace handle.old handle.new place.old place.new) result }
    ensures cid { ByStatus (SetsBlamedLength handle.old handle.new length.old length.new) result }
    ensures left { ByStatus (IsLeft cid.old cid.new) result }
{
    findings::check_fault(alloc, handle, place, cid, length).code()
}

/// Returns how the job of a result ended.
#[unsafe(no_mangle)]
pub extern "C" fn ix_result_end(alloc: Global, handle: &mut Handle, end: &mut u32) -> u32
    ensures { ByStatus (SetsEnd handle.old handle.new end.old end.new) result }
{
    results::result_end(alloc, handle, end).code()
}

/// Returns how a job ended, and its counts.
#[unsafe(no_mangle)]
pub extern "C" fn ix_result_counts(alloc: Global, handle: &mut Handle, counts: &mut Counts) -> u32
    ensures { ByStatus (SetsCounts handle.old handle.new counts.old counts.new) result }
{
    results::result_counts(alloc, handle, counts).code()
}

/// Returns how many sound blocks have no section since the receiver has them: 0 for a job without a base.
#[unsafe(no_mangle)]
pub extern "C" fn ix_result_known(alloc: Global, handle: &mut Handle, known: &mut u32) -> u32
    ensures { ByStatus (SetsKnown handle.old handle.new known.old known.new) result }
{
    results::result_known(alloc, handle, known).code()
}

/// Returns the address and length of a result's archive.
#[unsafe(no_mangle)]
pub extern "C" fn ix_result_archive(
    alloc: Global,
    handle: &mut Handle,
    archive: &mut *const u8,
    length: &mut usize,
) -> u32
    ensures told { ByStatus (SetsArchiveLength handle.old handle.new length.old length.new) result }
    ensures left { ByStatus (IsLeft archive.old archive.new) result }
{
    results::bytes(alloc, handle, Some(Piece::Archive), archive, length).code()
}

/// Returns a skip of a result by its number, from 0, with the address and length of its CID.
#[unsafe(no_mangle)]
pub extern "C" fn ix_result_skip(
    alloc: Global,
    handle: &mut Handle,
    number: usize,
    skip: &mut SkipRecord,
    cid: &mut *const u8,
    length: &mut usize,
) -> u32
    ensures skip { ByStatus (SetsSkip number handle.old handle.new skip.old skip.new) result }
    ensures cid { ByStatus (SetsCidLength number handle.old handle.new length.old length.new) result }
    ensures left { ByStatus (IsLeft cid.old cid.new) result }
{
    results::result_skip(alloc, handle, number, skip, cid, length).code()
}

/// Returns the address and length of a result's report.
#[unsafe(no_mangle)]
pub extern "C" fn ix_result_report(
    alloc: Global,
    handle: &mut Handle,
    report: &mut *const u8,
    length: &mut usize,
) -> u32
    ensures told { ByStatus (SetsReportLength handle.old handle.new length.old length.new) result }
    ensures left { ByStatus (IsLeft report.old report.new) result }
{
    results::bytes(alloc, handle, Some(Piece::Report), report, length).code()
}

/// Returns the address and length of the line of an error.
#[unsafe(no_mangle)]
pub extern "C" fn ix_fault_line(
    alloc: Global,
    handle: &mut Handle,
    line: &mut *const u8,
    length: &mut usize,
) -> u32
    ensures told { ByStatus (SetsLineLength handle.old handle.new length.old length.new) result }
    ensures left { ByStatus (IsLeft line.old line.new) result }
{
    results::fault_line(alloc, handle, line, length).code()
}

/// Returns the address and length of a part of a handle's contents: the archive, the report, or a text.
#[unsafe(no_mangle)]
pub extern "C" fn ix_bytes(
    alloc: Global,
    handle: &mut Handle,
    part: u32,
    start: &mut *const u8,
    length: &mut usize,
) -> u32
    ensures told { ByStatus (SetsPartLength part handle.old handle.new length.old length.new) result }
    ensures left { ByStatus (IsLeft start.old start.new) result }
{
    results::bytes(alloc, handle, part_numbered(part), start, length).code()
}

/// Copies a part of a handle's contents into a buffer, from an offset, as far as there is room.
#[unsafe(no_mangle)]
pub extern "C" fn ix_copy(
    alloc: Global,
    handle: &mut Handle,
    part: u32,
    from: usize,
    buffer: &mut [u8],
    count: &mut usize,
) -> u32
    ensures copied { Copies part from handle.old buffer.old buffer.new }
    ensures count { ByStatus (IsCounted part from buffer.old handle.old count.old count.new) result }
    ensures kept { Stays handle.old handle.new }
{
    results::copy(alloc, handle, part, from, buffer, count).code()
}
