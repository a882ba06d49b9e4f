//! The contents of a handle, as C reads them.

ghost use Rattle.std.specs.Prelude.{◌≡◌, Some, Ok, length};
ghost use denote.RawPtr.{block_ptr};
ghost use Rattle.ix_capi.specs.Calls.{
  Stays,
  SetsEnd,
  SetsCounts,
  SetsKnown,
  SetsLength,
  SetsLineLength,
  SetsSkip,
  SetsCidLength,
  IsCounted,
  Copies,
};
ghost use Rattle.ix_capi.specs.Results.{
  end_code,
  why_code,
  part_numbered,
  end_of,
  counts_of,
  known_of,
  skip_of,
  cid_length,
  export_in,
  skip_in,
  bytes_of,
  line_in,
  of_found,
  IsSet,
  IsLeft,
  IsPlaced,
  IsSkipPlaced,
  count_copied,
  HasCopied,
};

use crate::address::address_of;
use crate::handle::Handle;
use crate::status::Status;
use ix_api::{Exported, Object, Piece};
use ix_car::{End, Skip};
use ix_check::Verdict;
use std::alloc::Global;

/// The report on a job.
#[repr(C)]
#[derive(Debug, Drop, Clone, Copy, PartialEq, Eq)]
pub struct Counts {
    /// How it ended: 0 done, 1 limit, 2 memory, 3 write, 4 start.
    pub end: u32,
    /// Visits: links, the roots included.
    pub visits: u32,
    /// Visits that aren't below what is damaged or skipped.
    pub kept: u32,
    /// Blocks in the archive.
    pub sections: u32,
    /// The length of the archive in bytes.
    pub bytes: u64,
    /// The number of skipped visits.
    pub skips: u64,
}

/// A skipped visit.
#[repr(C)]
#[derive(Debug, Drop, Clone, Copy, PartialEq, Eq)]
pub struct SkipRecord {
    /// The number of the visit, from 0.
    pub visit: u32,
    /// Why: 0 codec, 1 hash, 2 missing, 3 damaged, 4 malformed.
    pub why: u32,
}

// Returns the number of an end in C.
fn end_code(end: End) -> u32
    ensures { result ≡ end_code end }
{
    match end {
        End::Done => 0,
        End::Limit => 1,
        End::Memory => 2,
        End::Write => 3,
        End::Start => 4,
    }
}

// Returns the number in C of the reason of a skip. A good verdict is none.
fn why_code(verdict: Verdict) -> u32
    ensures { result ≡ why_code verdict }
{
    match verdict {
        Verdict::Codec => 0,
        Verdict::Hash => 1,
        Verdict::Missing => 2,
        Verdict::Damaged => 3,
        Verdict::Malformed => 4,
        Verdict::Sound => 5,
        Verdict::Inline => 6,
    }
}

/// Returns the part with this number in C.
pub(crate) fn part_numbered(number: u32) -> Option<Piece>
    ensures { result ≡ part_numbered number }
{
    match number {
        0 => Some(Piece::Archive),
        1 => Some(Piece::Report),
        2 => Some(Piece::Text),
        _ => None,
    }
}

/// The address of bytes, and their number.
#[derive(Drop)]
pub(crate) struct BytesPlace {
    start: *const u8,
    length: usize,
}

/// Returns the address of bytes, and their number.
pub(crate) fn place_of(bytes: &[u8]) -> BytesPlace
    ensures start { result.start ≡ block_ptr bytes.entry.ref_ptr.0 bytes.entry.ref_ptr.1 }
    ensures length { result.length ≡ length bytes.now }
{
    BytesPlace {
        start: address_of(bytes),
        length: bytes.len(),
    }
}

// A skipped visit, and the address of its CID.
#[derive(Drop)]
struct SkipPlace {
    told: SkipRecord,
    cid: BytesPlace,
}

/// Writes a value to its address, or leaves it, and returns the status.
pub(crate) fn set_result<T: Drop>(told: Result<T, Status>, wanted: &mut T) -> Status
    ensures { IsSet told wanted.old wanted.new result }
{
    match told {
        Ok(told) => {
            *wanted = told;
            Status::Done
        }
        Err(why) => why,
    }
}

/// Writes the address and length of bytes in the same way.
pub(crate) fn set_place(
    found: Result<BytesPlace, Status>,
    start: &mut *const u8,
    length: &mut usize,
) -> Status
    ensures told { IsSet (of_found (λ place. place.length) found) length.old length.new result }
    ensures left { IsLeft start.old start.new result }
{
    match found {
        Ok(place) => {
            let at = place.start;
            *start = at;
            *length = place.length;
            Status::Done
        }
        Err(no_bytes) => no_bytes,
    }
}

/// Returns the address and length of a part, if there is one. The bytes stay there until the handle is
/// filled or freed.
pub(crate) fn bytes(
    alloc: Global,
    handle: &mut Handle,
    part: Option<Piece>,
    start: &mut *const u8,
    length: &mut usize,
) -> Status
    ensures told { SetsLength part handle.old handle.new length.old length.new result }
    ensures left { IsLeft start.old start.new result }
{
    let Some(part) = part else {
        return Status::Range;
    };
    set_place(
        handle.read(alloc, |held| bytes_of(held, part)),
        start,
        length,
    )
}

// Returns the address and length of a part, if there is one.
fn bytes_of(held: &Object, part: Piece) -> Result<BytesPlace, Status>
    ensures { IsPlaced (bytes_of part held.now) result }
{
    match held.bytes(part) {
        Some(bytes) => Ok(place_of(bytes)),
        None => Err(Status::Handle),
    }
}

/// Returns the address and length of the line of an error, or of an archive that is rejected. A handle with
/// another text has none.
pub(crate) fn fault_line(
    alloc: Global,
    handle: &mut Handle,
    line: &mut *const u8,
    length: &mut usize,
) -> Status
    ensures told { SetsLineLength handle.old handle.new length.old length.new result }
    ensures left { IsLeft line.old line.new result }
{
    set_place(handle.read(alloc, line_of), line, length)
}

// Returns the address and length of the line of an error, if this is one.
fn line_of(held: &Object) -> Result<BytesPlace, Status>
    ensures { IsPlaced (line_in (Some held.now)) result }
{
    match held {
        Object::Refusal(line) => Ok(place_of(line.as_slice())),
        Object::Rejected(found) => Ok(place_of(found.line.as_slice())),
        _ => Err(Status::Handle),
    }
}

/// Copies bytes of a part, from an offset, into a buffer, as many as there are and have room.
pub(crate) fn copy(
    alloc: Global,
    handle: &mut Handle,
    part: u32,
    from: usize,
    buffer: &mut [u8],
    count: &mut usize,
) -> Status
    ensures copied { Copies part from handle.old buffer.old buffer.new }
    ensures count { IsCounted part from buffer.old handle.old count.old count.new result }
    ensures kept { Stays handle.old handle.new }
{
    let Some(part) = part_numbered(part) else {
        return Status::Range;
    };
    let Some(held) = handle.take(alloc) else {
        return Status::Handle;
    };
    let copied = copy_of(&held, part, from, buffer);
    handle.put(alloc, held);
    set_result(copied, count)
}

// Copies bytes of a part, if there is one, and returns how many.
fn copy_of(held: &Object, part: Piece, from: usize, buffer: &mut [u8]) -> Result<usize, Status>
    ensures copied { HasCopied from (bytes_of part held.now) buffer.old buffer.new }
    ensures count { result ≡ of_found (count_copied from buffer.old) (bytes_of part held.now) }
{
    match held.bytes(part) {
        Some(bytes) => Ok(copy_from(bytes, from, buffer)),
        None => Err(Status::Handle),
    }
}

// Copies bytes, from an offset, as many as there are and have room, and returns how many.
fn copy_from(bytes: &[u8], from: usize, buffer: &mut [u8]) -> usize
    ensures copied { HasCopied from (Ok bytes.now) buffer.old buffer.new }
    ensures count { result ≡ count_copied from buffer.old bytes.now }
{
    let Some(rest) = bytes.get(from..) else {
        return 0;
    };
    let count = rest.len().min(buffer.len());
    buffer[..count].copy_from_slice(&rest[..count]);
    count
}

/// Returns how an exported job ended.
pub(crate) fn result_end(alloc: Global, handle: &mut Handle, end: &mut u32) -> Status
    ensures { SetsEnd handle.old handle.new end.old end.new result }
{
    set_result(handle.read(alloc, end_of), end)
}

// Returns how a job ended, if this is the result of an export.
fn end_of(held: &Object) -> Result<u32, Status>
    ensures { result ≡ of_found end_of (export_in (Some held.now)) }
{
    match held {
        Object::Exported(out) => Ok(end_code(out.result.end)),
        _ => Err(Status::Handle),
    }
}

/// Returns the report on an exported job.
pub(crate) fn result_counts(alloc: Global, handle: &mut Handle, counts: &mut Counts) -> Status
    ensures { SetsCounts handle.old handle.new counts.old counts.new result }
{
    set_result(handle.read(alloc, counts_of), counts)
}

// Returns the report on a job, if this is the result of an export.
fn counts_of(held: &Object) -> Result<Counts, Status>
    ensures { result ≡ of_found counts_of (export_in (Some held.now)) }
{
    match held {
        Object::Exported(out) => Ok(counts_in(out)),
        _ => Err(Status::Handle),
    }
}

// Makes the report on a job.
fn counts_in(out: &Exported) -> Counts
    ensures { result ≡ counts_of out.now }
{
    let counts = out.result.counts;
    Counts {
        end: end_code(out.result.end),
        visits: counts.visits,
        kept: counts.kept,
        sections: counts.sections,
        bytes: counts.bytes,
        skips: out.result.skips.len() as u64,
    }
}

/// Returns how many sound blocks have no section since the receiver has them.
pub(crate) fn result_known(alloc: Global, handle: &mut Handle, known: &mut u32) -> Status
    ensures { SetsKnown handle.old handle.new known.old known.new result }
{
    set_result(handle.read(alloc, known_of), known)
}

// Returns how many blocks are known, if this is the result of an export.
fn known_of(held: &Object) -> Result<u32, Status>
    ensures { result ≡ of_found known_of (export_in (Some held.now)) }
{
    match held {
        Object::Exported(out) => Ok(out.result.counts.known.unwrap_or(0)),
        _ => Err(Status::Handle),
    }
}

/// Returns a skipped visit by its number among the skips, with the address and length of its CID.
pub(crate) fn result_skip(
    alloc: Global,
    handle: &mut Handle,
    number: usize,
    skip: &mut SkipRecord,
    cid: &mut *const u8,
    length: &mut usize,
) -> Status
    ensures skip { SetsSkip number handle.old handle.new skip.old skip.new result }
    ensures cid { SetsCidLength number handle.old handle.new length.old length.new result }
    ensures left { IsLeft cid.old cid.new result }
{
    match handle.read(alloc, |held| skip_of(held, number)) {
        Ok(found) => {
            *skip = found.told;
            set_place(Ok(found.cid), cid, length)
        }
        Err(no_skip) => no_skip,
    }
}

// Returns a skipped visit, if this is the result of an export.
fn skip_of(held: &Object, number: usize) -> Result<SkipPlace, Status>
    ensures { IsSkipPlaced (skip_in number (Some held.now)) result }
{
    let Object::Exported(out) = held else {
        return Err(Status::Handle);
    };
    match out.result.skips.get(number) {
        Some(skip) => Ok(skip_place(skip)),
        None => Err(Status::Range),
    }
}

// Makes the report on a skip, with the address of its CID.
fn skip_place(skip: &Skip) -> SkipPlace
    ensures told { result.told ≡ skip_of skip.now }
    ensures length { result.cid.length ≡ cid_length skip.now }
{
    SkipPlace {
        told: SkipRecord {
            visit: skip.seq,
            why: why_code(skip.verdict),
        },
        cid: place_of(skip.cid.as_bytes()),
    }
}
