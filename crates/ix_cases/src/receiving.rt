//! What a receiver has, and whether what it is sent is what it asked for.

ghost use Rattle.ix_sections.specs.Payload.{IsWithin};

use crate::stores::text_of_fault;
use crate::walks::job_of_words;
use anyhow::{Context, Error, Result, bail, ensure};
use ix_case_formats::cids::cid_of;
use ix_case_formats::texts::{bytes_of_hex, two_words};
use ix_known::Base;
use ix_own_archive::{
    Counts, ExpectedHeader, ReceiveFault, StreamFault, StreamLimits, StreamReceiver, check_archive,
};
use ix_receive::Receiver;
use ix_sections::Payload;
use ix_store::{PlaceSet, Store};
use ix_verdict::AllowMissing;
use ix_walk::Job;
use std::alloc::{AllocError, Global};
use std::thread::Threads;

/// `known FILE FILE .. = PLACE PLACE ..`: which blocks of the store CARv1 files in hex have, by the first copies in them,
/// `none`, or the first error of a file
pub fn known<R: Threads + Sync>(
    rt: &R,
    alloc: Global,
    store: &Store,
    input: &str,
) -> Result<String> {
    let mut base = Base::new(alloc, store);
    for file in input.split(' ') {
        let file = bytes_of_hex(alloc, file)?;
        match base.with_file(rt, alloc, file.as_slice(), whole(file.as_slice()), 2) {
            Ok(more) => base = more,
            Err(fault) => return text_of_fault(alloc, fault),
        }
    }
    text_of_places(alloc, &base.into_known(), store.len()).map_err(Error::from)
}

// The whole of a file.
fn whole(file: &[u8]) -> Payload
    ensures { IsWithin result file.now }
{
    Payload {
        start: 0,
        end: file.len(),
    }
}

// Places below a number, with a space between.
fn text_of_places(alloc: Global, places: &PlaceSet, below: usize) -> Result<String, AllocError> {
    let mut text = String::new(alloc);
    for place in 0..below {
        if places.contains(place) {
            write!(text, "{place} ")?;
        }
    }
    if text.is_empty() {
        text.push_str("none")?;
    }
    text.as_str().trim_end().to_string(alloc)
}

/// `receive ALLOWED SECTIONS ROOTS LIMIT SELECTOR = COUNTS` or `NUMBER: FAULT`: sections are CIDs and blocks with a `:`
/// between, and a comma between sections. The blocks of the store are the receiver's base
pub fn receive(alloc: Global, store: &Store, input: &str) -> Result<String> {
    let (allowed, rest) = two_words(input)?;
    let allowed = allowed_of(allowed)?;
    let (sections, job) = two_words(rest)?;
    match job_of_words(alloc, job) {
        Ok(job) => received(alloc, receiver_of(alloc, store, &job, allowed), sections),
        Err(error) => Err(error),
    }
}

// Which blocks may be missing.
fn allowed_of(word: &str) -> Result<AllowMissing> {
    match word {
        "none" => Ok(AllowMissing::none()),
        "all" => Ok(AllowMissing::all()),
        _ => bail!("`none` or `all` is wanted: {word}"),
    }
}

// A receiver of a job, whose base are the blocks of a store if there are any.
fn receiver_of<'a>(
    alloc: Global,
    store: &'a Store,
    job: &'a Job,
    allowed: AllowMissing,
) -> Receiver<'a> {
    if store.is_empty() {
        Receiver::new(alloc, job, allowed)
    } else {
        Receiver::with_base(alloc, job, allowed, store)
    }
}

// What a receiver finds of sections: the counts, or the number of the one that it refuses, from 0, and why.
fn received(alloc: Global, receiver: Receiver<'_>, sections: &str) -> Result<String> {
    let mut receiver = receiver;
    for (number, section) in sections.split(',').enumerate() {
        if section == "-" {
            continue;
        }
        if let Some(fault) = offered(alloc, &mut receiver, section)? {
            let fault = text_of_refusal(alloc, &fault)?;
            return format!(in alloc; "{number}: {fault}").map_err(Error::from);
        }
    }
    text_of_end(alloc, receiver.finish()).map_err(Error::from)
}

// Offers a section to a receiver, and returns why it is refused.
fn offered(
    alloc: Global,
    receiver: &mut Receiver<'_>,
    section: &str,
) -> Result<Option<ReceiveFault>> {
    let (cid, block) = section.split_once(':').context("no `:` in a section")?;
    let block = bytes_of_hex(alloc, block)?;
    Ok(receiver.offer(cid_of(alloc, cid)?, block.as_slice()).err())
}

// The counts, or why the end is refused.
fn text_of_end(alloc: Global, end: Result<Counts, ReceiveFault>) -> Result<String, AllocError> {
    match end {
        Ok(counts) => text_of_counts(alloc, counts),
        Err(fault) => {
            let fault = text_of_refusal(alloc, &fault)?;
            format!(in alloc; "end: {fault}")
        }
    }
}

// `NUMBER visits, NUMBER missing`, and how many weren't read if there are any.
fn text_of_counts(alloc: Global, counts: Counts) -> Result<String, AllocError> {
    let (visits, missing, unread) = (counts.visits, counts.missing, counts.unread);
    if unread > 0 {
        format!(in alloc; "{visits} visits, {missing} missing, {unread} unread")
    } else {
        format!(in alloc; "{visits} visits, {missing} missing")
    }
}

// Why a section or the end is refused, with the CID of a block that is missing.
fn text_of_refusal(alloc: Global, fault: &ReceiveFault) -> Result<String, AllocError> {
    match fault {
        ReceiveFault::Missing(cid) => {
            let cid = cid.text(alloc)?;
            format!(in alloc; "missing {cid}")
        }
        ReceiveFault::Unsound(verdict) => verdict.to_string(alloc),
        ReceiveFault::Root(_, verdict) => format!(in alloc; "root {verdict}"),
        ReceiveFault::InBase => String::from_str(alloc, "in the base"),
        ReceiveFault::Repeated => String::from_str(alloc, "repeated"),
        ReceiveFault::OutOfOrder => String::from_str(alloc, "out of order"),
        ReceiveFault::NotAskedFor => String::from_str(alloc, "not asked for"),
        ReceiveFault::Limit => String::from_str(alloc, "limit"),
        ReceiveFault::Ended => String::from_str(alloc, "ended"),
        ReceiveFault::Memory => String::from_str(alloc, "memory"),
    }
}

/// `check_archive ALLOWED HEX ROOTS LIMIT SELECTOR = COUNTS` or the error of `check_archive`
pub fn archive(alloc: Global, input: &str) -> Result<String> {
    let (allowed, rest) = two_words(input)?;
    let allowed = allowed_of(allowed)?;
    let (bytes, job) = two_words(rest)?;
    let bytes = bytes_of_hex(alloc, bytes)?;
    match job_of_words(alloc, job) {
        Ok(job) => checked(alloc, bytes.as_slice(), &job, allowed).map_err(Error::from),
        Err(error) => Err(error),
    }
}

// The counts of an archive, or why it isn't the job's own.
fn checked(
    alloc: Global,
    bytes: &[u8],
    job: &Job,
    allowed: AllowMissing,
) -> Result<String, AllocError> {
    match check_archive(alloc, bytes, job, allowed) {
        Ok(counts) => text_of_counts(alloc, counts),
        Err(fault) => fault.to_string(alloc),
    }
}

// A stream, and what is asked of its lengths and its header.
#[derive(Drop)]
struct StreamCase<'a> {
    header: ExpectedHeader,
    limits: StreamLimits,
    bytes: &'a [u8],
}

/// `stream HEADER MOST MOST HEX ROOTS LIMIT SELECTOR = COUNTS; BYTES SECTIONS` or the error and these: how many bytes and
/// sections were checked, also in pieces of 1 and of 7 bytes. HEADER is `own` or `any`, and its length and that of a section are at
/// most so many bytes
pub fn stream(alloc: Global, input: &str) -> Result<String> {
    let (header, rest) = two_words(input)?;
    let (most_header, rest) = two_words(rest)?;
    let (most_section, rest) = two_words(rest)?;
    let (bytes, job) = two_words(rest)?;
    let bytes = bytes_of_hex(alloc, bytes)?;
    let stream = StreamCase {
        header: header_of(header)?,
        limits: StreamLimits {
            header: most_header.parse::<usize>()?,
            section: most_section.parse::<usize>()?,
        },
        bytes: bytes.as_slice(),
    };
    match job_of_words(alloc, job) {
        Ok(job) => in_pieces(alloc, &job, &stream),
        Err(error) => Err(error),
    }
}

fn header_of(word: &str) -> Result<ExpectedHeader> {
    match word {
        "own" => Ok(ExpectedHeader::OfJob),
        "any" => Ok(ExpectedHeader::Any),
        _ => bail!("`own` or `any` is wanted: {word}"),
    }
}

// What is found of a stream as a whole, which has to be the same in pieces of 1 and of 7 bytes.
fn in_pieces(alloc: Global, job: &Job, stream: &StreamCase<'_>) -> Result<String> {
    let whole = streamed(alloc, job, stream, stream.bytes.len())?;
    for size in [1, 7] {
        let cut = streamed(alloc, job, stream, size)?;
        ensure!(cut == whole, "in pieces of {size} it is {cut}");
    }
    Ok(whole)
}

// What is found of a stream in pieces of a size.
fn streamed(alloc: Global, job: &Job, stream: &StreamCase<'_>, size: usize) -> Result<String> {
    let (header, limits) = (stream.header, stream.limits);
    let mut receiver = StreamReceiver::new(alloc, job, AllowMissing::none(), header, limits)?;
    let mut checked = Vec::new(alloc);
    let taken = taken(&mut receiver, stream.bytes, size, &mut checked)?;
    ensure!(
        stream.bytes.starts_with(checked.as_slice()),
        "what was checked isn't the stream's"
    );
    let (bytes, sections) = (checked.len(), receiver.sections());
    let outcome = text_of_stream(alloc, receiver, taken)?;
    format!(in alloc; "{outcome}; {bytes} {sections}").map_err(Error::from)
}

// Gives a receiver the pieces of a stream up to the first that it refuses, and appends what it checked.
fn taken(
    receiver: &mut StreamReceiver<'_>,
    bytes: &[u8],
    size: usize,
    checked: &mut Vec<u8>,
) -> Result<Result<(), StreamFault>, AllocError> {
    for piece in bytes.chunks(size.max(1)) {
        let taken = receiver.append(piece);
        checked.extend_from_slice(receiver.checked())?;
        receiver.release();
        if taken.is_err() {
            return Ok(taken);
        }
    }
    Ok(Ok(()))
}

// The counts at the end of a stream, or why it is refused.
fn text_of_stream(
    alloc: Global,
    receiver: StreamReceiver<'_>,
    taken: Result<(), StreamFault>,
) -> Result<String, AllocError> {
    let end = match taken {
        Ok(()) => receiver.finish(),
        Err(fault) => Err(fault),
    };
    match end {
        Ok(counts) => text_of_counts(alloc, counts),
        Err(fault) => fault.to_string(alloc),
    }
}
