//! A stream that is read, checked and written piece by piece.

use crate::path_watch::{PathStop, PathWatch};
use crate::rejection::Rejection;
use crate::visit_paths::{add_base, unread_visits};
use ix_car::Skip;
use ix_cid::read_varint;
use ix_cli_io::Progress;
use ix_options::words_of;
use ix_own_archive::{
    ArchiveReason, Counts, ExpectedHeader, StreamFault, StreamLimits, StreamReason, StreamReceiver,
};
use ix_read_ahead::ReadAhead;
use ix_sections::{CarKind, Kind, header_of, kind_of, read_header, read_section};
use ix_store::Store;
use ix_verdict::AllowMissing;
use ix_walk::Job;
use std::alloc::{AllocError, Global};
use std::io::{self, ErrorKind, Read, Write};
use std::num::NonZeroUsize;
use std::rt::Clock;
use std::sync::Wait;
use std::thread::Threads;

// How many bytes are read ahead at least before the input has to wait.
const AHEAD: usize = 4 * 1024 * 1024;

// How many bytes of a stream show what it is.
const FRONT: usize = 512;

// The greatest length of a header.
const MOST_HEADER: usize = 32 * 1024 * 1024;

// What the headers of CARv1 files begin with after their length.
const HEADER_BEGINNING: &[u8] = b"\xa2\x65roots";

/// How a stream ended.
#[derive(Drop)]
pub(crate) enum Ended {
    /// All of it was accepted, and written.
    Accepted(Counts),
    Rejected(Rejection),
    /// It is no CARv1 file, as this line says.
    NoCar(String),
    Unreadable(io::Error),
    /// A write failed; where the header and the sections end that it had, as offsets in the stream.
    Unwritable(io::Error, Vec<u64>),
    /// Memory ran out.
    Memory,
}

impl From<AllocError> for Ended {
    fn from(_error: AllocError) -> Ended {
        Ended::Memory
    }
}

/// What was written of a stream, and how it ended.
#[derive(Drop)]
pub(crate) struct Outcome {
    pub ended: Ended,
    pub sections: u64,
    pub bytes: u64,
    /// The visits that are skips, of a stream that was accepted.
    pub skips: Vec<Skip>,
    /// The blocks over which visits are reported, if a report may have any.
    pub kept: Option<Store>,
}

/// A stream of which a piece was read, and which is read ahead of that.
#[derive(Drop)]
pub(crate) struct Incoming<I> {
    input: ReadAhead<I>,
    // The bytes that came last: none at the end.
    piece: Vec<u8>,
    // The first bytes of the stream.
    front: Vec<u8>,
}

impl<I: Read + Drop + Send + 'static> Incoming<I> {
    /// Reads the first piece of a stream: as many bytes as are there.
    pub(crate) fn begin<R: Threads + Wait + Copy + Send + 'static>(
        rt: &R,
        alloc: Global,
        input: I,
    ) -> Result<Incoming<I>, Ended> {
        let mut incoming = Incoming {
            input: ReadAhead::start(rt, alloc, input, AHEAD)?,
            piece: Vec::new(alloc),
            front: Vec::new(alloc),
        };
        incoming.advance(rt)?;
        Ok(incoming)
    }
}

impl<I: Read> Incoming<I> {
    // Reads the next piece.
    fn advance<R: Wait>(&mut self, rt: &R) -> Result<(), Ended> {
        match self.input.take(rt, &mut self.piece) {
            Ok(()) => {}
            Err(error) if error.kind() == ErrorKind::OutOfMemory => return Err(Ended::Memory),
            Err(error) => return Err(Ended::Unreadable(error)),
        }
        let left = FRONT.saturating_sub(self.front.len());
        let (front, _) = self.piece.split_at(left.min(self.piece.len()));
        self.front.extend_from_slice(front)?;
        Ok(())
    }
}

/// What is asked of a stream.
#[derive(Clone, Copy)]
pub(crate) struct Request<'s> {
    pub alloc: Global,
    pub job: &'s Job,
    /// The blocks that are here already.
    pub base: Option<&'s Store>,
    pub allowed: AllowMissing,
    pub header: ExpectedHeader,
    /// The greatest length of a section.
    pub most: usize,
    /// How many threads hash sections at most.
    pub threads: NonZeroUsize,
    /// Whether it is asked where visits are.
    pub has_paths: bool,
}

impl<'s> Request<'s> {
    // Returns the blocks over which visits are reported: what was kept, and those of the base if it is asked where
    // visits are. There are none if memory runs out.
    fn with_base(&self, kept: Store) -> Option<Store> {
        if self.has_paths {
            self.with_all(kept).ok()
        } else {
            Some(kept)
        }
    }

    // Returns what was kept, and the blocks of the base.
    fn with_all(&self, kept: Store) -> Result<Store, AllocError> {
        let mut blocks = kept;
        if let Some(base) = self.base {
            add_base(&mut blocks, base)?;
        }
        Ok(blocks)
    }

    // Makes the outcome of a stream that was accepted and written, with its skips if it has any.
    fn accepted(&self, written: Written, counts: Counts, kept: Store) -> Outcome {
        if counts.unread == 0 {
            let kept = if counts.missing > 0 {
                self.with_base(kept)
            } else {
                None
            };
            return written.ended(Ended::Accepted(counts), Vec::new(self.alloc), kept);
        }
        let found = match self.with_all(kept) {
            Ok(blocks) => match unread_visits(self.alloc, &blocks, self.job) {
                Ok(skips) => Ok((skips, blocks)),
                Err(error) => Err(error),
            },
            Err(error) => Err(error),
        };
        match found {
            Ok((skips, blocks)) => written.ended(Ended::Accepted(counts), skips, Some(blocks)),
            Err(_) => written.ended(Ended::Memory, Vec::new(self.alloc), None),
        }
    }
}

// How many sections and bytes were written of a stream.
#[derive(Clone, Copy)]
struct Written {
    sections: u64,
    bytes: u64,
}

impl Written {
    // Makes the outcome of a stream that ended so.
    fn ended(self, ended: Ended, skips: Vec<Skip>, kept: Option<Store>) -> Outcome {
        Outcome {
            ended,
            sections: self.sections,
            bytes: self.bytes,
            skips,
            kept,
        }
    }
}

/// A stream that is checked, and of which is written what is checked.
#[derive(Drop)]
pub(crate) struct Reception<'s, W> {
    request: Request<'s>,
    receiver: StreamReceiver<'s>,
    paths: PathWatch<'s>,
    writer: W,
    // How many sections and bytes were written.
    sections: u64,
    bytes: u64,
}

impl<'s, W: Write + Drop> Reception<'s, W> {
    /// Creates the reception of a stream of which nothing has come.
    pub(crate) fn new(
        request: Request<'s>,
        paths: PathWatch<'s>,
        writer: W,
    ) -> Result<Reception<'s, W>, AllocError> {
        let Request {
            alloc,
            job,
            base,
            allowed,
            header,
            most,
            threads: _,
            has_paths: _,
        } = request;
        let limits = StreamLimits {
            header: MOST_HEADER,
            section: most,
        };
        let receiver = match base {
            Some(base) => { StreamReceiver::with_base(alloc, job, base, allowed, header, limits)? }
            None => StreamReceiver::new(alloc, job, allowed, header, limits)?,
        };
        Ok(Reception {
            request,
            receiver,
            paths,
            writer,
            sections: 0,
            bytes: 0,
        })
    }

    /// Receives a stream to its end, or to the first error.
    pub(crate) fn receive<I, R>(
        self,
        rt: &R,
        incoming: Incoming<I>,
        progress: &Progress<R>,
    ) -> Outcome
    where
        I: Read + Drop,
        R: AllocGlobal + Clock + Eprint + Threads + Wait + Sync,
    {
        let (mut reception, mut incoming) = (self, incoming);
        let taken = reception.take_all(rt, &mut incoming, progress);
        incoming.input.close(rt);
        match taken {
            Ok(()) => reception.finish(incoming.front.as_slice()),
            Err(ended) => reception.stop(ended),
        }
    }

    // Takes the pieces of a stream, each as soon as it is there.
    fn take_all<I, R>(
        &mut self,
        rt: &R,
        incoming: &mut Incoming<I>,
        progress: &Progress<R>,
    ) -> Result<(), Ended>
    where
        I: Read + Drop,
        R: AllocGlobal + Clock + Eprint + Threads + Wait + Sync,
    {
        for _ in 0..u64::MAX {
            if incoming.piece.is_empty() {
                break;
            }
            let piece = incoming.piece.as_slice();
            self.take(rt, piece, incoming.front.as_slice())?;
            progress.set_received(self.sections, piece.len() as u64);
            incoming.advance(rt)?;
        }
        Ok(())
    }

    // Takes the next bytes, and writes what they complete.
    fn take<R: Threads + Sync>(&mut self, rt: &R, piece: &[u8], front: &[u8]) -> Result<(), Ended> {
        let alloc = self.request.alloc;
        let before = self.bytes;
        let appended = self.receiver.append_by(rt, piece, self.request.threads);
        let sections = self.receiver.sections();
        if let Some(stop) = self.paths.look(self.receiver.checked())? {
            let PathStop {
                stop,
                start,
                end,
                after,
            } = stop;
            self.write(end)?;
            self.sections = sections.saturating_sub(after);
            let place = before.saturating_add(start as u64);
            let rejection = Rejection::of_path(alloc, place, stop)?;
            return Err(Ended::Rejected(rejection));
        }
        self.write(usize::MAX)?;
        self.sections = sections;
        self.receiver.release();
        match appended {
            Ok(()) => Ok(()),
            Err(fault) => Err(ended_by(&self.request, &fault, front)?),
        }
    }

    // Writes so many of the bytes that are checked, or all.
    fn write(&mut self, most: usize) -> Result<(), Ended> {
        let checked = self.receiver.checked();
        let (bytes, _) = checked.split_at(most.min(checked.len()));
        match self.writer.write_all(bytes) {
            Ok(()) => {
                self.bytes = self.bytes.saturating_add(bytes.len() as u64);
                Ok(())
            }
            Err(error) => {
                let ends = ends_in(self.request.alloc, bytes, self.bytes)?;
                Err(Ended::Unwritable(error, ends))
            }
        }
    }

    // Ends the stream that stopped.
    fn stop(self, ended: Ended) -> Outcome {
        let Reception {
            request,
            receiver,
            paths,
            writer,
            sections,
            bytes,
        } = self;
        drop(paths);
        drop(writer);
        let kept = if has_stopped_at(&ended) {
            let (_, kept) = receiver.finish_kept();
            request.with_base(kept)
        } else {
            None
        };
        let written = Written { sections, bytes };
        written.ended(ended, Vec::new(request.alloc), kept)
    }

    // Ends the stream, which begins with these bytes, and flushes what was written of it.
    fn finish(self, front: &[u8]) -> Outcome {
        let Reception {
            request,
            receiver,
            paths,
            mut writer,
            sections,
            bytes,
        } = self;
        let (counts, kept) = receiver.finish_kept();
        let written = Written { sections, bytes };
        let ended = match finished(&request, counts, &paths, bytes, front) {
            Ok(counts) => match writer.flush() {
                Ok(()) => return request.accepted(written, counts, kept),
                Err(error) => Ended::Unwritable(error, Vec::new(request.alloc)),
            },
            Err(ended) => ended,
        };
        let kept = if has_stopped_at(&ended) {
            request.with_base(kept)
        } else {
            None
        };
        written.ended(ended, Vec::new(request.alloc), kept)
    }
}

// Whether a report may have the visit at which a stream stopped.
fn has_stopped_at(ended: &Ended) -> bool {
    match ended {
        Ended::Rejected(rejection) => rejection.stopped_at.is_some(),
        _ => false,
    }
}

// Returns where the header and each section end in checked bytes that begin at this offset of the stream.
fn ends_in(alloc: Global, checked: &[u8], start: u64) -> Result<Vec<u64>, AllocError> {
    let mut ends = Vec::new(alloc);
    let mut rest = checked;
    if start == 0 {
        let Ok((_, sections)) = read_header(alloc, checked) else {
            return Ok(ends);
        };
        rest = sections;
        ends.push(end_before(checked, rest, start))?;
    }
    for _ in 0..checked.len() {
        let Ok((_, after)) = read_section(rest.len(), rest) else {
            break;
        };
        rest = after;
        ends.push(end_before(checked, rest, start))?;
    }
    Ok(ends)
}

// Returns where, in the stream, the last bytes of some begin, which begin at this offset of it.
fn end_before(bytes: &[u8], last: &[u8], start: u64) -> u64 {
    start.saturating_add(bytes.len().saturating_sub(last.len()) as u64)
}

// Returns how a stream of so many bytes ended, which begins with these. Its paths have to be at their ends.
fn finished(
    request: &Request<'_>,
    counts: Result<Counts, StreamFault>,
    paths: &PathWatch<'_>,
    bytes: u64,
    front: &[u8],
) -> Result<Counts, Ended> {
    let counts = match counts {
        Ok(counts) => counts,
        Err(fault) => return Err(ended_by(request, &fault, front)?),
    };
    match paths.finish()? {
        None => Ok(counts),
        Some(stop) => {
            let rejection = Rejection::of_path(request.alloc, bytes, stop)?;
            Err(Ended::Rejected(rejection))
        }
    }
}

// Returns how a stream that begins with these bytes ends by an error.
fn ended_by(request: &Request<'_>, fault: &StreamFault, front: &[u8]) -> Result<Ended, AllocError> {
    let alloc = request.alloc;
    if let StreamReason::Archive(ArchiveReason::Header(kind)) = &fault.reason
        && *kind != CarKind::Memory
        && !(*kind == CarKind::Truncated && is_cut_header(request, front)?)
    {
        let is = what_it_is(front);
        return Ok(Ended::NoCar(format!(in alloc; "{kind} at 0: {is}")?));
    }
    if let StreamReason::HeaderLength(length) = &fault.reason {
        return Ok(Ended::NoCar(format!(in alloc;
            "header at 0: a header of {length} bytes, and a CARv1 file has at most 32 MiB"
        )?));
    }
    match Rejection::of(alloc, fault)? {
        Some(rejection) => Ok(Ended::Rejected(rejection)),
        None => Ok(Ended::Memory),
    }
}

// Returns what a stream that begins with these bytes is, in words.
fn what_it_is(front: &[u8]) -> &'static str {
    match kind_of(front) {
        Kind::Car2 => "a CARv2 file; a stream is the CARv1 in it",
        kind => words_of(kind),
    }
}

// Returns whether a stream that ended within its header began with that of a CARv1 file.
fn is_cut_header(request: &Request<'_>, front: &[u8]) -> Result<bool, AllocError> {
    if front.is_empty() {
        return Ok(false);
    }
    if header_of(request.alloc, request.job.roots())?.starts_with(front) {
        return Ok(true);
    }
    match read_varint(front) {
        Ok((_, size)) => {
            let (_, header) = front.split_at(size.min(front.len()));
            let is_long = header.starts_with(HEADER_BEGINNING);
            Ok(is_long || !header.is_empty() && HEADER_BEGINNING.starts_with(header))
        }
        Err(_) => Ok(false),
    }
}
