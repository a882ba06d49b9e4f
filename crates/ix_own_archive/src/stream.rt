//! The receiver of an archive as a stream.

ghost use Rattle.std.specs.Prelude.{◌≡◌, false, [], length, drop, IfOk, IfErr, OnOk};
ghost use Rattle.ix_known.specs.Known.{known_blocks, known_blocks_of};
ghost use Rattle.ix_receive.specs.Reception.{nothing_received_with};
ghost use Rattle.ix_own_archive.specs.Streaming.{nothing_taken, TakesOn, StopsAt, IsStoppedAt, Takes, IsWholeStream, taken_of, IsCutAt, AreKeptOf};

use crate::stream_ahead::{ByThreads, InTurn, Judge};
use crate::stream_asked::{ExpectedHeader, StreamLimits};
use crate::stream_bytes::StreamBytes;
use crate::stream_fault::{StreamFault, StreamReason};
use crate::stream_parts::{end_stream, take_piece};
use crate::stream_request::StreamRequest;
use ix_receive::{Counts, Receiver};
use ix_sections::header_of;
use ix_store::Store;
use ix_verdict::AllowMissing;
use ix_walk::Job;
use std::alloc::{AllocError, Global};
use std::marker::Model;
use std::num::NonZeroUsize;
use std::thread::Threads;

/// A receiver of the bytes of an archive, in pieces of any size: it checks that they are the own
/// archive of a job, as `check_archive` does, and at each section as soon as it is whole.
///
/// It keeps the bytes that are not checked, those that were not released, and what a `Receiver` keeps.
pub struct StreamReceiver<'s> {
    request: StreamRequest<'s>,
    receiver: Receiver<'s>,
    bytes: StreamBytes,
    ended: bool,
}

// Written by hand: a derived drop is inlined in each function that drops one, at each of its exits.
impl<'s> Drop for StreamReceiver<'s> {
    fn drop(self) {
        let StreamReceiver {
            request,
            receiver,
            bytes,
            ended: _,
        } = self;
        drop(request);
        drop(receiver);
        drop(bytes);
    }
}

impl<'s> Model for StreamReceiver<'s> {
    ghost use Rattle.ix_own_archive.specs.Streaming.{Stream, coded_stream};

    ghost Value = { Stream };

    ghost coded = { coded_stream };

    ghost use Rattle.ix_own_archive.specs.Requests.{asked_of};
    ghost use Rattle.ix_own_archive.specs.Taking.{stream_of, IsHeld};

    ghost view = { λ s. stream_of (asked_of s.request) s.bytes s.ended };

    ghost invariant = { λ s. IsHeld (asked_of s.request) s.bytes s.receiver s.ended };
}

// Creates a receiver that has received nothing, with a base if there is one.
fn receiver_with<'s>(
    alloc: Global,
    job: &'s Job,
    allowed: AllowMissing,
    base: Option<&'s Store>,
) -> Receiver<'s>
    ensures { result ≡ nothing_received_with (known_blocks_of base.entry) job.now allowed }
{
    match base {
        Some(base) => Receiver::with_base(alloc, job, allowed, base),
        None => Receiver::new(alloc, job, allowed),
    }
}

impl<'s> StreamReceiver<'s> {
    /// Creates a receiver of an archive of a job, which has taken nothing. Blocks may be missing as
    /// `allowed` says.
    pub fn new(
        alloc: Global,
        job: &'s Job,
        allowed: AllowMissing,
        header: ExpectedHeader,
        limits: StreamLimits,
    ) -> Result<StreamReceiver<'s>, AllocError>
        ensures { IfOk result (λ s. s ≡ nothing_taken
            (record { base = []; job = job.now; allowed = allowed; header = header; limits = limits })) }
    {
        StreamReceiver::over(alloc, job, None, allowed, header, limits)
    }

    /// Creates a receiver that has a base: the blocks of a store whose first copy is sound. The archive is the
    /// difference, without them.
    pub fn with_base(
        alloc: Global,
        job: &'s Job,
        base: &'s Store,
        allowed: AllowMissing,
        header: ExpectedHeader,
        limits: StreamLimits,
    ) -> Result<StreamReceiver<'s>, AllocError>
        ensures { IfOk result (λ s. s ≡ nothing_taken (record {
          base = known_blocks base.now;
          job = job.now;
          allowed = allowed;
          header = header;
          limits = limits;
        })) }
    {
        StreamReceiver::over(alloc, job, Some(base), allowed, header, limits)
    }

    // Creates a receiver, of which the blocks of a base are known if there is one.
    fn over(
        alloc: Global,
        job: &'s Job,
        base: Option<&'s Store>,
        allowed: AllowMissing,
        header: ExpectedHeader,
        limits: StreamLimits,
    ) -> Result<StreamReceiver<'s>, AllocError>
        ensures { IfOk result (λ s. s ≡ nothing_taken (record {
          base = known_blocks_of base.entry;
          job = job.now;
          allowed = allowed;
          header = header;
          limits = limits;
        })) }
    {
        let jobs_header = header_of(alloc, job.roots())?;
        Ok(StreamReceiver {
            request: StreamRequest {
                alloc,
                job,
                base,
                allowed,
                header,
                limits,
                jobs_header,
            },
            receiver: receiver_with(alloc, job, allowed, base),
            bytes: StreamBytes::new(alloc),
            ended: false,
        })
    }

    /// Takes the next bytes, and checks the header and each section that they complete. After an error
    /// nothing more is taken.
    ///
    /// A fault is found as soon as what has come shows it, whatever follows: a length that is above its
    /// limit or isn't a varint at the length, anything else at the end of the header or section. Memory
    /// also runs out at 2^63 bytes.
    pub fn append(&mut self, piece: &[u8]) -> Result<(), StreamFault>
        ensures taken { OnOk result (TakesOn self.old piece.now self.new) }
        ensures stops { IfErr result (λ e. StopsAt self.old self.new e.place) }
        ensures fault { IfErr result (λ e. IsStoppedAt self.old piece.now e.place e.reason) }
    {
        self.take(piece, &InTurn)
    }

    /// Takes the next bytes as `append` does. At most so many threads hash the sections that they complete,
    /// at the same time, and each takes at least 64 KiB of them.
    pub fn append_by<R: Threads + Sync>(
        &mut self,
        rt: &R,
        piece: &[u8],
        threads: NonZeroUsize,
    ) -> Result<(), StreamFault>
        ensures taken { OnOk result (TakesOn self.old piece.now self.new) }
        ensures stops { IfErr result (λ e. StopsAt self.old self.new e.place) }
        ensures fault { IfErr result (λ e. IsStoppedAt self.old piece.now e.place e.reason) }
    {
        self.take(piece, &ByThreads { rt, threads })
    }

    // Takes the next bytes. The judge judges sections before they are taken.
    fn take<J: Judge>(&mut self, piece: &[u8], judge: &J) -> Result<(), StreamFault>
        requires { J.ready judge.now }
        ensures { Takes self.old piece.now self.new result }
    {
        if self.ended {
            return Err(StreamFault {
                place: self.bytes.place(),
                reason: StreamReason::Ended,
            });
        }
        self.ended = true;
        match take_piece(
            &self.request,
            &mut self.receiver,
            &mut self.bytes,
            piece,
            judge,
        ) {
            Ok(()) => {
                self.ended = false;
                Ok(())
            }
            Err(reason) => Err(StreamFault {
                place: self.bytes.place(),
                reason,
            }),
        }
    }

    /// The bytes that are checked and were not released: the header and whole sections. After an error
    /// they are those before its place.
    pub fn checked(&self) -> &[u8]
        ensures { result.now ≡ drop self.now.released self.now.checked }
    {
        self.bytes.checked()
    }

    /// Releases the bytes that are checked.
    pub fn release(&mut self)
        ensures { self.new ≡ record self.old { released = length self.old.checked } }
    {
        self.bytes.release();
    }

    /// How many sections are checked.
    pub fn sections(&self) -> u64
        ensures { result ≡ self.now.sections }
    {
        self.bytes.parts().saturating_sub(1)
    }

    /// Ends the stream, of which nothing more is checked then. If it succeeds, its bytes are the own
    /// archive of the job, each root is sound or inline, and no block is missing that may not be. It fails
    /// if the stream ends within its header or a section, or if the receiver refuses the end.
    pub fn finish(self) -> Result<Counts, StreamFault>
        ensures going { OnOk result (self.entry.ended ≡ false) }
        ensures whole { IfOk result (IsWholeStream self.entry.asked (taken_of self.entry)) }
        ensures fault { IfErr result (λ e. IsCutAt self.entry e.place e.reason) }
    {
        let (counts, _) = self.finish_kept();
        counts
    }

    /// Ends the stream as `finish` does, and returns what is kept of the sections that are checked: the
    /// blocks that are DAG-CBOR, and of every other section its CID, with no bytes. After an error of
    /// `append` it isn't promised which sections that are.
    pub fn finish_kept(self) -> (Result<Counts, StreamFault>, Store)
        ensures going { OnOk result.0 (self.entry.ended ≡ false) }
        ensures whole { IfOk result.0 (IsWholeStream self.entry.asked (taken_of self.entry)) }
        ensures fault { IfErr result.0 (λ e. IsCutAt self.entry e.place e.reason) }
        ensures kept { self.entry.ended ≡ false → AreKeptOf self.entry.asked self.entry.checked result.1 }
    {
        let StreamReceiver {
            request,
            mut receiver,
            bytes,
            ended,
        } = self;
        let place = bytes.place();
        if ended {
            let reason = StreamReason::Ended;
            return (Err(StreamFault { place, reason }), receiver.into_kept());
        }
        match end_stream(&request, &mut receiver, &bytes) {
            Ok(counts) => (Ok(counts), receiver.into_kept()),
            Err(reason) => {
                let reason = StreamReason::Archive(reason);
                (Err(StreamFault { place, reason }), receiver.into_kept())
            }
        }
    }
}
