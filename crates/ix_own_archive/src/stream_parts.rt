//! The parts of a stream, checked once they are whole.

ghost use Rattle.std.specs.Prelude.{◌≡◌, true, [], ◌++◌, length, IfOk, IfErr, IfSome, OnOk, OnErr};
ghost use Rattle.ix_own_archive.specs.Ahead.{IsFrontVerdict, AreJudgedIn};
ghost use Rattle.ix_own_archive.specs.Fronts.{is_whole};
ghost use Rattle.ix_own_archive.specs.Requests.{asked_of};
ghost use Rattle.ix_own_archive.specs.declared.stream_fault.StreamReason.TheVariants.{Archive};
ghost use Rattle.ix_own_archive.specs.Streaming.{IsWholeStream, IsStop};
ghost use Rattle.ix_own_archive.specs.Taking.{IsAnyHeader, CantBeRead, IsHeaderAt, StaysWrong, IsHeadTaken};
ghost use Rattle.ix_own_archive.specs.Taking.{IsNext, IsNotNext, HasChecked, IsKept, MovesOn};
ghost use Rattle.ix_own_archive.specs.Taking.{StopsHere, TakesPiece, StopsAtPiece};

use crate::check::{header_reason, receive_section, roots_are_cids};
use crate::fault::ArchiveReason;
use crate::stream_ahead::{Judge, Judged, known_at};
use crate::stream_asked::ExpectedHeader;
use crate::stream_bytes::StreamBytes;
use crate::stream_fault::StreamReason;
use crate::stream_request::StreamRequest;
use ix_cid::{VarintFault, read_varint};
use ix_receive::{Counts, Receiver, law};
use ix_sections::{CarFault, CarKind, read_header};
use ix_verdict::Verdict;
use std::alloc::Global;

// Whether the bytes at the front with their length before them are all there, or their length if it is
// above the limit. It is also true if the length isn't a varint.
fn is_whole(limit: usize, bytes: &[u8]) -> Result<bool, u64>
    ensures { result ≡ is_whole limit bytes.now }
{
    match read_varint(bytes) {
        Ok((length, size)) => {
            if length > limit as u64 {
                return Err(length);
            }
            Ok(length <= (bytes.len() - size) as u64)
        }
        Err(VarintFault::Truncated) => Ok(false),
        Err(VarintFault::TooLong | VarintFault::NotMinimal) => Ok(true),
    }
}

// Returns the length of the header at the front, which is whole, or what is wrong with it.
fn header_length(request: &StreamRequest<'_>, bytes: &[u8]) -> Result<usize, ArchiveReason>
    requires { is_whole request.now.limits.header bytes.now ≡ Ok true }
    ensures length { IfOk result (IsHeaderAt (asked_of request.now) bytes.now) }
    ensures wrong { IfErr result (StaysWrong (asked_of request.now) bytes.now) }
{
    match request.header {
        ExpectedHeader::OfJob => match bytes.strip_prefix(request.jobs_header.as_slice()) {
            Some(rest) => Ok(bytes.len() - rest.len()),
            None => Err(header_reason(request.alloc, bytes)),
        },
        ExpectedHeader::Any => any_header_length(request.alloc, bytes),
    }
}

// The same of any header.
fn any_header_length(alloc: Global, bytes: &[u8]) -> Result<usize, ArchiveReason>
    ensures length { IfOk result (IsAnyHeader bytes.now) }
    ensures wrong { IfErr result (CantBeRead bytes.now) }
{
    match read_header(alloc, bytes) {
        Ok((_, rest)) => Ok(bytes.len() - rest.len()),
        Err(
            CarFault {
                kind: CarKind::Memory,
                place: _,
            },
        ) => Err(ArchiveReason::Memory),
        Err(fault) => Err(ArchiveReason::Header(fault.kind)),
    }
}

// Checks the header if it is whole, and says whether it is.
fn take_header(request: &StreamRequest<'_>, bytes: &mut StreamBytes) -> Result<bool, StreamReason>
    requires checked { bytes.old.checked ≡ [] }
    requires first { bytes.old.parts ≡ 0 }
    ensures found { IfOk result (IsHeadTaken (asked_of request.now) bytes.old bytes.new) }
    ensures same { OnErr result (bytes.new ≡ bytes.old) }
    ensures stops { IfErr result (StopsHere (asked_of request.now) bytes.new) }
{
    let rest = bytes.rest();
    match is_whole(request.limits.header, rest) {
        Ok(false) => Ok(false),
        Ok(true) => match header_length(request, rest) {
            Ok(length) => {
                bytes.advance(length);
                Ok(true)
            }
            Err(reason) => Err(StreamReason::Archive(reason)),
        },
        Err(length) => Err(StreamReason::HeaderLength(length)),
    }
}

// Offers the section at the front to a receiver, if it is whole, and returns how many bytes it takes. The
// verdict on it may be known.
fn next_section(
    alloc: Global,
    limit: usize,
    receiver: &mut Receiver<'_>,
    bytes: &[u8],
    known: Option<Verdict>,
) -> Result<Option<usize>, StreamReason>
    requires { IfSome known (IsFrontVerdict bytes.now) }
    ensures next { IfOk result (IsNext limit bytes.now receiver.old receiver.new) }
    ensures refused { IfErr result (IsNotNext limit bytes.now receiver.old) }
{
    match is_whole(limit, bytes) {
        Ok(false) => Ok(None),
        Ok(true) => match receive_section(alloc, receiver, bytes, known) {
            Ok(rest) => Ok(Some(bytes.len() - rest.len())),
            Err(refused) => Err(StreamReason::Archive(refused)),
        },
        Err(length) => Err(StreamReason::SectionLength(length)),
    }
}

// Checks the sections that are whole, of which some were judged.
fn take_sections(
    request: &StreamRequest<'_>,
    receiver: &mut Receiver<'_>,
    bytes: &mut StreamBytes,
    judged: &[Judged],
) -> Result<(), StreamReason>
    requires checked { HasChecked (asked_of request.now) bytes.old receiver.old }
    requires judged { AreJudgedIn bytes.old.rest judged.now }
    ensures moved { MovesOn bytes.old bytes.new }
    ensures kept { OnOk result (IsKept (asked_of request.now) bytes.new receiver.new) }
    ensures stops { IfErr result (StopsHere (asked_of request.now) bytes.new) }
{
    law::received_one_by_one();
    let size = bytes.rest().len();
    let mut number: usize = 0;
    loop {
        let limit = request.limits.section;
        let rest = bytes.rest();
        let known = known_at(judged, number, size.saturating_sub(rest.len()));
        number = number.saturating_add(1);
        match next_section(request.alloc, limit, receiver, rest, known) {
            Ok(None) => return Ok(()),
            Ok(Some(length)) => bytes.advance(length),
            Err(reason) => {
                roots_are_cids(request.job.roots());
                return Err(reason);
            }
        }
    }
}

// Takes the next bytes, and checks the parts that they complete.
pub(crate) fn take_piece<J: Judge>(
    request: &StreamRequest<'_>,
    receiver: &mut Receiver<'_>,
    bytes: &mut StreamBytes,
    piece: &[u8],
    judge: &J,
) -> Result<(), StreamReason>
    requires ready { J.ready judge.now }
    requires kept { IsKept (asked_of request.now) bytes.old receiver.old }
    ensures taken { OnOk result (TakesPiece (asked_of request.now) bytes.old piece.now bytes.new receiver.new) }
    ensures stops { IfErr result (StopsAtPiece (asked_of request.now) bytes.old piece.now bytes.new) }
{
    let Ok(()) = bytes.push(piece) else {
        return Err(StreamReason::Archive(ArchiveReason::Memory));
    };
    let (alloc, limit) = (request.alloc, request.limits.section);
    if bytes.parts() > 0 {
        let judged = judge.judge(alloc, limit, bytes.rest());
        return take_sections(request, receiver, bytes, judged.as_slice());
    }
    match take_header(request, bytes) {
        Ok(false) => Ok(()),
        Ok(true) => {
            let judged = judge.judge(alloc, limit, bytes.rest());
            take_sections(request, receiver, bytes, judged.as_slice())
        }
        Err(reason) => Err(reason),
    }
}

// Ends a stream. A receiver keeps its sections.
pub(crate) fn end_stream(
    request: &StreamRequest<'_>,
    receiver: &mut Receiver<'_>,
    bytes: &StreamBytes,
) -> Result<Counts, ArchiveReason>
    requires { IsKept (asked_of request.now) bytes.now receiver.old }
    ensures sections { receiver.new.sections ≡ receiver.old.sections }
    ensures whole { IfOk result (IsWholeStream (asked_of request.now) (bytes.now.checked ++ bytes.now.rest)) }
    ensures cut { IfErr result (λ reason. IsStop (asked_of request.now)
        (bytes.now.checked ++ bytes.now.rest) (length bytes.now.checked) (Archive reason)) }
{
    let rest = bytes.rest();
    if bytes.parts() == 0 {
        return Err(ArchiveReason::Header(CarKind::Truncated));
    }
    law::received_one_by_one();
    roots_are_cids(request.job.roots());
    if !rest.is_empty() {
        return Err(ArchiveReason::Section(CarKind::Truncated));
    }
    match receiver.close() {
        Ok(counts) => Ok(counts),
        Err(fault) => Err(ArchiveReason::Unfinished(fault)),
    }
}
