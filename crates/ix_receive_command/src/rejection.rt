//! Why a stream is rejected.

use crate::visit_paths::StopPlace;
use ix_check::Verdict;
use ix_cid::Cid;
use ix_cli_io::{ErrorCode, Stop};
use ix_load::{at_root, code_of_verdict};
use ix_own_archive::{ArchiveReason, ReceiveFault, StreamFault, StreamReason};
use ix_sections::CarKind;
use std::alloc::{AllocError, Global};

/// Why a stream is rejected, and where.
#[derive(Drop)]
pub(crate) struct Rejection {
    /// The offset in the stream: 0 for the header, where its length begins for a section, or the end.
    pub place: u64,
    /// Why, in a word.
    pub reason: String,
    /// The CID of the section there, and of the block that is expected in its place, if they are known.
    pub cid: Option<String>,
    pub expected: Option<String>,
    /// The CID of what is there or is expected there, at whose visit the stream stopped, if it has one.
    pub stopped_at: Option<Cid>,
    /// What it is, for the object of an error, and the CID and the path where a path leads no further.
    pub code: ErrorCode,
    pub about: Option<String>,
    pub path: Option<String>,
    // What is added to the line after the place.
    detail: String,
    // The whole line, if it is that of a path.
    line: Option<String>,
}

impl Rejection {
    /// Makes the rejection for an error of a stream. Returns None if that is that memory ran out.
    pub(crate) fn of(alloc: Global, fault: &StreamFault) -> Result<Option<Rejection>, AllocError> {
        let place = fault.place;
        match &fault.reason {
            StreamReason::Archive(reason) => archive_rejection(alloc, place, reason),
            StreamReason::SectionLength(length) => {
                let detail = format!(in alloc;
                    "a section of {length} bytes, more than --max-block allows"
                )?;
                Ok(Some(Rejection::by(alloc, place, "length", detail)?))
            }
            // What is no header is no CARv1 file, and no stream that is rejected.
            StreamReason::HeaderLength(_) | StreamReason::Ended => Ok(None),
        }
    }

    /// Makes the rejection for a path that doesn't end in the blocks that came, with what there is instead.
    pub(crate) fn of_path(alloc: Global, place: u64, stop: Stop) -> Result<Rejection, AllocError> {
        let Stop {
            code,
            line,
            cid,
            path,
            ..
        } = at_root(alloc, stop)?;
        let mut rejection = Rejection::by(alloc, place, "path", String::new(alloc))?;
        rejection.line = Some(line);
        rejection.code = code;
        rejection.about = cid;
        rejection.path = path;
        Ok(rejection)
    }

    // Makes a rejection with this word and this detail.
    fn by(alloc: Global, place: u64, word: &str, detail: String) -> Result<Rejection, AllocError> {
        Ok(Rejection {
            place,
            reason: String::from_str(alloc, word)?,
            cid: None,
            expected: None,
            stopped_at: None,
            code: ErrorCode::Rejected,
            about: None,
            path: None,
            detail,
            line: None,
        })
    }

    /// Returns the line that is printed, for the stream of this path.
    pub(crate) fn line(&self, alloc: Global, path: &str) -> Result<String, AllocError> {
        if let Some(line) = &self.line {
            return line.clone();
        }
        let (reason, place) = (self.reason.as_str(), self.place);
        let detail = self.detail.as_str();
        format!(in alloc; "{path}: {reason} at {place}: {detail}")
    }

    /// Returns the line of the visit at which the stream stopped, as that of a skip with its path.
    pub(crate) fn visit_line(&self, alloc: Global, stop: &StopPlace) -> Result<String, AllocError> {
        let (visit, path) = (stop.visit, stop.path.as_str());
        let reason = self.reason.as_str();
        let cid = match (&self.expected, &self.cid) {
            (Some(cid), _) | (None, Some(cid)) => cid.as_str(),
            (None, None) => "",
        };
        format!(in alloc; "  {visit} {reason} {cid} {path}")
    }
}

// Makes the rejection for what is wrong with an archive.
fn archive_rejection(
    alloc: Global,
    place: u64,
    reason: &ArchiveReason,
) -> Result<Option<Rejection>, AllocError> {
    let (word, detail) = match reason {
        ArchiveReason::OtherHeader => (
            "header",
            "another header than that of the roots; --any-header accepts any",
        ),
        ArchiveReason::Header(CarKind::Memory)
        | ArchiveReason::Section(CarKind::Memory)
        | ArchiveReason::Memory => return Ok(None),
        ArchiveReason::Header(kind) => return car_rejection(alloc, place, kind, "header"),
        ArchiveReason::Section(kind) => return car_rejection(alloc, place, kind, "section"),
        ArchiveReason::Refused(cid, fault) => return refusal(alloc, place, fault, Some(cid)),
        ArchiveReason::Unfinished(fault) => return refusal(alloc, place, fault, None),
    };
    let detail = String::from_str(alloc, detail)?;
    Ok(Some(Rejection::by(alloc, place, word, detail)?))
}

// Makes the rejection for a header or a section that can't be read.
fn car_rejection(
    alloc: Global,
    place: u64,
    kind: &CarKind,
    part: &str,
) -> Result<Option<Rejection>, AllocError> {
    let word = format!(in alloc; "{kind}")?;
    let detail = match kind {
        CarKind::Truncated => format!(in alloc; "the stream ends within a {part}")?,
        CarKind::Varint => format!(in alloc; "not the length of a {part}")?,
        CarKind::SectionCid => format!(in alloc; "the section doesn't begin with a CID")?,
        _ => format!(in alloc; "not the {part} of a CARv1 file")?,
    };
    Ok(Some(Rejection::by(alloc, place, word.as_str(), detail)?))
}

// Makes the rejection for a section with this CID, or for the end, that a receiver refuses.
fn refusal(
    alloc: Global,
    place: u64,
    fault: &ReceiveFault,
    section: Option<&Cid>,
) -> Result<Option<Rejection>, AllocError> {
    let cid = match section {
        Some(cid) => Some(cid.text(alloc)?),
        None => None,
    };
    let (word, after) = match fault {
        ReceiveFault::Unsound(verdict) => (format!(in alloc; "{verdict}")?, ""),
        ReceiveFault::InBase => (
            String::from_str(alloc, "known")?,
            ": a file of --with has it",
        ),
        ReceiveFault::Repeated => (
            String::from_str(alloc, "repeated")?,
            ": it came before; ask for dups=n",
        ),
        ReceiveFault::OutOfOrder => (
            String::from_str(alloc, "order")?,
            ": it was missing where it was expected first",
        ),
        ReceiveFault::NotAskedFor => (String::from_str(alloc, "surplus")?, ": it isn't asked for"),
        ReceiveFault::Missing(expected) => return missing(alloc, place, expected, cid),
        ReceiveFault::Root(root, verdict) => return bad_root(alloc, place, root, *verdict),
        ReceiveFault::Limit => (
            String::from_str(alloc, "limit")?,
            ": more links than --limit allows",
        ),
        ReceiveFault::Ended | ReceiveFault::Memory => return Ok(None),
    };
    let at = match &cid {
        Some(cid) => cid.as_str(),
        None => "the end",
    };
    let detail = format!(in alloc; "{at}{after}")?;
    let mut rejection = Rejection::by(alloc, place, word.as_str(), detail)?;
    rejection.cid = cid;
    if let ReceiveFault::Unsound(verdict) = fault {
        rejection.code = code_of_verdict(*verdict);
    }
    if let Some(section) = section {
        rejection.stopped_at = Some(section.try_clone(alloc)?);
    }
    Ok(Some(rejection))
}

// Makes the rejection for a root that can't be exported, with this verdict.
fn bad_root(
    alloc: Global,
    place: u64,
    root: &Cid,
    verdict: Verdict,
) -> Result<Option<Rejection>, AllocError> {
    let word = format!(in alloc; "{verdict}")?;
    let cid = root.text(alloc)?;
    let why = match verdict {
        Verdict::Codec => "its codec is neither raw nor DAG-CBOR",
        Verdict::Hash => "its hash is neither SHA-256, SHA-512 nor identity",
        _ => "its inline bytes aren't DAG-CBOR",
    };
    let detail = format!(in alloc; "the root {}: {why}", cid.as_str())?;
    let mut rejection = Rejection::by(alloc, place, word.as_str(), detail)?;
    rejection.cid = Some(cid);
    rejection.code = code_of_verdict(verdict);
    rejection.stopped_at = Some(root.try_clone(alloc)?);
    Ok(Some(rejection))
}

// Makes the rejection for a block that is missing where a section with another CID, or the end, is.
fn missing(
    alloc: Global,
    place: u64,
    expected: &Cid,
    cid: Option<String>,
) -> Result<Option<Rejection>, AllocError> {
    let stopped_at = expected.try_clone(alloc)?;
    let expected = expected.text(alloc)?;
    let wanted = expected.as_str();
    let detail = match &cid {
        Some(cid) => {
            let came = cid.as_str();
            format!(in alloc; "expected {wanted}, and {came} came")?
        }
        None => format!(in alloc; "expected {wanted}, and the stream ends")?,
    };
    let mut rejection = Rejection::by(alloc, place, "missing", detail)?;
    rejection.cid = cid;
    rejection.expected = Some(expected);
    rejection.code = ErrorCode::Missing;
    rejection.stopped_at = Some(stopped_at);
    Ok(Some(rejection))
}
