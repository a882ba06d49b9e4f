//! The lines for blocks that aren't sound, with the cause of those that are malformed.

use ix_cid::Cid;
use ix_cli_io::{ErrorCode, Stop};
use ix_path::{cause_word, malformed_fault};
use ix_store::Store;
use ix_verdict::Verdict;
use std::alloc::{AllocError, Global};

/// Makes the line for a CID whose verdict in a store isn't sound. Of bytes that are malformed it has the
/// first error and its offset in them.
pub fn verdict_line(
    alloc: Global,
    store: &Store,
    verdict: Verdict,
    cid: &Cid,
) -> Result<String, AllocError> {
    let text = cid.text(alloc)?;
    match malformed_fault(store, cid) {
        Some(fault) if verdict == Verdict::Malformed => {
            let (cause, place) = (cause_word(fault.kind), fault.place);
            format!(in alloc; "{verdict} {text}: {cause} at {place}")
        }
        _ => format!(in alloc; "{verdict} {text}"),
    }
}

/// Makes the stop for a CID whose verdict in a store isn't sound, with that line.
pub fn verdict_stop(
    alloc: Global,
    store: &Store,
    verdict: Verdict,
    cid: &Cid,
) -> Result<Stop, AllocError> {
    let mut stop = Stop::new(
        code_of_verdict(verdict),
        verdict_line(alloc, store, verdict, cid)?,
    );
    stop.cid = Some(cid.text(alloc)?);
    Ok(stop)
}

/// Returns what a verdict on a CID that can't be read is in a word.
pub fn code_of_verdict(verdict: Verdict) -> ErrorCode {
    match verdict {
        Verdict::Codec => ErrorCode::Codec,
        Verdict::Hash => ErrorCode::Hash,
        Verdict::Damaged => ErrorCode::Damaged,
        Verdict::Malformed => ErrorCode::Malformed,
        // A sound or inline block is no obstacle.
        Verdict::Missing | Verdict::Sound | Verdict::Inline => ErrorCode::Missing,
    }
}
