//! The CIDs of a have-list.

ghost use Rattle.std.specs.Prelude.{◌≡◌, Ok, IfOk, IfErr};
ghost use Rattle.std.specs.Str.Lines.{strip_carriage_return};
ghost use Rattle.ix_cid.specs.Results.{Reads};
ghost use Rattle.ix_jobs.specs.Jobs.{is_ignored, is_text};
ghost use Rattle.ix_jobs.specs.HaveList.{text_in, cid_in, line_cid, with_file_line, cids_of};
ghost use Rattle.ix_jobs.specs.GivesList.{Gives, IsFaultOf};

use crate::list_fault::{ListErrorKind, ListFault};
use crate::split_line;
use ix_cid::{Cid, CidFault};
use std::alloc::Global;
use std::str;

/// Returns the CIDs of a have-list, in order, or its first error.
pub fn listed_cids(alloc: Global, bytes: &[u8]) -> Result<Vec<Cid>, ListFault>
    ensures cids { IfOk result (λ cids. cids_of bytes.now ≡ Ok cids.items) }
    ensures fault { IfErr result (λ fault. IsFaultOf fault (cids_of bytes.now)) }
{
    let mut cids = Vec::new(alloc);
    let mut rest = bytes;
    let mut number = 0;
    while !rest.is_empty() {
        let (line, after) = split_line(rest);
        number += 1;
        if let Err(kind) = push_line(alloc, &mut cids, line) {
            return Err(ListFault { kind, line: number });
        }
        rest = after;
    }
    Ok(cids)
}

// Appends the CID of a line, unless the line is ignored.
fn push_line(alloc: Global, cids: &mut Vec<Cid>, line: &[u8]) -> Result<(), ListErrorKind>
    ensures { Gives (λ _. cids.new.items) result (with_file_line cids.old.items line.now) }
{
    let line = without_return(line);
    if is_ignored(line) {
        return Ok(());
    }
    let cid = line_cid(alloc, line)?;
    cids.push(cid)?;
    Ok(())
}

// Returns a line without one carriage return at its end.
fn without_return(line: &[u8]) -> &[u8]
    ensures { result.now ≡ strip_carriage_return line.now }
{
    match line.split_last() {
        Some((b'\r', front)) => front,
        _ => line,
    }
}

// Returns whether a line, without its carriage return, is empty or a comment.
fn is_ignored(line: &[u8]) -> bool
    ensures { result ≡ is_ignored line.now }
{
    matches!(line.first(), None | Some(b'#'))
}

// Returns the CID of a line that isn't ignored.
fn line_cid(alloc: Global, line: &[u8]) -> Result<Cid, ListErrorKind>
    ensures { Gives (λ cid. cid) result (line_cid line.now) }
{
    let text = text_in(line)?;
    cid_in(alloc, text)
}

// Returns the text of a line if all its bytes are printable.
fn text_in(line: &[u8]) -> Result<&str, ListErrorKind>
    ensures { Reads (λ text. text.now) result (text_in line.now) }
{
    if !is_text(line) {
        return Err(ListErrorKind::Text);
    }
    match str::from_utf8(line) {
        Ok(text) => Ok(text),
        Err(_) => Err(ListErrorKind::Text),
    }
}

// Returns whether each byte is printable.
fn is_text(line: &[u8]) -> bool
    ensures { result ≡ is_text line.now }
{
    line.iter().all(|byte| matches!(*byte, b' '..=b'~'))
}

// Parses the text of a CIDv1.
fn cid_in(alloc: Global, text: &str) -> Result<Cid, ListErrorKind>
    ensures { Gives (λ cid. cid) result (cid_in text.now) }
{
    match Cid::from_text(alloc, text) {
        Ok(cid) => Ok(cid),
        Err(CidFault::Memory) => Err(ListErrorKind::Memory),
        Err(_) => Err(ListErrorKind::Cid),
    }
}
