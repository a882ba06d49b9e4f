//! The bytes of an archive: its header, the heads of its sections, and how bytes are written.

ghost use Rattle.std.specs.Prelude.{◌≡◌, ◌≤◌, ◌+◌, ◌++◌, length, take, IfOk, OnOk};
ghost use Rattle.std.specs.Io.KnownBytes.{Appends};
ghost use Rattle.ix_cid.specs.Varint.{varint_of};
ghost use Rattle.ix_cbor.specs.Spelling.{spelling_of};
ghost use Rattle.ix_cbor.specs.Data.{list};
ghost use Rattle.ix_sections.specs.Writing.{links_to, header_data, header_of};

use ix_cbor::{Major, push_head, push_link};
use ix_cid::{Cid, push_varint};
use std::alloc::{AllocError, Global};
use std::io::Write;

/// Returns the header that names these roots, with its length before it.
pub fn header_of(alloc: Global, roots: &[Cid]) -> Result<Vec<u8>, AllocError>
    ensures { IfOk result (λ header. header.items ≡ header_of roots.now) }
{
    let text = header_text(alloc, roots)?;
    let mut header = Vec::new(alloc);
    push_varint(&mut header, text.len() as u64)?;
    header.extend_from_slice(text.as_slice())?;
    Ok(header)
}

// Returns the DAG-CBOR of a header: `roots` with a link to each, and the `version` 1.
fn header_text(alloc: Global, roots: &[Cid]) -> Result<Vec<u8>, AllocError>
    ensures { IfOk result (λ text. text.items ≡ spelling_of (header_data roots.now)) }
{
    let mut text = Vec::new(alloc);
    text.extend_from_slice(b"\xa2\x65roots")?;
    push_links(&mut text, roots)?;
    text.extend_from_slice(b"\x67version\x01")?;
    Ok(text)
}

// Appends the DAG-CBOR of a list of links.
fn push_links(out: &mut Vec<u8>, cids: &[Cid]) -> Result<(), AllocError>
    ensures { OnOk result (out.new.items ≡ out.old.items ++ spelling_of (list (links_to cids.now))) }
{
    push_head(out, Major::List, cids.len() as u64)?;
    for cid in cids {
        push_link(out, cid.as_bytes())?;
    }
    Ok(())
}

/// Replaces the text by what is before a section's block: the length of CID and block together, and
/// the CID.
pub fn set_section_head(text: &mut Vec<u8>, cid: &Cid, block: &[u8]) -> Result<(), AllocError>
    ensures { OnOk result (text.new.items ≡ varint_of (length (cid.now ++ block.now)) ++ cid.now) }
{
    let cid = cid.as_bytes();
    let length = cid.len() as u64 + block.len() as u64;
    // No vector has room for more.
    if length > i64::MAX as u64 {
        return Err(AllocError);
    }
    text.clear();
    push_varint(text, length)?;
    text.extend_from_slice(cid)
}

/// Writes a section, and returns how many of its bytes the writer took.
pub fn write_section<W: Write>(writer: &mut W, head: &[u8], block: &[u8]) -> usize
    ensures within { result ≤ length head.now + length block.now }
    ensures grown { Appends (W.contents writer.old) (W.contents writer.new)
        (take result (head.now ++ block.now)) }
{
    let taken = write_text(writer, head);
    if taken < head.len() {
        return taken;
    }
    taken + write_text(writer, block)
}

/// Writes bytes from their start, and returns how many of them the writer took. It stops at a write
/// that fails, for whatever reason, and at one that takes no byte.
pub fn write_text<W: Write>(writer: &mut W, text: &[u8]) -> usize
    ensures within { result ≤ length text.now }
    ensures grown { Appends (W.contents writer.old) (W.contents writer.new) (take result text.now) }
{
    let mut taken = 0;
    while taken < text.len() {
        match writer.write(&text[taken..]) {
            Ok(0) | Err(_) => return taken,
            Ok(count) => taken += count,
        }
    }
    taken
}
