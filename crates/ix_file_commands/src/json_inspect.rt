//! What the command `inspect` prints as JSON.

use crate::json_line::{begin_object, end_object, push_boolean, push_count};
use ix_cid::Cid;
use ix_json_report::{push_cid, push_text};
use ix_sections::{CarFault, Section};
use ix_verify::{Summary, codec_name, hash_name};
use json::Writer;
use std::alloc::{AllocError, Global};

/// A file that was read, but for what its sections are.
#[derive(Drop)]
pub(crate) struct Described<'a> {
    pub path: &'a str,
    /// How many bytes it has.
    pub bytes: usize,
    /// Whether a CARv2 file has an index; None for a CARv1 file.
    pub index: Option<bool>,
    pub roots: Vec<Cid>,
}

/// Returns the object of a file, with how much memory its blocks take.
pub(crate) fn summary_object(
    alloc: Global,
    file: &Described<'_>,
    summary: &Summary,
    memory: usize,
) -> Result<Vec<u8>, AllocError> {
    let mut out = begin_object(alloc)?;
    push_text(&mut out, "file", file.path)?;
    push_version(&mut out, file.index)?;
    push_roots(alloc, &mut out, file.roots.as_slice())?;
    push_count(&mut out, "bytes", file.bytes)?;
    push_count(&mut out, "sections", summary.sections)?;
    push_count(&mut out, "repeated", summary.repeated)?;
    push_codecs(alloc, &mut out, summary)?;
    push_hashes(alloc, &mut out, summary)?;
    push_sizes(&mut out, summary)?;
    push_count(&mut out, "memory", memory)?;
    end_object(out)
}

/// Returns the object of a section that is at an offset of its file.
pub(crate) fn section_object(
    alloc: Global,
    section: &Section<'_>,
    place: usize,
) -> Result<Vec<u8>, AllocError> {
    let cid = section.cid.to_cid(alloc)?;
    let mut out = begin_object(alloc)?;
    push_count(&mut out, "place", place)?;
    push_count(&mut out, "size", section.block.len())?;
    push_cid(alloc, &mut out, &cid)?;
    end_object(out)
}

/// Returns the object of a file that is rejected: its error, and what it is. Of a CARv1 file with an error
/// after its header it has the offset at which that file begins.
pub(crate) fn fault_object(
    alloc: Global,
    path: &str,
    fault: &CarFault,
    is: &str,
    start: Option<usize>,
) -> Result<Vec<u8>, AllocError> {
    let CarFault { kind, place } = *fault;
    let word = format!(in alloc; "{kind}")?;
    let mut out = begin_object(alloc)?;
    push_text(&mut out, "file", path)?;
    push_text(&mut out, "fault", word.as_str())?;
    push_count(&mut out, "place", place)?;
    push_text(&mut out, "is", is)?;
    if let Some(start) = start {
        push_count(&mut out, "start", start)?;
    }
    end_object(out)
}

// Appends the version of a file, and of a CARv2 file whether it has an index.
fn push_version(out: &mut Writer, index: Option<bool>) -> Result<(), AllocError> {
    match index {
        None => push_count(out, "version", 1),
        Some(has_index) => {
            push_count(out, "version", 2)?;
            push_boolean(out, "index", has_index)
        }
    }
}

// Appends the roots.
fn push_roots(alloc: Global, out: &mut Writer, roots: &[Cid]) -> Result<(), AllocError> {
    out.key("roots")?;
    out.begin_array()?;
    for root in roots {
        out.string(root.text(alloc)?.as_str())?;
    }
    out.end_array()
}

// Appends how many sections each codec has.
fn push_codecs(alloc: Global, out: &mut Writer, summary: &Summary) -> Result<(), AllocError> {
    out.key("codecs")?;
    out.begin_object()?;
    for (code, count) in summary.codecs.iter() {
        push_code(alloc, out, codec_name(*code), *code, *count)?;
    }
    out.end_object()
}

// Appends how many sections each hash function has.
fn push_hashes(alloc: Global, out: &mut Writer, summary: &Summary) -> Result<(), AllocError> {
    out.key("hashes")?;
    out.begin_object()?;
    for (code, count) in summary.hashes.iter() {
        push_code(alloc, out, hash_name(*code), *code, *count)?;
    }
    out.end_object()
}

// Appends a count for a code, by its name if it has one.
fn push_code(
    alloc: Global,
    out: &mut Writer,
    name: Option<&'static str>,
    code: u64,
    count: usize,
) -> Result<(), AllocError> {
    match name {
        Some(name) => push_count(out, name, count),
        None => push_count(out, format!(in alloc; "{code:#x}")?.as_str(), count),
    }
}

// Appends the smallest, median and greatest size, if there are sections.
fn push_sizes(out: &mut Writer, summary: &Summary) -> Result<(), AllocError> {
    if let (Some(smallest), Some(median), Some(greatest)) = (
        summary.smallest(),
        summary.median(),
        summary.greatest(),
    ) {
        push_count(out, "smallest", smallest)?;
        push_count(out, "median", median)?;
        push_count(out, "greatest", greatest)?;
    }
    Ok(())
}
