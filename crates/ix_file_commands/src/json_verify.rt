//! What the command `verify` prints as JSON.

use crate::exact::Inexact;
use crate::json_line::{begin_object, end_object, push_boolean, push_count};
use crate::verify_report::{NO_FILE, Report};
use ix_car::Skip;
use ix_cbor::CborFault;
use ix_json_report::{push_cid, push_text, push_verdict};
use ix_path::cause_word;
use ix_verify::Unsound;
use json::Writer;
use std::alloc::{AllocError, Global};

/// Returns the object of a file: what was found, the first findings, and how many more there are.
pub(crate) fn report_object(alloc: Global, report: &Report<'_>) -> Result<Vec<u8>, AllocError> {
    let found = report.found;
    let mut out = begin_object(alloc)?;
    push_text(&mut out, "file", report.path)?;
    push_text(&mut out, "outcome", report.outcome(alloc)?.as_str())?;
    push_count(&mut out, "sections", found.sections)?;
    push_count(&mut out, "bytes", report.bytes)?;
    push_count(&mut out, "unsound", found.unsound.count)?;
    push_count(&mut out, "skips", found.skips.count)?;
    if report.shows_absent {
        push_count(&mut out, "absent", found.absent)?;
    }
    push_findings(alloc, &mut out, report)?;
    push_count(&mut out, "more", report.more())?;
    if found.is_over_limit {
        push_boolean(&mut out, "limit", true)?;
    }
    if let Some(inexact) = report.inexact {
        push_inexact(alloc, &mut out, report.start, inexact)?;
    }
    end_object(out)
}

/// Returns the object of a file that isn't there.
pub(crate) fn no_file_object(alloc: Global, path: &str) -> Result<Vec<u8>, AllocError> {
    let mut out = begin_object(alloc)?;
    push_text(&mut out, "file", path)?;
    push_text(&mut out, "outcome", NO_FILE)?;
    end_object(out)
}

// Appends the findings that are printed.
fn push_findings(alloc: Global, out: &mut Writer, report: &Report<'_>) -> Result<(), AllocError> {
    out.key("findings")?;
    out.begin_array()?;
    for section in &report.found.unsound.first {
        push_section(alloc, out, report, section)?;
    }
    let skips = report.found.skips.first.iter();
    for (number, skip) in skips.enumerate().take(report.links()) {
        push_link(alloc, out, report, number, skip)?;
    }
    out.end_array()
}

// Appends the object of a section.
fn push_section(
    alloc: Global,
    out: &mut Writer,
    report: &Report<'_>,
    section: &Unsound,
) -> Result<(), AllocError> {
    out.begin_object()?;
    push_count(out, "section", report.start.saturating_add(section.place))?;
    push_verdict(alloc, out, "verdict", section.verdict)?;
    push_cid(alloc, out, &section.cid)?;
    push_path(out, report.section_path(section))?;
    push_cause(out, report.section_cause(section))?;
    out.end_object()
}

// Appends the object of the link of this number.
fn push_link(
    alloc: Global,
    out: &mut Writer,
    report: &Report<'_>,
    number: usize,
    skip: &Skip,
) -> Result<(), AllocError> {
    out.begin_object()?;
    push_verdict(alloc, out, "link", skip.verdict)?;
    push_cid(alloc, out, &skip.cid)?;
    push_path(out, report.link_path(number))?;
    push_cause(out, report.link_cause(skip))?;
    out.end_object()
}

// Appends a path, if it is known.
fn push_path(out: &mut Writer, path: Option<&str>) -> Result<(), AllocError> {
    match path {
        Some(path) => push_text(out, "path", path),
        None => Ok(()),
    }
}

// Appends why bytes are malformed, and the offset in them.
fn push_cause(out: &mut Writer, fault: Option<CborFault>) -> Result<(), AllocError> {
    match fault {
        Some(fault) => {
            push_text(out, "cause", cause_word(fault.kind))?;
            push_count(out, "offset", fault.place)
        }
        None => Ok(()),
    }
}

// Appends the first place at which a CARv1 file, which begins at an offset, isn't what is asked for.
fn push_inexact(
    alloc: Global,
    out: &mut Writer,
    start: usize,
    inexact: &Inexact,
) -> Result<(), AllocError> {
    out.key("exact")?;
    out.begin_object()?;
    push_count(out, "place", start.saturating_add(inexact.place))?;
    push_text(out, "reason", inexact.reason.as_str())?;
    if let Some(cid) = &inexact.cid {
        push_cid(alloc, out, cid)?;
    }
    out.end_object()
}
