//! What was skipped.

ghost use Rattle.std.specs.Prelude.{◌≡◌, option_map};
ghost use Rattle.ix_json_report.specs.Members.{Appends};
ghost use Rattle.ix_json_report.specs.Tokens.{reason_tokens, skip_members, path_tokens, cause_tokens, skip_tokens, skips_tokens, all_skips_tokens};
ghost use Rattle.ix_json_report.specs.Objects.{path_at, cause_view, cause_at};

use crate::members::{push_cid, push_number, push_text, push_verdict};
use ix_car::Skip;
use json::Writer;
use std::alloc::{AllocError, Global};

/// What a report has of the skips of a job besides.
#[derive(Clone, Copy)]
pub struct SkipNotes<'a> {
    /// How many skips were absent, if they were counted.
    pub absent: Option<usize>,
    /// The paths of the skips in the report, in their order, as far as they are known.
    pub paths: &'a [Option<String>],
    /// Why the bytes of each skip are malformed, in their order, as far as that is asked for.
    pub causes: &'a [Option<SkipCause<'a>>],
}

/// Why bytes are malformed.
#[derive(Clone, Copy)]
pub struct SkipCause<'a> {
    /// What is wrong with them, in some words.
    pub words: &'a str,
    /// The offset of their first error.
    pub offset: u64,
}

// Appends the member with the skips of a job.
pub(crate) fn push_skips(
    alloc: Global,
    out: &mut Writer,
    skips: &[Skip],
    notes: SkipNotes<'_>,
) -> Result<(), AllocError>
    ensures { Appends out.old out.new (skips_tokens notes.entry skips.now) result }
{
    out.key("skips")?;
    out.begin_array()?;
    push_each_skip(alloc, out, skips, notes)?;
    out.end_array()
}

// Appends the objects of skips.
fn push_each_skip(
    alloc: Global,
    out: &mut Writer,
    skips: &[Skip],
    notes: SkipNotes<'_>,
) -> Result<(), AllocError>
    ensures { Appends out.old out.new (all_skips_tokens notes.entry 0 skips.now) result }
{
    for (number, skip) in skips.iter().enumerate() {
        let path = path_at(notes.paths, number);
        push_skip(alloc, out, skip, path, cause_at(notes.causes, number))?;
    }
    Ok(())
}

// Returns the path of the skip of this number, if it is known.
fn path_at(paths: &[Option<String>], number: usize) -> Option<&str>
    ensures { option_map (λ path. path.now) result ≡ path_at paths.now number }
{
    let path = paths.get(number)?.as_ref()?;
    Some(path.as_str())
}

// Returns why the bytes of the skip of this number are malformed, if that is known.
fn cause_at<'a>(causes: &[Option<SkipCause<'a>>], number: usize) -> Option<SkipCause<'a>>
    ensures { option_map cause_view result ≡ cause_at causes.now number }
{
    match causes.get(number) {
        Some(cause) => *cause,
        None => None,
    }
}

// Appends the object of a skip.
fn push_skip(
    alloc: Global,
    out: &mut Writer,
    skip: &Skip,
    path: Option<&str>,
    cause: Option<SkipCause<'_>>,
) -> Result<(), AllocError>
    ensures { Appends out.old out.new
        (skip_tokens skip.now (option_map (λ p. p.now) path.entry, option_map cause_view cause.entry)) result }
{
    out.begin_object()?;
    push_members(alloc, out, skip)?;
    push_path(out, path)?;
    push_cause(out, cause)?;
    out.end_object()
}

// Appends the number of the visit that was skipped, its verdict and its CID.
fn push_members(alloc: Global, out: &mut Writer, skip: &Skip) -> Result<(), AllocError>
    ensures { Appends out.old out.new (skip_members skip.now) result }
{
    push_number(out, "visit", skip.seq.into())?;
    push_reason(alloc, out, skip)
}

// Appends the verdict and the CID of what was skipped.
fn push_reason(alloc: Global, out: &mut Writer, skip: &Skip) -> Result<(), AllocError>
    ensures { Appends out.old out.new (reason_tokens skip.now) result }
{
    push_verdict(alloc, out, "verdict", skip.verdict)?;
    push_cid(alloc, out, &skip.cid)
}

// Appends the path of the visit that was skipped, if it is known.
fn push_path(out: &mut Writer, path: Option<&str>) -> Result<(), AllocError>
    ensures { Appends out.old out.new (path_tokens (option_map (λ p. p.now) path.entry)) result }
{
    match path {
        Some(path) => push_text(out, "path", path),
        None => Ok(()),
    }
}

// Appends why the bytes are malformed, and the offset in them, if that is known.
fn push_cause(out: &mut Writer, cause: Option<SkipCause<'_>>) -> Result<(), AllocError>
    ensures { Appends out.old out.new (cause_tokens (option_map cause_view cause.entry)) result }
{
    match cause {
        Some(cause) => {
            push_text(out, "cause", cause.words)?;
            push_number(out, "offset", cause.offset)
        }
        None => Ok(()),
    }
}
