//! Makes the line of a job from its fields.

ghost use Rattle.std.specs.Prelude.{◌≡◌, ◌<◌, ◌-◌, length, take, IfOk, IfErr, string_bytes};
ghost use Rattle.std.specs.List.{list_all};
ghost use Rattle.ix_jobs.specs.JobLine.{is_visible, is_word, IsLineUpTo, IsNoLineUpTo};
ghost use Rattle.ix_jobs.specs.JobWords.{IsMadeOf, IsRefusedOf};

use crate::selector_word::{SelectorWord, selector_hex};
use crate::{JobErrorKind, read_jobs_up_to};
use ix_selector_json::NotationFault;
use ix_walk::{Job, is_name};
use std::alloc::{AllocError, AllocFailed, Global};

/// Why fields aren't those of a job.
#[derive(Debug, Drop)]
pub enum LineFault {
    /// The name, the roots or the limit, with the error of a job file; or `Memory`.
    Field(JobErrorKind),
    /// The text that is not a selector, and the line that says so with the part that is rejected,
    /// unless memory ran out for it.
    Selector(NotationFault, Option<String>),
}

/// Returns the line of a job file for a job: its name, its comma-separated roots, its limit in decimal
/// digits, which is at most the greatest, and its selector as JSON. A job file of this line alone, read with
/// such limits, has that job and no other. The name is checked first, then whether the roots and the
/// limit are single words, then the selector, and then the roots and the limit as such.
pub fn job_line_up_to(
    alloc: Global,
    name: &str,
    roots: &str,
    limit: &str,
    greatest: u32,
    json: &[u8],
) -> Result<String, LineFault>
    ensures line { IfOk result (λ l. IsLineUpTo greatest name.now roots.now limit.now json.now (string_bytes l)) }
    ensures refused { IfErr result (IsNoLineUpTo greatest name.now roots.now limit.now json.now) }
{
    let selector = SelectorWord::Json(json);
    let (line, _) = build_line(alloc, name, roots, limit, greatest, &selector)?;
    Ok(line)
}

/// Returns the same line for a selector of any kind, and its job.
pub(crate) fn build_line(
    alloc: Global,
    name: &str,
    roots: &str,
    limit: &str,
    greatest: u32,
    selector: &SelectorWord<'_>,
) -> Result<(String, Vec<Job>), LineFault>
    ensures read { IfOk result (IsMadeOf selector.now greatest name.now roots.now limit.now) }
    ensures refused { IfErr result (IsRefusedOf selector.now greatest name.now roots.now limit.now) }
{
    if !is_name(name) {
        return Err(LineFault::Field(JobErrorKind::Name));
    }
    if !is_word(roots.as_bytes()) {
        return Err(LineFault::Field(JobErrorKind::Root));
    }
    if !is_word(limit.as_bytes()) {
        return Err(LineFault::Field(JobErrorKind::Limit));
    }
    let selector = selector_hex(alloc, selector)?;
    if !is_word(without_end(selector.as_bytes())) {
        return Err(LineFault::Field(JobErrorKind::Hex));
    }
    let line = format!(in alloc; "{name} {roots} {limit} {selector}")?;
    match read_jobs_up_to(alloc, line.as_bytes(), greatest) {
        Ok(jobs) => Ok((line, jobs)),
        Err(fault) => Err(LineFault::Field(fault.kind)),
    }
}

// Returns whether a text is a single word: one visible ASCII character at least, and no other byte.
fn is_word(text: &[u8]) -> bool
    ensures { result ≡ is_word text.now }
{
    !text.is_empty() && is_visible(text)
}

// Returns whether each byte is a visible ASCII character.
fn is_visible(text: &[u8]) -> bool
    ensures { result ≡ list_all is_visible text.now }
{
    text.iter().all(|byte| matches!(*byte, b'!'..=b'~'))
}

// Returns a line without its last byte.
fn without_end(line: &[u8]) -> &[u8]
    requires { 0 < length line.now }
    ensures { result.now ≡ take (length line.now - 1) line.now }
{
    &line[..line.len() - 1]
}

impl From<AllocError> for LineFault {
    ghost use Rattle.std.specs.Prelude.{◌≡◌};
    ghost use Rattle.ix_jobs.specs.declared.fault.JobErrorKind.TheVariants.{Memory};
    ghost use Rattle.ix_jobs.specs.declared.job_line.LineFault.TheVariants.{Field};

    ghost from_gives = { λ _ fault. fault ≡ Field Memory };

    fn from(_error: AllocError) -> LineFault {
        LineFault::Field(JobErrorKind::Memory)
    }
}

impl<T: Drop> From<AllocFailed<T>> for LineFault {
    ghost use Rattle.std.specs.Prelude.{◌≡◌};
    ghost use Rattle.ix_jobs.specs.declared.fault.JobErrorKind.TheVariants.{Memory};
    ghost use Rattle.ix_jobs.specs.declared.job_line.LineFault.TheVariants.{Field};

    ghost from_gives = { λ _ fault. fault ≡ Field Memory };

    fn from(_error: AllocFailed<T>) -> LineFault {
        LineFault::from(AllocError)
    }
}
