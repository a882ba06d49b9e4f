//! Says what is wrong with the lines of a job file.

use crate::words::{JSON_WORDS, limit_fault, name_fault, roots_fault, selector_fault};
use ix_jobs::{JobErrorKind, JobsFault, split_line};
use std::alloc::{AllocError, Global};
use std::collections::BTreeMap;
use std::str;

// The names of a line's fields.
const NAME: &str = "NAME";

const ROOT: &str = "ROOT";

const LIMIT: &str = "LIMIT";

const SELECTOR: &str = "SELECTOR";

const FIELDS: [&str; 4] = [NAME, ROOT, LIMIT, SELECTOR];

// Reported for a job after the most that a run takes.
const MANY_WORDS: &str =
    "after 1000 jobs, the most that a run takes; jobs --part runs a part of more";

// Reported for a space between the roots of a job.
const COMMA_WORDS: &str = "a space after a comma, expected none";

/// Returns the errors of a job file as text, a line each: `line N, FIELD: what is wrong`, or `line N:
/// what is wrong`, and what would be right, where limits may be up to the greatest. They are in the order of their lines, one per line at most;
/// if one is that of a field, each other faulty field of its line is reported too.
pub fn fault_lines(
    alloc: Global,
    bytes: &[u8],
    faults: &[JobsFault],
    greatest: u32,
) -> Result<String, AllocError> {
    let mut text = String::new(alloc);
    let mut names = BTreeMap::new(alloc);
    let mut faults = faults;
    let mut rest = bytes;
    let mut number: u64 = 0;
    while let Some((fault, later)) = faults.split_first()
        && !rest.is_empty()
    {
        let (line, after) = split_line(rest);
        number = number.saturating_add(1);
        if number == fault.line {
            push_fault(alloc, &mut text, fault, line, &names, greatest)?;
            faults = later;
        }
        note_name(alloc, &mut names, line, number)?;
        rest = after;
    }
    Ok(text)
}

// Records where a name is first.
fn note_name(
    alloc: Global,
    names: &mut BTreeMap<String, u64>,
    line: &[u8],
    number: u64,
) -> Result<(), AllocError> {
    let name = first_field(line);
    if name_fault(name).is_none() && !names.contains_key(name) {
        names.insert(String::from_str(alloc, name)?, number)?;
    }
    Ok(())
}

// Returns the field before the first space of a line, if it is text.
fn first_field(line: &[u8]) -> &str {
    match line.split(|byte| *byte == b' ').next() {
        Some(field) => str::from_utf8(field).unwrap_or(""),
        None => "",
    }
}

// Appends what is wrong with a line.
fn push_fault(
    alloc: Global,
    text: &mut String,
    fault: &JobsFault,
    line: &[u8],
    names: &BTreeMap<String, u64>,
    greatest: u32,
) -> Result<(), AllocError> {
    let number = fault.line;
    let line = without_return(line);
    match fault.kind {
        JobErrorKind::Text => push_bytes_fault(text, number, line),
        JobErrorKind::Fields => push_fields_fault(text, number, str::from_utf8(line).unwrap_or("")),
        JobErrorKind::Repeated => match names.get(first_field(line)) {
            Some(first) => writeln!(text, "line {number}, NAME: also in line {first}"),
            None => push_field_error(text, number, NAME, "also in an earlier line"),
        },
        JobErrorKind::TooMany => push_line_error(text, number, MANY_WORDS),
        _ => push_each_fault(
            alloc,
            text,
            number,
            str::from_utf8(line).unwrap_or(""),
            greatest,
        ),
    }
}

// Appends what is wrong with a line, and with none of its fields.
fn push_line_error(text: &mut String, number: u64, words: &str) -> Result<(), AllocError> {
    writeln!(text, "line {number}: {words}")
}

// Appends what is wrong with a field of a line.
fn push_field_error(
    text: &mut String,
    number: u64,
    field: &str,
    words: &str,
) -> Result<(), AllocError> {
    writeln!(text, "line {number}, {field}: {words}")
}

// Returns a line without the carriage return at its end.
fn without_return(line: &[u8]) -> &[u8] {
    match line.split_last() {
        Some((b'\r', front)) => front,
        _ => line,
    }
}

// Appends what is wrong with each field of a line that has four.
fn push_each_fault(
    alloc: Global,
    text: &mut String,
    number: u64,
    line: &str,
    greatest: u32,
) -> Result<(), AllocError> {
    let mut fields = line.split(' ');
    if let Some(words) = name_fault(fields.next().unwrap_or("")) {
        push_field_error(text, number, NAME, words)?;
    }
    if let Some(words) = roots_fault(alloc, fields.next().unwrap_or(""))? {
        push_field_error(text, number, ROOT, &words)?;
    }
    if let Some(words) = limit_fault(alloc, fields.next().unwrap_or(""), greatest)? {
        push_field_error(text, number, LIMIT, &words)?;
    }
    if let Some(words) = selector_fault(alloc, fields.next().unwrap_or(""))? {
        push_field_error(text, number, SELECTOR, &words)?;
    }
    Ok(())
}

// Appends which byte of a line isn't text: the first one.
fn push_bytes_fault(text: &mut String, number: u64, line: &[u8]) -> Result<(), AllocError> {
    let Some(place) = line.iter().position(|byte| !matches!(*byte, b' '..=b'~')) else {
        return Ok(());
    };
    let (before, behind) = line.split_at(place);
    if let Some(words) = bytes_words(before, behind) {
        return push_line_error(text, number, words);
    }
    let field = FIELDS[spaces(before).min(3)];
    match behind {
        [b'\t', ..] => { writeln!(text, "line {number}: a tab and not a space after {field}") }
        [byte, ..] => writeln!(
            text,
            "line {number}, {field}: a byte {byte:02x}, expected ASCII text alone"
        ),
        [] => Ok(()),
    }
}

// Names what is after so many bytes of text, if it has a name in every field.
fn bytes_words(before: &[u8], behind: &[u8]) -> Option<&'static str> {
    match behind {
        [b'\t'] => Some("a trailing tab"),
        [b'\t', ..] if before.is_empty() => Some("a tab before NAME"),
        [0xef, 0xbb, 0xbf, ..] if before.is_empty() => { Some("a byte order mark, expected none") }
        [0xc2, 0xa0, ..] => Some("a no-break space, expected a space"),
        _ => None,
    }
}

// Returns the number of spaces.
fn spaces(line: &[u8]) -> usize {
    line.iter().filter(|byte| **byte == b' ').count()
}

// Appends why a line of text doesn't have four fields with one space between.
fn push_fields_fault(text: &mut String, number: u64, line: &str) -> Result<(), AllocError> {
    if field_at(line, 3).starts_with('{') {
        return push_field_error(text, number, SELECTOR, JSON_WORDS);
    }
    if field_at(line, 1).ends_with(',') {
        return push_field_error(text, number, ROOT, COMMA_WORDS);
    }
    let count = line.split(' ').count();
    match line.split(' ').position(|field| field.is_empty()) {
        Some(0) => push_line_error(text, number, "a space before NAME"),
        Some(place) if place >= count - 1 => push_line_error(text, number, "trailing space"),
        Some(place) => {
            let field = FIELDS[(place - 1).min(3)];
            writeln!(
                text,
                "line {number}: two spaces after {field}, expected one"
            )
        }
        None => {
            let fields = if count == 1 { "field" } else { "fields" };
            writeln!(
                text,
                "line {number}: {count} {fields}, expected the four NAME ROOTS LIMIT SELECTOR"
            )
        }
    }
}

// Returns the field after so many spaces of a line, or none.
fn field_at(line: &str, place: usize) -> &str {
    line.split(' ').skip(place).next().unwrap_or("")
}
