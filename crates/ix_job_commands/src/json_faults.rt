//! What the command `check-jobs` prints as JSON.

use ix_json_report::{end_line, push_number, push_text};
use json::Writer;
use std::alloc::{AllocError, Global};

// The parts of the text about a faulty line: `line N, FIELD: what is wrong`, or `line N: what is wrong`.
#[derive(Clone, Copy)]
struct FaultParts<'a> {
    number: u64,
    field: Option<&'a str>,
    fault: &'a str,
}

/// Returns the objects of faulty lines, given the text about them.
pub(crate) fn fault_objects(alloc: Global, lines: &str) -> Result<Vec<u8>, AllocError> {
    let mut text = Vec::new(alloc);
    for line in lines.lines() {
        if let Some(parts) = FaultParts::of(line) {
            text = push_parts(text, parts)?;
        }
    }
    Ok(text)
}

impl<'a> FaultParts<'a> {
    // Returns the parts of the text about a line.
    fn of(line: &'a str) -> Option<FaultParts<'a>> {
        let (place, fault) = line.strip_prefix("line ")?.split_once(": ")?;
        let (number, field) = match place.split_once(", ") {
            Some((number, field)) => (number, Some(field)),
            None => (place, None),
        };
        let number = number.parse().ok()?;
        Some(FaultParts {
            number,
            field,
            fault,
        })
    }
}

// Appends the object of a faulty line.
fn push_parts(text: Vec<u8>, parts: FaultParts<'_>) -> Result<Vec<u8>, AllocError> {
    let FaultParts {
        number,
        field,
        fault,
    } = parts;
    let mut out = Writer::new(text);
    out.begin_object()?;
    push_number(&mut out, "line", number)?;
    if let Some(field) = field {
        push_text(&mut out, "field", field)?;
    }
    push_text(&mut out, "fault", fault)?;
    out.end_object()?;
    end_line(out)
}
