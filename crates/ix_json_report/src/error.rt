//! The object of an error.

ghost use Rattle.std.specs.Prelude.{IfOk, option_map, string_bytes};
ghost use Rattle.ix_json_report.specs.Members.{Appends, AppendsLine};
ghost use Rattle.ix_json_report.specs.Objects.{error_object};
ghost use Rattle.ix_json_report.specs.Tokens.{message_tokens, optional_tokens, error_tokens};

use crate::line::end_line;
use crate::members::push_text;
use json::Writer;
use std::alloc::AllocError;

/// An error: what it is in a word, its line, and the CID and the path that it is about, if they are known.
#[derive(Clone, Copy)]
pub struct ErrorNote<'a> {
    pub code: &'a str,
    pub message: &'a str,
    pub cid: &'a Option<String>,
    pub path: &'a Option<String>,
}

/// Appends the line of an error: an object with its word, its line, and its CID and its path, if they are known.
pub fn push_error(text: Vec<u8>, error: ErrorNote<'_>) -> Result<Vec<u8>, AllocError>
    ensures { IfOk result (λ r. AppendsLine text.items r.items (error_object error.entry)) }
{
    let mut out = Writer::new(text);
    push_object(&mut out, error)?;
    end_line(out)
}

// Appends the object of an error.
fn push_object(out: &mut Writer, error: ErrorNote<'_>) -> Result<(), AllocError>
    ensures { Appends out.old out.new (error_tokens error.entry) result }
{
    out.begin_object()?;
    push_message(out, error)?;
    push_optional(out, "cid", error.cid)?;
    push_optional(out, "path", error.path)?;
    out.end_object()
}

// Appends what an error is in a word, and its line.
fn push_message(out: &mut Writer, error: ErrorNote<'_>) -> Result<(), AllocError>
    ensures { Appends out.old out.new (message_tokens error.entry) result }
{
    push_text(out, "error", error.code)?;
    push_text(out, "message", error.message)
}

// Appends a member with a text, if there is one.
fn push_optional(out: &mut Writer, name: &str, text: &Option<String>) -> Result<(), AllocError>
    ensures { Appends out.old out.new (optional_tokens name.now (option_map string_bytes text.now)) result }
{
    match text {
        Some(text) => push_text(out, name, text.as_str()),
        None => Ok(()),
    }
}
