//! Escapes characters that a terminal doesn't print.

ghost use Rattle.std.specs.Prelude.{◌≡◌, IfOk, string_bytes};
ghost use Rattle.ix_dag_json.specs.Hidden.{is_hidden, escaped};

use std::alloc::{AllocError, Global};
use std::fmt::Write;

/// Returns JSON with the characters that a terminal hides or obeys as `\uXXXX`: DEL, the C1 controls, and
/// the marks of bidirectional text. They occur only inside strings, so the text is the same JSON.
pub fn escape_hidden(alloc: Global, text: &str) -> Result<String, AllocError>
    ensures { IfOk result (λ shown. string_bytes shown ≡ escaped text.now) }
{
    let mut escaped = String::with_capacity(alloc, text.len())?;
    for character in text.chars() {
        if is_hidden(character) {
            write!(escaped, "\\u{:04x}", u32::from(character))?;
        } else {
            escaped.push(character)?;
        }
    }
    Ok(escaped)
}

// Whether a terminal hides or obeys a character that JSON doesn't escape.
fn is_hidden(character: char) -> bool
    ensures { result ≡ is_hidden character }
{
    matches!(
        character,
        '\u{7f}'..='\u{9f}'
            | '\u{61c}'
            | '\u{200e}'
            | '\u{200f}'
            | '\u{202a}'..='\u{202e}'
            | '\u{2066}'..='\u{2069}'
    )
}
