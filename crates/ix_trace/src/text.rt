//! The text of a path.

ghost use Rattle.std.specs.Prelude.{◌≡◌, ◌++◌, ◌<◌, ◌∷◌, IfOk, OnOk, string_bytes, true};
ghost use Rattle.std.specs.Fmt.{digit_glyph};
ghost use Rattle.ix_cid.specs.CidText.{text_of};
ghost use Rattle.ix_path.specs.Resolution.{segments_in};
ghost use Rattle.ix_trace.specs.Text.{is_plain, escaped_byte, escaped, segment_texts, ends_empty, path_text};

use ix_cid::Cid;
use std::alloc::{AllocError, Global};

/// Returns the text of a path: the text of the root's CID, and each segment after a `/`. In a segment the
/// printable characters of ASCII but blanks, `%`, `/` and `,` are themselves, and every other byte is `%` and
/// two hex digits (RFC 3986, section 2.1). If the last segment is empty, a `/` ends it.
pub fn path_text(alloc: Global, root: &Cid, segments: &[Vec<u8>]) -> Result<String, AllocError>
    ensures { IfOk result (λ text. string_bytes text ≡ path_text root.now (segments_in segments.now)) }
{
    let mut text = root.text(alloc)?;
    push_segments(&mut text, segments)?;
    if ends_empty(segments) {
        text.push('/')?;
    }
    Ok(text)
}

// Whether the last segment is empty.
fn ends_empty(segments: &[Vec<u8>]) -> bool
    ensures { result ≡ ends_empty (segments_in segments.now) }
{
    match segments.last() {
        Some(segment) => segment.is_empty(),
        None => false,
    }
}

// Appends segments, each after a `/`.
fn push_segments(text: &mut String, segments: &[Vec<u8>]) -> Result<(), AllocError>
    ensures { OnOk result (string_bytes text.new
        ≡ string_bytes text.old ++ segment_texts (segments_in segments.now)) }
{
    for segment in segments {
        push_segment(text, segment.as_slice())?;
    }
    Ok(())
}

// Appends a `/` and a segment.
fn push_segment(text: &mut String, segment: &[u8]) -> Result<(), AllocError>
    ensures { OnOk result (string_bytes text.new ≡ string_bytes text.old ++ 47 ∷ escaped segment.now) }
{
    text.push('/')?;
    for byte in segment {
        push_byte(text, *byte)?;
    }
    Ok(())
}

// Appends a byte of a segment.
fn push_byte(text: &mut String, byte: u8) -> Result<(), AllocError>
    ensures { OnOk result (string_bytes text.new ≡ string_bytes text.old ++ escaped_byte byte) }
{
    if is_plain(byte) {
        text.push(char::from(byte))?;
        return Ok(());
    }
    text.push('%')?;
    text.push(hex_digit(byte / 16))?;
    text.push(hex_digit(byte % 16))?;
    Ok(())
}

// Whether a byte of a segment is itself in the text of a path.
fn is_plain(byte: u8) -> bool
    ensures { result ≡ is_plain byte }
{
    byte.is_ascii_graphic() && byte != b'%' && byte != b'/' && byte != b','
}

// Returns a hex digit.
fn hex_digit(value: u8) -> char
    requires { value < 16 }
    ensures { result ≡ digit_glyph true value }
{
    if value < 10 {
        char::from(b'0' + value)
    } else {
        char::from(b'A' + (value - 10))
    }
}
