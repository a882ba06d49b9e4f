//! Bytes as texts, and texts as bytes.

use anyhow::{Context, Error, Result, bail};
use std::alloc::Global;

/// The bytes that a text gives in hex; `-` and an empty text are no bytes.
pub fn bytes_of_hex(alloc: Global, text: &str) -> Result<Vec<u8>> {
    if text == "-" {
        return Ok(Vec::new(alloc));
    }
    hex::decode(alloc, text).context(format_args!("no hexadecimal: {text}"))
}

/// Bytes in hex, where `-` are none.
pub fn hex_of(alloc: Global, bytes: &[u8]) -> Result<String> {
    if bytes.is_empty() {
        return String::from_str(alloc, "-").map_err(Error::from);
    }
    hex::encode(alloc, bytes).map_err(Error::from)
}

/// The bytes of a text in which `\n`, `\r` and `\t` are a line end, a carriage return and a tab, and
/// `\x` with two digits is any byte.
pub fn unescaped(alloc: Global, text: &str) -> Result<Vec<u8>> {
    let mut parts = text.split('\\');
    let mut bytes = Vec::from_slice(alloc, parts.next().unwrap_or("").as_bytes())?;
    for part in parts {
        push_unescaped(&mut bytes, part)?;
    }
    Ok(bytes)
}

// Appends what a backslash and the part after it are.
fn push_unescaped(bytes: &mut Vec<u8>, part: &str) -> Result<()> {
    let (byte, behind) = match part.as_bytes() {
        [b'n', behind @ ..] => (b'\n', behind),
        [b'r', behind @ ..] => (b'\r', behind),
        [b't', behind @ ..] => (b'\t', behind),
        [b'x', high, low, behind @ ..] => (byte_of_hex([*high, *low].as_slice())?, behind),
        _ => bail!("no such escape: {part}"),
    };
    bytes.push(byte)?;
    bytes.extend_from_slice(behind)?;
    Ok(())
}

// The byte of two hex digits.
fn byte_of_hex(digits: &[u8]) -> Result<u8> {
    let mut byte = [0u8];
    hex::decode_to_slice(digits, &mut byte)?;
    Ok(byte[0])
}

/// Bytes as such a text.
pub fn escaped(alloc: Global, bytes: &[u8]) -> Result<String> {
    let mut text = String::new(alloc);
    for byte in bytes {
        match *byte {
            b'\n' => text.push_str("\\n")?,
            b'\r' => text.push_str("\\r")?,
            b'\t' => text.push_str("\\t")?,
            b' '..=b'~' if *byte != b'\\' => text.push(char::from(*byte))?,
            other => write!(text, "\\x{other:02x}")?,
        }
    }
    Ok(text)
}

/// The words before and after the first space.
pub fn two_words(text: &str) -> Result<(&str, &str)> {
    text.split_once(' ').context("two words are wanted")
}
