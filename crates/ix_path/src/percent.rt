//! Percent-escapes (RFC 3986, section 2.1).

ghost use Rattle.std.specs.Prelude.{◌≡◌, ◌+◌, ◌^◌, ◌<◌, length, option_map};
ghost use Rattle.hex.specs.Hex.{hex_digit_value};
ghost use Rattle.ix_path.specs.Path.{front_byte, unescaped};
ghost use Rattle.ix_path.specs.Gives.{Gives};

use crate::error::PathError;
use std::alloc::Global;

// Returns the bytes of a segment that is in the text of a path at this place: `%` and two hex digits
// are one byte.
pub(crate) fn unescape(alloc: Global, text: &[u8], place: usize) -> Result<Vec<u8>, PathError>
    requires { place + length text.now < 2 ^ 64 }
    ensures { Gives (λ v. v.items) result (unescaped place text.now) }
{
    let mut bytes = Vec::new(alloc);
    let mut rest = text;
    while !rest.is_empty() {
        let Some((byte, after)) = front_byte(rest) else {
            return Err(PathError::Escape(place + (text.len() - rest.len())));
        };
        bytes.push(byte)?;
        rest = after;
    }
    Ok(bytes)
}

// Returns the byte that a text begins with, escaped or not, and the text after it.
fn front_byte(text: &[u8]) -> Option<(u8, &[u8])>
    ensures { option_map (λ r. (r.0, r.1.now)) result ≡ front_byte text.now }
{
    match text {
        [b'%', high, low, rest @ ..] => {
            let high = hex_digit(*high)?;
            let low = hex_digit(*low)?;
            Some((high * 16 + low, rest))
        }
        [] | [b'%', ..] => None,
        [byte, rest @ ..] => Some((*byte, rest)),
    }
}

// Returns the value of a hex digit, in either case.
fn hex_digit(digit: u8) -> Option<u8>
    ensures { result ≡ hex_digit_value digit }
{
    match digit {
        b'0'..=b'9' => Some(digit - b'0'),
        b'A'..=b'F' => Some(digit - b'A' + 10),
        b'a'..=b'f' => Some(digit - b'a' + 10),
        _ => None,
    }
}
