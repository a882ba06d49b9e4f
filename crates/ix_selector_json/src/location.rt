//! Describes a part of data that is rejected.

ghost use Rattle.std.specs.Prelude.{IfOk, string_bytes};
ghost use Rattle.ix_selector_json.specs.FaultWords.{Continues};

use ix_cbor::Node;
use std::alloc::{AllocError, Global};

// The most characters of a key that are shown.
const MOST_SHOWN: usize = 40;

/// What is wrong with a part, besides the text for its kind.
#[derive(Drop, Clone, Copy)]
pub(crate) enum Wrong<'t> {
    /// The value that is there.
    Value,
    /// A map that must have a key has none.
    NoKey,
    /// The second key of a map that must have one.
    Second(&'t [u8], &'t [u8]),
    /// A key that its map must not have.
    Extra(&'t [u8]),
    /// A key that its map lacks.
    Missing(&'static [u8]),
    /// A key that names nothing.
    Unknown(&'t [u8]),
    /// The value of this key.
    Field(&'t [u8]),
    /// It nests too deep, for which no place is reported.
    Deep,
}

/// Where data is rejected: the text for what is wrong with the part, and its place as a JSON Pointer
/// (RFC 6901), which is empty for the whole, or none if it isn't reported.
#[derive(Drop)]
pub(crate) struct Location {
    words: String,
    path: Option<String>,
}

impl<'t> Wrong<'t> {
    /// Returns what is wrong with a map that must have one key, and hasn't.
    pub(crate) fn of_one(entries: &'t [(Vec<u8>, Node)]) -> Wrong<'t> {
        match entries {
            [(first, _), (second, _), ..] => Wrong::Second(first.as_slice(), second.as_slice()),
            _ => Wrong::NoKey,
        }
    }

    /// Returns what is wrong with a map that must have exactly these keys, if anything.
    pub(crate) fn of_keys(
        entries: &'t [(Vec<u8>, Node)],
        keys: &[&'static [u8]],
    ) -> Option<Wrong<'t>> {
        for (name, _) in entries {
            if !keys.iter().any(|key| *key == name.as_slice()) {
                return Some(Wrong::Extra(name.as_slice()));
            }
        }
        for key in keys {
            if !entries.iter().any(|(name, _)| name.as_slice() == *key) {
                return Some(Wrong::Missing(*key));
            }
        }
        None
    }

    // Returns the text for it, which follows that for its kind.
    fn words(self, alloc: Global) -> Result<String, AllocError> {
        match self {
            Wrong::Value | Wrong::Field(_) | Wrong::Deep => Ok(String::new(alloc)),
            Wrong::NoKey => String::from_str(alloc, " (no key)"),
            Wrong::Second(first, second) => {
                let first = quoted(alloc, first)?;
                let second = quoted(alloc, second)?;
                format!(in alloc; " ({second} beside {first})")
            }
            Wrong::Extra(key) => {
                let key = quoted(alloc, key)?;
                format!(in alloc; " ({key})")
            }
            Wrong::Missing(key) => {
                let key = quoted(alloc, key)?;
                format!(in alloc; " (no {key})")
            }
            Wrong::Unknown(key) => {
                let key = quoted(alloc, key)?;
                format!(in alloc; " {key}")
            }
        }
    }
}

impl Location {
    /// Makes the error at a path.
    pub(crate) fn new(alloc: Global, path: &str, wrong: Wrong<'_>) -> Result<Location, AllocError> {
        let words = wrong.words(alloc)?;
        let mut path = String::from_str(alloc, path)?;
        match wrong {
            Wrong::Deep => return Ok(Location { words, path: None }),
            Wrong::Field(key) => push_segment(alloc, &mut path, key)?,
            _ => {}
        }
        Ok(Location {
            words,
            path: Some(path),
        })
    }

    /// Returns the same part, with a path before it.
    pub(crate) fn below(self, alloc: Global, path: &str) -> Result<Location, AllocError> {
        let Location { words, path: inner } = self;
        let path = match inner {
            Some(inner) => Some(format!(in alloc; "{path}{inner}")?),
            None => None,
        };
        Ok(Location { words, path })
    }

    /// Returns the same part, with a key before it.
    pub(crate) fn below_key(self, alloc: Global, key: &[u8]) -> Result<Location, AllocError> {
        let mut path = String::new(alloc);
        push_segment(alloc, &mut path, key)?;
        self.below(alloc, path.as_str())
    }

    /// Returns a line that says what is wrong, with the part and its place.
    pub(crate) fn describe(&self, alloc: Global, line: &str) -> Result<String, AllocError>
        ensures { IfOk result (λ said. Continues line.now (string_bytes said)) }
    {
        let words = self.words.as_str();
        let path = match &self.path {
            Some(path) => path.as_str(),
            None => "",
        };
        if path.is_empty() {
            format!(in alloc; "{line}{words}")
        } else {
            format!(in alloc; "{line}{words} at {path}")
        }
    }
}

// Appends a key to a path, as a segment of a JSON Pointer.
fn push_segment(alloc: Global, path: &mut String, key: &[u8]) -> Result<(), AllocError> {
    path.push('/')?;
    push_shown(alloc, path, key, true)
}

// Returns a key in quotes.
fn quoted(alloc: Global, key: &[u8]) -> Result<String, AllocError> {
    let mut text = String::from_str(alloc, "\"")?;
    push_shown(alloc, &mut text, key, false)?;
    text.push('"')?;
    Ok(text)
}

// Appends the characters of a key, or the first ones of a long key. Characters that could write over a
// terminal are escaped as in JSON, and a byte that isn't text is printed as its number.
fn push_shown(
    alloc: Global,
    text: &mut String,
    key: &[u8],
    is_segment: bool,
) -> Result<(), AllocError> {
    let Ok(key) = str::from_utf8(key) else {
        let digits = hex::encode(alloc, &key[..key.len().min(MOST_SHOWN)])?;
        return write!(text, "bytes {digits}");
    };
    for (count, c) in key.chars().enumerate() {
        if count == MOST_SHOWN {
            return text.push_str("..");
        }
        match c {
            '~' if is_segment => text.push_str("~0")?,
            '/' if is_segment => text.push_str("~1")?,
            '"' | '\\' if !is_segment => write!(text, "\\{c}")?,
            ' '..='~' => text.push(c)?,
            _ if c.is_alphanumeric() => text.push(c)?,
            _ => write!(text, "\\u{:04x}", c as u32)?,
        }
    }
    Ok(())
}
