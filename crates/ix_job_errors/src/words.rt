//! Says what is wrong with a field of a job's line, and what would be right.

use ix_cid::{Cid, CidFault};
use ix_cid_text::{CidTextFault, locate, parse};
use ix_selector_json::{NotationFault, hex_fault_line, json_of_hex};
use ix_walk::{LONGEST_NAME, MOST_ROOTS, is_name};
use std::alloc::{AllocError, Global};

// The digits of base32 (RFC 4648, section 6) in lower case.
const BASE32: [u8; 32] = *b"abcdefghijklmnopqrstuvwxyz234567";

/// Returns what is wrong with a name, if anything.
pub(crate) fn name_fault(name: &str) -> Option<&'static str> {
    if is_name(name) {
        return None;
    }
    let bytes = name.as_bytes();
    if bytes.is_empty() {
        Some("empty, expected 1 to 64 of a to z, 0 to 9, - and _")
    } else if bytes.len() > LONGEST_NAME {
        Some("longer than 64 bytes, expected 1 to 64")
    } else if bytes.iter().any(|byte| byte.is_ascii_uppercase()) {
        Some("upper case, expected a to z, 0 to 9, - and _")
    } else {
        Some("another byte than a to z, 0 to 9, - and _")
    }
}

/// Returns what is wrong with the roots, if anything: the first that is not a CIDv1 in base32.
pub(crate) fn roots_fault(alloc: Global, roots: &str) -> Result<Option<String>, AllocError> {
    let count = roots.split(',').count();
    if count > MOST_ROOTS {
        let words = format!(in alloc; "{count} texts, expected 1 to 64")?;
        return Ok(Some(words));
    }
    for root in roots.split(',') {
        if let Err(fault) = Cid::from_text(alloc, root) {
            return root_words(alloc, root, fault, count).map(|words| Some(words));
        }
    }
    Ok(None)
}

// Returns what is wrong with one of so many roots.
fn root_words(
    alloc: Global,
    root: &str,
    fault: CidFault,
    count: usize,
) -> Result<String, AllocError> {
    if root.is_empty() {
        let words = "no text beside a comma, expected comma-separated CIDs";
        return String::from_str(alloc, words);
    }
    let words = text_words(alloc, root, fault)?;
    if count == 1 {
        Ok(words)
    } else {
        format!(in alloc; "{root} is {words}")
    }
}

/// Returns what is wrong with a text that is to be a CIDv1 in base32, if anything: the form that it has instead, with its
/// base32 if it is a CIDv1 all the same.
pub fn cid_fault_words(alloc: Global, text: &str) -> Result<Option<String>, AllocError> {
    match Cid::from_text(alloc, text) {
        Ok(_) => Ok(None),
        Err(fault) => text_words(alloc, text, fault).map(|words| Some(words)),
    }
}

// Returns what is wrong with a text that is no CIDv1 in base32, for this reason.
fn text_words(alloc: Global, text: &str, fault: CidFault) -> Result<String, AllocError> {
    if fault == CidFault::Memory {
        return Err(AllocError);
    }
    match form_words(text) {
        Some(words) => with_base32(alloc, text, words),
        None if fault == CidFault::Base32 => { String::from_str(alloc, base32_words(alloc, text)?) }
        None => String::from_str(alloc, cid_words(fault)),
    }
}

// Appends the base32 of a text in another form, if it is a CIDv1.
fn with_base32(alloc: Global, text: &str, words: &str) -> Result<String, AllocError> {
    match parse(alloc, locate(text).cid) {
        Ok(cid) if cid.version() == 1 => format!(in alloc; "{words}: {}", cid.text(alloc)?),
        Ok(_) => String::from_str(alloc, words),
        Err(CidTextFault::Memory) => Err(AllocError),
        Err(_) => String::from_str(alloc, words),
    }
}

// Returns the form that a text has instead of base32, if it is recognized.
fn form_words(text: &str) -> Option<&'static str> {
    if text.starts_with("ipfs://") {
        return Some("an ipfs:// address, expected the CID alone");
    }
    if text.starts_with("/ipfs/") {
        return Some("a path of /ipfs/, expected the CID alone");
    }
    if text.starts_with("http://") || text.starts_with("https://") {
        return Some("a URL, expected the CID alone");
    }
    if text.starts_with("Qm") {
        return Some(
            "base58 of a CIDv0, which names UnixFS, expected a CIDv1 in base32 beginning with b",
        );
    }
    if text.starts_with("v0-") {
        return Some(
            "hex of a CIDv0, which names UnixFS, expected a CIDv1 in base32 beginning with b",
        );
    }
    match text.as_bytes().split_first()? {
        (b'f' | b'F', digits) if !digits.iter().all(|digit| digit.is_ascii_hexdigit()) => None,
        (first, _) => base_words(*first),
    }
}

// Returns the base of a text that begins with this byte, by the multibase table, if it is another than
// base32 in lower case.
fn base_words(first: u8) -> Option<&'static str> {
    match first {
        b'z' | b'Z' => Some("base58, expected base32 beginning with b"),
        b'f' | b'F' => Some("hex, expected base32 beginning with b"),
        b'k' | b'K' => Some("base36, expected base32 beginning with b"),
        b'm' | b'M' | b'u' | b'U' => Some("base64, expected base32 beginning with b"),
        b'v' | b'V' | b't' | b'T' => Some("base32hex, expected base32 beginning with b"),
        b'B' | b'C' => Some("base32 in upper case, expected lower case, beginning with b"),
        _ => None,
    }
}

// Returns what is wrong with a text of no other known form.
fn cid_words(fault: CidFault) -> &'static str {
    match fault {
        CidFault::Multibase => "not a CID, expected a CIDv1 in base32, beginning with b",
        CidFault::Base32 => "not base32: after b come a to z and 2 to 7, in lower case",
        CidFault::Truncated => "a CID that ends early",
        CidFault::Varint => "a CID with a number that isn't in its shortest form",
        CidFault::Version(_) => "a CID of another version than 1",
        CidFault::Rest => "a CID with more after it",
        CidFault::Memory => "no memory",
    }
}

// Returns what is wrong with a text after b that is not base32: a character of it, or where it ends.
fn base32_words(alloc: Global, root: &str) -> Result<&'static str, AllocError> {
    let Some(whole) = whole_bytes(alloc, root)? else {
        return Ok(cid_words(CidFault::Base32));
    };
    match Cid::from_text(alloc, whole.as_str()) {
        Err(CidFault::Memory) => Err(AllocError),
        Ok(_) | Err(CidFault::Rest | CidFault::Base32) => {
            Ok("a CID with a character too many, or with another at its end")
        }
        Err(fault) => Ok(cid_words(fault)),
    }
}

// Returns the front of a base32 text that has whole bytes, unless the text has another character.
fn whole_bytes(alloc: Global, root: &str) -> Result<Option<String>, AllocError> {
    let mut text = String::new(alloc);
    let Some((_, digits)) = root.as_bytes().split_first() else {
        return Ok(None);
    };
    let count = digits.len() - usize::from(matches!(digits.len() % 8, 1 | 3 | 6));
    // Which bits of the last digit are those of the last byte.
    let mask = match count % 8 {
        2 => 0b11100,
        4 => 0b10000,
        5 => 0b11110,
        7 => 0b11000,
        _ => 0b11111,
    };
    text.push('b')?;
    for (at, digit) in digits.iter().enumerate() {
        let Some(value) = BASE32.iter().position(|other| other == digit) else {
            return Ok(None);
        };
        let kept = if at + 1 == count { value & mask } else { value };
        if at < count {
            text.push(char::from(BASE32[kept % 32]))?;
        }
    }
    Ok(Some(text))
}

/// Returns what is wrong with a limit, if anything, where it may be up to the greatest.
pub(crate) fn limit_fault(
    alloc: Global,
    limit: &str,
    greatest: u32,
) -> Result<Option<String>, AllocError> {
    let digits = limit.as_bytes();
    let words = if digits.is_empty() || !digits.iter().all(|digit| digit.is_ascii_digit()) {
        format!(in alloc; "not a number in decimal digits, expected 1 to {greatest}")?
    } else if limit == "0" {
        format!(in alloc; "0, expected 1 to {greatest}")?
    } else if let Some(b'0') = digits.first() {
        format!(in alloc; "a leading zero, expected 1 to {greatest} without one")?
    } else {
        match limit.parse::<u32>() {
            Ok(number) if number <= greatest => return Ok(None),
            _ => format!(in alloc; "greater than {greatest}, expected 1 to {greatest}")?,
        }
    };
    Ok(Some(words))
}

/// Returns what is wrong with a selector in hex, if anything.
pub(crate) fn selector_fault(alloc: Global, text: &str) -> Result<Option<String>, AllocError> {
    if text.starts_with('{') {
        return String::from_str(alloc, JSON_WORDS).map(|words| Some(words));
    }
    match json_of_hex(alloc, text) {
        // A name that is not UTF-8 is not an error of a selector.
        Ok(_) | Err(NotationFault::Name) => Ok(None),
        Err(NotationFault::Memory) => Err(AllocError),
        Err(NotationFault::Hex) => {
            String::from_str(alloc, hex_words(text)).map(|words| Some(words))
        }
        Err(fault) => {
            let line = hex_fault_line(alloc, &fault, text)?;
            let reason = line.as_str().strip_prefix("selector: ").unwrap_or("");
            format!(in alloc; "no selector: {reason}").map(|words| Some(words))
        }
    }
}

/// Reported for JSON instead of hex.
pub(crate) const JSON_WORDS: &str = "JSON, converted to hex by ix_export selector";

// Returns what is wrong with a text that is not hex.
fn hex_words(text: &str) -> &'static str {
    if text.starts_with("0x") {
        "0x, expected hex digits alone"
    } else if text
        .as_bytes()
        .iter()
        .all(|digit| digit.is_ascii_hexdigit())
    {
        "an odd number of hex digits, expected two for each byte"
    } else {
        "not hex, expected the line of ix_export selector"
    }
}
