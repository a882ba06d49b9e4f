//! The kind of a file, by its first bytes.

ghost use Rattle.std.specs.Prelude.{◌≡◌, take, drop};
ghost use Rattle.std.specs.List.{list_all};
ghost use Rattle.ix_sections.specs.Kinds.{kind_of, kind_of_text, is_printed, opens_json, first_printed, is_space};

// The beginning of a CARv2 file: the length of a map, and the map with the version 2.
const CAR_2: &[u8] = b"\x0a\xa1\x67version\x02";

const GZIP: &[u8] = b"\x1f\x8b";

const ZSTD: &[u8] = b"\x28\xb5\x2f\xfd";

const BZIP2: &[u8] = b"BZh";

// The offset of the magic word in a tar archive's first header, and the word.
const TAR_PLACE: usize = 257;

const TAR: &[u8] = b"ustar";

// How many bytes are examined to recognize a text.
const FRONT: usize = 512;

/// The kind of a file that is not a CARv1, as far as its first bytes show.
#[derive(Debug, Drop, Clone, Copy, PartialEq, Eq)]
pub enum Kind {
    /// A CARv2 file (its pragma: a map with the version 2).
    Car2,
    /// gzip (RFC 1952).
    Gzip,
    /// Zstandard (RFC 8878).
    Zstd,
    Bzip2,
    /// A tar archive (POSIX ustar).
    Tar,
    /// A text whose first character after spaces opens an object or an array (RFC 8259).
    Json,
    Text,
    /// No bytes.
    Empty,
    Other,
}

/// Returns the kind of a file, by its first bytes.
pub fn kind_of(bytes: &[u8]) -> Kind
    ensures { result ≡ kind_of bytes.now }
{
    if bytes.starts_with(CAR_2) {
        Kind::Car2
    } else if bytes.starts_with(GZIP) {
        Kind::Gzip
    } else if bytes.starts_with(ZSTD) {
        Kind::Zstd
    } else if bytes.starts_with(BZIP2) {
        Kind::Bzip2
    } else if behind(bytes, TAR_PLACE).starts_with(TAR) {
        Kind::Tar
    } else {
        kind_of_text(front(bytes, FRONT))
    }
}

// Returns the bytes after so many.
fn behind(bytes: &[u8], start: usize) -> &[u8]
    ensures { result.now ≡ drop start bytes.now }
{
    let (_, rest) = bytes.split_at(start.min(bytes.len()));
    rest
}

// Returns so many bytes at the front, or all.
fn front(bytes: &[u8], size: usize) -> &[u8]
    ensures { result.now ≡ take size bytes.now }
{
    let (front, _) = bytes.split_at(size.min(bytes.len()));
    front
}

// Returns the kind of a text by its front, if it is one.
fn kind_of_text(front: &[u8]) -> Kind
    ensures { result ≡ kind_of_text front.now }
{
    if front.is_empty() {
        Kind::Empty
    } else if !are_printed(front) {
        Kind::Other
    } else if is_opening(first_printed(front)) {
        Kind::Json
    } else {
        Kind::Text
    }
}

// Returns whether there is no control character but tabs and line ends.
fn are_printed(front: &[u8]) -> bool
    ensures { result ≡ list_all is_printed front.now }
{
    front.iter().all(|byte| is_printed(*byte))
}

fn first_printed(front: &[u8]) -> Option<u8>
    ensures { result ≡ first_printed front.now }
{
    front.iter().copied().find(|byte| !is_space(*byte))
}

// Returns whether an object or an array is opened.
fn is_opening(byte: Option<u8>) -> bool
    ensures { result ≡ opens_json byte }
{
    matches!(byte, Some(b'{' | b'['))
}

fn is_printed(byte: u8) -> bool
    ensures { result ≡ is_printed byte }
{
    byte >= 32 || is_space(byte)
}

fn is_space(byte: u8) -> bool
    ensures { result ≡ is_space byte }
{
    matches!(byte, b' ' | b'\t' | b'\n' | b'\r')
}
