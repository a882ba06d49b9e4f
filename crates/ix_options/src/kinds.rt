//! What a file is, in words.

use ix_sections::{CarFault, CarKind, Kind};

/// What is wrong with a CARv2 file whose payload can't be read.
pub const CARV2_HEADER: &str =
    "the payload that the header of a CARv2 file names is not whole in it";

/// Returns whether an error is that of the header of a CARv2 file.
pub fn is_of_carv2(kind: Kind, fault: &CarFault) -> bool {
    kind == Kind::Car2 && fault.place == 11
}

/// Returns what a file that is not a CARv1 is.
pub fn words_of(kind: Kind) -> &'static str {
    match kind {
        Kind::Car2 => "a CARv2 file; --carv2 reads the CARv1 in it",
        Kind::Gzip => "compressed by gzip",
        Kind::Zstd => "compressed by zstd",
        Kind::Bzip2 => "compressed by bzip2",
        Kind::Tar => "a tar archive",
        Kind::Json => "JSON",
        Kind::Text => "plain text",
        Kind::Empty => "an empty file",
        Kind::Other => "not a CARv1 file",
    }
}

/// Returns what is known of the cause of an error in a file of this kind; nothing if memory ran out.
pub fn cause_of(fault: &CarFault, kind: Kind) -> Option<&'static str> {
    if fault.kind == CarKind::Memory {
        None
    } else if fault.place == 0 {
        Some(words_of(kind))
    } else if is_of_carv2(kind, fault) {
        Some(CARV2_HEADER)
    } else {
        Some("ix_export inspect says how to keep the sections before it")
    }
}
