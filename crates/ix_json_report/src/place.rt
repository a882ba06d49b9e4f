//! Where the archive of a job is.

ghost use Rattle.ix_json_report.specs.Members.{Appends};
ghost use Rattle.ix_json_report.specs.Tokens.{part_tokens, place_tokens};

use crate::members::{push_number, push_text};
use json::Writer;
use std::alloc::AllocError;

/// Where the archive of a job is once outputs were named.
#[derive(Debug, Drop, Clone, Copy)]
pub enum ArchivePlace<'a> {
    /// At its final path, or `-` for standard output.
    File(&'a str),
    /// At the path of its `.part` file, which has so many bytes.
    Part(&'a str, u64),
    /// It is not known which of the two, since a rename failed.
    Unknown,
}

// Appends the member that says where an archive is, if that is known.
pub(crate) fn push_place(out: &mut Writer, place: ArchivePlace<'_>) -> Result<(), AllocError>
    ensures { Appends out.old out.new (place_tokens place.entry) result }
{
    match place {
        ArchivePlace::File(path) => push_text(out, "file", path),
        ArchivePlace::Part(path, size) => push_part(out, path, size),
        ArchivePlace::Unknown => Ok(()),
    }
}

// Appends the members for the `.part` file of an archive: its path, and how many bytes it has.
fn push_part(out: &mut Writer, path: &str, size: u64) -> Result<(), AllocError>
    ensures { Appends out.old out.new (part_tokens path.now size) result }
{
    push_text(out, "part", path)?;
    push_number(out, "part_bytes", size)
}
