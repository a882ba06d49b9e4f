//! Members of JSON objects, and the line of an object.

use ix_json_report::{end_line, push_number};
use json::Writer;
use std::alloc::{AllocError, Global};

/// Begins a line with an object.
pub(crate) fn begin_object(alloc: Global) -> Result<Writer, AllocError> {
    let mut out = Writer::new(Vec::new(alloc));
    match out.begin_object() {
        Ok(()) => Ok(out),
        Err(error) => Err(error),
    }
}

/// Ends the object and its line.
pub(crate) fn end_object(out: Writer) -> Result<Vec<u8>, AllocError> {
    let mut out = out;
    out.end_object()?;
    end_line(out)
}

/// Appends a member with a count, a size or an offset.
pub(crate) fn push_count(out: &mut Writer, name: &str, count: usize) -> Result<(), AllocError> {
    push_number(out, name, count as u64)
}

/// Appends a member that is true or false.
pub(crate) fn push_boolean(out: &mut Writer, name: &str, is: bool) -> Result<(), AllocError> {
    out.key(name)?;
    out.boolean(is)
}
