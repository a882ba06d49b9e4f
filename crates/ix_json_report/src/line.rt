//! The line of an object.

ghost use Rattle.std.specs.Prelude.{IfOk};
ghost use Rattle.ix_json_report.specs.Members.{IsLine};

use json::Writer;
use std::alloc::AllocError;

/// Ends a line after what was written, and returns it with the bytes before.
pub fn end_line(out: Writer) -> Result<Vec<u8>, AllocError>
    ensures { IfOk result (λ line. IsLine out.before line.items out.tokens) }
{
    let mut line = out.into_inner();
    line.push(b'\n')?;
    Ok(line)
}
