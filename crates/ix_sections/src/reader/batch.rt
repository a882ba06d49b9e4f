//! The sections of a file, a batch at a time.

ghost use Rattle.std.specs.Prelude.{◌<◌, ◌≤◌, length, IfOk, IfErr};
ghost use Rattle.ix_sections.specs.Batches.{IsBatchAt, IsBatchFault};

use crate::fault::CarFault;
use crate::reader::sections::{Section, read_section};

// How many sections a batch has at most, so that no list of all of them is in memory. The last one begins before so many
// bytes of the batch.
const BATCH: usize = 65_536;

const BATCH_BYTES: usize = 64 * 1024 * 1024;

/// Reads a batch of sections at most from the front of some bytes, which end a file of `size` bytes. The answer is the
/// sections, in the memory of an earlier batch, and the bytes after them.
pub fn read_batch<'b>(
    spare: Vec<Section<'b>>,
    size: usize,
    bytes: &'b [u8],
) -> Result<(Vec<Section<'b>>, &'b [u8]), CarFault>
    requires some { 0 < length bytes.now }
    requires within { length bytes.now ≤ size }
    ensures read { IfOk result (IsBatchAt size bytes.now) }
    ensures refused { IfErr result (IsBatchFault size bytes.now) }
{
    let mut batch = spare;
    batch.clear();
    let mut rest = bytes;
    while !rest.is_empty() && batch.len() < BATCH && bytes.len() - rest.len() < BATCH_BYTES {
        let (section, after) = read_section(size, rest)?;
        let Ok(()) = batch.push(section) else {
            return Err(CarFault::no_memory(size - rest.len()));
        };
        rest = after;
    }
    Ok((batch, rest))
}
