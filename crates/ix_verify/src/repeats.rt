//! The number of CIDs that occurred before.

ghost use Rattle.std.specs.Prelude.{◌≤◌, length, drop, IfOk, IfErr};
ghost use Rattle.std.specs.Arc.{arc_value};
ghost use Rattle.ix_sections.specs.Gives.{IsFaultOf};
ghost use Rattle.ix_sections.specs.Sections.{section_list};
ghost use Rattle.ix_verify.specs.Tallied.{HasDistinct};

use ix_sections::{BlockLoader, CarFault};
use std::alloc::Global;
use std::sync::Arc;
use std::thread::Threads;

/// Counts the CIDs of the sections of a CARv1 file, each once, or returns its first error. The file is the end of shared
/// bytes from an offset on. So many threads look up the CIDs, in the memory that reading the file's blocks takes.
pub(crate) fn distinct_in<R: Threads + Sync>(
    rt: &R,
    alloc: Global,
    file: &Arc<Vec<u8>>,
    start: usize,
    threads: usize,
) -> Result<usize, CarFault>
    requires { start ≤ length (arc_value file.now).items }
    ensures distinct { IfOk result (HasDistinct (section_list (drop start (arc_value file.now).items))) }
    ensures refused { IfErr result (λ fault. IsFaultOf (drop start (arc_value file.now).items) fault
        (section_list (drop start (arc_value file.now).items))) }
{
    let loader = BlockLoader::new(alloc).with_shared_by(rt, file, start, threads)?;
    match loader.finish_by(rt, threads) {
        Ok(store) => Ok(store.len()),
        Err(_) => Err(CarFault::no_memory(file.len() - start)),
    }
}
