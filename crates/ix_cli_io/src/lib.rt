//! The files and messages of the program: inputs, outputs, progress, and errors.
//!
//! An input has no more bytes than are asked for, and is all that its reader has, if that is known. Each job has an output,
//! which is `.part` until the close of its job or `publish_outputs` renames it, or `discard_outputs` removes it. A failure names
//! its path, or says that memory ran out, and its status is 2. The help and the version are not failures.
//! No contract says what is in files.
//!
//! ```rust
//! let blocks = load_input(rt, "library.car", ANY_SIZE, 8, &progress)?;
//! let file = read_input(rt, "library.jobs", LARGEST_INPUT)?;
//! let errors = WriteErrors::new();
//! let inputs = ["library.car", "library.jobs"];
//! let outputs = make_outputs(rt, "out", jobs.as_slice(), &inputs, false)?;
//! let buffers = buffers_of(alloc, outputs.as_slice(), &errors)?;
//! let writers = writers_to(alloc, buffers.as_slice())?;
//! let out = run(rt, alloc, &store, &jobs, writers, 4, plan)?;
//! let results = out.results.as_slice();
//! let notes = publish_outputs(rt, outputs, jobs.as_slice(), results, Naming::Ended)?;
//! ```
#![tactic(auto)]

mod archive_buffers;
mod check;
mod fault;
mod files;
mod help;
mod input_file;
mod memory;
mod naming;
mod output;
mod outputs;
mod part;
mod progress;
mod report;
mod resume;
mod stop;
mod streams;
mod write_errors;

pub use archive_buffers::{ArchiveBuffer, ArchiveWriter, ClosingArchives, buffers_of, writers_to};
pub use check::check_standard_output;
pub use fault::{Causes, Failure, REFUSED};
pub use files::{
    ANY_SIZE, LARGEST_INPUT, STANDARD_INPUT, load_input, read_all, read_input, size_of_all,
};
pub use help::Help;
pub use memory::{check_index, check_memory};
pub use naming::{
    Naming, NamingRule, failed_write, failed_writes, has_all_asked, is_named_by, met_roots_alone,
};
pub use output::{Output, OutputWriter, Published};
pub use outputs::{discard_outputs, make_outputs, publish_outputs};
pub use progress::{Progress, ProgressMode};
pub use report::print_report;
pub use resume::without_archived;
pub use stop::{ErrorCode, Stop};
pub use streams::{FdGuard, occupy_std_fds};
pub use write_errors::{Noted, WriteErrors};
