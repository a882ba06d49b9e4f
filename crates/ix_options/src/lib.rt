//! What the commands of the program have in common on the command line: their arguments, as rows of tables, and what is
//! made of these by clap; sizes, the path of an output, and what is printed.
//!
//! The number of threads that is given is 1 to 64, which is proved. Tests, and no contract, show the rest.
//!
//! ```rust
//! let most = most_input(alloc, &SPEC, words, ANY_SIZE)?;
//! let is_json = JSON.is_given(words);
//! print_answer(rt, Ok(line))
//! ```
#![tactic(auto)]

mod command;
mod file_output;
mod host;
mod kinds;
mod options;
mod print;
mod processors;
mod progress;
mod size;

pub use command::{CommandSpec, command_of};
pub use file_output::output_path;
pub use host::{Host, Terminals};
pub use kinds::{CARV2_HEADER, cause_of, is_of_carv2, words_of};
pub use options::{
    ALLOW_MISSING, ArgKind, ArgSpec, BLOCKS, CARV2, JSON, JSON_ERRORS, MAX_INPUT, MAX_INPUT_1G,
    MAX_LIMIT, NO_SYNC, PREFER_SOUND, PREFETCH, PROGRESS, QUIET, QUIET_ACCEPTED, QUIET_PROGRESS,
    SYNC, VERBOSE, VERIFIERS, VERIFIERS_4, WALKERS, WALKERS_4, WHOLE, WITHOUT, WITHOUT_LIST,
    naming,
};
pub use print::{failure_object, later_note, print_all, print_answer, print_notes};
pub use processors::{at_most_processors, available_processors};
pub use progress::progress_mode;
pub use size::{given_size, most_input};
