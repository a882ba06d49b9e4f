//! What commands load before they do their work: the store of their blocks, which of them a receiver has, roots, and
//! where the paths of roots lead; and the threads that load, and that run jobs over it.
//!
//! A run has 1 to 64 walkers and as many verifiers, which is proved. Tests, and no contract, show the rest.
//!
//! ```rust
//! let files = BlockFiles::given(alloc, &SPEC, words, most, true)?;
//! let bytes = files.read(rt, 8, &progress)?;
//! let blocks = files.store_of(rt, bytes, 8, Indexed::Alone)?;
//! ```
#![tactic(auto)]

mod blocks;
mod cause;
mod export;
mod known;
mod part;
mod paths;
mod prefetching;
mod rejected;
mod roots;
mod threads;

pub use blocks::{BlockFiles, Indexed, LoadedBlocks};
pub use cause::{code_of_verdict, verdict_line, verdict_stop};
pub use export::{allowed_missing, forget_store};
pub use known::{KnownInputs, refused_inputs};
pub use part::{PART, given_part};
pub use paths::{RootPaths, Unresolved, obstacle_stop, path_of, path_text};
pub use prefetching::Prefetching;
pub use rejected::job_file_failure;
pub use roots::{
    RootWords, Roots, SCOPE, SELECTOR, SELECTOR_HEX, SOME_ROOT, Scope, at_root, clones, no_jobs,
    no_roots, refused_roots, roots_note, roots_text, some_root,
};
pub use threads::{RunOutputs, RunReport, ThreadCounts};
