//! Whether a run prefetches: whether all threads expand blocks before the walkers start.

use clap::ArgMatches;
use clap::error::ErrorKind;
use ix_cli_io::Failure;
use ix_options::{CommandSpec, PREFETCH};
use std::alloc::Global;

/// Whether a run prefetches.
#[derive(Clone, Copy, PartialEq, Eq)]
pub enum Prefetching {
    /// On two processors or more, if there are fewer jobs than walkers and than processors.
    Auto,
    On,
    Off,
}

impl Prefetching {
    /// Reads the value of `--prefetch`.
    pub fn given<'a>(
        alloc: Global,
        spec: &'static CommandSpec,
        words: &ArgMatches<'a>,
    ) -> Result<Prefetching, Failure> {
        match PREFETCH.optional_text(words) {
            None | Some("auto") => Ok(Prefetching::Auto),
            Some("on") => Ok(Prefetching::On),
            Some("off") => Ok(Prefetching::Off),
            Some(other) => {
                let message = format!(in alloc;
                    "invalid value '{other}' for '--prefetch <WHEN>': it is auto, on or off"
                )?;
                let error = spec.refusal(alloc, ErrorKind::InvalidValue, message.as_str())?;
                Err(Failure::from(error))
            }
        }
    }

    /// Returns whether this many jobs are prefetched before so many walkers on so many processors.
    pub(crate) fn is_on(self, jobs: usize, walkers: usize, processors: usize) -> bool {
        match self {
            Prefetching::Auto => processors >= 2 && jobs < walkers && jobs < processors,
            Prefetching::On => true,
            Prefetching::Off => false,
        }
    }
}
