//! The help and the version, which are not errors.

ghost use Rattle.std.specs.Prelude.{IfOk, IfErr, codes};
ghost use Rattle.ix_cli_io.specs.Failure.{IsMistake, IsUsageOf, RefusesPath};

use crate::fault::Failure;

// The path that names standard output.
const STANDARD_OUTPUT: &str = "-";

/// A text that the arguments asked for: the help, or the version.
#[derive(Debug, Drop)]
pub struct Help {
    text: clap::Error,
}

impl Help {
    /// Returns the text that the arguments asked for, or the error if they aren't valid.
    pub fn asked_for(error: clap::Error) -> Result<Help, Failure>
        ensures asked { IfOk result (λ help. IsMistake error → ⊥) }
        ensures refused { IfErr result (λ failure. IsMistake error × IsUsageOf error failure) }
    {
        if error.use_stderr() {
            Err(Failure::from(error))
        } else {
            Ok(Help { text: error })
        }
    }

    /// Prints the text to standard output.
    pub fn print<R: AllocGlobal + Eprint + Print>(&self, rt: &R) -> Result<(), Failure>
        ensures { RefusesPath (codes "-") result }
    {
        match self.text.print(rt) {
            Ok(()) => Ok(()),
            Err(error) => Err(Failure::cannot_write(rt.alloc(), STANDARD_OUTPUT, &error)),
        }
    }
}
