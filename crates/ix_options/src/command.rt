//! A command as a row of the table of commands, the clap command made of it, and errors in its name.

use crate::options::{ArgKind, ArgSpec, arguments_of};
use clap::error::ErrorKind;
use clap::{ArgMatches, Command};
use std::alloc::{AllocError, Global};

/// A command: its name, its texts in the help, and its arguments.
pub struct CommandSpec {
    pub name: &'static str,
    pub about: &'static str,
    pub help: &'static str,
    pub words: &'static [ArgSpec],
}

impl CommandSpec {
    /// Makes the error for rejected arguments of the command.
    pub fn refusal(
        &'static self,
        alloc: Global,
        kind: ErrorKind,
        message: &str,
    ) -> Result<clap::Error, AllocError> {
        let name = format!(in alloc; "ix_export {}", self.name)?;
        match command_of(alloc, self) {
            Ok(command) => refusal_by(command, name.as_str(), kind, message),
            Err(error) => Err(error),
        }
    }

    /// Rejects a number with a sign among the arguments of the command.
    pub fn check_numbers<'a>(
        &'static self,
        alloc: Global,
        words: &ArgMatches<'a>,
    ) -> Result<(), clap::Error> {
        for row in self.words {
            let is_number = matches!(
                row.given,
                ArgKind::Number | ArgKind::NumberByProcessors | ArgKind::Limit
            );
            if is_number
                && let Some(text) = row.optional_text(words)
                && text.starts_with('+')
            {
                let message = format!(in alloc;
                    "invalid value '{text}' for '--{} <N>': N has no sign",
                    row.name
                )?;
                return Err(self.refusal(alloc, ErrorKind::ValueValidation, message.as_str())?);
            }
        }
        Ok(())
    }

    /// Makes the error for an option of the command whose value is empty.
    pub fn refused_value(
        &'static self,
        alloc: Global,
        option: &str,
    ) -> Result<clap::Error, AllocError> {
        let message = format!(in alloc;
            "a value is required for '{option}' but none was supplied"
        )?;
        self.refusal(alloc, ErrorKind::InvalidValue, message.as_str())
    }
}

// Makes an error in the name of a command.
fn refusal_by<'a>(
    command: Command<'a>,
    name: &str,
    kind: ErrorKind,
    message: &str,
) -> Result<clap::Error, AllocError> {
    let mut command = command.bin_name(name)?;
    command.error(kind, message)
}

/// Makes the clap command of a row of the table. An error means that memory ran out.
pub fn command_of<'a>(
    alloc: Global,
    spec: &'static CommandSpec,
) -> Result<Command<'a>, AllocError> {
    match arguments_of(alloc, spec.words) {
        Ok(arguments) => command_without(alloc, spec).args(arguments),
        Err(error) => Err(error),
    }
}

// Makes the command without its arguments.
fn command_without<'a>(alloc: Global, spec: &'static CommandSpec) -> Command<'a> {
    Command::new(alloc, spec.name)
        .about(spec.about)
        .after_help(spec.help)
}
