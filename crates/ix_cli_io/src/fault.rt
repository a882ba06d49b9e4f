//! Why the program ends early, and what it reports to the user.

ghost use Rattle.std.specs.Prelude.{◌≡◌, IsNone, IfOk, IfSome, string_bytes};
ghost use Rattle.ix_cli_io.specs.declared.fault.Failure.TheVariants.{CannotRead, TooLarge, CannotWrite};
ghost use Rattle.ix_cli_io.specs.Failure.{IsWordsOf, IsTooLarge, NamesFile, WantsMemory, IsAt, IsLineOf, status_of};

use crate::memory::available_memory;
use crate::stop::{ErrorCode, Stop};
use clap::error::ErrorKind as UsageKind;
use ix_jobs::{JobsFault, ListErrorKind, ListFault};
use ix_run::{RunFault, fault_line};
use ix_sections::{CarFault, CarKind};
use ix_selector_json::NotationFault;
use std::alloc::{AllocError, AllocFailed, Global};
use std::io::{self, ErrorKind};
use std::rt::Files;

/// The status of a usage error, of an input that is rejected, and of an output that can't be created.
pub const REFUSED: u8 = 2;

// The error numbers of the system if the process, or the whole system, has too many open files.
const FILES_OF_PROCESS: i32 = 24;

const FILES_OF_SYSTEM: i32 = 23;

// The error number if a part of a path doesn't exist.
const NO_ENTRY: i32 = 2;

/// Why the program ends early.
#[derive(Debug, Drop)]
pub enum Failure {
    /// The arguments aren't valid; the text is clap's.
    Usage(clap::Error),
    /// An argument is not UTF-8: its number and its bytes, as they are reported.
    Words(String),
    /// An error of the library, or memory that ran out.
    Fault(RunFault),
    /// An error in the only input that can have it, or in an option: the error, the input's path or the option's name, and
    /// what is known of the cause.
    Explained(RunFault, String, String),
    /// An error in one of several block files: the error, the file's path, and what is known of the cause.
    InFile(RunFault, String, String),
    /// A have-list that is rejected: the error, and what is known of the cause.
    Known(ListFault, Option<String>),
    /// A text that is not a selector.
    Selector(NotationFault),
    /// An input can't be read: its path, `-` for standard input, and the cause.
    CannotRead(String, io::Error),
    /// An input is too large: its path, and how large it may be.
    TooLarge(String, String),
    /// An output can't be created or written: its path, `-` for standard output, and the cause.
    CannotWrite(String, io::Error),
    /// Memory ran out: at what, how much is available, and what helps.
    OutOfMemory(String),
    /// The command gives no answer, though its inputs were read.
    Stopped(Stop),
}

/// How the cause of a failure is reported, if it is known.
#[derive(Debug, Drop, Clone, Copy, PartialEq, Eq)]
pub enum Causes {
    /// Not at all: the failure has one line.
    Hidden,
    /// On a line of its own, after that of the failure.
    Below,
    /// At the end of the failure's line.
    Beside,
}

impl Failure {
    /// Returns the failure for arguments that can't be read. This one, as it is reported, is not UTF-8.
    pub fn of_words(error: &io::Error, argument: String) -> Failure
        ensures { IsWordsOf (WantsMemory error.now) argument result }
    {
        match error.kind() {
            ErrorKind::OutOfMemory => Failure::Fault(RunFault::Memory),
            _ => Failure::Words(argument),
        }
    }

    /// Returns the failure for an input that can't be read.
    pub fn cannot_read(alloc: Global, path: &str, error: &io::Error) -> Failure
        ensures { NamesFile (λ name cause. CannotRead name cause) path.now error.now result }
    {
        match name_of(alloc, path, error) {
            Some(path) => Failure::CannotRead(path, *error),
            None => Failure::Fault(RunFault::Memory),
        }
    }

    /// Returns the failure for an output that can't be created or written.
    pub fn cannot_write(alloc: Global, path: &str, error: &io::Error) -> Failure
        ensures { NamesFile (λ name cause. CannotWrite name cause) path.now error.now result }
    {
        match name_of(alloc, path, error) {
            Some(path) => Failure::CannotWrite(path, *error),
            None => Failure::Fault(RunFault::Memory),
        }
    }

    /// Returns the failure for an input that is too large, for this cause.
    pub fn too_large(alloc: Global, path: &str, cause: String) -> Failure
        ensures { IsTooLarge path.now result }
    {
        match String::from_str(alloc, path) {
            Ok(path) => Failure::TooLarge(path, cause),
            Err(_) => Failure::Fault(RunFault::Memory),
        }
    }

    /// Returns the failure for what is rejected for this reason, with this line.
    pub fn stopped(code: ErrorCode, line: Result<String, AllocError>) -> Failure {
        match line {
            Ok(line) => Failure::Stopped(Stop::new(code, line)),
            Err(error) => Failure::from(error),
        }
    }

    /// Says of a failure, if it is that memory ran out, at what it did, how much is available, and what helps.
    pub fn at<R: AllocGlobal + Files>(self, rt: &R, stage: &str) -> Failure
        ensures { IsAt self result }
    {
        if !matches!(&self, Failure::Fault(RunFault::Memory)) {
            return self;
        }
        let cause = match available_memory(rt) {
            Some(free) => format!(in rt.alloc();
                "there was none left for {stage}; {free} bytes are available now: free some, raise `ulimit -v`, or use a machine with more"
            ),
            None => format!(in rt.alloc();
                "there was none left for {stage}: free some, raise `ulimit -v`, or use a machine with more"
            ),
        };
        match cause {
            Ok(cause) => Failure::OutOfMemory(cause),
            Err(error) => Failure::from(error),
        }
    }

    /// Returns what the failure is in a word, unless the arguments were rejected by their parser.
    pub fn code(&self) -> Option<ErrorCode> {
        match self {
            Failure::Usage(_) | Failure::Words(_) => None,
            Failure::Fault(fault)
            | Failure::Explained(fault, _, _)
            | Failure::InFile(fault, _, _) => { Some(code_of(fault)) }
            Failure::Known(fault, _) => Some(match fault.kind {
                ListErrorKind::Memory => ErrorCode::Memory,
                _ => ErrorCode::HaveList,
            }),
            Failure::Selector(_) => Some(ErrorCode::Job),
            Failure::CannotRead(_, _) => Some(ErrorCode::Read),
            Failure::TooLarge(_, _) => Some(ErrorCode::TooLarge),
            Failure::CannotWrite(_, _) => Some(ErrorCode::Write),
            Failure::OutOfMemory(_) => Some(ErrorCode::Memory),
            Failure::Stopped(stop) => Some(stop.code),
        }
    }

    /// Returns the line of the failure with its cause.
    pub fn message(&self, alloc: Global) -> Result<String, AllocError> {
        self.text(alloc, Causes::Beside)
    }

    /// Returns the exit status: 2, or that of what stopped the command.
    pub fn status(&self) -> u8
        ensures { result ≡ status_of self.now }
    {
        match self {
            Failure::Stopped(stop) => stop.status,
            _ => REFUSED,
        }
    }

    /// Prints the failure to the user, with the cause as it is asked for, and returns the status.
    pub fn report<R: AllocGlobal + Eprint + Print>(&self, rt: &R, causes: Causes) -> u8
        ensures { result ≡ status_of self.now }
    {
        // If standard error can't be written, there is no one to report to.
        let _ = match self {
            Failure::Usage(error) => error.print(rt),
            _ => match self.text_or_line(rt.alloc(), causes) {
                Ok(text) => rt.eprintln(text.as_str()),
                Err(_) => rt.eprintln("memory"),
            },
        };
        self.status()
    }

    // Returns what is printed of a failure. If memory runs out for its cause, the line stands without it.
    fn text_or_line(&self, alloc: Global, causes: Causes) -> Result<String, AllocError> {
        match self.text(alloc, causes) {
            Ok(text) => Ok(text),
            Err(_) => self.line(alloc),
        }
    }

    // Returns the line of a failure, and its cause as it is asked for.
    fn text(&self, alloc: Global, causes: Causes) -> Result<String, AllocError> {
        let line = self.line(alloc)?;
        if causes == Causes::Hidden {
            return Ok(line);
        }
        match (self, self.cause(alloc)?) {
            (_, None) => Ok(line),
            (Failure::Explained(fault, path, _) | Failure::InFile(fault, path, _), Some(cause)) => {
                if causes == Causes::Below {
                    format!(in alloc; "{line}\n{path}: {cause}")
                } else {
                    line_of_file(alloc, fault, path.as_str(), cause.as_str())
                }
            }
            (_, Some(cause)) if causes == Causes::Below => format!(in alloc; "{line}\n{cause}"),
            (_, Some(cause)) => format!(in alloc; "{line}: {cause}"),
        }
    }

    /// Returns the line that is printed, without its end. For a usage error it is empty: clap's text is
    /// printed instead.
    pub fn line(&self, alloc: Global) -> Result<String, AllocError>
        ensures { IfOk result (λ line. IsLineOf self.now (string_bytes line)) }
    {
        match self {
            Failure::Usage(_) => Ok(String::new(alloc)),
            Failure::Words(argument) => {
                format!(in alloc; "error: an argument is not UTF-8: {argument}")
            }
            Failure::Fault(fault) | Failure::Explained(fault, _, _) => fault_line(alloc, fault),
            Failure::InFile(fault, path, _) => {
                let line = fault_line(alloc, fault)?;
                format!(in alloc; "{line} in {path}")
            }
            Failure::Known(fault, _) => ix_jobs::list_fault_line(alloc, fault),
            Failure::Selector(fault) => ix_selector_json::fault_line(alloc, fault),
            Failure::CannotRead(path, _) => format!(in alloc; "cannot read {path}"),
            Failure::TooLarge(path, _) => format!(in alloc; "too large {path}"),
            Failure::CannotWrite(path, _) => format!(in alloc; "cannot write {path}"),
            Failure::OutOfMemory(_) => String::from_str(alloc, "memory"),
            Failure::Stopped(stop) => stop.line.clone(),
        }
    }

    // Returns what is known of the cause, and what to do.
    fn cause(&self, alloc: Global) -> Result<Option<String>, AllocError> {
        match self {
            Failure::CannotRead(_, error) => Ok(Some(cause_of(alloc, error, "")?)),
            Failure::CannotWrite(_, error) => {
                Ok(Some(cause_of(alloc, error, "; its directory must exist")?))
            }
            Failure::TooLarge(_, cause)
            | Failure::OutOfMemory(cause)
            | Failure::Explained(_, _, cause)
            | Failure::InFile(_, _, cause)
            | Failure::Known(_, Some(cause)) => Ok(Some(cause.clone()?)),
            Failure::Fault(fault) => cause_of_fault(alloc, fault),
            Failure::Usage(_)
            | Failure::Words(_)
            | Failure::Known(_, None)
            | Failure::Selector(_)
            | Failure::Stopped(_) => Ok(None),
        }
    }
}

// Returns what an error of the library is in a word.
fn code_of(fault: &RunFault) -> ErrorCode {
    match fault {
        RunFault::Hex => ErrorCode::Hex,
        RunFault::Car(
            CarFault {
                kind: CarKind::Memory,
                ..
            },
        )
        | RunFault::Memory => ErrorCode::Memory,
        RunFault::Car(_) => ErrorCode::Car,
        RunFault::Jobs(_) => ErrorCode::Jobs,
        RunFault::Write(_) => ErrorCode::Write,
        _ => ErrorCode::Job,
    }
}

// Returns the one line for an error in a file: its path, the error, and the cause.
fn line_of_file(
    alloc: Global,
    fault: &RunFault,
    path: &str,
    cause: &str,
) -> Result<String, AllocError> {
    match fault {
        RunFault::Car(CarFault { kind, place }) => {
            format!(in alloc; "{path}: {kind} at {place}: {cause}")
        }
        RunFault::Jobs(JobsFault { kind, line }) => {
            format!(in alloc; "{path}: {kind} at line {line}: {cause}")
        }
        fault => {
            let line = fault_line(alloc, fault)?;
            format!(in alloc; "{path}: {line}: {cause}")
        }
    }
}

/// Returns the cause of an error of the system in its own text, and what to do. The last text is added
/// if a part of the path doesn't exist.
pub(crate) fn cause_of(
    alloc: Global,
    error: &io::Error,
    no_entry: &str,
) -> Result<String, AllocError> {
    let advice = match error.raw_os_error() {
        Some(FILES_OF_PROCESS) => "; ulimit -n says how many files may be open at once",
        Some(FILES_OF_SYSTEM) => "; the whole system has too many files open",
        Some(NO_ENTRY) => no_entry,
        _ => "",
    };
    format!(in alloc; "{error}{advice}")
}

// Returns what to do about an error of the library, if its line doesn't say it.
fn cause_of_fault(alloc: Global, fault: &RunFault) -> Result<Option<String>, AllocError> {
    let cause = match fault {
        RunFault::Hex => "odd number of digits, or a character that is not a hex digit",
        RunFault::Jobs(_) => "ix_export check-jobs reports what is wrong with each line",
        RunFault::Write(_) => "its header could not be written: is the disk full?",
        _ => return Ok(None),
    };
    Ok(Some(String::from_str(alloc, cause)?))
}

// Returns a copy of the path that an error names, or None if memory ran out.
fn name_of(alloc: Global, path: &str, error: &io::Error) -> Option<String>
    ensures named { IfSome result (λ name. string_bytes name ≡ path.now) }
    ensures memory { WantsMemory error.now → IsNone result }
{
    match error.kind() {
        ErrorKind::OutOfMemory => None,
        _ => String::from_str(alloc, path).ok(),
    }
}

impl From<AllocError> for Failure {
    ghost use Rattle.std.specs.Prelude.{◌≡◌};
    ghost use Rattle.ix_cli_io.specs.declared.fault.Failure.TheVariants.{Fault};
    ghost use Rattle.ix_run.specs.declared.fault.RunFault.TheVariants.{Memory};

    ghost from_gives = { λ _ failure. failure ≡ Fault Memory };

    fn from(_error: AllocError) -> Failure {
        Failure::Fault(RunFault::Memory)
    }
}

impl<T: Drop> From<AllocFailed<T>> for Failure {
    ghost use Rattle.std.specs.Prelude.{◌≡◌};
    ghost use Rattle.ix_cli_io.specs.declared.fault.Failure.TheVariants.{Fault};
    ghost use Rattle.ix_run.specs.declared.fault.RunFault.TheVariants.{Memory};

    ghost from_gives = { λ _ failure. failure ≡ Fault Memory };

    fn from(_error: AllocFailed<T>) -> Failure {
        Failure::Fault(RunFault::Memory)
    }
}

impl From<RunFault> for Failure {
    ghost use Rattle.std.specs.Prelude.{◌≡◌};
    ghost use Rattle.ix_cli_io.specs.declared.fault.Failure.TheVariants.{Fault};

    ghost from_gives = { λ fault failure. failure ≡ Fault fault };

    fn from(fault: RunFault) -> Failure {
        Failure::Fault(fault)
    }
}

impl From<NotationFault> for Failure {
    ghost use Rattle.std.specs.Prelude.{◌≡◌};
    ghost use Rattle.ix_cli_io.specs.declared.fault.Failure.TheVariants.{Selector};

    ghost from_gives = { λ fault failure. failure ≡ Selector fault };

    fn from(fault: NotationFault) -> Failure {
        Failure::Selector(fault)
    }
}

impl From<clap::Error> for Failure {
    ghost use Rattle.ix_cli_io.specs.Failure.{IsUsageOf};

    ghost from_gives = { λ error failure. IsUsageOf error failure };

    fn from(error: clap::Error) -> Failure {
        match error.kind() {
            UsageKind::OutOfMemory => Failure::Fault(RunFault::Memory),
            _ => Failure::Usage(error),
        }
    }
}
