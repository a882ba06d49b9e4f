//! The errors of the calls.

ghost use Rattle.std.specs.Prelude.{◌≡◌};
ghost use Rattle.ix_run.specs.FaultLine.{line_of};
ghost use Rattle.ix_selector_json.specs.FaultWords.{line_of as selector_line_of};
ghost use Rattle.ix_api.specs.Failures.{IsFailureBy, parts_line, job_words};

use crate::job_parts::PartsFault;
use ix_run::RunFault;
use ix_selector_json::NotationFault;
use ix_walk::JobFault;
use std::alloc::Global;

/// Why a call fails.
#[derive(Debug, Drop)]
pub enum Failure {
    /// Memory ran out.
    Memory,
    /// The input is rejected: the line that the program prints, without its end.
    Refused(Vec<u8>),
}

impl Failure {
    // Makes the failure for an error of the library.
    pub(crate) fn of_run(alloc: Global, fault: &RunFault) -> Failure
        ensures { IsFailureBy (line_of fault.now) result }
    {
        match ix_run::fault_line(alloc, fault) {
            Ok(line) => Failure::Refused(line.into_bytes()),
            Err(_) => Failure::Memory,
        }
    }

    // Makes the failure with this text.
    pub(crate) fn of_words(alloc: Global, words: &str) -> Failure
        ensures { IsFailureBy words.now result }
    {
        match Vec::from_slice(alloc, words.as_bytes()) {
            Ok(line) => Failure::Refused(line),
            Err(_) => Failure::Memory,
        }
    }

    // Makes the failure for an error of a selector.
    pub(crate) fn of_notation(alloc: Global, fault: &NotationFault) -> Failure
        ensures { IsFailureBy (selector_line_of fault.now) result }
    {
        match ix_selector_json::fault_line(alloc, fault) {
            Ok(line) => Failure::Refused(line.into_bytes()),
            Err(_) => Failure::Memory,
        }
    }

    // Makes the failure for parts that make no job.
    pub(crate) fn of_parts(alloc: Global, fault: PartsFault) -> Failure
        ensures { IsFailureBy (parts_line fault) result }
    {
        match fault {
            PartsFault::Root(fault) => Failure::of_run(alloc, &RunFault::Root(fault)),
            PartsFault::Block(fault) => Failure::of_notation(alloc, &NotationFault::Block(fault)),
            PartsFault::Selector(fault) => Failure::of_notation(
                alloc,
                &NotationFault::Selector(fault),
            ),
            PartsFault::Job(fault) => Failure::of_words(alloc, job_words(fault)),
            PartsFault::Memory => Failure::Memory,
        }
    }
}

// The text for a limit or a number of roots that no job has.
fn job_words(fault: JobFault) -> &'static str
    ensures { result.now ≡ job_words fault }
{
    match fault {
        JobFault::Name => "job: name",
        JobFault::LimitZero | JobFault::LimitTooLarge => "job: limit",
        JobFault::NoRoot => "job: no root",
        JobFault::TooManyRoots => "job: too many roots",
    }
}
