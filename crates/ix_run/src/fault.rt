//! The errors of a run and of the command `root`.

ghost use Rattle.std.specs.Prelude.{◌≡◌, IfOk, string_bytes};
ghost use Rattle.ix_run.specs.FaultLine.{line_of};

use ix_cid::CidFault;
use ix_jobs::JobsFault;
use ix_sections::CarFault;
use std::alloc::{AllocError, AllocFailed, Global};
use thiserror::Error;

/// Why a command of the program fails.
#[derive(Debug, Drop, Error)]
pub enum RunFault {
    /// Standard input is not hex.
    #[error("the input isn't hex")]
    Hex,
    /// The text of the root is not a CIDv1.
    #[error("the root isn't a CID: {0}")]
    Root(CidFault),
    /// The input is not a CARv1 file.
    #[error("the input isn't a CARv1 file: {0:?}")]
    Car(CarFault),
    /// The job file is rejected.
    #[error("the job file is rejected: {0:?}")]
    Jobs(JobsFault),
    /// The header of the archive of the job with this number, from 0, could not be written.
    #[error("the header of the archive of job {0} can't be written")]
    Write(u32),
    /// Memory ran out.
    #[error("out of memory")]
    Memory,
}

impl From<AllocError> for RunFault {
    ghost use Rattle.std.specs.Prelude.{◌≡◌};
    ghost use Rattle.ix_run.specs.declared.fault.RunFault.TheVariants.{Memory};

    ghost from_gives = { λ _ e. e ≡ Memory };

    fn from(_error: AllocError) -> RunFault {
        RunFault::Memory
    }
}

impl<T: Drop> From<AllocFailed<T>> for RunFault {
    ghost use Rattle.std.specs.Prelude.{◌≡◌};
    ghost use Rattle.ix_run.specs.declared.fault.RunFault.TheVariants.{Memory};

    ghost from_gives = { λ _ e. e ≡ Memory };

    fn from(_error: AllocFailed<T>) -> RunFault {
        RunFault::Memory
    }
}

impl From<CidFault> for RunFault {
    ghost use Rattle.std.specs.Prelude.{◌≡◌};
    ghost use Rattle.ix_run.specs.declared.fault.RunFault.TheVariants.{Root};

    ghost from_gives = { λ fault e. e ≡ Root fault };

    fn from(fault: CidFault) -> RunFault {
        RunFault::Root(fault)
    }
}

impl From<CarFault> for RunFault {
    ghost use Rattle.std.specs.Prelude.{◌≡◌};
    ghost use Rattle.ix_run.specs.declared.fault.RunFault.TheVariants.{Car};

    ghost from_gives = { λ fault e. e ≡ Car fault };

    fn from(fault: CarFault) -> RunFault {
        RunFault::Car(fault)
    }
}

impl From<JobsFault> for RunFault {
    ghost use Rattle.std.specs.Prelude.{◌≡◌};
    ghost use Rattle.ix_run.specs.declared.fault.RunFault.TheVariants.{Jobs};

    ghost from_gives = { λ fault e. e ≡ Jobs fault };

    fn from(fault: JobsFault) -> RunFault {
        RunFault::Jobs(fault)
    }
}

/// Returns the line that the program prints for an error, without its end.
pub fn fault_line(alloc: Global, fault: &RunFault) -> Result<String, AllocError>
    ensures { IfOk result (λ line. string_bytes line ≡ line_of fault.now) }
{
    match fault {
        RunFault::Hex => String::from_str(alloc, "input: hex"),
        RunFault::Root(fault) => format!(in alloc; "root: {fault}"),
        RunFault::Car(fault) => {
            let kind = fault.kind;
            let place = fault.place;
            format!(in alloc; "blocks: {kind} at {place}")
        }
        RunFault::Jobs(fault) => {
            let kind = fault.kind;
            let line = fault.line;
            format!(in alloc; "jobs: {kind} at line {line}")
        }
        RunFault::Write(number) => format!(in alloc; "cannot write job {number}"),
        RunFault::Memory => String::from_str(alloc, "memory"),
    }
}
