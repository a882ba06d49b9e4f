//! The lines of errors, also of those that no input gives.

use ix_cid::CidFault;
use ix_jobs::{JobErrorKind, JobsFault};
use ix_run::{RunFault, fault_line};
use ix_sections::{CarFault, CarKind};
use std::test::Fail;

fn car(kind: CarKind, place: usize) -> RunFault {
    RunFault::Car(CarFault { kind, place })
}

fn jobs(kind: JobErrorKind, line: u64) -> RunFault {
    RunFault::Jobs(JobsFault { kind, line })
}

#[test]
fn fault_lines(rt: HostRuntime) -> Result<(), Fail> {
    let alloc = rt.alloc();
    let cases = [
        (car(CarKind::Truncated, 18), "blocks: truncated at 18"),
        (car(CarKind::Version(-2), 0), "blocks: version -2 at 0"),
        (car(CarKind::Memory, 7), "blocks: memory at 7"),
        (RunFault::Root(CidFault::Multibase), "root: multibase"),
        (RunFault::Root(CidFault::Version(18)), "root: version 18"),
        (RunFault::Root(CidFault::Memory), "root: memory"),
        (jobs(JobErrorKind::Repeated, 2), "jobs: repeated at line 2"),
        (jobs(JobErrorKind::Fields, 1), "jobs: fields at line 1"),
        (
            jobs(JobErrorKind::TooMany, 1001),
            "jobs: too many at line 1001",
        ),
        (jobs(JobErrorKind::Memory, 1), "jobs: memory at line 1"),
        (RunFault::Write(0), "cannot write job 0"),
        (RunFault::Hex, "input: hex"),
        (RunFault::Memory, "memory"),
    ];
    for (fault, line) in &cases {
        let made = fault_line(alloc, fault)?;
        assert_eq!(rt; made.as_str(), *line);
    }
    Ok(())
}
