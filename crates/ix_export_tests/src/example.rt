//! An export from memory, without files: the example of the README.
//!
//! It passes the bytes of a CARv1 file and of a job file to `prepare` and `run`, which returns the report
//! and the archives as bytes. The contract of `run` applies as it is.

use ix_pipeline::Plan;
use ix_run::{prepare, run};
use std::test::Fail;

// A CARv1 file whose root is its one block, the raw bytes `abc`.
const CAR: &str =
    "3aa265726f6f747381d82a58250001551220ba7816bf8f01cfea414140de5dae2223b00361a396177a9cb410ff61f20015ad6776657273696f6e012701551220ba7816bf8f01cfea414140de5dae2223b00361a396177a9cb410ff61f20015ad616263";

// One job, `a`: that root, at most one visit, and the selector of the root alone.
const JOBS: &str = "a bafkreif2pall7dybz7vecqka3zo24irdwabwdi4wc55jznaq75q7eaavvu 1 a1612ea0\n";

const REPORT: &str = "a done visits=1 kept=1 sections=1 bytes=99\ntotal jobs=1 done=1 skips=0\n";

#[test]
fn an_export_from_memory(rt: HostRuntime) -> Result<(), Fail> {
    let alloc = rt.alloc();
    let car = hex::decode(alloc, CAR)?;
    let (store, jobs) = prepare(alloc, car.as_slice(), JOBS.as_bytes())?;
    let writers: Vec<Vec<u8>> = jobs.iter().map(|_| Vec::new(alloc)).collect(alloc)?;
    let plan = Plan {
        walkers: 2,
        queue: 16,
        lane: 16,
    };
    let out = run(&rt, alloc, &store, &jobs, writers, 2, plan)?;
    assert!(rt; out.report.as_slice() == REPORT.as_bytes());
    // The one archive is the file itself.
    assert!(rt; out.writers.as_slice() == [car].as_slice());
    Ok(())
}
