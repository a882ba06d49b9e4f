//! What verifiers send.

use ix_car::End;
use ix_check::Verdict;
use ix_walk::Visit;

/// An answer that a verifier sends for an item that it took.
#[derive(Debug, Drop)]
pub enum Verdicted {
    /// A visit with its verdict.
    Checked { visit: Visit, verdict: Verdict },
    /// A visit whose check ran out of memory.
    Unchecked { job: u32, seq: u32 },
    /// The end of a job's walk; `seq` is how many visits it has put.
    Close { job: u32, seq: u32, end: End },
    /// A verifier's last item.
    Last,
}
