//! Prints the report to standard error.

use std::str;

/// Prints the report of a run to standard error. If it can't be written, there is no one to report to.
pub fn print_report<R: Eprint>(rt: &R, report: &[u8]) {
    // A report is ASCII text.
    if let Ok(text) = str::from_utf8(report) {
        let _ = rt.eprint(text);
    }
}
