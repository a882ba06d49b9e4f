//! How the progress of a command is shown.

use crate::options::{ArgSpec, PROGRESS};
use clap::ArgMatches;
use ix_cli_io::ProgressMode;

// After so many milliseconds a terminal shows progress by default.
const SHORT_RUN: u64 = 2_000;

/// Returns how progress is shown. The flag `quiet` turns it off.
pub fn progress_mode<'a>(
    words: &ArgMatches<'a>,
    quiet: &ArgSpec,
    is_terminal: bool,
) -> ProgressMode {
    let is_asked = PROGRESS.is_given(words);
    if quiet.is_given(words) {
        ProgressMode::Off
    } else if is_terminal {
        ProgressMode::Line(if is_asked { 0 } else { SHORT_RUN })
    } else if is_asked {
        ProgressMode::Lines
    } else {
        ProgressMode::Off
    }
}
