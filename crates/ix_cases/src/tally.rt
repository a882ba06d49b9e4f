//! How many cases agree.

use crate::bench::Outcome;
use std::fmt;

/// How many files and cases there were.
#[derive(Clone, Copy)]
pub struct Tally {
    files: u64,
    agreeing: u64,
    pub differing: u64,
}

impl Tally {
    /// Nothing was counted so far.
    pub fn new() -> Tally {
        Tally {
            files: 0,
            agreeing: 0,
            differing: 0,
        }
    }

    /// Counts a file.
    pub fn count_file(&mut self) {
        self.files = self.files.saturating_add(1);
    }

    /// Counts what came of a line.
    pub fn count(&mut self, outcome: &Outcome) {
        match outcome {
            Outcome::Nothing => {}
            Outcome::Agrees => self.agreeing = self.agreeing.saturating_add(1),
            Outcome::Differs(_) => self.differing = self.differing.saturating_add(1),
        }
    }
}

impl fmt::Display for Tally {
    fn fmt<W: fmt::Write>(&self, f: &mut fmt::Formatter<W>) -> fmt::Result {
        let Tally {
            files,
            agreeing,
            differing,
        } = *self;
        write!(f, "{agreeing} cases of {files} files agree")?;
        if differing > 0 {
            write!(f, ", {differing} differ")?;
        }
        Ok(())
    }
}
