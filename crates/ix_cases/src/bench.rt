//! Lines of case files.

use crate::answers::answer;
use crate::example::Example;
use anyhow::{Context, Error, Result};
use ix_case_formats::Names;
use std::alloc::{AllocError, Global};
use std::sync::Wait;
use std::thread::Threads;

/// The outcome of a line.
#[derive(Drop)]
pub enum Outcome {
    /// The line sets something up, or is ignored.
    Nothing,
    /// The answer is the expected one.
    Agrees,
    /// The answer differs: the text for the user.
    Differs(String),
}

impl Outcome {
    /// The text for the user about a case that differs.
    pub fn difference(&self) -> Option<&str> {
        match self {
            Outcome::Differs(text) => Some(text.as_str()),
            _ => None,
        }
    }
}

/// The names and setup of the lines so far.
#[derive(Drop)]
pub struct Bench {
    alloc: Global,
    names: Names,
    example: Example,
}

impl Bench {
    /// Nothing is named or set up so far.
    pub fn new(alloc: Global) -> Result<Bench> {
        Ok(Bench {
            alloc,
            names: Names::new(alloc),
            example: Example::new(alloc, "no example")?,
        })
    }

    /// Returns the name of the last line's example.
    pub fn example_name(&self) -> &str {
        self.example.name()
    }

    /// Runs a line. An empty line and one that begins with `#` say nothing, `let NAME
    /// TEXT` names a text, `example NAME` begins an example of which nothing is set up, and any other
    /// line sets something up or is a case, `WORD INPUT = WANTED`.
    pub fn outcome_of<R: Threads + Wait + Sync>(&mut self, rt: &R, line: &str) -> Result<Outcome> {
        match self.try_line(rt, line) {
            Ok(outcome) => Ok(outcome),
            Err(error) => Ok(Outcome::Differs(format!(in self.alloc; "{line}: {error}")?)),
        }
    }

    fn try_line<R: Threads + Wait + Sync>(&mut self, rt: &R, line: &str) -> Result<Outcome> {
        if line.is_empty() || line.starts_with('#') {
            return Ok(Outcome::Nothing);
        }
        let line = self.names.written_out(line)?;
        if self.set(line.as_str())? {
            return Ok(Outcome::Nothing);
        }
        self.try_case(rt, line.as_str())
    }

    // Names or sets up what a line says, and answers whether it is such a line.
    fn set(&mut self, line: &str) -> Result<bool> {
        let (word, rest) = line.split_once(' ').unwrap_or((line, ""));
        let set = match word {
            "let" => self.names.give(rest),
            "example" => self.begin(rest),
            _ => return self.example.set(word, rest),
        };
        set?;
        Ok(true)
    }

    // Begins an example.
    fn begin(&mut self, name: &str) -> Result<()> {
        self.example = Example::new(self.alloc, name)?;
        Ok(())
    }

    // Compares the answer of a case with the expected one.
    fn try_case<R: Threads + Wait + Sync>(&mut self, rt: &R, line: &str) -> Result<Outcome> {
        let (call, wanted) = line.split_once(" = ").context("no ` = `")?;
        let (word, input) = call.split_once(' ').unwrap_or((call, ""));
        let answer = answer(rt, self.alloc, &mut self.example, word, input)?;
        outcome_of_answer(self.alloc, call, wanted, answer.as_str()).map_err(Error::from)
    }
}

// Returns the outcome of a call with this answer.
fn outcome_of_answer(
    alloc: Global,
    call: &str,
    wanted: &str,
    answer: &str,
) -> Result<Outcome, AllocError> {
    if agrees(wanted, answer) {
        return Ok(Outcome::Agrees);
    }
    Ok(Outcome::Differs(format!(in alloc; "{call}\n  wanted {wanted}\n  came   {answer}")?))
}

// Returns whether an answer is the expected one. If the expected text ends with `..`, the answer may
// continue in any way.
fn agrees(wanted: &str, answer: &str) -> bool {
    match wanted.strip_suffix("..") {
        Some(front) => answer.starts_with(front),
        None => answer == wanted,
    }
}
