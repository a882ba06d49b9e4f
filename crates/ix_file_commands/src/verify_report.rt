//! What the command `verify` prints of a file.

use crate::car_input::NOT_SOUND;
use crate::exact::Inexact;
use crate::json_verify::{no_file_object, report_object};
use ix_car::Skip;
use ix_cbor::CborFault;
use ix_cid::HashFunction;
use ix_cli_io::{Failure, STANDARD_INPUT};
use ix_options::print_all;
use ix_path::{cause_word, fault_in};
use ix_run::RunFault;
use ix_sections::read_section;
use ix_verdict::Verdict;
use ix_verify::{Findings, Outcome, Unsound};
use std::alloc::{AllocError, Global};
use std::io::{self, BufWriter, ErrorKind, Write};

// The outcome of a file that is no worse than incomplete, and not exactly what is asked for.
const INEXACT: &str = "inexact";

/// The outcome of a file that isn't there.
pub(crate) const NO_FILE: &str = "no-file";

/// The report on a file.
#[derive(Drop)]
pub(crate) struct Report<'a> {
    pub path: &'a str,
    pub bytes: usize,
    /// The CARv1 file that was verified, and its offset in the file.
    pub car: &'a [u8],
    pub start: usize,
    pub found: &'a Findings,
    /// The first place at which it isn't exactly what is asked for, if it was to be.
    pub inexact: Option<&'a Inexact>,
    /// How many findings are printed at most, and whether these are all, with the line of the file after them.
    pub most: usize,
    pub prints_all: bool,
    pub is_json: bool,
    /// Whether it is printed how many blocks are absent.
    pub shows_absent: bool,
    /// The paths of the links that were kept, in their order, or none.
    pub paths: &'a [Option<String>],
}

impl<'a> Report<'a> {
    /// Returns whether the file is sound.
    pub(crate) fn is_whole(&self) -> bool {
        self.found.outcome() == Outcome::Sound && self.inexact.is_none()
    }

    /// Returns the word for the outcome.
    pub(crate) fn outcome(&self, alloc: Global) -> Result<String, AllocError> {
        match (self.found.outcome(), self.inexact) {
            (Outcome::Sound | Outcome::Incomplete, Some(_)) => String::from_str(alloc, INEXACT),
            (outcome, _) => format!(in alloc; "{outcome}"),
        }
    }

    /// Returns how many links are printed: with the sections no more than may be. The sections that were
    /// kept are no more than may be printed.
    pub(crate) fn links(&self) -> usize {
        let sections = self.found.unsound.first.len();
        let links = self.found.skips.first.len();
        links.min(self.most.saturating_sub(sections))
    }

    /// Returns the first error of the block of a section, if it is malformed.
    pub(crate) fn section_cause(&self, section: &Unsound) -> Option<CborFault> {
        if section.verdict != Verdict::Malformed {
            return None;
        }
        let rest = self.car.get(section.place..)?;
        let (section, _) = read_section(rest.len(), rest).ok()?;
        fault_in(section.block)
    }

    /// Returns the first error of what a link leads to, if it is malformed: of an identity CID, or of a section that is
    /// among the findings.
    pub(crate) fn link_cause(&self, skip: &Skip) -> Option<CborFault> {
        if skip.verdict != Verdict::Malformed {
            return None;
        }
        if skip.cid.parts().hash_function() == Some(HashFunction::Identity) {
            return fault_in(skip.cid.digest());
        }
        let mut sections = self.found.unsound.first.iter();
        let section = sections.find(|section| section.cid == skip.cid)?;
        self.section_cause(section)
    }

    /// Returns the path of the link of this number, if it is known.
    pub(crate) fn link_path(&self, number: usize) -> Option<&str> {
        let path = self.paths.get(number)?;
        path.as_ref().map(|path| path.as_str())
    }

    /// Returns the path of the first link to the block of a section, if it is among the findings and known.
    pub(crate) fn section_path(&self, section: &Unsound) -> Option<&str> {
        let mut skips = self.found.skips.first.iter();
        self.link_path(skips.position(|skip| skip.cid == section.cid)?)
    }

    /// Returns how many findings aren't printed.
    pub(crate) fn more(&self) -> usize {
        let Findings { unsound, skips, .. } = self.found;
        let printed = unsound.first.len().saturating_add(self.links());
        let findings = unsound.count.saturating_add(skips.count);
        findings.saturating_sub(printed)
    }
}

// Why a report isn't printed whole.
#[derive(Drop)]
enum Stop {
    Memory,
    Output(io::Error),
}

impl From<AllocError> for Stop {
    fn from(_error: AllocError) -> Stop {
        Stop::Memory
    }
}

impl From<io::Error> for Stop {
    fn from(error: io::Error) -> Stop {
        Stop::Output(error)
    }
}

/// Prints the report on a file and returns its status. If the reader closed the pipe, the rest isn't
/// wanted.
pub(crate) fn print_report<R: AllocGlobal + Print>(
    rt: &R,
    report: &Report<'_>,
) -> Result<u8, Failure> {
    let status = if report.is_whole() { 0 } else { NOT_SOUND };
    match write_report(rt, report) {
        Ok(()) => Ok(status),
        Err(Stop::Output(error)) if error.kind() == ErrorKind::BrokenPipe => Ok(status),
        Err(Stop::Output(error)) => {
            Err(Failure::cannot_write(rt.alloc(), STANDARD_INPUT, &error))
        }
        Err(Stop::Memory) => Err(Failure::Fault(RunFault::Memory)),
    }
}

/// Prints that a file isn't there, as text or as JSON.
pub(crate) fn print_no_file<R: AllocGlobal + Print>(
    rt: &R,
    path: &str,
    is_json: bool,
) -> Result<(), Failure> {
    let alloc = rt.alloc();
    if is_json {
        return print_all(rt, no_file_object(alloc, path)?.as_slice());
    }
    print_all(rt, format!(in alloc; "{path} {NO_FILE}\n")?.as_bytes())
}

fn write_report<R: AllocGlobal + Print>(rt: &R, report: &Report<'_>) -> Result<(), Stop> {
    let alloc = rt.alloc();
    let mut output = BufWriter::new(alloc, io::writer(rt))?;
    if report.is_json {
        output.write_all(report_object(alloc, report)?.as_slice())?;
    } else if report.prints_all {
        write_findings(alloc, &mut output, report)?;
        write_summary(alloc, &mut output, report)?;
    } else {
        write_summary(alloc, &mut output, report)?;
        write_findings(alloc, &mut output, report)?;
    }
    output.flush()?;
    Ok(())
}

// Writes the line of the file.
fn write_summary<W: Write>(alloc: Global, output: &mut W, report: &Report<'_>) -> Result<(), Stop> {
    let Report {
        path,
        bytes,
        found,
        ..
    } = report;
    let sections = found.sections;
    let outcome = report.outcome(alloc)?;
    let mut line = format!(in alloc; "{path} {outcome} sections={sections} bytes={bytes}")?;
    if !report.is_whole() {
        let (unsound, skips) = (found.unsound.count, found.skips.count);
        line.push_str(format!(in alloc; " unsound={unsound} skips={skips}")?.as_str())?;
    }
    if report.shows_absent {
        line.push_str(format!(in alloc; " absent={}", found.absent)?.as_str())?;
    }
    line.push('\n')?;
    output.write_all(line.as_bytes())?;
    Ok(())
}

// Writes a line for each finding, up to the most, then how many more there are, and whether the walk
// ended at its limit.
fn write_findings<W: Write>(
    alloc: Global,
    output: &mut W,
    report: &Report<'_>,
) -> Result<(), Stop> {
    let found = report.found;
    for section in &found.unsound.first {
        write_section(alloc, output, report, section)?;
    }
    for (number, skip) in found.skips.first.iter().enumerate().take(report.links()) {
        let (verdict, cid) = (skip.verdict, skip.cid.text(alloc)?);
        let cause = cause_text(alloc, report.link_cause(skip))?;
        let path = path_text(alloc, report.link_path(number))?;
        writeln!(output, "  link {verdict} {cid}{cause}{path}")?;
    }
    let more = report.more();
    if more > 0 {
        let line = format!(in alloc; "  and {more} more (--all prints each)\n")?;
        output.write_all(line.as_bytes())?;
    }
    if found.is_over_limit {
        output.write_all(b"  limit\n")?;
    }
    match report.inexact {
        Some(inexact) => write_inexact(alloc, output, report.start, inexact),
        None => Ok(()),
    }
}

// Writes the line for the first place at which a CARv1 file, which begins at an offset, isn't what is asked for.
fn write_inexact<W: Write>(
    alloc: Global,
    output: &mut W,
    start: usize,
    inexact: &Inexact,
) -> Result<(), Stop> {
    let place = start.saturating_add(inexact.place);
    let mut line = format!(in alloc; "  exact {place} {}", inexact.reason)?;
    if let Some(cid) = &inexact.cid {
        line.push_str(format!(in alloc; " {}", cid.text(alloc)?)?.as_str())?;
    }
    line.push('\n')?;
    output.write_all(line.as_bytes())?;
    Ok(())
}

// Writes the line for a section.
fn write_section<W: Write>(
    alloc: Global,
    output: &mut W,
    report: &Report<'_>,
    section: &Unsound,
) -> Result<(), Stop> {
    let (verdict, cid) = (section.verdict, section.cid.text(alloc)?);
    let place = report.start.saturating_add(section.place);
    let cause = cause_text(alloc, report.section_cause(section))?;
    let path = path_text(alloc, report.section_path(section))?;
    writeln!(output, "  section {place} {verdict} {cid}{cause}{path}")?;
    Ok(())
}

// Makes the text of a path after a finding.
fn path_text(alloc: Global, path: Option<&str>) -> Result<String, AllocError> {
    match path {
        Some(path) => format!(in alloc; " {path}"),
        None => Ok(String::new(alloc)),
    }
}

// Makes the text after a finding that is malformed.
fn cause_text(alloc: Global, fault: Option<CborFault>) -> Result<String, AllocError> {
    match fault {
        Some(fault) => {
            let (cause, place) = (cause_word(fault.kind), fault.place);
            format!(in alloc; ": {cause} at {place}")
        }
        None => Ok(String::new(alloc)),
    }
}
