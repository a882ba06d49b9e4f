//! The setup of an example, for the calls after its lines.

use crate::walks::{MATCHER, job_of};
use anyhow::{Context, Error, Result, bail};
use ix_car::{Counts, End, Skip};
use ix_case_formats::cids::cid_of;
use ix_case_formats::texts::{bytes_of_hex, two_words};
use ix_check::Verdict;
use ix_jobs::JobResult;
use ix_store::Store;
use ix_walk::Job;
use std::alloc::Global;

// The header of a CARv1 file without roots, in hex.
const HEADER: &str = "11a265726f6f7473806776657273696f6e01";

// The root of each job in a report.
const TOLD_ROOT: &str = "01550000";

/// The setup of an example.
#[derive(Drop)]
pub struct Example {
    alloc: Global,
    name: String,
    /// The blocks of `add` and `car`.
    pub store: Store,
    /// The CARv1 file, and below, each of its sections, in hex.
    car: String,
    sections: Vec<String>,
    /// The job file.
    pub jobs: String,
    /// The expected outcome of a run, job by job: how many bytes its writer takes, and its archive.
    pub report: String,
    pub status: String,
    pub rooms: Vec<usize>,
    pub archives: Vec<Vec<u8>>,
    /// The results of jobs, for a report.
    pub told: Vec<Job>,
    pub results: Vec<JobResult>,
}

impl Example {
    /// An example of which nothing was set up so far.
    pub fn new(alloc: Global, name: &str) -> Result<Example> {
        Ok(Example {
            alloc,
            name: String::from_str(alloc, name)?,
            store: Store::new(alloc),
            car: String::from_str(alloc, HEADER)?,
            sections: Vec::new(alloc),
            jobs: String::new(alloc),
            report: String::new(alloc),
            status: String::new(alloc),
            rooms: Vec::new(alloc),
            archives: Vec::new(alloc),
            told: Vec::new(alloc),
            results: Vec::new(alloc),
        })
    }

    /// The name.
    pub fn name(&self) -> &str {
        self.name.as_str()
    }

    /// The CARv1 file.
    pub fn car(&self) -> Result<Vec<u8>> {
        bytes_of_hex(self.alloc, self.car.as_str())
    }

    /// Sets up what a line says, and answers whether its word is one of these: `section HEX`, `job
    /// LINE`, `report LINE`, `status NUMBER`, `room NUMBER`, `archive HEADER NUMBER ..` (the numbers
    /// of sections, from 0), `result NAME END VISITS KEPT SECTIONS BYTES`, `skip SEQ VERDICT CID`.
    pub fn set(&mut self, word: &str, rest: &str) -> Result<bool> {
        let set = match word {
            "section" => self.add_section(rest),
            "job" => push_line(&mut self.jobs, rest),
            "report" => push_line(&mut self.report, rest),
            "status" => self.status.push_str(rest).map_err(Error::from),
            "room" => self.add_room(rest),
            "archive" => self.add_archive(rest),
            "result" => self.add_result(rest),
            "skip" => self.add_skip(rest),
            _ => return Ok(false),
        };
        set?;
        Ok(true)
    }

    // Adds how many bytes a job's writer takes.
    fn add_room(&mut self, room: &str) -> Result<()> {
        self.rooms.push(room.parse::<usize>()?).map_err(Error::from)
    }

    // Adds a section to the file.
    fn add_section(&mut self, section: &str) -> Result<()> {
        self.car.push_str(section)?;
        self.sections.push(section.to_string(self.alloc)?)?;
        Ok(())
    }

    // Adds an archive: a header, and the sections with these numbers.
    fn add_archive(&mut self, line: &str) -> Result<()> {
        let archive = self.archive_of(line)?;
        let archive = bytes_of_hex(self.alloc, archive.as_str())?;
        self.archives.push(archive)?;
        Ok(())
    }

    // A header and the sections with these numbers, in hex.
    fn archive_of(&self, line: &str) -> Result<String> {
        let mut words = line.split(' ');
        let mut archive = String::from_str(self.alloc, words.next().unwrap_or(""))?;
        for number in words {
            archive.push_str(self.section(number)?)?;
        }
        Ok(archive)
    }

    // The section with this number, in hex.
    fn section(&self, number: &str) -> Result<&str> {
        let section = self.sections.get(number.parse::<usize>()?);
        Ok(section.context("no such section")?.as_str())
    }

    // Adds the result of a job: its name, its end and its counts.
    fn add_result(&mut self, line: &str) -> Result<()> {
        let (name, result) = result_of(self.alloc, line)?;
        self.told
            .push(job_of(self.alloc, name, TOLD_ROOT, "1", MATCHER)?)?;
        self.results.push(result)?;
        Ok(())
    }

    // Adds a skip to the result of the last job.
    fn add_skip(&mut self, line: &str) -> Result<()> {
        let skip = skip_of(self.alloc, line)?;
        let result = self.results.last_mut().context("no job")?;
        result.skips.push(skip)?;
        Ok(())
    }
}

// The name of a job, and its result.
fn result_of(alloc: Global, line: &str) -> Result<(&str, JobResult)> {
    let words: Vec<&str> = line.split(' ').collect(alloc)?;
    result_of_words(alloc, words.as_slice())
}

// The same of the words of the line.
fn result_of_words<'a>(alloc: Global, words: &[&'a str]) -> Result<(&'a str, JobResult)> {
    let [name, end, visits, kept, sections, bytes] = words else {
        bail!("six words are wanted");
    };
    let counts = counts_of(visits, kept, sections, bytes)?;
    let end = end_of(end)?;
    let skips = Vec::new(alloc);
    Ok((name, JobResult { end, counts, skips }))
}

// The counts that these words say.
fn counts_of(visits: &str, kept: &str, sections: &str, bytes: &str) -> Result<Counts> {
    Ok(Counts {
        visits: visits.parse::<u32>()?,
        kept: kept.parse::<u32>()?,
        sections: sections.parse::<u32>()?,
        bytes: bytes.parse::<u64>()?,
        known: None,
    })
}

// The skip that a line `SEQ VERDICT CID` says.
fn skip_of(alloc: Global, line: &str) -> Result<Skip> {
    let (seq, rest) = two_words(line)?;
    let (verdict, cid) = two_words(rest)?;
    let seq = seq.parse::<u32>()?;
    let cid = cid_of(alloc, cid)?;
    let verdict = verdict_of(verdict)?;
    Ok(Skip { seq, cid, verdict })
}

// The end with this word.
fn end_of(word: &str) -> Result<End> {
    match word {
        "done" => Ok(End::Done),
        "limit" => Ok(End::Limit),
        "memory" => Ok(End::Memory),
        "write" => Ok(End::Write),
        "start" => Ok(End::Start),
        _ => bail!("no end: {word}"),
    }
}

// The verdict with this word.
fn verdict_of(word: &str) -> Result<Verdict> {
    match word {
        "codec" => Ok(Verdict::Codec),
        "hash" => Ok(Verdict::Hash),
        "missing" => Ok(Verdict::Missing),
        "damaged" => Ok(Verdict::Damaged),
        "malformed" => Ok(Verdict::Malformed),
        "inline" => Ok(Verdict::Inline),
        _ => bail!("no verdict of a skip: {word}"),
    }
}

// Appends a line and its end.
fn push_line(text: &mut String, line: &str) -> Result<()> {
    text.push_str(line)?;
    text.push('\n')?;
    Ok(())
}
