//! The archives of the jobs of a job file, which `verify --jobs` verifies.

use crate::exact::{Inexact, inexact_header};
use crate::verify_spec::{FILES, JOBS, PATH, SPEC, WITH};
use clap::ArgMatches;
use clap::error::ErrorKind as UsageKind;
use ix_cli_io::{Failure, STANDARD_INPUT, read_input};
use ix_jobs::Part;
use ix_load::{PART, SCOPE, given_part, job_file_failure};
use ix_run::{JobChoice, RunFault, load_jobs};
use ix_sections::read_header;
use ix_walk::Job;
use std::alloc::{AllocError, Global};
use std::fs::File;
use std::rt::Files;

// The limit of each job in place of its own: an archive has all that is asked for.
const LIMIT: &[u8] = b"4294967295";

// The number of the field with the limit, counted from 0.
const LIMIT_FIELD: u32 = 2;

/// A job file, and the folder that has an archive for each job.
#[derive(Clone, Copy)]
pub(crate) struct JobArchives<'a> {
    job_file: &'a str,
    folder: &'a str,
    part: Option<Part>,
}

impl<'a> JobArchives<'a> {
    /// Reads the arguments. Returns None if they name no job file.
    pub(crate) fn given(
        alloc: Global,
        words: &ArgMatches<'a>,
    ) -> Result<Option<JobArchives<'a>>, Failure> {
        let part = given_part(alloc, &SPEC, words)?;
        let Some(job_file) = JOBS.optional_text(words) else {
            return match part {
                None => Ok(None),
                Some(_) => Err(refused(alloc, "'--part <K/N>' is for '--jobs <FILE>'")?),
            };
        };
        if SCOPE.optional_text(words).is_some() || PATH.optional_text(words).is_some() {
            let message = "'--jobs <FILE>' says what is asked for, so it can't be used with \
'--path <PATH>' or '--scope <SCOPE>'";
            return Err(refused(alloc, message)?);
        }
        let others = words.get_strs(WITH.name).unwrap_or(&[]);
        if job_file == STANDARD_INPUT && others.contains(&STANDARD_INPUT) {
            let message = "standard input is given for '--jobs <FILE>' and for '--with <FILE>'";
            return Err(refused(alloc, message)?);
        }
        match words.get_strs(FILES.name).unwrap_or(&[]) {
            [folder] => Ok(Some(JobArchives {
                job_file,
                folder,
                part,
            })),
            _ => Err(refused(
                alloc,
                "'--jobs <FILE>' needs one folder in place of '<FILE>...'",
            )?),
        }
    }

    /// Reads the jobs, each without its limit and expanding a block once. The job file may have so many bytes.
    pub(crate) fn read<R: AllocGlobal + Files<File = File> + Input>(
        &self,
        rt: &R,
        most: u64,
    ) -> Result<Vec<Job>, Failure> {
        let alloc = rt.alloc();
        let file = read_input(rt, self.job_file, most)?;
        // The file is to be one that the command `jobs` accepts.
        self.load(alloc, file.as_slice())?;
        let unlimited = without_limits(alloc, file.as_slice())?;
        self.load(alloc, unlimited.as_slice())
    }

    // Reads the jobs of the part that is asked for.
    fn load(&self, alloc: Global, file: &[u8]) -> Result<Vec<Job>, Failure> {
        let choice = JobChoice {
            part: self.part,
            greatest_limit: u32::MAX,
            once: true,
        };
        match load_jobs(alloc, file, choice) {
            Ok(jobs) => Ok(jobs),
            Err(RunFault::Jobs(fault)) => {
                Err(job_file_failure(alloc, self.job_file, file, fault, u32::MAX))
            }
            Err(fault) => Err(Failure::from(fault)),
        }
    }

    /// Returns the path of the archive of a job.
    pub(crate) fn path_of(&self, alloc: Global, job: &Job) -> Result<String, AllocError> {
        let (folder, name) = (self.folder, job.name());
        format!(in alloc; "{folder}/{name}.car")
    }
}

/// Returns that the header of a CARv1 file doesn't have the roots of a job, or None if it has.
pub(crate) fn other_header(
    alloc: Global,
    car: &[u8],
    job: &Job,
) -> Result<Option<Inexact>, AllocError> {
    match read_header(alloc, car) {
        Ok((roots, _)) if roots.as_slice() == job.roots() => Ok(None),
        _ => Ok(Some(inexact_header(alloc)?)),
    }
}

// Makes the error for arguments that don't go together.
fn refused(alloc: Global, message: &str) -> Result<Failure, AllocError> {
    Ok(Failure::from(SPEC.refusal(alloc, UsageKind::ArgumentConflict, message)?))
}

// Returns a job file in which each job has the greatest limit. In a comment it replaces a word.
fn without_limits(alloc: Global, file: &[u8]) -> Result<Vec<u8>, AllocError> {
    let mut text = Vec::with_capacity(alloc, file.len())?;
    let mut field = 0u32;
    for byte in file {
        let is_end = *byte == b'\n';
        if is_end || *byte == b' ' {
            field = if is_end { 0 } else { field.saturating_add(1) };
            text.push(*byte)?;
            if field == LIMIT_FIELD {
                text.extend_from_slice(LIMIT)?;
            }
        } else if field != LIMIT_FIELD {
            text.push(*byte)?;
        }
    }
    Ok(text)
}
