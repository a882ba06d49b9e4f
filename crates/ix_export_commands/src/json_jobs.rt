//! The report of `get` and `jobs` as JSON.

use crate::skip_paths::{Ran, SkipPaths};
use ix_cli_io::{Naming, is_named_by};
use ix_json_report::{ArchivePlace, push_job, push_total};
use ix_walk::Job;
use std::alloc::{AllocError, Global};
use std::fs;
use std::rt::Files;

/// Where the archives of `jobs` are, and which have their names: those that should, if all could be named.
#[derive(Drop)]
pub(crate) struct ArchiveFolder<'a> {
    pub path: &'a str,
    pub naming: Naming,
    pub are_named: bool,
    /// The sizes of the `.part` files, in the order of the jobs.
    pub part_sizes: Vec<u64>,
}

/// Returns the report of the one job whose archive has this path, or still the one with `.part` after it, if that has
/// a size.
pub(crate) fn file_report(
    alloc: Global,
    path: &str,
    part_size: Option<u64>,
    ran: &Ran<'_>,
    paths: &SkipPaths,
) -> Result<Vec<u8>, AllocError> {
    let mut text = Vec::new(alloc);
    if let Some((job, outcome)) = ran.first() {
        let part = part_of(alloc, path)?;
        let place = match part_size {
            None => ArchivePlace::File(path),
            Some(size) => ArchivePlace::Part(part.as_str(), size),
        };
        text = push_job(alloc, text, job, outcome, ran.notes(0, paths), place)?;
    }
    push_total(text, ran.report.results.as_slice())
}

/// Returns the report of jobs whose archives are in a folder.
pub(crate) fn folder_report(
    alloc: Global,
    folder: &ArchiveFolder<'_>,
    ran: &Ran<'_>,
    paths: &SkipPaths,
) -> Result<Vec<u8>, AllocError> {
    let mut text = Vec::new(alloc);
    for (number, (job, outcome)) in ran.jobs.iter().zip(&ran.report.results).enumerate() {
        let path = path_in(alloc, folder.path, job)?;
        let part = part_of(alloc, path.as_str())?;
        let place = if !is_named_by(folder.naming, job, outcome) {
            let size = folder.part_sizes.get(number).copied().unwrap_or(0);
            ArchivePlace::Part(part.as_str(), size)
        } else if folder.are_named {
            ArchivePlace::File(path.as_str())
        } else {
            ArchivePlace::Unknown
        };
        text = push_job(alloc, text, job, outcome, ran.notes(number, paths), place)?;
    }
    push_total(text, ran.report.results.as_slice())
}

/// Returns the sizes of the `.part` files of jobs in a folder, in their order: 0 where there is none.
pub(crate) fn part_sizes<R: AllocGlobal + Files>(
    rt: &R,
    folder: &str,
    jobs: &[Job],
) -> Result<Vec<u64>, AllocError> {
    let mut sizes = Vec::with_capacity(rt.alloc(), jobs.len())?;
    for job in jobs {
        let path = path_in(rt.alloc(), folder, job)?;
        sizes.push(part_size(rt, path.as_str())?)?;
    }
    Ok(sizes)
}

/// Returns the size of the `.part` file of an archive, or 0 if there is none.
pub(crate) fn part_size<R: AllocGlobal + Files>(rt: &R, path: &str) -> Result<u64, AllocError> {
    let part = part_of(rt.alloc(), path)?;
    Ok(fs::metadata(rt, part.as_str()).map_or(0, |metadata| metadata.len()))
}

// Returns the path of a job's archive.
fn path_in(alloc: Global, folder: &str, job: &Job) -> Result<String, AllocError> {
    let name = job.name();
    format!(in alloc; "{folder}/{name}.car")
}

// Returns the path of an archive before it has its name.
fn part_of(alloc: Global, path: &str) -> Result<String, AllocError> {
    format!(in alloc; "{path}.part")
}
