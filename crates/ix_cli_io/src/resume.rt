//! Which archives of a job file an earlier run has left.

ghost use Rattle.std.specs.Prelude.{◌≡◌, ◌+◌, vec_len, length, take, bytes_eq, IfOk, IfSome};

use crate::fault::Failure;
use crate::files::read_all;
use crate::outputs::job_path;
use ix_sections::header_of;
use ix_walk::Job;
use std::alloc::Global;
use std::fs::{self, File};
use std::io::Read;
use std::rt::Files;

/// Takes the jobs out whose archives are in a folder, and returns how many these were. The archive of a job
/// is there if a regular file has its name, and no link, and begins with the header of the job. A file that
/// can't be read doesn't count.
pub fn without_archived<R: AllocGlobal + Files<File = File>>(
    rt: &R,
    folder: &str,
    jobs: Vec<Job>,
) -> (Vec<Job>, usize)
    ensures { vec_len result.0 + result.1 ≡ vec_len jobs }
{
    let mut jobs = jobs;
    let all = jobs.len();
    jobs.retain(|job| !has_archive(rt, folder, job));
    let left_out = all - jobs.len();
    (jobs, left_out)
}

// Returns whether the archive of a job is in a folder.
fn has_archive<R: AllocGlobal + Files<File = File>>(rt: &R, folder: &str, job: &Job) -> bool {
    match find_archive(rt, folder, job) {
        Ok(is_there) => is_there,
        Err(_) => false,
    }
}

// Returns whether the archive of a job is in a folder, unless it can't be read.
fn find_archive<R: AllocGlobal + Files<File = File>>(
    rt: &R,
    folder: &str,
    job: &Job,
) -> Result<bool, Failure> {
    let path = job_path(rt.alloc(), folder, job)?;
    match fs::symlink_metadata(rt, path.as_str()) {
        Ok(metadata) if metadata.is_file() => {}
        _ => return Ok(false),
    }
    let header = header_of(rt.alloc(), job.roots())?;
    match fs::open(rt, path.as_str()) {
        Ok(file) => begins_with(rt.alloc(), file, header.as_slice(), path.as_str()),
        Err(error) => Err(Failure::cannot_read(rt.alloc(), path.as_str(), &error)),
    }
}

// Returns whether what a reader of a path gives begins with these bytes. No more than so many are read.
fn begins_with<R: Read + Drop>(
    alloc: Global,
    reader: R,
    wanted: &[u8],
    path: &str,
) -> Result<bool, Failure>
    ensures { IfOk result (λ begins. IfSome (R.remaining reader) (λ bytes.
        begins ≡ bytes_eq (take (length wanted.now) bytes) wanted.now)) }
{
    let most = wanted.len() as u64;
    let front = read_all(alloc, reader.take(most), wanted.len(), most, path)?;
    Ok(front.as_slice() == wanted)
}
