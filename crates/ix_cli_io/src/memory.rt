//! How much memory there is.

ghost use Rattle.std.specs.Prelude.{◌<◌, IfErr};
ghost use Rattle.ix_cli_io.specs.Failure.{IsTooLarge};

use crate::fault::Failure;
use crate::files::STANDARD_INPUT;
use std::fs;
use std::rt::Files;

// Where the system says how much memory is left, and which groups the process is in.
const OF_SYSTEM: &str = "/proc/meminfo";

const GROUPS: &str = "/proc/self/cgroup";

// The files of a group that say how much it may take, and how much it takes: those of both versions of groups.
const LIMIT: [&str; 2] = ["memory.max", "memory.limit_in_bytes"];

const USAGE: [&str; 2] = ["memory.current", "memory.usage_in_bytes"];

// The folders of the groups of both versions.
const FOLDER: [&str; 2] = ["/sys/fs/cgroup", "/sys/fs/cgroup/memory"];

/// Rejects files that together have more bytes than memory is available: the first with which they do. Nothing
/// is rejected where the system doesn't say how much that is, and what is no regular file counts nothing.
pub fn check_memory<R: AllocGlobal + Files>(rt: &R, paths: &[&str]) -> Result<(), Failure> {
    let Some(free) = available_memory(rt) else {
        return Ok(());
    };
    let mut size: u64 = 0;
    for path in paths {
        let which = if size == 0 {
            "it has"
        } else {
            "it and the files before it have"
        };
        size = size.saturating_add(size_of(rt, path));
        if size > free {
            let cause = format!(in rt.alloc();
                "{which} {size} bytes, and {free} bytes of memory are available: free some, or use a machine with more"
            )?;
            return Err(Failure::too_large(rt.alloc(), path, cause));
        }
    }
    Ok(())
}

/// Rejects the file at a path if so many bytes for the index of its blocks, and of those of the files before, are more
/// than memory is available.
pub fn check_index<R: AllocGlobal + Files>(rt: &R, path: &str, index: u64) -> Result<(), Failure>
    ensures { IfErr result (IsTooLarge path.now) }
{
    match available_memory(rt) {
        Some(free) if free < index => {
            let cause = format!(in rt.alloc();
                "the index of the blocks up to its end takes {index} bytes, and {free} bytes of memory are available: free some, or use a machine with more"
            )?;
            Err(Failure::too_large(rt.alloc(), path, cause))
        }
        _ => Ok(()),
    }
}

// Returns the size of the regular file at a path, or 0.
fn size_of<R: Files>(rt: &R, path: &str) -> u64 {
    match fs::metadata(rt, path) {
        Ok(metadata) if path != STANDARD_INPUT && metadata.is_file() => metadata.len(),
        _ => 0,
    }
}

/// Returns how many bytes of memory are available, if the system says so: what it has left, or what a group of
/// the process may still take if that is less.
pub(crate) fn available_memory<R: AllocGlobal + Files>(rt: &R) -> Option<u64> {
    match (left_in_system(rt), left_in_groups(rt)) {
        (Some(system), Some(group)) => Some(system.min(group)),
        (system, group) => system.or(group),
    }
}

// Returns how many bytes the groups of the process may still take.
fn left_in_groups<R: AllocGlobal + Files>(rt: &R) -> Option<u64> {
    let groups = fs::read_to_string(rt, GROUPS).ok()?;
    let mut left = None;
    for group in groups.as_str().lines() {
        let (_, rest) = group.split_once(':')?;
        let (kinds, path) = rest.split_once(':')?;
        if kinds.is_empty() {
            left = least(left, left_on(rt, 0, path));
        } else if kinds.split(',').any(|kind| kind == "memory") {
            left = least(left, left_on(rt, 1, path));
        }
    }
    left
}

// Returns how many bytes the group at a path may still take, and each group around it.
fn left_on<R: AllocGlobal + Files>(rt: &R, version: usize, path: &str) -> Option<u64> {
    let mut left = None;
    let mut path = path.trim_end_matches('/');
    for _ in 0..=path.len() {
        left = least(left, left_in(rt, version % 2, path));
        match path.rsplit_once('/') {
            Some((around, _)) => path = around,
            None => break,
        }
    }
    left
}

// Returns how many bytes the group at a path may still take, if it has a limit.
fn left_in<R: AllocGlobal + Files>(rt: &R, version: usize, path: &str) -> Option<u64>
    requires { version < 2 }
{
    let limit = number_in(rt, FOLDER[version], path, LIMIT[version])?;
    let usage = number_in(rt, FOLDER[version], path, USAGE[version])?;
    Some(limit.saturating_sub(usage))
}

// Returns the number in a file of the group at a path.
fn number_in<R: AllocGlobal + Files>(rt: &R, folder: &str, path: &str, file: &str) -> Option<u64> {
    let path = format!(in rt.alloc(); "{folder}{path}/{file}").ok()?;
    let text = fs::read_to_string(rt, path.as_str()).ok()?;
    text.as_str().trim().parse().ok()
}

// Returns the lesser of two numbers, of those that are known.
fn least(one: Option<u64>, other: Option<u64>) -> Option<u64> {
    match (one, other) {
        (Some(one), Some(other)) => Some(one.min(other)),
        (one, other) => one.or(other),
    }
}

// Returns how many bytes the system has left.
fn left_in_system<R: AllocGlobal + Files>(rt: &R) -> Option<u64> {
    let text = fs::read_to_string(rt, OF_SYSTEM).ok()?;
    for line in text.as_str().lines() {
        if let Some(rest) = line.strip_prefix("MemAvailable:") {
            let kibibytes: u64 = rest.trim().strip_suffix(" kB")?.parse().ok()?;
            return Some(kibibytes.saturating_mul(1024));
        }
    }
    None
}
