//! The CARv1 file in an input, and why one is rejected.

use ix_cli_io::{Failure, Progress, Stop, load_input};
use ix_options::cause_of;
use ix_run::RunFault;
use ix_sections::{CarBytes, CarFault, Kind, kind_of, payload_of};
use std::alloc::{AllocError, Global};
use std::fs::File;
use std::rt::{Clock, Files};
use std::thread::Threads;

/// The status of a file that isn't sound, or not what is asked for.
pub(crate) const NOT_SOUND: u8 = 3;

/// A file that was read.
#[derive(Drop)]
pub(crate) struct CarInput<'a> {
    /// The CARv1 file in it.
    pub car: CarBytes,
    /// How many bytes the file has.
    pub size: usize,
    pub source: CarSource<'a>,
}

/// Where a CARv1 file is.
#[derive(Clone, Copy)]
pub(crate) struct CarSource<'a> {
    /// The path of the file that has it.
    pub path: &'a str,
    /// Its offset in that file.
    pub start: usize,
    // What that file is by its first bytes.
    kind: Kind,
}

impl<'a> CarInput<'a> {
    /// Reads a file of at most so many bytes, by at most so many threads, and shows progress.
    pub(crate) fn load<R>(
        rt: &R,
        path: &'a str,
        most: u64,
        threads: usize,
        progress: &Progress<R>,
    ) -> Result<CarInput<'a>, Rejection<'a>>
    where
        R: AllocGlobal + Clock + Eprint + Files<File = File> + Input + Threads + Sync,
    {
        let bytes = load_input(rt, path, most, threads, progress)?;
        CarInput::find(rt, path, bytes)
    }

    // Finds the CARv1 file in the bytes of a file.
    fn find<R: AllocGlobal>(
        rt: &R,
        path: &'a str,
        bytes: Vec<u8>,
    ) -> Result<CarInput<'a>, Rejection<'a>> {
        let (size, kind) = (bytes.len(), kind_of(bytes.as_slice()));
        let mut source = CarSource {
            path,
            start: 0,
            kind,
        };
        let payload = match payload_of(bytes.as_slice()) {
            Ok(payload) => payload,
            Err(fault) => return Err(source.rejection(fault)),
        };
        source.start = payload.start;
        let car = CarBytes::new(rt.alloc(), bytes, payload)?;
        Ok(CarInput { car, size, source })
    }
}

impl<'a> CarSource<'a> {
    /// Returns the rejection of the file for an error in its CARv1 file.
    pub(crate) fn rejection(self, fault: CarFault) -> Rejection<'a> {
        let place = self.start.saturating_add(fault.place);
        let fault = CarFault { place, ..fault };
        match cause_of(&fault, self.kind) {
            Some(cause) => Rejection::Car(self.path, fault, cause),
            None => Rejection::from(AllocError),
        }
    }
}

/// Why a file is rejected.
#[derive(Drop)]
pub(crate) enum Rejection<'a> {
    /// A failure of the program, which names the file if it can't be read.
    Failure(Failure),
    /// An error in the file with this path, and its cause.
    Car(&'a str, CarFault, &'static str),
    /// The file with this path doesn't have the path that is asked for.
    NoPath(&'a str, Stop),
}

impl<'a> From<Failure> for Rejection<'a> {
    fn from(failure: Failure) -> Rejection<'a> {
        Rejection::Failure(failure)
    }
}

impl<'a> From<AllocError> for Rejection<'a> {
    fn from(_error: AllocError) -> Rejection<'a> {
        Rejection::Failure(Failure::Fault(RunFault::Memory))
    }
}

impl<'a> Rejection<'a> {
    /// Returns the failure that it is.
    pub(crate) fn into_failure(self, alloc: Global) -> Failure {
        match self {
            Rejection::Failure(failure) => failure,
            Rejection::Car(path, fault, cause) => match explained(alloc, path, fault, cause) {
                Ok(failure) => failure,
                Err(error) => Failure::from(error),
            },
            Rejection::NoPath(path, stop) => match named(alloc, path, stop) {
                Ok(stop) => Failure::Stopped(stop),
                Err(error) => Failure::from(error),
            },
        }
    }
}

// Makes the failure for an error in a file, with its cause.
fn explained(
    alloc: Global,
    path: &str,
    fault: CarFault,
    cause: &str,
) -> Result<Failure, AllocError> {
    let path = String::from_str(alloc, path)?;
    let cause = String::from_str(alloc, cause)?;
    Ok(Failure::Explained(RunFault::from(fault), path, cause))
}

// Adds the path of a file to the line of a stop.
fn named(alloc: Global, path: &str, stop: Stop) -> Result<Stop, AllocError> {
    let line = format!(in alloc; "{path}: {}", stop.line.as_str())?;
    Ok(Stop { line, ..stop })
}
