//! The block files of a command: which they are, and the store of their blocks.

ghost use Rattle.std.specs.Prelude.{◌≡◌, IfOk, IfErr, None};
ghost use Rattle.std.specs.Arc.{arc_value};
ghost use Rattle.ix_sections.specs.Files.{IsStoreOf};
ghost use Rattle.ix_known.specs.Files.{IsKnownByFiles};
ghost use Rattle.ix_load.specs.Refusals.{NamesCarFault, NamesFault, NamesFirst, NamesNone, paths_in};

use clap::ArgMatches;
use clap::error::ErrorKind;
use ix_cid::{Cid, read_varint};
use ix_cli_io::{
    Failure, Progress, STANDARD_INPUT, check_index, check_memory, load_input, size_of_all,
};
use ix_known::known_of;
use ix_options::{
    ArgSpec, BLOCKS, CommandSpec, PREFER_SOUND, WITHOUT, cause_of, later_note, print_notes,
};
use ix_run::RunFault;
use ix_sections::{
    CarFault, Copies, FileBlocks, FileFault, Kind, Reading, blocks_of, kind_of, payload_of,
    read_header,
};
use ix_store::{PlaceSet, Store};
use std::alloc::{AllocError, Global};
use std::fs::File;
use std::rt::{Clock, Files};
use std::sync::Arc;
use std::thread::Threads;

/// The block files of a command, in their order.
#[derive(Drop)]
pub struct BlockFiles<'a> {
    paths: Vec<&'a str>,
    // How many bytes each may have.
    most: u64,
    reading: Reading,
    // Whether they are what a receiver has, and not the blocks that are exported.
    is_base: bool,
}

// The tables of prefetched jobs may take the bytes of the files divided by this, and so many bytes more.
const TABLE_DIVISOR: usize = 8;

const TABLE_EXTRA: usize = 16 * 1024 * 1024;

// The cause where memory runs out for the blocks of a file.
const OUT_OF_MEMORY: &str =
    "there is no memory for the index of its blocks: free some, or use a machine with more";

// What memory runs out for once all files are read.
const INDEX: &str = "the index of the blocks";

// The least length of a section: that of an identity CID without bytes, and its own length.
const LEAST_SECTION: u64 = 5;

/// How much memory the index of blocks takes.
#[derive(Clone, Copy)]
pub enum Indexed {
    /// 64 bytes a section.
    Alone,
    /// 80 bytes a section, with what is kept of one job that is prefetched.
    Prefetched,
}

impl Indexed {
    // Returns how many bytes so many sections take.
    fn bytes(self, sections: u64) -> u64 {
        sections.saturating_mul(match self {
            Indexed::Alone => 64,
            Indexed::Prefetched => 80,
        })
    }
}

/// The settled store of a command's blocks.
#[derive(Drop)]
pub struct LoadedBlocks {
    pub store: Arc<Store>,
    /// The positions in it of the blocks that the receiver has, if that is given.
    pub known: Option<PlaceSet>,
    // How many bytes the files have.
    size: usize,
    // How many blocks are a later copy, since the first isn't sound.
    later_count: usize,
}

impl LoadedBlocks {
    /// Returns how many bytes the tables of prefetched jobs may take together: an eighth of those of the
    /// files, and 16 MiB.
    pub(crate) fn most_table_bytes(&self) -> usize {
        (self.size / TABLE_DIVISOR).saturating_add(TABLE_EXTRA)
    }

    /// Prints how many blocks are a later copy, if any are and the run wasn't rejected.
    pub fn print_note<R: AllocGlobal + Eprint>(&self, rt: &R, status: &Result<u8, Failure>) {
        if status.is_ok() && self.later_count > 0 {
            print_notes(rt, later_note(rt.alloc(), "note", self.later_count));
        }
    }
}

impl<'a> BlockFiles<'a> {
    /// Reads the paths of the blocks that a command exports. Standard input can be given once.
    pub fn given(
        alloc: Global,
        spec: &'static CommandSpec,
        words: &ArgMatches<'a>,
        most: u64,
        reads_carv2: bool,
    ) -> Result<BlockFiles<'a>, Failure> {
        Ok(BlockFiles {
            paths: paths_of(alloc, spec, words, &BLOCKS)?,
            most,
            reading: Reading {
                carv2: reads_carv2,
                copies: copies_given(words),
            },
            is_base: false,
        })
    }

    /// Reads the paths of what the receiver of an archive has, given by an option to the command that receives it.
    /// Standard input can't be given: it may be the archive.
    pub fn of_receiver(
        alloc: Global,
        spec: &'static CommandSpec,
        words: &ArgMatches<'a>,
        option: &ArgSpec,
        most: u64,
    ) -> Result<BlockFiles<'a>, Failure> {
        let files = BlockFiles {
            paths: paths_of(alloc, spec, words, option)?,
            most,
            reading: Reading {
                carv2: true,
                copies: copies_given(words),
            },
            is_base: true,
        };
        if files.has_standard_input() {
            return Err(Failure::from(refused_input(alloc, spec, option.name)?));
        }
        Ok(files)
    }

    /// Reads the paths of what a receiver has, which are read as these. Standard input can be given once.
    pub(crate) fn base_given(
        &self,
        alloc: Global,
        spec: &'static CommandSpec,
        words: &ArgMatches<'a>,
    ) -> Result<BlockFiles<'a>, Failure> {
        Ok(BlockFiles {
            paths: paths_of(alloc, spec, words, &WITHOUT)?,
            most: self.most,
            reading: self.reading,
            is_base: true,
        })
    }

    /// Returns how many bytes each may have.
    pub(crate) fn most(&self) -> u64 {
        self.most
    }

    /// Returns the paths.
    pub fn paths(&self) -> &[&'a str] {
        self.paths.as_slice()
    }

    /// Returns whether standard input is one of them.
    pub(crate) fn has_standard_input(&self) -> bool {
        self.paths.iter().any(|path| *path == STANDARD_INPUT)
    }

    /// Reads the files, one after the other. A large one is read by so many threads. Files that are larger
    /// together than the memory that is available are rejected before the first is read.
    pub fn read<R>(
        &self,
        rt: &R,
        threads: usize,
        progress: &Progress<R>,
    ) -> Result<Vec<Vec<u8>>, Failure>
    where
        R: AllocGlobal + Clock + Eprint + Files<File = File> + Input + Threads + Sync,
    {
        check_memory(rt, self.paths())?;
        progress.expect(size_of_all(rt, self.paths()));
        self.read_more(rt, threads, progress)
    }

    /// Reads the files in the same way, with progress that expects them already.
    pub(crate) fn read_more<R>(
        &self,
        rt: &R,
        threads: usize,
        progress: &Progress<R>,
    ) -> Result<Vec<Vec<u8>>, Failure>
    where
        R: AllocGlobal + Clock + Eprint + Files<File = File> + Input + Threads + Sync,
    {
        let mut files = Vec::with_capacity(rt.alloc(), self.paths.len())?;
        for path in self.paths() {
            match load_input(rt, path, self.most, threads, progress) {
                Ok(bytes) => files.push(bytes)?,
                Err(failure) => return Err(failure.at(rt, path)),
            }
        }
        Ok(files)
    }

    /// Returns the roots in the header of the first of the files that were read.
    pub fn header_roots(&self, alloc: Global, files: &[Vec<u8>]) -> Result<Vec<Cid>, Failure> {
        let (Some(path), Some(bytes)) = (self.paths.first(), files.first()) else {
            return Ok(Vec::new(alloc));
        };
        match roots_in(alloc, bytes.as_slice()) {
            Ok(roots) => Ok(roots),
            Err(fault) => Err(self.failure(alloc, path, fault, kind_of(bytes.as_slice()))),
        }
    }

    /// Makes the store of the blocks of the files that were read: of their sections, put end to end, the
    /// first of each CID, or the first that is sound if that is asked for. A file that is rejected is named with its error, the first.
    pub fn store_of<R: AllocGlobal + Files + Threads + Sync>(
        &self,
        rt: &R,
        files: Vec<Vec<u8>>,
        threads: usize,
        indexed: Indexed,
    ) -> Result<LoadedBlocks, Failure>
        ensures store { IfOk result (λ blocks.
            IsStoreOf self.now.reading files.items (arc_value blocks.store) blocks.later_count) }
        ensures alone { IfOk result (λ blocks. blocks.known ≡ None) }
        ensures refused { IfErr result
            (NamesFirst (paths_in self.now.paths) self.now.reading files.items) }
    {
        self.check_index(rt, files.as_slice(), indexed)?;
        let size = size_of(files.as_slice());
        let kinds = kinds_of(rt.alloc(), files.as_slice())?;
        match blocks_of(rt, rt.alloc(), files, self.reading, threads) {
            Ok(FileBlocks { store, later_count }) => Ok(LoadedBlocks {
                store,
                known: None,
                size,
                later_count,
            }),
            Err(fault) => Err(self.refusal(rt, fault, kinds.as_slice())),
        }
    }

    // Rejects the file with which the index of the blocks takes more memory than is available. Sections are counted
    // only where there may be so many.
    fn check_index<R: AllocGlobal + Files>(
        &self,
        rt: &R,
        files: &[Vec<u8>],
        indexed: Indexed,
    ) -> Result<(), Failure>
        ensures { IfErr result NamesNone }
    {
        let mut most: u64 = 0;
        let mut count: u64 = 0;
        for (path, bytes) in self.paths.iter().zip(files) {
            most = most.saturating_add(bytes.len() as u64 / LEAST_SECTION);
            if check_index(rt, path, indexed.bytes(most)).is_ok() {
                continue;
            }
            count = count.saturating_add(sections_in(bytes.as_slice()));
            check_index(rt, path, indexed.bytes(count))?;
            most = count;
        }
        Ok(())
    }

    /// Returns the positions in a store of the blocks of which the files that were read have a sound copy that
    /// counts.
    pub(crate) fn known_in<R: AllocGlobal + Files + Threads + Sync>(
        &self,
        rt: &R,
        store: &Store,
        files: Vec<Vec<u8>>,
        threads: usize,
    ) -> Result<PlaceSet, Failure>
        ensures known { IfOk result (IsKnownByFiles self.now.reading store.now files.items) }
        ensures refused { IfErr result
            (NamesFirst (paths_in self.now.paths) self.now.reading files.items) }
    {
        let kinds = kinds_of(rt.alloc(), files.as_slice())?;
        match known_of(rt, rt.alloc(), store, files, self.reading, threads) {
            Ok(known) => Ok(known),
            Err(fault) => Err(self.refusal(rt, fault, kinds.as_slice())),
        }
    }

    // Returns the failure for the first file that is rejected, of files of these kinds.
    fn refusal<R: AllocGlobal + Files>(&self, rt: &R, fault: FileFault, kinds: &[Kind]) -> Failure
        ensures { NamesFault (paths_in self.now.paths) fault result }
    {
        match (self.paths.get(fault.file), kinds.get(fault.file)) {
            (Some(path), Some(kind)) => self.failure(rt.alloc(), path, fault.fault, *kind),
            _ => Failure::Fault(RunFault::Memory).at(rt, INDEX),
        }
    }

    // Returns the failure for a file with an error. Its line names the file if there are several, or if it is
    // what the receiver has.
    fn failure(&self, alloc: Global, path: &str, fault: CarFault, kind: Kind) -> Failure
        ensures { NamesCarFault path.now fault result }
    {
        let cause = cause_of(&fault, kind).unwrap_or(OUT_OF_MEMORY);
        let is_named = self.is_base || self.paths.len() > 1;
        match explained(alloc, fault, path, cause, is_named) {
            Ok(failure) => failure,
            Err(_) => Failure::Fault(RunFault::Memory),
        }
    }
}

// Returns which copy of a block counts by the option for it.
fn copies_given(words: &ArgMatches<'_>) -> Copies {
    if PREFER_SOUND.is_given(words) {
        Copies::Sound
    } else {
        Copies::First
    }
}

// Returns how many bytes files have together.
fn size_of(files: &[Vec<u8>]) -> usize {
    let mut size: usize = 0;
    for bytes in files {
        size = size.saturating_add(bytes.len());
    }
    size
}

// Returns what files are by their first bytes.
fn kinds_of(alloc: Global, files: &[Vec<u8>]) -> Result<Vec<Kind>, AllocError> {
    files
        .iter()
        .map(|bytes| kind_of(bytes.as_slice()))
        .collect(alloc)
}

// Adds to an error the file in which it is, whether or not its line names that, and the cause.
fn explained(
    alloc: Global,
    fault: CarFault,
    path: &str,
    cause: &str,
    is_named: bool,
) -> Result<Failure, AllocError>
    ensures { IfOk result (NamesCarFault path.now fault) }
{
    let path = String::from_str(alloc, path)?;
    let cause = String::from_str(alloc, cause)?;
    let fault = RunFault::from(fault);
    if is_named {
        Ok(Failure::InFile(fault, path, cause))
    } else {
        Ok(Failure::Explained(fault, path, cause))
    }
}

// Returns how many sections a file has, with its header, up to the first that isn't whole.
fn sections_in(bytes: &[u8]) -> u64 {
    let mut rest = match payload_of(bytes) {
        Ok(payload) => &bytes[payload.start..payload.end],
        Err(_) => return 0,
    };
    let mut count: u64 = 0;
    for _ in 0..bytes.len() {
        let Ok((length, size)) = read_varint(rest) else {
            break;
        };
        let end = usize::try_from(length)
            .unwrap_or(usize::MAX)
            .saturating_add(size);
        if end > rest.len() {
            break;
        }
        (_, rest) = rest.split_at(end);
        count = count.saturating_add(1);
    }
    count
}

// Returns the roots in the header of a CARv1 file, or of the one in a CARv2 file.
fn roots_in(alloc: Global, bytes: &[u8]) -> Result<Vec<Cid>, CarFault> {
    let payload = payload_of(bytes)?;
    match read_header(alloc, &bytes[payload.start..payload.end]) {
        Ok((roots, _)) => Ok(roots),
        Err(CarFault { kind, place }) => Err(CarFault {
            kind,
            place: payload.start.saturating_add(place),
        }),
    }
}

// Reads the paths of an option. Standard input can be given once.
fn paths_of<'a>(
    alloc: Global,
    spec: &'static CommandSpec,
    words: &ArgMatches<'a>,
    option: &ArgSpec,
) -> Result<Vec<&'a str>, Failure> {
    let mut paths = Vec::new(alloc);
    let mut has_input = false;
    for path in words.get_strs(option.name).unwrap_or(&[]) {
        if *path == STANDARD_INPUT && has_input {
            return Err(Failure::from(refused_twice(alloc, spec, option.name)?));
        }
        has_input |= *path == STANDARD_INPUT;
        paths.push(*path)?;
    }
    Ok(paths)
}

// Makes the error for standard input that is given for an option that takes files alone.
fn refused_input(
    alloc: Global,
    spec: &'static CommandSpec,
    option: &str,
) -> Result<clap::Error, AllocError> {
    let message = format!(in alloc; "standard input can't be given for '--{option} <FILE>'")?;
    spec.refusal(alloc, ErrorKind::ValueValidation, message.as_str())
}

// Makes the error for standard input that is given twice for an option.
fn refused_twice(
    alloc: Global,
    spec: &'static CommandSpec,
    option: &str,
) -> Result<clap::Error, AllocError> {
    let message = format!(in alloc; "standard input is given twice for '--{option} <FILE>'")?;
    spec.refusal(alloc, ErrorKind::ArgumentConflict, message.as_str())
}
