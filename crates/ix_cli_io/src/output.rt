//! An output: an archive that is written to `PATH.part`, and then renamed to `PATH` or not.

ghost use Rattle.std.specs.Prelude.{◌≡◌, IfOk, string_bytes};
ghost use Rattle.ix_cli_io.specs.Failure.{RefusesPath};

use crate::check::check_file;
use crate::fault::Failure;
use crate::naming::{Naming, is_named_by, is_whole, left_line, replaced_line};
use crate::part::{create_part, part_path, remove_part, rename_part};
use crate::write_errors::{Noted, WriteErrors};
use ix_jobs::JobResult;
use ix_walk::Job;
use std::alloc::{AllocError, Global};
use std::fs::{File, OpenFile};
use std::io::{self, BufWriter, Write};
use std::rt::Files;
use std::sync::OnceLock;

/// An output of a run: the file `PATH.part`, which is locked until it is closed. It is ended by `publish`
/// or by `discard`: a `drop` can do neither, as it has no runtime.
#[derive(Drop)]
pub struct Output {
    path: String,
    part: String,
    file: File,
    // Whether a flush syncs the file to disk.
    is_synced: bool,
    // What came of it, if it was settled before it is published.
    settled: OnceLock<Settled>,
}

// What came of an output that was settled: the sync, and the rename.
#[derive(Drop, Clone, Copy)]
enum Settled {
    // It stays as `.part`.
    Left,
    // It has its name, and replaced something or not.
    Named(bool),
    // It couldn't be synced or renamed.
    Failed(io::Error),
}

/// What came of an output that was published.
#[derive(Drop)]
pub struct Published {
    /// Whether it has its name.
    pub is_named: bool,
    /// What the user should know: why it was left as `.part`, or what it lacks that replaced a file.
    pub note: Option<String>,
}

/// What an archive is written to: an output, through a buffer.
pub type OutputWriter<'a> = BufWriter<Noted<'a, &'a Output>>;

/// The buffer of the file of an output.
pub(crate) type FileBuffer<'a> = BufWriter<Noted<'a, &'a File>>;

impl Output {
    ghost use Rattle.ix_cli_io.specs.Naming.{is_named_by};
    ghost use Rattle.ix_cli_io.specs.Output.{path_of};

    /// Creates the output of a path. It is rejected if the path is a directory, a device or the like, if
    /// it is one of the input files under any name (`-` is standard input), or if another run writes it. If it is to be synced, a flush returns the errors that the system would otherwise report at the
    /// close, where nobody sees them.
    pub fn create<R: Files<File = File> + AllocGlobal>(
        rt: &R,
        path: &str,
        inputs: &[&str],
        is_synced: bool,
    ) -> Result<Output, Failure>
        ensures made { IfOk result (λ output. path_of output ≡ path.now) }
        ensures refused { RefusesPath path.now result }
    {
        match check_file(rt, path, inputs) {
            Ok(()) => Output::begin(rt, String::from_str(rt.alloc(), path)?, is_synced),
            Err(error) => Err(Failure::cannot_write(rt.alloc(), path, &error)),
        }
    }

    /// Creates an output that was checked.
    pub(crate) fn begin<R: Files<File = File> + AllocGlobal>(
        rt: &R,
        path: String,
        is_synced: bool,
    ) -> Result<Output, Failure>
        ensures made { IfOk result (λ output. path_of output ≡ string_bytes path) }
        ensures refused { RefusesPath (string_bytes path) result }
    {
        let part = part_path(rt.alloc(), path.as_str())?;
        match create_part(rt, part.as_str(), path.as_str()) {
            Ok(file) => Ok(Output {
                path,
                part,
                file,
                is_synced,
                settled: OnceLock::new(),
            }),
            Err(error) => Err(Failure::cannot_write(rt.alloc(), path.as_str(), &error)),
        }
    }

    /// Returns a writer to the output. The first error of a write is recorded.
    pub fn writer<'a>(
        &'a self,
        alloc: Global,
        errors: &'a WriteErrors,
    ) -> Result<OutputWriter<'a>, AllocError> {
        Noted::new(self, errors).buffered(alloc)
    }

    /// Gives the file of an output a buffer. A flush of it syncs nothing. The first error of a write is
    /// recorded.
    pub(crate) fn buffered<'a>(
        &'a self,
        alloc: Global,
        errors: &'a WriteErrors,
    ) -> Result<FileBuffer<'a>, AllocError> {
        Noted::new(&self.file, errors).buffered(alloc)
    }

    /// Syncs the file if it is to be synced, and then renames it if it is to get its name. All its bytes
    /// were written. `publish` renames it no more.
    pub(crate) fn settle<R: Files<File = File>>(&self, rt: &R, is_named: bool) {
        let settled = match self.try_settle(rt, is_named) {
            Ok(settled) => settled,
            Err(error) => Settled::Failed(error),
        };
        let _ = self.settled.try_set(settled);
    }

    // Syncs and renames the file, and returns what came of it.
    fn try_settle<R: Files<File = File>>(&self, rt: &R, is_named: bool) -> io::Result<Settled> {
        self.sync()?;
        if is_named {
            Ok(Settled::Named(self.rename(rt)?))
        } else {
            Ok(Settled::Left)
        }
    }

    /// Returns how the sync and the rename ended. An output that wasn't settled is synced now.
    pub(crate) fn outcome(&self) -> io::Result<()> {
        match self.settled.get() {
            Some(Settled::Failed(error)) => Err(*error),
            Some(_) => Ok(()),
            None => self.sync(),
        }
    }

    // Syncs the file to disk if it is to be synced.
    fn sync(&self) -> io::Result<()> {
        if self.is_synced {
            self.file.sync_all()
        } else {
            Ok(())
        }
    }

    /// Renames the archive of a job to its path if it is to get that name, and else leaves it as `.part`.
    /// It isn't renamed if its file is no longer where it was created.
    pub fn publish<R: AllocGlobal + Files<File = File>>(
        self,
        rt: &R,
        job: &Job,
        outcome: &JobResult,
        naming: Naming,
    ) -> Result<Published, Failure>
        ensures named { IfOk result (λ published. published.is_named ≡ is_named_by naming job.now outcome.now) }
        ensures refused { RefusesPath (path_of self) result }
    {
        match self.name_or_leave(rt, job, outcome, naming) {
            Ok(published) => Ok(published),
            Err(error) => Err(Failure::cannot_write(rt.alloc(), self.path.as_str(), &error)),
        }
    }

    /// Renames a whole output to its path. It isn't renamed if its file is no longer where it was created.
    pub fn publish_whole<R: AllocGlobal + Files<File = File>>(self, rt: &R) -> Result<(), Failure>
        ensures refused { RefusesPath (path_of self) result }
    {
        match self.rename(rt) {
            Ok(_) => Ok(()),
            Err(cause) => Err(Failure::cannot_write(rt.alloc(), self.path.as_str(), &cause)),
        }
    }

    // Renames the archive if it is to be renamed, and says what the user should know.
    fn name_or_leave<R: AllocGlobal + Files<File = File>>(
        &self,
        rt: &R,
        job: &Job,
        outcome: &JobResult,
        naming: Naming,
    ) -> io::Result<Published>
        ensures { IfOk result (λ published. published.is_named ≡ is_named_by naming job.now outcome.now) }
    {
        let path = self.path.as_str();
        if !is_named_by(naming, job, outcome) {
            let note = if naming == Naming::Ended {
                None
            } else {
                Some(left_line(rt.alloc(), path, job, outcome)?)
            };
            return Ok(Published {
                is_named: false,
                note,
            });
        }
        let note = if self.name(rt)? && !is_whole(job, outcome) {
            Some(replaced_line(rt.alloc(), path, job, outcome)?)
        } else {
            None
        };
        Ok(Published {
            is_named: true,
            note,
        })
    }

    // Renames the file unless it has its name, and returns whether it replaced something.
    fn name<R: Files<File = File>>(&self, rt: &R) -> io::Result<bool> {
        match self.settled.get() {
            Some(Settled::Named(is_replaced)) => Ok(*is_replaced),
            Some(Settled::Failed(error)) => Err(*error),
            _ => self.rename(rt),
        }
    }

    // Renames the file to its path, and returns whether something was there.
    fn rename<R: Files<File = File>>(&self, rt: &R) -> io::Result<bool> {
        rename_part(rt, &self.file, self.part.as_str(), self.path.as_str())
    }

    /// Returns how many bytes the file has, or 0 if that can't be found.
    pub fn size(&self) -> u64 {
        self.file.metadata().map_or(0, |metadata| metadata.len())
    }

    /// Cuts the file to so many bytes. If that fails, it stays as it is.
    pub fn cut(&self, size: u64) {
        let _ = self.file.set_len(size);
    }

    /// Removes the file, unless it is no longer where it was created. What can't be removed stays.
    pub fn discard<R: Files<File = File>>(self, rt: &R) {
        remove_part(rt, &self.file, self.part.as_str());
    }
}

impl Write for &Output {
    fn write(&mut self, buf: &[u8]) -> io::Result<usize> {
        let mut file = &self.file;
        file.write(buf)
    }

    fn flush(&mut self) -> io::Result<()> {
        let mut file = &self.file;
        file.flush()?;
        self.sync()
    }
}
