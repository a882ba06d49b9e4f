//! The buffers of the archives of a run. They stand beside the outputs, so that the end of a job can flush
//! its own while the run goes on.

ghost use Rattle.std.specs.Prelude.{◌≡◌, length, IfOk};

use crate::naming::NamingRule;
use crate::output::{FileBuffer, Output};
use crate::progress::Progress;
use crate::write_errors::WriteErrors;
use ix_car::{End, Skip};
use ix_run::Observer;
use ix_walk::Job;
use std::alloc::{AllocError, Global};
use std::cell::{Cell, RefCell};
use std::fs::File;
use std::io::{self, ErrorKind, Write};
use std::rt::{Clock, Files};

/// The buffer of the archive of a job. One thread uses it.
#[derive(Drop)]
pub struct ArchiveBuffer<'a> {
    output: &'a Output,
    errors: &'a WriteErrors,
    buffer: RefCell<FileBuffer<'a>>,
    // The error of the first flush that failed.
    failed: Cell<Option<io::Error>>,
}

/// Makes a buffer for each output. The first error of their writes is recorded.
pub fn buffers_of<'a>(
    alloc: Global,
    outputs: &'a [Output],
    errors: &'a WriteErrors,
) -> Result<Vec<ArchiveBuffer<'a>>, AllocError>
    ensures { IfOk result (λ buffers. length buffers.items ≡ length outputs.now) }
{
    let mut buffers = Vec::with_capacity(alloc, outputs.len())?;
    for output in outputs {
        buffers.push(ArchiveBuffer {
            output,
            errors,
            buffer: RefCell::new(output.buffered(alloc, errors)?),
            failed: Cell::new(None),
        })?;
    }
    Ok(buffers)
}

/// Makes a writer to each buffer.
pub fn writers_to<'a, 'o>(
    alloc: Global,
    buffers: &'a [ArchiveBuffer<'o>],
) -> Result<Vec<ArchiveWriter<'a, 'o>>, AllocError>
    ensures { IfOk result (λ writers. length writers.items ≡ length buffers.now) }
{
    let mut writers = Vec::with_capacity(alloc, buffers.len())?;
    for buffer in buffers {
        writers.push(ArchiveWriter { buffer })?;
    }
    Ok(writers)
}

impl<'a> ArchiveBuffer<'a> {
    // Flushes the buffer to its file. Once that failed it isn't tried again.
    fn flush(&self) -> io::Result<()> {
        if let Some(error) = self.failed.get() {
            return Err(error);
        }
        let flushed = match self.buffer.try_borrow_mut() {
            Ok(mut buffer) => buffer.flush(),
            Err(_) => Err(in_use()),
        };
        if let Err(error) = &flushed {
            self.failed.set(Some(*error));
        }
        flushed
    }
}

// Returns the error of a buffer that is already borrowed, which none ever is.
fn in_use() -> io::Error {
    io::Error::new(ErrorKind::ResourceBusy, "the buffer is in use")
}

/// What the archive of a job is written to. A name that couldn't be given at the close of the job is a flush that
/// fails.
#[derive(Drop)]
pub struct ArchiveWriter<'a, 'o> {
    buffer: &'a ArchiveBuffer<'o>,
}

impl<'a, 'o> Write for ArchiveWriter<'a, 'o> {
    fn write(&mut self, buf: &[u8]) -> io::Result<usize> {
        match self.buffer.buffer.try_borrow_mut() {
            Ok(mut buffer) => buffer.write(buf),
            Err(_) => Err(in_use()),
        }
    }

    fn flush(&mut self) -> io::Result<()> {
        self.buffer.flush()?;
        let outcome = self.buffer.output.outcome();
        self.buffer.errors.note(&outcome);
        outcome
    }
}

/// The observer of a run that flushes the buffer of each archive at the close of its job, and gives it its name.
#[derive(Drop)]
pub struct ClosingArchives<'a, 'o, R> {
    pub rt: &'a R,
    pub jobs: &'a [Job],
    pub rule: NamingRule,
    pub buffers: &'a [ArchiveBuffer<'o>],
    /// The progress, if it is shown.
    pub progress: Option<&'a Progress<'a, R>>,
}

impl<'a, 'o, R> Observer for ClosingArchives<'a, 'o, R>
where
    R: AllocGlobal + Clock + Eprint + Files<File = File>,
{
    fn on_bytes(&self, bytes: u64) {
        if let Some(progress) = self.progress {
            progress.on_bytes(bytes);
        }
    }

    fn on_delivery(&self) {
        if let Some(progress) = self.progress {
            progress.on_delivery();
        }
    }

    fn on_close(&self, number: usize, end: End, skips: &[Skip]) {
        if let (Some(buffer), Some(job)) = (self.buffers.get(number), self.jobs.get(number))
            && buffer.flush().is_ok()
        {
            let is_named = self.rule.names(job, end, skips);
            buffer.output.settle(self.rt, is_named);
        }
        if let Some(progress) = self.progress {
            progress.on_close(number, end, skips);
        }
    }
}
