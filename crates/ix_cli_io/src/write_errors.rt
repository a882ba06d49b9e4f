//! Writers that record the first error of a run.

ghost use Rattle.std.specs.Prelude.{◌≡◌, IfOk};
ghost use Rattle.std.specs.Io.Buffered.{writer_inner};
ghost use Rattle.std.specs.Io.{WritesAtMost};
ghost use Rattle.std.specs.Io.KnownBytes.{WriteAppends};

use crate::fault::cause_of;
use std::alloc::{AllocError, Global};
use std::cell::Cell;
use std::io::{self, BufWriter, ErrorKind, Write};

// The size of a writer's buffer, in bytes.
const BUFFER: usize = 16 * 1024;

// How often a write that is interrupted is tried again.
const WRITE_TRIES: u32 = u32::MAX;

/// The first error of a run's writes, if one failed. One thread records it.
#[derive(Drop)]
pub struct WriteErrors {
    first: Cell<Option<io::Error>>,
}

impl WriteErrors {
    /// Returns a record of no error.
    pub fn new() -> WriteErrors {
        WriteErrors {
            first: Cell::new(None),
        }
    }

    /// Returns the first error, if a write failed.
    pub fn first(&self) -> Option<io::Error> {
        self.first.get()
    }

    /// Returns the cause of a failed write as it is reported.
    pub(crate) fn cause(&self, alloc: Global) -> Result<String, AllocError> {
        match self.first() {
            Some(error) => cause_of(alloc, &error, ""),
            None => String::from_str(alloc, "a write took no byte"),
        }
    }

    /// Records an error, unless there was one before.
    pub(crate) fn note<T>(&self, answer: &io::Result<T>) {
        if let (Err(error), None) = (answer, self.first.get()) {
            self.first.set(Some(*error));
        }
    }
}

/// A writer whose first error is recorded. A write that is interrupted is tried again.
#[derive(Drop)]
pub struct Noted<'a, W> {
    writer: W,
    errors: &'a WriteErrors,
}

// Writes to a writer, and again where the write is interrupted.
fn write_again<W: Write>(writer: &mut W, buf: &[u8]) -> io::Result<usize>
    ensures bound { WritesAtMost result buf.now }
    ensures bytes { WriteAppends (W.contents writer.old) (W.contents writer.new) result buf.now }
{
    for _ in 0..WRITE_TRIES {
        match writer.write(buf) {
            Err(error) if error.kind() == ErrorKind::Interrupted => {}
            written => return written,
        }
    }
    writer.write(buf)
}

impl<'a, W> Noted<'a, W> {
    /// Wraps a writer to record its first error.
    pub fn new(writer: W, errors: &'a WriteErrors) -> Noted<'a, W>
        ensures { result.writer ≡ writer }
    {
        Noted { writer, errors }
    }
}

impl<'a, W: Write + Drop> Noted<'a, W> {
    /// Gives it a buffer.
    pub fn buffered(self, alloc: Global) -> Result<BufWriter<Noted<'a, W>>, AllocError>
        ensures { IfOk result (λ buffered. writer_inner buffered ≡ self.entry) }
    {
        match BufWriter::with_capacity(alloc, BUFFER, self) {
            Ok(buffered) => Ok(buffered),
            Err(_) => Err(AllocError),
        }
    }
}

impl<'a, W: Write> Write for Noted<'a, W> {
    // It holds what its writer holds.
    ghost contents = { λ noted. W.contents noted.writer };

    fn write(&mut self, buf: &[u8]) -> io::Result<usize> {
        let written = write_again(&mut self.writer, buf);
        self.errors.note(&written);
        written
    }

    fn flush(&mut self) -> io::Result<()> {
        let flushed = self.writer.flush();
        self.errors.note(&flushed);
        flushed
    }
}
