//! The input.

ghost use Rattle.std.specs.Prelude.{◌≡◌, [], OnErr};

use crate::waiting::Waiting;
use std::alloc::{AllocError, Global};
use std::io::{self, ErrorKind, Read};
use std::mem::take;
use std::sync::{Arc, Mutex, Wait};
use std::thread::{self, Threads};

// How many bytes are read at once at most: as many as a pipe has.
const ONCE: usize = 64 * 1024;

/// An input that a thread of its own reads ahead. Where no thread can be made, it is read as it is taken.
///
/// The input is dropped with this, or once the thread has ended, if that is later: its descriptor isn't free
/// for another file before.
#[derive(Drop)]
pub struct ReadAhead<I> {
    waiting: Arc<Waiting>,
    // The input, where there is a thread.
    _lent: Arc<Mutex<Option<I>>>,
    // The input, where there is no thread.
    input: Option<I>,
}

impl<I: Read + Drop + Send + 'static> ReadAhead<I> {
    /// Starts to read an input. No more is read while at least `most` bytes wait, so fewer than `most` and
    /// 64 KiB do.
    pub fn start<R: Threads + Wait + Copy + Send + 'static>(
        rt: &R,
        alloc: Global,
        input: I,
        most: usize,
    ) -> Result<ReadAhead<I>, AllocError> {
        let waiting = Arc::new(alloc, Waiting::new(Vec::new(alloc), most))?;
        let lent = Arc::new(alloc, Mutex::new(Some(input)))?;
        let buffer = vec![in alloc; 0u8; ONCE]?;
        let (theirs, input) = (Arc::try_clone(&waiting)?, Arc::try_clone(&lent)?);
        let own = *rt;
        let reading = move || {
            let mut buffer = buffer;
            if let Some(input) = &mut *input.lock(&own) {
                read_all(&own, input, buffer.as_mut_slice(), &theirs);
            }
        };
        let input = match thread::spawn(rt, reading) {
            Ok(_) => None,
            Err(refused) => {
                drop(refused);
                take(&mut *lent.lock(rt))
            }
        };
        Ok(ReadAhead {
            waiting,
            _lent: lent,
            input,
        })
    }
}

impl<I: Read> ReadAhead<I> {
    /// Puts the next bytes into a buffer, in place of those that it has: all that were read, or the first
    /// that come. It has none at the end, or if reading fails, which comes after the bytes before it.
    pub fn take<R: Wait>(&mut self, rt: &R, piece: &mut Vec<u8>) -> io::Result<()>
        ensures { OnErr result (piece.new.items ≡ []) }
    {
        match &mut self.input {
            None => self.waiting.take(rt, piece),
            Some(input) => read_once(input, piece),
        }
    }

    /// Says that no more is taken, so that the thread ends once it has read what it waits for.
    pub fn close<R: Wait>(&self, rt: &R) {
        self.waiting.close(rt);
    }
}

// Reads once into a buffer, in place of what it has.
fn read_once<I: Read>(input: &mut I, buffer: &mut Vec<u8>) -> io::Result<()>
    ensures { OnErr result (buffer.new.items ≡ []) }
{
    buffer.clear();
    buffer.resize(ONCE, 0)?;
    match read_some(input, buffer.as_mut_slice()) {
        Ok(count) => {
            buffer.truncate(count);
            Ok(())
        }
        Err(error) => {
            buffer.clear();
            Err(error)
        }
    }
}

// Reads an input to its end, or until nothing more is taken.
fn read_all<R: Wait, I: Read>(rt: &R, input: &mut I, buffer: &mut [u8], waiting: &Waiting) {
    for _ in 0..u64::MAX {
        let end = match read_some(input, buffer) {
            Ok(0) => Ok(()),
            Ok(count) => {
                let (bytes, _) = buffer.split_at(count.min(buffer.len()));
                if waiting.put(rt, bytes) {
                    continue;
                }
                return;
            }
            Err(error) => Err(error),
        };
        waiting.end(rt, end);
        return;
    }
}

// Reads what is there, or waits for the next byte. A read that was interrupted is repeated.
fn read_some<I: Read>(input: &mut I, buffer: &mut [u8]) -> io::Result<usize> {
    for _ in 0..u64::MAX {
        match input.read(buffer) {
            Err(error) if error.kind() == ErrorKind::Interrupted => {}
            read => return read,
        }
    }
    Ok(0)
}
