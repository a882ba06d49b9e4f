//! What is taken of an input that is read ahead, by a reader that is made up.

use ix_read_ahead::ReadAhead;
use std::io::{self, ErrorKind, Read};
use std::rt::Clock;
use std::sync::Arc;
use std::test::Fail;
use std::thread::sleep;
use std::time::Duration;

// The numbers from 0 on, modulo 256, of which so many are left, at most so many at once, and then an error.
#[derive(Drop)]
struct Counting {
    next: u8,
    left: usize,
    most: usize,
    fails: bool,
}

impl Read for Counting {
    fn read(&mut self, buf: &mut [u8]) -> io::Result<usize> {
        if self.left == 0 && self.fails {
            self.fails = false;
            return Err(io::Error::from(ErrorKind::TimedOut));
        }
        let count = buf.len().min(self.left).min(self.most);
        let (part, _) = buf.split_at_mut(count);
        for byte in part.iter_mut() {
            *byte = self.next;
            self.next = self.next.wrapping_add(1);
        }
        self.left = self.left.saturating_sub(count);
        Ok(count)
    }
}

// All bytes come in their order, then the error, and then nothing. No more are read ahead than the bound
// and one read.
#[test]
fn an_input_that_fails_at_its_end(rt: HostRuntime) -> Result<(), Fail> {
    let input = Counting {
        next: 0,
        left: 300_000,
        most: 7_000,
        fails: true,
    };
    let mut read = ReadAhead::start(&rt, rt.alloc(), input, 10_000)?;
    let mut piece = Vec::new(rt.alloc());
    let (mut next, mut total) = (0u8, 0usize);
    let mut error = None;
    for _ in 0..300_001 {
        if let Err(found) = read.take(&rt, &mut piece) {
            error = Some(found.kind());
            break;
        }
        assert!(rt; !piece.is_empty() && piece.len() < 17_000);
        for byte in &piece {
            assert_eq!(rt; *byte, next);
            next = next.wrapping_add(1);
        }
        total = total.saturating_add(piece.len());
    }
    assert_eq!(rt; total, 300_000);
    assert_eq!(rt; error, Some(ErrorKind::TimedOut));
    assert!(rt; piece.is_empty());
    read.take(&rt, &mut piece)?;
    assert!(rt; piece.is_empty());
    Ok(())
}

// An input that shares a value as long as it is there.
#[derive(Drop)]
struct Sharing {
    bytes: Counting,
    _shared: Arc<u8>,
}

impl Read for Sharing {
    fn read(&mut self, buf: &mut [u8]) -> io::Result<usize> {
        self.bytes.read(buf)
    }
}

// An input of so many bytes, one at once, that shares a value.
fn one_at_once(left: usize, shared: Arc<u8>) -> Sharing {
    Sharing {
        bytes: Counting {
            next: 0,
            left,
            most: 1,
            fails: false,
        },
        _shared: shared,
    }
}

// Whether the input that shares a value is dropped in the next ten seconds.
fn is_dropped<R: Clock>(rt: &R, shared: &Arc<u8>) -> bool {
    for _ in 0..10_000 {
        if Arc::strong_count(shared) == 1 {
            return true;
        }
        sleep(rt, Duration::from_millis(1));
    }
    false
}

// The thread of an input that is closed ends, though more would come.
#[test]
fn an_input_that_is_closed(rt: HostRuntime) -> Result<(), Fail> {
    let shared = Arc::new(rt.alloc(), 0)?;
    let input = one_at_once(usize::MAX, Arc::try_clone(&shared)?);
    let mut read = ReadAhead::start(&rt, rt.alloc(), input, 4)?;
    let mut piece = Vec::new(rt.alloc());
    read.take(&rt, &mut piece)?;
    assert!(rt; !piece.is_empty());
    read.close(&rt);
    drop(read);
    assert!(rt; is_dropped(&rt, &shared));
    Ok(())
}

// An input that is at its end isn't dropped before what reads it ahead.
#[test]
fn an_input_at_its_end(rt: HostRuntime) -> Result<(), Fail> {
    let shared = Arc::new(rt.alloc(), 0)?;
    let input = one_at_once(1, Arc::try_clone(&shared)?);
    let mut read = ReadAhead::start(&rt, rt.alloc(), input, 4)?;
    let mut piece = Vec::new(rt.alloc());
    read.take(&rt, &mut piece)?;
    assert_eq!(rt; piece.len(), 1);
    read.take(&rt, &mut piece)?;
    assert!(rt; piece.is_empty());
    sleep(&rt, Duration::from_millis(100));
    assert_eq!(rt; Arc::strong_count(&shared), 2);
    drop(read);
    assert!(rt; is_dropped(&rt, &shared));
    Ok(())
}
