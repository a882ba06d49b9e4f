//! What was read and waits to be taken.

ghost use Rattle.std.specs.Prelude.{◌≡◌, [], OnErr};

use std::io;
use std::mem::swap;
use std::sync::{Condvar, Mutex, Wait};

// What one thread reads and another takes.
#[derive(Drop)]
struct State {
    bytes: Vec<u8>,
    // How the input ended, once it has.
    end: Option<io::Result<()>>,
    // Nothing more is taken.
    is_closed: bool,
}

// What was read, which two threads share.
#[derive(Drop)]
pub(crate) struct Waiting {
    state: Mutex<State>,
    changed: Condvar,
    // How many bytes wait at most before no more are read.
    most: usize,
}

impl Waiting {
    // Nothing was read. The bytes wait in this buffer.
    pub(crate) fn new(buffer: Vec<u8>, most: usize) -> Waiting {
        Waiting {
            state: Mutex::new(State {
                bytes: buffer,
                end: None,
                is_closed: false,
            }),
            changed: Condvar::new(),
            most,
        }
    }

    // Puts bytes after those that wait, once there is room. Returns false if no more are taken, or if
    // memory ran out, which is then the end.
    pub(crate) fn put<R: Wait>(&self, rt: &R, bytes: &[u8]) -> bool {
        let most = self.most;
        let mut state = self.changed.wait_while(
            rt,
            self.state.lock(rt),
            |state| !state.is_closed && state.bytes.len() >= most,
        );
        if state.is_closed {
            return false;
        }
        let put = state.bytes.extend_from_slice(bytes);
        let is_put = put.is_ok();
        if let Err(error) = put {
            state.end = Some(Err(io::Error::from(error)));
        }
        drop(state);
        self.changed.notify_all();
        is_put
    }

    // Records how the input ended.
    pub(crate) fn end<R: Wait>(&self, rt: &R, end: io::Result<()>) {
        let mut state = self.state.lock(rt);
        state.end = Some(end);
        drop(state);
        self.changed.notify_all();
    }

    // Takes all bytes that wait, in place of those of a buffer, or waits for the next. There are none at
    // the end.
    pub(crate) fn take<R: Wait>(&self, rt: &R, piece: &mut Vec<u8>) -> io::Result<()>
        ensures { OnErr result (piece.new.items ≡ []) }
    {
        piece.clear();
        let mut state = self.changed.wait_while(
            rt,
            self.state.lock(rt),
            |state| state.bytes.is_empty() && state.end.is_none(),
        );
        swap(&mut state.bytes, piece);
        let end = if piece.is_empty() {
            state.end.replace(Ok(()))
        } else {
            None
        };
        drop(state);
        self.changed.notify_all();
        end.unwrap_or(Ok(()))
    }

    // Says that nothing more is taken.
    pub(crate) fn close<R: Wait>(&self, rt: &R) {
        let mut state = self.state.lock(rt);
        state.is_closed = true;
        drop(state);
        self.changed.notify_all();
    }
}
