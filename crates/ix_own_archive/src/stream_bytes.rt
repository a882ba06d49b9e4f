//! The bytes of a stream that wait.

ghost use Rattle.std.specs.Prelude.{◌≡◌, ◌-◌, ◌<◌, ◌≤◌, [], ◌++◌, length, drop, vec_len, OnOk, OnErr};
ghost use Rattle.ix_own_archive.specs.Taking.{bytes_of, with_piece, advanced, all_released};

use ix_check::History;
use std::alloc::{AllocError, Global};
use std::marker::Model;

// No more bytes are counted, and no file has more.
const MOST: u64 = i64::MAX as u64;

// The bytes that were taken of a stream: those that are checked, of which some were released, and the
// rest, which waits.
pub(crate) struct StreamBytes {
    // Those that were not released.
    kept: Vec<u8>,
    // How many of them are checked.
    checked: usize,
    // How many were released.
    released: u64,
    // How many times some were checked.
    parts: u64,
    // Those that were released, for contracts only.
    gone: History<u8>,
}

// Written by hand: a derived drop is inlined in each function that drops one, at each of its exits.
impl Drop for StreamBytes {
    fn drop(self) {
        let StreamBytes {
            kept,
            checked: _,
            released: _,
            parts: _,
            gone,
        } = self;
        drop(kept);
        drop(gone);
    }
}

impl Model for StreamBytes {
    ghost use Rattle.ix_own_archive.specs.Taking.{TakenBytes, coded_bytes, bytes_of, AreCounted};

    ghost Value = { TakenBytes };

    ghost coded = { coded_bytes };

    ghost view = { λ s. bytes_of s.gone s.kept.items s.checked s.parts };

    ghost invariant = { λ s. AreCounted s.gone s.kept.items s.checked s.released s.parts };
}

// Records bytes for contracts. The loop does nothing, and the optimizer removes it.
fn record_bytes(history: &mut History<u8>, bytes: &[u8])
    ensures { history.new ≡ history.old ++ bytes.now }
{
    for byte in bytes {
        history.push(byte);
    }
}

// Removes so many bytes, and moves those after them alone, or none where none is removed: so a section that
// comes in many pieces isn't moved with each.
fn remove_front(bytes: &mut Vec<u8>, count: usize)
    requires { count ≤ vec_len bytes.old }
    ensures items { bytes.new.items ≡ drop count bytes.old.items }
    ensures len { vec_len bytes.new ≡ vec_len bytes.old - count }
{
    if count == 0 {
        return;
    }
    let len = bytes.len();
    bytes.as_mut_slice().copy_within(count..len, 0);
    bytes.truncate(len - count);
}

impl StreamBytes {
    // Creates the bytes of a stream of which none was taken.
    pub(crate) fn new(alloc: Global) -> StreamBytes
        ensures { result ≡ bytes_of [] [] 0 0 }
    {
        StreamBytes {
            kept: Vec::new(alloc),
            checked: 0,
            released: 0,
            parts: 0,
            gone: History::new(),
        }
    }

    // Takes the next bytes. Fails if memory runs out, or at 2^63 bytes.
    pub(crate) fn push(&mut self, piece: &[u8]) -> Result<(), AllocError>
        ensures taken { OnOk result (self.new ≡ with_piece piece.now self.old) }
        ensures same { OnErr result (self.new ≡ self.old) }
    {
        let count = self.released + self.kept.len() as u64;
        if piece.len() as u64 > MOST - count {
            return Err(AllocError);
        }
        self.kept.extend_from_slice(piece)
    }

    // Returns those that are not checked.
    pub(crate) fn rest(&self) -> &[u8]
        ensures { result.now ≡ self.now.rest }
    {
        &self.kept[self.checked..]
    }

    // Returns those that are checked and were not released.
    pub(crate) fn checked(&self) -> &[u8]
        ensures { result.now ≡ drop self.now.released self.now.checked }
    {
        &self.kept[..self.checked]
    }

    // How many are checked.
    pub(crate) fn place(&self) -> u64
        ensures { result ≡ length self.now.checked }
    {
        self.released + self.checked as u64
    }

    // How many times some were checked.
    pub(crate) fn parts(&self) -> u64
        ensures { result ≡ self.now.parts }
    {
        self.parts
    }

    // Marks so many of the rest as checked, one at least.
    pub(crate) fn advance(&mut self, count: usize)
        requires some { 0 < count }
        requires within { count ≤ length self.old.rest }
        ensures { self.new ≡ advanced count self.old }
    {
        self.checked += count;
        self.parts += 1;
    }

    // Releases those that are checked.
    pub(crate) fn release(&mut self)
        ensures { self.new ≡ all_released self.old }
    {
        record_bytes(&mut self.gone, &self.kept[..self.checked]);
        remove_front(&mut self.kept, self.checked);
        self.released += self.checked as u64;
        self.checked = 0;
    }
}
