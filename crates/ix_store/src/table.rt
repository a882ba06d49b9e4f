//! The blocks of a store: the files that have their bytes, and where in these each block is.

ghost use Rattle.std.specs.Prelude.{◌≡◌, ◌<◌, ◌*◌, ◌+◌, ◌^◌, [], ◌∷◌, ◌++◌, length, take, map, slice_get, option_map, swap, is_none, OnOk, OnErr, IfOk};
ghost use Rattle.std.specs.Arc.{arc_value};
ghost use Rattle.ix_cbor.specs.Reading.{data_at};
ghost use Rattle.ix_store.specs.Table.{file_bytes, files_of, file_in, place_of, cid_size_of, block_size_of, pair_in, block_in, with_file, IsEntryOf, IsRange, IsAppended, section_in, part_of, file_at};
ghost use Rattle.ix_store.specs.Sound.{picked, is_picked, passing_first};

use crate::cursor::Cursor;
use ix_cbor::check;
use ix_verdict::Verdict;
use std::alloc::{AllocError, Global};
use std::marker::Model;
use std::mem;
use std::sync::Arc;

// How many bytes a buffer of copied blocks has at most. A larger block has a buffer of its own.
const BUFFER: usize = 1024 * 1024;

// What 32 bits can count.
const HALF: usize = 1 << 32;

// There are fewer files than this, and the places in one, the sizes of CIDs and those of blocks are below
// these numbers.
const FILES: usize = 1 << 24;

const PLACES: usize = 1 << 48;

const CID_SIZES: usize = 1 << 40;

const BLOCK_SIZES: usize = 1 << 48;

/// A file: shared bytes, or a buffer of blocks that were copied.
#[derive(Drop)]
pub(crate) enum File {
    Shared(Arc<Vec<u8>>),
    Copied(Vec<u8>),
}

impl File {
    // Returns the bytes of the file.
    fn bytes(&self) -> &[u8]
        ensures { result.now ≡ file_bytes self.now }
    {
        match self {
            File::Shared(bytes) => bytes.as_slice(),
            File::Copied(bytes) => bytes.as_slice(),
        }
    }
}

impl File {
    // Returns a copy. Shared bytes stay shared.
    fn try_clone(&self, alloc: Global) -> Result<File, AllocError>
        ensures { IfOk result (λ copy. file_bytes copy ≡ file_bytes self.now) }
    {
        match self {
            File::Shared(bytes) => Ok(File::Shared(Arc::try_clone(bytes)?)),
            File::Copied(bytes) => Ok(File::Copied(Vec::from_slice(alloc, bytes.as_slice())?)),
        }
    }
}

/// Where a CID is, and the block right after it, in 20 bytes: what is above 32 bits of a place and a size
/// is packed with that of another number.
#[derive(Drop, Clone, Copy)]
pub(crate) struct Entry {
    // Where the CID begins in its file, the lower 32 bits.
    place: u32,
    // How many bytes the block has, the lower 32 bits.
    size: u32,
    // The upper 16 bits of the place, and below them those of the size.
    uppers: u32,
    // How many bytes the CID has, the lower 32 bits.
    cid_size: u32,
    // The 24 bits of the file's number, and below them the upper 8 bits of the CID's size.
    packed: u32,
}

impl Entry {
    // Makes an entry. Fails, as if memory ran out, if there are 2^24 files, the CID has 2^40 bytes, or the
    // block has 2^48 or its CID is at such a place.
    fn new(file: usize, place: usize, cid_size: usize, size: usize) -> Result<Entry, AllocError>
        ensures { IfOk result (IsEntryOf file place cid_size size) }
    {
        if file >= FILES || place >= PLACES || cid_size >= CID_SIZES || size >= BLOCK_SIZES {
            return Err(AllocError);
        }
        let uppers = place / HALF * 65_536 + size / HALF;
        let packed = file * 256 + cid_size / HALF;
        Ok(Entry {
            place: (place % HALF) as u32,
            size: (size % HALF) as u32,
            uppers: uppers as u32,
            cid_size: (cid_size % HALF) as u32,
            packed: packed as u32,
        })
    }

    // Returns the number of the file.
    fn file(&self) -> usize
        ensures { result ≡ file_in self.now }
    {
        (self.packed / 256) as usize
    }

    // Returns where the CID begins in the file.
    fn place(&self) -> usize
        ensures { result ≡ place_of self.now }
    {
        self.place as usize + (self.uppers / 65_536) as usize * HALF
    }

    // Returns how many bytes the CID has.
    fn cid_size(&self) -> usize
        ensures { result ≡ cid_size_of self.now }
    {
        self.cid_size as usize + (self.packed % 256) as usize * HALF
    }

    // Returns how many bytes the block has.
    fn size(&self) -> usize
        ensures { result ≡ block_size_of self.now }
    {
        self.size as usize + (self.uppers % 65_536) as usize * HALF
    }
}

/// The entries of a table. Contracts see the pairs of a CID and its block.
#[derive(Drop)]
pub(crate) struct Entries<'a> {
    files: &'a [File],
    // The buffer that is open. Its number is that of the files.
    buffer: &'a [u8],
    list: &'a [Entry],
}

impl<'a> Model for Entries<'a> {
    ghost use Rattle.std.specs.Prelude.{List, ℕ, map};
    ghost use Rattle.ix_store.specs.Table.{files_of, pair_in};

    ghost Value = { List (List ℕ × List ℕ) };

    ghost view = { λ e. map (pair_in (files_of e.files.now e.buffer.now)) e.list.now };
}

impl<'a> Entries<'a> {
    /// The number of entries.
    pub(crate) fn len(&self) -> usize
        ensures { result ≡ length self.now }
    {
        self.list.len()
    }

    /// Returns the bytes of the CID at a position, and the block.
    pub(crate) fn get(&self, position: usize) -> Option<(&'a [u8], &'a [u8])>
        ensures { option_map (λ p. (p.0.now, p.1.now)) result ≡ slice_get self.now position }
    {
        match self.list.get(position) {
            Some(entry) => Some(split(self.files, self.buffer, entry)),
            None => None,
        }
    }

    /// Returns the bytes of the CID at a position that there is, and the block.
    pub(crate) fn at(&self, position: usize) -> (&'a [u8], &'a [u8])
        requires { position < length self.now }
        ensures { slice_get self.now position ≡ Some (result.0.now, result.1.now) }
    {
        split(self.files, self.buffer, &self.list[position])
    }

    /// Returns the first entries, so many.
    pub(crate) fn first(&self, count: usize) -> Entries<'a>
        ensures { result ≡ take count self.now }
    {
        let (list, _) = self.list.split_at(count.min(self.list.len()));
        Entries {
            files: self.files,
            buffer: self.buffer,
            list,
        }
    }

    /// Returns a cursor over the block at a position, with its end in shared bytes.
    pub(crate) fn cursor(&self, position: usize) -> Option<Cursor<'a>>
        ensures { result ≡ option_map (λ p. p.1) (slice_get self.now position) }
    {
        match self.list.get(position) {
            Some(entry) => Some(cursor_of(self.files, self.buffer, entry)),
            None => None,
        }
    }
}

// Returns the bytes of a file by its number, the open buffer being the last.
fn bytes_of<'a>(files: &'a [File], buffer: &'a [u8], number: usize) -> &'a [u8]
    ensures { result.now ≡ file_at (files_of files.now buffer.now) number }
{
    match files.get(number) {
        Some(file) => file.bytes(),
        None if number == files.len() => buffer,
        None => &[],
    }
}

// Returns the CID and the block of an entry.
fn split<'a>(files: &'a [File], buffer: &'a [u8], entry: &Entry) -> (&'a [u8], &'a [u8])
    ensures { (result.0.now, result.1.now) ≡ pair_in (files_of files.now buffer.now) entry.now }
{
    let bytes = bytes_of(files, buffer, entry.file());
    let (_, rest) = bytes.split_at(entry.place().min(bytes.len()));
    let (cid, rest) = rest.split_at(entry.cid_size().min(rest.len()));
    let (block, _) = rest.split_at(entry.size().min(rest.len()));
    (cid, block)
}

// Returns a cursor over the block of an entry.
fn cursor_of<'a>(files: &'a [File], buffer: &'a [u8], entry: &Entry) -> Cursor<'a>
    ensures { result ≡ block_in (files_of files.now buffer.now) entry.now }
{
    let (cid, block) = split(files, buffer, entry);
    match files.get(entry.file()) {
        Some(File::Shared(bytes)) => {
            let end = bytes.len().min(entry.place()) + cid.len() + block.len();
            Cursor::within(block, bytes, end)
        }
        _ => Cursor::of(block),
    }
}

/// The blocks under their CIDs, in the order of adding. Contracts see the bytes of the files, the last
/// of which is the open buffer, and the pairs of a CID and its block.
pub(crate) struct BlockTable {
    alloc: Global,
    files: Vec<File>,
    // The buffer to which blocks are copied.
    buffer: Vec<u8>,
    entries: Vec<Entry>,
}

// Written by hand: a derived drop is inlined in each function that drops one, at each of its exits.
impl Drop for BlockTable {
    fn drop(self) {
        let BlockTable {
            alloc: _,
            files,
            buffer,
            entries,
        } = self;
        drop(files);
        drop(buffer);
        drop(entries);
    }
}

impl Model for BlockTable {
    ghost use Rattle.std.specs.Prelude.{map, All};
    ghost use Rattle.ix_store.specs.Table.{TableMeaning, files_of, pair_in, IsWithin};

    ghost Value = { TableMeaning };

    ghost view = { λ t. record { files = files_of t.files.items t.buffer.items; pairs = map (pair_in (files_of t.files.items t.buffer.items)) t.entries.items } };

    ghost invariant = { λ t. All (IsWithin (files_of t.files.items t.buffer.items)) t.entries.items };
}

impl BlockTable {
    /// Creates a table without blocks.
    pub(crate) fn new(alloc: Global) -> BlockTable
        ensures { result ≡ record { files = [] ∷ []; pairs = [] } }
    {
        BlockTable {
            alloc,
            files: Vec::new(alloc),
            buffer: Vec::new(alloc),
            entries: Vec::new(alloc),
        }
    }

    /// Returns the entries.
    pub(crate) fn entries(&self) -> Entries<'_>
        ensures { result ≡ self.now.pairs }
    {
        Entries {
            files: self.files.as_slice(),
            buffer: self.buffer.as_slice(),
            list: self.entries.as_slice(),
        }
    }

    /// The number of blocks.
    pub(crate) fn len(&self) -> usize
        ensures { result ≡ length self.now.pairs }
    {
        self.entries.len()
    }

    /// Takes a share of a file, and returns its number.
    pub(crate) fn take_file(&mut self, bytes: &Arc<Vec<u8>>) -> Result<usize, AllocError>
        ensures taken { OnOk result (self.new ≡ with_file self.old (arc_value bytes.now).items) }
        ensures number { IfOk result (λ n. n ≡ length self.old.files) }
        ensures err { OnErr result (self.new ≡ self.old) }
    {
        let bytes = Arc::try_clone(bytes)?;
        self.files.reserve(2)?;
        let copied = mem::replace(&mut self.buffer, Vec::new(self.alloc));
        self.files.push_reserved(File::Copied(copied));
        let number = self.files.len();
        self.files.push_reserved(File::Shared(bytes));
        Ok(number)
    }

    /// Appends the block that is right after its CID in a file.
    pub(crate) fn push_section(
        &mut self,
        file: usize,
        place: usize,
        cid_size: usize,
        size: usize,
    ) -> Result<(), AllocError>
        requires { IsRange self.old.files file (place + cid_size + size) }
        ensures files { self.new.files ≡ self.old.files }
        ensures pushed { OnOk result
            (self.new.pairs ≡ self.old.pairs ++ section_in self.old.files file place cid_size size ∷ []) }
        ensures err { OnErr result (self.new.pairs ≡ self.old.pairs) }
    {
        let entry = Entry::new(file, place, cid_size, size)?;
        self.entries.push(entry)?;
        Ok(())
    }

    /// Appends a copy of a block and its CID.
    pub(crate) fn push_copy(&mut self, cid: &[u8], block: &[u8]) -> Result<(), AllocError>
        ensures pushed { OnOk result (self.new.pairs ≡ self.old.pairs ++ (cid.now, block.now) ∷ []) }
        ensures err { OnErr result (self.new.pairs ≡ self.old.pairs) }
    {
        self.make_room(cid.len() + block.len())?;
        let file = self.files.len();
        let place = self.buffer.len();
        self.append(cid)?;
        self.append(block)?;
        self.push_section(file, place, cid.len(), block.len())
    }

    // Appends bytes to the open buffer.
    fn append(&mut self, bytes: &[u8]) -> Result<(), AllocError>
        ensures files { OnOk result (IsAppended self.old.files bytes.now self.new.files) }
        ensures pairs { self.new.pairs ≡ self.old.pairs }
    {
        self.buffer.extend_from_slice(bytes)?;
        Ok(())
    }

    // Begins another buffer if the open one has no room for so many bytes.
    fn make_room(&mut self, needed: usize) -> Result<(), AllocError>
        ensures { self.new.pairs ≡ self.old.pairs }
    {
        if self.buffer.is_empty() || needed <= BUFFER.saturating_sub(self.buffer.len()) {
            return Ok(());
        }
        self.files.reserve(1)?;
        let copied = mem::replace(&mut self.buffer, Vec::new(self.alloc));
        self.files.push_reserved(File::Copied(copied));
        Ok(())
    }

    /// Swaps two blocks.
    pub(crate) fn swap(&mut self, first: usize, second: usize)
        requires first { first < length self.old.pairs }
        requires second { second < length self.old.pairs }
        ensures { self.new ≡ record { files = self.old.files; pairs = swap self.old.pairs first second } }
    {
        self.entries.swap(first, second);
    }

    /// Drops the blocks after the first ones, so many.
    pub(crate) fn truncate(&mut self, count: usize)
        ensures { self.new ≡ record { files = self.old.files; pairs = take count self.old.pairs } }
    {
        self.entries.truncate(count);
    }

    /// Returns a copy, which shares the bytes of shared files.
    pub(crate) fn try_clone(&self) -> Result<BlockTable, AllocError>
        ensures { IfOk result (λ copy. copy ≡ self.now) }
    {
        Ok(BlockTable {
            alloc: self.alloc,
            files: clone_files(self.alloc, self.files.as_slice())?,
            buffer: Vec::from_slice(self.alloc, self.buffer.as_slice())?,
            entries: Vec::from_slice(self.alloc, self.entries.as_slice())?,
        })
    }

    /// Sorts the blocks: those whose verdicts pass come first, and after them the others, each in
    /// their order.
    pub(crate) fn sort_passing_first(&mut self, verdicts: &[Verdict]) -> Result<(), AllocError>
        requires { length verdicts.now ≡ length self.old.pairs }
        ensures { OnOk result (self.new.pairs ≡ passing_first verdicts.now self.old.pairs) }
    {
        self.entries = passing_first(self.alloc, verdicts, self.entries.as_slice())?;
        Ok(())
    }

    /// Frees the memory that no block takes.
    pub(crate) fn shrink_to_fit(&mut self)
        ensures { self.new ≡ self.old }
    {
        self.entries.shrink_to_fit();
        self.buffer.shrink_to_fit();
    }
}

// Returns copies of files. Shared bytes stay shared.
fn clone_files(alloc: Global, files: &[File]) -> Result<Vec<File>, AllocError>
    ensures { IfOk result (λ copies. map file_bytes copies.items ≡ map file_bytes files.now) }
{
    let mut copies = Vec::with_capacity(alloc, files.len())?;
    for file in files.iter() {
        copies.push(file.try_clone(alloc)?)?;
    }
    Ok(copies)
}

/// Returns the elements whose verdicts pass, and after them the others, each in their order.
pub(crate) fn passing_first<T: Copy + Drop>(
    alloc: Global,
    verdicts: &[Verdict],
    list: &[T],
) -> Result<Vec<T>, AllocError>
    requires { length verdicts.now ≡ length list.now }
    ensures { IfOk result (λ sorted. sorted.items ≡ passing_first verdicts.now list.now) }
{
    let mut sorted = Vec::with_capacity(alloc, list.len())?;
    push_picked(&mut sorted, verdicts, list, true)?;
    push_picked(&mut sorted, verdicts, list, false)?;
    Ok(sorted)
}

// Appends the elements whose verdicts pass, or those whose verdicts don't.
fn push_picked<T: Copy + Drop>(
    sorted: &mut Vec<T>,
    verdicts: &[Verdict],
    list: &[T],
    passes: bool,
) -> Result<(), AllocError>
    requires { length verdicts.now ≡ length list.now }
    ensures { OnOk result (sorted.new.items ≡ sorted.old.items ++ picked (is_picked passes) verdicts.now list.now) }
{
    for place in 0..list.len() {
        if verdicts[place].passes() == passes {
            sorted.push(list[place])?;
        }
    }
    Ok(())
}

/// Returns the bytes of the range, or those of them that exist.
pub(crate) fn part(bytes: &[u8], start: usize, size: usize) -> &[u8]
    ensures { result.now ≡ part_of bytes.now start size }
{
    let (_, rest) = bytes.split_at(start.min(bytes.len()));
    let (part, _) = rest.split_at(size.min(rest.len()));
    part
}

/// Whether bytes are not valid DAG-CBOR (RFC 8949, deterministic encoding).
pub fn has_fault(bytes: &[u8]) -> bool
    ensures { result ≡ is_none (data_at bytes.now) }
{
    check(bytes).is_err()
}
