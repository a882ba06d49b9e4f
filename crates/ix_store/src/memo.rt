//! The cached answers for each block of a list, in words that threads share.

ghost use Rattle.std.specs.Prelude.{◌≡◌, ◌<◌, IfOk, length, slice_get, Some, IfSome, IfNone, ◌==◌, cond, map};
ghost use Rattle.ix_store.specs.Memo.{hash_matches, is_malformed, IsTrueAt};
ghost use Rattle.ix_store.specs.Sound.{verdict_of_copy, word_by, word_of, judged_word};

use crate::digest::hash_matches;
use crate::memo_rule::{Look, MemoSeat, Note, Row};
use crate::table::{BlockTable, Entries, has_fault};
use atomic_table::Table;
use ix_cid::code::DAG_CBOR;
use ix_cid::{HashFunction, parts_at};
use ix_verdict::Verdict;
use std::alloc::{AllocError, Global};
use std::marker::Model;

/// The cached answers for each block of a list. Contracts see that list.
#[derive(Drop)]
pub(crate) struct Memo {
    row: Row,
}

impl Model for Memo {
    ghost use Rattle.std.specs.Prelude.{◌≡◌, length};
    ghost use Rattle.ix_store.specs.Store.{Blocks};

    ghost Value = { Blocks };

    ghost view = { λ m. m.row.shared.key.pairs };

    ghost invariant = { λ m. m.row.shared.table_id.words ≡ length m.row.shared.key.pairs };
}

impl Memo {
    /// Creates words for these blocks, with no answer known.
    pub(crate) fn new(alloc: Global, blocks: &BlockTable) -> Result<Memo, AllocError>
        ensures { IfOk result (λ m. m ≡ blocks.now.pairs) }
    {
        let blank = Vec::from_elem(alloc, 0u64, blocks.len())?;
        let (row, _) = Table::of_words(alloc, blank.as_slice(), blocks)?;
        Ok(Memo { row })
    }

    /// Creates words for these blocks, with the answers that the verdict on each gives.
    pub(crate) fn of_verdicts(
        alloc: Global,
        blocks: &BlockTable,
        verdicts: &[Verdict],
    ) -> Result<Memo, AllocError>
        requires { verdicts.now ≡ map verdict_of_copy blocks.now.pairs }
        ensures { IfOk result (λ m. m ≡ blocks.now.pairs) }
    {
        let words = words_of(alloc, &blocks.entries(), verdicts)?;
        let (row, _) = Table::of_words(alloc, words.as_slice(), blocks)?;
        Ok(Memo { row })
    }

    /// Whether the digest of the CID at a position is that of the block there. Computes it unless a
    /// thread has stored the answer.
    pub(crate) fn hash_matches(&self, place: usize, cid: &[u8], block: &[u8]) -> bool
        requires { slice_get self.now place ≡ Some (cid.now, block.now) }
        ensures { result ≡ hash_matches (cid.now, block.now) }
    {
        let (word, mut seat) = look(&self.row, place);
        if let Some(answer) = decode(word % 4) {
            return answer;
        }
        let answer = hash_matches(cid, block);
        note(&self.row, &mut seat, place, word, word + encode(answer));
        answer
    }

    /// Whether the block at a position is not valid DAG-CBOR. Computes it unless a thread has
    /// stored the answer.
    pub(crate) fn is_malformed(&self, place: usize, cid: &[u8], block: &[u8]) -> bool
        requires { slice_get self.now place ≡ Some (cid.now, block.now) }
        ensures { result ≡ is_malformed (cid.now, block.now) }
    {
        let (word, mut seat) = look(&self.row, place);
        if let Some(answer) = decode(word / 4) {
            return answer;
        }
        let answer = has_fault(block);
        note(&self.row, &mut seat, place, word, word + 4 * encode(answer));
        answer
    }
}

// Returns the words of blocks with these verdicts.
fn words_of(
    alloc: Global,
    entries: &Entries<'_>,
    verdicts: &[Verdict],
) -> Result<Vec<u64>, AllocError>
    requires { verdicts.now ≡ map verdict_of_copy entries.now }
    ensures { IfOk result (λ words. words.items ≡ map judged_word entries.now) }
{
    let mut words = Vec::with_capacity(alloc, entries.len())?;
    for place in 0..entries.len() {
        let (cid, _) = entries.at(place);
        words.push(word_of(cid, verdicts[place]))?;
    }
    Ok(words)
}

// Returns the word of a block by its CID and its verdict.
fn word_of(cid: &[u8], verdict: Verdict) -> u64
    ensures { result ≡ word_of cid.now verdict }
{
    let parts = parts_at(cid);
    match parts.hash_function() {
        Some(HashFunction::Sha2_256 | HashFunction::Sha2_512) => {
            word_by(parts.codec == DAG_CBOR, verdict)
        }
        Some(HashFunction::Identity) | None => 0,
    }
}

// Returns the word of a hashed block by its verdict, and whether its codec is DAG-CBOR.
fn word_by(is_data: bool, verdict: Verdict) -> u64
    ensures { result ≡ word_by is_data verdict }
{
    match verdict {
        Verdict::Sound if is_data => encode(true) + 4 * encode(false),
        Verdict::Sound => encode(true),
        Verdict::Damaged => encode(false),
        Verdict::Malformed => encode(true) + 4 * encode(true),
        Verdict::Codec | Verdict::Hash | Verdict::Missing | Verdict::Inline => 0,
    }
}

// Decodes a digit of a word to an answer, if it has one.
fn decode(digit: u64) -> Option<bool>
    ensures none { IfNone result (digit ≡ 0) }
    ensures some { IfSome result (λ b. (0 < digit) × (b ≡ (digit == 1))) }
{
    if digit == 0 { None } else { Some(digit == 1) }
}

// Encodes an answer as a digit of a word.
fn encode(answer: bool) -> u64
    ensures { result ≡ cond answer 1 2 }
{
    if answer { 1 } else { 2 }
}

// Reads the word at a position: it is true of the block there.
fn look(row: &Row, place: usize) -> (u64, MemoSeat)
    requires { place < row.now.shared.table_id.words }
    ensures table { result.1.table_id ≡ row.now.shared.table_id }
    ensures told { IsTrueAt row.now.shared.key.pairs place result.0 }
{
    row.shared.load_new_seat::<Look>(place)
}

// Writes a word over the one that was read, unless another thread has changed it since.
fn note(row: &Row, seat: &mut MemoSeat, place: usize, found: u64, word: u64)
    requires seat { seat.old.table_id ≡ row.now.shared.table_id }
    requires place { place < row.now.shared.table_id.words }
    requires word { IsTrueAt row.now.shared.key.pairs place word }
{
    row.shared
        .compare_exchange::<Note>(seat, place, found, word);
}
