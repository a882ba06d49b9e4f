//! The invariant of the cached answers, which holds between any two steps of any threads: each word
//! is true of the block at its position.

ghost use Rattle.ix_store.specs.Memo.{AllTrue, IsTrueAt};

use crate::table::BlockTable;
use atomic_table::{Play, Seat, Table, TableRule};
use std::alloc::Global;

/// The invariant: a word for each block of the table with which the words were made. A seat knows
/// that table.
pub(crate) struct MarkRule;

impl TableRule<(), BlockTable, BlockTable> for MarkRule {
    ghost holds = { λ key s. AllTrue key.pairs s.words };

    ghost first = { λ key. key };
}

/// One word for each block.
pub(crate) type Row = Table<(), BlockTable, BlockTable, MarkRule, Global>;

/// A thread's handle for the words. It takes no bytes.
pub(crate) type MemoSeat = Seat<(), BlockTable>;

/// A step that reads a word: it is true of the block at its position.
pub(crate) struct Look;

impl Play<(), BlockTable> for Look {
    ghost then = { λ step me n w. IsTrueAt me.0.pairs step.word n };
}

/// A step that writes a word.
pub(crate) struct Note;

impl Play<(), BlockTable> for Note {
    ghost then = { λ step me n w. Unit {0} };
}
