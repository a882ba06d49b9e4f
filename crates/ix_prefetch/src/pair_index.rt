//! The numbers of pairs, by place and residual.

use crate::reading::stored_at;
use ix_cid::Cid;
use ix_store::Store;
use std::alloc::{AllocError, Global};
use std::collections::BTreeMap;

/// No number.
pub(crate) const NO_PAIR: u32 = u32::MAX;

// About how many bytes a number takes, for the residual of a root and for others.
const WHOLE_BYTES: usize = 4;

const OTHER_BYTES: usize = 40;

/// A block of the store that is to be expanded with a residual, by its place and the residual's
/// number.
#[derive(Clone, Copy)]
pub(crate) struct Task {
    pub place: u32,
    pub residual: u16,
}

/// The pairs of the next level, each once, in the order in which they were met.
#[derive(Drop)]
pub(crate) struct NextLevel {
    pub tasks: Vec<Task>,
    // The number of the pair of the first of them.
    pub first: usize,
    // The number of no pair is as great as this: what comes after isn't expanded.
    pub most: u32,
}

/// Where the pair of a place and a residual may be. Nothing depends on it: whoever takes a number
/// looks whether the pair of that number is the one.
#[derive(Drop)]
pub(crate) struct PairIndex {
    // The number by place, for the residual of a root.
    whole: Vec<u32>,
    // The number for other residuals.
    others: BTreeMap<(usize, u16), u32>,
}

impl PairIndex {
    /// Creates an empty index.
    pub(crate) fn new(alloc: Global) -> PairIndex {
        PairIndex {
            whole: Vec::new(alloc),
            others: BTreeMap::new(alloc),
        }
    }

    /// Returns the number of a pair, or `NO_PAIR`.
    pub(crate) fn get(&self, place: usize, residual: u16) -> u32 {
        let found = if residual == 0 {
            self.whole.get(place).copied()
        } else {
            self.others.get(&(place, residual)).copied()
        };
        found.unwrap_or(NO_PAIR)
    }

    // Inserts the number of a pair.
    fn insert(&mut self, task: Task, number: u32) -> Result<(), AllocError> {
        let place = task.place as usize;
        if task.residual != 0 {
            self.others.insert((place, task.residual), number)?;
            return Ok(());
        }
        if self.whole.len() <= place {
            self.whole.resize(place + 1, NO_PAIR)?;
        }
        self.whole[place] = number;
        Ok(())
    }

    /// Returns the number that the pair of a link has or will have. If it isn't known, the pair is put
    /// into the next level. There is none for a link whose guess is that there is none, and if there
    /// are as many pairs as there may be.
    pub(crate) fn schedule(
        &mut self,
        task: Task,
        guess: u32,
        next: &mut NextLevel,
    ) -> Result<u32, AllocError> {
        if guess == NO_PAIR {
            return Ok(NO_PAIR);
        }
        let known = self.get(task.place as usize, task.residual);
        if known != NO_PAIR {
            return Ok(known);
        }
        let number = next.first.saturating_add(next.tasks.len());
        if number >= next.most as usize {
            return Ok(NO_PAIR);
        }
        let number = number as u32;
        self.insert(task, number)?;
        next.tasks.push(task)?;
        Ok(number)
    }

    /// Puts the pairs of roots into a level, if the store has their blocks.
    pub(crate) fn schedule_roots(
        &mut self,
        alloc: Global,
        store: &Store,
        roots: &[Cid],
        level: &mut NextLevel,
    ) -> Result<(), AllocError> {
        for root in roots.iter() {
            if let Some(at) = stored_at(alloc, store, &root.by_ref())? {
                let task = Task {
                    place: at.place,
                    residual: 0,
                };
                self.schedule(task, at.guess(), level)?;
            }
        }
        Ok(())
    }

    /// About how many bytes it takes.
    pub(crate) fn bytes(&self) -> usize {
        let whole = self.whole.len().saturating_mul(WHOLE_BYTES);
        whole.saturating_add(self.others.len().saturating_mul(OTHER_BYTES))
    }
}
