//! Bit sets of positions.

ghost use Rattle.std.specs.Prelude.{◌≡◌, ℕ, false, OnOk, OnErr};
ghost use Rattle.ix_store.specs.PlaceSet.{contains_place, HasThePlacesOf, HasOneMoreThan};

use std::alloc::{AllocError, Global};

// How many positions a word has.
const WORD_BITS: usize = 64;

/// A set of positions, such as those of some blocks of a store, with a bit for each position up to
/// the greatest that was inserted.
//
// Bit `n % 64` of word `n / 64` says whether the position `n` is in it. A position past the last
// word isn't.
#[derive(Drop)]
pub struct PlaceSet {
    words: Vec<u64>,
}

#[tactic(auto, unfolding(crate::specs::PlaceSet::contains_place))]
impl PlaceSet {
    /// Creates an empty set.
    pub fn new(alloc: Global) -> PlaceSet
        ensures { (n : ℕ) → contains_place result n ≡ false }
    {
        PlaceSet {
            words: Vec::new(alloc),
        }
    }

    /// Whether a position is in the set.
    pub fn contains(&self, place: usize) -> bool
        ensures { result ≡ contains_place self.now place }
    {
        match self.words.get(place / WORD_BITS) {
            Some(word) => (word >> (place % WORD_BITS)) & 1 == 1,
            None => false,
        }
    }

    /// Inserts a position. If memory runs out the set is unchanged.
    pub fn insert(&mut self, place: usize) -> Result<(), AllocError>
        ensures inserted { OnOk result (HasOneMoreThan self.new self.old place) }
        ensures err { OnErr result (HasThePlacesOf self.new self.old) }
    {
        let word = place / WORD_BITS;
        if self.words.len() <= word {
            self.words.resize(word + 1, 0)?;
        }
        self.words[word] |= 1 << (place % WORD_BITS);
        Ok(())
    }

    /// Removes all positions, and frees the memory.
    pub fn clear(&mut self)
        ensures { (n : ℕ) → contains_place self.new n ≡ false }
    {
        self.words.clear();
        self.words.shrink_to_fit();
    }
}
