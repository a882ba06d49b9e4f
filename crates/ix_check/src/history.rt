//! Ghost lists, which only contracts read.

ghost use Rattle.std.specs.Prelude.{◌≡◌, [], ◌∷◌, ◌++◌};

use std::marker::Model;
use std::mem;
use std::snapshot::Snapshot;

// What was recorded: nothing, or an item after what was recorded before.
#[derive(Drop)]
enum GhostList<T> {
    Nil,
    Snoc(Snapshot<GhostList<T>>, Snapshot<T>),
}

/// A list of items that only contracts read: it has no bytes, and recording an item keeps nothing
/// of it.
#[derive(Drop)]
pub struct History<T> {
    past: Snapshot<GhostList<T>>,
}

impl<T> Model for History<T> {
    ghost use Rattle.std.specs.Prelude.{List};
    ghost use Rattle.ix_check.specs.History.{listed};

    ghost Value = { List T };

    ghost view = { λ h. listed h.past.value };
}

impl<T> History<T> {
    /// Creates an empty history.
    pub fn new() -> History<T>
        ensures { result ≡ [] }
    {
        History {
            past: Snapshot::of(&GhostList::Nil),
        }
    }

    /// Appends an item.
    pub fn push(&mut self, item: &T)
        ensures { self.new ≡ self.old ++ item.now ∷ [] }
    {
        let before = mem::replace(self, History::new());
        let past = GhostList::Snoc(before.past, Snapshot::of(item));
        self.past = Snapshot::of(&past);
    }
}
