//! Why a ring rejects an item.

ghost use Rattle.std.specs.Prelude.{IsTrue, ◌↔◌};
ghost use Rattle.ix_pipeline.specs.Numbered.{IsMemory};

/// Why an item was not placed. Each variant returns the item.
#[derive(Debug, PartialEq, Eq, Drop)]
pub enum RingFault<T> {
    /// The number is below the next one.
    Passed(T),
    /// The number is 1,048,576 or more above the next one.
    Far(T),
    /// An item with that number is there already.
    Taken(T),
    /// Out of memory.
    Memory(T),
}

impl<T> RingFault<T> {
    /// Whether the reason is that memory ran out.
    pub fn is_memory(&self) -> bool
        ensures { IsTrue result ↔ IsMemory self.now }
    {
        matches!(self, RingFault::Memory(_))
    }
}
