//! What a pass of the queue knows.

use crate::course::JobVisits;
use crate::item::Item;
use std::collections::LinkedList;

/// A view of a pass. A ghost type: only contracts see it, and no value of it is made.
pub struct PassView {
    /// Whether the course isn't named yet.
    pub blank: bool,
    /// How many seats are joined in this pass.
    pub parts: u64,
    pub course: LinkedList<JobVisits>,
    /// How many seats the queue has in all.
    pub all: u64,
    /// Whether it makes the seats.
    pub maker: bool,
    /// How many seats it has made.
    pub made: u64,
    /// The job whose items it puts.
    pub job: Option<u64>,
    pub put: LinkedList<Item>,
    pub taken: LinkedList<Item>,
    /// What the seats that were joined into it had put, one list each.
    pub puts: LinkedList<LinkedList<Item>>,
    /// What they had taken, one list each.
    pub takens: LinkedList<LinkedList<Item>>,
}
