//! The observer of a file that is verified.

/// An observer of how far a file is verified. The thread that verifies calls it. What it does has no effect on the
/// findings.
pub trait Observer {
    /// So many more sections were checked.
    fn on_sections(&self, count: usize);

    /// One more root or link was followed.
    fn on_visit(&self);
}

/// An observer that ignores everything.
#[derive(Drop)]
pub struct Unobserved;

impl Observer for Unobserved {
    fn on_sections(&self, _count: usize) {}

    fn on_visit(&self) {}
}
