//! The state of a job's sink.

ghost use Rattle.std.specs.Prelude.{◌≡◌};
ghost use Rattle.ix_pipeline.specs.Progress.{end_on};

use ix_car::End;

/// What happens to the visits of a job that are still to come.
#[derive(Drop, Clone, Copy, PartialEq, Eq)]
pub(crate) enum SinkState {
    /// They are checked, and delivered with their verdicts.
    Taking,
    /// A write failed: they are only checked.
    Failed,
}

impl SinkState {
    // Returns the end of a job, given how it would end if no write had failed.
    pub(crate) fn end(self, end: End) -> End
        ensures { result ≡ end_on self end }
    {
        match self {
            SinkState::Taking => end,
            SinkState::Failed => End::Write,
        }
    }
}
