//! Courses: the expected sequence of items of each job.

ghost use Rattle.std.specs.Prelude.{List};

use ix_walk::Visit;
use std::collections::LinkedList;

/// What a course says of one job: its visits, and whether its traversal exceeds its limit. A ghost
/// type: only contracts see it, and no value of it is made.
pub struct JobVisits {
    pub visits: LinkedList<Visit>,
    pub is_truncated: bool,
}

/// A value that names the expected sequences of all jobs, which only contracts see: for each job
/// its visits, and whether its traversal exceeds its limit.
pub trait Course {
    ghost use Rattle.ix_stages.specs.declared.course.JobVisits.{JobVisits};

    /// The expected sequence of each job, in the order of their numbers.
    ghost expected: { Self → List JobVisits };
}
