//! How a queue and its seats are made.

ghost use Rattle.std.specs.Prelude.{◌≡◌, ◌<◌, ◌≤◌, ◌+◌, ◌^◌, length, map, replicate, IfOk, OnOk};
ghost use Rattle.crossbeam_queue.specs.Passes.{view, IsPassOf, IsSamePass};
ghost use Rattle.ix_stages.specs.Items.{count_up};
ghost use Rattle.ix_stages.specs.Course.{IsCourse, course_visits};
ghost use Rattle.ix_stages.specs.PassViews.{blank};
ghost use Rattle.ix_stages.specs.Making.{IsMaker, HasMade, IsNewQueue, job_made, taker_made};
ghost use Rattle.ix_stages.specs.Seats.{maker_pass};

use crate::course::Course;
use crate::item::Item;
use crate::pass_view::PassView;
use crate::queue::{RuledQueue, VisitQueue};
use crate::rule::{MakeConsumer, MakeProducer, NameCourse, Naming};
use crate::seats::{JobSeat, StopSeat, TakeSeat};
use crossbeam_queue::Pass;
use std::alloc::{AllocError, Global};
use std::marker::Brand;
use std::snapshot::Snapshot;

/// A queue with all its seats.
#[derive(Drop)]
pub struct QueueParts {
    pub queue: VisitQueue,
    pub jobs: Vec<JobSeat>,
    pub takers: Vec<TakeSeat>,
    pub stop: StopSeat,
}

// Names the course, which each view carries from here on.
fn name_course<N: Naming, K: Course>(
    ruled: &RuledQueue,
    pass: &mut Pass<Item, PassView>,
    course: Snapshot<K>,
    seats: Snapshot<u64>,
)
    requires pass { IsPassOf ruled.now pass.old × (view pass.old ≡ blank) }
    requires name { (N.course ≡ K.expected course.value) × (N.seats ≡ seats.value) }
    ensures same { IsSamePass pass.old pass.new }
    ensures named { view pass.new ≡ maker_pass (K.expected course.value) seats.value 0 }
{
    ruled.another::<NameCourse<N>>(pass);
}

// Makes the seat of the next job.
fn job_seat(ruled: &RuledQueue, pass: &mut Pass<Item, PassView>, job: u32) -> JobSeat
    requires pass { IsMaker ruled.now pass.old job }
    requires parts { job + 1 < (view pass.old).all }
    requires course { length (course_visits (view pass.old).course job) ≤ 4294967295 }
    ensures made { HasMade pass.old pass.new (job + 1) }
    ensures seat { result ≡ job_made ruled.now pass.old job }
{
    JobSeat {
        pass: ruled.another::<MakeProducer>(pass),
        job,
        next: 0,
        closed: false,
    }
}

// Makes one consumer's seat.
fn take_seat(ruled: &RuledQueue, pass: &mut Pass<Item, PassView>) -> TakeSeat
    requires pass { IsMaker ruled.now pass.old (view pass.old).made }
    requires parts { (view pass.old).made + 1 < (view pass.old).all }
    ensures made { HasMade pass.old pass.new ((view pass.old).made + 1) }
    ensures seat { result ≡ taker_made ruled.now pass.old }
{
    TakeSeat {
        pass: ruled.another::<MakeConsumer>(pass),
    }
}

// Makes one seat for each job.
fn job_seats(
    ruled: &RuledQueue,
    pass: &mut Pass<Item, PassView>,
    alloc: Global,
    jobs: u32,
) -> Result<Vec<JobSeat>, AllocError>
    requires pass { IsMaker ruled.now pass.old 0 }
    requires parts { jobs < (view pass.old).all }
    requires course { IsCourse (view pass.old).course }
    ensures made { OnOk result (HasMade pass.old pass.new jobs) }
    ensures seats { IfOk result (λ s.
        s.items ≡ map (job_made ruled.now pass.old) (count_up 0 jobs)) }
{
    let mut seats = Vec::new(alloc);
    for job in 0..jobs {
        seats.push(job_seat(ruled, pass, job))?;
    }
    Ok(seats)
}

// Makes the consumers' seats.
fn take_seats(
    ruled: &RuledQueue,
    pass: &mut Pass<Item, PassView>,
    alloc: Global,
    jobs: u32,
    takers: u32,
) -> Result<Vec<TakeSeat>, AllocError>
    requires pass { IsMaker ruled.now pass.old jobs }
    requires parts { (jobs + takers < (view pass.old).all) × (jobs + takers < 2 ^ 32) }
    ensures made { OnOk result (HasMade pass.old pass.new (jobs + takers)) }
    ensures seats { IfOk result (λ s. s.items ≡ replicate takers (taker_made ruled.now pass.old)) }
{
    let mut seats = Vec::new(alloc);
    for _ in 0..takers {
        seats.push(take_seat(ruled, pass))?;
    }
    Ok(seats)
}

impl VisitQueue {
    /// Creates a queue with room for `capacity` items, with a seat for each of the `jobs` jobs of
    /// the course, seats for `takers` consumers, and the seat that stops them.
    pub fn new<K: Course>(
        alloc: Global,
        course: &K,
        capacity: u32,
        jobs: u32,
        takers: u32,
    ) -> Result<QueueParts, AllocError>
        requires capacity { 0 < capacity }
        requires course { IsCourse (K.expected course.now) × (length (K.expected course.now) ≡ jobs) }
        requires seats { jobs + takers < 2 ^ 32 }
        ensures { IfOk result (IsNewQueue (K.expected course.now) jobs takers) }
    {
        let (ruled, mut pass) = RuledQueue::ruled(alloc, capacity as usize)?;
        let seats = u64::from(jobs) + u64::from(takers) + 1;
        name_course::<Brand, K>(
            &ruled,
            &mut pass,
            Snapshot::of(course),
            Snapshot::of(&seats),
        );
        let jobs_made = job_seats(&ruled, &mut pass, alloc, jobs)?;
        let takers_made = take_seats(&ruled, &mut pass, alloc, jobs, takers)?;
        Ok(QueueParts {
            queue: VisitQueue { ruled },
            jobs: jobs_made,
            takers: takers_made,
            stop: StopSeat { pass },
        })
    }
}
