//! A walker: claims jobs, one after the other, and puts their visits.

ghost use Rattle.std.specs.Prelude.{◌≡◌, false, Some, slice_get};
ghost use Rattle.ix_stages.specs.declared.item.Item.{Item};
ghost use Rattle.ix_stages.specs.Course.{Allowed};
ghost use Rattle.ix_stages.specs.Walking.{IsReadyIn, CanClaim};

use crate::gate::Gate;
use crate::shared::Shared;
use crate::{ClaimSeat, Item, JobSeat, law};
use ix_car::End;
use ix_walk::{Job, WalkStop};
use std::alloc::Global;
use std::sync::Wait;

// Puts the visits of the seat's job, each after the gate was called with it, and returns how the
// walk ended.
fn put_visits<'t, R: Wait, G: Gate>(
    rt: &R,
    alloc: Global,
    shared: &Shared<'t, '_, G>,
    job: &'t Job,
    seat: &mut JobSeat,
) -> End
    requires ready { IsReadyIn shared.now seat.old }
    requires job { slice_get shared.now.task.now.walks.now.jobs seat.old.job ≡ Some job.now }
    ensures same { (seat.new.table ≡ seat.old.table) × (seat.new.closed ≡ false) }
    ensures close { Allowed seat.new.pass.course (Item.Close seat.new.job seat.new.next result) }
{
    law::course_of_jobs();
    let number = seat.job();
    let Ok(walk) = shared.task.walks.walk(alloc, job, number) else {
        return End::Memory;
    };
    for item in walk {
        match item {
            Ok(visit) => {
                shared.task.gate.pass(number, visit.seq);
                shared.queue.put(rt, seat, Item::Visit(visit));
            }
            Err(WalkStop::Limit) => return End::Limit,
            Err(WalkStop::Memory) => return End::Memory,
        }
    }
    End::Done
}

// Walks the seat's job: puts its visits, and then the close.
fn walk_job<R: Wait, G: Gate>(rt: &R, alloc: Global, shared: &Shared<'_, '_, G>, seat: JobSeat)
    requires { IsReadyIn shared.now seat }
{
    let mut seat = seat;
    let number = seat.job() as usize;
    let job = &shared.task.walks.jobs()[number];
    let end = put_visits(rt, alloc, shared, job, &mut seat);
    let close = Item::Close {
        job: seat.job(),
        seq: seat.next(),
        end,
    };
    shared.queue.put(rt, &mut seat, close);
}

/// Claims jobs and walks them, until all are claimed. Of each job it puts the visits, each after
/// the gate was called with it, and then one close.
pub fn walk_jobs<R: Wait, G: Gate>(
    rt: &R,
    alloc: Global,
    shared: &Shared<'_, '_, G>,
    claimer: ClaimSeat<JobSeat>,
)
    requires { CanClaim shared.now claimer }
{
    let mut claimer = claimer;
    for _ in rt.forever() {
        let Some((_, seat)) = shared.claims.claim(&mut claimer) else {
            return;
        };
        walk_job(rt, alloc, shared, seat);
    }
    unreachable!()
}
