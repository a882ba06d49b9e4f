//! Exports in which one stage waits for another: delivery goes on while visits are checked, checks
//! while jobs are walked, and any walker takes any job.

ghost use Rattle.ix_car.specs.Headline.{IsUnusedCheck};

use crate::archives::archived;
use crate::exporting::{ExportInput, chain, list, plan_of, started};
use crate::layers::{is_layers, layers};
use ix_car::{End, Sink, SinkFault};
use ix_check::{ShaCheck, Verdict};
use ix_fixtures::{ALL, Awaited, Before, CheckAfter, Log, TURNS, job_at};
use ix_pipeline::{Gate, Open, export};
use ix_walk::Visit;
use std::alloc::{AllocError, Global};
use std::sync::Arc;
use std::test::Fail;

// How many visits of the forty layers are expected.
const LIMIT: u32 = 1_000;

// Records what it receives, and signals that its first delivery began.
#[derive(Drop)]
struct ProgressMode<'a> {
    log: Log,
    begun: &'a Awaited,
}

impl Sink for ProgressMode<'_> {
    ghost use Rattle.std.specs.Prelude.{◌++◌, map, option_to_list};
    ghost use Rattle.ix_car.specs.Events.{delivery, close as closing};

    ghost calls = { λ s. record {
      events = map delivery s.log.deliveries.items ++ map closing (option_to_list s.log.closed);
      failed = option_to_list s.log.failed;
    } };

    ghost About = { Unit {0} };

    ghost guarantee = { λ _ _ _ _ _. Unit {0} };

    fn deliver(&mut self, alloc: Global, visit: Visit, verdict: Verdict) -> Result<(), SinkFault> {
        self.begun.signal();
        self.log.deliver(alloc, visit, verdict)
    }

    fn close(&mut self, end: End) {
        self.log.close(end);
    }
}

// Holds the check of the fourth visit of a job until what it waits for began.
#[derive(Drop)]
struct LastHeld<'a> {
    begun: &'a Awaited,
}

impl Before for LastHeld<'_> {
    fn before(&self, visit: &Visit) -> Result<(), AllocError> {
        if visit.seq == 3 {
            self.begun.wait(TURNS);
        }
        Ok(())
    }
}

// Signals that a check began.
#[derive(Drop)]
struct CheckSignals<'a> {
    begun: &'a Awaited,
}

impl Before for CheckSignals<'_> {
    fn before(&self, _visit: &Visit) -> Result<(), AllocError> {
        self.begun.signal();
        Ok(())
    }
}

// Holds the checks of the slow side until there were enough calls on those of the other.
#[derive(Drop)]
struct Paced<'a> {
    begun: &'a Awaited,
    is_slow: bool,
}

impl Before for Paced<'_> {
    fn before(&self, _visit: &Visit) -> Result<(), AllocError> {
        if self.is_slow {
            self.begun.wait(10 * TURNS);
        } else {
            self.begun.signal();
        }
        Ok(())
    }
}

// A check of one side.
fn check_of<'a>(alloc: Global, begun: &'a Awaited, is_slow: bool) -> CheckAfter<Paced<'a>>
    ensures { IsUnusedCheck (λ c. c.check) result }
{
    CheckAfter::new(alloc, Paced { begun, is_slow })
}

// Holds the walk at its second visit until the check of the first began.
#[derive(Drop)]
struct SecondHeld<'a> {
    begun: &'a Awaited,
}

impl Gate for SecondHeld<'_> {
    fn pass(&self, _job: u32, seq: u32) {
        if seq == 1 {
            self.begun.wait(TURNS);
        }
    }
}

// Holds one job at its first visit until the others began.
#[derive(Drop)]
struct OneHeld<'a> {
    job: u32,
    begun: &'a Awaited,
}

impl Gate for OneHeld<'_> {
    fn pass(&self, job: u32, seq: u32) {
        if seq != 0 {
            return;
        }
        if job == self.job {
            self.begun.wait(TURNS);
        } else {
            self.begun.signal();
        }
    }
}

#[test]
fn delivery_begins_before_checking_has_ended(rt: HostRuntime) -> Result<(), Fail> {
    let alloc = rt.alloc();
    let ExportInput { store, jobs } = chain(alloc, 1)?;
    let begun = Awaited::new(1);
    let log = Log::new(alloc, 9)?;
    let mut sinks = [ProgressMode { log, begun: &begun }];
    let held = LastHeld { begun: &begun };
    let checks = vec![in alloc; CheckAfter::new(alloc, held)]?;
    let plan = plan_of(1, 256, 64);
    let out = started(export(&rt, alloc, &store, &jobs, &mut sinks, checks, &Open, plan))?;
    assert!(rt;
        begun.is_met(),
        "no check waited, or nothing was delivered meanwhile"
    );
    assert!(rt; out.ends.as_slice() == [End::Done].as_slice());
    assert_eq!(rt; sinks[0].log.deliveries.len(), 4);
    Ok(())
}

#[test]
fn checking_before_the_walk_ends(rt: HostRuntime) -> Result<(), Fail> {
    let alloc = rt.alloc();
    let ExportInput { store, jobs } = chain(alloc, 1)?;
    let begun = Awaited::new(1);
    let mut sinks = [Log::new(alloc, 9)?];
    let telling = CheckSignals { begun: &begun };
    let checks = vec![in alloc; CheckAfter::new(alloc, telling)]?;
    let gate = SecondHeld { begun: &begun };
    let plan = plan_of(1, 256, 64);
    let out = started(export(&rt, alloc, &store, &jobs, &mut sinks, checks, &gate, plan))?;
    assert!(rt;
        begun.is_met(),
        "no walk waited, or nothing was checked meanwhile"
    );
    assert!(rt; out.ends.as_slice() == [End::Done].as_slice());
    assert_eq!(rt; sinks[0].deliveries.len(), 4);
    Ok(())
}

#[test]
fn no_walker_has_a_fixed_share(rt: HostRuntime) -> Result<(), Fail> {
    let alloc = rt.alloc();
    for job in 0..3 {
        let ExportInput { store, jobs } = list(alloc, 3)?;
        let begun = Awaited::new(2);
        let mut sinks = [
            Log::new(alloc, 9)?,
            Log::new(alloc, 9)?,
            Log::new(alloc, 9)?,
        ];
        let checks = vec![in alloc; ShaCheck::new(alloc)]?;
        let gate = OneHeld { job, begun: &begun };
        let plan = plan_of(2, 256, 64);
        let out = started(export(&rt, alloc, &store, &jobs, &mut sinks, checks, &gate, plan))?;
        assert!(rt;
            begun.is_met(),
            "no job waited, or one for another that nobody walked"
        );
        assert!(rt; out.ends.as_slice() == [End::Done; 3].as_slice());
    }
    Ok(())
}

// How many visits are in the receipts, if none is there twice.
fn count_once(seen: &mut [bool], receipts: &[(u32, u32)]) -> Result<u32, Fail> {
    let mut count = 0u32;
    for (_, seq) in receipts {
        match seen.get_mut(*seq as usize) {
            Some(place) if !*place => *place = true,
            _ => return Err("a visit was checked twice".into()),
        }
        count = count.saturating_add(1);
    }
    Ok(count)
}

#[test]
fn slow_verifier(rt: HostRuntime) -> Result<(), Fail> {
    let alloc = rt.alloc();
    let (store, root, archive) = layers(alloc)?;
    let store = Arc::new(alloc, store)?;
    let jobs = Arc::new(alloc, vec![in alloc; job_at(alloc, root, ALL, LIMIT)?]?)?;
    let input = ExportInput { store, jobs };
    let begun = Awaited::new(100);
    let checks = vec![in alloc;
        check_of(alloc, &begun, true),
        check_of(alloc, &begun, false),
    ]?;
    let plan = plan_of(1, 1, 1);
    let (all_left, out) = archived(&rt, alloc, &input, checks, &Open, plan)?;
    assert!(rt;
        !begun.is_missed(),
        "one verifier waited, and the other had nothing to check"
    );
    assert!(rt; out.ends.as_slice() == [End::Limit].as_slice());
    let mut seen = [false; 1_000];
    let mut count = 0u32;
    for paced in out.checks.iter() {
        count = count.saturating_add(count_once(&mut seen, paced.check.receipts())?);
    }
    assert_eq!(rt; count, LIMIT);
    assert_eq!(rt; all_left.len(), 1);
    for left in &all_left {
        assert!(rt; is_layers(left, LIMIT, archive.as_slice()));
    }
    Ok(())
}
