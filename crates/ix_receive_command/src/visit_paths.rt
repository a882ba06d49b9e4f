//! Which visits of an archive are skips, and the option `--paths`: where these are, where blocks are missing,
//! and where a stream stopped.

use ix_car::Skip;
use ix_check::{Verdict, verdict_in};
use ix_cid::Cid;
use ix_cid::code::DAG_CBOR;
use ix_store::Store;
use ix_trace::trace;
use ix_verdict::{Needed, bytes_needed};
use ix_walk::{Job, Visit, Walk, WalkStop};
use std::alloc::{AllocError, Global};

/// Visits that a report lists, each with its path, if that is known.
#[derive(Drop)]
pub(crate) struct ListedVisits {
    pub skips: Vec<Skip>,
    pub paths: Vec<Option<String>>,
}

/// The visit at which a stream stopped, and its path.
#[derive(Drop)]
pub(crate) struct StopPlace {
    pub visit: u32,
    pub path: String,
}

impl ListedVisits {
    /// Lists these visits, with no paths.
    pub(crate) fn without_paths(alloc: Global, skips: Vec<Skip>) -> ListedVisits {
        ListedVisits {
            skips,
            paths: Vec::new(alloc),
        }
    }

    /// Lists the visits of a job that are skips, and those whose blocks are missing, over what was kept of its
    /// archive.
    pub(crate) fn of(alloc: Global, kept: &Store, job: &Job) -> Result<ListedVisits, AllocError> {
        let skips = visits_with(alloc, kept, job, true)?;
        let mut numbers = Vec::with_capacity(alloc, skips.len())?;
        for skip in &skips {
            numbers.push(skip.seq)?;
        }
        let mut paths = trace(alloc, kept, job, numbers.as_slice())?;
        // Each visit was made before, so there is a path for each.
        paths.resize_with(numbers.len(), || None)?;
        Ok(ListedVisits { skips, paths })
    }
}

/// Adds the sound blocks of a base to what was kept of an archive: those that are DAG-CBOR, and of every other one
/// its CID, with no bytes.
pub(crate) fn add_base(kept: &mut Store, base: &Store) -> Result<(), AllocError> {
    for place in 0..base.len() {
        let cid = base.cid_at(place)?;
        if verdict_in(base, &cid) == Verdict::Sound {
            let is_node = cid.codec() == DAG_CBOR;
            kept.add_copy(cid, if is_node { base.bytes(place) } else { &[] })?;
        }
    }
    Ok(())
}

/// Returns the visits of a job that are skips, over what was kept of its archive: those of CIDs that aren't
/// read, by their codec, their hash function or the bytes inline in them.
pub(crate) fn unread_visits(
    alloc: Global,
    kept: &Store,
    job: &Job,
) -> Result<Vec<Skip>, AllocError> {
    visits_with(alloc, kept, job, false)
}

// Returns the visits of a job that are skips, and those whose blocks are missing too if they are asked for.
fn visits_with(
    alloc: Global,
    kept: &Store,
    job: &Job,
    has_missing: bool,
) -> Result<Vec<Skip>, AllocError> {
    let mut skips = Vec::new(alloc);
    for item in Walk::new(alloc, kept, job, 0)? {
        let visit = match item {
            Ok(visit) => visit,
            Err(WalkStop::Limit) => break,
            Err(WalkStop::Memory) => return Err(AllocError),
        };
        let verdict = verdict_at(kept, &visit);
        if !verdict.passes() && (has_missing || verdict != Verdict::Missing) {
            skips.push(Skip {
                seq: visit.seq,
                cid: visit.cid,
                verdict,
            })?;
        }
    }
    Ok(skips)
}

// Returns the verdict on the CID of a visit. Each block that was kept is sound.
fn verdict_at(kept: &Store, visit: &Visit) -> Verdict {
    match bytes_needed(&visit.cid.parts()) {
        Needed::Nothing(verdict) => verdict,
        // It depends on the CID alone.
        Needed::Digest => verdict_in(kept, &visit.cid),
        Needed::Block(_) if visit.block.is_some() => Verdict::Sound,
        Needed::Block(_) => Verdict::Missing,
    }
}

/// Returns the first visit of a CID by a job over what was kept of its archive, if it visits that.
pub(crate) fn first_visit(
    alloc: Global,
    kept: &Store,
    job: &Job,
    cid: &Cid,
) -> Result<Option<StopPlace>, AllocError> {
    let Some(visit) = number_of(alloc, kept, job, cid)? else {
        return Ok(None);
    };
    let mut paths = trace(alloc, kept, job, &[visit])?;
    match paths.pop() {
        Some(Some(path)) => Ok(Some(StopPlace { visit, path })),
        _ => Ok(None),
    }
}

// Returns the number of the first visit of a CID.
fn number_of(alloc: Global, kept: &Store, job: &Job, cid: &Cid) -> Result<Option<u32>, AllocError> {
    for item in Walk::new(alloc, kept, job, 0)? {
        match item {
            Ok(visit) if visit.cid == *cid => return Ok(Some(visit.seq)),
            Ok(_) => {}
            Err(WalkStop::Limit) => return Ok(None),
            Err(WalkStop::Memory) => return Err(AllocError),
        }
    }
    Ok(None)
}
