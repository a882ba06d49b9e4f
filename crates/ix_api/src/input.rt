//! Reads blocks, jobs and selectors.

ghost use Rattle.std.specs.Prelude.{◌≡◌, ℕ, List, IfErr, OnErr, OnOk, ◌++◌, ◌∷◌, [], map, take, Ok, IfOk};
ghost use Rattle.ix_sections.specs.Reading.{blocks_after, blocks_of};
ghost use Rattle.ix_sections.specs.Sections.{with_sections};
ghost use Rattle.ix_sections.specs.SectionView.{section_of};
ghost use Rattle.ix_sections.specs.Gives.{IsFaultOf};
ghost use Rattle.ix_jobs.specs.Jobs.{jobs_of};
ghost use Rattle.ix_selector_json.specs.Notation.{IsSelectorHex};
ghost use Rattle.ix_api.specs.Failures.{IsStoreFailure, IsJobFailure, IsNotOneFailure, IsSelectorFailure};
ghost use Rattle.ix_api.specs.Adding.{HasAdded, IsLeftBy};

use crate::failure::Failure;
use ix_cid::{Cid, CidFault};
use ix_jobs::{JobErrorKind, read_jobs};
use ix_run::RunFault;
use ix_sections::{CarFault, CarKind, Section, read_car, read_sections};
use ix_selector_json::{NotationFault, hex_of_json};
use ix_store::Store;
use ix_walk::Job;
use std::alloc::{AllocError, Global};

/// The outcome of adding a block.
#[derive(Debug, Drop, Clone, Copy, PartialEq, Eq)]
pub enum Added {
    /// The block was added.
    New,
    /// There is already a block under its CID, which stays.
    Known,
    /// The bytes are not one CID.
    NoCid,
    /// Memory ran out.
    Memory,
}

/// Adds a copy of a block under its CID, unless there is one. Whether its hash matches the CID is
/// checked when it is exported.
pub fn add_block(alloc: Global, store: &mut Store, cid: &[u8], block: &[u8]) -> Added
    ensures { HasAdded store.old cid.now block.now store.new result }
{
    match Cid::read(alloc, cid) {
        Ok((read, length)) if length == cid.len() => match store.add_copy(read, block) {
            Ok(true) => Added::New,
            Ok(false) => Added::Known,
            Err(_) => Added::Memory,
        },
        Err(CidFault::Memory) => Added::Memory,
        _ => Added::NoCid,
    }
}

/// Reads the blocks of a CARv1 file.
pub fn read_store(alloc: Global, car: &[u8]) -> Result<Store, Failure>
    ensures blocks { IfOk result (λ store. blocks_of car.now ≡ Ok store) }
    ensures failed { IfErr result (IsStoreFailure car.now) }
{
    match read_car(alloc, car) {
        Ok(store) => Ok(store),
        Err(fault) => Err(car_failure(alloc, fault)),
    }
}

/// Adds copies of the blocks of a CARv1 file to a store: those of its sections, after the blocks that the
/// store has, of which the first of each CID counts.
///
/// A file that is rejected adds nothing. If memory runs out, the blocks of the first sections may have
/// been added: the rest follow when the file is added again.
pub fn add_car(alloc: Global, store: &mut Store, car: &[u8]) -> Result<(), Failure>
    ensures added { OnOk result (blocks_after store.old car.now ≡ Ok store.new) }
    ensures failed { IfErr result (IsStoreFailure car.now) }
    ensures left { IfErr result (λ failure. IsLeftBy failure store.old car.now store.new) }
{
    let file = match read_sections(alloc, car) {
        Ok(file) => file,
        Err(fault) => return Err(car_failure(alloc, fault)),
    };
    match add_sections(alloc, store, file.sections.as_slice()) {
        Ok(()) => Ok(()),
        Err(_) => Err(Failure::Memory),
    }
}

// Adds copies of the blocks of sections, of which the first of each CID counts. If memory runs out, those
// of the first sections may have been added.
fn add_sections(
    alloc: Global,
    store: &mut Store,
    sections: &[Section<'_>],
) -> Result<(), AllocError>
    ensures added { OnOk result (store.new ≡ with_sections store.old (map section_of sections.now)) }
    ensures begun { OnErr result
        ((count : ℕ) × (store.new ≡ with_sections store.old (take count (map section_of sections.now)))) }
{
    for section in sections {
        store.add_copy(section.cid.to_cid(alloc)?, section.block)?;
    }
    Ok(())
}

// Makes the failure for an error of a CARv1 file.
fn car_failure(alloc: Global, fault: CarFault) -> Failure
    ensures { (car : List ℕ) → IsFaultOf car fault (blocks_of car) → IsStoreFailure car result }
{
    if fault.kind == CarKind::Memory {
        return Failure::Memory;
    }
    Failure::of_run(alloc, &RunFault::Car(fault))
}

/// Reads the job of a line of a job file. The line may have its end, and ignored lines before and after
/// it.
pub fn job_of_line(alloc: Global, line: &[u8]) -> Result<Job, Failure>
    ensures job { IfOk result (λ job. jobs_of line.now ≡ Ok (job ∷ [])) }
    ensures failed { IfErr result (IsJobFailure line.now) }
{
    match read_jobs(alloc, line) {
        Ok(jobs) => only_job(alloc, jobs),
        Err(fault) if fault.kind == JobErrorKind::Memory => Err(Failure::Memory),
        Err(fault) => Err(Failure::of_run(alloc, &RunFault::Jobs(fault))),
    }
}

// Returns the job if there is exactly one.
fn only_job(alloc: Global, jobs: Vec<Job>) -> Result<Job, Failure>
    ensures job { IfOk result (λ job. jobs.items ≡ job ∷ []) }
    ensures failed { IfErr result (IsNotOneFailure jobs.items) }
{
    let mut jobs = jobs;
    match (jobs.pop(), jobs.is_empty()) {
        (Some(job), true) => Ok(job),
        _ => Err(Failure::of_words(alloc, "jobs: not one job")),
    }
}

/// Converts a selector in JSON, with the keys of the IPLD Selectors specification, to the hex of its
/// DAG-CBOR, which is the last field of a job's line.
pub fn selector_of_json(alloc: Global, text: &[u8]) -> Result<Vec<u8>, Failure>
    ensures selector { IfOk result (λ hex. IsSelectorHex text.now (hex.items ++ 10 ∷ [])) }
    ensures failed { IfErr result (IsSelectorFailure text.now) }
{
    match hex_of_json(alloc, text) {
        Ok(line) => Ok(without_end(line.into_bytes())),
        Err(NotationFault::Memory) => Err(Failure::Memory),
        Err(fault) => Err(Failure::of_notation(alloc, &fault)),
    }
}

// Returns a text without its last byte.
fn without_end(text: Vec<u8>) -> Vec<u8>
    ensures { (end : ℕ) → (front : List ℕ) → text.items ≡ front ++ end ∷ [] → result.items ≡ front }
{
    let mut text = text;
    text.pop();
    text
}
