//! The outputs of a run: one for each job.
//!
//! The archive of a job is written to `DIR/NAME.car.part`. It is renamed to `DIR/NAME.car` as its job ends.

ghost use Rattle.std.specs.Prelude.{◌≡◌, map, IfOk, IfErr, string_bytes};
ghost use Rattle.ix_run.specs.declared.fault.RunFault.TheVariants.{Memory};
ghost use Rattle.ix_cli_io.specs.declared.fault.Failure.TheVariants.{Fault};
ghost use Rattle.ix_cli_io.specs.Failure.{output_path, RefusesOutputOf, RefusesOutputs};
ghost use Rattle.ix_cli_io.specs.Output.{path_of, MakesOutputs};
ghost use Rattle.ix_cli_io.specs.Naming.{Joins};

use crate::check::check_output;
use crate::fault::Failure;
use crate::input_file::{InputFile, identify_all};
use crate::naming::Naming;
use crate::output::{Output, Published};
use ix_jobs::JobResult;
use ix_walk::Job;
use std::alloc::{AllocError, Global};
use std::fs::File;
use std::rt::Files;

/// Returns the path of a job's archive.
pub(crate) fn job_path(alloc: Global, folder: &str, job: &Job) -> Result<String, AllocError>
    ensures { IfOk result (λ path. string_bytes path ≡ output_path folder.now job.now.name) }
{
    let name = job.name();
    format!(in alloc; "{folder}/{name}.car")
}

/// Creates the outputs of the jobs in a directory that exists. One is rejected before any is created if it
/// is a directory, an input under any name (`-` is standard input), or a file that another run writes. If
/// one can't be created, those created before it are discarded.
pub fn make_outputs<R: Files<File = File> + AllocGlobal>(
    rt: &R,
    folder: &str,
    jobs: &[Job],
    inputs: &[&str],
    is_synced: bool,
) -> Result<Vec<Output>, Failure>
    ensures { MakesOutputs folder.now jobs.now result }
{
    let alloc = rt.alloc();
    let inputs = identify_all(rt, inputs)?;
    for job in jobs {
        check_job(rt, folder, job, inputs.as_slice())?;
    }
    // The room is allocated before the first file is created, so none of them is lost.
    let mut outputs = Vec::with_capacity(alloc, jobs.len())?;
    for job in jobs {
        match output_of(rt, folder, job, is_synced) {
            Ok(output) => outputs.push(output)?,
            Err(failure) => {
                discard_outputs(rt, outputs);
                return Err(failure);
            }
        }
    }
    Ok(outputs)
}

// Rejects the output of a job if `check_output` does.
fn check_job<R: Files<File = File> + AllocGlobal>(
    rt: &R,
    folder: &str,
    job: &Job,
    inputs: &[InputFile],
) -> Result<(), Failure>
    ensures { RefusesOutputOf folder.now job.now result }
{
    let path = job_path(rt.alloc(), folder, job)?;
    match check_output(rt, path.as_str(), inputs) {
        Ok(()) => Ok(()),
        Err(error) => Err(Failure::cannot_write(rt.alloc(), path.as_str(), &error)),
    }
}

// Creates the output of a job.
fn output_of<R: Files<File = File> + AllocGlobal>(
    rt: &R,
    folder: &str,
    job: &Job,
    is_synced: bool,
) -> Result<Output, Failure>
    ensures made { IfOk result (λ output. path_of output ≡ output_path folder.now job.now.name) }
    ensures refused { RefusesOutputOf folder.now job.now result }
{
    let path = job_path(rt.alloc(), folder, job)?;
    Output::begin(rt, path, is_synced)
}

/// Publishes each output, in the order of the jobs, whose results these are: one that was settled as its job
/// ended is renamed no more. Returns the first failure,
/// and publishes those after it nevertheless. Otherwise it returns notes for the user, one line each:
/// which archive stays as `.part` and why, and which replaced a file and what it lacks.
pub fn publish_outputs<R: AllocGlobal + Files<File = File>>(
    rt: &R,
    outputs: Vec<Output>,
    jobs: &[Job],
    results: &[JobResult],
    naming: Naming,
) -> Result<String, Failure>
    ensures refused { RefusesOutputs (map path_of outputs.items) result }
{
    let mut notes = Ok(String::new(rt.alloc()));
    for (output, (job, outcome)) in outputs.into_iter().zip(jobs.iter().zip(results)) {
        let note = output.publish(rt, job, outcome, naming);
        notes = joined(notes, note);
    }
    notes
}

// Adds a note to the notes, or returns the first failure.
fn joined(
    notes: Result<String, Failure>,
    note: Result<Published, Failure>,
) -> Result<String, Failure>
    ensures { Joins notes note result }
{
    match (notes, note) {
        (Ok(notes), Ok(published)) => with_note(notes, published.note),
        (Ok(_), Err(failure)) => Err(failure),
        (Err(failure), _) => Err(failure),
    }
}

// Adds a note to the notes, if there is one.
fn with_note(notes: String, note: Option<String>) -> Result<String, Failure>
    ensures { IfErr result (λ failure. failure ≡ Fault Memory) }
{
    let mut notes = notes;
    if let Some(note) = note {
        notes.push_str(note.as_str())?;
    }
    Ok(notes)
}

/// Discards outputs, in their order.
pub fn discard_outputs<R: Files<File = File>>(rt: &R, outputs: Vec<Output>) {
    for output in outputs {
        output.discard(rt);
    }
}
