//! The commands as a table, and the command line made of it.

use clap::{ArgMatches, Command};
use ix_block_commands::{block, show};
use ix_cli_io::Failure;
use ix_export_commands::{get, jobs, root};
use ix_file_commands::{inspect, verify};
use ix_job_commands::{check_jobs, job, selector};
use ix_options::command_of;
use ix_receive_command::receive;
use std::alloc::{AllocError, Global};

// The program's version, and the logic of the toolchain in which it is proved.
const VERSION: &str = "1.0.0, proved in Rattle's logic dac8208d650f15bf";

// The texts of the help.
const ABOUT: &str = "Export subgraphs of CARv1 files";

const HELP: &str = "Blocks of the codecs raw and DAG-CBOR under SHA-256 and SHA-512 are exported.\n\
Links inside an identity CID, whose digest is the block itself, are followed. A\n\
link of another codec or hash is reported as skipped. UnixFS (codec dag-pb)\n\
isn't read.";

/// Makes the command line, which has the help.
pub(crate) fn command_line<'a>(alloc: Global) -> Result<Command<'a>, AllocError> {
    Command::new(alloc, "ix_export")
        .about(ABOUT)
        .after_help(HELP)
        .version(VERSION)
        .subcommand_required(true)
        .subcommands(commands(alloc)?)
}

// Makes the commands.
fn commands<'a>(alloc: Global) -> Result<Vec<Command<'a>>, AllocError> {
    let mut commands = Vec::new(alloc);
    push_commands(alloc, &mut commands)?;
    Ok(commands)
}

// Adds each command. It owns none of them, so an early return has none to drop.
fn push_commands<'a>(alloc: Global, commands: &mut Vec<Command<'a>>) -> Result<(), AllocError> {
    let table = [
        &get::SPEC,
        &jobs::SPEC,
        &job::SPEC,
        &check_jobs::SPEC,
        &selector::SPEC,
        &root::SPEC,
        &block::SPEC,
        &show::SPEC,
        &inspect::SPEC,
        &verify::SPEC,
        &receive::SPEC,
    ];
    for spec in table {
        push_command(commands, command_of(alloc, spec))?;
    }
    Ok(())
}

/// Rejects a number with a sign among the arguments of the command of this name.
// The table stands in both functions: one that returned it would take more steps than a proof may.
pub(crate) fn check_numbers<'a>(
    alloc: Global,
    name: &str,
    words: &ArgMatches<'a>,
) -> Result<(), Failure> {
    let table = [
        &get::SPEC,
        &jobs::SPEC,
        &job::SPEC,
        &check_jobs::SPEC,
        &selector::SPEC,
        &root::SPEC,
        &block::SPEC,
        &show::SPEC,
        &inspect::SPEC,
        &verify::SPEC,
        &receive::SPEC,
    ];
    for spec in table {
        if spec.name == name {
            spec.check_numbers(alloc, words)?;
        }
    }
    Ok(())
}

// Adds a command, unless memory ran out for it.
fn push_command<'a>(
    commands: &mut Vec<Command<'a>>,
    command: Result<Command<'a>, AllocError>,
) -> Result<(), AllocError> {
    match command {
        Ok(command) => commands.push(command).map_err(AllocError::from),
        Err(error) => Err(error),
    }
}
