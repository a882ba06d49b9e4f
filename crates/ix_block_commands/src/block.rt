//! The command `block`: the bytes of one block.

use crate::one_block::{CID, OneBlock};
use clap::ArgMatches;
use ix_cid::{Cid, HashFunction};
use ix_cli_io::{Failure, Output, check_standard_output, occupy_std_fds};
use ix_load::{forget_store, verdict_line};
use ix_options::{
    ArgKind, ArgSpec, BLOCKS, CARV2, CommandSpec, Host, JSON_ERRORS, MAX_INPUT, NO_SYNC,
    PREFER_SOUND, PROGRESS, QUIET_PROGRESS, SYNC, Terminals, output_path, print_all, print_notes,
};
use ix_path::malformed_fault;
use ix_store::Store;
use ix_verdict::Verdict;
use std::alloc::{AllocError, Global};
use std::fs::File;
use std::io::Write;
use std::rt::Files;

const ABOUT: &str = "Print the bytes of one block";

const HELP: &str = "The block of a CID goes to standard output, or to a file, after its hash was\n\
checked:\n\
\n\
\x20 ix_export block --blocks library.car --out track.flac \\\n\
\x20   bafkreif2pall7dybz7vecqka3zo24irdwabwdi4wc55jznaq75q7eaavvu\n\
\n\
With a path, CID/album/0, it is the block in which the path ends: its segments\n\
are keys of maps and indexes of lists, percent-escaped as in URLs. If a segment\n\
isn't there, a line on standard error says what is.\n\
\n\
The codec of the block may be any, also where a path ends with a link to it. If\n\
the block is missing or damaged, or its hash neither SHA-256, SHA-512 nor\n\
identity, nothing is written, and a line on standard error has the verdict and\n\
the CID. A DAG-CBOR block that doesn't decode is written, and a note on standard\n\
error has its first error. An identity CID has its block in it. Of several\n\
copies of the block the first counts, or with --prefer-sound the first that is\n\
sound.\n\
\n\
A file is written as FILE.part, and then renamed to FILE. It replaces a file\n\
with that name. It is on the disk before it is renamed, unless --no-sync is\n\
given. Without --out, or with --out -, the block goes to standard output, which\n\
must not be a terminal.\n\
\n\
Status: 0 if the block was written, 3 if there is none or a segment isn't there,\n\
2 if the arguments or a file are rejected, with a line on standard error that\n\
has the cause. With --json an object follows it: docs/JSON.md has its keys.";

const OUT: ArgSpec = ArgSpec {
    name: "out",
    given: ArgKind::Optional("FILE"),
    help: "File to write [default: standard output]",
};

/// The command.
pub static SPEC: CommandSpec = CommandSpec {
    name: "block",
    about: ABOUT,
    help: HELP,
    words: &[
        CID,
        BLOCKS,
        OUT,
        MAX_INPUT,
        CARV2,
        PREFER_SOUND,
        SYNC,
        NO_SYNC,
        JSON_ERRORS,
        PROGRESS,
        QUIET_PROGRESS,
    ],
};

/// Runs the command and returns the status. Its first error is reported, checked in this order:
/// arguments, blocks, output.
pub fn run<'a, R: Host>(
    rt: &R,
    words: &ArgMatches<'a>,
    terminals: Terminals,
) -> Result<u8, Failure> {
    let command = BlockCommand::read(rt.alloc(), words, terminals)?;
    let blocks = command.block.load(rt)?;
    let status = match command.block.last_cid_in(rt.alloc(), &blocks.store) {
        Ok(cid) => command.write_under(rt, &blocks.store, &cid),
        Err(failure) => Err(failure),
    };
    blocks.print_note(rt, &status);
    forget_store(blocks.store);
    status
}

// What the arguments choose.
#[derive(Drop)]
struct BlockCommand<'a> {
    block: OneBlock<'a>,
    path: Option<&'a str>,
    is_synced: bool,
}

impl<'a> BlockCommand<'a> {
    // Reads the arguments. The first that is rejected is reported, in this order: the block and its files,
    // and the output.
    fn read(
        alloc: Global,
        words: &ArgMatches<'a>,
        terminals: Terminals,
    ) -> Result<BlockCommand<'a>, Failure> {
        let block = OneBlock::given(alloc, &SPEC, words, terminals.errors)?;
        Ok(BlockCommand {
            block,
            path: output_path(alloc, &SPEC, &OUT, words, terminals.output, "block")?,
            is_synced: !NO_SYNC.is_given(words),
        })
    }

    // Writes the block of a CID, if its hash is right, whatever its codec is. A note on standard error says why
    // it isn't the DAG-CBOR that its codec says.
    fn write_under<R: AllocGlobal + Eprint + Files<File = File> + Print>(
        &self,
        rt: &R,
        store: &Store,
        cid: &Cid,
    ) -> Result<u8, Failure> {
        let alloc = rt.alloc();
        let bytes = match checked_block(store, cid) {
            Ok(bytes) => bytes,
            Err(verdict) => return Err(self.block.no_block(alloc, store, verdict, cid)),
        };
        let status = self.write(rt, bytes)?;
        if malformed_fault(store, cid).is_some() {
            print_notes(rt, malformed_note(alloc, store, cid));
        }
        Ok(status)
    }

    // Writes the block to standard output, or to a file. Closed streams are occupied only after the files
    // were read, so a closed standard input is an error and not an empty file.
    fn write<R: AllocGlobal + Files<File = File> + Print>(
        &self,
        rt: &R,
        bytes: &[u8],
    ) -> Result<u8, Failure> {
        let _streams = occupy_std_fds(rt)?;
        match self.path {
            None => {
                check_standard_output(rt, self.block.files.paths())?;
                print_all(rt, bytes)?;
            }
            Some(path) => self.write_file(rt, path, bytes)?,
        }
        Ok(0)
    }

    // Writes the block to a file, which is discarded if that fails.
    fn write_file<R: AllocGlobal + Files<File = File>>(
        &self,
        rt: &R,
        path: &str,
        bytes: &[u8],
    ) -> Result<(), Failure> {
        let output = Output::create(rt, path, self.block.files.paths(), self.is_synced)?;
        match write_to(rt.alloc(), path, &output, bytes) {
            Ok(()) => output.publish_whole(rt),
            Err(failure) => {
                output.discard(rt);
                Err(failure)
            }
        }
    }
}

// Returns the block of a CID, or the verdict on it if it isn't there or its hash isn't right, or can't be checked.
// That of an identity CID is in it.
fn checked_block<'b>(store: &'b Store, cid: &'b Cid) -> Result<&'b [u8], Verdict> {
    match cid.parts().hash_function() {
        None => return Err(Verdict::Hash),
        Some(HashFunction::Identity) => return Ok(cid.digest()),
        Some(_) => {}
    }
    match store.find(cid) {
        Some(place) if place < store.len() => {
            if store.hash_matches(place) {
                Ok(store.bytes(place))
            } else {
                Err(Verdict::Damaged)
            }
        }
        _ => Err(Verdict::Missing),
    }
}

// Makes the note that a block was written that doesn't decode.
fn malformed_note(alloc: Global, store: &Store, cid: &Cid) -> Result<String, AllocError> {
    let line = verdict_line(alloc, store, Verdict::Malformed, cid)?;
    format!(in alloc; "note: {line}\n")
}

// Writes bytes to an output, and flushes it.
fn write_to(alloc: Global, path: &str, output: &Output, bytes: &[u8]) -> Result<(), Failure> {
    let mut writer = output;
    let written = match writer.write_all(bytes) {
        Ok(()) => writer.flush(),
        Err(error) => Err(error),
    };
    match written {
        Ok(()) => Ok(()),
        Err(error) => Err(Failure::cannot_write(alloc, path, &error)),
    }
}
