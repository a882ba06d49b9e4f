//! The command `show`: one block as DAG-JSON.

use crate::one_block::{CID, OneBlock, Target};
use clap::ArgMatches;
use ix_cli_io::{ErrorCode, Failure, Stop, check_standard_output};
use ix_dag_json::{DagJsonFault, Layout, Part, escape_hidden, text_of_block, text_of_bytes};
use ix_load::forget_store;
use ix_options::{
    ArgKind, ArgSpec, BLOCKS, CARV2, CommandSpec, Host, JSON_ERRORS, MAX_INPUT, PREFER_SOUND,
    PROGRESS, QUIET_PROGRESS, Terminals, print_all,
};
use ix_path::NodeBytes;
use ix_store::Store;
use ix_verdict::Verdict;
use std::alloc::{AllocError, Global};
use std::fmt::Write;
use std::rt::Files;

// How many bytes of a raw block a terminal shows.
const FIRST_BYTES: usize = 64;

// How many bytes a terminal gets at a time, at least.
const PIECE: usize = 65_536;

const ABOUT: &str = "Print one block, or what a path leads to, as DAG-JSON";

const HELP: &str = "The block of a CID is printed as DAG-JSON, after its hash was checked:\n\
\n\
\x20 ix_export show --blocks library.car \\\n\
\x20   bafyreif4cx2fmzgnlynimiv5s5pmkhdcciunwtqscgjd2tvhr5yqjh7u4i\n\
\n\
With a path, CID/album/0, it is the value that the path leads to: its segments\n\
are keys of maps and indexes of lists, percent-escaped as in URLs, and links are\n\
crossed. If a segment isn't there, a line on standard error says what is.\n\
\n\
Links are {\"/\":\"bafy..\"}, and bytes {\"/\":{\"bytes\":\"..\"}} with base64. The keys\n\
of a map are in the order of their bytes. A raw block is bytes. A terminal gets\n\
a line for each element and entry, indented, and so does another output with\n\
--pretty. Of a raw block a terminal gets the size and the first 64 bytes in hex,\n\
and in strings what it would hide or obey is escaped.\n\
\n\
If the block is missing, damaged or malformed, or if its codec is neither raw\n\
nor DAG-CBOR or its hash neither SHA-256, SHA-512 nor identity, nothing is\n\
printed, and a line on standard error has the verdict and the CID, and of a\n\
malformed block the first error and its offset. An identity CID has its block in\n\
it. Of several copies of the block the first counts, or with --prefer-sound the\n\
first that is sound.\n\
\n\
DAG-JSON can't express text or a key that is not UTF-8, nor a map with the key\n\
\"/\". Of a block with such a part nothing is printed either, and a line on\n\
standard error has the CID, the path to the part, and the reason.\n\
\n\
Status: 0 if it was printed, 3 if there is no sound block, a segment isn't there\n\
or DAG-JSON can't express it, 2 if the arguments or a file are rejected, with a\n\
line on standard error that has the cause. With --json an object follows it:\n\
docs/JSON.md has its keys.";

const PRETTY: ArgSpec = ArgSpec {
    name: "pretty",
    given: ArgKind::Flag,
    help: "Indent, as on a terminal",
};

/// The command.
pub static SPEC: CommandSpec = CommandSpec {
    name: "show",
    about: ABOUT,
    help: HELP,
    words: &[
        CID,
        BLOCKS,
        PRETTY,
        MAX_INPUT,
        CARV2,
        PREFER_SOUND,
        JSON_ERRORS,
        PROGRESS,
        QUIET_PROGRESS,
    ],
};

/// Runs the command and returns the status. Its first error is reported, checked in this order:
/// arguments, blocks.
pub fn run<'a, R: Host>(
    rt: &R,
    words: &ArgMatches<'a>,
    terminals: Terminals,
) -> Result<u8, Failure> {
    let block = OneBlock::given(rt.alloc(), &SPEC, words, terminals.errors)?;
    let form = Form {
        is_terminal: terminals.output,
        is_indented: terminals.output || PRETTY.is_given(words),
    };
    let blocks = block.load(rt)?;
    let status = match block.target_in(rt.alloc(), &blocks.store) {
        Ok(target) => show(rt, &blocks.store, &block, &target, form),
        Err(failure) => Err(failure),
    };
    blocks.print_note(rt, &status);
    forget_store(blocks.store);
    status
}

// How a block is printed.
#[derive(Clone, Copy)]
struct Form {
    is_terminal: bool,
    is_indented: bool,
}

// Prints a node, or why DAG-JSON can't express it, and returns the status.
fn show<R: AllocGlobal + Files + Print>(
    rt: &R,
    store: &Store,
    block: &OneBlock<'_>,
    target: &Target<'_>,
    form: Form,
) -> Result<u8, Failure> {
    check_standard_output(rt, block.files.paths())?;
    let text = match text_of(rt.alloc(), target.node, form) {
        Ok(text) => text,
        Err(DagJsonFault::Memory) => return Err(Failure::from(AllocError)),
        Err(DagJsonFault::Part(part)) => {
            return Err(Failure::Stopped(part_stop(rt.alloc(), block, target, &part)?));
        }
        // A sound block decodes, so this doesn't happen.
        Err(DagJsonFault::Block(_)) => {
            return Err(block.no_block(rt.alloc(), store, Verdict::Malformed, &target.cid));
        }
    };
    if form.is_terminal {
        print_escaped(rt, text.as_str())?;
    } else {
        print_all(rt, text.as_bytes())?;
        print_all(rt, b"\n")?;
    }
    Ok(0)
}

// Prints text with a line end, escaped piece by piece, so that no copy of all of it is made.
fn print_escaped<R: AllocGlobal + Files + Print>(rt: &R, text: &str) -> Result<(), Failure> {
    let alloc = rt.alloc();
    let mut piece = String::new(alloc);
    for line in text.split('\n') {
        piece.push_str(line)?;
        piece.push('\n')?;
        if piece.len() >= PIECE {
            print_all(rt, escape_hidden(alloc, piece.as_str())?.as_bytes())?;
            piece.clear();
        }
    }
    print_all(rt, escape_hidden(alloc, piece.as_str())?.as_bytes())
}

// Returns what is printed of a node, without a line end, and before anything is escaped for a terminal.
fn text_of(alloc: Global, node: NodeBytes<'_>, form: Form) -> Result<String, DagJsonFault> {
    let layout = if form.is_indented {
        Layout::Indented
    } else {
        Layout::Compact
    };
    match node {
        NodeBytes::DagCbor(bytes) => text_of_block(alloc, bytes, layout),
        NodeBytes::Raw(bytes) if form.is_terminal => Ok(raw_text(alloc, bytes)?),
        NodeBytes::Raw(bytes) => Ok(text_of_bytes(alloc, bytes, layout)?),
    }
}

// Returns the size of a raw block, and its first bytes in hex.
fn raw_text(alloc: Global, bytes: &[u8]) -> Result<String, AllocError> {
    let mut text = format!(in alloc; "raw, {} bytes", bytes.len())?;
    if !bytes.is_empty() {
        text.push('\n')?;
    }
    for byte in bytes.iter().take(FIRST_BYTES) {
        write!(text, "{byte:02x}")?;
    }
    Ok(text)
}

// Makes the stop for a part of a node that DAG-JSON can't express.
fn part_stop(
    alloc: Global,
    block: &OneBlock<'_>,
    target: &Target<'_>,
    part: &Part,
) -> Result<Stop, AllocError> {
    let given = escape_hidden(alloc, block.text.trim_end_matches('/'))?;
    let path = format!(in alloc; "{given}{}", part.path_text(alloc)?)?;
    let reason = part.reason(alloc)?;
    let line = format!(in alloc; "{}: DAG-JSON can't express {reason}", path.as_str())?;
    let mut stop = Stop::new(ErrorCode::DagJson, line);
    stop.cid = Some(target.cid.text(alloc)?);
    stop.path = Some(path);
    Ok(stop)
}
