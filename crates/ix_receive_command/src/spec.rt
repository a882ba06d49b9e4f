//! The row of `receive` in the table of commands, and its arguments.

use ix_load::{SCOPE, SELECTOR, SELECTOR_HEX};
use ix_options::{
    ALLOW_MISSING, ArgKind, ArgSpec, CommandSpec, JSON, NO_SYNC, PREFER_SOUND, PROGRESS, QUIET,
    SYNC,
};

const ABOUT: &str = "Check an archive against what was asked for, as it arrives";

const HELP: &str = "Reads the archive that `get` writes of the same roots, path and selector,\n\
section by section, from FILE or standard input, and writes what is checked:\n\
\n\
\x20 ix_export get --blocks library.car --root CID --out - |\n\
\x20   ix_export receive --root CID --out copy.car\n\
\n\
A section is written once its hash was checked, and that it is the next block of\n\
the traversal, without waiting for the next section. The first section that is\n\
damaged, repeated, out of order, not asked for, of another codec or hash, or\n\
that follows where a block is missing, ends the command, and so does a stream\n\
that ends early: with status 4 and a line on standard error that has the place,\n\
the CID, and which block was expected if that is known.\n\
\n\
A stream is accepted if it is the archive of these roots and this selector over\n\
its own blocks, byte for byte, and no block is missing. With --allow-missing\n\
links to blocks of these codecs may lead to none, and the report counts them as\n\
absent. Its header has to be the one of these roots, unless --any-header is\n\
given. Each block comes once (dups=n), in the order of the traversal\n\
(order=dfs). Each root has to be there and sound. A link of another codec or\n\
hash (dag-pb) isn't followed: it is a skip, which the report lists.\n\
\n\
A root may have a path, as in `get`, and several roots one in common. A segment\n\
that is a number is a key or an index, so it counts twice against the depth of\n\
selectors, 128.\n\
\n\
The archive is written to FILE.part, which is renamed to FILE if the stream is\n\
accepted, as in `get`, and stays otherwise, with sound sections alone. With\n\
--whole it stays also if a link is a skip, and the status is 4. With --out - the\n\
sections go to standard output, which must not be a terminal, as they are\n\
checked.\n\
\n\
With --with the blocks of these files are here already, those whose first copy\n\
is sound, or with --prefer-sound any. The archive is the difference that\n\
`get --without` writes for them: a section whose block is in the base is\n\
rejected.\n\
\n\
\x20 ix_export get --blocks library.car --root CID --without old.car --out - |\n\
\x20   ix_export receive --root CID --with old.car --out update.car\n\
\n\
A section of more than 8 MiB, CID and block, is rejected before it is read, or\n\
of more than --max-block says.\n\
\n\
The report is that of `get`, under the name `receive`, on standard error. With\n\
--paths it lists each link that is absent with its path from the root, and the\n\
line of an error is followed by the link at which the stream stopped. With\n\
--json it is JSON: docs/JSON.md has its keys.\n\
\n\
Status: 0 if the archive was accepted and written, 3 if it was and has skips, 4\n\
if it wasn't, 2 if the arguments are rejected or the input is no CARv1 file or\n\
can't be read.";

pub(crate) const FILE: ArgSpec = ArgSpec {
    name: "file",
    given: ArgKind::OptionalPositional("FILE"),
    help: "CARv1 file [default: -, standard input]",
};

pub(crate) const ROOT: ArgSpec = ArgSpec {
    name: "root",
    given: ArgKind::Required("ROOT[,..]"),
    help: "1 to 64 of CID[/PATH]",
};

pub(crate) const WITH: ArgSpec = ArgSpec {
    name: "with",
    given: ArgKind::OptionalMany("FILE"),
    help: "Take what this CARv1 has sound; several add up",
};

pub(crate) const LIMIT: ArgSpec = ArgSpec {
    name: "limit",
    given: ArgKind::Optional("N"),
    help: "Link budget, 1 to 4294967295",
};

pub(crate) const ANY_HEADER: ArgSpec = ArgSpec {
    name: "any-header",
    given: ArgKind::Flag,
    help: "Accept a header with other roots",
};

pub(crate) const OUT: ArgSpec = ArgSpec {
    name: "out",
    given: ArgKind::Required("FILE"),
    help: "Archive to write, or - for standard output",
};

pub(crate) const MAX_BLOCK: ArgSpec = ArgSpec {
    name: "max-block",
    given: ArgKind::Optional("SIZE"),
    help: "Greatest size of a section [default: 8M]",
};

pub(crate) const WHOLE: ArgSpec = ArgSpec {
    name: "whole",
    given: ArgKind::Flag,
    help: "Rename only if no link is a skip",
};

const VERBOSE: ArgSpec = ArgSpec {
    name: "verbose",
    given: ArgKind::Flag,
    help: "Accepted: an error always has its cause",
};

pub(crate) const PATHS: ArgSpec = ArgSpec {
    name: "paths",
    given: ArgKind::Flag,
    help: "Report what is missing with its path from a root",
};

/// The command: the job, what it accepts, and where to it writes.
pub static SPEC: CommandSpec = CommandSpec {
    name: "receive",
    about: ABOUT,
    help: HELP,
    words: &[
        FILE,
        ROOT,
        SCOPE,
        SELECTOR,
        SELECTOR_HEX,
        LIMIT,
        WITH,
        PREFER_SOUND,
        ALLOW_MISSING,
        ANY_HEADER,
        OUT,
        MAX_BLOCK,
        WHOLE,
        SYNC,
        NO_SYNC,
        PATHS,
        JSON,
        PROGRESS,
        QUIET,
        VERBOSE,
    ],
};
