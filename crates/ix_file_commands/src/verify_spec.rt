//! The row of `verify` in the table of commands, and its arguments.

use ix_load::{PART, SCOPE, SELECTOR, SELECTOR_HEX};
use ix_options::{ArgKind, ArgSpec, CARV2, CommandSpec, JSON, MAX_INPUT, PROGRESS, VERIFIERS};

const ABOUT: &str = "Check CARv1 files: each section, and every link from the roots";

const HELP: &str =
    "Each FILE is a CARv1 file; - is standard input. Each section is checked by its\n\
own bytes: whether the hash of its block is the digest of its CID, whatever its\n\
codec, and whether DAG-CBOR decodes. Then all links are followed from the roots\n\
of the header, in one walk: a root that is named twice counts once, and a block\n\
is expanded once. With --blocks-only nothing is followed.\n\
\n\
A CID that a FILE lacks is looked up in the files of --with, in their order. Of\n\
these only the blocks that links lead to are checked.\n\
\n\
Of several copies of a block, in FILE or after it in the files of --with, the\n\
first counts. With --prefer-sound each copy is hashed, and the first that is\n\
sound counts, so a link to it leads to something sound. A damaged section of\n\
FILE is a finding all the same. A line on standard error says how many blocks\n\
are a later copy.\n\
\n\
One line is printed for each file:\n\
\n\
\x20 FILE sound sections=N bytes=B\n\
\x20 FILE OUTCOME sections=N bytes=B unsound=U skips=S\n\
\n\
OUTCOME is the worst that holds: `broken` (a section or what a link leads to is\n\
damaged or malformed), `unsupported` (a hash is neither SHA-256, SHA-512 nor\n\
identity, or links weren't followed, below a codec other than raw and DAG-CBOR),\n\
or `incomplete` (links lead to blocks that aren't there, as in the archive of a\n\
selector).\n\
\n\
The second line is followed by the findings: `section PLACE VERDICT CID` for\n\
each section that isn't sound, PLACE being the byte at which its length begins,\n\
and `link VERDICT CID` for each link that leads to nothing sound. The verdicts\n\
are codec, hash, missing, damaged and malformed, which has the first error and\n\
its offset in the block. U and S count all of them; the first 20 lines are\n\
printed, and how many more there are. With --all each is printed, and the line\n\
of the file after them. With --json a file has one object, with the findings in\n\
it: docs/JSON.md has its keys.\n\
\n\
With --paths the line of a link, and that of a section to which such a link\n\
leads, ends with its path from the root, as `show` takes it. From more than 64\n\
roots there are no paths.\n\
\n\
With --allow-missing links to blocks that aren't there are no findings if WHICH\n\
has the codec of their CID: `raw`, `dag-cbor`, both with one comma between, or\n\
`all`. They are counted at the end of the file's line, as ` absent=N`. A root is\n\
a finding all the same, and so is a damaged block.\n\
\n\
With a selector a FILE is sound if it has all that the selector enters from the\n\
roots of its header: --selector and --selector-hex as in `get`, with a block\n\
expanded once. With --path the selector goes on from where the path from the one\n\
root ends, and without a selector all below its end counts, or with --scope\n\
block its block alone.\n\
\n\
With --exact a FILE is sound if it is also what `get` exports so, byte for byte:\n\
its header, and each section that is asked for and no other, once and in the\n\
order of the traversal. Otherwise it is `inexact`, unless it is unsupported or\n\
broken, and the first place where it differs follows the findings:\n\
\n\
\x20 exact PLACE REASON CID\n\
\n\
REASON is `surplus` (a section that isn't asked for), `order`, `repeated`,\n\
`missing` (a root), `header`, which has no CID, or the verdict on the section.\n\
Other blocks may be missing: without them a FILE is incomplete.\n\
\n\
With --jobs one folder takes the place of FILE, and the job file says what is\n\
asked for: DIR/NAME.car is to have the roots of the job NAME in its header, and\n\
all that its selector enters from them, whatever its limit. If it has other\n\
roots, it is `inexact` as above, and if it isn't there, its line is `FILE\n\
no-file`. With --part only the archives of that part are checked.\n\
\n\
With --quiet the line of a file is printed only if it isn't sound.\n\
\n\
A header without roots has nothing to follow.\n\
\n\
\x20 ix_export verify out/*.car\n\
\x20 ix_export verify --all library.car | grep ' link missing '\n\
\x20 ix_export verify update.car --with library.car\n\
\x20 ix_export verify a.car --with b.car --prefer-sound\n\
\x20 ix_export verify repository.car --allow-missing raw\n\
\x20 ix_export verify album.car --path albums/0 --exact\n\
\x20 ix_export verify --jobs jobs.txt out --exact\n\
\n\
Status: 0 if each file is sound, 3 if one isn't, lacks the path or isn't there\n\
(with --jobs), 2 if the arguments or a file are rejected.";

pub(crate) const FILES: ArgSpec = ArgSpec {
    name: "file",
    given: ArgKind::Many("FILE"),
    help: "CARv1 files, or - for standard input",
};

pub(crate) const WITH: ArgSpec = ArgSpec {
    name: "with",
    given: ArgKind::ManyWithout("FILE", "blocks-only"),
    help: "Follow links into this CARv1 too; several add up",
};

pub(crate) const PREFER_SOUND: ArgSpec = ArgSpec {
    name: "prefer-sound",
    given: ArgKind::FlagWithout("blocks-only"),
    help: "Use the first sound copy of a block, if any is",
};

pub(crate) const BLOCKS_ONLY: ArgSpec = ArgSpec {
    name: "blocks-only",
    given: ArgKind::FlagWithoutAll(&[
        "selector",
        "selector-hex",
        "scope",
        "path",
        "exact",
        "paths",
        "jobs",
    ]),
    help: "Check the sections alone, without links",
};

pub(crate) const JOBS: ArgSpec = ArgSpec {
    name: "jobs",
    given: ArgKind::ConflictsWithBoth("FILE", "selector", "selector-hex"),
    help: "Check the archives of a folder by their jobs",
};

pub(crate) const PATH: ArgSpec = ArgSpec {
    name: "path",
    given: ArgKind::Optional("PATH"),
    help: "Path after the root, from whose end it selects",
};

pub(crate) const EXACT: ArgSpec = ArgSpec {
    name: "exact",
    given: ArgKind::FlagWithout("with"),
    help: "Check that FILE is exactly the export, in order",
};

pub(crate) const ALL: ArgSpec = ArgSpec {
    name: "all",
    given: ArgKind::Flag,
    help: "Print every finding, the line of the file last",
};

pub(crate) const PATHS: ArgSpec = ArgSpec {
    name: "paths",
    given: ArgKind::Flag,
    help: "Print each link with its path from a root",
};

pub(crate) const ALLOW_MISSING: ArgSpec = ArgSpec {
    name: "allow-missing",
    given: ArgKind::ConflictsWith("WHICH", "blocks-only"),
    help: "Allow missing blocks: raw, dag-cbor, both or all",
};

pub(crate) const QUIET: ArgSpec = ArgSpec {
    name: "quiet",
    given: ArgKind::Flag,
    help: "No progress, and no line of a file that is sound",
};

/// The command.
pub static SPEC: CommandSpec = CommandSpec {
    name: "verify",
    about: ABOUT,
    help: HELP,
    words: &[
        FILES,
        WITH,
        PREFER_SOUND,
        ALLOW_MISSING,
        SELECTOR,
        SELECTOR_HEX,
        PATH,
        SCOPE,
        JOBS,
        PART,
        EXACT,
        BLOCKS_ONLY,
        ALL,
        PATHS,
        VERIFIERS,
        MAX_INPUT,
        CARV2,
        JSON,
        PROGRESS,
        QUIET,
    ],
};
