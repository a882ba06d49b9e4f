//! The roots of the command `get`: CIDs, CIDs with a path, or those in the header of the first file.

use crate::paths::{RootPaths, Unresolved};
use clap::ArgMatches;
use clap::error::ErrorKind;
use ix_cid::Cid;
use ix_cli_io::{ErrorCode, Failure, Stop};
use ix_jobs::SelectorWord;
use ix_options::{ArgKind, ArgSpec, CommandSpec};
use ix_path::{GREATEST_SEGMENTS, MOST_SEGMENTS};
use std::alloc::{AllocError, Global};

/// Without roots the other arguments are checked with this one: an identity CID without bytes.
pub const SOME_ROOT: &str = "bafkqaaa";

// The bytes of that.
const SOME_ROOT_BYTES: [u8; 4] = [0x01, 0x55, 0x00, 0x00];

/// The selector of the node alone where it is, {".":{}}, as DAG-CBOR in hex.
pub(crate) const MATCHER: &str = "a1612ea0";

const TOO_DEEP: &str = "--root and --selector: the path and the selector at its end nest more than \
128 deep together";

/// What is selected where a path ends.
pub const SCOPE: ArgSpec = ArgSpec {
    name: "scope",
    given: ArgKind::Optional("SCOPE"),
    help: "all|block|entity at the path's end [default: all]",
};

/// The selector from the roots, or from where their path ends.
pub const SELECTOR: ArgSpec = ArgSpec {
    name: "selector",
    given: ArgKind::ConflictsWithBoth("JSON", "selector-hex", "scope"),
    help: "IPLD selector as JSON [default: everything]",
};

/// The same in hex.
pub const SELECTOR_HEX: ArgSpec = ArgSpec {
    name: "selector-hex",
    given: ArgKind::ConflictsWith("HEX", "scope"),
    help: "IPLD selector as DAG-CBOR in hex",
};

/// What is selected where a path ends, without a selector.
#[derive(Clone, Copy, PartialEq, Eq)]
pub enum Scope {
    /// Everything below.
    All,
    /// The block alone.
    Block,
}

impl Scope {
    /// Reads the value of `--scope`. A UnixFS entity is all that isn't read here, so it is the block.
    pub fn given(
        alloc: Global,
        spec: &'static CommandSpec,
        word: Option<&str>,
    ) -> Result<Scope, Failure> {
        match word {
            None | Some("all") => Ok(Scope::All),
            Some("block" | "entity") => Ok(Scope::Block),
            Some(other) => {
                let message = format!(in alloc;
                    "invalid value '{other}' for '--scope <SCOPE>': it is all, block or entity"
                )?;
                let error = spec.refusal(alloc, ErrorKind::InvalidValue, message.as_str())?;
                Err(Failure::from(error))
            }
        }
    }

    /// Returns the selector where a path ends: the one in JSON, or the one of the scope.
    pub fn selector<'b>(self, json: Option<&'b [u8]>) -> SelectorWord<'b> {
        match (json, self) {
            (Some(text), _) => SelectorWord::Json(text),
            (None, Scope::All) => SelectorWord::Everything,
            (None, Scope::Block) => SelectorWord::Hex(MATCHER),
        }
    }

    /// Returns the selector among the arguments, or the one of the scope.
    pub fn given_selector<'a>(self, words: &ArgMatches<'a>) -> SelectorWord<'a> {
        match (
            SELECTOR.optional_text(words),
            SELECTOR_HEX.optional_text(words),
        ) {
            (None, Some(text)) => SelectorWord::Hex(text),
            (json, _) => self.selector(json.map(|text| text.as_bytes())),
        }
    }

    /// Returns how many segments a path may have, so that the selector to its end nests no deeper than selectors
    /// do.
    pub fn most_segments(self) -> usize {
        match self {
            Scope::All => MOST_SEGMENTS,
            Scope::Block => GREATEST_SEGMENTS,
        }
    }
}

/// How the roots are given.
#[derive(Drop)]
pub enum Roots {
    /// They aren't, so they are those in the header of the first file.
    Header,
    /// As CIDs.
    Cids(Vec<Cid>),
    /// As CIDs with a path.
    Paths(RootPaths),
}

/// The roots of a job, and its selector in hex if it isn't that of the arguments.
#[derive(Drop)]
pub struct RootWords {
    pub roots: Vec<Cid>,
    pub hex: Option<String>,
}

impl Roots {
    /// Reads the roots, if there are any, and the segments after the path of the one root.
    pub fn given(
        alloc: Global,
        spec: &'static CommandSpec,
        option: &str,
        roots: Option<&str>,
        names: &[&str],
        scope: Scope,
    ) -> Result<Roots, Failure> {
        let Some(text) = roots else {
            if names.is_empty() {
                return Ok(Roots::Header);
            }
            let error = spec.refusal(
                alloc,
                ErrorKind::MissingRequiredArgument,
                "'--segment <NAME>' is given without '--root <ROOT>'",
            )?;
            return Err(Failure::from(error));
        };
        if !names.is_empty() && text.contains(',') {
            let error = spec.refusal(
                alloc,
                ErrorKind::ArgumentConflict,
                "'--segment <NAME>' is given with several roots",
            )?;
            return Err(Failure::from(error));
        }
        let most = scope.most_segments();
        let paths = RootPaths::given(alloc, spec, option, text, names, most)?;
        if paths.leads_on() {
            Ok(Roots::Paths(paths))
        } else {
            Ok(Roots::Cids(paths.cids(alloc)?))
        }
    }

    /// Returns the roots, or one that stands for those in a header.
    pub fn cids(&self, alloc: Global) -> Result<Vec<Cid>, AllocError> {
        match self {
            Roots::Header => some_root(alloc),
            Roots::Cids(cids) => clones(alloc, cids.as_slice()),
            Roots::Paths(paths) => paths.cids(alloc),
        }
    }
}

/// Makes the failure of a command that writes an archive, whose path leads no further.
pub fn no_jobs(alloc: Global, unresolved: Unresolved) -> Result<Failure, AllocError> {
    match unresolved {
        Unresolved::Stopped(stop) => Ok(Failure::Stopped(at_root(alloc, stop)?)),
        Unresolved::TooDeep => {
            let line = String::from_str(alloc, TOO_DEEP)?;
            Ok(Failure::Stopped(Stop::new(ErrorCode::Path, line)))
        }
        Unresolved::Memory => Err(AllocError),
    }
}

/// Makes the stop of a path that of a command that writes an archive, which names the option of its root.
pub fn at_root(alloc: Global, stop: Stop) -> Result<Stop, AllocError> {
    let mut stop = stop.of_archive();
    stop.line = format!(in alloc; "--root: {}", stop.line.as_str())?;
    Ok(stop)
}

/// Returns one root, with which other arguments are checked where there is none yet.
pub fn some_root(alloc: Global) -> Result<Vec<Cid>, AllocError> {
    let mut roots = Vec::with_capacity(alloc, 1)?;
    if let Ok((cid, _)) = Cid::read(alloc, &SOME_ROOT_BYTES) {
        roots.push(cid)?;
    }
    Ok(roots)
}

/// Returns clones of roots.
pub fn clones(alloc: Global, roots: &[Cid]) -> Result<Vec<Cid>, AllocError> {
    let mut clones = Vec::with_capacity(alloc, roots.len())?;
    for root in roots {
        clones.push(root.try_clone(alloc)?)?;
    }
    Ok(clones)
}

/// Returns the CIDs of roots, with commas between them.
pub fn roots_text(alloc: Global, roots: &[Cid]) -> Result<String, AllocError> {
    let mut text = String::new(alloc);
    for root in roots {
        if !text.is_empty() {
            text.push(',')?;
        }
        text.push_str(root.text(alloc)?.as_str())?;
    }
    Ok(text)
}

/// Makes the note that the roots are those in the header of a file.
pub fn roots_note(alloc: Global, path: &str, roots: &[Cid]) -> Result<String, AllocError> {
    let roots = roots_text(alloc, roots)?;
    format!(in alloc; "note: the roots are those in the header of {path}: {roots}\n")
}

/// Makes the error for a header without roots, where none are given.
pub fn no_roots(
    alloc: Global,
    spec: &'static CommandSpec,
    path: &str,
) -> Result<clap::Error, AllocError> {
    let message = format!(in alloc; "the header of {path} names no roots: give '--root <CID>'")?;
    spec.refusal(alloc, ErrorKind::MissingRequiredArgument, message.as_str())
}

/// Makes the error for the roots in a header that are those of no job.
pub fn refused_roots(
    alloc: Global,
    spec: &'static CommandSpec,
    path: &str,
    why: &str,
) -> Result<clap::Error, AllocError> {
    let message = format!(in alloc; "the roots in the header of {path}: {why}")?;
    spec.refusal(alloc, ErrorKind::InvalidValue, message.as_str())
}
