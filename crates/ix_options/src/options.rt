//! The options and positional arguments of the commands, as rows of a table, and the clap arguments made
//! of them. The help is printed from this table, and the tests compare the man page and the completions
//! with the help.

ghost use Rattle.std.specs.Prelude.{◌≤◌};

use clap::{Arg, ArgAction, ArgMatches, value_parser};
use ix_cli_io::Naming;
use ix_walk::GREATEST_LIMIT;
use std::alloc::{AllocError, Global};

/// An argument of a command: its name, how it is given, and its line in the help.
#[derive(Clone, Copy)]
pub struct ArgSpec {
    pub name: &'static str,
    pub given: ArgKind,
    pub help: &'static str,
}

/// How an argument is given. The first text is the name of its value in the help.
#[derive(Clone, Copy)]
pub enum ArgKind {
    /// A required option.
    Required(&'static str),
    /// A required option that may be given several times.
    RequiredMany(&'static str),
    /// An optional option.
    Optional(&'static str),
    /// An option that conflicts with the argument of the second name.
    ConflictsWith(&'static str, &'static str),
    /// The same with two other arguments.
    ConflictsWithBoth(&'static str, &'static str, &'static str),
    /// An optional option that may be given several times.
    OptionalMany(&'static str),
    /// The same that conflicts with the argument of the second name.
    ManyWithout(&'static str, &'static str),
    /// An option with a number from 1 to 64. The default is 4.
    Number,
    /// The same, where the default depends on the processors.
    NumberByProcessors,
    /// An option with a number from 1 to 4294967295. The default is 1000000.
    Limit,
    /// A flag.
    Flag,
    /// A flag that conflicts with the argument of this name.
    FlagWithout(&'static str),
    /// The same with several arguments.
    FlagWithoutAll(&'static [&'static str]),
    /// An option that may be given several times, whose values may begin with a hyphen.
    AnyMany(&'static str),
    /// A flag that says the opposite of the flag of this name. Of both the last one counts.
    FlagOver(&'static str),
    /// A flag beside two others that say something else. Of the three the last one counts.
    FlagOverBoth(&'static str, &'static str),
    /// A required positional argument.
    Positional(&'static str),
    /// An optional positional argument.
    OptionalPositional(&'static str),
    /// One or more positional arguments.
    Many(&'static str),
}

/// The block files of the commands that look up blocks.
pub const BLOCKS: ArgSpec = ArgSpec {
    name: "blocks",
    given: ArgKind::RequiredMany("FILE"),
    help: "CARv1 file of blocks, - for stdin; several add up",
};

/// The files of what the receiver of an archive has, at the same commands.
pub const WITHOUT: ArgSpec = ArgSpec {
    name: "without",
    given: ArgKind::OptionalMany("FILE"),
    help: "Omit what this CARv1 has sound; several add up",
};

/// The have-list of the receiver, at the same commands.
pub const WITHOUT_LIST: ArgSpec = ArgSpec {
    name: "without-list",
    given: ArgKind::Optional("FILE"),
    help: "Leave out the CIDs this file lists, one per line",
};

/// The greatest size of an input, where there is none by default.
pub const MAX_INPUT: ArgSpec = ArgSpec {
    name: "max-input",
    given: ArgKind::Optional("SIZE"),
    help: "Greatest size of an input, such as 4G",
};

/// The same where there is one by default.
pub const MAX_INPUT_1G: ArgSpec = ArgSpec {
    name: "max-input",
    given: ArgKind::Optional("SIZE"),
    help: "Greatest size of an input [default: 1G]",
};

/// Whether CARv2 files are read. All commands but `jobs` read them without it too.
pub const CARV2: ArgSpec = ArgSpec {
    name: "carv2",
    given: ArgKind::Flag,
    help: "Read CARv2 files too, as the CARv1 in them",
};

/// Whether the first sound copy of a block counts, and not the first copy.
pub const PREFER_SOUND: ArgSpec = ArgSpec {
    name: "prefer-sound",
    given: ArgKind::Flag,
    help: "Use the first sound copy of a block, if any is",
};

/// The number of walkers, where the default depends on the processors.
pub const WALKERS: ArgSpec = ArgSpec {
    name: "walkers",
    given: ArgKind::NumberByProcessors,
    help: "Threads to traverse, 1 to 64 [default: by cores]",
};

/// The number of verifiers in the same way.
pub const VERIFIERS: ArgSpec = ArgSpec {
    name: "verifiers",
    given: ArgKind::NumberByProcessors,
    help: "Threads to hash, 1 to 64 [default: by cores]",
};

/// The number of walkers, 4 by default.
pub const WALKERS_4: ArgSpec = ArgSpec {
    name: "walkers",
    given: ArgKind::Number,
    help: "Threads that traverse, 1 to 64",
};

/// The number of verifiers, 4 by default.
pub const VERIFIERS_4: ArgSpec = ArgSpec {
    name: "verifiers",
    given: ArgKind::Number,
    help: "Threads that hash, 1 to 64",
};

/// Whether all threads expand blocks before the walkers start, at the commands that export.
pub const PREFETCH: ArgSpec = ArgSpec {
    name: "prefetch",
    given: ArgKind::Optional("WHEN"),
    help: "Expand by all threads first: auto, on or off",
};

/// The greatest limit of a job, at the commands that read or write lines of a job file.
pub const MAX_LIMIT: ArgSpec = ArgSpec {
    name: "max-limit",
    given: ArgKind::Limit,
    help: "Greatest LIMIT, to 4294967295",
};

/// Whether progress is shown.
pub const PROGRESS: ArgSpec = ArgSpec {
    name: "progress",
    given: ArgKind::Flag,
    help: "Show progress on standard error",
};

/// Which blocks may be missing, at the commands that follow links.
pub const ALLOW_MISSING: ArgSpec = ArgSpec {
    name: "allow-missing",
    given: ArgKind::Optional("WHICH"),
    help: "Blocks that may be missing: raw, dag-cbor or all",
};

/// Whether progress is turned off, and the report where the status is 0.
pub const QUIET: ArgSpec = ArgSpec {
    name: "quiet",
    given: ArgKind::Flag,
    help: "No progress, and no report if the status is 0",
};

/// The same at the commands that have neither.
pub const QUIET_ACCEPTED: ArgSpec = ArgSpec {
    name: "quiet",
    given: ArgKind::Flag,
    help: "Accepted: there is no progress and no report",
};

/// Whether nothing but progress is turned off.
pub const QUIET_PROGRESS: ArgSpec = ArgSpec {
    name: "quiet",
    given: ArgKind::Flag,
    help: "No progress",
};

/// Whether a file is on the disk before it is renamed, which is the default at the commands that write one.
pub const SYNC: ArgSpec = ArgSpec {
    name: "sync",
    given: ArgKind::FlagOver("no-sync"),
    help: "Sync FILE to disk before it is renamed [default]",
};

/// Whether it is renamed before.
pub const NO_SYNC: ArgSpec = ArgSpec {
    name: "no-sync",
    given: ArgKind::FlagOver("sync"),
    help: "Rename FILE without waiting for the disk",
};

/// Whether an archive is renamed only if nothing was skipped, at the commands with `--complete` and
/// `--partial`.
pub const WHOLE: ArgSpec = ArgSpec {
    name: "whole",
    given: ArgKind::FlagOverBoth("complete", "partial"),
    help: "Rename only if done and nothing was skipped",
};

/// Whether the cause of an error is printed where an error has one line.
pub const VERBOSE: ArgSpec = ArgSpec {
    name: "verbose",
    given: ArgKind::Flag,
    help: "Print the cause of an error on a second line",
};

/// Whether a report is JSON, at the commands that print one.
pub const JSON: ArgSpec = ArgSpec {
    name: "json",
    given: ArgKind::Flag,
    help: "Report as JSON, one object per line",
};

/// Whether an error is printed as JSON too, at the commands whose answer is a block.
pub const JSON_ERRORS: ArgSpec = ArgSpec {
    name: "json",
    given: ArgKind::Flag,
    help: "Report an error as JSON too, on stderr",
};

/// Returns which archives are renamed: what the last of `--whole`, `--complete` and `--partial` says, or this.
pub fn naming<'a>(words: &ArgMatches<'a>, default: Naming) -> Naming {
    if words.get_flag("whole") {
        Naming::Whole
    } else if words.get_flag("complete") {
        Naming::Complete
    } else if words.get_flag("partial") {
        Naming::Ended
    } else {
        default
    }
}

// The short form of an option, which is the same at each command.
fn short_of(name: &str) -> Option<char> {
    match name {
        "out" => Some('o'),
        "quiet" => Some('q'),
        "verbose" => Some('v'),
        _ => None,
    }
}

impl ArgSpec {
    /// Returns the text that was given for it, or its default, or an empty text.
    pub fn text<'a>(&self, words: &ArgMatches<'a>) -> &'a str {
        self.optional_text(words).unwrap_or("")
    }

    /// Returns the text that was given for it, or its default, if there is one.
    pub fn optional_text<'a>(&self, words: &ArgMatches<'a>) -> Option<&'a str> {
        words.get_str(self.name)
    }

    /// Returns whether the flag was given.
    pub fn is_given<'a>(&self, words: &ArgMatches<'a>) -> bool {
        words.get_flag(self.name)
    }

    /// Returns the number of threads that was given, or this default, but 1 at least and 64 at most. The
    /// command line accepts only 1 to 64.
    pub fn threads<'a>(&self, words: &ArgMatches<'a>, default: usize) -> u32
        ensures { (1 ≤ result) × (result ≤ 64) }
    {
        let default = default.clamp(1, 64) as u32;
        words.get_one(self.name).unwrap_or(default).clamp(1, 64)
    }

    /// Returns the greatest limit that was given, or its default.
    pub fn limit<'a>(&self, words: &ArgMatches<'a>) -> u32 {
        words.get_one(self.name).unwrap_or(GREATEST_LIMIT)
    }
}

/// Makes the clap arguments of these rows, in their order. An error means that memory ran out.
pub(crate) fn arguments_of<'a>(
    alloc: Global,
    rows: &'static [ArgSpec],
) -> Result<Vec<Arg<'a>>, AllocError> {
    let mut arguments = Vec::new(alloc);
    push_arguments(alloc, &mut arguments, rows)?;
    Ok(arguments)
}

// Adds the arguments. It owns none of them, so an early return has none to drop.
fn push_arguments<'a>(
    alloc: Global,
    arguments: &mut Vec<Arg<'a>>,
    rows: &'static [ArgSpec],
) -> Result<(), AllocError> {
    for row in rows {
        push_argument(arguments, argument_of(alloc, row))?;
    }
    Ok(())
}

// Adds an argument, unless memory ran out for it.
fn push_argument<'a>(
    arguments: &mut Vec<Arg<'a>>,
    argument: Result<Arg<'a>, AllocError>,
) -> Result<(), AllocError> {
    match argument {
        Ok(argument) => arguments.push(argument).map_err(AllocError::from),
        Err(error) => Err(error),
    }
}

fn argument_of<'a>(alloc: Global, row: &'static ArgSpec) -> Result<Arg<'a>, AllocError> {
    match row.given {
        ArgKind::Required(value) => Ok(option(alloc, row, value).required(true)),
        ArgKind::RequiredMany(value) => Ok(options(alloc, row, value).required(true)),
        ArgKind::Optional(value) => Ok(option(alloc, row, value)),
        ArgKind::ConflictsWith(value, other) => option(alloc, row, value).conflicts_with(other),
        ArgKind::ConflictsWithBoth(value, one, other) => {
            option(alloc, row, value).conflicts_with_all(&[one, other])
        }
        ArgKind::OptionalMany(value) => Ok(options(alloc, row, value)),
        ArgKind::AnyMany(value) => Ok(options(alloc, row, value).allow_hyphen_values(true)),
        ArgKind::ManyWithout(value, other) => options(alloc, row, value).conflicts_with(other),
        ArgKind::Number => Ok(number(alloc, row).default_value("4")),
        ArgKind::NumberByProcessors => Ok(number(alloc, row)),
        ArgKind::Limit => Ok(limit(alloc, row)),
        ArgKind::Flag => Ok(flag(alloc, row)),
        ArgKind::FlagWithout(other) => flag(alloc, row).conflicts_with(other),
        ArgKind::FlagWithoutAll(others) => flag(alloc, row).conflicts_with_all(others),
        ArgKind::FlagOver(other) => flag(alloc, row).overrides_with_all(&[other, row.name]),
        ArgKind::FlagOverBoth(one, other) => {
            flag(alloc, row).overrides_with_all(&[one, other, row.name])
        }
        ArgKind::Positional(value) => Ok(positional(alloc, row, value).required(true)),
        ArgKind::OptionalPositional(value) => Ok(positional(alloc, row, value)),
        ArgKind::Many(value) => Ok(positionals(alloc, row, value)),
    }
}

// A positional argument.
fn positional<'a>(alloc: Global, row: &'static ArgSpec, value: &'static str) -> Arg<'a> {
    Arg::new(alloc, row.name).value_name(value).help(row.help)
}

// Positional arguments, at least one.
fn positionals<'a>(alloc: Global, row: &'static ArgSpec, value: &'static str) -> Arg<'a> {
    positional(alloc, row, value)
        .required(true)
        .num_args(1..)
        .action(ArgAction::Append)
}

// An option with a text as its value.
fn option<'a>(alloc: Global, row: &'static ArgSpec, value: &'static str) -> Arg<'a> {
    named(row, positional(alloc, row, value))
}

// An option with a text as its value, which may be given several times.
fn options<'a>(alloc: Global, row: &'static ArgSpec, value: &'static str) -> Arg<'a> {
    option(alloc, row, value).action(ArgAction::Append)
}

// An option with a number.
fn number<'a>(alloc: Global, row: &'static ArgSpec) -> Arg<'a> {
    option(alloc, row, "N").value_parser(value_parser!(u32).range(1..65))
}

// An option with a limit.
fn limit<'a>(alloc: Global, row: &'static ArgSpec) -> Arg<'a> {
    option(alloc, row, "N")
        .value_parser(value_parser!(u32).range(1..))
        .default_value("1000000")
}

// A flag.
fn flag<'a>(alloc: Global, row: &'static ArgSpec) -> Arg<'a> {
    let flag = Arg::new(alloc, row.name).help(row.help);
    named(row, flag).action(ArgAction::SetTrue)
}

// Gives an argument its long form, and its short form if it has one.
fn named<'a>(row: &'static ArgSpec, argument: Arg<'a>) -> Arg<'a> {
    let argument = argument.long(row.name);
    match short_of(row.name) {
        Some(short) => argument.short(short),
        None => argument,
    }
}
