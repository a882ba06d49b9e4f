//! Says why the fields of a job are rejected.

use crate::words::{limit_fault, name_fault, roots_fault, selector_fault};
use ix_jobs::{JobErrorKind, JobWords, LineFault, SelectorWord};
use ix_selector_json::fault_line;
use ix_walk::MOST_ROOTS;
use std::alloc::{AllocError, Global};

/// Returns why fields aren't those of a job: `--limit: what is wrong, and what would be right`, since
/// they are typed as options. For a selector in JSON it is the line of the command `selector`, with the
/// part that is rejected.
pub fn job_fault_words(
    alloc: Global,
    fault: &LineFault,
    words: &JobWords<'_>,
) -> Result<String, AllocError> {
    match (fault, words.selector) {
        (LineFault::Field(JobErrorKind::Hex | JobErrorKind::Selector), SelectorWord::Hex(text)) => {
            let field = OPTION_FIELDS.selector;
            match selector_fault(alloc, text)? {
                Some(words) => format!(in alloc; "{field}: {words}"),
                None => format!(in alloc; "{field}: no selector"),
            }
        }
        (LineFault::Field(JobErrorKind::Root), _) => {
            let (field, count) = (OPTION_FIELDS.roots, words.roots.len());
            format!(in alloc; "{field}: {count} CIDs, expected 1 to {MOST_ROOTS}")
        }
        _ => {
            let typed = [words.name, "", words.limit];
            fault_words(alloc, fault, &OPTION_FIELDS, typed, words.greatest_limit)
        }
    }
}

/// Returns why fields aren't those of a job with a limit up to the greatest: `NAME: what is wrong, and
/// what would be right`. For a selector it is the line of the command `selector`, with the part that is
/// rejected.
pub fn line_fault_words(
    alloc: Global,
    fault: &LineFault,
    name: &str,
    roots: &str,
    limit: &str,
    greatest: u32,
) -> Result<String, AllocError> {
    fault_words(alloc, fault, &LINE_FIELDS, [name, roots, limit], greatest)
}

// The names of a job's fields, as they are typed.
struct FieldNames {
    name: &'static str,
    roots: &'static str,
    limit: &'static str,
    selector: &'static str,
}

// The names in a line of a job file.
static LINE_FIELDS: FieldNames = FieldNames {
    name: "NAME",
    roots: "ROOT",
    limit: "LIMIT",
    selector: "SELECTOR",
};

// The names of a command's options.
static OPTION_FIELDS: FieldNames = FieldNames {
    name: "--name",
    roots: "--root",
    limit: "--limit",
    selector: "--selector-hex",
};

// Returns the same text for fields with these names.
fn fault_words(
    alloc: Global,
    fault: &LineFault,
    called: &FieldNames,
    typed: [&str; 3],
    greatest: u32,
) -> Result<String, AllocError> {
    let [name, roots, limit] = typed;
    match fault {
        LineFault::Field(JobErrorKind::Name) => {
            let field = called.name;
            let words = name_fault(name).unwrap_or("no name");
            format!(in alloc; "{field}: {words}")
        }
        LineFault::Field(JobErrorKind::Root) => {
            let field = called.roots;
            match roots_fault(alloc, roots)? {
                Some(words) => format!(in alloc; "{field}: {words}"),
                None => format!(in alloc; "{field}: no CID"),
            }
        }
        LineFault::Field(JobErrorKind::Limit) => {
            let field = called.limit;
            match limit_fault(alloc, limit, greatest)? {
                Some(words) => format!(in alloc; "{field}: {words}"),
                None => format!(in alloc; "{field}: no limit"),
            }
        }
        LineFault::Field(kind) => format!(in alloc; "{kind}"),
        LineFault::Selector(_, Some(line)) => String::from_str(alloc, line.as_str()),
        LineFault::Selector(fault, None) => fault_line(alloc, fault),
    }
}
