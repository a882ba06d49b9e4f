//! The command `inspect`: describes a CARv1 file, or says what another file is.

ghost use Rattle.ix_sections.specs.Payload.{IsWithin};

use crate::json_inspect::{Described, fault_object, section_object, summary_object};
use clap::ArgMatches;
use ix_cid::{Cid, HashFunction};
use ix_cli_io::{ANY_SIZE, ErrorCode, Failure, STANDARD_INPUT, read_input};
use ix_options::{
    ArgKind, ArgSpec, CARV2, CARV2_HEADER, CommandSpec, JSON, MAX_INPUT, QUIET,
    available_processors, is_of_carv2, most_input, words_of,
};
use ix_run::RunFault;
use ix_sections::{
    CarFault, CarKind, Kind, Payload, Section, has_index, is_carv2, kind_of, payload_of,
    read_header, read_section,
};
use ix_verify::{Summary, codec_name, hash_name, summary_of};
use std::alloc::{AllocError, Global};
use std::fmt::Write as FmtWrite;
use std::io::{self, BufWriter, ErrorKind, Write};
use std::rt::Files;
use std::sync::Arc;
use std::thread::Threads;

// The memory that `get` and `jobs` take at most for the blocks of a file, if their CIDs aren't crafted to
// share slots of the index: beside the file for each section, and for all else.
const SECTION_MEMORY: usize = 64;

const PROGRAM_MEMORY: usize = 16 * 1024 * 1024;

// What a file is that has an error after the header of its CARv1 file.
const CARV1: &str = "a CARv1 file";

const ABOUT: &str = "Describe a CARv1 file, without hashing";

const HELP: &str =
    "Prints the roots of the file, its size, the number of its sections and how many\n\
of them repeat a CID, the number of sections of each codec and each hash\n\
function (by its name in the multicodec table, or its number), the smallest,\n\
median and greatest size of a block, and how many bytes of memory `get` and\n\
`jobs` take at most for the blocks of the file, unless their CIDs were made to\n\
collide.\n\
\n\
With --list it prints a line for each section instead, PLACE SIZE CID: the\n\
offset of the section in bytes, the size of its block, and the CID as in a job\n\
file.\n\
\n\
With --cids it prints the CID of each section, one per line: the list that the\n\
option --without-list of `get` and `jobs` reads. A CIDv0, which has no base32,\n\
and an identity CID, which contains its block, are left out.\n\
\n\
If the file is not a CARv1, a line on standard error says what it is. If it ends\n\
early, the line says how to keep its whole sections.\n\
\n\
With --json the summary is an object, and with --list each section is one. A\n\
file that is rejected has an object too: docs/JSON.md has the keys. With --quiet\n\
nothing is printed of a file that isn't rejected.\n\
\n\
Status: 0, or 2 if the arguments or the file are rejected.";

const FILE: ArgSpec = ArgSpec {
    name: "file",
    given: ArgKind::Positional("FILE"),
    help: "CARv1 file, or - for standard input",
};

const LIST: ArgSpec = ArgSpec {
    name: "list",
    given: ArgKind::FlagWithout("cids"),
    help: "Print a line for each section: PLACE SIZE CID",
};

const CIDS: ArgSpec = ArgSpec {
    name: "cids",
    given: ArgKind::FlagWithout("json"),
    help: "Print the CID of each section, one per line",
};

/// The command.
pub static SPEC: CommandSpec = CommandSpec {
    name: "inspect",
    about: ABOUT,
    help: HELP,
    words: &[FILE, LIST, CIDS, MAX_INPUT, CARV2, JSON, QUIET],
};

// What is printed of a file.
#[derive(Clone, Copy)]
enum Form {
    Summary,
    // A line for each section.
    List,
    // The CID of each section.
    Cids,
    // The summary as an object.
    JsonSummary,
    // An object for each section.
    JsonList,
}

impl Form {
    // Returns the one that is asked for.
    fn given<'a>(words: &ArgMatches<'a>) -> Form {
        match (LIST.is_given(words), JSON.is_given(words)) {
            (true, false) => Form::List,
            (true, true) => Form::JsonList,
            (false, true) => Form::JsonSummary,
            (false, false) if CIDS.is_given(words) => Form::Cids,
            (false, false) => Form::Summary,
        }
    }

    // Returns whether the file is described, and not its sections one by one.
    fn is_summary(self) -> bool {
        matches!(self, Form::Summary | Form::JsonSummary)
    }

    // Returns whether objects are printed.
    fn is_json(self) -> bool {
        matches!(self, Form::JsonSummary | Form::JsonList)
    }
}

/// Runs the command and returns the status.
pub fn run<'a, R: AllocGlobal + Eprint + Files + Input + Print + Threads + Sync>(
    rt: &R,
    words: &ArgMatches<'a>,
) -> Result<u8, Failure> {
    let path = FILE.text(words);
    let most = most_input(rt.alloc(), &SPEC, words, ANY_SIZE)?;
    let car = read_input(rt, path, most)?;
    let form = Form::given(words);
    let payload = match payload_of(car.as_slice()) {
        Ok(payload) => payload,
        Err(fault) => return refuse(rt, path, car.as_slice(), 0, fault, form),
    };
    if QUIET.is_given(words) || !form.is_summary() {
        list(
            rt,
            path,
            car.as_slice(),
            payload,
            form,
            QUIET.is_given(words),
        )
    } else {
        summarize(rt, path, car, payload, form)
    }
}

// Prints a line for each section of a file, given its bytes, or only says what is wrong with it if that is to be quiet.
fn list<R: AllocGlobal + Print>(
    rt: &R,
    path: &str,
    car: &[u8],
    payload: Payload,
    form: Form,
    is_quiet: bool,
) -> Result<u8, Failure>
    requires { IsWithin payload car.now }
{
    let Payload { start, end } = payload;
    let sections = match checked_sections(rt.alloc(), &car[start..end]) {
        Ok(sections) => sections,
        Err(fault) => return refuse_part(rt, path, car, start, fault, form),
    };
    if is_quiet {
        return Ok(0);
    }
    match BufWriter::new(rt.alloc(), io::writer(rt)) {
        Ok(mut output) => {
            let place = end.saturating_sub(sections.len());
            list_to(rt, &mut output, sections, form, place)
        }
        Err(_) => Err(Failure::Fault(RunFault::Memory)),
    }
}

// Returns the bytes after the header of a CARv1 file, in which its sections are, or the first error of the file.
fn checked_sections(alloc: Global, car: &[u8]) -> Result<&[u8], CarFault> {
    let (_, sections) = read_header(alloc, car)?;
    let mut rest = sections;
    for _ in 0..sections.len() {
        if rest.is_empty() {
            break;
        }
        match read_section(rest.len(), rest) {
            Ok((_, after)) => rest = after,
            Err(CarFault { kind, place }) => {
                let place = place_of(car.len(), rest).saturating_add(place);
                return Err(CarFault { kind, place });
            }
        }
    }
    Ok(sections)
}

// Returns the offset at which the last bytes of so many begin.
fn place_of(size: usize, last: &[u8]) -> usize {
    size.saturating_sub(last.len())
}

// Prints a line for each of these sections, which are at an offset of their file.
fn list_to<R: AllocGlobal, W: Write>(
    rt: &R,
    output: &mut W,
    sections: &[u8],
    form: Form,
    start: usize,
) -> Result<u8, Failure> {
    let mut rest = sections;
    for _ in 0..sections.len() {
        let Ok((section, after)) = read_section(rest.len(), rest) else {
            break;
        };
        let place = start.saturating_add(place_of(sections.len(), rest));
        let line = match form {
            Form::Cids => cid_line(rt.alloc(), &section)?.into_bytes(),
            Form::JsonList => section_object(rt.alloc(), &section, place)?,
            _ => line_of(rt.alloc(), &section, place)?.into_bytes(),
        };
        if let Err(error) = output.write_all(line.as_slice()) {
            return answer_of(rt, &error);
        }
        rest = after;
    }
    match output.flush() {
        Ok(()) => Ok(0),
        Err(error) => answer_of(rt, &error),
    }
}

fn line_of(alloc: Global, section: &Section<'_>, place: usize) -> Result<String, AllocError> {
    let size = section.block.len();
    let cid = cid_of(alloc, section)?;
    format!(in alloc; "{place} {size} {cid}\n")
}

// The line of a section in a have-list: nothing for a CIDv0 or an identity CID.
fn cid_line(alloc: Global, section: &Section<'_>) -> Result<String, AllocError> {
    let parts = section.cid.parts();
    if parts.version == 0 || matches!(parts.hash_function(), Some(HashFunction::Identity)) {
        return Ok(String::new(alloc));
    }
    let cid = cid_of(alloc, section)?;
    format!(in alloc; "{cid}\n")
}

// The CID of a section, as in a job file.
fn cid_of(alloc: Global, section: &Section<'_>) -> Result<String, AllocError> {
    let cid = section.cid.to_cid(alloc)?;
    cid.text(alloc)
}

// Returns status 0 if the reader closed the pipe, since the rest isn't wanted, and else the error.
fn answer_of<R: AllocGlobal>(rt: &R, error: &io::Error) -> Result<u8, Failure> {
    if error.kind() == ErrorKind::BrokenPipe {
        return Ok(0);
    }
    Err(Failure::cannot_write(rt.alloc(), STANDARD_INPUT, error))
}

// Prints the summary of a file with these bytes.
fn summarize<R: AllocGlobal + Print + Threads + Sync>(
    rt: &R,
    path: &str,
    car: Vec<u8>,
    payload: Payload,
    form: Form,
) -> Result<u8, Failure>
    requires { IsWithin payload car.items }
{
    let alloc = rt.alloc();
    let Payload { start, end } = payload;
    let roots = match read_header(alloc, &car[start..end]) {
        Ok((roots, _)) => roots,
        Err(fault) => return refuse_part(rt, path, car.as_slice(), start, fault, form),
    };
    let described = Described {
        path,
        bytes: car.len(),
        index: index_of(car.as_slice()),
        roots,
    };
    let mut car = car;
    car.truncate(end);
    let file = Arc::new(alloc, car)?;
    match summary_of(rt, alloc, &file, start, available_processors(rt)) {
        Ok(summary) => describe(rt, &described, &summary, form),
        Err(fault) => refuse_part(rt, path, file.as_slice(), start, fault, form),
    }
}

// Prints what a file is.
fn describe<R: AllocGlobal + Print>(
    rt: &R,
    file: &Described<'_>,
    summary: &Summary,
    form: Form,
) -> Result<u8, Failure> {
    if form.is_json() {
        let memory = memory_for(file.bytes, summary.sections);
        let object = summary_object(rt.alloc(), file, summary, memory)?;
        print_whole(rt, object.as_slice())
    } else {
        let text = text_of(rt.alloc(), file, summary)?;
        print_whole(rt, text.as_bytes())
    }
}

// Prints what is all of the output, and returns the status.
fn print_whole<R: AllocGlobal + Print>(rt: &R, text: &[u8]) -> Result<u8, Failure> {
    match io::writer(rt).write_all(text) {
        Ok(()) => Ok(0),
        Err(error) => answer_of(rt, &error),
    }
}

// Returns the summary as text.
fn text_of(alloc: Global, file: &Described<'_>, summary: &Summary) -> Result<String, AllocError> {
    let mut text = String::from_str(alloc, version_of(file.index))?;
    push_roots(alloc, &mut text, file.roots.as_slice())?;
    push_summary(&mut text, summary, file.bytes)?;
    Ok(text)
}

// Returns the lines about the version of a file, by whether a CARv2 file has an index.
fn version_of(index: Option<bool>) -> &'static str {
    match index {
        None => "version 1\n",
        Some(true) => "version 2\nindex yes\n",
        Some(false) => "version 2\nindex no\n",
    }
}

// Returns whether a CARv2 file that was read has an index, or None for a CARv1 file.
fn index_of(car: &[u8]) -> Option<bool> {
    if is_carv2(car) {
        Some(car.len() >= 51 && has_index(car))
    } else {
        None
    }
}

fn push_roots(alloc: Global, text: &mut String, roots: &[Cid]) -> Result<(), AllocError> {
    writeln!(text, "roots {}", roots.len())?;
    for root in roots {
        push_root(text, root.text(alloc))?;
    }
    Ok(())
}

fn push_root(text: &mut String, root: Result<String, AllocError>) -> Result<(), AllocError> {
    writeln!(text, "root {}", root?)
}

fn push_summary(text: &mut String, summary: &Summary, bytes: usize) -> Result<(), AllocError> {
    push_numbers(text, bytes, summary.sections, summary.repeated)?;
    for (code, count) in summary.codecs.iter() {
        push_count(text, "codec", codec_name(*code), *code, *count)?;
    }
    for (code, count) in summary.hashes.iter() {
        push_count(text, "hash", hash_name(*code), *code, *count)?;
    }
    push_sizes(text, summary)?;
    writeln!(text, "memory {}", memory_for(bytes, summary.sections))
}

// Returns how many bytes of memory `get` and `jobs` take at most for the blocks of a file of so many bytes
// and sections, without prefetching.
fn memory_for(bytes: usize, sections: usize) -> usize {
    bytes
        .saturating_add(sections.saturating_mul(SECTION_MEMORY))
        .saturating_add(PROGRAM_MEMORY)
}

fn push_numbers(
    text: &mut String,
    bytes: usize,
    sections: usize,
    repeated: usize,
) -> Result<(), AllocError> {
    writeln!(
        text,
        "bytes {bytes}\nsections {sections}\nrepeated {repeated}"
    )
}

// Adds a line for a code, by its name if it has one.
fn push_count(
    text: &mut String,
    word: &str,
    name: Option<&'static str>,
    code: u64,
    count: usize,
) -> Result<(), AllocError> {
    match name {
        Some(name) => writeln!(text, "{word} {name} {count}"),
        None => writeln!(text, "{word} {code:#x} {count}"),
    }
}

// Adds the smallest, median and greatest size, if there are sections.
fn push_sizes(text: &mut String, summary: &Summary) -> Result<(), AllocError> {
    if let (Some(smallest), Some(median), Some(greatest)) = (
        summary.smallest(),
        summary.median(),
        summary.greatest(),
    ) {
        writeln!(
            text,
            "smallest {smallest}\nmedian {median}\ngreatest {greatest}"
        )?;
    }
    Ok(())
}

// Prints why a file is rejected whose CARv1 file, which begins at an offset, has this error at an offset of its own.
fn refuse_part<R: AllocGlobal + Print>(
    rt: &R,
    path: &str,
    car: &[u8],
    start: usize,
    fault: CarFault,
    form: Form,
) -> Result<u8, Failure> {
    let place = start.saturating_add(fault.place);
    refuse(rt, path, car, start, CarFault { place, ..fault }, form)
}

// Prints why a file is rejected, whose CARv1 file begins at an offset, and what it is.
fn refuse<R: AllocGlobal + Print>(
    rt: &R,
    path: &str,
    car: &[u8],
    start: usize,
    fault: CarFault,
    form: Form,
) -> Result<u8, Failure> {
    if fault.kind == CarKind::Memory {
        return Err(Failure::Fault(RunFault::Memory));
    }
    let kind = kind_of(car);
    if form.is_json() {
        print_fault(rt, path, kind, start, fault)?;
    }
    let line = refused_line(rt.alloc(), path, kind, start, fault);
    Err(Failure::stopped(ErrorCode::Car, line))
}

// Prints the object of a file that is rejected.
fn print_fault<R: AllocGlobal + Print>(
    rt: &R,
    path: &str,
    kind: Kind,
    start: usize,
    fault: CarFault,
) -> Result<(), Failure> {
    let (is, start) = if fault.place == 0 {
        (words_of(kind), None)
    } else if is_of_carv2(kind, &fault) {
        (CARV2_HEADER, None)
    } else {
        (CARV1, Some(start))
    };
    let object = fault_object(rt.alloc(), path, &fault, is, start)?;
    print_whole(rt, object.as_slice()).map(|_| ())
}

// Returns the line for a file that is rejected: what it is, or how to keep the bytes before an error in the CARv1 file
// that begins at an offset.
fn refused_line(
    alloc: Global,
    path: &str,
    file: Kind,
    start: usize,
    fault: CarFault,
) -> Result<String, AllocError> {
    let CarFault { kind, place } = fault;
    if place == 0 {
        return format!(in alloc; "{path}: {kind} at {place}: {}", words_of(file));
    }
    if is_of_carv2(file, &fault) {
        return format!(in alloc; "{path}: {kind} at {place}: {CARV2_HEADER}");
    }
    let words = if kind == CarKind::Truncated {
        "its whole sections are"
    } else {
        "the sections before are"
    };
    if start == 0 {
        return format!(in alloc;
            "{path}: {kind} at {place}: {words} its first {place} bytes (head -c {place})"
        );
    }
    let (from, size) = (start.saturating_add(1), place.saturating_sub(start));
    format!(in alloc;
        "{path}: {kind} at {place}: {words} its bytes {start} to {place} (tail -c +{from} | head -c {size})"
    )
}
