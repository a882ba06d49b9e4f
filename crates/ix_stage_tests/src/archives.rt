//! Archives of deliveries that are given by hand, through writers that take little.

ghost use Rattle.std.specs.Prelude.{◌≡◌, []};
ghost use Rattle.ix_car.specs.Events.{IsOpen};
ghost use Rattle.ix_car.specs.ArchiveMeaning.{events_of};

use ix_car::{Archive, ArchiveNew, Counts, End, Sink, SinkFault, Skip};
use ix_check::Verdict;
use ix_fixtures::{
    ABC, ABC_SECTION, DAMAGED, DAMAGED_SECTION, LIST, LIST_SECTION, ONE_LINK, ONE_LINK_SECTION,
    Section, archive_of, cid_of, job_of, list_archive, store_of,
};
use ix_store::Store;
use ix_walk::{Job, Visit};
use std::alloc::{AllocError, Global};
use std::io;
use std::io::{ErrorKind, Write};
use std::process::Abort;
use std::test::Fail;

// The CID of the raw block without bytes.
const EMPTY: &str = "01551220e3b0c44298fc1c149afbf4c8996fb92427ae41e4649b934ca495991b7852b855";

// The matcher.
const MATCHER: &str = "a1612ea0";

// A map of two links to ONE_LINK.
const TWICE: &str = "0171122078c168043a4b6f78fffac7096ef50158a9490a98d171ecdbfba7332f7100ac87";

const TWICE_SECTION: Section = (
    "7b",
    TWICE,
    "a26161d82a5825000171122021e288dd95d20c03227dc4c449b3a8885fcb420f614135142435f3b33b4288326162d82a5825000171122021e288dd95d20c03227dc4c449b3a8885fcb420f614135142435f3b33b428832",
);

// CIDs and their blocks. None is EMPTY.
const BLOCKS: [Section; 5] = [
    ABC_SECTION,
    ONE_LINK_SECTION,
    DAMAGED_SECTION,
    LIST_SECTION,
    TWICE_SECTION,
];

// A visit that is delivered: its CID, its depth and its verdict.
type Delivered = (&'static str, u32, Verdict);

// The damaged list, with what is below DAMAGED.
const LIST_VISITS: [Delivered; 5] = [
    (LIST, 0, Verdict::Sound),
    (DAMAGED, 1, Verdict::Damaged),
    (ABC, 2, Verdict::Sound),
    (ONE_LINK, 1, Verdict::Sound),
    (ABC, 2, Verdict::Sound),
];

// A map with two links to one block, and the sections of its archive.
const TWICE_VISITS: [Delivered; 4] = [
    (TWICE, 0, Verdict::Sound),
    (ONE_LINK, 1, Verdict::Sound),
    (ONE_LINK, 1, Verdict::Sound),
    (ABC, 2, Verdict::Sound),
];

const TWICE_SECTIONS: [Section; 3] = [TWICE_SECTION, ONE_LINK_SECTION, ABC_SECTION];

// A list of one link, and the sections of its archive.
const ONE_LINK_VISITS: [Delivered; 2] = [(ONE_LINK, 0, Verdict::Sound), (ABC, 1, Verdict::Sound)];

const ONE_LINK_SECTIONS: [Section; 2] = [ONE_LINK_SECTION, ABC_SECTION];

// A writer that takes so many bytes, at most so many a call, and then fails or takes none.
#[derive(Debug, Drop)]
struct Narrow {
    bytes: Vec<u8>,
    room: usize,
    width: usize,
    is_silent: bool,
}

impl Write for Narrow {
    fn write(&mut self, buf: &[u8]) -> io::Result<usize> {
        let count = buf.len().min(self.room).min(self.width);
        if count == 0 && !self.is_silent {
            return Err(io::Error::from(ErrorKind::Interrupted));
        }
        self.bytes.extend_from_slice(&buf[..count])?;
        self.room = self.room.saturating_sub(count);
        Ok(count)
    }

    fn flush(&mut self) -> io::Result<()> {
        Ok(())
    }
}

fn writer_of(alloc: Global, room: usize, width: usize) -> Narrow {
    Narrow {
        bytes: Vec::new(alloc),
        room,
        width,
        is_silent: room % 2 == 0,
    }
}

// A visit of this CID.
fn visit_of(alloc: Global, seq: u32, cid: &str, depth: u32) -> Result<Visit, Fail> {
    Ok(Visit {
        job: 0,
        seq,
        depth,
        cid: cid_of(alloc, cid)?,
        block: None,
        malformed: false,
    })
}

// Delivers visits up to the first error, which it returns, and closes if there is none.
fn deliver_all<W: Write>(
    alloc: Global,
    archive: &mut Archive<'_, W>,
    visits: &[Delivered],
) -> Result<Option<SinkFault>, Fail>
    requires unclosed { IsOpen (events_of archive.old) }
    requires unfailed { archive.old.failed ≡ [] }
{
    let mut seq = 0u32;
    for (cid, depth, verdict) in visits {
        let visit = visit_of(alloc, seq, cid, *depth)?;
        match archive.deliver(alloc, visit, *verdict) {
            Ok(()) => seq = seq.saturating_add(1),
            Err(fault) => return Ok(Some(fault)),
        }
    }
    archive.close(End::Done);
    Ok(None)
}

// What comes of an archive: no counts where none could be started.
#[derive(Drop)]
struct Outcome {
    bytes: Vec<u8>,
    skips: Vec<Skip>,
    counts: Option<Counts>,
    fault: Option<SinkFault>,
}

// What comes of an archive that could not be started.
fn not_begun(alloc: Global, fault: ArchiveNew<Narrow>) -> Result<Outcome, Fail> {
    match fault {
        ArchiveNew::Memory(_) => Err(Fail::from(AllocError)),
        ArchiveNew::Write(writer) => Ok(Outcome {
            bytes: writer.bytes,
            skips: Vec::new(alloc),
            counts: None,
            fault: None,
        }),
    }
}

// What comes of an archive that received nothing so far.
fn outcome_of(
    alloc: Global,
    archive: Archive<'_, Narrow>,
    visits: &[Delivered],
) -> Result<Outcome, Fail>
    requires unclosed { IsOpen (events_of archive) }
    requires unfailed { archive.failed ≡ [] }
{
    let mut archive = archive;
    let fault = deliver_all(alloc, &mut archive, visits)?;
    let (writer, skips, counts) = archive.into_parts();
    Ok(Outcome {
        bytes: writer.bytes,
        skips,
        counts: Some(counts),
        fault,
    })
}

// The archive of a job's visits.
fn archive_over(
    alloc: Global,
    store: &Store,
    job: &Job,
    visits: &[Delivered],
    writer: Narrow,
) -> Result<Outcome, Fail> {
    match Archive::new(alloc, store, job, writer) {
        Ok(archive) => outcome_of(alloc, archive, visits),
        Err(fault) => not_begun(alloc, fault),
    }
}

// The archive of visits, the first of which is the root, through a writer with so much room and of
// so much width.
fn archive_through(
    alloc: Global,
    visits: &[Delivered],
    root: &str,
    room: usize,
    width: usize,
) -> Result<Outcome, Fail> {
    let store = store_of(alloc, BLOCKS.as_slice())?;
    let job = job_of(alloc, root, MATCHER, 100)?;
    archive_over(alloc, &store, &job, visits, writer_of(alloc, room, width))
}

fn counted(visits: u32, kept: u32, sections: u32, bytes: u64) -> Option<Counts> {
    Some(Counts {
        visits,
        kept,
        sections,
        bytes,
        known: None,
    })
}

// How many visits were skipped, and the number of the first with its verdict.
fn skipped(got: &Outcome) -> (usize, Option<(u32, Verdict)>) {
    let first = got.skips.first().map(|skip| (skip.seq, skip.verdict));
    (got.skips.len(), first)
}

// These bytes came, counted and skipped so.
fn is_whole(
    rt: &impl Abort,
    got: &Outcome,
    bytes: &[u8],
    counts: Option<Counts>,
    skips: (usize, Option<(u32, Verdict)>),
) {
    assert_eq!(rt; (got.counts, skipped(got)), (counts, skips));
    assert_eq!(rt; got.bytes.as_slice(), bytes);
}

#[test]
fn writes_the_damaged_list(rt: HostRuntime) -> Result<(), Fail> {
    let alloc = rt.alloc();
    let want = list_archive(alloc)?;
    let skips = (1, Some((1, Verdict::Damaged)));
    for width in [1usize, 1000] {
        let got = archive_through(alloc, LIST_VISITS.as_slice(), LIST, 1000, width)?;
        is_whole(&rt, &got, want.as_slice(), counted(5, 4, 3, 298), skips);
    }
    Ok(())
}

#[test]
fn writes_once_what_is_entered_twice(rt: HostRuntime) -> Result<(), Fail> {
    let alloc = rt.alloc();
    let want = archive_of(alloc, TWICE, TWICE_SECTIONS.as_slice())?;
    let got = archive_through(alloc, TWICE_VISITS.as_slice(), TWICE, 1000, 1000)?;
    is_whole(&rt, &got, want.as_slice(), counted(4, 4, 3, 302), (0, None));
    Ok(())
}

#[test]
fn writes_nothing_where_the_store_has_no_block(rt: HostRuntime) -> Result<(), Fail> {
    let visits = [(EMPTY, 0, Verdict::Sound)];
    let got = archive_through(rt.alloc(), visits.as_slice(), EMPTY, 1000, 1000)?;
    assert_eq!(rt; (got.counts, got.bytes.len()), (counted(1, 1, 0, 59), 59));
    Ok(())
}

// What came of a writer with so much room: as much of the whole archive, and a fault where that isn't all.
fn is_cut_at(rt: &impl Abort, got: &Outcome, room: usize, whole: &[u8]) {
    assert!(rt; whole.starts_with(got.bytes.as_slice()));
    let taken = got.counts.map(|counts| counts.bytes);
    let is_begun = room >= 59;
    assert_eq!(rt;
        (got.bytes.len(), taken, got.fault),
        (
            room,
            is_begun.then_some(room as u64),
            (is_begun && room < 178).then_some(SinkFault::Write)
        ),
        "at {room}"
    );
}

#[test]
fn reports_where_a_writer_fails(rt: HostRuntime) -> Result<(), Fail> {
    let alloc = rt.alloc();
    let whole = archive_of(alloc, ONE_LINK, ONE_LINK_SECTIONS.as_slice())?;
    assert_eq!(rt; whole.len(), 178);
    for room in 0..179usize {
        let got = archive_through(alloc, ONE_LINK_VISITS.as_slice(), ONE_LINK, room, 50)?;
        is_cut_at(&rt, &got, room, whole.as_slice());
    }
    Ok(())
}
