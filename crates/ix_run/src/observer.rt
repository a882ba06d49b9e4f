//! The observer of a run in progress.

ghost use Rattle.std.specs.Prelude.{◌≡◌};
ghost use Rattle.ix_car.specs.ArchiveMeaning.{known_in};
ghost use Rattle.ix_car.specs.Report.{skips_of, counts_of};

use ix_car::{Archive, Counts, End, Sink, SinkFault, Skip};
use ix_check::Verdict;
use ix_walk::Visit;
use std::alloc::Global;
use std::io::Write;
use std::marker::Model;

/// An observer of a run. The one thread that delivers calls it. What it does has no effect on the run.
pub trait Observer {
    /// So many more bytes of archives were written.
    fn on_bytes(&self, bytes: u64);

    /// One more visit was delivered.
    fn on_delivery(&self);

    /// One more job's archive was closed: that of the job of this number, from 0 on, with this end and these
    /// skips.
    fn on_close(&self, number: usize, end: End, skips: &[Skip]);
}

/// An observer that ignores everything.
#[derive(Drop)]
pub struct Unobserved;

impl Observer for Unobserved {
    fn on_bytes(&self, _bytes: u64) {}

    fn on_delivery(&self) {}

    fn on_close(&self, _number: usize, _end: End, _skips: &[Skip]) {}
}

/// The archive of the job of a number, which notifies an observer. It forwards every call, and contracts see it as the archive
/// inside: its calls and its guarantee are those.
#[derive(Drop)]
pub struct Observed<'a, W: Write, V: Observer> {
    archive: Archive<'a, W>,
    number: usize,
    observer: &'a V,
}

impl<'a, W: Write, V: Observer> Model for Observed<'a, W, V> {
    ghost use Rattle.ix_car.specs.ArchiveMeaning.{ArchiveMeaning};

    ghost Value = { ArchiveMeaning W };

    ghost view = { λ s. s.archive };
}

impl<'a, W: Write, V: Observer> Observed<'a, W, V> {
    /// Wraps the archive of the job of this number, and notifies the observer at once of the bytes that it
    /// has so far.
    pub fn new(archive: Archive<'a, W>, number: usize, observer: &'a V) -> Observed<'a, W, V>
        ensures { result ≡ archive.entry }
    {
        observer.on_bytes(archive.counts().bytes);
        Observed {
            archive,
            number,
            observer,
        }
    }

    /// Returns the writer, the skips and the counts of the archive.
    pub fn into_parts(self) -> (W, Vec<Skip>, Counts)
        ensures writer { result.0 ≡ self.entry.writer }
        ensures skips { result.1.items ≡ skips_of self.entry.deliveries }
        ensures counts { result.2
            ≡ counts_of (known_in self.entry) self.entry.store self.entry.deliveries self.entry.taken }
    {
        self.archive.into_parts()
    }
}

impl<'a, W: Write, V: Observer> Sink for Observed<'a, W, V> {
    ghost use Rattle.ix_car.specs.Archive.{Known};
    ghost use Rattle.ix_car.specs.ArchiveMeaning.{calls_of, HasArchived};

    ghost calls = { calls_of };

    ghost About = { Known };

    ghost guarantee = { HasArchived W.contents };

    fn deliver(&mut self, alloc: Global, visit: Visit, verdict: Verdict) -> Result<(), SinkFault> {
        let before = self.archive.counts().bytes;
        let taken = self.archive.deliver(alloc, visit, verdict);
        let after = self.archive.counts().bytes;
        self.observer.on_bytes(after.saturating_sub(before));
        if taken.is_ok() {
            self.observer.on_delivery();
        }
        taken
    }

    fn close(&mut self, end: End) {
        self.archive.close(end);
        self.observer
            .on_close(self.number, end, self.archive.skips());
    }
}
