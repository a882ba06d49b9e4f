//! Shows progress on standard error.

ghost use Rattle.std.specs.Prelude.{◌≡◌};
ghost use Rattle.ix_cli_io.specs.Progress.{is_shown};

use ix_car::{End, Skip};
use ix_run::Observer;
use std::cell::Cell;
use std::io::{self, Read};
use std::rt::Clock;

// How many visits are between two lines.
const LINE_EVERY: u64 = 100_000;

// The least time between two lines, and between two updates of the line that is rewritten, in
// milliseconds.
const BETWEEN_LINES: u64 = 1_000;

const BETWEEN_STATES: u64 = 500;

// How much work there is between two looks at the clock, in visits or KiB written.
const CLOCK_EVERY: u64 = 256;

// How many bytes are read at once while progress is shown.
const PIECE: usize = 4 * 1024 * 1024;

/// How progress is shown.
#[derive(Debug, Drop, Clone, Copy, PartialEq, Eq)]
pub enum ProgressMode {
    /// Not at all.
    Off,
    /// In lines, at most one per second: at each close, and after each 100,000 visits.
    Lines,
    /// In one line of a terminal, rewritten at most twice a second, after so many milliseconds.
    Line(u64),
}

/// Shows progress on standard error: how many bytes of blocks were read; then, of a run, how many jobs are
/// closed, how many visits were delivered, and how many bytes of archives were written; of files that are
/// verified, how many sections were checked and how many links followed; of a stream, how many bytes came
/// and how many sections were checked. Only one thread reports it.
#[derive(Drop)]
pub struct Progress<'a, R> {
    rt: &'a R,
    mode: ProgressMode,
    // When it began, and when the run did, in milliseconds of the clock.
    start: u64,
    run_start: Cell<u64>,
    jobs: Cell<usize>,
    closed: Cell<usize>,
    visits: Cell<u64>,
    bytes: Cell<u64>,
    // How many sections were checked.
    sections: Cell<u64>,
    // How many bytes of blocks were read, and how many there are, if that is known.
    loaded: Cell<u64>,
    size: Cell<u64>,
    // When something was shown last.
    told: Cell<Option<u64>>,
    // The work since the last look at the clock.
    work: Cell<u64>,
    // Whether the line that is rewritten is on the terminal.
    line_shown: Cell<bool>,
}

impl<'a, R: AllocGlobal + Clock + Eprint> Progress<'a, R> {
    /// Returns the progress of a run of which nothing was shown so far.
    pub fn new(rt: &'a R, mode: ProgressMode) -> Progress<'a, R>
        ensures { result.mode ≡ mode }
    {
        Progress {
            rt,
            mode,
            start: now(rt),
            run_start: Cell::new(0),
            jobs: Cell::new(0),
            closed: Cell::new(0),
            visits: Cell::new(0),
            bytes: Cell::new(0),
            sections: Cell::new(0),
            loaded: Cell::new(0),
            size: Cell::new(0),
            told: Cell::new(None),
            work: Cell::new(0),
            line_shown: Cell::new(false),
        }
    }

    /// Returns whether progress is shown at all.
    pub fn is_shown(&self) -> bool
        ensures { result ≡ is_shown self.now.mode }
    {
        self.mode != ProgressMode::Off
    }

    /// Returns the progress if it is shown at all.
    pub fn shown(&self) -> Option<&Progress<'a, R>> {
        if self.is_shown() { Some(self) } else { None }
    }

    /// Sets how many bytes of blocks there are to be read.
    pub fn expect(&self, size: u64) {
        self.size.set(size);
    }

    /// Counts so many more bytes of blocks that were read.
    pub(crate) fn add_loaded(&self, bytes: u64) {
        self.loaded.set(self.loaded.get().saturating_add(bytes));
        if self.is_due(false) {
            let (loaded, size) = (mebibytes(self.loaded.get()), mebibytes(self.size.get()));
            let _ = if self.size.get() == 0 {
                eprint!(self.rt; "\r\u{1b}[?7lloading {loaded} MiB\u{1b}[K\u{1b}[?7h")
            } else {
                eprint!(self.rt; "\r\u{1b}[?7lloading {loaded} of {size} MiB\u{1b}[K\u{1b}[?7h")
            };
        }
    }

    /// Counts so many more sections that were checked.
    pub fn add_checked(&self, sections: usize) {
        let sections = self.sections.get().saturating_add(sections as u64);
        self.sections.set(sections);
        self.show_checked(false);
    }

    /// Counts one more root or link that was followed.
    pub fn add_followed(&self) {
        let visits = self.visits.get().saturating_add(1);
        self.visits.set(visits);
        match self.mode {
            ProgressMode::Lines if visits % LINE_EVERY == 0 => self.show_checked(false),
            ProgressMode::Line(_) if visits % CLOCK_EVERY == 0 => self.show_checked(false),
            _ => {}
        }
    }

    /// Shows how much was checked and followed when a file is verified, and ends the line that is rewritten.
    pub fn end_checked(&self) {
        self.show_checked(true);
        self.end();
    }

    /// Sets how many sections of a stream were checked, and counts so many more bytes that came.
    pub fn set_received(&self, sections: u64, bytes: u64) {
        self.sections.set(sections);
        self.loaded.set(self.loaded.get().saturating_add(bytes));
        self.show_received(false);
    }

    /// Shows how much of a stream came and was checked, and ends the line that is rewritten.
    pub fn end_received(&self) {
        self.show_received(true);
        self.end();
    }

    // Shows how much of a stream came and was checked, if it is due.
    fn show_received(&self, is_last: bool) {
        if !self.is_shown_now(is_last) {
            return;
        }
        let (sections, bytes) = (self.sections.get(), self.loaded.get());
        let _ = if self.mode == ProgressMode::Lines {
            eprintln!(self.rt; "progress: {bytes} bytes received, {sections} sections checked")
        } else {
            let received = mebibytes(bytes);
            eprint!(self.rt;
                "\r\u{1b}[?7l{received} MiB received, {sections} sections checked\u{1b}[K\u{1b}[?7h"
            )
        };
    }

    // Returns whether something is due to be shown in this mode, and records it. The first line comes a
    // while after the start.
    fn is_shown_now(&self, is_last: bool) -> bool {
        match self.mode {
            ProgressMode::Off => false,
            ProgressMode::Lines => {
                if self.told.get().is_none() {
                    self.told.set(Some(self.start));
                }
                self.is_line_due(is_last)
            }
            ProgressMode::Line(_) => self.is_due(is_last),
        }
    }

    // Shows how much was checked and followed, if it is due.
    fn show_checked(&self, is_last: bool) {
        if !self.is_shown_now(is_last) {
            return;
        }
        let (sections, links) = (self.sections.get(), self.visits.get());
        let _ = if self.mode == ProgressMode::Lines {
            eprintln!(self.rt; "progress: {sections} sections checked, {links} links followed")
        } else {
            eprint!(self.rt;
                "\r\u{1b}[?7l{sections} sections checked, {links} links followed\u{1b}[K\u{1b}[?7h"
            )
        };
    }

    /// Starts the run of so many jobs.
    pub fn begin(&self, jobs: usize) {
        self.jobs.set(jobs);
        self.run_start.set(now(self.rt));
    }

    /// Ends the line that is rewritten, since nothing more is shown.
    pub fn end(&self) {
        if self.line_shown.replace(false) {
            let _ = eprint!(self.rt; "\n");
        }
    }

    // Returns whether the line of a terminal is due to be rewritten, and records it. The last state is
    // always due.
    fn is_due(&self, is_last: bool) -> bool {
        let ProgressMode::Line(after) = self.mode else {
            return false;
        };
        let now = now(self.rt);
        if now.saturating_sub(self.start) < after {
            return false;
        }
        if !is_last && !is_past(self.told.get(), now, BETWEEN_STATES) {
            return false;
        }
        self.told.set(Some(now));
        self.line_shown.set(true);
        true
    }

    // Rewrites the line of a terminal if it is due.
    fn rewrite(&self, is_last: bool) {
        if !self.is_due(is_last) {
            return;
        }
        let (jobs, closed) = (self.jobs.get(), self.closed.get());
        let (visits, written) = (self.visits.get(), mebibytes(self.bytes.get()));
        let rate = a_second(visits, now(self.rt).saturating_sub(self.run_start.get()));
        // The terminal cuts a line that is too long, instead of wrapping it. If standard error can't be
        // written, there is no one to report to.
        let _ = eprint!(self.rt;
            "\r\u{1b}[?7l{closed} of {jobs} jobs closed, {written} MiB, {visits} visits, {rate} a second\u{1b}[K\u{1b}[?7h"
        );
    }

    // Returns whether a line is due, and records it: none was printed a moment ago, or it is the last.
    fn is_line_due(&self, is_last: bool) -> bool {
        let now = now(self.rt);
        if !is_last && !is_past(self.told.get(), now, BETWEEN_LINES) {
            return false;
        }
        self.told.set(Some(now));
        true
    }

    // Prints a line if it is due.
    fn print(&self, is_last: bool) {
        if !self.is_line_due(is_last) {
            return;
        }
        let (jobs, closed) = (self.jobs.get(), self.closed.get());
        let (visits, bytes) = (self.visits.get(), self.bytes.get());
        let _ = eprintln!(self.rt;
            "progress: {closed} of {jobs} jobs closed, {visits} visits delivered, {bytes} bytes written"
        );
    }

    // Looks at the clock after enough work.
    fn add_work(&self, work: u64) {
        let work = self.work.get().saturating_add(work);
        if work < CLOCK_EVERY {
            self.work.set(work);
        } else {
            self.work.set(0);
            self.rewrite(false);
        }
    }
}

impl<'a, R: AllocGlobal + Clock + Eprint> Observer for Progress<'a, R> {
    fn on_bytes(&self, bytes: u64) {
        self.bytes.set(self.bytes.get().saturating_add(bytes));
        self.add_work(bytes / 1024);
    }

    fn on_delivery(&self) {
        let visits = self.visits.get().saturating_add(1);
        self.visits.set(visits);
        match self.mode {
            ProgressMode::Lines if visits % LINE_EVERY == 0 => self.print(false),
            ProgressMode::Line(_) => self.add_work(1),
            _ => {}
        }
    }

    fn on_close(&self, _number: usize, _end: End, _skips: &[Skip]) {
        let closed = self.closed.get().saturating_add(1);
        self.closed.set(closed);
        let is_last = closed == self.jobs.get();
        match self.mode {
            ProgressMode::Off => {}
            ProgressMode::Lines => self.print(is_last),
            ProgressMode::Line(_) => self.rewrite(is_last),
        }
    }
}

/// A reader of blocks that counts the bytes read.
#[derive(Drop)]
pub(crate) struct Loading<'a, F, R> {
    file: F,
    progress: &'a Progress<'a, R>,
}

impl<'a, F, R> Loading<'a, F, R> {
    /// Wraps a reader of which nothing was read so far.
    pub(crate) fn new(file: F, progress: &'a Progress<'a, R>) -> Loading<'a, F, R> {
        Loading { file, progress }
    }
}

impl<'a, F: Read, R: AllocGlobal + Clock + Eprint> Read for Loading<'a, F, R> {
    // It gives what its file gives.
    ghost remaining = { λ loading. F.remaining loading.file };

    fn read(&mut self, buf: &mut [u8]) -> io::Result<usize> {
        let most = buf.len().min(PIECE);
        let count = self.file.read(&mut buf[..most])?;
        self.progress.add_loaded(count as u64);
        Ok(count)
    }
}

// Returns the time of the clock in milliseconds, or 0 if it has none.
fn now<R: Clock>(rt: &R) -> u64 {
    match rt.monotonic() {
        Ok(time) => u64::try_from(time.as_millis()).unwrap_or(u64::MAX),
        Err(_) => 0,
    }
}

// Returns whether so many milliseconds passed since something was shown, or nothing was.
fn is_past(told: Option<u64>, now: u64, pause: u64) -> bool {
    match told {
        Some(told) => now.saturating_sub(told) >= pause,
        None => true,
    }
}

// Returns the number of whole MiB.
fn mebibytes(bytes: u64) -> u64 {
    bytes / (1024 * 1024)
}

// Returns the rate per second, of a count in so many milliseconds.
fn a_second(count: u64, milliseconds: u64) -> u64 {
    count.saturating_mul(1_000) / milliseconds.max(1)
}
