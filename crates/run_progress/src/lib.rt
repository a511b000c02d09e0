//! Shows how far a run is: one line, written again and again, on standard error.
#![tactic(auto)]

use mt_edge::Gate;
use std::rt::Clock;
use std::sync::atomic::{AtomicU64, Ordering};
use std::time::Instant;

/// So many milliseconds lie between two lines of the runs on mutants. With the first and the last
/// of these, which are written whatever the time, no second has more than ten lines.
const PAUSE: u64 = 125;

/// A gate that counts the cells that have ended and shows what is done: first the classes and their
/// tests, then, once it is opened, how many cells of all, how many mutants are detected so far, in
/// what time, and about how long the others take, and behind the last cell the report. Nothing that
/// is written wrong stops a run: its errors are dropped.
#[derive(Drop)]
pub struct Progress<'a, R: Clock + Eprint> {
    rt: &'a R,
    // None: nothing is shown.
    began: Option<Instant>,
    cells: AtomicU64,
    ended: AtomicU64,
    // How many cells were the first that their worker saw to detect their mutant.
    detected: AtomicU64,
    // In milliseconds since the beginning: when the cells were begun, and when the line was last
    // written.
    opened: AtomicU64,
    written: AtomicU64,
}

// About how many seconds the cells that are left take, where so many took so many milliseconds.
fn seconds_left(millis: u64, ended: u64, left: u64) -> u64 {
    if ended == 0 {
        return 0;
    }
    millis.saturating_mul(left) / ended / 1000
}

impl<'a, R: Clock + Eprint> Progress<'a, R> {
    /// A gate that shows from now on what is done, or shows nothing.
    pub fn new(rt: &'a R, shown: bool) -> Progress<'a, R> {
        let began = if shown { Instant::now(rt).ok() } else { None };
        if began.is_some() {
            let _shown = eprint!(rt; "\rmutest: reading the classes, running their tests\x1b[K");
        }
        Progress {
            rt,
            began,
            cells: AtomicU64::new(0),
            ended: AtomicU64::new(0),
            detected: AtomicU64::new(0),
            opened: AtomicU64::new(0),
            written: AtomicU64::new(0),
        }
    }

    /// Takes the line away, where one was written.
    pub fn clear(&self) {
        if self.began.is_some() {
            let _shown = eprint!(self.rt; "\r\x1b[K");
        }
    }

    // Milliseconds since the beginning; nothing where nothing is shown, or the clock fails.
    fn millis(&self) -> Option<u64> {
        let began = self.began.as_ref()?;
        let passed = began.elapsed(self.rt).ok()?;
        u64::try_from(passed.as_millis()).ok()
    }

    // Whether a line is due so many milliseconds after the beginning; one caller alone is told so.
    fn is_due(&self, millis: u64) -> bool {
        let written = self.written.load(Ordering::SeqCst);
        millis >= written.saturating_add(PAUSE)
            && self
                .written
                .compare_exchange(written, millis, Ordering::SeqCst, Ordering::SeqCst)
                .is_ok()
    }

    // The line with so many cells of all at an end, so many milliseconds after the beginning.
    fn show(&self, millis: u64, ended: u64, cells: u64) {
        let seconds = millis / 1000;
        let (minutes, seconds) = (seconds / 60, seconds % 60);
        let detected = self.detected.load(Ordering::SeqCst);
        if ended >= cells {
            let _shown = eprint!(self.rt;
                "\rmutest: {ended} of {cells} runs, {detected} detected, \
                 {minutes}:{seconds:02}, writing the report\x1b[K"
            );
            return;
        }
        if ended == 0 {
            let _shown = eprint!(self.rt;
                "\rmutest: 0 of {cells} runs, {minutes}:{seconds:02}\x1b[K"
            );
            return;
        }
        let opened = self.opened.load(Ordering::SeqCst);
        let more = seconds_left(millis.saturating_sub(opened), ended, cells - ended);
        let (more_minutes, more) = (more / 60, more % 60);
        let _shown = eprint!(self.rt;
            "\rmutest: {ended} of {cells} runs, {detected} detected, \
             {minutes}:{seconds:02}, about {more_minutes}:{more:02} left\x1b[K"
        );
    }
}

impl<'a, R: Clock + Eprint> Gate for Progress<'a, R> {
    fn open(&self, cells: u64) {
        self.cells.store(cells, Ordering::SeqCst);
        if let Some(millis) = self.millis() {
            self.opened.store(millis, Ordering::SeqCst);
            self.written.store(millis, Ordering::SeqCst);
            self.show(millis, 0, cells);
        }
    }

    fn begin(&self, _worker: u64, _cell: u64) {}

    fn detect(&self, _worker: u64, _cell: u64) {
        self.detected.fetch_add(1, Ordering::SeqCst);
    }

    fn end(&self, _worker: u64, _cell: u64) {
        let ended = self.ended.fetch_add(1, Ordering::SeqCst).saturating_add(1);
        let cells = self.cells.load(Ordering::SeqCst);
        if let Some(millis) = self.millis() {
            if ended >= cells || self.is_due(millis) {
                self.show(millis, ended, cells);
            }
        }
    }
}
