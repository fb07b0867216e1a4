//! How far a run has come, as a terminal shows it.
//!
//! What it shows is no part of an answer, and stays nowhere, so nothing is claimed of it.

use std::cell::Cell;
use std::time::{Clock, Duration, Instant};

// How long nothing is shown, and how long it is until more is shown, in milliseconds.
const FIRST_MILLISECONDS: u64 = 1000;

const NEXT_MILLISECONDS: u64 = 100;

/// Where it is shown how far a run has come. A count that begins while another goes on isn't shown.
pub trait Progress {
    /// Begins to count up to this many.
    fn begin(&self, all: usize);

    /// Counts one more, with which something may have been wrong.
    fn count(&self, is_wrong: bool);

    /// Ends the count that began last.
    fn end(&self);
}

// What has been counted.
#[derive(Clone, Copy)]
struct Count {
    all: usize,
    done: usize,
    wrong: usize,
    // How many counts began behind this one and go on.
    inner: usize,
    // When it is to be shown.
    due: Instant,
    is_shown: bool,
}

impl Count {
    // A count up to this many, if the clock can be read.
    fn new(clock: &impl Clock, all: usize) -> Option<Count> {
        Some(Count {
            all,
            done: 0,
            wrong: 0,
            inner: 0,
            due: moment_in(clock, FIRST_MILLISECONDS)?,
            is_shown: false,
        })
    }

    // One more.
    fn with_one(self, is_wrong: bool) -> Count {
        let wrong = if is_wrong { 1 } else { 0 };
        Count {
            done: self.done.saturating_add(1),
            wrong: self.wrong.saturating_add(wrong),
            ..self
        }
    }

    // Whether it is to be shown now.
    fn is_due(self, clock: &impl Clock) -> bool {
        match Instant::now(clock) {
            Ok(now) => self.due <= now,
            Err(_) => false,
        }
    }
}

// The moment that comes so many milliseconds from now, if the clock can be read.
fn moment_in(clock: &impl Clock, milliseconds: u64) -> Option<Instant> {
    let now = Instant::now(clock).ok()?;
    now.checked_add(Duration::from_millis(milliseconds))
}

/// The line of a terminal that shows how far a run has come. It ends in a carriage return, so that what comes next goes
/// over it.
#[derive(Drop)]
pub(crate) struct ProgressLine<'a, R> {
    rt: &'a R,
    // Whether there is a terminal.
    is_seen: bool,
    count: Cell<Option<Count>>,
}

impl<'a, R> ProgressLine<'a, R> {
    // Nothing is shown.
    pub(crate) fn new(rt: &'a R, is_seen: bool) -> ProgressLine<'a, R> {
        ProgressLine {
            rt,
            is_seen,
            count: Cell::new(None),
        }
    }
}

impl<R: Eprint> ProgressLine<'_, R> {
    // Takes away what is shown, up to the end of its line.
    pub(crate) fn wipe(&self) {
        let Some(count) = self.count.get() else {
            return;
        };
        if count.is_shown {
            let _ = self.rt.eprint("\x1b[K");
            self.count.set(Some(Count {
                is_shown: false,
                ..count
            }));
        }
    }

    // Shows a count.
    fn show(&self, count: Count) {
        let Count {
            all,
            done,
            wrong,
            ..
        } = count;
        let _ = if wrong == 0 {
            eprint!(self.rt; "{done} of {all} done\r")
        } else {
            eprint!(self.rt; "{done} of {all} done, {wrong} with errors\r")
        };
    }
}

impl<R: Eprint + Clock> ProgressLine<'_, R> {
    // What `Progress` has.
    pub(crate) fn begin(&self, all: usize) {
        let next = match self.count.get() {
            Some(count) => Some(Count {
                inner: count.inner.saturating_add(1),
                ..count
            }),
            None if self.is_seen && all > 1 => Count::new(self.rt, all),
            None => None,
        };
        self.count.set(next);
    }

    // What `Progress` has.
    pub(crate) fn count(&self, is_wrong: bool) {
        match self.count.get() {
            Some(count) if count.inner == 0 => {
                let count = self.show_if_due(count.with_one(is_wrong));
                self.count.set(Some(count));
            }
            _ => {}
        }
    }

    // What `Progress` has.
    pub(crate) fn end(&self) {
        match self.count.get() {
            Some(count) if count.inner > 0 => self.count.set(Some(Count {
                inner: count.inner - 1,
                ..count
            })),
            _ => {
                self.wipe();
                self.count.set(None);
            }
        }
    }

    // Shows a count if it is due, and gives it with when it is due next.
    fn show_if_due(&self, count: Count) -> Count {
        if !count.is_due(self.rt) {
            return count;
        }
        self.show(count);
        Count {
            due: moment_in(self.rt, NEXT_MILLISECONDS).unwrap_or(count.due),
            is_shown: true,
            ..count
        }
    }
}
