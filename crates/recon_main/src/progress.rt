//! Shows the progress on a terminal: a line that is overwritten, and cleared in the end. Depends on the trait of `host`, and
//! on std's clock and standard error.
//!
//! No contract depends on the line: if a write of it fails, or the clock fails, the work goes on. The start of each stage is
//! written, at most six in a run, and counts at most four times a second: so no more than eleven lines are written in a second.

use std::fmt;
use std::fmt::{Display, Formatter};
use std::rt::{Clock, Env};
use std::time::Instant;
use watch::{Stage, Watch};

/// The minimal time between two written counts, in milliseconds.
const PAUSE: u64 = 250;

/// The prefix of a line that replaces the one before.
const CLEAR: &str = "\r\x1b[K";

/// A progress callback that writes to standard error.
#[derive(Drop)]
pub struct Progress<R: Drop> {
    rt: R,
    // when the program began, if lines are written at all
    began: Option<Instant>,
    stage: Stage,
    of: u64,
    // the time in milliseconds after which the next count is written
    due: u64,
    is_shown: bool,
}

/// A number with a comma between thousands.
#[derive(Clone, Copy)]
struct Grouped(u64);

impl Display for Grouped {
    fn fmt<W: fmt::Write>(&self, f: &mut Formatter<W>) -> fmt::Result {
        let (millions, thousands) = (self.0 / 1_000_000, self.0 / 1000 % 1000);
        let ones = self.0 % 1000;
        if millions > 0 {
            write!(f, "{millions},{thousands:03},{ones:03}")
        } else if thousands > 0 {
            write!(f, "{thousands},{ones:03}")
        } else {
            write!(f, "{ones}")
        }
    }
}

/// Returns the name of a stage, as in the line.
fn name_of(stage: Stage) -> &'static str {
    match stage {
        Stage::Cells => "cells",
        Stage::Sights => "sights",
        Stage::Flow => "flow",
        Stage::Rounds => "flow rounds",
        Stage::Surfaces => "surfaces",
        Stage::Answers => "answers",
        Stage::Over => "",
    }
}

/// Returns whether the terminal identifies itself as dumb.
pub fn is_dumb<R: Env>(rt: &R) -> bool {
    let mut word = [0; 8];
    match rt.var("TERM", &mut word) {
        Ok(length) => word.get(..length) == Some(b"dumb".as_slice()),
        Err(_) => false,
    }
}

impl<R: Clock + Eprint + Drop> Progress<R> {
    /// Returns a callback that writes from now on, if standard error is a terminal; else it never writes.
    pub fn new(rt: R, is_seen: bool) -> Self {
        let began = if is_seen {
            Instant::now(&rt).ok()
        } else {
            None
        };
        Progress {
            rt,
            began,
            stage: Stage::Over,
            of: 0,
            due: 0,
            is_shown: false,
        }
    }

    /// Returns the time that has passed in milliseconds, if a line is to be written.
    fn passed(&self) -> Option<u64> {
        let passed = self.began?.elapsed(&self.rt).ok()?;
        let seconds = passed.as_secs().saturating_mul(1000);
        Some(seconds.saturating_add(u64::from(passed.subsec_millis())))
    }

    /// Writes the line of the stage, with its count after this time in milliseconds.
    fn show(&mut self, count: u64, passed: u64) {
        let (name, seconds) = (name_of(self.stage), passed / 1000);
        let (count, of) = (Grouped(count), Grouped(self.of));
        let _ = if self.of == 0 {
            eprint!(self.rt; "{CLEAR}{name} {count} · {seconds} s")
        } else {
            eprint!(self.rt; "{CLEAR}{name} {count} of {of} · {seconds} s")
        };
        self.is_shown = true;
        self.due = passed.saturating_add(PAUSE);
    }

    /// Clears the line.
    fn take_off(&mut self) {
        if self.is_shown {
            let _ = eprint!(self.rt; "{CLEAR}");
            self.is_shown = false;
        }
    }
}

impl<R: Clock + Eprint + Drop> Watch for Progress<R> {
    fn stage(&mut self, stage: Stage, of: u64) {
        self.stage = stage;
        self.of = of;
        if stage == Stage::Over {
            self.take_off();
        } else if let Some(passed) = self.passed() {
            self.show(0, passed);
        }
    }

    fn done(&mut self, count: u64) {
        if let Some(passed) = self.passed() {
            if passed >= self.due {
                self.show(count, passed);
            }
        }
    }
}
