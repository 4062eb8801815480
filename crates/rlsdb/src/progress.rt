//! How far long work has come, told on a terminal.

ghost use Rattle.std.specs.Prelude.{◌≡◌, ◌≤◌, false, string_bytes, IfOk};
ghost use Rattle.rlsdb.specs.Progress.{progress_text};

use rls_check::Progress;
use std::alloc::{AllocError, Global};
use std::io::IsTerminal;
use std::time::Instant;

// In milliseconds. Work that takes less tells nothing.
const FIRST: u128 = 2_000;

// The line is written at most twice a second.
const PAUSE: u128 = 500;

// Most transactions take some ten microseconds, and a reading of the clock takes a small part of that. So it is read at each call
// only if calls come slowly: as long as those between two readings take less than this, there are twice as many the next time.
const BRIEF: u128 = 50;

// But so many at most: if calls become slow, the line is late by so many of them.
const MOST_CALLS: u32 = 64;

/// A line on standard error that says how many transactions are done. It is written only to a terminal, after two seconds, and each
/// time in the place of the one before.
#[derive(Drop)]
pub struct ProgressLine<'r> {
    rt: &'r HostRuntime,
    // When the work began; none where nothing is told.
    began: Option<Instant>,
    // What is done to transactions, and how many there are.
    word: &'static str,
    all: usize,
    // How many milliseconds after the begin the clock was read last, and when the line is to be written next.
    read: u128,
    next: u128,
    // The clock is read once in so many calls, and so many are still to come before the next reading.
    stride: u32,
    calls: u32,
    // The line stands on the terminal.
    stands: bool,
}

impl<'r> ProgressLine<'r> {
    /// For work that writes its answers afterwards, or to a file.
    pub fn new(rt: &'r HostRuntime) -> ProgressLine<'r>
        ensures { result.stands ≡ false }
    {
        if rt.stderr().is_terminal() {
            ProgressLine::starting(rt, Instant::now(rt).ok())
        } else {
            ProgressLine::silent(rt)
        }
    }

    /// For work that writes answers to standard output meanwhile. On a terminal they would get into the line, so there it isn't written.
    pub fn beside_answers(rt: &'r HostRuntime) -> ProgressLine<'r>
        ensures { result.stands ≡ false }
    {
        if rt.stdout().is_terminal() {
            ProgressLine::silent(rt)
        } else {
            ProgressLine::new(rt)
        }
    }

    /// For work that tells nothing.
    pub fn silent(rt: &'r HostRuntime) -> ProgressLine<'r>
        ensures { result.stands ≡ false }
    {
        ProgressLine::starting(rt, None)
    }

    fn starting(rt: &'r HostRuntime, began: Option<Instant>) -> ProgressLine<'r>
        ensures { result.stands ≡ false }
    {
        ProgressLine {
            rt,
            began,
            word: "",
            all: 0,
            read: 0,
            next: FIRST,
            stride: 1,
            calls: 0,
            stands: false,
        }
    }

    /// From now on so many transactions are checked, counted, shown or written, as the word says.
    pub fn begin(&mut self, word: &'static str, all: usize)
        ensures { self.new.stands ≡ self.old.stands }
    {
        self.word = word;
        self.all = all;
    }

    /// Erases the line.
    pub fn wipe(&mut self)
        ensures { self.new.stands ≡ false }
    {
        if self.stands {
            let _ = eprint!(self.rt; "\r\x1b[K");
            self.stands = false;
        }
    }

    // Whether the line is to be written now.
    fn is_due(&mut self, began: Instant) -> bool {
        if self.calls > 0 {
            self.calls -= 1;
            return false;
        }
        let Ok(passed) = began.elapsed(self.rt) else {
            return false;
        };
        let passed = passed.as_millis();
        self.stride = stride_behind(self.stride, passed.saturating_sub(self.read));
        self.calls = self.stride.saturating_sub(1);
        self.read = passed;
        if passed < self.next {
            return false;
        }
        self.next = passed.saturating_add(PAUSE);
        true
    }

    // Where memory doesn't suffice, or the terminal takes nothing, the work goes on untold.
    fn write(&mut self, done: usize) {
        if let Ok(text) = line_text(self.rt.alloc(), done, self.all, self.word) {
            self.stands = true;
            let _ = eprint!(self.rt; "\r{text}\x1b[K");
        }
    }
}

impl Progress for ProgressLine<'_> {
    fn done(&mut self, transactions: usize) {
        if let Some(began) = self.began {
            if self.is_due(began) {
                self.write(transactions);
            }
        }
    }
}

/// The text of the line.
fn line_text(alloc: Global, done: usize, all: usize, word: &str) -> Result<String, AllocError>
    ensures { IfOk result (λ text. string_bytes text ≡ progress_text done all word.now) }
{
    format!(in alloc; "rlsdb: {done} of {all} transactions {word}")
}

/// Once in how many calls the clock is to be read, if the last so many took so long.
fn stride_behind(stride: u32, took: u128) -> u32
    ensures slow { 50 ≤ took → result ≡ 1 }
    ensures most { result ≤ 64 }
{
    if took >= BRIEF {
        1
    } else if stride < 32 {
        stride * 2
    } else {
        MOST_CALLS
    }
}
