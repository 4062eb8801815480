//! Answers that are held in memory.

ghost use Rattle.std.specs.Prelude.{◌≡◌, [], false, length};

use crate::passed::Passed;
use rls_session::rls_script::{Failed, ScriptOut};
use rls_transcript::{is_mark_text, is_refusal_text};
use std::alloc::Global;

/// What a marked script's run writes. A call that finds no memory fails, and, where a refusal stops the run, the one behind it.
#[derive(Drop)]
pub struct Held {
    pub bytes: Vec<u8>,
    stops: bool,
    stopped: bool,
    // Where the answer begins that is being written.
    begin: usize,
    // A byte for each call that failed.
    failed: Passed,
}

impl Held {
    pub fn new(alloc: Global, stops: bool) -> Held
        ensures fresh { result.bytes.items ≡ [] }
    {
        Held {
            bytes: Vec::new(alloc),
            stops,
            stopped: false,
            begin: 0,
            failed: Passed::new(),
        }
    }

    /// Whether a refusal stopped the run.
    pub fn is_stopped(&self) -> bool {
        self.stopped
    }

    // Whether these bytes end an answer.
    fn is_end(&self, bytes: &[u8]) -> bool {
        self.begin < self.bytes.len() && is_mark_text(bytes)
    }

    // Whether the answer so far is a refusal.
    fn is_refused(&self) -> bool {
        let begin = self.begin;
        begin < self.bytes.len() && is_refusal_text(&self.bytes.as_slice()[begin..])
    }
}

impl ScriptOut for Held {
    ghost failures = { λ held. length held.failed.bytes };

    ghost taken = { λ held. held.bytes.items };

    fn write_some(&mut self, bytes: &[u8]) -> Result<usize, Failed> {
        let is_end = self.is_end(bytes);
        if is_end && self.stops && self.is_refused() {
            self.stopped = true;
            self.failed.add(&[0]);
            return Err(Failed);
        }
        match self.bytes.extend_from_slice(bytes) {
            Ok(()) => {
                if is_end {
                    self.begin = self.bytes.len();
                }
                Ok(bytes.len())
            }
            Err(_) => {
                self.failed.add(&[0]);
                Err(Failed)
            }
        }
    }
}
