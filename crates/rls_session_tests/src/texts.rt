//! Scripts from text, and answers into text.

ghost use Rattle.std.specs.Prelude.{length};

use crate::passed::Passed;
use rls_session::rls_script::{Failed, RunFault, ScriptIn, ScriptOut};
use rls_session::{Book, Gate, run_threads};
use std::alloc::Global;
use std::sync::Wait;
use std::thread::Threads;
use std::time::Clock;

/// A script that is held in memory.
#[derive(Drop)]
pub struct Source<'a> {
    rest: &'a [u8],
    given: Passed,
    ended: bool,
}

impl<'a> ScriptIn for Source<'a> {
    ghost failures = { λ _. 0 };

    ghost given = { λ it. it.given.bytes };

    ghost ended = { λ it. it.ended };

    fn next_byte(&mut self) -> Result<Option<u8>, Failed> {
        if let [first, behind @ ..] = self.rest {
            self.rest = behind;
            self.given.add(&[*first]);
            return Ok(Some(*first));
        }
        self.ended = true;
        Ok(None)
    }
}

/// Answers that are held in memory. A call that finds none fails.
#[derive(Drop)]
pub struct Sink {
    pub bytes: Vec<u8>,
    failed: Passed,
}

impl ScriptOut for Sink {
    ghost failures = { λ it. length it.failed.bytes };

    ghost taken = { λ it. it.bytes.items };

    fn write_some(&mut self, bytes: &[u8]) -> Result<usize, Failed> {
        match self.bytes.extend_from_slice(bytes) {
            Ok(()) => Ok(bytes.len()),
            Err(_) => {
                self.failed.add(&[0]);
                Err(Failed)
            }
        }
    }
}

/// Runs a script at a gate: its book, and what was written.
pub fn run<R: Threads + Wait + Clock + Sync, G: Gate + Sync>(
    rt: &R,
    alloc: Global,
    script: &str,
    gate: &G,
) -> Result<(Book, Vec<u8>), RunFault> {
    let mut source = Source {
        rest: script.as_bytes(),
        given: Passed::new(),
        ended: false,
    };
    let mut sink = Sink {
        bytes: Vec::new(alloc),
        failed: Passed::new(),
    };
    let book = run_threads(rt, alloc, &mut source, &mut sink, gate)?;
    let Sink { bytes, failed: _ } = sink;
    Ok((book, bytes))
}
