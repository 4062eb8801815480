//! What is wrong with a line of an audit that is bad.

ghost use Rattle.std.specs.Prelude.{◌≡◌, false, option_map};
ghost use Rattle.rlsdb.specs.Flaws as spec;
ghost use Rattle.rlsdb.specs.Flaws.{IsFlaw};

use crate::device::begins_with_mark;
use rls_check::rls_audit::{First, Second, read_line};
use rls_check::rls_guard::rls_catalog::rls_value::Refusal;
use std::alloc::Global;
use std::str;

/// What is wrong with a line of an audit that is bad.
#[derive(Clone, Copy)]
pub enum Flaw {
    /// Memory doesn't suffice to say.
    Unsaid,
    /// Its first bytes are a byte order mark.
    Marked,
    NotUtf8,
    /// It is the first one, and says no format.
    NoHead,
    /// It is none in either format.
    NoLine,
    /// It is one, and can't stand at this place.
    Misplaced,
    /// It is the one behind the end, and the last line is missing.
    NoEnd,
    /// It is none of a file of attempts.
    NoAttempt,
}

impl Flaw {
    /// In words.
    pub fn text(self) -> Option<&'static str>
        ensures { option_map (λ text. text.now) result ≡ spec.flaw_text self }
    {
        match self {
            Flaw::Unsaid => None,
            Flaw::Marked => Some("a byte order mark; save the file as UTF-8 without one"),
            Flaw::NotUtf8 => Some("not UTF-8"),
            Flaw::NoHead => Some("not the head of an audit in format 1 or 2"),
            Flaw::NoLine => Some("its JSON, a key, a value or a statement is wrong"),
            Flaw::Misplaced => Some(
                "out of place: its format, txn, commit, snap or end is wrong, or the audit ended before",
            ),
            Flaw::NoEnd => Some("missing: an audit ends with its serial order"),
            Flaw::NoAttempt => Some(
                "no line of attempts: its JSON, a key, a value or a statement is wrong, or its snap is above the commits of AUDIT",
            ),
        }
    }
}

/// What is wrong with the bad line with this number.
pub fn flaw_of(alloc: Global, number: u64, line: &[u8]) -> Flaw
    ensures { IsFlaw number line.now result }
{
    if begins_with_mark(line) {
        return Flaw::Marked;
    }
    let Ok(text) = str::from_utf8(line) else {
        return Flaw::NotUtf8;
    };
    match is_line(alloc, number, text) {
        None => Flaw::Unsaid,
        Some(_) if number == 1 => Flaw::NoHead,
        Some(true) => Flaw::Misplaced,
        Some(false) => Flaw::NoLine,
    }
}

/// Whether the text is a line in some format, where memory suffices to say.
#[tactic(auto, using(crate::proofs::FlawLemmas::in_either))]
fn is_line(alloc: Global, number: u64, text: &str) -> Option<bool>
    ensures { spec.SaysWhetherLine text.now result }
{
    match read_line::<Second>(alloc, number, text) {
        Ok(line) => {
            drop(line);
            Some(true)
        }
        Err(Refusal::BadAudit(_)) => is_old_line(alloc, number, text),
        Err(refusal) => {
            drop(refusal);
            None
        }
    }
}

/// The same in the first format.
#[tactic(auto, using(crate::proofs::FlawLemmas::bad_is_none))]
fn is_old_line(alloc: Global, number: u64, text: &str) -> Option<bool>
    ensures { spec.SaysWhether false text.now result }
{
    match read_line::<First>(alloc, number, text) {
        Ok(line) => {
            drop(line);
            Some(true)
        }
        Err(Refusal::BadAudit(_)) => Some(false),
        Err(refusal) => {
            drop(refusal);
            None
        }
    }
}
