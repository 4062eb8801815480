//! The answers to lines, each apart from the others, by runs of a script that marks their ends.

ghost use Rattle.std.specs.Prelude.{◌≡◌, ◌≤◌, [], true, length, map, take, IfOk};
ghost use Rattle.std.specs.List.{All, list_all};
ghost use Rattle.rls_check.specs.rls_audit.specs.Showing.{AreTexts};
ghost use Rattle.rls_session.specs.Scripts.{IsScriptText};
ghost use Rattle.rls_session.specs.rls_script.specs.Streams.{GrewBy};
ghost use Rattle.rls_transcript.specs.Marks as marks;
ghost use Rattle.rls_transcript.specs.Memory.{given_of};
ghost use Rattle.rls_transcript.specs.Told.{ended};
ghost use Rattle.rlsdb.specs.Tests as spec;
ghost use Rattle.rlsdb.specs.Tests.{AreAnswered, AreAnsweredUntil, IsLastRefused};

use crate::held::Held;
use rls_laws::records_are_texts;
use rls_session::rls_script::RunFault;
use rls_session::{Book, run_script_telling};
use rls_transcript::{ScriptText, Told, lines_told, marked, tolds_of};
use std::alloc::Global;
use std::sync::Wait;
use std::time::Clock;

/// What lines are answered, and the book of the transactions that committed.
#[derive(Drop)]
pub struct Answered {
    pub tolds: Vec<Told>,
    pub book: Book,
}

/// Runs the lines in their order on an empty database.
#[tactic(auto, using(crate::proofs::AnsweringLemmas::answered_by))]
pub fn answer_lines<W: Wait + Clock>(
    alloc: Global,
    waits: &W,
    terse: bool,
    lines: &[&[u8]],
) -> Result<Answered, RunFault>
    ensures answered { IfOk result (λ it. AreAnswered terse (map (λ line. line.now) lines.now) it.tolds.items it.book.seen.committed) }
    ensures all { IfOk result (λ it. length it.tolds.items ≡ length lines.now) }
    ensures texts { IfOk result (λ it. All AreTexts it.book.seen.committed) }
{
    let mut held = Held::new(alloc, false);
    match run_marked(alloc, waits, terse, lines, &mut held) {
        Ok(book) => answers_in(alloc, lines, &held, book),
        Err(fault) => Err(fault_of(fault)),
    }
}

/// The same up to the first line that is refused, and whether none is. A run that a refusal stops gives no book: then the lines up to it
/// are run again.
pub fn answer_until_refused<W: Wait + Clock>(
    alloc: Global,
    waits: &W,
    terse: bool,
    lines: &[&[u8]],
) -> Result<(Answered, bool), RunFault>
    ensures answered { IfOk result (λ it. AreAnsweredUntil terse (map (λ line. line.now) lines.now) it.0.tolds.items it.0.book.seen.committed it.1) }
    ensures texts { IfOk result (λ it. All AreTexts it.0.book.seen.committed) }
{
    let mut held = Held::new(alloc, true);
    match run_marked(alloc, waits, terse, lines, &mut held) {
        Ok(book) => all_answers(alloc, lines, &held, book),
        Err(RunFault::Write) if held.is_stopped() => {
            let count = lines_told(alloc, lines, held.bytes.as_slice());
            drop(held);
            answer_first(alloc, waits, terse, lines, count?)
        }
        Err(fault) => Err(fault_of(fault)),
    }
}

/// The answers to so many lines, of which the last is refused.
#[tactic(auto, using(crate::proofs::AnsweringLemmas::until_last))]
fn answer_first<W: Wait + Clock>(
    alloc: Global,
    waits: &W,
    terse: bool,
    lines: &[&[u8]],
    count: usize,
) -> Result<(Answered, bool), RunFault>
    requires { count ≤ length lines.now }
    ensures answered { IfOk result (λ it. AreAnsweredUntil terse (map (λ line. line.now) lines.now) it.0.tolds.items it.0.book.seen.committed it.1) }
    ensures texts { IfOk result (λ it. All AreTexts it.0.book.seen.committed) }
{
    let answered = answer_lines(alloc, waits, terse, &lines[..count])?;
    if is_last_refused(answered.tolds.as_slice()) {
        return Ok((answered, false));
    }
    drop(answered);
    Err(RunFault::Foreign)
}

/// What the lines are answered in what was held of a run that came to its end, where none is refused.
fn all_answers(
    alloc: Global,
    lines: &[&[u8]],
    held: &Held,
    book: Book,
) -> Result<(Answered, bool), RunFault>
    ensures cut { IfOk result (λ it. it.0.tolds.items ≡ spec.cut_at_marks (map (λ line. line.now) lines.now) held.now.bytes.items) }
    ensures book { IfOk result (λ it. it.0.book ≡ book) }
    ensures done { IfOk result (λ it. it.1 ≡ true) }
    ensures none { IfOk result (λ it. spec.none_refused it.0.tolds.items ≡ true) }
{
    let answered = answers_in(alloc, lines, held, book)?;
    if none_refused(answered.tolds.as_slice()) {
        return Ok((answered, true));
    }
    drop(answered);
    Err(RunFault::Foreign)
}

/// What the lines are answered in what was held of a run that came to its end.
fn answers_in(alloc: Global, lines: &[&[u8]], held: &Held, book: Book) -> Result<Answered, RunFault>
    ensures cut { IfOk result (λ it. it.tolds.items ≡ spec.cut_at_marks (map (λ line. line.now) lines.now) held.now.bytes.items) }
    ensures all { IfOk result (λ it. length it.tolds.items ≡ length lines.now) }
    ensures book { IfOk result (λ it. it.book ≡ book) }
{
    match tolds_of(alloc, lines, held.bytes.as_slice()) {
        Ok(tolds) => Ok(Answered { tolds, book }),
        Err(error) => {
            drop(book);
            Err(RunFault::from(error))
        }
    }
}

/// Runs the script of these lines with their marks, and holds what it writes.
#[tactic(auto, using(crate::proofs::AnsweringLemmas::marked_text))]
fn run_marked<W: Wait + Clock>(
    alloc: Global,
    waits: &W,
    terse: bool,
    lines: &[&[u8]],
    held: &mut Held,
) -> Result<Book, RunFault>
    ensures text { IfOk result (λ book. GrewBy held.old.bytes.items held.new.bytes.items (λ written. IsScriptText terse (ended (marks.marked (map (λ line. line.now) lines.now))) written book.seen.committed)) }
    ensures texts { IfOk result (λ book. All AreTexts book.seen.committed) }
{
    let script = marked(alloc, lines)?;
    let mut input = ScriptText::new(script.as_slice());
    let ran = run_text(alloc, waits, terse, &mut input, held);
    if input.script() == script.as_slice() {
        return ran;
    }
    drop(ran);
    Err(RunFault::Foreign)
}

/// Runs the script that the input has.
#[tactic(auto, using(crate::proofs::AnsweringLemmas::text_given, crate::proofs::BookLemmas::texts_of))]
fn run_text<W: Wait + Clock>(
    alloc: Global,
    waits: &W,
    terse: bool,
    input: &mut ScriptText<'_>,
    held: &mut Held,
) -> Result<Book, RunFault>
    requires { given_of input.old.script.now input.old.place ≡ [] }
    ensures text { IfOk result (λ book. GrewBy held.old.bytes.items held.new.bytes.items (λ written. IsScriptText terse input.new.script.now written book.seen.committed)) }
    ensures texts { IfOk result (λ book. All AreTexts book.seen.committed) }
{
    records_are_texts();
    run_script_telling(waits, alloc, terse, input, held)
}

/// That of a run into memory: where it can't write, memory ran out.
fn fault_of(fault: RunFault) -> RunFault {
    match fault {
        RunFault::Write => RunFault::NoMemory,
        fault => fault,
    }
}

/// Whether no answer is a refusal.
fn none_refused(tolds: &[Told]) -> bool
    ensures { result ≡ spec.none_refused tolds.now }
{
    tolds.iter().all(|told| !told.is_refused())
}

/// Whether the last answer is a refusal, and no other.
#[tactic(auto, using(crate::proofs::AnsweringLemmas::last_refused))]
fn is_last_refused(tolds: &[Told]) -> bool
    ensures { result ≡ true → IsLastRefused tolds.now }
{
    match tolds {
        [front @ .., last] => last.is_refused() && none_refused(front),
        [] => false,
    }
}
