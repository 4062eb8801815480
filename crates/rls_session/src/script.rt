//! A script, run line by line.

ghost use Rattle.std.specs.Prelude.{◌≡◌, [], ◌⊎◌, ◌+◌, ◌<◌, ◌≤◌, ◌++◌, length, map, true, false, All, IfOk, OnOk, OnErr, IsErrOf};
ghost use Rattle.rls_engine.specs.rls_core.specs.Seen.{world_of};
ghost use Rattle.rls_engine.specs.rls_core.specs.Headline.{HaveOrder, AreExplained, NumbersDiffer, AreRecorded, AreAdmitted};
ghost use Rattle.rls_engine.specs.Led.{IsLed};
ghost use Rattle.rls_script.specs.Rendering.{answer_text};
ghost use Rattle.rls_script.specs.Streams.{GrewBy};
ghost use Rattle.rls_script.specs.Spelled.{AsksTexts, IsSpellable};
ghost use Rattle.rls_session.specs.Books.{AreTheRecords, AreTried};
ghost use Rattle.rls_session.specs.Parts.{is_keeping, tried_by};
ghost use Rattle.rls_session.specs.Labels.{opening_script};
ghost use Rattle.rls_session.specs.Scripts.{IsScriptRun, LeadsTo, RunsLinesTo, RunsRead, RunsScript, RunsScriptKeeping};

use crate::labels::Labels;
use crate::notes::Notes;
use crate::tried::Attempted;
use rls_engine::rls_core::{core_rules_are_safe, events_keep};
use rls_engine::{Book, Engine, Named, Records};
use rls_script::{
    Answer, Line, MAX_SCRIPT, RunFault, ScriptIn, ScriptOut, first_line, read_line, read_script,
    write_answer,
};
use rls_value::Refusal;
use std::alloc::Global;
use std::marker::{Brand, Model};
use std::sync::Wait;
use std::time::Clock;

/// What a run comes to: the book of the transactions that committed, and those that ended without a commit, where they are kept.
#[derive(Drop)]
pub struct Ran {
    pub book: Book,
    pub attempts: Vec<Attempted>,
}

/// The tag of a run's engine.
pub(crate) const TAG: u64 = 1;

/// Reads the script whole, then runs its lines in their order and writes each answer. `Read` comes exactly where the reader failed
/// or the script is over `MAX_SCRIPT` bytes, `Write` exactly where the writer failed. `Ok` is the book of the transactions that
/// committed, with open blocks rolled back.
pub fn run_script<R: Wait + Clock, I: ScriptIn, O: ScriptOut>(
    rt: &R,
    alloc: Global,
    input: &mut I,
    output: &mut O,
) -> Result<Book, RunFault>
    ensures text { IfOk result (λ book. RunsScript false (I.given input.old) (I.given input.new) (O.taken output.old) (O.taken output.new) book.seen.committed) }
    ensures ordered { IfOk result (λ book. HaveOrder (world_of book.seen)) }
    ensures explained { IfOk result (λ book. AreExplained (world_of book.seen)) }
    ensures numbers { IfOk result (λ book. NumbersDiffer (world_of book.seen)) }
    ensures recorded { IfOk result (λ book. AreRecorded (world_of book.seen)) }
    ensures admitted { IfOk result (λ book. AreAdmitted (world_of book.seen)) }
    ensures spelled { IfOk result (λ book. All (λ it. All IsSpellable it.statements) book.seen.committed) }
    ensures ended { OnOk result (I.ended input.new ≡ true) }
    ensures read { IsErrOf result RunFault.Read → (I.failures input.old < I.failures input.new) ⊎ (length (I.given input.old) + MAX_SCRIPT < length (I.given input.new)) }
    ensures read_failed { I.failures input.old < I.failures input.new → IsErrOf result RunFault.Read }
    ensures too_long { length (I.given input.old) + MAX_SCRIPT < length (I.given input.new) → IsErrOf result RunFault.Read }
    ensures unwritten { IsErrOf result RunFault.Read → O.taken output.new ≡ O.taken output.old }
    ensures write { IsErrOf result RunFault.Write → O.failures output.old < O.failures output.new }
    ensures write_failed { O.failures output.old < O.failures output.new → IsErrOf result RunFault.Write }
    ensures reads { length (I.given input.new) ≤ length (I.given input.old) + MAX_SCRIPT + 1 }
{
    run_script_telling(rt, alloc, false, input, output)
}

/// The same, where refusals are told tersely or not: told so, a serialization failure names no objects and no transactions.
#[tactic(auto, using(crate::proofs::ScriptLemmas::ran_keeping_none))]
pub fn run_script_telling<R: Wait + Clock, I: ScriptIn, O: ScriptOut>(
    rt: &R,
    alloc: Global,
    terse: bool,
    input: &mut I,
    output: &mut O,
) -> Result<Book, RunFault>
    ensures text { IfOk result (λ book. RunsScript terse (I.given input.old) (I.given input.new) (O.taken output.old) (O.taken output.new) book.seen.committed) }
    ensures ordered { IfOk result (λ book. HaveOrder (world_of book.seen)) }
    ensures explained { IfOk result (λ book. AreExplained (world_of book.seen)) }
    ensures numbers { IfOk result (λ book. NumbersDiffer (world_of book.seen)) }
    ensures recorded { IfOk result (λ book. AreRecorded (world_of book.seen)) }
    ensures admitted { IfOk result (λ book. AreAdmitted (world_of book.seen)) }
    ensures spelled { IfOk result (λ book. All (λ it. All IsSpellable it.statements) book.seen.committed) }
    ensures ended { OnOk result (I.ended input.new ≡ true) }
    ensures read { IsErrOf result RunFault.Read → (I.failures input.old < I.failures input.new) ⊎ (length (I.given input.old) + MAX_SCRIPT < length (I.given input.new)) }
    ensures read_failed { I.failures input.old < I.failures input.new → IsErrOf result RunFault.Read }
    ensures too_long { length (I.given input.old) + MAX_SCRIPT < length (I.given input.new) → IsErrOf result RunFault.Read }
    ensures unwritten { IsErrOf result RunFault.Read → O.taken output.new ≡ O.taken output.old }
    ensures write { IsErrOf result RunFault.Write → O.failures output.old < O.failures output.new }
    ensures write_failed { O.failures output.old < O.failures output.new → IsErrOf result RunFault.Write }
    ensures reads { length (I.given input.new) ≤ length (I.given input.old) + MAX_SCRIPT + 1 }
{
    match run_script_keeping(rt, alloc, terse, false, input, output) {
        Ok(ran) => {
            let Ran { book, attempts } = ran;
            drop(attempts);
            Ok(book)
        }
        Err(fault) => Err(fault),
    }
}

/// The same. The transactions that end without a commit are kept, if that is wanted, and given as attempts: in the order of their ends.
#[tactic(auto, using(crate::proofs::ScriptLemmas::ran_script))]
pub fn run_script_keeping<R: Wait + Clock, I: ScriptIn, O: ScriptOut>(
    rt: &R,
    alloc: Global,
    terse: bool,
    keeps: bool,
    input: &mut I,
    output: &mut O,
) -> Result<Ran, RunFault>
    ensures text { IfOk result (λ ran. RunsScriptKeeping terse keeps (I.given input.old) (I.given input.new) (O.taken output.old) (O.taken output.new) ran.book.seen.committed (map tried_by ran.attempts.items)) }
    ensures ordered { IfOk result (λ ran. HaveOrder (world_of ran.book.seen)) }
    ensures explained { IfOk result (λ ran. AreExplained (world_of ran.book.seen)) }
    ensures numbers { IfOk result (λ ran. NumbersDiffer (world_of ran.book.seen)) }
    ensures recorded { IfOk result (λ ran. AreRecorded (world_of ran.book.seen)) }
    ensures admitted { IfOk result (λ ran. AreAdmitted (world_of ran.book.seen)) }
    ensures spelled { IfOk result (λ ran. All (λ it. All IsSpellable it.statements) ran.book.seen.committed) }
    ensures ended { OnOk result (I.ended input.new ≡ true) }
    ensures read { IsErrOf result RunFault.Read → (I.failures input.old < I.failures input.new) ⊎ (length (I.given input.old) + MAX_SCRIPT < length (I.given input.new)) }
    ensures read_failed { I.failures input.old < I.failures input.new → IsErrOf result RunFault.Read }
    ensures too_long { length (I.given input.old) + MAX_SCRIPT < length (I.given input.new) → IsErrOf result RunFault.Read }
    ensures unwritten { IsErrOf result RunFault.Read → O.taken output.new ≡ O.taken output.old }
    ensures write { IsErrOf result RunFault.Write → O.failures output.old < O.failures output.new }
    ensures write_failed { O.failures output.old < O.failures output.new → IsErrOf result RunFault.Write }
    ensures reads { length (I.given input.new) ≤ length (I.given input.old) + MAX_SCRIPT + 1 }
{
    let script = read_script(alloc, input)?;
    let Ok(records) = Records::new(alloc) else {
        drop(script);
        return Err(RunFault::NoMemory);
    };
    run_named::<Brand, R, O>(rt, alloc, records, terse, keeps, script.as_slice(), output)
}

#[tactic(auto, using(crate::proofs::ScriptLemmas::fresh_as))]
fn run_named<N: Named, R: Wait + Clock, O: ScriptOut>(
    rt: &R,
    alloc: Global,
    records: Records,
    terse: bool,
    keeps: bool,
    script: &[u8],
    output: &mut O,
) -> Result<Ran, RunFault>
    requires commits { records.commits ≡ N.commits }
    requires steps { records.steps ≡ N.steps }
    requires name { records.blank.name ≡ N.name }
    requires parts { records.blank.parts ≡ N.parts }
    requires texts { AsksTexts N.asks }
    ensures text { IfOk result (λ ran. GrewBy (O.taken output.old) (O.taken output.new) (λ written. IsScriptRun terse keeps script.now written ran.book.seen.committed (map tried_by ran.attempts.items))) }
    ensures ordered { IfOk result (λ ran. HaveOrder (world_of ran.book.seen)) }
    ensures explained { IfOk result (λ ran. AreExplained (world_of ran.book.seen)) }
    ensures numbers { IfOk result (λ ran. NumbersDiffer (world_of ran.book.seen)) }
    ensures recorded { IfOk result (λ ran. AreRecorded (world_of ran.book.seen)) }
    ensures admitted { IfOk result (λ ran. AreAdmitted (world_of ran.book.seen)) }
    ensures asked { IfOk result (λ ran. All (λ it. All N.asks it.statements) ran.book.seen.committed) }
    ensures read { ¬ IsErrOf result RunFault.Read }
    ensures write { IsErrOf result RunFault.Write → O.failures output.old < O.failures output.new }
    ensures write_failed { O.failures output.old < O.failures output.new → IsErrOf result RunFault.Write }
{
    let Ok(engine) = Engine::<N>::new(alloc, TAG, records) else {
        return Err(RunFault::NoMemory);
    };
    let mut notes = Notes::keeping(alloc, TAG, terse, keeps);
    match run_engine(rt, alloc, &engine, &mut notes, script, output) {
        Ok(()) => close(alloc, engine, notes),
        Err(fault) => {
            drop(notes);
            drop(engine);
            Err(fault)
        }
    }
}

/// Ends the engine. Its book has the records of the transactions that were shown as committed, and no others: any other book is
/// `Foreign`.
pub(crate) fn close<N: Named>(
    alloc: Global,
    engine: Engine<N>,
    notes: Notes<N>,
) -> Result<Ran, RunFault>
    ensures records { IfOk result (λ ran. AreTheRecords ran.book.seen.committed notes.shown) }
    ensures tried { IfOk result (λ ran. AreTried ran.book.seen.committed notes (map tried_by ran.attempts.items)) }
    ensures ordered { IfOk result (λ ran. HaveOrder (world_of ran.book.seen)) }
    ensures explained { IfOk result (λ ran. AreExplained (world_of ran.book.seen)) }
    ensures numbers { IfOk result (λ ran. NumbersDiffer (world_of ran.book.seen)) }
    ensures recorded { IfOk result (λ ran. AreRecorded (world_of ran.book.seen)) }
    ensures admitted { IfOk result (λ ran. AreAdmitted (world_of ran.book.seen)) }
    ensures asked { IfOk result (λ ran. All (λ it. All N.asks it.statements) ran.book.seen.committed) }
    ensures read { ¬ IsErrOf result RunFault.Read }
    ensures write { ¬ IsErrOf result RunFault.Write }
{
    match engine.close(notes.seen()) {
        Ok(book) => {
            if notes.are_all(alloc, &book)? {
                keeps::<N>(&book);
                match notes.into_attempts(alloc, &book) {
                    Ok(attempts) => Ok(Ran { book, attempts }),
                    Err(fault) => {
                        drop(book);
                        Err(fault)
                    }
                }
            } else {
                drop(notes);
                drop(book);
                Err(RunFault::Foreign)
            }
        }
        Err((engine, refusal)) => {
            drop(notes);
            drop(engine);
            Err(RunFault::of(refusal))
        }
    }
}

/// What events that post what is asked so lead to.
fn keeps<N: Named>(book: &Book)
    requires { IsLed N.asks book.now.seen }
    ensures numbers { NumbersDiffer (world_of book.now.seen) }
    ensures recorded { AreRecorded (world_of book.now.seen) }
    ensures admitted { AreAdmitted (world_of book.now.seen) }
    ensures asked { All (λ it. All N.asks it.statements) book.now.seen.committed }
{
    core_rules_are_safe();
    events_keep();
}

/// Runs the lines, and then ends every session.
fn run_engine<N: Named, R: Wait + Clock, O: ScriptOut>(
    rt: &R,
    alloc: Global,
    engine: &Engine<N>,
    notes: &mut Notes<N>,
    script: &[u8],
    output: &mut O,
) -> Result<(), RunFault>
    requires wide { N.parts ≡ 18446744073709551615 }
    requires texts { AsksTexts N.asks }
    requires fresh { notes.old ≡ (opening_script notes.old.terse (is_keeping notes.old)).notes }
    ensures text { OnOk result (GrewBy (O.taken output.old) (O.taken output.new) (λ written. LeadsTo notes.old.terse (is_keeping notes.old) script.now written notes.new)) }
    ensures read { ¬ IsErrOf result RunFault.Read }
    ensures write { IsErrOf result RunFault.Write → O.failures output.old < O.failures output.new }
    ensures write_failed { O.failures output.old < O.failures output.new → IsErrOf result RunFault.Write }
{
    let mut labels = Labels::new(alloc, engine);
    let ran = run_to_end(rt, alloc, &mut labels, notes, script, output);
    labels.close(rt);
    ran
}

/// Runs the lines, and ends the open blocks.
#[tactic(auto, using(crate::proofs::ScriptLemmas::lines_ended))]
fn run_to_end<N: Named, R: Wait + Clock, O: ScriptOut>(
    rt: &R,
    alloc: Global,
    labels: &mut Labels<'_, N>,
    notes: &mut Notes<N>,
    script: &[u8],
    output: &mut O,
) -> Result<(), RunFault>
    requires wide { N.parts ≡ 18446744073709551615 }
    requires texts { AsksTexts N.asks }
    requires fresh { (labels.old ≡ []) × (notes.old ≡ (opening_script notes.old.terse (is_keeping notes.old)).notes) }
    ensures text { OnOk result (GrewBy (O.taken output.old) (O.taken output.new) (λ written. LeadsTo notes.old.terse (is_keeping notes.old) script.now written notes.new)) }
    ensures read { ¬ IsErrOf result RunFault.Read }
    ensures write { IsErrOf result RunFault.Write → O.failures output.old < O.failures output.new }
    ensures write_failed { O.failures output.old < O.failures output.new → IsErrOf result RunFault.Write }
{
    match run_lines(rt, alloc, labels, notes, script, output) {
        Ok(()) => match labels.end(rt, notes) {
            Ok(()) => Ok(()),
            Err(fault) => Err(fault),
        },
        Err(fault) => Err(fault),
    }
}

fn run_lines<N: Named, R: Wait + Clock, O: ScriptOut>(
    rt: &R,
    alloc: Global,
    labels: &mut Labels<'_, N>,
    notes: &mut Notes<N>,
    script: &[u8],
    output: &mut O,
) -> Result<(), RunFault>
    requires wide { N.parts ≡ 18446744073709551615 }
    requires texts { AsksTexts N.asks }
    requires fresh { (labels.old ≡ []) × (notes.old ≡ (opening_script notes.old.terse (is_keeping notes.old)).notes) }
    ensures text { OnOk result (GrewBy (O.taken output.old) (O.taken output.new) (λ written. RunsLinesTo notes.old.terse (is_keeping notes.old) script.now written record { labels = labels.new; notes = notes.new })) }
    ensures read { ¬ IsErrOf result RunFault.Read }
    ensures write { IsErrOf result RunFault.Write → O.failures output.old < O.failures output.new }
    ensures write_failed { O.failures output.old < O.failures output.new → IsErrOf result RunFault.Write }
{
    let mut rest = script;
    while !rest.is_empty() {
        let (line, behind) = first_line(rest);
        run_line(rt, alloc, labels, notes, read_line(line), output)?;
        rest = behind;
    }
    Ok(())
}

#[tactic(auto, using(crate::proofs::ScriptLemmas::said))]
fn run_line<N: Named, R: Wait + Clock, O: ScriptOut>(
    rt: &R,
    alloc: Global,
    labels: &mut Labels<'_, N>,
    notes: &mut Notes<N>,
    line: Line<'_>,
    output: &mut O,
) -> Result<(), RunFault>
    requires wide { N.parts ≡ 18446744073709551615 }
    requires texts { AsksTexts N.asks }
    ensures text { OnOk result (GrewBy (O.taken output.old) (O.taken output.new) (λ written. RunsRead line.entry record { labels = labels.old; notes = notes.old } written record { labels = labels.new; notes = notes.new })) }
    ensures ok { OnOk result (O.failures output.new ≡ O.failures output.old) }
    ensures read { ¬ IsErrOf result RunFault.Read }
    ensures write { IsErrOf result RunFault.Write → O.failures output.old < O.failures output.new }
    ensures write_failed { O.failures output.old < O.failures output.new → IsErrOf result RunFault.Write }
{
    let terse = notes.is_terse();
    match line {
        Line::Skipped | Line::Phase => Ok(()),
        Line::Command { label, command } => match labels.answer(rt, alloc, notes, label, command) {
            Ok(answer) => {
                notes.tell_by(alloc, &answer)?;
                write_answer(alloc, terse, label, answer, output)
            }
            Err(fault) => Err(fault),
        },
        Line::Unlabelled => {
            write_answer(alloc, false, "?", Answer::Refused(Refusal::Syntax), output)
        }
    }
}
