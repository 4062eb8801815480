//! A script, run in phases with a thread for each label.

ghost use Rattle.std.specs.Prelude.{◌≡◌, ◌⊎◌, ◌+◌, ◌<◌, ◌≤◌, length, map, true, false, All, IfOk, OnOk, IsErrOf};
ghost use Rattle.rls_engine.specs.rls_core.specs.Seen.{world_of};
ghost use Rattle.rls_engine.specs.rls_core.specs.Headline.{HaveOrder, AreExplained, NumbersDiffer, AreRecorded, AreAdmitted};
ghost use Rattle.rls_script.specs.Streams.{GrewBy};
ghost use Rattle.rls_script.specs.Spelled.{AsksTexts, IsSpellable};
ghost use Rattle.rls_session.specs.Labels.{opening_script};
ghost use Rattle.rls_session.specs.Parts.{is_keeping, tried_by};
ghost use Rattle.rls_session.specs.Texts.{IsPhasesRun, LeadsTo, RunsInPhases, RunsPhasesKeeping};

use crate::gate::Gate;
use crate::notes::Notes;
use crate::phases::{add_workers, close_workers, run_to_end};
use crate::script::{Ran, TAG, close};
use rls_engine::{Book, Engine, Named, Records};
use rls_script::{MAX_SCRIPT, Plan, RunFault, ScriptIn, ScriptOut, read_plan, read_script};
use std::alloc::Global;
use std::marker::Brand;
use std::sync::Wait;
use std::thread::Threads;
use std::time::Clock;

/// Reads the script whole, then runs its phases one after another: in each phase every label runs its lines on a thread of its own,
/// all are joined, and the answers are written label by label, in the order in which the labels first appear in the script. `Read`
/// comes exactly where the reader failed or the script is over `MAX_SCRIPT` bytes, `Write` exactly where the writer failed. `Ok` is
/// the book of the transactions that committed, with open blocks rolled back. The gate is told of each point that commands come to;
/// where no thread can be made, labels run one after another.
pub fn run_threads<R, I, O, G>(
    rt: &R,
    alloc: Global,
    input: &mut I,
    output: &mut O,
    gate: &G,
) -> Result<Book, RunFault>
where
    R: Threads + Wait + Clock + Sync,
    I: ScriptIn,
    O: ScriptOut,
    G: Gate + Sync,
    ensures text { IfOk result (λ book. RunsInPhases false (I.given input.old) (I.given input.new) (O.taken output.old) (O.taken output.new) book.seen.committed) }
    ensures ordered { IfOk result (λ book. HaveOrder (world_of book.seen)) }
    ensures explained { IfOk result (λ book. AreExplained (world_of book.seen)) }
    ensures numbers { IfOk result (λ book. NumbersDiffer (world_of book.seen)) }
    ensures recorded { IfOk result (λ book. AreRecorded (world_of book.seen)) }
    ensures admitted { IfOk result (λ book. AreAdmitted (world_of book.seen)) }
    ensures spelled { IfOk result (λ book. All (λ it. All IsSpellable it.statements) book.seen.committed) }
    ensures ended { OnOk result (I.ended input.new ≡ true) }
    ensures read { IsErrOf result RunFault.Read → (I.failures input.old < I.failures input.new) ⊎ (length (I.given input.old) + MAX_SCRIPT < length (I.given input.new)) }
    ensures read_failed { I.failures input.old < I.failures input.new → IsErrOf result RunFault.Read }
    ensures too_long { length (I.given input.old) + MAX_SCRIPT < length (I.given input.new) → IsErrOf result RunFault.Read }
    ensures unwritten { IsErrOf result RunFault.Read → O.taken output.new ≡ O.taken output.old }
    ensures write { IsErrOf result RunFault.Write → O.failures output.old < O.failures output.new }
    ensures write_failed { O.failures output.old < O.failures output.new → IsErrOf result RunFault.Write }
    ensures reads { length (I.given input.new) ≤ length (I.given input.old) + MAX_SCRIPT + 1 }
{
    run_threads_telling(rt, alloc, false, input, output, gate)
}

/// The same, where refusals are told tersely or not: told so, a serialization failure names no objects and no transactions.
#[tactic(auto, using(crate::proofs::TextLemmas::ran_keeping_none))]
pub fn run_threads_telling<R, I, O, G>(
    rt: &R,
    alloc: Global,
    terse: bool,
    input: &mut I,
    output: &mut O,
    gate: &G,
) -> Result<Book, RunFault>
where
    R: Threads + Wait + Clock + Sync,
    I: ScriptIn,
    O: ScriptOut,
    G: Gate + Sync,
    ensures text { IfOk result (λ book. RunsInPhases terse (I.given input.old) (I.given input.new) (O.taken output.old) (O.taken output.new) book.seen.committed) }
    ensures ordered { IfOk result (λ book. HaveOrder (world_of book.seen)) }
    ensures explained { IfOk result (λ book. AreExplained (world_of book.seen)) }
    ensures numbers { IfOk result (λ book. NumbersDiffer (world_of book.seen)) }
    ensures recorded { IfOk result (λ book. AreRecorded (world_of book.seen)) }
    ensures admitted { IfOk result (λ book. AreAdmitted (world_of book.seen)) }
    ensures spelled { IfOk result (λ book. All (λ it. All IsSpellable it.statements) book.seen.committed) }
    ensures ended { OnOk result (I.ended input.new ≡ true) }
    ensures read { IsErrOf result RunFault.Read → (I.failures input.old < I.failures input.new) ⊎ (length (I.given input.old) + MAX_SCRIPT < length (I.given input.new)) }
    ensures read_failed { I.failures input.old < I.failures input.new → IsErrOf result RunFault.Read }
    ensures too_long { length (I.given input.old) + MAX_SCRIPT < length (I.given input.new) → IsErrOf result RunFault.Read }
    ensures unwritten { IsErrOf result RunFault.Read → O.taken output.new ≡ O.taken output.old }
    ensures write { IsErrOf result RunFault.Write → O.failures output.old < O.failures output.new }
    ensures write_failed { O.failures output.old < O.failures output.new → IsErrOf result RunFault.Write }
    ensures reads { length (I.given input.new) ≤ length (I.given input.old) + MAX_SCRIPT + 1 }
{
    match run_threads_keeping(rt, alloc, terse, false, input, output, gate) {
        Ok(ran) => {
            let Ran { book, attempts } = ran;
            drop(attempts);
            Ok(book)
        }
        Err(fault) => Err(fault),
    }
}

/// The same. The transactions that end without a commit are kept, if that is wanted, and given as attempts: phase by phase, and in each
/// label by label.
#[tactic(auto, using(crate::proofs::TextLemmas::ran_in_phases))]
pub fn run_threads_keeping<R, I, O, G>(
    rt: &R,
    alloc: Global,
    terse: bool,
    keeps: bool,
    input: &mut I,
    output: &mut O,
    gate: &G,
) -> Result<Ran, RunFault>
where
    R: Threads + Wait + Clock + Sync,
    I: ScriptIn,
    O: ScriptOut,
    G: Gate + Sync,
    ensures text { IfOk result (λ ran. RunsPhasesKeeping terse keeps (I.given input.old) (I.given input.new) (O.taken output.old) (O.taken output.new) ran.book.seen.committed (map tried_by ran.attempts.items)) }
    ensures ordered { IfOk result (λ ran. HaveOrder (world_of ran.book.seen)) }
    ensures explained { IfOk result (λ ran. AreExplained (world_of ran.book.seen)) }
    ensures numbers { IfOk result (λ ran. NumbersDiffer (world_of ran.book.seen)) }
    ensures recorded { IfOk result (λ ran. AreRecorded (world_of ran.book.seen)) }
    ensures admitted { IfOk result (λ ran. AreAdmitted (world_of ran.book.seen)) }
    ensures spelled { IfOk result (λ ran. All (λ it. All IsSpellable it.statements) ran.book.seen.committed) }
    ensures ended { OnOk result (I.ended input.new ≡ true) }
    ensures read { IsErrOf result RunFault.Read → (I.failures input.old < I.failures input.new) ⊎ (length (I.given input.old) + MAX_SCRIPT < length (I.given input.new)) }
    ensures read_failed { I.failures input.old < I.failures input.new → IsErrOf result RunFault.Read }
    ensures too_long { length (I.given input.old) + MAX_SCRIPT < length (I.given input.new) → IsErrOf result RunFault.Read }
    ensures unwritten { IsErrOf result RunFault.Read → O.taken output.new ≡ O.taken output.old }
    ensures write { IsErrOf result RunFault.Write → O.failures output.old < O.failures output.new }
    ensures write_failed { O.failures output.old < O.failures output.new → IsErrOf result RunFault.Write }
    ensures reads { length (I.given input.new) ≤ length (I.given input.old) + MAX_SCRIPT + 1 }
{
    let script = read_script(alloc, input)?;
    let Ok(records) = Records::new(alloc) else {
        drop(script);
        return Err(RunFault::NoMemory);
    };
    run_named::<Brand, R, O, G>(
        rt,
        alloc,
        records,
        terse,
        keeps,
        script.as_slice(),
        output,
        gate,
    )
}

#[tactic(auto, using(crate::proofs::TextLemmas::closed, crate::proofs::ScriptLemmas::fresh_as))]
fn run_named<N, R, O, G>(
    rt: &R,
    alloc: Global,
    records: Records,
    terse: bool,
    keeps: bool,
    script: &[u8],
    output: &mut O,
    gate: &G,
) -> Result<Ran, RunFault>
where
    N: Named + Send + Sync,
    R: Threads + Wait + Clock + Sync,
    O: ScriptOut,
    G: Gate + Sync,
    requires commits { records.commits ≡ N.commits }
    requires steps { records.steps ≡ N.steps }
    requires name { records.blank.name ≡ N.name }
    requires parts { records.blank.parts ≡ N.parts }
    requires texts { AsksTexts N.asks }
    ensures text { IfOk result (λ ran. GrewBy (O.taken output.old) (O.taken output.new) (λ written. IsPhasesRun terse keeps script.now written ran.book.seen.committed (map tried_by ran.attempts.items))) }
    ensures ordered { IfOk result (λ ran. HaveOrder (world_of ran.book.seen)) }
    ensures explained { IfOk result (λ ran. AreExplained (world_of ran.book.seen)) }
    ensures numbers { IfOk result (λ ran. NumbersDiffer (world_of ran.book.seen)) }
    ensures recorded { IfOk result (λ ran. AreRecorded (world_of ran.book.seen)) }
    ensures admitted { IfOk result (λ ran. AreAdmitted (world_of ran.book.seen)) }
    ensures asked { IfOk result (λ ran. All (λ it. All N.asks it.statements) ran.book.seen.committed) }
    ensures read { ¬ IsErrOf result RunFault.Read }
    ensures write { IsErrOf result RunFault.Write → O.failures output.old < O.failures output.new }
    ensures write_failed { O.failures output.old < O.failures output.new → IsErrOf result RunFault.Write }
{
    let plan = read_plan(alloc, script)?;
    let Ok(engine) = Engine::<N>::new(alloc, TAG, records) else {
        drop(plan);
        return Err(RunFault::NoMemory);
    };
    let mut notes = Notes::keeping(alloc, TAG, terse, keeps);
    match run_engine(rt, alloc, &engine, &mut notes, plan, output, gate) {
        Ok(()) => close(alloc, engine, notes),
        Err(fault) => {
            drop(notes);
            drop(engine);
            Err(fault)
        }
    }
}

/// Runs the phases, and then ends every session.
#[tactic(auto, using(crate::proofs::TextLemmas::leads))]
fn run_engine<'a, N, R, O, G>(
    rt: &R,
    alloc: Global,
    engine: &'a Engine<N>,
    notes: &mut Notes<N>,
    plan: Plan<'a>,
    output: &mut O,
    gate: &'a G,
) -> Result<(), RunFault>
where
    N: Named + Send + Sync,
    R: Threads + Wait + Clock + Sync,
    O: ScriptOut,
    G: Gate + Sync,
    requires wide { N.parts ≡ 18446744073709551615 }
    requires texts { AsksTexts N.asks }
    requires fresh { notes.old ≡ (opening_script notes.old.terse (is_keeping notes.old)).notes }
    ensures text { OnOk result (GrewBy (O.taken output.old) (O.taken output.new) (λ written. LeadsTo notes.old.terse (is_keeping notes.old) plan.entry written notes.new)) }
    ensures read { ¬ IsErrOf result RunFault.Read }
    ensures write { IsErrOf result RunFault.Write → O.failures output.old < O.failures output.new }
    ensures write_failed { O.failures output.old < O.failures output.new → IsErrOf result RunFault.Write }
{
    let (names, phases) = plan.into_parts()?;
    let mut workers = Vec::new(alloc);
    match add_workers(alloc, engine, gate, &names, &mut workers) {
        Ok(()) => {
            let ran = run_to_end(
                rt,
                alloc,
                workers.as_mut_slice(),
                notes,
                &names,
                phases.as_slice(),
                output,
            );
            close_workers(rt, workers);
            ran
        }
        Err(fault) => {
            close_workers(rt, workers);
            Err(fault)
        }
    }
}
