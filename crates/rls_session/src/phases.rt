//! Phases, with a thread for each label.

ghost use Rattle.std.specs.Prelude.{◌≡◌, ℕ, ◌<◌, ◌≤◌, ◌++◌, ◌∷◌, [], false, length, map, min, OnOk, IfOk, IsErrOf, slice_index_or};
ghost use Rattle.std.specs.List.{filter};
ghost use Rattle.rls_script.specs.Streams.{GrewBy};
ghost use Rattle.rls_script.specs.Plans.{place_in};
ghost use Rattle.rls_script.specs.Spelled.{AsksTexts};
ghost use Rattle.rls_session.specs.Labels.{ended_all, opening_script};
ghost use Rattle.rls_session.specs.Parts.{is_keeping};
ghost use Rattle.rls_session.specs.Phases.{AreLate, Passes, RunsPhases, is_late, late_text, notes_after, opening_seats, sessions_at, texts_of};
ghost use Rattle.rls_session.specs.Texts.{EndsPhases};
ghost use Rattle.rls_session.specs.Works.{IsRan, Work, entered, finished, tracks_of, work_seats};

use crate::gate::Gate;
use crate::notes::Notes;
use crate::worker::Worker;
use large_stack::{Stack, for_each_mut};
use rls_engine::{Engine, Named};
use rls_script::{Answer, Names, RunFault, ScriptOut, Standing, Task, write_answer};
use std::alloc::Global;
use std::sync::Wait;
use std::thread::Threads;
use std::time::Clock;

/// The labels that can have a thread: 64 with sessions, and `?`.
const SEATS: usize = 65;

/// The stacks that a label's thread asks for. Statements go as deep as policies lead from table to table: the first holds each
/// script, the last a chain of 100 tables, whatever their policies are. Where a limit of addresses leaves no room for the larger
/// ones, the smaller ones leave some to the statements.
const STACKS: [Stack; 4] = [
    Stack {
        size: 1 << 31,
        room: 1 << 31,
    },
    Stack {
        size: 1 << 28,
        room: 1 << 28,
    },
    Stack {
        size: 1 << 25,
        room: 1 << 28,
    },
    Stack {
        size: 1 << 23,
        room: 1 << 26,
    },
];

/// A place for each label that can have a thread.
pub(crate) fn add_workers<'a, N: Named, G: Gate>(
    alloc: Global,
    engine: &'a Engine<N>,
    gate: &'a G,
    names: &Names<'a>,
    workers: &mut Vec<Worker<'a, N, G>>,
) -> Result<(), RunFault>
    requires { workers.old.items ≡ [] }
    ensures ok { OnOk result (work_seats workers.new.items ≡ opening_seats names.now (min (length names.now) 65)) }
    ensures read { ¬ IsErrOf result RunFault.Read }
    ensures write { ¬ IsErrOf result RunFault.Write }
{
    let Ok(()) = workers.reserve(SEATS) else {
        return Err(RunFault::NoMemory);
    };
    let unlabelled = names.find("?");
    let list = names.as_slice();
    for place in 0..list.len().min(SEATS) {
        workers.push_reserved(Worker::new(alloc, engine, gate, place, list[place], unlabelled));
    }
    Ok(())
}

/// Runs the phases from the opening on, and ends the open blocks.
#[tactic(auto, using(crate::proofs::TextLemmas::phases_ended))]
pub(crate) fn run_to_end<N, R, G, O>(
    rt: &R,
    alloc: Global,
    workers: &mut [Worker<'_, N, G>],
    notes: &mut Notes<N>,
    names: &Names<'_>,
    phases: &[Vec<Task<'_>>],
    output: &mut O,
) -> Result<(), RunFault>
where
    N: Named + Send + Sync,
    R: Threads + Wait + Clock + Sync,
    G: Gate + Sync,
    O: ScriptOut,
    requires wide { N.parts ≡ 18446744073709551615 }
    requires texts { AsksTexts N.asks }
    requires seats { work_seats workers.old ≡ opening_seats names.now (min (length names.now) 65) }
    requires fresh { notes.old ≡ (opening_script notes.old.terse (is_keeping notes.old)).notes }
    ensures text { OnOk result (GrewBy (O.taken output.old) (O.taken output.new) (λ written. EndsPhases notes.old.terse (is_keeping notes.old) names.now (map (λ phase. phase.items) phases.now) written notes.new)) }
    ensures read { ¬ IsErrOf result RunFault.Read }
    ensures write { IsErrOf result RunFault.Write → O.failures output.old < O.failures output.new }
    ensures write_failed { O.failures output.old < O.failures output.new → IsErrOf result RunFault.Write }
{
    match run_phases(rt, alloc, workers, notes, names, phases, output) {
        Ok(()) => match end_workers(rt, workers, notes) {
            Ok(()) => Ok(()),
            Err(fault) => Err(fault),
        },
        Err(fault) => Err(fault),
    }
}

/// Runs the phases from the opening on.
fn run_phases<N, R, G, O>(
    rt: &R,
    alloc: Global,
    workers: &mut [Worker<'_, N, G>],
    notes: &mut Notes<N>,
    names: &Names<'_>,
    phases: &[Vec<Task<'_>>],
    output: &mut O,
) -> Result<(), RunFault>
where
    N: Named + Send + Sync,
    R: Threads + Wait + Clock + Sync,
    G: Gate + Sync,
    O: ScriptOut,
    requires wide { N.parts ≡ 18446744073709551615 }
    requires texts { AsksTexts N.asks }
    requires seats { work_seats workers.old ≡ opening_seats names.now (min (length names.now) 65) }
    requires fresh { notes.old ≡ (opening_script notes.old.terse (is_keeping notes.old)).notes }
    ensures text { OnOk result (GrewBy (O.taken output.old) (O.taken output.new) (λ written. RunsPhases notes.old.terse (is_keeping notes.old) names.now (map (λ phase. phase.items) phases.now) written record { seats = work_seats workers.new; notes = notes.new })) }
    ensures read { ¬ IsErrOf result RunFault.Read }
    ensures write { IsErrOf result RunFault.Write → O.failures output.old < O.failures output.new }
    ensures write_failed { O.failures output.old < O.failures output.new → IsErrOf result RunFault.Write }
{
    for tasks in phases {
        run_phase(rt, alloc, workers, notes, names, tasks.as_slice(), output)?;
    }
    Ok(())
}

/// Runs a phase: each label's lines on a thread of its own, and then writes what there is.
fn run_phase<N, R, G, O>(
    rt: &R,
    alloc: Global,
    workers: &mut [Worker<'_, N, G>],
    notes: &mut Notes<N>,
    names: &Names<'_>,
    tasks: &[Task<'_>],
    output: &mut O,
) -> Result<(), RunFault>
where
    N: Named + Send + Sync,
    R: Threads + Wait + Clock + Sync,
    G: Gate + Sync,
    O: ScriptOut,
    requires wide { N.parts ≡ 18446744073709551615 }
    requires texts { AsksTexts N.asks }
    ensures text { OnOk result (GrewBy (O.taken output.old) (O.taken output.new) (λ written. Passes names.now record { seats = work_seats workers.old; notes = notes.old } tasks.now written record { seats = work_seats workers.new; notes = notes.new })) }
    ensures ok { OnOk result (O.failures output.new ≡ O.failures output.old) }
    ensures read { ¬ IsErrOf result RunFault.Read }
    ensures write { IsErrOf result RunFault.Write → O.failures output.old < O.failures output.new }
    ensures write_failed { O.failures output.old < O.failures output.new → IsErrOf result RunFault.Write }
{
    enter_all(workers, notes);
    run_all(rt, alloc, workers, tasks);
    finish_all(workers, notes, output)?;
    write_late(alloc, names, tasks, output)
}

/// Each label knows what all know.
fn enter_all<N: Named, G: Gate>(workers: &mut [Worker<'_, N, G>], notes: &Notes<N>)
    ensures { workers.new ≡ map (entered notes.now) workers.old }
{
    for i in 0..workers.len() {
        workers[i].enter(notes);
    }
}

/// Each label's lines on a thread of its own; all are joined.
fn run_all<N, R, G>(rt: &R, alloc: Global, workers: &mut [Worker<'_, N, G>], tasks: &[Task<'_>])
where
    N: Named + Send + Sync,
    R: Threads + Wait + Clock + Sync,
    G: Gate + Sync,
    requires wide { N.parts ≡ 18446744073709551615 }
    requires texts { AsksTexts N.asks }
    ensures { (i : ℕ) (d : Work) → i < length workers.old → IsRan (slice_index_or workers.old i d) tasks.now (slice_index_or workers.new i d) }
{
    for_each_mut(
        rt,
        alloc,
        &STACKS,
        workers,
        &|_i, worker: &mut Worker<'_, N, G>|
            requires wide { N.parts ≡ 18446744073709551615 }
            requires texts { AsksTexts N.asks }
            ensures { IsRan worker.entry.now tasks.entry.now worker.exit.now }
        { worker.run(rt, tasks) },
    );
}

/// What each label leaves, in their order.
fn finish_all<N: Named, G: Gate, O: ScriptOut>(
    workers: &mut [Worker<'_, N, G>],
    notes: &mut Notes<N>,
    output: &mut O,
) -> Result<(), RunFault>
    requires wide { N.parts ≡ 18446744073709551615 }
    ensures whole { OnOk result ((i : ℕ) (d : Work) → i < length workers.old → (slice_index_or workers.old i d).failed ≡ false) }
    ensures left { OnOk result (workers.new ≡ map finished workers.old) }
    ensures notes { OnOk result (notes.new ≡ notes_after notes.old (tracks_of workers.old)) }
    ensures text { OnOk result (O.taken output.new ≡ O.taken output.old ++ texts_of (tracks_of workers.old)) }
    ensures ok { OnOk result (O.failures output.new ≡ O.failures output.old) }
    ensures read { ¬ IsErrOf result RunFault.Read }
    ensures write { IsErrOf result RunFault.Write → O.failures output.old < O.failures output.new }
    ensures write_failed { O.failures output.old < O.failures output.new → IsErrOf result RunFault.Write }
{
    for i in 0..workers.len() {
        workers[i].finish(notes, output)?;
    }
    Ok(())
}

/// Refuses the lines under all other labels.
fn write_late<O: ScriptOut>(
    alloc: Global,
    names: &Names<'_>,
    tasks: &[Task<'_>],
    output: &mut O,
) -> Result<(), RunFault>
    ensures text { OnOk result (GrewBy (O.taken output.old) (O.taken output.new) (λ written. (late : _) × AreLate tasks.now late × (written ≡ late_text names.now late))) }
    ensures ok { OnOk result (O.failures output.new ≡ O.failures output.old) }
    ensures read { ¬ IsErrOf result RunFault.Read }
    ensures write { IsErrOf result RunFault.Write → O.failures output.old < O.failures output.new }
    ensures write_failed { O.failures output.old < O.failures output.new → IsErrOf result RunFault.Write }
{
    let late = late_places(alloc, tasks)?;
    let written = write_places(alloc, names, late.as_slice(), output);
    drop(late);
    written
}

/// The late places, one for each line there, in order.
fn late_places(alloc: Global, tasks: &[Task<'_>]) -> Result<Vec<usize>, RunFault>
    ensures late { IfOk result (λ late. AreLate tasks.now late.items) }
    ensures read { ¬ IsErrOf result RunFault.Read }
    ensures write { ¬ IsErrOf result RunFault.Write }
{
    let mut late = Vec::new(alloc);
    for task in tasks {
        note_late(&mut late, task.place)?;
    }
    late.sort()?;
    Ok(late)
}

fn note_late(late: &mut Vec<usize>, place: usize) -> Result<(), RunFault>
    ensures late { OnOk result (late.new.items ≡ late.old.items ++ filter is_late (place ∷ [])) }
    ensures read { ¬ IsErrOf result RunFault.Read }
    ensures write { ¬ IsErrOf result RunFault.Write }
{
    if place >= SEATS {
        late.push(place)?;
    }
    Ok(())
}

fn write_places<O: ScriptOut>(
    alloc: Global,
    names: &Names<'_>,
    places: &[usize],
    output: &mut O,
) -> Result<(), RunFault>
    ensures text { OnOk result (O.taken output.new ≡ O.taken output.old ++ late_text names.now places.now) }
    ensures ok { OnOk result (O.failures output.new ≡ O.failures output.old) }
    ensures read { ¬ IsErrOf result RunFault.Read }
    ensures write { IsErrOf result RunFault.Write → O.failures output.old < O.failures output.new }
    ensures write_failed { O.failures output.old < O.failures output.new → IsErrOf result RunFault.Write }
{
    let unlabelled = names.find("?");
    for place in places {
        let refusal = Standing::of(unlabelled, *place).refusal();
        let answer = Answer::Refused(refusal);
        write_answer(alloc, false, names.name(*place), answer, output)?;
    }
    Ok(())
}

/// Ends the open blocks, as at the end of a script, in the order of the labels.
fn end_workers<N: Named, R: Wait, G: Gate>(
    rt: &R,
    workers: &mut [Worker<'_, N, G>],
    notes: &mut Notes<N>,
) -> Result<(), RunFault>
    ensures ok { OnOk result (notes.new ≡ ended_all (sessions_at (work_seats workers.old)) notes.old) }
    ensures read { ¬ IsErrOf result RunFault.Read }
    ensures write { ¬ IsErrOf result RunFault.Write }
{
    for i in 0..workers.len() {
        workers[i].end(rt, notes)?;
    }
    Ok(())
}

/// Ends every session.
pub(crate) fn close_workers<N: Named, R: Wait, G: Gate>(rt: &R, workers: Vec<Worker<'_, N, G>>) {
    let mut workers = workers;
    while let Some(worker) = workers.pop() {
        worker.close(rt);
    }
    workers.destroy_empty();
}
