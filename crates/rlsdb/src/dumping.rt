//! The command that writes a script which rebuilds a state of an audit.

ghost use Rattle.std.specs.Prelude.{◌≡◌, ◌↔◌, ◌++◌, [], ℕ, Bool, List, length, string_bytes, true, false, IfOk, IfSome, OnOk};
ghost use Rattle.rls_check.specs.rls_audit.specs.rls_core.specs.Records.{state_after};
ghost use Rattle.rls_check.specs.rls_meaning.specs.rls_guard.specs.rls_catalog.specs.Changed.{changed_all, opening};
ghost use Rattle.rls_check.specs.rls_meaning.specs.rls_guard.specs.rls_catalog.specs.State.{State as Whole};
ghost use Rattle.rls_lint.specs.Naming.{IsNamed};
ghost use Rattle.rls_session.specs.Scripts.{IsScriptText};
ghost use Rattle.rls_session.specs.rls_script.specs.Streams.{GrewBy};
ghost use Rattle.rls_transcript.specs.Memory.{given_of};
ghost use Rattle.rlsdb.specs.AuditLines.{Reads};
ghost use Rattle.rlsdb.specs.Dumping.{IsDumpOf, IsDumped, IsRebuilding, Leaves, Rebuilds};
ghost use Rattle.rlsdb.specs.Linting.{is_all_right};

use crate::audit_file::AuditIn;
use crate::audits::{audit_in, read_audit, told};
use crate::device::Nowhere;
use crate::fault::Fault;
use crate::linting::{Reached, StateEnd, asked_txn, is_all_right, later_of, reach};
use rls_check::Audit;
use rls_check::rls_audit::rls_core::Record;
use rls_command_line::AuditState;
use rls_lint::rls_rows::State;
use rls_lint::{Named, have_same_contents, rebuilding_script};
use rls_session::rls_script::{Failed, RunFault, ScriptIn, ScriptOut, write_all};
use rls_session::{Book, run_script};
use rls_transcript::ScriptText;
use std::alloc::{AllocError, Global};
use std::sync::Wait;
use std::time::Clock;

/// Writes a script that rebuilds the state, and says whether there is one, and all statements come to what the audit shows. Standard
/// error is told what else is wrong.
#[tactic(auto, using(crate::proofs::DumpLemmas::ended))]
pub fn dump<'a, W: Wait + Clock, O: ScriptOut>(
    rt: &HostRuntime,
    waits: &W,
    asked: AuditState<'a>,
    output: &mut O,
) -> Result<bool, Fault<'a>>
    ensures { IfOk result (λ done. GrewBy (O.taken output.old) (O.taken output.new) (λ written. (texts : List (List ℕ)) × (ending : StateEnd) × IsDumpOf asked.entry.after texts written ending × (done ≡ is_all_right ending))) }
{
    let ending = dump_from(rt, waits, asked, output)?;
    tell(rt, asked.audit, ending);
    Ok(is_all_right(ending))
}

/// The same, and how it ends.
#[tactic(auto, using(crate::proofs::AnswerLemmas::of_some))]
fn dump_from<'a, W: Wait + Clock, O: ScriptOut>(
    rt: &HostRuntime,
    waits: &W,
    asked: AuditState<'a>,
    output: &mut O,
) -> Result<StateEnd, Fault<'a>>
    ensures { IfOk result (λ ending. GrewBy (O.taken output.old) (O.taken output.new) (λ written. (texts : List (List ℕ)) × IsDumpOf asked.entry.after texts written ending)) }
{
    let name = asked.audit;
    let mut input = audit_in(rt, name)?;
    match write_dump(rt.alloc(), waits, name, &mut input, asked.after, output) {
        Ok(ending) => Ok(ending),
        Err(fault) => Err(told(fault, name, &input)),
    }
}

/// Tells standard error what isn't all right.
fn tell(rt: &HostRuntime, name: &str, ending: StateEnd) {
    match ending {
        StateEnd::Walked(rebuilt, differs) => {
            if !rebuilt {
                let _ = eprintln!(rt; "rlsdb: {name}: cannot dump: no script rebuilds the state");
            }
            if let Some(finding) = differs {
                let _ = eprintln!(rt; "rlsdb: {name}: {finding}");
            }
        }
        StateEnd::Missing(txn) => {
            let _ = eprintln!(rt; "rlsdb: {name}: no transaction {txn}");
        }
        StateEnd::NoOrder => {
            let _ = eprintln!(rt; "rlsdb: {name}: no: order");
        }
    }
}

/// Of the audit that is read.
#[tactic(auto, using(crate::proofs::DumpLemmas::dumped))]
fn write_dump<'a, W: Wait + Clock, I: ScriptIn + Drop, O: ScriptOut>(
    alloc: Global,
    waits: &W,
    name: &'a str,
    input: &mut AuditIn<I>,
    after: Option<u64>,
    output: &mut O,
) -> Result<StateEnd, Fault<'a>>
    ensures { IfOk result (λ ending. Reads (I.given input.old.input) (I.given input.new.input) (λ texts. GrewBy (O.taken output.old) (O.taken output.new) (λ written. IsDumpOf after texts written ending))) }
{
    let audit = read_audit(alloc, name, input)?;
    let ending = dump_audit(alloc, waits, &audit, after, output);
    drop(audit);
    Ok(ending?)
}

/// Of the audit.
#[tactic(auto, using(crate::proofs::LintLemmas::opens, crate::proofs::DumpLemmas::along, crate::proofs::DumpLemmas::without, crate::proofs::DumpLemmas::unordered))]
fn dump_audit<W: Wait + Clock, O: ScriptOut>(
    alloc: Global,
    waits: &W,
    audit: &Audit,
    after: Option<u64>,
    output: &mut O,
) -> Result<StateEnd, RunFault>
    ensures { IfOk result (λ ending. GrewBy (O.taken output.old) (O.taken output.new) (λ written. IsDumped after audit.now.transactions audit.now.order written ending)) }
{
    let Some(mut walk) = audit.walk(alloc)? else {
        return Ok(StateEnd::NoOrder);
    };
    match later_of(audit.order(), after) {
        Some(later) => {
            let reached = reach(alloc, &mut walk, later);
            drop(walk);
            let ending = write_rebuilding(alloc, waits, reached?, output)?;
            Ok(ending)
        }
        None => {
            drop(walk);
            Ok(StateEnd::Missing(asked_txn(after)))
        }
    }
}

/// Writes the script that rebuilds what was reached, where there is one.
#[tactic(auto, using(crate::proofs::DumpLemmas::rebuilding, crate::proofs::DumpLemmas::not_rebuilt))]
fn write_rebuilding<W: Wait + Clock, O: ScriptOut>(
    alloc: Global,
    waits: &W,
    reached: Reached,
    output: &mut O,
) -> Result<StateEnd, RunFault>
    requires { IsNamed reached.state reached.named }
    ensures { IfOk result (λ ending. (rebuilt : Bool) × GrewBy (O.taken output.old) (O.taken output.new) (IsRebuilding reached.state rebuilt) × (ending ≡ StateEnd.Walked rebuilt reached.differs)) }
{
    let Reached {
        state,
        named,
        differs,
    } = reached;
    let script = script_of(alloc, waits, &state, &named);
    drop(state);
    drop(named);
    match script? {
        Some(script) => {
            write_script(script, output)?;
            Ok(StateEnd::Walked(true, differs))
        }
        None => Ok(StateEnd::Walked(false, differs)),
    }
}

fn write_script<O: ScriptOut>(script: String, output: &mut O) -> Result<(), RunFault>
    ensures { OnOk result (O.taken output.new ≡ O.taken output.old ++ string_bytes script) }
{
    let written = write_all(script.as_bytes(), output);
    drop(script);
    match written {
        Ok(()) => Ok(()),
        Err(Failed) => Err(RunFault::Write),
    }
}

/// A script that rebuilds the state. It is run first: one that leaves other contents isn't given.
#[tactic(auto, using(crate::proofs::DumpLemmas::script_rebuilds))]
fn script_of<W: Wait + Clock>(
    alloc: Global,
    waits: &W,
    state: &State,
    named: &Named,
) -> Result<Option<String>, RunFault>
    requires { IsNamed state.now named.now }
    ensures { IfOk result (λ found. IfSome found (λ script. Rebuilds (string_bytes script) state.now)) }
{
    let script = rebuilding_script(alloc, state, named)?;
    match is_rebuilt_by(alloc, waits, script.as_bytes(), state, named) {
        Ok(true) => Ok(Some(script)),
        Ok(false) => {
            drop(script);
            Ok(None)
        }
        Err(fault) => {
            drop(script);
            Err(fault)
        }
    }
}

/// Whether the script rebuilds the state: it is run. One that is too long to be read doesn't.
#[tactic(auto, using(crate::proofs::DumpLemmas::rebuilt_by))]
fn is_rebuilt_by<W: Wait + Clock>(
    alloc: Global,
    waits: &W,
    script: &[u8],
    state: &State,
    named: &Named,
) -> Result<bool, RunFault>
    requires { IsNamed state.now named.now }
    ensures { IfOk result (λ rebuilt. rebuilt ≡ true → Rebuilds script.now state.now) }
{
    match run_alone(alloc, waits, script) {
        Ok(book) => {
            let same = leave_contents(alloc, book.records(), state, named);
            drop(book);
            Ok(same?)
        }
        Err(RunFault::Read) => Ok(false),
        Err(fault) => Err(fault),
    }
}

/// Runs the script on an empty database. None of its answers is kept.
#[tactic(auto, using(crate::proofs::DumpLemmas::ran_script))]
fn run_alone<W: Wait + Clock>(alloc: Global, waits: &W, script: &[u8]) -> Result<Book, RunFault>
    ensures { IfOk result (λ book. (answers : List ℕ) × IsScriptText false script.now answers book.seen.committed) }
{
    let mut input = ScriptText::new(script);
    let ran = run_input(alloc, waits, &mut input);
    if input.script() == script {
        return ran;
    }
    drop(ran);
    Err(RunFault::Foreign)
}

/// Runs the script that the input has.
#[tactic(auto, using(crate::proofs::DumpLemmas::ran_input))]
fn run_input<W: Wait + Clock>(
    alloc: Global,
    waits: &W,
    input: &mut ScriptText<'_>,
) -> Result<Book, RunFault>
    requires { given_of input.old.script.now input.old.place ≡ [] }
    ensures { IfOk result (λ book. (answers : List ℕ) × IsScriptText false input.new.script.now answers book.seen.committed) }
{
    let mut nowhere = Nowhere::new();
    run_script(waits, alloc, input, &mut nowhere)
}

/// Whether the transactions leave the contents of the state.
fn leave_contents(
    alloc: Global,
    records: &[Record],
    state: &State,
    named: &Named,
) -> Result<bool, AllocError>
    requires { IsNamed state.now named.now }
    ensures { IfOk result (λ same. (same ≡ true) ↔ Leaves records.now state.now) }
{
    let mut others = Named::opening(alloc)?;
    let other = state_behind(alloc, records, &mut others)?;
    let same = have_same_contents(alloc, state, named, &other, &others)?;
    Ok(same)
}

/// The state behind all of them, and its roles and tables.
fn state_behind(alloc: Global, records: &[Record], named: &mut Named) -> Result<State, AllocError>
    requires { IsNamed opening named.old }
    ensures state { IfOk result (λ state. state ≡ state_after records.now (length records.now)) }
    ensures named { IfOk result (λ state. IsNamed state named.new) }
{
    let mut state = State::opening(alloc)?;
    for committed in records {
        let next = with_changes(alloc, &state, committed)?;
        follow(alloc, named, committed)?;
        state = next;
    }
    Ok(state)
}

/// The state behind one more.
fn with_changes(alloc: Global, state: &State, committed: &Record) -> Result<State, AllocError>
    ensures { IfOk result (λ next. next ≡ changed_all state.now committed.now.changes) }
{
    state.with(alloc, committed.changes())
}

/// Its roles and tables.
fn follow(alloc: Global, named: &mut Named, committed: &Record) -> Result<(), AllocError>
    ensures { (s : Whole) → IsNamed s named.old → OnOk result (IsNamed (changed_all s committed.now.changes) named.new) }
{
    named.follow(alloc, committed.changes().as_slice())
}
