//! The command that writes what the statements of an audit did with rows.

ghost use Rattle.std.specs.Prelude.{◌≡◌, ◌⊎◌, ◌++◌, ℕ, List, IfOk, OnOk};
ghost use Rattle.rls_session.specs.rls_script.specs.Streams.{GrewBy};
ghost use Rattle.rls_check.specs.ShownAudits.{FirstDiffers, IsShown};
ghost use Rattle.rls_check.specs.ShownTexts.{shown_text, turn_text};
ghost use Rattle.rls_check.specs.Walking.{IsMeant, left};
ghost use Rattle.rlsdb.specs.Answers.{IsShownOf, filter_of, found_first, is_whole};
ghost use Rattle.rlsdb.specs.AuditLines.{Reads};

use crate::audit_file::AuditIn;
use crate::audits::{audit_in, read_audit, told};
use crate::fault::Fault;
use crate::progress::ProgressLine;
use rls_check::{Audit, Ending, Finding, Progress, ShownFilter, Turn, Walk};
use rls_command_line::{Shown, Wanted};
use rls_session::rls_script::{Failed, RunFault, ScriptIn, ScriptOut, write_all};
use std::alloc::Global;

/// Writes what the statements of the audit did with rows, and says whether all came to what it shows. Standard error is told what
/// didn't.
#[tactic(auto, using(crate::proofs::ShownLemmas::ended))]
pub fn shown<'a, O: ScriptOut>(
    rt: &HostRuntime,
    asked: Shown<'a>,
    output: &mut O,
) -> Result<bool, Fault<'a>>
    ensures { IfOk result (λ whole. GrewBy (O.taken output.old) (O.taken output.new) (λ written. (texts : List (List ℕ)) × (ending : Ending) × IsShownOf (filter_of asked.entry.wanted) texts written ending × (whole ≡ is_whole ending))) }
{
    let Shown { audit, wanted } = asked;
    let filter = filter_of(wanted);
    let ending = shown_from(rt, audit, &filter, output);
    drop(filter);
    let ending = ending?;
    tell(rt, audit, ending);
    Ok(is_whole(ending))
}

/// The same statements and rows, as turns are asked for them.
pub(crate) fn filter_of(wanted: Wanted) -> ShownFilter
    ensures { result ≡ filter_of wanted }
{
    let Wanted {
        roles,
        logins,
        txns,
        tables,
        rows,
        denied,
        all,
        json,
    } = wanted;
    ShownFilter {
        roles,
        logins,
        txns,
        tables,
        rows,
        denied,
        all,
        json,
    }
}

/// The same, and how it ends.
#[tactic(auto, using(crate::proofs::AnswerLemmas::of_some))]
fn shown_from<'a, O: ScriptOut>(
    rt: &HostRuntime,
    name: &'a str,
    wanted: &ShownFilter,
    output: &mut O,
) -> Result<Ending, Fault<'a>>
    ensures { IfOk result (λ ending. GrewBy (O.taken output.old) (O.taken output.new) (λ written. (texts : List (List ℕ)) × IsShownOf wanted.now texts written ending)) }
{
    let mut input = audit_in(rt, name)?;
    let mut progress = ProgressLine::beside_answers(rt);
    let written = write_shown(rt.alloc(), name, &mut input, wanted, &mut progress, output);
    progress.wipe();
    match written {
        Ok(ending) => Ok(ending),
        Err(fault) => Err(told(fault, name, &input)),
    }
}

/// Tells standard error what isn't whole.
pub(crate) fn tell(rt: &HostRuntime, name: &str, ending: Ending) {
    match ending {
        Ending::Walked(None) => {}
        Ending::Walked(Some(finding)) => {
            let _ = eprintln!(rt; "rlsdb: {name}: {finding}");
        }
        Ending::Missing(txn) => {
            let _ = eprintln!(rt; "rlsdb: {name}: no transaction {txn}");
        }
        Ending::NoOrder => {
            let _ = eprintln!(rt; "rlsdb: {name}: no: order");
        }
    }
}

/// Whether all statements came to what the audit shows.
pub(crate) fn is_whole(ending: Ending) -> bool
    ensures { result ≡ is_whole ending }
{
    matches!(ending, Ending::Walked(None))
}

/// Writes what the statements of the audit that is read did with rows, and says how it ended.
#[tactic(auto, using(crate::proofs::ShownLemmas::shown))]
fn write_shown<'a, I: ScriptIn + Drop, O: ScriptOut>(
    alloc: Global,
    name: &'a str,
    input: &mut AuditIn<I>,
    wanted: &ShownFilter,
    progress: &mut ProgressLine<'_>,
    output: &mut O,
) -> Result<Ending, Fault<'a>>
    ensures { IfOk result (λ ending. Reads (I.given input.old.input) (I.given input.new.input) (λ texts. GrewBy (O.taken output.old) (O.taken output.new) (λ written. IsShownOf wanted.now texts written ending))) }
{
    let audit = read_audit(alloc, name, input)?;
    let ending = show(alloc, &audit, wanted, progress, output);
    drop(audit);
    Ok(ending?)
}

/// The same of the audit.
#[tactic(auto, using(crate::proofs::ShownLemmas::along, crate::proofs::ShownLemmas::without, crate::proofs::ShownLemmas::unordered))]
fn show<O: ScriptOut>(
    alloc: Global,
    audit: &Audit,
    wanted: &ShownFilter,
    progress: &mut ProgressLine<'_>,
    output: &mut O,
) -> Result<Ending, RunFault>
    ensures { IfOk result (λ ending. GrewBy (O.taken output.old) (O.taken output.new) (λ written. IsShown wanted.now audit.now.transactions audit.now.order written ending)) }
{
    let Some(mut walk) = audit.walk(alloc)? else {
        return Ok(Ending::NoOrder);
    };
    match audit.missing(wanted.txns.as_slice()) {
        Some(txn) => Ok(Ending::Missing(txn)),
        None => {
            progress.begin("shown", audit.order().len());
            let found = show_turns(alloc, &mut walk, wanted, progress, output);
            drop(walk);
            Ok(Ending::Walked(found?))
        }
    }
}

/// Of the statements that are still to come; the first that comes to another answer than the audit shows.
#[tactic(auto, using(crate::proofs::ShownLemmas::written_on, crate::proofs::ShownLemmas::written_all, crate::proofs::ShownLemmas::found_on, crate::proofs::ShownLemmas::found_all, crate::proofs::ShownLemmas::fewer_left))]
fn show_turns<'a, O: ScriptOut>(
    alloc: Global,
    walk: &mut Walk<'a>,
    wanted: &ShownFilter,
    progress: &mut ProgressLine<'_>,
    output: &mut O,
) -> Result<Option<Finding>, RunFault>
    ensures text { OnOk result (O.taken output.new ≡ O.taken output.old ++ shown_text wanted.now (left walk.old)) }
    ensures found { IfOk result (FirstDiffers (left walk.old)) }
{
    let mut found = None;
    while let Some(turn) = walk.next(alloc)? {
        progress.done(walk.done());
        found = first_of(found, &turn);
        show_turn(alloc, turn, wanted, output)?;
    }
    Ok(found)
}

/// What was found before, else whether the statement comes to another answer.
fn first_of(found: Option<Finding>, turn: &Turn) -> Option<Finding>
    ensures { result ≡ found_first found turn.now }
{
    match found {
        Some(found) => Some(found),
        None if turn.agrees => None,
        None => Some(Finding::Reply(turn.ctx.txn, turn.number)),
    }
}

/// The lines of a statement.
fn show_turn<O: ScriptOut>(
    alloc: Global,
    turn: Turn,
    wanted: &ShownFilter,
    output: &mut O,
) -> Result<(), RunFault>
    requires { IsMeant turn }
    ensures { OnOk result (O.taken output.new ≡ O.taken output.old ++ turn_text wanted.now turn) }
{
    let text = turn.shown(alloc, wanted);
    drop(turn);
    let text = text?;
    match write_all(text.as_slice(), output) {
        Ok(()) => Ok(()),
        Err(Failed) => Err(RunFault::Write),
    }
}
