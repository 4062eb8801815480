//! The command that writes what attempts did with rows, which are transactions that ended without a commit.

ghost use Rattle.std.specs.Prelude.{◌≡◌, ◌++◌, [], ℕ, List, length, true, IfOk, OnOk};
ghost use Rattle.rls_check.specs.Attempts.{AreAttempts, HasReadAttempts};
ghost use Rattle.rls_check.specs.Listing.{first_or as or_first};
ghost use Rattle.rls_check.specs.ShownAttempts.{AreAttemptsShown, AreAttemptsShownBeside, attempts_text, begun_text, standings_of, standings_of_all};
ghost use Rattle.rls_check.specs.ShownAudits.{FirstDiffers};
ghost use Rattle.rls_check.specs.Wholes.{IsAuditOf};
ghost use Rattle.rls_session.specs.rls_script.specs.Streams.{GrewBy};
ghost use Rattle.rlsdb.specs.Answers.{AreAttemptsShownOf, filter_of as spec_filter_of, is_all_shown as all_shown};
ghost use Rattle.rlsdb.specs.AuditLines.{Reads};

use crate::audit_file::{AuditIn, MAX_AUDIT, NextLine};
use crate::audits::{audit_in, first_of, read_audit, told};
use crate::fault::Fault;
use crate::shown::filter_of;
use rls_check::rls_guard::rls_catalog::rls_value::Items;
use rls_check::{
    Attempt, AttemptReader, Attempts, AttemptsEnd, Audit, Begun, Finding, ShownFilter,
    missing_attempt,
};
use rls_command_line::Shown;
use rls_session::rls_script::{Failed, RunFault, ScriptIn, ScriptOut, write_all};
use std::alloc::Global;

/// Writes what the statements of the attempts in the file `out` did with rows, each attempt run alone after as many commits of the
/// audit as it began behind. Says whether all came to what the audit and the attempts show; standard error is told what didn't.
#[tactic(auto, using(crate::proofs::ShownAttemptLemmas::ended))]
pub fn shown_attempts<'a, O: ScriptOut>(
    rt: &HostRuntime,
    asked: Shown<'a>,
    out: &'a str,
    output: &mut O,
) -> Result<bool, Fault<'a>>
    ensures { IfOk result (λ whole. GrewBy (O.taken output.old) (O.taken output.new) (λ written. (texts : List (List ℕ)) × (others : List (List ℕ)) × (ending : AttemptsEnd) × AreAttemptsShownOf (spec_filter_of asked.entry.wanted) texts others written ending × (whole ≡ all_shown ending))) }
{
    let Shown { audit, wanted } = asked;
    let filter = filter_of(wanted);
    let ending = shown_from(rt, audit, out, &filter, output);
    drop(filter);
    let ending = ending?;
    tell(rt, audit, out, ending);
    Ok(is_all_shown(ending))
}

/// Tells standard error what isn't whole.
fn tell(rt: &HostRuntime, name: &str, out: &str, ending: AttemptsEnd) {
    match ending {
        AttemptsEnd::Ran(found, other) => {
            tell_found(rt, name, found);
            tell_found(rt, out, other);
        }
        AttemptsEnd::Missing(txn) => {
            let _ = eprintln!(rt; "rlsdb: {out}: no transaction {txn}");
        }
        AttemptsEnd::NoOrder => {
            let _ = eprintln!(rt; "rlsdb: {name}: no: order");
        }
    }
}

fn tell_found(rt: &HostRuntime, name: &str, found: Option<Finding>) {
    if let Some(finding) = found {
        let _ = eprintln!(rt; "rlsdb: {name}: {finding}");
    }
}

/// Whether all statements came to what the audit and the attempts show.
fn is_all_shown(ending: AttemptsEnd) -> bool
    ensures { result ≡ all_shown ending }
{
    matches!(ending, AttemptsEnd::Ran(None, None))
}

/// The same, and how it ends. Nothing is written where a line of either file is bad.
#[tactic(auto, using(crate::proofs::ShownAttemptLemmas::shown))]
fn shown_from<'a, O: ScriptOut>(
    rt: &HostRuntime,
    name: &'a str,
    out: &'a str,
    wanted: &ShownFilter,
    output: &mut O,
) -> Result<AttemptsEnd, Fault<'a>>
    ensures { IfOk result (λ ending. GrewBy (O.taken output.old) (O.taken output.new) (λ written. (texts : List (List ℕ)) × (others : List (List ℕ)) × AreAttemptsShownOf wanted.now texts others written ending)) }
{
    let audit = audit_of(rt, name)?;
    let attempts = attempts_of(rt, &audit, out)?;
    let ending = show(rt.alloc(), &audit, attempts, wanted, output);
    drop(audit);
    Ok(ending?)
}

/// The audit in the file.
#[tactic(auto, using(crate::proofs::ShownAttemptLemmas::audit_read))]
fn audit_of<'a>(rt: &HostRuntime, name: &'a str) -> Result<Audit, Fault<'a>>
    ensures { IfOk result (λ audit. (texts : List (List ℕ)) × IsAuditOf texts audit) }
{
    let mut input = audit_in(rt, name)?;
    match read_audit(rt.alloc(), name, &mut input) {
        Ok(audit) => Ok(audit),
        Err(fault) => Err(told(fault, name, &input)),
    }
}

/// The attempts in the file, beside this audit.
#[tactic(auto, using(crate::proofs::ShownAttemptLemmas::attempts_read))]
fn attempts_of<'a>(
    rt: &HostRuntime,
    audit: &Audit,
    out: &'a str,
) -> Result<Items<Attempt>, Fault<'a>>
    ensures { IfOk result (λ attempts. (others : List (List ℕ)) × AreAttempts (length audit.now.transactions) others attempts) }
{
    let mut input = audit_in(rt, out)?;
    match read_attempts(rt.alloc(), audit, &mut input) {
        Ok(attempts) => Ok(attempts),
        Err(fault) => Err(told(fault.of_attempts(out), out, &input)),
    }
}

/// The attempts that are read. Where a line is bad the rest is read too: that it can't be read would come first.
fn read_attempts<'a, I: ScriptIn + Drop>(
    alloc: Global,
    audit: &Audit,
    input: &mut AuditIn<I>,
) -> Result<Items<Attempt>, Fault<'a>>
    ensures { IfOk result (λ attempts. Reads (I.given input.old.input) (I.given input.new.input) (λ others. AreAttempts (length audit.now.transactions) others attempts)) }
{
    match read_lines(alloc, audit, input) {
        Ok(reader) => Ok(reader.finish()?),
        Err(fault) => Err(first_of(input, fault)),
    }
}

/// Reads the lines to the end.
fn read_lines<'a, I: ScriptIn + Drop>(
    alloc: Global,
    audit: &Audit,
    input: &mut AuditIn<I>,
) -> Result<AttemptReader, Fault<'a>>
    ensures lines { IfOk result (λ reader. Reads (I.given input.old.input) (I.given input.new.input) (λ others. HasReadAttempts (length audit.now.transactions) others reader)) }
    ensures ended { OnOk result (I.ended input.new.input ≡ true) }
{
    let mut line = Vec::new(alloc);
    let mut reader = AttemptReader::new(alloc, audit);
    for _ in 0..=MAX_AUDIT {
        match input.next_line(&mut line)? {
            NextLine::Whole => reader = reader.line(alloc, line.as_slice())?,
            NextLine::Last => return Ok(reader.line(alloc, line.as_slice())?),
            NextLine::End => return Ok(reader),
        }
    }
    Err(Fault::Ended(RunFault::Read))
}

/// Of these attempts beside the audit.
#[tactic(auto, using(crate::proofs::ShownAttemptLemmas::beside, crate::proofs::ShownAttemptLemmas::without))]
fn show<O: ScriptOut>(
    alloc: Global,
    audit: &Audit,
    attempts: Items<Attempt>,
    wanted: &ShownFilter,
    output: &mut O,
) -> Result<AttemptsEnd, RunFault>
    ensures { IfOk result (λ ending. GrewBy (O.taken output.old) (O.taken output.new) (λ written. AreAttemptsShown wanted.now audit.now.transactions audit.now.order attempts written ending)) }
{
    match missing_attempt(attempts.as_slice(), wanted.txns.as_slice()) {
        Some(txn) => {
            drop(attempts);
            Ok(AttemptsEnd::Missing(txn))
        }
        None => Ok(show_beside(alloc, audit, attempts, wanted, output)?),
    }
}

/// The same, whatever is asked for.
#[tactic(auto, using(crate::proofs::ShownAttemptLemmas::along, crate::proofs::ShownAttemptLemmas::unordered))]
fn show_beside<O: ScriptOut>(
    alloc: Global,
    audit: &Audit,
    attempts: Items<Attempt>,
    wanted: &ShownFilter,
    output: &mut O,
) -> Result<AttemptsEnd, RunFault>
    ensures { IfOk result (λ ending. GrewBy (O.taken output.old) (O.taken output.new) (λ written. AreAttemptsShownBeside wanted.now audit.now.transactions audit.now.order attempts written ending)) }
{
    let Some(begun) = audit.begin_attempts(alloc, attempts)? else {
        return Ok(AttemptsEnd::NoOrder);
    };
    let Attempts { begun, differs } = begun;
    let other = show_each(alloc, begun, wanted, output)?;
    Ok(AttemptsEnd::Ran(differs, other))
}

/// Of attempts that have begun; the first statement that comes to another answer than its attempt shows.
#[tactic(auto, using(crate::proofs::ShownAttemptLemmas::written_on, crate::proofs::ShownAttemptLemmas::written_all, crate::proofs::ShownAttemptLemmas::found_on, crate::proofs::ShownAttemptLemmas::found_all))]
fn show_each<O: ScriptOut>(
    alloc: Global,
    begun: Vec<Begun>,
    wanted: &ShownFilter,
    output: &mut O,
) -> Result<Option<Finding>, RunFault>
    ensures text { OnOk result (O.taken output.new ≡ O.taken output.old ++ attempts_text wanted.now begun.items) }
    ensures found { IfOk result (FirstDiffers (standings_of_all begun.items)) }
{
    let mut found = None;
    for one in begun {
        let other = show_one(alloc, one, wanted, output)?;
        found = first_or(found, other);
    }
    Ok(found)
}

/// What was found before, or else this.
fn first_or(found: Option<Finding>, other: Option<Finding>) -> Option<Finding>
    ensures { result ≡ or_first found other }
{
    match found {
        Some(found) => Some(found),
        None => other,
    }
}

/// Of one of them.
fn show_one<O: ScriptOut>(
    alloc: Global,
    begun: Begun,
    wanted: &ShownFilter,
    output: &mut O,
) -> Result<Option<Finding>, RunFault>
    ensures text { OnOk result (O.taken output.new ≡ O.taken output.old ++ begun_text wanted.now begun) }
    ensures found { IfOk result (FirstDiffers (standings_of begun)) }
{
    let shown = begun.shown(alloc, wanted)?;
    match write_all(shown.text.as_slice(), output) {
        Ok(()) => Ok(shown.differs),
        Err(Failed) => Err(RunFault::Write),
    }
}
