//! The command that runs a script and writes each answer behind the transaction that its line was answered in.

ghost use Rattle.std.specs.Prelude.{◌≡◌, ◌++◌, ℕ, List, Option, map, IfOk, OnOk};
ghost use Rattle.std.specs.List.{All, list_all};
ghost use Rattle.std.specs.Str.Lines.{lines};
ghost use Rattle.rls_check.specs.rls_audit.specs.Showing.{AreTexts};
ghost use Rattle.rls_check.specs.rls_audit.specs.rls_core.specs.Records.{Record};
ghost use Rattle.rls_session.specs.rls_script.specs.Streams.{GrewBy};
ghost use Rattle.rls_transcript.specs.Numbers.{numbered_from};
ghost use Rattle.rlsdb.specs.Answers.{IsAudited, IsWithAudit};
ghost use Rattle.rlsdb.specs.Numbers as spec;
ghost use Rattle.rlsdb.specs.Numbers.{AreNumberedAnswers, IsNumberedText};

use crate::answering::{Answered, answer_lines};
use crate::device::DeviceOut;
use crate::fault::Fault;
use crate::hinting::read_hinted;
use crate::running::{require_own_audit, write_book};
use crate::script_file::read_file;
use crate::stopping::write_wanted;
use rls_check::rls_audit::rls_core::Record;
use rls_command_line::ScriptFile;
use rls_session::rls_script::RunFault;
use rls_transcript::{Where, split_lines, wheres_of, write_numbered};
use std::alloc::Global;
use std::io::Write;
use std::sync::Wait;
use std::time::Clock;

/// What lines are answered, and in which transactions.
#[derive(Drop)]
pub struct Numbered {
    pub answered: Answered,
    pub wheres: Vec<Where>,
}

/// Runs the script in the order of its lines, and then writes its audit where one is wanted. The answers are written once the run has
/// ended.
#[tactic(auto, using(crate::proofs::NumberLemmas::numbered))]
pub fn run_numbered<'a, W, D>(
    rt: &HostRuntime,
    waits: &W,
    run: ScriptFile<'a>,
    output: &mut DeviceOut<D>,
) -> Result<(), Fault<'a>>
where
    W: Wait + Clock,
    D: Write + Drop,
    ensures { OnOk result (GrewBy output.old.taken.bytes output.new.taken.bytes (λ written. (history : List Record) × (taken : Option (List ℕ)) × IsNumberedText run.entry.terse written history × IsAudited run.entry.audit history taken)) }
{
    require_own_audit(rt, run)?;
    let it = run_file(rt, waits, run)?;
    write_answers(rt.alloc(), &it, output)?;
    let audit = write_wanted(rt, run.audit, &it.answered.book)?;
    drop(audit);
    Ok(())
}

/// The same, with the audit behind the answers.
#[tactic(auto, using(crate::proofs::NumberLemmas::numbered_with_audit))]
pub fn run_numbered_with_audit<'a, W, D>(
    rt: &HostRuntime,
    waits: &W,
    run: ScriptFile<'a>,
    output: &mut DeviceOut<D>,
) -> Result<(), Fault<'a>>
where
    W: Wait + Clock,
    D: Write + Drop,
    ensures { OnOk result (GrewBy output.old.taken.bytes output.new.taken.bytes (IsWithAudit (IsNumberedText run.entry.terse))) }
{
    let it = run_file(rt, waits, run)?;
    write_answers(rt.alloc(), &it, output)?;
    let order = it.answered.book.order(rt.alloc())?;
    write_book(rt.alloc(), &it.answered.book, order, output)?;
    Ok(())
}

/// Writes the answers, and gives them on.
fn write_answers<'a, D: Write + Drop>(
    alloc: Global,
    it: &Numbered,
    output: &mut DeviceOut<D>,
) -> Result<(), Fault<'a>>
    ensures { OnOk result (output.new.taken.bytes ≡ output.old.taken.bytes ++ numbered_from 1 it.now.answered.tolds.items it.now.wheres.items) }
{
    let written = write_numbered(
        alloc,
        it.answered.tolds.as_slice(),
        it.wheres.as_slice(),
        output,
    );
    let finished = output.finish();
    written?;
    finished?;
    Ok(())
}

/// Runs the script that is in the file, or the standard input.
#[tactic(auto, using(crate::proofs::NumberLemmas::of_script))]
fn run_file<'a, W: Wait + Clock>(
    rt: &HostRuntime,
    waits: &W,
    run: ScriptFile<'a>,
) -> Result<Numbered, Fault<'a>>
    ensures answers { IfOk result (λ it. (script : List ℕ) × AreNumberedAnswers run.entry.terse (lines script) it.answered.tolds.items it.wheres.items it.answered.book.seen.committed) }
    ensures texts { IfOk result (λ it. All AreTexts it.answered.book.seen.committed) }
{
    let script = script_in(rt, run)?;
    let all = split_lines(rt.alloc(), script.as_slice())?;
    match number_lines(rt.alloc(), waits, run.terse, all.as_slice()) {
        Ok(it) => Ok(it),
        Err(fault) => Err(Fault::Ended(fault)),
    }
}

/// The script. Standard error is told of its lines that aren't taken, where that is wanted.
fn script_in<'a>(rt: &HostRuntime, run: ScriptFile<'a>) -> Result<Vec<u8>, Fault<'a>> {
    if run.hints {
        read_hinted(rt, run.file)
    } else {
        read_file(rt, run.file)
    }
}

/// Runs these lines, and tells in which transactions they were answered. Where the book has another transaction under a commit that is
/// told, nothing is.
fn number_lines<W: Wait + Clock>(
    alloc: Global,
    waits: &W,
    terse: bool,
    lines: &[&[u8]],
) -> Result<Numbered, RunFault>
    ensures answers { IfOk result (λ it. AreNumberedAnswers terse (map (λ line. line.now) lines.now) it.answered.tolds.items it.wheres.items it.answered.book.seen.committed) }
    ensures texts { IfOk result (λ it. All AreTexts it.answered.book.seen.committed) }
{
    let answered = answer_lines(alloc, waits, terse, lines)?;
    let wheres = wheres_of(alloc, lines, answered.tolds.as_slice())?;
    if are_booked(answered.book.records(), wheres.as_slice()) {
        return Ok(Numbered { answered, wheres });
    }
    drop(answered);
    drop(wheres);
    Err(RunFault::Foreign)
}

/// Whether each commit that is told is the transaction's.
fn are_booked(records: &[Record], wheres: &[Where]) -> bool
    ensures { result ≡ list_all (spec.is_booked records.now) wheres.now }
{
    wheres.iter().all(|at| is_booked(records, *at))
}

fn is_booked(records: &[Record], at: Where) -> bool
    ensures { result ≡ spec.is_booked records.now at }
{
    match at {
        Where::Alone(txn, _, commit) => has_commit(records, txn, commit),
        Where::Committed(txn, commit) => has_commit(records, txn, commit),
        Where::Nowhere | Where::Begun(_) | Where::Posted(_, _, _) | Where::Over(_) => true,
    }
}

/// Whether the transaction with this commit has this number.
fn has_commit(records: &[Record], txn: u64, commit: u64) -> bool
    ensures { result ≡ spec.has_commit records.now txn commit }
{
    match records.get(commit.saturating_sub(1) as usize) {
        Some(record) => record.txn() == txn,
        None => false,
    }
}
