//! Answers with the transactions that their lines were answered in.

ghost use Rattle.std.specs.Prelude.{◌≡◌, ◌++◌, string_bytes, IfOk, OnOk};
ghost use Rattle.std.specs.Str.Lines.{lines};
ghost use Rattle.rls_transcript.specs.Numbers as spec;
ghost use Rattle.rls_transcript.specs.Numbers.{MarksEndAtTab, numbered_answer, numbered_from};

use crate::line::push_line;
use crate::numbering::{Rows, Where};
use crate::told::Told;
use rls_script::{Failed, RunFault, ScriptOut, first_line, write_all};
use std::alloc::{AllocError, Global};

/// What stands behind the first tab of each line is a line of the answer.
pub fn marks_end_at_tab()
    ensures { MarksEndAtTab }
{}

/// Writes the answers to lines, of which the first has the number 1, each line behind that number and the transaction.
#[tactic(auto, using(crate::proofs::NumberLemmas::answers_more, crate::proofs::NumberLemmas::answers_all, crate::proofs::NumberLemmas::wheres_all))]
pub fn write_numbered<O: ScriptOut>(
    alloc: Global,
    tolds: &[Told],
    wheres: &[Where],
    output: &mut O,
) -> Result<(), RunFault>
    ensures { OnOk result (O.taken output.new ≡ O.taken output.old ++ numbered_from 1 tolds.now wheres.now) }
{
    for place in 0..tolds.len() {
        if place >= wheres.len() {
            return Ok(());
        }
        write_answer(
            alloc,
            place as u64 + 1,
            wheres[place],
            &tolds[place],
            output,
        )?;
    }
    Ok(())
}

/// The answer to the line of this number.
fn write_answer<O: ScriptOut>(
    alloc: Global,
    number: u64,
    at: Where,
    told: &Told,
    output: &mut O,
) -> Result<(), RunFault>
    ensures { OnOk result (O.taken output.new ≡ O.taken output.old ++ numbered_answer number at (lines told.now.text)) }
{
    let text = answer_of(alloc, number, at, told.text())?;
    match write_all(text.as_slice(), output) {
        Ok(()) => Ok(()),
        Err(Failed) => Err(RunFault::Write),
    }
}

/// Each line of the answer behind the number of its script's line, its transaction, and a tab.
#[tactic(auto, using(crate::proofs::NumberLemmas::lines_more))]
fn answer_of(alloc: Global, number: u64, at: Where, answer: &[u8]) -> Result<Vec<u8>, AllocError>
    ensures { IfOk result (λ text. text.items ≡ numbered_answer number at (lines answer.now)) }
{
    let mark = mark_text(alloc, number, at)?;
    let mut text = Vec::new(alloc);
    let mut rest = answer;
    while !rest.is_empty() {
        let (line, behind) = first_line(rest);
        text.extend_from_slice(mark.as_bytes())?;
        push_line(&mut text, line)?;
        rest = behind;
    }
    Ok(text)
}

fn mark_text(alloc: Global, number: u64, at: Where) -> Result<String, AllocError>
    ensures { IfOk result (λ text. string_bytes text ≡ spec.mark_text number at) }
{
    let at = where_text(alloc, at)?;
    format!(in alloc; "{number} {at}\t")
}

fn where_text(alloc: Global, at: Where) -> Result<String, AllocError>
    ensures { IfOk result (λ text. string_bytes text ≡ spec.where_text at) }
{
    match at {
        Where::Nowhere => "-".to_string(alloc),
        Where::Begun(txn) => format!(in alloc; "{txn}"),
        Where::Posted(txn, number, rows) => posted_text(alloc, txn, number, rows),
        Where::Alone(txn, rows, commit) => alone_text(alloc, txn, rows, commit),
        Where::Committed(txn, commit) => format!(in alloc; "{txn} commit {commit}"),
        Where::Over(txn) => format!(in alloc; "{txn} over"),
    }
}

fn posted_text(alloc: Global, txn: u64, number: u64, rows: Rows) -> Result<String, AllocError>
    ensures { IfOk result (λ text. string_bytes text ≡ spec.where_text (Where.Posted txn number rows)) }
{
    let rows = rows_text(alloc, txn, rows)?;
    format!(in alloc; "{txn}.{number}{rows}")
}

fn alone_text(alloc: Global, txn: u64, rows: Rows, commit: u64) -> Result<String, AllocError>
    ensures { IfOk result (λ text. string_bytes text ≡ spec.where_text (Where.Alone txn rows commit)) }
{
    let rows = rows_text(alloc, txn, rows)?;
    format!(in alloc; "{txn}.1{rows} commit {commit}")
}

/// The rows of this number of a transaction.
fn rows_text(alloc: Global, txn: u64, rows: Rows) -> Result<String, AllocError>
    ensures { IfOk result (λ text. string_bytes text ≡ spec.rows_text txn rows) }
{
    let first = rows.first;
    match rows.count {
        0 => Ok(String::new(alloc)),
        1 => format!(in alloc; " rows {txn}.{first}"),
        count => match first.checked_add(count - 1) {
            Some(last) => format!(in alloc; " rows {txn}.{first}-{txn}.{last}"),
            None => Err(AllocError),
        },
    }
}
