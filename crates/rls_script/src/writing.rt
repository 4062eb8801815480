//! Answers, written piece by piece.

ghost use Rattle.std.specs.Prelude.{◌≡◌, ◌+◌, ◌<◌, ◌++◌, length, OnOk, OnErr, IsErrOf};
ghost use Rattle.rls_script.specs.Rendering.{answer_text, fields_text, last_line, more_fields, row_line, row_lines, rows_in};
ghost use Rattle.rls_script.specs.Streams.{GrewBy, TellsFailures};

use crate::answer::Answer;
use crate::fault::RunFault;
use crate::rendering::{push_field, push_label, push_last, rows_of};
use crate::stream::{Failed, ScriptOut};
use rls_value::{Row, Value};
use std::alloc::Global;

/// How many bytes of an answer are held until they are written, but for the field that passes it.
const PIECE: usize = 65_536;

/// Writes an answer under a label. Of a long one each piece is written before the next is made.
#[tactic(auto, using(crate::proofs::WritingLemmas::none_failed, crate::proofs::WritingLemmas::not_read, crate::proofs::WritingLemmas::one_failed, crate::proofs::WritingLemmas::failed_is_told))]
pub fn write_answer<O: ScriptOut>(
    alloc: Global,
    terse: bool,
    label: &str,
    answer: Answer,
    output: &mut O,
) -> Result<(), RunFault>
    ensures text { OnOk result (GrewBy (O.taken output.old) (O.taken output.new) (λ written. written ≡ answer_text terse label.now answer)) }
    ensures ok { OnOk result (O.failures output.new ≡ O.failures output.old) }
    ensures read { ¬ IsErrOf result RunFault.Read }
    ensures write { IsErrOf result RunFault.Write → O.failures output.old < O.failures output.new }
    ensures write_failed { O.failures output.old < O.failures output.new → IsErrOf result RunFault.Write }
{
    let written = write_lent(alloc, terse, label, &answer, output);
    drop(answer);
    written
}

/// The same of an answer that is lent.
fn write_lent<O: ScriptOut>(
    alloc: Global,
    terse: bool,
    label: &str,
    answer: &Answer,
    output: &mut O,
) -> Result<(), RunFault>
    ensures text { OnOk result (O.taken output.new ≡ O.taken output.old ++ answer_text terse label.now answer.now) }
    ensures failures { TellsFailures result (O.failures output.old) (O.failures output.new) }
{
    let mut held = Vec::new(alloc);
    write_rows(alloc, &mut held, label, rows_of(answer), output)?;
    push_last(alloc, &mut held, terse, label, answer)?;
    write_held(held.as_slice(), output)
}

/// Writes the rows' lines, but for what is held behind them.
fn write_rows<O: ScriptOut>(
    alloc: Global,
    held: &mut Vec<u8>,
    label: &str,
    rows: &[Row],
    output: &mut O,
) -> Result<(), RunFault>
    ensures text { OnOk result (O.taken output.new ++ held.new.items ≡ O.taken output.old ++ (held.old.items ++ row_lines label.now rows.now)) }
    ensures failures { TellsFailures result (O.failures output.old) (O.failures output.new) }
{
    for row in rows {
        write_row(alloc, held, label, row.as_slice(), output)?;
    }
    Ok(())
}

fn write_row<O: ScriptOut>(
    alloc: Global,
    held: &mut Vec<u8>,
    label: &str,
    values: &[Value],
    output: &mut O,
) -> Result<(), RunFault>
    ensures text { OnOk result (O.taken output.new ++ held.new.items ≡ O.taken output.old ++ (held.old.items ++ row_line label.now values.now)) }
    ensures failures { TellsFailures result (O.failures output.old) (O.failures output.new) }
{
    push_label(held, label)?;
    write_fields(alloc, held, values, output)?;
    held.push(b'\n')?;
    write_piece(held, output)
}

fn write_fields<O: ScriptOut>(
    alloc: Global,
    held: &mut Vec<u8>,
    values: &[Value],
    output: &mut O,
) -> Result<(), RunFault>
    ensures text { OnOk result (O.taken output.new ++ held.new.items ≡ O.taken output.old ++ (held.old.items ++ fields_text values.now)) }
    ensures failures { TellsFailures result (O.failures output.old) (O.failures output.new) }
{
    if let [first, rest @ ..] = values {
        push_field(alloc, held, first)?;
        write_more_fields(alloc, held, rest, output)?;
    }
    Ok(())
}

fn write_more_fields<O: ScriptOut>(
    alloc: Global,
    held: &mut Vec<u8>,
    mut values: &[Value],
    output: &mut O,
) -> Result<(), RunFault>
    ensures text { OnOk result (O.taken output.new ++ held.new.items ≡ O.taken output.old ++ (held.old.items ++ more_fields values.entry.now)) }
    ensures failures { TellsFailures result (O.failures output.old) (O.failures output.new) }
{
    while let [value, rest @ ..] = values {
        write_piece(held, output)?;
        held.push(b'|')?;
        push_field(alloc, held, value)?;
        values = rest;
    }
    Ok(())
}

/// Writes what is held, where it is a piece or more.
fn write_piece<O: ScriptOut>(held: &mut Vec<u8>, output: &mut O) -> Result<(), RunFault>
    ensures text { OnOk result (O.taken output.new ++ held.new.items ≡ O.taken output.old ++ held.old.items) }
    ensures failures { TellsFailures result (O.failures output.old) (O.failures output.new) }
{
    if held.len() < PIECE {
        return Ok(());
    }
    write_held(held.as_slice(), output)?;
    held.clear();
    Ok(())
}

fn write_held<O: ScriptOut>(held: &[u8], output: &mut O) -> Result<(), RunFault>
    ensures text { OnOk result (O.taken output.new ≡ O.taken output.old ++ held.now) }
    ensures failures { TellsFailures result (O.failures output.old) (O.failures output.new) }
{
    match write_all(held, output) {
        Ok(()) => Ok(()),
        Err(Failed) => Err(RunFault::Write),
    }
}

/// Writes bytes, in as many calls as it takes.
pub fn write_all<O: ScriptOut>(bytes: &[u8], output: &mut O) -> Result<(), Failed>
    ensures taken { OnOk result (O.taken output.new ≡ O.taken output.old ++ bytes.now) }
    ensures ok { OnOk result (O.failures output.new ≡ O.failures output.old) }
    ensures err { OnErr result (O.failures output.new ≡ O.failures output.old + 1) }
{
    let mut rest = bytes;
    while !rest.is_empty() {
        let taken = output.write_some(rest)?;
        rest = &rest[taken..];
    }
    Ok(())
}
