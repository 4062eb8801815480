//! What a statement did with rows, as JSON: values and numbers of rows as audits have them.

ghost use Rattle.std.specs.Prelude.{◌≡◌, ◌++◌, ◌∷◌, [], map, unwrap_or, IfOk, OnOk};
ghost use Rattle.std.specs.Option.{option_copied};
ghost use Rattle.std.specs.String.{string_bytes};
ghost use Rattle.serde_json.specs.Data.{array};
ghost use Rattle.serde_json.specs.View.{view, items_of};
ghost use Rattle.rls_check.specs.ShownObjects as spec;

use crate::attempts::ended_text;
use crate::shown_rows::{reason_text, row_word};
use crate::texts::came_text;
use crate::walking::Turn;
use rls_audit::{AttemptEnd, printed, row_id_json, row_values_json};
use rls_explain::{Reason, RowOutcome};
use rls_value::Row;
use serde_json::{Value, json};
use std::alloc::{AllocError, Global};

/// The statement with what it did with these rows, as an object on a line; of an attempt that ended so.
pub(crate) fn push_object(
    alloc: Global,
    turn: &Turn,
    ended: Option<&AttemptEnd>,
    rows: &[RowOutcome],
    text: &mut Vec<u8>,
) -> Result<(), AllocError>
    ensures { OnOk result (text.new.items ≡ text.old.items ++ spec.object_line (option_copied ended.entry) turn.now.number turn.now.ctx turn.now.statement turn.now.outcome.effect rows.now) }
{
    let object = object_text(alloc, turn, ended, rows)?;
    push_ended(text, object.as_str())
}

fn object_text(
    alloc: Global,
    turn: &Turn,
    ended: Option<&AttemptEnd>,
    rows: &[RowOutcome],
) -> Result<String, AllocError>
    ensures { IfOk result (λ text. string_bytes text ≡ spec.object_text (option_copied ended.entry) turn.now.number turn.now.ctx turn.now.statement turn.now.outcome.effect rows.now) }
{
    let json = statement_json(alloc, turn, ended, rows)?;
    let text = json.to_string(alloc);
    drop(json);
    text
}

fn push_ended(text: &mut Vec<u8>, line: &str) -> Result<(), AllocError>
    ensures { OnOk result (text.new.items ≡ text.old.items ++ (line.now ++ 10 ∷ [])) }
{
    text.extend_from_slice(line.as_bytes())?;
    text.push(b'\n')?;
    Ok(())
}

fn statement_json(
    alloc: Global,
    turn: &Turn,
    ended: Option<&AttemptEnd>,
    rows: &[RowOutcome],
) -> Result<Value, AllocError>
    ensures { IfOk result (λ json. view json ≡ spec.statement_data (option_copied ended.entry) turn.now.number turn.now.ctx turn.now.statement turn.now.outcome.effect rows.now) }
{
    match ended {
        Some(ended) => attempt_json(alloc, turn, ended, rows),
        None => transaction_json(alloc, turn, rows),
    }
}

fn transaction_json(alloc: Global, turn: &Turn, rows: &[RowOutcome]) -> Result<Value, AllocError>
    ensures { IfOk result (λ json. view json ≡ spec.transaction_data turn.now.number turn.now.ctx turn.now.statement turn.now.outcome.effect rows.now) }
{
    let statement = turn.statement.get();
    json!(in alloc; {
        "login": turn.ctx.login.as_str(),
        "reply": &came_text(alloc, statement.tag(), &turn.outcome.effect)?,
        "role": turn.ctx.role.as_str(),
        "rows": rows_json(alloc, rows)?,
        "statement": turn.number,
        "text": &printed(alloc, statement)?,
        "txn": turn.ctx.txn
    })
}

fn attempt_json(
    alloc: Global,
    turn: &Turn,
    ended: &AttemptEnd,
    rows: &[RowOutcome],
) -> Result<Value, AllocError>
    ensures { IfOk result (λ json. view json ≡ spec.attempt_data ended.now turn.now.number turn.now.ctx turn.now.statement turn.now.outcome.effect rows.now) }
{
    let statement = turn.statement.get();
    json!(in alloc; {
        "attempt": turn.ctx.txn,
        "ended": &ended_text(alloc, ended)?,
        "login": turn.ctx.login.as_str(),
        "reply": &came_text(alloc, statement.tag(), &turn.outcome.effect)?,
        "role": turn.ctx.role.as_str(),
        "rows": rows_json(alloc, rows)?,
        "statement": turn.number,
        "text": &printed(alloc, statement)?
    })
}

fn rows_json(alloc: Global, rows: &[RowOutcome]) -> Result<Value, AllocError>
    ensures { IfOk result (λ json. view json ≡ array (items_of (map spec.row_data rows.now))) }
{
    let mut values = Vec::with_capacity(alloc, rows.len())?;
    for one in rows {
        values.push(row_json(alloc, one)?)?;
    }
    Ok(Value::from(values))
}

fn row_json(alloc: Global, one: &RowOutcome) -> Result<Value, AllocError>
    ensures { IfOk result (λ json. view json ≡ spec.row_data one.now) }
{
    json!(in alloc; [
        row_word(one.word),
        one.table.as_str(),
        row_id_json(alloc, &one.id)?,
        values_json(alloc, row_now(one))?,
        json_before(alloc, one)?,
        reason_json(alloc, &one.reason)?
    ])
}

/// The values that the row has, behind a change if there is one.
fn row_now(one: &RowOutcome) -> &Row
    ensures { result.now ≡ unwrap_or one.now.new one.now.row }
{
    match &one.new {
        Some(new) => new,
        None => &one.row,
    }
}

fn json_before(alloc: Global, one: &RowOutcome) -> Result<Value, AllocError>
    ensures { IfOk result (λ json. view json ≡ spec.data_before one.now.new one.now.row) }
{
    match &one.new {
        Some(_) => values_json(alloc, &one.row),
        None => Ok(Value::Null),
    }
}

fn values_json(alloc: Global, row: &Row) -> Result<Value, AllocError>
    ensures { IfOk result (λ json. view json ≡ spec.values_data row.now) }
{
    row_values_json(alloc, row)
}

fn reason_json(alloc: Global, reason: &Option<Reason>) -> Result<Value, AllocError>
    ensures { IfOk result (λ json. view json ≡ spec.reason_data reason.now) }
{
    match reason {
        Some(reason) => {
            let text = reason_text(alloc, reason)?;
            Value::try_from_str(alloc, text.as_str())
        }
        None => Ok(Value::Null),
    }
}
