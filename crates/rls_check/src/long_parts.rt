//! The lines of the parts of a condition.

ghost use Rattle.std.specs.Prelude.{◌≡◌, ◌++◌, string_bytes, IfOk, OnOk};
ghost use Rattle.std.specs.List.{flat_map};
ghost use Rattle.rls_audit.specs.rls_printing.specs.Escaped.{escaped_line};
ghost use Rattle.rls_check.specs.LongParts as spec;

use crate::shown_rows::values_text;
use crate::shown_texts::rows_word;
use rls_audit::rls_printing::{print_expr, push_escaped_line};
use rls_explain::{Part, Seen, SeenRow, truth_word};
use rls_expr::Expr;
use rls_value::Value;
use std::alloc::{AllocError, Global};

/// Each part with its value and, where it has a subquery, the rows that this sees.
pub(crate) fn push_parts(
    alloc: Global,
    mut parts: &[Part],
    text: &mut Vec<u8>,
) -> Result<(), AllocError>
    ensures { OnOk result (text.new.items ≡ text.old.items ++ flat_map spec.part_text parts.entry.now) }
{
    while let [part, rest @ ..] = parts {
        push_part(alloc, part, text)?;
        parts = rest;
    }
    Ok(())
}

fn push_part(alloc: Global, part: &Part, text: &mut Vec<u8>) -> Result<(), AllocError>
    ensures { OnOk result (text.new.items ≡ text.old.items ++ spec.part_text part.now) }
{
    let indent = indent(alloc, part.level)?;
    let line = part_line(alloc, indent.as_str(), part)?;
    push_escaped_line(text, line.as_str())?;
    match &part.sees {
        Some(seen) => push_seen(alloc, indent.as_str(), seen, text),
        None => Ok(()),
    }
}

/// Two blanks, and two more for each part that it stands in.
#[tactic(auto, using(crate::proofs::LongPartLemmas::indent_repeated))]
fn indent(alloc: Global, level: usize) -> Result<String, AllocError>
    ensures { IfOk result (λ text. string_bytes text ≡ spec.indent level) }
{
    let mut text = "  ".repeat(alloc, level)?;
    text.push_str("  ")?;
    Ok(text)
}

fn part_line(alloc: Global, indent: &str, part: &Part) -> Result<String, AllocError>
    ensures { IfOk result (λ line. string_bytes line ≡ spec.part_line indent.now part.now) }
{
    let value = comes_text(alloc, &part.value)?;
    let expression = expr_text(alloc, &part.expression)?;
    let compared = compared_text(alloc, &part.values)?;
    format!(in alloc; "{indent}{value}: {expression}{compared}")
}

/// A truth value, or a value of another type.
pub(crate) fn comes_text(alloc: Global, value: &Value) -> Result<String, AllocError>
    ensures { IfOk result (λ text. string_bytes text ≡ spec.comes_text value.now) }
{
    match value {
        Value::Bool(true) => "true".to_string(alloc),
        Value::Bool(false) => "false".to_string(alloc),
        Value::Null => "null".to_string(alloc),
        Value::Int(_) | Value::Text(_) => format!(in alloc; "{value}"),
    }
}

/// The same with the values, behind a mark.
fn compared_text(alloc: Global, values: &Option<Expr>) -> Result<String, AllocError>
    ensures { IfOk result (λ text. string_bytes text ≡ spec.compared_text values.now) }
{
    match values {
        Some(values) => {
            let expression = expr_text(alloc, values)?;
            format!(in alloc; "   -- {expression}")
        }
        None => Ok(String::new(alloc)),
    }
}

/// The expression in its one written form.
pub(crate) fn expr_text(alloc: Global, expr: &Expr) -> Result<String, AllocError>
    ensures { IfOk result (λ text. string_bytes text ≡ spec.expr_text expr.now) }
{
    print_expr(alloc, expr)
}

/// The rows that a subquery sees, one level in.
fn push_seen(alloc: Global, indent: &str, seen: &Seen, text: &mut Vec<u8>) -> Result<(), AllocError>
    ensures { OnOk result (text.new.items ≡ text.old.items ++ spec.seen_text indent.now seen.now) }
{
    push_seen_rows(alloc, indent, seen, text)?;
    push_no_row(alloc, indent, seen, text)?;
    push_more(alloc, indent, seen, text)?;
    push_hidden(alloc, indent, seen, text)
}

fn push_seen_rows(
    alloc: Global,
    indent: &str,
    seen: &Seen,
    text: &mut Vec<u8>,
) -> Result<(), AllocError>
    ensures { OnOk result (text.new.items ≡ text.old.items ++ flat_map (λ row. escaped_line (spec.seen_line indent.now seen.now row)) seen.now.rows) }
{
    let mut left = seen.rows.as_slice();
    while let [row, rest @ ..] = left {
        let line = seen_line(alloc, indent, seen, row)?;
        push_escaped_line(text, line.as_str())?;
        left = rest;
    }
    Ok(())
}

pub(crate) fn seen_line(
    alloc: Global,
    indent: &str,
    seen: &Seen,
    row: &SeenRow,
) -> Result<String, AllocError>
    ensures { IfOk result (λ line. string_bytes line ≡ spec.seen_line indent.now seen.now row.now) }
{
    let table = &seen.table;
    let id = row.id;
    let values = values_text(alloc, seen.columns.as_slice(), &row.row)?;
    let truth = truth_word(row.truth);
    format!(in alloc; "{indent}  sees {table} {id} {values}: WHERE {truth}")
}

/// That it sees none.
fn push_no_row(
    alloc: Global,
    indent: &str,
    seen: &Seen,
    text: &mut Vec<u8>,
) -> Result<(), AllocError>
    ensures { OnOk result (text.new.items ≡ text.old.items ++ spec.no_row_text indent.now seen.now) }
{
    if seen.rows.len() != 0 {
        return Ok(());
    }
    let table = &seen.table;
    let line = format!(in alloc; "{indent}  sees no row of {table}")?;
    push_escaped_line(text, line.as_str())
}

/// How many more it sees.
fn push_more(alloc: Global, indent: &str, seen: &Seen, text: &mut Vec<u8>) -> Result<(), AllocError>
    ensures { OnOk result (text.new.items ≡ text.old.items ++ spec.more_text indent.now seen.now) }
{
    let table = &seen.table;
    let more = seen.more as u64;
    if more == 0 {
        return Ok(());
    }
    let rows = rows_word(more);
    let line = format!(in alloc; "{indent}  sees {more} more{rows} of {table}")?;
    push_escaped_line(text, line.as_str())
}

/// How many rows of the table are hidden from it.
fn push_hidden(
    alloc: Global,
    indent: &str,
    seen: &Seen,
    text: &mut Vec<u8>,
) -> Result<(), AllocError>
    ensures { OnOk result (text.new.items ≡ text.old.items ++ spec.hidden_text indent.now seen.now) }
{
    let table = &seen.table;
    let hidden = seen.hidden as u64;
    if hidden == 0 {
        return Ok(());
    }
    let rows = rows_word(hidden);
    let are = hidden_word(hidden);
    let line = format!(in alloc; "{indent}  {hidden}{rows} of {table}{are}")?;
    push_escaped_line(text, line.as_str())
}

fn hidden_word(count: u64) -> &'static str
    ensures { result.now ≡ spec.hidden_word count }
{
    if count == 1 {
        " is hidden"
    } else {
        " are hidden"
    }
}
