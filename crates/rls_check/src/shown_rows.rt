//! The line of what a statement did with a row.

ghost use Rattle.std.specs.Prelude.{◌≡◌, ◌++◌, [], codes, string_bytes, IfOk, OnOk};
ghost use Rattle.rls_check.specs.ShownRows as spec;

use rls_audit::rls_rows::State;
use rls_catalog::Verdict;
use rls_explain::rls_guard::rls_source::Reading;
use rls_explain::{Reason, RowOutcome, RowWord, truth_word};
use rls_expr::Column;
use rls_value::{Kind, Row, Value};
use std::alloc::{AllocError, Global};

/// The line, with the columns that the table has in the state.
pub(crate) fn row_text(alloc: Global, state: &State, one: &RowOutcome) -> Result<String, AllocError>
    ensures { IfOk result (λ text. string_bytes text ≡ spec.row_text state.now one.now) }
{
    let mut source = state.view();
    match source.table(alloc, &one.table)? {
        Some(table) => row_line(alloc, table.columns.as_slice(), one),
        None => row_line(alloc, &[], one),
    }
}

fn row_line(alloc: Global, columns: &[Column], one: &RowOutcome) -> Result<String, AllocError>
    ensures { IfOk result (λ text. string_bytes text ≡ spec.row_line columns.now one.now) }
{
    let word = row_word(one.word);
    let table = &one.table;
    let id = one.id;
    let values = values_text(alloc, columns, &one.row)?;
    let changed = changed_text(alloc, columns, &one.new)?;
    let reason = reason_if(alloc, &one.reason)?;
    format!(in alloc; "  {word} {table} {id} {values}{changed}{reason}")
}

pub(crate) fn values_text(
    alloc: Global,
    columns: &[Column],
    row: &Row,
) -> Result<String, AllocError>
    ensures { IfOk result (λ text. string_bytes text ≡ spec.values_text columns.now row.now) }
{
    let mut pairs = String::new(alloc);
    push_pairs(alloc, columns, row.as_slice(), &mut pairs)?;
    format!(in alloc; "({pairs})")
}

/// The values with their columns.
fn push_pairs(
    alloc: Global,
    columns: &[Column],
    values: &[Value],
    line: &mut String,
) -> Result<(), AllocError>
    ensures { OnOk result (string_bytes line.new ≡ string_bytes line.old ++ spec.pairs_text [] values.now columns.now) }
{
    let [value, more @ ..] = values else {
        return Ok(());
    };
    let [column, others @ ..] = columns else {
        return Ok(());
    };
    push_pair(alloc, "", column, value, line)?;
    push_further_pairs(alloc, others, more, line)
}

/// Those behind the first.
fn push_further_pairs(
    alloc: Global,
    columns: &[Column],
    values: &[Value],
    line: &mut String,
) -> Result<(), AllocError>
    ensures { OnOk result (string_bytes line.new ≡ string_bytes line.old ++ spec.pairs_text (codes ", ") values.now columns.now) }
{
    let mut columns_left = columns;
    let mut left = values;
    while let [value, more @ ..] = left {
        let [column, others @ ..] = columns_left else {
            return Ok(());
        };
        push_pair(alloc, ", ", column, value, line)?;
        columns_left = others;
        left = more;
    }
    Ok(())
}

fn push_pair(
    alloc: Global,
    before: &str,
    column: &Column,
    value: &Value,
    line: &mut String,
) -> Result<(), AllocError>
    ensures { OnOk result (string_bytes line.new ≡ string_bytes line.old ++ spec.pair_text before.now column.now value.now) }
{
    let name = &column.name;
    let pair = format!(in alloc; "{before}{name} {value}")?;
    line.push_str(pair.as_str())
}

/// What a row is changed to.
fn changed_text(alloc: Global, columns: &[Column], new: &Option<Row>) -> Result<String, AllocError>
    ensures { IfOk result (λ text. string_bytes text ≡ spec.changed_text columns.now new.now) }
{
    match new {
        Some(row) => {
            let values = values_text(alloc, columns, row)?;
            format!(in alloc; " -> {values}")
        }
        None => Ok(String::new(alloc)),
    }
}

/// Why it was left out or refused, behind the row.
fn reason_if(alloc: Global, reason: &Option<Reason>) -> Result<String, AllocError>
    ensures { IfOk result (λ text. string_bytes text ≡ spec.reason_if reason.now) }
{
    match reason {
        Some(reason) => {
            let text = reason_text(alloc, reason)?;
            format!(in alloc; ": {text}")
        }
        None => Ok(String::new(alloc)),
    }
}

/// Why a row was left out or refused.
pub(crate) fn reason_text(alloc: Global, reason: &Reason) -> Result<String, AllocError>
    ensures { IfOk result (λ text. string_bytes text ≡ spec.reason_text reason.now) }
{
    match reason {
        Reason::Denied(kind, verdict) => denial_text(alloc, *kind, verdict),
        Reason::Unmet(truth) => {
            let word = truth_word(*truth);
            format!(in alloc; "WHERE is {word}")
        }
    }
}

fn denial_text(alloc: Global, kind: Kind, verdict: &Verdict) -> Result<String, AllocError>
    ensures { IfOk result (λ text. string_bytes text ≡ spec.reason_text (Reason.Denied kind verdict.now)) }
{
    match verdict {
        Verdict::Restrictive(policy) => format!(in alloc; "{kind}: restrictive policy {policy}"),
        Verdict::NoPermissive | Verdict::Exempt | Verdict::By(_) => {
            format!(in alloc; "{kind}: no permissive policy passes")
        }
    }
}

pub(crate) fn row_word(word: RowWord) -> &'static str
    ensures { result.now ≡ spec.row_word word }
{
    match word {
        RowWord::Listed => "listed",
        RowWord::Counted => "counted",
        RowWord::Changed => "changed",
        RowWord::Deleted => "deleted",
        RowWord::Matched => "matched",
        RowWord::Skipped => "skipped",
        RowWord::Hidden => "hidden",
        RowWord::Barred => "barred",
        RowWord::Inserted => "inserted",
        RowWord::Refused => "refused",
        RowWord::Proposed => "proposed",
        RowWord::Returned => "returned",
        RowWord::Seen => "seen",
    }
}
