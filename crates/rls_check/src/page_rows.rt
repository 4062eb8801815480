//! What a statement did with rows, on a page.

ghost use Rattle.std.specs.Prelude.{◌≡◌, [], ◌∷◌, ◌++◌, ◌-◌, filter, length, map, string_bytes, take, unwrap_or, IfOk, OnOk};
ghost use Rattle.std.specs.List.{flat_map};
ghost use Rattle.rls_check.specs.PageRows as spec;
ghost use Rattle.rls_check.specs.Pieces.{Data, Tag, page_text};
ghost use Rattle.rls_catalog.specs.State.{table_of};
ghost use Rattle.rls_check.specs.ShownRows.{columns_if, row_text as spec_row_text, row_word as spec_row_word};
ghost use Rattle.rls_value.specs.Objects.{row_id_text};
ghost use Rattle.rls_check.specs.ShownTexts.{is_seen as spec_is_seen};

use crate::page_decisions::push_why;
use crate::page_parts::push_rows_word;
use crate::pieces::{push_data, push_name, push_number, push_tag};
use crate::shown_rows::{row_text, row_word};
use crate::shown_texts::is_seen;
use crate::tallies::{is_denied_row, is_shown_row, is_written_row};
use rls_audit::rls_rows::State;
use rls_explain::rls_guard::rls_source::Reading;
use rls_explain::{Explained, RowOutcome, RowWord};
use rls_expr::Column;
use rls_value::{Name, Row, RowId, Value};
use std::alloc::{AllocError, Global};

const GOOD: &str = "<span class=\"g\">";

const BAD: &str = "<span class=\"r\">";

const OTHER: &str = "<span>";

const REGION: &str = "<div class=\"rows\" tabindex=\"0\" role=\"region\" aria-label=\"Rows of ";

const HEADS: &str = "</caption><thead><tr><th scope=\"col\">Outcome</th><th scope=\"col\">Row</th>";

/// How rows are written.
#[derive(Clone, Copy)]
pub(crate) struct RowForm<'x> {
    /// So many of a table at most.
    pub(crate) most: usize,
    pub(crate) state: &'x State,
    /// The role that the statement was run in.
    pub(crate) role: &'x Name,
    /// All decisions of the statement.
    pub(crate) explained: &'x [Explained],
}

// ---- how many of each outcome

/// How many rows were shown and written.
pub(crate) fn push_good_chips(
    alloc: Global,
    rows: &[RowOutcome],
    page: &mut Vec<u8>,
) -> Result<(), AllocError>
    ensures { OnOk result (page.new.items ≡ page.old.items ++ page_text (spec.good_chips rows.now)) }
{
    push_chip(alloc, rows, GOOD, "listed", page)?;
    push_chip(alloc, rows, GOOD, "counted", page)?;
    push_chip(alloc, rows, GOOD, "changed", page)?;
    push_chip(alloc, rows, GOOD, "deleted", page)?;
    push_chip(alloc, rows, GOOD, "inserted", page)?;
    push_chip(alloc, rows, GOOD, "returned", page)?;
    Ok(())
}

/// How many were denied, and how many are told beside.
pub(crate) fn push_other_chips(
    alloc: Global,
    rows: &[RowOutcome],
    page: &mut Vec<u8>,
) -> Result<(), AllocError>
    ensures { OnOk result (page.new.items ≡ page.old.items ++ page_text (spec.other_chips rows.now)) }
{
    push_chip(alloc, rows, BAD, "hidden", page)?;
    push_chip(alloc, rows, BAD, "barred", page)?;
    push_chip(alloc, rows, BAD, "refused", page)?;
    push_chip(alloc, rows, OTHER, "matched", page)?;
    push_chip(alloc, rows, OTHER, "proposed", page)?;
    push_chip(alloc, rows, OTHER, "skipped", page)?;
    push_chip(alloc, rows, OTHER, "seen", page)?;
    Ok(())
}

fn push_chip(
    alloc: Global,
    rows: &[RowOutcome],
    color: &'static str,
    word: &'static str,
    page: &mut Vec<u8>,
) -> Result<(), AllocError>
    ensures { OnOk result (page.new.items ≡ page.old.items ++ page_text (spec.chip_pieces rows.now color.now word.now)) }
{
    push_chip_of(alloc, count_in_word(rows, word), color, word, page)?;
    Ok(())
}

#[tactic(auto, using(crate::proofs::PieceLemmas::page_nothing))]
fn push_chip_of(
    alloc: Global,
    count: u64,
    color: &'static str,
    word: &'static str,
    page: &mut Vec<u8>,
) -> Result<(), AllocError>
    ensures { OnOk result (page.new.items ≡ page.old.items ++ page_text (spec.chip_of color.now word.now count)) }
{
    if count == 0 {
        return Ok(());
    }
    push_count(alloc, count, color, word, page)
}

fn push_count(
    alloc: Global,
    count: u64,
    color: &'static str,
    word: &'static str,
    page: &mut Vec<u8>,
) -> Result<(), AllocError>
    ensures { OnOk result (page.new.items ≡ page.old.items ++ page_text (spec.chip_with color.now word.now count)) }
{
    push_tag(page, color)?;
    push_number(alloc, page, count)?;
    push_tag(page, " ")?;
    push_tag(page, word)?;
    push_tag(page, "</span>")?;
    Ok(())
}

fn count_in_word(mut rows: &[RowOutcome], word: &str) -> u64
    ensures { result ≡ length (filter (spec.is_in_word word.now) rows.entry.now) }
{
    let mut count = 0;
    while let [one, rest @ ..] = rows {
        if row_word(one.word) == word {
            count += 1;
        }
        rows = rest;
    }
    count
}

// ---- all of a statement

/// The rows of its table, then those that subqueries could see.
pub(crate) fn push_rows(
    alloc: Global,
    form: RowForm<'_>,
    table: &Name,
    rows: &[RowOutcome],
    page: &mut Vec<u8>,
) -> Result<(), AllocError>
    ensures { OnOk result (page.new.items ≡ page.old.items ++ page_text (spec.rows_pieces form.entry.most form.entry.state.now form.entry.role.now table.now form.entry.explained.now rows.now)) }
{
    push_of_table(alloc, form, table, rows, page)?;
    push_of_subqueries(alloc, form, rows, page)?;
    Ok(())
}

fn push_of_table(
    alloc: Global,
    form: RowForm<'_>,
    table: &Name,
    rows: &[RowOutcome],
    page: &mut Vec<u8>,
) -> Result<(), AllocError>
    ensures { OnOk result (page.new.items ≡ page.old.items ++ page_text (spec.table_pieces form.entry.most form.entry.role.now table.now (columns_if (table_of form.entry.state.now table.now)) form.entry.explained.now (filter spec.is_of_table rows.now))) }
{
    let own = own_rows(alloc, rows)?;
    let pushed = push_own(alloc, form, table, own.as_slice(), page);
    drop(own);
    pushed
}

fn push_of_subqueries(
    alloc: Global,
    form: RowForm<'_>,
    rows: &[RowOutcome],
    page: &mut Vec<u8>,
) -> Result<(), AllocError>
    ensures { OnOk result (page.new.items ≡ page.old.items ++ page_text (spec.list_pieces form.entry.most form.entry.state.now (filter spec_is_seen rows.now))) }
{
    let seen = seen_rows(alloc, rows)?;
    let pushed = push_list(alloc, form, seen.as_slice(), page);
    drop(seen);
    pushed
}

/// Those that no subquery saw.
fn own_rows<'x>(alloc: Global, rows: &'x [RowOutcome]) -> Result<Vec<&'x RowOutcome>, AllocError>
    ensures { IfOk result (λ own. map (λ one. one.now) own.items ≡ filter spec.is_of_table rows.now) }
{
    let mut own = Vec::new(alloc);
    for one in rows {
        if !is_seen(one) {
            own.push(one)?;
        }
    }
    Ok(own)
}

fn seen_rows<'x>(alloc: Global, rows: &'x [RowOutcome]) -> Result<Vec<&'x RowOutcome>, AllocError>
    ensures { IfOk result (λ seen. map (λ one. one.now) seen.items ≡ filter spec_is_seen rows.now) }
{
    let mut seen = Vec::new(alloc);
    for one in rows {
        if is_seen(one) {
            seen.push(one)?;
        }
    }
    Ok(seen)
}

/// The tables of a statement on this one, each once.
pub(crate) fn tables_text(
    alloc: Global,
    table: &Name,
    rows: &[RowOutcome],
) -> Result<String, AllocError>
    ensures { IfOk result (λ text. string_bytes text ≡ table.now ++ spec.tables_behind table.now rows.now) }
{
    let mut text = table.as_str().to_string(alloc)?;
    push_tables_behind(table, rows, &mut text)?;
    Ok(text)
}

fn push_tables_behind<'x>(
    first: &'x Name,
    mut rows: &'x [RowOutcome],
    text: &mut String,
) -> Result<(), AllocError>
    ensures { OnOk result (string_bytes text.new ≡ string_bytes text.old ++ spec.tables_behind first.now rows.entry.now) }
{
    let mut last = first;
    while let [one, rest @ ..] = rows {
        if !last.is(&one.table) {
            text.push_str(" ")?;
            text.push_str(one.table.as_str())?;
            last = &one.table;
        }
        rows = rest;
    }
    Ok(())
}

// ---- the rows of the statement's table

/// With the columns that it has in the state.
fn push_own(
    alloc: Global,
    form: RowForm<'_>,
    table: &Name,
    rows: &[&RowOutcome],
    page: &mut Vec<u8>,
) -> Result<(), AllocError>
    ensures { OnOk result (page.new.items ≡ page.old.items ++ page_text (spec.table_pieces form.entry.most form.entry.role.now table.now (columns_if (table_of form.entry.state.now table.now)) form.entry.explained.now (map (λ one. one.now) rows.now))) }
{
    let mut source = form.state.view();
    match source.table(alloc, table)? {
        Some(found) => push_table(alloc, form, table, found.columns.as_slice(), rows, page),
        None => push_table(alloc, form, table, &[], rows, page),
    }
}

#[tactic(auto, using(crate::proofs::PieceLemmas::page_nothing))]
fn push_table(
    alloc: Global,
    form: RowForm<'_>,
    table: &Name,
    columns: &[Column],
    rows: &[&RowOutcome],
    page: &mut Vec<u8>,
) -> Result<(), AllocError>
    ensures { OnOk result (page.new.items ≡ page.old.items ++ page_text (spec.table_pieces form.entry.most form.entry.role.now table.now columns.now form.entry.explained.now (map (λ one. one.now) rows.now))) }
{
    if count_of(rows) == 0 {
        return Ok(());
    }
    push_some(alloc, form, table, columns, rows, page)
}

fn push_some(
    alloc: Global,
    form: RowForm<'_>,
    table: &Name,
    columns: &[Column],
    rows: &[&RowOutcome],
    page: &mut Vec<u8>,
) -> Result<(), AllocError>
    ensures { OnOk result (page.new.items ≡ page.old.items ++ page_text (spec.table_of_some form.entry.most form.entry.role.now table.now columns.now form.entry.explained.now (map (λ one. one.now) rows.now))) }
{
    push_head(alloc, table, columns, page)?;
    push_first_rows(alloc, form, columns, rows, page)?;
    push_tag(page, "</tbody></table></div>\n")?;
    push_left(alloc, rows, form.most, page)?;
    Ok(())
}

fn push_first_rows(
    alloc: Global,
    form: RowForm<'_>,
    columns: &[Column],
    rows: &[&RowOutcome],
    page: &mut Vec<u8>,
) -> Result<(), AllocError>
    ensures { OnOk result (page.new.items ≡ page.old.items ++ page_text (flat_map (spec.row_pieces form.entry.role.now columns.now form.entry.explained.now) (take form.entry.most (map (λ one. one.now) rows.now)))) }
{
    push_rows_of(alloc, form, columns, first_rows(rows, form.most), page)?;
    Ok(())
}

fn push_rows_of(
    alloc: Global,
    form: RowForm<'_>,
    columns: &[Column],
    rows: &[&RowOutcome],
    page: &mut Vec<u8>,
) -> Result<(), AllocError>
    ensures { OnOk result (page.new.items ≡ page.old.items ++ page_text (flat_map (spec.row_pieces form.entry.role.now columns.now form.entry.explained.now) (map (λ one. one.now) rows.now))) }
{
    push_each_row(alloc, form, columns, rows, page)?;
    Ok(())
}

/// How many of the rows are behind so many.
fn push_left(
    alloc: Global,
    rows: &[&RowOutcome],
    most: usize,
    page: &mut Vec<u8>,
) -> Result<(), AllocError>
    ensures { OnOk result (page.new.items ≡ page.old.items ++ page_text (spec.more_pieces (length (map (λ one. one.now) rows.now) - most))) }
{
    push_more(alloc, count_of(rows).saturating_sub(most) as u64, page)?;
    Ok(())
}

fn count_of(rows: &[&RowOutcome]) -> usize
    ensures { result ≡ length (map (λ one. one.now) rows.now) }
{
    rows.len()
}

/// What stands above them.
fn push_head(
    alloc: Global,
    table: &Name,
    columns: &[Column],
    page: &mut Vec<u8>,
) -> Result<(), AllocError>
    ensures { OnOk result (page.new.items ≡ page.old.items ++ page_text (spec.table_head table.now columns.now)) }
{
    push_tag(page, REGION)?;
    push_name(alloc, page, table)?;
    push_tag(page, "\"><table><caption>")?;
    push_name(alloc, page, table)?;
    push_tag(page, HEADS)?;
    push_columns(alloc, columns, page)?;
    push_tag(page, "<th scope=\"col\">Why</th></tr></thead><tbody>\n")?;
    Ok(())
}

fn push_columns(alloc: Global, columns: &[Column], page: &mut Vec<u8>) -> Result<(), AllocError>
    ensures { OnOk result (page.new.items ≡ page.old.items ++ page_text (flat_map spec.column_pieces columns.now)) }
{
    push_each_column(alloc, columns, page)?;
    Ok(())
}

fn push_each_column(
    alloc: Global,
    mut columns: &[Column],
    page: &mut Vec<u8>,
) -> Result<(), AllocError>
    ensures { OnOk result (page.new.items ≡ page.old.items ++ flat_map (λ column. page_text (spec.column_pieces column)) columns.entry.now) }
{
    while let [column, rest @ ..] = columns {
        push_column(alloc, column, page)?;
        columns = rest;
    }
    Ok(())
}

fn push_column(alloc: Global, column: &Column, page: &mut Vec<u8>) -> Result<(), AllocError>
    ensures { OnOk result (page.new.items ≡ page.old.items ++ page_text (spec.column_pieces column.now)) }
{
    push_tag(page, "<th scope=\"col\">")?;
    push_name(alloc, page, &column.name)?;
    push_tag(page, "</th>")?;
    Ok(())
}

/// How many more there are.
#[tactic(auto, using(crate::proofs::PieceLemmas::page_nothing))]
fn push_more(alloc: Global, count: u64, page: &mut Vec<u8>) -> Result<(), AllocError>
    ensures { OnOk result (page.new.items ≡ page.old.items ++ page_text (spec.more_pieces count)) }
{
    if count == 0 {
        return Ok(());
    }
    push_some_more(alloc, count, page)
}

fn push_some_more(alloc: Global, count: u64, page: &mut Vec<u8>) -> Result<(), AllocError>
    ensures { OnOk result (page.new.items ≡ page.old.items ++ page_text (spec.some_more count)) }
{
    push_tag(page, "<p class=\"dim\">and ")?;
    push_number(alloc, page, count)?;
    push_tag(page, " more")?;
    push_rows_word(count, page)?;
    push_tag(page, "</p>\n")?;
    Ok(())
}

/// The first of the rows, so many at most.
fn first_rows<'x, 'r>(rows: &'x [&'r RowOutcome], most: usize) -> &'x [&'r RowOutcome]
    ensures { map (λ one. one.now) result.now ≡ take most (map (λ one. one.now) rows.now) }
{
    if rows.len() > most {
        &rows[..most]
    } else {
        rows
    }
}

fn push_each_row(
    alloc: Global,
    form: RowForm<'_>,
    columns: &[Column],
    mut rows: &[&RowOutcome],
    page: &mut Vec<u8>,
) -> Result<(), AllocError>
    ensures { OnOk result (page.new.items ≡ page.old.items ++ flat_map (λ one. page_text (spec.row_pieces form.entry.role.now columns.now form.entry.explained.now one)) (map (λ one. one.now) rows.entry.now)) }
{
    while let [one, rest @ ..] = rows {
        push_row(alloc, form, columns, *one, page)?;
        rows = rest;
    }
    Ok(())
}

// ---- a row

/// Its outcome, number and values, and why.
fn push_row(
    alloc: Global,
    form: RowForm<'_>,
    columns: &[Column],
    one: &RowOutcome,
    page: &mut Vec<u8>,
) -> Result<(), AllocError>
    ensures { OnOk result (page.new.items ≡ page.old.items ++ page_text (spec.row_pieces form.entry.role.now columns.now form.entry.explained.now one.now)) }
{
    push_outcome(one, page)?;
    push_word(one.word, page)?;
    push_tag(page, "</td><td class=\"v\">")?;
    push_id(alloc, one.id, page)?;
    push_tag(page, "</td>")?;
    push_row_cells(alloc, columns, one, page)?;
    push_tag(page, "<td class=\"y\">")?;
    push_why(alloc, form.role, form.explained, one, page)?;
    push_tag(page, "</td></tr>\n")?;
    Ok(())
}

fn push_outcome(one: &RowOutcome, page: &mut Vec<u8>) -> Result<(), AllocError>
    ensures { OnOk result (page.new.items ≡ page.old.items ++ page_text (Tag (spec.outcome_tag one.now) ∷ [])) }
{
    push_tag(page, outcome_tag(one))?;
    Ok(())
}

fn push_word(word: RowWord, page: &mut Vec<u8>) -> Result<(), AllocError>
    ensures { OnOk result (page.new.items ≡ page.old.items ++ page_text (Tag (spec_row_word word) ∷ [])) }
{
    push_tag(page, row_word(word))?;
    Ok(())
}

fn push_id(alloc: Global, id: RowId, page: &mut Vec<u8>) -> Result<(), AllocError>
    ensures { OnOk result (page.new.items ≡ page.old.items ++ page_text (Data (row_id_text id) ∷ [])) }
{
    let text = format!(in alloc; "{id}")?;
    push_data(alloc, page, text.as_str())?;
    Ok(())
}

fn push_row_cells(
    alloc: Global,
    columns: &[Column],
    one: &RowOutcome,
    page: &mut Vec<u8>,
) -> Result<(), AllocError>
    ensures { OnOk result (page.new.items ≡ page.old.items ++ page_text (spec.cells_pieces columns.now one.now.row (unwrap_or one.now.new []))) }
{
    let values = one.row.as_slice();
    push_cells(alloc, columns, values, values_of(&one.new), page)?;
    Ok(())
}

/// The color of its outcome.
fn outcome_tag(one: &RowOutcome) -> &'static str
    ensures { result.now ≡ spec.outcome_tag one.now }
{
    if is_denied_row(one) {
        "<tr><td class=\"what r\">"
    } else if is_shown_row(one) || is_written_row(one) {
        "<tr><td class=\"what g\">"
    } else {
        "<tr><td class=\"what\">"
    }
}

/// The values of a row that there is.
fn values_of(row: &Option<Row>) -> &[Value]
    ensures { result.now ≡ unwrap_or row.now [] }
{
    match row {
        Some(row) => row.as_slice(),
        None => &[],
    }
}

/// Each value, with that of the changed row where it is changed.
fn push_cells(
    alloc: Global,
    columns: &[Column],
    values: &[Value],
    others: &[Value],
    page: &mut Vec<u8>,
) -> Result<(), AllocError>
    ensures { OnOk result (page.new.items ≡ page.old.items ++ page_text (spec.cells_pieces columns.now values.now others.now)) }
{
    push_each_cell(alloc, columns, values, others, page)?;
    Ok(())
}

fn push_each_cell(
    alloc: Global,
    mut columns: &[Column],
    mut values: &[Value],
    mut others: &[Value],
    page: &mut Vec<u8>,
) -> Result<(), AllocError>
    ensures { OnOk result (page.new.items ≡ page.old.items ++ spec.cell_texts columns.entry.now values.entry.now others.entry.now) }
{
    while let [column, columns_left @ ..] = columns {
        let [value, values_left @ ..] = values else {
            return Ok(());
        };
        push_value(alloc, column, value, others, page)?;
        columns = columns_left;
        values = values_left;
        others = behind_first(others);
    }
    Ok(())
}

fn push_value(
    alloc: Global,
    column: &Column,
    value: &Value,
    others: &[Value],
    page: &mut Vec<u8>,
) -> Result<(), AllocError>
    ensures { OnOk result (page.new.items ≡ page.old.items ++ page_text (spec.cell_pieces column.now value.now others.now)) }
{
    match others {
        [] => push_cell(alloc, column, value, page),
        [other, ..] => push_changed_cell(alloc, column, value, other, page),
    }
}

fn behind_first(values: &[Value]) -> &[Value]
    ensures { result.now ≡ spec.behind_first values.now }
{
    match values {
        [] => &[],
        [_, rest @ ..] => rest,
    }
}

fn push_cell(
    alloc: Global,
    column: &Column,
    value: &Value,
    page: &mut Vec<u8>,
) -> Result<(), AllocError>
    ensures { OnOk result (page.new.items ≡ page.old.items ++ page_text (spec.cell_with column.now (spec.value_pieces value.now))) }
{
    push_cell_begin(alloc, column, page)?;
    push_literal(alloc, value, page)?;
    push_tag(page, "</td>")?;
    Ok(())
}

fn push_literal(alloc: Global, value: &Value, page: &mut Vec<u8>) -> Result<(), AllocError>
    ensures { OnOk result (page.new.items ≡ page.old.items ++ page_text (spec.value_pieces value.now)) }
{
    let text = format!(in alloc; "{value}")?;
    push_data(alloc, page, text.as_str())?;
    Ok(())
}

fn push_cell_begin(alloc: Global, column: &Column, page: &mut Vec<u8>) -> Result<(), AllocError>
    ensures { OnOk result (page.new.items ≡ page.old.items ++ page_text (spec.cell_begin column.now)) }
{
    push_tag(page, "<td class=\"v\" data-l=\"")?;
    push_name(alloc, page, &column.name)?;
    push_tag(page, "\">")?;
    Ok(())
}

fn push_changed_cell(
    alloc: Global,
    column: &Column,
    old: &Value,
    new: &Value,
    page: &mut Vec<u8>,
) -> Result<(), AllocError>
    ensures { OnOk result (page.new.items ≡ page.old.items ++ page_text (spec.cell_with column.now (spec.changed_pieces old.now new.now))) }
{
    push_cell_begin(alloc, column, page)?;
    push_changed(alloc, old, new, page)?;
    push_tag(page, "</td>")?;
    Ok(())
}

fn push_changed(
    alloc: Global,
    old: &Value,
    new: &Value,
    page: &mut Vec<u8>,
) -> Result<(), AllocError>
    ensures { OnOk result (page.new.items ≡ page.old.items ++ page_text (spec.changed_pieces old.now new.now)) }
{
    let before = format!(in alloc; "{old}")?;
    let after = format!(in alloc; "{new}")?;
    push_change(alloc, before.as_str(), after.as_str(), page)?;
    Ok(())
}

fn push_change(alloc: Global, old: &str, new: &str, page: &mut Vec<u8>) -> Result<(), AllocError>
    ensures { OnOk result (page.new.items ≡ page.old.items ++ page_text (spec.changed_texts old.now new.now)) }
{
    if old == new {
        push_data(alloc, page, old)
    } else {
        push_both(alloc, old, new, page)
    }
}

fn push_both(alloc: Global, old: &str, new: &str, page: &mut Vec<u8>) -> Result<(), AllocError>
    ensures { OnOk result (page.new.items ≡ page.old.items ++ page_text (spec.both_texts old.now new.now)) }
{
    push_tag(page, "<del>")?;
    push_data(alloc, page, old)?;
    push_tag(page, "</del><span class=\"arrow\"> &rarr; </span><ins>")?;
    push_data(alloc, page, new)?;
    push_tag(page, "</ins>")?;
    Ok(())
}

// ---- those that subqueries could see

#[tactic(auto, using(crate::proofs::PieceLemmas::page_nothing))]
fn push_list(
    alloc: Global,
    form: RowForm<'_>,
    rows: &[&RowOutcome],
    page: &mut Vec<u8>,
) -> Result<(), AllocError>
    ensures { OnOk result (page.new.items ≡ page.old.items ++ page_text (spec.list_pieces form.entry.most form.entry.state.now (map (λ one. one.now) rows.now))) }
{
    if count_of(rows) == 0 {
        return Ok(());
    }
    push_seen_list(alloc, form, rows, page)
}

fn push_seen_list(
    alloc: Global,
    form: RowForm<'_>,
    rows: &[&RowOutcome],
    page: &mut Vec<u8>,
) -> Result<(), AllocError>
    ensures { OnOk result (page.new.items ≡ page.old.items ++ page_text (spec.list_of_some form.entry.most form.entry.state.now (map (λ one. one.now) rows.now))) }
{
    push_tag(
        page,
        "<p class=\"dim\">Rows that subqueries could see:</p><ul class=\"p\">\n",
    )?;
    push_first_seen(alloc, form, rows, page)?;
    push_tag(page, "</ul>\n")?;
    push_left(alloc, rows, form.most, page)?;
    Ok(())
}

fn push_first_seen(
    alloc: Global,
    form: RowForm<'_>,
    rows: &[&RowOutcome],
    page: &mut Vec<u8>,
) -> Result<(), AllocError>
    ensures { OnOk result (page.new.items ≡ page.old.items ++ page_text (flat_map (spec.seen_pieces form.entry.state.now) (take form.entry.most (map (λ one. one.now) rows.now)))) }
{
    push_seen_of(alloc, form.state, first_rows(rows, form.most), page)?;
    Ok(())
}

fn push_seen_of(
    alloc: Global,
    state: &State,
    rows: &[&RowOutcome],
    page: &mut Vec<u8>,
) -> Result<(), AllocError>
    ensures { OnOk result (page.new.items ≡ page.old.items ++ page_text (flat_map (spec.seen_pieces state.now) (map (λ one. one.now) rows.now))) }
{
    push_each_seen(alloc, state, rows, page)?;
    Ok(())
}

fn push_each_seen(
    alloc: Global,
    state: &State,
    mut rows: &[&RowOutcome],
    page: &mut Vec<u8>,
) -> Result<(), AllocError>
    ensures { OnOk result (page.new.items ≡ page.old.items ++ flat_map (λ one. page_text (spec.seen_pieces state.now one)) (map (λ one. one.now) rows.entry.now)) }
{
    while let [one, rest @ ..] = rows {
        push_seen_row(alloc, state, *one, page)?;
        rows = rest;
    }
    Ok(())
}

fn push_seen_row(
    alloc: Global,
    state: &State,
    one: &RowOutcome,
    page: &mut Vec<u8>,
) -> Result<(), AllocError>
    ensures { OnOk result (page.new.items ≡ page.old.items ++ page_text (spec.seen_pieces state.now one.now)) }
{
    push_tag(page, "<li class=\"v\">")?;
    push_row_text(alloc, state, one, page)?;
    push_tag(page, "</li>\n")?;
    Ok(())
}

fn push_row_text(
    alloc: Global,
    state: &State,
    one: &RowOutcome,
    page: &mut Vec<u8>,
) -> Result<(), AllocError>
    ensures { OnOk result (page.new.items ≡ page.old.items ++ page_text (Data (spec_row_text state.now one.now) ∷ [])) }
{
    let text = row_text(alloc, state, one)?;
    push_data(alloc, page, text.as_str())?;
    Ok(())
}
