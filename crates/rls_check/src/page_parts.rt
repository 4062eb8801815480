//! The parts of a condition, on a page.

ghost use Rattle.std.specs.Prelude.{◌≡◌, ◌≤◌, [], ◌∷◌, ◌++◌, OnOk};
ghost use Rattle.std.specs.List.{flat_map};
ghost use Rattle.rls_check.specs.LongParts.{comes_text, expr_text, seen_line};
ghost use Rattle.rls_check.specs.PageParts as spec;
ghost use Rattle.rls_check.specs.Pieces.{Data, Tag, page_text};
ghost use Rattle.rls_check.specs.ShownTexts.{rows_word as spec_rows_word};

use crate::long_parts::{comes_text, expr_text, seen_line};
use crate::pieces::{push_data, push_name, push_number, push_tag};
use crate::shown_texts::rows_word;
use rls_explain::{Part, Seen, SeenRow};
use rls_expr::Expr;
use rls_value::{Name, Value};
use std::alloc::{AllocError, Global};

const OPEN: &str = "<ul><li>";

const CLOSE: &str = "</li></ul>";

/// All of them, as lists in lists; nothing where there is none.
#[tactic(auto, using(crate::proofs::PieceLemmas::page_nothing))]
pub(crate) fn push_parts(
    alloc: Global,
    parts: &[Part],
    page: &mut Vec<u8>,
) -> Result<(), AllocError>
    ensures { OnOk result (page.new.items ≡ page.old.items ++ page_text (spec.parts_pieces parts.now)) }
{
    match parts {
        [] => Ok(()),
        [part, rest @ ..] => push_from(alloc, part, rest, page),
    }
}

/// The first of them opens the list.
fn push_from(
    alloc: Global,
    part: &Part,
    rest: &[Part],
    page: &mut Vec<u8>,
) -> Result<(), AllocError>
    ensures { OnOk result (page.new.items ≡ page.old.items ++ page_text (spec.parts_from part.now rest.now)) }
{
    push_tag(page, "<ul class=\"p\"><li>")?;
    push_repeated(part.level, OPEN, page)?;
    push_part(alloc, part, page)?;
    push_behind(alloc, part.level, rest, page)?;
    Ok(())
}

/// Those behind a part on this level, and the ends of all lists.
fn push_behind(
    alloc: Global,
    first: usize,
    parts: &[Part],
    page: &mut Vec<u8>,
) -> Result<(), AllocError>
    ensures { OnOk result (page.new.items ≡ page.old.items ++ page_text (spec.parts_behind first parts.now)) }
{
    push_each(alloc, first, parts, page)?;
    Ok(())
}

fn push_each(
    alloc: Global,
    first: usize,
    mut parts: &[Part],
    page: &mut Vec<u8>,
) -> Result<(), AllocError>
    ensures { OnOk result (page.new.items ≡ page.old.items ++ spec.texts_behind first parts.entry.now) }
{
    let mut level = first;
    while let [part, rest @ ..] = parts {
        push_next(alloc, level, part, page)?;
        level = part.level;
        parts = rest;
    }
    push_ends(level, page)
}

/// The ends of all lists.
fn push_ends(level: usize, page: &mut Vec<u8>) -> Result<(), AllocError>
    ensures { OnOk result (page.new.items ≡ page.old.items ++ page_text (spec.ends_from level)) }
{
    push_repeated(level, CLOSE, page)?;
    push_tag(page, "</li></ul>\n")?;
    Ok(())
}

/// A part behind one on this level.
fn push_next(alloc: Global, level: usize, part: &Part, page: &mut Vec<u8>) -> Result<(), AllocError>
    ensures { OnOk result (page.new.items ≡ page.old.items ++ page_text (spec.next_pieces level part.now)) }
{
    push_steps(level, part.level, page)?;
    push_part(alloc, part, page)?;
    Ok(())
}

/// From an item on a level to the next one.
fn push_steps(level: usize, next: usize, page: &mut Vec<u8>) -> Result<(), AllocError>
    ensures { OnOk result (page.new.items ≡ page.old.items ++ page_text (spec.steps_between level next)) }
{
    if level < next {
        return push_repeated(next - level, OPEN, page);
    }
    push_back(level, next, page)
}

fn push_back(level: usize, next: usize, page: &mut Vec<u8>) -> Result<(), AllocError>
    requires { next ≤ level }
    ensures { OnOk result (page.new.items ≡ page.old.items ++ page_text (spec.steps_back level next)) }
{
    push_repeated(level - next, CLOSE, page)?;
    push_tag(page, "</li>\n<li>")?;
    Ok(())
}

fn push_repeated(count: usize, markup: &'static str, page: &mut Vec<u8>) -> Result<(), AllocError>
    ensures { OnOk result (page.new.items ≡ page.old.items ++ page_text (spec.repeated count markup.now)) }
{
    let mut left = count;
    while left > 0 {
        push_tag(page, markup)?;
        left -= 1;
    }
    Ok(())
}

/// What it comes to, the part, and what its own subquery sees.
fn push_part(alloc: Global, part: &Part, page: &mut Vec<u8>) -> Result<(), AllocError>
    ensures { OnOk result (page.new.items ≡ page.old.items ++ page_text (spec.part_pieces part.now)) }
{
    push_mark(&part.value, page)?;
    push_value(alloc, &part.value, page)?;
    push_tag(page, "</b> <span class=\"v\">")?;
    push_expr(alloc, &part.expression, page)?;
    push_tag(page, "</span>")?;
    push_values(alloc, &part.values, page)?;
    push_sees_if(alloc, &part.sees, page)?;
    Ok(())
}

fn push_value(alloc: Global, value: &Value, page: &mut Vec<u8>) -> Result<(), AllocError>
    ensures { OnOk result (page.new.items ≡ page.old.items ++ page_text (Data (comes_text value.now) ∷ [])) }
{
    let text = comes_text(alloc, value)?;
    push_data(alloc, page, text.as_str())?;
    Ok(())
}

fn push_expr(alloc: Global, expr: &Expr, page: &mut Vec<u8>) -> Result<(), AllocError>
    ensures { OnOk result (page.new.items ≡ page.old.items ++ page_text (Data (expr_text expr.now) ∷ [])) }
{
    let text = expr_text(alloc, expr)?;
    push_data(alloc, page, text.as_str())?;
    Ok(())
}

fn push_mark(value: &Value, page: &mut Vec<u8>) -> Result<(), AllocError>
    ensures { OnOk result (page.new.items ≡ page.old.items ++ page_text (Tag (spec.comes_tag value.now) ∷ [])) }
{
    push_tag(page, comes_tag(value))?;
    Ok(())
}

/// What the mark in front of it shows.
fn comes_tag(value: &Value) -> &'static str
    ensures { result.now ≡ spec.comes_tag value.now }
{
    match value {
        Value::Bool(true) => "<b class=\"true\">",
        Value::Bool(false) => "<b class=\"false\">",
        Value::Null => "<b class=\"null\">",
        Value::Int(_) | Value::Text(_) => "<b>",
    }
}

/// The same with the values.
#[tactic(auto, using(crate::proofs::PieceLemmas::page_nothing))]
fn push_values(alloc: Global, values: &Option<Expr>, page: &mut Vec<u8>) -> Result<(), AllocError>
    ensures { OnOk result (page.new.items ≡ page.old.items ++ page_text (spec.values_pieces values.now)) }
{
    match values {
        Some(values) => push_values_of(alloc, values, page),
        None => Ok(()),
    }
}

fn push_values_of(alloc: Global, values: &Expr, page: &mut Vec<u8>) -> Result<(), AllocError>
    ensures { OnOk result (page.new.items ≡ page.old.items ++ page_text (spec.values_of values.now)) }
{
    push_tag(page, " <span class=\"v vals\">")?;
    push_expr(alloc, values, page)?;
    push_tag(page, "</span>")?;
    Ok(())
}

/// The word behind so many.
pub(crate) fn push_rows_word(count: u64, page: &mut Vec<u8>) -> Result<(), AllocError>
    ensures { OnOk result (page.new.items ≡ page.old.items ++ page_text (Tag (spec_rows_word count) ∷ [])) }
{
    push_tag(page, rows_word(count))?;
    Ok(())
}

// ---- the rows that a subquery sees

#[tactic(auto, using(crate::proofs::PieceLemmas::page_nothing))]
fn push_sees_if(alloc: Global, seen: &Option<Seen>, page: &mut Vec<u8>) -> Result<(), AllocError>
    ensures { OnOk result (page.new.items ≡ page.old.items ++ page_text (spec.sees_pieces seen.now)) }
{
    match seen {
        Some(seen) => push_sees(alloc, seen, page),
        None => Ok(()),
    }
}

fn push_sees(alloc: Global, seen: &Seen, page: &mut Vec<u8>) -> Result<(), AllocError>
    ensures { OnOk result (page.new.items ≡ page.old.items ++ page_text (spec.sees_all seen.now)) }
{
    push_tag(page, "<ul>")?;
    push_sees_rows(alloc, seen, page)?;
    push_sees_none(alloc, seen, page)?;
    push_sees_more(alloc, seen, page)?;
    push_sees_not(alloc, seen, page)?;
    push_tag(page, "</ul>")?;
    Ok(())
}

fn push_sees_rows(alloc: Global, seen: &Seen, page: &mut Vec<u8>) -> Result<(), AllocError>
    ensures { OnOk result (page.new.items ≡ page.old.items ++ page_text (flat_map (spec.sees_row seen.now) seen.now.rows)) }
{
    push_rows_seen(alloc, seen, seen.rows.as_slice(), page)?;
    Ok(())
}

fn push_rows_seen(
    alloc: Global,
    seen: &Seen,
    rows: &[SeenRow],
    page: &mut Vec<u8>,
) -> Result<(), AllocError>
    ensures { OnOk result (page.new.items ≡ page.old.items ++ page_text (flat_map (spec.sees_row seen.now) rows.now)) }
{
    push_each_seen(alloc, seen, rows, page)?;
    Ok(())
}

fn push_each_seen(
    alloc: Global,
    seen: &Seen,
    mut rows: &[SeenRow],
    page: &mut Vec<u8>,
) -> Result<(), AllocError>
    ensures { OnOk result (page.new.items ≡ page.old.items ++ flat_map (λ row. page_text (spec.sees_row seen.now row)) rows.entry.now) }
{
    while let [row, rest @ ..] = rows {
        push_sees_row(alloc, seen, row, page)?;
        rows = rest;
    }
    Ok(())
}

fn push_sees_row(
    alloc: Global,
    seen: &Seen,
    row: &SeenRow,
    page: &mut Vec<u8>,
) -> Result<(), AllocError>
    ensures { OnOk result (page.new.items ≡ page.old.items ++ page_text (spec.sees_row seen.now row.now)) }
{
    push_tag(page, "<li><span class=\"v vals\">")?;
    push_line(alloc, seen, row, page)?;
    push_tag(page, "</span></li>")?;
    Ok(())
}

fn push_line(
    alloc: Global,
    seen: &Seen,
    row: &SeenRow,
    page: &mut Vec<u8>,
) -> Result<(), AllocError>
    ensures { OnOk result (page.new.items ≡ page.old.items ++ page_text (Data (seen_line [] seen.now row.now) ∷ [])) }
{
    let line = seen_line(alloc, "", seen, row)?;
    push_data(alloc, page, line.as_str())?;
    Ok(())
}

/// That it sees none.
#[tactic(auto, using(crate::proofs::PieceLemmas::page_nothing))]
fn push_sees_none(alloc: Global, seen: &Seen, page: &mut Vec<u8>) -> Result<(), AllocError>
    ensures { OnOk result (page.new.items ≡ page.old.items ++ page_text (spec.sees_none seen.now)) }
{
    if seen.rows.len() != 0 {
        return Ok(());
    }
    push_no_row(alloc, &seen.table, page)
}

fn push_no_row(alloc: Global, table: &Name, page: &mut Vec<u8>) -> Result<(), AllocError>
    ensures { OnOk result (page.new.items ≡ page.old.items ++ page_text (spec.no_row_of table.now)) }
{
    push_tag(page, "<li class=\"dim\">sees no row of ")?;
    push_name(alloc, page, table)?;
    push_tag(page, "</li>")?;
    Ok(())
}

/// How many more it sees.
#[tactic(auto, using(crate::proofs::PieceLemmas::page_nothing))]
fn push_sees_more(alloc: Global, seen: &Seen, page: &mut Vec<u8>) -> Result<(), AllocError>
    ensures { OnOk result (page.new.items ≡ page.old.items ++ page_text (spec.sees_more seen.now)) }
{
    let more = seen.more as u64;
    if more == 0 {
        return Ok(());
    }
    push_more_of(alloc, more, &seen.table, page)
}

fn push_more_of(
    alloc: Global,
    more: u64,
    table: &Name,
    page: &mut Vec<u8>,
) -> Result<(), AllocError>
    ensures { OnOk result (page.new.items ≡ page.old.items ++ page_text (spec.more_of more table.now)) }
{
    push_tag(page, "<li class=\"dim\">sees ")?;
    push_number(alloc, page, more)?;
    push_tag(page, " more")?;
    push_rows_word(more, page)?;
    push_tag(page, " of ")?;
    push_name(alloc, page, table)?;
    push_tag(page, "</li>")?;
    Ok(())
}

/// How many rows of the table are hidden from it.
#[tactic(auto, using(crate::proofs::PieceLemmas::page_nothing))]
fn push_sees_not(alloc: Global, seen: &Seen, page: &mut Vec<u8>) -> Result<(), AllocError>
    ensures { OnOk result (page.new.items ≡ page.old.items ++ page_text (spec.sees_not seen.now)) }
{
    let hidden = seen.hidden as u64;
    if hidden == 0 {
        return Ok(());
    }
    push_hidden_of(alloc, hidden, &seen.table, page)
}

fn push_hidden_of(
    alloc: Global,
    hidden: u64,
    table: &Name,
    page: &mut Vec<u8>,
) -> Result<(), AllocError>
    ensures { OnOk result (page.new.items ≡ page.old.items ++ page_text (spec.hidden_of hidden table.now)) }
{
    push_tag(page, "<li class=\"dim\">hidden: ")?;
    push_number(alloc, page, hidden)?;
    push_rows_word(hidden, page)?;
    push_tag(page, " of ")?;
    push_name(alloc, page, table)?;
    push_tag(page, "</li>")?;
    Ok(())
}
