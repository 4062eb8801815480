//! What is answered of the qualifying rows of a statement, or of those that it writes.

ghost use Rattle.std.specs.Prelude.{◌≡◌, [], ◌∷◌, map, IfOk};
ghost use Rattle.rls_dml.specs.Listings as spec;

use crate::listing::listing_of;
use rls_evaluation::value_over;
use rls_expr::Expr;
use rls_guard::Reply;
use rls_guard::rls_catalog::{BorrowedRow, Stored};
use rls_statement::Selected;
use rls_value::shared::Share;
use rls_value::{Items, Name, Row, Value};
use std::alloc::{AllocError, Global};

/// What RETURNING selects of the rows or, without it, how many they are.
pub fn reply_of(
    alloc: Global,
    returning: &Option<Selected>,
    role: &Name,
    rows: &[&Row],
) -> Result<Reply, AllocError>
    ensures { IfOk result (λ reply. reply ≡ spec.reply_of returning.now role.now (map (λ row. row.now) rows.now)) }
{
    match returning {
        None => Ok(Reply::Count(rows.len() as u64)),
        Some(selected) => listed_reply(alloc, selected, role, rows),
    }
}

/// The selected of the rows, as a reply.
pub fn listed_reply(
    alloc: Global,
    selected: &Selected,
    role: &Name,
    rows: &[&Row],
) -> Result<Reply, AllocError>
    ensures { IfOk result (λ reply. reply ≡ Reply.Rows (spec.answered selected.now role.now (map (λ row. row.now) rows.now))) }
{
    let listed = answered(alloc, selected, role, rows)?;
    Ok(Reply::Rows(Share::new(alloc, listed)?))
}

/// The same of new rows.
pub fn reply_of_new(
    alloc: Global,
    returning: &Option<Selected>,
    role: &Name,
    new: &[Stored],
) -> Result<Reply, AllocError>
    ensures { IfOk result (λ reply. reply ≡ spec.reply_of returning.now role.now (map (λ stored. stored.row) new.now)) }
{
    let rows = new_rows(alloc, new)?;
    reply_of(alloc, returning, role, &rows)
}

/// The rows or their items' values, in listing order; or one row, with their number alone.
fn answered(
    alloc: Global,
    selected: &Selected,
    role: &Name,
    rows: &[&Row],
) -> Result<Items<Row>, AllocError>
    ensures { IfOk result (λ listed. listed ≡ spec.answered selected.now role.now (map (λ row. row.now) rows.now)) }
{
    match selected {
        Selected::All => whole_rows(alloc, rows),
        Selected::Items(items) => rows_of_items(alloc, items.as_slice(), role, rows),
        Selected::Count => number_alone(alloc, rows.len() as i64),
    }
}

fn whole_rows(alloc: Global, rows: &[&Row]) -> Result<Items<Row>, AllocError>
    ensures { IfOk result (λ listed. listed ≡ spec.listing (map (λ row. row.now) rows.now)) }
{
    let mut copies = Vec::with_capacity(alloc, rows.len())?;
    for row in rows {
        copies.push(row.copy(alloc)?)?;
    }
    listing_of(copies)
}

fn rows_of_items(
    alloc: Global,
    items: &[Expr],
    role: &Name,
    rows: &[&Row],
) -> Result<Items<Row>, AllocError>
    ensures { IfOk result (λ listed. listed ≡ spec.listing (map (spec.values_of items.now role.now) (map (λ row. row.now) rows.now))) }
{
    let mut all = Vec::with_capacity(alloc, rows.len())?;
    for row in rows {
        all.push(values_over(alloc, items, role, row)?)?;
    }
    listing_of(all)
}

fn values_over(alloc: Global, items: &[Expr], role: &Name, row: &Row) -> Result<Row, AllocError>
    ensures { IfOk result (λ values. values ≡ spec.values_of items.now role.now row.now) }
{
    let mut values = Vec::with_capacity(alloc, items.len())?;
    for item in items {
        values.push(value_over(alloc, item, role, row)?)?;
    }
    Row::new(values)
}

/// One row, with the number alone.
fn number_alone(alloc: Global, number: i64) -> Result<Items<Row>, AllocError>
    ensures { IfOk result (λ rows. rows ≡ (Value.Int number ∷ []) ∷ []) }
{
    let mut values = Vec::with_capacity(alloc, 1)?;
    values.push(Value::Int(number))?;
    let mut rows = Vec::with_capacity(alloc, 1)?;
    rows.push(Row::new(values)?)?;
    Ok(Items::from_vec(rows))
}

/// The rows as they stand.
pub fn standing_rows<'r, 'c>(
    alloc: Global,
    qualifying_rows: &'r [&'r BorrowedRow<'c>],
) -> Result<Vec<&'r Row>, AllocError>
    ensures { IfOk result (λ rows. map (λ row. row.now) rows.items ≡ map (λ stored. stored.row) (map (λ qualifying_row. qualifying_row.now) qualifying_rows.now)) }
{
    let mut rows = Vec::with_capacity(alloc, qualifying_rows.len())?;
    for qualifying_row in qualifying_rows {
        rows.push(qualifying_row.row())?;
    }
    Ok(rows)
}

/// The new rows.
fn new_rows<'r>(alloc: Global, new: &'r [Stored]) -> Result<Vec<&'r Row>, AllocError>
    ensures { IfOk result (λ rows. map (λ row. row.now) rows.items ≡ map (λ stored. stored.row) new.now) }
{
    let mut rows = Vec::with_capacity(alloc, new.len())?;
    for stored in new {
        rows.push(&stored.row)?;
    }
    Ok(rows)
}
