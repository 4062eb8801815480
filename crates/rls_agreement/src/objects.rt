//! Whether two states have the same content at an object.

ghost use Rattle.std.specs.Prelude.{◌≡◌, ◌↔◌, true, filter, IfOk};
ghost use Rattle.rls_catalog.specs.State.{AgreesAt, is_same_id};

use rls_catalog::{BorrowedRow, Catalog};
use rls_equality::{Same, are_both_same, are_same};
use rls_value::{Items, Name, Object, Row, RowId, or_drop};
use std::alloc::{AllocError, Global};
use std::cmp::Ordering;

/// Whether the two have the same content at the object.
pub(crate) fn agree_at(
    alloc: Global,
    left: &Catalog,
    right: &Catalog,
    object: &Object,
) -> Result<bool, AllocError>
    ensures { IfOk result (λ agree. (agree ≡ true) ↔ AgreesAt left.now right.now object.now) }
{
    match object {
        Object::Role(name) => Ok(are_both_same(left.role(name), right.role(name))),
        Object::Members(member) => Ok(left.members(member).is_same(right.members(member))),
        Object::Table(name) => Ok(are_both_same(left.table(name), right.table(name))),
        Object::Grants(table) => Ok(left.grants(table).is_same(right.grants(table))),
        Object::Policies(table) => Ok(left.policies(table).is_same(right.policies(table))),
        Object::Rows(table) => rows_agree(alloc, left, right, table),
        Object::Key(table, key) => key_agrees(alloc, left, right, table, key),
        Object::RowOf(table, id) => row_agrees(alloc, left, right, table, *id),
    }
}

fn rows_agree(
    alloc: Global,
    left: &Catalog,
    right: &Catalog,
    table: &Name,
) -> Result<bool, AllocError>
    ensures { IfOk result (λ agree. (agree ≡ true) ↔ AgreesAt left.now right.now (Object.Rows table.now)) }
{
    let found = left.rows(alloc, table)?;
    let others = or_drop!(right.rows(alloc, table), found);
    Ok(are_same(found.as_slice(), others.as_slice()))
}

fn key_agrees(
    alloc: Global,
    left: &Catalog,
    right: &Catalog,
    table: &Name,
    key: &Row,
) -> Result<bool, AllocError>
    ensures { IfOk result (λ agree. (agree ≡ true) ↔ AgreesAt left.now right.now (Object.Key table.now key.now)) }
{
    let found = left.rows_with_key(alloc, table, key)?;
    let others = or_drop!(right.rows_with_key(alloc, table, key), found);
    Ok(are_same(found.as_slice(), others.as_slice()))
}

fn row_agrees(
    alloc: Global,
    left: &Catalog,
    right: &Catalog,
    table: &Name,
    id: RowId,
) -> Result<bool, AllocError>
    ensures { IfOk result (λ agree. (agree ≡ true) ↔ AgreesAt left.now right.now (Object.RowOf table.now id)) }
{
    let found = with_number(left.rows(alloc, table)?, id);
    match right.rows(alloc, table) {
        Ok(others) => {
            let others = with_number(others, id);
            Ok(are_same(found.as_slice(), others.as_slice()))
        }
        Err(refused) => {
            drop(found);
            Err(refused)
        }
    }
}

/// Those rows that have the number; the others are let go.
fn with_number<'c>(rows: Items<BorrowedRow<'c>>, id: RowId) -> Items<BorrowedRow<'c>>
    ensures { result ≡ filter (λ stored. is_same_id id stored.id) rows.entry }
{
    let mut rows = rows.into_vec();
    rows.retain(|row| has_number(row, id));
    Items::from_vec(rows)
}

fn has_number<'c>(row: &BorrowedRow<'c>, id: RowId) -> bool
    ensures { result ≡ is_same_id id row.now.id }
{
    match id.cmp(&row.id()) {
        Ordering::Equal => true,
        Ordering::Less | Ordering::Greater => false,
    }
}
