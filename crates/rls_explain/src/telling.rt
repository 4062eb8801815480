//! The rows that a subquery sees, and what its WHERE says of each.

ghost use Rattle.std.specs.Prelude.{◌≡◌, length, map, take, IfOk};
ghost use Rattle.rls_meaning.specs.rls_guard.specs.rls_catalog.specs.State.{table_of};
ghost use Rattle.rls_expr.specs.{ExprTerms.query_of, Terms.maybe_term};
ghost use Rattle.rls_meaning.specs.rls_guard.specs.rls_evaluation.specs.{Environments.inside, Environments.over, Keys.key_of as spec_key_of};
ghost use Rattle.rls_meaning.specs.Showing.{rows_at_key};
ghost use Rattle.rls_explain.specs.Details as spec;
ghost use Rattle.rls_explain.specs.Found.{rows_shown_found, sight_found};

use crate::details::{Seen, SeenRow};
use crate::seeing::{rows_at, rows_seen};
use crate::valuing::{Judged, value_inside};
use rls_expr::{Column, Expr, Subquery};
use rls_meaning::rls_guard::rls_catalog::{BorrowedRow, Catalog};
use rls_meaning::rls_guard::rls_evaluation::{Env, Scoped, key_of};
use rls_value::{Items, Name, Row, Truth, or_drop};
use std::alloc::{AllocError, Global};

/// So many rows of a table are told one by one.
pub const MAX_SEEN: usize = 20;

/// The rows that the subquery ranges over, the hidden ones too.
pub fn ranged_over<'a, 'c>(
    alloc: Global,
    catalog: &'c Catalog,
    judged: Judged<'a, 'c>,
    query: &Subquery,
) -> Result<Items<BorrowedRow<'c>>, AllocError>
    ensures { IfOk result (λ rows. rows ≡ rows_at_key catalog.now query.now.from.table (spec_key_of query.now.key.items (maybe_term query.now.condition) (over judged.entry.role.now judged.entry.row.now))) }
{
    let nothing = Scoped::Nothing;
    let env = Env {
        user: judged.role,
        rows: Scoped::Over(judged.row, &nothing),
    };
    let key = key_of(alloc, &query.key, &query.condition, &env)?;
    let rows = rows_at(alloc, catalog, &query.from.table, &key);
    drop(key);
    rows
}

/// The rows that the subquery sees.
pub fn seen_by<'a, 'c>(
    alloc: Global,
    catalog: &'c Catalog,
    judged: Judged<'a, 'c>,
    query: &Subquery,
) -> Result<Seen, AllocError>
    ensures { IfOk result (λ seen. seen ≡ spec.seen_by catalog.now (sight_found catalog.now judged.entry.relations.now judged.entry.role.now) (over judged.entry.role.now judged.entry.row.now) (query_of query.now)) }
{
    let rows = ranged_over(alloc, catalog, judged, query)?;
    let seen = seen_among(alloc, catalog, judged, query, rows.as_slice());
    drop(rows);
    seen
}

fn seen_among<'a, 'c>(
    alloc: Global,
    catalog: &'c Catalog,
    judged: Judged<'a, 'c>,
    query: &Subquery,
    rows: &[BorrowedRow<'c>],
) -> Result<Seen, AllocError>
    ensures { IfOk result (λ seen. seen ≡ spec.seen_from catalog.now (sight_found catalog.now judged.entry.relations.now judged.entry.role.now) (over judged.entry.role.now judged.entry.row.now) (query_of query.now) (length rows.now) (rows_shown_found catalog.now judged.entry.role.now query.now.from.table (table_of catalog.now query.now.from.table) rows.now)) }
{
    let seen = rows_seen(alloc, catalog, judged.role, &query.from.table, rows)?;
    let told = seen_of(alloc, catalog, judged, query, rows.len(), &seen);
    drop(seen);
    told
}

/// The first of these rows, and how many there are beside.
fn seen_of<'a, 'c>(
    alloc: Global,
    catalog: &'c Catalog,
    judged: Judged<'a, 'c>,
    query: &Subquery,
    all: usize,
    seen: &[&BorrowedRow<'c>],
) -> Result<Seen, AllocError>
    ensures { IfOk result (λ it. it ≡ spec.seen_from catalog.now (sight_found catalog.now judged.entry.relations.now judged.entry.role.now) (over judged.entry.role.now judged.entry.row.now) (query_of query.now) all (map (λ row. row.now) seen.now)) }
{
    let condition = &query.condition;
    let rows = rows_told(alloc, catalog, judged, condition, first_of(seen))?;
    let name = &query.from.table;
    let columns = or_drop!(columns_of(alloc, catalog, name), rows);
    let table = or_drop!(name.copy(), rows, columns);
    Ok(Seen {
        table,
        columns,
        rows,
        more: seen.len().saturating_sub(MAX_SEEN),
        hidden: all.saturating_sub(seen.len()),
    })
}

fn first_of<'x, 'r, 'c>(rows: &'x [&'r BorrowedRow<'c>]) -> &'x [&'r BorrowedRow<'c>]
    ensures { map (λ row. row.now) result.now ≡ take spec.MAX_SEEN (map (λ row. row.now) rows.now) }
{
    if rows.len() > MAX_SEEN {
        &rows[..MAX_SEEN]
    } else {
        rows
    }
}

/// Each of the rows, with what WHERE says of it.
fn rows_told<'a, 'c>(
    alloc: Global,
    catalog: &'c Catalog,
    judged: Judged<'a, 'c>,
    condition: &Option<Expr>,
    rows: &[&BorrowedRow<'c>],
) -> Result<Items<SeenRow>, AllocError>
    ensures { IfOk result (λ told. told ≡ map (spec.seen_row (sight_found catalog.now judged.entry.relations.now judged.entry.role.now) (over judged.entry.role.now judged.entry.row.now) (maybe_term condition.now)) (map (λ row. row.now) rows.now)) }
{
    let mut told = Vec::with_capacity(alloc, rows.len())?;
    for stored in rows {
        told.push(row_told(alloc, catalog, judged, condition, stored)?)?;
    }
    Ok(Items::from_vec(told))
}

fn row_told<'a, 'c>(
    alloc: Global,
    catalog: &'c Catalog,
    judged: Judged<'a, 'c>,
    condition: &Option<Expr>,
    stored: &BorrowedRow<'c>,
) -> Result<SeenRow, AllocError>
    ensures { IfOk result (λ told. told ≡ spec.seen_row (sight_found catalog.now judged.entry.relations.now judged.entry.role.now) (over judged.entry.role.now judged.entry.row.now) (maybe_term condition.now) stored.now) }
{
    let truth = where_on(alloc, catalog, judged, condition, stored.row())?;
    Ok(SeenRow {
        id: stored.id(),
        row: stored.row().copy(alloc)?,
        truth,
    })
}

fn where_on<'a, 'c>(
    alloc: Global,
    catalog: &'c Catalog,
    judged: Judged<'a, 'c>,
    condition: &Option<Expr>,
    row: &Row,
) -> Result<Truth, AllocError>
    ensures { IfOk result (λ truth. truth ≡ spec.where_by (sight_found catalog.now judged.entry.relations.now judged.entry.role.now) (inside row.now (over judged.entry.role.now judged.entry.row.now)) (maybe_term condition.now)) }
{
    match condition {
        None => Ok(Truth::True),
        Some(condition) => {
            let value = value_inside(alloc, catalog, judged, row, condition)?;
            let truth = value.truth();
            drop(value);
            Ok(truth)
        }
    }
}

/// The columns of the table; none where there is no table.
fn columns_of(alloc: Global, catalog: &Catalog, name: &Name) -> Result<Items<Column>, AllocError>
    ensures { IfOk result (λ columns. columns ≡ spec.columns_of (table_of catalog.now name.now)) }
{
    match catalog.table(name) {
        Some(table) => Column::copy_all(alloc, table.columns.as_slice()),
        None => Ok(Items::new(alloc)),
    }
}
