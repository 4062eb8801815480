//! The rows that a role is shown of a table.

ghost use Rattle.std.specs.Prelude.{◌≡◌, Some, filter, IfOk};
ghost use Rattle.std.specs.List.{list_any};
ghost use Rattle.rls_value.specs.Values.{is_null};
ghost use Rattle.rls_meaning.specs.rls_guard.specs.rls_catalog.specs.State.{table_of};
ghost use Rattle.rls_meaning.specs.rls_guard.specs.rls_evaluation.specs.Showing.{shows};
ghost use Rattle.rls_expr.specs.Scopes.{in_scope};
ghost use Rattle.rls_judging.specs.Handed.{rows_borrowed};
ghost use Rattle.rls_meaning.specs.Showing.{rows_at_key};
ghost use Rattle.rls_explain.specs.Found as spec;

use crate::asking::{expansion_if, old_rows};
use crate::judging::put_row;
use rls_expr::FromTable;
use rls_judging::CheckContext;
use rls_meaning::rls_expansion::PolicyExpansion;
use rls_meaning::rls_guard::rls_catalog::{BorrowedRow, Catalog};
use rls_meaning::rls_guard::rls_evaluation::allows;
use rls_value::{Items, Kind, Name, Row};
use std::alloc::{AllocError, Global};

/// The rows of the table or, with a key, those that have it.
pub fn rows_at<'c>(
    alloc: Global,
    catalog: &'c Catalog,
    table: &Name,
    key: &Option<Row>,
) -> Result<Items<BorrowedRow<'c>>, AllocError>
    ensures { IfOk result (λ rows. rows ≡ rows_at_key catalog.now table.now key.now) }
{
    match key {
        None => catalog.rows(alloc, table),
        Some(key) => rows_with(alloc, catalog, table, key),
    }
}

/// Nobody's key has a null in it.
#[tactic(auto, using(crate::proofs::DetailLemmas::rows_keyed))]
fn rows_with<'c>(
    alloc: Global,
    catalog: &'c Catalog,
    table: &Name,
    key: &Row,
) -> Result<Items<BorrowedRow<'c>>, AllocError>
    ensures { IfOk result (λ rows. rows ≡ rows_at_key catalog.now table.now (Some key.now)) }
{
    if has_null(key) {
        Ok(Items::new(alloc))
    } else {
        catalog.rows_with_key(alloc, table, key)
    }
}

fn has_null(key: &Row) -> bool
    ensures { result ≡ list_any is_null key.now }
{
    key.as_slice().iter().any(|value| value.is_null())
}

/// Those of the rows of the table that the role is shown.
pub fn rows_seen<'r, 'c>(
    alloc: Global,
    catalog: &'c Catalog,
    role: &Name,
    name: &Name,
    rows: &'r [BorrowedRow<'c>],
) -> Result<Vec<&'r BorrowedRow<'c>>, AllocError>
    ensures { IfOk result (λ seen. rows_borrowed seen ≡ spec.rows_shown_found catalog.now role.now name.now (table_of catalog.now name.now) rows.now) }
{
    match catalog.table(name) {
        Some(table) => rows_shown(alloc, catalog, role, FromTable { name, table }, rows),
        None => Ok(Vec::new(alloc)),
    }
}

/// The same of a table that is there.
fn rows_shown<'r, 'c, 'x>(
    alloc: Global,
    catalog: &'c Catalog,
    role: &Name,
    from: FromTable<'x>,
    rows: &'r [BorrowedRow<'c>],
) -> Result<Vec<&'r BorrowedRow<'c>>, AllocError>
    ensures { IfOk result (λ seen. rows_borrowed seen ≡ spec.shown_found catalog.now role.now (in_scope from.entry) rows.now) }
{
    let kind = Kind::Select;
    let found = expansion_if(alloc, catalog, role, from, kind, false, &[])?;
    let seen = rows_under(alloc, catalog, role, &found, rows);
    drop(found);
    seen
}

/// The same under the policy expansion, if there is one.
fn rows_under<'r, 'c>(
    alloc: Global,
    catalog: &'c Catalog,
    role: &Name,
    found: &Option<PolicyExpansion<'c>>,
    rows: &'r [BorrowedRow<'c>],
) -> Result<Vec<&'r BorrowedRow<'c>>, AllocError>
    ensures { IfOk result (λ seen. rows_borrowed seen ≡ spec.shown_under catalog.now role.now rows.now found.now) }
{
    match found {
        Some(expansion) => rows_allowed(alloc, catalog, old_rows(expansion, role), rows),
        None => Ok(Vec::new(alloc)),
    }
}

fn rows_allowed<'a, 'r, 'c>(
    alloc: Global,
    catalog: &'c Catalog,
    context: CheckContext<'a, 'c>,
    rows: &'r [BorrowedRow<'c>],
) -> Result<Vec<&'r BorrowedRow<'c>>, AllocError>
    ensures { IfOk result (λ seen. rows_borrowed seen ≡ filter (spec.is_allowed catalog.now (shows context.entry.relations.now context.entry.role.now) context.entry.role.now context.entry.row_checks.now) rows.now) }
{
    let mut allowed = Vec::new(alloc);
    for stored in rows {
        if is_allowed(alloc, catalog, context, stored)? {
            allowed.push(stored)?;
        }
    }
    Ok(allowed)
}

/// Whether each decision allows the row.
fn is_allowed<'a, 'c>(
    alloc: Global,
    catalog: &'c Catalog,
    context: CheckContext<'a, 'c>,
    stored: &BorrowedRow<'c>,
) -> Result<bool, AllocError>
    ensures { IfOk result (λ is. is ≡ spec.is_allowed catalog.now (shows context.entry.relations.now context.entry.role.now) context.entry.role.now context.entry.row_checks.now stored.now) }
{
    let mut explained = Vec::new(alloc);
    put_row(
        alloc,
        catalog,
        context,
        stored.id(),
        stored.row(),
        &mut explained,
    )?;
    let allowed = explained.iter().all(|one| allows(&one.decision.verdict));
    drop(explained);
    Ok(allowed)
}
