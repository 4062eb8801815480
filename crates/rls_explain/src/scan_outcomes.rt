//! SELECT and DELETE: what they did with the rows that they scan.

ghost use Rattle.std.specs.Prelude.{◌≡◌, Some, true, is_some, unwrap_or, IfOk};
ghost use Rattle.rls_meaning.specs.rls_guard.specs.rls_catalog.specs.State.{table_of};
ghost use Rattle.rls_expr.specs.Scopes.{in_scope};
ghost use Rattle.rls_statement.specs.declared.statement.Statement.TheVariants as asked;
ghost use Rattle.rls_meaning.specs.rls_guard.specs.rls_evaluation.specs.Showing.{shows};
ghost use Rattle.rls_judging.specs.ScannedRows.{pinned_key};
ghost use Rattle.rls_meaning.specs.{Meaning.effect_of, Showing.rows_at_key};
ghost use Rattle.rls_meaning.specs.rls_expansion.specs.Used.{tables_if};
ghost use Rattle.rls_explain.specs.Explaining.{decisions_of};
ghost use Rattle.rls_explain.specs.Found.{Decides, are_read, expansion_found, on_row};
ghost use Rattle.rls_explain.specs.FoundOutcomes as finding;
ghost use Rattle.rls_explain.specs.Outcomes as spec;

use crate::asking::{expansion_if, old_rows, rows_scanned};
use crate::fates::put_scanned;
use crate::outcome::{Met, RowOutcome, RowWord};
use crate::outcome_laws::outcomes_found;
use crate::resolving::{condition_in, tables_of};
use crate::scanning::qualifier_of;
use crate::seen::{Looks, with_seen};
use rls_expr::{Expr, FromTable, TableDef};
use rls_judging::CheckContext;
use rls_meaning::rls_access::Ctx;
use rls_meaning::rls_expansion::PolicyExpansion;
use rls_meaning::rls_guard::rls_catalog::{BorrowedRow, Catalog};
use rls_meaning::rls_guard::rls_source::Footprint;
use rls_statement::{Delete, Select, Selected};
use rls_value::{Items, Kind, Name, RowId};
use std::alloc::{AllocError, Global};

/// What a SELECT did, which decided on this row.
#[tactic(auto, using(crate::proofs::OutcomeLemmas::select_decides_none))]
pub fn select_outcomes(
    alloc: Global,
    catalog: &Catalog,
    ctx: &Ctx,
    select: &Select,
    done: bool,
    read: &Footprint,
    id: RowId,
) -> Result<Items<RowOutcome>, AllocError>
    requires decides { Decides catalog.now ctx.now (asked.Select select.now) (on_row id) }
    ensures { IfOk result (λ rows. rows ≡ finding.told_of catalog.now ctx.now (asked.Select select.now) done read.now) }
{
    match catalog.table(&select.table) {
        Some(table) => selected_outcomes(alloc, catalog, ctx, select, table, done, read, id),
        None => Ok(Items::new(alloc)),
    }
}

/// The same of a table that is there.
fn selected_outcomes(
    alloc: Global,
    catalog: &Catalog,
    ctx: &Ctx,
    select: &Select,
    table: &TableDef,
    done: bool,
    read: &Footprint,
    id: RowId,
) -> Result<Items<RowOutcome>, AllocError>
    requires there { table_of catalog.now select.now.table ≡ Some table.now }
    requires decides { Decides catalog.now ctx.now (asked.Select select.now) (on_row id) }
    ensures { IfOk result (λ rows. rows ≡ finding.told_of catalog.now ctx.now (asked.Select select.now) done read.now) }
{
    outcomes_found();
    let scope = FromTable {
        name: qualifier_of(select),
        table,
    };
    let condition = condition_in(alloc, catalog, scope, &select.condition)?;
    let from = FromTable {
        name: &select.table,
        table,
    };
    let kind = Kind::Select;
    let met = listed_as(&select.items);
    let rows = scan_outcomes(
        alloc, catalog, &ctx.role, from, kind, false, &condition, met, read,
    );
    drop(condition);
    rows
}

/// A SELECT lists rows, or counts them.
fn listed_as(items: &Selected) -> Met
    ensures { result ≡ spec.listed_as items.now }
{
    let word = match items {
        Selected::Count => RowWord::Counted,
        Selected::All | Selected::Items(_) => RowWord::Listed,
    };
    Met {
        word,
        returning: false,
    }
}

/// What a DELETE did, which decided on this row.
#[tactic(auto, using(crate::proofs::OutcomeLemmas::delete_decides_none))]
pub fn delete_outcomes(
    alloc: Global,
    catalog: &Catalog,
    ctx: &Ctx,
    delete: &Delete,
    reads: bool,
    done: bool,
    read: &Footprint,
    id: RowId,
) -> Result<Items<RowOutcome>, AllocError>
    requires decides { Decides catalog.now ctx.now (asked.Delete delete.now) (on_row id) }
    requires reads { are_read (decisions_of (effect_of catalog.now ctx.now (asked.Delete delete.now))) ≡ reads }
    ensures { IfOk result (λ rows. rows ≡ finding.told_of catalog.now ctx.now (asked.Delete delete.now) done read.now) }
{
    match catalog.table(&delete.table) {
        Some(table) => deleted_outcomes(alloc, catalog, ctx, delete, table, reads, done, read, id),
        None => Ok(Items::new(alloc)),
    }
}

/// The same of a table that is there.
fn deleted_outcomes(
    alloc: Global,
    catalog: &Catalog,
    ctx: &Ctx,
    delete: &Delete,
    table: &TableDef,
    reads: bool,
    done: bool,
    read: &Footprint,
    id: RowId,
) -> Result<Items<RowOutcome>, AllocError>
    requires there { table_of catalog.now delete.now.table ≡ Some table.now }
    requires decides { Decides catalog.now ctx.now (asked.Delete delete.now) (on_row id) }
    requires reads { are_read (decisions_of (effect_of catalog.now ctx.now (asked.Delete delete.now))) ≡ reads }
    ensures { IfOk result (λ rows. rows ≡ finding.told_of catalog.now ctx.now (asked.Delete delete.now) done read.now) }
{
    outcomes_found();
    let from = FromTable {
        name: &delete.table,
        table,
    };
    let condition = condition_in(alloc, catalog, from, &delete.condition)?;
    let kind = Kind::Delete;
    let word = RowWord::Deleted;
    let returning = delete.returning.is_some();
    let met = Met { word, returning };
    let rows = scan_outcomes(
        alloc, catalog, &ctx.role, from, kind, reads, &condition, met, read,
    );
    drop(condition);
    rows
}

/// Of the rows that a command scans; those that are met so.
fn scan_outcomes<'x>(
    alloc: Global,
    catalog: &Catalog,
    role: &Name,
    from: FromTable<'x>,
    kind: Kind,
    reads: bool,
    condition: &Option<Expr>,
    met: Met,
    read: &Footprint,
) -> Result<Items<RowOutcome>, AllocError>
    ensures { IfOk result (λ rows. rows ≡ finding.scan_told catalog.now role.now from.entry.name.now condition.now met read.now (tables_if condition.now) (rows_at_key catalog.now from.entry.name.now (pinned_key role.now from.entry.table.now.key condition.now)) (expansion_found catalog.now role.now (in_scope from.entry) kind reads (tables_if condition.now))) }
{
    let queries = tables_of(alloc, condition)?;
    let looks = Looks {
        queries: queries.as_slice(),
        read,
    };
    let rows = outcomes_looking(
        alloc, catalog, role, from, kind, reads, condition, met, looks,
    );
    drop(queries);
    rows
}

/// The same, where subqueries look at these tables.
fn outcomes_looking<'x>(
    alloc: Global,
    catalog: &Catalog,
    role: &Name,
    from: FromTable<'x>,
    kind: Kind,
    reads: bool,
    condition: &Option<Expr>,
    met: Met,
    looks: Looks<'x>,
) -> Result<Items<RowOutcome>, AllocError>
    ensures { IfOk result (λ rows. rows ≡ finding.scan_told catalog.now role.now from.entry.name.now condition.now met looks.entry.read.now looks.entry.queries.now (rows_at_key catalog.now from.entry.name.now (pinned_key role.now from.entry.table.now.key condition.now)) (expansion_found catalog.now role.now (in_scope from.entry) kind reads looks.entry.queries.now)) }
{
    let found = expansion_if(alloc, catalog, role, from, kind, reads, looks.queries)?;
    let rows = outcomes_if(alloc, catalog, role, from, condition, met, looks, &found);
    drop(found);
    rows
}

/// The same under the policy expansion, if there is one.
fn outcomes_if<'c, 'x>(
    alloc: Global,
    catalog: &'c Catalog,
    role: &Name,
    from: FromTable<'x>,
    condition: &Option<Expr>,
    met: Met,
    looks: Looks<'x>,
    found: &Option<PolicyExpansion<'c>>,
) -> Result<Items<RowOutcome>, AllocError>
    ensures { IfOk result (λ rows. rows ≡ finding.scan_told catalog.now role.now from.entry.name.now condition.now met looks.entry.read.now looks.entry.queries.now (rows_at_key catalog.now from.entry.name.now (pinned_key role.now from.entry.table.now.key condition.now)) found.now) }
{
    match found {
        Some(expansion) => {
            outcomes_under(alloc, catalog, role, from, condition, met, looks, expansion)
        }
        None => Ok(Items::new(alloc)),
    }
}

fn outcomes_under<'c, 'x>(
    alloc: Global,
    catalog: &'c Catalog,
    role: &Name,
    from: FromTable<'x>,
    condition: &Option<Expr>,
    met: Met,
    looks: Looks<'x>,
    expansion: &PolicyExpansion<'c>,
) -> Result<Items<RowOutcome>, AllocError>
    ensures { IfOk result (λ rows. rows ≡ finding.scan_told catalog.now role.now from.entry.name.now condition.now met looks.entry.read.now looks.entry.queries.now (rows_at_key catalog.now from.entry.name.now (pinned_key role.now from.entry.table.now.key condition.now)) (Some expansion.now)) }
{
    let rows = rows_scanned(alloc, catalog, role, from, condition)?;
    let outcomes = scanned_outcomes(
        alloc,
        catalog,
        old_rows(expansion, role),
        from.name,
        condition,
        met,
        rows.as_slice(),
    );
    drop(rows);
    with_seen(alloc, catalog, role, expansion, looks, outcomes?)
}

/// Of the rows that are scanned.
fn scanned_outcomes<'a, 'c>(
    alloc: Global,
    catalog: &'c Catalog,
    context: CheckContext<'a, 'c>,
    table: &Name,
    condition: &Option<Expr>,
    met: Met,
    rows: &[BorrowedRow<'c>],
) -> Result<Items<RowOutcome>, AllocError>
    ensures { IfOk result (λ outcomes. outcomes ≡ finding.scanned_found catalog.now (shows context.entry.relations.now context.entry.role.now) context.entry.role.now context.entry.row_checks.now table.now condition.now (spec.met_as table.now met) rows.now) }
{
    let mut outcomes = Vec::new(alloc);
    put_scanned(
        alloc,
        catalog,
        context,
        table,
        condition,
        met,
        rows,
        &mut outcomes,
    )?;
    Ok(Items::from_vec(outcomes))
}
