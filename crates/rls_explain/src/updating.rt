//! UPDATE: decisions on the rows that it scans, and on the new versions of those that qualify.

ghost use Rattle.std.specs.Prelude.{◌≡◌, ◌++◌, Some, true, map, IfOk, OnOk};
ghost use Rattle.rls_value.specs.Giving.{Gives};
ghost use Rattle.rls_meaning.specs.rls_guard.specs.rls_catalog.specs.State.{table_of};
ghost use Rattle.rls_expr.specs.Scopes.{in_scope};
ghost use Rattle.rls_statement.specs.declared.statement.Statement.TheVariants as asked;
ghost use Rattle.rls_meaning.specs.rls_guard.specs.rls_evaluation.specs.{Environments.over, Showing.shows};
ghost use Rattle.rls_judging.specs.ScannedRows.{pinned_key};
ghost use Rattle.rls_meaning.specs.{Meaning.effect_of, Showing.rows_at_key};
ghost use Rattle.rls_meaning.specs.rls_expansion.specs.Used.{all_tables, tables_if};
ghost use Rattle.rls_explain.specs.Explaining.{decisions_of, explained_in};
ghost use Rattle.rls_explain.specs.Found as spec;

use crate::asking::{expansion_if, new_rows, old_rows, rows_qualifying, rows_scanned};
use crate::detailing::detailed_if;
use crate::explanation::{Explained, Wanted};
use crate::judging::{is_wanted, put_row, put_rows};
use crate::laws::decisions_found;
use crate::resolving::{UpdateParts, update_parts};
use crate::writing::row_written;
use rls_expr::{Column, Expr, FromTable, TableDef};
use rls_judging::CheckContext;
use rls_meaning::rls_access::Ctx;
use rls_meaning::rls_expansion::PolicyExpansion;
use rls_meaning::rls_guard::rls_catalog::{BorrowedRow, Catalog};
use rls_meaning::rls_guard::rls_evaluation::{Env, Scoped, SecuredRelation};
use rls_statement::Update;
use rls_value::{Items, Kind, Name, Refusal, Row};
use std::alloc::{AllocError, Global};

/// Explains the decisions of an UPDATE that are wanted, on rows and on what would come of them.
#[tactic(auto, using(crate::proofs::DecidedLemmas::update_without_table))]
pub fn explain_update(
    alloc: Global,
    catalog: &Catalog,
    ctx: &Ctx,
    update: &Update,
    reads: bool,
    wanted: Wanted,
) -> Result<Items<Explained>, AllocError>
    requires decided { spec.is_decided wanted (decisions_of (effect_of catalog.now ctx.now (asked.Update update.now))) ≡ true }
    requires reads { spec.are_read (decisions_of (effect_of catalog.now ctx.now (asked.Update update.now))) ≡ reads }
    ensures { IfOk result (λ explained. explained ≡ explained_in catalog.now ctx.now (asked.Update update.now) (Some wanted)) }
{
    match catalog.table(&update.table) {
        Some(table) => explain_updated(alloc, catalog, ctx, update, table, reads, wanted),
        None => Ok(Items::new(alloc)),
    }
}

/// The same of a table that is there.
fn explain_updated(
    alloc: Global,
    catalog: &Catalog,
    ctx: &Ctx,
    update: &Update,
    table: &TableDef,
    reads: bool,
    wanted: Wanted,
) -> Result<Items<Explained>, AllocError>
    requires there { table_of catalog.now update.now.table ≡ Some table.now }
    requires decided { spec.is_decided wanted (decisions_of (effect_of catalog.now ctx.now (asked.Update update.now))) ≡ true }
    requires reads { spec.are_read (decisions_of (effect_of catalog.now ctx.now (asked.Update update.now))) ≡ reads }
    ensures { IfOk result (λ explained. explained ≡ explained_in catalog.now ctx.now (asked.Update update.now) (Some wanted)) }
{
    decisions_found();
    let from = FromTable {
        name: &update.table,
        table,
    };
    let parts = update_parts(alloc, catalog, from, update)?;
    let explained = explain_parts(alloc, catalog, &ctx.role, from, &parts, reads, wanted);
    drop(parts);
    explained
}

/// Explains the decisions by the parts of the statement.
fn explain_parts<'x>(
    alloc: Global,
    catalog: &Catalog,
    role: &Name,
    from: FromTable<'x>,
    parts: &UpdateParts,
    reads: bool,
    wanted: Wanted,
) -> Result<Items<Explained>, AllocError>
    ensures { IfOk result (λ explained. explained ≡ spec.update_found catalog.now role.now (in_scope from.entry) wanted from.entry.table.now.columns parts.now.places.items parts.now.values parts.now.condition (rows_at_key catalog.now from.entry.name.now (pinned_key role.now from.entry.table.now.key parts.now.condition)) (spec.expansion_found catalog.now role.now (in_scope from.entry) Kind.Update reads (all_tables parts.now.values ++ tables_if parts.now.condition))) }
{
    let queries = parts.tables(alloc)?;
    let kind = Kind::Update;
    let found = expansion_if(alloc, catalog, role, from, kind, reads, queries.as_slice());
    drop(queries);
    let found = found?;
    let explained = explain_if(alloc, catalog, role, from, parts, wanted, &found);
    drop(found);
    explained
}

/// The same under the policy expansion, if there is one.
fn explain_if<'c, 'x>(
    alloc: Global,
    catalog: &'c Catalog,
    role: &Name,
    from: FromTable<'x>,
    parts: &UpdateParts,
    wanted: Wanted,
    found: &Option<PolicyExpansion<'c>>,
) -> Result<Items<Explained>, AllocError>
    ensures { IfOk result (λ explained. explained ≡ spec.update_found catalog.now role.now (in_scope from.entry) wanted from.entry.table.now.columns parts.now.places.items parts.now.values parts.now.condition (rows_at_key catalog.now from.entry.name.now (pinned_key role.now from.entry.table.now.key parts.now.condition)) found.now) }
{
    match found {
        Some(expansion) => explain_under(alloc, catalog, role, from, parts, wanted, expansion),
        None => Ok(Items::new(alloc)),
    }
}

fn explain_under<'c, 'x>(
    alloc: Global,
    catalog: &'c Catalog,
    role: &Name,
    from: FromTable<'x>,
    parts: &UpdateParts,
    wanted: Wanted,
    expansion: &PolicyExpansion<'c>,
) -> Result<Items<Explained>, AllocError>
    ensures { IfOk result (λ explained. explained ≡ spec.update_found catalog.now role.now (in_scope from.entry) wanted from.entry.table.now.columns parts.now.places.items parts.now.values parts.now.condition (rows_at_key catalog.now from.entry.name.now (pinned_key role.now from.entry.table.now.key parts.now.condition)) (Some expansion.now)) }
{
    let scanned = rows_scanned(alloc, catalog, role, from, &parts.condition)?;
    let rows = scanned.as_slice();
    let qualifying = rows_qualifying(alloc, catalog, role, expansion, &parts.condition, rows)?;
    let columns = from.table.columns.as_slice();
    let explained = explain_both(
        alloc,
        catalog,
        role,
        columns,
        parts,
        wanted,
        expansion,
        rows,
        &qualifying,
    );
    drop(qualifying);
    let relations = expansion.relations.as_slice();
    detailed_if(
        alloc,
        catalog,
        wanted.long,
        role,
        from,
        relations,
        explained?,
    )
}

/// Explains the decisions on the rows that are scanned, then those on the new versions of the rows that qualify.
fn explain_both<'c>(
    alloc: Global,
    catalog: &'c Catalog,
    role: &Name,
    columns: &[Column],
    parts: &UpdateParts,
    wanted: Wanted,
    expansion: &PolicyExpansion<'c>,
    scanned: &[BorrowedRow<'c>],
    qualifying: &[&BorrowedRow<'c>],
) -> Result<Vec<Explained>, AllocError>
    ensures { IfOk result (λ explained. explained.items ≡ spec.rows_found catalog.now (shows expansion.now.relations role.now) role.now expansion.now.old wanted scanned.now ++ spec.versions_found catalog.now (shows expansion.now.relations role.now) role.now expansion.now.new columns.now parts.now.places.items parts.now.values wanted (map (λ row. row.now) qualifying.now)) }
{
    let mut explained = Vec::new(alloc);
    let old = old_rows(expansion, role);
    put_rows(alloc, catalog, old, wanted, scanned, &mut explained)?;
    let new = new_rows(expansion, role);
    put_versions(
        alloc,
        catalog,
        new,
        columns,
        parts,
        wanted,
        qualifying,
        &mut explained,
    )?;
    Ok(explained)
}

/// Explains the decisions on the new versions of the rows that are wanted, behind those that are there.
fn put_versions<'a, 'c>(
    alloc: Global,
    catalog: &'c Catalog,
    context: CheckContext<'a, 'c>,
    columns: &[Column],
    parts: &UpdateParts,
    wanted: Wanted,
    rows: &[&BorrowedRow<'c>],
    explained: &mut Vec<Explained>,
) -> Result<(), AllocError>
    ensures { OnOk result (explained.new.items ≡ explained.old.items ++ spec.versions_found catalog.now (shows context.entry.relations.now context.entry.role.now) context.entry.role.now context.entry.row_checks.now columns.now parts.now.places.items parts.now.values wanted (map (λ row. row.now) rows.now)) }
{
    for stored in rows {
        if is_wanted(wanted, stored.id()) {
            put_version(alloc, catalog, context, columns, parts, stored, explained)?;
        }
    }
    Ok(())
}

/// Explains the decisions on the new version of the row; none where a value is out of range.
fn put_version<'a, 'c>(
    alloc: Global,
    catalog: &'c Catalog,
    context: CheckContext<'a, 'c>,
    columns: &[Column],
    parts: &UpdateParts,
    stored: &BorrowedRow<'c>,
    explained: &mut Vec<Explained>,
) -> Result<(), AllocError>
    ensures { OnOk result (explained.new.items ≡ explained.old.items ++ spec.new_found catalog.now (shows context.entry.relations.now context.entry.role.now) context.entry.role.now context.entry.row_checks.now stored.now.id (spec.row_written catalog.now (shows context.entry.relations.now context.entry.role.now) (over context.entry.role.now stored.now.row) columns.now parts.now.places.items parts.now.values stored.now.row)) }
{
    let relations = &*context.relations;
    let role = &*context.role;
    let places = parts.places.as_slice();
    let terms = parts.values.as_slice();
    let row = stored.row();
    match new_version(alloc, catalog, relations, role, columns, places, terms, row) {
        Ok(row) => {
            let put = put_row(alloc, catalog, context, stored.id(), &row, explained);
            drop(row);
            put
        }
        Err(Refusal::NoMemory) => Err(AllocError),
        Err(refusal) => {
            drop(refusal);
            Ok(())
        }
    }
}

/// The row with its new values, over itself as it stands.
pub fn new_version<'a, 'c>(
    alloc: Global,
    catalog: &'c Catalog,
    relations: &'a [SecuredRelation<'c>],
    role: &'a Name,
    columns: &[Column],
    places: &[usize],
    terms: &'a [Expr],
    row: &'a Row,
) -> Result<Row, Refusal>
    ensures { Gives result (spec.row_written catalog.now (shows relations.now role.now) (over role.now row.now) columns.now places.now terms.now row.now) }
{
    let values = row.to_vec(alloc)?;
    let nothing = Scoped::Nothing;
    let env = Env {
        user: role,
        rows: Scoped::Over(row, &nothing),
    };
    row_written(
        alloc,
        catalog,
        &*relations,
        &env,
        columns,
        places,
        &*terms,
        values,
    )
}
