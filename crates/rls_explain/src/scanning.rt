//! SELECT and DELETE: decisions on the rows that they scan.

ghost use Rattle.std.specs.Prelude.{◌≡◌, Some, true, unwrap_or, IfOk};
ghost use Rattle.rls_meaning.specs.rls_guard.specs.rls_catalog.specs.State.{table_of};
ghost use Rattle.rls_expr.specs.Scopes.{in_scope};
ghost use Rattle.rls_statement.specs.declared.statement.Statement.TheVariants as asked;
ghost use Rattle.rls_judging.specs.ScannedRows.{pinned_key};
ghost use Rattle.rls_meaning.specs.{Meaning.effect_of, Showing.rows_at_key};
ghost use Rattle.rls_meaning.specs.rls_expansion.specs.Used.{tables_if};
ghost use Rattle.rls_explain.specs.Explaining.{decisions_of, explained_in};
ghost use Rattle.rls_explain.specs.Found as spec;

use crate::asking::{expansion_if, old_rows, rows_scanned};
use crate::detailing::detailed_if;
use crate::explanation::{Explained, Wanted};
use crate::judging::put_rows;
use crate::laws::decisions_found;
use crate::resolving::{condition_in, tables_of};
use rls_expr::{Expr, FromTable, TableDef};
use rls_meaning::rls_access::Ctx;
use rls_meaning::rls_expansion::PolicyExpansion;
use rls_meaning::rls_guard::rls_catalog::Catalog;
use rls_statement::{Delete, Select};
use rls_value::{Items, Kind, Name};
use std::alloc::{AllocError, Global};

/// Explains the decisions of a SELECT that are wanted.
#[tactic(auto, using(crate::proofs::DecidedLemmas::select_without_table))]
pub fn explain_select(
    alloc: Global,
    catalog: &Catalog,
    ctx: &Ctx,
    select: &Select,
    wanted: Wanted,
) -> Result<Items<Explained>, AllocError>
    requires { spec.is_decided wanted (decisions_of (effect_of catalog.now ctx.now (asked.Select select.now))) ≡ true }
    ensures { IfOk result (λ explained. explained ≡ explained_in catalog.now ctx.now (asked.Select select.now) (Some wanted)) }
{
    match catalog.table(&select.table) {
        Some(table) => explain_selected(alloc, catalog, ctx, select, table, wanted),
        None => Ok(Items::new(alloc)),
    }
}

/// The same of a table that is there.
fn explain_selected(
    alloc: Global,
    catalog: &Catalog,
    ctx: &Ctx,
    select: &Select,
    table: &TableDef,
    wanted: Wanted,
) -> Result<Items<Explained>, AllocError>
    requires there { table_of catalog.now select.now.table ≡ Some table.now }
    requires decided { spec.is_decided wanted (decisions_of (effect_of catalog.now ctx.now (asked.Select select.now))) ≡ true }
    ensures { IfOk result (λ explained. explained ≡ explained_in catalog.now ctx.now (asked.Select select.now) (Some wanted)) }
{
    decisions_found();
    let scope = FromTable {
        name: qualifier_of(select),
        table,
    };
    let condition = condition_in(alloc, catalog, scope, &select.condition)?;
    let from = FromTable {
        name: &select.table,
        table,
    };
    let kind = Kind::Select;
    let explained = explain_scanned(
        alloc, catalog, &ctx.role, from, kind, false, &condition, wanted,
    );
    drop(condition);
    explained
}

/// What qualifies the table's columns: the alias or, without one, the table's name.
pub fn qualifier_of(select: &Select) -> &Name
    ensures { result.now ≡ unwrap_or select.now.alias select.now.table }
{
    match &select.alias {
        Some(alias) => alias,
        None => &select.table,
    }
}

/// Explains the decisions of a DELETE that are wanted.
#[tactic(auto, using(crate::proofs::DecidedLemmas::delete_without_table))]
pub fn explain_delete(
    alloc: Global,
    catalog: &Catalog,
    ctx: &Ctx,
    delete: &Delete,
    reads: bool,
    wanted: Wanted,
) -> Result<Items<Explained>, AllocError>
    requires decided { spec.is_decided wanted (decisions_of (effect_of catalog.now ctx.now (asked.Delete delete.now))) ≡ true }
    requires reads { spec.are_read (decisions_of (effect_of catalog.now ctx.now (asked.Delete delete.now))) ≡ reads }
    ensures { IfOk result (λ explained. explained ≡ explained_in catalog.now ctx.now (asked.Delete delete.now) (Some wanted)) }
{
    match catalog.table(&delete.table) {
        Some(table) => explain_deleted(alloc, catalog, ctx, delete, table, reads, wanted),
        None => Ok(Items::new(alloc)),
    }
}

/// The same of a table that is there.
fn explain_deleted(
    alloc: Global,
    catalog: &Catalog,
    ctx: &Ctx,
    delete: &Delete,
    table: &TableDef,
    reads: bool,
    wanted: Wanted,
) -> Result<Items<Explained>, AllocError>
    requires there { table_of catalog.now delete.now.table ≡ Some table.now }
    requires decided { spec.is_decided wanted (decisions_of (effect_of catalog.now ctx.now (asked.Delete delete.now))) ≡ true }
    requires reads { spec.are_read (decisions_of (effect_of catalog.now ctx.now (asked.Delete delete.now))) ≡ reads }
    ensures { IfOk result (λ explained. explained ≡ explained_in catalog.now ctx.now (asked.Delete delete.now) (Some wanted)) }
{
    decisions_found();
    let from = FromTable {
        name: &delete.table,
        table,
    };
    let condition = condition_in(alloc, catalog, from, &delete.condition)?;
    let kind = Kind::Delete;
    let explained = explain_scanned(
        alloc, catalog, &ctx.role, from, kind, reads, &condition, wanted,
    );
    drop(condition);
    explained
}

/// Explains the decisions on the rows that a command scans.
fn explain_scanned<'x>(
    alloc: Global,
    catalog: &Catalog,
    role: &Name,
    from: FromTable<'x>,
    kind: Kind,
    reads: bool,
    condition: &Option<Expr>,
    wanted: Wanted,
) -> Result<Items<Explained>, AllocError>
    ensures { IfOk result (λ explained. explained ≡ spec.scan_found catalog.now role.now (in_scope from.entry) wanted (rows_at_key catalog.now from.entry.name.now (pinned_key role.now from.entry.table.now.key condition.now)) (spec.expansion_found catalog.now role.now (in_scope from.entry) kind reads (tables_if condition.now))) }
{
    let queries = tables_of(alloc, condition)?;
    let found = expansion_if(alloc, catalog, role, from, kind, reads, queries.as_slice());
    drop(queries);
    let found = found?;
    let explained = explain_if(alloc, catalog, role, from, condition, wanted, &found);
    drop(found);
    explained
}

/// The same under the policy expansion, if there is one.
fn explain_if<'c, 'x>(
    alloc: Global,
    catalog: &'c Catalog,
    role: &Name,
    from: FromTable<'x>,
    condition: &Option<Expr>,
    wanted: Wanted,
    found: &Option<PolicyExpansion<'c>>,
) -> Result<Items<Explained>, AllocError>
    ensures { IfOk result (λ explained. explained ≡ spec.scan_found catalog.now role.now (in_scope from.entry) wanted (rows_at_key catalog.now from.entry.name.now (pinned_key role.now from.entry.table.now.key condition.now)) found.now) }
{
    match found {
        Some(expansion) => explain_under(alloc, catalog, role, from, condition, wanted, expansion),
        None => Ok(Items::new(alloc)),
    }
}

fn explain_under<'c, 'x>(
    alloc: Global,
    catalog: &'c Catalog,
    role: &Name,
    from: FromTable<'x>,
    condition: &Option<Expr>,
    wanted: Wanted,
    expansion: &PolicyExpansion<'c>,
) -> Result<Items<Explained>, AllocError>
    ensures { IfOk result (λ explained. explained ≡ spec.scan_found catalog.now role.now (in_scope from.entry) wanted (rows_at_key catalog.now from.entry.name.now (pinned_key role.now from.entry.table.now.key condition.now)) (Some expansion.now)) }
{
    let rows = rows_scanned(alloc, catalog, role, from, condition)?;
    let mut explained = Vec::new(alloc);
    put_rows(
        alloc,
        catalog,
        old_rows(expansion, role),
        wanted,
        rows.as_slice(),
        &mut explained,
    )?;
    drop(rows);
    let relations = expansion.relations.as_slice();
    detailed_if(
        alloc,
        catalog,
        wanted.long,
        role,
        from,
        relations,
        explained,
    )
}
