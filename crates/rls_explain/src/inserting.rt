//! INSERT: decisions on the rows of its tuples.

ghost use Rattle.std.specs.Prelude.{◌≡◌, ◌++◌, ◌+◌, ◌≤◌, Some, true, length, IfOk, OnOk};
ghost use Rattle.rls_value.specs.Giving.{Gives};
ghost use Rattle.rls_meaning.specs.rls_guard.specs.rls_catalog.specs.State.{table_of};
ghost use Rattle.rls_expr.specs.Scopes.{in_scope};
ghost use Rattle.rls_statement.specs.declared.statement.Statement.TheVariants as asked;
ghost use Rattle.rls_meaning.specs.rls_guard.specs.rls_evaluation.specs.{Environments.alone, Showing.shows};
ghost use Rattle.rls_meaning.specs.Meaning.{effect_of};
ghost use Rattle.rls_meaning.specs.rls_dml.specs.Inserting.{nulls as spec_nulls, tuples_tables};
ghost use Rattle.rls_explain.specs.Explaining.{decisions_of, explained_in};
ghost use Rattle.rls_explain.specs.Found as spec;

use crate::asking::{expansion_if, new_rows};
use crate::detailing::detailed_if;
use crate::explanation::{Explained, Wanted};
use crate::judging::{is_wanted, put_row};
use crate::laws::decisions_found;
use crate::resolving::{InsertParts, insert_parts};
use crate::writing::row_written;
use rls_expr::{Column, Expr, FromTable, TableDef};
use rls_judging::CheckContext;
use rls_meaning::rls_access::Ctx;
use rls_meaning::rls_expansion::PolicyExpansion;
use rls_meaning::rls_guard::rls_catalog::Catalog;
use rls_meaning::rls_guard::rls_evaluation::{Env, Scoped};
use rls_statement::Insert;
use rls_value::{Items, Kind, Refusal, Row, RowId, Value};
use std::alloc::{AllocError, Global};

/// Explains the decisions of an INSERT that are wanted.
#[tactic(auto, using(crate::proofs::DecidedLemmas::insert_without_table))]
pub fn explain_insert(
    alloc: Global,
    catalog: &Catalog,
    ctx: &Ctx,
    insert: &Insert,
    reads: bool,
    wanted: Wanted,
) -> Result<Items<Explained>, AllocError>
    requires decided { spec.is_decided wanted (decisions_of (effect_of catalog.now ctx.now (asked.Insert insert.now))) ≡ true }
    requires reads { spec.are_read (decisions_of (effect_of catalog.now ctx.now (asked.Insert insert.now))) ≡ reads }
    ensures { IfOk result (λ explained. explained ≡ explained_in catalog.now ctx.now (asked.Insert insert.now) (Some wanted)) }
{
    match catalog.table(&insert.table) {
        Some(table) => explain_inserted(alloc, catalog, ctx, insert, table, reads, wanted),
        None => Ok(Items::new(alloc)),
    }
}

/// The same of a table that is there.
fn explain_inserted(
    alloc: Global,
    catalog: &Catalog,
    ctx: &Ctx,
    insert: &Insert,
    table: &TableDef,
    reads: bool,
    wanted: Wanted,
) -> Result<Items<Explained>, AllocError>
    requires there { table_of catalog.now insert.now.table ≡ Some table.now }
    requires decided { spec.is_decided wanted (decisions_of (effect_of catalog.now ctx.now (asked.Insert insert.now))) ≡ true }
    requires reads { spec.are_read (decisions_of (effect_of catalog.now ctx.now (asked.Insert insert.now))) ≡ reads }
    ensures { IfOk result (λ explained. explained ≡ explained_in catalog.now ctx.now (asked.Insert insert.now) (Some wanted)) }
{
    decisions_found();
    let from = FromTable {
        name: &insert.table,
        table,
    };
    let parts = insert_parts(alloc, catalog, table, insert)?;
    let explained = explain_parts(alloc, catalog, ctx, from, &parts, reads, wanted);
    drop(parts);
    explained
}

/// Explains the decisions by the parts of the statement.
fn explain_parts<'x>(
    alloc: Global,
    catalog: &Catalog,
    ctx: &Ctx,
    from: FromTable<'x>,
    parts: &InsertParts,
    reads: bool,
    wanted: Wanted,
) -> Result<Items<Explained>, AllocError>
    requires { ctx.now.next + length parts.now.tuples ≤ 4294967295 }
    ensures { IfOk result (λ explained. explained ≡ spec.insert_found catalog.now ctx.now.role (in_scope from.entry) wanted ctx.now.txn ctx.now.next from.entry.table.now.columns parts.now.places.items parts.now.tuples (spec.expansion_found catalog.now ctx.now.role (in_scope from.entry) Kind.Insert reads (tuples_tables parts.now.tuples))) }
{
    let queries = parts.tables(alloc)?;
    let kind = Kind::Insert;
    let found = expansion_if(
        alloc,
        catalog,
        &ctx.role,
        from,
        kind,
        reads,
        queries.as_slice(),
    );
    drop(queries);
    let found = found?;
    let explained = explain_if(alloc, catalog, ctx, from, parts, wanted, &found);
    drop(found);
    explained
}

/// The same under the policy expansion, if there is one.
fn explain_if<'c, 'x>(
    alloc: Global,
    catalog: &'c Catalog,
    ctx: &Ctx,
    from: FromTable<'x>,
    parts: &InsertParts,
    wanted: Wanted,
    found: &Option<PolicyExpansion<'c>>,
) -> Result<Items<Explained>, AllocError>
    requires { ctx.now.next + length parts.now.tuples ≤ 4294967295 }
    ensures { IfOk result (λ explained. explained ≡ spec.insert_found catalog.now ctx.now.role (in_scope from.entry) wanted ctx.now.txn ctx.now.next from.entry.table.now.columns parts.now.places.items parts.now.tuples found.now) }
{
    match found {
        Some(expansion) => explain_under(alloc, catalog, ctx, from, parts, wanted, expansion),
        None => Ok(Items::new(alloc)),
    }
}

fn explain_under<'c, 'x>(
    alloc: Global,
    catalog: &'c Catalog,
    ctx: &Ctx,
    from: FromTable<'x>,
    parts: &InsertParts,
    wanted: Wanted,
    expansion: &PolicyExpansion<'c>,
) -> Result<Items<Explained>, AllocError>
    requires { ctx.now.next + length parts.now.tuples ≤ 4294967295 }
    ensures { IfOk result (λ explained. explained ≡ spec.insert_found catalog.now ctx.now.role (in_scope from.entry) wanted ctx.now.txn ctx.now.next from.entry.table.now.columns parts.now.places.items parts.now.tuples (Some expansion.now)) }
{
    let role = &ctx.role;
    let context = new_rows(expansion, role);
    let columns = from.table.columns.as_slice();
    let explained = explain_tuples(alloc, catalog, ctx, context, columns, parts, wanted)?;
    let relations = expansion.relations.as_slice();
    detailed_if(
        alloc,
        catalog,
        wanted.long,
        role,
        from,
        relations,
        explained,
    )
}

/// The rows are numbered on from the transaction's next.
fn explain_tuples<'a, 'c>(
    alloc: Global,
    catalog: &'c Catalog,
    ctx: &Ctx,
    context: CheckContext<'a, 'c>,
    columns: &[Column],
    parts: &InsertParts,
    wanted: Wanted,
) -> Result<Vec<Explained>, AllocError>
    requires { ctx.now.next + length parts.now.tuples ≤ 4294967295 }
    ensures { IfOk result (λ explained. explained.items ≡ spec.tuples_found catalog.now (shows context.entry.relations.now context.entry.role.now) context.entry.role.now context.entry.row_checks.now columns.now parts.now.places.items wanted ctx.now.txn ctx.now.next parts.now.tuples) }
{
    let mut explained = Vec::new(alloc);
    let mut n = ctx.next;
    for tuple in parts.tuples.as_slice() {
        let own = RowId { txn: ctx.txn, n };
        let places = parts.places.as_slice();
        if is_wanted(wanted, own) {
            put_new(
                alloc,
                catalog,
                context,
                columns,
                places,
                own,
                tuple.as_slice(),
                &mut explained,
            )?;
        }
        n += 1;
    }
    Ok(explained)
}

/// Explains the decisions on the row of the tuple; none where a value is out of range.
fn put_new<'a, 'c>(
    alloc: Global,
    catalog: &'c Catalog,
    context: CheckContext<'a, 'c>,
    columns: &[Column],
    places: &[usize],
    id: RowId,
    tuple: &[Expr],
    explained: &mut Vec<Explained>,
) -> Result<(), AllocError>
    ensures { OnOk result (explained.new.items ≡ explained.old.items ++ spec.new_found catalog.now (shows context.entry.relations.now context.entry.role.now) context.entry.role.now context.entry.row_checks.now id (spec.row_written catalog.now (shows context.entry.relations.now context.entry.role.now) (alone context.entry.role.now) columns.now places.now tuple.now (spec_nulls columns.now))) }
{
    match new_row(alloc, catalog, context, columns, places, tuple) {
        Ok(row) => {
            let put = put_row(alloc, catalog, context, id, &row, explained);
            drop(row);
            put
        }
        Err(Refusal::NoMemory) => Err(AllocError),
        Err(refusal) => {
            drop(refusal);
            Ok(())
        }
    }
}

/// The row of the tuple; columns without a value are null.
pub fn new_row<'a, 'c>(
    alloc: Global,
    catalog: &'c Catalog,
    context: CheckContext<'a, 'c>,
    columns: &[Column],
    places: &[usize],
    tuple: &[Expr],
) -> Result<Row, Refusal>
    ensures { Gives result (spec.row_written catalog.now (shows context.entry.relations.now context.entry.role.now) (alone context.entry.role.now) columns.now places.now tuple.now (spec_nulls columns.now)) }
{
    let row = nulls(alloc, columns)?;
    let env = Env {
        user: context.role,
        rows: Scoped::Nothing,
    };
    row_written(
        alloc,
        catalog,
        context.relations,
        &env,
        columns,
        places,
        tuple,
        row,
    )
}

/// A null for each column.
fn nulls(alloc: Global, columns: &[Column]) -> Result<Vec<Value>, AllocError>
    ensures { IfOk result (λ values. values.items ≡ spec_nulls columns.now) }
{
    let mut values = Vec::with_capacity(alloc, columns.len())?;
    for _column in columns {
        values.push(Value::Null)?;
    }
    Ok(values)
}
