//! INSERT: its new rows, put or refused.

ghost use Rattle.std.specs.Prelude.{◌≡◌, ◌++◌, ◌+◌, ◌≤◌, Some, Ok, true, is_some, length, List, Result, IfOk, OnOk};
ghost use Rattle.rls_value.specs.{declared.refusal.Refusal.Refusal as SpecRefusal, declared.value.Value.Value as SpecValue, Giving.Gives};
ghost use Rattle.rls_meaning.specs.rls_guard.specs.rls_catalog.specs.State.{table_of};
ghost use Rattle.rls_expr.specs.Scopes.{in_scope};
ghost use Rattle.rls_statement.specs.declared.statement.Statement.TheVariants as asked;
ghost use Rattle.rls_meaning.specs.rls_guard.specs.rls_evaluation.specs.Showing.{shows};
ghost use Rattle.rls_meaning.specs.Meaning.{effect_of};
ghost use Rattle.rls_meaning.specs.rls_dml.specs.Inserting.{tuples_tables};
ghost use Rattle.rls_explain.specs.Explaining.{decisions_of};
ghost use Rattle.rls_explain.specs.Found.{Decides, are_read, expansion_found, on_row};
ghost use Rattle.rls_explain.specs.FoundOutcomes as finding;

use crate::asking::{expansion_if, new_rows};
use crate::fates::put_met;
use crate::inserting::new_row;
use crate::outcome::{Met, RowOutcome, RowWord};
use crate::outcome_laws::outcomes_found;
use crate::resolving::{InsertParts, insert_parts};
use crate::seen::{Looks, with_seen};
use crate::update_outcomes::{Ended, put_refused_one};
use rls_expr::{FromTable, TableDef};
use rls_judging::CheckContext;
use rls_meaning::rls_access::Ctx;
use rls_meaning::rls_expansion::PolicyExpansion;
use rls_meaning::rls_guard::rls_catalog::Catalog;
use rls_meaning::rls_guard::rls_source::Footprint;
use rls_statement::Insert;
use rls_value::{Items, Kind, Name, Refusal, Row, RowId};
use std::alloc::{AllocError, Global};

/// What an INSERT did, which decided on this row.
#[tactic(auto, using(crate::proofs::OutcomeLemmas::insert_decides_none))]
pub fn insert_outcomes(
    alloc: Global,
    catalog: &Catalog,
    ctx: &Ctx,
    insert: &Insert,
    reads: bool,
    done: bool,
    read: &Footprint,
    id: RowId,
) -> Result<Items<RowOutcome>, AllocError>
    requires decides { Decides catalog.now ctx.now (asked.Insert insert.now) (on_row id) }
    requires reads { are_read (decisions_of (effect_of catalog.now ctx.now (asked.Insert insert.now))) ≡ reads }
    ensures { IfOk result (λ rows. rows ≡ finding.told_of catalog.now ctx.now (asked.Insert insert.now) done read.now) }
{
    match catalog.table(&insert.table) {
        Some(table) => inserted_outcomes(alloc, catalog, ctx, insert, table, reads, done, read, id),
        None => Ok(Items::new(alloc)),
    }
}

/// The same of a table that is there.
fn inserted_outcomes(
    alloc: Global,
    catalog: &Catalog,
    ctx: &Ctx,
    insert: &Insert,
    table: &TableDef,
    reads: bool,
    done: bool,
    read: &Footprint,
    id: RowId,
) -> Result<Items<RowOutcome>, AllocError>
    requires there { table_of catalog.now insert.now.table ≡ Some table.now }
    requires decides { Decides catalog.now ctx.now (asked.Insert insert.now) (on_row id) }
    requires reads { are_read (decisions_of (effect_of catalog.now ctx.now (asked.Insert insert.now))) ≡ reads }
    ensures { IfOk result (λ rows. rows ≡ finding.told_of catalog.now ctx.now (asked.Insert insert.now) done read.now) }
{
    outcomes_found();
    let from = FromTable {
        name: &insert.table,
        table,
    };
    let returning = insert.returning.is_some();
    let ended = Ended { returning, done };
    let parts = insert_parts(alloc, catalog, table, insert)?;
    let rows = outcomes_by(alloc, catalog, ctx, from, &parts, reads, ended, read);
    drop(parts);
    rows
}

/// By the parts of the statement.
fn outcomes_by<'x>(
    alloc: Global,
    catalog: &Catalog,
    ctx: &Ctx,
    from: FromTable<'x>,
    parts: &InsertParts,
    reads: bool,
    ended: Ended,
    read: &Footprint,
) -> Result<Items<RowOutcome>, AllocError>
    requires { ctx.now.next + length parts.now.tuples ≤ 4294967295 }
    ensures { IfOk result (λ rows. rows ≡ finding.insert_told catalog.now ctx.now.role from.entry.name.now ctx.now.txn ctx.now.next from.entry.table.now.columns parts.now.places.items ended.returning ended.done read.now (tuples_tables parts.now.tuples) parts.now.tuples (expansion_found catalog.now ctx.now.role (in_scope from.entry) Kind.Insert reads (tuples_tables parts.now.tuples))) }
{
    let queries = parts.tables(alloc)?;
    let looks = Looks {
        queries: queries.as_slice(),
        read,
    };
    let rows = outcomes_looking(alloc, catalog, ctx, from, parts, reads, ended, looks);
    drop(queries);
    rows
}

/// The same, where subqueries look at these tables.
fn outcomes_looking<'x>(
    alloc: Global,
    catalog: &Catalog,
    ctx: &Ctx,
    from: FromTable<'x>,
    parts: &InsertParts,
    reads: bool,
    ended: Ended,
    looks: Looks<'x>,
) -> Result<Items<RowOutcome>, AllocError>
    requires { ctx.now.next + length parts.now.tuples ≤ 4294967295 }
    ensures { IfOk result (λ rows. rows ≡ finding.insert_told catalog.now ctx.now.role from.entry.name.now ctx.now.txn ctx.now.next from.entry.table.now.columns parts.now.places.items ended.returning ended.done looks.entry.read.now looks.entry.queries.now parts.now.tuples (expansion_found catalog.now ctx.now.role (in_scope from.entry) Kind.Insert reads looks.entry.queries.now)) }
{
    let role = &ctx.role;
    let kind = Kind::Insert;
    let found = expansion_if(alloc, catalog, role, from, kind, reads, looks.queries)?;
    let rows = outcomes_if(alloc, catalog, ctx, from, parts, ended, looks, &found);
    drop(found);
    rows
}

/// The same under the policy expansion, if there is one.
fn outcomes_if<'c, 'x>(
    alloc: Global,
    catalog: &'c Catalog,
    ctx: &Ctx,
    from: FromTable<'x>,
    parts: &InsertParts,
    ended: Ended,
    looks: Looks<'x>,
    found: &Option<PolicyExpansion<'c>>,
) -> Result<Items<RowOutcome>, AllocError>
    requires { ctx.now.next + length parts.now.tuples ≤ 4294967295 }
    ensures { IfOk result (λ rows. rows ≡ finding.insert_told catalog.now ctx.now.role from.entry.name.now ctx.now.txn ctx.now.next from.entry.table.now.columns parts.now.places.items ended.returning ended.done looks.entry.read.now looks.entry.queries.now parts.now.tuples found.now) }
{
    match found {
        Some(expansion) => {
            let role = &ctx.role;
            let context = new_rows(expansion, role);
            let outcomes = outcomes_of_tuples(alloc, catalog, ctx, context, from, parts, ended)?;
            with_seen(alloc, catalog, role, expansion, looks, outcomes)
        }
        None => Ok(Items::new(alloc)),
    }
}

/// The rows are numbered on from the transaction's next.
fn outcomes_of_tuples<'a, 'c, 'x>(
    alloc: Global,
    catalog: &'c Catalog,
    ctx: &Ctx,
    context: CheckContext<'a, 'c>,
    from: FromTable<'x>,
    parts: &InsertParts,
    ended: Ended,
) -> Result<Items<RowOutcome>, AllocError>
    requires { ctx.now.next + length parts.now.tuples ≤ 4294967295 }
    ensures { IfOk result (λ rows. rows ≡ finding.tuples_told (finding.tells_new catalog.now (shows context.entry.relations.now context.entry.role.now) context.entry.role.now context.entry.row_checks.now from.entry.name.now ended.returning ended.done) (finding.tuple_written catalog.now (shows context.entry.relations.now context.entry.role.now) context.entry.role.now from.entry.table.now.columns parts.now.places.items) ctx.now.txn ctx.now.next parts.now.tuples) }
{
    let mut outcomes = Vec::new(alloc);
    let mut n = ctx.next;
    for tuple in parts.tuples.as_slice() {
        let id = RowId { txn: ctx.txn, n };
        let columns = from.table.columns.as_slice();
        let places = parts.places.as_slice();
        let made = new_row(alloc, catalog, context, columns, places, tuple.as_slice());
        put_new(
            alloc,
            catalog,
            context,
            from.name,
            ended,
            id,
            made,
            &mut outcomes,
        )?;
        n += 1;
    }
    Ok(Items::from_vec(outcomes))
}

/// Tells of a new row.
fn put_new<'a, 'c>(
    alloc: Global,
    catalog: &'c Catalog,
    context: CheckContext<'a, 'c>,
    table: &Name,
    ended: Ended,
    id: RowId,
    made: Result<Row, Refusal>,
    outcomes: &mut Vec<RowOutcome>,
) -> Result<(), AllocError>
    ensures { (given : Result (List SpecValue) SpecRefusal) → Gives made given → OnOk result (outcomes.new.items ≡ outcomes.old.items ++ finding.tells_new catalog.now (shows context.entry.relations.now context.entry.role.now) context.entry.role.now context.entry.row_checks.now table.now ended.returning ended.done id given) }
{
    if ended.done {
        put_inserted(alloc, table, ended.returning, id, made, outcomes)
    } else {
        put_refused_one(alloc, catalog, context, table, id, made, outcomes)
    }
}

fn put_inserted(
    alloc: Global,
    table: &Name,
    returning: bool,
    id: RowId,
    made: Result<Row, Refusal>,
    outcomes: &mut Vec<RowOutcome>,
) -> Result<(), AllocError>
    ensures { (given : Result (List SpecValue) SpecRefusal) → Gives made given → OnOk result (outcomes.new.items ≡ outcomes.old.items ++ finding.inserted_by table.now returning id given) }
{
    match made {
        Ok(row) => {
            let word = RowWord::Inserted;
            let put = put_met(alloc, table, Met { word, returning }, id, &row, outcomes);
            drop(row);
            put
        }
        Err(Refusal::NoMemory) => Err(AllocError),
        Err(refusal) => {
            drop(refusal);
            Ok(())
        }
    }
}
