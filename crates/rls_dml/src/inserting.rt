//! INSERT.

ghost use Rattle.std.specs.Prelude.{◌≡◌, ◌+◌, ◌≤◌, [], ◌∷◌, None, length, map, take, IfOk};
ghost use Rattle.rls_value.specs.Giving.{Gives};
ghost use Rattle.rls_guard.specs.rls_source.specs.Answering.{Answers, Tells};
ghost use Rattle.rls_dml.specs.{Listings.reply_of as spec_reply_of, Checking.columns_at, Checking.has_some as spec_has_some, Writing.assigned, Writing.checks_of, Writing.each_with, Writing.rows_or_refused, Writing.order_of as spec_order_of};
ghost use Rattle.rls_evaluation.specs.Scoping.{datum_value};
ghost use Rattle.rls_expansion.specs.Expanding.{expansion_of, permission_checks};
ghost use Rattle.rls_judging.specs.{Handed.datum_values_each, Handed.datum_values, Valuing.tuples_of};
ghost use Rattle.rls_dml.specs.Inserting as spec;

use crate::analysed_insert::{AnalysedInsert, known_analysed_insert, tuples_selected};
use crate::checking::{columns_read, has_some, put_returning, returns_all};
use crate::checking_rows::judged_under;
use crate::keys::key_at;
use crate::replaced::Replaced;
use crate::replying::reply_of_new;
use crate::writing::{
    assign, behind_first, checks_of, first_of, is_written, order_of, require_all, require_rows,
};
use rls_evaluation::Datum;
use rls_expansion::{PolicyExpansion, expansion_of, put_all_tables};
use rls_expr::{Column, Expr, FromTable, TableDef, put_if};
use rls_guard::rls_catalog::{Change, Delta, Keyed, RowChange, Stored};
use rls_guard::rls_source::Asker;
use rls_guard::{Ctx, Decision, Effect, PermissionCheck, RolePrivileges, role_privileges_of};
use rls_judging::tuples_of;
use rls_statement::{Insert, Selected};
use rls_value::{Items, Kind, Name, Privilege, Refusal, Row, RowId, Value};
use std::alloc::{AllocError, Global};

/// Adds the rows of the tuples.
pub fn run_insert(asker: &mut Asker, ctx: &Ctx, insert: &Insert) -> Result<Effect, Refusal>
    ensures { Answers (spec.insert ctx.now insert.now) asker.old asker.new result }
{
    let table = asker.table_named(&insert.table)?;
    let from = FromTable {
        name: &insert.table,
        table,
    };
    let analysed_insert = known_analysed_insert(asker, ctx, insert, table)?;
    let inserted = insert_into(asker, ctx, from, &analysed_insert);
    drop(analysed_insert);
    inserted
}

/// Who the role is, and then the rows.
#[tactic(auto, unfolding(crate::specs::Inserting::insert_into))]
fn insert_into<'x>(
    asker: &mut Asker,
    ctx: &Ctx,
    from: FromTable<'x>,
    analysed_insert: &AnalysedInsert,
) -> Result<Effect, Refusal>
    requires { ctx.now.next + length analysed_insert.now.tuples ≤ 4294967295 }
    ensures { Answers (spec.insert_into ctx.now from.entry.name.now from.entry.table.now analysed_insert.now) asker.old asker.new result }
{
    let role_privileges = role_privileges_of(asker, &ctx.role)?;
    let inserted = insert_as(asker, ctx, from, &role_privileges, analysed_insert);
    drop(role_privileges);
    inserted
}

/// The policy expansion, and then the new rows.
#[tactic(auto, unfolding(crate::specs::Inserting::insert_as))]
fn insert_as<'x>(
    asker: &mut Asker,
    ctx: &Ctx,
    from: FromTable<'x>,
    role_privileges: &RolePrivileges,
    analysed_insert: &AnalysedInsert,
) -> Result<Effect, Refusal>
    requires { ctx.now.next + length analysed_insert.now.tuples ≤ 4294967295 }
    ensures { Answers (spec.insert_as ctx.now from.entry.name.now from.entry.table.now role_privileges.now analysed_insert.now) asker.old asker.new result }
{
    let expansion = expansion(asker, role_privileges, from, analysed_insert)?;
    let inserted = insert_with_quals(
        asker,
        ctx,
        from,
        role_privileges,
        &expansion,
        analysed_insert,
    );
    drop(expansion);
    inserted
}

/// The policy expansion of the new rows.
fn expansion<'c, 'x>(
    asker: &mut Asker<'c>,
    role_privileges: &RolePrivileges,
    from: FromTable<'x>,
    analysed_insert: &AnalysedInsert,
) -> Result<PolicyExpansion<'c>, Refusal>
    ensures { Answers (expansion_of role_privileges.now from.entry.name.now from.entry.table.now Kind.Insert (spec_has_some (spec.insert_columns_read from.entry.table.now analysed_insert.now)) (spec.tuples_tables analysed_insert.now.tuples)) asker.old asker.new result }
{
    let columns = columns_returned(asker.alloc(), from.table, analysed_insert)?;
    let reads = has_some(columns.as_slice());
    drop(columns);
    let tables = tuples_tables(asker.alloc(), analysed_insert.tuples.as_slice())?;
    let expansion = expansion_of(
        asker,
        role_privileges,
        from,
        Kind::Insert,
        reads,
        tables.as_slice(),
    );
    drop(tables);
    expansion
}

/// The tables of the tuples' subqueries, in text order.
fn tuples_tables(alloc: Global, tuples: &[Items<Expr>]) -> Result<Items<Name>, AllocError>
    ensures { IfOk result (λ tables. tables ≡ spec.tuples_tables tuples.now) }
{
    let mut tables = Items::new(alloc);
    for tuple in tuples {
        put_all_tables(alloc, &mut tables, tuple.as_slice())?;
    }
    Ok(tables)
}

/// The privileges, the values, and then the rows.
#[tactic(auto, unfolding(crate::specs::Inserting::insert_with_quals))]
fn insert_with_quals<'c, 'x>(
    asker: &mut Asker<'c>,
    ctx: &Ctx,
    from: FromTable<'x>,
    role_privileges: &RolePrivileges,
    expansion: &PolicyExpansion<'c>,
    analysed_insert: &AnalysedInsert,
) -> Result<Effect, Refusal>
    requires { ctx.now.next + length analysed_insert.now.tuples ≤ 4294967295 }
    ensures { Answers (spec.insert_with_quals ctx.now from.entry.name.now from.entry.table.now role_privileges.now expansion.now analysed_insert.now) asker.old asker.new result }
{
    let checks = checks(asker.alloc(), from, expansion, analysed_insert)?;
    require_all(asker, role_privileges, checks)?;
    insert_values(asker, &*ctx, from, &*expansion, &*analysed_insert)
}

/// What the role is asked for.
fn checks<'c, 'x>(
    alloc: Global,
    from: FromTable<'x>,
    expansion: &PolicyExpansion<'c>,
    analysed_insert: &AnalysedInsert,
) -> Result<Items<PermissionCheck>, AllocError>
    ensures { IfOk result (λ checks. checks ≡ checks_of Privilege.Insert from.entry.name.now (spec.insert_columns from.entry.table.now analysed_insert.now) (spec.insert_columns_read from.entry.table.now analysed_insert.now) (permission_checks expansion.now (spec.tuples_selected analysed_insert.now.found analysed_insert.now.tuples))) }
{
    let own = columns_given(alloc, from.table.columns.as_slice(), analysed_insert)?;
    let read = columns_returned(alloc, from.table, analysed_insert)?;
    let queries = tuples_selected(
        alloc,
        analysed_insert.found.as_slice(),
        analysed_insert.tuples.as_slice(),
    )?;
    let others = expansion.permission_checks(alloc, queries.as_slice())?;
    drop(queries);
    checks_of(
        alloc,
        Privilege::Insert,
        from.name,
        own,
        read,
        others.as_slice(),
    )
}

/// The columns that are given a value, in the table's order.
fn columns_given(
    alloc: Global,
    columns: &[Column],
    analysed_insert: &AnalysedInsert,
) -> Result<Items<Name>, AllocError>
    ensures { IfOk result (λ names. names ≡ columns_at (spec.is_given analysed_insert.now.places analysed_insert.now.tuples) columns.now) }
{
    let places = analysed_insert.places.as_slice();
    let tuples = analysed_insert.tuples.as_slice();
    let mut names = Items::new(alloc);
    for (place, column) in columns.iter().enumerate() {
        put_if(&mut names, is_given(places, tuples, place), column)?;
    }
    Ok(names)
}

/// Whether some tuple gives the column at the place a value.
fn is_given(places: &[usize], tuples: &[Items<Expr>], place: usize) -> bool
    ensures { result ≡ spec.is_given places.now tuples.now place }
{
    tuples.iter().any(|tuple| is_written(first_places(places, tuple.len()), place))
}

/// The first so many of the places, or all where there are fewer.
fn first_places(places: &[usize], many: usize) -> &[usize]
    ensures { result.now ≡ take many places.now }
{
    if many < places.len() {
        &places[..many]
    } else {
        places
    }
}

/// The columns that RETURNING mentions.
fn columns_returned(
    alloc: Global,
    table: &TableDef,
    analysed_insert: &AnalysedInsert,
) -> Result<Items<Name>, AllocError>
    ensures { IfOk result (λ columns. columns ≡ spec.insert_columns_read table.now analysed_insert.now) }
{
    let mut terms = Vec::new(alloc);
    put_returning(&mut terms, &analysed_insert.returning)?;
    let all = returns_all(&analysed_insert.returning);
    columns_read(alloc, table.columns.as_slice(), all, &terms)
}

/// The values of the tuples, their ranges, and then the rows.
#[tactic(auto, unfolding(crate::specs::Inserting::insert_values))]
fn insert_values<'a, 'c, 'x>(
    asker: &mut Asker<'c>,
    ctx: &'a Ctx,
    from: FromTable<'x>,
    expansion: &'a PolicyExpansion<'c>,
    analysed_insert: &'a AnalysedInsert,
) -> Result<Effect, Refusal>
    requires { ctx.now.next + length analysed_insert.now.tuples ≤ 4294967295 }
    ensures { Answers (spec.insert_values ctx.now from.entry.name.now from.entry.table.now expansion.now analysed_insert.now) asker.old asker.new result }
{
    let values = tuples_under(asker, ctx, expansion, analysed_insert)?;
    let inserted = insert_made(asker, ctx, from, expansion, analysed_insert, &values);
    drop(values);
    inserted
}

/// The values of the tuples.
fn tuples_under<'a, 'c>(
    asker: &mut Asker<'c>,
    ctx: &'a Ctx,
    expansion: &'a PolicyExpansion<'c>,
    analysed_insert: &'a AnalysedInsert,
) -> Result<Vec<Vec<Datum<'a>>>, AllocError>
    ensures { Tells (tuples_of expansion.now.relations ctx.now.role analysed_insert.now.tuples) asker.old asker.new (datum_values_each result) }
{
    tuples_of(
        asker,
        expansion.relations.as_slice(),
        &ctx.role,
        analysed_insert.tuples.as_slice(),
    )
}

/// The ranges of the values, and then the rows.
#[tactic(auto, unfolding(crate::specs::Inserting::insert_made))]
fn insert_made<'c, 'x>(
    asker: &mut Asker<'c>,
    ctx: &Ctx,
    from: FromTable<'x>,
    expansion: &PolicyExpansion<'c>,
    analysed_insert: &AnalysedInsert,
    values: &[Vec<Datum>],
) -> Result<Effect, Refusal>
    requires { ctx.now.next + length analysed_insert.now.tuples ≤ 4294967295 }
    ensures { Answers (spec.insert_made ctx.now from.entry.name.now from.entry.table.now expansion.now analysed_insert.now (map datum_values values.now)) asker.old asker.new result }
{
    let rows = new_rows(asker.alloc(), ctx, from.table, analysed_insert, values)?;
    Ok(insert_rows(asker, &ctx.role, from, &*expansion, analysed_insert, rows)?)
}

/// The rows of the tuples, whose values are in range, with their numbers.
fn new_rows(
    alloc: Global,
    ctx: &Ctx,
    table: &TableDef,
    analysed_insert: &AnalysedInsert,
    values: &[Vec<Datum>],
) -> Result<Items<Stored>, Refusal>
    requires { ctx.now.next + length analysed_insert.now.tuples ≤ 4294967295 }
    ensures { Gives result (spec.new_rows ctx.now table.now analysed_insert.now (map datum_values values.now)) }
{
    let rows = rows_of(
        alloc,
        analysed_insert.tuples.as_slice(),
        table,
        analysed_insert.places.as_slice(),
        values,
    )?;
    Ok(numbered(alloc, ctx, table.key.as_slice(), rows.into_vec())?)
}

fn rows_of(
    alloc: Global,
    tuples: &[Items<Expr>],
    table: &TableDef,
    places: &[usize],
    values: &[Vec<Datum>],
) -> Result<Items<Row>, Refusal>
    ensures given { Gives result (each_with (spec.row_of_tuple table.now places.now) tuples.now (map datum_values values.now)) }
    ensures count { IfOk result (λ rows. length rows ≡ length tuples.now) }
{
    let mut rows = Items::new(alloc);
    let mut left = values;
    for _tuple in tuples {
        let row = row_of(alloc, table.columns.as_slice(), places, first_of(left))?;
        rows.push(row)?;
        left = behind_first(left);
    }
    Ok(rows)
}

/// The row of the values; columns without one are null.
fn row_of(
    alloc: Global,
    columns: &[Column],
    places: &[usize],
    values: &[Datum],
) -> Result<Row, Refusal>
    ensures { Gives result (assigned columns.now places.now (map datum_value values.now) (spec.nulls columns.now)) }
{
    let nulls = nulls(alloc, columns)?;
    assign(alloc, columns, places, values, nulls)
}

/// A null for each column.
fn nulls(alloc: Global, columns: &[Column]) -> Result<Vec<Value>, AllocError>
    ensures { IfOk result (λ values. values.items ≡ spec.nulls columns.now) }
{
    let mut values = Vec::with_capacity(alloc, columns.len())?;
    for _column in columns {
        values.push(Value::Null)?;
    }
    Ok(values)
}

/// The rows with their keys, numbered on from the transaction's next.
fn numbered(
    alloc: Global,
    ctx: &Ctx,
    places: &[usize],
    rows: Vec<Row>,
) -> Result<Items<Stored>, AllocError>
    requires { ctx.now.next + length rows.items ≤ 4294967295 }
    ensures { IfOk result (λ new. new ≡ spec.numbered places.now ctx.now.txn ctx.now.next rows.items) }
{
    let mut new = Items::new(alloc);
    let mut n = ctx.next;
    for row in rows {
        let key = key_at(alloc, places, &row)?;
        let id = RowId { txn: ctx.txn, n };
        new.push(Stored { id, key, row })?;
        n += 1;
    }
    Ok(new)
}

/// Each new row is judged, and then all are put in or none.
#[tactic(auto, unfolding(crate::specs::Inserting::insert_rows))]
fn insert_rows<'a, 'c, 'x>(
    asker: &mut Asker<'c>,
    role: &'a Name,
    from: FromTable<'x>,
    expansion: &'a PolicyExpansion<'c>,
    analysed_insert: &AnalysedInsert,
    rows: Items<Stored>,
) -> Result<Effect, AllocError>
    ensures { Tells (spec.insert_rows role.now from.entry.name.now from.entry.table.now expansion.now analysed_insert.now rows) asker.old asker.new result }
{
    let decisions = judged_under(asker, &*expansion, &*role, &rows)?;
    insert_judged(asker, role, from, analysed_insert, rows, decisions)
}

/// Where none of the new rows is refused, all are put in.
#[tactic(auto, unfolding(crate::specs::Inserting::insert_judged))]
fn insert_judged<'x>(
    asker: &mut Asker,
    role: &Name,
    from: FromTable<'x>,
    analysed_insert: &AnalysedInsert,
    rows: Items<Stored>,
    decisions: Vec<Decision>,
) -> Result<Effect, AllocError>
    ensures { Tells (spec.insert_judged role.now from.entry.name.now from.entry.table.now analysed_insert.now rows decisions.items) asker.old asker.new result }
{
    match require_inserted(
        asker,
        from,
        analysed_insert.places.as_slice(),
        &decisions,
        rows.as_slice(),
    ) {
        Ok(()) => inserted(
            asker.alloc(),
            from.name,
            &analysed_insert.returning,
            role,
            rows,
            decisions,
        ),
        Err(Refusal::NoMemory) => Err(AllocError),
        Err(refusal) => Ok(Effect::Refused(refusal, Items::from_vec(decisions))),
    }
}

/// What the new rows are refused for.
fn require_inserted<'x>(
    asker: &mut Asker,
    from: FromTable<'x>,
    places: &[usize],
    decisions: &[Decision],
    rows: &[Stored],
) -> Result<(), Refusal>
    ensures { Answers (rows_or_refused from.entry.name.now from.entry.table.now.columns (spec_order_of places.now from.entry.table.now.columns) decisions.now [] rows.now) asker.old asker.new result }
{
    let order = order_of(asker.alloc(), places, from.table.columns.as_slice())?;
    let replaced = Replaced::new(&[], false);
    let found = require_rows(asker, from, &order, decisions, &replaced, rows);
    drop(order);
    found
}

/// The new rows go over into the changes.
fn inserted(
    alloc: Global,
    table: &Name,
    returning: &Option<Selected>,
    role: &Name,
    rows: Items<Stored>,
    decisions: Vec<Decision>,
) -> Result<Effect, AllocError>
    ensures { IfOk result (λ effect. effect ≡ Effect.Done (spec_reply_of returning.now role.now (map (λ stored. stored.row) rows)) decisions.items (map (spec.inserted_row table.now) rows) None) }
{
    let reply = reply_of_new(alloc, returning, role, rows.as_slice())?;
    match put_in(alloc, table, rows.into_vec()) {
        Ok(delta) => Ok(Effect::Done(reply, Items::from_vec(decisions), delta, None)),
        Err(refused) => {
            drop(decisions);
            drop(reply);
            Err(refused)
        }
    }
}

fn put_in(alloc: Global, table: &Name, rows: Vec<Stored>) -> Result<Delta, AllocError>
    ensures { IfOk result (λ delta. delta ≡ map (spec.inserted_row table.now) rows.items) }
{
    let mut delta = Delta::new(alloc);
    for stored in rows {
        delta.push(inserted_row(table, stored)?)?;
    }
    Ok(delta)
}

fn inserted_row(table: &Name, stored: Stored) -> Result<Change, AllocError>
    ensures { IfOk result (λ change. change ≡ spec.inserted_row table.now stored) }
{
    let Stored { id, key, row } = stored;
    let after = Keyed { key, row };
    match table.copy() {
        Ok(table) => Ok(Change::Row(RowChange {
            table,
            id,
            before: None,
            after: Some(after),
        })),
        Err(refused) => {
            drop(after);
            Err(refused)
        }
    }
}
