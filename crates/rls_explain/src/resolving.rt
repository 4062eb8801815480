//! The parts of a statement that decide on rows, with their columns resolved over the tables of the state.

ghost use Rattle.std.specs.Prelude.{◌≡◌, [], ◌∷◌, ◌++◌, map, IfOk, OnOk};
ghost use Rattle.std.specs.Option.{option_map};
ghost use Rattle.rls_expr.specs.{Scopes.in_scope, Resolving.resolved as resolved_over};
ghost use Rattle.rls_meaning.specs.rls_guard.specs.Naming.{names_over};
ghost use Rattle.rls_meaning.specs.Resolving.{resolved};
ghost use Rattle.rls_meaning.specs.rls_dml.specs.{Checking.names_over_none, Inserting.places_from, Inserting.tuple_resolved, Inserting.tuples_tables};
ghost use Rattle.rls_meaning.specs.rls_expansion.specs.Used.{all_tables, tables_if, tables_of as spec_tables_of};
ghost use Rattle.rls_explain.specs.Found as spec;

use rls_expr::{Column, Expr, FromTable, NamedTable, Scope, TableDef, resolve_columns};
use rls_meaning::rls_expansion::{put_all_tables, put_tables, put_tables_if};
use rls_meaning::rls_guard::Found;
use rls_meaning::rls_guard::rls_catalog::Catalog;
use rls_statement::{Assignment, Insert, Update};
use rls_value::{Items, Name};
use std::alloc::{AllocError, Global};

/// What an UPDATE sets, and its condition.
#[derive(Drop)]
pub struct UpdateParts {
    pub places: Vec<usize>,
    pub values: Items<Expr>,
    pub condition: Option<Expr>,
}

impl UpdateParts {
    /// The tables of its subqueries, in text order.
    pub fn tables(&self, alloc: Global) -> Result<Items<Name>, AllocError>
        ensures { IfOk result (λ tables. tables ≡ all_tables self.now.values ++ tables_if self.now.condition) }
    {
        let mut tables = Items::new(alloc);
        put_all_tables(alloc, &mut tables, self.values.as_slice())?;
        put_tables_if(alloc, &mut tables, &self.condition)?;
        Ok(tables)
    }
}

/// What an INSERT writes.
#[derive(Drop)]
pub struct InsertParts {
    pub places: Vec<usize>,
    pub tuples: Items<Items<Expr>>,
}

impl InsertParts {
    /// The tables of its subqueries, in text order.
    pub fn tables(&self, alloc: Global) -> Result<Items<Name>, AllocError>
        ensures { IfOk result (λ tables. tables ≡ tuples_tables self.now.tuples) }
    {
        tables_of_tuples(alloc, self.tuples.as_slice())
    }
}

/// The condition, which is over the table.
#[tactic(auto, using(crate::proofs::ResolvingLemmas::condition_resolved))]
pub fn condition_in<'x>(
    alloc: Global,
    catalog: &Catalog,
    from: FromTable<'x>,
    condition: &Option<Expr>,
) -> Result<Option<Expr>, AllocError>
    ensures { IfOk result (λ it. it ≡ option_map (resolved catalog.now (in_scope from.entry ∷ [])) condition.now) }
{
    let names = tables_of(alloc, condition)?;
    let found = found_for(alloc, catalog, names.as_slice());
    drop(names);
    let found = found?;
    let condition = condition_over(alloc, from, found.as_slice(), condition);
    drop(found);
    condition
}

/// The expression, which is over the table.
#[tactic(auto, using(crate::proofs::ResolvingLemmas::expr_resolved))]
pub fn expr_in<'x>(
    alloc: Global,
    catalog: &Catalog,
    from: FromTable<'x>,
    expr: &Expr,
) -> Result<Expr, AllocError>
    ensures { IfOk result (λ it. it ≡ resolved catalog.now (in_scope from.entry ∷ []) expr.now) }
{
    let names = tables_of_expr(alloc, expr)?;
    let found = found_for(alloc, catalog, names.as_slice());
    drop(names);
    let found = found?;
    let resolved = expr_over(alloc, from, found.as_slice(), expr);
    drop(found);
    resolved
}

fn tables_of_expr(alloc: Global, expr: &Expr) -> Result<Items<Name>, AllocError>
    ensures { IfOk result (λ tables. tables ≡ spec_tables_of expr.now) }
{
    let mut tables = Items::new(alloc);
    put_tables(alloc, &mut tables, expr)?;
    Ok(tables)
}

/// The tables of the condition's subqueries, in text order.
pub fn tables_of(alloc: Global, condition: &Option<Expr>) -> Result<Items<Name>, AllocError>
    ensures { IfOk result (λ tables. tables ≡ tables_if condition.now) }
{
    let mut tables = Items::new(alloc);
    put_tables_if(alloc, &mut tables, condition)?;
    Ok(tables)
}

/// The parts of an UPDATE of the table.
#[tactic(auto, using(crate::proofs::ResolvingLemmas::values_resolved, crate::proofs::ResolvingLemmas::where_resolved))]
pub fn update_parts<'x>(
    alloc: Global,
    catalog: &Catalog,
    from: FromTable<'x>,
    update: &Update,
) -> Result<UpdateParts, AllocError>
    ensures places { IfOk result (λ parts. parts.places.items ≡ spec.places_set from.entry.table.now.columns update.now.assignments) }
    ensures values { IfOk result (λ parts. parts.values ≡ map (resolved catalog.now (in_scope from.entry ∷ [])) (map (λ assignment. assignment.value) update.now.assignments)) }
    ensures condition { IfOk result (λ parts. parts.condition ≡ option_map (resolved catalog.now (in_scope from.entry ∷ [])) update.now.condition) }
{
    let names = tables_of_update(alloc, update)?;
    let found = found_for(alloc, catalog, names.as_slice());
    drop(names);
    let found = found?;
    let parts = update_over(alloc, from, found.as_slice(), update);
    drop(found);
    parts
}

/// The tables of its subqueries, in text order.
fn tables_of_update(alloc: Global, update: &Update) -> Result<Items<Name>, AllocError>
    ensures { IfOk result (λ tables. tables ≡ all_tables (map (λ assignment. assignment.value) update.now.assignments) ++ tables_if update.now.condition) }
{
    let mut tables = Items::new(alloc);
    put_tables_set(alloc, &mut tables, update.assignments.as_slice())?;
    put_tables_if(alloc, &mut tables, &update.condition)?;
    Ok(tables)
}

fn put_tables_set(
    alloc: Global,
    tables: &mut Items<Name>,
    assignments: &[Assignment],
) -> Result<(), AllocError>
    ensures { OnOk result (tables.new ≡ tables.old ++ all_tables (map (λ assignment. assignment.value) assignments.now)) }
{
    for assignment in assignments {
        put_tables(alloc, tables, &assignment.value)?;
    }
    Ok(())
}

/// The parts, where those tables were found for subqueries.
fn update_over<'x>(
    alloc: Global,
    from: FromTable<'x>,
    known: &'x [NamedTable<'x>],
    update: &Update,
) -> Result<UpdateParts, AllocError>
    ensures places { IfOk result (λ parts. parts.places.items ≡ spec.places_set from.entry.table.now.columns update.now.assignments) }
    ensures values { IfOk result (λ parts. parts.values ≡ map (λ assignment. resolved_over assignment.value (names_over (in_scope from.entry) known.now)) update.now.assignments) }
    ensures condition { IfOk result (λ parts. parts.condition ≡ option_map (λ t. resolved_over t (names_over (in_scope from.entry) known.now)) update.now.condition) }
{
    let places = places_set(alloc, from.table, update.assignments.as_slice())?;
    let condition = condition_over(alloc, from, known, &update.condition)?;
    let values = values_over(alloc, from, known, update.assignments.as_slice())?;
    Ok(UpdateParts {
        places,
        values,
        condition,
    })
}

/// The places that are set.
fn places_set(
    alloc: Global,
    table: &TableDef,
    assignments: &[Assignment],
) -> Result<Vec<usize>, AllocError>
    ensures { IfOk result (λ places. places.items ≡ spec.places_set table.now.columns assignments.now) }
{
    let mut places = Vec::with_capacity(alloc, assignments.len())?;
    for assignment in assignments {
        places.push(place_of(table, &assignment.column))?;
    }
    Ok(places)
}

/// The place of the column; the first for one that isn't there.
fn place_of(table: &TableDef, name: &Name) -> usize
    ensures { result ≡ spec.place_of table.now.columns name.now }
{
    match table.column(name) {
        Some(place) => place,
        None => 0,
    }
}

/// What is set.
fn values_over<'x>(
    alloc: Global,
    from: FromTable<'x>,
    known: &'x [NamedTable<'x>],
    assignments: &[Assignment],
) -> Result<Items<Expr>, AllocError>
    ensures { IfOk result (λ values. values ≡ map (λ assignment. resolved_over assignment.value (names_over (in_scope from.entry) known.now)) assignments.now) }
{
    let mut values = Items::new(alloc);
    for assignment in assignments {
        let value = expr_over(alloc, from, known, &assignment.value)?;
        values.push(value)?;
    }
    Ok(values)
}

fn condition_over<'x>(
    alloc: Global,
    from: FromTable<'x>,
    known: &'x [NamedTable<'x>],
    condition: &Option<Expr>,
) -> Result<Option<Expr>, AllocError>
    ensures { IfOk result (λ it. it ≡ option_map (λ t. resolved_over t (names_over (in_scope from.entry) known.now)) condition.now) }
{
    match condition {
        None => Ok(None),
        Some(condition) => match expr_over(alloc, from, known, condition) {
            Ok(resolved) => Ok(Some(resolved)),
            Err(refused) => Err(refused),
        },
    }
}

/// The expression over the table.
fn expr_over<'x>(
    alloc: Global,
    from: FromTable<'x>,
    known: &'x [NamedTable<'x>],
    expr: &Expr,
) -> Result<Expr, AllocError>
    ensures { IfOk result (λ it. it ≡ resolved_over expr.now (names_over (in_scope from.entry) known.now)) }
{
    let tables = [NamedTable::new(from.name, from.table)?];
    resolve_columns(
        alloc,
        expr,
        &Scope {
            tables: &tables,
            known,
        },
    )
}

/// The parts of an INSERT into the table.
#[tactic(auto, using(crate::proofs::ResolvingLemmas::tuples_resolved))]
pub fn insert_parts(
    alloc: Global,
    catalog: &Catalog,
    table: &TableDef,
    insert: &Insert,
) -> Result<InsertParts, AllocError>
    ensures places { IfOk result (λ parts. parts.places.items ≡ spec.places_given table.now.columns insert.now.columns) }
    ensures tuples { IfOk result (λ parts. parts.tuples ≡ map (map (resolved catalog.now [])) insert.now.tuples) }
{
    let names = tables_of_tuples(alloc, insert.tuples.as_slice())?;
    let found = found_for(alloc, catalog, names.as_slice());
    drop(names);
    let found = found?;
    let parts = insert_over(alloc, table, found.as_slice(), insert);
    drop(found);
    parts
}

/// The tables of the tuples' subqueries, in text order.
fn tables_of_tuples(alloc: Global, tuples: &[Items<Expr>]) -> Result<Items<Name>, AllocError>
    ensures { IfOk result (λ tables. tables ≡ tuples_tables tuples.now) }
{
    let mut tables = Items::new(alloc);
    for tuple in tuples {
        put_all_tables(alloc, &mut tables, tuple.as_slice())?;
    }
    Ok(tables)
}

/// The parts, where those tables were found for subqueries.
fn insert_over<'x>(
    alloc: Global,
    table: &TableDef,
    known: &'x [NamedTable<'x>],
    insert: &Insert,
) -> Result<InsertParts, AllocError>
    ensures places { IfOk result (λ parts. parts.places.items ≡ spec.places_given table.now.columns insert.now.columns) }
    ensures tuples { IfOk result (λ parts. parts.tuples ≡ map (tuple_resolved (names_over_none known.now)) insert.now.tuples) }
{
    let places = places_given(alloc, table, &insert.columns)?;
    let tuples = tuples_over(alloc, known, insert.tuples.as_slice())?;
    Ok(InsertParts { places, tuples })
}

/// The places that are written: those of the list or, without one, all.
fn places_given(
    alloc: Global,
    table: &TableDef,
    written: &Option<Items<Name>>,
) -> Result<Vec<usize>, AllocError>
    ensures { IfOk result (λ places. places.items ≡ spec.places_given table.now.columns written.now) }
{
    match written {
        None => all_places(alloc, table.columns.as_slice()),
        Some(names) => places_named(alloc, table, names.as_slice()),
    }
}

fn all_places(alloc: Global, columns: &[Column]) -> Result<Vec<usize>, AllocError>
    ensures { IfOk result (λ places. places.items ≡ places_from 0 columns.now) }
{
    let mut places = Vec::with_capacity(alloc, columns.len())?;
    for (place, _column) in columns.iter().enumerate() {
        places.push(place)?;
    }
    Ok(places)
}

fn places_named(alloc: Global, table: &TableDef, names: &[Name]) -> Result<Vec<usize>, AllocError>
    ensures { IfOk result (λ places. places.items ≡ map (spec.place_of table.now.columns) names.now) }
{
    let mut places = Vec::with_capacity(alloc, names.len())?;
    for name in names {
        places.push(place_of(table, name))?;
    }
    Ok(places)
}

/// The tuples, whose expressions no column stands in.
fn tuples_over<'x>(
    alloc: Global,
    known: &'x [NamedTable<'x>],
    tuples: &[Items<Expr>],
) -> Result<Items<Items<Expr>>, AllocError>
    ensures { IfOk result (λ resolved. resolved ≡ map (tuple_resolved (names_over_none known.now)) tuples.now) }
{
    let mut resolved = Items::new(alloc);
    for tuple in tuples {
        let tuple = tuple_over(alloc, known, tuple.as_slice())?;
        resolved.push(tuple)?;
    }
    Ok(resolved)
}

fn tuple_over<'x>(
    alloc: Global,
    known: &'x [NamedTable<'x>],
    tuple: &[Expr],
) -> Result<Items<Expr>, AllocError>
    ensures { IfOk result (λ resolved. resolved ≡ tuple_resolved (names_over_none known.now) tuple.now) }
{
    let mut resolved = Items::new(alloc);
    for expr in tuple {
        let expr = resolve_columns(alloc, expr, &Scope { tables: &[], known })?;
        resolved.push(expr)?;
    }
    Ok(resolved)
}

/// The tables of these names that are there.
fn found_for<'c>(
    alloc: Global,
    catalog: &'c Catalog,
    names: &[Name],
) -> Result<Found<'c>, AllocError>
    ensures { IfOk result (λ found. found ≡ spec.found_by catalog.now names.now) }
{
    let mut found = Items::new(alloc);
    for name in names {
        if let Some(table) = catalog.table(name) {
            found.push(NamedTable::new(name, table)?)?;
        }
    }
    Ok(found)
}
