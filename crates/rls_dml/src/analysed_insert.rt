//! The parts of an INSERT.

ghost use Rattle.std.specs.Prelude.{◌≡◌, [], ◌∷◌, ◌++◌, ◌+◌, ◌≤◌, length, map, Ok, IfOk, OnOk};
ghost use Rattle.std.specs.List.{list_any, list_all};
ghost use Rattle.rls_value.specs.Giving.{Gives, and_then};
ghost use Rattle.rls_expr.specs.{Naming.step_of, Resolving.names_in};
ghost use Rattle.rls_guard.specs.rls_source.specs.{Answering.Answers, Sequences.each_of};
ghost use Rattle.rls_guard.specs.{Checks.is_unsupported, Naming.named, Naming.names_over};
ghost use Rattle.rls_dml.specs.Checking.{place_or_undefined, names_over_none, returning_names, returning_resolved};
ghost use Rattle.rls_dml.specs.Inserting as spec;

use crate::checking::{
    known_place, put_returning_names, require_fitting, require_supported, resolve_returning,
    resolve_terms, returning_fits, returning_unsupported, value_fits,
};
use rls_expr::{
    Column, Expr, NameStep, NamedTable, Scope, SelectedTable, TableDef, put_all_names, put_selected,
};
use rls_guard::rls_source::Asker;
use rls_guard::{Ctx, Found, named};
use rls_statement::{Insert, Selected};
use rls_value::{Items, Limit, Name, Refusal};
use std::alloc::{AllocError, Global};

/// An INSERT whose names are resolved: the places that are written, and the tuples. There is room for its rows.
#[derive(Drop)]
pub struct AnalysedInsert<'c> {
    pub places: Items<usize>,
    pub tuples: Items<Items<Expr>>,
    pub returning: Option<Selected>,
    /// The tables that its subqueries name.
    pub found: Found<'c>,
}

/// The parts of the statement, where names and types are right and numbers are left.
pub fn known_analysed_insert<'c>(
    asker: &mut Asker<'c>,
    ctx: &Ctx,
    insert: &Insert,
    table: &'c TableDef,
) -> Result<AnalysedInsert<'c>, Refusal>
    ensures given { Answers (spec.analysed_insert_for ctx.now insert.now table.now) asker.old asker.new result }
    ensures room { IfOk result (λ analysed_insert. ctx.now.next + length analysed_insert.tuples ≤ 4294967295) }
{
    let places = places_of(asker.alloc(), table, &insert.columns)?;
    match found_for(asker, insert, table) {
        Ok(found) => check_analysed_insert(asker.alloc(), ctx.next, insert, table, places, found),
        Err(refusal) => {
            drop(places);
            Err(refusal)
        }
    }
}

/// Looks for the names of the tuples and of RETURNING.
fn found_for<'c>(
    asker: &mut Asker<'c>,
    insert: &Insert,
    table: &'c TableDef,
) -> Result<Found<'c>, Refusal>
    ensures { Answers (spec.analysed_insert_named insert.now (insert.now.table, table.now)) asker.old asker.new result }
{
    let found = found_in_tuples(asker, insert.tuples.as_slice())?;
    found_in_returning(asker, insert, table, found)
}

fn found_in_tuples<'c>(asker: &mut Asker<'c>, tuples: &[Items<Expr>]) -> Result<Found<'c>, Refusal>
    ensures { Answers (named (spec.tuples_names tuples.now) [] []) asker.old asker.new result }
{
    let alloc = asker.alloc();
    let steps = tuples_names(alloc, tuples)?;
    let found = named(asker, &steps, Vec::new(alloc), Items::new(alloc));
    drop(steps);
    found
}

fn tuples_names<'x>(
    alloc: Global,
    tuples: &'x [Items<Expr>],
) -> Result<Vec<NameStep<'x>>, AllocError>
    ensures { IfOk result (λ steps. map step_of steps.items ≡ spec.tuples_names tuples.now) }
{
    let mut steps = Vec::new(alloc);
    for tuple in tuples {
        put_all_names(&mut steps, tuple.as_slice())?;
    }
    Ok(steps)
}

fn found_in_returning<'c>(
    asker: &mut Asker<'c>,
    insert: &Insert,
    table: &'c TableDef,
    found: Found<'c>,
) -> Result<Found<'c>, Refusal>
    ensures { Answers (named (returning_names insert.now.returning) ((insert.now.table, table.now) ∷ []) found.entry) asker.old asker.new result }
{
    let steps = names_of_returning(asker.alloc(), &insert.returning)?;
    let tables = table_of(asker.alloc(), insert, table)?;
    let found = named(asker, &steps, tables, found);
    drop(steps);
    found
}

/// The target, under its name.
fn table_of<'c>(
    alloc: Global,
    insert: &Insert,
    table: &'c TableDef,
) -> Result<Vec<NamedTable<'c>>, AllocError>
    ensures { IfOk result (λ tables. tables.items ≡ (insert.now.table, table.now) ∷ []) }
{
    let mut tables = Vec::with_capacity(alloc, 1)?;
    tables.push(NamedTable::new(&insert.table, table)?)?;
    Ok(tables)
}

fn names_of_returning<'x>(
    alloc: Global,
    returning: &'x Option<Selected>,
) -> Result<Vec<NameStep<'x>>, AllocError>
    ensures { IfOk result (λ steps. map step_of steps.items ≡ returning_names returning.now) }
{
    let mut steps = Vec::new(alloc);
    put_returning_names(&mut steps, returning)?;
    Ok(steps)
}

/// Resolves the parts, and checks their types, that nothing isn't supported, and how many rows they are.
fn check_analysed_insert<'c>(
    alloc: Global,
    next: u32,
    insert: &Insert,
    table: &TableDef,
    places: Items<usize>,
    found: Found<'c>,
) -> Result<AnalysedInsert<'c>, Refusal>
    ensures given { Gives result (spec.analysed_insert_in next insert.now (insert.now.table, table.now) places found.entry) }
    ensures room { IfOk result (λ analysed_insert. next + length analysed_insert.tuples ≤ 4294967295) }
{
    let analysed_insert = resolve_insert(alloc, insert, table, places, found)?;
    allowed(next, table.columns.as_slice(), analysed_insert)
}

/// The parts, if they are right.
fn allowed<'c>(
    next: u32,
    columns: &[Column],
    analysed_insert: AnalysedInsert<'c>,
) -> Result<AnalysedInsert<'c>, Refusal>
    ensures given { Gives result (and_then (spec.analysed_insert_or_refused next columns.now analysed_insert.entry) (λ _. Ok analysed_insert.entry)) }
    ensures room { IfOk result (λ analysed_insert. next + length analysed_insert.tuples ≤ 4294967295) }
{
    match require_analysed_insert(next, columns, &analysed_insert) {
        Ok(()) => Ok(analysed_insert),
        Err(refusal) => {
            drop(analysed_insert);
            Err(refusal)
        }
    }
}

/// The parts with resolved columns.
fn resolve_insert<'c>(
    alloc: Global,
    insert: &Insert,
    table: &TableDef,
    places: Items<usize>,
    found: Found<'c>,
) -> Result<AnalysedInsert<'c>, AllocError>
    ensures { IfOk result (λ analysed_insert. analysed_insert ≡ spec.analysed_insert_resolved insert.now (insert.now.table, table.now) places found.entry) }
{
    let tuples = resolve_tuples(alloc, insert.tuples.as_slice(), found.as_slice())?;
    match place_answer(alloc, insert, table, found.as_slice()) {
        Ok(returning) => Ok(AnalysedInsert {
            places,
            tuples,
            returning,
            found,
        }),
        Err(refused) => {
            drop(tuples);
            Err(refused)
        }
    }
}

/// The tables of the tuples' subqueries, with the columns that they mention.
pub fn tuples_selected<'x>(
    alloc: Global,
    found: &'x [NamedTable<'x>],
    tuples: &[Items<Expr>],
) -> Result<Items<SelectedTable>, AllocError>
    ensures { IfOk result (λ selected. selected ≡ spec.tuples_selected found.now tuples.now) }
{
    let mut selected = Items::new(alloc);
    for tuple in tuples {
        put_tuple_selected(alloc, &mut selected, found, tuple.as_slice())?;
    }
    Ok(selected)
}

fn put_tuple_selected<'x>(
    alloc: Global,
    selected: &mut Items<SelectedTable>,
    found: &'x [NamedTable<'x>],
    tuple: &[Expr],
) -> Result<(), AllocError>
    ensures { OnOk result (selected.new ≡ selected.old ++ spec.tuple_selected found.now tuple.now) }
{
    for expr in tuple {
        put_selected(alloc, selected, found, expr)?;
    }
    Ok(())
}

/// RETURNING with resolved columns.
fn place_answer<'x>(
    alloc: Global,
    insert: &Insert,
    table: &'x TableDef,
    known: &'x [NamedTable<'x>],
) -> Result<Option<Selected>, AllocError>
    ensures { IfOk result (λ returning. returning ≡ returning_resolved (names_over (insert.now.table, table.now) known.now) insert.now.returning) }
{
    let tables = [NamedTable::new(&insert.table, table)?];
    resolve_returning(
        alloc,
        &insert.returning,
        &Scope {
            tables: &tables,
            known,
        },
    )
}

fn resolve_tuples<'x>(
    alloc: Global,
    tuples: &[Items<Expr>],
    known: &'x [NamedTable<'x>],
) -> Result<Items<Items<Expr>>, AllocError>
    ensures { IfOk result (λ resolved. resolved ≡ map (spec.tuple_resolved (names_over_none known.now)) tuples.now) }
{
    let mut resolved = Items::new(alloc);
    for tuple in tuples {
        let tuple = resolve_terms(alloc, tuple.as_slice(), &Scope { tables: &[], known })?;
        resolved.push(tuple)?;
    }
    Ok(resolved)
}

/// Types that don't fit, then what isn't supported, then too many rows are refused.
fn require_analysed_insert(
    next: u32,
    columns: &[Column],
    analysed_insert: &AnalysedInsert,
) -> Result<(), Refusal>
    ensures given { Gives result (spec.analysed_insert_or_refused next columns.now analysed_insert.now) }
    ensures room { OnOk result (next + length analysed_insert.now.tuples ≤ 4294967295) }
{
    let tuples = analysed_insert.tuples.as_slice();
    require_fitting(
        tuples_fit(tuples, analysed_insert.places.as_slice(), columns)
            && returning_fits(&analysed_insert.returning),
    )?;
    require_supported(
        tuples_unsupported(tuples) || returning_unsupported(&analysed_insert.returning),
    )?;
    require_room(next, tuples.len())
}

/// The places that are written: those of the list or, without one, all.
fn places_of(
    alloc: Global,
    table: &TableDef,
    written: &Option<Items<Name>>,
) -> Result<Items<usize>, Refusal>
    ensures { Gives result (spec.places_of table.now.columns written.now) }
{
    match written {
        None => Ok(all_places(alloc, table.columns.as_slice())?),
        Some(names) => known_places(alloc, table, names.as_slice()),
    }
}

fn all_places(alloc: Global, columns: &[Column]) -> Result<Items<usize>, AllocError>
    ensures { IfOk result (λ places. places ≡ spec.places_from 0 columns.now) }
{
    let mut places = Items::new(alloc);
    for (place, _column) in columns.iter().enumerate() {
        places.push(place)?;
    }
    Ok(places)
}

fn known_places(alloc: Global, table: &TableDef, names: &[Name]) -> Result<Items<usize>, Refusal>
    ensures { Gives result (each_of (place_or_undefined table.now.columns) names.now) }
{
    let mut places = Items::new(alloc);
    for name in names {
        let place = known_place(table, name)?;
        places.push(place)?;
    }
    Ok(places)
}

fn tuples_fit(tuples: &[Items<Expr>], places: &[usize], columns: &[Column]) -> bool
    ensures { result ≡ list_all (spec.tuple_fits columns.now places.now) tuples.now }
{
    tuples
        .iter()
        .all(|tuple| tuple_fits(tuple.as_slice(), places, columns))
}

fn tuple_fits(mut tuple: &[Expr], mut places: &[usize], columns: &[Column]) -> bool
    ensures { result ≡ spec.tuple_fits columns.now places.entry.now tuple.entry.now }
{
    while let [expr, rest @ ..] = tuple {
        match places {
            [place, others @ ..] => {
                if !value_fits(expr, columns, *place) {
                    return false;
                }
                places = others;
            }
            [] => return false,
        }
        tuple = rest;
    }
    true
}

fn some_unsupported(exprs: &[Expr]) -> bool
    ensures { result ≡ list_any is_unsupported exprs.now }
{
    exprs.iter().any(|expr| rls_guard::is_unsupported(expr))
}

fn tuples_unsupported(tuples: &[Items<Expr>]) -> bool
    ensures { result ≡ list_any (list_any is_unsupported) tuples.now }
{
    tuples
        .iter()
        .any(|tuple| some_unsupported(tuple.as_slice()))
}

/// A transaction gives at most `u32::MAX` numbers.
fn require_room(next: u32, count: usize) -> Result<(), Refusal>
    ensures { Gives result (spec.room_or_limit next count) }
{
    if count > (u32::MAX - next) as usize {
        Err(Refusal::Limit(Limit::Inserts))
    } else {
        Ok(())
    }
}
