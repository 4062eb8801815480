//! The parts of an UPDATE.

ghost use Rattle.std.specs.Prelude.{◌≡◌, [], ◌∷◌, ◌++◌, map, IfOk, OnOk};
ghost use Rattle.rls_value.specs.Giving.{Gives};
ghost use Rattle.rls_expr.specs.{Naming.step_of, Resolving.names_in};
ghost use Rattle.rls_guard.specs.Naming.{named, names_over};
ghost use Rattle.rls_guard.specs.rls_source.specs.{Answering.Answers, Sequences.each_of};
ghost use Rattle.rls_dml.specs.{Checking.columns_at, Checking.returning_resolved, Checking.where_resolved, Writing.is_written};
ghost use Rattle.rls_dml.specs.Updating as spec;

use crate::checking::{
    columns_read, known_place, put_returning, put_returning_names, put_term, put_where,
    put_where_selected, require_fitting, require_supported, resolve_returning, resolve_where,
    returning_fits, returning_unsupported, returns_all, value_fits, where_fits, where_unsupported,
};
use crate::writing::columns_written;
use rls_expansion::{put_tables, put_tables_if};
use rls_expr::{
    Column, Expr, NameStep, NamedTable, Scope, SelectedTable, TableDef, put_names, put_names_if,
    put_selected, put_step, resolve_columns,
};
use rls_guard::rls_source::Asker;
use rls_guard::{Found, is_unsupported_with, named_over};
use rls_statement::{Assignment, Selected, Update};
use rls_value::{Items, Name, Refusal};
use std::alloc::{AllocError, Global};

/// An UPDATE whose names are resolved: what is set, each column resolved.
#[derive(Drop)]
pub struct AnalysedUpdate<'c> {
    pub assignments: Items<(usize, Expr)>,
    pub condition: Option<Expr>,
    pub returning: Option<Selected>,
    /// The tables that its subqueries name.
    pub found: Found<'c>,
}

/// The parts of the statement.
pub fn known_analysed_update<'c>(
    asker: &mut Asker<'c>,
    update: &Update,
    table: &'c TableDef,
) -> Result<AnalysedUpdate<'c>, Refusal>
    ensures { Answers (spec.analysed_update_for update.now table.now) asker.old asker.new result }
{
    let found = found_for(asker, update, table)?;
    check_analysed_update(asker.alloc(), update, table, found)
}

/// Looks for the names of SET, of the condition and of RETURNING.
fn found_for<'c>(
    asker: &mut Asker<'c>,
    update: &Update,
    table: &'c TableDef,
) -> Result<Found<'c>, Refusal>
    ensures { Answers (named (spec.analysed_update_names update.now) ((update.now.table, table.now) ∷ []) []) asker.old asker.new result }
{
    let steps = names_of(asker.alloc(), update)?;
    let found = named_over(asker, &steps, &update.table, table);
    drop(steps);
    found
}

fn names_of<'x>(alloc: Global, update: &'x Update) -> Result<Vec<NameStep<'x>>, AllocError>
    ensures { IfOk result (λ steps. map step_of steps.items ≡ spec.analysed_update_names update.now) }
{
    let mut steps = Vec::new(alloc);
    put_assignments_names(&mut steps, update.assignments.as_slice())?;
    put_names_if(&mut steps, &update.condition)?;
    put_returning_names(&mut steps, &update.returning)?;
    Ok(steps)
}

fn put_assignments_names<'x>(
    steps: &mut Vec<NameStep<'x>>,
    assignments: &'x [Assignment],
) -> Result<(), AllocError>
    ensures { OnOk result (map step_of steps.new.items ≡ map step_of steps.old.items ++ spec.assignments_names assignments.now) }
{
    for assignment in assignments {
        put_step(steps, NameStep::Target(&assignment.column))?;
        put_names(steps, &assignment.value)?;
    }
    Ok(())
}

/// Resolves the parts, and checks their types and that nothing isn't supported.
fn check_analysed_update<'c>(
    alloc: Global,
    update: &Update,
    table: &TableDef,
    found: Found<'c>,
) -> Result<AnalysedUpdate<'c>, Refusal>
    ensures { Gives result (spec.analysed_update_in update.now (update.now.table, table.now) found.entry) }
{
    let analysed_update = resolve_update(alloc, update, table, found)?;
    match require_analysed_update(table.columns.as_slice(), &analysed_update) {
        Ok(()) => Ok(analysed_update),
        Err(refusal) => {
            drop(analysed_update);
            Err(refusal)
        }
    }
}

fn resolve_update<'c>(
    alloc: Global,
    update: &Update,
    table: &TableDef,
    found: Found<'c>,
) -> Result<AnalysedUpdate<'c>, Refusal>
    ensures { Gives result (spec.analysed_update_resolved update.now table.now.columns (names_over (update.now.table, table.now) found.entry)) }
{
    let assignments = resolve_set(alloc, update, table, found.as_slice())?;
    let (condition, returning) = resolve_rest(alloc, update, table, found.as_slice())?;
    Ok(AnalysedUpdate {
        assignments,
        condition,
        returning,
        found,
    })
}

/// What is set, with resolved columns.
fn resolve_set<'x>(
    alloc: Global,
    update: &Update,
    table: &'x TableDef,
    known: &'x [NamedTable<'x>],
) -> Result<Items<(usize, Expr)>, Refusal>
    ensures { Gives result (each_of (spec.assignment_resolved table.now.columns (names_over (update.now.table, table.now) known.now)) update.now.assignments) }
{
    let tables = [NamedTable::new(&update.table, table)?];
    resolve_assignments(
        alloc,
        update.assignments.as_slice(),
        table,
        &Scope {
            tables: &tables,
            known,
        },
    )
}

/// The condition and RETURNING, with resolved columns.
fn resolve_rest<'x>(
    alloc: Global,
    update: &Update,
    table: &'x TableDef,
    known: &'x [NamedTable<'x>],
) -> Result<(Option<Expr>, Option<Selected>), AllocError>
    ensures condition { IfOk result (λ parts. parts.0 ≡ where_resolved (names_over (update.now.table, table.now) known.now) update.now.condition) }
    ensures returning { IfOk result (λ parts. parts.1 ≡ returning_resolved (names_over (update.now.table, table.now) known.now) update.now.returning) }
{
    let tables = [NamedTable::new(&update.table, table)?];
    let scope = Scope {
        tables: &tables,
        known,
    };
    let condition = resolve_where(alloc, &update.condition, &scope)?;
    match resolve_returning(alloc, &update.returning, &scope) {
        Ok(returning) => Ok((condition, returning)),
        Err(refused) => {
            drop(condition);
            Err(refused)
        }
    }
}

/// The tables of its subqueries, with the columns that they mention: to the right of SET's equal signs, then in WHERE.
pub fn update_selected(
    alloc: Global,
    analysed_update: &AnalysedUpdate,
) -> Result<Items<SelectedTable>, AllocError>
    ensures { IfOk result (λ selected. selected ≡ spec.update_selected analysed_update.now) }
{
    let found = analysed_update.found.as_slice();
    let mut selected = Items::new(alloc);
    put_assignments_selected(
        alloc,
        &mut selected,
        found,
        analysed_update.assignments.as_slice(),
    )?;
    put_where_selected(alloc, &mut selected, found, &analysed_update.condition)?;
    Ok(selected)
}

fn put_assignments_selected<'x>(
    alloc: Global,
    selected: &mut Items<SelectedTable>,
    found: &'x [NamedTable<'x>],
    assignments: &[(usize, Expr)],
) -> Result<(), AllocError>
    ensures { OnOk result (selected.new ≡ selected.old ++ spec.assignments_selected found.now assignments.now) }
{
    for assignment in assignments {
        put_selected(alloc, selected, found, &assignment.1)?;
    }
    Ok(())
}

fn resolve_assignments(
    alloc: Global,
    assignments: &[Assignment],
    table: &TableDef,
    scope: &Scope,
) -> Result<Items<(usize, Expr)>, Refusal>
    ensures { Gives result (each_of (spec.assignment_resolved table.now.columns (names_in scope.now)) assignments.now) }
{
    let mut known = Items::new(alloc);
    for assignment in assignments {
        let found = resolve_assignment(alloc, assignment, table, scope)?;
        known.push(found)?;
    }
    Ok(known)
}

fn resolve_assignment(
    alloc: Global,
    assignment: &Assignment,
    table: &TableDef,
    scope: &Scope,
) -> Result<(usize, Expr), Refusal>
    ensures { Gives result (spec.assignment_resolved table.now.columns (names_in scope.now) assignment.now) }
{
    let place = known_place(table, &assignment.column)?;
    let value = resolve_columns(alloc, &assignment.value, scope)?;
    Ok((place, value))
}

fn require_analysed_update(
    columns: &[Column],
    analysed_update: &AnalysedUpdate,
) -> Result<(), Refusal>
    ensures { Gives result (spec.analysed_update_or_refused columns.now analysed_update.now) }
{
    require_fitting(
        assignments_fit(analysed_update.assignments.as_slice(), columns)
            && (where_fits(&analysed_update.condition)
                && returning_fits(&analysed_update.returning)),
    )?;
    require_supported(
        assignments_unsupported(analysed_update.assignments.as_slice())
            || (where_unsupported(&analysed_update.condition)
                || returning_unsupported(&analysed_update.returning)),
    )
}

fn assignments_fit(assignments: &[(usize, Expr)], columns: &[Column]) -> bool
    ensures { result ≡ spec.assignments_fit columns.now assignments.now }
{
    for (place, value) in assignments {
        if !value_fits(value, columns, *place) {
            return false;
        }
    }
    true
}

fn assignments_unsupported(assignments: &[(usize, Expr)]) -> bool
    ensures { result ≡ spec.assignments_unsupported assignments.now }
{
    assignments
        .iter()
        .any(|assignment| is_unsupported_with(&assignment.1, true))
}

/// The columns that it sets.
pub fn columns_set(
    alloc: Global,
    columns: &[Column],
    analysed_update: &AnalysedUpdate,
) -> Result<Items<Name>, AllocError>
    ensures { IfOk result (λ names. names ≡ columns_at (is_written (spec.places_set analysed_update.now.assignments)) columns.now) }
{
    let places = places_set(alloc, analysed_update.assignments.as_slice())?;
    columns_written(alloc, &places, columns)
}

/// The columns that it reads, to the right of SET's equal signs too.
pub fn columns_of_update(
    alloc: Global,
    table: &TableDef,
    analysed_update: &AnalysedUpdate,
) -> Result<Items<Name>, AllocError>
    ensures { IfOk result (λ columns. columns ≡ spec.update_columns_read table.now analysed_update.now) }
{
    let mut terms = Vec::new(alloc);
    put_values(&mut terms, analysed_update.assignments.as_slice())?;
    put_where(&mut terms, &analysed_update.condition)?;
    put_returning(&mut terms, &analysed_update.returning)?;
    let all = returns_all(&analysed_update.returning);
    columns_read(alloc, table.columns.as_slice(), all, &terms)
}

/// Puts what columns are set to behind the others.
fn put_values<'x>(
    terms: &mut Vec<&'x Expr>,
    assignments: &'x [(usize, Expr)],
) -> Result<(), AllocError>
    ensures { OnOk result (map (λ term. term.now) terms.new.items ≡ map (λ term. term.now) terms.old.items ++ map (λ assignment. assignment.1) assignments.now) }
{
    for assignment in assignments {
        put_term(terms, &assignment.1)?;
    }
    Ok(())
}

/// The tables of its subqueries, in text order.
pub fn analysed_update_tables(
    alloc: Global,
    analysed_update: &AnalysedUpdate,
) -> Result<Items<Name>, AllocError>
    ensures { IfOk result (λ tables. tables ≡ spec.analysed_update_tables analysed_update.now) }
{
    let mut tables = Items::new(alloc);
    for (_, value) in analysed_update.assignments.as_slice() {
        put_tables(alloc, &mut tables, value)?;
    }
    put_tables_if(alloc, &mut tables, &analysed_update.condition)?;
    Ok(tables)
}

/// The places that are set.
pub fn places_set(alloc: Global, assignments: &[(usize, Expr)]) -> Result<Vec<usize>, AllocError>
    ensures { IfOk result (λ places. places.items ≡ spec.places_set assignments.now) }
{
    let mut places = Vec::with_capacity(alloc, assignments.len())?;
    for assignment in assignments {
        places.push(assignment.0)?;
    }
    Ok(places)
}
