//! The parts of a statement on rows, checked: names, then types, then that nothing isn't supported.

ghost use Rattle.std.specs.Prelude.{◌≡◌, [], ◌∷◌, ◌++◌, map, slice_get, IfOk, OnOk};
ghost use Rattle.std.specs.{List.list_any, List.list_all, Option.option_to_list};
ghost use Rattle.rls_value.specs.Giving.{Gives};
ghost use Rattle.rls_expr.specs.{Naming.step_of, Resolving.names_in};
ghost use Rattle.rls_expansion.specs.Used.{tables_if};
ghost use Rattle.rls_guard.specs.Checks.{is_unsupported_item as spec_unsupported_item};
ghost use Rattle.rls_dml.specs.Checking as spec;

use rls_expansion::put_tables_if;
use rls_expr::{
    Column, Expr, NameStep, NamedTable, Scope, SelectedTable, TableDef, all_columns, columns_of,
    goes_into, has_query, has_sum, is_boolean, is_typed, put_all_names, put_selected,
    resolve_columns, typing_of,
};
use rls_guard::{is_unsupported, is_unsupported_item};
use rls_statement::Selected;
use rls_value::{Items, Name, NameKind, Refusal};
use std::alloc::{AllocError, Global};

/// Puts the names of what is selected behind the steps.
pub fn put_selection_names<'x>(
    steps: &mut Vec<NameStep<'x>>,
    selected: &'x Selected,
) -> Result<(), AllocError>
    ensures { OnOk result (map step_of steps.new.items ≡ map step_of steps.old.items ++ spec.selection_names selected.now) }
{
    match selected {
        Selected::All | Selected::Count => Ok(()),
        Selected::Items(items) => put_all_names(steps, items.as_slice()),
    }
}

/// The same of RETURNING, if it is there.
pub fn put_returning_names<'x>(
    steps: &mut Vec<NameStep<'x>>,
    returning: &'x Option<Selected>,
) -> Result<(), AllocError>
    ensures { OnOk result (map step_of steps.new.items ≡ map step_of steps.old.items ++ spec.returning_names returning.now) }
{
    match returning {
        None => Ok(()),
        Some(selected) => put_selection_names(steps, selected),
    }
}

/// The condition with its columns resolved, if there is one.
pub fn resolve_where(
    alloc: Global,
    condition: &Option<Expr>,
    scope: &Scope,
) -> Result<Option<Expr>, AllocError>
    ensures { IfOk result (λ resolved. resolved ≡ spec.where_resolved (names_in scope.now) condition.now) }
{
    match condition {
        None => Ok(None),
        Some(condition) => match resolve_columns(alloc, condition, scope) {
            Ok(resolved) => Ok(Some(resolved)),
            Err(refused) => Err(refused),
        },
    }
}

/// What is selected, with resolved columns.
pub fn resolve_selection(
    alloc: Global,
    selected: &Selected,
    scope: &Scope,
) -> Result<Selected, AllocError>
    ensures { IfOk result (λ resolved. resolved ≡ spec.selection_resolved (names_in scope.now) selected.now) }
{
    match selected {
        Selected::All => Ok(Selected::All),
        Selected::Items(items) => match resolve_terms(alloc, items.as_slice(), scope) {
            Ok(resolved) => Ok(Selected::Items(resolved)),
            Err(refused) => Err(refused),
        },
        Selected::Count => Ok(Selected::Count),
    }
}

/// The expressions with resolved columns.
pub fn resolve_terms(
    alloc: Global,
    exprs: &[Expr],
    scope: &Scope,
) -> Result<Items<Expr>, AllocError>
    ensures { IfOk result (λ resolved. resolved ≡ map (spec.resolved_in (names_in scope.now)) exprs.now) }
{
    let mut resolved = Items::new(alloc);
    for expr in exprs {
        let expr = resolve_columns(alloc, expr, scope)?;
        resolved.push(expr)?;
    }
    Ok(resolved)
}

/// What RETURNING selects, with resolved columns, if it is there.
pub fn resolve_returning(
    alloc: Global,
    returning: &Option<Selected>,
    scope: &Scope,
) -> Result<Option<Selected>, AllocError>
    ensures { IfOk result (λ resolved. resolved ≡ spec.returning_resolved (names_in scope.now) returning.now) }
{
    match returning {
        None => Ok(None),
        Some(selected) => match resolve_selection(alloc, selected, scope) {
            Ok(resolved) => Ok(Some(resolved)),
            Err(refused) => Err(refused),
        },
    }
}

/// The place of the column of that name; without one it is undefined.
pub fn known_place(table: &TableDef, name: &Name) -> Result<usize, Refusal>
    ensures { Gives result (spec.place_or_undefined table.now.columns name.now) }
{
    match table.column(name) {
        Some(place) => Ok(place),
        None => Err(Refusal::Undefined(NameKind::Column, name.copy()?)),
    }
}

/// Whether the condition is a boolean, if there is one.
pub fn where_fits(condition: &Option<Expr>) -> bool
    ensures { result ≡ spec.where_fits condition.now }
{
    match condition {
        None => true,
        Some(condition) => is_boolean(typing_of(condition)),
    }
}

/// Whether what is selected has types.
pub fn selection_fits(selected: &Selected) -> bool
    ensures { result ≡ spec.selection_fits selected.now }
{
    match selected {
        Selected::All | Selected::Count => true,
        Selected::Items(items) => items_fit(items.as_slice()),
    }
}

fn items_fit(items: &[Expr]) -> bool
    ensures { result ≡ list_all spec.item_fits items.now }
{
    items.iter().all(|item| is_typed(typing_of(item)))
}

/// Whether what RETURNING selects has types.
pub fn returning_fits(returning: &Option<Selected>) -> bool
    ensures { result ≡ spec.returning_fits returning.now }
{
    match returning {
        None => true,
        Some(selected) => selection_fits(selected),
    }
}

/// Whether the column at that place takes the value, its range aside.
pub fn value_fits(value: &Expr, columns: &[Column], place: usize) -> bool
    ensures { result ≡ spec.value_fits columns.now place value.now }
{
    match columns.get(place) {
        None => false,
        Some(column) => goes_into(typing_of(value), column.kind),
    }
}

/// Types that don't fit are a fault.
pub fn require_fitting(fits: bool) -> Result<(), Refusal>
    ensures { Gives result (spec.fitting_or_fault fits) }
{
    if fits {
        Ok(())
    } else {
        Err(Refusal::TypeFault)
    }
}

/// Whether something in the condition isn't supported, if there is one.
pub fn where_unsupported(condition: &Option<Expr>) -> bool
    ensures { result ≡ spec.where_unsupported condition.now }
{
    match condition {
        None => false,
        Some(condition) => is_unsupported(condition),
    }
}

/// The tables of its subqueries, in text order.
pub fn where_tables(alloc: Global, condition: &Option<Expr>) -> Result<Items<Name>, AllocError>
    ensures { IfOk result (λ tables. tables ≡ tables_if condition.now) }
{
    let mut tables = Items::new(alloc);
    put_tables_if(alloc, &mut tables, condition)?;
    Ok(tables)
}

/// The same of what is selected, where a subquery isn't supported either.
pub fn selection_unsupported(selected: &Selected) -> bool
    ensures { result ≡ spec.selection_unsupported selected.now }
{
    match selected {
        Selected::All | Selected::Count => false,
        Selected::Items(items) => some_unsupported(items.as_slice()),
    }
}

fn some_unsupported(items: &[Expr]) -> bool
    ensures { result ≡ list_any spec_unsupported_item items.now }
{
    items.iter().any(|item| is_unsupported_item(item))
}

/// The same of RETURNING.
pub fn returning_unsupported(returning: &Option<Selected>) -> bool
    ensures { result ≡ spec.returning_unsupported returning.now }
{
    match returning {
        None => false,
        Some(selected) => selection_unsupported(selected),
    }
}

/// What isn't supported is refused.
pub fn require_supported(unsupported: bool) -> Result<(), Refusal>
    ensures { Gives result (spec.supported_or_refused unsupported) }
{
    if unsupported {
        Err(Refusal::Unsupported)
    } else {
        Ok(())
    }
}

/// Puts the condition behind the others, if there is one.
pub fn put_where<'x>(
    terms: &mut Vec<&'x Expr>,
    condition: &'x Option<Expr>,
) -> Result<(), AllocError>
    ensures { OnOk result (map (λ term. term.now) terms.new.items ≡ map (λ term. term.now) terms.old.items ++ option_to_list condition.now) }
{
    match condition {
        None => Ok(()),
        Some(condition) => put_term(terms, condition),
    }
}

/// Puts what is selected behind the others.
pub fn put_selection<'x>(
    terms: &mut Vec<&'x Expr>,
    selected: &'x Selected,
) -> Result<(), AllocError>
    ensures { OnOk result (map (λ term. term.now) terms.new.items ≡ map (λ term. term.now) terms.old.items ++ spec.selection_terms selected.now) }
{
    match selected {
        Selected::All | Selected::Count => Ok(()),
        Selected::Items(items) => put_terms(terms, items.as_slice()),
    }
}

/// Puts what RETURNING selects behind the others.
pub fn put_returning<'x>(
    terms: &mut Vec<&'x Expr>,
    returning: &'x Option<Selected>,
) -> Result<(), AllocError>
    ensures { OnOk result (map (λ term. term.now) terms.new.items ≡ map (λ term. term.now) terms.old.items ++ spec.returning_terms returning.now) }
{
    match returning {
        None => Ok(()),
        Some(selected) => put_selection(terms, selected),
    }
}

fn put_terms<'x>(terms: &mut Vec<&'x Expr>, exprs: &'x [Expr]) -> Result<(), AllocError>
    ensures { OnOk result (map (λ term. term.now) terms.new.items ≡ map (λ term. term.now) terms.old.items ++ exprs.now) }
{
    for expr in exprs {
        put_term(terms, expr)?;
    }
    Ok(())
}

/// Puts the expression behind the others.
pub fn put_term<'x>(terms: &mut Vec<&'x Expr>, expr: &'x Expr) -> Result<(), AllocError>
    ensures { OnOk result (map (λ term. term.now) terms.new.items ≡ map (λ term. term.now) terms.old.items ++ expr.now ∷ []) }
{
    terms.push(expr)?;
    Ok(())
}

/// Whether all columns are selected.
pub fn selects_all(selected: &Selected) -> bool
    ensures { result ≡ spec.selects_all selected.now }
{
    match selected {
        Selected::All => true,
        Selected::Items(_) | Selected::Count => false,
    }
}

/// Whether all columns are returned.
pub fn returns_all(returning: &Option<Selected>) -> bool
    ensures { result ≡ spec.returns_all returning.now }
{
    match returning {
        None => false,
        Some(selected) => selects_all(selected),
    }
}

/// The columns that stand in the expressions, in the table's order; or all.
pub fn columns_read(
    alloc: Global,
    columns: &[Column],
    all: bool,
    terms: &[&Expr],
) -> Result<Items<Name>, AllocError>
    ensures { IfOk result (λ names. names ≡ spec.columns_read columns.now all (map (λ term. term.now) terms.now)) }
{
    if all {
        all_columns(alloc, columns)
    } else {
        columns_of(alloc, terms, columns)
    }
}

/// Whether there are some.
pub fn has_some(names: &[Name]) -> bool
    ensures { result ≡ spec.has_some names.now }
{
    match names {
        [] => false,
        [_, ..] => true,
    }
}

/// The tables of the condition's subqueries, with the columns that they mention.
pub fn put_where_selected<'x>(
    alloc: Global,
    selected: &mut Items<SelectedTable>,
    found: &'x [NamedTable<'x>],
    condition: &Option<Expr>,
) -> Result<(), AllocError>
    ensures { OnOk result (selected.new ≡ selected.old ++ spec.where_selected found.now condition.now) }
{
    match condition {
        None => Ok(()),
        Some(condition) => put_selected(alloc, selected, found, condition),
    }
}

/// The same alone.
pub fn where_selected<'x>(
    alloc: Global,
    found: &'x [NamedTable<'x>],
    condition: &Option<Expr>,
) -> Result<Items<SelectedTable>, AllocError>
    ensures { IfOk result (λ selected. selected ≡ spec.where_selected found.now condition.now) }
{
    let mut selected = Items::new(alloc);
    put_where_selected(alloc, &mut selected, found, condition)?;
    Ok(selected)
}
