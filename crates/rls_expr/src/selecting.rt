//! The tables of the subqueries in a resolved expression, with the columns that each mentions.

ghost use Rattle.std.specs.Prelude.{◌≡◌, [], ◌∷◌, ◌++◌, IfOk, OnOk};
ghost use Rattle.rls_expr.specs.ExprTerms.{query_of};
ghost use Rattle.rls_expr.specs.Selecting as spec;
ghost use Rattle.rls_expr.specs.Selecting.{selected_all, selected_of};
ghost use Rattle.rls_expr.specs.Terms.{maybe_term, terms_of};

use crate::columns::{SelectedTable, put_if};
use crate::expr::{Expr, Node, Subquery};
use crate::parts::selects_column;
use crate::scope::{NamedTable, known_table};
use crate::table::Column;
use rls_value::{Items, Name};
use std::alloc::{AllocError, Global};

/// Puts the tables of the expression's subqueries behind those that are there, in text order, one before those inside it.
#[cycle(selected)]
pub fn put_selected<'x>(
    alloc: Global,
    selected: &mut Items<SelectedTable>,
    found: &'x [NamedTable<'x>],
    expr: &Expr,
) -> Result<(), AllocError>
    ensures { OnOk result (selected.new ≡ selected.old ++ selected_of found.now expr.now) }
{
    match expr.node() {
        Node::Literal(_) | Node::Column(_) | Node::Var(_) | Node::CurrentUser => Ok(()),
        Node::Compare(_, left, right) => {
            put_selected(alloc, selected, found, left)?;
            put_selected(alloc, selected, found, right)
        }
        Node::And(parts) | Node::Or(parts) | Node::Sum(_, parts) => {
            put_all_selected(alloc, selected, found, parts)
        }
        Node::Not(operand) | Node::IsNull(operand) | Node::IsNotNull(operand) => {
            put_selected(alloc, selected, found, operand)
        }
        Node::InList(left, list) | Node::NotInList(left, list) => {
            put_selected(alloc, selected, found, left)?;
            put_all_selected(alloc, selected, found, list)
        }
        Node::Exists(query) | Node::Scalar(query) => {
            put_query_selected(alloc, selected, found, query)
        }
        Node::InSubquery(left, query) | Node::NotInSubquery(left, query) => {
            put_selected(alloc, selected, found, left)?;
            put_query_selected(alloc, selected, found, query)
        }
    }
}

/// Those of one expression after another.
#[cycle(selected)]
fn put_all_selected<'x>(
    alloc: Global,
    selected: &mut Items<SelectedTable>,
    found: &'x [NamedTable<'x>],
    parts: &[Expr],
) -> Result<(), AllocError>
    ensures { OnOk result (selected.new ≡ selected.old ++ selected_all found.now (terms_of parts.now)) }
{
    for part in parts {
        put_selected(alloc, selected, found, part)?;
    }
    Ok(())
}

/// Those of a condition, if there is one.
#[cycle(selected)]
fn put_selected_if<'x>(
    alloc: Global,
    selected: &mut Items<SelectedTable>,
    found: &'x [NamedTable<'x>],
    condition: &Option<Expr>,
) -> Result<(), AllocError>
    ensures { OnOk result (selected.new ≡ selected.old ++ selected_all found.now (maybe_term condition.now)) }
{
    match condition {
        None => Ok(()),
        Some(condition) => put_selected(alloc, selected, found, condition),
    }
}

#[cycle(selected)]
fn put_query_selected<'x>(
    alloc: Global,
    selected: &mut Items<SelectedTable>,
    found: &'x [NamedTable<'x>],
    query: &Subquery,
) -> Result<(), AllocError>
    ensures { OnOk result (selected.new ≡ selected.old ++ spec.query_selected found.now (query_of query.now)) }
{
    put_table(alloc, selected, found, query)?;
    put_all_selected(alloc, selected, found, &query.items)?;
    put_selected_if(alloc, selected, found, &query.condition)
}

/// Puts the subquery's own table behind the others, with those of its columns that the subquery mentions.
fn put_table<'x>(
    alloc: Global,
    selected: &mut Items<SelectedTable>,
    found: &'x [NamedTable<'x>],
    query: &Subquery,
) -> Result<(), AllocError>
    ensures { OnOk result (selected.new ≡ selected.old ++ spec.table_selected found.now (query_of query.now) ∷ []) }
{
    let columns = columns_selected(alloc, found, query)?;
    match query.from.table.copy() {
        Ok(table) => selected.push(SelectedTable { table, columns }),
        Err(refused) => {
            drop(columns);
            Err(refused)
        }
    }
}

/// The columns of its table that a subquery mentions; none of one that isn't found.
fn columns_selected<'x>(
    alloc: Global,
    found: &'x [NamedTable<'x>],
    query: &Subquery,
) -> Result<Items<Name>, AllocError>
    ensures { IfOk result (λ names. names ≡ (spec.table_selected found.now (query_of query.now)).columns) }
{
    match known_table(found, &query.from.table) {
        None => Ok(Items::new(alloc)),
        Some(table) => names_selected(alloc, query, table.columns.as_slice()),
    }
}

fn names_selected(
    alloc: Global,
    query: &Subquery,
    columns: &[Column],
) -> Result<Items<Name>, AllocError>
    ensures { IfOk result (λ names. names ≡ spec.names_where (spec.selects_column (query_of query.now)) 0 columns.now) }
{
    let mut names = Items::new(alloc);
    for (place, column) in columns.iter().enumerate() {
        put_if(&mut names, selects_column(query, place), column)?;
    }
    Ok(names)
}
