//! The columns further out that a subquery names, and those of the row that quals name.

ghost use Rattle.std.specs.Prelude.{◌≡◌};
ghost use Rattle.rls_source.specs.rls_catalog.specs.rls_expr.specs.ExprTerms.{query_of};
ghost use Rattle.rls_source.specs.rls_catalog.specs.rls_expr.specs.Terms.{maybe_term, terms_of};
ghost use Rattle.rls_evaluation.specs.OuterColumns as spec;
ghost use Rattle.rls_evaluation.specs.Depths.{named_in};

use crate::relation::SecurityQuals;
use rls_source::rls_catalog::rls_expr::{Expr, Node, Policy, Subquery, Var};
use rls_value::Reference;
use std::alloc::{AllocError, Global};

/// A column of the row in scope so many levels up, seen from outside the subquery.
#[derive(Clone, Copy, PartialEq, Eq)]
pub struct OuterColumn {
    pub level: usize,
    pub column: usize,
}

/// The tables that are in scope inside a subquery, the innermost first, and the columns further out that it may name.
#[derive(Clone, Copy)]
enum Inside<'a> {
    Outer(&'a [OuterColumn]),
    Table(&'a Inside<'a>),
}

/// Whether the subquery names no columns further out but these, and has no sum: what it gives is the same for each row that
/// has the same values there.
pub fn names_only(columns: &[OuterColumn], query: &Subquery) -> bool
    ensures { result ≡ spec.query_in (spec.is_among columns.now) (query_of query.now) }
{
    query_in(query, &Inside::Outer(columns))
}

/// Whether the quals name no columns but these, and have no sum: what they say is the same of each row that has the same
/// values there.
pub fn quals_name_only(columns: &[OuterColumn], quals: &SecurityQuals) -> bool
    ensures { result ≡ spec.quals_in (spec.is_among columns.now) quals.now }
{
    match quals {
        SecurityQuals::Exempt => true,
        SecurityQuals::Policies(conditions) => conditions_in(conditions.as_slice(), columns),
    }
}

fn conditions_in(conditions: &[(Reference<'_, Policy>, Expr)], columns: &[OuterColumn]) -> bool
    ensures { result ≡ spec.conditions_in (spec.is_among columns.now) conditions.now }
{
    let tables = Inside::Outer(columns);
    for (_, condition) in conditions {
        if !stays_in(condition, &tables) {
            return false;
        }
    }
    true
}

/// Inside the subquery its own table is in scope too.
#[cycle(naming)]
fn query_in(query: &Subquery, tables: &Inside) -> bool
    ensures { result ≡ spec.query_in (named_in tables.now) (query_of query.now) }
{
    let inside = Inside::Table(&*tables);
    stay_in(&query.items, &inside) && condition_in(&query.condition, &inside)
}

#[cycle(naming)]
fn condition_in(condition: &Option<Expr>, tables: &Inside) -> bool
    ensures { result ≡ spec.stay_in (named_in tables.now) (maybe_term condition.now) }
{
    match condition {
        None => true,
        Some(condition) => stays_in(condition, tables),
    }
}

#[cycle(naming)]
fn stay_in(parts: &[Expr], tables: &Inside) -> bool
    ensures { result ≡ spec.stay_in (named_in tables.now) (terms_of parts.now) }
{
    for part in parts {
        if !stays_in(part, tables) {
            return false;
        }
    }
    true
}

#[cycle(naming)]
fn stays_in(expr: &Expr, tables: &Inside) -> bool
    ensures { result ≡ spec.stays_in (named_in tables.now) expr.now }
{
    match expr.node() {
        Node::Literal(_) | Node::Column(_) | Node::CurrentUser => true,
        Node::Var(var) => is_named(var.level, var.column, tables),
        Node::Compare(_, left, right) => stays_in(left, tables) && stays_in(right, tables),
        Node::And(parts) | Node::Or(parts) => stay_in(parts, tables),
        Node::Not(operand) | Node::IsNull(operand) | Node::IsNotNull(operand) => {
            stays_in(operand, tables)
        }
        Node::InList(left, list) | Node::NotInList(left, list) => {
            stays_in(left, tables) && stay_in(list, tables)
        }
        Node::Exists(query) | Node::Scalar(query) => query_in(query, tables),
        Node::InSubquery(left, query) | Node::NotInSubquery(left, query) => {
            stays_in(left, tables) && query_in(query, tables)
        }
        Node::Sum(_, _) => false,
    }
}

/// Whether the column so many levels up is one of a table inside, or one of those further out.
fn is_named(level: usize, column: usize, tables: &Inside) -> bool
    ensures { result ≡ named_in tables.now level column }
{
    match tables {
        Inside::Outer(columns) => is_among(*columns, level, column),
        Inside::Table(outer) => level == 0 || is_named(level - 1, column, outer),
    }
}

fn is_among(columns: &[OuterColumn], level: usize, column: usize) -> bool
    ensures { result ≡ spec.is_among columns.now level column }
{
    for outer in columns {
        if outer.level == level && outer.column == column {
            return true;
        }
    }
    false
}

/// The columns further out that the subquery names, each once. `names_only` tells whether they are all.
pub fn named_columns(alloc: Global, query: &Subquery) -> Result<Vec<OuterColumn>, AllocError> {
    let mut columns = Vec::new(alloc);
    put_of_query(&mut columns, query, &Inside::Outer(&[]))?;
    Ok(columns)
}

/// The columns of the row that the quals name, each once. `quals_name_only` tells whether they are all.
pub fn columns_of_quals(
    alloc: Global,
    quals: &SecurityQuals,
) -> Result<Vec<OuterColumn>, AllocError> {
    let mut columns = Vec::new(alloc);
    if let SecurityQuals::Policies(conditions) = quals {
        for (_, condition) in conditions.as_slice() {
            put_of(&mut columns, condition, &Inside::Outer(&[]))?;
        }
    }
    Ok(columns)
}

#[cycle(putting)]
fn put_of_query(
    columns: &mut Vec<OuterColumn>,
    query: &Subquery,
    tables: &Inside,
) -> Result<(), AllocError> {
    let inside = Inside::Table(&*tables);
    put_of_parts(columns, &query.items, &inside)?;
    match &query.condition {
        None => Ok(()),
        Some(condition) => put_of(columns, condition, &inside),
    }
}

#[cycle(putting)]
fn put_of_parts(
    columns: &mut Vec<OuterColumn>,
    parts: &[Expr],
    tables: &Inside,
) -> Result<(), AllocError> {
    for part in parts {
        put_of(columns, part, tables)?;
    }
    Ok(())
}

#[cycle(putting)]
fn put_of(columns: &mut Vec<OuterColumn>, expr: &Expr, tables: &Inside) -> Result<(), AllocError> {
    match expr.node() {
        Node::Literal(_) | Node::Column(_) | Node::CurrentUser | Node::Sum(_, _) => Ok(()),
        Node::Var(var) => put_outer(columns, *var, tables),
        Node::Compare(_, left, right) => {
            put_of(columns, left, tables)?;
            put_of(columns, right, tables)
        }
        Node::And(parts) | Node::Or(parts) => put_of_parts(columns, parts, tables),
        Node::Not(operand) | Node::IsNull(operand) | Node::IsNotNull(operand) => {
            put_of(columns, operand, tables)
        }
        Node::InList(left, list) | Node::NotInList(left, list) => {
            put_of(columns, left, tables)?;
            put_of_parts(columns, list, tables)
        }
        Node::Exists(query) | Node::Scalar(query) => put_of_query(columns, query, tables),
        Node::InSubquery(left, query) | Node::NotInSubquery(left, query) => {
            put_of(columns, left, tables)?;
            put_of_query(columns, query, tables)
        }
    }
}

/// The column behind the others, if it is one of a table further out and isn't there yet.
fn put_outer(columns: &mut Vec<OuterColumn>, var: Var, tables: &Inside) -> Result<(), AllocError> {
    if let Some(level) = outer_level(var.level, tables) {
        if !is_among(&*columns, level, var.column) {
            columns.push(OuterColumn {
                level,
                column: var.column,
            })?;
        }
    }
    Ok(())
}

/// How many levels up the table is from outside; none of a table inside.
fn outer_level(level: usize, tables: &Inside) -> Option<usize> {
    match tables {
        Inside::Outer(_) => Some(level),
        Inside::Table(outer) => {
            if level == 0 {
                None
            } else {
                outer_level(level - 1, outer)
            }
        }
    }
}
