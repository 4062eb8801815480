//! Columns by their names become resolved columns, where they are there.

ghost use Rattle.std.specs.Prelude.{◌≡◌, IfOk, Some};
ghost use Rattle.rls_expr.specs.ExprTerms.{term_of, query_of};
ghost use Rattle.rls_expr.specs.Resolving.{names_in, columns_from, items_of, resolved, resolved_all, query_resolved, column_resolved};
ghost use Rattle.rls_expr.specs.Resolving as spec;
ghost use Rattle.rls_expr.specs.Scopes.{var_in};
ghost use Rattle.rls_expr.specs.Terms.{Literal, Compare, And, Or, InList, NotInList, InSubquery, NotInSubquery, Sum, maybe_term, terms_of};

use crate::column_name::ColumnName;
use crate::expr::{
    Comparison, Expr, FromItem, Node, Selects, Sign, Subquery, Var, boxed, boxed_query,
};
use crate::scope::{NamedTable, inside, known_table, var_of};
use crate::table::{Column, TableDef, category_of};
use rls_value::{Items, Value, or_drop};
use std::alloc::{AllocError, Global};

/// What names in an expression may mean.
#[derive(Drop)]
pub struct Scope<'a> {
    /// The tables of the FROM clauses round it, the innermost first.
    pub tables: &'a [NamedTable<'a>],
    /// The definitions of the tables that its subqueries name.
    pub known: &'a [NamedTable<'a>],
}

/// The expression with each known column resolved, and its type beside, each subquery with its table's key, and `*` by all
/// columns. A name that means none stays as it is, and is null where it is evaluated; so do all in a subquery over a
/// table that isn't known.
#[cycle(resolving)]
pub fn resolve_columns(alloc: Global, expr: &Expr, scope: &Scope) -> Result<Expr, AllocError>
    ensures { IfOk result (λ expr_resolved. expr_resolved ≡ resolved expr.now (names_in scope.now)) }
{
    match expr.node() {
        Node::Literal(value) => literal_copy(value),
        Node::Column(name) => resolve_column(name, scope),
        Node::Var(var) => Ok(Expr::new(Node::Var(*var))),
        Node::CurrentUser => Ok(Expr::new(Node::CurrentUser)),
        Node::Compare(how, left, right) => resolve_compare(alloc, *how, left, right, scope),
        Node::And(parts) => resolve_and(alloc, parts, scope),
        Node::Or(parts) => resolve_or(alloc, parts, scope),
        Node::Not(operand) => {
            let operand = resolve_boxed(alloc, operand, scope)?;
            Ok(Expr::new(Node::Not(operand)))
        }
        Node::IsNull(operand) => {
            let operand = resolve_boxed(alloc, operand, scope)?;
            Ok(Expr::new(Node::IsNull(operand)))
        }
        Node::IsNotNull(operand) => {
            let operand = resolve_boxed(alloc, operand, scope)?;
            Ok(Expr::new(Node::IsNotNull(operand)))
        }
        Node::InList(left, list) => resolve_in_list(alloc, left, list, scope),
        Node::NotInList(left, list) => resolve_not_in_list(alloc, left, list, scope),
        Node::Exists(query) => Ok(Expr::new(Node::Exists(resolve_query(alloc, query, scope)?))),
        Node::InSubquery(left, query) => resolve_in_subquery(alloc, left, query, scope),
        Node::NotInSubquery(left, query) => resolve_not_in_subquery(alloc, left, query, scope),
        Node::Scalar(query) => Ok(Expr::new(Node::Scalar(resolve_query(alloc, query, scope)?))),
        Node::Sum(signs, parts) => resolve_sum(alloc, signs.as_slice(), parts, scope),
    }
}

/// The literal again.
fn literal_copy(value: &Value) -> Result<Expr, AllocError>
    ensures { IfOk result (λ expr. expr ≡ Literal value.now) }
{
    let value = value.copy()?;
    Ok(Expr::new(Node::Literal(value)))
}

/// The resolved column, or the name where that means none.
fn resolve_column(name: &ColumnName, scope: &Scope) -> Result<Expr, AllocError>
    ensures { IfOk result (λ expr. expr ≡ column_resolved name.now (var_in (names_in scope.now).tables name.now)) }
{
    let node = column_node(name, scope)?;
    Ok(Expr::new(node))
}

/// The comparison of both sides.
#[cycle(resolving)]
fn resolve_compare(
    alloc: Global,
    how: Comparison,
    left: &Expr,
    right: &Expr,
    scope: &Scope,
) -> Result<Expr, AllocError>
    ensures { IfOk result (λ expr. expr ≡ resolved (Compare how left.now right.now) (names_in scope.now)) }
{
    let left = resolve_boxed(alloc, left, scope)?;
    let right = or_drop!(resolve_boxed(alloc, right, scope), left);
    Ok(Expr::new(Node::Compare(how, left, right)))
}

/// AND of the parts.
#[cycle(resolving)]
fn resolve_and(alloc: Global, parts: &[Expr], scope: &Scope) -> Result<Expr, AllocError>
    ensures { IfOk result (λ expr. expr ≡ resolved (And (terms_of parts.now)) (names_in scope.now)) }
{
    let parts = resolve_all(alloc, parts, scope)?;
    Ok(Expr::new(Node::And(parts.into_vec())))
}

/// OR of the parts.
#[cycle(resolving)]
fn resolve_or(alloc: Global, parts: &[Expr], scope: &Scope) -> Result<Expr, AllocError>
    ensures { IfOk result (λ expr. expr ≡ resolved (Or (terms_of parts.now)) (names_in scope.now)) }
{
    let parts = resolve_all(alloc, parts, scope)?;
    Ok(Expr::new(Node::Or(parts.into_vec())))
}

/// IN with the list.
#[cycle(resolving)]
fn resolve_in_list(
    alloc: Global,
    left: &Expr,
    list: &[Expr],
    scope: &Scope,
) -> Result<Expr, AllocError>
    ensures { IfOk result (λ expr. expr ≡ resolved (InList left.now (terms_of list.now)) (names_in scope.now)) }
{
    let left = resolve_boxed(alloc, left, scope)?;
    let list = or_drop!(resolve_all(alloc, list, scope), left);
    Ok(Expr::new(Node::InList(left, list.into_vec())))
}

/// NOT IN with the list.
#[cycle(resolving)]
fn resolve_not_in_list(
    alloc: Global,
    left: &Expr,
    list: &[Expr],
    scope: &Scope,
) -> Result<Expr, AllocError>
    ensures { IfOk result (λ expr. expr ≡ resolved (NotInList left.now (terms_of list.now)) (names_in scope.now)) }
{
    let left = resolve_boxed(alloc, left, scope)?;
    let list = or_drop!(resolve_all(alloc, list, scope), left);
    Ok(Expr::new(Node::NotInList(left, list.into_vec())))
}

/// IN with the subquery.
#[cycle(resolving)]
fn resolve_in_subquery(
    alloc: Global,
    left: &Expr,
    query: &Subquery,
    scope: &Scope,
) -> Result<Expr, AllocError>
    ensures { IfOk result (λ expr. expr ≡ resolved (InSubquery left.now (query_of query.now)) (names_in scope.now)) }
{
    let left = resolve_boxed(alloc, left, scope)?;
    let query = or_drop!(resolve_query(alloc, query, scope), left);
    Ok(Expr::new(Node::InSubquery(left, query)))
}

/// NOT IN with the subquery.
#[cycle(resolving)]
fn resolve_not_in_subquery(
    alloc: Global,
    left: &Expr,
    query: &Subquery,
    scope: &Scope,
) -> Result<Expr, AllocError>
    ensures { IfOk result (λ expr. expr ≡ resolved (NotInSubquery left.now (query_of query.now)) (names_in scope.now)) }
{
    let left = resolve_boxed(alloc, left, scope)?;
    let query = or_drop!(resolve_query(alloc, query, scope), left);
    Ok(Expr::new(Node::NotInSubquery(left, query)))
}

/// The sum of the parts.
#[cycle(resolving)]
fn resolve_sum(
    alloc: Global,
    signs: &[Sign],
    parts: &[Expr],
    scope: &Scope,
) -> Result<Expr, AllocError>
    ensures { IfOk result (λ expr. expr ≡ resolved (Sum signs.now (terms_of parts.now)) (names_in scope.now)) }
{
    let parts = resolve_all(alloc, parts, scope)?;
    let signs = or_drop!(signs.to_vec(alloc), parts);
    Ok(Expr::new(Node::Sum(signs, parts.into_vec())))
}

/// The expression on the heap.
#[cycle(resolving)]
fn resolve_boxed(alloc: Global, expr: &Expr, scope: &Scope) -> Result<Box<Expr>, AllocError>
    ensures { IfOk result (λ boxed. boxed.value ≡ resolved expr.now (names_in scope.now)) }
{
    let expr = resolve_columns(alloc, expr, scope)?;
    boxed(alloc, expr)
}

fn column_node(name: &ColumnName, scope: &Scope) -> Result<Node, AllocError>
    ensures { IfOk result (λ node. term_of node ≡ column_resolved name.now (var_in (names_in scope.now).tables name.now)) }
{
    match var_of(scope.tables, name) {
        Ok(var) => Ok(Node::Var(var)),
        Err(_) => Ok(Node::Column(name.copy()?)),
    }
}

/// The subquery over its table's definition; without one it stays as it is.
#[cycle(resolving)]
fn resolve_query(
    alloc: Global,
    query: &Subquery,
    scope: &Scope,
) -> Result<Box<Subquery>, AllocError>
    ensures { IfOk result (λ query_resolved. query_of query_resolved.value ≡ spec.query_resolved (query_of query.now) (names_in scope.now)) }
{
    match known_table(scope.known, &query.from.table) {
        None => query.copy_boxed(alloc),
        Some(table) => resolve_over(alloc, query, scope, table),
    }
}

#[cycle(resolving)]
fn resolve_over(
    alloc: Global,
    query: &Subquery,
    scope: &Scope,
    table: &TableDef,
) -> Result<Box<Subquery>, AllocError>
    ensures { IfOk result (λ query_resolved. query_of query_resolved.value ≡ spec.query_over (query_of query.now) (names_in scope.now) (Some table.now)) }
{
    let from = NamedTable::new(query.from.qualifier(), table)?;
    let tables = inside(alloc, from, scope.tables)?;
    let inner = Scope {
        tables: tables.as_slice(),
        known: scope.known,
    };
    let items = resolve_items(alloc, query, &inner, table)?;
    let condition = resolve_condition(alloc, &query.condition, &inner)?;
    query_with(alloc, query, table, items, condition)
}

/// The subquery with what was resolved.
fn query_with(
    alloc: Global,
    query: &Subquery,
    table: &TableDef,
    items: Items<Expr>,
    condition: Option<Expr>,
) -> Result<Box<Subquery>, AllocError>
    ensures { IfOk result (λ boxed. query_of boxed.value ≡ spec.query_with (query_of query.now) table.now.key (terms_of items) (maybe_term condition)) }
{
    let (from, key) = or_drop!(head_of(alloc, query, table), condition, items);
    boxed_query(
        alloc,
        Subquery {
            from,
            key,
            selects: query.selects,
            items: items.into_vec(),
            condition,
        },
    )
}

/// What the subquery is over, and the table's key.
fn head_of(
    alloc: Global,
    query: &Subquery,
    table: &TableDef,
) -> Result<(FromItem, Vec<usize>), AllocError>
    ensures from { IfOk result (λ head. head.0 ≡ query.now.from) }
    ensures key { IfOk result (λ head. head.1.items ≡ table.now.key) }
{
    let from = query.from.copy()?;
    let key = or_drop!(table.key.as_slice().to_vec(alloc), from);
    Ok((from, key))
}

/// The items, each column where all are selected.
#[cycle(resolving)]
fn resolve_items(
    alloc: Global,
    query: &Subquery,
    scope: &Scope,
    table: &TableDef,
) -> Result<Items<Expr>, AllocError>
    ensures { IfOk result (λ items. terms_of items ≡ items_of query.now.selects table.now (resolved_all (terms_of query.now.items.items) (names_in scope.now))) }
{
    match query.selects {
        Selects::All => all_columns(alloc, table.columns.as_slice()),
        Selects::Count | Selects::Items => resolve_all(alloc, &query.items, scope),
    }
}

/// Each column of the innermost table.
fn all_columns(alloc: Global, columns: &[Column]) -> Result<Items<Expr>, AllocError>
    ensures { IfOk result (λ items. items ≡ columns_from 0 columns.now) }
{
    let mut items = Items::new(alloc);
    for (column, def) in columns.iter().enumerate() {
        let kind = category_of(def.kind);
        items.push(Expr::new(Node::Var(Var {
            level: 0,
            column,
            kind,
        })))?;
    }
    Ok(items)
}

#[cycle(resolving)]
fn resolve_condition(
    alloc: Global,
    condition: &Option<Expr>,
    scope: &Scope,
) -> Result<Option<Expr>, AllocError>
    ensures { IfOk result (λ condition_resolved. maybe_term condition_resolved ≡ resolved_all (maybe_term condition.now) (names_in scope.now)) }
{
    match condition {
        None => Ok(None),
        Some(condition) => Ok(Some(resolve_columns(alloc, condition, scope)?)),
    }
}

#[cycle(resolving)]
fn resolve_all(alloc: Global, parts: &[Expr], scope: &Scope) -> Result<Items<Expr>, AllocError>
    ensures { IfOk result (λ all. terms_of all ≡ resolved_all (terms_of parts.now) (names_in scope.now)) }
{
    let mut all = Items::with_capacity(alloc, parts.len())?;
    for part in parts {
        let part = resolve_columns(alloc, part, scope)?;
        all.push(part)?;
    }
    Ok(all)
}
