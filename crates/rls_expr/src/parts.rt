//! What stands in an expression.

ghost use Rattle.std.specs.Prelude.{◌≡◌, nat_eq};
ghost use Rattle.rls_expr.specs.ExprTerms.{query_of};
ghost use Rattle.rls_expr.specs.Parts as spec;
ghost use Rattle.rls_expr.specs.Parts.{has_query, have_query, has_sum, have_sum, is_wanted, nesting_of, mentions, some_mentions};
ghost use Rattle.rls_expr.specs.Selecting.{selects_column as spec_selects_column};
ghost use Rattle.rls_expr.specs.Terms.{maybe_term, terms_of};

use crate::expr::{Expr, Node, Subquery};

/// Whether a sum stands in it, outside its subqueries. Only what an `UPDATE` sets a column to may have one.
#[cycle(sums)]
pub fn has_sum(expr: &Expr) -> bool
    ensures { result ≡ has_sum expr.now }
{
    match expr.node() {
        Node::Literal(_)
        | Node::Column(_)
        | Node::Var(_)
        | Node::CurrentUser
        | Node::Exists(_)
        | Node::Scalar(_) => false,
        Node::Compare(_, left, right) => has_sum(left) || has_sum(right),
        Node::And(parts) | Node::Or(parts) => have_sum(parts),
        Node::Not(operand)
        | Node::IsNull(operand)
        | Node::IsNotNull(operand)
        | Node::InSubquery(operand, _)
        | Node::NotInSubquery(operand, _) => has_sum(operand),
        Node::InList(left, list) | Node::NotInList(left, list) => has_sum(left) || have_sum(list),
        Node::Sum(_, _) => true,
    }
}

#[cycle(sums)]
fn have_sum(parts: &[Expr]) -> bool
    ensures { result ≡ have_sum (terms_of parts.now) }
{
    for part in parts {
        if has_sum(part) {
            return true;
        }
    }
    false
}

/// Whether a subquery stands in it.
#[cycle(queries)]
pub fn has_query(expr: &Expr) -> bool
    ensures { result ≡ has_query expr.now }
{
    match expr.node() {
        Node::Literal(_) | Node::Column(_) | Node::Var(_) | Node::CurrentUser => false,
        Node::Compare(_, left, right) => has_query(left) || has_query(right),
        Node::And(parts) | Node::Or(parts) | Node::Sum(_, parts) => have_query(parts),
        Node::Not(operand) | Node::IsNull(operand) | Node::IsNotNull(operand) => has_query(operand),
        Node::InList(left, list) | Node::NotInList(left, list) => has_query(left)
            || have_query(list),
        Node::Exists(_) | Node::Scalar(_) | Node::InSubquery(_, _) | Node::NotInSubquery(_, _) =>
            true,
    }
}

#[cycle(queries)]
fn have_query(parts: &[Expr]) -> bool
    ensures { result ≡ have_query (terms_of parts.now) }
{
    for part in parts {
        if has_query(part) {
            return true;
        }
    }
    false
}

/// How many levels up a table is.
#[derive(Clone, Copy)]
enum Nesting<'a> {
    Innermost,
    Inside(&'a Nesting<'a>),
}

/// Which columns of a table are wanted.
#[derive(Clone, Copy)]
enum Wanted {
    Any,
    /// The one at the place.
    At(usize),
}

/// Whether a column of the target stands in a resolved expression, also inside a subquery; a column of another use of the
/// same table there doesn't count.
pub fn reads_target(expr: &Expr) -> bool
    ensures { result ≡ spec.reads_target expr.now }
{
    is_mentioned(expr, Wanted::Any, &Nesting::Innermost)
}

/// Whether the target's column at the place stands in a resolved expression, also inside a subquery.
pub fn reads_column(expr: &Expr, place: usize) -> bool
    ensures { result ≡ mentions (nat_eq place) 0 expr.now }
{
    is_mentioned(expr, Wanted::At(place), &Nesting::Innermost)
}

/// Whether the column at the place, of the subquery's table, stands in its items or in its WHERE, also inside its own
/// subqueries.
pub fn selects_column(query: &Subquery, place: usize) -> bool
    ensures { result ≡ spec_selects_column (query_of query.now) place }
{
    some_mentions(&query.items, Wanted::At(place), &Nesting::Innermost)
        || condition_mentions(&query.condition, Wanted::At(place), &Nesting::Innermost)
}

#[cycle(mentions)]
fn is_mentioned(expr: &Expr, wanted: Wanted, table: &Nesting) -> bool
    ensures { result ≡ mentions (is_wanted wanted) (nesting_of table.now) expr.now }
{
    match expr.node() {
        Node::Literal(_) | Node::Column(_) | Node::CurrentUser => false,
        Node::Var(var) => is_level(var.level, table) && is_column(var.column, wanted),
        Node::Compare(_, left, right) => is_mentioned(left, wanted, table)
            || is_mentioned(right, wanted, table),
        Node::And(parts) | Node::Or(parts) | Node::Sum(_, parts) => some_mentions(
            parts, wanted, table,
        ),
        Node::Not(operand) | Node::IsNull(operand) | Node::IsNotNull(operand) => {
            is_mentioned(operand, wanted, table)
        }
        Node::InList(left, list) | Node::NotInList(left, list) => {
            is_mentioned(left, wanted, table) || some_mentions(list, wanted, table)
        }
        Node::Exists(query) | Node::Scalar(query) => query_mentions(query, wanted, table),
        Node::InSubquery(left, query) | Node::NotInSubquery(left, query) => {
            is_mentioned(left, wanted, table) || query_mentions(query, wanted, table)
        }
    }
}

/// Inside the subquery the table is one level further up.
#[cycle(mentions)]
fn query_mentions(query: &Subquery, wanted: Wanted, table: &Nesting) -> bool
    ensures { result ≡ spec.query_mentions (is_wanted wanted) (nesting_of table.now) (query_of query.now) }
{
    let inside = Nesting::Inside(&*table);
    some_mentions(&query.items, wanted, &inside)
        || condition_mentions(&query.condition, wanted, &inside)
}

#[cycle(mentions)]
fn condition_mentions(condition: &Option<Expr>, wanted: Wanted, table: &Nesting) -> bool
    ensures { result ≡ some_mentions (is_wanted wanted) (nesting_of table.now) (maybe_term condition.now) }
{
    match condition {
        None => false,
        Some(condition) => is_mentioned(condition, wanted, table),
    }
}

#[cycle(mentions)]
fn some_mentions(parts: &[Expr], wanted: Wanted, table: &Nesting) -> bool
    ensures { result ≡ some_mentions (is_wanted wanted) (nesting_of table.now) (terms_of parts.now) }
{
    for part in parts {
        if is_mentioned(part, wanted, table) {
            return true;
        }
    }
    false
}

/// Whether the column at the place is wanted.
fn is_column(place: usize, wanted: Wanted) -> bool
    ensures { result ≡ is_wanted wanted place }
{
    match wanted {
        Wanted::Any => true,
        Wanted::At(other) => other == place,
    }
}

/// Whether so many levels up is that nesting.
fn is_level(level: usize, nesting: &Nesting) -> bool
    ensures { result ≡ nat_eq level (nesting_of nesting.now) }
{
    match nesting {
        Nesting::Innermost => level == 0,
        Nesting::Inside(outer) => {
            if level == 0 {
                false
            } else {
                is_level(level - 1, outer)
            }
        }
    }
}
