//! What isn't supported in an expression.

ghost use Rattle.std.specs.Prelude.{◌≡◌, is_some};
ghost use Rattle.rls_evaluation.specs.rls_catalog.specs.rls_expr.specs.ExprTerms.{query_of};
ghost use Rattle.rls_evaluation.specs.rls_catalog.specs.rls_expr.specs.Terms.{maybe_term, terms_of};
ghost use Rattle.rls_evaluation.specs.Keys as keys;
ghost use Rattle.rls_guard.specs.Support as spec;

use rls_evaluation::rls_catalog::rls_expr::{Comparison, Expr, Node, Selects, Subquery};

/// Whether something stands in a resolved expression, also inside a subquery, that isn't supported: a sum where none may
/// stand, a `count(*)` in a subquery, a scalar subquery whose condition doesn't pin the primary key of its table.
#[cycle(support)]
pub fn is_unsupported_with(expr: &Expr, sums: bool) -> bool
    ensures { result ≡ spec.is_unsupported sums expr.now }
{
    match expr.node() {
        Node::Literal(_) | Node::Column(_) | Node::Var(_) | Node::CurrentUser => false,
        Node::Compare(_, left, right) => is_unsupported_with(left, sums)
            || is_unsupported_with(right, sums),
        Node::And(parts) | Node::Or(parts) => are_unsupported(parts, sums),
        Node::Not(operand) | Node::IsNull(operand) | Node::IsNotNull(operand) => {
            is_unsupported_with(operand, sums)
        }
        Node::InList(left, list) | Node::NotInList(left, list) => {
            is_unsupported_with(left, sums) || are_unsupported(list, sums)
        }
        Node::Exists(query) => query_unsupported(query, sums),
        Node::InSubquery(left, query) | Node::NotInSubquery(left, query) => {
            is_unsupported_with(left, sums) || query_unsupported(query, sums)
        }
        Node::Scalar(query) => !is_pinned(query) || query_unsupported(query, sums),
        Node::Sum(_, parts) => !sums || are_unsupported(parts, sums),
    }
}

#[cycle(support)]
fn are_unsupported(parts: &[Expr], sums: bool) -> bool
    ensures { result ≡ spec.are_unsupported sums (terms_of parts.now) }
{
    for part in parts {
        if is_unsupported_with(part, sums) {
            return true;
        }
    }
    false
}

#[cycle(support)]
fn query_unsupported(query: &Subquery, sums: bool) -> bool
    ensures { result ≡ spec.query_unsupported sums (query_of query.now) }
{
    is_count(query.selects)
        || are_unsupported(&query.items, sums)
        || condition_unsupported(&query.condition, sums)
}

#[cycle(support)]
fn condition_unsupported(condition: &Option<Expr>, sums: bool) -> bool
    ensures { result ≡ spec.are_unsupported sums (maybe_term condition.now) }
{
    match condition {
        None => false,
        Some(condition) => is_unsupported_with(condition, sums),
    }
}

fn is_count(selects: Selects) -> bool
    ensures { result ≡ spec.is_count selects }
{
    match selects {
        Selects::Count => true,
        Selects::All | Selects::Items => false,
    }
}

/// Whether its condition pins the key of its table, so that it gives one row at most.
fn is_pinned(query: &Subquery) -> bool
    ensures { result ≡ spec.is_pinned (query_of query.now) }
{
    pins_key(&query.key, &query.condition)
}

/// Whether there is a key, by the places of its columns, and the condition sets each of them equal to what is known.
fn pins_key(columns: &[usize], condition: &Option<Expr>) -> bool
    ensures { result ≡ spec.pins_key columns.now (maybe_term condition.now) }
{
    match condition {
        None => false,
        Some(condition) => !columns.is_empty() && pins_columns(columns, condition),
    }
}

#[tactic(auto, using(crate::proofs::PinnedLemmas::with_there))]
fn pins_columns(columns: &[usize], condition: &Expr) -> bool
    ensures { result ≡ is_some (keys.pinned columns.now condition.now spec.nowhere) }
{
    for column in columns {
        if !pins_column(condition, *column) {
            return false;
        }
    }
    true
}

/// Whether the condition, or a part of its outermost AND, sets the column equal to what is known.
fn pins_column(condition: &Expr, column: usize) -> bool
    ensures { result ≡ is_some (keys.pin_of column condition.now spec.nowhere) }
{
    match condition.node() {
        Node::And(parts) => pins_among(parts, column),
        _ => pins_in(condition, column),
    }
}

#[tactic(auto, using(crate::proofs::PinnedLemmas::or_there))]
fn pins_among(parts: &[Expr], column: usize) -> bool
    ensures { result ≡ is_some (keys.pin_among column (terms_of parts.now) spec.nowhere) }
{
    for part in parts {
        if pins_in(part, column) {
            return true;
        }
    }
    false
}

/// Whether the one part sets the column equal to what is known, on either side.
#[tactic(auto, using(crate::proofs::PinnedLemmas::or_there))]
fn pins_in(part: &Expr, column: usize) -> bool
    ensures { result ≡ is_some (keys.pin_in column part.now spec.nowhere) }
{
    match part.node() {
        Node::Compare(Comparison::Equal, left, right) => {
            pins_by(left, right, column) || pins_by(right, left, column)
        }
        _ => false,
    }
}

#[tactic(auto, using(crate::proofs::PinnedLemmas::if_there))]
fn pins_by(here: &Expr, there: &Expr, column: usize) -> bool
    ensures { result ≡ is_some (keys.pin_by column here.now there.now spec.nowhere) }
{
    is_column(here, column) && is_known(there)
}

fn is_column(expr: &Expr, column: usize) -> bool
    ensures { result ≡ keys.is_column column expr.now }
{
    match expr.node() {
        Node::Var(var) => var.level == 0 && var.column == column,
        _ => false,
    }
}

/// Whether it is known before a row of the subquery is looked at: a literal, the current role, a column further out.
#[tactic(auto, using(crate::proofs::PinnedLemmas::outer_there))]
fn is_known(expr: &Expr) -> bool
    ensures { result ≡ is_some (keys.known_value expr.now spec.nowhere) }
{
    match expr.node() {
        Node::Literal(_) | Node::CurrentUser => true,
        Node::Var(var) => var.level != 0,
        _ => false,
    }
}
