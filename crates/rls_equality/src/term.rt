//! Equality of expressions.

ghost use Rattle.std.specs.Prelude.{◌≡◌, ◌↔◌, true};
ghost use Rattle.rls_catalog.specs.rls_expr.specs.ExprTerms.{query_of};
ghost use Rattle.rls_catalog.specs.rls_expr.specs.Terms.{maybe_term, terms_of};

use crate::same::{Same, are_same};
use rls_catalog::rls_expr::{Comparison, Expr, Node, Sign, Subquery};

impl Same for Comparison {
    fn is_same(&self, other: &Comparison) -> bool {
        *self == *other
    }
}

impl Same for Sign {
    fn is_same(&self, other: &Sign) -> bool {
        *self == *other
    }
}

impl Same for Expr {
    fn is_same(&self, other: &Expr) -> bool {
        is_same_term(self, other)
    }
}

#[cycle(comparing)]
pub fn is_same_term(left: &Expr, right: &Expr) -> bool
    ensures { (result ≡ true) ↔ (left.now ≡ right.now) }
{
    match (left.node(), right.node()) {
        (Node::Literal(left), Node::Literal(right)) => left.is_same(right),
        (Node::Column(left), Node::Column(right)) => left.is_same(right),
        (Node::Var(left), Node::Var(right)) => left.is_same(right),
        (Node::CurrentUser, Node::CurrentUser) => true,
        (Node::Compare(how, a, b), Node::Compare(other, c, d)) => {
            *how == *other && is_same_term(a, c) && is_same_term(b, d)
        }
        (Node::And(left), Node::And(right)) => are_same_terms(left, right),
        (Node::Or(left), Node::Or(right)) => are_same_terms(left, right),
        (Node::Not(left), Node::Not(right)) => is_same_term(left, right),
        (Node::IsNull(left), Node::IsNull(right)) => is_same_term(left, right),
        (Node::IsNotNull(left), Node::IsNotNull(right)) => is_same_term(left, right),
        (Node::InList(left, list), Node::InList(right, others)) => {
            is_same_term(left, right) && are_same_terms(list, others)
        }
        (Node::NotInList(left, list), Node::NotInList(right, others)) => {
            is_same_term(left, right) && are_same_terms(list, others)
        }
        (Node::Exists(left), Node::Exists(right)) => is_same_query(left, right),
        (Node::InSubquery(a, left), Node::InSubquery(b, right)) => {
            is_same_term(a, b) && is_same_query(left, right)
        }
        (Node::NotInSubquery(a, left), Node::NotInSubquery(b, right)) => {
            is_same_term(a, b) && is_same_query(left, right)
        }
        (Node::Scalar(left), Node::Scalar(right)) => is_same_query(left, right),
        (Node::Sum(signs, left), Node::Sum(others, right)) => {
            are_same(signs, others) && are_same_terms(left, right)
        }
        (_, _) => false,
    }
}

#[cycle(comparing)]
pub fn is_same_query(left: &Subquery, right: &Subquery) -> bool
    ensures { (result ≡ true) ↔ (query_of left.now ≡ query_of right.now) }
{
    left.from.is_same(&right.from)
        && are_same(&left.key, &right.key)
        && left.selects.is_same(&right.selects)
        && are_same_terms(&left.items, &right.items)
        && are_same_conditions(&left.condition, &right.condition)
}

#[cycle(comparing)]
fn are_same_conditions(left: &Option<Expr>, right: &Option<Expr>) -> bool
    ensures { (result ≡ true) ↔ (maybe_term left.now ≡ maybe_term right.now) }
{
    match (left, right) {
        (None, None) => true,
        (Some(left), Some(right)) => is_same_term(left, right),
        (_, _) => false,
    }
}

#[cycle(comparing)]
fn are_same_terms(mut left: &[Expr], mut right: &[Expr]) -> bool
    ensures { (result ≡ true) ↔ (terms_of left.entry.now ≡ terms_of right.entry.now) }
{
    while let [first, rest @ ..] = left {
        match right {
            [other, others @ ..] => {
                if !is_same_term(first, other) {
                    return false;
                }
                right = others;
            }
            [] => return false,
        }
        left = rest;
    }
    match right {
        [] => true,
        [_, ..] => false,
    }
}
