//! How many subqueries lie one inside another.

ghost use Rattle.std.specs.Prelude.{◌≡◌, ◌&&◌, nat_lt};
ghost use Rattle.rls_expr.specs.ExprTerms.{query_of};
ghost use Rattle.rls_expr.specs.Terms.{terms_of, maybe_term};
ghost use Rattle.rls_text.specs.Heights.{set_values};
ghost use Rattle.rls_text.specs.Nested.{subqueries_of, has_room, have_room, query_room, tuples_room, statement_room};

use rls_expr::{Expr, Node, Subquery};
use rls_statement::{Assignment, Statement};
use rls_value::Items;
use rls_value::shared::Share;

/// How many may lie one inside another at most.
pub const MAX_SUBQUERIES: usize = 8;

/// Whether more lie one inside another in an expression of the statement.
#[tactic(auto, using(crate::proofs::Rooms::no_room_is))]
pub fn has_too_many(statement: &Statement) -> bool
    ensures { result ≡ nat_lt MAX_SUBQUERIES (subqueries_of statement.now) }
{
    !statement_fits(statement, MAX_SUBQUERIES)
}

/// Whether there is room for those of the statement.
fn statement_fits(statement: &Statement, room: usize) -> bool
    ensures { result ≡ statement_room room statement.now }
{
    match statement {
        Statement::Select(select) => condition_fits(&select.condition, room),
        Statement::Insert(insert) => tuples_fit(insert.tuples.as_slice(), room),
        Statement::Update(update) => {
            assignments_fit(update.assignments.as_slice(), room)
                && condition_fits(&update.condition, room)
        }
        Statement::Delete(delete) => condition_fits(&delete.condition, room),
        Statement::CreatePolicy(create) => {
            both_fit(&create.policy.using, &create.policy.check, room)
        }
        Statement::AlterPolicy(alter) => both_fit(&alter.using, &alter.check, room),
        _ => true,
    }
}

fn both_fit(using: &Option<Share<Expr>>, check: &Option<Share<Expr>>, room: usize) -> bool
    ensures { result ≡ (have_room room (maybe_term using.now) && have_room room (maybe_term check.now)) }
{
    shared_fits(using, room) && shared_fits(check, room)
}

fn shared_fits(condition: &Option<Share<Expr>>, room: usize) -> bool
    ensures { result ≡ have_room room (maybe_term condition.now) }
{
    match condition {
        None => true,
        Some(condition) => fits(condition.get(), room),
    }
}

fn tuples_fit(tuples: &[Items<Expr>], room: usize) -> bool
    ensures { result ≡ tuples_room room tuples.now }
{
    for tuple in tuples {
        if !parts_fit(tuple.as_slice(), room) {
            return false;
        }
    }
    true
}

fn assignments_fit(assignments: &[Assignment], room: usize) -> bool
    ensures { result ≡ have_room room (terms_of (set_values assignments.now)) }
{
    for assignment in assignments {
        if !fits(&assignment.value, room) {
            return false;
        }
    }
    true
}

/// Whether there is room for those of the expression.
#[cycle(rooms)]
fn fits(expr: &Expr, room: usize) -> bool
    ensures { result ≡ has_room room expr.now }
{
    match expr.node() {
        Node::Literal(_) | Node::Column(_) | Node::Var(_) | Node::CurrentUser => true,
        Node::Compare(_, left, right) => fits(left, room) && fits(right, room),
        Node::And(parts) | Node::Or(parts) | Node::Sum(_, parts) => parts_fit(parts, room),
        Node::Not(operand) | Node::IsNull(operand) | Node::IsNotNull(operand) => {
            fits(operand, room)
        }
        Node::InList(left, list) | Node::NotInList(left, list) => {
            fits(left, room) && parts_fit(list, room)
        }
        Node::Exists(query) | Node::Scalar(query) => query_fits(query, room),
        Node::InSubquery(left, query) | Node::NotInSubquery(left, query) => {
            fits(left, room) && query_fits(query, room)
        }
    }
}

/// Inside a subquery there is room for one fewer.
#[cycle(rooms)]
#[tactic(auto, using(crate::proofs::Rooms::room_inside))]
fn query_fits(query: &Subquery, room: usize) -> bool
    ensures { result ≡ query_room room (query_of query.now) }
{
    if room == 0 {
        false
    } else {
        parts_fit(&query.items, room - 1) && condition_fits(&query.condition, room - 1)
    }
}

#[cycle(rooms)]
fn condition_fits(condition: &Option<Expr>, room: usize) -> bool
    ensures { result ≡ have_room room (maybe_term condition.now) }
{
    match condition {
        None => true,
        Some(condition) => fits(condition, room),
    }
}

#[cycle(rooms)]
fn parts_fit(parts: &[Expr], room: usize) -> bool
    ensures { result ≡ have_room room (terms_of parts.now) }
{
    for part in parts {
        if !fits(part, room) {
            return false;
        }
    }
    true
}
