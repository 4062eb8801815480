//! The types of expressions.

ghost use Rattle.std.specs.Prelude.{◌≡◌};
ghost use Rattle.rls_expr.specs.ExprTerms.{query_of};
ghost use Rattle.rls_expr.specs.Typing as spec;
ghost use Rattle.rls_expr.specs.Typing.{type_of, all_typed, all_booleans, all_numbers, among_type, item_type, only_type, query_fits, takes_number, goes_with, goes_into, takes_boolean};
ghost use Rattle.rls_expr.specs.Terms.{maybe_term, terms_of};

use crate::expr::{Category, Expr, Node, Selects, Subquery};
use crate::table::category_of;
use rls_value::{ColType, Value};

/// What typing finds: types that don't fit, a null, which goes with each type, or a type.
#[derive(Clone, Copy, PartialEq, Eq)]
pub enum Typing {
    Fault,
    Null,
    Of(Category),
}

/// Whether values of what was typed may be given to a column, their range aside.
pub fn goes_into(typing: Typing, column: ColType) -> bool
    ensures { result ≡ goes_into typing column }
{
    match typing {
        Typing::Fault => false,
        Typing::Null => true,
        Typing::Of(kind) => kind == category_of(column),
    }
}

/// The type of an expression whose columns are resolved.
#[cycle(typing)]
pub fn typing_of(expr: &Expr) -> Typing
    ensures { result ≡ type_of expr.now }
{
    match expr.node() {
        Node::Literal(value) => literal_typing(value),
        Node::Column(_) => Typing::Fault,
        Node::Var(var) => Typing::Of(var.kind),
        Node::CurrentUser => Typing::Of(Category::Text),
        Node::Compare(_, left, right) => compared(typing_of(left), typing_of(right)),
        Node::And(parts) | Node::Or(parts) => boolean_if(are_booleans(parts)),
        Node::Not(operand) => boolean_if(is_boolean(typing_of(operand))),
        Node::IsNull(operand) | Node::IsNotNull(operand) => tested(typing_of(operand)),
        Node::InList(left, list) | Node::NotInList(left, list) => among_typing(
            typing_of(left),
            list,
        ),
        Node::Exists(query) => boolean_if(query_fits(query)),
        Node::InSubquery(left, query) | Node::NotInSubquery(left, query) => {
            compared(typing_of(left), item_typing(query))
        }
        Node::Scalar(query) => item_typing(query),
        Node::Sum(_, parts) => number_if(are_numbers(parts)),
    }
}

/// Whether each item has a type, and the condition is a boolean.
#[cycle(typing)]
fn query_fits(query: &Subquery) -> bool
    ensures { result ≡ spec.query_fits (query_of query.now) }
{
    are_typed(&query.items) && is_condition(&query.condition)
}

/// The type of the one item that the subquery selects.
#[cycle(typing)]
fn item_typing(query: &Subquery) -> Typing
    ensures { result ≡ item_type (query_of query.now) }
{
    selected_typing(
        query.selects,
        only_typing(&query.items),
        is_condition(&query.condition),
    )
}

#[cycle(typing)]
fn only_typing(items: &[Expr]) -> Typing
    ensures { result ≡ only_type (terms_of items.now) }
{
    match items {
        [] => Typing::Fault,
        [item] => typing_of(item),
        [_, _, ..] => Typing::Fault,
    }
}

#[cycle(typing)]
fn is_condition(condition: &Option<Expr>) -> bool
    ensures { result ≡ all_booleans (maybe_term condition.now) }
{
    match condition {
        None => true,
        Some(condition) => is_boolean(typing_of(condition)),
    }
}

#[cycle(typing)]
fn are_typed(parts: &[Expr]) -> bool
    ensures { result ≡ all_typed (terms_of parts.now) }
{
    for part in parts {
        if !is_typed(typing_of(part)) {
            return false;
        }
    }
    true
}

#[cycle(typing)]
fn are_booleans(parts: &[Expr]) -> bool
    ensures { result ≡ all_booleans (terms_of parts.now) }
{
    for part in parts {
        if !is_boolean(typing_of(part)) {
            return false;
        }
    }
    true
}

#[cycle(typing)]
fn are_numbers(parts: &[Expr]) -> bool
    ensures { result ≡ all_numbers (terms_of parts.now) }
{
    for part in parts {
        if !is_number(typing_of(part)) {
            return false;
        }
    }
    true
}

/// The type of IN, where what stands to its left is of that type.
#[cycle(typing)]
fn among_typing(left: Typing, list: &[Expr]) -> Typing
    ensures { result ≡ among_type left (terms_of list.now) }
{
    for part in list {
        if compared(left, typing_of(part)) == Typing::Fault {
            return Typing::Fault;
        }
    }
    tested(left)
}

fn literal_typing(value: &Value) -> Typing
    ensures { result ≡ spec.literal_type value.now }
{
    match value {
        Value::Null => Typing::Null,
        Value::Int(_) => Typing::Of(Category::Number),
        Value::Text(_) => Typing::Of(Category::Text),
        Value::Bool(_) => Typing::Of(Category::Boolean),
    }
}

fn selected_typing(selects: Selects, only: Typing, fits: bool) -> Typing
    ensures { result ≡ spec.selected_type selects only fits }
{
    match (fits, selects) {
        (false, _) => Typing::Fault,
        (true, Selects::Count) => Typing::Of(Category::Number),
        (true, Selects::All | Selects::Items) => only,
    }
}

fn compared(left: Typing, right: Typing) -> Typing
    ensures { result ≡ goes_with left right }
{
    match (left, right) {
        (Typing::Fault, _) | (_, Typing::Fault) => Typing::Fault,
        (Typing::Null, _) | (_, Typing::Null) => Typing::Of(Category::Boolean),
        (Typing::Of(left), Typing::Of(right)) => boolean_if(left == right),
    }
}

fn tested(operand: Typing) -> Typing
    ensures { result ≡ spec.tested operand }
{
    match operand {
        Typing::Fault => Typing::Fault,
        Typing::Null | Typing::Of(_) => Typing::Of(Category::Boolean),
    }
}

/// Whether it has a type, or is null.
pub fn is_typed(typing: Typing) -> bool
    ensures { result ≡ spec.is_typed typing }
{
    match typing {
        Typing::Fault => false,
        Typing::Null | Typing::Of(_) => true,
    }
}

/// Whether it may stand where a boolean is wanted.
pub fn is_boolean(operand: Typing) -> bool
    ensures { result ≡ takes_boolean operand }
{
    match operand {
        Typing::Null | Typing::Of(Category::Boolean) => true,
        Typing::Fault | Typing::Of(Category::Number) | Typing::Of(Category::Text) => false,
    }
}

fn is_number(operand: Typing) -> bool
    ensures { result ≡ takes_number operand }
{
    match operand {
        Typing::Null | Typing::Of(Category::Number) => true,
        Typing::Fault | Typing::Of(Category::Text) | Typing::Of(Category::Boolean) => false,
    }
}

fn number_if(fits: bool) -> Typing
    ensures { result ≡ spec.number_if fits }
{
    if fits {
        Typing::Of(Category::Number)
    } else {
        Typing::Fault
    }
}

fn boolean_if(fits: bool) -> Typing
    ensures { result ≡ spec.boolean_if fits }
{
    if fits {
        Typing::Of(Category::Boolean)
    } else {
        Typing::Fault
    }
}
