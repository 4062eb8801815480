//! Comparisons of literals, columns and the current role, made where the values stand.

ghost use Rattle.std.specs.Prelude.{◌≡◌, IfSome};
ghost use Rattle.rls_value.specs.Values.{equal_values, less_values, value_at, value_of_truth};
ghost use Rattle.rls_source.specs.rls_catalog.specs.rls_expr.specs.Terms as t;
ghost use Rattle.rls_evaluation.specs.Environments.{compared, row_at};
ghost use Rattle.rls_evaluation.specs.Plain.{IsPlainly, plain_value};
ghost use Rattle.rls_evaluation.specs.Scoping.{env_of, rows_in, text_in, text_now};

use crate::scope::{Env, Scoped};
use rls_source::rls_catalog::rls_expr::{Comparison, Expr, Node};
use rls_value::{Truth, Value};
use std::cmp::Ordering;

/// A value that is borrowed: of a literal or a row, or the name of the current role.
#[derive(Clone, Copy)]
pub enum Plain<'a> {
    BorrowedRow(&'a Value),
    Name(&'a str),
}

/// What a condition comes to that compares literals, columns and the current role; none of any other. Nothing is read for
/// it, and nothing made.
pub fn plain_condition<'a>(condition: &'a Expr, env: &Env<'a>) -> Option<Truth>
    ensures { IfSome result (λ truth. IsPlainly condition.now (env_of env.now) (value_of_truth truth)) }
{
    match condition.node() {
        Node::Compare(how, left, right) => plain_comparison(*how, left, right, env),
        _ => None,
    }
}

#[inline(always)]
#[tactic(auto, using(crate::proofs::PlainLemmas::compared_plainly))]
fn plain_comparison<'a>(
    how: Comparison,
    left: &'a Expr,
    right: &'a Expr,
    env: &Env<'a>,
) -> Option<Truth>
    ensures { IfSome result (λ truth. IsPlainly (t.Compare how left.now right.now) (env_of env.now) (value_of_truth truth)) }
{
    match (plain_operand(left, env), plain_operand(right, env)) {
        (Some(left), Some(right)) => Some(compare_plain(how, left, right)),
        (_, _) => None,
    }
}

/// The value of a literal, of a column, or of the current role.
#[inline(always)]
fn plain_operand<'a>(operand: &'a Expr, env: &Env<'a>) -> Option<Plain<'a>>
    ensures { IfSome result (λ value. IsPlainly operand.now (env_of env.now) (plain_value value)) }
{
    match operand.node() {
        Node::Literal(value) => Some(Plain::BorrowedRow(value)),
        Node::Var(var) => plain_column(&env.rows, var.level, var.column),
        Node::CurrentUser => Some(Plain::Name(env.user.as_str())),
        _ => None,
    }
}

/// A column of the row so many levels up, if there is one.
fn plain_column<'a>(rows: &Scoped<'a>, level: usize, column: usize) -> Option<Plain<'a>>
    ensures { IfSome result (λ value. plain_value value ≡ value_at (row_at (rows_in rows.now) level) column) }
{
    match rows {
        Scoped::Nothing => None,
        Scoped::Over(row, outer) => {
            if level > 0 {
                return plain_column(*outer, level - 1, column);
            }
            match (*row).get(column) {
                Some(value) => Some(Plain::BorrowedRow(value)),
                None => None,
            }
        }
    }
}

#[inline(always)]
fn compare_plain(how: Comparison, left: Plain<'_>, right: Plain<'_>) -> Truth
    ensures { result ≡ compared how (plain_value left.entry) (plain_value right.entry) }
{
    match how {
        Comparison::Equal => equal_plain(left, right),
        Comparison::NotEqual => equal_plain(left, right).not(),
        Comparison::Less => less_plain(left, right),
        Comparison::LessOrEqual => less_plain(right, left).not(),
        Comparison::Greater => less_plain(right, left),
        Comparison::GreaterOrEqual => less_plain(left, right).not(),
    }
}

/// SQL's `=`: unknown where either side is null (PostgreSQL manual, 9.2).
#[inline]
fn equal_plain(left: Plain<'_>, right: Plain<'_>) -> Truth
    ensures { result ≡ equal_values (plain_value left.entry) (plain_value right.entry) }
{
    match (left, right) {
        (Plain::BorrowedRow(Value::Int(left)), Plain::BorrowedRow(Value::Int(right))) => {
            Truth::from_bool(*left == *right)
        }
        (Plain::BorrowedRow(Value::Bool(left)), Plain::BorrowedRow(Value::Bool(right))) => {
            Truth::from_bool(*left == *right)
        }
        (left, right) => match (left.text(), right.text()) {
            (Some(left), Some(right)) => Truth::from_bool(left == right),
            (_, _) => Truth::Unknown,
        },
    }
}

/// SQL's `<`: unknown where either side is null.
fn less_plain(left: Plain<'_>, right: Plain<'_>) -> Truth
    ensures { result ≡ less_values (plain_value left.entry) (plain_value right.entry) }
{
    match (left, right) {
        (Plain::BorrowedRow(Value::Int(left)), Plain::BorrowedRow(Value::Int(right))) => {
            Truth::from_bool(*left < *right)
        }
        (Plain::BorrowedRow(Value::Bool(left)), Plain::BorrowedRow(Value::Bool(right))) => {
            Truth::from_bool(!*left && *right)
        }
        (left, right) => match (left.text(), right.text()) {
            (Some(left), Some(right)) => Truth::from_bool(left.cmp(right) == Ordering::Less),
            (_, _) => Truth::Unknown,
        },
    }
}

impl<'a> Plain<'a> {
    /// The text, if it is one.
    fn text(self) -> Option<&'a str>
        ensures { text_now result ≡ text_in (plain_value self.entry) }
    {
        match self {
            Plain::Name(name) => Some(name),
            Plain::BorrowedRow(Value::Text(text)) => Some(text.as_str()),
            Plain::BorrowedRow(Value::Null | Value::Int(_) | Value::Bool(_)) => None,
        }
    }
}
