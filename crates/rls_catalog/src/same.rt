//! Whether two keys are the same.

ghost use Rattle.std.specs.Prelude.{◌≡◌};
ghost use Rattle.rls_catalog.specs.State as spec;

use rls_expr::rls_value::{Row, Value};

/// Whether the rows have the same values, null being equal to itself.
pub fn is_same_row(left: &Row, right: &Row) -> bool
    ensures { result ≡ spec.is_same_row left.now right.now }
{
    are_same(left.as_slice(), right.as_slice())
}

fn are_same(mut left: &[Value], mut right: &[Value]) -> bool
    ensures { result ≡ spec.is_same_row left.entry.now right.entry.now }
{
    while let [first, rest @ ..] = left {
        match right {
            [other, others @ ..] => {
                if !is_same_value(first, other) {
                    return false;
                }
                right = others;
            }
            [] => return false,
        }
        left = rest;
    }
    right.is_empty()
}

fn is_same_value(left: &Value, right: &Value) -> bool
    ensures { result ≡ spec.is_same_value left.now right.now }
{
    match (left, right) {
        (Value::Null, Value::Null) => true,
        (Value::Int(left), Value::Int(right)) => *left == *right,
        (Value::Text(left), Value::Text(right)) => left.is(right),
        (Value::Bool(left), Value::Bool(right)) => *left == *right,
        (_, _) => false,
    }
}
