//! What an expression is evaluated in.

ghost use Rattle.std.specs.Prelude.{◌≡◌};
ghost use Rattle.rls_value.specs.Values.{value_at};
ghost use Rattle.rls_evaluation.specs.Environments.{row_at};
ghost use Rattle.rls_evaluation.specs.Scoping.{datum_value, rows_in};

use crate::datum::{Datum, value_in};
use rls_value::{Name, Row};

/// The rows in scope, the innermost first.
#[derive(Clone, Copy)]
pub enum Scoped<'a> {
    Nothing,
    Over(&'a Row, &'a Scoped<'a>),
}

/// What an expression is evaluated in: the current role, and the rows in scope.
#[derive(Clone, Copy)]
pub struct Env<'a> {
    pub user: &'a Name,
    pub rows: Scoped<'a>,
}

/// A column of the row so many levels up; null where there is none.
pub fn column_value<'a>(rows: &Scoped<'a>, level: usize, column: usize) -> Datum<'a>
    ensures { datum_value result ≡ value_at (row_at (rows_in rows.now) level) column }
{
    match rows {
        Scoped::Nothing => Datum::Null,
        Scoped::Over(row, outer) => {
            if level == 0 {
                value_in(*row, column)
            } else {
                column_value(*outer, level - 1, column)
            }
        }
    }
}
