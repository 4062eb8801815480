//! UPDATE and DELETE, as they are written.

use crate::statement::Selected;
use rls_expr::Expr;
use rls_expr::rls_value::{Items, Name};

/// `UPDATE`; no column is set twice.
#[derive(Drop)]
pub struct Update {
    pub table: Name,
    pub assignments: Items<Assignment>,
    pub condition: Option<Expr>,
    /// `RETURNING`: what is answered of the new rows. The grammar has no `count(*)` there.
    pub returning: Option<Selected>,
}

/// A column that an `UPDATE` sets, and to what.
#[derive(Drop)]
pub struct Assignment {
    pub column: Name,
    pub value: Expr,
}

#[derive(Drop)]
pub struct Delete {
    pub table: Name,
    pub condition: Option<Expr>,
    /// `RETURNING`: what is answered of the rows that go. The grammar has no `count(*)` there.
    pub returning: Option<Selected>,
}
