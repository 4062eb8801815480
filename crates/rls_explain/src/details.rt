//! What an explanation at length has beside a decision.

use rls_expr::{Column, Expr, Grantee};
use rls_value::{Items, Name, PolicyKind, Row, RowId, Truth, Value};

/// Why row security doesn't apply to a role on a table: the first reason that holds.
#[derive(Clone, Copy)]
pub enum Exemption {
    /// Row security is not enabled on the table.
    Disabled,
    Superuser,
    BypassRls,
    /// The role owns the table, and row security is not forced.
    Owner,
    /// The role has the privileges of the owner, and row security is not forced.
    OwnersPrivileges,
}

/// A row that a subquery sees, and what its WHERE says of it.
#[derive(Drop)]
pub struct SeenRow {
    pub id: RowId,
    pub row: Row,
    pub truth: Truth,
}

/// The rows that a subquery sees.
#[derive(Drop)]
pub struct Seen {
    pub table: Name,
    /// The table's columns.
    pub columns: Items<Column>,
    /// The first of them, by number.
    pub rows: Items<SeenRow>,
    /// How many more there are.
    pub more: usize,
    /// How many rows the role isn't shown.
    pub hidden: usize,
}

/// A part of a condition, and what it comes to.
#[derive(Drop)]
pub struct Part {
    /// How many parts it stands in.
    pub level: usize,
    pub value: Value,
    /// The part as it is written.
    pub expression: Expr,
    /// Where it compares, the same with the values.
    pub values: Option<Expr>,
    /// Where it has a subquery, the rows that this sees.
    pub sees: Option<Seen>,
}

/// Whether a policy is asked about a row.
#[derive(Drop)]
pub enum Asking {
    /// It isn't: it is for another type of command.
    OtherCommand,
    /// It isn't: it is to other roles.
    OtherRoles,
    /// It has not the expression that it would be asked for.
    NoExpression,
    /// It is, with what it says and the parts of its condition.
    Asked(Truth, Items<Part>),
}

/// A policy of the table, and whether it is asked.
#[derive(Drop)]
pub struct Consulted {
    pub policy: Name,
    pub permissive: bool,
    pub kind: PolicyKind,
    pub to: Items<Grantee>,
    /// The expression is WITH CHECK, and else USING.
    pub with_check: bool,
    pub asking: Asking,
}

/// Which policies are asked about a row.
#[derive(Drop)]
pub enum Consulting {
    /// None: row security doesn't apply to the role.
    Exempt(Exemption),
    /// Those of the table, by name.
    Policies(Items<Consulted>),
}

/// What is told of a decision at length.
#[derive(Drop)]
pub struct Details {
    pub table: Name,
    pub owner: Name,
    /// The table's columns.
    pub columns: Items<Column>,
    pub consulting: Consulting,
}
