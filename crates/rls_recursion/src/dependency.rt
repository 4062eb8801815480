//! The tables that chains of policies meet.

use rls_catalog::rls_expr::{NamedTable, Policy};
use rls_value::{Items, Name, Reference};

/// A table that chains of policies meet, and what is read for it.
#[derive(Drop)]
pub struct PolicyDependency<'c> {
    pub table: Name,
    /// The table under its name, if there is one.
    pub known: Option<NamedTable<'c>>,
    /// The policies for SELECT that apply to the role, in byte order of their names; none where row security doesn't
    /// apply to it.
    pub policies: Option<Items<Reference<'c, Policy>>>,
    /// Whether one of them holds a subquery, in either of its expressions.
    pub has_subquery: bool,
    /// The tables of the subqueries in the expressions that are asked for, in text order.
    pub subquery_tables: Items<Name>,
}
