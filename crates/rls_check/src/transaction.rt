//! A transaction as an audit shows it.

use rls_audit::rls_core::Begin;
use rls_audit::{Audited, GrantShape};
use rls_catalog::{Membership, RoleDef};
use rls_explain::rls_guard::{Decision, Reply};
use rls_expr::{Policy, TableDef};
use rls_statement::Statement;
use rls_value::shared::Share;
use rls_value::{Items, Name, Row, RowId};

/// An object that was changed, and what it has then.
#[derive(Drop)]
pub enum Put {
    Role(Name, RoleDef),
    /// The memberships that the role has.
    Members(Name, Items<Membership>),
    Table(Name, TableDef),
    Grants(Name, Items<GrantShape>),
    Policies(Name, Items<Policy>),
    /// The values of the row, or none where it is gone.
    Row(Name, RowId, Option<Row>),
}

/// A statement, what it was answered, and what row security said of each row.
#[derive(Drop)]
pub struct Answer {
    pub statement: Share<Statement>,
    pub reply: Result<Reply, Audited>,
    pub decisions: Items<Decision>,
}

/// What an audit shows of a committed transaction; the number of its commit is told by its place.
#[derive(Drop)]
pub struct Transaction {
    pub txn: u64,
    pub begin: Begin,
    /// How many had committed when it began.
    pub snap: u64,
    pub answers: Items<Answer>,
    pub puts: Items<Put>,
}
