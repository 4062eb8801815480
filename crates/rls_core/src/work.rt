//! A statement that was run, and isn't posted yet.

use rls_meaning::rls_access::Outcome;
use rls_rows::State;
use rls_statement::Statement;
use rls_value::shared::Share;

/// A statement of a transaction, what it comes to on the transaction's own view, and the view with its changes on.
#[derive(Drop)]
pub struct Work {
    pub txn: u64,
    pub statement: Share<Statement>,
    pub outcome: Outcome,
    pub view: State,
}
