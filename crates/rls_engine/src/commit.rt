//! What stands of a commit for good.

use rls_core::Record;
use rls_core::rls_rows::State;

/// The record of a committed transaction, and the state after its commit.
#[derive(Drop)]
pub struct Commit {
    pub entry: Record,
    pub state: State,
}
