//! What may happen to a core.

use crate::begin::Begin;
use rls_statement::Statement;
use rls_value::shared::Share;

/// What may happen: a transaction begins; or the one of that number posts a statement, commits, or is rolled back.
#[derive(Drop)]
pub enum Event {
    Begins(Begin),
    Posts(u64, Share<Statement>),
    Commits(u64),
    RollsBack(u64),
}
