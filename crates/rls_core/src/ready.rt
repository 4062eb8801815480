//! What a commit takes.

use crate::record::Record;
use rls_rows::State;

/// What a commit takes, made ready before it: the record, the state after it, and what its conflicts with others need.
#[derive(Drop)]
pub struct Ready {
    pub entry: Record,
    pub state: State,
    pub(crate) commit: rls_conflict::Ready,
}
