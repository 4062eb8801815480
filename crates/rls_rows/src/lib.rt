//! Committed states, by how many transactions had committed.
#![tactic(auto)]

mod folds;
mod snapshot;
mod state;
mod versions;

pub use folds::states_are_folds;
pub use snapshot::Snapshot;
pub use state::State;
pub use versions::Versions;
