//! What conflicts between transactions: rw-antidependencies, dangerous structures, objects that two transactions write.
#![tactic(auto)]

mod changes;
mod committed;
mod conflicts;
mod danger;
mod edges;
mod examples;
mod forgetting;
mod ordering;
mod part;
mod places;
mod posting;
mod promoting;
mod ready;
mod running;
mod structure_search;
mod structures;
mod testing;
mod transaction;
mod updaters;
mod words;
mod writers;

pub use changes::{changes_are_put, sound_rows_join};
pub use conflicts::Conflicts;
pub use examples::examples_mean;
pub use ready::Ready;
pub use rls_siread;
pub use structures::structures_are_found;
pub use transaction::Transaction;
pub use words::words_are_told;
pub use writers::writers_are_named;
