//! Serializable histories of transactions, over any states, places, objects and statements: each law is a clause of a function
//! that does nothing.
#![tactic(auto)]

mod database;
mod examples;
mod numbers;
mod orders;
mod runs;
mod structures;

pub use database::Database;
pub use examples::examples_mean;
pub use numbers::{Numbers, numbers_are_serial};
pub use orders::{orders_are_made, orders_mean};
pub use runs::{committed_are_serial, events_keep, events_mean};
pub use structures::structures_are_found;
