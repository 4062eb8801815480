//! Transactions over threads: one core under one lock, receipts of commits, and the book of a closed engine.
#![tactic(auto)]

mod book;
mod commit;
mod desk;
mod ended;
mod engine;
mod held;
mod named;
mod place;
mod posting;
mod receipt;
mod seen;
mod step;
mod txn;

pub use book::Book;
pub use commit::Commit;
pub use ended::Ended;
pub use engine::Engine;
pub use held::Told;
pub use named::{Named, Records};
pub use place::Place;
pub use receipt::Receipt;
pub use rls_core;
pub use rls_core::rls_access;
pub use rls_core::rls_guard::rls_equality;
pub use seen::Seen;
pub use step::Step;
pub use txn::{CommitFault, PostFault, Txn};
