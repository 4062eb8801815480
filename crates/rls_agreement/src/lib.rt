//! Whether two sources have the same contents at the objects of a footprint, and the committed state of transactions that run in
//! another order.
#![tactic(auto)]

mod agreeing;
mod committing;
mod objects;
mod states;

pub use agreeing::agrees_on;
pub use committing::Committing;
pub use rls_equality;
