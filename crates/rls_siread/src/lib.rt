//! Read locks: what each transaction noted as read, and who holds each object that is written.
#![tactic(auto)]

mod alone;
mod covering;
mod holders;
mod index;
mod laws;
mod lock_table;
mod notes;
mod promotion;
mod queue;
mod sireads;

pub use covering::{covered, written};
pub use laws::notes_only_widen;
pub use lock_table::LockTable;
pub use promotion::promote;
pub use sireads::Sireads;
