//! What in a state is likely a mistake: policies, privileges and row security that don't do what they seem to; and a script that
//! rebuilds it.
#![tactic(auto)]

mod commands;
mod contents;
mod defining;
mod filling;
mod finding;
mod granting;
mod laws;
mod linted;
mod listing;
mod lookups;
mod loops;
mod named;
mod nulls;
mod policy_mistakes;
mod rebuilding;
mod script;
mod table_mistakes;
mod telling;
mod texts;
mod users;

pub use commands::Commands;
pub use contents::have_same_contents;
pub use finding::{Finding, Lookup, Mistake};
pub use laws::findings_mean;
pub use listing::findings;
pub use named::Named;
pub use rebuilding::rebuilding_script;
pub use rls_rows;
