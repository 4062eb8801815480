//! Whether two values of the database are the same.
#![tactic(auto)]

mod change;
mod kept;
mod listed;
mod names;
mod refusal;
mod same;
mod statement;
mod term;

pub use listed::{are_items_of, are_policies_of};
pub use same::{Same, are_both_same, are_same};
pub use term::{is_same_query, is_same_term};
