//! Which rows of a table a statement looks at, what row security says of each, and the values that rows are given.
#![tactic(auto)]

mod alike;
mod check_context;
mod judging;
mod reading;
mod valuing;

pub use check_context::CheckContext;
pub use judging::{judged, qualifying_rows_of};
pub use reading::scanned_rows;
pub use valuing::{assignments_of, tuples_of};
