//! The policy expansion of a statement: the policies of its table and of those that subqueries lead to, asked of the
//! state, and what is made of them.
#![tactic(auto)]

mod conditions;
mod dependencies;
mod expansion;
mod laws;
mod policies;
mod relations;
mod selected;
mod used;

pub use dependencies::dependencies_of;
pub use expansion::{PolicyExpansion, expansion_of};
pub use laws::expression_taken;
pub use policies::policies_for;
pub use used::{holds_subquery, put_all_tables, put_tables, put_tables_if, tables_used};
