//! Whether chains of policies close, and in which order their tables come.
#![tactic(auto)]

mod dependency;
mod laws;
mod listings;
mod progress;
mod searching;

pub use dependency::PolicyDependency;
pub use laws::search_means;
pub use listings::{PolicySubqueries, listed};
pub use rls_catalog;
pub use searching::{Reached, dependency_in, search};
