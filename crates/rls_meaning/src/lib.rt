//! What a statement means over a state alone, in the manual's words, and that it comes to just that.
#![tactic(auto)]

mod depth;
mod laws;

pub use depth::{dependencies_lead, policy_expansion_means, role_means, shows_means, state_means};
pub use laws::{
    delete_means, expansion_means, insert_means, needed_means, relations_mean, select_means,
    statement_means, update_means,
};
pub use rls_access;
pub use rls_expansion;
pub use rls_guard;
