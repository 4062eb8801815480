//! Row security: who is exempt, which policies apply, what they say of a row.
#![tactic(auto)]

mod choosing;
mod exemption;

pub use choosing::{applying, chosen, expression_of};
pub use exemption::is_exempt;
pub use rls_role;
pub use rls_verdict::rls_catalog::{Side, Verdict};
pub use rls_verdict::rls_expr::Policy;
pub use rls_verdict::{Judgement, combine, exempt};
