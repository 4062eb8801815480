//! What row security says of a row, once it is known who asks and what each policy says: who is exempt, and how policies combine.
#![tactic(auto)]

mod combining;
mod exemption;

pub use combining::{Judgement, combine, lesser_name};
pub use exemption::exempt;
pub use rls_catalog;
pub use rls_catalog::{rls_expr, rls_value};
