//! The value of an expression with subqueries, over a source, and what row security says of a row.
#![tactic(auto)]

mod cached_index;
mod cached_subplan;
mod cached_verdicts;
mod datum;
mod deciding;
mod evaluation;
mod execution_state;
mod keys;
mod outer_columns;
mod outer_values;
mod plain;
mod read_set;
mod relation;
mod reuse;
mod scope;
mod tableless;
mod tables;
mod value_set;

pub use cached_verdicts::CachedVerdicts;
pub use datum::Datum;
pub use evaluation::{eval, meets_condition, verdict_on};
pub use execution_state::ExecutionState;
pub use keys::key_of;
pub use read_set::ReadSet;
pub use relation::{SecuredRelation, SecurityQuals, VisibleRelations, allows};
pub use rls_equality;
pub use rls_source;
pub use rls_verdict::rls_catalog;
pub use scope::{Env, Scoped};
pub use tableless::value_over;
pub use tables::{Looked, Tables};
