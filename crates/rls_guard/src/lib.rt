//! Who asks and what they may: the context of a statement, the role's privileges, the
//! security quals and row checks; and what a statement comes to.
#![tactic(auto)]

mod checks;
mod context;
mod effect;
mod equality;
mod laws;
mod naming;
mod permission_check;
mod quals;
mod reply;
mod role_privileges;
mod support;

pub use checks::{is_unsupported, is_unsupported_item, require_superuser};
pub use context::{Ctx, Mode};
pub use effect::Effect;
pub use laws::{item_means, pinned_key_means, resolved_subquery_means, role_privileges_means};
pub use naming::{Found, named, named_over};
pub use permission_check::PermissionCheck;
pub use quals::{PolicyScope, RowCheck, condition_of, conditions_of, row_checks_by};
pub use reply::{Decision, Reply};
pub use rls_evaluation;
pub use rls_evaluation::{rls_catalog, rls_equality, rls_source};
pub use rls_grant;
pub use rls_policy;
pub use rls_policy::{Judgement, rls_role};
pub use role_privileges::{RolePrivileges, require_ownership, role_privileges_of};
pub use support::is_unsupported_with;
