//! Whose privileges a role has, which roles a login may set, and how memberships are granted and revoked.
#![tactic(auto)]

mod effective_roles;
mod granting;
mod held_memberships;
mod holding;
mod laws;
mod managing;
mod name_set;
mod names;
mod revoking;
mod walking;

pub use effective_roles::{
    EffectiveRoles, can_set, effective_roles_of, effective_roles_over, has, reaches,
};
pub use granting::grant_member;
pub use holding::{HeldMembership, Holdings};
pub use laws::memberships_mean;
pub use names::is_among;
pub use revoking::revoke_member;
pub use rls_source;
pub use rls_statement;
pub use walking::{Step, reached};
