//! GRANT and REVOKE, of privileges and of roles.

ghost use Rattle.rls_guard.specs.rls_source.specs.Answering.{Answers};
ghost use Rattle.rls_ddl.specs.Granting as spec;

use rls_guard::rls_grant::{grant, revoke};
use rls_guard::rls_role::{grant_member, revoke_member};
use rls_guard::rls_source::Asker;
use rls_guard::{Ctx, Effect};
use rls_statement::{GrantPrivileges, GrantRoles, RevokePrivileges, RevokeRoles};
use rls_value::Refusal;

/// Grants the privileges, on the table or on columns of it, to each grantee. Each privilege has its own grantor; the first
/// without one is refused.
pub fn run_grant(
    asker: &mut Asker,
    ctx: &Ctx,
    privileges: &GrantPrivileges,
) -> Result<Effect, Refusal>
    ensures { Answers (spec.grant ctx.now privileges.now) asker.old asker.new result }
{
    let delta = grant(asker, &ctx.role, privileges)?;
    Ok(Effect::done(asker.alloc(), delta))
}

/// Takes the privileges, on the table or on columns of it, from each grantee, or their grant options, as the chosen grantors
/// gave them.
pub fn run_revoke(
    asker: &mut Asker,
    ctx: &Ctx,
    privileges: &RevokePrivileges,
) -> Result<Effect, Refusal>
    ensures { Answers (spec.revoke ctx.now privileges.now) asker.old asker.new result }
{
    let delta = revoke(asker, &ctx.role, privileges)?;
    Ok(Effect::done(asker.alloc(), delta))
}

/// Grants each of the roles to each of the members.
pub fn run_grant_roles(asker: &mut Asker, ctx: &Ctx, roles: &GrantRoles) -> Result<Effect, Refusal>
    ensures { Answers (spec.grant_roles ctx.now roles.now) asker.old asker.new result }
{
    let delta = grant_member(asker, &ctx.role, roles)?;
    Ok(Effect::done(asker.alloc(), delta))
}

/// Takes each of the roles from each of the members, or one option of those memberships.
pub fn run_revoke_roles(
    asker: &mut Asker,
    ctx: &Ctx,
    roles: &RevokeRoles,
) -> Result<Effect, Refusal>
    ensures { Answers (spec.revoke_roles ctx.now roles.now) asker.old asker.new result }
{
    let delta = revoke_member(asker, &ctx.role, roles)?;
    Ok(Effect::done(asker.alloc(), delta))
}
