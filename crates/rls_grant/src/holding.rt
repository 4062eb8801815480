//! Which privileges a role holds.

ghost use Rattle.std.specs.Prelude.{◌≡◌, ◌&&◌, ◌||◌, IfOk, OnOk};
ghost use Rattle.std.specs.List.{list_any};
ghost use Rattle.rls_verdict.specs.rls_catalog.specs.Privileges as spec;
ghost use Rattle.rls_verdict.specs.rls_catalog.specs.Privileges.{holds_reads};
ghost use Rattle.rls_grant.specs.GrantedTo as grants_to;
ghost use Rattle.rls_verdict.specs.rls_catalog.specs.State.{State, AgreesOn};

use crate::granted::has_whole;
use rls_role::rls_source::{Reading, RowSource};
use rls_role::{EffectiveRoles, effective_roles_over};
use rls_value::{Name, Privilege};
use rls_verdict::rls_catalog::Grants;
use rls_verdict::rls_expr::Grantee;
use std::alloc::{AllocError, Global};

/// Whether the role holds the privilege on the table: it is a superuser, or there is a grant of it on the whole table to
/// PUBLIC or to a role whose privileges it has. It reads the role and, unless that is a superuser, each role that it reaches, and the
/// grants on the table; in every state that agrees on them the answer is the same.
#[tactic(auto, using(crate::proofs::PassedOn::holds_frame))]
pub fn holds<'c, S: RowSource<'c>>(
    alloc: Global,
    source: &mut S,
    role: &Name,
    privilege: Privilege,
    table: &Name,
) -> Result<bool, AllocError>
    ensures holds { IfOk result (λ holds. holds ≡ spec.holds (S.state source.old) role.now privilege table.now) }
    ensures frame { (other : State) → AgreesOn (S.state source.old) other (holds_reads (S.state source.old) role.now table.now) → spec.holds other role.now privilege table.now ≡ spec.holds (S.state source.old) role.now privilege table.now }
    ensures read { OnOk result (source.new ≡ S.after source.old (holds_reads (S.state source.old) role.now table.now)) }
    ensures state { S.state source.new ≡ S.state source.old }
{
    let effective_roles = effective_roles_over(alloc, source, role)?;
    if effective_roles.superuser {
        return Ok(true);
    }
    let grants = source.grants(alloc, table)?;
    let granted = is_granted(grants, privilege, &effective_roles)?;
    drop(effective_roles);
    Ok(granted)
}

/// Whether the role is a superuser, or some of the grants is of the privilege on the whole table and for it. The grants are
/// looked up for each role whose privileges it has, and for PUBLIC.
pub fn is_granted(
    grants: &Grants,
    privilege: Privilege,
    effective_roles: &EffectiveRoles,
) -> Result<bool, AllocError>
    ensures { IfOk result (λ granted. granted ≡ (effective_roles.now.superuser || list_any (λ grant. spec.is_whole grant && (spec.is_same_privilege grant.privilege privilege && spec.includes effective_roles.now.superuser effective_roles.now.names grant.grantee)) grants.now)) }
{
    if effective_roles.superuser {
        return Ok(true);
    }
    if is_granted_to_some(grants, privilege, effective_roles.names.as_slice())? {
        return Ok(true);
    }
    has_whole(grants, privilege, &Grantee::Public)
}

/// Whether some of the roles has a grant of the privilege on the whole table.
fn is_granted_to_some(
    grants: &Grants,
    privilege: Privilege,
    mut roles: &[Name],
) -> Result<bool, AllocError>
    ensures { IfOk result (λ granted. granted ≡ list_any (λ role. grants_to.has_whole privilege (Grantee.Role role) grants.now) roles.entry.now) }
{
    while let [role, rest @ ..] = roles {
        let grantee = Grantee::Role(role.copy()?);
        let granted = has_whole(grants, privilege, &grantee);
        drop(grantee);
        if granted? {
            return Ok(true);
        }
        roles = rest;
    }
    Ok(false)
}
