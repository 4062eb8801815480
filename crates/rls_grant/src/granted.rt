//! The grants of a privilege to one grantee, which stand side by side.

ghost use Rattle.std.specs.Prelude.{◌≡◌, IfOk};
ghost use Rattle.rls_grant.specs.GrantedTo as spec;
ghost use Rattle.rls_grant.specs.GrantedTo.{is_among_first, is_grantable};
ghost use Rattle.rls_verdict.specs.rls_catalog.specs.GrantOptions as given;
ghost use Rattle.rls_verdict.specs.rls_catalog.specs.Privileges as same;
ghost use Rattle.rls_verdict.specs.rls_catalog.specs.Privileges.{is_whole};

use rls_value::{Name, Privilege};
use rls_verdict::rls_catalog::shared_map::Values;
use rls_verdict::rls_catalog::{Grant, GrantKey, Grants};
use rls_verdict::rls_expr::Grantee;
use std::alloc::AllocError;

/// Whether the grantee has a grant of the privilege on the whole table. No grants to others are looked at.
pub fn has_whole(
    grants: &Grants,
    privilege: Privilege,
    grantee: &Grantee,
) -> Result<bool, AllocError>
    ensures { IfOk result (λ has. has ≡ spec.has_whole privilege grantee.now grants.now) }
{
    let first = GrantKey::first(privilege, grantee)?;
    let left = grants.iter_from(&first);
    drop(first);
    Ok(is_whole_among_first(left, privilege, grantee))
}

/// Whether one is on the whole table among the first that are of the privilege and to the grantee.
fn is_whole_among_first(
    left: Values<'_, GrantKey, Grant>,
    privilege: Privilege,
    grantee: &Grantee,
) -> bool
    ensures { result ≡ is_among_first is_whole privilege grantee.now left.entry }
{
    for grant in left {
        if !is_to(grant, privilege, grantee) {
            return false;
        }
        if grant.is_whole() {
            return true;
        }
    }
    false
}

/// Whether the role has a grant of the privilege with its grant option. No grants to others are looked at.
pub(crate) fn has_option(
    grants: &Grants,
    privilege: Privilege,
    role: &Name,
) -> Result<bool, AllocError>
    ensures { IfOk result (λ has. has ≡ spec.has_option privilege (Grantee.Role role.now) grants.now) }
{
    let grantee = Grantee::Role(role.copy()?);
    let has = has_grantable(grants, privilege, &grantee);
    drop(grantee);
    has
}

fn has_grantable(
    grants: &Grants,
    privilege: Privilege,
    grantee: &Grantee,
) -> Result<bool, AllocError>
    ensures { IfOk result (λ has. has ≡ spec.has_option privilege grantee.now grants.now) }
{
    let first = GrantKey::first(privilege, grantee)?;
    let given = grants.iter_from(&first);
    drop(first);
    Ok(is_grantable_among_first(given, privilege, grantee))
}

/// Whether one has its grant option among the first that are of the privilege and to the grantee.
fn is_grantable_among_first(
    left: Values<'_, GrantKey, Grant>,
    privilege: Privilege,
    grantee: &Grantee,
) -> bool
    ensures { result ≡ is_among_first is_grantable privilege grantee.now left.entry }
{
    for grant in left {
        if !is_to(grant, privilege, grantee) {
            return false;
        }
        if grant.option {
            return true;
        }
    }
    false
}

/// Whether the grant is of the privilege, to the grantee.
pub(crate) fn is_to(grant: &Grant, privilege: Privilege, grantee: &Grantee) -> bool
    ensures { result ≡ spec.is_to privilege grantee.now grant.now }
{
    is_same_privilege(grant.privilege, privilege) && is_same_grantee(&grant.grantee, grantee)
}

/// Whether the two are the same privilege.
pub(crate) fn is_same_privilege(left: Privilege, right: Privilege) -> bool
    ensures { result ≡ same.is_same_privilege left right }
{
    match (left, right) {
        (Privilege::Select, Privilege::Select)
        | (Privilege::Insert, Privilege::Insert)
        | (Privilege::Update, Privilege::Update)
        | (Privilege::Delete, Privilege::Delete) => true,
        (_, _) => false,
    }
}

/// Whether the two are the same grantee.
pub(crate) fn is_same_grantee(left: &Grantee, right: &Grantee) -> bool
    ensures { result ≡ given.is_same_grantee left.now right.now }
{
    match (left, right) {
        (Grantee::Public, Grantee::Public) => true,
        (Grantee::Role(left), Grantee::Role(right)) => left.is(right),
        (_, _) => false,
    }
}
