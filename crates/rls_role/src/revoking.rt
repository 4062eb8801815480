//! REVOKE of roles.

ghost use Rattle.std.specs.Prelude.{◌≡◌, map, filter, not, IfOk, OnOk};
ghost use Rattle.rls_source.specs.rls_value.specs.Names.{one_of};
ghost use Rattle.rls_source.specs.Answering.{Answers};
ghost use Rattle.rls_role.specs.{Granting.members_written, Revoking.memberships_revoked, Revoking.roles_revoked, Revoking.taken_in};
ghost use Rattle.rls_role.specs.Revoking as spec;

use crate::held_memberships::{held_of, write_held};
use crate::holding::HeldMembership;
use crate::managing::require_managed;
use rls_source::Asker;
use rls_source::rls_catalog::{Delta, Membership, Memberships};
use rls_source::rls_value::{Items, Name, Refusal};
use rls_statement::{MembershipOption, RevokeRoles};
use std::alloc::{AllocError, Global};

/// What it takes that the current role takes each of the roles from each of the members, or one option of those
/// memberships (PostgreSQL manual, REVOKE). What isn't there is written as it is. Refused are, in this order: a role that
/// isn't there; one that the current role doesn't manage.
pub fn revoke_member(
    asker: &mut Asker,
    current: &Name,
    revoke: &RevokeRoles,
) -> Result<Delta, Refusal>
    ensures { Answers (spec.revoke_member current.now revoke.now) asker.old asker.new result }
{
    asker.require_roles(revoke.roles.as_slice())?;
    asker.require_roles(revoke.from.as_slice())?;
    revoke_roles(asker, current, revoke)
}

#[tactic(auto, unfolding(crate::specs::Revoking::roles_revoked))]
fn revoke_roles(asker: &mut Asker, current: &Name, revoke: &RevokeRoles) -> Result<Delta, Refusal>
    ensures { Answers (roles_revoked current.now revoke.now) asker.old asker.new result }
{
    require_managed(asker, current, revoke.roles.as_slice())?;
    revoke_memberships(asker, revoke)
}

#[tactic(auto, unfolding(crate::specs::Revoking::memberships_revoked))]
fn revoke_memberships(asker: &mut Asker, revoke: &RevokeRoles) -> Result<Delta, Refusal>
    ensures { Answers (memberships_revoked revoke.now) asker.old asker.new result }
{
    let held = held_of(asker, revoke.from.as_slice())?;
    let alloc = asker.alloc();
    Ok(revoked(alloc, revoke, held.into_items(alloc)?)?)
}

fn revoked(
    alloc: Global,
    revoke: &RevokeRoles,
    held: Items<HeldMembership>,
) -> Result<Delta, AllocError>
    ensures { IfOk result (λ delta. delta ≡ members_written (map (taken_in revoke.now.option revoke.now.roles) held)) }
{
    let held = taken(alloc, revoke.option, revoke.roles.as_slice(), held)?;
    write_held(alloc, held)
}

/// The memberships that are left to each.
fn taken(
    alloc: Global,
    option: Option<MembershipOption>,
    roles: &[Name],
    held: Items<HeldMembership>,
) -> Result<Items<HeldMembership>, AllocError>
    ensures { IfOk result (λ all. all ≡ map (taken_in option roles.now) held) }
{
    let mut all = Items::new(alloc);
    for one in held.into_vec() {
        all.push(taken_of(alloc, option, roles, one)?)?;
    }
    Ok(all)
}

fn taken_of(
    alloc: Global,
    option: Option<MembershipOption>,
    roles: &[Name],
    held: HeldMembership,
) -> Result<HeldMembership, AllocError>
    ensures { IfOk result (λ one. one ≡ taken_in option roles.now held) }
{
    let HeldMembership {
        member,
        memberships,
    } = held;
    match taken_from(alloc, option, roles, memberships) {
        Ok(memberships) => Ok(HeldMembership {
            member,
            memberships,
        }),
        Err(refused) => {
            drop(member);
            Err(refused)
        }
    }
}

fn taken_from(
    alloc: Global,
    option: Option<MembershipOption>,
    roles: &[Name],
    memberships: Memberships,
) -> Result<Memberships, AllocError>
    ensures { IfOk result (λ left. left ≡ spec.taken_from option roles.now memberships) }
{
    match option {
        Some(option) => lessened(alloc, option, roles, memberships),
        None => left(alloc, roles, memberships),
    }
}

#[tactic(auto, using(crate::proofs::MembershipLists::each_lessened))]
fn lessened(
    alloc: Global,
    option: MembershipOption,
    roles: &[Name],
    memberships: Memberships,
) -> Result<Memberships, AllocError>
    ensures { IfOk result (λ all. all ≡ map (spec.without_option option roles.now) memberships) }
{
    let mut all = memberships;
    for role in roles {
        lessen(alloc, option, &mut all, role)?;
    }
    Ok(all)
}

/// Takes the option from the role's membership, if there is one.
#[tactic(auto, using(crate::proofs::MembershipLists::lessened_put, crate::proofs::MembershipLists::none_lessened))]
fn lessen(
    alloc: Global,
    option: MembershipOption,
    memberships: &mut Memberships,
    role: &Name,
) -> Result<(), AllocError>
    ensures { OnOk result (memberships.new ≡ spec.lessened_at option memberships.old role.now) }
{
    let membership = match memberships.get(role) {
        Some(membership) => membership.copy()?,
        None => return Ok(()),
    };
    memberships.put(alloc, without(option, membership))
}

fn without(option: MembershipOption, membership: Membership) -> Membership
    ensures { result ≡ spec.without option membership }
{
    let mut membership = membership;
    match option {
        MembershipOption::Admin => membership.admin = false,
        MembershipOption::Inherit => membership.inherit = false,
        MembershipOption::Set => membership.set = false,
    }
    membership
}

#[tactic(auto, using(crate::proofs::MembershipLists::each_left))]
fn left(alloc: Global, roles: &[Name], memberships: Memberships) -> Result<Memberships, AllocError>
    ensures { IfOk result (λ left. left ≡ filter (λ m. not (one_of roles.now m.role)) memberships) }
{
    let mut left = memberships;
    for role in roles {
        leave(alloc, &mut left, role)?;
    }
    Ok(left)
}

/// Takes the role's membership away, if there is one.
#[tactic(auto, using(crate::proofs::MembershipLists::left_without, crate::proofs::MembershipLists::none_left))]
fn leave(alloc: Global, memberships: &mut Memberships, role: &Name) -> Result<(), AllocError>
    ensures { OnOk result (memberships.new ≡ spec.left_at memberships.old role.now) }
{
    if memberships.get(role).is_some() {
        memberships.remove(alloc, role)?;
    }
    Ok(())
}
