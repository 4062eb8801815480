//! GRANT of roles.

ghost use Rattle.std.specs.Prelude.{◌≡◌, Ok, IfOk, OnOk};
ghost use Rattle.rls_source.specs.rls_value.specs.Giving.{Gives};
ghost use Rattle.rls_source.specs.Answering.{Answers, Tells};
ghost use Rattle.rls_source.specs.Askings.{followed_by, known};
ghost use Rattle.rls_role.specs.Granting as spec;
ghost use Rattle.rls_role.specs.Granting.{asked_path, each_granted, members_written, memberships_granted, pair_granted, pair_or_refused, role_granted, roles_granted};

use crate::held_memberships::{held_of, write_held};
use crate::holding::Holdings;
use crate::managing::require_managed;
use crate::names::is_among;
use crate::walking::{Step, reached};
use rls_source::Asker;
use rls_source::rls_catalog::{Delta, Membership, Memberships};
use rls_source::rls_value::{GrantFault, Items, Name, Refusal};
use rls_statement::{GrantRoles, MembershipOptions};
use std::alloc::{AllocError, Global};

/// What it takes that the current role grants each of the roles to each of the members: all memberships of each member
/// (PostgreSQL manual, GRANT). Refused are, in this order: a role that isn't there; one that the current role doesn't
/// manage; a membership that would close a circle.
pub fn grant_member(asker: &mut Asker, current: &Name, grant: &GrantRoles) -> Result<Delta, Refusal>
    ensures { Answers (spec.grant_member current.now grant.now) asker.old asker.new result }
{
    asker.require_roles(grant.roles.as_slice())?;
    asker.require_roles(grant.to.as_slice())?;
    grant_roles(asker, current, grant)
}

#[tactic(auto, unfolding(crate::specs::Granting::roles_granted))]
fn grant_roles(asker: &mut Asker, current: &Name, grant: &GrantRoles) -> Result<Delta, Refusal>
    ensures { Answers (roles_granted current.now grant.now) asker.old asker.new result }
{
    require_managed(asker, current, grant.roles.as_slice())?;
    grant_memberships(asker, grant)
}

#[tactic(auto, unfolding(crate::specs::Granting::memberships_granted))]
fn grant_memberships(asker: &mut Asker, grant: &GrantRoles) -> Result<Delta, Refusal>
    ensures { Answers (memberships_granted grant.now) asker.old asker.new result }
{
    let held = held_of(asker, grant.to.as_slice())?;
    grant_held(asker, grant, held)
}

/// All memberships of the members, once the roles are granted to them.
fn grant_held(asker: &mut Asker, grant: &GrantRoles, held: Holdings) -> Result<Delta, Refusal>
    ensures { Answers (followed_by (each_granted grant.now.options grant.now.roles grant.now.to held) (λ grown. known (Ok (members_written grown)))) asker.old asker.new result }
{
    let (roles, to) = (grant.roles.as_slice(), grant.to.as_slice());
    let held = grant_each(asker, grant.options, roles, to, held)?;
    Ok(written(asker.alloc(), held)?)
}

fn written(alloc: Global, held: Holdings) -> Result<Delta, AllocError>
    ensures { IfOk result (λ delta. delta ≡ members_written held) }
{
    write_held(alloc, held.into_items(alloc)?)
}

/// Each of the roles to each of the members, pair by pair.
fn grant_each(
    asker: &mut Asker,
    written: MembershipOptions,
    roles: &[Name],
    members: &[Name],
    held: Holdings,
) -> Result<Holdings, Refusal>
    ensures { Answers (each_granted written roles.now members.now held) asker.old asker.new result }
{
    let mut held = held;
    for role in roles {
        held = grant_role(asker, written, role, members, held)?;
    }
    Ok(held)
}

/// The role to each of the members.
fn grant_role(
    asker: &mut Asker,
    written: MembershipOptions,
    role: &Name,
    members: &[Name],
    held: Holdings,
) -> Result<Holdings, Refusal>
    ensures { Answers (role_granted written role.now members.now held) asker.old asker.new result }
{
    let mut held = held;
    for member in members {
        held = grant_pair(asker, written, role, member, held)?;
    }
    Ok(held)
}

/// The role to the member, unless that closes a circle with the memberships that are there and those of earlier pairs.
#[tactic(auto, unfolding(crate::specs::Granting::pair_granted))]
fn grant_pair(
    asker: &mut Asker,
    written: MembershipOptions,
    role: &Name,
    member: &Name,
    held: Holdings,
) -> Result<Holdings, Refusal>
    ensures { Answers (pair_granted written role.now member.now held) asker.old asker.new result }
{
    let path = path_from(asker, &held, role)?;
    let closes = is_among(path.as_slice(), member);
    drop(path);
    join(asker.alloc(), written, role, member, held, closes)
}

/// The role and those that it reaches over any memberships.
#[tactic(auto, unfolding(crate::specs::Granting::path_in))]
fn path_from(asker: &mut Asker, held: &Holdings, role: &Name) -> Result<Items<Name>, AllocError>
    ensures { Tells (asked_path held.now role.now) asker.old asker.new result }
{
    reached(asker, held, role, Step::Any)
}

fn join(
    alloc: Global,
    written: MembershipOptions,
    role: &Name,
    member: &Name,
    held: Holdings,
    closes: bool,
) -> Result<Holdings, Refusal>
    ensures { Gives result (pair_or_refused written role.now member.now held closes) }
{
    if closes {
        drop(held);
        return Err(Refusal::GrantOp(cycle(role, member)?));
    }
    Ok(joined(alloc, written, role, member, held)?)
}

fn cycle(role: &Name, member: &Name) -> Result<GrantFault, AllocError>
    ensures { IfOk result (λ fault. fault ≡ GrantFault.Cycle role.now member.now) }
{
    Ok(GrantFault::Cycle(role.copy()?, member.copy()?))
}

/// The memberships of all, the member having that of the role.
fn joined(
    alloc: Global,
    written: MembershipOptions,
    role: &Name,
    member: &Name,
    held: Holdings,
) -> Result<Holdings, AllocError>
    ensures { IfOk result (λ all. all ≡ spec.joined written role.now member.now held) }
{
    let mut held = held;
    join_in(alloc, written, role, member, &mut held)?;
    Ok(held)
}

/// Gives the member, if it is there, the membership of the role. Others aren't looked at.
#[tactic(auto, using(crate::proofs::HoldingLemmas::joined_put, crate::proofs::HoldingLemmas::joined_by_none))]
fn join_in(
    alloc: Global,
    written: MembershipOptions,
    role: &Name,
    member: &Name,
    held: &mut Holdings,
) -> Result<(), AllocError>
    ensures { OnOk result (held.new ≡ spec.joined written role.now member.now held.old) }
{
    let memberships = match held.find(member) {
        Some(memberships) => memberships.copy()?,
        None => return Ok(()),
    };
    let memberships = granted_to(alloc, written, role, memberships)?;
    held.put(member, memberships)
}

/// The memberships with one of the role: its options that are written change, others stay.
#[tactic(auto, using(crate::proofs::MembershipLists::granted_put))]
fn granted_to(
    alloc: Global,
    written: MembershipOptions,
    role: &Name,
    memberships: Memberships,
) -> Result<Memberships, AllocError>
    ensures { IfOk result (λ all. all ≡ spec.granted_to written role.now memberships) }
{
    let mut memberships = memberships;
    let membership = membership_in(written, role, memberships.in_order())?;
    memberships.put(alloc, membership)?;
    Ok(memberships)
}

/// The role's membership with the options that are written, or a new one.
#[tactic(auto, using(crate::proofs::MembershipLists::found_at))]
fn membership_in(
    written: MembershipOptions,
    role: &Name,
    memberships: &Memberships,
) -> Result<Membership, AllocError>
    ensures { IfOk result (λ membership. membership ≡ spec.membership_in written role.now memberships.now) }
{
    match memberships.get(role) {
        Some(membership) => Ok(membership_with(written, membership.copy()?)),
        None => new_membership(written, role),
    }
}

fn membership_with(written: MembershipOptions, membership: Membership) -> Membership
    ensures { result ≡ spec.membership_with written membership }
{
    let Membership {
        role,
        admin,
        inherit,
        set,
    } = membership;
    Membership {
        role,
        admin: written.admin.unwrap_or(admin),
        inherit: written.inherit.unwrap_or(inherit),
        set: written.set.unwrap_or(set),
    }
}

/// A membership has the INHERIT and SET options, and not ADMIN, unless they are written.
fn new_membership(written: MembershipOptions, role: &Name) -> Result<Membership, AllocError>
    ensures { IfOk result (λ membership. membership ≡ spec.membership_with written (spec.new_membership role.now)) }
{
    Ok(Membership {
        role: role.copy()?,
        admin: written.admin.unwrap_or(false),
        inherit: written.inherit.unwrap_or(true),
        set: written.set.unwrap_or(true),
    })
}
