//! Who holds the ADMIN option on which roles, and so may grant and revoke them.

ghost use Rattle.std.specs.Prelude.{◌≡◌, ◌++◌, OnOk};
ghost use Rattle.rls_source.specs.rls_value.specs.Giving.{Gives};
ghost use Rattle.rls_source.specs.rls_catalog.specs.{Membership.visit_reads, Paths.granted_where, Paths.held_by};
ghost use Rattle.rls_source.specs.{Answering.Answers, Answering.Tells, Answering.having_read, Sequences.each_or_refused};
ghost use Rattle.rls_role.specs.{Granting.asked_managed, Granting.each_managed, Granting.managed_or_denied, Granting.managed_or_refused, Holdings.has_admin};

use crate::effective_roles::{EffectiveRoles, effective_roles_of};
use crate::names::is_among;
use rls_source::Asker;
use rls_source::rls_catalog::Memberships;
use rls_source::rls_value::{Items, Name, Refusal, Why};
use std::alloc::AllocError;

/// The first of the roles is denied that neither a superuser nor one who has the privileges of a member with the ADMIN
/// option manages.
#[tactic(auto, unfolding(crate::specs::Granting::managed_or_refused))]
pub fn require_managed(asker: &mut Asker, current: &Name, roles: &[Name]) -> Result<(), Refusal>
    ensures { Answers (managed_or_refused current.now roles.now) asker.old asker.new result }
{
    let effective_roles = effective_roles_of(asker, current)?;
    let may = require_each(asker, &effective_roles, roles);
    drop(effective_roles);
    may
}

#[tactic(auto, unfolding(crate::specs::Granting::each_managed))]
fn require_each(
    asker: &mut Asker,
    effective_roles: &EffectiveRoles,
    roles: &[Name],
) -> Result<(), Refusal>
    ensures { Answers (each_managed effective_roles.now roles.now) asker.old asker.new result }
{
    let managed = managed(asker, effective_roles.names.as_slice())?;
    let may = require_among(effective_roles.superuser, managed.as_slice(), roles);
    drop(managed);
    may
}

fn require_among(superuser: bool, managed: &[Name], roles: &[Name]) -> Result<(), Refusal>
    ensures { Gives result (each_or_refused (managed_or_denied superuser managed.now) roles.now) }
{
    for role in roles {
        require_one(superuser, managed, role)?;
    }
    Ok(())
}

fn require_one(superuser: bool, managed: &[Name], role: &Name) -> Result<(), Refusal>
    ensures { Gives result (managed_or_denied superuser managed.now role.now) }
{
    if superuser || is_among(managed, role) {
        Ok(())
    } else {
        Err(Refusal::Denied(Why::Admin(role.copy()?)))
    }
}

/// The roles on which some of the members holds the ADMIN option.
#[tactic(auto, unfolding(crate::specs::Granting::managed_in))]
fn managed(asker: &mut Asker, members: &[Name]) -> Result<Items<Name>, AllocError>
    ensures { Tells (asked_managed members.now) asker.old asker.new result }
{
    let mut names = Items::new(asker.alloc());
    for member in members {
        add_managed(asker, &mut names, member)?;
    }
    Ok(names)
}

#[tactic(auto, unfolding(rls_source::specs::Asked::role_at, rls_source::specs::Asked::members_at))]
fn add_managed(asker: &mut Asker, names: &mut Items<Name>, member: &Name) -> Result<(), AllocError>
    ensures names { OnOk result (names.new ≡ names.old ++ granted_where has_admin (held_by asker.old.state member.now)) }
    ensures noted { OnOk result (asker.new ≡ having_read asker.old (visit_reads member.now)) }
{
    let def = asker.role(member)?;
    let memberships = asker.members(member)?;
    if def.is_some() {
        add_administered(names, memberships)?;
    }
    Ok(())
}

fn add_administered(names: &mut Items<Name>, memberships: &Memberships) -> Result<(), AllocError>
    ensures { OnOk result (names.new ≡ names.old ++ granted_where has_admin memberships.now) }
{
    for membership in memberships.iter() {
        if membership.admin {
            names.push(membership.role.copy()?)?;
        }
    }
    Ok(())
}
