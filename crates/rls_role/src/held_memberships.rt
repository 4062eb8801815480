//! The memberships of members, as they are and as they are written.

ghost use Rattle.std.specs.Prelude.{◌≡◌, [], ◌∷◌, ◌++◌, IfOk, OnOk};
ghost use Rattle.rls_source.specs.rls_catalog.specs.Membership.{fresh};
ghost use Rattle.rls_source.specs.Answering.{Tells, having_read};
ghost use Rattle.rls_role.specs.Granting.{asked_held, held_in, held_reads, members_written};
ghost use Rattle.rls_role.specs.Holdings.{members_in};

use crate::holding::{HeldMembership, Holdings};
use rls_source::Asker;
use rls_source::rls_catalog::{Change, Delta};
use rls_source::rls_value::{Items, Name};
use std::alloc::{AllocError, Global};

/// The memberships of each of the members, who may be named twice and stand there once.
#[tactic(auto, unfolding(crate::specs::Granting::held_at))]
pub fn held_of(asker: &mut Asker, members: &[Name]) -> Result<Holdings, AllocError>
    ensures { Tells (asked_held (fresh [] members.now)) asker.old asker.new result }
{
    let mut held = Holdings::new(asker.alloc());
    for member in members {
        hold_member(asker, &mut held, member)?;
    }
    Ok(held)
}

/// The member and its memberships behind the others, unless it is there.
#[tactic(auto, unfolding(rls_source::specs::Asked::members_at))]
fn hold_member(asker: &mut Asker, held: &mut Holdings, member: &Name) -> Result<(), AllocError>
    ensures held { OnOk result (held.new ≡ held.old ++ held_in asker.old.state (fresh (members_in held.old) (member.now ∷ []))) }
    ensures noted { OnOk result (asker.new ≡ having_read asker.old (held_reads (fresh (members_in held.old) (member.now ∷ [])))) }
{
    if held.find(member).is_some() {
        return Ok(());
    }
    let memberships = asker.members(member)?.copy()?;
    held.put(member, memberships)
}

/// The memberships are written, all of each member.
pub fn write_held(alloc: Global, held: Items<HeldMembership>) -> Result<Delta, AllocError>
    ensures { IfOk result (λ delta. delta ≡ members_written held) }
{
    let mut delta = Delta::new(alloc);
    for one in held.into_vec() {
        delta.push(change_of(one))?;
    }
    Ok(delta)
}

fn change_of(held: HeldMembership) -> Change
    ensures { result ≡ Change.Members held.member held.memberships }
{
    let HeldMembership {
        member,
        memberships,
    } = held;
    Change::Members(member, memberships)
}
