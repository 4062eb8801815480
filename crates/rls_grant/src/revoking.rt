//! REVOKE of privileges on a table, or on columns of it.

ghost use Rattle.std.specs.Prelude.{◌≡◌, ◌↔◌, ◌&&◌, ℕ, List, true, false, not, map, filter, IfOk};
ghost use Rattle.std.specs.{BTreeSet.contains, List.list_any};
ghost use Rattle.rls_value.specs.{Giving.Gives, Names.one_of, declared.verb.Privilege.Privilege as Kind};
ghost use Rattle.rls_verdict.specs.rls_catalog.specs.{GrantOptions.HasDependents, GrantOptions.HaveGrantors, GrantOptions.LeftAfterRevoke, GrantOptions.is_grant_of, State.name_order, declared.grant.Grant.Grant as Given};
ghost use Rattle.rls_role.specs.rls_source.specs.Answering.{Answers};
ghost use Rattle.rls_grant.specs.{GrantedTo.first_to, GrantedTo.is_among_first, Holders.holders_of, Placing.without_each, Revoking.grants_revoked, Revoking.is_by, Revoking.is_one, Revoking.is_taken, Revoking.left_after, Revoking.left_or_refused, Revoking.revoke_from, Revoking.revoke_on, Revoking.without_grant_option, Revoking.without_taken};
ghost use Rattle.rls_grant.specs.Revoking as spec;

use crate::columns::{require_columns, require_whole, takes_from};
use crate::granted::{is_same_grantee, is_same_privilege, is_to};
use crate::granting::write_grants;
use crate::grantors::{Grantor, grantors_of};
use crate::known::{known, looked_over};
use crate::optioning::options;
use crate::placing::{remove_grant, revoke_option};
use rls_role::rls_source::Asker;
use rls_role::rls_statement::RevokePrivileges;
use rls_role::{EffectiveRoles, effective_roles_of};
use rls_value::{Name, Privilege, Refusal};
use rls_verdict::rls_catalog::shared_map::Values;
use rls_verdict::rls_catalog::{Delta, Grant, GrantKey, Grants};
use rls_verdict::rls_expr::{Grantee, TableDef};
use std::alloc::{AllocError, Global};
use std::collections::BTreeSet;

/// What it takes that the role revokes the privileges, or their grant options, from each grantee: all grants that are left
/// on the table (PostgreSQL manual, REVOKE). What is revoked on the whole table is revoked on its columns too. Refused are, in
/// this order: a table, column or grantee that isn't there; grant options on columns; the first privilege that nobody may revoke
/// for the role; and, without CASCADE, what leaves a grant whose grantor doesn't hold the grant option any more. In every
/// state that agrees on what is read it is the same.
#[tactic(auto, using(crate::proofs::GrantLaws::left_is, crate::proofs::GrantLaws::dependents_are))]
pub fn revoke(asker: &mut Asker, role: &Name, revoke: &RevokePrivileges) -> Result<Delta, Refusal>
    ensures answers { Answers (spec.revoke role.now revoke.now) asker.old asker.new result }
    ensures left { (owner : List ℕ) (grants : List Given) (privilege : Kind) → LeftAfterRevoke owner grants privilege (filter (spec.stays (one_of (holders_of owner grants privilege)) privilege) grants) }
    ensures dependents { (owner : List ℕ) (grants : List Given) (privilege : Kind) → (list_any (λ grant. not (spec.stays (one_of (holders_of owner grants privilege)) privilege grant)) grants ≡ true) ↔ HasDependents owner grants privilege }
{
    let table = asker.table_named(&revoke.table)?;
    require_columns(table, &revoke.privileges)?;
    revoke_named(asker, role, table, revoke)
}

#[tactic(auto, unfolding(crate::specs::Revoking::revoke_from))]
fn revoke_named(
    asker: &mut Asker,
    role: &Name,
    table: &TableDef,
    revoke: &RevokePrivileges,
) -> Result<Delta, Refusal>
    ensures { Answers (revoke_from role.now table.now revoke.now) asker.old asker.new result }
{
    asker.require_grantees(revoke.from.as_slice())?;
    require_whole(revoke.option_only, &revoke.privileges)?;
    revoke_for(asker, role, table, revoke)
}

#[tactic(auto, unfolding(crate::specs::Revoking::revoke_on))]
fn revoke_for(
    asker: &mut Asker,
    role: &Name,
    table: &TableDef,
    revoke: &RevokePrivileges,
) -> Result<Delta, Refusal>
    ensures { Answers (revoke_on role.now table.now revoke.now) asker.old asker.new result }
{
    let grants = asker.grants(&revoke.table)?;
    let effective_roles = effective_roles_of(asker, role)?;
    let left = leave_grants(asker.alloc(), &effective_roles, role, table, grants, revoke);
    drop(effective_roles);
    left
}

#[tactic(auto, unfolding(crate::specs::Revoking::grants_revoked))]
fn leave_grants(
    alloc: Global,
    effective_roles: &EffectiveRoles,
    role: &Name,
    table: &TableDef,
    grants: &Grants,
    revoke: &RevokePrivileges,
) -> Result<Delta, Refusal>
    ensures { Gives result (grants_revoked effective_roles.now role.now table.now grants.now revoke.now) }
{
    let named = &revoke.privileges;
    let grantors = grantors_of(
        alloc,
        effective_roles,
        role,
        &revoke.table,
        table,
        grants,
        named,
    )?;
    let left = revoke_by(alloc, table, grants, grantors.as_slice(), revoke);
    drop(grantors);
    left
}

#[tactic(auto, unfolding(crate::specs::Revoking::revoked))]
fn revoke_by(
    alloc: Global,
    table: &TableDef,
    grants: &Grants,
    grantors: &[Grantor],
    revoke: &RevokePrivileges,
) -> Result<Delta, Refusal>
    ensures { Gives result (spec.revoked table.now grants.now grantors.now revoke.now) }
{
    let rest = rest_of(alloc, revoke, grantors, grants)?;
    let left = leave_rest(alloc, &table.owner, grants, grantors, revoke, rest)?;
    Ok(write_grants(alloc, &revoke.table, left)?)
}

/// What is left of the rest. Where each grantor was known to hold the grant option, and nobody loses one, all of it is.
#[tactic(auto, using(crate::proofs::RevokedLemmas::rest_known, crate::proofs::KnownLemmas::nothing_hangs))]
fn leave_rest(
    alloc: Global,
    owner: &Name,
    grants: &Grants,
    grantors: &[Grantor],
    revoke: &RevokePrivileges,
    rest: Grants,
) -> Result<Grants, Refusal>
    requires { rest ≡ without_taken revoke.now grantors.now grants.now }
    ensures { Gives result (left_after revoke.now.cascade revoke.now.table owner.now grantors.now rest) }
{
    if is_settled(owner, grants, grantors, revoke)? {
        return Ok(known(owner, rest)?);
    }
    let cascade = revoke.cascade;
    let left = leave_after(alloc, cascade, &revoke.table, owner, grantors, rest)?;
    Ok(looked_over(alloc, owner, left)?)
}

/// Whether each grantor is known to hold the grant option, and nobody loses one.
fn is_settled(
    owner: &Name,
    grants: &Grants,
    grantors: &[Grantor],
    revoke: &RevokePrivileges,
) -> Result<bool, AllocError>
    ensures known { IfOk result (λ settled. settled ≡ true → HaveGrantors owner.now grants.now) }
    ensures takes { IfOk result (λ settled. settled ≡ true → spec.takes_option revoke.now grantors.now grants.now ≡ false) }
{
    if !grants.have_grantors(owner) {
        return Ok(false);
    }
    let takes = takes_option(revoke, grantors, grants)?;
    Ok(!takes)
}

/// Whether some of the grants that are taken has its grant option.
fn takes_option(
    revoke: &RevokePrivileges,
    grantors: &[Grantor],
    grants: &Grants,
) -> Result<bool, AllocError>
    ensures { IfOk result (λ takes. takes ≡ spec.takes_option revoke.now grantors.now grants.now) }
{
    for grantor in grantors {
        if takes_option_by(revoke, grants, grantor)? {
            return Ok(true);
        }
    }
    Ok(false)
}

fn takes_option_by(
    revoke: &RevokePrivileges,
    grants: &Grants,
    grantor: &Grantor,
) -> Result<bool, AllocError>
    ensures { IfOk result (λ takes. takes ≡ spec.takes_option_by revoke.now grants.now grantor.now) }
{
    takes_option_from(revoke, grants, grantor, revoke.from.as_slice())
}

fn takes_option_from(
    revoke: &RevokePrivileges,
    grants: &Grants,
    grantor: &Grantor,
    grantees: &[Grantee],
) -> Result<bool, AllocError>
    ensures { IfOk result (λ takes. takes ≡ list_any (spec.takes_option_of revoke.now grants.now grantor.now) grantees.now) }
{
    for grantee in grantees {
        if takes_option_of(revoke, grants, grantor, grantee)? {
            return Ok(true);
        }
    }
    Ok(false)
}

fn takes_option_of(
    revoke: &RevokePrivileges,
    grants: &Grants,
    grantor: &Grantor,
    grantee: &Grantee,
) -> Result<bool, AllocError>
    ensures { IfOk result (λ takes. takes ≡ spec.takes_option_of revoke.now grants.now grantor.now grantee.now) }
{
    let first = GrantKey::first(grantor.privilege, grantee)?;
    let left = grants.iter_from(&first);
    drop(first);
    Ok(takes_first(revoke, grantor, grantee, left))
}

fn takes_first(
    revoke: &RevokePrivileges,
    grantor: &Grantor,
    grantee: &Grantee,
    left: Values<'_, GrantKey, Grant>,
) -> bool
    ensures { result ≡ is_among_first (λ grant. grant.option && is_one revoke.now grantor.now grantee.now grant) grantor.now.privilege grantee.now left.entry }
{
    for grant in left {
        if !is_to(grant, grantor.privilege, grantee) {
            return false;
        }
        if grant.option && takes_one(revoke, grantor, grantee, grant) {
            return true;
        }
    }
    false
}

/// The grants without those that are taken, or without their grant options.
fn rest_of(
    alloc: Global,
    revoke: &RevokePrivileges,
    grantors: &[Grantor],
    grants: &Grants,
) -> Result<Grants, AllocError>
    ensures { IfOk result (λ rest. rest ≡ without_taken revoke.now grantors.now grants.now) }
{
    if revoke.option_only {
        revoke_options(alloc, revoke, grantors, grants)
    } else {
        drop_taken(alloc, revoke, grantors, grants)
    }
}

fn revoke_options(
    alloc: Global,
    revoke: &RevokePrivileges,
    grantors: &[Grantor],
    grants: &Grants,
) -> Result<Grants, AllocError>
    ensures { IfOk result (λ rest. rest ≡ map (without_grant_option revoke.now grantors.now) grants.now) }
{
    let mut rest = grants.copy()?;
    for grant in grants.iter() {
        if takes(revoke, grantors, grant) {
            revoke_option(alloc, &mut rest, grant)?;
        }
    }
    Ok(rest)
}

fn drop_taken(
    alloc: Global,
    revoke: &RevokePrivileges,
    grantors: &[Grantor],
    grants: &Grants,
) -> Result<Grants, AllocError>
    ensures { IfOk result (λ rest. rest ≡ filter (λ grant. not (is_taken revoke.now grantors.now grant)) grants.now) }
{
    let mut rest = grants.copy()?;
    for grantor in grantors {
        rest = drop_by(alloc, revoke, grantor, rest)?;
    }
    Ok(rest)
}

/// The grants without those of the grantor that are taken.
#[tactic(auto, using(crate::proofs::RevokedLemmas::dropped_of_one))]
fn drop_by(
    alloc: Global,
    revoke: &RevokePrivileges,
    grantor: &Grantor,
    grants: Grants,
) -> Result<Grants, AllocError>
    ensures { IfOk result (λ rest. rest ≡ filter (λ grant. not (is_by revoke.now grant grantor.now)) grants) }
{
    drop_from(alloc, revoke, grantor, revoke.from.as_slice(), grants)
}

fn drop_from(
    alloc: Global,
    revoke: &RevokePrivileges,
    grantor: &Grantor,
    grantees: &[Grantee],
    grants: Grants,
) -> Result<Grants, AllocError>
    ensures { IfOk result (λ rest. rest ≡ spec.without_from revoke.now grantor.now grantees.now grants) }
{
    let mut rest = grants;
    for grantee in grantees {
        rest = drop_of(alloc, revoke, grantor, grantee, rest)?;
    }
    Ok(rest)
}

/// The grants without those of the grantor to the grantee that are taken. No grants to others are looked at.
fn drop_of(
    alloc: Global,
    revoke: &RevokePrivileges,
    grantor: &Grantor,
    grantee: &Grantee,
    grants: Grants,
) -> Result<Grants, AllocError>
    ensures { IfOk result (λ rest. rest ≡ filter (λ grant. not (is_one revoke.now grantor.now grantee.now grant)) grants) }
{
    let first = GrantKey::first(grantor.privilege, grantee)?;
    let left = grants.iter_from(&first);
    drop(first);
    let rest = grants.copy()?;
    drop_first(alloc, revoke, grantor, grantee, left, rest)
}

fn drop_first(
    alloc: Global,
    revoke: &RevokePrivileges,
    grantor: &Grantor,
    grantee: &Grantee,
    left: Values<'_, GrantKey, Grant>,
    grants: Grants,
) -> Result<Grants, AllocError>
    ensures { IfOk result (λ rest. rest ≡ without_each (λ grant. not (is_one revoke.now grantor.now grantee.now grant)) grants (first_to grantor.now.privilege grantee.now left.entry)) }
{
    let mut rest = grants;
    for grant in left {
        if !is_to(grant, grantor.privilege, grantee) {
            return Ok(rest);
        }
        if takes_one(revoke, grantor, grantee, grant) {
            remove_grant(alloc, &mut rest, grant)?;
        }
    }
    Ok(rest)
}

/// Whether the grant is by the grantor, to the grantee, and of what is revoked.
fn takes_one(revoke: &RevokePrivileges, grantor: &Grantor, grantee: &Grantee, grant: &Grant) -> bool
    ensures { result ≡ is_one revoke.now grantor.now grantee.now grant.now }
{
    takes_from(&revoke.privileges, grantor.privilege, &grant.column)
        && is_grant_to(grant, grantor, grantee)
}

/// Whether the grant is by one of the grantors, and of what is revoked of its privilege from one of the grantees.
fn takes(revoke: &RevokePrivileges, grantors: &[Grantor], grant: &Grant) -> bool
    ensures { result ≡ is_taken revoke.now grantors.now grant.now }
{
    grantors
        .iter()
        .any(|grantor| takes_by(revoke, grant, grantor))
}

fn takes_by(revoke: &RevokePrivileges, grant: &Grant, grantor: &Grantor) -> bool
    ensures { result ≡ is_by revoke.now grant.now grantor.now }
{
    takes_from(&revoke.privileges, grantor.privilege, &grant.column)
        && is_grant_to_one(grant, grantor, revoke.from.as_slice())
}

fn is_grant_to_one(grant: &Grant, grantor: &Grantor, grantees: &[Grantee]) -> bool
    ensures { result ≡ list_any (λ grantee. is_grant_of grantor.now.privilege grantee grantor.now.name grant.now) grantees.now }
{
    grantees
        .iter()
        .any(|grantee| is_grant_to(grant, grantor, grantee))
}

fn is_grant_to(grant: &Grant, grantor: &Grantor, grantee: &Grantee) -> bool
    ensures { result ≡ is_grant_of grantor.now.privilege grantee.now grantor.now.name grant.now }
{
    is_same_privilege(grant.privilege, grantor.privilege)
        && is_same_grantee(&grant.grantee, grantee)
        && grant.grantor.is(&grantor.name)
}

/// What is left of the grants of each privilege that was taken, in order.
fn leave_after(
    alloc: Global,
    cascade: bool,
    table: &Name,
    owner: &Name,
    grantors: &[Grantor],
    grants: Grants,
) -> Result<Grants, Refusal>
    ensures { Gives result (left_after cascade table.now owner.now grantors.now grants) }
{
    let mut left = grants;
    for grantor in grantors {
        left = leave(alloc, cascade, table, owner, grantor.privilege, left)?;
    }
    Ok(left)
}

#[tactic(auto, using(crate::proofs::HolderLemmas::left_same))]
fn leave(
    alloc: Global,
    cascade: bool,
    table: &Name,
    owner: &Name,
    privilege: Privilege,
    grants: Grants,
) -> Result<Grants, Refusal>
    ensures { Gives result (left_or_refused cascade table.now privilege (one_of (holders_of owner.now grants privilege)) grants) }
{
    match options(alloc, owner, &grants, privilege) {
        Ok(holders) => {
            let left = leave_by(alloc, cascade, table, privilege, &holders, grants);
            drop(holders);
            left
        }
        Err(refused) => {
            drop(grants);
            Err(Refusal::from(refused))
        }
    }
}

fn leave_by(
    alloc: Global,
    cascade: bool,
    table: &Name,
    privilege: Privilege,
    holders: &BTreeSet<Name>,
    grants: Grants,
) -> Result<Grants, Refusal>
    ensures { Gives result (left_or_refused cascade table.now privilege (contains name_order holders.now) grants) }
{
    if cascade {
        return Ok(keep_held(alloc, privilege, holders, grants)?);
    }
    if has_loose(privilege, holders, &grants) {
        drop(grants);
        return Err(Refusal::Dependent(table.copy()?));
    }
    Ok(grants)
}

fn keep_held(
    alloc: Global,
    privilege: Privilege,
    holders: &BTreeSet<Name>,
    grants: Grants,
) -> Result<Grants, AllocError>
    ensures { IfOk result (λ left. left ≡ filter (spec.stays (contains name_order holders.now) privilege) grants) }
{
    let mut left = grants.copy()?;
    for grant in grants.iter() {
        if !stays(privilege, holders, grant) {
            remove_grant(alloc, &mut left, grant)?;
        }
    }
    Ok(left)
}

pub(crate) fn has_loose(privilege: Privilege, holders: &BTreeSet<Name>, grants: &Grants) -> bool
    ensures { result ≡ list_any (λ grant. not (spec.stays (contains name_order holders.now) privilege grant)) grants.now }
{
    grants.iter().any(|grant| !stays(privilege, holders, grant))
}

/// Whether a grant may stay: it is of another privilege, or its grantor holds the grant option.
fn stays(privilege: Privilege, holders: &BTreeSet<Name>, grant: &Grant) -> bool
    ensures { result ≡ spec.stays (contains name_order holders.now) privilege grant.now }
{
    !is_same_privilege(grant.privilege, privilege) || holders.contains(&grant.grantor)
}
