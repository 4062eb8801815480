//! Who grants and revokes privileges.

ghost use Rattle.std.specs.Prelude.{◌≡◌, None, filter, IfOk};
ghost use Rattle.std.specs.{BTreeSet.contains, Option.option_copied};
ghost use Rattle.rls_value.specs.{Giving.Gives, Names.one_of};
ghost use Rattle.rls_verdict.specs.rls_catalog.specs.{GrantOptions.HaveGrantors, State.name_order, Verdict.least};
ghost use Rattle.rls_role.specs.rls_source.specs.Sequences.{each_of};
ghost use Rattle.rls_role.specs.rls_statement.specs.Extents.{is_named};
ghost use Rattle.rls_grant.specs.Grantors as spec;
ghost use Rattle.rls_grant.specs.{Grantors.grantor_by, Holders.holders_of};

use crate::known::holds_known;
use crate::optioning::options;
use crate::tracing::holds_option;
use rls_role::EffectiveRoles;
use rls_role::rls_statement::Privileges;
use rls_value::{Items, Name, Privilege, Refusal, Why};
use rls_verdict::lesser_name;
use rls_verdict::rls_catalog::Grants;
use rls_verdict::rls_expr::TableDef;
use std::alloc::{AllocError, Global};
use std::collections::BTreeSet;

/// A privilege, and who grants it.
#[derive(Drop)]
pub struct Grantor {
    pub privilege: Privilege,
    pub name: Name,
}

/// Who grants each of the privileges that are named; the first that nobody grants is denied.
#[tactic(auto, unfolding(crate::specs::Grantors::grantors))]
pub(crate) fn grantors_of(
    alloc: Global,
    effective_roles: &EffectiveRoles,
    role: &Name,
    name: &Name,
    table: &TableDef,
    grants: &Grants,
    named: &Privileges,
) -> Result<Items<Grantor>, Refusal>
    ensures { Gives result (spec.grantors effective_roles.now role.now name.now table.now grants.now named.now) }
{
    let named = named_privileges(alloc, named)?;
    let grantors = grantor_of_each(alloc, effective_roles, role, name, table, grants, &named);
    drop(named);
    grantors
}

/// The privileges that are named, in the order in which they are granted.
fn named_privileges(alloc: Global, named: &Privileges) -> Result<Vec<Privilege>, AllocError>
    ensures { IfOk result (λ privileges. privileges.items ≡ filter (is_named named.now) spec.all_privileges) }
{
    let mut privileges = Vec::new(alloc);
    if named.is_named(Privilege::Select) {
        privileges.push(Privilege::Select)?;
    }
    if named.is_named(Privilege::Insert) {
        privileges.push(Privilege::Insert)?;
    }
    if named.is_named(Privilege::Update) {
        privileges.push(Privilege::Update)?;
    }
    if named.is_named(Privilege::Delete) {
        privileges.push(Privilege::Delete)?;
    }
    Ok(privileges)
}

fn grantor_of_each(
    alloc: Global,
    effective_roles: &EffectiveRoles,
    role: &Name,
    name: &Name,
    table: &TableDef,
    grants: &Grants,
    privileges: &[Privilege],
) -> Result<Items<Grantor>, Refusal>
    ensures { Gives result (each_of (spec.granted_by effective_roles.now role.now name.now table.now grants.now) privileges.now) }
{
    let mut grantors = Items::new(alloc);
    for privilege in privileges {
        let grantor = grantor_of(alloc, effective_roles, role, name, table, grants, privilege)?;
        grantors.push(grantor)?;
    }
    Ok(grantors)
}

fn grantor_of(
    alloc: Global,
    effective_roles: &EffectiveRoles,
    role: &Name,
    name: &Name,
    table: &TableDef,
    grants: &Grants,
    privilege: &Privilege,
) -> Result<Grantor, Refusal>
    ensures { Gives result (spec.granted_by effective_roles.now role.now name.now table.now grants.now privilege.now) }
{
    let privilege = *privilege;
    match grantor_name(
        alloc,
        effective_roles,
        role,
        &table.owner,
        grants,
        privilege,
    )? {
        Some(name) => Ok(Grantor { privilege, name }),
        None => Err(Refusal::Denied(Why::GrantOption(privilege, name.copy()?))),
    }
}

/// The owner, where the role has its privileges; else the role itself, where it holds the grant option; else the
/// byte-least role whose privileges it has and that holds it. Who else holds it is found out only where it is neither of the two.
fn grantor_name(
    alloc: Global,
    effective_roles: &EffectiveRoles,
    role: &Name,
    owner: &Name,
    grants: &Grants,
    privilege: Privilege,
) -> Result<Option<Name>, AllocError>
    ensures { IfOk result (λ name. name ≡ grantor_by effective_roles.now role.now owner.now (one_of (holders_of owner.now grants.now privilege))) }
{
    if effective_roles.has(owner) {
        return Ok(Some(owner.copy()?));
    }
    if holds_option(alloc, owner, grants, privilege, role)? {
        return Ok(Some(role.copy()?));
    }
    if grants.have_grantors(owner) {
        return known_grantor(effective_roles.names.as_slice(), owner, grants, privilege);
    }
    holding_grantor(alloc, effective_roles, role, owner, grants, privilege)
}

/// The byte-least of the roles that hold it, where each grantor does.
fn known_grantor(
    roles: &[Name],
    owner: &Name,
    grants: &Grants,
    privilege: Privilege,
) -> Result<Option<Name>, AllocError>
    requires { HaveGrantors owner.now grants.now }
    ensures { IfOk result (λ name. name ≡ least None (filter (one_of (holders_of owner.now grants.now privilege)) roles.now)) }
{
    match least_known(roles, owner, grants, privilege)? {
        Some(name) => Ok(Some(name.copy()?)),
        None => Ok(None),
    }
}

fn least_known<'a>(
    roles: &'a [Name],
    owner: &Name,
    grants: &Grants,
    privilege: Privilege,
) -> Result<Option<&'a Name>, AllocError>
    requires { HaveGrantors owner.now grants.now }
    ensures { IfOk result (λ name. option_copied name ≡ least None (filter (one_of (holders_of owner.now grants.now privilege)) roles.now)) }
{
    let mut found = None;
    for role in roles {
        if holds_known(owner, grants, privilege, role)? {
            found = Some(lesser_name(found, role));
        }
    }
    Ok(found)
}

/// The same, from who holds the grant option.
#[tactic(auto, using(crate::proofs::HolderLemmas::grantor_same))]
fn holding_grantor(
    alloc: Global,
    effective_roles: &EffectiveRoles,
    role: &Name,
    owner: &Name,
    grants: &Grants,
    privilege: Privilege,
) -> Result<Option<Name>, AllocError>
    ensures { IfOk result (λ name. name ≡ grantor_by effective_roles.now role.now owner.now (one_of (holders_of owner.now grants.now privilege))) }
{
    let holders = options(alloc, owner, grants, privilege)?;
    match grantor_among(effective_roles, role, owner, &holders) {
        Some(name) => Ok(Some(name.copy()?)),
        None => Ok(None),
    }
}

fn grantor_among<'a>(
    effective_roles: &'a EffectiveRoles,
    role: &'a Name,
    owner: &'a Name,
    holders: &BTreeSet<Name>,
) -> Option<&'a Name>
    ensures { option_copied result ≡ grantor_by effective_roles.now role.now owner.now (contains name_order holders.now) }
{
    if effective_roles.has(owner) {
        return Some(owner);
    }
    if holders.contains(role) {
        return Some(role);
    }
    least_common(effective_roles.names.as_slice(), holders)
}

fn least_common<'a>(roles: &'a [Name], holders: &BTreeSet<Name>) -> Option<&'a Name>
    ensures { option_copied result ≡ least None (filter (contains name_order holders.now) roles.now) }
{
    let mut best = None;
    for role in roles {
        if holders.contains(role) {
            best = Some(lesser_name(best, role));
        }
    }
    best
}
