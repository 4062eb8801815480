//! Which policies apply.

ghost use Rattle.std.specs.Prelude.{◌≡◌, Some, filter, IfOk, OnOk};
ghost use Rattle.std.specs.Option.{option_copied};
ghost use Rattle.std.specs.List.{list_any, list_all};
ghost use Rattle.rls_verdict.specs.rls_catalog.specs.{Privileges.includes, State.State, State.AgreesOn, Applying.applying_on, Applying.applying_to, Applying.applying_on_reads, Applying.applying_to_reads};
ghost use Rattle.rls_verdict.specs.rls_catalog.specs.Verdict as spec;

use crate::exemption::is_exempt;
use rls_role::rls_source::{Reading, RowSource};
use rls_role::{EffectiveRoles, effective_roles_over};
use rls_verdict::rls_catalog::{Policies, Side};
use rls_verdict::rls_expr::{Expr, Grantee, Policy, TableDef, shared_expr};
use rls_verdict::rls_value::{Items, Kind, Name, PolicyKind, Reference};
use std::alloc::{AllocError, Global};

/// The expression that the policy is asked for: USING for SELECT, DELETE and the old row of UPDATE; else WITH CHECK or,
/// where a policy FOR ALL or UPDATE has none, USING (PostgreSQL manual, CREATE POLICY).
pub fn expression_of(policy: &Policy, kind: Kind, side: Side) -> Option<&Expr>
    ensures { option_copied result ≡ spec.expression_of policy.now kind side }
{
    match (kind, side) {
        (Kind::Select, _) | (Kind::Delete, _) | (Kind::Update, Side::Old) => {
            shared_expr(&policy.using)
        }
        (Kind::Insert, _) | (Kind::Update, Side::New) => check_or_using(policy),
    }
}

fn check_or_using(policy: &Policy) -> Option<&Expr>
    ensures { option_copied result ≡ spec.check_or_using policy.now.kind policy.now.check policy.now.using }
{
    match (&policy.check, policy.kind) {
        (Some(check), _) => Some(check.get()),
        (None, PolicyKind::All) | (None, PolicyKind::Only(Kind::Update)) => {
            shared_expr(&policy.using)
        }
        (None, _) => None,
    }
}

fn is_for_kind(policy: PolicyKind, kind: Kind) -> bool
    ensures { result ≡ spec.is_for_kind policy kind }
{
    match policy {
        PolicyKind::All => true,
        PolicyKind::Only(own) => is_same_kind(own, kind),
    }
}

fn is_same_kind(left: Kind, right: Kind) -> bool
    ensures { result ≡ spec.is_same_kind left right }
{
    match (left, right) {
        (Kind::Select, Kind::Select)
        | (Kind::Insert, Kind::Insert)
        | (Kind::Update, Kind::Update)
        | (Kind::Delete, Kind::Delete) => true,
        (_, _) => false,
    }
}

fn is_asked(policy: &Policy, kind: Kind, side: Side) -> bool
    ensures { result ≡ spec.is_asked kind side policy.now }
{
    is_for_kind(policy.kind, kind) && expression_of(policy, kind, side).is_some()
}

fn is_to_everyone(policy: &Policy) -> bool
    ensures { result ≡ spec.is_to_everyone policy.now }
{
    policy
        .to
        .as_slice()
        .iter()
        .any(|grantee| matches!(grantee, Grantee::Public))
}

fn is_to(policy: &Policy, effective_roles: &EffectiveRoles) -> bool
    ensures { result ≡ list_any (includes effective_roles.now.superuser effective_roles.now.names) policy.now.to }
{
    policy
        .to
        .as_slice()
        .iter()
        .any(|grantee| effective_roles.includes(grantee))
}

/// The policies of the table that apply to the role for that type of command and that row: none where row security
/// doesn't apply to the role; else those FOR ALL or that type, TO PUBLIC or a role whose privileges it has, with the
/// expression asked for; in byte order of their names (PostgreSQL manual, CREATE POLICY). It reads the table, what tells
/// whether the role is exempt and, unless it is, the policies and, unless all that it asks are TO PUBLIC, each role that
/// the role reaches; in every state that agrees on them the answer is the same.
#[tactic(auto, using(crate::proofs::PassedOn::applying_to_frame))]
pub fn applying<'c, S: RowSource<'c>>(
    alloc: Global,
    source: &mut S,
    role: &Name,
    table: &Name,
    kind: Kind,
    side: Side,
) -> Result<Items<Reference<'c, Policy>>, AllocError>
    ensures policies { IfOk result (λ policies. policies ≡ applying_to (S.state source.old) role.now table.now kind side) }
    ensures frame { (other : State) → AgreesOn (S.state source.old) other (applying_to_reads (S.state source.old) role.now table.now kind side) → applying_to other role.now table.now kind side ≡ applying_to (S.state source.old) role.now table.now kind side }
    ensures read { OnOk result (source.new ≡ S.after source.old (applying_to_reads (S.state source.old) role.now table.now kind side)) }
    ensures state { S.state source.new ≡ S.state source.old }
{
    match source.table(alloc, table)? {
        Some(def) => applying_on(alloc, source, role, table, def, kind, side),
        None => Ok(Items::new(alloc)),
    }
}

/// On a table of that definition.
fn applying_on<'c, S: RowSource<'c>>(
    alloc: Global,
    source: &mut S,
    role: &Name,
    table: &Name,
    def: &TableDef,
    kind: Kind,
    side: Side,
) -> Result<Items<Reference<'c, Policy>>, AllocError>
    ensures policies { IfOk result (λ policies. policies ≡ applying_on (Some def.now) (S.state source.old) role.now table.now kind side) }
    ensures read { OnOk result (source.new ≡ S.after source.old (applying_on_reads (Some def.now) (S.state source.old) role.now table.now kind side)) }
    ensures state { S.state source.new ≡ S.state source.old }
{
    if is_exempt(alloc, source, role, def)? {
        return Ok(Items::new(alloc));
    }
    applying_unless_exempt(alloc, source, role, table, kind, side)
}

/// To a role that isn't exempt.
fn applying_unless_exempt<'c, S: RowSource<'c>>(
    alloc: Global,
    source: &mut S,
    role: &Name,
    table: &Name,
    kind: Kind,
    side: Side,
) -> Result<Items<Reference<'c, Policy>>, AllocError>
    ensures policies { IfOk result (λ policies. policies ≡ spec.applying_of (S.state source.old) role.now table.now kind side) }
    ensures read { OnOk result (source.new ≡ S.after source.old (spec.applying_reads (S.state source.old) role.now table.now kind side)) }
    ensures state { S.state source.new ≡ S.state source.old }
{
    let policies = source.policies(alloc, table)?;
    let kept = asked(alloc, policies, kind, side)?;
    if are_to_everyone(kept.as_slice()) {
        return Ok(kept);
    }
    let effective_roles = effective_roles_over(alloc, source, role)?;
    Ok(concerned(kept, &effective_roles))
}

/// Of the policies of a table those that apply to a role that isn't exempt, by whose privileges the role has.
pub fn chosen<'c>(
    alloc: Global,
    policies: &'c Policies,
    effective_roles: &EffectiveRoles,
    kind: Kind,
    side: Side,
) -> Result<Items<Reference<'c, Policy>>, AllocError>
    ensures { IfOk result (λ chosen. chosen ≡ spec.chosen effective_roles.now.superuser effective_roles.now.names kind side policies.now) }
{
    let asked = asked(alloc, policies, kind, side)?;
    Ok(concerned(asked, effective_roles))
}

fn asked<'c>(
    alloc: Global,
    policies: &'c Policies,
    kind: Kind,
    side: Side,
) -> Result<Items<Reference<'c, Policy>>, AllocError>
    ensures { IfOk result (λ asked. asked ≡ filter (spec.is_asked kind side) policies.now) }
{
    let mut kept = Vec::new(alloc);
    for policy in policies.iter() {
        let policy = policy.get();
        if is_asked(policy, kind, side) {
            kept.push(Reference::new(policy))?;
        }
    }
    Ok(Items::from_vec(kept))
}

fn are_to_everyone(policies: &[Reference<'_, Policy>]) -> bool
    ensures { result ≡ list_all spec.is_to_everyone policies.now }
{
    policies.iter().all(|policy| is_to_everyone(policy.get()))
}

fn concerned<'c>(
    policies: Items<Reference<'c, Policy>>,
    effective_roles: &EffectiveRoles,
) -> Items<Reference<'c, Policy>>
    ensures { result ≡ filter (λ policy. list_any (includes effective_roles.now.superuser effective_roles.now.names) policy.to) policies.entry }
{
    let mut kept = policies.into_vec();
    kept.retain(|policy| is_to(policy.get(), effective_roles));
    Items::from_vec(kept)
}
