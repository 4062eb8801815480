//! ALTER POLICY.

ghost use Rattle.std.specs.Prelude.{◌≡◌, [], ◌∷◌, IfOk, unwrap_or};
ghost use Rattle.std.specs.Option.{option_or};
ghost use Rattle.rls_value.specs.Giving.{Gives};
ghost use Rattle.rls_guard.specs.rls_source.specs.Answering.{Answers};
ghost use Rattle.rls_guard.specs.{Effects.writes, Naming.names_over};
ghost use Rattle.rls_ddl.specs.AlteringPolicies as spec;
ghost use Rattle.rls_ddl.specs.AlteringPolicies.{alter_policy, alteration_on, alteration_of, alteration_over, alteration_made, conditions_or_refused, roles_or_undefined};

use crate::conditions::{found_for, require_booleans, require_supported};
use crate::named_policies::policy_named;
use crate::policies_written::written;
use rls_expr::{Expr, Grantee, NamedTable, Policy, TableDef, copy_shared};
use rls_guard::rls_catalog::{Change, Policies, find_policy, with_replaced};
use rls_guard::rls_source::Asker;
use rls_guard::{Ctx, Effect, require_ownership};
use rls_statement::AlterPolicy;
use rls_value::shared::Share;
use rls_value::{Items, Kind, Name, PolicyKind, Refusal};
use std::alloc::{AllocError, Global};

/// Changes the parts of a policy that are written; the others stay (PostgreSQL manual, ALTER POLICY).
pub fn run_alter_policy(
    asker: &mut Asker,
    ctx: &Ctx,
    alter: &AlterPolicy,
) -> Result<Effect, Refusal>
    ensures { Answers (alter_policy ctx.now alter.now) asker.old asker.new result }
{
    let table = asker.table_named(&alter.table)?;
    alter_on(asker, &ctx.role, table, alter)
}

/// Alters the policy of that name, where the table has one.
#[tactic(auto, unfolding(crate::specs::AlteringPolicies::alteration_on))]
fn alter_on<'c>(
    asker: &mut Asker<'c>,
    role: &Name,
    table: &'c TableDef,
    alter: &AlterPolicy,
) -> Result<Effect, Refusal>
    ensures { Answers (alteration_on role.now table.now alter.now) asker.old asker.new result }
{
    let policies = asker.policies(&alter.table)?;
    let policy = policy_named(policies, &alter.name)?;
    alter_named(asker, role, table, policies, policy, alter)
}

/// Alters the policy where the roles and names that are written are there.
#[tactic(auto, unfolding(crate::specs::AlteringPolicies::alteration_of))]
fn alter_named<'c>(
    asker: &mut Asker<'c>,
    role: &Name,
    table: &'c TableDef,
    policies: &Policies,
    policy: &Policy,
    alter: &AlterPolicy,
) -> Result<Effect, Refusal>
    ensures { Answers (alteration_of role.now table.now policies.now policy.now alter.now) asker.old asker.new result }
{
    require_roles(asker, &alter.to)?;
    let found = found_for(asker, &alter.using, &alter.check, &alter.table, table)?;
    let effect = alter_over(
        asker,
        role,
        table,
        found.as_slice(),
        policies,
        policy,
        alter,
    );
    drop(found);
    effect
}

/// Alters the policy where what is written is right for it.
#[tactic(auto, unfolding(crate::specs::AlteringPolicies::alteration_over))]
fn alter_over<'x>(
    asker: &mut Asker,
    role: &Name,
    table: &'x TableDef,
    known: &'x [NamedTable<'x>],
    policies: &Policies,
    policy: &Policy,
    alter: &AlterPolicy,
) -> Result<Effect, Refusal>
    ensures { Answers (alteration_over role.now table.now known.now policies.now policy.now alter.now) asker.old asker.new result }
{
    require_conditions(asker.alloc(), table, known, policy.kind, alter)?;
    make_alteration(asker, role, table, policies, alter)
}

/// Alters the policy where the role has the privileges of the table's owner.
#[tactic(auto, unfolding(crate::specs::AlteringPolicies::alteration_made))]
fn make_alteration(
    asker: &mut Asker,
    role: &Name,
    table: &TableDef,
    policies: &Policies,
    alter: &AlterPolicy,
) -> Result<Effect, Refusal>
    ensures { Answers (alteration_made role.now table.now policies.now alter.now) asker.old asker.new result }
{
    require_ownership(asker, role, &alter.table, table)?;
    Ok(policies_changed(asker.alloc(), policies, alter)?)
}

/// The first of the roles behind TO that isn't there is undefined.
fn require_roles(asker: &mut Asker, to: &Option<Items<Grantee>>) -> Result<(), Refusal>
    ensures { Answers (roles_or_undefined to.now) asker.old asker.new result }
{
    match to {
        Some(to) => asker.require_grantees(to.as_slice()),
        None => Ok(()),
    }
}

/// What is written has to be booleans, to be supported, and to have a place in a policy of that kind.
fn require_conditions<'x>(
    alloc: Global,
    table: &'x TableDef,
    known: &'x [NamedTable<'x>],
    kind: PolicyKind,
    alter: &AlterPolicy,
) -> Result<(), Refusal>
    ensures { Gives result (conditions_or_refused (names_over (alter.now.table, table.now) known.now) kind alter.now) }
{
    require_booleans(
        alloc,
        &alter.using,
        &alter.check,
        &alter.table,
        table,
        known,
    )?;
    require_supported(
        alloc,
        &alter.using,
        &alter.check,
        &alter.table,
        table,
        known,
    )?;
    if has_no_place_for(kind, alter) {
        return Err(Refusal::Unsupported);
    }
    Ok(())
}

fn has_no_place_for(kind: PolicyKind, alter: &AlterPolicy) -> bool
    ensures { result ≡ spec.has_no_place_for kind alter.now }
{
    match kind {
        PolicyKind::Only(Kind::Insert) => alter.using.is_some(),
        PolicyKind::Only(Kind::Select | Kind::Delete) => alter.check.is_some(),
        PolicyKind::All | PolicyKind::Only(Kind::Update) => false,
    }
}

fn policies_changed(
    alloc: Global,
    policies: &Policies,
    alter: &AlterPolicy,
) -> Result<Effect, AllocError>
    ensures { IfOk result (λ effect. effect ≡ writes (Change.Policies alter.now.table (spec.with_altered alter.now policies.now) ∷ [])) }
{
    let policies = with_altered(alloc, policies, alter)?;
    written(alloc, &alter.table, policies)
}

#[tactic(auto, using(crate::proofs::PolicyOrderLaws::altered_is_replaced, crate::proofs::PolicyOrderLaws::altered_none))]
fn with_altered(
    alloc: Global,
    policies: &Policies,
    alter: &AlterPolicy,
) -> Result<Policies, AllocError>
    ensures { IfOk result (λ all. all ≡ spec.with_altered alter.now policies.now) }
{
    match find_policy(policies, &alter.name) {
        Some(policy) => with_replaced(alloc, policies, altered(alloc, policy, alter)?),
        None => policies.copy(),
    }
}

fn altered(alloc: Global, policy: &Policy, alter: &AlterPolicy) -> Result<Policy, AllocError>
    ensures { IfOk result (λ altered. altered ≡ spec.altered alter.now policy.now) }
{
    Ok(Policy {
        name: policy.name.copy()?,
        permissive: policy.permissive,
        kind: policy.kind,
        to: to_after(alloc, &alter.to, &policy.to)?,
        using: condition_after(&alter.using, &policy.using)?,
        check: condition_after(&alter.check, &policy.check)?,
    })
}

fn to_after(
    alloc: Global,
    written: &Option<Items<Grantee>>,
    before: &Items<Grantee>,
) -> Result<Items<Grantee>, AllocError>
    ensures { IfOk result (λ after. after ≡ unwrap_or written.now before.now) }
{
    match written {
        Some(to) => Grantee::copy_all(alloc, to.as_slice()),
        None => Grantee::copy_all(alloc, before.as_slice()),
    }
}

fn condition_after(
    written: &Option<Share<Expr>>,
    before: &Option<Share<Expr>>,
) -> Result<Option<Share<Expr>>, AllocError>
    ensures { IfOk result (λ after. after ≡ option_or written.now before.now) }
{
    match written {
        Some(_) => copy_shared(written),
        None => copy_shared(before),
    }
}
