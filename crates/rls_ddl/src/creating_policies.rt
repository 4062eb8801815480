//! CREATE POLICY.

ghost use Rattle.std.specs.Prelude.{◌≡◌, ◌∷◌, [], false, IfOk, OnOk};
ghost use Rattle.rls_value.specs.Giving.{Gives};
ghost use Rattle.rls_guard.specs.rls_catalog.specs.PolicyLists as lists;
ghost use Rattle.rls_guard.specs.rls_catalog.specs.PolicyLists.{has_policy};
ghost use Rattle.rls_guard.specs.rls_source.specs.Answering.{Answers};
ghost use Rattle.rls_guard.specs.{Effects.writes, Naming.names_over};
ghost use Rattle.rls_ddl.specs.CreatingPolicies as spec;
ghost use Rattle.rls_ddl.specs.CreatingPolicies.{create_policy, policy_added, policy_made, policy_or_refused};

use crate::conditions::{found_for, require_booleans, require_supported};
use crate::named_policies::is_there;
use crate::policies_written::written;
use rls_expr::{NamedTable, Policy, TableDef};
use rls_guard::rls_catalog::{Change, Policies, with_policy};
use rls_guard::rls_source::Asker;
use rls_guard::{Ctx, Effect, require_ownership};
use rls_statement::CreatePolicy;
use rls_value::{DefinedKind, Limit, Name, Refusal};
use std::alloc::{AllocError, Global};

/// The most policies that a table has.
const MAX_POLICIES: usize = 64;

/// Adds a policy of the table (PostgreSQL manual, CREATE POLICY).
pub fn run_create_policy(
    asker: &mut Asker,
    ctx: &Ctx,
    create: &CreatePolicy,
) -> Result<Effect, Refusal>
    ensures { Answers (create_policy ctx.now create.now) asker.old asker.new result }
{
    let table = asker.table_named(&create.table)?;
    policy_on(asker, &ctx.role, &create.table, table, &create.policy)
}

/// Adds the policy where its roles and names are there.
#[tactic(auto, unfolding(crate::specs::CreatingPolicies::policy_on))]
fn policy_on<'c>(
    asker: &mut Asker<'c>,
    role: &Name,
    name: &Name,
    table: &'c TableDef,
    policy: &Policy,
) -> Result<Effect, Refusal>
    ensures { Answers (spec.policy_on role.now name.now table.now policy.now) asker.old asker.new result }
{
    asker.require_grantees(policy.to.as_slice())?;
    let found = found_for(asker, &policy.using, &policy.check, name, table)?;
    let effect = add_policy(asker, role, name, table, found.as_slice(), policy);
    drop(found);
    effect
}

/// Adds the policy where it is right beside those that are there.
#[tactic(auto, unfolding(crate::specs::CreatingPolicies::policy_added))]
fn add_policy<'x>(
    asker: &mut Asker,
    role: &Name,
    name: &Name,
    table: &'x TableDef,
    known: &'x [NamedTable<'x>],
    policy: &Policy,
) -> Result<Effect, Refusal>
    ensures { Answers (policy_added role.now name.now table.now known.now policy.now) asker.old asker.new result }
{
    let policies = asker.policies(name)?;
    require_policy(asker.alloc(), policies, name, table, known, policy)?;
    make_policy(asker, role, name, table, policies, policy)
}

/// Adds the policy where the role has the privileges of the table's owner.
#[tactic(auto, unfolding(crate::specs::CreatingPolicies::policy_made))]
fn make_policy(
    asker: &mut Asker,
    role: &Name,
    name: &Name,
    table: &TableDef,
    policies: &Policies,
    policy: &Policy,
) -> Result<Effect, Refusal>
    requires new { has_policy policies.now policy.now.name ≡ false }
    ensures { Answers (policy_made role.now name.now table.now policies.now policy.now) asker.old asker.new result }
{
    require_ownership(asker, role, name, table)?;
    Ok(policies_changed(asker.alloc(), name, policies, policy)?)
}

fn policies_changed(
    alloc: Global,
    table: &Name,
    policies: &Policies,
    policy: &Policy,
) -> Result<Effect, AllocError>
    requires new { has_policy policies.now policy.now.name ≡ false }
    ensures { IfOk result (λ effect. effect ≡ writes (Change.Policies table.now (lists.with_policy policies.now policy.now) ∷ [])) }
{
    let all = with_policy(alloc, policies, policy.copy(alloc)?)?;
    written(alloc, table, all)
}

/// The policy's name has to be new, its conditions to be booleans and supported, and there to be room for it.
fn require_policy<'x>(
    alloc: Global,
    policies: &Policies,
    name: &Name,
    table: &'x TableDef,
    known: &'x [NamedTable<'x>],
    policy: &Policy,
) -> Result<(), Refusal>
    ensures given { Gives result (policy_or_refused (names_over (name.now, table.now) known.now) policies.now policy.now) }
    ensures new { OnOk result (has_policy policies.now policy.now.name ≡ false) }
{
    if is_there(policies, &policy.name) {
        return Err(Refusal::Duplicate(DefinedKind::Policy, policy.name.copy()?));
    }
    require_booleans(alloc, &policy.using, &policy.check, name, table, known)?;
    require_supported(alloc, &policy.using, &policy.check, name, table, known)?;
    if policies.len() >= MAX_POLICIES {
        return Err(Refusal::Limit(Limit::Policies));
    }
    Ok(())
}
