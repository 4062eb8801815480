//! DROP POLICY.

ghost use Rattle.std.specs.Prelude.{◌≡◌, [], ◌∷◌, IfOk};
ghost use Rattle.rls_guard.specs.rls_catalog.specs.PolicyLists as lists;
ghost use Rattle.rls_guard.specs.rls_source.specs.Answering.{Answers};
ghost use Rattle.rls_guard.specs.Effects.{writes};
ghost use Rattle.rls_ddl.specs.DroppingPolicies as spec;
ghost use Rattle.rls_ddl.specs.DroppingPolicies.{drop_policy, drop_on, policy_dropped};

use crate::named_policies::policy_named;
use crate::policies_written::written;
use rls_expr::TableDef;
use rls_guard::rls_catalog::{Change, Policies, without_policy};
use rls_guard::rls_source::Asker;
use rls_guard::{Ctx, Effect, require_ownership};
use rls_statement::DropPolicy;
use rls_value::{Name, Refusal};
use std::alloc::{AllocError, Global};

/// Takes a policy away from the table; the others stay (PostgreSQL manual, DROP POLICY).
pub fn run_drop_policy(asker: &mut Asker, ctx: &Ctx, drop: &DropPolicy) -> Result<Effect, Refusal>
    ensures { Answers (drop_policy ctx.now drop.now) asker.old asker.new result }
{
    let table = asker.table_named(&drop.table)?;
    drop_on(asker, &ctx.role, table, drop)
}

/// Takes the policy of that name away, where the table has one.
#[tactic(auto, unfolding(crate::specs::DroppingPolicies::drop_on))]
fn drop_on(
    asker: &mut Asker,
    role: &Name,
    table: &TableDef,
    drop: &DropPolicy,
) -> Result<Effect, Refusal>
    ensures { Answers (spec.drop_on role.now table.now drop.now) asker.old asker.new result }
{
    let policies = asker.policies(&drop.table)?;
    policy_named(policies, &drop.name)?;
    drop_named(asker, role, table, policies, drop)
}

/// Takes the policy away where the role has the privileges of the table's owner.
#[tactic(auto, unfolding(crate::specs::DroppingPolicies::policy_dropped))]
fn drop_named(
    asker: &mut Asker,
    role: &Name,
    table: &TableDef,
    policies: &Policies,
    drop: &DropPolicy,
) -> Result<Effect, Refusal>
    ensures { Answers (policy_dropped role.now table.now policies.now drop.now) asker.old asker.new result }
{
    require_ownership(asker, role, &drop.table, table)?;
    Ok(policies_changed(asker.alloc(), policies, drop)?)
}

fn policies_changed(
    alloc: Global,
    policies: &Policies,
    dropped: &DropPolicy,
) -> Result<Effect, AllocError>
    ensures { IfOk result (λ effect. effect ≡ writes (Change.Policies dropped.now.table (lists.without_policy policies.now dropped.now.name) ∷ [])) }
{
    let left = without_policy(alloc, policies, &dropped.name)?;
    written(alloc, &dropped.table, left)
}
