//! All findings of a state.

ghost use Rattle.std.specs.Prelude.{◌≡◌, ◌++◌, IfOk, OnOk};
ghost use Rattle.rls_expr.specs.Scopes.{in_scope};
ghost use Rattle.std.specs.List.{flat_map};
ghost use Rattle.rls_lint.specs.Findings as spec;
ghost use Rattle.rls_lint.specs.Naming.{IsNamed};

use crate::commands::tell_denied;
use crate::finding::{Finding, Lookup};
use crate::linted::{Linted, policies_of};
use crate::lookups::tell_lookups;
use crate::loops::tell_loops;
use crate::named::Named;
use crate::nulls::tell_nulls;
use crate::policy_mistakes::{tell_no_checks, tell_to_nobody, tell_true_checks};
use crate::table_mistakes::{tell_off, tell_unbound};
use crate::users::users_of;
use rls_expr::FromTable;
use rls_rows::State;
use rls_value::{Items, Name};
use std::alloc::{AllocError, Global};

/// What in the state is likely a mistake, by table, by the rule's name, by policy. `named` has the roles and the tables that it has.
#[tactic(auto, using(crate::proofs::ToldLemmas::found_in_state))]
pub fn findings(alloc: Global, state: &State, named: &Named) -> Result<Items<Finding>, AllocError>
    ensures { IsNamed state.now named.now → IfOk result (λ findings. findings ≡ spec.findings_of state.now) }
{
    let roles = named.role_names(alloc)?;
    findings_among(alloc, state, roles.as_slice(), named)
}

/// The same, with these as the names of its roles.
fn findings_among(
    alloc: Global,
    state: &State,
    roles: &[Name],
    named: &Named,
) -> Result<Items<Finding>, AllocError>
    ensures { IfOk result (λ findings. findings ≡ spec.findings_among state.now roles.now named.now.tables) }
{
    let users = users_of(alloc, state, roles)?;
    let found = findings_for(alloc, state, roles, users.as_slice(), named);
    drop(users);
    found
}

/// The same, with these as the roles that can be the current one.
fn findings_for(
    alloc: Global,
    state: &State,
    roles: &[Name],
    users: &[Name],
    named: &Named,
) -> Result<Items<Finding>, AllocError>
    ensures { IfOk result (λ findings. findings ≡ flat_map (spec.findings_on state.now roles.now users.now named.now.tables) named.now.tables) }
{
    let tables = named.tables(alloc)?;
    let linted = Linted {
        state,
        roles,
        users,
        tables: tables.as_slice(),
    };
    let found = all_findings(alloc, linted);
    drop(tables);
    found
}

fn all_findings<'x>(alloc: Global, linted: Linted<'x>) -> Result<Items<Finding>, AllocError>
    ensures { IfOk result (λ findings. findings ≡ flat_map (spec.findings_on linted.entry.state.now linted.entry.roles.now linted.entry.users.now linted.entry.tables.now) linted.entry.tables.now) }
{
    let mut findings = Items::new(alloc);
    for from in linted.tables {
        tell_all(alloc, linted, from.as_from(), &mut findings)?;
    }
    Ok(findings)
}

/// Tells of the mistakes of a table, by the rule's name.
#[tactic(auto, using(crate::proofs::ToldLemmas::told_each), unfolding(crate::specs::Findings::findings_on))]
fn tell_all<'x>(
    alloc: Global,
    linted: Linted<'x>,
    from: FromTable<'x>,
    findings: &mut Items<Finding>,
) -> Result<(), AllocError>
    ensures { OnOk result (findings.new ≡ findings.old ++ spec.findings_on linted.entry.state.now linted.entry.roles.now linted.entry.users.now linted.entry.tables.now (in_scope from.entry)) }
{
    let policies = policies_of(alloc, linted.state, from.name)?;
    tell_lookups(alloc, linted, from, Lookup::Blind, findings)?;
    tell_true_checks(from, policies, findings)?;
    tell_loops(alloc, linted, from, findings)?;
    tell_no_checks(from, policies, findings)?;
    tell_denied(alloc, linted, from, false, findings)?;
    tell_nulls(alloc, from, policies, findings)?;
    tell_lookups(alloc, linted, from, Lookup::Open, findings)?;
    tell_unbound(alloc, linted, from, findings)?;
    tell_denied(alloc, linted, from, true, findings)?;
    tell_off(from, policies, findings)?;
    tell_to_nobody(alloc, linted, from, policies, findings)?;
    tell_lookups(alloc, linted, from, Lookup::Unreadable, findings)?;
    Ok(())
}
