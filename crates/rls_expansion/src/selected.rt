//! The tables of the subqueries in the expressions that policies are asked for, each with the columns that the subquery
//! mentions.

ghost use Rattle.std.specs.Prelude.{◌≡◌, ◌++◌, IfOk, OnOk};
ghost use Rattle.std.specs.List.{All};
ghost use Rattle.rls_guard.specs.rls_catalog.specs.rls_expr.specs.{Resolving.resolved, Scopes.in_scope, Selecting.selected_of};
ghost use Rattle.rls_guard.specs.Naming.{names_over};
ghost use Rattle.rls_expansion.specs.Conditions.{AreResolved};
ghost use Rattle.rls_expansion.specs.Selected as spec;

use crate::conditions::Conditions;
use crate::used::{asks_check, asks_using, is_to};
use rls_guard::rls_catalog::rls_expr::{
    Expr, NamedTable, Policy, SelectedTable, has_query, put_selected,
};
use rls_guard::rls_role::EffectiveRoles;
use rls_guard::{PolicyScope, condition_of};
use rls_recursion::rls_catalog::{Policies, Side};
use rls_recursion::{PolicyDependency, PolicySubqueries};
use rls_value::shared::Share;
use rls_value::{Items, Kind, Reference};
use std::alloc::{AllocError, Global};

/// Those in the expressions that the policies are asked for: of each policy that applies to the role, in their order, first
/// those in USING, then those in WITH CHECK, in text order. An expression that a row check has resolved isn't resolved anew.
pub(crate) fn selected_used<'r, 'c, 'x>(
    alloc: Global,
    policies: &Policies,
    effective_roles: &EffectiveRoles,
    asks: &[(Kind, Side)],
    scope: PolicyScope<'x>,
    known: Conditions<'r, 'c>,
) -> Result<Items<SelectedTable>, AllocError>
    requires old { All (AreResolved (in_scope scope.from) scope.found.now) known.old.now }
    requires new { All (AreResolved (in_scope scope.from) scope.found.now) known.new.now }
    ensures { IfOk result (λ selected. selected ≡ spec.selected_used effective_roles.now.superuser effective_roles.now.names asks.now (in_scope scope.entry.from) scope.entry.found.now policies.now) }
{
    let mut selected = Items::new(alloc);
    for policy in policies.iter() {
        put_used(
            alloc,
            &mut selected,
            policy.get(),
            effective_roles,
            asks,
            scope,
            known,
        )?;
    }
    Ok(selected)
}

/// Those of one policy, behind those that are there.
fn put_used<'r, 'c, 'x>(
    alloc: Global,
    selected: &mut Items<SelectedTable>,
    policy: &Policy,
    effective_roles: &EffectiveRoles,
    asks: &[(Kind, Side)],
    scope: PolicyScope<'x>,
    known: Conditions<'r, 'c>,
) -> Result<(), AllocError>
    requires old { All (AreResolved (in_scope scope.from) scope.found.now) known.old.now }
    requires new { All (AreResolved (in_scope scope.from) scope.found.now) known.new.now }
    ensures { OnOk result (selected.new ≡ selected.old ++ spec.selected_by effective_roles.now.superuser effective_roles.now.names asks.now (in_scope scope.entry.from) scope.entry.found.now policy.now) }
{
    if is_to(policy, effective_roles) {
        put_asked(alloc, selected, policy, asks, scope, known)
    } else {
        Ok(())
    }
}

fn put_asked<'r, 'c, 'x>(
    alloc: Global,
    selected: &mut Items<SelectedTable>,
    policy: &Policy,
    asks: &[(Kind, Side)],
    scope: PolicyScope<'x>,
    known: Conditions<'r, 'c>,
) -> Result<(), AllocError>
    requires old { All (AreResolved (in_scope scope.from) scope.found.now) known.old.now }
    requires new { All (AreResolved (in_scope scope.from) scope.found.now) known.new.now }
    ensures { OnOk result (selected.new ≡ selected.old ++ spec.selected_asked asks.now (in_scope scope.entry.from) scope.entry.found.now policy.now) }
{
    put_where(
        alloc,
        selected,
        asks_using(policy, asks),
        &policy.using,
        scope,
        known,
    )?;
    put_where(
        alloc,
        selected,
        asks_check(policy, asks),
        &policy.check,
        scope,
        known,
    )
}

/// Those of an expression, where it is asked for.
fn put_where<'r, 'c, 'x>(
    alloc: Global,
    selected: &mut Items<SelectedTable>,
    asked: bool,
    expr: &Option<Share<Expr>>,
    scope: PolicyScope<'x>,
    known: Conditions<'r, 'c>,
) -> Result<(), AllocError>
    requires old { All (AreResolved (in_scope scope.from) scope.found.now) known.old.now }
    requires new { All (AreResolved (in_scope scope.from) scope.found.now) known.new.now }
    ensures { OnOk result (selected.new ≡ selected.old ++ spec.selected_where asked (in_scope scope.entry.from) scope.entry.found.now expr.now) }
{
    match expr {
        Some(expr) => {
            if asked {
                put_known(alloc, selected, expr.get(), scope, known)
            } else {
                Ok(())
            }
        }
        None => Ok(()),
    }
}

/// Those of an expression, which may be resolved already.
#[tactic(auto, using(crate::proofs::NoTables::none_selected_behind))]
fn put_known<'r, 'c, 'x>(
    alloc: Global,
    selected: &mut Items<SelectedTable>,
    expr: &Expr,
    scope: PolicyScope<'x>,
    known: Conditions<'r, 'c>,
) -> Result<(), AllocError>
    requires old { All (AreResolved (in_scope scope.from) scope.found.now) known.old.now }
    requires new { All (AreResolved (in_scope scope.from) scope.found.now) known.new.now }
    ensures { OnOk result (selected.new ≡ selected.old ++ selected_of scope.entry.found.now (resolved expr.now (names_over (in_scope scope.entry.from) scope.entry.found.now))) }
{
    if !has_query(expr) {
        return Ok(());
    }
    match known.resolved(scope, expr) {
        Some(condition) => put_selected(alloc, selected, scope.found, condition),
        None => put_of(alloc, selected, expr, scope),
    }
}

/// Those of an expression that may be left out.
fn put_if<'x>(
    alloc: Global,
    selected: &mut Items<SelectedTable>,
    expr: &Option<Share<Expr>>,
    scope: PolicyScope<'x>,
) -> Result<(), AllocError>
    ensures { OnOk result (selected.new ≡ selected.old ++ spec.selected_if (in_scope scope.entry.from) scope.entry.found.now expr.now) }
{
    match expr {
        Some(expr) => put_of(alloc, selected, expr.get(), scope),
        None => Ok(()),
    }
}

/// Those of an expression. Without a subquery it isn't resolved.
#[tactic(auto, using(crate::proofs::NoTables::none_selected_behind))]
fn put_of<'x>(
    alloc: Global,
    selected: &mut Items<SelectedTable>,
    expr: &Expr,
    scope: PolicyScope<'x>,
) -> Result<(), AllocError>
    ensures { OnOk result (selected.new ≡ selected.old ++ selected_of scope.entry.found.now (resolved expr.now (names_over (in_scope scope.entry.from) scope.entry.found.now))) }
{
    if !has_query(expr) {
        return Ok(());
    }
    let resolved = condition_of(alloc, expr, scope)?;
    let put = put_selected(alloc, selected, scope.found, &resolved);
    drop(resolved);
    put
}

/// The tables of the dependencies, each with the subqueries of its policies.
pub(crate) fn subqueries_in<'c>(
    alloc: Global,
    found: &[NamedTable<'c>],
    dependencies: &[PolicyDependency<'c>],
) -> Result<Items<PolicySubqueries>, AllocError>
    ensures { IfOk result (λ subqueries. subqueries ≡ spec.subqueries_in found.now dependencies.now) }
{
    let mut subqueries = Items::new(alloc);
    for dependency in dependencies {
        let one = subqueries_of(alloc, found, dependency)?;
        subqueries.push(one)?;
    }
    Ok(subqueries)
}

fn subqueries_of<'c>(
    alloc: Global,
    found: &[NamedTable<'c>],
    dependency: &PolicyDependency<'c>,
) -> Result<PolicySubqueries, AllocError>
    ensures { IfOk result (λ subqueries. subqueries ≡ spec.subqueries_of found.now dependency.now) }
{
    let selected = selected_of_table(alloc, found, dependency)?;
    match dependency.table.copy() {
        Ok(table) => Ok(PolicySubqueries { table, selected }),
        Err(refused) => {
            drop(selected);
            Err(refused)
        }
    }
}

fn selected_of_table<'c>(
    alloc: Global,
    found: &[NamedTable<'c>],
    dependency: &PolicyDependency<'c>,
) -> Result<Items<SelectedTable>, AllocError>
    ensures { IfOk result (λ selected. selected ≡ spec.selected_of_table found.now dependency.now.known dependency.now.policies) }
{
    match (&dependency.known, &dependency.policies) {
        (Some(known), Some(policies)) => selected_read(
            alloc,
            policies.as_slice(),
            PolicyScope {
                from: known.as_from(),
                found,
            },
        ),
        (Some(_), None) | (None, _) => Ok(Items::new(alloc)),
    }
}

/// Those in USING of each policy.
fn selected_read<'c, 'x>(
    alloc: Global,
    policies: &[Reference<'c, Policy>],
    scope: PolicyScope<'x>,
) -> Result<Items<SelectedTable>, AllocError>
    ensures { IfOk result (λ selected. selected ≡ spec.selected_read (in_scope scope.entry.from) scope.entry.found.now policies.now) }
{
    let mut selected = Items::new(alloc);
    for policy in policies {
        put_if(alloc, &mut selected, &policy.get().using, scope)?;
    }
    Ok(selected)
}
