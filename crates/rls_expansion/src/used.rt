//! The tables of the subqueries in the expressions that policies are asked for.

ghost use Rattle.std.specs.Prelude.{◌≡◌, [], ◌∷◌, ◌++◌, map, IfOk, OnOk};
ghost use Rattle.std.specs.List.{list_any};
ghost use Rattle.rls_guard.specs.rls_catalog.specs.rls_expr.specs.Naming.{step_of};
ghost use Rattle.rls_recursion.specs.rls_catalog.specs.Privileges.{includes};
ghost use Rattle.rls_recursion.specs.rls_catalog.specs.Verdict as verdict;
ghost use Rattle.rls_expansion.specs.Used as spec;

use rls_guard::rls_catalog::rls_expr::{Expr, NameStep, Policy, has_query, put_names};
use rls_guard::rls_role::EffectiveRoles;
use rls_recursion::rls_catalog::{Policies, Side};
use rls_value::shared::Share;
use rls_value::{Items, Kind, Name, PolicyKind};
use std::alloc::{AllocError, Global};

/// Most expressions have no more names, so that their list needn't grow.
const USUAL_STEPS: usize = 8;

/// The tables of the subqueries in the expressions that the policies are asked for: of each policy that applies to the role,
/// in their order, first those in USING, then those in WITH CHECK, in text order.
pub fn tables_used(
    alloc: Global,
    policies: &Policies,
    effective_roles: &EffectiveRoles,
    asks: &[(Kind, Side)],
) -> Result<Items<Name>, AllocError>
    ensures { IfOk result (λ tables. tables ≡ spec.tables_used effective_roles.now.superuser effective_roles.now.names asks.now policies.now) }
{
    let mut tables = Items::new(alloc);
    for policy in policies.iter() {
        put_used(alloc, &mut tables, policy.get(), effective_roles, asks)?;
    }
    Ok(tables)
}

/// Those of one policy, behind those that are there.
fn put_used(
    alloc: Global,
    tables: &mut Items<Name>,
    policy: &Policy,
    effective_roles: &EffectiveRoles,
    asks: &[(Kind, Side)],
) -> Result<(), AllocError>
    ensures { OnOk result (tables.new ≡ tables.old ++ spec.tables_by effective_roles.now.superuser effective_roles.now.names asks.now policy.now) }
{
    if is_to(policy, effective_roles) {
        put_asked(alloc, tables, policy, asks)
    } else {
        Ok(())
    }
}

pub(crate) fn is_to(policy: &Policy, effective_roles: &EffectiveRoles) -> bool
    ensures { result ≡ list_any (includes effective_roles.now.superuser effective_roles.now.names) policy.now.to }
{
    for grantee in policy.to.as_slice() {
        if effective_roles.includes(grantee) {
            return true;
        }
    }
    false
}

fn put_asked(
    alloc: Global,
    tables: &mut Items<Name>,
    policy: &Policy,
    asks: &[(Kind, Side)],
) -> Result<(), AllocError>
    ensures { OnOk result (tables.new ≡ tables.old ++ spec.tables_asked asks.now policy.now) }
{
    put_tables_where(alloc, tables, asks_using(policy, asks), &policy.using)?;
    put_tables_where(alloc, tables, asks_check(policy, asks), &policy.check)
}

/// Those of an expression that may be left out, where it is asked for.
fn put_tables_where(
    alloc: Global,
    tables: &mut Items<Name>,
    asked: bool,
    expr: &Option<Share<Expr>>,
) -> Result<(), AllocError>
    ensures { OnOk result (tables.new ≡ tables.old ++ spec.tables_where asked expr.now) }
{
    match expr {
        Some(expr) => {
            if asked {
                put_tables(alloc, tables, expr.get())
            } else {
                Ok(())
            }
        }
        None => Ok(()),
    }
}

/// Those of an expression that may be left out.
pub fn put_tables_if(
    alloc: Global,
    tables: &mut Items<Name>,
    expr: &Option<Expr>,
) -> Result<(), AllocError>
    ensures { OnOk result (tables.new ≡ tables.old ++ spec.tables_if expr.now) }
{
    match expr {
        Some(expr) => put_tables(alloc, tables, expr),
        None => Ok(()),
    }
}

/// Those of each of the expressions.
pub fn put_all_tables(
    alloc: Global,
    tables: &mut Items<Name>,
    exprs: &[Expr],
) -> Result<(), AllocError>
    ensures { OnOk result (tables.new ≡ tables.old ++ spec.all_tables exprs.now) }
{
    for expr in exprs {
        put_tables(alloc, tables, expr)?;
    }
    Ok(())
}

/// Puts the tables of the expression's subqueries, nested ones too, behind those that are there, in text order.
#[tactic(auto, using(crate::proofs::NoTables::none_behind))]
pub fn put_tables(alloc: Global, tables: &mut Items<Name>, expr: &Expr) -> Result<(), AllocError>
    ensures { OnOk result (tables.new ≡ tables.old ++ spec.tables_of expr.now) }
{
    if !has_query(expr) {
        return Ok(());
    }
    let mut steps = Vec::with_capacity(alloc, USUAL_STEPS)?;
    put_names(&mut steps, expr)?;
    let put = put_entered(tables, &steps);
    drop(steps);
    put
}

fn put_entered(tables: &mut Items<Name>, steps: &[NameStep]) -> Result<(), AllocError>
    ensures { OnOk result (tables.new ≡ tables.old ++ spec.entered (map step_of steps.now)) }
{
    for step in steps {
        if let NameStep::Begin(from) = step {
            tables.push(from.table.copy()?)?;
        }
    }
    Ok(())
}

/// Whether one of the asks is for USING.
pub(crate) fn asks_using(policy: &Policy, asks: &[(Kind, Side)]) -> bool
    ensures { result ≡ list_any (spec.is_for_using policy.now) asks.now }
{
    for (kind, side) in asks {
        if is_for_kind(policy.kind, *kind) && takes_using(policy, *kind, *side) {
            return true;
        }
    }
    false
}

/// Whether one of the asks is for WITH CHECK.
pub(crate) fn asks_check(policy: &Policy, asks: &[(Kind, Side)]) -> bool
    ensures { result ≡ list_any (spec.is_for_check policy.now) asks.now }
{
    for (kind, side) in asks {
        if is_for_kind(policy.kind, *kind) && takes_check(policy, *kind, *side) {
            return true;
        }
    }
    false
}

fn is_for_kind(policy: PolicyKind, kind: Kind) -> bool
    ensures { result ≡ verdict.is_for_kind policy kind }
{
    match policy {
        PolicyKind::All => true,
        PolicyKind::Only(own) => is_same_kind(own, kind),
    }
}

fn is_same_kind(left: Kind, right: Kind) -> bool
    ensures { result ≡ verdict.is_same_kind left right }
{
    match left {
        Kind::Select => matches!(right, Kind::Select),
        Kind::Insert => matches!(right, Kind::Insert),
        Kind::Update => matches!(right, Kind::Update),
        Kind::Delete => matches!(right, Kind::Delete),
    }
}

fn takes_using(policy: &Policy, kind: Kind, side: Side) -> bool
    ensures { result ≡ spec.takes_using policy.now kind side }
{
    match (kind, side) {
        (Kind::Select, _) | (Kind::Delete, _) | (Kind::Update, Side::Old) => true,
        (Kind::Insert, _) | (Kind::Update, Side::New) => using_stands_in(policy),
    }
}

/// Whether USING stands in for WITH CHECK, which is absent.
fn using_stands_in(policy: &Policy) -> bool
    ensures { result ≡ spec.using_stands_in policy.now.kind policy.now.check }
{
    match (&policy.check, policy.kind) {
        (Some(_), _) => false,
        (None, PolicyKind::All) | (None, PolicyKind::Only(Kind::Update)) => true,
        (None, _) => false,
    }
}

fn takes_check(policy: &Policy, kind: Kind, side: Side) -> bool
    ensures { result ≡ spec.takes_check policy.now kind side }
{
    match (kind, side) {
        (Kind::Select, _) | (Kind::Delete, _) | (Kind::Update, Side::Old) => false,
        (Kind::Insert, _) | (Kind::Update, Side::New) => policy.check.is_some(),
    }
}

/// Whether a subquery stands in USING or WITH CHECK.
pub fn holds_subquery(policy: &Policy) -> bool
    ensures { result ≡ spec.holds_subquery policy.now }
{
    has_query_if(&policy.using) || has_query_if(&policy.check)
}

fn has_query_if(expr: &Option<Share<Expr>>) -> bool
    ensures { result ≡ spec.has_query_if expr.now }
{
    match expr {
        Some(expr) => has_query(expr.get()),
        None => false,
    }
}
