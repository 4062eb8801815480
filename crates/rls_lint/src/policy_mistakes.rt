//! What a policy says that it is likely not meant to say.

ghost use Rattle.std.specs.Prelude.{◌≡◌, ◌++◌, ◌∷◌, [], IfOk, OnOk};
ghost use Rattle.std.specs.List.{list_any};
ghost use Rattle.std.specs.Option.{option_copied};
ghost use Rattle.rls_catalog.specs.Verdict as verdict;
ghost use Rattle.rls_expr.specs.Scopes.{in_scope};
ghost use Rattle.rls_lint.specs.Findings.{told_of};
ghost use Rattle.rls_lint.specs.PolicyMistakes as spec;

use crate::finding::{Finding, Mistake};
use crate::linted::{Linted, is_for};
use crate::telling::tell;
use rls_catalog::Policies;
use rls_expr::{Expr, FromTable, Grantee, Node, Policy, shared_expr};
use rls_rows::State;
use rls_value::{Items, Kind, Name, PolicyKind, Value};
use std::alloc::{AllocError, Global};

/// Tells of the policies FOR INSERT without WITH CHECK.
pub(crate) fn tell_no_checks(
    from: FromTable<'_>,
    policies: &Policies,
    findings: &mut Items<Finding>,
) -> Result<(), AllocError>
    ensures { OnOk result (findings.new ≡ findings.old ++ told_of (in_scope from.entry) (spec.no_check_mistakes policies.now)) }
{
    for policy in policies.iter() {
        let policy = policy.get();
        if has_no_check(policy) {
            let mistake = Mistake::NoCheck(policy.name.copy()?, policy.permissive);
            tell(from, mistake, findings)?;
        }
    }
    Ok(())
}

fn has_no_check(policy: &Policy) -> bool
    ensures { result ≡ spec.has_no_check policy.now }
{
    is_for_insert(policy.kind) && policy.check.is_none()
}

fn is_for_insert(kind: PolicyKind) -> bool
    ensures { result ≡ spec.is_for_insert kind }
{
    matches!(kind, PolicyKind::Only(Kind::Insert))
}

/// Tells of the permissive policies whose WITH CHECK is TRUE, and whose USING isn't.
pub(crate) fn tell_true_checks(
    from: FromTable<'_>,
    policies: &Policies,
    findings: &mut Items<Finding>,
) -> Result<(), AllocError>
    ensures { OnOk result (findings.new ≡ findings.old ++ told_of (in_scope from.entry) (spec.check_true_mistakes policies.now)) }
{
    for policy in policies.iter() {
        let policy = policy.get();
        if has_true_check(policy) {
            tell(from, Mistake::CheckTrue(policy.name.copy()?), findings)?;
        }
    }
    Ok(())
}

fn has_true_check(policy: &Policy) -> bool
    ensures { result ≡ spec.has_true_check policy.now }
{
    policy.permissive
        && is_true_literal(shared_expr(&policy.check))
        && !is_true_literal(shared_expr(&policy.using))
}

fn is_true_literal(expr: Option<&Expr>) -> bool
    ensures { result ≡ spec.is_true_literal (option_copied expr.entry) }
{
    match expr {
        Some(expr) => matches!(expr.node(), Node::Literal(Value::Bool(true))),
        None => false,
    }
}

/// Tells of the policies that are for none of those who may log in.
pub(crate) fn tell_to_nobody(
    alloc: Global,
    linted: Linted<'_>,
    from: FromTable<'_>,
    policies: &Policies,
    findings: &mut Items<Finding>,
) -> Result<(), AllocError>
    ensures { OnOk result (findings.new ≡ findings.old ++ told_of (in_scope from.entry) (spec.to_nobody_mistakes linted.entry.state.now linted.entry.roles.now linted.entry.users.now policies.now)) }
{
    for policy in policies.iter() {
        let policy = policy.get();
        if is_to_nobody(alloc, linted.state, linted.users, policy)? {
            tell_roles(alloc, linted.roles, from, policy, findings)?;
        }
    }
    Ok(())
}

fn is_to_nobody(
    alloc: Global,
    state: &State,
    users: &[Name],
    policy: &Policy,
) -> Result<bool, AllocError>
    ensures { IfOk result (λ nobody. nobody ≡ spec.is_to_nobody state.now users.now policy.now) }
{
    if is_to_everyone(policy) {
        return Ok(false);
    }
    let some = is_to_some(alloc, state, users, policy)?;
    Ok(!some)
}

fn is_to_everyone(policy: &Policy) -> bool
    ensures { result ≡ verdict.is_to_everyone policy.now }
{
    policy
        .to
        .as_slice()
        .iter()
        .any(|grantee| matches!(grantee, Grantee::Public))
}

fn is_to_some(
    alloc: Global,
    state: &State,
    users: &[Name],
    policy: &Policy,
) -> Result<bool, AllocError>
    ensures { IfOk result (λ some. some ≡ list_any (λ role. verdict.is_to state.now role policy.now) users.now) }
{
    for role in users {
        if is_for(alloc, state, role, policy)? {
            return Ok(true);
        }
    }
    Ok(false)
}

fn tell_roles(
    alloc: Global,
    roles: &[Name],
    from: FromTable<'_>,
    policy: &Policy,
    findings: &mut Items<Finding>,
) -> Result<(), AllocError>
    ensures { OnOk result (findings.new ≡ findings.old ++ told_of (in_scope from.entry) (Mistake.ToNobody policy.now.name (spec.roles_to roles.now policy.now) ∷ [])) }
{
    let roles = roles_to(alloc, roles, policy)?;
    match policy.name.copy() {
        Ok(name) => tell(from, Mistake::ToNobody(name, roles), findings),
        Err(refused) => {
            drop(roles);
            Err(refused)
        }
    }
}

/// The roles that the policy is to.
fn roles_to(alloc: Global, roles: &[Name], policy: &Policy) -> Result<Items<Name>, AllocError>
    ensures { IfOk result (λ to. to ≡ spec.roles_to roles.now policy.now) }
{
    let mut to = Items::new(alloc);
    for role in roles {
        if is_to(policy, role) {
            to.push(role.copy()?)?;
        }
    }
    Ok(to)
}

#[tactic(auto, unfolding(crate::specs::PolicyMistakes::names_role))]
fn is_to(policy: &Policy, role: &Name) -> bool
    ensures { result ≡ spec.names_role policy.now role.now }
{
    policy
        .to
        .as_slice()
        .iter()
        .any(|grantee| is_grantee(role, grantee))
}

fn is_grantee(role: &Name, grantee: &Grantee) -> bool
    ensures { result ≡ spec.is_grantee role.now grantee.now }
{
    match grantee {
        Grantee::Public => false,
        Grantee::Role(name) => name.is(role),
    }
}
