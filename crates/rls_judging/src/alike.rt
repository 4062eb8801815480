//! Two row checks by the same quals, which say the same of a row.

ghost use Rattle.std.specs.Prelude.{◌≡◌, [], ◌∷◌, ◌++◌, IsTrue, OnOk};
ghost use Rattle.rls_judging.specs.Alike.{AreAlike, decided_by};

use rls_evaluation::SecurityQuals;
use rls_evaluation::rls_equality::Same;
use rls_guard::rls_catalog::Verdict;
use rls_guard::rls_catalog::rls_expr::{Expr, Policy};
use rls_guard::{Decision, RowCheck};
use rls_value::{Reference, RowId};
use std::alloc::AllocError;

/// Whether there are two row checks, by the same quals: what a policy for all commands is for is seen and changed by one
/// condition.
pub(crate) fn are_alike(row_checks: &[RowCheck]) -> bool
    ensures { IsTrue result → AreAlike row_checks.now }
{
    match row_checks {
        [first, second] => is_same_quals(&second.quals, &first.quals),
        _ => false,
    }
}

fn is_same_quals(quals: &SecurityQuals, other: &SecurityQuals) -> bool
    ensures { IsTrue result → quals.now ≡ other.now }
{
    match (quals, other) {
        (SecurityQuals::Exempt, SecurityQuals::Exempt) => true,
        (SecurityQuals::Policies(conditions), SecurityQuals::Policies(others)) => {
            are_same_conditions(conditions.as_slice(), others.as_slice())
        }
        (_, _) => false,
    }
}

fn are_same_conditions(
    mut left: &[(Reference<'_, Policy>, Expr)],
    mut right: &[(Reference<'_, Policy>, Expr)],
) -> bool
    ensures { IsTrue result → left.entry.now ≡ right.entry.now }
{
    while let [(policy, condition), rest @ ..] = left {
        match right {
            [(other, its), others @ ..] => {
                if !is_same_condition(policy.get(), condition, other.get(), its) {
                    return false;
                }
                right = others;
            }
            [] => return false,
        }
        left = rest;
    }
    right.is_empty()
}

fn is_same_condition(policy: &Policy, condition: &Expr, other: &Policy, its: &Expr) -> bool
    ensures { IsTrue result → (policy.now ≡ other.now) × (condition.now ≡ its.now) }
{
    policy.is_same(other) && condition.is_same(its)
}

/// The decisions by both row checks behind the others.
pub(crate) fn put_both(
    decisions: &mut Vec<Decision>,
    first: &RowCheck,
    second: &RowCheck,
    id: RowId,
    verdict: Verdict,
) -> Result<(), AllocError>
    ensures { OnOk result (decisions.new.items ≡ decisions.old.items ++ decided_by id verdict first.now ∷ decided_by id verdict second.now ∷ []) }
{
    match put_one(decisions, first, id, &verdict) {
        Ok(()) => put_last(decisions, second, id, verdict),
        Err(refused) => {
            drop(verdict);
            Err(refused)
        }
    }
}

fn put_one(
    decisions: &mut Vec<Decision>,
    row_check: &RowCheck,
    id: RowId,
    verdict: &Verdict,
) -> Result<(), AllocError>
    ensures { OnOk result (decisions.new.items ≡ decisions.old.items ++ decided_by id verdict.now row_check.now ∷ []) }
{
    match verdict.copy() {
        Ok(verdict) => put_last(decisions, row_check, id, verdict),
        Err(refused) => Err(refused),
    }
}

/// The decision by the row check behind the others.
pub(crate) fn put_last(
    decisions: &mut Vec<Decision>,
    row_check: &RowCheck,
    id: RowId,
    verdict: Verdict,
) -> Result<(), AllocError>
    ensures { OnOk result (decisions.new.items ≡ decisions.old.items ++ decided_by id verdict row_check.now ∷ []) }
{
    decisions.push(Decision {
        id,
        side: row_check.side,
        kind: row_check.kind,
        verdict,
    })?;
    Ok(())
}
