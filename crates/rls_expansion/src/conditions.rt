//! The conditions of policies that row checks have, resolved already.

ghost use Rattle.std.specs.Prelude.{◌≡◌, true, Some, IfSome};
ghost use Rattle.std.specs.List.{All};
ghost use Rattle.rls_guard.specs.rls_catalog.specs.rls_expr.specs.{Resolving.resolved, Scopes.in_scope};
ghost use Rattle.rls_recursion.specs.rls_catalog.specs.Verdict as verdict;
ghost use Rattle.rls_guard.specs.Naming.{names_over};
ghost use Rattle.rls_expansion.specs.Conditions.{AreResolved, IsResolved};

use rls_guard::rls_catalog::rls_expr::{Expr, Policy};
use rls_guard::rls_equality::is_same_term;
use rls_guard::rls_evaluation::SecurityQuals;
use rls_guard::rls_policy::expression_of;
use rls_guard::{PolicyScope, RowCheck};
use rls_recursion::rls_catalog::Side;
use rls_value::{Kind, Reference};

/// The row checks of a table, of rows as they stand and of new ones, whose conditions are resolved.
#[derive(Clone, Copy)]
pub(crate) struct Conditions<'r, 'c> {
    pub old: &'r [RowCheck<'c>],
    pub new: &'r [RowCheck<'c>],
}

impl<'r, 'c> Conditions<'r, 'c> {
    /// The expression as it was resolved, if it was.
    pub fn resolved<'x>(self, scope: PolicyScope<'x>, expr: &Expr) -> Option<&'r Expr>
        requires old { All (AreResolved (in_scope scope.from) scope.found.now) self.old.now }
        requires new { All (AreResolved (in_scope scope.from) scope.found.now) self.new.now }
        ensures { IfSome result (λ condition. condition.now ≡ resolved expr.now (names_over (in_scope scope.entry.from) scope.entry.found.now)) }
    {
        match resolved_among(self.old, scope, expr) {
            Some(condition) => Some(condition),
            None => resolved_among(self.new, scope, expr),
        }
    }
}

/// The same among the conditions of these row checks.
fn resolved_among<'r, 'c, 'x>(
    row_checks: &'r [RowCheck<'c>],
    scope: PolicyScope<'x>,
    expr: &Expr,
) -> Option<&'r Expr>
    requires { All (AreResolved (in_scope scope.from) scope.found.now) row_checks.now }
    ensures { IfSome result (λ condition. condition.now ≡ resolved expr.now (names_over (in_scope scope.entry.from) scope.entry.found.now)) }
{
    for row_check in row_checks {
        if let Some(condition) = resolved_by(row_check, scope, expr) {
            return Some(condition);
        }
    }
    None
}

/// The same among the conditions of one.
fn resolved_by<'r, 'c, 'x>(
    row_check: &'r RowCheck<'c>,
    scope: PolicyScope<'x>,
    expr: &Expr,
) -> Option<&'r Expr>
    requires { AreResolved (in_scope scope.from) scope.found.now row_check.now }
    ensures { IfSome result (λ condition. condition.now ≡ resolved expr.now (names_over (in_scope scope.entry.from) scope.entry.found.now)) }
{
    match &row_check.quals {
        SecurityQuals::Policies(conditions) => resolved_in(
            conditions.as_slice(),
            row_check.kind,
            row_check.side,
            scope,
            expr,
        ),
        SecurityQuals::Exempt => None,
    }
}

/// The same among conditions.
fn resolved_in<'r, 'c, 'x>(
    conditions: &'r [(Reference<'c, Policy>, Expr)],
    kind: Kind,
    side: Side,
    scope: PolicyScope<'x>,
    expr: &Expr,
) -> Option<&'r Expr>
    requires { All (IsResolved kind side (in_scope scope.from) scope.found.now) conditions.now }
    ensures { IfSome result (λ condition. condition.now ≡ resolved expr.now (names_over (in_scope scope.entry.from) scope.entry.found.now)) }
{
    for condition in conditions {
        if is_asked_for(condition.0.get(), kind, side, expr) {
            return Some(&condition.1);
        }
    }
    None
}

/// Whether it is the expression that the policy is asked for.
fn is_asked_for(policy: &Policy, kind: Kind, side: Side, expr: &Expr) -> bool
    ensures { result ≡ true → verdict.expression_of policy.now kind side ≡ Some expr.now }
{
    match expression_of(policy, kind, side) {
        Some(own) => is_same_term(own, expr),
        None => false,
    }
}
