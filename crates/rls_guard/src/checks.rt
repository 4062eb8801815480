//! What a statement is checked for: who may, and what is supported.

ghost use Rattle.std.specs.Prelude.{◌≡◌};
ghost use Rattle.rls_evaluation.specs.rls_source.specs.Answering.{Answers};
ghost use Rattle.rls_guard.specs.Checks as spec;
ghost use Rattle.rls_guard.specs.Checks.{superuser_or_denied};

use crate::support::is_unsupported_with;
use rls_evaluation::rls_catalog::rls_expr::rls_value::{Name, Refusal, Why};
use rls_evaluation::rls_catalog::rls_expr::{Expr, has_query, has_sum};
use rls_evaluation::rls_source::Asker;

/// Denied where the role is no superuser.
pub fn require_superuser(asker: &mut Asker, role: &Name, managed: &Name) -> Result<(), Refusal>
    ensures { Answers (superuser_or_denied role.now managed.now) asker.old asker.new result }
{
    match asker.role(role)? {
        Some(def) if def.superuser => Ok(()),
        _ => Err(Refusal::Denied(Why::Admin(managed.copy()?))),
    }
}

/// Whether something in it isn't supported where no sum may stand: everywhere but in what a column is set to.
pub fn is_unsupported(expr: &Expr) -> bool
    ensures { result ≡ spec.is_unsupported expr.now }
{
    is_unsupported_with(expr, false)
}

/// The same of an item that is listed, where no subquery may stand either.
pub fn is_unsupported_item(expr: &Expr) -> bool
    ensures { result ≡ spec.is_unsupported_item expr.now }
{
    has_sum(expr) || has_query(expr)
}
