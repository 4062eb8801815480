//! Findings, one behind another.

ghost use Rattle.std.specs.Prelude.{◌≡◌, ◌++◌, ◌∷◌, [], true, OnOk};
ghost use Rattle.std.specs.List.{list_any};
ghost use Rattle.rls_expr.specs.Scopes.{in_scope};
ghost use Rattle.rls_lint.specs.Findings.{told_of};

use crate::finding::{Finding, Mistake};
use rls_expr::FromTable;
use rls_value::{Items, Name};
use std::alloc::AllocError;

/// Tells of the mistake, which is about the table.
pub(crate) fn tell(
    from: FromTable<'_>,
    mistake: Mistake,
    findings: &mut Items<Finding>,
) -> Result<(), AllocError>
    ensures { OnOk result (findings.new ≡ findings.old ++ told_of (in_scope from.entry) (mistake ∷ [])) }
{
    match from.name.copy() {
        Ok(table) => findings.push(Finding { table, mistake }),
        Err(refused) => {
            drop(mistake);
            Err(refused)
        }
    }
}

/// Whether there is one of the roles.
pub(crate) fn has_role(roles: &[Name]) -> bool
    ensures { result ≡ list_any (λ role. true) roles.now }
{
    roles.iter().any(|_| true)
}
