//! Who is exempt from row security, by attributes and ownership.

ghost use Rattle.std.specs.Prelude.{◌≡◌};
ghost use Rattle.rls_catalog.specs.Verdict.{exempts};

use rls_catalog::RoleDef;
use rls_catalog::rls_expr::TableDef;

/// Whether row security doesn't apply to the role on the table; `has_owner` tells whether the role has the privileges of
/// the table's owner (PostgreSQL manual, 5.8).
pub fn exempt(role: &RoleDef, table: &TableDef, has_owner: bool) -> bool
    ensures { result ≡ exempts role.now table.now has_owner }
{
    !table.enabled || role.superuser || role.bypass_rls || (has_owner && !table.forced)
}
