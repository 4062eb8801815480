//! The policies of a table, unless row security doesn't apply.

ghost use Rattle.rls_guard.specs.rls_source.specs.Answering.{Tells};
ghost use Rattle.rls_expansion.specs.Policies as spec;
ghost use Rattle.rls_expansion.specs.Policies.{policies_borrowed};

use rls_guard::RolePrivileges;
use rls_guard::rls_catalog::rls_expr::TableDef;
use rls_guard::rls_source::Asker;
use rls_recursion::rls_catalog::Policies;
use rls_value::Name;
use std::alloc::AllocError;

/// The policies of the table in byte order of their names; none where row security doesn't apply to the role, and then they
/// aren't read.
#[tactic(auto, unfolding(crate::specs::Policies::policies_for))]
pub fn policies_for<'c>(
    asker: &mut Asker<'c>,
    role_privileges: &RolePrivileges,
    name: &Name,
    table: &TableDef,
) -> Result<Option<&'c Policies>, AllocError>
    ensures { Tells (spec.policies_for role_privileges.now name.now table.now) asker.old asker.new (policies_borrowed result) }
{
    if role_privileges.is_exempt(table) {
        return Ok(None);
    }
    let policies = asker.policies(name)?;
    Ok(Some(policies))
}
