//! Who is exempt from row security.

ghost use Rattle.std.specs.Prelude.{◌≡◌, IfOk, OnOk};
ghost use Rattle.rls_verdict.specs.rls_catalog.specs.State.{State, AgreesOn};
ghost use Rattle.rls_verdict.specs.rls_catalog.specs.Verdict as spec;
ghost use Rattle.rls_verdict.specs.rls_catalog.specs.Verdict.{exempt_reads};

use rls_role::has;
use rls_role::rls_source::{Reading, RowSource};
use rls_verdict::rls_catalog::RoleDef;
use rls_verdict::rls_expr::TableDef;
use rls_verdict::rls_value::Name;
use std::alloc::{AllocError, Global};

/// Whether the role is exempt on the table. It reads nothing where row security is off, the role alone where that is
/// SUPERUSER or BYPASSRLS or the table under FORCE, and else each role that it reaches; in every state that agrees on that the answer is the same.
#[tactic(auto, using(crate::proofs::PassedOn::exempt_frame))]
pub fn is_exempt<'c, S: RowSource<'c>>(
    alloc: Global,
    source: &mut S,
    role: &Name,
    table: &TableDef,
) -> Result<bool, AllocError>
    ensures exempt { IfOk result (λ exempt. exempt ≡ spec.is_exempt (S.state source.old) role.now table.now) }
    ensures frame { (other : State) → AgreesOn (S.state source.old) other (exempt_reads (S.state source.old) role.now table.now) → spec.is_exempt other role.now table.now ≡ spec.is_exempt (S.state source.old) role.now table.now }
    ensures read { OnOk result (source.new ≡ S.after source.old (exempt_reads (S.state source.old) role.now table.now)) }
    ensures state { S.state source.new ≡ S.state source.old }
{
    if !table.enabled {
        return Ok(true);
    }
    let def = RoleDef::known(source.role(alloc, role)?);
    if def.superuser || def.bypass_rls {
        return Ok(true);
    }
    if table.forced {
        return Ok(false);
    }
    let has_owner = has(alloc, source, role, &table.owner)?;
    Ok(has_owner)
}
