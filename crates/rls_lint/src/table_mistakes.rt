//! What of a table's row security is likely not meant so.

ghost use Rattle.std.specs.Prelude.{◌≡◌, ◌++◌, filter, IfOk, OnOk};
ghost use Rattle.rls_expr.specs.Scopes.{in_scope};
ghost use Rattle.rls_lint.specs.Findings.{told_of};
ghost use Rattle.rls_lint.specs.Commands as commands;
ghost use Rattle.rls_lint.specs.TableMistakes as spec;

use crate::finding::{Finding, Mistake};
use crate::linted::{Linted, attributes_of, has_privileges_of};
use crate::telling::{has_role, tell};
use rls_catalog::Policies;
use rls_expr::{FromTable, TableDef};
use rls_rows::State;
use rls_value::{Items, Name};
use std::alloc::{AllocError, Global};

/// Tells of the roles with the owner's privileges that row security doesn't bind, as it isn't forced.
pub(crate) fn tell_unbound(
    alloc: Global,
    linted: Linted<'_>,
    from: FromTable<'_>,
    findings: &mut Items<Finding>,
) -> Result<(), AllocError>
    ensures { OnOk result (findings.new ≡ findings.old ++ told_of (in_scope from.entry) (spec.owner_mistakes linted.entry.state.now linted.entry.roles.now from.entry.table.now)) }
{
    let unbound = unbound_of(alloc, linted, from.table)?;
    if has_role(unbound.as_slice()) {
        tell(from, Mistake::OwnerUnbound(unbound), findings)
    } else {
        Ok(())
    }
}

fn unbound_of(
    alloc: Global,
    linted: Linted<'_>,
    table: &TableDef,
) -> Result<Items<Name>, AllocError>
    ensures { IfOk result (λ unbound. unbound ≡ spec.unbound_of linted.entry.state.now linted.entry.roles.now table.now) }
{
    if table.enabled && !table.forced {
        unbound_among(alloc, linted, table)
    } else {
        Ok(Items::new(alloc))
    }
}

fn unbound_among(
    alloc: Global,
    linted: Linted<'_>,
    table: &TableDef,
) -> Result<Items<Name>, AllocError>
    ensures { IfOk result (λ unbound. unbound ≡ filter (spec.is_unbound linted.entry.state.now table.now) linted.entry.roles.now) }
{
    let mut unbound = Items::new(alloc);
    for role in linted.roles {
        if is_unbound(alloc, linted.state, table, role)? {
            unbound.push(role.copy()?)?;
        }
    }
    Ok(unbound)
}

fn is_unbound(
    alloc: Global,
    state: &State,
    table: &TableDef,
    role: &Name,
) -> Result<bool, AllocError>
    ensures { IfOk result (λ unbound. unbound ≡ spec.is_unbound state.now table.now role.now) }
{
    let attributes = attributes_of(alloc, state, role)?;
    if !attributes.login || attributes.superuser || attributes.bypass_rls {
        return Ok(false);
    }
    has_privileges_of(alloc, state, role, &table.owner)
}

/// Tells of policies whose table's row security is off.
pub(crate) fn tell_off(
    from: FromTable<'_>,
    policies: &Policies,
    findings: &mut Items<Finding>,
) -> Result<(), AllocError>
    ensures { OnOk result (findings.new ≡ findings.old ++ told_of (in_scope from.entry) (spec.off_mistakes from.entry.table.now policies.now)) }
{
    if !from.table.enabled && has_policies(policies) {
        tell(from, Mistake::Off(policies.len()), findings)
    } else {
        Ok(())
    }
}

fn has_policies(policies: &Policies) -> bool
    ensures { result ≡ commands.has_policies policies.now }
{
    policies.iter().any(|_| true)
}
