//! Policies that lead back to a table that they came from.

ghost use Rattle.std.specs.Prelude.{◌≡◌, ◌++◌, IfOk, OnOk};
ghost use Rattle.std.specs.Option.{option_to_list};
ghost use Rattle.std.specs.List.{flat_map};
ghost use Rattle.rls_expr.specs.Scopes.{in_scope};
ghost use Rattle.rls_lint.specs.Findings.{told_of};
ghost use Rattle.rls_lint.specs.Loops as spec;
ghost use Rattle.rls_lint.specs.Users.{kinds};

use crate::finding::{Finding, Mistake};
use crate::linted::{Linted, closing_of, holds_on, is_bound, privilege_of};
use crate::telling::{has_role, tell};
use rls_expr::FromTable;
use rls_meaning::rls_guard::rls_role::is_among;
use rls_rows::State;
use rls_value::{Items, Kind, Name};
use std::alloc::{AllocError, Global};

/// A role, and the tables that chains of policies close on for it.
#[derive(Drop)]
pub struct Closed {
    pub role: Name,
    pub tables: Items<Name>,
}

/// Tells of the tables that chains of the table's policies close on.
pub(crate) fn tell_loops(
    alloc: Global,
    linted: Linted<'_>,
    from: FromTable<'_>,
    findings: &mut Items<Finding>,
) -> Result<(), AllocError>
    ensures { OnOk result (findings.new ≡ findings.old ++ told_of (in_scope from.entry) (spec.loop_mistakes linted.entry.state.now (in_scope from.entry) linted.entry.users.now linted.entry.tables.now)) }
{
    let closed = closed_of(alloc, linted, from)?;
    tell_each(alloc, linted, from, closed.as_slice(), findings)
}

/// Of each role, those tables.
fn closed_of(
    alloc: Global,
    linted: Linted<'_>,
    from: FromTable<'_>,
) -> Result<Items<Closed>, AllocError>
    ensures { IfOk result (λ closed. closed ≡ spec.closed_of linted.entry.state.now (in_scope from.entry) linted.entry.users.now) }
{
    let mut closed = Items::new(alloc);
    for role in linted.users {
        let tables = closed_tables(alloc, linted.state, from, role)?;
        match role.copy() {
            Ok(role) => closed.push(Closed { role, tables })?,
            Err(refused) => {
                drop(tables);
                return Err(refused);
            }
        }
    }
    Ok(closed)
}

fn closed_tables(
    alloc: Global,
    state: &State,
    from: FromTable<'_>,
    role: &Name,
) -> Result<Items<Name>, AllocError>
    ensures { IfOk result (λ tables. tables ≡ flat_map (λ kind. option_to_list (spec.closed_for state.now (in_scope from.entry) role.now kind)) kinds) }
{
    let mut tables = Items::new(alloc);
    put_closed(alloc, state, from, role, Kind::Select, &mut tables)?;
    put_closed(alloc, state, from, role, Kind::Insert, &mut tables)?;
    put_closed(alloc, state, from, role, Kind::Update, &mut tables)?;
    put_closed(alloc, state, from, role, Kind::Delete, &mut tables)?;
    Ok(tables)
}

fn put_closed(
    alloc: Global,
    state: &State,
    from: FromTable<'_>,
    role: &Name,
    kind: Kind,
    tables: &mut Items<Name>,
) -> Result<(), AllocError>
    ensures { OnOk result (tables.new ≡ tables.old ++ option_to_list (spec.closed_for state.now (in_scope from.entry) role.now kind)) }
{
    match closed_for(alloc, state, from, role, kind)? {
        Some(table) => tables.push(table),
        None => Ok(()),
    }
}

/// The table that the chains of the role's command close on, where row security binds it and it holds the privilege.
fn closed_for(
    alloc: Global,
    state: &State,
    from: FromTable<'_>,
    role: &Name,
    kind: Kind,
) -> Result<Option<Name>, AllocError>
    ensures { IfOk result (λ table. table ≡ spec.closed_for state.now (in_scope from.entry) role.now kind) }
{
    if !is_bound(alloc, state, role, from)? {
        return Ok(None);
    }
    if !holds_on(alloc, state, role, privilege_of(kind), from.name)? {
        return Ok(None);
    }
    closing_of(alloc, state, role, from, kind)
}

/// A line for each of the tables on which some close.
fn tell_each(
    alloc: Global,
    linted: Linted<'_>,
    from: FromTable<'_>,
    closed: &[Closed],
    findings: &mut Items<Finding>,
) -> Result<(), AllocError>
    ensures { OnOk result (findings.new ≡ findings.old ++ told_of (in_scope from.entry) (flat_map (spec.loop_of closed.now) linted.entry.tables.now)) }
{
    for other in linted.tables {
        tell_loop(alloc, from, closed, other.as_from(), findings)?;
    }
    Ok(())
}

fn tell_loop(
    alloc: Global,
    from: FromTable<'_>,
    closed: &[Closed],
    other: FromTable<'_>,
    findings: &mut Items<Finding>,
) -> Result<(), AllocError>
    ensures { OnOk result (findings.new ≡ findings.old ++ told_of (in_scope from.entry) (spec.loop_of closed.now (in_scope other.entry))) }
{
    let roles = roles_on(alloc, other.name, closed)?;
    if !has_role(roles.as_slice()) {
        return Ok(());
    }
    match other.name.copy() {
        Ok(table) => tell(from, Mistake::Loop(table, roles), findings),
        Err(refused) => {
            drop(roles);
            Err(refused)
        }
    }
}

/// The roles whose chains close on the table.
fn roles_on(alloc: Global, table: &Name, closed: &[Closed]) -> Result<Items<Name>, AllocError>
    ensures { IfOk result (λ roles. roles ≡ spec.roles_on table.now closed.now) }
{
    let mut roles = Items::new(alloc);
    for it in closed {
        if is_among(it.tables.as_slice(), table) {
            roles.push(it.role.copy()?)?;
        }
    }
    Ok(roles)
}
