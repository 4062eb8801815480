//! Whether two states have the same contents, but for the numbers of rows.

ghost use Rattle.std.specs.Prelude.{◌≡◌, ◌↔◌, ◌&&◌, true, map, IfOk};
ghost use Rattle.std.specs.List.{All};
ghost use Rattle.rls_catalog.specs.State.{AgreesAt};
ghost use Rattle.rls_value.specs.declared.object.Object.TheVariants as o;
ghost use Rattle.rls_lint.specs.Contents.{AreSameNames, HaveSameContents, IsSameRole, IsSameTable, values_of};
ghost use Rattle.rls_lint.specs.Naming.{IsNamed};

use crate::named::Named;
use rls_catalog::BorrowedRow;
use rls_equality::{Same, are_both_same, are_same};
use rls_meaning::rls_guard::rls_source::Reading;
use rls_rows::State;
use rls_value::Name;
use std::alloc::{AllocError, Global};

/// Whether the two states have the same contents: roles with their attributes and memberships, tables with their definitions, grants,
/// policies, and rows in order. Only the numbers of rows may differ. Behind each stand the roles and the tables that it has.
pub fn have_same_contents(
    alloc: Global,
    left: &State,
    left_named: &Named,
    right: &State,
    right_named: &Named,
) -> Result<bool, AllocError>
    requires left { IsNamed left.now left_named.now }
    requires right { IsNamed right.now right_named.now }
    ensures { IfOk result (λ same. (same ≡ true) ↔ HaveSameContents left.now right.now) }
{
    if !have_same_names(alloc, left_named, right_named)? {
        return Ok(false);
    }
    let same = are_all_same(alloc, left, right, left_named)?;
    Ok(same)
}

/// Whether they are roles and tables of the same names.
fn have_same_names(alloc: Global, left: &Named, right: &Named) -> Result<bool, AllocError>
    ensures { IfOk result (λ same. (same ≡ true) ↔ (AreSameNames left.now.roles right.now.roles × AreSameNames left.now.tables right.now.tables)) }
{
    let roles = have_same_roles(alloc, left, right)?;
    let tables = have_same_tables(alloc, left, right)?;
    let same = are_both(roles, tables);
    Ok(same)
}

fn have_same_roles(alloc: Global, left: &Named, right: &Named) -> Result<bool, AllocError>
    ensures { IfOk result (λ same. (same ≡ true) ↔ AreSameNames left.now.roles right.now.roles) }
{
    let names = left.role_names(alloc)?;
    let others = right.role_names(alloc)?;
    Ok(are_same(names.as_slice(), others.as_slice()))
}

fn have_same_tables(alloc: Global, left: &Named, right: &Named) -> Result<bool, AllocError>
    ensures { IfOk result (λ same. (same ≡ true) ↔ AreSameNames left.now.tables right.now.tables) }
{
    let names = left.table_names(alloc)?;
    let others = right.table_names(alloc)?;
    Ok(are_same(names.as_slice(), others.as_slice()))
}

/// Whether each of these roles and tables is the same in both.
fn are_all_same(
    alloc: Global,
    left: &State,
    right: &State,
    named: &Named,
) -> Result<bool, AllocError>
    ensures { IfOk result (λ same. (same ≡ true) ↔ (All (IsSameRole left.now right.now) (map (λ entry. entry.0) named.now.roles) × All (IsSameTable left.now right.now) (map (λ entry. entry.0) named.now.tables))) }
{
    let roles = named.role_names(alloc)?;
    let tables = named.table_names(alloc)?;
    let same_roles = are_same_roles(alloc, left, right, roles.as_slice())?;
    let same_tables = are_same_tables(alloc, left, right, tables.as_slice())?;
    let same = are_both(same_roles, same_tables);
    Ok(same)
}

/// Whether each of the roles is the same in both.
fn are_same_roles(
    alloc: Global,
    left: &State,
    right: &State,
    roles: &[Name],
) -> Result<bool, AllocError>
    ensures { IfOk result (λ same. (same ≡ true) ↔ All (IsSameRole left.now right.now) roles.now) }
{
    for role in roles {
        if !is_same_role(alloc, left, right, role)? {
            return Ok(false);
        }
    }
    Ok(true)
}

/// Whether each of the tables is the same in both.
fn are_same_tables(
    alloc: Global,
    left: &State,
    right: &State,
    tables: &[Name],
) -> Result<bool, AllocError>
    ensures { IfOk result (λ same. (same ≡ true) ↔ All (IsSameTable left.now right.now) tables.now) }
{
    for table in tables {
        if !is_same_table(alloc, left, right, table)? {
            return Ok(false);
        }
    }
    Ok(true)
}

fn is_same_role(alloc: Global, left: &State, right: &State, role: &Name) -> Result<bool, AllocError>
    ensures { IfOk result (λ same. (same ≡ true) ↔ IsSameRole left.now right.now role.now) }
{
    let attributes = have_same_attributes(alloc, left, right, role)?;
    let members = have_same_memberships(alloc, left, right, role)?;
    let same = are_both(attributes, members);
    Ok(same)
}

fn have_same_attributes<'x>(
    alloc: Global,
    left: &'x State,
    right: &'x State,
    role: &Name,
) -> Result<bool, AllocError>
    ensures { IfOk result (λ same. (same ≡ true) ↔ AgreesAt left.now right.now (o.Role role.now)) }
{
    let mut one = left.view();
    let mut other = right.view();
    let found = one.role(alloc, role)?;
    let others = other.role(alloc, role)?;
    Ok(are_both_same(found, others))
}

fn have_same_memberships<'x>(
    alloc: Global,
    left: &'x State,
    right: &'x State,
    role: &Name,
) -> Result<bool, AllocError>
    ensures { IfOk result (λ same. (same ≡ true) ↔ AgreesAt left.now right.now (o.Members role.now)) }
{
    let mut one = left.view();
    let mut other = right.view();
    let found = one.members(alloc, role)?;
    let others = other.members(alloc, role)?;
    Ok(found.is_same(others))
}

fn is_same_table(
    alloc: Global,
    left: &State,
    right: &State,
    table: &Name,
) -> Result<bool, AllocError>
    ensures { IfOk result (λ same. (same ≡ true) ↔ IsSameTable left.now right.now table.now) }
{
    let definition = have_same_definition(alloc, left, right, table)?;
    let grants = have_same_grants(alloc, left, right, table)?;
    let policies = have_same_policies(alloc, left, right, table)?;
    let rows = have_same_rows(alloc, left, right, table)?;
    let shared = are_both(grants, policies);
    let defined = are_both(definition, shared);
    let same = are_both(defined, rows);
    Ok(same)
}

fn have_same_definition<'x>(
    alloc: Global,
    left: &'x State,
    right: &'x State,
    table: &Name,
) -> Result<bool, AllocError>
    ensures { IfOk result (λ same. (same ≡ true) ↔ AgreesAt left.now right.now (o.Table table.now)) }
{
    let mut one = left.view();
    let mut other = right.view();
    let found = one.table(alloc, table)?;
    let others = other.table(alloc, table)?;
    Ok(are_both_same(found, others))
}

fn have_same_grants<'x>(
    alloc: Global,
    left: &'x State,
    right: &'x State,
    table: &Name,
) -> Result<bool, AllocError>
    ensures { IfOk result (λ same. (same ≡ true) ↔ AgreesAt left.now right.now (o.Grants table.now)) }
{
    let mut one = left.view();
    let mut other = right.view();
    let found = one.grants(alloc, table)?;
    let others = other.grants(alloc, table)?;
    Ok(found.is_same(others))
}

fn have_same_policies<'x>(
    alloc: Global,
    left: &'x State,
    right: &'x State,
    table: &Name,
) -> Result<bool, AllocError>
    ensures { IfOk result (λ same. (same ≡ true) ↔ AgreesAt left.now right.now (o.Policies table.now)) }
{
    let mut one = left.view();
    let mut other = right.view();
    let found = one.policies(alloc, table)?;
    let others = other.policies(alloc, table)?;
    Ok(found.is_same(others))
}

fn have_same_rows<'x>(
    alloc: Global,
    left: &'x State,
    right: &'x State,
    table: &Name,
) -> Result<bool, AllocError>
    ensures { IfOk result (λ same. (same ≡ true) ↔ (values_of left.now table.now ≡ values_of right.now table.now)) }
{
    let mut one = left.view();
    let mut other = right.view();
    let found = one.scan(alloc, table)?;
    let others = other.scan(alloc, table)?;
    Ok(have_same_values(found.as_slice(), others.as_slice()))
}

fn are_both(first: bool, second: bool) -> bool
    ensures { result ≡ (first && second) }
{
    first && second
}

/// Whether the rows have the same values, in order.
fn have_same_values<'c>(mut left: &[BorrowedRow<'c>], mut right: &[BorrowedRow<'c>]) -> bool
    ensures { (result ≡ true) ↔ (map (λ stored. stored.row) left.entry.now ≡ map (λ stored. stored.row) right.entry.now) }
{
    while let [first, rest @ ..] = left {
        match right {
            [other, others @ ..] => {
                if !first.row().is_same(other.row()) {
                    return false;
                }
                right = others;
            }
            [] => return false,
        }
        left = rest;
    }
    right.is_empty()
}
