//! The tables that chains of policies meet, each once, with what is read for them.

ghost use Rattle.std.specs.Prelude.{◌≡◌, [], ◌∷◌, ◌++◌, Some, slice_get, IfOk, OnOk};
ghost use Rattle.std.specs.{List.list_any, Option.option_copied};
ghost use Rattle.rls_recursion.specs.rls_catalog.specs.Membership.{fresh};
ghost use Rattle.rls_guard.specs.rls_source.specs.Answering.{Tells};
ghost use Rattle.rls_expansion.specs.Dependencies as spec;
ghost use Rattle.rls_expansion.specs.Used as used;

use crate::policies::policies_for;
use crate::used::{holds_subquery, tables_used};
use rls_guard::RolePrivileges;
use rls_guard::rls_catalog::rls_expr::{NamedTable, Policy, TableDef};
use rls_guard::rls_policy::chosen;
use rls_guard::rls_role::is_among;
use rls_guard::rls_source::Asker;
use rls_recursion::PolicyDependency;
use rls_recursion::rls_catalog::{Policies, Side};
use rls_value::{Items, Kind, Name, Reference};
use std::alloc::{AllocError, Global};

/// The dependencies of the tables, and of those that they lead to, each once, in the order in which they are met.
pub fn dependencies_of<'c>(
    asker: &mut Asker<'c>,
    role_privileges: &RolePrivileges,
    tables: &[Name],
) -> Result<Items<PolicyDependency<'c>>, AllocError>
    ensures { Tells (spec.dependencies_of role_privileges.now tables.now) asker.old asker.new result }
{
    let mut names = Vec::new(asker.alloc());
    add_fresh(&mut names, tables)?;
    let mut dependencies = Items::new(asker.alloc());
    let mut next = 0;
    while let Some(name) = name_at(&names, next) {
        let dependency = dependency_of(asker, role_privileges, name)?;
        keep(&mut names, &mut dependencies, dependency)?;
        next += 1;
    }
    Ok(dependencies)
}

fn name_at(names: &[Name], index: usize) -> Option<&Name>
    ensures { option_copied result ≡ slice_get names.now index }
{
    names.get(index)
}

/// Puts the dependency behind the others, and the tables that it leads to, unless they are there, behind the names.
fn keep<'c>(
    names: &mut Vec<Name>,
    dependencies: &mut Items<PolicyDependency<'c>>,
    dependency: PolicyDependency<'c>,
) -> Result<(), AllocError>
    ensures names { OnOk result (names.new.items ≡ names.old.items ++ fresh names.old.items dependency.entry.subquery_tables) }
    ensures dependencies { OnOk result (dependencies.new ≡ dependencies.old ++ dependency.entry ∷ []) }
{
    match add_fresh(names, dependency.subquery_tables.as_slice()) {
        Ok(()) => dependencies.push(dependency),
        Err(refused) => {
            drop(dependency);
            Err(refused)
        }
    }
}

/// What is read for the table: its definition and, unless row security doesn't apply to the role, its policies.
#[tactic(auto, unfolding(crate::specs::Dependencies::dependency_of))]
fn dependency_of<'c>(
    asker: &mut Asker<'c>,
    role_privileges: &RolePrivileges,
    name: &Name,
) -> Result<PolicyDependency<'c>, AllocError>
    ensures { Tells (spec.dependency_of role_privileges.now name.now) asker.old asker.new result }
{
    match asker.table(name)? {
        Some(table) => dependency_in(asker, role_privileges, name, table),
        None => absent(asker.alloc(), name),
    }
}

fn absent<'c>(alloc: Global, name: &Name) -> Result<PolicyDependency<'c>, AllocError>
    ensures { IfOk result (λ dependency. dependency ≡ spec.absent name.now) }
{
    let table = name.copy()?;
    Ok(PolicyDependency {
        table,
        known: None,
        policies: Some(Items::new(alloc)),
        has_subquery: false,
        subquery_tables: Items::new(alloc),
    })
}

#[tactic(auto, unfolding(crate::specs::Dependencies::dependency_in))]
fn dependency_in<'c>(
    asker: &mut Asker<'c>,
    role_privileges: &RolePrivileges,
    name: &Name,
    table: &'c TableDef,
) -> Result<PolicyDependency<'c>, AllocError>
    ensures { Tells (spec.dependency_in role_privileges.now name.now table.now) asker.old asker.new result }
{
    let policies = policies_for(asker, role_privileges, name, table)?;
    dependency_by(asker.alloc(), role_privileges, name, table, policies)
}

fn dependency_by<'c>(
    alloc: Global,
    role_privileges: &RolePrivileges,
    name: &Name,
    table: &'c TableDef,
    policies: Option<&'c Policies>,
) -> Result<PolicyDependency<'c>, AllocError>
    ensures { IfOk result (λ dependency. dependency ≡ spec.dependency_by role_privileges.now name.now table.now (option_copied policies.entry)) }
{
    match policies {
        Some(policies) => with_quals(alloc, role_privileges, name, table, policies),
        None => there(name, table, None, false, Items::new(alloc)),
    }
}

fn with_quals<'c>(
    alloc: Global,
    role_privileges: &RolePrivileges,
    name: &Name,
    table: &'c TableDef,
    policies: &'c Policies,
) -> Result<PolicyDependency<'c>, AllocError>
    ensures { IfOk result (λ dependency. dependency ≡ spec.with_quals role_privileges.now name.now table.now policies.now) }
{
    let subquery_tables = tables_used(
        alloc,
        policies,
        &role_privileges.effective_roles,
        &[(Kind::Select, Side::Old)],
    )?;
    let chosen = chosen(
        alloc,
        policies,
        &role_privileges.effective_roles,
        Kind::Select,
        Side::Old,
    )?;
    let has_subquery = hold_subquery(chosen.as_slice());
    there(name, table, Some(chosen), has_subquery, subquery_tables)
}

fn there<'c>(
    name: &Name,
    table: &'c TableDef,
    policies: Option<Items<Reference<'c, Policy>>>,
    has_subquery: bool,
    subquery_tables: Items<Name>,
) -> Result<PolicyDependency<'c>, AllocError>
    ensures { IfOk result (λ dependency. dependency ≡ spec.there name.now table.now policies.entry has_subquery subquery_tables) }
{
    match NamedTable::new(name, table) {
        Ok(known) => named(name, known, policies, has_subquery, subquery_tables),
        Err(refused) => {
            drop(policies);
            drop(subquery_tables);
            Err(refused)
        }
    }
}

fn named<'c>(
    name: &Name,
    known: NamedTable<'c>,
    policies: Option<Items<Reference<'c, Policy>>>,
    has_subquery: bool,
    subquery_tables: Items<Name>,
) -> Result<PolicyDependency<'c>, AllocError>
    ensures { IfOk result (λ dependency. dependency ≡ record { table = name.now; known = Some known.entry; policies = policies.entry; has_subquery = has_subquery; subquery_tables = subquery_tables }) }
{
    match name.copy() {
        Ok(table) => Ok(PolicyDependency {
            table,
            known: Some(known),
            policies,
            has_subquery,
            subquery_tables,
        }),
        Err(refused) => {
            drop(known);
            drop(policies);
            drop(subquery_tables);
            Err(refused)
        }
    }
}

/// Whether one of the policies holds a subquery.
fn hold_subquery(policies: &[Reference<'_, Policy>]) -> bool
    ensures { result ≡ list_any used.holds_subquery policies.now }
{
    for policy in policies {
        if holds_subquery(policy.get()) {
            return true;
        }
    }
    false
}

/// Adds those names that aren't there yet, each once. It looks through the list for each: chains of policies are short.
fn add_fresh(names: &mut Vec<Name>, more: &[Name]) -> Result<(), AllocError>
    ensures { OnOk result (names.new.items ≡ names.old.items ++ fresh names.old.items more.now) }
{
    for name in more {
        add_unseen(names, name)?;
    }
    Ok(())
}

fn add_unseen(names: &mut Vec<Name>, name: &Name) -> Result<(), AllocError>
    ensures { OnOk result (names.new.items ≡ names.old.items ++ fresh names.old.items (name.now ∷ [])) }
{
    if !is_among(names, name) {
        names.push(name.copy()?)?;
    }
    Ok(())
}
