//! A script that is to rebuild a state: roles, tables with their grants, rows, row security with policies, and last what roles may do.

use crate::defining::define_tables;
use crate::filling::fill_table;
use crate::named::Named;
use crate::script::{Script, is_postgres};
use rls_catalog::{Membership, RoleDef};
use rls_expr::{NamedTable, TableDef};
use rls_meaning::rls_guard::rls_source::Reading;
use rls_printing::print_policy;
use rls_rows::State;
use rls_value::{Items, Name};
use std::alloc::{AllocError, Global};

/// The script: its lines have the label `p`, and its session is one of `postgres`. What it leaves is told by running it: some states
/// have no such script, as one with a row that no line holds.
pub fn rebuilding_script(
    alloc: Global,
    state: &State,
    named: &Named,
) -> Result<String, AllocError> {
    let roles = named.role_names(alloc)?;
    let tables = named.tables(alloc)?;
    let mut script = Script::new(alloc)?;
    create_roles(alloc, roles.as_slice(), &mut script)?;
    define_tables(alloc, state, tables.as_slice(), &mut script)?;
    script.reset_role(alloc)?;
    fill_tables(alloc, state, tables.as_slice(), &mut script)?;
    secure_tables(alloc, state, tables.as_slice(), &mut script)?;
    empower_roles(alloc, state, &roles, &mut script)?;
    Ok(script.into_text())
}

/// The roles, without attributes: a superuser would grant as the owner of each table, and so would a member of that owner.
fn create_roles(alloc: Global, roles: &[Name], script: &mut Script) -> Result<(), AllocError> {
    for role in roles {
        if !is_postgres(role) {
            let command = format!(in alloc; "CREATE ROLE {role}")?;
            script.line(command.as_str())?;
        }
    }
    Ok(())
}

fn fill_tables(
    alloc: Global,
    state: &State,
    tables: &[NamedTable<'_>],
    script: &mut Script,
) -> Result<(), AllocError> {
    for table in tables {
        fill_table(alloc, state, table.as_from().name, script)?;
    }
    Ok(())
}

/// Row security and policies. A policy may read any table, so that all of them are there.
fn secure_tables(
    alloc: Global,
    state: &State,
    tables: &[NamedTable<'_>],
    script: &mut Script,
) -> Result<(), AllocError> {
    for table in tables {
        let from = table.as_from();
        enable(alloc, from.name, from.table, script)?;
        create_policies(alloc, state, from.name, script)?;
    }
    Ok(())
}

fn enable(
    alloc: Global,
    name: &Name,
    table: &TableDef,
    script: &mut Script,
) -> Result<(), AllocError> {
    if table.enabled {
        let command = format!(in alloc; "ALTER TABLE {name} ENABLE ROW LEVEL SECURITY")?;
        script.line(command.as_str())?;
    }
    if table.forced {
        let command = format!(in alloc; "ALTER TABLE {name} FORCE ROW LEVEL SECURITY")?;
        script.line(command.as_str())?;
    }
    Ok(())
}

fn create_policies(
    alloc: Global,
    state: &State,
    table: &Name,
    script: &mut Script,
) -> Result<(), AllocError> {
    let mut source = state.view();
    let policies = source.policies(alloc, table)?;
    for policy in policies.iter() {
        let command = print_policy(alloc, table, policy.get())?;
        script.line(command.as_str())?;
    }
    Ok(())
}

/// The attributes of the roles and their memberships; those of `postgres` last, which it needs for all the others.
fn empower_roles(
    alloc: Global,
    state: &State,
    roles: &Items<Name>,
    script: &mut Script,
) -> Result<(), AllocError> {
    for role in roles.as_slice() {
        if !is_postgres(role) {
            alter_role(alloc, state, role, script)?;
        }
    }
    for role in roles.as_slice() {
        grant_memberships(alloc, state, role, script)?;
    }
    let postgres = Name::postgres(alloc)?;
    alter_role(alloc, state, &postgres, script)
}

/// The role's attributes, where it hasn't the ones that it has from the start.
fn alter_role(
    alloc: Global,
    state: &State,
    role: &Name,
    script: &mut Script,
) -> Result<(), AllocError> {
    let mut source = state.view();
    let def = RoleDef::known(source.role(alloc, role)?);
    if has_first_attributes(role, def) {
        return Ok(());
    }
    let superuser = attribute(def.superuser, "SUPERUSER", "NOSUPERUSER");
    let login = attribute(def.login, "LOGIN", "NOLOGIN");
    let bypass_rls = attribute(def.bypass_rls, "BYPASSRLS", "NOBYPASSRLS");
    let command = format!(in alloc; "ALTER ROLE {role} {superuser} {login} {bypass_rls}")?;
    script.line(command.as_str())
}

/// `postgres` has all attributes from the start, and any other role has none.
fn has_first_attributes(role: &Name, def: RoleDef) -> bool {
    let first = is_postgres(role);
    def.superuser == first && def.login == first && def.bypass_rls == first
}

fn attribute(has: bool, on: &'static str, off: &'static str) -> &'static str {
    if has { on } else { off }
}

fn grant_memberships(
    alloc: Global,
    state: &State,
    member: &Name,
    script: &mut Script,
) -> Result<(), AllocError> {
    let mut source = state.view();
    let memberships = source.members(alloc, member)?;
    for membership in memberships.iter() {
        grant_membership(alloc, member, membership, script)?;
    }
    Ok(())
}

fn grant_membership(
    alloc: Global,
    member: &Name,
    membership: &Membership,
    script: &mut Script,
) -> Result<(), AllocError> {
    let role = &membership.role;
    let admin = attribute(membership.admin, "TRUE", "FALSE");
    let inherit = attribute(membership.inherit, "TRUE", "FALSE");
    let set = attribute(membership.set, "TRUE", "FALSE");
    let command = format!(in alloc;
        "GRANT {role} TO {member} WITH ADMIN {admin}, INHERIT {inherit}, SET {set}"
    )?;
    script.line(command.as_str())
}
