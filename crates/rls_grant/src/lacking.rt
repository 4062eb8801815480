//! What a role lacks of a privilege, for columns of a table.

ghost use Rattle.std.specs.Prelude.{◌≡◌, filter, is_some, not, slice_get, IfOk, OnOk};
ghost use Rattle.std.specs.Option.{option_copied, option_map};
ghost use Rattle.rls_value.specs.Names.{one_of};
ghost use Rattle.rls_verdict.specs.rls_catalog.specs.Privileges as spec;
ghost use Rattle.rls_verdict.specs.rls_catalog.specs.Privileges.{holds_reads};
ghost use Rattle.rls_verdict.specs.rls_catalog.specs.State.{State, AgreesOn};
ghost use Rattle.rls_grant.specs.Missing as lacking;
ghost use Rattle.rls_grant.specs.Missing.{column_on, columns_on, missing_beside, reaches};

use crate::granted::is_same_privilege;
use crate::holding::is_granted;
use rls_role::rls_source::{Reading, RowSource};
use rls_role::{EffectiveRoles, effective_roles_over};
use rls_value::{Items, Name, Privilege, Reference, Why};
use rls_verdict::rls_catalog::{Grant, Grants};
use std::alloc::{AllocError, Global};

/// What the role lacks of the privilege on the table, for these columns of it, which stand in the table's order: nothing where it
/// holds the privilege on the whole table, or on each of the columns, or, where none is asked for, on some column. It is the
/// first of the columns where the privilege on another one reaches the role, or else the privilege. It reads what `holds`
/// does; in every state that agrees on that the answer is the same.
#[tactic(auto, using(crate::proofs::PassedOn::missing_frame))]
pub fn missing<'c, S: RowSource<'c>>(
    alloc: Global,
    source: &mut S,
    role: &Name,
    privilege: Privilege,
    table: &Name,
    columns: &[Name],
) -> Result<Option<Why>, AllocError>
    ensures missing { IfOk result (λ why. why ≡ spec.missing (S.state source.old) role.now privilege table.now columns.now) }
    ensures frame { (other : State) → AgreesOn (S.state source.old) other (holds_reads (S.state source.old) role.now table.now) → spec.missing other role.now privilege table.now columns.now ≡ spec.missing (S.state source.old) role.now privilege table.now columns.now }
    ensures read { OnOk result (source.new ≡ S.after source.old (holds_reads (S.state source.old) role.now table.now)) }
    ensures state { S.state source.new ≡ S.state source.old }
{
    let effective_roles = effective_roles_over(alloc, source, role)?;
    if effective_roles.superuser {
        return Ok(None);
    }
    let grants = source.grants(alloc, table)?;
    let missing = missing_in(alloc, grants, &effective_roles, privilege, table, columns)?;
    Ok(missing)
}

/// The same, by whose privileges the role has and by the grants on the table. The whole table is asked first: without
/// grants on columns nothing else is.
pub fn missing_in(
    alloc: Global,
    grants: &Grants,
    effective_roles: &EffectiveRoles,
    privilege: Privilege,
    table: &Name,
    columns: &[Name],
) -> Result<Option<Why>, AllocError>
    ensures { IfOk result (λ why. why ≡ lacking.missing_in effective_roles.now.superuser effective_roles.now.names grants.now privilege table.now columns.now) }
{
    if is_granted(grants, privilege, effective_roles)? {
        return Ok(None);
    }
    missing_on(alloc, grants, effective_roles, privilege, table, columns)
}

/// The same where the privilege on the whole table doesn't reach the role.
#[tactic(auto, using(crate::proofs::MissingLaws::missing_by))]
fn missing_on(
    alloc: Global,
    grants: &Grants,
    effective_roles: &EffectiveRoles,
    privilege: Privilege,
    table: &Name,
    columns: &[Name],
) -> Result<Option<Why>, AllocError>
    ensures { IfOk result (λ why. why ≡ missing_beside (reaches effective_roles.now.superuser effective_roles.now.names privilege) grants.now privilege table.now columns.now) }
{
    let granted = granted_columns(alloc, grants, privilege, effective_roles)?;
    let missing = missing_outside(granted.as_slice(), privilege, table, columns);
    drop(granted);
    missing
}

/// The same, by a list of the columns that are granted.
fn missing_outside(
    granted: &[Reference<'_, Name>],
    privilege: Privilege,
    table: &Name,
    columns: &[Name],
) -> Result<Option<Why>, AllocError>
    ensures { IfOk result (λ why. why ≡ lacking.missing_outside granted.now privilege table.now columns.now) }
{
    if is_of_columns(privilege) && has_some(granted) {
        missing_column(privilege, table, first_outside(granted, columns))
    } else {
        Ok(Some(Why::Privilege(privilege, table.copy()?)))
    }
}

fn missing_column(
    privilege: Privilege,
    table: &Name,
    column: Option<&Name>,
) -> Result<Option<Why>, AllocError>
    ensures { IfOk result (λ why. why ≡ option_map (Why.Column privilege table.now) (option_copied column.entry)) }
{
    match column {
        Some(column) => Ok(Some(Why::Column(privilege, table.copy()?, column.copy()?))),
        None => Ok(None),
    }
}

fn has_some(names: &[Reference<'_, Name>]) -> bool
    ensures { result ≡ is_some (slice_get names.now 0) }
{
    match names {
        [] => false,
        [_, ..] => true,
    }
}

/// The columns on which the privilege reaches the role, one for each grant.
fn granted_columns<'g>(
    alloc: Global,
    grants: &'g Grants,
    privilege: Privilege,
    effective_roles: &EffectiveRoles,
) -> Result<Items<Reference<'g, Name>>, AllocError>
    ensures { IfOk result (λ granted. granted ≡ columns_on (reaches effective_roles.now.superuser effective_roles.now.names privilege) grants.now) }
{
    let mut granted = Items::new(alloc);
    for grant in grants.iter() {
        if let Some(column) = granted_column(grant, privilege, effective_roles) {
            granted.push(Reference::new(column))?;
        }
    }
    Ok(granted)
}

/// The column that the grant is on, if it is of the privilege and reaches the role.
fn granted_column<'g>(
    grant: &'g Grant,
    privilege: Privilege,
    effective_roles: &EffectiveRoles,
) -> Option<&'g Name>
    ensures { option_copied result ≡ column_on (reaches effective_roles.now.superuser effective_roles.now.names privilege) grant.now }
{
    match &grant.column {
        Some(column)
            if is_same_privilege(grant.privilege, privilege)
                && effective_roles.includes(&grant.grantee) => { Some(column) }
        _ => None,
    }
}

/// The first of the columns that isn't among those that are granted.
fn first_outside<'a>(granted: &[Reference<'_, Name>], columns: &'a [Name]) -> Option<&'a Name>
    ensures { option_copied result ≡ slice_get (filter (λ column. not (one_of granted.now column)) columns.now) 0 }
{
    for column in columns {
        if !is_among(granted, column) {
            return Some(column);
        }
    }
    None
}

fn is_among(names: &[Reference<'_, Name>], name: &Name) -> bool
    ensures { result ≡ one_of names.now name.now }
{
    let mut rest = names;
    while let [first, others @ ..] = rest {
        if first.get().is(name) {
            return true;
        }
        rest = others;
    }
    false
}

/// Whether the privilege is granted on columns: DELETE alone is of whole tables only.
fn is_of_columns(privilege: Privilege) -> bool
    ensures { result ≡ spec.is_of_columns privilege }
{
    match privilege {
        Privilege::Select | Privilege::Insert | Privilege::Update => true,
        Privilege::Delete => false,
    }
}
