//! Reads that are recorded, and changes that cover them.

use crate::states::says;
use rls_catalog::{Catalog, Change, RoleDef};
use rls_role::has;
use rls_source::{Plain, Recording, covers};
use rls_value::{Name, Object, Refusal};
use std::alloc::{AllocError, Global};

/// Whether the role has its own privileges, and the object is noted as read then.
fn notes(catalog: &Catalog, alloc: Global, role: &Name, read: &Object) -> Result<bool, AllocError> {
    let mut source = Recording::new(alloc, Plain::new(catalog));
    let has_own = has(alloc, &mut source, role, role);
    let noted = source.footprint.contains(read);
    drop(source);
    Ok(has_own? && noted)
}

/// Whether what is read for `postgres` is noted in the state.
fn is_noted(catalog: &Catalog, alloc: Global, read: &Object) -> Result<bool, AllocError> {
    let role = Name::postgres(alloc)?;
    let noted = notes(catalog, alloc, &role, read);
    drop(role);
    noted
}

/// Whether a change of `postgres` covers what was read.
fn is_covered(alloc: Global, read: &Object) -> Result<bool, AllocError> {
    let change = Change::Role(Name::postgres(alloc)?, RoleDef::known(None));
    let covered = covers(read, &change);
    drop(change);
    Ok(covered)
}

fn is_noted_and_covered(alloc: Global, read: &Object) -> Result<bool, Refusal> {
    let catalog = Catalog::new(alloc)?;
    let noted = is_noted(&catalog, alloc, read);
    drop(catalog);
    Ok(noted? && is_covered(alloc, read)?)
}

fn is_recorded(alloc: Global) -> Result<bool, Refusal> {
    let role = Name::postgres(alloc)?;
    let copied = role.copy();
    drop(role);
    let read = Object::Role(copied?);
    let recorded = is_noted_and_covered(alloc, &read);
    drop(read);
    recorded
}

/// What was read stands in the footprint, and a change of it is covered.
#[test]
fn reads_are_recorded(rt: HostRuntime) {
    assert!(rt; says(is_recorded(rt.alloc()), true));
}
