//! A source behind changes that aren't put on.

use crate::states::{Stands, says, state_with};
use rls_catalog::{Catalog, Change, Delta, RoleDef};
use rls_role::has;
use rls_source::{Overlay, Plain};
use rls_value::{Name, Refusal};
use std::alloc::{AllocError, Global};

/// Whether `a` has the privileges of `postgres`, behind the changes.
fn has_all(catalog: &Catalog, alloc: Global, changes: &Delta) -> Result<bool, Refusal> {
    let a = Name::new(alloc, "a")?;
    let has = has_those_of_postgres(catalog, alloc, changes, &a);
    drop(a);
    Ok(has?)
}

fn has_those_of_postgres(
    catalog: &Catalog,
    alloc: Global,
    changes: &Delta,
    role: &Name,
) -> Result<bool, AllocError> {
    let postgres = Name::postgres(alloc)?;
    let has = has_behind(catalog, alloc, changes, role, &postgres);
    drop(postgres);
    has
}

/// Whether the role has the privileges of the other, behind the changes.
fn has_behind(
    catalog: &Catalog,
    alloc: Global,
    changes: &Delta,
    role: &Name,
    of: &Name,
) -> Result<bool, AllocError> {
    let mut room = None;
    let has = has_over(catalog, alloc, changes, &mut room, role, of);
    drop(room);
    has
}

/// The same, where there is room for the state behind them.
fn has_over(
    catalog: &Catalog,
    alloc: Global,
    changes: &Delta,
    room: &mut Option<Catalog>,
    role: &Name,
    of: &Name,
) -> Result<bool, AllocError> {
    let mut source = Overlay::new(alloc, Plain::new(catalog), changes, room)?;
    let has = has(alloc, &mut source, role, of);
    drop(source);
    has
}

/// A state in which `a` is a role.
fn with_a(alloc: Global) -> Result<Catalog, Refusal> {
    state_with(alloc, &[Stands::Role("a", false)])
}

/// A change that makes `a` a superuser.
fn superuser(alloc: Global) -> Result<Delta, Refusal> {
    let def = RoleDef {
        superuser: true,
        login: true,
        bypass_rls: false,
    };
    let a = Name::new(alloc, "a")?;
    let mut changes = Delta::new(alloc);
    changes.push(Change::Role(a, def))?;
    Ok(changes)
}

/// Whether `a` has all privileges behind the changes, and no more than its own without them.
fn is_superuser_behind(catalog: &Catalog, alloc: Global, changes: &Delta) -> Result<bool, Refusal> {
    let behind = has_all(catalog, alloc, changes)?;
    let nothing = Delta::new(alloc);
    let below = has_all(catalog, alloc, &nothing);
    drop(nothing);
    Ok(behind && !below?)
}

/// The same for the change that makes it a superuser.
fn is_seen(alloc: Global, catalog: &Catalog) -> Result<bool, Refusal> {
    let changes = superuser(alloc)?;
    let seen = is_superuser_behind(catalog, alloc, &changes);
    drop(changes);
    seen
}

fn is_seen_behind_itself(alloc: Global) -> Result<bool, Refusal> {
    let catalog = with_a(alloc)?;
    let seen = is_seen(alloc, &catalog);
    drop(catalog);
    seen
}

/// A role that the changes make a superuser is one behind them, and not in the state below.
#[test]
fn changes_are_seen_behind_themselves(rt: HostRuntime) {
    assert!(rt; says(is_seen_behind_itself(rt.alloc()), true));
}
