//! States that tests are made on, and what tests look for.

use rls_catalog::{Catalog, Change, Delta, Membership, Memberships, RoleDef};
use rls_value::{Name, Refusal};
use shared_map::SharedList;
use std::alloc::Global;

/// What stands in a state, as plain data.
#[derive(Clone, Copy)]
pub enum Stands<'a> {
    /// A role with LOGIN, and with BYPASSRLS or not.
    Role(&'a str, bool),
    /// The memberships of a member: each role, with INHERIT and SET or without, and without ADMIN.
    Members(&'a str, &'a [(&'a str, bool, bool)]),
}

/// The opening state with all these beside.
pub fn state_with(alloc: Global, all: &[Stands<'_>]) -> Result<Catalog, Refusal> {
    let mut catalog = Catalog::new(alloc)?;
    match put_all(&mut catalog, alloc, all) {
        Ok(()) => Ok(catalog),
        Err(refusal) => {
            drop(catalog);
            Err(refusal)
        }
    }
}

pub fn put_all(catalog: &mut Catalog, alloc: Global, all: &[Stands<'_>]) -> Result<(), Refusal> {
    for it in all {
        match it {
            Stands::Role(name, bypass_rls) => add_role(catalog, alloc, name, *bypass_rls)?,
            Stands::Members(member, memberships) => put_members(
                catalog,
                alloc,
                member,
                memberships,
            )?,
        }
    }
    Ok(())
}

/// The change is put on.
pub fn put(catalog: &mut Catalog, alloc: Global, change: Change) -> Result<(), Refusal> {
    let mut delta = Delta::new(alloc);
    delta.push(change)?;
    let put = catalog.apply(alloc, &delta);
    drop(delta);
    Ok(put?)
}

fn add_role(
    catalog: &mut Catalog,
    alloc: Global,
    name: &str,
    bypass_rls: bool,
) -> Result<(), Refusal> {
    let def = RoleDef {
        superuser: false,
        login: true,
        bypass_rls,
    };
    put(catalog, alloc, Change::Role(Name::new(alloc, name)?, def))
}

fn membership(alloc: Global, role: &str, inherit: bool, set: bool) -> Result<Membership, Refusal> {
    Ok(Membership {
        role: Name::new(alloc, role)?,
        admin: false,
        inherit,
        set,
    })
}

fn put_members(
    catalog: &mut Catalog,
    alloc: Global,
    member: &str,
    memberships: &[(&str, bool, bool)],
) -> Result<(), Refusal> {
    let content = memberships_of(alloc, memberships)?;
    match Name::new(alloc, member) {
        Ok(member) => put(catalog, alloc, Change::Members(member, content)),
        Err(refusal) => {
            drop(content);
            Err(refusal)
        }
    }
}

fn memberships_of(
    alloc: Global,
    memberships: &[(&str, bool, bool)],
) -> Result<Memberships, Refusal> {
    let mut content = SharedList::new();
    match add_memberships(&mut content, alloc, memberships) {
        Ok(()) => Ok(content),
        Err(refusal) => {
            drop(content);
            Err(refusal)
        }
    }
}

fn add_memberships(
    content: &mut Memberships,
    alloc: Global,
    memberships: &[(&str, bool, bool)],
) -> Result<(), Refusal> {
    for (role, inherit, set) in memberships {
        content.put(alloc, membership(alloc, role, *inherit, *set)?)?;
    }
    Ok(())
}

/// Whether the answer came, and is that one.
pub fn says(answer: Result<bool, Refusal>, want: bool) -> bool {
    match answer {
        Ok(answer) => answer == want,
        Err(refusal) => {
            drop(refusal);
            false
        }
    }
}
