//! Whose privileges a role has, and which roles a login may set, by a worked example (PostgreSQL manual, 22.3, "Role
//! Membership", and SET ROLE).

use crate::states::{Stands, says, state_with};
use rls_catalog::Catalog;
use rls_role::{can_set, has};
use rls_source::Plain;
use rls_value::{Name, Refusal};
use std::alloc::{AllocError, Global};

/// `bob` may set `crew`, and by it `fleet`, and inherits from `team` alone.
const CREWS: [Stands<'static>; 6] = [
    Stands::Role("bob", false),
    Stands::Role("crew", false),
    Stands::Role("fleet", false),
    Stands::Role("team", false),
    Stands::Members("bob", &[("crew", false, true), ("team", true, false)]),
    Stands::Members("crew", &[("fleet", true, true)]),
];

/// Whether the member has the role's privileges, and whether it may set it, are these.
fn are(
    catalog: &Catalog,
    alloc: Global,
    member: &Name,
    role: &Name,
    want: (bool, bool),
) -> Result<bool, AllocError> {
    let has = has(alloc, &mut Plain::new(catalog), member, role)?;
    let can = can_set(alloc, &mut Plain::new(catalog), member, role)?;
    Ok((has, can) == want)
}

/// The same by the role's name.
fn are_of(
    catalog: &Catalog,
    alloc: Global,
    member: &Name,
    role: &str,
    want: (bool, bool),
) -> Result<bool, Refusal> {
    let role = Name::new(alloc, role)?;
    let answer = are(catalog, alloc, member, &role, want);
    drop(role);
    Ok(answer?)
}

/// The same by both names.
fn are_by_names(
    catalog: &Catalog,
    alloc: Global,
    member: &str,
    role: &str,
    want: (bool, bool),
) -> Result<bool, Refusal> {
    let member = Name::new(alloc, member)?;
    let answer = are_of(catalog, alloc, &member, role, want);
    drop(member);
    answer
}

/// The same among the crews.
fn are_in_crews(
    alloc: Global,
    member: &str,
    role: &str,
    want: (bool, bool),
) -> Result<bool, Refusal> {
    let catalog = state_with(alloc, &CREWS)?;
    let answer = are_by_names(&catalog, alloc, member, role, want);
    drop(catalog);
    answer
}

/// Who, which role, whether it has its privileges, whether it may set it.
#[test]
fn inherit_and_set_are_told_apart(rt: HostRuntime) {
    let rows = [
        ("bob", "bob", true, true),
        ("bob", "crew", false, true),
        ("bob", "fleet", false, true),
        ("bob", "team", true, false),
        ("crew", "fleet", true, true),
        ("crew", "bob", false, false),
        ("postgres", "team", true, true),
    ];
    for (member, role, inherits, sets) in rows {
        let are = are_in_crews(rt.alloc(), member, role, (inherits, sets));
        assert!(rt; says(are, true), "{member} {role}");
    }
}
