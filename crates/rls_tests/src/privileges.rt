//! Grant options by a worked example (PostgreSQL manual, REVOKE).

use rls_catalog::{Grant, Grants};
use rls_expr::Grantee;
use rls_grant::options;
use rls_value::{Name, Privilege, Refusal};
use std::alloc::Global;

/// A grant of SELECT with its option.
fn granted(alloc: Global, grantor: &str, grantee: &str) -> Result<Grant, Refusal> {
    let grantee = Name::new(alloc, grantee)?;
    match Name::new(alloc, grantor) {
        Ok(grantor) => Ok(Grant {
            privilege: Privilege::Select,
            grantee: Grantee::Role(grantee),
            grantor,
            option: true,
            column: None,
            place: 0,
        }),
        Err(refusal) => {
            drop(grantee);
            Err(refusal)
        }
    }
}

fn add_grant(
    grants: &mut Grants,
    alloc: Global,
    grantor: &str,
    grantee: &str,
) -> Result<(), Refusal> {
    let grant = granted(alloc, grantor, grantee)?;
    grants.put(alloc, grant)?;
    Ok(())
}

fn add_grants(grants: &mut Grants, alloc: Global, pairs: &[(&str, &str)]) -> Result<(), Refusal> {
    for (grantor, grantee) in pairs {
        add_grant(grants, alloc, grantor, grantee)?;
    }
    Ok(())
}

/// How many hold the option on a table of `o`.
fn count_holders(alloc: Global, grants: &Grants) -> Result<usize, Refusal> {
    let owner = Name::new(alloc, "o")?;
    let held = options(alloc, &owner, grants, Privilege::Select);
    drop(owner);
    let held = held?;
    Ok(held.len())
}

fn count_of(grants: &mut Grants, alloc: Global, pairs: &[(&str, &str)]) -> Result<usize, Refusal> {
    add_grants(grants, alloc, pairs)?;
    count_holders(alloc, grants)
}

/// How many hold the option on a table of `o`, by grantor and grantee of each grant.
fn holders(alloc: Global, pairs: &[(&str, &str)]) -> Result<usize, Refusal> {
    let mut grants = Grants::new();
    let held = count_of(&mut grants, alloc, pairs);
    drop(grants);
    held
}

/// Whether so many hold it.
fn are_held(alloc: Global, pairs: &[(&str, &str)], want: usize) -> bool {
    match holders(alloc, pairs) {
        Ok(held) => held == want,
        Err(refusal) => {
            drop(refusal);
            false
        }
    }
}

/// Two that granted it to each other hold it by the owner's grant, and without that neither does.
#[test]
fn circle_of_grant_options_needs_the_owner(rt: HostRuntime) {
    let circle = [("a", "b"), ("b", "a")];
    assert!(rt; are_held(rt.alloc(), &circle, 1));
    let rooted = [("a", "b"), ("b", "a"), ("o", "a")];
    assert!(rt; are_held(rt.alloc(), &rooted, 3));
}
