//! What a role may do by the contents of a state: privileges, grant options, policies that apply (PostgreSQL manual, 5.7, 5.8).

use crate::states::{Stands, put, put_all};
use rls_catalog::{Catalog, Change, Grant, Grants, with_policy};
use rls_expr::{Expr, Grantee, Node, Policy, TableDef};
use rls_grant::{holds, option};
use rls_policy::{Side, applying};
use rls_source::Plain;
use rls_value::{Items, Kind, Name, PolicyKind, Privilege, Refusal, or_drop};
use shared_map::{Share, SharedList};
use std::alloc::Global;

/// A table of `c` with row security.
fn guarded(alloc: Global) -> Result<TableDef, Refusal> {
    Ok(TableDef {
        owner: Name::new(alloc, "c")?,
        enabled: true,
        forced: false,
        columns: Items::new(alloc),
        key: Items::new(alloc),
    })
}

fn put_table(catalog: &mut Catalog, alloc: Global) -> Result<(), Refusal> {
    let def = guarded(alloc)?;
    match Name::new(alloc, "t") {
        Ok(name) => put(catalog, alloc, Change::Table(name, def)),
        Err(refusal) => {
            drop(def);
            Err(refusal)
        }
    }
}

/// SELECT for `b`, by `c`, with its option.
fn select_for_b(alloc: Global) -> Result<Grant, Refusal> {
    let grantee = Name::new(alloc, "b")?;
    match Name::new(alloc, "c") {
        Ok(grantor) => Ok(Grant {
            privilege: Privilege::Select,
            grantee: Grantee::Role(grantee),
            grantor,
            option: true,
            column: None,
            place: 0,
        }),
        Err(refusal) => {
            drop(grantee);
            Err(refusal)
        }
    }
}

fn put_grant(catalog: &mut Catalog, alloc: Global) -> Result<(), Refusal> {
    let mut grants = Grants::new();
    grants.put(alloc, select_for_b(alloc)?)?;
    match Name::new(alloc, "t") {
        Ok(name) => put(catalog, alloc, Change::Grants(name, grants)),
        Err(refusal) => {
            drop(grants);
            Err(refusal)
        }
    }
}

/// A policy `p` for SELECT, TO PUBLIC, with something for USING.
fn policy(alloc: Global) -> Result<Policy, Refusal> {
    let mut to = Items::new(alloc);
    to.push(Grantee::Public)?;
    let using = or_drop!(Share::new(alloc, Expr::new(Node::CurrentUser)), to);
    let name = or_drop!(Name::new(alloc, "p"), to, using);
    Ok(Policy {
        name,
        permissive: true,
        kind: PolicyKind::Only(Kind::Select),
        to,
        using: Some(using),
        check: None,
    })
}

fn put_policy(catalog: &mut Catalog, alloc: Global) -> Result<(), Refusal> {
    let only = policy(alloc)?;
    let list = with_policy(alloc, &SharedList::new(), only)?;
    match Name::new(alloc, "t") {
        Ok(name) => put(catalog, alloc, Change::Policies(name, list)),
        Err(refusal) => {
            drop(list);
            Err(refusal)
        }
    }
}

/// `a` is a member of `b`.
const ROLES: [Stands<'static>; 4] = [
    Stands::Role("a", false),
    Stands::Role("b", false),
    Stands::Role("c", false),
    Stands::Members("a", &[("b", true, true)]),
];

/// `a` is a member of `b`; `c` owns `t`, and granted `b` SELECT with its option; `t` has a policy for SELECT.
fn small(catalog: &mut Catalog, alloc: Global) -> Result<(), Refusal> {
    put_all(catalog, alloc, &ROLES)?;
    put_table(catalog, alloc)?;
    put_grant(catalog, alloc)?;
    put_policy(catalog, alloc)
}

/// What is asked of the small state.
#[derive(Clone, Copy)]
enum Ask {
    /// 1 where the role holds the privilege on the table.
    Holds(Privilege),
    /// How many hold the grant option.
    Optioned(Privilege),
    /// How many policies apply to the role, for rows as they stand.
    Applying(Kind),
}

fn number(alloc: Global, ask: Ask, role: &str, table: &str) -> Result<usize, Refusal> {
    let mut catalog = Catalog::new(alloc)?;
    let told = match small(&mut catalog, alloc) {
        Ok(()) => told(alloc, &catalog, ask, role, table),
        Err(refusal) => Err(refusal),
    };
    drop(catalog);
    told
}

fn told(
    alloc: Global,
    catalog: &Catalog,
    ask: Ask,
    role: &str,
    table: &str,
) -> Result<usize, Refusal> {
    let role = Name::new(alloc, role)?;
    let told = told_of(alloc, catalog, ask, &role, table);
    drop(role);
    told
}

fn told_of(
    alloc: Global,
    catalog: &Catalog,
    ask: Ask,
    role: &Name,
    table: &str,
) -> Result<usize, Refusal> {
    let table = Name::new(alloc, table)?;
    let told = match ask {
        Ask::Holds(privilege) => held(alloc, catalog, role, &table, privilege),
        Ask::Optioned(privilege) => optioned(alloc, catalog, &table, privilege),
        Ask::Applying(kind) => applied(alloc, catalog, role, &table, kind),
    };
    drop(table);
    told
}

fn held(
    alloc: Global,
    catalog: &Catalog,
    role: &Name,
    table: &Name,
    privilege: Privilege,
) -> Result<usize, Refusal> {
    if holds(alloc, &mut Plain::new(catalog), role, privilege, table)? {
        Ok(1)
    } else {
        Ok(0)
    }
}

fn optioned(
    alloc: Global,
    catalog: &Catalog,
    table: &Name,
    privilege: Privilege,
) -> Result<usize, Refusal> {
    let holders = option(alloc, &mut Plain::new(catalog), table, privilege)?;
    Ok(holders.len())
}

fn applied(
    alloc: Global,
    catalog: &Catalog,
    role: &Name,
    table: &Name,
    kind: Kind,
) -> Result<usize, Refusal> {
    let policies = applying(
        alloc,
        &mut Plain::new(catalog),
        role,
        table,
        kind,
        Side::Old,
    )?;
    Ok(policies.as_slice().len())
}

fn is_number(alloc: Global, ask: Ask, role: &str, table: &str, want: usize) -> bool {
    match number(alloc, ask, role, table) {
        Ok(told) => told == want,
        Err(refusal) => {
            drop(refusal);
            false
        }
    }
}

/// A grant serves those who inherit from its grantee, and the owner's option passes on by a grant with option; a policy is
/// asked of whoever doesn't own the table, for its own type of command.
#[test]
fn small_state_says_who_may(rt: HostRuntime) {
    let rows = [
        (Ask::Holds(Privilege::Select), "a", "t", 1),
        (Ask::Holds(Privilege::Insert), "a", "t", 0),
        (Ask::Holds(Privilege::Select), "c", "t", 0),
        (Ask::Holds(Privilege::Delete), "postgres", "u", 1),
        (Ask::Optioned(Privilege::Select), "a", "t", 2),
        (Ask::Optioned(Privilege::Insert), "a", "t", 1),
        (Ask::Optioned(Privilege::Select), "a", "u", 0),
        (Ask::Applying(Kind::Select), "a", "t", 1),
        (Ask::Applying(Kind::Delete), "a", "t", 0),
        (Ask::Applying(Kind::Select), "c", "t", 0),
        (Ask::Applying(Kind::Select), "a", "u", 0),
    ];
    for (ask, role, table, want) in rows {
        assert!(rt;
            is_number(rt.alloc(), ask, role, table, want),
            "{role} on {table}: {want}"
        );
    }
}
