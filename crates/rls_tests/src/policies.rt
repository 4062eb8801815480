//! Row security by worked examples (PostgreSQL manual, 5.8 and CREATE POLICY).

use crate::states::{Stands, put_all, says, state_with};
use rls_catalog::{Catalog, Policies, Verdict, with_policy, with_replaced, without_policy};
use rls_expr::{Policy, TableDef};
use rls_policy::{Judgement, combine, is_exempt};
use rls_source::Plain;
use rls_value::{Items, Name, PolicyKind, Reference, Refusal, Truth};
use shared_map::SharedList;
use std::alloc::{AllocError, Global};

fn policy(alloc: Global, name: &str, permissive: bool) -> Result<Policy, Refusal> {
    Ok(Policy {
        name: Name::new(alloc, name)?,
        permissive,
        kind: PolicyKind::All,
        to: Items::new(alloc),
        using: None,
        check: None,
    })
}

/// Whether a permissive policy `p` and a restrictive one `r` say it together, by what each says.
fn both_say(alloc: Global, p: Truth, r: Truth, want: &str) -> Result<bool, Refusal> {
    let permissive = policy(alloc, "p", true)?;
    match policy(alloc, "r", false) {
        Ok(restrictive) => {
            let said = say_both(&permissive, p, &restrictive, r, want);
            drop(restrictive);
            drop(permissive);
            Ok(said?)
        }
        Err(refusal) => {
            drop(permissive);
            Err(refusal)
        }
    }
}

fn say_both<'a>(
    permissive: &'a Policy,
    p: Truth,
    restrictive: &'a Policy,
    r: Truth,
    want: &str,
) -> Result<bool, AllocError> {
    let judgements = [
        (Reference::new(permissive), p),
        (Reference::new(restrictive), r),
    ];
    say(&judgements, want)
}

/// Whether a restrictive policy alone says it, where it passes.
fn restrictive_says(alloc: Global, want: &str) -> Result<bool, Refusal> {
    let restrictive = policy(alloc, "r", false)?;
    let said = say(&[(Reference::new(&restrictive), Truth::True)], want);
    drop(restrictive);
    Ok(said?)
}

fn say(judgements: &[Judgement<'_>], want: &str) -> Result<bool, AllocError> {
    let verdict = combine(judgements)?;
    let is = named(&verdict) == want;
    drop(verdict);
    Ok(is)
}

fn named(verdict: &Verdict) -> &str {
    match verdict {
        Verdict::Exempt => "exempt",
        Verdict::By(policy) => policy.as_str(),
        Verdict::NoPermissive => "no permissive policy",
        Verdict::Restrictive(policy) => policy.as_str(),
    }
}

/// Only what is true passes, for both, and no permissive policy comes first.
#[test]
fn null_passes_no_policy(rt: HostRuntime) {
    let rows = [
        (Truth::True, Truth::True, "p"),
        (Truth::True, Truth::Unknown, "r"),
        (Truth::True, Truth::False, "r"),
        (Truth::Unknown, Truth::True, "no permissive policy"),
        (Truth::Unknown, Truth::False, "no permissive policy"),
    ];
    for (p, r, want) in rows {
        assert!(rt;
            says(both_say(rt.alloc(), p, r, want), true),
            "{p:?} and {r:?}"
        );
    }
}

#[test]
fn restrictive_policy_alone_denies(rt: HostRuntime) {
    assert!(rt; says(restrictive_says(rt.alloc(), "no permissive policy"), true));
}

/// A list of one policy.
fn one_policy(alloc: Global, name: &str) -> Result<Policies, Refusal> {
    let only = policy(alloc, name, true)?;
    Ok(with_policy(alloc, &SharedList::new(), only)?)
}

fn left_without(alloc: Global, list: &Policies, name: &str) -> Result<usize, Refusal> {
    let name = Name::new(alloc, name)?;
    let left = without_policy(alloc, list, &name)?;
    Ok(left.len())
}

/// How many policies are left after one is exchanged and one taken away.
fn left_after(alloc: Global, list: &Policies, name: &str) -> Result<usize, Refusal> {
    let other = policy(alloc, name, false)?;
    let exchanged = with_replaced(alloc, list, other)?;
    left_without(alloc, &exchanged, name)
}

/// Whether a list has one policy, and none once that is exchanged and taken away.
fn is_put_and_taken(alloc: Global, name: &str) -> Result<bool, Refusal> {
    let list = one_policy(alloc, name)?;
    let has_one = list.len() == 1;
    let left = left_after(alloc, &list, name)?;
    Ok(has_one && left == 0)
}

#[test]
fn policy_is_put_exchanged_and_taken_away(rt: HostRuntime) {
    assert!(rt; says(is_put_and_taken(rt.alloc(), "p"), true));
}

/// A table of `c`.
fn table(alloc: Global, forced: bool) -> Result<TableDef, Refusal> {
    Ok(TableDef {
        owner: Name::new(alloc, "c")?,
        enabled: true,
        forced,
        columns: Items::new(alloc),
        key: Items::new(alloc),
    })
}

/// Whether the role is exempt on the table of `c`.
fn exempts(catalog: &Catalog, alloc: Global, role: &str, forced: bool) -> Result<bool, Refusal> {
    let table = table(alloc, forced)?;
    let exempt = exempts_on(catalog, alloc, role, &table);
    drop(table);
    exempt
}

fn exempts_on(
    catalog: &Catalog,
    alloc: Global,
    role: &str,
    table: &TableDef,
) -> Result<bool, Refusal> {
    let role = Name::new(alloc, role)?;
    let exempt = is_exempt(alloc, &mut Plain::new(catalog), &role, table);
    drop(role);
    Ok(exempt?)
}

/// The same where `a` is a member of `b`, which has BYPASSRLS or not, and `b` of `c`, with INHERIT or not.
fn exempts_by_chain(
    alloc: Global,
    bypass_rls: bool,
    inherit: bool,
    role: &str,
    forced: bool,
) -> Result<bool, Refusal> {
    let in_b = [("b", true, true)];
    let in_c = [("c", inherit, true)];
    let chain = [
        Stands::Role("a", false),
        Stands::Role("b", bypass_rls),
        Stands::Role("c", false),
        Stands::Members("a", &in_b),
        Stands::Members("b", &in_c),
    ];
    let catalog = state_with(alloc, &chain)?;
    let exempt = exempts(&catalog, alloc, role, forced);
    drop(catalog);
    exempt
}

/// Whether `b` has BYPASSRLS, whether it inherits from `c`, the role that asks, FORCE, and whether it is exempt.
#[test]
fn exemption_follows_ownership_and_nothing_else(rt: HostRuntime) {
    let rows = [
        (false, true, "a", false, true),
        (false, false, "a", false, false),
        (true, false, "b", false, true),
        (true, false, "a", false, false),
        (true, true, "b", true, true),
        (true, true, "a", true, false),
        (false, true, "c", false, true),
        (false, true, "c", true, false),
    ];
    for (bypass_rls, inherit, role, forced, want) in rows {
        let exempt = exempts_by_chain(rt.alloc(), bypass_rls, inherit, role, forced);
        assert!(rt;
            says(exempt, want),
            "{role} with {bypass_rls} {inherit} {forced}"
        );
    }
}

/// The role of a number, and its membership in the one of the next number, with INHERIT or not.
fn add_link(
    catalog: &mut Catalog,
    alloc: Global,
    n: u32,
    next: u32,
    inherit: bool,
) -> Result<(), Refusal> {
    let role = format!(in alloc; "r{n}")?;
    let added = add_linked(catalog, alloc, role.as_str(), next, inherit);
    drop(role);
    added
}

fn add_linked(
    catalog: &mut Catalog,
    alloc: Global,
    role: &str,
    next: u32,
    inherit: bool,
) -> Result<(), Refusal> {
    let next = format!(in alloc; "r{next}")?;
    let added = put_all(
        catalog,
        alloc,
        &[
            Stands::Role(role, false),
            Stands::Members(role, &[(next.as_str(), inherit, true)]),
        ],
    );
    drop(next);
    added
}

/// A chain of a thousand roles from `r0` up to `c`; the membership of the role numbered `broken` is without INHERIT.
fn long_chain(catalog: &mut Catalog, alloc: Global, broken: u32) -> Result<(), Refusal> {
    for n in 0..1000 {
        add_link(catalog, alloc, n, n + 1, n != broken)?;
    }
    put_all(
        catalog,
        alloc,
        &[
            Stands::Role("r1000", false),
            Stands::Members("r1000", &[("c", true, true)]),
            Stands::Role("c", false),
        ],
    )
}

/// Whether the first of the long chain is exempt on the table of `c`.
fn exempts_by_long_chain(alloc: Global, broken: u32) -> Result<bool, Refusal> {
    let mut catalog = Catalog::new(alloc)?;
    let exempt = match long_chain(&mut catalog, alloc, broken) {
        Ok(()) => exempts(&catalog, alloc, "r0", false),
        Err(refusal) => Err(refusal),
    };
    drop(catalog);
    exempt
}

#[test]
fn chain_of_a_thousand_roles_is_walked(rt: HostRuntime) {
    for (broken, want) in [(5000, true), (500, false)] {
        assert!(rt;
            says(exempts_by_long_chain(rt.alloc(), broken), want),
            "{broken}"
        );
    }
}
