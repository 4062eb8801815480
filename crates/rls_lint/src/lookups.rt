//! Policies that read a table, for roles that may not read it, or may read all of it, or are shown none of it.

ghost use Rattle.std.specs.Prelude.{◌≡◌, ◌++◌, filter, map, IfOk, OnOk};
ghost use Rattle.std.specs.List.{flat_map, list_any};
ghost use Rattle.std.specs.Option.{option_copied, option_to_list};
ghost use Rattle.rls_expr.specs.Scopes.{in_scope};
ghost use Rattle.rls_catalog.specs.Verdict as verdict;
ghost use Rattle.rls_lint.specs.Findings.{told_of};
ghost use Rattle.rls_lint.specs.Lookups as spec;

use crate::commands::has_permissive;
use crate::finding::{Finding, Lookup, Mistake};
use crate::linted::{
    Linted, applying_of, holds_on, is_bound, is_for, lacks_select, policies_of, privilege_of,
};
use crate::telling::{has_role, tell};
use rls_catalog::Side;
use rls_expr::{Expr, FromTable, NamedTable, Policy, SelectedTable, put_selected};
use rls_meaning::rls_guard::rls_policy::expression_of;
use rls_meaning::rls_guard::{PolicyScope, condition_of};
use rls_rows::State;
use rls_value::{Items, Kind, Name, PolicyKind, Privilege};
use std::alloc::{AllocError, Global};

/// That a policy reads a table for a type of command: a subquery is on it and mentions these of its columns.
#[derive(Drop)]
pub struct Reading {
    pub kind: Kind,
    pub table: Name,
    pub columns: Items<Name>,
}

/// Tells of the policies of the table that read one, for which that is wrong.
pub(crate) fn tell_lookups<'x>(
    alloc: Global,
    linted: Linted<'x>,
    from: FromTable<'x>,
    how: Lookup,
    findings: &mut Items<Finding>,
) -> Result<(), AllocError>
    ensures { OnOk result (findings.new ≡ findings.old ++ told_of (in_scope from.entry) (spec.lookup_mistakes how linted.entry.state.now (in_scope from.entry) linted.entry.users.now linted.entry.tables.now)) }
{
    let policies = policies_of(alloc, linted.state, from.name)?;
    for policy in policies.iter() {
        tell_of_policy(alloc, linted, from, how, policy.get(), findings)?;
    }
    Ok(())
}

fn tell_of_policy<'x>(
    alloc: Global,
    linted: Linted<'x>,
    from: FromTable<'x>,
    how: Lookup,
    policy: &Policy,
    findings: &mut Items<Finding>,
) -> Result<(), AllocError>
    ensures { OnOk result (findings.new ≡ findings.old ++ told_of (in_scope from.entry) (spec.policy_lookups how linted.entry.state.now (in_scope from.entry) linted.entry.users.now linted.entry.tables.now policy.now)) }
{
    let readings = readings_of(alloc, linted.tables, from, policy)?;
    tell_of_readings(
        alloc,
        linted,
        from,
        how,
        policy,
        readings.as_slice(),
        findings,
    )
}

fn tell_of_readings<'x>(
    alloc: Global,
    linted: Linted<'x>,
    from: FromTable<'x>,
    how: Lookup,
    policy: &Policy,
    readings: &[Reading],
    findings: &mut Items<Finding>,
) -> Result<(), AllocError>
    ensures { OnOk result (findings.new ≡ findings.old ++ told_of (in_scope from.entry) (flat_map (spec.lookup_of how linted.entry.state.now (in_scope from.entry) linted.entry.users.now policy.now readings.now) linted.entry.tables.now)) }
{
    for other in linted.tables {
        tell_of_table(
            alloc,
            linted,
            from,
            how,
            policy,
            readings,
            other.as_from(),
            findings,
        )?;
    }
    Ok(())
}

fn tell_of_table(
    alloc: Global,
    linted: Linted<'_>,
    from: FromTable<'_>,
    how: Lookup,
    policy: &Policy,
    readings: &[Reading],
    other: FromTable<'_>,
    findings: &mut Items<Finding>,
) -> Result<(), AllocError>
    ensures { OnOk result (findings.new ≡ findings.old ++ told_of (in_scope from.entry) (spec.lookup_of how linted.entry.state.now (in_scope from.entry) linted.entry.users.now policy.now readings.now (in_scope other.entry))) }
{
    let roles = misled_of(alloc, linted, from, how, policy, readings, other)?;
    if !has_role(roles.as_slice()) {
        return Ok(());
    }
    match names_of(policy, other) {
        Ok((policy, table)) => tell(from, Mistake::Lookup(how, policy, table, roles), findings),
        Err(refused) => {
            drop(roles);
            Err(refused)
        }
    }
}

fn names_of(policy: &Policy, other: FromTable<'_>) -> Result<(Name, Name), AllocError>
    ensures { IfOk result (λ names. names ≡ (policy.now.name, other.entry.name.now)) }
{
    let name = policy.name.copy()?;
    match other.name.copy() {
        Ok(table) => Ok((name, table)),
        Err(refused) => {
            drop(name);
            Err(refused)
        }
    }
}

/// The roles for which the policy reads the other table, and for which that is wrong.
fn misled_of(
    alloc: Global,
    linted: Linted<'_>,
    from: FromTable<'_>,
    how: Lookup,
    policy: &Policy,
    readings: &[Reading],
    other: FromTable<'_>,
) -> Result<Items<Name>, AllocError>
    ensures { IfOk result (λ roles. roles ≡ filter (spec.is_misled how linted.entry.state.now (in_scope from.entry) policy.now readings.now (in_scope other.entry)) linted.entry.users.now) }
{
    let mut roles = Items::new(alloc);
    for role in linted.users {
        if is_misled(
            alloc,
            linted.state,
            from,
            how,
            policy,
            readings,
            other,
            role,
        )? {
            roles.push(role.copy()?)?;
        }
    }
    Ok(roles)
}

#[tactic(auto, unfolding(crate::specs::Lookups::is_misled))]
fn is_misled(
    alloc: Global,
    state: &State,
    from: FromTable<'_>,
    how: Lookup,
    policy: &Policy,
    readings: &[Reading],
    other: FromTable<'_>,
    role: &Name,
) -> Result<bool, AllocError>
    ensures { IfOk result (λ misled. misled ≡ spec.is_misled how state.now (in_scope from.entry) policy.now readings.now (in_scope other.entry) role.now) }
{
    if !reads_wrongly(alloc, state, from, how, readings, other, role)? {
        return Ok(false);
    }
    if !is_bound(alloc, state, role, from)? {
        return Ok(false);
    }
    is_for(alloc, state, role, policy)
}

/// Whether one of these is of the other table, for a type of command whose privilege the role holds, and wrong for it.
fn reads_wrongly(
    alloc: Global,
    state: &State,
    from: FromTable<'_>,
    how: Lookup,
    readings: &[Reading],
    other: FromTable<'_>,
    role: &Name,
) -> Result<bool, AllocError>
    ensures { IfOk result (λ wrongly. wrongly ≡ list_any (spec.is_wrong_reading how state.now (in_scope from.entry) (in_scope other.entry) role.now) readings.now) }
{
    for reading in readings {
        if is_wrong_reading(alloc, state, from, how, reading, other, role)? {
            return Ok(true);
        }
    }
    Ok(false)
}

fn is_wrong_reading(
    alloc: Global,
    state: &State,
    from: FromTable<'_>,
    how: Lookup,
    reading: &Reading,
    other: FromTable<'_>,
    role: &Name,
) -> Result<bool, AllocError>
    ensures { IfOk result (λ wrong. wrong ≡ spec.is_wrong_reading how state.now (in_scope from.entry) (in_scope other.entry) role.now reading.now) }
{
    if !reading.table.is(other.name) {
        return Ok(false);
    }
    if !holds_on(alloc, state, role, privilege_of(reading.kind), from.name)? {
        return Ok(false);
    }
    is_wrong(alloc, state, from, how, reading, other, role)
}

/// Whether that is wrong for the role.
fn is_wrong(
    alloc: Global,
    state: &State,
    from: FromTable<'_>,
    how: Lookup,
    reading: &Reading,
    other: FromTable<'_>,
    role: &Name,
) -> Result<bool, AllocError>
    ensures { IfOk result (λ wrong. wrong ≡ spec.is_wrong how state.now (in_scope from.entry) (in_scope other.entry) role.now reading.now) }
{
    match how {
        Lookup::Unreadable => {
            lacks_select(alloc, state, role, other.name, reading.columns.as_slice())
        }
        Lookup::Open => is_open(alloc, state, from, other, role),
        Lookup::Blind => is_blind(alloc, state, other, role),
    }
}

fn is_open(
    alloc: Global,
    state: &State,
    from: FromTable<'_>,
    other: FromTable<'_>,
    role: &Name,
) -> Result<bool, AllocError>
    ensures { IfOk result (λ is. is ≡ spec.is_open state.now (in_scope from.entry) (in_scope other.entry) role.now) }
{
    if !holds_on(alloc, state, role, Privilege::Select, other.name)? {
        return Ok(false);
    }
    Ok(!other.table.enabled && !other.name.is(from.name))
}

fn is_blind(
    alloc: Global,
    state: &State,
    other: FromTable<'_>,
    role: &Name,
) -> Result<bool, AllocError>
    ensures { IfOk result (λ is. is ≡ spec.is_blind state.now (in_scope other.entry) role.now) }
{
    if !is_bound(alloc, state, role, other)? {
        return Ok(false);
    }
    let policies = applying_of(alloc, state, role, other.name, Kind::Select, Side::Old)?;
    Ok(!has_permissive(policies.as_slice()))
}

/// How the policy reads tables, for each type of command.
fn readings_of<'x>(
    alloc: Global,
    tables: &'x [NamedTable<'x>],
    from: FromTable<'x>,
    policy: &Policy,
) -> Result<Items<Reading>, AllocError>
    ensures { IfOk result (λ readings. readings ≡ spec.readings_of tables.now (in_scope from.entry) policy.now) }
{
    let mut readings = Items::new(alloc);
    put_readings(alloc, tables, from, policy, Kind::Select, &mut readings)?;
    put_readings(alloc, tables, from, policy, Kind::Insert, &mut readings)?;
    put_readings(alloc, tables, from, policy, Kind::Update, &mut readings)?;
    put_readings(alloc, tables, from, policy, Kind::Delete, &mut readings)?;
    Ok(readings)
}

fn put_readings<'x>(
    alloc: Global,
    tables: &'x [NamedTable<'x>],
    from: FromTable<'x>,
    policy: &Policy,
    kind: Kind,
    readings: &mut Items<Reading>,
) -> Result<(), AllocError>
    ensures { OnOk result (readings.new ≡ readings.old ++ spec.readings_for tables.now (in_scope from.entry) policy.now kind) }
{
    let selected = selected_for(alloc, tables, from, policy, kind)?;
    put_each(alloc, kind, selected.as_slice(), readings)
}

fn put_each(
    alloc: Global,
    kind: Kind,
    selected: &[SelectedTable],
    readings: &mut Items<Reading>,
) -> Result<(), AllocError>
    ensures { OnOk result (readings.new ≡ readings.old ++ map (spec.reading_of kind) selected.now) }
{
    for one in selected {
        readings.push(reading_of(alloc, kind, one)?)?;
    }
    Ok(())
}

fn reading_of(alloc: Global, kind: Kind, one: &SelectedTable) -> Result<Reading, AllocError>
    ensures { IfOk result (λ reading. reading ≡ spec.reading_of kind one.now) }
{
    let SelectedTable { table, columns } = one.copy(alloc)?;
    Ok(Reading {
        kind,
        table,
        columns,
    })
}

/// The tables of the subqueries in what the policy is asked for a type of command: of rows as they stand, then of new ones.
fn selected_for<'x>(
    alloc: Global,
    tables: &'x [NamedTable<'x>],
    from: FromTable<'x>,
    policy: &Policy,
    kind: Kind,
) -> Result<Items<SelectedTable>, AllocError>
    ensures { IfOk result (λ selected. selected ≡ spec.selected_for tables.now (in_scope from.entry) policy.now kind) }
{
    let mut selected = Items::new(alloc);
    if is_for_kind(policy.kind, kind) {
        let old = expression_of(policy, kind, Side::Old);
        put_selected_in(alloc, tables, from, old, &mut selected)?;
        let new = expression_of(policy, kind, Side::New);
        put_selected_in(alloc, tables, from, new, &mut selected)?;
    }
    Ok(selected)
}

fn put_selected_in<'x>(
    alloc: Global,
    tables: &'x [NamedTable<'x>],
    from: FromTable<'x>,
    expr: Option<&Expr>,
    selected: &mut Items<SelectedTable>,
) -> Result<(), AllocError>
    ensures { OnOk result (selected.new ≡ selected.old ++ flat_map (spec.selected_by tables.now (in_scope from.entry)) (option_to_list (option_copied expr.entry))) }
{
    match expr {
        Some(expr) => put_selected_by(alloc, tables, from, expr, selected),
        None => Ok(()),
    }
}

fn put_selected_by<'x>(
    alloc: Global,
    tables: &'x [NamedTable<'x>],
    from: FromTable<'x>,
    expr: &Expr,
    selected: &mut Items<SelectedTable>,
) -> Result<(), AllocError>
    ensures { OnOk result (selected.new ≡ selected.old ++ spec.selected_by tables.now (in_scope from.entry) expr.now) }
{
    let scope = PolicyScope {
        from,
        found: tables,
    };
    let resolved = condition_of(alloc, expr, scope)?;
    let put = put_selected(alloc, selected, tables, &resolved);
    drop(resolved);
    put
}

fn is_for_kind(policy: PolicyKind, kind: Kind) -> bool
    ensures { result ≡ verdict.is_for_kind policy kind }
{
    match (policy, kind) {
        (PolicyKind::All, _)
        | (PolicyKind::Only(Kind::Select), Kind::Select)
        | (PolicyKind::Only(Kind::Insert), Kind::Insert)
        | (PolicyKind::Only(Kind::Update), Kind::Update)
        | (PolicyKind::Only(Kind::Delete), Kind::Delete) => true,
        (PolicyKind::Only(_), _) => false,
    }
}
