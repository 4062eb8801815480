//! Types of command for which row security lets a role do nothing with a table.

ghost use Rattle.std.specs.Prelude.{◌≡◌, ◌++◌, map, IfOk, OnOk};
ghost use Rattle.std.specs.List.{list_any};
ghost use Rattle.rls_value.specs.Values.{same_flag};
ghost use Rattle.rls_catalog.specs.Verdict as verdict;
ghost use Rattle.rls_expr.specs.Scopes.{in_scope};
ghost use Rattle.rls_lint.specs.Commands as spec;
ghost use Rattle.rls_lint.specs.Findings.{told_of};

use crate::finding::{Finding, Mistake};
use crate::linted::{Linted, applying_of, holds_on, is_bound, privilege_of};
use crate::telling::tell;
use rls_catalog::Side;
use rls_expr::{FromTable, Policy};
use rls_rows::State;
use rls_value::{Items, Kind, Name, Reference};
use std::alloc::{AllocError, Global};

/// Types of command.
#[derive(Clone, Copy, PartialEq, Eq)]
pub struct Commands {
    pub select: bool,
    pub insert: bool,
    pub update: bool,
    pub delete: bool,
}

/// A role, and types of command that are denied to it.
#[derive(Drop)]
pub struct Denied {
    pub role: Name,
    pub commands: Commands,
}

impl Commands {
    fn is_some(self) -> bool
        ensures { result ≡ spec.has_command self }
    {
        self.select || self.insert || self.update || self.delete
    }

    fn is(self, other: Commands) -> bool
        ensures { result ≡ spec.is_same_commands self other }
    {
        is_same_flag(self.select, other.select)
            && is_same_flag(self.insert, other.insert)
            && is_same_flag(self.update, other.update)
            && is_same_flag(self.delete, other.delete)
    }
}

fn is_same_flag(one: bool, other: bool) -> bool
    ensures { result ≡ same_flag one other }
{
    one == other
}

/// Tells of the roles that hold privileges on the table to which no permissive policy applies: none at all or, where `alone`,
/// restrictive ones alone.
pub(crate) fn tell_denied(
    alloc: Global,
    linted: Linted<'_>,
    from: FromTable<'_>,
    alone: bool,
    findings: &mut Items<Finding>,
) -> Result<(), AllocError>
    ensures { OnOk result (findings.new ≡ findings.old ++ told_of (in_scope from.entry) (spec.denied_mistakes alone linted.entry.state.now (in_scope from.entry) linted.entry.users.now)) }
{
    let denied = denied_of(alloc, linted, from, alone)?;
    tell_each(alloc, denied.as_slice(), from, alone, findings)
}

/// Of each role, the types of command for which that is so.
fn denied_of(
    alloc: Global,
    linted: Linted<'_>,
    from: FromTable<'_>,
    alone: bool,
) -> Result<Items<Denied>, AllocError>
    ensures { IfOk result (λ denied. denied ≡ spec.denied_of alone linted.entry.state.now (in_scope from.entry) linted.entry.users.now) }
{
    let mut denied = Items::new(alloc);
    for role in linted.users {
        let commands = denied_commands(alloc, linted.state, from, alone, role)?;
        let role = role.copy()?;
        denied.push(Denied { role, commands })?;
    }
    Ok(denied)
}

fn denied_commands(
    alloc: Global,
    state: &State,
    from: FromTable<'_>,
    alone: bool,
    role: &Name,
) -> Result<Commands, AllocError>
    ensures { IfOk result (λ commands. commands ≡ spec.commands_where (spec.is_denied alone state.now (in_scope from.entry) role.now)) }
{
    Ok(Commands {
        select: is_denied(alloc, state, from, alone, role, Kind::Select)?,
        insert: is_denied(alloc, state, from, alone, role, Kind::Insert)?,
        update: is_denied(alloc, state, from, alone, role, Kind::Update)?,
        delete: is_denied(alloc, state, from, alone, role, Kind::Delete)?,
    })
}

fn is_denied(
    alloc: Global,
    state: &State,
    from: FromTable<'_>,
    alone: bool,
    role: &Name,
    kind: Kind,
) -> Result<bool, AllocError>
    ensures { IfOk result (λ denied. denied ≡ spec.is_denied alone state.now (in_scope from.entry) role.now kind) }
{
    if !is_bound(alloc, state, role, from)? {
        return Ok(false);
    }
    if !holds_on(alloc, state, role, privilege_of(kind), from.name)? {
        return Ok(false);
    }
    is_denied_by(alloc, state, from, alone, role, kind)
}

/// Whether none of the policies that apply is permissive.
fn is_denied_by(
    alloc: Global,
    state: &State,
    from: FromTable<'_>,
    alone: bool,
    role: &Name,
    kind: Kind,
) -> Result<bool, AllocError>
    ensures { IfOk result (λ denied. denied ≡ spec.is_denying alone (verdict.applying_of state.now role.now from.entry.name.now kind (spec.side_of kind))) }
{
    let policies = applying_of(alloc, state, role, from.name, kind, side_of(kind))?;
    Ok(
        !has_permissive(policies.as_slice())
            && is_same_flag(has_policies(policies.as_slice()), alone),
    )
}

/// The rows that policies are asked about first.
fn side_of(kind: Kind) -> Side
    ensures { result ≡ spec.side_of kind }
{
    match kind {
        Kind::Select | Kind::Update | Kind::Delete => Side::Old,
        Kind::Insert => Side::New,
    }
}

/// Whether one of the policies is permissive.
pub(crate) fn has_permissive(policies: &[Reference<'_, Policy>]) -> bool
    ensures { result ≡ spec.has_permissive policies.now }
{
    policies.iter().any(|policy| policy.get().permissive)
}

fn has_policies(policies: &[Reference<'_, Policy>]) -> bool
    ensures { result ≡ spec.has_policies policies.now }
{
    policies.iter().any(|_| true)
}

/// A line for each set of types of command that is denied to some role.
fn tell_each(
    alloc: Global,
    denied: &[Denied],
    from: FromTable<'_>,
    alone: bool,
    findings: &mut Items<Finding>,
) -> Result<(), AllocError>
    ensures { OnOk result (findings.new ≡ findings.old ++ told_of (in_scope from.entry) (map (λ commands. Mistake.Denied alone (spec.roles_with commands denied.now) commands) (spec.sets_of denied.now))) }
{
    let sets = sets_of(alloc, denied)?;
    for commands in sets.as_slice() {
        let roles = roles_with(alloc, *commands, denied)?;
        tell(from, Mistake::Denied(alone, roles, *commands), findings)?;
    }
    Ok(())
}

/// The sets, in the order of the first of their roles.
fn sets_of(alloc: Global, denied: &[Denied]) -> Result<Items<Commands>, AllocError>
    ensures { IfOk result (λ sets. sets ≡ spec.sets_of denied.now) }
{
    let mut sets = Items::new(alloc);
    for it in denied {
        put_set(&mut sets, it)?;
    }
    Ok(sets)
}

fn put_set(sets: &mut Items<Commands>, it: &Denied) -> Result<(), AllocError>
    ensures { OnOk result (sets.new ≡ spec.with_commands sets.old it.now) }
{
    if it.commands.is_some() && !is_among(sets.as_slice(), it.commands) {
        sets.push(it.commands)?;
    }
    Ok(())
}

fn is_among(sets: &[Commands], commands: Commands) -> bool
    ensures { result ≡ list_any (spec.is_same_commands commands) sets.now }
{
    sets.iter().any(|set| commands.is(*set))
}

/// The roles that have just that set.
fn roles_with(
    alloc: Global,
    commands: Commands,
    denied: &[Denied],
) -> Result<Items<Name>, AllocError>
    ensures { IfOk result (λ roles. roles ≡ spec.roles_with commands denied.now) }
{
    let mut roles = Items::new(alloc);
    for it in denied {
        if it.commands.is(commands) {
            roles.push(it.role.copy()?)?;
        }
    }
    Ok(roles)
}
