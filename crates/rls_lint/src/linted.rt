//! What is looked at for mistakes: a state, and the roles and the tables that it has.

ghost use Rattle.std.specs.Prelude.{◌≡◌, is_some, IfOk};
ghost use Rattle.std.specs.List.{list_any};
ghost use Rattle.rls_catalog.specs.Membership.{attributes_of, has_privileges_of};
ghost use Rattle.rls_catalog.specs.Paths as paths;
ghost use Rattle.rls_catalog.specs.Privileges as privileges;
ghost use Rattle.rls_catalog.specs.State.{policies_of};
ghost use Rattle.rls_catalog.specs.Verdict as verdict;
ghost use Rattle.rls_expr.specs.Scopes.{in_scope};
ghost use Rattle.rls_value.specs.Giving.{Gives};
ghost use Rattle.rls_meaning.specs.Commands as meaning;
ghost use Rattle.rls_meaning.specs.Commands.{closing_in};
ghost use Rattle.rls_meaning.specs.Expanding.{expansion_in};
ghost use Rattle.rls_lint.specs.Loops.{command_of};
ghost use Rattle.rls_lint.specs.Users as users;

use rls_catalog::{Policies, RoleDef, Side};
use rls_expr::{FromTable, Grantee, NamedTable, Policy};
use rls_meaning::expansion_means;
use rls_meaning::rls_expansion::{PolicyExpansion, expansion_of};
use rls_meaning::rls_guard::rls_grant::{holds, missing};
use rls_meaning::rls_guard::rls_policy::{chosen, is_exempt};
use rls_meaning::rls_guard::rls_role::{EffectiveRoles, can_set, effective_roles_over, has};
use rls_meaning::rls_guard::rls_source::{Asker, Reading, RowSource};
use rls_meaning::rls_guard::role_privileges_of;
use rls_rows::State;
use rls_value::{Items, Kind, Name, Privilege, Reference, Refusal};
use std::alloc::{AllocError, Global};

/// A state, with its roles, those of them that can be the current one of a session that logs in as no superuser, and its tables.
#[derive(Clone, Copy)]
pub(crate) struct Linted<'x> {
    pub(crate) state: &'x State,
    pub(crate) roles: &'x [Name],
    pub(crate) users: &'x [Name],
    pub(crate) tables: &'x [NamedTable<'x>],
}

/// The privilege that a command of that type needs.
pub(crate) fn privilege_of(kind: Kind) -> Privilege
    ensures { result ≡ meaning.privilege_of kind }
{
    match kind {
        Kind::Select => Privilege::Select,
        Kind::Insert => Privilege::Insert,
        Kind::Update => Privilege::Update,
        Kind::Delete => Privilege::Delete,
    }
}

/// The attributes of the role.
pub(crate) fn attributes_of(
    alloc: Global,
    state: &State,
    role: &Name,
) -> Result<RoleDef, AllocError>
    ensures { IfOk result (λ def. def ≡ attributes_of state.now role.now) }
{
    let mut source = state.view();
    Ok(RoleDef::known(source.role(alloc, role)?))
}

/// Whether the role has the privileges of the other.
pub(crate) fn has_privileges_of(
    alloc: Global,
    state: &State,
    role: &Name,
    other: &Name,
) -> Result<bool, AllocError>
    ensures { IfOk result (λ has. has ≡ has_privileges_of state.now role.now other.now) }
{
    let mut source = state.view();
    has(alloc, &mut source, role, other)
}

/// Whether the login may set the role.
pub(crate) fn may_set(
    alloc: Global,
    state: &State,
    login: &Name,
    role: &Name,
) -> Result<bool, AllocError>
    ensures { IfOk result (λ may. may ≡ paths.can_set state.now login.now role.now) }
{
    let mut source = state.view();
    can_set(alloc, &mut source, login, role)
}

/// Whether the role holds the privilege on the table.
pub(crate) fn holds_on(
    alloc: Global,
    state: &State,
    role: &Name,
    privilege: Privilege,
    table: &Name,
) -> Result<bool, AllocError>
    ensures { IfOk result (λ held. held ≡ privileges.holds state.now role.now privilege table.now) }
{
    let mut source = state.view();
    holds(alloc, &mut source, role, privilege, table)
}

/// Whether row security binds the role on the table.
pub(crate) fn is_bound(
    alloc: Global,
    state: &State,
    role: &Name,
    from: FromTable<'_>,
) -> Result<bool, AllocError>
    ensures { IfOk result (λ bound. bound ≡ users.is_bound state.now role.now (in_scope from.entry)) }
{
    let mut source = state.view();
    let exempt = is_exempt(alloc, &mut source, role, from.table)?;
    Ok(!exempt)
}

/// Whether SELECT is missing to the role on one of the columns.
pub(crate) fn lacks_select(
    alloc: Global,
    state: &State,
    role: &Name,
    table: &Name,
    columns: &[Name],
) -> Result<bool, AllocError>
    ensures { IfOk result (λ lacks. lacks ≡ is_some (privileges.missing state.now role.now Privilege.Select table.now columns.now)) }
{
    let mut source = state.view();
    match missing(alloc, &mut source, role, Privilege::Select, table, columns)? {
        Some(why) => {
            drop(why);
            Ok(true)
        }
        None => Ok(false),
    }
}

/// The policies of the table.
pub(crate) fn policies_of<'x>(
    alloc: Global,
    state: &'x State,
    table: &Name,
) -> Result<&'x Policies, AllocError>
    ensures { IfOk result (λ policies. policies.now ≡ policies_of state.now table.now) }
{
    let mut source = state.view();
    source.policies(alloc, table)
}

/// The policies of the table that apply to a role that row security binds, for that type of command and those rows.
#[tactic(auto, using(crate::proofs::LintedLemmas::chosen_apply))]
pub(crate) fn applying_of<'x>(
    alloc: Global,
    state: &'x State,
    role: &Name,
    table: &Name,
    kind: Kind,
    side: Side,
) -> Result<Items<Reference<'x, Policy>>, AllocError>
    ensures { IfOk result (λ policies. policies ≡ verdict.applying_of state.now role.now table.now kind side) }
{
    let mut source = state.view();
    let policies = source.policies(alloc, table)?;
    let effective_roles = effective_roles_over(alloc, &mut source, role)?;
    let applying = chosen(alloc, policies, &effective_roles, kind, side);
    drop(effective_roles);
    applying
}

/// The table that the chains of policies of the role's command close on, where it reads nothing beside its table.
pub(crate) fn closing_of(
    alloc: Global,
    state: &State,
    role: &Name,
    from: FromTable<'_>,
    kind: Kind,
) -> Result<Option<Name>, AllocError>
    ensures { IfOk result (λ closing. closing ≡ closing_in state.now (command_of role.now (in_scope from.entry) kind)) }
{
    expansion_means();
    match expand(alloc, state, role, from, kind) {
        Ok(expansion) => {
            drop(expansion);
            Ok(None)
        }
        Err(Refusal::Recursion(table)) => Ok(Some(table)),
        Err(refusal) => {
            drop(refusal);
            Err(AllocError)
        }
    }
}

/// The policy expansion of that command. What is read is forgotten.
fn expand<'x>(
    alloc: Global,
    state: &'x State,
    role: &Name,
    from: FromTable<'_>,
    kind: Kind,
) -> Result<PolicyExpansion<'x>, Refusal>
    ensures { Gives result (expansion_in state.now (command_of role.now (in_scope from.entry) kind)) }
{
    let source = state.view();
    let mut asker = Asker::new(alloc, source.catalog());
    let expansion = asked_expansion(&mut asker, role, from, kind);
    drop(asker);
    expansion
}

fn asked_expansion<'x>(
    asker: &mut Asker<'x>,
    role: &Name,
    from: FromTable<'_>,
    kind: Kind,
) -> Result<PolicyExpansion<'x>, Refusal>
    ensures { Gives result (expansion_in asker.old.state (command_of role.now (in_scope from.entry) kind)) }
{
    let role_privileges = role_privileges_of(asker, role)?;
    let expansion = expansion_of(asker, &role_privileges, from, kind, false, &[]);
    drop(role_privileges);
    expansion
}

/// Whether the policy is for the role.
pub(crate) fn is_for(
    alloc: Global,
    state: &State,
    role: &Name,
    policy: &Policy,
) -> Result<bool, AllocError>
    ensures { IfOk result (λ is. is ≡ verdict.is_to state.now role.now policy.now) }
{
    let mut source = state.view();
    let effective_roles = effective_roles_over(alloc, &mut source, role)?;
    let is = includes_one(&effective_roles, policy.to.as_slice());
    drop(effective_roles);
    Ok(is)
}

fn includes_one(effective_roles: &EffectiveRoles, grantees: &[Grantee]) -> bool
    ensures { result ≡ list_any (privileges.includes effective_roles.now.superuser effective_roles.now.names) grantees.now }
{
    grantees
        .iter()
        .any(|grantee| effective_roles.includes(grantee))
}
