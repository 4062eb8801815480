//! The policy expansion of a statement.

ghost use Rattle.std.specs.Prelude.{◌≡◌, [], ◌++◌, IfOk, OnOk};
ghost use Rattle.std.specs.{List.All, Option.option_copied};
ghost use Rattle.rls_value.specs.Giving.{Gives};
ghost use Rattle.rls_guard.specs.rls_catalog.specs.rls_expr.specs.Scopes.{in_scope};
ghost use Rattle.rls_guard.specs.rls_source.specs.Answering.{Answers};
ghost use Rattle.rls_expansion.specs.Conditions.{AreResolved};
ghost use Rattle.rls_expansion.specs.Expanding as spec;

use crate::conditions::Conditions;
use crate::dependencies::dependencies_of;
use crate::policies::policies_for;
use crate::relations::{known_in, relations_of};
use crate::selected::{selected_used, subqueries_in};
use crate::used::tables_used;
use rls_guard::rls_catalog::rls_expr::{FromTable, SelectedTable};
use rls_guard::rls_evaluation::SecuredRelation;
use rls_guard::rls_source::Asker;
use rls_guard::{PolicyScope, RolePrivileges, RowCheck, row_checks_by};
use rls_recursion::rls_catalog::{Policies, Side};
use rls_recursion::{PolicyDependency, PolicySubqueries, Reached, listed, search};
use rls_value::{Items, Kind, Name, Refusal};
use std::alloc::{AllocError, Global};

/// What a statement's policies expand to.
#[derive(Drop)]
pub struct PolicyExpansion<'c> {
    /// The checks of the rows of its table as they stand.
    pub old: Items<RowCheck<'c>>,
    /// The checks of its new rows.
    pub new: Items<RowCheck<'c>>,
    /// What subqueries look through, those of policies too.
    pub relations: Items<SecuredRelation<'c>>,
    /// The tables that subqueries look at: those of the statement's own, and all that these and the policies lead to.
    pub tables: Items<Name>,
    /// The tables of the subqueries in the policies of its table, with the columns that they mention.
    pub own: Items<SelectedTable>,
    /// Of each table that subqueries look at, those of the subqueries in its policies.
    pub subqueries: Items<PolicySubqueries>,
}

impl<'c> PolicyExpansion<'c> {
    /// The tables whose columns SELECT is asked for: those of the statement's own subqueries, and all that they and the
    /// policies lead to.
    pub fn permission_checks(
        &self,
        alloc: Global,
        queries: &[SelectedTable],
    ) -> Result<Items<SelectedTable>, AllocError>
        ensures { IfOk result (λ tables. tables ≡ spec.permission_checks self.now queries.now) }
    {
        listed(
            alloc,
            self.subqueries.as_slice(),
            self.own.as_slice(),
            queries,
        )
    }
}

/// A type of command, and whether it reads its table.
#[derive(Clone, Copy)]
struct Command {
    kind: Kind,
    reads: bool,
}

/// The policy expansion of a statement of that type on the table: the policies that count, and those of every table that
/// its subqueries and the policies' lead to, each read once. `Recursion` names the first table that a chain of policies
/// meets again (PostgreSQL: 42P17).
#[tactic(auto, unfolding(crate::specs::Expanding::expansion_of))]
pub fn expansion_of<'c, 'x>(
    asker: &mut Asker<'c>,
    role_privileges: &RolePrivileges,
    from: FromTable<'x>,
    kind: Kind,
    reads: bool,
    queries: &[Name],
) -> Result<PolicyExpansion<'c>, Refusal>
    ensures { Answers (spec.expansion_of role_privileges.now from.entry.name.now from.entry.table.now kind reads queries.now) asker.old asker.new result }
{
    let policies = policies_for(asker, role_privileges, from.name, from.table)?;
    let command = Command { kind, reads };
    past_policies(asker, role_privileges, from, command, policies, queries)
}

/// The policies of the table being known.
#[tactic(auto, unfolding(crate::specs::Expanding::past_policies))]
fn past_policies<'c, 'x>(
    asker: &mut Asker<'c>,
    role_privileges: &RolePrivileges,
    from: FromTable<'x>,
    command: Command,
    policies: Option<&'c Policies>,
    queries: &[Name],
) -> Result<PolicyExpansion<'c>, Refusal>
    ensures { Answers (spec.past_policies role_privileges.now from.entry.name.now from.entry.table.now command.kind command.reads queries.now (option_copied policies.entry)) asker.old asker.new result }
{
    let own = own_tables(asker.alloc(), role_privileges, command, policies)?;
    let tables = tables_from(asker.alloc(), own.as_slice(), queries)?;
    let dependencies = dependencies_of(asker, role_privileges, tables.as_slice())?;
    drop(tables);
    expand(
        asker.alloc(),
        role_privileges,
        from,
        command,
        policies,
        own.as_slice(),
        queries,
        dependencies.as_slice(),
    )
}

/// The tables that the policies lead to, then those of the statement's subqueries.
fn tables_from(alloc: Global, own: &[Name], queries: &[Name]) -> Result<Items<Name>, AllocError>
    ensures { IfOk result (λ tables. tables ≡ own.now ++ queries.now) }
{
    let mut tables = Items::new(alloc);
    put_copies(&mut tables, own)?;
    put_copies(&mut tables, queries)?;
    Ok(tables)
}

fn put_copies(tables: &mut Items<Name>, names: &[Name]) -> Result<(), AllocError>
    ensures { OnOk result (tables.new ≡ tables.old ++ names.now) }
{
    for name in names {
        tables.push(name.copy()?)?;
    }
    Ok(())
}

fn own_tables(
    alloc: Global,
    role_privileges: &RolePrivileges,
    command: Command,
    policies: Option<&Policies>,
) -> Result<Items<Name>, AllocError>
    ensures { IfOk result (λ tables. tables ≡ spec.own_tables role_privileges.now command.kind command.reads (option_copied policies.entry)) }
{
    match policies {
        None => Ok(Items::new(alloc)),
        Some(policies) => {
            let asks = asks_of(alloc, command)?;
            tables_used(alloc, policies, &role_privileges.effective_roles, &asks)
        }
    }
}

fn asks_of(alloc: Global, command: Command) -> Result<Vec<(Kind, Side)>, AllocError>
    ensures { IfOk result (λ asks. asks.items ≡ spec.asks_of command.kind command.reads) }
{
    let mut asks = Vec::with_capacity(alloc, 4)?;
    put_asks(&mut asks, judges_old(command.kind), command, Side::Old)?;
    put_asks(&mut asks, judges_new(command.kind), command, Side::New)?;
    Ok(asks)
}

fn put_asks(
    asks: &mut Vec<(Kind, Side)>,
    judges: bool,
    command: Command,
    side: Side,
) -> Result<(), AllocError>
    ensures { OnOk result (asks.new.items ≡ asks.old.items ++ spec.asks_on judges command.kind command.reads side) }
{
    if judges {
        asks.push((command.kind, side))?;
        if command.reads {
            asks.push((Kind::Select, side))?;
        }
    }
    Ok(())
}

fn judges_old(kind: Kind) -> bool
    ensures { result ≡ spec.judges_old kind }
{
    match kind {
        Kind::Select | Kind::Update | Kind::Delete => true,
        Kind::Insert => false,
    }
}

fn judges_new(kind: Kind) -> bool
    ensures { result ≡ spec.judges_new kind }
{
    match kind {
        Kind::Insert | Kind::Update => true,
        Kind::Select | Kind::Delete => false,
    }
}

/// What is made of the dependencies, unless a chain of policies never ends.
fn expand<'c, 'x>(
    alloc: Global,
    role_privileges: &RolePrivileges,
    from: FromTable<'x>,
    command: Command,
    policies: Option<&'c Policies>,
    own: &[Name],
    queries: &[Name],
    dependencies: &[PolicyDependency<'c>],
) -> Result<PolicyExpansion<'c>, Refusal>
    requires { own.now ≡ spec.own_tables role_privileges.now command.kind command.reads (option_copied policies) }
    ensures { Gives result (spec.expansion_by role_privileges.now command.kind command.reads (in_scope from.entry) (option_copied policies.entry) queries.now dependencies.now) }
{
    let reached = search(alloc, dependencies, from.name, own, queries)?;
    let made = expanded_from(
        alloc,
        role_privileges,
        from,
        command,
        policies,
        dependencies,
        reached,
    )?;
    Ok(made)
}

#[tactic(auto, using(crate::proofs::ConditionsLemmas::side_resolved))]
fn expanded_from<'c, 'x>(
    alloc: Global,
    role_privileges: &RolePrivileges,
    from: FromTable<'x>,
    command: Command,
    policies: Option<&'c Policies>,
    dependencies: &[PolicyDependency<'c>],
    reached: Reached,
) -> Result<PolicyExpansion<'c>, AllocError>
    ensures { IfOk result (λ made. made ≡ spec.expanded_from role_privileges.now command.kind command.reads (in_scope from.entry) (option_copied policies.entry) dependencies.now reached) }
{
    let Reached { secured, tables } = reached;
    let found = known_in(alloc, dependencies)?;
    let relations = relations_of(alloc, found.as_slice(), dependencies, secured.as_slice())?;
    drop(secured);
    let subqueries = subqueries_in(alloc, found.as_slice(), dependencies)?;
    let scope = PolicyScope {
        from,
        found: found.as_slice(),
    };
    let (old, new) = both_sides(alloc, role_privileges, scope, command, policies)?;
    let known = Conditions {
        old: old.as_slice(),
        new: new.as_slice(),
    };
    let own = own_selected(alloc, role_privileges, scope, command, policies, known)?;
    drop(found);
    Ok(PolicyExpansion {
        old,
        new,
        relations,
        tables,
        own,
        subqueries,
    })
}

/// The tables of the subqueries in the policies of the statement's table, with their columns.
fn own_selected<'r, 'c, 'x>(
    alloc: Global,
    role_privileges: &RolePrivileges,
    scope: PolicyScope<'x>,
    command: Command,
    policies: Option<&Policies>,
    known: Conditions<'r, 'c>,
) -> Result<Items<SelectedTable>, AllocError>
    requires old { All (AreResolved (in_scope scope.from) scope.found.now) known.old.now }
    requires new { All (AreResolved (in_scope scope.from) scope.found.now) known.new.now }
    ensures { IfOk result (λ selected. selected ≡ spec.own_selected role_privileges.now command.kind command.reads (in_scope scope.entry.from) scope.entry.found.now (option_copied policies.entry)) }
{
    match policies {
        None => Ok(Items::new(alloc)),
        Some(policies) => {
            let asks = asks_of(alloc, command)?;
            selected_used(
                alloc,
                policies,
                &role_privileges.effective_roles,
                &asks,
                scope,
                known,
            )
        }
    }
}

/// The checks of the rows of the table, as they stand and of new ones.
fn both_sides<'c, 'x>(
    alloc: Global,
    role_privileges: &RolePrivileges,
    scope: PolicyScope<'x>,
    command: Command,
    policies: Option<&'c Policies>,
) -> Result<(Items<RowCheck<'c>>, Items<RowCheck<'c>>), AllocError>
    ensures old { IfOk result (λ both. both.0 ≡ spec.row_checks_if (spec.judges_old command.kind) role_privileges.now command.kind command.reads (in_scope scope.entry.from) scope.entry.found.now (option_copied policies.entry) Side.Old) }
    ensures new { IfOk result (λ both. both.1 ≡ spec.row_checks_if (spec.judges_new command.kind) role_privileges.now command.kind command.reads (in_scope scope.entry.from) scope.entry.found.now (option_copied policies.entry) Side.New) }
{
    let judges = judges_old(command.kind);
    let old = row_checks_if(
        alloc,
        judges,
        role_privileges,
        scope,
        command,
        policies,
        Side::Old,
    )?;
    let judges = judges_new(command.kind);
    match row_checks_if(
        alloc,
        judges,
        role_privileges,
        scope,
        command,
        policies,
        Side::New,
    ) {
        Ok(new) => Ok((old, new)),
        Err(refused) => {
            drop(old);
            Err(refused)
        }
    }
}

fn row_checks_if<'c, 'x>(
    alloc: Global,
    judges: bool,
    role_privileges: &RolePrivileges,
    scope: PolicyScope<'x>,
    command: Command,
    policies: Option<&'c Policies>,
    side: Side,
) -> Result<Items<RowCheck<'c>>, AllocError>
    ensures { IfOk result (λ row_checks. row_checks ≡ spec.row_checks_if judges role_privileges.now command.kind command.reads (in_scope scope.entry.from) scope.entry.found.now (option_copied policies.entry) side) }
{
    if judges {
        row_checks_by(
            alloc,
            role_privileges,
            scope,
            command.kind,
            command.reads,
            side,
            policies,
        )
    } else {
        Ok(Items::new(alloc))
    }
}
