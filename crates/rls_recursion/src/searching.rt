//! The search over the tables that chains of policies meet.

ghost use Rattle.std.specs.Prelude.{◌≡◌, ◌++◌, ℕ, suc, true, false, Some, length, IfOk};
ghost use Rattle.std.specs.Option.{option_copied};
ghost use Rattle.rls_value.specs.Giving.{Gives};
ghost use Rattle.rls_value.specs.Names.{one_of};
ghost use Rattle.rls_recursion.specs.Chains.{chain_of};
ghost use Rattle.rls_recursion.specs.Searching as spec;
ghost use Rattle.rls_recursion.specs.Searching.{IsEnough, as_found, told_by, ordered_by};

use crate::dependency::PolicyDependency;
use crate::progress::{Progress, push_copy};
use rls_value::{Items, Name, Refusal};
use std::alloc::{AllocError, Global};

/// The tables that a statement reaches through its policies and subqueries, in two orders.
#[derive(Drop)]
pub struct Reached {
    /// Each once, in front of those that its policies lead to.
    pub secured: Items<Name>,
    /// Those of the statement's subqueries, then each as it is met.
    pub tables: Items<Name>,
}

/// The tables of a chain, the last first.
#[derive(Clone, Copy)]
pub enum Chain<'a> {
    Nothing,
    Over(&'a Name, &'a Chain<'a>),
}

/// The first dependency of the table.
pub fn dependency_in<'x, 'c>(
    dependencies: &'x [PolicyDependency<'c>],
    table: &Name,
) -> Option<&'x PolicyDependency<'c>>
    ensures { option_copied result ≡ spec.dependency_in dependencies.now table.now }
{
    for dependency in dependencies {
        if dependency.table.is(table) {
            return Some(dependency);
        }
    }
    None
}

fn has_subquery_of(dependencies: &[PolicyDependency], table: &Name) -> bool
    ensures { result ≡ spec.has_subquery_of dependencies.now table.now }
{
    match dependency_in(dependencies, table) {
        Some(dependency) => dependency.has_subquery,
        None => false,
    }
}

fn subquery_tables_of<'x>(dependencies: &'x [PolicyDependency], table: &Name) -> &'x [Name]
    ensures { result.now ≡ spec.subquery_tables_of dependencies.now table.now }
{
    match dependency_in(dependencies, table) {
        Some(dependency) => dependency.subquery_tables.as_slice(),
        None => &[],
    }
}

fn is_on(chain: &Chain, table: &Name) -> bool
    ensures { result ≡ one_of (chain_of chain.now) table.now }
{
    match chain {
        Chain::Nothing => false,
        Chain::Over(name, rest) => name.is(table) || is_on(rest, table),
    }
}

/// Visits a table: the one that a chain closes on first, if one does; else it and its own are done.
#[cycle(visit)]
#[tactic(auto, using(crate::proofs::Steps::visit_was, crate::proofs::Steps::visit_leaf, crate::proofs::Steps::visit_loop))]
fn visit<'x>(
    dependencies: &[PolicyDependency],
    chain: &'x Chain<'x>,
    progress: &mut Progress,
    table: &'x Name,
) -> Result<Option<Name>, AllocError>
    ensures { IfOk result (λ closed. (n : ℕ) → IsEnough dependencies.now (chain_of chain.now) n → spec.visit n dependencies.now (chain_of chain.now) progress.old table.now ≡ as_found closed progress.new) }
{
    if progress.done.has(table) {
        return Ok(None);
    }
    if !has_subquery_of(dependencies, table) {
        progress.pass(table)?;
        return Ok(None);
    }
    if is_on(chain, table) {
        return met(table);
    }
    visit_own(dependencies, chain, progress, table)
}

/// The chain closes on the table.
fn met(table: &Name) -> Result<Option<Name>, AllocError>
    ensures { IfOk result (λ closed. closed ≡ Some table.now) }
{
    match table.copy() {
        Ok(table) => Ok(Some(table)),
        Err(refused) => Err(refused),
    }
}

/// Visits the tables that the policies of a new table lead to, which then is done.
#[cycle(visit)]
fn visit_own<'x>(
    dependencies: &[PolicyDependency],
    chain: &'x Chain<'x>,
    progress: &mut Progress,
    table: &'x Name,
) -> Result<Option<Name>, AllocError>
    requires new { one_of progress.old.done table.now ≡ false }
    requires has_subquery { spec.has_subquery_of dependencies.now table.now ≡ true }
    requires off { one_of (chain_of chain.now) table.now ≡ false }
    ensures { IfOk result (λ closed. (n : ℕ) → IsEnough dependencies.now (chain_of chain.now) n → spec.visit n dependencies.now (chain_of chain.now) progress.old table.now ≡ as_found closed progress.new) }
{
    progress.list(table)?;
    let longer = Chain::Over(table, chain);
    let closed = visit_all(
        dependencies,
        &longer,
        progress,
        subquery_tables_of(dependencies, table),
    )?;
    match closed {
        Some(met) => Ok(Some(met)),
        None => {
            progress.finish(table)?;
            Ok(None)
        }
    }
}

/// Visits one table after the other.
#[cycle(visit)]
fn visit_all<'x>(
    dependencies: &[PolicyDependency],
    chain: &'x Chain<'x>,
    progress: &mut Progress,
    tables: &'x [Name],
) -> Result<Option<Name>, AllocError>
    ensures { IfOk result (λ closed. (n : ℕ) → IsEnough dependencies.now (chain_of chain.now) n → spec.visit_all (spec.visit n dependencies.now (chain_of chain.now)) progress.old tables.now ≡ as_found closed progress.new) }
{
    for table in tables {
        let closed = visit(dependencies, chain, progress, table)?;
        if let Some(met) = closed {
            return Ok(Some(met));
        }
    }
    Ok(None)
}

/// The tables of the statement in their two orders; `Recursion` names the first table that a chain meets again, where its
/// policies hold a subquery. `own` are those that the policies of the target lead to, `queries` those of the statement's
/// subqueries, in text order.
pub fn search(
    alloc: Global,
    dependencies: &[PolicyDependency],
    target: &Name,
    own: &[Name],
    queries: &[Name],
) -> Result<Reached, Refusal>
    ensures { Gives result (ordered_by dependencies.now target.now own.now queries.now) }
{
    let mut progress = Progress::new(alloc);
    let closed = search_all(dependencies, &mut progress, target, own, queries)?;
    match closed {
        Some(met) => {
            drop(progress);
            Err(Refusal::Recursion(met))
        }
        None => both_orders(alloc, progress, queries),
    }
}

/// First the target's own tables, then those that begin chains.
fn search_all(
    dependencies: &[PolicyDependency],
    progress: &mut Progress,
    target: &Name,
    own: &[Name],
    queries: &[Name],
) -> Result<Option<Name>, AllocError>
    ensures { IfOk result (λ closed. spec.searched_from (suc (length dependencies.now)) dependencies.now progress.old target.now own.now queries.now ≡ as_found closed progress.new) }
{
    let nothing = Chain::Nothing;
    let begun = Chain::Over(target, &nothing);
    let closed = visit_from(dependencies, &begun, progress, own)?;
    match closed {
        Some(met) => Ok(Some(met)),
        None => visit_from(dependencies, &nothing, progress, queries),
    }
}

/// Visits one table after the other, from the chain on; no chain gets longer than there are dependencies.
#[tactic(auto, using(crate::proofs::Steps::dependencies_enough))]
fn visit_from<'x>(
    dependencies: &[PolicyDependency],
    chain: &'x Chain<'x>,
    progress: &mut Progress,
    tables: &'x [Name],
) -> Result<Option<Name>, AllocError>
    ensures { IfOk result (λ closed. spec.visit_all (spec.visit (suc (length dependencies.now)) dependencies.now (chain_of chain.now)) progress.old tables.now ≡ as_found closed progress.new) }
{
    let closed = visit_all(dependencies, chain, progress, tables)?;
    Ok(closed)
}

/// What is told of a search that came to its end.
fn both_orders(alloc: Global, progress: Progress, queries: &[Name]) -> Result<Reached, Refusal>
    ensures { Gives result (told_by queries.now (spec.Fits progress)) }
{
    let Progress { done, listed } = progress;
    let tables = in_front(alloc, queries, listed)?;
    Ok(Reached {
        secured: done.into_items(),
        tables,
    })
}

/// Copies of the names in front of the others.
fn in_front(alloc: Global, names: &[Name], others: Items<Name>) -> Result<Items<Name>, AllocError>
    ensures { IfOk result (λ all. all ≡ names.now ++ others) }
{
    let all = copies(alloc, names)?;
    let mut all = all.into_vec();
    let mut others = others.into_vec();
    all.append(&mut others)?;
    Ok(Items::from_vec(all))
}

fn copies(alloc: Global, names: &[Name]) -> Result<Items<Name>, AllocError>
    ensures { IfOk result (λ copies. copies ≡ names.now) }
{
    let mut copies = Items::new(alloc);
    for name in names {
        push_copy(&mut copies, name)?;
    }
    Ok(copies)
}
