//! The tables whose columns a statement needs, listed behind the search.

ghost use Rattle.std.specs.Prelude.{◌≡◌, [], ◌∷◌, ◌++◌, fold, IfOk, OnOk};
ghost use Rattle.rls_recursion.specs.Listings as spec;

use crate::progress::Finished;
use rls_catalog::rls_expr::SelectedTable;
use rls_value::{Items, Name};
use std::alloc::{AllocError, Global};

/// The subqueries of a table's policies for SELECT that apply to the role: their tables, each with the columns that the
/// subquery mentions, in text order.
#[derive(Drop)]
pub struct PolicySubqueries {
    pub table: Name,
    pub selected: Items<SelectedTable>,
}

/// What was listed, and the tables whose policies were gone through, the last one in front.
#[derive(Drop)]
pub struct Listing {
    pub done: Finished,
    pub listed: Items<SelectedTable>,
}

impl Listing {
    fn new(alloc: Global) -> Listing
        ensures { result ≡ spec.no_listing }
    {
        Listing {
            done: Finished::new(alloc),
            listed: Items::new(alloc),
        }
    }

    /// The table is listed, with its columns.
    fn list(&mut self, alloc: Global, one: &SelectedTable) -> Result<(), AllocError>
        ensures { OnOk result (self.new ≡ spec.put_selected self.old one.now) }
    {
        push_selected(alloc, &mut self.listed, one)
    }

    /// Its policies were gone through.
    fn finish(&mut self, table: &Name) -> Result<(), AllocError>
        ensures { OnOk result (self.new ≡ spec.put_gone_through self.old table.now) }
    {
        match table.copy() {
            Ok(table) => self.done.put(table),
            Err(refused) => Err(refused),
        }
    }
}

/// The tables whose columns SELECT is asked for: those of the statement's subqueries as they are written, and then each that
/// its policies and its subqueries lead to, behind the one whose policies name it. What a table leads to is listed once,
/// however often it is met.
pub fn listed(
    alloc: Global,
    policies: &[PolicySubqueries],
    own: &[SelectedTable],
    queries: &[SelectedTable],
) -> Result<Items<SelectedTable>, AllocError>
    ensures { IfOk result (λ tables. tables ≡ spec.listed policies.now own.now queries.now) }
{
    let mut listing = Listing::new(alloc);
    list_all(alloc, policies.len(), policies, &mut listing, own)?;
    list_all(alloc, policies.len(), policies, &mut listing, queries)?;
    let Listing { done, listed } = listing;
    drop(done);
    behind(alloc, queries, listed)
}

/// A copy of these in front of the others.
fn behind(
    alloc: Global,
    first: &[SelectedTable],
    others: Items<SelectedTable>,
) -> Result<Items<SelectedTable>, AllocError>
    ensures { IfOk result (λ all. all ≡ first.now ++ others) }
{
    let all = copies(alloc, first)?;
    let mut all = all.into_vec();
    let mut others = others.into_vec();
    all.append(&mut others)?;
    Ok(Items::from_vec(all))
}

fn copies(alloc: Global, selected: &[SelectedTable]) -> Result<Items<SelectedTable>, AllocError>
    ensures { IfOk result (λ copies. copies ≡ selected.now) }
{
    let mut copies = Items::new(alloc);
    for one in selected {
        push_selected(alloc, &mut copies, one)?;
    }
    Ok(copies)
}

/// Lists the table with its columns and, unless that was done before, what its policies lead to; so many policies deep.
#[cycle(list)]
fn list_from(
    alloc: Global,
    depth: usize,
    policies: &[PolicySubqueries],
    listing: &mut Listing,
    one: &SelectedTable,
) -> Result<(), AllocError>
    ensures { OnOk result (listing.new ≡ spec.list_from depth (spec.leads_of policies.now) listing.old one.now) }
{
    if depth == 0 {
        return Ok(());
    }
    let done = listing.done.has(&one.table);
    listing.list(alloc, one)?;
    if done {
        return Ok(());
    }
    let leads = leads_of(policies, &one.table);
    list_all(alloc, depth - 1, policies, listing, leads)?;
    listing.finish(&one.table)
}

/// Lists one table after the other.
#[cycle(list)]
fn list_all(
    alloc: Global,
    depth: usize,
    policies: &[PolicySubqueries],
    listing: &mut Listing,
    selected: &[SelectedTable],
) -> Result<(), AllocError>
    ensures { OnOk result (listing.new ≡ fold (spec.list_from depth (spec.leads_of policies.now)) listing.old selected.now) }
{
    for one in selected {
        list_from(alloc, depth, policies, listing, one)?;
    }
    Ok(())
}

/// The tables that the policies of the table lead to.
fn leads_of<'x>(policies: &'x [PolicySubqueries], table: &Name) -> &'x [SelectedTable]
    ensures { result.now ≡ spec.leads_of policies.now table.now }
{
    for one in policies {
        if one.table.is(table) {
            return one.selected.as_slice();
        }
    }
    &[]
}

/// A copy of the table with its columns, behind the others.
fn push_selected(
    alloc: Global,
    selected: &mut Items<SelectedTable>,
    one: &SelectedTable,
) -> Result<(), AllocError>
    ensures { OnOk result (selected.new ≡ selected.old ++ one.now ∷ []) }
{
    selected.push(one.copy(alloc)?)
}
