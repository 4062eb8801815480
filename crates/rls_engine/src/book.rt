//! The book of a closed engine.

ghost use Rattle.std.specs.Prelude.{◌≡◌, ◌≤◌, ◌-◌, Some, slice_get, length, IfOk};
ghost use Rattle.rls_core.specs.Seen.{world_of};
ghost use Rattle.rls_core.specs.Records.{state_after};
ghost use Rattle.rls_core.specs.Calls.{IsOrderBy};
ghost use Rattle.rls_core.specs.Headline.{HaveOrder, AreExplained};

use crate::commit::Commit;
use crate::desk::Desk;
use crate::named::Named;
use crate::place::Place;
use crate::receipt::Receipt;
use boxcar::{Pushed, Vec as Shared};
use rls_core::{Core, Record};
use std::alloc::{AllocError, Global};
use std::marker::Model;

/// The records of a closed engine, with the engine's vector of commits and the tokens of their places. It has no name, so that it
/// outlives what was named.
#[derive(Drop)]
pub struct Book {
    core: Core,
    tokens: Vec<Pushed<Commit>>,
    commits: Shared<Commit>,
}

impl Model for Book {
    ghost use Rattle.rls_engine.specs.Views.{Closed, closed_code};
    ghost use Rattle.rls_engine.specs.Places.{ArePlaced};

    ghost Value = { Closed };

    ghost coded = { closed_code };

    ghost view = { λ it. record { commits = it.commits; seen = it.core } };

    ghost invariant = { λ it. ArePlaced it.commits it.core.committed it.tokens.items };
}

impl Book {
    pub(crate) fn new<N: Named>(desk: Desk<N>, commits: Shared<Commit>) -> Book
        requires { commits ≡ N.commits }
        ensures { (result.commits ≡ N.commits) × (result.seen ≡ desk.seen) }
    {
        let (core, tokens) = desk.into_parts();
        Book {
            core,
            tokens,
            commits,
        }
    }

    /// The records, in the order of their commits. They have an order that keeps what has to stand before what, and each such order
    /// explains them.
    pub fn records(&self) -> &[Record]
        ensures records { result.now ≡ self.now.seen.committed }
        ensures ordered { HaveOrder (world_of self.now.seen) }
        ensures explained { AreExplained (world_of self.now.seen) }
    {
        self.core.history()
    }

    /// The numbers of the transactions, in an order that keeps what has to stand before what.
    pub fn order(&self, alloc: Global) -> Result<Vec<u64>, AllocError>
        ensures { IfOk result (λ numbers. IsOrderBy self.now.seen.committed numbers.items) }
    {
        self.core.order(alloc)
    }

    /// The record of a receipt's number is the receipt's, where the book is of its engine.
    pub fn agrees<N: Named>(&self, receipt: &Receipt<N>)
        requires engine { self.now.commits ≡ N.commits }
        requires number { receipt.now.number ≤ length self.now.seen.committed }
        ensures { slice_get self.now.seen.committed (receipt.now.number - 1) ≡ Some receipt.now.entry }
    {
        let at = receipt.token.index();
        self.commits.agrees(&self.tokens[at], &receipt.token);
    }

    /// What stands at a place is the record of its number and the state after it, where the book is of its engine.
    pub fn holds<N: Named>(&self, place: &Place<N>)
        requires engine { self.now.commits ≡ N.commits }
        requires number { place.now.number ≤ length self.now.seen.committed }
        ensures entry { slice_get self.now.seen.committed (place.now.number - 1) ≡ Some place.now.entry }
        ensures state { place.now.state ≡ state_after self.now.seen.committed place.now.number }
    {
        let at = place.token.index();
        self.commits.agrees(&self.tokens[at], &place.token);
    }
}
