//! Transactions that ended without a commit.

ghost use Rattle.std.specs.Prelude.{◌≡◌, ◌≤◌, [], length, IfSome};
ghost use Rattle.rls_core.specs.Attempts.{IsShownOn};
ghost use Rattle.rls_core.specs.Records.{state_after};
ghost use Rattle.rls_engine.specs.Attempts.{IsAttemptOf, IsLeftOn};
ghost use Rattle.rls_engine.specs.Places.{IsBase, base_state};

use crate::book::Book;
use crate::held::Held;
use crate::named::Named;
use crate::place::Place;
use rls_core::{Attempt, Remains};
use std::marker::Model;

/// A transaction that ended without a commit, with the place of the last commit in its snapshot.
#[derive(Drop)]
pub struct Ended<N: Named> {
    base: Option<Place<N>>,
    attempt: Attempt,
}

impl<N: Named> Model for Ended<N> {
    ghost use Rattle.rls_core.specs.declared.attempt.Attempt.{Attempt as Told};
    ghost use Rattle.rls_engine.specs.{Attempts.IsEnded, Views.attempt_code};

    ghost Value = { Told };

    ghost coded = { attempt_code };

    ghost view = { λ it. it.attempt };

    ghost invariant = { λ it. IsEnded it.base it.attempt };
}

impl<N: Named> Ended<N> {
    /// What was held, of which this is left.
    fn new(held: Held<N>, left: Remains) -> Ended<N>
        requires { IsLeftOn held left }
        ensures { IsAttemptOf held.stand result }
    {
        let Held {
            txn,
            base,
            at,
            view,
            ctx,
        } = held;
        drop(at);
        drop(view);
        drop(ctx);
        let Remains { begin, posts } = left;
        let snap = snap_of(&base);
        Ended {
            base,
            attempt: Attempt {
                txn,
                snap,
                begin,
                posts,
            },
        }
    }

    /// How many had committed when it began.
    pub fn snap(&self) -> u64
        ensures { result ≡ self.now.snap }
    {
        self.attempt.snap
    }

    /// Run alone on the state after so many commits its statements come to just what is told of them, where the book is of its engine.
    pub fn agrees(&self, book: &Book)
        requires engine { book.now.commits ≡ N.commits }
        requires snap { self.now.snap ≤ length book.now.seen.committed }
        ensures { IsShownOn (state_after book.now.seen.committed self.now.snap) self.now }
    {
        holds_base(book, &self.base, self.attempt.snap);
    }

    /// With no statements.
    pub fn without_posts(self) -> Ended<N>
        ensures { result ≡ record { txn = self.txn; snap = self.snap; begin = self.begin; posts = [] } }
    {
        let Ended { base, attempt } = self;
        Ended {
            base,
            attempt: attempt.without_posts(),
        }
    }

    /// Without the place.
    pub fn into_attempt(self) -> Attempt
        ensures { result ≡ self }
    {
        let Ended { base: _, attempt } = self;
        attempt
    }
}

/// What stands at the place of a snapshot's last commit is the state after so many commits, where the book is of its engine.
fn holds_base<N: Named>(book: &Book, base: &Option<Place<N>>, snap: u64)
    requires engine { book.now.commits ≡ N.commits }
    requires base { IsBase snap base.now }
    requires snap { snap ≤ length book.now.seen.committed }
    ensures { base_state base.now ≡ state_after book.now.seen.committed snap }
{
    match base {
        Some(place) => book.holds(place),
        None => {}
    }
}

/// How many commits a snapshot has.
fn snap_of<N: Named>(base: &Option<Place<N>>) -> u64
    ensures { IsBase result base.now }
{
    match base {
        Some(place) => place.number(),
        None => 0,
    }
}

/// What was held, where something is left of it.
pub(crate) fn ended_of<N: Named>(held: Held<N>, left: Option<Remains>) -> Option<Ended<N>>
    requires { IfSome left (IsLeftOn held) }
    ensures { IfSome result (IsAttemptOf held.stand) }
{
    match left {
        Some(left) => Some(Ended::new(held, left)),
        None => {
            drop(held);
            None
        }
    }
}
