//! Transactions that ended without a commit, and how they ended.

ghost use Rattle.std.specs.Prelude.{◌≡◌, IfOk, IsErrOf};
ghost use Rattle.rls_session.specs.Books.{IsTold};
ghost use Rattle.rls_session.specs.Parts.{tried_by};
ghost use Rattle.rls_session.specs.Scripts.{end_by};

use rls_engine::rls_core::Attempt;
use rls_engine::{Book, Ended, Named};
use rls_script::{Answer, RunFault};
use rls_value::{Cause, Refusal, Tag};
use std::alloc::{AllocError, Global};
use std::marker::Model;

/// How a transaction ended that didn't commit.
#[derive(Drop)]
pub enum End {
    /// By ROLLBACK.
    Rollback,
    /// By a serialization failure, which was answered.
    Conflict(Cause),
    /// By a `\connect` of its label.
    Connect,
    /// By the end of the script.
    Script,
}

/// A transaction that ended without a commit, and how, while its engine runs.
#[derive(Drop)]
pub(crate) struct Tried<N: Named> {
    pub(crate) end: End,
    pub(crate) ended: Ended<N>,
}

impl<N: Named> Model for Tried<N> {
    ghost use Rattle.rls_session.specs.Parts.{Tried as Told, part_by, tried_code};

    ghost Value = { Told };

    ghost coded = { tried_code };

    ghost view = { λ it. record { end = it.end; part = part_by it.ended } };
}

/// The same, once its engine is closed.
#[derive(Drop)]
pub struct Attempted {
    pub end: End,
    pub attempt: Attempt,
}

impl<N: Named> Tried<N> {
    /// The same without its engine. Run alone on the state of its snapshot in the book it comes to just what it was shown.
    #[tactic(auto, using(crate::proofs::TriedLemmas::tried_same, crate::proofs::TriedLemmas::told_attempt))]
    pub(crate) fn into_attempted(self, book: &Book) -> Result<Attempted, RunFault>
        requires { book.now.commits ≡ N.commits }
        ensures same { IfOk result (λ it. tried_by it ≡ self) }
        ensures told { IfOk result (λ it. IsTold book.now.seen.committed (tried_by it)) }
        ensures read { ¬ IsErrOf result RunFault.Read }
        ensures write { ¬ IsErrOf result RunFault.Write }
    {
        let Tried { end, ended } = self;
        if ended.snap() > book.records().len() as u64 {
            drop(end);
            drop(ended);
            return Err(RunFault::Foreign);
        }
        ended.agrees(book);
        Ok(Attempted {
            end,
            attempt: ended.into_attempt(),
        })
    }
}

/// How the transaction ended that a command with this answer ended.
pub(crate) fn end_of(alloc: Global, answer: &Answer) -> Result<End, AllocError>
    ensures { IfOk result (λ end. end ≡ end_by answer.now) }
{
    match answer {
        Answer::Refused(refusal) => match refusal {
            Refusal::Serial(why) => Ok(End::Conflict(why.copy(alloc)?)),
            _ => Ok(End::Connect),
        },
        Answer::Replied(tag, _) => match tag {
            Tag::Rollback => Ok(End::Rollback),
            _ => Ok(End::Connect),
        },
    }
}
