//! Statements on their way to a post.

ghost use Rattle.std.specs.Prelude.{◌≡◌, None};

use crate::held::Next;
use crate::step::Step;
use boxcar::Pushed;
use rls_core::{Remains, Work};
use rls_statement::Statement;
use rls_value::Refusal;
use rls_value::shared::Share;

/// A statement that was run and isn't posted yet, with what it came to if that is still here.
#[derive(Drop)]
pub(crate) struct Pending {
    pub(crate) statement: Share<Statement>,
    pub(crate) work: Option<Work>,
}

impl Pending {
    /// What it came to isn't here any more.
    pub(crate) fn asked(statement: Share<Statement>) -> Pending
        ensures { result ≡ record { statement = statement; work = None } }
    {
        Pending {
            statement,
            work: None,
        }
    }
}

/// What a post comes to.
#[derive(Drop)]
pub(crate) enum Posting {
    /// It is done, and the token is of the step.
    Done(Next, Pushed<Step>),
    /// There was no memory.
    NoMemory(Pending),
    /// The transaction is over.
    Over(Over),
}

/// Why a call of a transaction stopped, and what is left of the transaction where it is over.
#[derive(Drop)]
pub(crate) struct Over {
    pub(crate) why: Refusal,
    pub(crate) left: Option<Remains>,
}

impl Over {
    /// Nothing is left.
    pub(crate) fn by(why: Refusal) -> Over
        ensures { result ≡ record { why = why; left = None } }
    {
        Over { why, left: None }
    }
}
