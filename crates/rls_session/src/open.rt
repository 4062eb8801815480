//! The transaction of an open block, and what is kept of one that was shown as committed.

ghost use Rattle.std.specs.Prelude.{◌≡◌, ◌≤◌, ◌+◌, length, None, IfOk, IfErr, IfSome};
ghost use Rattle.rls_engine.specs.Drafts.{RefusesBegin};
ghost use Rattle.rls_session.specs.Blocks.{started};
ghost use Rattle.rls_session.specs.Books.{IsBooked};
ghost use Rattle.rls_session.specs.Parts.{Block, part_by};
ghost use Rattle.rls_session.specs.Stops.{HasPosted, IsStarted, WhenStopped};

use crate::gate::{At, Gate, Point};
use rls_engine::rls_access::Reply;
use rls_engine::rls_core::Begin;
use rls_engine::{Book, Ended, Engine, Named, Place, PostFault, Seen, Txn};
use rls_statement::Statement;
use rls_value::shared::Share;
use rls_value::{Cause, Refusal};
use std::marker::Model;
use std::sync::Wait;
use std::time::Clock;

/// A transaction that was shown as committed: the newest commit that was learnt before it began, and where its record stands.
#[derive(Drop)]
pub struct Kept<N: Named> {
    pub(crate) heard: u64,
    pub(crate) place: Place<N>,
}

impl<N: Named> Model for Kept<N> {
    ghost use Rattle.std.specs.Prelude.{◌≤◌, ◌<◌};
    ghost use Rattle.rls_session.specs.Parts.{Shown, shown_code, part_of};

    ghost Value = { Shown };

    ghost coded = { shown_code };

    ghost view = { λ it. record { heard = it.heard; commit = it.place.number; part = part_of it.place.entry } };

    ghost invariant = { λ it. (it.heard ≤ it.place.entry.snap) × (it.place.entry.snap < it.place.number) };
}

impl<N: Named> Kept<N> {
    /// Where its record stands among those of a book, from 0.
    pub(crate) fn index(&self) -> usize
        ensures { self.now.commit ≡ result + 1 }
    {
        (self.place.number() - 1) as usize
    }

    /// The book has its record, where it is of the engine.
    pub(crate) fn agrees(&self, book: &Book)
        requires engine { book.now.commits ≡ N.commits }
        requires number { self.now.commit ≤ length book.now.seen.committed }
        ensures { IsBooked book.now.seen.committed self.now }
    {
        book.holds(&self.place);
    }
}

/// The transaction of an open block, with the newest commit that was learnt before it began. It must be spent.
pub struct Open<'a, N: Named> {
    pub(crate) heard: u64,
    pub(crate) txn: Txn<'a, N>,
}

impl<'a, N: Named> Model for Open<'a, N> {
    ghost use Rattle.std.specs.Prelude.{◌≡◌, ◌≤◌, None};
    ghost use Rattle.rls_session.specs.Parts.{Block, block_code, part_of};

    ghost Value = { Block };

    ghost coded = { block_code };

    ghost view = { λ it. record { heard = it.heard; role = it.txn.stand.running.ctx.role; part = part_of it.txn.stand.running.so_far } };

    ghost invariant = { λ it. (it.heard ≤ it.txn.stand.running.so_far.snap) × (it.txn.over ≡ None) };
}

/// What stops a call of a block.
pub(crate) enum Stopped<'a, N: Named> {
    /// 40001, which ended the transaction. It is none of its engine that runs where it isn't given, which no public call brings about.
    Over(Cause, Option<Ended<N>>),
    /// Want of memory; the block is as it was.
    NoMemory(Open<'a, N>),
    /// It is no transaction of this engine, which no public call brings about.
    Foreign,
}

impl<'a, N: Named> Open<'a, N> {
    /// Begins a transaction.
    pub(crate) fn begin<R: Wait>(
        rt: &R,
        engine: &'a Engine<N>,
        begin: Begin,
        seen: &Seen<N>,
    ) -> Result<Open<'a, N>, Refusal>
        ensures ok { IfOk result (IsStarted seen.now.number begin) }
        ensures why { IfErr result (RefusesBegin begin) }
    {
        let heard = seen.number();
        match engine.begin(rt, begin, seen) {
            Ok(txn) => Ok(Open { heard, txn }),
            Err(refusal) => Err(refusal),
        }
    }

    /// Runs a statement and posts it, and tells what it came to.
    pub(crate) fn post<R: Wait + Clock, G: Gate>(
        self,
        rt: &R,
        at: &At<'_, G>,
        asked: &Share<Statement>,
    ) -> Result<(Open<'a, N>, Result<Reply, Refusal>), Stopped<'a, N>>
        requires { N.asks asked.now }
        ensures ok { IfOk result (λ done. HasPosted self.entry asked.now done.0 done.1) }
        ensures err { IfErr result (WhenStopped self.entry) }
    {
        let Open { heard, mut txn } = self;
        if txn.run(asked).is_err() {
            return Err(Stopped::NoMemory(Open { heard, txn }));
        }
        at.pass(rt, Point::Ran);
        match txn.post(rt) {
            Ok(Some(told)) => Ok((Open { heard, txn }, told)),
            Ok(None) => {
                txn.rollback(rt);
                Err(Stopped::Foreign)
            }
            Err(PostFault::NoMemory) => Err(Stopped::NoMemory(Open { heard, txn })),
            Err(PostFault::Over) => {
                let (why, ended) = txn.give_up(rt);
                Err(stopped_by(why, ended))
            }
        }
    }

    /// Rolls it back. It takes no memory.
    pub(crate) fn rollback<R: Wait>(self, rt: &R) {
        let Open { heard: _, txn } = self;
        txn.rollback(rt);
    }

    /// The same, and gives what ended.
    #[tactic(auto, using(crate::proofs::TriedLemmas::stopped_part))]
    pub(crate) fn give_up<R: Wait>(self, rt: &R) -> Option<Ended<N>>
        ensures { IfSome result (λ it. part_by it ≡ self.entry.part) }
    {
        let Open { heard: _, txn } = self;
        let (why, ended) = txn.give_up(rt);
        drop(why);
        ended
    }
}

/// What ended a transaction stops the call.
pub(crate) fn stopped_by<'a, N: Named>(
    why: Option<Refusal>,
    ended: Option<Ended<N>>,
) -> Stopped<'a, N>
    ensures { (block : Block) → IfSome ended (λ it. part_by it ≡ block.part) → WhenStopped block result }
{
    match why {
        Some(Refusal::Serial(why)) => Stopped::Over(why, ended),
        other => {
            drop(other);
            drop(ended);
            Stopped::Foreign
        }
    }
}
