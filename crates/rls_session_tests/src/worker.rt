//! The transactions of one thread.

ghost use Rattle.std.specs.Prelude.{◌≡◌};
ghost use Rattle.rls_session.specs.rls_engine.specs.Led.{AsksNothing};

use crate::opening::{begin_as_postgres, finish, post_text};
use rls_session::rls_engine::{Engine, Named, Receipt, Seen, Txn};
use rls_value::Refusal;
use std::alloc::Global;
use std::sync::Wait;

/// Transactions over keys that all of them read and write.
#[derive(Clone, Copy)]
pub struct Load {
    /// So many rows of transactions.
    pub workers: u64,
    /// So many of them at once.
    pub threads: usize,
    /// So many transactions in each, each tried once.
    pub turns: u64,
    /// So many keys.
    pub keys: u64,
    /// So many reads of a key, and then so many updates of one.
    pub reads: u64,
    pub updates: u64,
}

/// What a thread leaves: what it has learnt, its receipts, and how many transactions were refused with 40001 or by anything else.
#[derive(Drop)]
pub struct Worker<N: Named> {
    pub seen: Seen<N>,
    pub receipts: Vec<Receipt<N>>,
    pub conflicts: u64,
    pub faults: u64,
    place: u64,
}

impl<N: Named> Worker<N> {
    pub fn new(alloc: Global, place: u64, all: &Seen<N>) -> Worker<N> {
        Worker {
            seen: all.alike(),
            receipts: Vec::new(alloc),
            conflicts: 0,
            faults: 0,
            place,
        }
    }

    /// Counts what came of a transaction.
    fn count(&mut self, ended: Result<Receipt<N>, Refusal>)
        requires wide { N.parts ≡ 18446744073709551615 }
    {
        match ended {
            Ok(receipt) => self.keep(receipt),
            Err(Refusal::Serial(cause)) => {
                drop(cause);
                self.conflicts = self.conflicts.wrapping_add(1);
            }
            Err(refusal) => {
                drop(refusal);
                self.faults = self.faults.wrapping_add(1);
            }
        }
    }

    /// Learns a receipt, and keeps it.
    fn keep(&mut self, receipt: Receipt<N>)
        requires wide { N.parts ≡ 18446744073709551615 }
    {
        let mut receipt = receipt;
        self.seen.learn(&mut receipt);
        if self.receipts.push(receipt).is_err() {
            self.faults = self.faults.wrapping_add(1);
        }
    }
}

/// A worker at an engine, with the load that it runs.
#[derive(Drop)]
pub struct Seat<'a, N: Named> {
    alloc: Global,
    engine: &'a Engine<N>,
    load: Load,
    worker: Worker<N>,
}

impl<'a, N: Named> Seat<'a, N> {
    pub fn new(alloc: Global, engine: &'a Engine<N>, load: Load, worker: Worker<N>) -> Seat<'a, N> {
        Seat {
            alloc,
            engine,
            load,
            worker,
        }
    }

    /// Runs its transactions.
    pub fn run<R: Wait>(&mut self, rt: &R)
        requires wide { N.parts ≡ 18446744073709551615 }
        requires asks { AsksNothing N.asks }
    {
        for turn in 0..self.load.turns {
            self.turn(rt, turn);
        }
    }

    /// One transaction.
    fn turn<R: Wait>(&mut self, rt: &R, turn: u64)
        requires wide { N.parts ≡ 18446744073709551615 }
        requires asks { AsksNothing N.asks }
    {
        let lot = self.worker.place.wrapping_mul(1_000_003).wrapping_add(turn);
        let seen = &self.worker.seen;
        let ended = transact(rt, self.alloc, self.engine, seen, self.load, lot);
        self.worker.count(ended);
    }

    /// The worker, which leaves.
    pub fn leave(self) -> Worker<N> {
        self.worker
    }
}

/// One transaction of the load.
fn transact<N: Named, R: Wait>(
    rt: &R,
    alloc: Global,
    engine: &Engine<N>,
    seen: &Seen<N>,
    load: Load,
    lot: u64,
) -> Result<Receipt<N>, Refusal>
    requires asks { AsksNothing N.asks }
{
    let mut txn = engine.begin(rt, begin_as_postgres(alloc)?, seen)?;
    match post_drawn(rt, alloc, &mut txn, load, lot) {
        Ok(()) => finish(rt, txn),
        Err(refusal) => {
            txn.rollback(rt);
            Err(refusal)
        }
    }
}

/// The reads, then the updates, of keys that are drawn from the lot.
fn post_drawn<N: Named, R: Wait>(
    rt: &R,
    alloc: Global,
    txn: &mut Txn<'_, N>,
    load: Load,
    lot: u64,
) -> Result<(), Refusal>
    requires asks { AsksNothing N.asks }
{
    let mut lot = lot;
    for _ in 0..load.reads {
        lot = drawn(lot);
        read(rt, alloc, txn, key_of(lot, load.keys))?;
    }
    for _ in 0..load.updates {
        lot = drawn(lot);
        count_up(rt, alloc, txn, key_of(lot, load.keys))?;
    }
    Ok(())
}

/// The next number of a row of numbers that looks drawn by lot.
fn drawn(lot: u64) -> u64 {
    lot.wrapping_mul(6_364_136_223_846_793_005)
        .wrapping_add(1_442_695_040_888_963_407)
}

/// One of so many keys.
fn key_of(lot: u64, keys: u64) -> u64 {
    if keys == 0 { 0 } else { (lot >> 33) % keys }
}

fn read<N: Named, R: Wait>(
    rt: &R,
    alloc: Global,
    txn: &mut Txn<'_, N>,
    key: u64,
) -> Result<(), Refusal>
    requires asks { AsksNothing N.asks }
{
    let text = format!(in alloc; "SELECT v FROM x WHERE id = {key}")?;
    let reply = post_text(rt, alloc, txn, text.as_str())?;
    drop(reply);
    Ok(())
}

fn count_up<N: Named, R: Wait>(
    rt: &R,
    alloc: Global,
    txn: &mut Txn<'_, N>,
    key: u64,
) -> Result<(), Refusal>
    requires asks { AsksNothing N.asks }
{
    let text = format!(in alloc; "UPDATE x SET v = v + 1 WHERE id = {key}")?;
    let reply = post_text(rt, alloc, txn, text.as_str())?;
    drop(reply);
    Ok(())
}
