//! The holders of one object.

ghost use Rattle.std.specs.Prelude.{◌≡◌, true, [], ◌∷◌, ◌<◌, ◌≤◌, ◌||◌, nat_lt, IsTrue, ◌↔◌, IfOk, OnOk, OnErr};
ghost use Rattle.rls_siread.specs.Locks.{is_number_in, arrived, all_arrived, without};

use crate::queue::Queue;
use std::alloc::{AllocError, Global};
use std::marker::Model;
use std::{mem, slice};

/// The transactions that hold an object, each once, in the order of their first notes of it.
#[derive(Drop)]
pub(crate) struct Holders {
    txns: Txns,
}

// Mostly one transaction alone holds an object: it takes no memory of its own.
#[derive(Drop)]
enum Txns {
    Nobody,
    One(u64),
    More(Queue),
}

impl Model for Holders {
    ghost use Rattle.rls_siread.specs.Holders.{holder_list_of};
    ghost use Rattle.rls_siread.specs.Index.{HolderList};
    ghost use Rattle.rls_siread.specs.LocksCode.{held_code};

    ghost Value = { HolderList };

    ghost coded = { held_code };

    ghost view = { λ it. holder_list_of it.txns };
}

impl Holders {
    /// Nobody, with room for one.
    pub(crate) fn new() -> Holders
        ensures nobody { result.txns ≡ [] }
        ensures room { 0 < result.room }
    {
        Holders { txns: Txns::Nobody }
    }

    /// The transaction alone.
    pub(crate) fn alone(txn: u64) -> Holders
        ensures { result.txns ≡ txn ∷ [] }
    {
        Holders {
            txns: Txns::One(txn),
        }
    }

    /// Makes room for one more.
    pub(crate) fn make_room(&mut self, alloc: Global) -> Result<(), AllocError>
        ensures txns { self.new.txns ≡ self.old.txns }
        ensures ok { OnOk result (0 < self.new.room) }
        ensures kept { self.old.room ≤ self.new.room }
    {
        match mem::replace(&mut self.txns, Txns::Nobody) {
            Txns::Nobody => Ok(()),
            Txns::One(only) => self.make_more(alloc, only),
            Txns::More(mut queue) => {
                let made = queue.make_room();
                self.txns = Txns::More(queue);
                made
            }
        }
    }

    /// Is the transaction alone, with room for one more.
    fn make_more(&mut self, alloc: Global, only: u64) -> Result<(), AllocError>
        ensures txns { self.new.txns ≡ only ∷ [] }
        ensures ok { OnOk result (0 < self.new.room) }
    {
        match Queue::of(alloc, only) {
            Ok(queue) => {
                self.txns = Txns::More(queue);
                Ok(())
            }
            Err(refused) => {
                self.txns = Txns::One(only);
                Err(refused)
            }
        }
    }

    /// Puts the transaction behind the others, unless it is there.
    pub(crate) fn add(&mut self, alloc: Global, txn: u64) -> Result<(), AllocError>
        ensures ok { OnOk result (self.new.txns ≡ arrived self.old.txns txn) }
    {
        self.make_room(alloc)?;
        self.hold(txn);
        Ok(())
    }

    /// Puts the others behind them, each unless it is there.
    pub(crate) fn add_all(&mut self, alloc: Global, others: &[u64]) -> Result<(), AllocError>
        ensures { OnOk result (self.new.txns ≡ all_arrived self.old.txns others.now) }
    {
        for txn in others {
            self.add(alloc, *txn)?;
        }
        Ok(())
    }

    /// The same as `add`, where it is there or fits.
    pub(crate) fn hold(&mut self, txn: u64)
        requires { (is_number_in self.old.txns txn || nat_lt 0 self.old.room) ≡ true }
        ensures { self.new.txns ≡ arrived self.old.txns txn }
    {
        match mem::replace(&mut self.txns, Txns::Nobody) {
            Txns::Nobody => self.txns = Txns::One(txn),
            // The transaction is the one.
            Txns::One(only) => self.txns = Txns::One(only),
            Txns::More(mut queue) => {
                queue.hold(txn);
                self.txns = Txns::More(queue);
            }
        }
    }

    /// Takes the transaction out; whether nobody is left.
    pub(crate) fn release(&mut self, txn: u64) -> bool
        ensures txns { self.new.txns ≡ without self.old.txns txn }
        ensures nobody { IsTrue result ↔ (self.new.txns ≡ []) }
    {
        match mem::replace(&mut self.txns, Txns::Nobody) {
            Txns::Nobody => true,
            Txns::One(only) => self.keep_other(only, txn),
            Txns::More(mut queue) => {
                let nobody_left = queue.release(txn);
                self.txns = Txns::More(queue);
                nobody_left
            }
        }
    }

    /// Is the one alone, unless it is the transaction; whether nobody is left.
    fn keep_other(&mut self, only: u64, txn: u64) -> bool
        requires { self.old.txns ≡ [] }
        ensures txns { self.new.txns ≡ without (only ∷ []) txn }
        ensures nobody { IsTrue result ↔ (self.new.txns ≡ []) }
    {
        if txn == only {
            return true;
        }
        self.txns = Txns::One(only);
        false
    }

    pub(crate) fn copy(&self, alloc: Global) -> Result<Holders, AllocError>
        ensures { IfOk result (λ copied. copied.txns ≡ self.now.txns) }
    {
        match &self.txns {
            Txns::Nobody => Ok(Holders::new()),
            Txns::One(only) => Ok(Holders::alone(*only)),
            Txns::More(queue) => copy_of(alloc, queue),
        }
    }

    /// Whether the transaction is one of them.
    pub(crate) fn contains(&self, txn: u64) -> bool
        ensures { result ≡ is_number_in self.now.txns txn }
    {
        match &self.txns {
            Txns::Nobody => false,
            Txns::One(only) => txn == *only,
            Txns::More(queue) => queue.contains(txn),
        }
    }

    /// The transactions, in that order.
    pub(crate) fn as_slice(&self) -> &[u64]
        ensures { result.now ≡ self.now.txns }
    {
        match &self.txns {
            Txns::Nobody => &[],
            Txns::One(only) => slice::from_ref(only),
            Txns::More(queue) => queue.as_slice(),
        }
    }
}

fn copy_of(alloc: Global, queue: &Queue) -> Result<Holders, AllocError>
    ensures { IfOk result (λ copied. copied.txns ≡ queue.now.txns) }
{
    let mut copied = Holders::new();
    copied.add_all(alloc, queue.as_slice())?;
    Ok(copied)
}
