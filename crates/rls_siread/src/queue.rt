//! Numbers in order of arrival, which mostly go in that order too.

ghost use Rattle.std.specs.Prelude.{◌≡◌, true, [], ◌∷◌, ◌<◌, ◌≤◌, ◌||◌, nat_eq, nat_lt, IsTrue, ◌↔◌, length, drop, remove, IfOk, OnOk};
ghost use Rattle.std.specs.List.{IsDistinct};
ghost use Rattle.indexmap.specs.IndexSet.{spare};
ghost use Rattle.rls_siread.specs.Locks.{is_number_in, arrived, without};

use indexmap::IndexSet;
use std::alloc::{AllocError, Global};
use std::marker::Model;

/// Numbers, each once, in order of arrival. One that goes moves in front of the others, and stays there as one that is gone:
/// that costs no more than there are before it, however many are behind. Those that are gone are dropped once they are more
/// than the others.
#[derive(Drop)]
pub(crate) struct Queue {
    set: IndexSet<u64>,
    // So many of the set, from its front, are gone.
    gone: usize,
}

impl Model for Queue {
    ghost use Rattle.std.specs.Prelude.{◌≤◌, length, drop};
    ghost use Rattle.indexmap.specs.IndexSet.{spare};
    ghost use Rattle.rls_siread.specs.Index.{HolderList};
    ghost use Rattle.rls_siread.specs.LocksCode.{held_code};

    ghost Value = { HolderList };

    ghost coded = { held_code };

    ghost view = { λ it. record { txns = drop it.gone it.set.keys; room = spare it.set } };

    ghost invariant = { λ it. it.gone ≤ length it.set.keys };
}

impl Queue {
    /// The number alone, with room for one more.
    pub(crate) fn of(alloc: Global, only: u64) -> Result<Queue, AllocError>
        ensures txns { IfOk result (λ queue. queue.txns ≡ only ∷ []) }
        ensures room { IfOk result (λ queue. 0 < queue.room) }
    {
        let mut set = IndexSet::with_capacity(alloc, 2)?;
        let put = set.insert(only);
        prove!(put.is_ok());
        Ok(Queue { set, gone: 0 })
    }

    /// Makes room for one more.
    pub(crate) fn make_room(&mut self) -> Result<(), AllocError>
        ensures txns { self.new.txns ≡ self.old.txns }
        ensures ok { OnOk result (0 < self.new.room) }
        ensures kept { self.old.room ≤ self.new.room }
    {
        self.set.reserve(1)
    }

    /// Puts the number behind the others, unless it is there. It takes no memory.
    #[tactic(auto, using(crate::proofs::QueueLaws::arrived_behind))]
    pub(crate) fn hold(&mut self, txn: u64)
        requires { (is_number_in self.old.txns txn || nat_lt 0 self.old.room) ≡ true }
        ensures { self.new.txns ≡ arrived self.old.txns txn }
    {
        self.gone = unless_gone(&mut self.set, self.gone, txn);
        let held = self.set.insert(txn);
        prove!(held.is_ok());
    }

    /// Takes the number out; whether none is left.
    #[tactic(auto, using(crate::proofs::QueueLaws::all_gone, crate::proofs::QueueLaws::none_left))]
    pub(crate) fn release(&mut self, txn: u64) -> bool
        ensures txns { self.new.txns ≡ without self.old.txns txn }
        ensures nobody { IsTrue result ↔ (self.new.txns ≡ []) }
    {
        let gone = take_out(&mut self.set, self.gone, txn);
        self.gone = shortened(&mut self.set, gone);
        self.gone == self.set.len()
    }

    /// Whether the number is one of them, in time that doesn't grow with theirs.
    pub(crate) fn contains(&self, txn: u64) -> bool
        ensures { result ≡ is_number_in self.now.txns txn }
    {
        is_behind(&self.set, self.gone, txn)
    }

    /// The numbers, in order of arrival.
    pub(crate) fn as_slice(&self) -> &[u64]
        ensures txns { result.now ≡ self.now.txns }
        ensures distinct { IsDistinct nat_eq result.now }
    {
        &self.set.as_slice()[self.gone..]
    }
}

/// Whether the number is one of those that aren't gone.
fn is_behind(set: &IndexSet<u64>, gone: usize, txn: u64) -> bool
    ensures { result ≡ is_number_in (drop gone set.now.keys) txn }
{
    let _distinct = set.len();
    match set.get_index_of(&txn) {
        Some(place) => gone <= place,
        None => false,
    }
}

/// Takes the number out of those that aren't gone. How many are gone then.
fn take_out(set: &mut IndexSet<u64>, gone: usize, txn: u64) -> usize
    requires { gone ≤ length set.old.keys }
    ensures txns { drop result set.new.keys ≡ without (drop gone set.old.keys) txn }
    ensures within { result ≤ length set.new.keys }
{
    let _distinct = set.len();
    match set.get_index_of(&txn) {
        Some(place) => {
            if place < gone {
                return gone;
            }
            take_at(set, gone, place)
        }
        None => gone,
    }
}

/// Takes out what is at the place. How many are gone then.
#[tactic(auto, using(crate::proofs::QueueLaws::moved_front, crate::proofs::QueueLaws::moved_within, crate::proofs::QueueLaws::removed_within))]
fn take_at(set: &mut IndexSet<u64>, gone: usize, place: usize) -> usize
    requires gone { gone ≤ place }
    requires within { place < length set.old.keys }
    ensures txns { drop result set.new.keys ≡ drop gone (remove set.old.keys place) }
    ensures within { result ≤ length set.new.keys }
{
    // What moves is the shorter of what stands before it and what stands behind it.
    if place - gone < set.len() - place {
        set.move_index(place, gone);
        return gone + 1;
    }
    set.shift_remove_index(place);
    gone
}

/// Drops those that are gone, if the number is one of them: it comes again as a new one. How many are gone then.
#[tactic(auto, using(crate::proofs::QueueLaws::absent_alike))]
fn unless_gone(set: &mut IndexSet<u64>, gone: usize, txn: u64) -> usize
    requires { gone ≤ length set.old.keys }
    ensures txns { drop result set.new.keys ≡ drop gone set.old.keys }
    ensures within { result ≤ length set.new.keys }
    ensures room { spare set.old ≤ spare set.new }
    ensures left { is_number_in (drop result set.new.keys) txn ≡ is_number_in set.new.keys txn }
{
    if gone == 0 {
        return 0;
    }
    if !set.contains(&txn) {
        return gone;
    }
    drop_gone(set, gone);
    0
}

/// Drops those that are gone, once they are more than the others. How many are gone then.
fn shortened(set: &mut IndexSet<u64>, gone: usize) -> usize
    requires { gone ≤ length set.old.keys }
    ensures txns { drop result set.new.keys ≡ drop gone set.old.keys }
    ensures within { result ≤ length set.new.keys }
{
    if gone > set.len() - gone {
        drop_gone(set, gone);
        return 0;
    }
    gone
}

/// Drops those that are gone.
fn drop_gone(set: &mut IndexSet<u64>, gone: usize)
    requires { gone ≤ length set.old.keys }
    ensures keys { set.new.keys ≡ drop gone set.old.keys }
    ensures room { spare set.old ≤ spare set.new }
{
    drop(set.drain(..gone));
}
