//! The record of transactions.

ghost use Rattle.std.specs.Prelude.{◌≡◌, ◌↔◌, IsTrue, ℕ, [], true, false, Some, None, length, IfOk, OnOk, IfErr, OnErr, MatchOption, suc, slice_get};
ghost use Rattle.std.specs.Option.{option_map, option_copied};
ghost use Rattle.std.specs.List.{list_any};
ghost use Rattle.rls_conflict.specs.Kept.{all_committed, committed_seen};
ghost use Rattle.rls_conflict.specs.Known.{nothing_known, has_number, is_running, running_of, with_commit_of, beginning, posted, IsNew, AreFound, HaveBegun, Becomes, HasCommitted, ArePromoted};
ghost use Rattle.rls_conflict.specs.Causes.{IsCauseOf, IsInNoStructure, IsBarredBy};
ghost use Rattle.rls_conflict.specs.Commits.{IsReady};
ghost use Rattle.rls_conflict.specs.Written.{IsFree, IsRefusedBy};

use crate::committed::Committed;
use crate::forgetting::{oldest, release_old};
use crate::part::part_of;
use crate::posting::{enter, release_parts, take_in};
use crate::promoting::promoted_all;
use crate::ready::Ready;
use crate::running::Running;
use crate::transaction::Transaction;
use rls_catalog::Delta;
use rls_siread::{LockTable, Sireads};
use rls_source::Footprint;
use rls_value::{Cause, Refusal};
use std::alloc::{AllocError, Global};
use std::collections::BTreeMap;
use std::marker::Model;

/// What is known of transactions: those that run, and, for good, those that committed.
#[derive(Drop)]
pub struct Conflicts {
    pub(crate) committed: Vec<Committed>,
    pub(crate) running: BTreeMap<u64, Running>,
    // Who read an object, and who wrote it, of those that run, and of those that committed at the floor or later.
    pub(crate) sireads: Sireads,
    pub(crate) writers: LockTable,
    pub(crate) floor: usize,
}

impl Model for Conflicts {
    ghost use Rattle.std.specs.Vec.{vec_len, vec_capacity};
    ghost use Rattle.rls_conflict.specs.Known.{Known};
    ghost use Rattle.rls_conflict.specs.KnownCode.{known_code};
    ghost use Rattle.rls_conflict.specs.Kept.{IsWhole, known_by};

    ghost Value = { Known };

    ghost coded = { known_code };

    ghost view = { λ it. known_by it.committed.items it.running.entries it.sireads };

    ghost invariant = { λ it. IsWhole it.committed.items (vec_len it.committed) (vec_capacity it.committed) it.running.entries it.sireads it.writers it.floor };
}

impl Conflicts {
    /// No transactions.
    pub fn new(alloc: Global) -> Conflicts
        ensures { result ≡ nothing_known }
    {
        Conflicts {
            committed: Vec::new(alloc),
            running: BTreeMap::new(alloc),
            sireads: Sireads::new(alloc),
            writers: LockTable::new(alloc),
            floor: 0,
        }
    }

    /// Each that runs is the one that its number finds, and began after commits that there were; each that committed
    /// began before its commit.
    pub fn stands(&self)
        ensures found { AreFound self.now }
        ensures begun { HaveBegun self.now }
    {
        let _ = &self.committed;
        let _ = self.running.iter();
    }

    /// Whether the transaction runs.
    pub fn is_running(&self, txn: u64) -> bool
        ensures { result ≡ is_running self.now txn }
    {
        self.running.contains_key(&txn)
    }

    /// Whether no transaction has had the number. It looks at all that committed.
    pub fn is_new(&self, txn: u64) -> bool
        ensures { IsTrue result ↔ IsNew self.now txn }
    {
        let running = self.is_running(txn);
        !running && !is_committed(self.committed.as_slice(), txn)
    }

    /// How many have committed.
    pub fn commits(&self) -> usize
        ensures { result ≡ length self.now.committed }
    {
        self.committed.len()
    }

    /// Begins a transaction after all commits so far, with room for its own. No other had its number.
    pub fn begin(&mut self, alloc: Global, txn: u64) -> Result<(), AllocError>
        requires { IsNew self.old txn }
        ensures ok { OnOk result (Becomes txn (Some (beginning txn (length self.old.committed))) self.old self.new) }
        ensures err { OnErr result (self.new ≡ self.old) }
    {
        let room = self.running.len() + 1;
        self.committed.reserve(room)?;
        let snap = self.committed.len();
        enter(alloc, &mut self.running, &mut self.sireads, txn, snap)?;
        Ok(())
    }

    /// Puts changes behind those of the transaction and notes what it read, in one step; refuses them as `writes` does. Where
    /// more than `limit` keys of one table are noted, or all of its rows, the rows stand for its keys.
    pub fn post(
        &mut self,
        alloc: Global,
        txn: u64,
        footprint: Footprint,
        delta: &Delta,
        limit: usize,
    ) -> Result<(), Refusal>
        requires { is_running self.old txn ≡ true }
        ensures free { OnOk result (IsFree self.old txn delta.now) }
        ensures ok { OnOk result (Becomes txn (option_map (posted limit footprint delta.now) (running_of self.old txn)) self.old self.new) }
        ensures err { IfErr result (IsRefusedBy self.old txn delta.now) }
        ensures kept { OnErr result (self.new ≡ self.old) }
    {
        self.writes(alloc, txn, delta)?;
        let part = part_of(alloc, delta)?;
        take_in(
            alloc,
            &mut self.running,
            &mut self.sireads,
            &mut self.writers,
            txn,
            footprint,
            part,
            limit,
        )?;
        Ok(())
    }

    /// Commits the transaction. It takes no memory.
    pub fn seal(&mut self, txn: u64, ready: Ready)
        requires running { is_running self.old txn ≡ true }
        requires ready { IsReady self.old txn ready }
        ensures { HasCommitted txn self.old self.new }
    {
        self.close(txn, ready);
        self.forget_old();
    }

    /// Puts the transaction behind those that committed.
    fn close(&mut self, txn: u64, ready: Ready)
        requires running { is_running self.old txn ≡ true }
        requires ready { IsReady self.old txn ready }
        ensures { HasCommitted txn self.old self.new }
    {
        self.running.remove(&txn);
        let commit = self.committed.len() + 1;
        self.sireads.committed(txn, commit as u64);
        let Ready {
            transaction,
            covered,
            read,
            readers,
        } = ready;
        self.committed.push_reserved(Committed {
            transaction,
            covered,
            read,
            readers,
        });
    }

    /// The indexes forget those that committed before all that run began.
    fn forget_old(&mut self)
        ensures committed { self.new.committed ≡ self.old.committed }
        ensures running { (txn : ℕ) → running_of self.new txn ≡ running_of self.old txn }
    {
        let floor = oldest(&self.running, self.committed.len());
        if self.floor < floor {
            release_old(
                self.committed.as_slice(),
                &mut self.writers,
                self.floor,
                floor,
            );
            self.sireads.forget_before(floor as u64);
            self.floor = floor;
        }
    }

    /// Commits the transaction, by `ready` and `seal`. It answers the number of the commit.
    pub fn commit(&mut self, alloc: Global, txn: u64) -> Result<usize, Refusal>
        requires { is_running self.old txn ≡ true }
        ensures number { IfOk result (λ commit. commit ≡ suc (length self.old.committed)) }
        ensures ok { OnOk result (HasCommitted txn self.old self.new) }
        ensures safe { OnOk result (IsInNoStructure (with_commit_of self.old txn) (length self.old.committed)) }
        ensures err { IfErr result (IsBarredBy self.old txn) }
        ensures kept { OnErr result (self.new ≡ self.old) }
    {
        let ready = self.ready(alloc, txn)?;
        self.seal(txn, ready);
        Ok(self.commits())
    }

    /// Takes the transaction away, with all that it noted and changed.
    pub fn rollback(&mut self, txn: u64)
        ensures { Becomes txn None self.old self.new }
    {
        self.take_away(txn);
        self.forget_old();
    }

    /// Takes the transaction out, where it runs.
    fn take_away(&mut self, txn: u64)
        ensures { Becomes txn None self.old self.new }
    {
        if let Some(it) = self.running.remove(&txn) {
            release_parts(&mut self.writers, txn, it.covered());
            self.sireads.forget(txn);
        }
    }

    /// Puts the rows of a table in place of its keys wherever a transaction noted more than `limit` of them, those that
    /// committed too; their rw-antidependencies are made anew. An `Err` leaves all as it was.
    pub fn promote(&mut self, alloc: Global, limit: usize) -> Result<(), AllocError>
        ensures ok { OnOk result (ArePromoted limit self.old self.new) }
        ensures err { OnErr result (self.new ≡ self.old) }
    {
        let room = self.committed.len() + self.running.len();
        let committed = promoted_all(alloc, self.committed.as_slice(), room, limit)?;
        self.sireads.promote(alloc, limit)?;
        self.committed = committed;
        Ok(())
    }
}

/// Whether one of them has the number.
fn is_committed(committed: &[Committed], txn: u64) -> bool
    ensures { result ≡ list_any (has_number txn) (all_committed committed.now) }
{
    for it in committed {
        if has_number(it, txn) {
            return true;
        }
    }
    false
}

fn has_number(it: &Committed, txn: u64) -> bool
    ensures { result ≡ has_number txn (committed_seen it.now) }
{
    txn == it.transaction.get().number
}
