//! A transaction that runs.

ghost use Rattle.std.specs.Prelude.{◌≡◌, if◌then◌else◌, OnOk, OnErr};
ghost use Rattle.rls_value.specs.declared.object.Object.{Object as Written};
ghost use Rattle.rls_catalog.specs.Bases.{covers_any};
ghost use Rattle.rls_source.specs.Footprints.{is_among};
ghost use Rattle.rls_siread.specs.Locks.{noted_by, arrived, HasNoted};
ghost use Rattle.rls_siread.specs.Index.{shown, held_at};
ghost use Rattle.rls_siread.specs.Promotion.{noted_with};
ghost use Rattle.rls_conflict.specs.Begun.{begun_at, with_changes, AreParts};

use crate::part::Part;
use rls_catalog::Change;
use rls_siread::{LockTable, Sireads};
use rls_source::Footprint;
use std::alloc::{AllocError, Global};
use std::marker::Model;

/// A transaction that runs: how many had committed when it began, and its changes, with the objects that those of each post cover.
#[derive(Drop)]
pub(crate) struct Running {
    snap: usize,
    changes: Vec<Change>,
    covered: Vec<Footprint>,
}

impl Model for Running {
    ghost use Rattle.rls_conflict.specs.Begun.{Begun, begun_code, AreParts};

    ghost Value = { Begun };

    ghost coded = { begun_code };

    ghost view = { λ it. record { snap = it.snap; changes = it.changes.items } };

    // The parts are what its changes cover.
    ghost invariant = { λ it. AreParts it.covered.items it.changes.items };
}

impl Running {
    /// One that begins where so many have committed.
    pub(crate) fn new(alloc: Global, snap: usize) -> Running
        ensures { result ≡ begun_at snap }
    {
        Running {
            snap,
            changes: Vec::new(alloc),
            covered: Vec::new(alloc),
        }
    }

    /// How many had committed when it began.
    pub(crate) fn snap(&self) -> usize
        ensures { result ≡ self.now.snap }
    {
        self.snap
    }

    pub(crate) fn changes(&self) -> &[Change]
        ensures { result.now ≡ self.now.changes }
    {
        self.changes.as_slice()
    }

    /// The objects that its changes cover, a part for each post.
    pub(crate) fn covered(&self) -> &[Footprint]
        ensures { AreParts result.now self.now.changes }
    {
        self.covered.as_slice()
    }

    /// Puts the changes of a part behind its own, and notes what it read and what it wrote. An `Err` leaves all as it was.
    pub(crate) fn post(
        &mut self,
        alloc: Global,
        sireads: &mut Sireads,
        writers: &mut LockTable,
        txn: u64,
        footprint: Footprint,
        part: Part,
        limit: usize,
    ) -> Result<(), AllocError>
        requires { (object : Written) → is_among part.covered object ≡ covers_any object part.changes.items }
        ensures changes { OnOk result (self.new ≡ with_changes part.changes.items self.old) }
        ensures noted { OnOk result (HasNoted txn (noted_with limit (noted_by sireads.old txn) footprint) sireads.old sireads.new) }
        ensures written { OnOk result ((object : Written) → held_at writers.new object ≡ (if is_among part.covered object then arrived (held_at writers.old object) txn else held_at writers.old object)) }
        ensures err_changes { OnErr result (self.new ≡ self.old) }
        ensures err_noted { OnErr result (sireads.new ≡ sireads.old) }
        ensures err_written { OnErr result (shown writers.new ≡ shown writers.old) }
    {
        let Part { changes, covered } = part;
        let mut changes = changes;
        self.changes.reserve(changes.len())?;
        self.covered.reserve(1)?;
        writers.make_room(alloc, txn, &covered)?;
        sireads.note(alloc, txn, footprint, limit)?;
        writers.hold_all(txn, &covered);
        let appended = self.changes.append(&mut changes);
        prove!(appended.is_ok());
        self.covered.push_reserved(covered);
        Ok(())
    }
}
