//! Beginnings and posts, and what rollbacks take away, by the parts of the record.

ghost use Rattle.std.specs.Prelude.{◌≡◌, ℕ, [], true, nat_eq, if◌then◌else◌, length, None, Some, suc, OnOk, OnErr};
ghost use Rattle.std.specs.List.{list_any};
ghost use Rattle.std.specs.Option.{is_some, option_map};
ghost use Rattle.rls_value.specs.declared.object.Object.{Object as Written};
ghost use Rattle.rls_catalog.specs.Bases.{covers_any};
ghost use Rattle.rls_source.specs.Footprints.{is_among};
ghost use Rattle.rls_siread.specs.Locks.{noted_by, notes_at, arrived, without, HasNoted};
ghost use Rattle.rls_siread.specs.Index.{shown, held_at};
ghost use Rattle.rls_siread.specs.Promotion.{noted_with};
ghost use Rattle.rls_conflict.specs.Begun.{begun_at, with_changes, at_number};

use crate::part::Part;
use crate::running::Running;
use rls_siread::{LockTable, Sireads};
use rls_source::Footprint;
use std::alloc::{AllocError, Global};
use std::collections::BTreeMap;

/// One that begins where so many have committed, and has noted nothing.
pub(crate) fn enter(
    alloc: Global,
    running: &mut BTreeMap<u64, Running>,
    sireads: &mut Sireads,
    txn: u64,
    snap: usize,
) -> Result<(), AllocError>
    requires absent { at_number txn running.old.entries ≡ None }
    requires unnoted { notes_at sireads.old.notes txn ≡ None }
    ensures running { OnOk result ((other : ℕ) → at_number other running.new.entries ≡ (if nat_eq txn other then Some (begun_at snap) else at_number other running.old.entries)) }
    ensures size { OnOk result (length running.new.entries ≡ suc (length running.old.entries)) }
    ensures noted { OnOk result ((other : ℕ) → notes_at sireads.new.notes other ≡ (if nat_eq txn other then Some (record { commit = None; objects = [] }) else notes_at sireads.old.notes other)) }
    ensures err_running { OnErr result (running.new.entries ≡ running.old.entries) }
    ensures err_noted { OnErr result ((other : ℕ) → notes_at sireads.new.notes other ≡ notes_at sireads.old.notes other) }
{
    let nothing = Footprint::new(alloc);
    sireads.note(alloc, txn, nothing, 0)?;
    match running.insert(txn, Running::new(alloc, snap)) {
        Ok(_) => Ok(()),
        Err(_) => {
            sireads.forget(txn);
            Err(AllocError)
        }
    }
}

/// Puts a part behind the changes of the transaction, and notes what it read and what it wrote.
pub(crate) fn take_in(
    alloc: Global,
    running: &mut BTreeMap<u64, Running>,
    sireads: &mut Sireads,
    writers: &mut LockTable,
    txn: u64,
    footprint: Footprint,
    part: Part,
    limit: usize,
) -> Result<(), AllocError>
    requires there { is_some (at_number txn running.old.entries) ≡ true }
    requires covered { (object : Written) → is_among part.covered object ≡ covers_any object part.changes.items }
    ensures running { OnOk result ((other : ℕ) → at_number other running.new.entries ≡ (if nat_eq txn other then option_map (with_changes part.changes.items) (at_number txn running.old.entries) else at_number other running.old.entries)) }
    ensures size { OnOk result (length running.new.entries ≡ length running.old.entries) }
    ensures noted { OnOk result (HasNoted txn (noted_with limit (noted_by sireads.old txn) footprint) sireads.old sireads.new) }
    ensures written { OnOk result ((object : Written) → held_at writers.new object ≡ (if is_among part.covered object then arrived (held_at writers.old object) txn else held_at writers.old object)) }
    ensures err_running { OnErr result (running.new.entries ≡ running.old.entries) }
    ensures err_noted { OnErr result (sireads.new ≡ sireads.old) }
    ensures err_written { OnErr result (shown writers.new ≡ shown writers.old) }
{
    match running.get_mut(&txn) {
        Some(it) => match it.post(alloc, sireads, writers, txn, footprint, part, limit) {
            Ok(()) => Ok(()),
            Err(refused) => Err(refused),
        },
        None => {
            drop(footprint);
            drop(part);
            Ok(())
        }
    }
}

/// The transaction holds no object of the parts.
pub(crate) fn release_parts(writers: &mut LockTable, txn: u64, parts: &[Footprint])
    ensures { (object : Written) → held_at writers.new object ≡ (if list_any (λ part. is_among part object) parts.now then without (held_at writers.old object) txn else held_at writers.old object) }
{
    for part in parts {
        writers.release_all(txn, part);
    }
}
