//! Who holds each object.

ghost use Rattle.std.specs.Prelude.{◌≡◌, [], true, if◌then◌else◌, OnOk};
ghost use Rattle.rls_value.specs.declared.object.Object.{Object as Read};
ghost use Rattle.rls_source.specs.Footprints.{is_among};
ghost use Rattle.rls_siread.specs.Locks.{is_number_in, arrived, without};
ghost use Rattle.rls_siread.specs.Index.{shown, held_at, is_ready};

use crate::index::Index;
use rls_source::Footprint;
use rls_value::Object;
use std::alloc::{AllocError, Global};
use std::marker::Model;

/// The transactions that hold each object, in the order in which they came to hold it.
#[derive(Drop)]
pub struct LockTable {
    index: Index,
}

impl Model for LockTable {
    ghost use Rattle.std.specs.Prelude.{List};
    ghost use Rattle.rls_value.specs.declared.object.Object.{Object};
    ghost use Rattle.rls_siread.specs.Index.{HolderList};
    ghost use Rattle.rls_siread.specs.LocksCode.{table_code};

    ghost Value = { List (Object × HolderList) };

    ghost coded = { table_code };

    ghost view = { λ it. it.index.holders.entries };
}

impl LockTable {
    /// Nobody holds anything.
    pub fn new(alloc: Global) -> LockTable
        ensures { result ≡ [] }
    {
        LockTable {
            index: Index::new(alloc),
        }
    }

    /// The transactions that hold the object.
    pub fn held(&self, object: &Object) -> &[u64]
        ensures { result.now ≡ held_at self.now object.now }
    {
        self.index.held(object)
    }

    /// Whether the transaction holds the object. It doesn't go through the others that do.
    pub fn holds(&self, txn: u64, object: &Object) -> bool
        ensures { result ≡ is_number_in (held_at self.now object.now) txn }
    {
        self.index.holds(txn, object)
    }

    /// Makes room for the transaction under each of the objects. Nobody holds more or less.
    pub fn make_room(
        &mut self,
        alloc: Global,
        txn: u64,
        objects: &Footprint,
    ) -> Result<(), AllocError>
        ensures shown { shown self.new ≡ shown self.old }
        ensures ready { OnOk result ((object : Read) → is_among objects.now object ≡ true → is_ready self.new txn object ≡ true) }
    {
        self.index.make_room(alloc, txn, objects)
    }

    /// The transaction holds each of the objects; it takes no memory.
    pub fn hold_all(&mut self, txn: u64, objects: &Footprint)
        requires { (object : Read) → is_among objects.now object ≡ true → is_ready self.old txn object ≡ true }
        ensures { (object : Read) → held_at self.new object ≡ (if is_among objects.now object then arrived (held_at self.old object) txn else held_at self.old object) }
    {
        self.index.hold_all(txn, objects);
    }

    /// The transaction holds none of the objects.
    pub fn release_all(&mut self, txn: u64, objects: &Footprint)
        ensures { (object : Read) → held_at self.new object ≡ (if is_among objects.now object then without (held_at self.old object) txn else held_at self.old object) }
    {
        self.index.release_all(txn, objects);
    }
}
