//! The index of holders by object.

ghost use Rattle.std.specs.Prelude.{◌≡◌, true, [], ◌∷◌, None, if◌then◌else◌, IfOk, OnOk};
ghost use Rattle.std.specs.BTreeMap.{is_at};
ghost use Rattle.std.specs.Map.{lookup};
ghost use Rattle.rls_value.specs.declared.object.Object.{Object as Read};
ghost use Rattle.rls_value.specs.Objects.{object_order};
ghost use Rattle.rls_source.specs.Footprints.{is_object, is_among};
ghost use Rattle.rls_siread.specs.Locks.{is_number_in, arrived, without};
ghost use Rattle.rls_siread.specs.Index.{shown, held_at, is_ready, KeepsReady};

use crate::holders::Holders;
use rls_source::Footprint;
use rls_value::Object;
use std::alloc::{AllocError, Global};
use std::collections::BTreeMap;

/// The holders of each object. Who has room made first holds without memory.
#[derive(Drop)]
pub(crate) struct Index {
    pub(crate) holders: BTreeMap<Object, Holders>,
}

impl Index {
    pub(crate) fn new(alloc: Global) -> Index
        ensures { result.holders.entries ≡ [] }
    {
        Index {
            holders: BTreeMap::new(alloc),
        }
    }

    /// One in which the transaction alone holds the objects. Where these come in order, in time linear in their number.
    pub(crate) fn alone(alloc: Global, txn: u64, objects: &Footprint) -> Result<Index, AllocError>
        ensures { IfOk result (λ index. (object : Read) → held_at index.holders.entries object ≡ (if is_among objects.now object then txn ∷ [] else [])) }
    {
        let mut places = Vec::with_capacity(alloc, objects.len())?;
        for object in objects.iter() {
            places.push(place_of(alloc, txn, object)?)?;
        }
        Ok(Index {
            holders: BTreeMap::from_iter(alloc, places)?,
        })
    }

    /// Whether there is no place.
    pub(crate) fn is_empty(&self) -> bool
        ensures { result ≡ true → self.now.holders.entries ≡ [] }
    {
        self.holders.is_empty()
    }

    /// Nobody holds anything.
    pub(crate) fn clear(&mut self)
        ensures { self.new.holders.entries ≡ [] }
    {
        self.holders.clear();
    }

    /// A copy, in which the same hold the same.
    pub(crate) fn copy(&self, alloc: Global) -> Result<Index, AllocError>
        ensures { IfOk result (λ copied. (object : Read) → held_at copied.holders.entries object ≡ held_at self.now.holders.entries object) }
    {
        let mut copied = Index::new(alloc);
        for object in self.holders.keys() {
            let held = self.copy_of(alloc, object)?;
            copied.put(alloc, object, held)?;
        }
        Ok(copied)
    }

    /// The holders of the object, in the order of their first notes of it.
    pub(crate) fn held(&self, object: &Object) -> &[u64]
        ensures { result.now ≡ held_at self.now.holders.entries object.now }
    {
        let _in_order = self.holders.len();
        match self.holders.get(object) {
            Some(held) => held.as_slice(),
            None => &[],
        }
    }

    /// Whether the transaction holds the object.
    pub(crate) fn holds(&self, txn: u64, object: &Object) -> bool
        ensures { result ≡ is_number_in (held_at self.now.holders.entries object.now) txn }
    {
        let _in_order = self.holders.len();
        match self.holders.get(object) {
            Some(held) => held.contains(txn),
            None => false,
        }
    }

    /// A copy of the holders of the object.
    fn copy_of(&self, alloc: Global, object: &Object) -> Result<Holders, AllocError>
        ensures { IfOk result (λ held. held.txns ≡ held_at self.now.holders.entries object.now) }
    {
        let _in_order = self.holders.len();
        match self.holders.get(object) {
            Some(held) => held.copy(alloc),
            None => Ok(Holders::new()),
        }
    }

    /// Puts the holders under a copy of the object.
    fn put(&mut self, alloc: Global, object: &Object, held: Holders) -> Result<(), AllocError>
        ensures { OnOk result ((other : Read) → held_at self.new.holders.entries other ≡ (if is_object other object.now then held.txns else held_at self.old.holders.entries other)) }
    {
        self.holders.insert(object.copy(alloc)?, held)?;
        Ok(())
    }

    /// Makes room for the transaction under each of the objects. Nobody holds more or less.
    pub(crate) fn make_room(
        &mut self,
        alloc: Global,
        txn: u64,
        objects: &Footprint,
    ) -> Result<(), AllocError>
        ensures shown { shown self.new.holders.entries ≡ shown self.old.holders.entries }
        ensures ready { OnOk result ((object : Read) → is_among objects.now object ≡ true → is_ready self.new.holders.entries txn object ≡ true) }
    {
        for object in objects.iter() {
            self.make_room_at(alloc, txn, object)?;
        }
        Ok(())
    }

    fn make_room_at(&mut self, alloc: Global, txn: u64, object: &Object) -> Result<(), AllocError>
        ensures shown { shown self.new.holders.entries ≡ shown self.old.holders.entries }
        ensures ready { OnOk result (is_ready self.new.holders.entries txn object.now ≡ true) }
        ensures kept { (other : Read) → KeepsReady self.old.holders.entries self.new.holders.entries txn other }
    {
        match self.holders.get_mut(object) {
            Some(held) => match held.make_room(alloc) {
                Ok(()) => Ok(()),
                Err(refused) => Err(refused),
            },
            None => self.make_place(alloc, txn, object),
        }
    }

    fn make_place(&mut self, alloc: Global, txn: u64, object: &Object) -> Result<(), AllocError>
        requires { lookup (is_at (object_order object.now)) self.old.holders.entries ≡ None }
        ensures shown { shown self.new.holders.entries ≡ shown self.old.holders.entries }
        ensures ready { OnOk result (is_ready self.new.holders.entries txn object.now ≡ true) }
        ensures kept { (other : Read) → KeepsReady self.old.holders.entries self.new.holders.entries txn other }
    {
        self.holders.insert(object.copy(alloc)?, Holders::new())?;
        Ok(())
    }

    /// The transaction holds each of the objects.
    pub(crate) fn hold_all(&mut self, txn: u64, objects: &Footprint)
        requires { (object : Read) → is_among objects.now object ≡ true → is_ready self.old.holders.entries txn object ≡ true }
        ensures { (object : Read) → held_at self.new.holders.entries object ≡ (if is_among objects.now object then arrived (held_at self.old.holders.entries object) txn else held_at self.old.holders.entries object) }
    {
        for object in objects.iter() {
            self.hold(txn, object);
        }
    }

    fn hold(&mut self, txn: u64, object: &Object)
        requires { is_ready self.old.holders.entries txn object.now ≡ true }
        ensures held { (other : Read) → held_at self.new.holders.entries other ≡ (if is_object other object.now then arrived (held_at self.old.holders.entries other) txn else held_at self.old.holders.entries other) }
        ensures kept { (other : Read) → KeepsReady self.old.holders.entries self.new.holders.entries txn other }
    {
        if let Some(held) = self.holders.get_mut(object) {
            held.hold(txn);
        }
    }

    /// The transaction holds none of the objects.
    pub(crate) fn release_all(&mut self, txn: u64, objects: &Footprint)
        ensures { (object : Read) → held_at self.new.holders.entries object ≡ (if is_among objects.now object then without (held_at self.old.holders.entries object) txn else held_at self.old.holders.entries object) }
    {
        for object in objects.iter() {
            self.release(txn, object);
        }
    }

    fn release(&mut self, txn: u64, object: &Object)
        ensures { (other : Read) → held_at self.new.holders.entries other ≡ (if is_object other object.now then without (held_at self.old.holders.entries other) txn else held_at self.old.holders.entries other) }
    {
        let nobody_left = self.take_out(txn, object);
        if nobody_left {
            self.drop_place(object);
        }
    }

    /// Drops the place of an object that nobody holds.
    fn drop_place(&mut self, object: &Object)
        requires { held_at self.old.holders.entries object.now ≡ [] }
        ensures { (other : Read) → held_at self.new.holders.entries other ≡ held_at self.old.holders.entries other }
    {
        let _in_order = self.holders.len();
        self.holders.remove(object);
    }

    /// Takes the transaction out; whether the object has a place where nobody is left.
    fn take_out(&mut self, txn: u64, object: &Object) -> bool
        ensures held { (other : Read) → held_at self.new.holders.entries other ≡ (if is_object other object.now then without (held_at self.old.holders.entries other) txn else held_at self.old.holders.entries other) }
        ensures nobody { result ≡ true → held_at self.new.holders.entries object.now ≡ [] }
    {
        match self.holders.get_mut(object) {
            Some(held) => held.release(txn),
            None => false,
        }
    }
}

/// A copy of the object, which the transaction alone holds.
fn place_of(alloc: Global, txn: u64, object: &Object) -> Result<(Object, Holders), AllocError>
    ensures object { IfOk result (λ place. place.0 ≡ object.now) }
    ensures held { IfOk result (λ place. place.1.txns ≡ txn ∷ []) }
{
    Ok((object.copy(alloc)?, Holders::alone(txn)))
}
