//! The objects that were read, each once.

ghost use Rattle.std.specs.Prelude.{◌≡◌, [], length, IfOk, OnOk, OnErr};
ghost use Rattle.rls_catalog.specs.rls_value.specs.declared.object.Object.{Object as Read};
ghost use Rattle.rls_source.specs.Footprints.{with_object, with_reads, footprint_of, is_among, IsInOrder};

use crate::reads::Reads;
use rls_catalog::rls_value::Object;
use std::alloc::{AllocError, Global};
use std::collections::{BTreeSet, btree_set};
use std::marker::Model;

/// The objects that were read, each once, in the order of objects.
#[derive(Drop)]
pub struct Footprint {
    objects: BTreeSet<Object>,
}

impl Model for Footprint {
    ghost use Rattle.std.specs.Prelude.{List};
    ghost use Rattle.rls_catalog.specs.rls_value.specs.declared.object.Object.{Object};
    ghost use Rattle.rls_catalog.specs.rls_value.specs.contracts.object.Object as object;
    ghost use Rattle.std.specs.Coded.{coded_list};

    ghost Value = { List Object };

    ghost coded = { coded_list object.the_row.coded };

    ghost view = { λ footprint. footprint.objects.keys };
}

impl Footprint {
    pub fn new(alloc: Global) -> Footprint
        ensures { result ≡ [] }
    {
        Footprint {
            objects: BTreeSet::new(alloc),
        }
    }

    /// The objects of the reads. Where these come in order, in time linear in their number.
    pub fn from_reads(alloc: Global, reads: Reads) -> Result<Footprint, AllocError>
        ensures { IfOk result (λ footprint. footprint ≡ footprint_of reads) }
    {
        Ok(Footprint {
            objects: BTreeSet::from_iter(alloc, reads.into_vec())?,
        })
    }

    /// Puts the object in its place, unless it is there.
    pub fn note(&mut self, object: Object) -> Result<(), AllocError>
        ensures ok { OnOk result (self.new ≡ with_object self.old object) }
        ensures err { OnErr result (self.new ≡ self.old) }
    {
        self.objects.insert(object)?;
        Ok(())
    }

    /// Puts copies of the objects in their places.
    pub fn note_all(&mut self, alloc: Global, objects: &[Object]) -> Result<(), AllocError>
        ensures { OnOk result (self.new ≡ with_reads self.old objects.now) }
    {
        for object in objects {
            self.note(object.copy(alloc)?)?;
        }
        Ok(())
    }

    /// The objects, with copies of the others in their places.
    pub fn with_all(&self, alloc: Global, others: &Footprint) -> Result<Footprint, AllocError>
        ensures { IfOk result (λ all. all ≡ with_reads self.now others.now) }
    {
        let mut all = self.copy(alloc)?;
        let others = others.to_vec(alloc)?;
        all.note_all(alloc, others.as_slice())?;
        Ok(all)
    }

    /// Copies of the objects, in order.
    pub fn to_vec(&self, alloc: Global) -> Result<Vec<Object>, AllocError>
        ensures { IfOk result (λ objects. objects.items ≡ self.now) }
    {
        let mut objects = Vec::with_capacity(alloc, self.objects.len())?;
        for object in self.objects.iter() {
            objects.push(object.copy(alloc)?)?;
        }
        Ok(objects)
    }

    /// How many objects there are.
    pub fn len(&self) -> usize
        ensures { result ≡ length self.now }
    {
        self.objects.len()
    }

    /// Whether the object was read.
    pub fn contains(&self, object: &Object) -> bool
        ensures { result ≡ is_among self.now object.now }
    {
        self.objects.contains(object)
    }

    /// The objects, in order.
    pub fn iter(&self) -> btree_set::Iter<'_, Object>
        ensures objects { result ≡ self.now }
        ensures ordered { IsInOrder self.now }
    {
        self.objects.iter()
    }

    /// The same objects, in time linear in their number.
    #[tactic(auto, using(crate::proofs::FootprintOrderLaws::footprint_ordered))]
    pub fn copy(&self, alloc: Global) -> Result<Footprint, AllocError>
        ensures { IfOk result (λ footprint. footprint ≡ self.now) }
    {
        let _in_order = self.iter();
        let objects = self.to_vec(alloc)?;
        Footprint::from_reads(alloc, Reads::from_vec(objects))
    }
}
