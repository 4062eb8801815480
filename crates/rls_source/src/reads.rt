//! What was read, in order.

ghost use Rattle.std.specs.Prelude.{◌≡◌, [], ◌∷◌, ◌++◌, IfOk, OnOk, OnErr};

use rls_catalog::rls_value::Object;
use std::alloc::{AllocError, Global};
use std::marker::Model;

/// The objects that were read, in the order of the reads, as often as they were read.
#[derive(Drop)]
pub struct Reads {
    objects: Vec<Object>,
}

impl Model for Reads {
    ghost use Rattle.std.specs.Prelude.{List};
    ghost use Rattle.rls_catalog.specs.rls_value.specs.declared.object.Object.{Object};
    ghost use Rattle.rls_catalog.specs.rls_value.specs.contracts.object.Object as object;
    ghost use Rattle.std.specs.Coded.{coded_list};

    ghost Value = { List Object };

    ghost coded = { coded_list object.the_row.coded };

    ghost view = { λ reads. reads.objects.items };
}

impl Reads {
    pub fn new(alloc: Global) -> Reads
        ensures { result ≡ [] }
    {
        Reads {
            objects: Vec::new(alloc),
        }
    }

    /// No reads, with room for this many.
    pub fn with_capacity(alloc: Global, capacity: usize) -> Result<Reads, AllocError>
        ensures { IfOk result (λ reads. reads ≡ []) }
    {
        Ok(Reads {
            objects: Vec::with_capacity(alloc, capacity)?,
        })
    }

    pub fn note(&mut self, object: Object) -> Result<(), AllocError>
        ensures ok { OnOk result (self.new ≡ self.old ++ object ∷ []) }
        ensures err { OnErr result (self.new ≡ self.old) }
    {
        self.objects.push(object)?;
        Ok(())
    }

    /// Puts the objects behind the others.
    pub fn note_all(&mut self, mut objects: Vec<Object>) -> Result<(), AllocError>
        ensures ok { OnOk result (self.new ≡ self.old ++ objects.items) }
        ensures err { OnErr result (self.new ≡ self.old) }
    {
        self.objects.append(&mut objects)?;
        Ok(())
    }

    /// The objects of the list.
    pub fn from_vec(objects: Vec<Object>) -> Reads
        ensures { result ≡ objects.items }
    {
        Reads { objects }
    }

    /// Gives the list back; no memory is needed.
    pub fn into_vec(self) -> Vec<Object>
        ensures { result.items ≡ self }
    {
        let Reads { objects } = self;
        objects
    }

    pub fn as_slice(&self) -> &[Object]
        ensures { result.now ≡ self.now }
    {
        self.objects.as_slice()
    }

    pub fn copy(&self, alloc: Global) -> Result<Reads, AllocError>
        ensures { IfOk result (λ reads. reads ≡ self.now) }
    {
        Ok(Reads {
            objects: copy_objects(alloc, &self.objects)?,
        })
    }
}

fn copy_objects(alloc: Global, objects: &[Object]) -> Result<Vec<Object>, AllocError>
    ensures { IfOk result (λ copies. copies.items ≡ objects.now) }
{
    let mut copies = Vec::with_capacity(alloc, objects.len())?;
    for object in objects {
        copies.push(object.copy(alloc)?)?;
    }
    Ok(copies)
}
