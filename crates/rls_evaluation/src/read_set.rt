//! The read set: what was read, added as it comes.

ghost use Rattle.std.specs.Prelude.{◌≡◌, [], ◌∷◌, true, IfOk, OnErr, OnOk};
ghost use Rattle.rls_source.specs.Footprints.{IsInOrder, footprint_of, with_object};

use rls_source::{Footprint, Reads};
use rls_value::{Object, cmp_objects};
use std::alloc::{AllocError, Global};
use std::cmp::Ordering;
use std::marker::Model;

// So many reads are kept as they come.
const FEW: usize = 1024;

/// The objects that were read, seen as a set: each once, in order. They are put in order whenever they are twice as many as
/// they were then, and at the end, so that they take memory by the objects, however often each is read. Where they come in
/// order, as keys do that are looked up row by row, that takes time linear in their number.
#[derive(Drop)]
pub struct ReadSet {
    reads: Reads,
    // So many there may be before they are put in order.
    bound: usize,
}

impl Model for ReadSet {
    ghost use Rattle.std.specs.Prelude.{List};
    ghost use Rattle.std.specs.Coded.{coded_list};
    ghost use Rattle.rls_value.specs.declared.object.Object.{Object};
    ghost use Rattle.rls_value.specs.contracts.object.Object as object;
    ghost use Rattle.rls_source.specs.Footprints.{footprint_of};

    ghost Value = { List Object };

    ghost coded = { coded_list object.the_row.coded };

    ghost view = { λ noted. footprint_of noted.reads };
}

impl ReadSet {
    pub fn new(alloc: Global) -> ReadSet
        ensures { result ≡ [] }
    {
        ReadSet {
            reads: Reads::new(alloc),
            bound: FEW,
        }
    }

    pub fn note(&mut self, alloc: Global, object: Object) -> Result<(), AllocError>
        ensures ok { OnOk result (self.new ≡ with_object self.old object) }
        ensures err { OnErr result (self.new ≡ self.old) }
    {
        self.order_if_doubled(alloc)?;
        self.add(object)
    }

    #[tactic(auto, using(crate::proofs::ReadSetLemmas::noted_more))]
    fn add(&mut self, object: Object) -> Result<(), AllocError>
        ensures ok { OnOk result (self.new ≡ with_object self.old object) }
        ensures err { OnErr result (self.new ≡ self.old) }
    {
        self.reads.note(object)
    }

    /// Puts the reads in order, each once, where they are twice as many as they were then.
    fn order_if_doubled(&mut self, alloc: Global) -> Result<(), AllocError>
        ensures { self.new ≡ self.old }
    {
        if self.reads.as_slice().len() < self.bound {
            return Ok(());
        }
        self.drop_repeated(alloc)?;
        let double = self.reads.as_slice().len().saturating_mul(2);
        self.bound = double.max(FEW);
        Ok(())
    }

    /// Puts the reads in order, each once, unless they stand so.
    fn drop_repeated(&mut self, alloc: Global) -> Result<(), AllocError>
        ensures { self.new ≡ self.old }
    {
        if ascend(self.reads.as_slice()) {
            return Ok(());
        }
        self.reads = in_order(alloc, self.reads.as_slice())?;
        Ok(())
    }

    /// The objects as a list, each once, in order; where they came so, those that were added themselves.
    pub fn into_objects(self, alloc: Global) -> Result<Vec<Object>, AllocError>
        ensures { IfOk result (λ objects. objects.items ≡ self) }
    {
        let ReadSet { reads, .. } = self;
        if ascend(reads.as_slice()) {
            return Ok(reads.into_vec());
        }
        let footprint = Footprint::from_reads(alloc, reads)?;
        let objects = footprint.to_vec(alloc);
        drop(footprint);
        objects
    }
}

/// Copies of the objects in order, each once.
#[tactic(auto, using(crate::proofs::ReadSetLemmas::footprint_again))]
fn in_order(alloc: Global, objects: &[Object]) -> Result<Reads, AllocError>
    ensures { IfOk result (λ reads. footprint_of reads ≡ footprint_of objects.now) }
{
    let mut footprint = Footprint::new(alloc);
    footprint.note_all(alloc, objects)?;
    let objects = footprint.to_vec(alloc);
    drop(footprint);
    Ok(Reads::from_vec(objects?))
}

/// Whether they stand in order, each once.
fn ascend(mut objects: &[Object]) -> bool
    ensures { result ≡ true → IsInOrder objects.entry.now }
{
    while let [object, others @ ..] = objects {
        if !is_below_first(object, others) {
            return false;
        }
        objects = others;
    }
    true
}

/// Whether the object comes before the first of the others, if there is one.
fn is_below_first(object: &Object, others: &[Object]) -> bool
    ensures { result ≡ true → IsInOrder others.now → IsInOrder (object.now ∷ others.now) }
{
    match others {
        [] => true,
        [next, ..] => match cmp_objects(object, next) {
            Ordering::Less => true,
            Ordering::Equal | Ordering::Greater => false,
        },
    }
}
