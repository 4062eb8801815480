//! What a transaction noted.

ghost use Rattle.std.specs.Prelude.{◌≡◌, ◌≤◌, ◌&&◌, [], ◌∷◌, true, not, Some, length, IfOk, OnOk, OnErr};
ghost use Rattle.rls_value.specs.declared.object.Object.{Object as Read};
ghost use Rattle.rls_source.specs.Footprints.{with_object, with_reads, is_among, IsInOrder};
ghost use Rattle.rls_siread.specs.Locks.{noting};
ghost use Rattle.rls_siread.specs.Noted.{objects_kept};
ghost use Rattle.rls_siread.specs.Promotion.{noted_with};

use crate::promotion::{More, is_plain, missing, noted_more, stay_plain};
use rls_source::Footprint;
use rls_value::Object;
use rls_value::shared::Share;
use std::alloc::{AllocError, Global};
use std::marker::Model;
use std::mem;

/// The objects that a transaction noted as read, and the number of its commit.
#[derive(Drop)]
pub(crate) struct Noted {
    commit: Option<u64>,
    objects: Objects,
}

// Mostly a transaction is one statement: what it read is noted as it comes, and shared with the record of its transaction.
#[derive(Drop)]
enum Objects {
    Own(Footprint),
    Shared(Share<Footprint>),
}

impl Model for Noted {
    ghost use Rattle.rls_siread.specs.Locks.{Notes};
    ghost use Rattle.rls_siread.specs.LocksCode.{notes_code};
    ghost use Rattle.rls_siread.specs.Noted.{objects_kept};

    ghost Value = { Notes };

    ghost coded = { notes_code };

    ghost view = { λ it. record { commit = it.commit; objects = objects_kept it.objects } };
}

impl Noted {
    pub(crate) fn new(commit: Option<u64>, objects: Footprint) -> Noted
        ensures { result ≡ record { commit = commit; objects = objects } }
    {
        Noted {
            commit,
            objects: Objects::Own(objects),
        }
    }

    pub(crate) fn copy(&self, alloc: Global) -> Result<Noted, AllocError>
        ensures { IfOk result (λ noted. noted ≡ self.now) }
    {
        Ok(Noted::new(self.commit, self.objects().copy(alloc)?))
    }

    pub(crate) fn objects(&self) -> &Footprint
        ensures { result.now ≡ self.now.objects }
    {
        match &self.objects {
            Objects::Own(objects) => objects,
            Objects::Shared(objects) => objects.get(),
        }
    }

    /// The objects, shared where they are.
    pub(crate) fn share(&self, alloc: Global) -> Result<Share<Footprint>, AllocError>
        ensures { IfOk result (λ objects. objects ≡ self.now.objects) }
    {
        match &self.objects {
            Objects::Own(objects) => share_copy(alloc, objects),
            Objects::Shared(objects) => objects.copy(),
        }
    }

    pub(crate) fn commit(&self) -> Option<u64>
        ensures { result ≡ self.now.commit }
    {
        self.commit
    }

    /// Whether there are no objects.
    #[tactic(auto, using(std::proofs::lemmas::List::nil_from_length))]
    pub(crate) fn is_empty(&self) -> bool
        ensures { result ≡ true → (self.now.objects ≡ []) }
    {
        self.objects().len() == 0
    }

    /// What was read is noted too. Where more than `limit` keys of one table are noted, or all of its rows, these stand for its
    /// keys. An `Err` leaves all as it was.
    pub(crate) fn renew(
        &mut self,
        alloc: Global,
        reads: Footprint,
        limit: usize,
    ) -> Result<(), AllocError>
        ensures ok { OnOk result (self.new ≡ record { commit = self.old.commit; objects = noted_with limit self.old.objects reads }) }
        ensures err { OnErr result (self.new ≡ self.old) }
    {
        // Most statements are the first of their transaction, or read one object that those before it didn't, its key.
        if self.is_first(&reads, limit) {
            return self.begin(alloc, reads);
        }
        self.go_on(alloc, &reads, limit)
    }

    /// The same, where there may be objects.
    fn go_on(&mut self, alloc: Global, reads: &Footprint, limit: usize) -> Result<(), AllocError>
        ensures ok { OnOk result (self.new ≡ record { commit = self.old.commit; objects = noted_with limit self.old.objects reads.now }) }
        ensures err { OnErr result (self.new ≡ self.old) }
    {
        let fresh = missing(alloc, reads, self.objects())?;
        if are_plain(self.objects(), reads, &fresh, limit) {
            return self.add(alloc, &fresh);
        }
        let objects = renoted(alloc, self.objects(), reads, limit)?;
        self.objects = Objects::Own(objects);
        Ok(())
    }

    /// Whether the reads are all that is noted then, for sure: there are no objects, and nothing is promoted.
    #[tactic(auto, using(crate::proofs::PlainLaws::first_noted))]
    fn is_first(&self, reads: &Footprint, limit: usize) -> bool
        ensures { result ≡ true → (noted_with limit self.now.objects reads.now ≡ reads.now) }
    {
        let _in_order = reads.iter();
        self.is_empty() && is_plain(reads, limit)
    }

    /// Has these objects, of none before.
    fn begin(&mut self, alloc: Global, reads: Footprint) -> Result<(), AllocError>
        ensures ok { OnOk result (self.new ≡ record { commit = self.old.commit; objects = reads }) }
        ensures err { OnErr result (self.new ≡ self.old) }
    {
        self.objects = objects_of(alloc, reads)?;
        Ok(())
    }

    /// Has these objects, of none before.
    pub(crate) fn put(&mut self, objects: Footprint)
        requires { self.old.objects ≡ [] }
        ensures { IsInOrder objects → self.new ≡ noting objects self.old }
    {
        self.objects = Objects::Own(objects);
    }

    /// Puts a copy of the object in its place, if there is one.
    pub(crate) fn add(&mut self, alloc: Global, fresh: &Footprint) -> Result<(), AllocError>
        requires { length fresh.now ≤ 1 }
        ensures ok { OnOk result (self.new ≡ noting fresh.now self.old) }
        ensures err { OnErr result (self.new ≡ self.old) }
    {
        let mut objects = fresh.iter();
        match objects.next() {
            Some(object) => self.put_one(alloc, object.copy(alloc)?),
            None => Ok(()),
        }
    }

    /// Puts the object in its place. What is shared is copied before.
    fn put_one(&mut self, alloc: Global, object: Object) -> Result<(), AllocError>
        ensures ok { OnOk result (self.new ≡ noting (object ∷ []) self.old) }
        ensures err { OnErr result (self.new ≡ self.old) }
    {
        match mem::replace(&mut self.objects, Objects::Own(Footprint::new(alloc))) {
            Objects::Own(objects) => self.put_among(objects, object),
            Objects::Shared(objects) => self.put_beside(alloc, objects, object),
        }
    }

    /// Has these objects with the one in its place; where memory is wanting, these.
    fn put_among(&mut self, mut objects: Footprint, object: Object) -> Result<(), AllocError>
        ensures ok { OnOk result (self.new ≡ record { commit = self.old.commit; objects = with_object objects object }) }
        ensures err { OnErr result (self.new ≡ record { commit = self.old.commit; objects = objects }) }
    {
        match objects.note(object) {
            Ok(()) => {
                self.objects = Objects::Own(objects);
                Ok(())
            }
            Err(refused) => {
                self.objects = Objects::Own(objects);
                Err(refused)
            }
        }
    }

    /// Has a copy of these objects with the one in its place; where memory is wanting, these.
    fn put_beside(
        &mut self,
        alloc: Global,
        objects: Share<Footprint>,
        object: Object,
    ) -> Result<(), AllocError>
        ensures ok { OnOk result (self.new ≡ record { commit = self.old.commit; objects = with_object objects object }) }
        ensures err { OnErr result (self.new ≡ record { commit = self.old.commit; objects = objects }) }
    {
        match with_one(alloc, objects.get(), object) {
            Ok(more) => {
                self.objects = Objects::Own(more);
                Ok(())
            }
            Err(refused) => {
                self.objects = Objects::Shared(objects);
                Err(refused)
            }
        }
    }

    /// Its transaction's commit has that number.
    pub(crate) fn mark(&mut self, commit: u64)
        ensures { self.new ≡ record { commit = Some commit; objects = self.old.objects } }
    {
        self.commit = Some(commit);
    }
}

/// The objects, shared from here on, unless there are none.
fn objects_of(alloc: Global, objects: Footprint) -> Result<Objects, AllocError>
    ensures { IfOk result (λ kept. objects_kept kept ≡ objects) }
{
    if objects.len() == 0 {
        return Ok(Objects::Own(objects));
    }
    Ok(Objects::Shared(Share::new(alloc, objects)?))
}

/// A copy of the objects, shared.
fn share_copy(alloc: Global, objects: &Footprint) -> Result<Share<Footprint>, AllocError>
    ensures { IfOk result (λ shared. shared ≡ objects.now) }
{
    let copied = objects.copy(alloc)?;
    Share::new(alloc, copied)
}

/// A copy of the objects with the one in its place.
fn with_one(alloc: Global, objects: &Footprint, object: Object) -> Result<Footprint, AllocError>
    ensures { IfOk result (λ more. more ≡ with_object objects.now object) }
{
    match objects.copy(alloc) {
        Ok(mut more) => {
            more.note(object)?;
            Ok(more)
        }
        Err(refused) => {
            drop(object);
            Err(refused)
        }
    }
}

/// Whether what is fresh of the reads is one object at most, and all that comes to those noted, for sure: nothing is promoted.
#[tactic(auto, using(crate::proofs::PlainLaws::fresh_noted))]
fn are_plain(noted: &Footprint, reads: &Footprint, fresh: &Footprint, limit: usize) -> bool
    requires { (object : Read) → is_among fresh.now object ≡ (is_among reads.now object && not (is_among noted.now object)) }
    ensures few { result ≡ true → length fresh.now ≤ 1 }
    ensures plain { result ≡ true → (noted_with limit noted.now reads.now ≡ with_reads noted.now fresh.now) }
{
    let _in_order = noted.iter();
    stay_plain(noted, fresh, limit)
}

/// What is noted once more was read.
fn renoted(
    alloc: Global,
    noted: &Footprint,
    reads: &Footprint,
    limit: usize,
) -> Result<Footprint, AllocError>
    ensures { IfOk result (λ objects. objects ≡ noted_with limit noted.now reads.now) }
{
    let More {
        objects,
        fresh,
        dropped,
    } = noted_more(alloc, noted, reads, limit)?;
    drop(fresh);
    drop(dropped);
    Ok(objects)
}
