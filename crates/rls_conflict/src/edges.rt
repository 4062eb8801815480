//! The rw-antidependencies between a transaction that commits now and those that committed since it began.

ghost use Rattle.std.specs.Prelude.{◌≡◌, ℕ, IfOk};
ghost use Rattle.rls_conflict.specs.Commits.{is_place_in};
ghost use Rattle.rls_conflict.specs.Concurrent.{is_place_of_reader, is_place_of_writer, AreReadersTold, AreWritersTold};

use crate::committed::{Access, Committed};
use crate::places::Places;
use rls_siread::{LockTable, Sireads};
use rls_source::Footprint;
use std::alloc::{AllocError, Global};

/// The places of those that committed once so many had, and noted one of the objects.
pub(crate) fn readers_of(
    alloc: Global,
    committed: &[Committed],
    sireads: &Sireads,
    objects: &Footprint,
    snap: usize,
) -> Result<Vec<usize>, AllocError>
    requires { AreReadersTold committed.now sireads.now snap }
    ensures { IfOk result (λ places. (place : ℕ) → is_place_in places.items place ≡ is_place_of_reader sireads.now snap objects.now place) }
{
    // Mostly nobody has committed since.
    if committed.len() <= snap {
        return Ok(Vec::new(alloc));
    }
    let mut places = Places::new(alloc);
    for object in objects.iter() {
        let held = sireads.held(object);
        places.note_held(sireads, held, committed, Access::Read, object, snap)?;
    }
    places.to_vec(alloc)
}

/// The places of those that committed once so many had, and whose changes cover one of the objects.
pub(crate) fn writers_of(
    alloc: Global,
    committed: &[Committed],
    writers: &LockTable,
    sireads: &Sireads,
    objects: &Footprint,
    snap: usize,
) -> Result<Vec<usize>, AllocError>
    requires { AreWritersTold committed.now writers.now sireads.now snap }
    ensures { IfOk result (λ places. (place : ℕ) → is_place_in places.items place ≡ is_place_of_writer writers.now sireads.now snap objects.now place) }
{
    // Mostly nobody has committed since.
    if committed.len() <= snap {
        return Ok(Vec::new(alloc));
    }
    let mut places = Places::new(alloc);
    for object in objects.iter() {
        let held = writers.held(object);
        places.note_held(sireads, held, committed, Access::Write, object, snap)?;
    }
    places.to_vec(alloc)
}
