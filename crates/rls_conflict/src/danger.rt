//! Dangerous structures in which a transaction that commits now takes part.

ghost use Rattle.std.specs.Prelude.{◌≡◌, length, slice_get, false, Some, IfOk, MatchOption};
ghost use Rattle.rls_conflict.specs.declared.committed.Committed.{Committed as Kept};
ghost use Rattle.rls_conflict.specs.Causes.{IsCauseOf, IsInNoStructure};
ghost use Rattle.rls_conflict.specs.Dangers.{with_last, HasEdges, IsNoPivot, IsNoFirst};
ghost use Rattle.rls_conflict.specs.Kept.{AreEntries};
ghost use Rattle.rls_conflict.specs.Named.{meets, IsCommon, IsNamed};

use crate::committed::Committed;
use crate::ready::Ready;
use crate::structure_search::{around, beyond};
use crate::transaction::Transaction;
use rls_source::Footprint;
use rls_value::{Cause, Object};
use std::alloc::{AllocError, Global};

/// The cause for which a transaction that commits now can't be serialized, if there is one: a structure with the transaction
/// as the pivot, else one with it as the first.
pub(crate) fn danger_of(
    alloc: Global,
    committed: &[Committed],
    ready: &Ready,
) -> Result<Option<Cause>, AllocError>
    requires entries { AreEntries committed.now }
    requires edges { HasEdges committed.now ready.now }
    ensures { IfOk result (λ found. MatchOption found (IsInNoStructure (with_last committed.now ready.now.transaction) (length committed.now)) (IsCauseOf (with_last committed.now ready.now.transaction) (length committed.now))) }
{
    match danger_as_pivot(alloc, committed, ready)? {
        Some(cause) => Ok(Some(cause)),
        None => danger_as_first(alloc, committed, ready),
    }
}

/// The cause with the transaction as the pivot.
fn danger_as_pivot(
    alloc: Global,
    committed: &[Committed],
    ready: &Ready,
) -> Result<Option<Cause>, AllocError>
    requires entries { AreEntries committed.now }
    requires edges { HasEdges committed.now ready.now }
    ensures { IfOk result (λ found. MatchOption found (IsNoPivot (with_last committed.now ready.now.transaction) (length committed.now)) (IsCauseOf (with_last committed.now ready.now.transaction) (length committed.now))) }
{
    match around(committed, ready.readers.as_slice(), ready.read.as_slice()) {
        Some((first, last)) => cause_around(alloc, committed, first, last, ready),
        None => Ok(None),
    }
}

/// The cause with the transaction as the first.
fn danger_as_first(
    alloc: Global,
    committed: &[Committed],
    ready: &Ready,
) -> Result<Option<Cause>, AllocError>
    requires entries { AreEntries committed.now }
    requires edges { HasEdges committed.now ready.now }
    ensures { IfOk result (λ found. MatchOption found (IsNoFirst (with_last committed.now ready.now.transaction) (length committed.now)) (IsCauseOf (with_last committed.now ready.now.transaction) (length committed.now))) }
{
    let transaction = ready.transaction.get();
    let has_written = !transaction.changes.as_slice().is_empty();
    match beyond(
        committed,
        ready.read.as_slice(),
        has_written,
        transaction.snap,
    ) {
        Some((pivot, last)) => cause_beyond(alloc, committed, pivot, last, ready),
        None => Ok(None),
    }
}

/// The cause of these three, with the transaction as the pivot.
fn cause_around(
    alloc: Global,
    committed: &[Committed],
    first: usize,
    last: usize,
    ready: &Ready,
) -> Result<Option<Cause>, AllocError>
    ensures { IfOk result (λ found. (one three : Kept) → slice_get committed.now first ≡ Some one → slice_get committed.now last ≡ Some three
        → IsNamed one.transaction ready.now.covered ready.now.transaction three.covered three.transaction found) }
{
    match (committed.get(first), committed.get(last)) {
        (Some(one), Some(three)) => cause_of(
            alloc,
            one.transaction.get(),
            &ready.covered,
            ready.transaction.get(),
            &three.covered,
            three.transaction.get(),
        ),
        (_, _) => Ok(None),
    }
}

/// The cause of these three, with the transaction as the first.
fn cause_beyond(
    alloc: Global,
    committed: &[Committed],
    pivot: usize,
    last: usize,
    ready: &Ready,
) -> Result<Option<Cause>, AllocError>
    ensures { IfOk result (λ found. (two three : Kept) → slice_get committed.now pivot ≡ Some two → slice_get committed.now last ≡ Some three
        → IsNamed ready.now.transaction two.covered two.transaction three.covered three.transaction found) }
{
    match (committed.get(pivot), committed.get(last)) {
        (Some(two), Some(three)) => cause_of(
            alloc,
            ready.transaction.get(),
            &two.covered,
            two.transaction.get(),
            &three.covered,
            three.transaction.get(),
        ),
        (_, _) => Ok(None),
    }
}

/// The cause, with the least object by which each of the two reads from the next; none where one doesn't.
fn cause_of(
    alloc: Global,
    first: &Transaction,
    covered_by_pivot: &Footprint,
    pivot: &Transaction,
    covered_by_last: &Footprint,
    last: &Transaction,
) -> Result<Option<Cause>, AllocError>
    ensures { IfOk result (IsNamed first.now covered_by_pivot.now pivot.now covered_by_last.now last.now) }
{
    let Some(one) = first_common(first.noted.get(), covered_by_pivot) else {
        return Ok(None);
    };
    let Some(two) = first_common(pivot.noted.get(), covered_by_last) else {
        return Ok(None);
    };
    Ok(Some(Cause::Structure {
        first: first.number,
        read_by_first: one.copy(alloc)?,
        pivot: pivot.number,
        read_by_pivot: two.copy(alloc)?,
        last: last.number,
    }))
}

/// The least object that was noted and is covered.
fn first_common<'a>(noted: &'a Footprint, covered: &Footprint) -> Option<&'a Object>
    ensures { MatchOption result (meets noted.now covered.now ≡ false) (λ object. IsCommon noted.now covered.now object.now) }
{
    for object in noted.iter() {
        if covered.contains(object) {
            return Some(object);
        }
    }
    None
}
