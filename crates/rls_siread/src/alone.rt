//! Read locks where one transaction alone holds objects: what it noted tells all, and the index isn't used.

ghost use Rattle.std.specs.Prelude.{◌≡◌, ℕ, [], ◌∷◌, true, false, Some, None, if◌then◌else◌, IfOk, OnOk, OnErr, nat_eq};
ghost use Rattle.rls_value.specs.declared.object.Object.{Object as Read};
ghost use Rattle.rls_source.specs.Footprints.{is_among};
ghost use Rattle.rls_siread.specs.Index.{AreTold, IsIndexed, held_at, held_alone, holders_by, locks_by, locks_of};
ghost use Rattle.rls_siread.specs.Promotion.{noted_with};
ghost use Rattle.rls_siread.specs.Locks.{notes_at, objects_in, commit_in, held_in, is_committed_by, HasNoted, HasForgotten};

use crate::index::Index;
use crate::notes::Noted;
use crate::sireads::{drop_committed, drop_notes, first_committed, first_left, renew};
use rls_source::Footprint;
use rls_value::Object;
use std::alloc::{AllocError, Global};
use std::collections::BTreeMap;
use std::slice;

/// The transactions that hold the object, in the order of their first notes of it.
pub(crate) fn holders_at<'a>(
    alone: &'a Option<u64>,
    index: &'a Index,
    notes: &BTreeMap<u64, Noted>,
    object: &Object,
) -> &'a [u64]
    ensures { result.now ≡ held_in (holders_by alone.now index.now.holders.entries notes.now.entries) object.now }
{
    match alone {
        Some(txn) => itself_at(txn, notes, object),
        None => index.held(object),
    }
}

/// The transaction, where it noted the object.
fn itself_at<'a>(txn: &'a u64, notes: &BTreeMap<u64, Noted>, object: &Object) -> &'a [u64]
    ensures { result.now ≡ held_in (held_alone txn.now (objects_in (notes_at notes.now.entries txn.now))) object.now }
{
    match notes.get(txn) {
        Some(noted) if noted.objects().contains(object) => slice::from_ref(txn),
        _ => &[],
    }
}

/// Notes what the transaction read. It is alone, or becomes so, where no other holds an object.
pub(crate) fn note_reads(
    alloc: Global,
    alone: &mut Option<u64>,
    index: &mut Index,
    notes: &mut BTreeMap<u64, Noted>,
    txn: u64,
    footprint: Footprint,
    limit: usize,
) -> Result<(), AllocError>
    requires { AreTold (holders_by alone.old index.old.holders.entries notes.old.entries) notes.old.entries }
    ensures ok { OnOk result (HasNoted txn (noted_with limit (objects_in (notes_at notes.old.entries txn)) footprint) (locks_by alone.old index.old.holders.entries notes.old.entries) (locks_by alone.new index.new.holders.entries notes.new.entries)) }
    ensures err { OnErr result (locks_by alone.new index.new.holders.entries notes.new.entries ≡ locks_by alone.old index.old.holders.entries notes.old.entries) }
{
    if begins(notes, txn, &footprint) {
        begin_notes(alloc, notes, txn, footprint, limit)?;
        return Ok(());
    }
    if is_free(*alone, index, notes, txn) {
        note_alone(alloc, notes, txn, footprint, limit)?;
        *alone = Some(txn);
        return Ok(());
    }
    note_beside(alloc, alone, index, notes, txn, &footprint, limit)
}

/// Whether the transaction begins: it has no notes, and has read nothing.
#[tactic(auto, using(std::proofs::lemmas::List::nil_from_length))]
fn begins(notes: &BTreeMap<u64, Noted>, txn: u64, footprint: &Footprint) -> bool
    ensures read { result ≡ true → (footprint.now ≡ []) }
    ensures noted { result ≡ true → (notes_at notes.now.entries txn ≡ None) }
{
    match notes.get(&txn) {
        Some(_) => false,
        None => footprint.len() == 0,
    }
}

/// Whether it is sure that no other transaction holds an object.
#[tactic(auto, using(crate::proofs::AloneLaws::free_itself, crate::proofs::AloneLaws::free_nothing, crate::proofs::AloneLaws::free_index))]
fn is_free(alone: Option<u64>, index: &Index, notes: &BTreeMap<u64, Noted>, txn: u64) -> bool
    requires { AreTold (holders_by alone index.now.holders.entries notes.now.entries) notes.now.entries }
    ensures { result ≡ true → (object : Read) → held_in (holders_by alone index.now.holders.entries notes.now.entries) object ≡ (if is_among (objects_in (notes_at notes.now.entries txn)) object then txn ∷ [] else []) }
{
    match alone {
        Some(other) => other == txn || has_nothing(notes, other),
        None => index.is_empty(),
    }
}

/// Whether the transaction has noted no object.
fn has_nothing(notes: &BTreeMap<u64, Noted>, txn: u64) -> bool
    ensures { result ≡ true → (objects_in (notes_at notes.now.entries txn) ≡ []) }
{
    match notes.get(&txn) {
        Some(noted) => noted.is_empty(),
        None => true,
    }
}

/// Puts what the transaction read beside what it noted. The index isn't told.
fn note_alone(
    alloc: Global,
    notes: &mut BTreeMap<u64, Noted>,
    txn: u64,
    footprint: Footprint,
    limit: usize,
) -> Result<(), AllocError>
    ensures ok { OnOk result ((other : ℕ) → notes_at notes.new.entries other ≡ (if nat_eq txn other then Some (record { commit = commit_in (notes_at notes.old.entries txn); objects = noted_with limit (objects_in (notes_at notes.old.entries txn)) footprint }) else notes_at notes.old.entries other)) }
    ensures err { OnErr result (notes.new.entries ≡ notes.old.entries) }
{
    match notes.get_mut(&txn) {
        Some(noted) => match noted.renew(alloc, footprint, limit) {
            Ok(()) => Ok(()),
            Err(refused) => Err(refused),
        },
        None => begin_notes(alloc, notes, txn, footprint, limit),
    }
}

/// Puts what was read first as the notes of a transaction that has none.
fn begin_notes(
    alloc: Global,
    notes: &mut BTreeMap<u64, Noted>,
    txn: u64,
    footprint: Footprint,
    limit: usize,
) -> Result<(), AllocError>
    requires { notes_at notes.old.entries txn ≡ None }
    ensures ok { OnOk result ((other : ℕ) → notes_at notes.new.entries other ≡ (if nat_eq txn other then Some (record { commit = commit_in (notes_at notes.old.entries txn); objects = noted_with limit (objects_in (notes_at notes.old.entries txn)) footprint }) else notes_at notes.old.entries other)) }
    ensures err { OnErr result (notes.new.entries ≡ notes.old.entries) }
{
    let mut noted = Noted::new(None, Footprint::new(alloc));
    noted.renew(alloc, footprint, limit)?;
    notes.insert(txn, noted)?;
    Ok(())
}

/// Notes what the transaction read where another holds objects: the index is told from here on.
fn note_beside(
    alloc: Global,
    alone: &mut Option<u64>,
    index: &mut Index,
    notes: &mut BTreeMap<u64, Noted>,
    txn: u64,
    footprint: &Footprint,
    limit: usize,
) -> Result<(), AllocError>
    requires { AreTold (holders_by alone.old index.old.holders.entries notes.old.entries) notes.old.entries }
    ensures ok { OnOk result (HasNoted txn (noted_with limit (objects_in (notes_at notes.old.entries txn)) footprint.now) (locks_by alone.old index.old.holders.entries notes.old.entries) (locks_by alone.new index.new.holders.entries notes.new.entries)) }
    ensures err { OnErr result (locks_by alone.new index.new.holders.entries notes.new.entries ≡ locks_by alone.old index.old.holders.entries notes.old.entries) }
{
    match *alone {
        Some(other) => {
            let told = index_beside(alloc, notes, other, txn, footprint, limit)?;
            *index = told;
            *alone = None;
            Ok(())
        }
        None => renew(alloc, index, notes, txn, footprint, limit),
    }
}

/// An index in which one that was alone holds what it noted, and the transaction what it noted and now reads.
fn index_beside(
    alloc: Global,
    notes: &mut BTreeMap<u64, Noted>,
    other: u64,
    txn: u64,
    footprint: &Footprint,
    limit: usize,
) -> Result<Index, AllocError>
    requires { AreTold (held_alone other (objects_in (notes_at notes.old.entries other))) notes.old.entries }
    ensures ok { IfOk result (λ told. HasNoted txn (noted_with limit (objects_in (notes_at notes.old.entries txn)) footprint.now) (locks_by (Some other) [] notes.old.entries) (locks_of told.holders.entries notes.new.entries)) }
    ensures err { OnErr result (notes.new.entries ≡ notes.old.entries) }
{
    let mut told = index_of(alloc, notes, other)?;
    match renew(alloc, &mut told, notes, txn, footprint, limit) {
        Ok(()) => Ok(told),
        Err(refused) => Err(refused),
    }
}

/// An index in which each holds what it holds.
pub(crate) fn copy_index(
    alloc: Global,
    alone: Option<u64>,
    index: &Index,
    notes: &BTreeMap<u64, Noted>,
) -> Result<Index, AllocError>
    ensures { IfOk result (λ copied. (object : Read) → held_at copied.holders.entries object ≡ held_in (holders_by alone index.now.holders.entries notes.now.entries) object) }
{
    match alone {
        Some(txn) => index_of(alloc, notes, txn),
        None => index.copy(alloc),
    }
}

/// An index in which the transaction alone holds what it noted.
fn index_of(alloc: Global, notes: &BTreeMap<u64, Noted>, txn: u64) -> Result<Index, AllocError>
    ensures { IfOk result (λ index. (object : Read) → held_at index.holders.entries object ≡ held_in (held_alone txn (objects_in (notes_at notes.now.entries txn))) object) }
{
    match notes.get(&txn) {
        Some(noted) => Index::alone(alloc, txn, noted.objects()),
        None => Ok(Index::new(alloc)),
    }
}

/// Drops the transaction and its notes.
pub(crate) fn forget_one(
    alone: Option<u64>,
    index: &mut Index,
    notes: &mut BTreeMap<u64, Noted>,
    txn: u64,
)
    requires { AreTold (holders_by alone index.old.holders.entries notes.old.entries) notes.old.entries }
    ensures { HasForgotten (nat_eq txn) (locks_by alone index.old.holders.entries notes.old.entries) (locks_by alone index.new.holders.entries notes.new.entries) }
{
    match alone {
        Some(_) => {
            notes.remove(&txn);
        }
        None => drop_notes(index, notes, txn),
    }
}

/// Drops those that committed at that number or before, and their notes.
pub(crate) fn forget_old(
    alone: Option<u64>,
    index: &mut Index,
    notes: &mut BTreeMap<u64, Noted>,
    last: u64,
)
    requires { AreTold (holders_by alone index.old.holders.entries notes.old.entries) notes.old.entries }
    ensures { HasForgotten (λ txn. is_committed_by last (commit_in (notes_at notes.old.entries txn))) (locks_by alone index.old.holders.entries notes.old.entries) (locks_by alone index.new.holders.entries notes.new.entries) }
{
    match alone {
        Some(_) => drop_noted(notes, last),
        None => drop_committed(index, notes, last),
    }
}

/// Drops the notes of those that committed at that number or before. The index isn't told.
fn drop_noted(notes: &mut BTreeMap<u64, Noted>, last: u64)
    ensures { (txn : ℕ) → notes_at notes.new.entries txn ≡ (if is_committed_by last (commit_in (notes_at notes.old.entries txn)) then None else notes_at notes.old.entries txn) }
{
    match first_left(notes, last) {
        Some(_) => drop_noted_each(notes, last),
        None => notes.clear(),
    }
}

/// The same, one after another.
fn drop_noted_each(notes: &mut BTreeMap<u64, Noted>, last: u64)
    ensures { (txn : ℕ) → notes_at notes.new.entries txn ≡ (if is_committed_by last (commit_in (notes_at notes.old.entries txn)) then None else notes_at notes.old.entries txn) }
{
    while let Some(txn) = first_committed(notes, last) {
        notes.remove(&txn);
    }
}
