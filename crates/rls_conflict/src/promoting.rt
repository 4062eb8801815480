//! The committed transactions with promoted notes.

ghost use Rattle.std.specs.Prelude.{◌≡◌, ◌≤◌, ◌<◌, length, map, slice_get, Some, IfOk, vec_capacity};
ghost use Rattle.std.specs.List.{list_any};
ghost use Rattle.rls_source.specs.Footprints.{is_among};
ghost use Rattle.rls_siread.specs.Promotion.{promoted};
ghost use Rattle.rls_conflict.specs.declared.committed.Committed.{Committed as Entry};
ghost use Rattle.rls_conflict.specs.Transactions.{at, reads_from};
ghost use Rattle.rls_conflict.specs.Commits.{AreReadBy, AreReadersOf};
ghost use Rattle.rls_conflict.specs.Known.{with_promoted};
ghost use Rattle.rls_conflict.specs.Kept.{all_committed, AreEntries};
ghost use Rattle.rls_conflict.specs.Promoted.{covered_in, AreTold, IsEntryOf, AreEntriesOf};

use crate::committed::Committed;
use crate::transaction::Transaction;
use rls_siread::promote;
use rls_source::Footprint;
use shared_map::Share;
use std::alloc::{AllocError, Global};

/// The committed ones with promoted notes, with their rw-antidependencies made anew, and room for so many.
pub(crate) fn promoted_all(
    alloc: Global,
    committed: &[Committed],
    room: usize,
    limit: usize,
) -> Result<Vec<Committed>, AllocError>
    requires { AreEntries committed.now }
    ensures transactions { IfOk result (λ promoted. all_committed promoted.items ≡ map (λ it. with_promoted limit it.transaction) committed.now) }
    ensures covered { IfOk result (λ promoted. map covered_in promoted.items ≡ map covered_in committed.now) }
    ensures entries { IfOk result (λ promoted. AreEntries promoted.items) }
    ensures room { IfOk result (λ promoted. room ≤ vec_capacity promoted) }
{
    let transactions = promoted_transactions(alloc, committed, limit)?;
    entries_of(alloc, committed, transactions.as_slice(), room)
}

fn promoted_transactions(
    alloc: Global,
    committed: &[Committed],
    limit: usize,
) -> Result<Vec<Share<Transaction>>, AllocError>
    ensures { IfOk result (λ promoted. promoted.items ≡ map (λ it. with_promoted limit it.transaction) committed.now) }
{
    let mut promoted = Vec::with_capacity(alloc, committed.len())?;
    for it in committed {
        promoted.push(promoted_transaction(alloc, it.transaction.get(), limit)?)?;
    }
    Ok(promoted)
}

fn promoted_transaction(
    alloc: Global,
    transaction: &Transaction,
    limit: usize,
) -> Result<Share<Transaction>, AllocError>
    ensures { IfOk result (λ promoted. promoted ≡ with_promoted limit transaction.now) }
{
    Share::new(
        alloc,
        Transaction {
            number: transaction.number,
            snap: transaction.snap,
            noted: promoted_noted(alloc, transaction.noted.get(), limit)?,
            changes: transaction.changes.copy(alloc)?,
        },
    )
}

/// The objects promoted, shared.
fn promoted_noted(
    alloc: Global,
    noted: &Footprint,
    limit: usize,
) -> Result<Share<Footprint>, AllocError>
    ensures { IfOk result (λ kept. kept ≡ promoted limit noted.now) }
{
    let kept = promote(alloc, noted, limit)?;
    Share::new(alloc, kept)
}

/// What is kept of the transactions, with the covered objects of the committed ones, and room for so many.
fn entries_of(
    alloc: Global,
    committed: &[Committed],
    transactions: &[Share<Transaction>],
    room: usize,
) -> Result<Vec<Committed>, AllocError>
    requires { AreTold committed.now transactions.now }
    ensures transactions { IfOk result (λ entries. all_committed entries.items ≡ transactions.now) }
    ensures covered { IfOk result (λ entries. map covered_in entries.items ≡ map covered_in committed.now) }
    ensures entries { IfOk result (λ entries. AreEntriesOf transactions.now entries.items) }
    ensures room { IfOk result (λ entries. room ≤ vec_capacity entries) }
{
    let mut entries = Vec::with_capacity(alloc, room)?;
    for place in 0..committed.len() {
        entries.push(entry_at(alloc, committed, transactions, place)?)?;
    }
    Ok(entries)
}

fn entry_at(
    alloc: Global,
    committed: &[Committed],
    transactions: &[Share<Transaction>],
    place: usize,
) -> Result<Committed, AllocError>
    requires told { AreTold committed.now transactions.now }
    requires within { place < length committed.now }
    ensures covered { IfOk result (λ entry. (it : Entry) → slice_get committed.now place ≡ Some it → entry.covered ≡ it.covered) }
    ensures entry { IfOk result (IsEntryOf transactions.now place) }
{
    Ok(Committed {
        transaction: transactions[place].copy()?,
        covered: committed[place].covered.copy(alloc)?,
        read: read_by(alloc, committed, transactions, place)?,
        readers: readers_at(alloc, committed, transactions, place)?,
    })
}

/// The places before the transaction's that it read from.
fn read_by(
    alloc: Global,
    committed: &[Committed],
    transactions: &[Share<Transaction>],
    place: usize,
) -> Result<Vec<usize>, AllocError>
    requires told { AreTold committed.now transactions.now }
    requires within { place < length committed.now }
    ensures { IfOk result (λ places. AreReadBy transactions.now place places.items) }
{
    let mut places = Vec::new(alloc);
    for other in snap_at(transactions, place)..place {
        if has_read(committed, transactions, place, other) {
            places.push(other)?;
        }
    }
    Ok(places)
}

/// The places before the transaction's that read from it.
fn readers_at(
    alloc: Global,
    committed: &[Committed],
    transactions: &[Share<Transaction>],
    place: usize,
) -> Result<Vec<usize>, AllocError>
    requires told { AreTold committed.now transactions.now }
    requires within { place < length committed.now }
    ensures { IfOk result (λ places. AreReadersOf transactions.now place places.items) }
{
    let mut places = Vec::new(alloc);
    for other in snap_at(transactions, place)..place {
        if has_read(committed, transactions, other, place) {
            places.push(other)?;
        }
    }
    Ok(places)
}

fn snap_at(transactions: &[Share<Transaction>], place: usize) -> usize
    requires { place < length transactions.now }
    ensures { result ≡ (at transactions.now place).snap }
{
    transactions[place].get().snap
}

/// Whether the one noted an object that a change of the other covers.
fn has_read(
    committed: &[Committed],
    transactions: &[Share<Transaction>],
    one: usize,
    other: usize,
) -> bool
    requires told { AreTold committed.now transactions.now }
    requires one { one < length committed.now }
    requires other { other < length committed.now }
    ensures { result ≡ reads_from (at transactions.now one).noted (at transactions.now other).changes }
{
    have_common(
        transactions[one].get().noted.get(),
        &committed[other].covered,
    )
}

/// Whether one of the objects is among the others.
fn have_common(noted: &Footprint, covered: &Footprint) -> bool
    ensures { result ≡ list_any (is_among covered.now) noted.now }
{
    for object in noted.iter() {
        if covered.contains(object) {
            return true;
        }
    }
    false
}
