//! Receipts, the book and its order, compared.

ghost use Rattle.std.specs.Prelude.{◌≡◌};

use rls_session::rls_core::{Posted, Record};
use rls_session::rls_engine::{Book, Named, Receipt};
use rls_session::rls_equality::Same;
use shared_map::Share;
use std::alloc::{AllocError, Global};
use std::collections::BTreeMap;

/// Whether the book's record of the receipt's number is the receipt's: of the same transaction and snapshot, with the same
/// statements.
pub fn has_record<N: Named>(book: &Book, receipt: &Receipt<N>) -> bool
    requires { book.now.commits ≡ N.commits }
{
    let records = book.records();
    let number = receipt.number() as usize;
    if number == 0 || number > records.len() {
        return false;
    }
    book.agrees(receipt);
    is_alike(&records[number - 1], receipt.entry())
}

fn is_alike(one: &Record, other: &Record) -> bool {
    one.txn() == other.txn() && one.snap() == other.snap() && are_alike(one.posts(), other.posts())
}

fn are_alike(ones: &[Share<Posted>], others: &[Share<Posted>]) -> bool {
    if ones.len() != others.len() {
        return false;
    }
    for i in 0..ones.len() {
        if !ones[i]
            .get()
            .statement()
            .is_same(others[i].get().statement())
        {
            return false;
        }
    }
    true
}

/// Whether the numbers are those of all the records, each once, and each stands behind all that had committed when it began.
pub fn keeps_before(
    alloc: Global,
    records: &[Record],
    numbers: &[u64],
) -> Result<bool, AllocError> {
    if numbers.len() != records.len() {
        return Ok(false);
    }
    let turns = turns_of(alloc, numbers)?;
    match places_of(alloc, turns, records)? {
        Some(places) => stand_behind(alloc, records, places.as_slice()),
        None => Ok(false),
    }
}

/// The turn of each number, from 1.
fn turns_of(alloc: Global, numbers: &[u64]) -> Result<BTreeMap<u64, usize>, AllocError> {
    let mut turns = BTreeMap::new(alloc);
    for turn in 0..numbers.len() {
        turns.insert(numbers[turn], turn + 1)?;
    }
    Ok(turns)
}

/// The turn of each record, in the order of their commits; None where one has none of its own.
fn places_of(
    alloc: Global,
    turns: BTreeMap<u64, usize>,
    records: &[Record],
) -> Result<Option<Vec<usize>>, AllocError> {
    let mut turns = turns;
    let mut places = Vec::new(alloc);
    for record in records {
        let Some(turn) = turns.remove(&record.txn()) else {
            return Ok(None);
        };
        places.push(turn)?;
    }
    Ok(Some(places))
}

/// Whether each has a later turn than all that had committed when it began.
fn stand_behind(alloc: Global, records: &[Record], places: &[usize]) -> Result<bool, AllocError> {
    let latest = latest_of(alloc, places)?;
    for i in 0..records.len() {
        let (Some(place), Some(before)) = (places.get(i), latest.get(records[i].snap())) else {
            return Ok(false);
        };
        if records[i].snap() > i || *before >= *place {
            return Ok(false);
        }
    }
    Ok(true)
}

/// The latest turn of the first n, for each n.
fn latest_of(alloc: Global, places: &[usize]) -> Result<Vec<usize>, AllocError> {
    let mut all = Vec::new(alloc);
    let mut latest = 0;
    all.push(latest)?;
    for place in places {
        latest = latest.max(*place);
        all.push(latest)?;
    }
    Ok(all)
}
