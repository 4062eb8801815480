//! The search for a dangerous structure among the rw-antidependencies of a transaction that commits now.

ghost use Rattle.std.specs.Prelude.{◌≡◌, ℕ, ◌⊎◌, Some, MatchOption};
ghost use Rattle.rls_conflict.specs.Commits.{is_place_in};
ghost use Rattle.rls_conflict.specs.Search.{counts_for, NoLast, IsLast, NoneAround, IsAround, is_first_for, has_read_from, counts_now, NoFurther, IsFurther, NoneBeyond, IsBeyond};

use crate::committed::Committed;

/// With the transaction as the pivot: the first and the last, of the least numbers.
pub(crate) fn around(
    committed: &[Committed],
    readers: &[usize],
    read: &[usize],
) -> Option<(usize, usize)>
    ensures { MatchOption result (NoneAround committed.now readers.now read.now) (IsAround committed.now readers.now read.now) }
{
    let mut found = None;
    for first in readers {
        if let Some(last) = last_for(committed, *first, read) {
            found = Some(lesser_pair(committed, found, (*first, last)));
        }
    }
    found
}

/// The last one that counts for the first, of the least number.
fn last_for(committed: &[Committed], first: usize, read: &[usize]) -> Option<usize>
    ensures { MatchOption result (NoLast committed.now first read.now) (IsLast committed.now first read.now) }
{
    let mut found = None;
    for last in read {
        if counts(committed, first, *last) {
            found = Some(lesser(committed, found, *last));
        }
    }
    found
}

/// With the transaction as the first: the pivot and the last, of the least numbers.
pub(crate) fn beyond(
    committed: &[Committed],
    read: &[usize],
    has_written: bool,
    snap: usize,
) -> Option<(usize, usize)>
    ensures { MatchOption result (NoneBeyond committed.now read.now has_written snap) (IsBeyond committed.now read.now has_written snap) }
{
    let mut found = None;
    for pivot in read {
        if let Some(last) = further(committed, has_written, snap, *pivot) {
            found = Some(lesser_pair(committed, found, (*pivot, last)));
        }
    }
    found
}

/// The last one that counts, from which the pivot read, of the least number.
fn further(committed: &[Committed], has_written: bool, snap: usize, pivot: usize) -> Option<usize>
    ensures { MatchOption result (NoFurther committed.now has_written snap pivot) (IsFurther committed.now has_written snap pivot) }
{
    let mut found = None;
    for last in read_from(committed, pivot) {
        if counts_for_now(has_written, snap, *last) {
            found = Some(lesser(committed, found, *last));
        }
    }
    found
}

/// The places that the one at the place read from.
fn read_from(committed: &[Committed], place: usize) -> &[usize]
    ensures { (last : ℕ) → is_place_in result.now last ≡ has_read_from committed.now place last }
{
    match committed.get(place) {
        Some(it) => it.read.as_slice(),
        None => &[],
    }
}

/// Whether the last committed no later than the first, and before the first began if that only read.
fn counts(committed: &[Committed], first: usize, last: usize) -> bool
    ensures { result ≡ counts_for committed.now first last }
{
    match committed.get(first) {
        Some(it) => last <= first && is_first(it, last),
        None => false,
    }
}

/// Whether it changed something, or began after the last had committed.
fn is_first(it: &Committed, last: usize) -> bool
    ensures { result ≡ is_first_for last it.now }
{
    let transaction = it.transaction.get();
    !transaction.changes.as_slice().is_empty() || last < transaction.snap
}

fn counts_for_now(has_written: bool, snap: usize, last: usize) -> bool
    ensures { result ≡ counts_now has_written snap last }
{
    has_written || last < snap
}

/// Of the place that was found and this one, that with the lesser number.
fn lesser(committed: &[Committed], found: Option<usize>, place: usize) -> usize
    ensures { (result ≡ place) ⊎ (found ≡ Some result) }
{
    match found {
        Some(other) if number_at(committed, other) <= number_at(committed, place) => other,
        _ => place,
    }
}

/// Of the two places that were found and these two, those with the lesser numbers.
fn lesser_pair(
    committed: &[Committed],
    found: Option<(usize, usize)>,
    pair: (usize, usize),
) -> (usize, usize)
    ensures { (result ≡ pair) ⊎ (found ≡ Some result) }
{
    match found {
        Some(other) if numbers_at(committed, other) <= numbers_at(committed, pair) => other,
        _ => pair,
    }
}

fn numbers_at(committed: &[Committed], pair: (usize, usize)) -> (u64, u64) {
    (number_at(committed, pair.0), number_at(committed, pair.1))
}

/// The number of the transaction at the place.
fn number_at(committed: &[Committed], place: usize) -> u64 {
    match committed.get(place) {
        Some(it) => it.transaction.get().number,
        None => 0,
    }
}
