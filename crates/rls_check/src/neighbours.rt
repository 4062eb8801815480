//! Which transactions stand right before which, and which are concurrent, by how many had committed when each began.

ghost use Rattle.std.specs.Prelude.{◌≡◌, ◌++◌, [], length, get_or, max, replicate, IfOk, OnOk};
ghost use Rattle.rls_check.specs.GraphSteps as spec;

use rls_value::Items;
use std::alloc::{AllocError, Global};

/// Of each transaction a set of others.
pub(crate) type Sets = Vec<Items<usize>>;

/// Of each transaction those right behind it, in this order: it had committed when they began, and none stands between.
///
/// A transaction T is right before U where it had committed when U began, and no third that had committed then began after T's
/// commit: so its place is below U's snapshot, and not below the greatest snapshot of those. Such T were all open at one time.
pub(crate) fn right_behind(
    alloc: Global,
    snaps: &[usize],
    order: &[usize],
) -> Result<Sets, AllocError>
    ensures { IfOk result (λ sets. sets.items ≡ spec.turned_of (length snaps.now) (spec.before_sets snaps.now) order.now) }
{
    let sets = before_sets(alloc, snaps)?;
    let turned = turned(alloc, snaps.len(), sets.as_slice(), order);
    drop(sets);
    turned
}

/// Of each those that are concurrent with it, in this order.
///
/// Those that committed while it was open lie between its snapshot and its place. The others were open while it committed: it lies
/// between their snapshot and their place.
pub(crate) fn concurrent(
    alloc: Global,
    snaps: &[usize],
    order: &[usize],
) -> Result<Sets, AllocError>
    ensures { IfOk result (λ sets. sets.items ≡ spec.turned_of (length snaps.now) (spec.near_sets (spec.later_sets snaps.now) 0 snaps.now) order.now) }
{
    let later = later_sets(alloc, snaps)?;
    let near = near_sets(alloc, snaps, later.as_slice());
    drop(later);
    let near = near?;
    let turned = turned(alloc, snaps.len(), near.as_slice(), order);
    drop(near);
    turned
}

/// Of each those that were open while it committed.
fn later_sets(alloc: Global, snaps: &[usize]) -> Result<Sets, AllocError>
    ensures { IfOk result (λ sets. sets.items ≡ spec.later_sets snaps.now) }
{
    let open = open_sets(alloc, snaps)?;
    let later = turned_all(alloc, snaps.len(), open.as_slice());
    drop(open);
    later
}

/// The sets turned, in the order of numbers.
fn turned_all(alloc: Global, count: usize, sets: &[Items<usize>]) -> Result<Sets, AllocError>
    ensures { IfOk result (λ turned. turned.items ≡ spec.turned_of count sets.now (spec.numbers_between 0 count)) }
{
    let numbers = numbers_between(alloc, 0, count)?;
    let turned = turned(alloc, count, sets, numbers.as_slice());
    drop(numbers);
    turned
}

/// Of each number those whose sets it is in, in this order.
fn turned(
    alloc: Global,
    count: usize,
    sets: &[Items<usize>],
    mut numbers: &[usize],
) -> Result<Sets, AllocError>
    ensures { IfOk result (λ turned. turned.items ≡ spec.turned_of count sets.now numbers.entry.now) }
{
    let mut turned = empty_sets(alloc, count)?;
    while let [number, rest @ ..] = numbers {
        put_at(&mut turned, sets, *number)?;
        numbers = rest;
    }
    Ok(turned)
}

/// The number at the end of each set that its own names.
fn put_at(turned: &mut Sets, sets: &[Items<usize>], number: usize) -> Result<(), AllocError>
    ensures { OnOk result (turned.new.items ≡ spec.with_each turned.old.items (get_or sets.now number []) number) }
{
    match sets.get(number) {
        Some(set) => put_at_each(turned, set.as_slice(), number),
        None => Ok(()),
    }
}

fn put_at_each(turned: &mut Sets, mut places: &[usize], number: usize) -> Result<(), AllocError>
    ensures { OnOk result (turned.new.items ≡ spec.with_each turned.old.items places.entry.now number) }
{
    while let [place, rest @ ..] = places {
        if let Some(set) = turned.get_mut(*place) {
            set.push(number)?;
        }
        places = rest;
    }
    Ok(())
}

fn empty_sets(alloc: Global, count: usize) -> Result<Sets, AllocError>
    ensures { IfOk result (λ sets. sets.items ≡ replicate count []) }
{
    let mut sets = Vec::with_capacity(alloc, count)?;
    for i in 0..count {
        let _place = i;
        sets.push(Items::new(alloc))?;
    }
    Ok(sets)
}

/// Of each those right before it.
fn before_sets(alloc: Global, snaps: &[usize]) -> Result<Sets, AllocError>
    ensures { IfOk result (λ sets. sets.items ≡ spec.before_sets snaps.now) }
{
    let greatest = greatest_snaps(alloc, snaps)?;
    let sets = sets_from(alloc, greatest.as_slice(), snaps);
    drop(greatest);
    sets
}

fn sets_from(alloc: Global, greatest: &[usize], mut snaps: &[usize]) -> Result<Sets, AllocError>
    ensures { IfOk result (λ sets. sets.items ≡ spec.sets_from greatest.now snaps.entry.now) }
{
    let mut sets = Vec::new(alloc);
    while let [snap, rest @ ..] = snaps {
        sets.push(numbers_between(alloc, number_at(greatest, *snap), *snap)?)?;
        snaps = rest;
    }
    Ok(sets)
}

fn number_at(numbers: &[usize], place: usize) -> usize
    ensures { result ≡ get_or numbers.now place 0 }
{
    match numbers.get(place) {
        Some(number) => *number,
        None => 0,
    }
}

/// The greatest snapshot in front of each place, and of all.
fn greatest_snaps(alloc: Global, mut snaps: &[usize]) -> Result<Vec<usize>, AllocError>
    ensures { IfOk result (λ greatest. greatest.items ≡ spec.greatest_from 0 snaps.entry.now) }
{
    let mut greatest = Vec::new(alloc);
    let mut most = 0;
    while let [snap, rest @ ..] = snaps {
        greatest.push(most)?;
        most = greater(most, *snap);
        snaps = rest;
    }
    greatest.push(most)?;
    Ok(greatest)
}

fn greater(one: usize, other: usize) -> usize
    ensures { result ≡ max one other }
{
    if one < other { other } else { one }
}

/// Of each those that committed while it was open.
fn open_sets(alloc: Global, mut snaps: &[usize]) -> Result<Sets, AllocError>
    ensures { IfOk result (λ sets. sets.items ≡ spec.open_sets 0 snaps.entry.now) }
{
    let mut sets = Vec::new(alloc);
    while let [snap, rest @ ..] = snaps {
        let place = sets.len();
        sets.push(numbers_between(alloc, *snap, place)?)?;
        snaps = rest;
    }
    Ok(sets)
}

/// Of each those that are concurrent with it.
fn near_sets(alloc: Global, mut snaps: &[usize], later: &[Items<usize>]) -> Result<Sets, AllocError>
    ensures { IfOk result (λ sets. sets.items ≡ spec.near_sets later.now 0 snaps.entry.now) }
{
    let mut sets = Vec::new(alloc);
    while let [snap, rest @ ..] = snaps {
        let place = sets.len();
        sets.push(near_set(alloc, *snap, place, later)?)?;
        snaps = rest;
    }
    Ok(sets)
}

/// Those that committed while it was open, and those that were open while it committed.
fn near_set(
    alloc: Global,
    snap: usize,
    place: usize,
    later: &[Items<usize>],
) -> Result<Items<usize>, AllocError>
    ensures { IfOk result (λ set. set ≡ spec.numbers_between snap place ++ get_or later.now place []) }
{
    let mut near = numbers_between(alloc, snap, place)?;
    match later.get(place) {
        Some(more) => {
            push_all(&mut near, more.as_slice())?;
            Ok(near)
        }
        None => Ok(near),
    }
}

fn push_all(numbers: &mut Items<usize>, mut more: &[usize]) -> Result<(), AllocError>
    ensures { OnOk result (numbers.new ≡ numbers.old ++ more.entry.now) }
{
    while let [number, rest @ ..] = more {
        numbers.push(*number)?;
        more = rest;
    }
    Ok(())
}

/// The numbers from the one on that are below the other.
#[tactic(auto, using(crate::proofs::GraphSetLemmas::between_all))]
fn numbers_between(alloc: Global, from: usize, to: usize) -> Result<Items<usize>, AllocError>
    ensures { IfOk result (λ numbers. numbers ≡ spec.numbers_between from to) }
{
    let mut numbers = Items::new(alloc);
    for number in from..to {
        numbers.push(number)?;
    }
    Ok(numbers)
}
