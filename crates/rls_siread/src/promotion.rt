//! Promotion of keys to the rows of their tables.

ghost use Rattle.std.specs.Prelude.{◌≡◌, ◌≤◌, ◌&&◌, ◌++◌, true, false, not, if◌then◌else◌, IfOk, IfSome, OnOk, length, filter};
ghost use Rattle.std.specs.List.{list_any};
ghost use Rattle.rls_value.specs.declared.object.Object.{Object as Read};
ghost use Rattle.rls_source.specs.Footprints.{with_object, with_reads, is_among, IsInOrder};
ghost use Rattle.rls_siread.specs.Promotion.{is_key, is_key_of, is_rows, is_plain, is_crowded, stands_for, promoted, noted_with};

use rls_source::{Footprint, Reads};
use rls_value::{Name, Object, Row};
use std::alloc::{AllocError, Global};

/// What is noted once more was read; which of it is new; and which of what was noted before it isn't there any longer.
#[derive(Drop)]
pub(crate) struct More {
    pub(crate) objects: Footprint,
    pub(crate) fresh: Footprint,
    pub(crate) dropped: Footprint,
}

/// What is noted once more was read. Where no table can be crowded then, nothing is promoted.
pub(crate) fn noted_more(
    alloc: Global,
    noted: &Footprint,
    reads: &Footprint,
    limit: usize,
) -> Result<More, AllocError>
    ensures objects { IfOk result (λ more. more.objects ≡ noted_with limit noted.now reads.now) }
    ensures fresh { IfOk result (λ more. (object : Read) → is_among more.fresh object ≡ (is_among more.objects object && not (is_among noted.now object))) }
    ensures dropped { IfOk result (λ more. (object : Read) → is_among more.dropped object ≡ (is_among noted.now object && not (is_among more.objects object))) }
{
    let fresh = missing(alloc, reads, noted)?;
    let objects = with_fresh(alloc, noted, &fresh)?;
    if is_plain(&objects, limit) {
        return Ok(More {
            objects,
            fresh,
            dropped: Footprint::new(alloc),
        });
    }
    promoted_more(alloc, noted, &objects, limit)
}

/// The objects with the fresh ones.
fn with_fresh(
    alloc: Global,
    objects: &Footprint,
    fresh: &Footprint,
) -> Result<Footprint, AllocError>
    ensures all { IfOk result (λ all. all ≡ with_reads objects.now fresh.now) }
    ensures ordered { IsInOrder objects.now }
{
    let _in_order = objects.iter();
    let mut all = Reads::with_capacity(alloc, objects.len())?;
    put_all(alloc, &mut all, objects)?;
    put_all(alloc, &mut all, fresh)?;
    Footprint::from_reads(alloc, all)
}

/// The objects promoted, with what is new among them, and what was noted before and isn't there any longer.
fn promoted_more(
    alloc: Global,
    noted: &Footprint,
    objects: &Footprint,
    limit: usize,
) -> Result<More, AllocError>
    ensures objects { IfOk result (λ more. more.objects ≡ promoted limit objects.now) }
    ensures fresh { IfOk result (λ more. (object : Read) → is_among more.fresh object ≡ (is_among more.objects object && not (is_among noted.now object))) }
    ensures dropped { IfOk result (λ more. (object : Read) → is_among more.dropped object ≡ (is_among noted.now object && not (is_among more.objects object))) }
{
    let objects = promote(alloc, objects, limit)?;
    let fresh = missing(alloc, &objects, noted)?;
    let dropped = missing(alloc, noted, &objects)?;
    Ok(More {
        objects,
        fresh,
        dropped,
    })
}

/// Whether nothing is promoted for sure: there are no more keys than the limit, and none of the objects is all rows of a
/// table; or there is no key.
#[tactic(auto, using(crate::proofs::PlainLaws::plain_of))]
pub(crate) fn is_plain(objects: &Footprint, limit: usize) -> bool
    ensures { result ≡ true → is_plain limit objects.now ≡ true }
{
    if are_few(objects, limit) {
        return true;
    }
    !has_keys(objects)
}

/// Whether the fresh objects are one at most, and nothing is promoted for sure where they are put among the others.
#[tactic(auto, using(crate::proofs::PlainLaws::plain_with_few, crate::proofs::PlainLaws::plain_without_keys))]
pub(crate) fn stay_plain(objects: &Footprint, fresh: &Footprint, limit: usize) -> bool
    ensures few { result ≡ true → length fresh.now ≤ 1 }
    ensures plain { result ≡ true → is_plain limit (with_reads objects.now fresh.now) ≡ true }
{
    if fresh.len() > 1 {
        return false;
    }
    if limit > 0 && !has_rows(fresh) && are_few(objects, limit - 1) {
        return true;
    }
    !has_keys(objects) && !has_keys(fresh)
}

/// Whether one of them is a key.
fn has_keys(objects: &Footprint) -> bool
    ensures { result ≡ list_any is_key objects.now }
{
    objects.iter().any(|object| is_key(object))
}

/// Whether there are no more keys than so many, and none of the objects is all rows of a table.
fn are_few(objects: &Footprint, most: usize) -> bool
    ensures keys { result ≡ true → length (filter is_key objects.now) ≤ most }
    ensures rows { result ≡ true → list_any is_rows objects.now ≡ false }
{
    let mut left = most;
    for object in objects.iter() {
        if is_rows(object) {
            return false;
        }
        if is_key(object) {
            if left == 0 {
                return false;
            }
            left -= 1;
        }
    }
    true
}

fn is_key(object: &Object) -> bool
    ensures { result ≡ is_key object.now }
{
    match object {
        Object::Key(_, _) => true,
        _ => false,
    }
}

/// Whether one of them is all rows of a table.
fn has_rows(objects: &Footprint) -> bool
    ensures { result ≡ list_any is_rows objects.now }
{
    objects.iter().any(|object| is_rows(object))
}

fn is_rows(object: &Object) -> bool
    ensures { result ≡ is_rows object.now }
{
    match object {
        Object::Rows(_) => true,
        _ => false,
    }
}

/// The objects that aren't among the others.
pub(crate) fn missing(
    alloc: Global,
    objects: &Footprint,
    others: &Footprint,
) -> Result<Footprint, AllocError>
    ensures { IfOk result (λ missing. (object : Read) → is_among missing object ≡ (is_among objects.now object && not (is_among others.now object))) }
{
    let mut missing = Reads::new(alloc);
    for object in objects.iter() {
        if !others.contains(object) {
            missing.note(object.copy(alloc)?)?;
        }
    }
    Footprint::from_reads(alloc, missing)
}

/// Puts copies of the objects behind the reads.
fn put_all(alloc: Global, reads: &mut Reads, objects: &Footprint) -> Result<(), AllocError>
    ensures { OnOk result (reads.new ≡ reads.old ++ objects.now) }
{
    for object in objects.iter() {
        reads.note(object.copy(alloc)?)?;
    }
    Ok(())
}

/// A table, and whether its rows stand for its keys.
#[derive(Drop)]
struct Judged {
    table: Name,
    crowded: bool,
}

/// The objects, with the rows of each table in place of its keys where all of them are among the objects, or more than `limit`
/// of its keys.
pub fn promote(alloc: Global, objects: &Footprint, limit: usize) -> Result<Footprint, AllocError>
    ensures { IfOk result (λ kept. kept ≡ promoted limit objects.now) }
{
    let mut kept = Footprint::new(alloc);
    let mut last = None;
    for object in objects.iter() {
        last = put_standing(alloc, &mut kept, objects, object, limit, last)?;
    }
    Ok(kept)
}

/// Puts what stands for the object in its place. The keys of a table follow each other, so that each table is judged once.
fn put_standing(
    alloc: Global,
    kept: &mut Footprint,
    objects: &Footprint,
    object: &Object,
    limit: usize,
    last: Option<Judged>,
) -> Result<Option<Judged>, AllocError>
    requires { IfSome last (λ judged. judged.crowded ≡ is_crowded limit objects.now judged.table) }
    ensures kept { OnOk result (kept.new ≡ with_object kept.old (stands_for limit objects.now object.now)) }
    ensures judged { IfOk result (λ last. IfSome last (λ judged. judged.crowded ≡ is_crowded limit objects.now judged.table)) }
{
    match object {
        Object::Key(table, key) => {
            let judged = judge(objects, table, limit, last)?;
            kept.note(key_or_rows(alloc, table, key, judged.crowded)?)?;
            Ok(Some(judged))
        }
        _ => {
            kept.note(object.copy(alloc)?)?;
            Ok(last)
        }
    }
}

/// Whether the rows of the table stand for its keys. It is the table last judged, or counted anew.
fn judge(
    objects: &Footprint,
    table: &Name,
    limit: usize,
    last: Option<Judged>,
) -> Result<Judged, AllocError>
    requires { IfSome last (λ judged. judged.crowded ≡ is_crowded limit objects.now judged.table) }
    ensures table { IfOk result (λ judged. judged.table ≡ table.now) }
    ensures crowded { IfOk result (λ judged. judged.crowded ≡ is_crowded limit objects.now table.now) }
{
    if let Some(judged) = last {
        if judged.table.is(table) {
            return Ok(judged);
        }
    }
    Ok(Judged {
        table: table.copy()?,
        crowded: is_table_crowded(objects, table, limit)?,
    })
}

fn key_or_rows(alloc: Global, table: &Name, key: &Row, crowded: bool) -> Result<Object, AllocError>
    ensures { IfOk result (λ object. object ≡ (if crowded then Object.Rows table.now else Object.Key table.now key.now)) }
{
    let table = table.copy()?;
    if crowded {
        Ok(Object::Rows(table))
    } else {
        Ok(Object::Key(table, key.copy(alloc)?))
    }
}

/// Whether all rows of the table are noted, or more than the limit of its keys.
fn is_table_crowded(objects: &Footprint, table: &Name, limit: usize) -> Result<bool, AllocError>
    ensures { IfOk result (λ is. is ≡ is_crowded limit objects.now table.now) }
{
    let rows = Object::Rows(table.copy()?);
    Ok(objects.contains(&rows) || limit < keys_noted(objects, table))
}

/// How many keys of the table are among the objects.
fn keys_noted(objects: &Footprint, table: &Name) -> usize
    ensures { result ≡ length (filter (is_key_of table.now) objects.now) }
{
    objects
        .iter()
        .filter(|object| is_key_of(object, table))
        .count()
}

fn is_key_of(object: &Object, table: &Name) -> bool
    ensures { result ≡ is_key_of table.now object.now }
{
    match object {
        Object::Key(other, _) => table.is(other),
        _ => false,
    }
}
