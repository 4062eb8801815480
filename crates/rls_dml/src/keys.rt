//! The primary keys of new rows.

ghost use Rattle.std.specs.Prelude.{◌≡◌, map, false, IfOk, OnOk, IsTrue};
ghost use Rattle.std.specs.List.{list_any};
ghost use Rattle.rls_value.specs.Values.{is_null, value_at};
ghost use Rattle.rls_guard.specs.rls_catalog.specs.State.{rows_of};
ghost use Rattle.rls_guard.specs.rls_source.specs.Answering.{Answers, Tells};
ghost use Rattle.rls_guard.specs.rls_source.specs.Answering.{having_read};
ghost use Rattle.rls_dml.specs.Writing as spec;
ghost use Rattle.rls_dml.specs.Writing.{unique_or_refused, keys_taken, has_doubles};

use crate::replaced::{Numbers, Replaced};
use rls_guard::rls_catalog::{BorrowedRow, Catalog, Stored};
use rls_guard::rls_source::Asker;
use rls_value::{Name, Object, Refusal, Row, Value, cmp_values};
use std::alloc::{AllocError, Global};
use std::cmp::Ordering;
use std::collections::BTreeSet;

/// The values of the row at the places of a key; no places give the empty key.
pub fn key_at(alloc: Global, places: &[usize], row: &Row) -> Result<Row, AllocError>
    ensures { IfOk result (λ key. key ≡ spec.key_at places.now row.now) }
{
    let mut values = Vec::with_capacity(alloc, places.len())?;
    for place in places {
        values.push(row.value(*place)?)?;
    }
    Row::new(values)
}

/// The same. Where the values are those of the other key, that one's are shared, and no memory is taken.
pub fn key_like(alloc: Global, places: &[usize], row: &Row, other: &Row) -> Result<Row, AllocError>
    ensures { IfOk result (λ key. key ≡ spec.key_at places.now row.now) }
{
    if is_key_at(other.as_slice(), places, row) {
        other.copy(alloc)
    } else {
        key_at(alloc, places, row)
    }
}

/// Whether the row has the values of the key at the places.
fn is_key_at(key: &[Value], places: &[usize], row: &Row) -> bool
    ensures { IsTrue result → key.now ≡ spec.key_at places.now row.now }
{
    let mut left = key;
    for place in places {
        match left {
            [value, rest @ ..] => {
                if !is_value_at(value, row, *place) {
                    return false;
                }
                left = rest;
            }
            [] => return false,
        }
    }
    left.is_empty()
}

/// Whether the row has the value at the place; it has a null where there is no such place.
#[tactic(auto, using(rls_value::proofs::ListingLaws::values_same))]
fn is_value_at(value: &Value, row: &Row, place: usize) -> bool
    ensures { IsTrue result → value.now ≡ value_at row.now place }
{
    match row.get(place) {
        Some(other) => cmp_values(value, other) == Ordering::Equal,
        None => value.is_null(),
    }
}

/// Refused where a key is that of a row that stays, or of two new rows. A key with a null is nobody's.
pub fn require_unique<'c>(
    asker: &mut Asker<'c>,
    name: &Name,
    replaced: &Replaced<'_, 'c>,
    rows: &[Stored],
) -> Result<(), Refusal>
    ensures { Answers (unique_or_refused name.now replaced.now (spec.keys_of rows.now)) asker.old asker.new result }
{
    let keys = whole_keys(asker.alloc(), rows)?;
    let taken = are_taken(asker, name, replaced, &keys)?;
    if taken || have_doubles(asker.alloc(), &keys)? {
        return Err(Refusal::Unique(name.copy()?));
    }
    Ok(())
}

/// The keys that have no null, of a table that has a key.
fn whole_keys(alloc: Global, rows: &[Stored]) -> Result<Vec<Row>, AllocError>
    ensures { IfOk result (λ keys. keys.items ≡ spec.keys_of rows.now) }
{
    let mut keys = Vec::with_capacity(alloc, rows.len())?;
    for stored in rows {
        if is_whole(stored.key.as_slice()) {
            keys.push(stored.key.copy(alloc)?)?;
        }
    }
    Ok(keys)
}

/// Whether it is the key of a keyed table, and has no null.
fn is_whole(key: &[Value]) -> bool
    ensures { result ≡ spec.is_whole key.now }
{
    match key {
        [] => false,
        [value, values @ ..] => !(value.is_null() || have_null(values)),
    }
}

fn have_null(values: &[Value]) -> bool
    ensures { result ≡ list_any is_null values.now }
{
    values.iter().any(|value| value.is_null())
}

/// Whether a row of the table that stays has one of the keys. All are read; where no row stays none has to be looked up.
#[tactic(auto, using(crate::proofs::StayingLemmas::none_taken_gives, crate::proofs::StayingLemmas::none_taken_reads))]
fn are_taken<'c>(
    asker: &mut Asker<'c>,
    name: &Name,
    replaced: &Replaced<'_, 'c>,
    keys: &[Row],
) -> Result<bool, AllocError>
    ensures { Tells (keys_taken name.now replaced.now keys.now) asker.old asker.new result }
{
    if let [] = keys {
        Ok(false)
    } else if none_stays(asker.alloc(), asker.catalog(), name, replaced)? {
        read_keys(asker, name, keys)?;
        Ok(false)
    } else {
        let numbers = replaced.numbers(asker.alloc())?;
        let taken = have_taken(asker, name, &numbers, keys);
        drop(numbers);
        taken
    }
}

/// Whether no row of the table stays, where that is seen at a look at the table, which is no read.
#[tactic(auto, using(crate::proofs::StayingLemmas::none_of_those))]
fn none_stays<'c>(
    alloc: Global,
    catalog: &'c Catalog,
    name: &Name,
    replaced: &Replaced<'_, 'c>,
) -> Result<bool, AllocError>
    ensures { IfOk result (λ none. IsTrue none → spec.stays_any replaced.now (rows_of catalog.now name.now) ≡ false) }
{
    if replaced.may_be_all() {
        let rows = catalog.rows(alloc, name)?;
        Ok(replaced.are_numbered_as(rows.as_slice()))
    } else {
        Ok(false)
    }
}

/// Reads the keys without a look-up.
fn read_keys(asker: &mut Asker, name: &Name, keys: &[Row]) -> Result<(), AllocError>
    ensures { OnOk result (asker.new ≡ having_read asker.old (spec.keys_read name.now keys.now)) }
{
    let objects = key_objects(asker.alloc(), name, keys)?;
    asker.note_all(objects)
}

fn key_objects(alloc: Global, name: &Name, keys: &[Row]) -> Result<Vec<Object>, AllocError>
    ensures { IfOk result (λ objects. objects.items ≡ spec.keys_read name.now keys.now) }
{
    let mut objects = Vec::with_capacity(alloc, keys.len())?;
    for key in keys {
        objects.push(key_object(alloc, name, key)?)?;
    }
    Ok(objects)
}

fn key_object(alloc: Global, name: &Name, key: &Row) -> Result<Object, AllocError>
    ensures { IfOk result (λ object. object ≡ Object.Key name.now key.now) }
{
    let key = key.copy(alloc)?;
    match name.copy() {
        Ok(name) => Ok(Object::Key(name, key)),
        Err(refused) => {
            drop(key);
            Err(refused)
        }
    }
}

/// Whether a row of the table that stays has one of the keys. All are looked up.
fn have_taken<'c>(
    asker: &mut Asker<'c>,
    name: &Name,
    replaced: &Numbers<'_, 'c>,
    keys: &[Row],
) -> Result<bool, AllocError>
    ensures { Tells (keys_taken name.now replaced.now keys.now) asker.old asker.new result }
{
    let mut taken = false;
    for key in keys {
        let found = asker.by_key(name, key)?;
        taken = taken || stays_any(replaced, found.as_slice());
    }
    Ok(taken)
}

/// Whether one of the rows stays.
fn stays_any(replaced: &Numbers<'_, '_>, rows: &[BorrowedRow<'_>]) -> bool
    ensures { result ≡ spec.stays_any replaced.now rows.now }
{
    rows.iter().any(|row| !replaced.has(row.id()))
}

/// Whether two keys are the same. Where they ascend, one look at each tells.
#[tactic(auto, using(crate::proofs::DoubleLemmas::ascending_once))]
fn have_doubles(alloc: Global, keys: &[Row]) -> Result<bool, AllocError>
    ensures { IfOk result (λ doubles. doubles ≡ has_doubles keys.now) }
{
    if ascend(keys) {
        Ok(false)
    } else {
        have_doubles_anywhere(alloc, keys)
    }
}

/// Whether each key is below the next one.
fn ascend(mut keys: &[Row]) -> bool
    ensures { result ≡ spec.ascend keys.entry.now }
{
    while let [key, rest @ ..] = keys {
        if !is_below(key, rest) {
            return false;
        }
        keys = rest;
    }
    true
}

/// Whether the key is below the next one, if there is one.
fn is_below(key: &Row, keys: &[Row]) -> bool
    ensures { result ≡ spec.is_below key.now keys.now }
{
    match keys {
        [next, ..] => key < next,
        [] => true,
    }
}

/// Whether two keys are the same, in whatever order they are.
fn have_doubles_anywhere(alloc: Global, mut keys: &[Row]) -> Result<bool, AllocError>
    ensures { IfOk result (λ doubles. doubles ≡ has_doubles keys.entry.now) }
{
    let mut seen = BTreeSet::new(alloc);
    while let [key, rest @ ..] = keys {
        if !seen.insert(key)? {
            return Ok(true);
        }
        keys = rest;
    }
    Ok(false)
}
