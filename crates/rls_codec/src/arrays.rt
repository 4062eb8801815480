//! Arrays: lists, pairs, items at their places, and the items that tell what those behind them are.

ghost use Rattle.std.specs.Prelude.{◌≡◌, [], map, Some, option_and_then, IfOk, OnOk};
ghost use Rattle.rls_codec.specs.Codecs.{list_of, pair};
ghost use Rattle.rls_codec.specs.Looking as spec;
ghost use Rattle.rls_codec.specs.Looking.{by_word, by_number, found_after, found_where, is_head};
ghost use Rattle.rls_codec.specs.Reading.{Reads, ReadsAs};
ghost use Rattle.serde_json.specs.Data.{array};
ghost use Rattle.serde_json.specs.Find.{at};
ghost use Rattle.serde_json.specs.View.{view, items_of, items_view};

use crate::coded::{Coded, Unread, json_of};
use serde_json::{Value, json};
use std::alloc::{AllocError, Global};

/// The array of these items.
pub fn array_of<const N: usize>(alloc: Global, items: [Value; N]) -> Result<Value, AllocError>
    ensures { IfOk result (λ json. view json ≡ array (items_of (map view items.entry))) }
{
    Ok(Value::from(Vec::from_array(alloc, items)?))
}

/// Whether it is an array of so many items.
#[tactic(auto, using(crate::proofs::CountLemmas::items_counted))]
pub fn has_length(json: &Value, length: usize) -> bool
    ensures { result ≡ spec.has_length length (view json.now) }
{
    match json.as_array() {
        Some(items) => items.len() == length,
        None => false,
    }
}

/// Passes an array of so many items.
pub fn require_length(json: &Value, length: usize) -> Result<(), Unread>
    ensures { Reads result (found_where (spec.has_length length (view json.now)) (Some tt)) }
{
    if has_length(json, length) {
        Ok(())
    } else {
        Err(Unread::Bad)
    }
}

/// What the item at this place stands for.
pub fn item<F, T: Coded<F>>(alloc: Global, json: &Value, place: usize) -> Result<T, Unread>
    ensures { Reads result (option_and_then T.codec.found (at place (view json.now))) }
{
    match json.get(place) {
        Some(found) => T::from_json(alloc, found),
        None => Err(Unread::Bad),
    }
}

/// Whether the item at this place is the word.
pub fn is_word(json: &Value, place: usize, word: &str) -> bool
    ensures { result ≡ is_head (by_word word.now) (at place (view json.now)) }
{
    match json.get(place).and_then(Value::as_str) {
        Some(found) => found == word,
        None => false,
    }
}

/// Whether the item at this place is the number.
pub fn is_number(json: &Value, place: usize, number: u64) -> bool
    ensures { result ≡ is_head (by_number number) (at place (view json.now)) }
{
    match json.get(place).and_then(Value::as_u64) {
        Some(found) => found == number,
        None => false,
    }
}

/// An array of two.
impl<F, A: Coded<F> + Drop, B: Coded<F> + Drop> Coded<F> for (A, B) {
    ghost codec = { pair A.codec B.codec };

    fn to_json(&self, alloc: Global) -> Result<Value, AllocError> {
        json!(in alloc; [json_of::<F, _>(alloc, &self.0)?, json_of::<F, _>(alloc, &self.1)?])
    }

    fn from_json(alloc: Global, json: &Value) -> Result<(A, B), Unread> {
        require_length(json, 2)?;
        let first = item::<F, _>(alloc, json, 0)?;
        let second = item::<F, _>(alloc, json, 1)?;
        Ok((first, second))
    }
}

/// The array of the values, in order.
pub fn list_to_json<F, T: Coded<F>>(alloc: Global, items: &[T]) -> Result<Value, AllocError>
    ensures json { IfOk result (λ json. view json ≡ (list_of T.codec).written items.now) }
    ensures fits { OnOk result ((list_of T.codec).Fits items.now) }
{
    let mut values = Vec::with_capacity(alloc, items.len())?;
    for item in items {
        values.push(item.to_json(alloc)?)?;
    }
    Ok(Value::from(values))
}

/// The values of an array, in order.
pub fn list_from_json<F, T: Coded<F> + Drop>(alloc: Global, json: &Value) -> Result<Vec<T>, Unread>
    ensures { ReadsAs (λ values. values.items) result ((list_of T.codec).found (view json.now)) }
{
    match json.as_array() {
        Some(values) => read_items::<F, T>(alloc, values.as_slice()),
        None => Err(Unread::Bad),
    }
}

fn read_items<F, T: Coded<F> + Drop>(alloc: Global, values: &[Value]) -> Result<Vec<T>, Unread>
    ensures { ReadsAs (λ found. found.items) result (found_after T.codec.found [] (items_view values.now)) }
{
    let mut items = Vec::with_capacity(alloc, values.len())?;
    for value in values {
        items.push(T::from_json(alloc, value)?)?;
    }
    Ok(items)
}
