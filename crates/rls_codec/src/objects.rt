//! Objects: how many members they have, and the member of a name.

ghost use Rattle.std.specs.Prelude.{◌≡◌, Some, option_and_then};
ghost use Rattle.rls_codec.specs.Looking as spec;
ghost use Rattle.rls_codec.specs.Looking.{found_where};
ghost use Rattle.rls_codec.specs.Reading.{Reads};
ghost use Rattle.serde_json.specs.Find.{get};
ghost use Rattle.serde_json.specs.View.{view};

use crate::coded::{Coded, Unread};
use serde_json::Value;
use std::alloc::Global;

/// Whether it is an object of so many members.
#[tactic(auto, using(crate::proofs::CountLemmas::members_counted))]
pub fn has_size(json: &Value, size: usize) -> bool
    ensures { result ≡ spec.has_size size (view json.now) }
{
    match json.as_object() {
        Some(members) => members.len() == size,
        None => false,
    }
}

/// Passes an object of so many members.
pub fn require_size(json: &Value, size: usize) -> Result<(), Unread>
    ensures { Reads result (found_where (spec.has_size size (view json.now)) (Some tt)) }
{
    if has_size(json, size) {
        Ok(())
    } else {
        Err(Unread::Bad)
    }
}

/// What the member of this name stands for.
pub fn member<F, T: Coded<F>>(alloc: Global, json: &Value, name: &str) -> Result<T, Unread>
    ensures { Reads result (option_and_then T.codec.found (get name.now (view json.now))) }
{
    match json.get(name) {
        Some(found) => T::from_json(alloc, found),
        None => Err(Unread::Bad),
    }
}
