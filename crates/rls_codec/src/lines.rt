//! Lines: one value each, as compact JSON.

ghost use Rattle.std.specs.Prelude.{◌≡◌, ◌≤◌, Some, option_and_then, string_bytes, IfOk};
ghost use Rattle.rls_codec.specs.Reading.{Reads};
ghost use Rattle.serde_json.specs.Read.{read, max_depth};
ghost use Rattle.serde_json.specs.View.{view};
ghost use Rattle.serde_json.specs.Written.{compact_text};

use crate::coded::{Coded, Unread};
use serde_json::Value;
use std::alloc::{AllocError, Global};

/// The value's line, without its end: compact JSON, the keys of objects in byte order. It is read back as the value.
#[tactic(auto, using(crate::proofs::LineLemmas::written_plain, crate::proofs::LineLemmas::written_flat, crate::proofs::LineLemmas::read_back))]
pub fn write_line<F, T: Coded<F>>(alloc: Global, value: &T) -> Result<String, AllocError>
    requires { T.codec.levels ≤ max_depth }
    ensures text { IfOk result (λ text. string_bytes text ≡ compact_text (T.codec.written value.now)) }
    ensures reads { IfOk result (λ text. read (string_bytes text) ≡ Some (T.codec.written value.now)) }
    ensures back { IfOk result (λ text. option_and_then T.codec.found (read (string_bytes text)) ≡ Some value.now) }
{
    let json = value.to_json(alloc)?;
    json.to_string(alloc)
}

/// The value whose JSON the text is, in any layout and order of keys. Of a key that stands twice in an object the last counts.
pub fn read_line<F, T: Coded<F>>(alloc: Global, text: &str) -> Result<T, Unread>
    ensures { Reads result (option_and_then T.codec.found (read text.now)) }
{
    match Value::from_str(alloc, text) {
        Ok(json) => T::from_json(alloc, &json),
        Err(error) if error.is_memory() => Err(Unread::NoMemory),
        Err(_) => Err(Unread::Bad),
    }
}
