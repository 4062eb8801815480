//! Numbers, truth values and texts as JSON.

ghost use Rattle.std.specs.Prelude.{◌^◌};
ghost use Rattle.rls_codec.specs.Codecs.{natural, natural_below, integer, flag};
ghost use Rattle.rls_codec.specs.Reading.{ReadsAs};
ghost use Rattle.serde_json.specs.Find.{as_str};
ghost use Rattle.serde_json.specs.View.{view};

use crate::coded::{Coded, NeverNull, Unread};
use serde_json::Value;
use std::alloc::{AllocError, Global};

impl<F> Coded<F> for u64 {
    ghost codec = { natural };

    fn to_json(&self, _alloc: Global) -> Result<Value, AllocError> {
        Ok(Value::from(*self))
    }

    fn from_json(_alloc: Global, json: &Value) -> Result<u64, Unread> {
        json.as_u64().ok_or(Unread::Bad)
    }
}

impl<F> NeverNull<F> for u64 {
    ghost use Rattle.std.proofs.Common.{refl};

    ghost apart = { λ _. refl };
}

impl<F> Coded<F> for u32 {
    ghost codec = { natural_below (2 ^ 32) };

    fn to_json(&self, _alloc: Global) -> Result<Value, AllocError> {
        Ok(Value::from(*self))
    }

    fn from_json(_alloc: Global, json: &Value) -> Result<u32, Unread> {
        match json.as_u64() {
            Some(number) if number < 1 << 32 => Ok(number as u32),
            _ => Err(Unread::Bad),
        }
    }
}

impl<F> Coded<F> for i64 {
    ghost codec = { integer };

    fn to_json(&self, _alloc: Global) -> Result<Value, AllocError> {
        Ok(Value::from(*self))
    }

    fn from_json(_alloc: Global, json: &Value) -> Result<i64, Unread> {
        json.as_i64().ok_or(Unread::Bad)
    }
}

impl<F> Coded<F> for bool {
    ghost codec = { flag };

    fn to_json(&self, _alloc: Global) -> Result<Value, AllocError> {
        Ok(Value::from(*self))
    }

    fn from_json(_alloc: Global, json: &Value) -> Result<bool, Unread> {
        json.as_bool().ok_or(Unread::Bad)
    }
}

/// The text that the JSON is.
pub fn read_text(json: &Value) -> Result<&str, Unread>
    ensures { ReadsAs (λ text. text.now) result (as_str (view json.now)) }
{
    json.as_str().ok_or(Unread::Bad)
}
