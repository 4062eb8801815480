//! What may be absent as JSON.

ghost use Rattle.rls_codec.specs.Codecs.{maybe};

use crate::coded::{Coded, NeverNull, Unread};
use serde_json::Value;
use std::alloc::{AllocError, Global};

/// `null` for what is absent.
impl<F, T: NeverNull<F> + Drop> Coded<F> for Option<T> {
    ghost codec = { maybe T.codec };

    fn to_json(&self, alloc: Global) -> Result<Value, AllocError> {
        match self {
            Some(value) => value.to_json(alloc),
            None => Ok(Value::Null),
        }
    }

    fn from_json(alloc: Global, json: &Value) -> Result<Option<T>, Unread> {
        if json.is_null() {
            return Ok(None);
        }
        Ok(Some(T::from_json(alloc, json)?))
    }
}
