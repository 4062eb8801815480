//! Values of rows and lists of them, and their JSON.

ghost use Rattle.std.specs.Prelude.{◌≡◌, false};
ghost use Rattle.rls_codec.specs.Codecs.{list_of};
ghost use Rattle.rls_tests.specs.CodedValues.{datum};

use crate::coded_words::{Audit, Word};
use rls_codec::{Coded, NeverNull, Unread, json_of, list_from_json, list_to_json};
use serde_json::Value;
use std::alloc::{AllocError, Global};
use std::marker::Model;

/// A list, seen as such.
#[derive(Drop)]
pub struct Items<T> {
    items: Vec<T>,
}

impl<T> Model for Items<T> {
    ghost use Rattle.std.specs.Prelude.{List};
    ghost use Rattle.std.specs.Coded.{coded_list};

    ghost Value = { List T };

    ghost coded = { coded_list T.code };

    ghost view = { λ it. it.items.items };
}

#[cfg(test)]
impl<T: Coded<Audit> + Drop> Coded<Audit> for Items<T> {
    ghost codec = { list_of T.codec };

    fn to_json(&self, alloc: Global) -> Result<Value, AllocError> {
        list_to_json::<Audit, _>(alloc, self.items.as_slice())
    }

    fn from_json(alloc: Global, json: &Value) -> Result<Items<T>, Unread> {
        Ok(Items {
            items: list_from_json::<Audit, T>(alloc, json)?,
        })
    }
}

/// Its JSON is an array.
#[cfg(test)]
impl<T: Coded<Audit> + Drop> NeverNull<Audit> for Items<T> {
    ghost use Rattle.std.proofs.Common.{refl};

    ghost apart = { λ _. refl };
}

/// The value of a column, or null.
#[derive(Drop)]
pub enum Datum {
    Null,
    Int(i64),
    Text(Word),
    Bool(bool),
}

#[cfg(test)]
impl Coded<Audit> for Datum {
    ghost codec = { datum };

    fn to_json(&self, alloc: Global) -> Result<Value, AllocError> {
        match self {
            Datum::Null => Ok(Value::Null),
            Datum::Int(number) => Ok(Value::from(*number)),
            Datum::Text(text) => json_of::<Audit, _>(alloc, text),
            Datum::Bool(flag) => Ok(Value::Bool(*flag)),
        }
    }

    fn from_json(alloc: Global, json: &Value) -> Result<Datum, Unread> {
        match json {
            Value::Null => Ok(Datum::Null),
            Value::Bool(flag) => Ok(Datum::Bool(*flag)),
            Value::Number(_) => Ok(Datum::Int(<i64 as Coded<Audit>>::from_json(alloc, json)?)),
            Value::String(text) => Ok(Datum::Text(Word::new(alloc, text.as_str())?)),
            Value::Array(_) | Value::Object(_) => Err(Unread::Bad),
        }
    }
}
