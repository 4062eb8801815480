//! What is written as JSON and read back.

ghost use Rattle.std.specs.Prelude.{◌≡◌, false, IfOk, OnOk};
ghost use Rattle.rls_codec.specs.Codec.{Codec};
ghost use Rattle.rls_codec.specs.Looking.{is_null};
ghost use Rattle.rls_codec.specs.Reading.{Reads};
ghost use Rattle.serde_json.specs.View.{view};

use serde_json::Value;
use std::alloc::{AllocError, AllocFailed, Global};

/// Why nothing was read.
#[derive(Drop)]
pub enum Unread {
    NoMemory,
    /// The JSON has another form.
    Bad,
}

impl From<AllocError> for Unread {
    ghost use Rattle.rls_codec.specs.declared.coded.Unread.TheVariants.{NoMemory};

    ghost from_gives = { λ _ unread. unread ≡ NoMemory };

    fn from(_error: AllocError) -> Unread {
        Unread::NoMemory
    }
}

impl<T: Drop> From<AllocFailed<T>> for Unread {
    ghost use Rattle.rls_codec.specs.declared.coded.Unread.TheVariants.{NoMemory};

    ghost from_gives = { λ _ unread. unread ≡ NoMemory };

    fn from(_failed: AllocFailed<T>) -> Unread {
        Unread::NoMemory
    }
}

/// A value that has JSON in the format `F`. A format is a type without values of the crate that defines it, so that this crate can
/// say how types of other crates are written in it, and a type may be written in two formats.
pub trait Coded<F>: Sized {
    /// How it is written and read.
    ghost codec: { Codec Self };

    fn to_json(&self, alloc: Global) -> Result<Value, AllocError>
        ensures json { IfOk result (λ json. view json ≡ codec.written self.now) }
        ensures fits { OnOk result (codec.Fits self.now) };

    fn from_json(alloc: Global, json: &Value) -> Result<Self, Unread>
        ensures { Reads result (codec.found (view json.now)) };
}

/// A value whose JSON is never `null`, so that `null` can stand for its absence.
pub trait NeverNull<F>: Coded<F> {
    ghost apart: { (value : Self) → is_null (Self.codec.written value) ≡ false };
}

/// The JSON of a value in the format `F`.
pub fn json_of<F, T: Coded<F>>(alloc: Global, value: &T) -> Result<Value, AllocError>
    ensures json { IfOk result (λ json. view json ≡ T.codec.written value.now) }
    ensures fits { OnOk result (T.codec.Fits value.now) }
{
    value.to_json(alloc)
}
