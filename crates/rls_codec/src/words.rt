//! Values that a word stands for.

ghost use Rattle.std.specs.Prelude.{◌≡◌, List, ℕ, Some, option_and_then, IfOk};
ghost use Rattle.rls_codec.specs.Looking.{worded};
ghost use Rattle.rls_codec.specs.Reading.{Reads};
ghost use Rattle.serde_json.specs.Data.{string};
ghost use Rattle.serde_json.specs.Find.{as_str};
ghost use Rattle.serde_json.specs.View.{view};

use crate::coded::Unread;
use crate::scalars::read_text;
use serde_json::Value;
use std::alloc::{AllocError, Global};

/// A value that a word stands for in the format `F`.
pub trait Worded<F>: Copy {
    /// Its word.
    ghost word: { Self → List ℕ };

    fn word(self) -> &'static str
        ensures { result.now ≡ word self };
}

/// The word, as JSON.
pub fn write_word<F, T: Worded<F>>(alloc: Global, value: T) -> Result<Value, AllocError>
    ensures { IfOk result (λ json. view json ≡ string (T.word value)) }
{
    Value::try_from_str(alloc, value.word())
}

/// The first of these whose word the JSON is.
pub fn read_word<F, T: Worded<F>>(json: &Value, values: &[T]) -> Result<T, Unread>
    ensures { Reads result (option_and_then (worded T.word values.now) (as_str (view json.now))) }
{
    let text = read_text(json)?;
    match find_word::<F, T>(text, values) {
        Some(value) => Ok(value),
        None => Err(Unread::Bad),
    }
}

fn find_word<F, T: Worded<F>>(text: &str, mut values: &[T]) -> Option<T>
    ensures { result ≡ worded T.word values.entry.now text.now }
{
    while let [first, rest @ ..] = values {
        if text == first.word() {
            return Some(*first);
        }
        values = rest;
    }
    None
}
