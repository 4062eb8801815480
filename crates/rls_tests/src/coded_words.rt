//! The format, and a text of it: seen as its bytes in UTF-8, and its JSON.

ghost use Rattle.std.specs.Prelude.{◌≡◌, IfOk};
ghost use Rattle.rls_codec.specs.Codecs.{text};

use rls_codec::{Coded, Unread, read_text};
use serde_json::Value;
use std::alloc::{AllocError, Global};
use std::marker::Model;

/// A format of statements and changes, as audits have one.
pub struct Audit;

/// A text.
#[derive(Drop)]
pub struct Word {
    content: String,
}

impl Model for Word {
    ghost use Rattle.std.specs.Prelude.{List, ℕ};
    ghost use Rattle.std.specs.String.{string_bytes};

    ghost Value = { List ℕ };

    ghost view = { λ word. string_bytes word.content };
}

#[cfg(test)]
impl Word {
    pub fn new(alloc: Global, content: &str) -> Result<Word, AllocError>
        ensures { IfOk result (λ word. word ≡ content.now) }
    {
        Ok(Word {
            content: String::from_str(alloc, content)?,
        })
    }

    pub fn as_str(&self) -> &str
        ensures { result.now ≡ self.now }
    {
        self.content.as_str()
    }
}

#[cfg(test)]
impl Coded<Audit> for Word {
    ghost codec = { text };

    fn to_json(&self, alloc: Global) -> Result<Value, AllocError> {
        Value::try_from_str(alloc, self.as_str())
    }

    fn from_json(alloc: Global, json: &Value) -> Result<Word, Unread> {
        Ok(Word::new(alloc, read_text(json)?)?)
    }
}
