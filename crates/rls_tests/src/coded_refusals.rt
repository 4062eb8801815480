//! Refusals: a number, for one of them a word behind it, and then names.

ghost use Rattle.std.specs.Prelude.{◌≡◌, IfOk};
ghost use Rattle.rls_codec.specs.Reading.{Reads};
ghost use Rattle.rls_tests.specs.CodedRefusals.{refusal, why_behind};
ghost use Rattle.serde_json.specs.Data.{array, item as then_items, number, unsigned};
ghost use Rattle.serde_json.specs.View.{view};

use crate::coded_words::{Audit, Word};
use rls_codec::{Coded, Unread, is_number, is_word, item, json_of, require_length};
use serde_json::{Value, json};
use std::alloc::{AllocError, Global};

/// What is missing where something is denied.
#[derive(Drop)]
pub enum Why {
    /// The privilege on the table.
    Privilege(Word, Word),
    /// To own the table.
    Owner(Word),
}

/// Why something was refused.
#[derive(Drop)]
pub enum Refusal {
    TypeFault,
    Denied(Why),
    /// The column takes no null.
    NotNull(Word),
}

#[cfg(test)]
impl Coded<Audit> for Refusal {
    ghost codec = { refusal };

    fn to_json(&self, alloc: Global) -> Result<Value, AllocError> {
        match self {
            Refusal::TypeFault => json!(in alloc; [8u64]),
            Refusal::Denied(why) => denied(alloc, why),
            Refusal::NotNull(column) =>
                json!(in alloc; [15u64, json_of::<Audit, _>(alloc, column)?]),
        }
    }

    fn from_json(alloc: Global, json: &Value) -> Result<Refusal, Unread> {
        if is_number(json, 0, 8) {
            require_length(json, 1)?;
            return Ok(Refusal::TypeFault);
        }
        if is_number(json, 0, 11) {
            return Ok(Refusal::Denied(read_why(alloc, json)?));
        }
        if is_number(json, 0, 15) {
            let column = item::<Audit, _>(alloc, json, 1)?;
            require_length(json, 2)?;
            return Ok(Refusal::NotNull(column));
        }
        Err(Unread::Bad)
    }
}

/// The number of what is denied, and what is missing.
#[cfg(test)]
fn denied(alloc: Global, why: &Why) -> Result<Value, AllocError>
    ensures { IfOk result (λ json. view json ≡ array (then_items (number (unsigned 11)) (why_behind.written why.now))) }
{
    match why {
        Why::Privilege(privilege, table) => json!(in alloc; [
            11u64,
            "Privilege",
            json_of::<Audit, _>(alloc, privilege)?,
            json_of::<Audit, _>(alloc, table)?
        ]),
        Why::Owner(table) => json!(in alloc; [11u64, "Owner", json_of::<Audit, _>(alloc, table)?]),
    }
}

/// What is missing, behind the number.
#[cfg(test)]
fn read_why(alloc: Global, json: &Value) -> Result<Why, Unread>
    ensures { Reads result (why_behind.found 1 (view json.now)) }
{
    if is_word(json, 1, "Privilege") {
        let privilege = item::<Audit, _>(alloc, json, 2)?;
        let table = item::<Audit, _>(alloc, json, 3)?;
        require_length(json, 4)?;
        return Ok(Why::Privilege(privilege, table));
    }
    if is_word(json, 1, "Owner") {
        let table = item::<Audit, _>(alloc, json, 2)?;
        require_length(json, 3)?;
        return Ok(Why::Owner(table));
    }
    Err(Unread::Bad)
}
