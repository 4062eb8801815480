//! Statements with their replies, and their JSON.

ghost use Rattle.rls_tests.specs.CodedStatements.{reply as reply_codec, statement};

use crate::coded_refusals::Refusal;
use crate::coded_values::{Datum, Items};
use crate::coded_words::{Audit, Word};
use rls_codec::{Coded, Unread, is_word, item, json_of, member, require_length, require_size};
use serde_json::{Value, json};
use std::alloc::{AllocError, Global};

/// What was answered.
#[derive(Drop)]
pub enum Reply {
    Done,
    Count(u64),
    Rows(Items<Items<Datum>>),
    Refused(Refusal),
}

#[cfg(test)]
impl Coded<Audit> for Reply {
    ghost codec = { reply_codec };

    fn to_json(&self, alloc: Global) -> Result<Value, AllocError> {
        match self {
            Reply::Done => json!(in alloc; ["done"]),
            Reply::Count(count) => json!(in alloc; ["count", *count]),
            Reply::Rows(rows) => json!(in alloc; ["rows", json_of::<Audit, _>(alloc, rows)?]),
            Reply::Refused(refusal) => {
                json!(in alloc; ["refused", json_of::<Audit, _>(alloc, refusal)?])
            }
        }
    }

    fn from_json(alloc: Global, json: &Value) -> Result<Reply, Unread> {
        if is_word(json, 0, "done") {
            require_length(json, 1)?;
            return Ok(Reply::Done);
        }
        if is_word(json, 0, "count") {
            let count = item::<Audit, _>(alloc, json, 1)?;
            require_length(json, 2)?;
            return Ok(Reply::Count(count));
        }
        if is_word(json, 0, "rows") {
            let rows = item::<Audit, _>(alloc, json, 1)?;
            require_length(json, 2)?;
            return Ok(Reply::Rows(rows));
        }
        if is_word(json, 0, "refused") {
            let refusal = item::<Audit, _>(alloc, json, 1)?;
            require_length(json, 2)?;
            return Ok(Reply::Refused(refusal));
        }
        Err(Unread::Bad)
    }
}

/// A statement with its reply.
#[derive(Drop)]
pub struct Statement {
    pub reply: Reply,
    pub text: Word,
}

#[cfg(test)]
impl Coded<Audit> for Statement {
    ghost codec = { statement };

    fn to_json(&self, alloc: Global) -> Result<Value, AllocError> {
        json!(in alloc; {
            "reply": json_of::<Audit, _>(alloc, &self.reply)?,
            "text": json_of::<Audit, _>(alloc, &self.text)?
        })
    }

    fn from_json(alloc: Global, json: &Value) -> Result<Statement, Unread> {
        require_size(json, 2)?;
        let reply = member::<Audit, _>(alloc, json, "reply")?;
        let text = member::<Audit, _>(alloc, json, "text")?;
        Ok(Statement { reply, text })
    }
}
