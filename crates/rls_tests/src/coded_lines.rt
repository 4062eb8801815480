//! Lines: of a transaction, or the last one.

ghost use Rattle.rls_tests.specs.CodedLines.{line};

use crate::coded_changes::{Change, Grant};
use crate::coded_statements::Statement;
use crate::coded_values::Items;
use crate::coded_words::Audit;
use rls_codec::{Coded, Unread, has_size, json_of, member};
use serde_json::{Value, json};
use std::alloc::{AllocError, Global};

/// A line.
#[derive(Drop)]
pub enum Line {
    Txn {
        changes: Items<Change>,
        grants: Items<Grant>,
        statements: Items<Statement>,
        txn: u32,
    },
    /// How many there are.
    End(u64),
}

#[cfg(test)]
impl Coded<Audit> for Line {
    ghost codec = { line };

    fn to_json(&self, alloc: Global) -> Result<Value, AllocError> {
        match self {
            Line::Txn {
                changes,
                grants,
                statements,
                txn,
            } => json!(in alloc; {
                "changes": json_of::<Audit, _>(alloc, changes)?,
                "grants": json_of::<Audit, _>(alloc, grants)?,
                "statements": json_of::<Audit, _>(alloc, statements)?,
                "txn": *txn
            }),
            Line::End(count) => json!(in alloc; {"end": *count}),
        }
    }

    fn from_json(alloc: Global, json: &Value) -> Result<Line, Unread> {
        if has_size(json, 4) {
            let changes = member::<Audit, _>(alloc, json, "changes")?;
            let grants = member::<Audit, _>(alloc, json, "grants")?;
            let statements = member::<Audit, _>(alloc, json, "statements")?;
            let txn = member::<Audit, _>(alloc, json, "txn")?;
            return Ok(Line::Txn {
                changes,
                grants,
                statements,
                txn,
            });
        }
        if has_size(json, 1) {
            return Ok(Line::End(member::<Audit, _>(alloc, json, "end")?));
        }
        Err(Unread::Bad)
    }
}
