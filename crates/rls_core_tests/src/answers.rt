//! What a core answered, as a text.

use rls_audit::rls_access::{Effect, Reply};
use rls_audit::rls_core::{Core, Posted};
use rls_value::{Refusal, Row, Tag, Value};
use std::alloc::{AllocError, Global};

/// What the statement that the transaction posted last came to.
pub fn last_answer(core: &Core, alloc: Global, txn: u64) -> Result<String, AllocError> {
    match core.posts(txn).last() {
        Some(posted) => answer_of(alloc, posted.get()),
        None => "nothing".to_string(alloc),
    }
}

/// What a posted statement came to. All that tests read of one is read here.
fn answer_of(alloc: Global, posted: &Posted) -> Result<String, AllocError> {
    let tag = posted.statement().tag();
    match posted.bare() {
        Effect::Done(reply, _, _, _) => reply_text(alloc, tag, reply),
        Effect::Refused(refusal, _) => refusal_text(alloc, refusal),
    }
}

/// The refusal with its code.
pub fn refusal_text(alloc: Global, refusal: &Refusal) -> Result<String, AllocError> {
    let code = refusal.code();
    format!(in alloc; "{code} {refusal}")
}

/// The rows, then the tag with its count.
fn reply_text(alloc: Global, tag: Tag, reply: &Reply) -> Result<String, AllocError> {
    match reply {
        Reply::Rows(rows) => rows_text(alloc, tag, rows.get().as_slice()),
        Reply::Count(count) => counted(alloc, tag, *count),
        Reply::Done => tag.text().to_string(alloc),
    }
}

fn counted(alloc: Global, tag: Tag, count: u64) -> Result<String, AllocError> {
    match tag {
        Tag::Insert => format!(in alloc; "INSERT 0 {count}"),
        _ => format!(in alloc; "{tag} {count}"),
    }
}

fn rows_text(alloc: Global, tag: Tag, rows: &[Row]) -> Result<String, AllocError> {
    let mut text = String::new(alloc);
    for row in rows {
        push_first(&mut text, alloc, row)?;
        text.push_str(" / ")?;
    }
    let count = counted(alloc, tag, rows.len() as u64)?;
    text.push_str(count.as_str())?;
    Ok(text)
}

/// Puts the first value of the row behind the text.
fn push_first(text: &mut String, alloc: Global, row: &Row) -> Result<(), AllocError> {
    match row.get(0) {
        Some(Value::Text(value)) => text.push_str(value.as_str()),
        Some(value) => {
            let value = value.to_string(alloc)?;
            text.push_str(value.as_str())
        }
        None => Ok(()),
    }
}
