//! Lines of an audit as JSON.

ghost use Rattle.std.specs.Prelude.{◌≡◌};
ghost use Rattle.rls_audit_lines.specs.LineCodecs as codec;
ghost use Rattle.rls_audit_lines.specs.LineCodecs.{number_of};

use crate::changes::Changed;
use crate::format::{Audit, Format};
use crate::refusals::Audited;
use rls_codec::{Coded, Unread, has_size, json_of, member, require_size};
use rls_guard::{Decision, Mode, Reply};
use rls_value::{Items, Name, Text};
use serde_json::{Value, json};
use std::alloc::{AllocError, Global};

/// A statement, what it was answered, and what row security said of each row.
#[derive(Drop)]
pub struct Answered {
    pub decisions: Items<Decision>,
    pub reply: Result<Reply, Audited>,
    /// The statement as printed.
    pub text: Text,
}

/// What is shown of a committed transaction.
#[derive(Drop)]
pub struct Shown {
    pub changes: Items<Changed>,
    /// The number of its commit, from 1.
    pub commit: u64,
    /// The role that its session began as, and the one that it began in.
    pub login: Name,
    pub mode: Mode,
    pub role: Name,
    /// How many had committed when it began.
    pub snap: u64,
    pub statements: Items<Answered>,
    pub txn: u64,
}

/// A line of an audit.
#[derive(Drop)]
pub enum Line {
    /// The first one, which says the format.
    Head,
    /// That of a committed transaction.
    Txn(Shown),
    /// The last one: how many committed, and their numbers in a serial order.
    End(u64, Items<u64>),
}

impl<F: Format> Coded<Audit<F>> for Answered {
    ghost codec = { codec.answered F.second };

    fn to_json(&self, alloc: Global) -> Result<Value, AllocError> {
        json!(in alloc; {
            "decisions": json_of::<Audit<F>, _>(alloc, &self.decisions)?,
            "reply": json_of::<Audit<F>, _>(alloc, &self.reply)?,
            "text": json_of::<Audit<F>, _>(alloc, &self.text)?
        })
    }

    fn from_json(alloc: Global, json: &Value) -> Result<Answered, Unread> {
        require_size(json, 3)?;
        let decisions = member::<Audit<F>, _>(alloc, json, "decisions")?;
        let reply = member::<Audit<F>, _>(alloc, json, "reply")?;
        let text = member::<Audit<F>, _>(alloc, json, "text")?;
        Ok(Answered {
            decisions,
            reply,
            text,
        })
    }
}

/// The number of the format.
fn number<F: Format>() -> u64
    ensures { result ≡ number_of F.second }
{
    if F::is_second() { 2 } else { 1 }
}

impl<F: Format> Coded<Audit<F>> for Line {
    ghost codec = { codec.line F.second };

    fn to_json(&self, alloc: Global) -> Result<Value, AllocError> {
        match self {
            Line::Head => json!(in alloc; {"format": number::<F>()}),
            Line::Txn(shown) => json!(in alloc; {
                "changes": json_of::<Audit<F>, _>(alloc, &shown.changes)?,
                "commit": shown.commit,
                "login": json_of::<Audit<F>, _>(alloc, &shown.login)?,
                "mode": json_of::<Audit<F>, _>(alloc, &shown.mode)?,
                "role": json_of::<Audit<F>, _>(alloc, &shown.role)?,
                "snap": shown.snap,
                "statements": json_of::<Audit<F>, _>(alloc, &shown.statements)?,
                "txn": shown.txn
            }),
            Line::End(count, order) => json!(in alloc; {
                "end": *count,
                "order": json_of::<Audit<F>, _>(alloc, order)?
            }),
        }
    }

    fn from_json(alloc: Global, json: &Value) -> Result<Line, Unread> {
        if has_size(json, 8) {
            let changes = member::<Audit<F>, _>(alloc, json, "changes")?;
            let commit = member::<Audit<F>, _>(alloc, json, "commit")?;
            let login = member::<Audit<F>, _>(alloc, json, "login")?;
            let mode = member::<Audit<F>, _>(alloc, json, "mode")?;
            let role = member::<Audit<F>, _>(alloc, json, "role")?;
            let snap = member::<Audit<F>, _>(alloc, json, "snap")?;
            let statements = member::<Audit<F>, _>(alloc, json, "statements")?;
            let txn = member::<Audit<F>, _>(alloc, json, "txn")?;
            return Ok(Line::Txn(Shown {
                changes,
                commit,
                login,
                mode,
                role,
                snap,
                statements,
                txn,
            }));
        }
        if has_size(json, 2) {
            let count = member::<Audit<F>, _>(alloc, json, "end")?;
            let order = member::<Audit<F>, _>(alloc, json, "order")?;
            return Ok(Line::End(count, order));
        }
        if has_size(json, 1) {
            let format = member::<Audit<F>, u64>(alloc, json, "format")?;
            if format == number::<F>() {
                return Ok(Line::Head);
            }
        }
        Err(Unread::Bad)
    }
}
