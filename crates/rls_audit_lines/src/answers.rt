//! What statements were answered, and what row security said of rows, as JSON.

ghost use Rattle.rls_audit_lines.specs.AnswerCodecs as codec;

use crate::format::{Audit, Format};
use crate::refusals::Audited;
use rls_codec::{Coded, Unread, is_word, item, json_of, require_length};
use rls_guard::rls_catalog::Verdict;
use rls_guard::rls_catalog::shared_map::Share;
use rls_guard::{Decision, Reply};
use serde_json::{Value, json};
use std::alloc::{AllocError, Global};

impl<F: Format> Coded<Audit<F>> for Result<Reply, Audited> {
    ghost codec = { codec.answer F.second };

    fn to_json(&self, alloc: Global) -> Result<Value, AllocError> {
        match self {
            Ok(Reply::Done) => json!(in alloc; ["done"]),
            Ok(Reply::Count(count)) => json!(in alloc; ["count", *count]),
            Ok(Reply::Rows(rows)) =>
                json!(in alloc; ["rows", json_of::<Audit<F>, _>(alloc, rows.get())?]),
            Err(refused) => json!(in alloc; ["refused", json_of::<Audit<F>, _>(alloc, refused)?]),
        }
    }

    fn from_json(alloc: Global, json: &Value) -> Result<Result<Reply, Audited>, Unread> {
        if is_word(json, 0, "done") {
            require_length(json, 1)?;
            return Ok(Ok(Reply::Done));
        }
        if is_word(json, 0, "count") {
            let count = item::<Audit<F>, _>(alloc, json, 1)?;
            require_length(json, 2)?;
            return Ok(Ok(Reply::Count(count)));
        }
        if is_word(json, 0, "rows") {
            let rows = item::<Audit<F>, _>(alloc, json, 1)?;
            require_length(json, 2)?;
            return Ok(Ok(Reply::Rows(Share::new(alloc, rows)?)));
        }
        if is_word(json, 0, "refused") {
            let refused = item::<Audit<F>, _>(alloc, json, 1)?;
            return match require_length(json, 2) {
                Ok(()) => Ok(Err(refused)),
                Err(unread) => {
                    drop(refused);
                    Err(unread)
                }
            };
        }
        Err(Unread::Bad)
    }
}

impl<F: Format> Coded<Audit<F>> for Verdict {
    ghost codec = { codec.verdict };

    fn to_json(&self, alloc: Global) -> Result<Value, AllocError> {
        match self {
            Verdict::Exempt => json!(in alloc; ["exempt"]),
            Verdict::By(policy) => json!(in alloc; ["by", json_of::<Audit<F>, _>(alloc, policy)?]),
            Verdict::NoPermissive => json!(in alloc; ["nopermissive"]),
            Verdict::Restrictive(policy) =>
                json!(in alloc; ["restrictive", json_of::<Audit<F>, _>(alloc, policy)?]),
        }
    }

    fn from_json(alloc: Global, json: &Value) -> Result<Verdict, Unread> {
        if is_word(json, 0, "exempt") {
            require_length(json, 1)?;
            return Ok(Verdict::Exempt);
        }
        if is_word(json, 0, "by") {
            let policy = item::<Audit<F>, _>(alloc, json, 1)?;
            require_length(json, 2)?;
            return Ok(Verdict::By(policy));
        }
        if is_word(json, 0, "nopermissive") {
            require_length(json, 1)?;
            return Ok(Verdict::NoPermissive);
        }
        if is_word(json, 0, "restrictive") {
            let policy = item::<Audit<F>, _>(alloc, json, 1)?;
            require_length(json, 2)?;
            return Ok(Verdict::Restrictive(policy));
        }
        Err(Unread::Bad)
    }
}

impl<F: Format> Coded<Audit<F>> for Decision {
    ghost codec = { codec.decision };

    fn to_json(&self, alloc: Global) -> Result<Value, AllocError> {
        json!(in alloc; [
            json_of::<Audit<F>, _>(alloc, &self.id)?,
            json_of::<Audit<F>, _>(alloc, &self.side)?,
            json_of::<Audit<F>, _>(alloc, &self.kind)?,
            json_of::<Audit<F>, _>(alloc, &self.verdict)?
        ])
    }

    fn from_json(alloc: Global, json: &Value) -> Result<Decision, Unread> {
        let id = item::<Audit<F>, _>(alloc, json, 0)?;
        let side = item::<Audit<F>, _>(alloc, json, 1)?;
        let kind = item::<Audit<F>, _>(alloc, json, 2)?;
        let verdict = item::<Audit<F>, _>(alloc, json, 3)?;
        require_length(json, 4)?;
        Ok(Decision {
            id,
            side,
            kind,
            verdict,
        })
    }
}
