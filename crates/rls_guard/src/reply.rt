//! What a statement answers, and what row security said of each row.

ghost use Rattle.std.specs.Prelude.{◌≡◌, IfOk};

use rls_evaluation::rls_catalog::rls_expr::rls_value::shared::Share;
use rls_evaluation::rls_catalog::rls_expr::rls_value::{Items, Kind, Row, RowId};
use rls_evaluation::rls_catalog::{Side, Verdict};
use std::alloc::AllocError;

/// What a statement answers that isn't refused.
#[derive(Drop)]
pub enum Reply {
    /// The rows, in listing order. Copies of the reply share them.
    Rows(Share<Items<Row>>),
    /// How many rows were written.
    Count(u64),
    Done,
}

/// What row security said of one row for one type of command.
#[derive(Drop)]
pub struct Decision {
    pub id: RowId,
    /// Whether the row was there before, or is to be written.
    pub side: Side,
    pub kind: Kind,
    pub verdict: Verdict,
}

impl Reply {
    /// The same reply, whose rows are shared.
    pub fn copy(&self) -> Result<Reply, AllocError>
        ensures { IfOk result (λ reply. reply ≡ self.now) }
    {
        match self {
            Reply::Rows(rows) => Ok(Reply::Rows(rows.copy()?)),
            Reply::Count(count) => Ok(Reply::Count(*count)),
            Reply::Done => Ok(Reply::Done),
        }
    }
}

impl Decision {
    pub fn copy(&self) -> Result<Decision, AllocError>
        ensures { IfOk result (λ decision. decision ≡ self.now) }
    {
        Ok(Decision {
            id: self.id,
            side: self.side,
            kind: self.kind,
            verdict: self.verdict.copy()?,
        })
    }
}
