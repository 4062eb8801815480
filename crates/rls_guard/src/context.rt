//! What a statement is run in.

use rls_evaluation::rls_catalog::rls_expr::rls_value::Name;

/// Whether a transaction may write (PostgreSQL manual, SET TRANSACTION).
#[derive(Clone, Copy, PartialEq, Eq)]
pub enum Mode {
    Write,
    Read,
}

/// What a statement is run in.
#[derive(Drop)]
pub struct Ctx {
    /// The transaction's number.
    pub txn: u64,
    /// The role that the session began as.
    pub login: Name,
    /// The current role.
    pub role: Name,
    pub mode: Mode,
    /// The number of the transaction's next new row.
    pub next: u32,
}
