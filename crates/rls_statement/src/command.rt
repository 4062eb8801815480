//! Commands: statements, and what begins and ends blocks of them.

ghost use Rattle.std.specs.Prelude.{◌≡◌};
ghost use Rattle.rls_statement.specs.Commands as spec;

use crate::statement::Statement;

/// A command as it is written: a statement, or one that begins or ends a transaction block (PostgreSQL manual, 3.4,
/// "Transactions").
#[derive(Drop)]
pub enum Command {
    /// `BEGIN` or `START TRANSACTION`.
    Begin(AccessMode),
    /// `COMMIT` or `END`.
    Commit,
    /// `ROLLBACK` or `ABORT`.
    Rollback,
    Run(Statement),
}

/// What begins or ends a block.
#[derive(Clone, Copy, PartialEq, Eq)]
pub enum TransactionCommand {
    Begin(AccessMode),
    Commit,
    Rollback,
}

impl Command {
    /// The statement that is run where the command is handed in as one: what begins or ends a block is refused there.
    pub fn into_statement(self) -> Statement
        ensures { result ≡ spec.statement_of self }
    {
        match self {
            Command::Begin(mode) => Statement::Transaction(TransactionCommand::Begin(mode)),
            Command::Commit => Statement::Transaction(TransactionCommand::Commit),
            Command::Rollback => Statement::Transaction(TransactionCommand::Rollback),
            Command::Run(statement) => statement,
        }
    }
}

/// Whether a block may write: `READ WRITE`, which need not be written, or `READ ONLY` (PostgreSQL manual, SET
/// TRANSACTION).
#[derive(Clone, Copy, PartialEq, Eq)]
pub enum AccessMode {
    ReadWrite,
    ReadOnly,
}
