//! What an event is answered.

use rls_value::Refusal;

/// What an event is answered.
#[derive(Drop)]
pub enum Answer {
    /// A transaction began under this number.
    Begun(u64),
    /// A statement was posted, and its transaction runs on: `Core::posts` has what it came to.
    Posted,
    /// A transaction committed, and so many have committed then.
    Committed(u64),
    /// A transaction was rolled back.
    RolledBack,
    /// The event was refused. For a conflict the transaction is over; else all is as it was.
    Refused(Refusal),
}
