//! What a line is answered.

use rls_guard::Reply;
use rls_value::{Refusal, Tag};

/// The answer to a line.
#[derive(Drop)]
pub enum Answer {
    /// What became of its command, with the command's tag.
    Replied(Tag, Reply),
    /// A refusal, of the statement or before any began.
    Refused(Refusal),
}
