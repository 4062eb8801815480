//! The lines of an audit: what they hold, and how they are written and read as JSON.
#![tactic(auto)]

mod answers;
mod attempts;
mod changes;
mod contents;
mod format;
mod lines;
mod names;
mod reading;
mod refusals;
mod texts;
mod unshown;
mod values;
mod words;

pub use attempts::{
    AttemptEnd, AttemptLine, AttemptShown, EndWord, SerialWord, read_attempt, write_attempt,
};
pub use changes::Changed;
pub use contents::{GrantShape, TableShape};
pub use format::{Audit, First, Format, Second};
pub use lines::{Answered, Line, Shown};
pub use reading::{read_line, write_line};
pub use refusals::Audited;
pub use rls_text;
pub use unshown::Unshown;
pub use values::{row_id_json, row_values_json};
