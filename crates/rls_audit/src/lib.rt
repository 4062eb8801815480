//! Audits: what their lines show, and when they hold.
#![tactic(auto)]

mod copying;
mod meaning;
mod ordering;
mod showing;

pub use meaning::{audits_hold, empty_audit_holds, written_lines_mean};
pub use ordering::{are_in_order, in_order};
pub use rls_audit_lines;
pub use rls_audit_lines::{
    Answered, AttemptEnd, AttemptLine, AttemptShown, Audit, Audited, Changed, EndWord, First,
    Format, GrantShape, Line, Second, Shown, TableShape, Unshown, read_attempt, read_line,
    rls_text, row_id_json, row_values_json, write_attempt, write_line,
};
pub use rls_core;
pub use rls_core::{rls_access, rls_rows};
pub use rls_printing;
pub use showing::{line_of_attempt, line_of_record, printed};
