//! Whole audits: read line by line, checked, explained, converted.
#![tactic(auto)]

mod alone;
mod attempts;
mod audit;
mod checking;
mod converting;
mod edges;
mod explaining;
mod filtering;
mod finding;
mod form;
mod graph;
mod graph_form;
mod graph_lines;
mod keeping;
mod labels;
mod laws;
mod listing;
mod long_parts;
mod long_texts;
mod matching;
mod neighbours;
mod ordering;
mod page;
mod page_decisions;
mod page_head;
mod page_look;
mod page_parts;
mod page_rows;
mod page_statements;
mod pictures;
mod pieces;
mod placed;
mod plot;
mod progress;
mod running;
mod shown_attempts;
mod shown_objects;
mod shown_rows;
mod shown_texts;
mod snapshots;
mod stored;
mod survey;
mod tallies;
mod texts;
mod transaction;
mod walked;
mod walking;
mod works;

pub use attempts::{Attempt, AttemptReader, missing_attempt};
pub use audit::{Audit, Reader};
pub use converting::Converter;
pub use explaining::Why;
pub use filtering::ShownFilter;
pub use finding::Finding;
pub use graph::Graph;
pub use graph_form::{GraphForm, Picture};
pub use laws::{
    conversions_are_same, lines_are_shown, meant_lines_are_read, pages_have_their_own_marks,
    read_texts_begin_audits,
};
pub use listing::{Listed, Listing, numbers_stand_out};
pub use page::{Page, PageAsked};
pub use page_look::Look;
pub use placed::Placed;
pub use progress::{Progress, Silent};
pub use rls_agreement;
pub use rls_audit;
pub use rls_explain::{rls_guard, rls_meaning};
pub use shown_attempts::AttemptsEnd;
pub use shown_texts::Ending;
pub use snapshots::{Attempts, Begun};
pub use transaction::{Answer, Put, Transaction};
pub use walked::walks_tell_the_run;
pub use walking::{Turn, Walk};
