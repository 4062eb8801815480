//! Transcripts, which are scripts with their answers, without an engine: what a transcript expects, what each line was answered in a
//! run's text, and what differs.
#![tactic(auto)]

mod difference;
mod line;
mod marking;
mod memory;
mod numbered;
mod numbering;
mod report;
mod told;
mod transcript;

pub use line::split_lines;
pub use marking::{is_mark_text, lines_told, mark_is_answered, marked, tolds_of};
pub use memory::ScriptText;
pub use numbered::{marks_end_at_tab, write_numbered};
pub use numbering::{Block, Counts, Rows, Stand, Step, Where, wheres_of};
pub use report::write_report;
pub use told::{Told, is_refusal_text};
pub use transcript::{filled, loose_in, script_of};
