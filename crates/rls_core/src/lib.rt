//! Transactions over the statements of this database: events, records, committed states, and the headline.
#![tactic(auto)]

mod answer;
mod attempt;
mod begin;
mod database;
mod decisions;
mod event;
mod happening;
mod headline;
mod keeping;
mod machine;
mod opened;
mod posted;
mod ready;
mod record;
mod rules;
mod work;

pub use answer::Answer;
pub use attempt::{Attempt, Remains};
pub use begin::Begin;
pub use decisions::Decisions;
pub use event::Event;
pub use happening::run;
pub use headline::committed_are_serial;
pub use keeping::{events_keep, one_event_more, posts_are_tested};
pub use machine::Core;
pub use posted::Posted;
pub use ready::Ready;
pub use record::Record;
pub use rls_conflict;
pub use rls_meaning::{rls_access, rls_guard};
pub use rls_rows;
pub use rules::core_rules_are_safe;
pub use work::Work;
