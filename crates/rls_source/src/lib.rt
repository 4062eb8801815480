//! Sources of rows: who stands for a state, who asks it, names that have to be there, what was read, and what a change covers.
#![tactic(auto)]

mod asker;
mod covering;
mod footprint;
mod laws;
mod naming;
mod overlay;
mod plain;
mod reading;
mod reads;
mod recording;
mod source;
mod statement_source;

pub use asker::Asker;
pub use covering::covers;
pub use footprint::Footprint;
pub use laws::uncovered_stays;
pub use overlay::Overlay;
pub use plain::Plain;
pub use reading::Reading;
pub use reads::Reads;
pub use recording::Recording;
pub use rls_catalog;
pub use rls_catalog::rls_value;
pub use source::RowSource;
pub use statement_source::StatementSource;
