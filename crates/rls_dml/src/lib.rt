//! Statements over rows: SELECT, INSERT, UPDATE, DELETE.
#![tactic(auto)]

mod analysed_insert;
mod analysed_update;
mod changes_laws;
mod checking;
mod checking_rows;
mod deleting;
mod inserting;
mod keys;
mod laws;
mod listing;
mod replaced;
mod replying;
mod rows_laws;
mod selecting;
mod updating;
mod writing;

pub use analysed_insert::AnalysedInsert;
pub use analysed_update::AnalysedUpdate;
pub use changes_laws::{changes_fit, changes_overwrite};
pub use deleting::{AnalysedDelete, run_delete};
pub use inserting::run_insert;
pub use laws::pinned_key_means_rows;
pub use rows_laws::{
    numbers_stay_free, numbers_stay_in_range, rows_are_numbered_on, rows_stay_sound,
    sound_rows_mean, tables_stay,
};
pub use selecting::{AnalysedSelect, run_select};
pub use updating::run_update;
