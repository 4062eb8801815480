//! Laws over statements as a whole, each a clause of a function that does nothing.
#![tactic(auto)]

mod order;
mod reading;
mod refusing;
mod spelled;
mod spelling;

pub use order::lists_stay_in_order;
pub use reading::reads_mean;
pub use refusing::effects_are_shown;
pub use spelled::records_are_texts;
pub use spelling::{one_command, one_statement, printed_command, printed_statement};
