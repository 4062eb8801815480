//! Sessions of labels over an engine: commands and their answers, transaction blocks, and whole scripts, in the order of their lines
//! or in phases.
#![tactic(auto)]

mod answering;
mod block_laws;
mod gate;
mod label;
mod labels;
mod notes;
mod open;
mod phases;
mod script;
mod session;
mod threads;
mod tried;
mod worker;

pub use block_laws::{over_until_ended, role_goes_with_rollback, role_lasts_from_commit};
pub use gate::{At, Gate, NoGate, Point};
pub use label::Label;
pub use notes::Notes;
pub use rls_engine;
pub use rls_engine::{Book, rls_access, rls_core, rls_equality};
pub use rls_script;
pub use rls_script::rls_text;
pub use script::{Ran, run_script, run_script_keeping, run_script_telling};
pub use session::Session;
pub use threads::{run_threads, run_threads_keeping, run_threads_telling};
pub use tried::{Attempted, End};
