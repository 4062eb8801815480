//! The command line of the program `rlsdb`: its commands with their arguments, and what words ask for.
#![tactic(auto)]

mod command_line;
mod dump_line;
mod graph_line;
mod lint_line;
mod report_line;
mod shown_line;
mod words;

pub use command_line::{Mistake, request_of};
pub use words::{
    AuditState, Checks, Explain, GraphWanted, Graphed, Language, Reported, Request, ScriptFile,
    Shown, Tests, Wanted, is_output, is_output_wanted,
};
