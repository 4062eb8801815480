//! What a script is and how its answers are written, without an engine: lines, labels and phases, what a command requests, the
//! bytes of answers.
#![tactic(auto)]

mod answer;
mod connect;
mod fault;
mod line;
mod names;
mod plan;
mod reading;
mod rendering;
mod requesting;
mod standing;
mod stream;
mod writing;

pub use answer::Answer;
pub use fault::RunFault;
pub use line::{Line, first_line, read_line};
pub use names::Names;
pub use plan::{Plan, Task, read_plan};
pub use reading::{MAX_SCRIPT, read_script};
pub use rendering::render;
pub use requesting::{Ask, Request, Status, ask_of, request_for};
pub use rls_text;
pub use standing::Standing;
pub use stream::{Failed, ScriptIn, ScriptOut};
pub use writing::{write_all, write_answer};
