//! A public call under test, which is made, compared and made again while `tools/refusals` refuses one of its requests for memory.
#![tactic(auto)]

mod ending;
mod playing;
mod results;

pub use ending::{Ending, begin, end, made, made_again, tell};
pub use playing::{Scenario, play};
pub use results::{after, both, holds, is_text, taken, wants_memory};
