//! Calls that each have a thread of their own, with a stack of a chosen size.
#![tactic(auto)]

mod apart;
mod each;
mod joining;
mod starting;

pub use apart::call_apart;
pub use each::for_each_mut;
pub use starting::Stack;
