//! Texts in HTML: no byte of a text opens a tag, ends an attribute or begins a reference of its own.
#![tactic(auto)]

mod html;
mod laws;

pub use html::push_marked;
pub use laws::{texts_are_read_back, texts_open_nothing};
