//! JSON of values: how a type is written and read, said once as a codec with its law that what is written is read back.
#![tactic(auto)]

mod arrays;
mod coded;
mod lines;
mod objects;
mod options;
mod scalars;
mod words;

pub use arrays::{
    array_of, has_length, is_number, is_word, item, list_from_json, list_to_json, require_length,
};
pub use coded::{Coded, NeverNull, Unread, json_of};
pub use lines::{read_line, write_line};
pub use objects::{has_size, member, require_size};
pub use scalars::read_text;
pub use words::{Worded, read_word, write_word};
