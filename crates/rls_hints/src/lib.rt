//! Where a line stops being a statement, and what could stand there.
#![tactic(auto)]

mod expected;
mod grammar;
mod keyword;
mod laws;
mod nearest;
mod reading;
mod rows;
mod telling;
mod token;
mod walking;

pub use grammar::{Item, Phrase};
pub use keyword::{Keyword, keyword_str};
pub use laws::{blamed_begins_nothing, spelled_is_taken, words_are_read};
pub use reading::read_words;
pub use rows::rows_of;
pub use telling::{Place, hint_of, label_hint};
pub use token::{Mark, Placed, Token};
pub use walking::{COMMAND, Fault, Next, ROLE, find_fault};
