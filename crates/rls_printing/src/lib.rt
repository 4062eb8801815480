//! Statements of SQL as texts.
#![tactic(auto, using(crate::proofs::OutputLemmas::put_both))]

mod buffer;
mod commands;
mod escaping;
mod expression;
mod laws;
mod lists;
mod policies;
mod printing;
mod privileges;
mod statements;
mod words;

pub use commands::print_command;
pub use escaping::push_escaped_line;
pub use laws::{
    printed_within, printed_words, read_again, spelled_exprs, spelled_statements, written_exprs,
    written_statements,
};
pub use printing::{print, print_expr, print_policy};
