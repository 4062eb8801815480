//! Statements of SQL from text.
#![tactic(auto)]

mod attributes;
mod changing;
mod columns;
mod creating;
mod expression;
mod fault;
mod granting;
mod items;
mod limits;
mod memberships;
mod naming;
mod parsing;
mod phrase;
mod policies;
mod policy_parts;
mod read_back;
mod reading;
mod revoking;
mod selected;
mod selecting;
mod subqueries;
mod subtree;
mod tables;
mod token;
mod transactions;
mod tree;
mod words;

pub use parsing::{parse, parse_command};
pub use read_back::{statement_answers, written_command_spells, written_spells};
