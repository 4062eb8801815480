//! The columns of a new table from tokens.

ghost use Rattle.std.specs.Prelude.{◌≡◌};
ghost use Rattle.rls_text.specs.{FirstSets.mark_heads, Gives.Gives, Heads.sees};
ghost use Rattle.rls_text.specs.Grammar as g;
ghost use Rattle.rls_text.specs.Values as values;

use crate::fault::Fault;
use crate::reading::{name, sees_word, two_words, word};
use crate::token::Token;
use rls_expr::Column;
use rls_statement::MarkedColumn;
use rls_value::{ColType, Items, Name, or_drop};
use std::alloc::Global;

/// A mark of a column as it is written.
#[derive(Clone, Copy, PartialEq, Eq)]
pub enum ColumnMark {
    NotNull,
    PrimaryKey,
}

/// A column's name, type and marks, each mark once at most.
#[tactic(auto, unfolding(crate::specs::Grammar::column_definition))]
pub fn column(alloc: Global, tokens: &[Token]) -> Result<(MarkedColumn, &[Token]), Fault>
    ensures { Gives result (g.column_definition.parses.read tokens.now) }
{
    let (name, rest) = name(alloc, tokens)?;
    let (kind, rest) = or_drop!(column_type(rest), name);
    let (marks, rest) = or_drop!(column_marks(alloc, rest), name);
    let column = marked(name, kind, marks.as_slice());
    drop(marks);
    Ok((column, rest))
}

fn marked(name: Name, kind: ColType, marks: &[ColumnMark]) -> MarkedColumn
    ensures { result ≡ values.column_of ((name, kind), marks.now) }
{
    let column = Column {
        name,
        kind,
        not_null: has_mark(ColumnMark::NotNull, marks),
    };
    MarkedColumn {
        column,
        is_key: has_mark(ColumnMark::PrimaryKey, marks),
    }
}

#[tactic(auto, unfolding(crate::specs::Grammar::column_type))]
fn column_type(tokens: &[Token]) -> Result<(ColType, &[Token]), Fault>
    ensures { Gives result (g.column_type.parses.read tokens.now) }
{
    if let Some(rest) = word(tokens, b"integer") {
        Ok((ColType::Integer, rest))
    } else if let Some(rest) = word(tokens, b"int") {
        Ok((ColType::Integer, rest))
    } else if let Some(rest) = word(tokens, b"bigint") {
        Ok((ColType::BigInt, rest))
    } else if let Some(rest) = word(tokens, b"text") {
        Ok((ColType::Text, rest))
    } else if let Some(rest) = word(tokens, b"boolean") {
        Ok((ColType::Boolean, rest))
    } else if let Some(rest) = word(tokens, b"bool") {
        Ok((ColType::Boolean, rest))
    } else {
        Err(Fault::Syntax)
    }
}

#[tactic(auto, unfolding(crate::specs::Grammar::column_marks))]
fn column_marks(alloc: Global, tokens: &[Token]) -> Result<(Items<ColumnMark>, &[Token]), Fault>
    ensures { Gives result (g.column_marks.parses.read tokens.now) }
{
    let (marks, rest) = all_marks(alloc, tokens)?;
    if marked_once(marks.as_slice()) {
        Ok((marks, rest))
    } else {
        drop(marks);
        Err(Fault::Syntax)
    }
}

#[tactic(auto, unfolding(crate::specs::Grammar::all_marks), using(crate::proofs::Loops::loop_begins, crate::proofs::Loops::loop_stops, crate::proofs::Loops::loop_ends, crate::proofs::Loops::loop_fails, crate::proofs::Loops::loop_goes_on))]
fn all_marks(alloc: Global, tokens: &[Token]) -> Result<(Items<ColumnMark>, &[Token]), Fault>
    ensures { Gives result (g.all_marks.parses.read tokens.now) }
{
    let mut all = Items::new(alloc);
    let mut rest = tokens;
    for _turn in 0..tokens.len() {
        if !starts_mark(rest) {
            return Ok((all, rest));
        }
        match column_mark(rest) {
            Ok((next, behind)) => {
                if all.push(next).is_err() {
                    return Err(Fault::NoMemory);
                }
                rest = behind;
            }
            Err(fault) => return Err(fault),
        }
    }
    Ok((all, rest))
}

#[tactic(auto, using(crate::proofs::Loops::sees_more, crate::proofs::Loops::sees_first))]
fn starts_mark(tokens: &[Token]) -> bool
    ensures { result ≡ sees mark_heads tokens.now }
{
    sees_word(tokens, b"not") || sees_word(tokens, b"primary")
}

#[tactic(auto, unfolding(crate::specs::Grammar::column_mark))]
fn column_mark(tokens: &[Token]) -> Result<(ColumnMark, &[Token]), Fault>
    ensures { Gives result (g.column_mark.parses.read tokens.now) }
{
    if let Some(rest) = word(tokens, b"not") {
        match word(rest, b"null") {
            Some(rest) => Ok((ColumnMark::NotNull, rest)),
            None => Err(Fault::Syntax),
        }
    } else {
        match two_words(tokens, b"primary", b"key") {
            Some(rest) => Ok((ColumnMark::PrimaryKey, rest)),
            None => Err(Fault::Syntax),
        }
    }
}

fn marked_once(mut marks: &[ColumnMark]) -> bool
    ensures { result ≡ values.marked_once marks.entry.now }
{
    while let [first, rest @ ..] = marks {
        if has_mark(*first, rest) {
            return false;
        }
        marks = rest;
    }
    true
}

fn has_mark(mark: ColumnMark, mut marks: &[ColumnMark]) -> bool
    ensures { result ≡ values.has_mark mark marks.entry.now }
{
    while let [first, rest @ ..] = marks {
        if mark == *first {
            return true;
        }
        marks = rest;
    }
    false
}
