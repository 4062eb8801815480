//! Items from tokens: literals, columns and CURRENT_USER, alone or in a list.

ghost use Rattle.std.specs.Prelude.{◌≡◌, [], ◌∷◌};
ghost use Rattle.rls_expr.specs.Terms as term;
ghost use Rattle.rls_text.specs.{FirstSets.constant_heads, FirstSets.literal_heads, FirstSets.item_heads, Gives.Gives, Gives.Has};
ghost use Rattle.rls_text.specs.{Heads.sees, Parses.read_mapped};
ghost use Rattle.rls_text.specs.Grammar as g;
ghost use Rattle.rls_text.specs.Values as values;

use crate::fault::Fault;
use crate::phrase::{Phrase, listed};
use crate::reading::{name, sees_word, starts_name, symbol, word};
use crate::token::{Symbol, Token};
use rls_expr::{ColumnName, Expr, Node};
use rls_value::{Items, Name, Value, or_drop};
use std::alloc::Global;

#[tactic(auto, unfolding(crate::specs::Grammar::item_list, crate::specs::Parses::read_listed, crate::specs::Parses::behind_comma, crate::specs::Rule::with_comma))]
pub fn item_list(alloc: Global, tokens: &[Token]) -> Result<(Items<Expr>, &[Token]), Fault>
    ensures { Gives result (g.item_list.parses.read tokens.now) }
{
    listed::<Expr>(alloc, tokens)
}

impl Phrase for Expr {
    ghost reader = { g.item.parses.read };

    fn read(alloc: Global, tokens: &[Token]) -> Result<(Expr, &[Token]), Fault> {
        item(alloc, tokens)
    }
}

#[tactic(auto, using(crate::proofs::Loops::sees_item))]
pub fn starts_item(tokens: &[Token]) -> bool
    ensures { result ≡ sees item_heads tokens.now }
{
    if starts_literal(tokens) {
        true
    } else if starts_name(tokens) {
        true
    } else {
        sees_word(tokens, b"current_user")
    }
}

#[tactic(auto, unfolding(crate::specs::Grammar::item))]
pub fn item(alloc: Global, tokens: &[Token]) -> Result<(Expr, &[Token]), Fault>
    ensures { Gives result (g.item.parses.read tokens.now) }
{
    if starts_literal(tokens) {
        literal_item(tokens)
    } else if starts_name(tokens) {
        column_item(alloc, tokens)
    } else {
        match word(tokens, b"current_user") {
            Some(rest) => Ok((Expr::new(Node::CurrentUser), rest)),
            None => Err(Fault::Syntax),
        }
    }
}

fn literal_item(tokens: &[Token]) -> Result<(Expr, &[Token]), Fault>
    ensures { Gives result (read_mapped term.Literal g.literal.parses.read tokens.now) }
{
    let (literal, rest) = literal(tokens)?;
    Ok((Expr::new(Node::Literal(literal)), rest))
}

fn column_item(alloc: Global, tokens: &[Token]) -> Result<(Expr, &[Token]), Fault>
    ensures { Gives result (read_mapped term.Column g.column.parses.read tokens.now) }
{
    let (column, rest) = column(alloc, tokens)?;
    Ok((Expr::new(Node::Column(column)), rest))
}

/// A column, with what qualifies it where a dot follows.
#[tactic(auto, unfolding(crate::specs::Grammar::column))]
fn column(alloc: Global, tokens: &[Token]) -> Result<(ColumnName, &[Token]), Fault>
    ensures { Gives result (g.column.parses.read tokens.now) }
{
    let (first, rest) = name(alloc, tokens)?;
    let (second, rest) = or_drop!(behind_dot(alloc, rest), first);
    Ok((column_name(first, second), rest))
}

/// A dot and the name behind it, if a dot is there.
#[tactic(auto, unfolding(crate::specs::Grammar::behind_dot))]
fn behind_dot(alloc: Global, tokens: &[Token]) -> Result<(Option<Name>, &[Token]), Fault>
    ensures { Gives result (g.behind_dot.parses.read tokens.now) }
{
    match symbol(tokens, Symbol::Dot) {
        Some(rest) => {
            let (name, rest) = name(alloc, rest)?;
            Ok((Some(name), rest))
        }
        None => Ok((None, tokens)),
    }
}

/// Of two names the first is the qualifier.
fn column_name(first: Name, second: Option<Name>) -> ColumnName
    ensures { result ≡ values.column_name_of (first, second) }
{
    match second {
        Some(name) => ColumnName {
            qualifier: Some(first),
            name,
        },
        None => ColumnName::plain(first),
    }
}

fn starts_literal(tokens: &[Token]) -> bool
    ensures { result ≡ sees literal_heads tokens.now }
{
    if let [
        Token::Text(_) | Token::Number(_) | Token::Symbol(Symbol::Minus),
        ..
    ] = tokens
    {
        true
    } else {
        starts_constant(tokens)
    }
}

#[tactic(auto, using(crate::proofs::Loops::sees_more, crate::proofs::Loops::sees_first))]
fn starts_constant(tokens: &[Token]) -> bool
    ensures { result ≡ sees constant_heads tokens.now }
{
    sees_word(tokens, b"true") || sees_word(tokens, b"false") || sees_word(tokens, b"null")
}

#[tactic(auto, unfolding(crate::specs::Grammar::literal))]
fn literal(tokens: &[Token]) -> Result<(Value, &[Token]), Fault>
    ensures { Gives result (g.literal.parses.read tokens.now) }
{
    if starts_constant(tokens) {
        match constant(tokens) {
            Some(read) => Ok(read),
            None => Err(Fault::Syntax),
        }
    } else if let [Token::Text(_), ..] = tokens {
        text(tokens)
    } else {
        match number(tokens) {
            Some(read) => Ok(read),
            None => Err(Fault::Syntax),
        }
    }
}

#[tactic(auto, unfolding(crate::specs::Grammar::constant))]
fn constant(tokens: &[Token]) -> Option<(Value, &[Token])>
    ensures { Has result (g.constant.parses.read tokens.now) }
{
    if let Some(rest) = word(tokens, b"true") {
        Some((Value::Bool(true), rest))
    } else if let Some(rest) = word(tokens, b"false") {
        Some((Value::Bool(false), rest))
    } else if let Some(rest) = word(tokens, b"null") {
        Some((Value::Null, rest))
    } else {
        None
    }
}

#[tactic(auto, unfolding(crate::specs::Grammar::text))]
fn text(tokens: &[Token]) -> Result<(Value, &[Token]), Fault>
    ensures { Gives result (g.text.parses.read tokens.now) }
{
    match tokens {
        [Token::Text(content), rest @ ..] => Ok((Value::Text(content.copy()?), rest)),
        _ => Err(Fault::Syntax),
    }
}

#[tactic(auto, unfolding(crate::specs::Grammar::number))]
fn number(tokens: &[Token]) -> Option<(Value, &[Token])>
    ensures { Has result (g.number.parses.read tokens.now) }
{
    match symbol(tokens, Symbol::Minus) {
        Some(rest) => match digits(rest) {
            Some((digits, rest)) => {
                if digits <= 1 << 63 {
                    Some((Value::Int((0 - i128::from(digits)) as i64), rest))
                } else {
                    None
                }
            }
            None => None,
        },
        None => match digits(tokens) {
            Some((digits, rest)) => {
                if digits < 1 << 63 {
                    Some((Value::Int(digits as i64), rest))
                } else {
                    None
                }
            }
            None => None,
        },
    }
}

#[tactic(auto, unfolding(crate::specs::Grammar::digits))]
fn digits(tokens: &[Token]) -> Option<(u64, &[Token])>
    ensures { Has result (g.digits.parses.read tokens.now) }
{
    match tokens {
        [Token::Number(number), rest @ ..] => Some((*number, rest)),
        _ => None,
    }
}
