//! What a SELECT selects, and its table, from tokens.

ghost use Rattle.std.specs.Prelude.{◌≡◌, [], ◌∷◌};
ghost use Rattle.rls_text.specs.{FirstSets.alias_heads, Gives.Gives, Parses.read_mapped, Heads.Sign, Heads.sees};
ghost use Rattle.rls_text.specs.Ahead as ahead;
ghost use Rattle.rls_text.specs.Grammar as g;
ghost use Rattle.rls_text.specs.Trees as spec;

use crate::fault::Fault;
use crate::items::item_list;
use crate::reading::{closed, name, sees_symbol, sees_word, starts_name, symbol, word};
use crate::token::{Symbol, Token};
use crate::tree::TableAndAlias;
use rls_statement::Selected;
use rls_value::{Name, or_drop};
use std::alloc::Global;

/// What is selected, with the depth of its items.
pub fn items_and_depth(
    alloc: Global,
    tokens: &[Token],
) -> Result<((Selected, u32), &[Token]), Fault>
    ensures { Gives result (read_mapped spec.with_depth g.items.parses.read tokens.now) }
{
    let (items, rest) = items(alloc, tokens)?;
    Ok((with_depth(items), rest))
}

/// An item is a leaf.
fn with_depth(selected: Selected) -> (Selected, u32)
    ensures { result ≡ spec.with_depth selected }
{
    match selected {
        Selected::Items(items) => (Selected::Items(items), 1),
        Selected::All => (Selected::All, 0),
        Selected::Count => (Selected::Count, 0),
    }
}

#[tactic(auto, unfolding(crate::specs::Grammar::items))]
fn items(alloc: Global, tokens: &[Token]) -> Result<(Selected, &[Token]), Fault>
    ensures { Gives result (g.items.parses.read tokens.now) }
{
    if let Some(rest) = symbol(tokens, Symbol::Star) {
        Ok((Selected::All, rest))
    } else if paren_second(tokens) {
        count(tokens)
    } else {
        selected_items(alloc, tokens)
    }
}

/// Whether the second token is a parenthesis: no list of items has it there.
fn paren_second(tokens: &[Token]) -> bool
    ensures { result ≡ ahead.second_is (Sign Symbol.LParen ∷ []) tokens.now }
{
    match tokens {
        [_, rest @ ..] => sees_symbol(rest, Symbol::LParen),
        [] => false,
    }
}

/// `COUNT(*)`.
#[tactic(auto, unfolding(crate::specs::Grammar::count))]
fn count(tokens: &[Token]) -> Result<(Selected, &[Token]), Fault>
    ensures { Gives result (g.count.parses.read tokens.now) }
{
    let Some(rest) = word(tokens, b"count") else {
        return Err(Fault::Syntax);
    };
    let Some(rest) = symbol(rest, Symbol::LParen) else {
        return Err(Fault::Syntax);
    };
    let Some(rest) = symbol(rest, Symbol::Star) else {
        return Err(Fault::Syntax);
    };
    closed(Selected::Count, rest)
}

#[tactic(auto, unfolding(crate::specs::Grammar::selected_items))]
fn selected_items(alloc: Global, tokens: &[Token]) -> Result<(Selected, &[Token]), Fault>
    ensures { Gives result (g.selected_items.parses.read tokens.now) }
{
    let (all, rest) = item_list(alloc, tokens)?;
    Ok((Selected::Items(all), rest))
}

#[tactic(auto, unfolding(crate::specs::Grammar::from_table))]
pub fn from_table(alloc: Global, tokens: &[Token]) -> Result<(TableAndAlias, &[Token]), Fault>
    ensures { Gives result (g.from_table.parses.read tokens.now) }
{
    let Some(rest) = word(tokens, b"from") else {
        return Err(Fault::Syntax);
    };
    let (table, rest) = name(alloc, rest)?;
    let (alias, rest) = or_drop!(alias_if_any(alloc, rest), table);
    Ok(((table, alias), rest))
}

#[tactic(auto, unfolding(crate::specs::Grammar::alias_if_any))]
fn alias_if_any(alloc: Global, tokens: &[Token]) -> Result<(Option<Name>, &[Token]), Fault>
    ensures { Gives result (g.alias_if_any.parses.read tokens.now) }
{
    if starts_alias(tokens) {
        let (alias, rest) = alias(alloc, tokens)?;
        Ok((Some(alias), rest))
    } else {
        Ok((None, tokens))
    }
}

#[tactic(auto, using(crate::proofs::Loops::sees_more, crate::proofs::Loops::sees_first))]
fn starts_alias(tokens: &[Token]) -> bool
    ensures { result ≡ sees alias_heads tokens.now }
{
    if sees_word(tokens, b"as") {
        true
    } else {
        starts_name(tokens)
    }
}

/// A name, before which AS may stand.
#[tactic(auto, unfolding(crate::specs::Grammar::alias))]
fn alias(alloc: Global, tokens: &[Token]) -> Result<(Name, &[Token]), Fault>
    ensures { Gives result (g.alias.parses.read tokens.now) }
{
    match word(tokens, b"as") {
        Some(rest) => name(alloc, rest),
        None => name(alloc, tokens),
    }
}
