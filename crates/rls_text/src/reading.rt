//! Single words at the front of a list of tokens.

ghost use Rattle.std.specs.Prelude.{◌≡◌, [], ◌∷◌, map, is_some, IfOk};
ghost use Rattle.rls_text.specs.Gives.{Gives, GivesName, Finds, Closes};
ghost use Rattle.rls_text.specs.Heads.{Exact, Names, sees};
ghost use Rattle.rls_text.specs.Parses.{read_token, and_then};
ghost use Rattle.rls_text.specs.Grammar as g;
ghost use Rattle.rls_text.specs.Values as values;

use crate::fault::Fault;
use crate::token::{Symbol, Token};
use rls_value::{Items, Limit, Name, Refusal, is_reserved, or_drop};
use std::alloc::{AllocError, Global};

/// The tokens behind this word, if it comes next.
pub fn word<'a>(tokens: &'a [Token], word: &[u8]) -> Option<&'a [Token]>
    ensures read { Finds result (read_token (Token.Word word.now) tokens.now) }
    ensures seen { is_some result ≡ sees (Exact (Token.Word word.now) ∷ []) tokens.now }
{
    match tokens {
        [Token::Word(letters), rest @ ..] if word == letters.as_str().as_bytes() => Some(rest),
        _ => None,
    }
}

/// The tokens behind these two words, if they come next.
pub fn two_words<'a>(tokens: &'a [Token], first: &[u8], second: &[u8]) -> Option<&'a [Token]>
    ensures { Finds result (and_then (read_token (Token.Word first.now) tokens.now) (λ _ rest. read_token (Token.Word second.now) rest)) }
{
    match word(tokens, first) {
        Some(rest) => word(rest, second),
        None => None,
    }
}

pub fn sees_word(tokens: &[Token], word: &[u8]) -> bool
    ensures { result ≡ sees (Exact (Token.Word word.now) ∷ []) tokens.now }
{
    match tokens {
        [Token::Word(letters), ..] if word == letters.as_str().as_bytes() => true,
        _ => false,
    }
}

/// Whether one of these words comes next.
#[tactic(auto, using(crate::proofs::Loops::sees_more, crate::proofs::Loops::sees_first, crate::proofs::Loops::sees_none))]
pub fn sees_one_of(tokens: &[Token], mut words: &[&[u8]]) -> bool
    ensures { result ≡ sees (map (λ w. Exact (Token.Word w.now)) words.entry.now) tokens.now }
{
    while let [first, rest @ ..] = words {
        if sees_word(tokens, *first) {
            return true;
        }
        words = rest;
    }
    false
}

/// The tokens behind this symbol, if it comes next.
pub fn symbol(tokens: &[Token], symbol: Symbol) -> Option<&[Token]>
    ensures read { Finds result (read_token (Token.Symbol symbol) tokens.now) }
    ensures seen { is_some result ≡ sees (Exact (Token.Symbol symbol) ∷ []) tokens.now }
{
    match tokens {
        [Token::Symbol(other), rest @ ..] if symbol == *other => Some(rest),
        _ => None,
    }
}

/// What stands in parentheses, of which the closing one must come next.
pub fn closed<T: Drop>(inner: T, tokens: &[Token]) -> Result<(T, &[Token]), Fault>
    ensures { Closes inner result (read_token (Token.Symbol Symbol.RParen) tokens.now) }
{
    match symbol(tokens, Symbol::RParen) {
        Some(rest) => Ok((inner, rest)),
        None => {
            drop(inner);
            Err(Fault::Syntax)
        }
    }
}

pub fn sees_symbol(tokens: &[Token], symbol: Symbol) -> bool
    ensures { result ≡ sees (Exact (Token.Symbol symbol) ∷ []) tokens.now }
{
    match tokens {
        [Token::Symbol(other), ..] if symbol == *other => true,
        _ => false,
    }
}

/// Whether a word comes next that isn't reserved.
pub fn starts_name(tokens: &[Token]) -> bool
    ensures { result ≡ sees (Names ∷ []) tokens.now }
{
    match tokens {
        [Token::Word(letters), ..] => !is_reserved(letters.as_str().as_bytes()),
        _ => false,
    }
}

/// A list of one item.
pub fn only<T: Drop>(alloc: Global, item: T) -> Result<Items<T>, AllocError>
    ensures { IfOk result (λ items. items ≡ item ∷ []) }
{
    let mut items = Items::new(alloc);
    or_drop!(items.push(item), items);
    Ok(items)
}

#[tactic(auto, unfolding(crate::specs::Grammar::name))]
pub fn name(alloc: Global, tokens: &[Token]) -> Result<(Name, &[Token]), Fault>
    ensures { Gives result (g.name.parses.read tokens.now) }
{
    match tokens {
        [Token::Word(letters), rest @ ..] if !is_reserved(letters.as_str().as_bytes()) => {
            let name = named(alloc, letters.as_str())?;
            Ok((name, rest))
        }
        _ => Err(Fault::Syntax),
    }
}

fn named(alloc: Global, letters: &str) -> Result<Name, Fault>
    ensures { GivesName result (values.named letters.now) }
{
    match Name::new(alloc, letters) {
        Ok(name) => Ok(name),
        Err(refusal) => {
            let fault = match &refusal {
                Refusal::Syntax | Refusal::Limit(Limit::Name) => Fault::Syntax,
                _ => Fault::NoMemory,
            };
            drop(refusal);
            Err(fault)
        }
    }
}
