//! The limits on words, which come before the grammar.

ghost use Rattle.std.specs.Prelude.{◌≡◌, ◌≤◌, None};
ghost use Rattle.rls_text.specs.ParseResults as spec;

use crate::token::{Symbol, Token};
use rls_value::{Limit, MAX_NAME};

/// How many parentheses are open at one time at most.
pub const MAX_PARENTHESES: usize = 256;

/// The first limit that the words pass, from the left.
pub fn first_limit(tokens: &[Token]) -> Option<Limit>
    ensures { result ≡ spec.first_limit tokens.now }
{
    let mut unclosed: usize = 0;
    for token in tokens {
        if let Some(limit) = limit_at(unclosed, token) {
            return Some(limit);
        }
        unclosed = open_behind(unclosed, token);
    }
    None
}

/// The limit that the word passes, where so many parentheses are open.
fn limit_at(unclosed: usize, token: &Token) -> Option<Limit>
    ensures { result ≡ spec.limit_at unclosed token.now }
{
    match token {
        Token::Word(letters) if letters.as_str().len() > MAX_NAME => Some(Limit::Name),
        Token::Symbol(Symbol::LParen) if unclosed >= MAX_PARENTHESES => Some(Limit::Parentheses),
        _ => None,
    }
}

/// How many parentheses are open behind the word.
fn open_behind(unclosed: usize, token: &Token) -> usize
    requires few { unclosed ≤ MAX_PARENTHESES }
    requires within { spec.limit_at unclosed token.now ≡ None }
    ensures value { result ≡ spec.open_behind unclosed token.now }
    ensures few { result ≤ MAX_PARENTHESES }
{
    match token {
        Token::Symbol(Symbol::LParen) => unclosed + 1,
        Token::Symbol(Symbol::RParen) => unclosed.saturating_sub(1),
        _ => unclosed,
    }
}
