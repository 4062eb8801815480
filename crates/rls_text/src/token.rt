//! The words of a text.

use rls_value::Text;

/// A sign that is no word of letters.
#[derive(Clone, Copy, PartialEq, Eq)]
pub enum Symbol {
    LParen,
    RParen,
    Comma,
    Dot,
    Semicolon,
    Star,
    Plus,
    Minus,
    Equal,
    NotEqual,
    Less,
    LessOrEqual,
    Greater,
    GreaterOrEqual,
}

/// A word of a text.
#[derive(Drop)]
pub enum Token {
    /// A keyword or a name, in lower case.
    Word(Text),
    /// A number without a sign; one that is over 64 bits is their greatest.
    Number(u64),
    /// A text, without its quotes.
    Text(Text),
    Symbol(Symbol),
    /// A character that begins no word, or a text that isn't closed.
    Bad,
}
