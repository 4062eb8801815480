//! The words of a line, as the grammar sees them.

use rls_value::Text;

/// A sign that is no word of letters.
#[derive(Clone, Copy, PartialEq, Eq)]
pub enum Mark {
    Open,
    Close,
    Comma,
    Dot,
    Semicolon,
    Star,
    Plus,
    Minus,
    Equal,
    NotEqual,
    Less,
    LessOrEqual,
    Greater,
    GreaterOrEqual,
}

/// A word of a line.
#[derive(Drop)]
pub enum Token {
    /// A keyword or a name, in lower case.
    Word(Text),
    Number,
    Text,
    Sign(Mark),
    /// A character that begins no word, or a text that isn't closed.
    Bad,
}

/// A word and its place.
#[derive(Drop)]
pub struct Placed {
    pub token: Token,
    /// How many characters of the line are left where it begins.
    pub left: usize,
    /// How many are left behind it.
    pub behind: usize,
}
