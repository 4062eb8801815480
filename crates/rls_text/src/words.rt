//! The words of a text, up to the first character that begins none.

ghost use Rattle.std.specs.Prelude.{◌≡◌, ◌+◌, ◌*◌, min, true, false, length, IfOk};
ghost use Rattle.std.specs.Str.{chars};
ghost use Rattle.rls_value.specs.Names as names;
ghost use Rattle.rls_text.specs.Words as spec;

use crate::token::{Symbol, Token};
use rls_value::Text;
use std::alloc::{AllocError, Global};
use std::cmp::min;

/// Most statements have no more words, so that their list needn't grow.
const USUAL_WORDS: usize = 32;

/// Most words have no more letters, so that their text needn't grow.
const USUAL_LETTERS: usize = 24;

/// The words of the text. The last one is `Bad` where a character begins no word; what is behind it isn't read.
pub fn words(alloc: Global, text: &str) -> Result<Vec<Token>, AllocError>
    ensures { IfOk result (λ tokens. tokens.items ≡ spec.words_of text.now) }
{
    let chars = chars_of(alloc, text)?;
    let words = words_in(alloc, chars.as_slice());
    drop(chars);
    words
}

fn chars_of(alloc: Global, text: &str) -> Result<Vec<char>, AllocError>
    ensures { IfOk result (λ letters. letters.items ≡ chars text.now) }
{
    let mut letters = Vec::with_capacity(alloc, text.len())?;
    for letter in text.chars() {
        letters.push(letter)?;
    }
    Ok(letters)
}

#[tactic(auto, using(crate::proofs::Wording::words_begin, crate::proofs::Wording::words_none, crate::proofs::Wording::words_end, crate::proofs::Wording::words_last, crate::proofs::Wording::words_more))]
fn words_in(alloc: Global, chars: &[char]) -> Result<Vec<Token>, AllocError>
    ensures { IfOk result (λ tokens. tokens.items ≡ spec.words_in (length chars.now) chars.now) }
{
    let mut tokens = Vec::with_capacity(alloc, min(USUAL_WORDS, chars.len()))?;
    let mut rest = chars;
    for _turn in 0..chars.len() {
        let Some((token, behind)) = next(alloc, rest)? else {
            return Ok(tokens);
        };
        let is_last = is_bad(&token);
        tokens.push(token)?;
        if is_last {
            return Ok(tokens);
        }
        rest = behind;
    }
    Ok(tokens)
}

/// The first word, behind blanks and comments, and what follows it.
#[tactic(auto, unfolding(crate::specs::Words::next_word))]
fn next(alloc: Global, chars: &[char]) -> Result<Option<(Token, &[char])>, AllocError>
    ensures { IfOk result (λ read. spec.next_word chars.now ≡ spec.read_now read) }
{
    match behind_blanks(chars) {
        [first, behind @ ..] => Ok(Some(word_from(alloc, *first, behind)?)),
        [] => Ok(None),
    }
}

fn is_bad(token: &Token) -> bool
    ensures { result ≡ spec.is_bad token.now }
{
    matches!(token, Token::Bad)
}

/// What follows the white space and the comments.
fn behind_blanks(chars: &[char]) -> &[char]
    ensures { result.now ≡ spec.behind_blanks false chars.now }
{
    let mut is_comment = false;
    let mut rest = chars;
    while let [first, behind @ ..] = rest {
        if is_comment {
            is_comment = *first != '\n';
        } else if begins_comment(*first, behind) {
            is_comment = true;
        } else if !is_blank(*first) {
            return rest;
        }
        rest = behind;
    }
    rest
}

#[tactic(auto, unfolding(crate::specs::Words::is_blank))]
fn is_blank(letter: char) -> bool
    ensures { result ≡ spec.is_blank letter }
{
    match letter {
        ' ' | '\t' | '\n' | '\r' => true,
        _ => false,
    }
}

#[tactic(auto, unfolding(crate::specs::Words::begins_comment))]
fn begins_comment(first: char, behind: &[char]) -> bool
    ensures { result ≡ spec.begins_comment first behind.now }
{
    match behind {
        ['-', ..] => first == '-',
        _ => false,
    }
}

/// The word that begins with the character, and what follows it.
#[tactic(auto, unfolding(crate::specs::Words::word_from))]
fn word_from(alloc: Global, first: char, behind: &[char]) -> Result<(Token, &[char]), AllocError>
    ensures { IfOk result (λ read. spec.word_from first behind.now ≡ (read.0, read.1.now)) }
{
    if first == '\'' {
        quoted(alloc, behind)
    } else if is_letter(first) {
        word(alloc, first, behind)
    } else if is_digit(first) {
        Ok(number(first as u64 - 48, behind))
    } else {
        Ok(sign(first, behind))
    }
}

/// The word of letters, digits and `_`, in lower case.
fn word(alloc: Global, first: char, behind: &[char]) -> Result<(Token, &[char]), AllocError>
    requires { names.is_letter first ≡ true }
    ensures { IfOk result (λ read. spec.word_of first behind.now ≡ (read.0, read.1.now)) }
{
    let mut word = String::with_capacity(alloc, USUAL_LETTERS)?;
    word.push(first.to_ascii_lowercase())?;
    let mut rest = behind;
    while let [next, behind @ ..] = rest {
        if !is_letter_or_digit(*next) {
            return Ok((Token::Word(Text::from_string(word)?), rest));
        }
        word.push(next.to_ascii_lowercase())?;
        rest = behind;
    }
    Ok((Token::Word(Text::from_string(word)?), rest))
}

fn is_letter(letter: char) -> bool
    ensures { result ≡ names.is_letter letter }
{
    match letter {
        'A'..='Z' | '_' | 'a'..='z' => true,
        _ => false,
    }
}

fn is_letter_or_digit(letter: char) -> bool
    ensures { result ≡ names.is_letter_or_digit letter }
{
    match letter {
        '0'..='9' => true,
        _ => is_letter(letter),
    }
}

/// The number that the digits write; where it is over 64 bits, the greatest of 64.
fn number(first: u64, behind: &[char]) -> (Token, &[char])
    ensures { spec.number_from first behind.now ≡ (result.0, result.1.now) }
{
    let mut number = first;
    let mut rest = behind;
    while let [next, behind @ ..] = rest {
        if !is_digit(*next) {
            return (Token::Number(number), rest);
        }
        number = with_digit(number, *next as u64 - 48);
        rest = behind;
    }
    (Token::Number(number), rest)
}

fn with_digit(number: u64, digit: u64) -> u64
    ensures { result ≡ min (number * 10 + digit) 18446744073709551615 }
{
    number.saturating_mul(10).saturating_add(digit)
}

fn is_digit(letter: char) -> bool
    ensures { result ≡ spec.is_digit letter }
{
    match letter {
        '0'..='9' => true,
        _ => false,
    }
}

/// What is quoted, from behind the opening quote.
#[tactic(auto, unfolding(crate::specs::Words::quoted), using(crate::proofs::Wording::quoted_begins, crate::proofs::Wording::quoted_open, crate::proofs::Wording::quoted_out, crate::proofs::Wording::quoted_ends, crate::proofs::Wording::quoted_more))]
fn quoted(alloc: Global, chars: &[char]) -> Result<(Token, &[char]), AllocError>
    ensures { IfOk result (λ read. spec.quoted chars.now ≡ (read.0, read.1.now)) }
{
    let mut content = String::new(alloc);
    let mut rest = chars;
    for _turn in 0..chars.len() {
        let Some((part, behind)) = next_quoted(rest) else {
            return Ok((Token::Bad, chars));
        };
        let Some(letter) = part else {
            return Ok((Token::Text(Text::from_string(content)?), behind));
        };
        content.push(letter)?;
        rest = behind;
    }
    Ok((Token::Bad, chars))
}

/// The next character of a text, or its end, and what follows.
#[tactic(auto, unfolding(crate::specs::Words::next_quoted))]
fn next_quoted(chars: &[char]) -> Option<(Option<char>, &[char])>
    ensures { spec.next_quoted chars.now ≡ spec.read_now result }
{
    match chars {
        ['\'', '\'', behind @ ..] => Some((Some('\''), behind)),
        ['\'', behind @ ..] => Some((None, behind)),
        [first, behind @ ..] => Some((Some(*first), behind)),
        [] => None,
    }
}

/// The sign, of two characters where two make one.
fn sign(first: char, behind: &[char]) -> (Token, &[char])
    ensures { spec.sign_from first behind.now ≡ (result.0, result.1.now) }
{
    match behind {
        [second, rest @ ..] => match double(first, *second) {
            Some(symbol) => (Token::Symbol(symbol), rest),
            None => (single(first), behind),
        },
        [] => (single(first), behind),
    }
}

/// The sign of two characters, if they are one.
#[tactic(auto, unfolding(crate::specs::Words::double))]
fn double(first: char, second: char) -> Option<Symbol>
    ensures { result ≡ spec.double first second }
{
    match (first, second) {
        ('<', '>') => Some(Symbol::NotEqual),
        ('!', '=') => Some(Symbol::NotEqual),
        ('<', '=') => Some(Symbol::LessOrEqual),
        ('>', '=') => Some(Symbol::GreaterOrEqual),
        (_, _) => None,
    }
}

/// The sign of one character.
#[tactic(auto, unfolding(crate::specs::Words::single))]
fn single(first: char) -> Token
    ensures { result ≡ spec.single first }
{
    match first {
        '(' => Token::Symbol(Symbol::LParen),
        ')' => Token::Symbol(Symbol::RParen),
        ',' => Token::Symbol(Symbol::Comma),
        '.' => Token::Symbol(Symbol::Dot),
        ';' => Token::Symbol(Symbol::Semicolon),
        '*' => Token::Symbol(Symbol::Star),
        '+' => Token::Symbol(Symbol::Plus),
        '-' => Token::Symbol(Symbol::Minus),
        '=' => Token::Symbol(Symbol::Equal),
        '<' => Token::Symbol(Symbol::Less),
        '>' => Token::Symbol(Symbol::Greater),
        _ => Token::Bad,
    }
}
