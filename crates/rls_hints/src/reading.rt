//! The words of a line with their places, up to the first character that begins none.

ghost use Rattle.std.specs.Prelude.{◌≡◌, ◌+◌, true, false, length, option_map, IfOk};
ghost use Rattle.std.specs.Str.{chars};
ghost use Rattle.rls_value.specs.Names as names;
ghost use Rattle.rls_text.specs.Words as words;
ghost use Rattle.rls_hints.specs.Beginnings.{mark_of, seen};
ghost use Rattle.rls_hints.specs.Reading as spec;

use crate::token::{Mark, Placed, Token};
use rls_value::Text;
use std::alloc::{AllocError, Global};

/// The words of the text. The last one is `Bad` where a character begins no word; what is behind it isn't read.
pub fn read_words(alloc: Global, text: &str) -> Result<Vec<Placed>, AllocError>
    ensures { IfOk result (λ placed. placed.items ≡ spec.placed_of text.now) }
{
    let chars = chars_of(alloc, text)?;
    let placed = words_in(alloc, chars.as_slice());
    drop(chars);
    placed
}

fn chars_of(alloc: Global, text: &str) -> Result<Vec<char>, AllocError>
    ensures { IfOk result (λ letters. letters.items ≡ chars text.now) }
{
    text.chars().collect(alloc)
}

#[tactic(auto, using(crate::proofs::PlacedWords::words_begin, crate::proofs::PlacedWords::words_none, crate::proofs::PlacedWords::words_end, crate::proofs::PlacedWords::words_last, crate::proofs::PlacedWords::words_more))]
fn words_in(alloc: Global, chars: &[char]) -> Result<Vec<Placed>, AllocError>
    ensures { IfOk result (λ placed. placed.items ≡ spec.placed_in (length chars.now) chars.now) }
{
    let mut all = Vec::new(alloc);
    let mut rest = chars;
    for _turn in 0..chars.len() {
        let Some((placed, behind)) = next(alloc, rest)? else {
            return Ok(all);
        };
        let is_last = is_end(&placed.token);
        all.push(placed)?;
        if is_last {
            return Ok(all);
        }
        rest = behind;
    }
    Ok(all)
}

/// The first word, behind blanks and comments, and what follows it.
#[tactic(auto, unfolding(crate::specs::Reading::next_placed, rls_text::specs::Words::next_word))]
fn next(alloc: Global, chars: &[char]) -> Result<Option<(Placed, &[char])>, AllocError>
    ensures { IfOk result (λ read. spec.next_placed chars.now ≡ words.read_now read) }
{
    match behind_blanks(chars) {
        [first, behind @ ..] => Ok(Some(word_at(alloc, *first, behind)?)),
        [] => Ok(None),
    }
}

/// The word that begins with the character, and what follows it.
fn word_at(alloc: Global, first: char, behind: &[char]) -> Result<(Placed, &[char]), AllocError>
    ensures word { IfOk result (λ read. (read.0.token, read.1.now) ≡ spec.seen_first (words.word_from first behind.now)) }
    ensures left { IfOk result (λ read. read.0.left ≡ length behind.now + 1) }
    ensures behind { IfOk result (λ read. read.0.behind ≡ length read.1.now) }
{
    let left = behind.len() + 1;
    match word_from(alloc, first, behind) {
        Ok((token, rest)) => Ok((
            Placed {
                token,
                left,
                behind: rest.len(),
            },
            rest,
        )),
        Err(error) => Err(error),
    }
}

fn is_end(token: &Token) -> bool
    ensures { result ≡ spec.is_end token.now }
{
    matches!(token, Token::Bad)
}

/// What follows the white space and the comments.
fn behind_blanks(chars: &[char]) -> &[char]
    ensures { result.now ≡ words.behind_blanks false chars.now }
{
    let mut is_comment = false;
    let mut rest = chars;
    while let [first, behind @ ..] = rest {
        if is_comment {
            is_comment = *first != '\n';
        } else if begins_comment(*first, behind) {
            is_comment = true;
        } else if !is_blank(*first) {
            return rest;
        }
        rest = behind;
    }
    rest
}

#[tactic(auto, unfolding(rls_text::specs::Words::is_blank))]
fn is_blank(letter: char) -> bool
    ensures { result ≡ words.is_blank letter }
{
    match letter {
        ' ' | '\t' | '\n' | '\r' => true,
        _ => false,
    }
}

#[tactic(auto, unfolding(rls_text::specs::Words::begins_comment))]
fn begins_comment(first: char, behind: &[char]) -> bool
    ensures { result ≡ words.begins_comment first behind.now }
{
    match behind {
        ['-', ..] => first == '-',
        _ => false,
    }
}

/// The word that begins with the character, and what follows it.
#[tactic(auto, using(crate::proofs::PlacedWords::quoted_seen, crate::proofs::PlacedWords::number_seen), unfolding(rls_text::specs::Words::word_from))]
fn word_from(alloc: Global, first: char, behind: &[char]) -> Result<(Token, &[char]), AllocError>
    ensures { IfOk result (λ read. (read.0, read.1.now) ≡ spec.seen_first (words.word_from first behind.now)) }
{
    if first == '\'' {
        Ok(quoted(behind))
    } else if is_letter(first) {
        word(alloc, first, behind)
    } else if is_digit(first) {
        Ok((Token::Number, behind_digits(behind)))
    } else {
        Ok(sign(first, behind))
    }
}

/// The word of letters, digits and `_`, in lower case.
fn word(alloc: Global, first: char, behind: &[char]) -> Result<(Token, &[char]), AllocError>
    requires { names.is_letter first ≡ true }
    ensures { IfOk result (λ read. (read.0, read.1.now) ≡ spec.seen_first (words.word_of first behind.now)) }
{
    let mut word = String::new(alloc);
    word.push(first.to_ascii_lowercase())?;
    let mut rest = behind;
    while let [next, behind @ ..] = rest {
        if !is_letter_or_digit(*next) {
            return Ok((Token::Word(Text::from_string(word)?), rest));
        }
        word.push(next.to_ascii_lowercase())?;
        rest = behind;
    }
    Ok((Token::Word(Text::from_string(word)?), rest))
}

fn is_letter(letter: char) -> bool
    ensures { result ≡ names.is_letter letter }
{
    match letter {
        'A'..='Z' | '_' | 'a'..='z' => true,
        _ => false,
    }
}

fn is_letter_or_digit(letter: char) -> bool
    ensures { result ≡ names.is_letter_or_digit letter }
{
    match letter {
        '0'..='9' => true,
        _ => is_letter(letter),
    }
}

fn is_digit(letter: char) -> bool
    ensures { result ≡ words.is_digit letter }
{
    match letter {
        '0'..='9' => true,
        _ => false,
    }
}

fn behind_digits(chars: &[char]) -> &[char]
    ensures { result.now ≡ spec.behind_digits chars.now }
{
    let mut rest = chars;
    while let [next, behind @ ..] = rest {
        if !is_digit(*next) {
            return rest;
        }
        rest = behind;
    }
    rest
}

/// A text, from behind the opening quote.
#[tactic(auto, using(crate::proofs::PlacedWords::quoted_begins, crate::proofs::PlacedWords::quoted_open, crate::proofs::PlacedWords::quoted_out, crate::proofs::PlacedWords::quoted_ends, crate::proofs::PlacedWords::quoted_more))]
fn quoted(chars: &[char]) -> (Token, &[char])
    ensures { (result.0, result.1.now) ≡ spec.text_or_bad chars.now (spec.behind_quoted (length chars.now) chars.now) }
{
    let mut rest = chars;
    for _turn in 0..chars.len() {
        let Some((part, behind)) = next_quoted(rest) else {
            return (Token::Bad, chars);
        };
        if part.is_none() {
            return (Token::Text, behind);
        }
        rest = behind;
    }
    (Token::Bad, chars)
}

/// The next character of a text, or its end, and what follows.
#[tactic(auto, unfolding(rls_text::specs::Words::next_quoted))]
fn next_quoted(chars: &[char]) -> Option<(Option<char>, &[char])>
    ensures { words.next_quoted chars.now ≡ words.read_now result }
{
    match chars {
        ['\'', '\'', behind @ ..] => Some((Some('\''), behind)),
        ['\'', behind @ ..] => Some((None, behind)),
        [first, behind @ ..] => Some((Some(*first), behind)),
        [] => None,
    }
}

/// The sign, of two characters where two make one.
fn sign(first: char, behind: &[char]) -> (Token, &[char])
    ensures { (result.0, result.1.now) ≡ spec.seen_first (words.sign_from first behind.now) }
{
    match behind {
        [second, rest @ ..] => match double(first, *second) {
            Some(mark) => (Token::Sign(mark), rest),
            None => (single(first), behind),
        },
        [] => (single(first), behind),
    }
}

/// The sign of two characters, if they are one.
#[tactic(auto, unfolding(rls_text::specs::Words::double))]
fn double(first: char, second: char) -> Option<Mark>
    ensures { result ≡ option_map mark_of (words.double first second) }
{
    match (first, second) {
        ('<', '>') => Some(Mark::NotEqual),
        ('!', '=') => Some(Mark::NotEqual),
        ('<', '=') => Some(Mark::LessOrEqual),
        ('>', '=') => Some(Mark::GreaterOrEqual),
        (_, _) => None,
    }
}

/// The sign of one character.
#[tactic(auto, unfolding(rls_text::specs::Words::single))]
fn single(first: char) -> Token
    ensures { result ≡ seen (words.single first) }
{
    match first {
        '(' => Token::Sign(Mark::Open),
        ')' => Token::Sign(Mark::Close),
        ',' => Token::Sign(Mark::Comma),
        '.' => Token::Sign(Mark::Dot),
        ';' => Token::Sign(Mark::Semicolon),
        '*' => Token::Sign(Mark::Star),
        '+' => Token::Sign(Mark::Plus),
        '-' => Token::Sign(Mark::Minus),
        '=' => Token::Sign(Mark::Equal),
        '<' => Token::Sign(Mark::Less),
        '>' => Token::Sign(Mark::Greater),
        _ => Token::Bad,
    }
}
