//! What is told of a line that isn't taken.

use crate::expected::{is_expected, nearest_keyword, push_expected, push_upper};
use crate::grammar::Item;
use crate::reading::read_words;
use crate::token::{Placed, Token};
use crate::walking::{COMMAND, Fault, ROLE, find_fault};
use rls_text::parse_command;
use rls_value::{Limit, Refusal, is_reserved};
use std::alloc::{AllocError, Global};

/// A line of a script.
#[derive(Clone, Copy)]
pub struct Place<'a> {
    pub file: &'a str,
    /// Its number, from 1.
    pub line: u64,
    /// The whole line.
    pub text: &'a str,
}

/// What is told of the command of the line, which stands at its end: nothing where it is taken.
pub fn hint_of(
    alloc: Global,
    place: Place<'_>,
    command: &str,
) -> Result<Option<String>, AllocError> {
    match command.strip_prefix("\\connect") {
        Some(behind) if begins_white(behind.as_bytes()) => connect_hint(alloc, place, behind),
        _ => command_hint(alloc, place, command),
    }
}

fn begins_white(bytes: &[u8]) -> bool {
    matches!(bytes, [] | [b' ' | b'\t' | b'\n' | b'\r', ..])
}

/// What is told of what stands behind `\connect`. As for a session, the limits on words come first.
fn connect_hint(
    alloc: Global,
    place: Place<'_>,
    behind: &str,
) -> Result<Option<String>, AllocError> {
    match parse_command(alloc, behind) {
        Ok(taken) => {
            drop(taken);
            role_hint(alloc, place, behind)
        }
        Err(Refusal::NoMemory) => Err(AllocError),
        Err(Refusal::Limit(limit)) => match limit {
            Limit::Columns | Limit::Nesting | Limit::Subqueries => role_hint(alloc, place, behind),
            limit => refusal_hint(alloc, place, Refusal::Limit(limit)),
        },
        Err(refusal) => {
            drop(refusal);
            role_hint(alloc, place, behind)
        }
    }
}

fn role_hint(alloc: Global, place: Place<'_>, behind: &str) -> Result<Option<String>, AllocError> {
    let words = read_words(alloc, behind)?;
    let hint = words_hint(alloc, place, &ROLE, words.as_slice());
    drop(words);
    hint
}

fn command_hint(
    alloc: Global,
    place: Place<'_>,
    command: &str,
) -> Result<Option<String>, AllocError> {
    match parse_command(alloc, command) {
        Ok(taken) => {
            drop(taken);
            Ok(None)
        }
        Err(Refusal::NoMemory) => Err(AllocError),
        Err(Refusal::Syntax) => syntax_hint(alloc, place, command),
        Err(refusal) => refusal_hint(alloc, place, refusal),
    }
}

/// What is told of a line without a label.
pub fn label_hint(alloc: Global, file: &str, line: u64) -> Result<String, AllocError> {
    format!(in alloc; "{file}:{line}:1: no label: a line is `LABEL: STATEMENT`\n")
}

fn refusal_hint(
    alloc: Global,
    place: Place<'_>,
    refusal: Refusal,
) -> Result<Option<String>, AllocError> {
    let text = format!(in alloc; "{refusal}");
    drop(refusal);
    Ok(Some(limit_hint(alloc, place, text?)?))
}

fn limit_hint(alloc: Global, place: Place<'_>, text: String) -> Result<String, AllocError> {
    let (file, line) = (place.file, place.line);
    let hint = format!(in alloc; "{file}:{line}:1: {text}\n");
    drop(text);
    hint
}

fn syntax_hint(
    alloc: Global,
    place: Place<'_>,
    command: &str,
) -> Result<Option<String>, AllocError> {
    let words = read_words(alloc, command)?;
    let hint = words_hint(alloc, place, &COMMAND, words.as_slice());
    drop(words);
    match hint? {
        Some(hint) => Ok(Some(hint)),
        None => Ok(Some(whole_hint(alloc, place)?)),
    }
}

// The words are those of a statement, and it is none.
fn whole_hint(alloc: Global, place: Place<'_>) -> Result<String, AllocError> {
    let (file, line) = (place.file, place.line);
    format!(in alloc;
        "{file}:{line}:1: the words are in place, but something is said twice, or cannot stand together\n"
    )
}

fn words_hint(
    alloc: Global,
    place: Place<'_>,
    start: &[Item],
    words: &[Placed],
) -> Result<Option<String>, AllocError> {
    match find_fault(alloc, start, words)? {
        Some(fault) => {
            let hint = fault_hint(alloc, place, words, &fault);
            drop(fault);
            Ok(Some(hint?))
        }
        None => Ok(None),
    }
}

fn fault_hint(
    alloc: Global,
    place: Place<'_>,
    words: &[Placed],
    fault: &Fault,
) -> Result<String, AllocError> {
    let column = column_of(place.text, words.get(fault.place));
    let (file, line) = (place.file, place.line);
    let mut hint = format!(in alloc; "{file}:{line}:{column}: syntax error at ")?;
    match words.get(fault.place) {
        Some(word) => push_met(alloc, &mut hint, place.text, word, fault)?,
        None => hint.push_str("the end of the line")?,
    }
    hint.push_str("\n  here may stand: ")?;
    push_expected(&mut hint, fault.ready.as_slice())?;
    hint.push('\n')?;
    Ok(hint)
}

/// The column where the word begins, or that behind the line.
fn column_of(text: &str, word: Option<&Placed>) -> usize {
    let left = match word {
        Some(word) => word.left,
        None => 0,
    };
    text.chars().count().saturating_sub(left).saturating_add(1)
}

/// Writes the word that was met, and what may be meant.
fn push_met(
    alloc: Global,
    hint: &mut String,
    text: &str,
    word: &Placed,
    fault: &Fault,
) -> Result<(), AllocError> {
    push_quoted(hint, text, word)?;
    let Token::Word(letters) = &word.token else {
        return Ok(());
    };
    let letters = letters.as_str();
    if let Some(keyword) = nearest_keyword(alloc, fault.ready.as_slice(), letters)? {
        hint.push_str("; did you mean ")?;
        push_upper(hint, keyword)?;
        hint.push('?')?;
    }
    if is_reserved(letters.as_bytes()) && is_expected(fault.ready.as_slice(), Item::Name) {
        hint.push_str("; ")?;
        push_quoted(hint, text, word)?;
        hint.push_str(" is a reserved word, and no name")?;
    }
    Ok(())
}

/// Writes the word as it stands in the line, in backquotes.
fn push_quoted(hint: &mut String, text: &str, word: &Placed) -> Result<(), AllocError> {
    hint.push('`')?;
    let before = text.chars().count().saturating_sub(word.left);
    let len = len_of(word);
    for letter in text.chars().skip(before).take(len) {
        push_letter(hint, letter)?;
    }
    hint.push('`')
}

// Of what begins no word the first character is told.
fn len_of(word: &Placed) -> usize {
    match word.token {
        Token::Bad => 1,
        _ => word.left.saturating_sub(word.behind),
    }
}

/// Writes a character, so that a line stays a line and moves no cursor.
fn push_letter(hint: &mut String, letter: char) -> Result<(), AllocError> {
    match letter {
        '\\' => hint.push_str("\\\\"),
        '\n' => hint.push_str("\\n"),
        '\r' => hint.push_str("\\r"),
        '\t' => hint.push_str("\\t"),
        '\0'..='\u{1f}' | '\u{7f}' => {
            let code = letter as u32;
            hint.push_str("\\x")?;
            hint.push(digit(code / 16))?;
            hint.push(digit(code % 16))
        }
        _ => hint.push(letter),
    }
}

fn digit(value: u32) -> char {
    match value {
        0 => '0',
        1 => '1',
        2 => '2',
        3 => '3',
        4 => '4',
        5 => '5',
        6 => '6',
        7 => '7',
        8 => '8',
        9 => '9',
        10 => 'a',
        11 => 'b',
        12 => 'c',
        13 => 'd',
        14 => 'e',
        _ => 'f',
    }
}
