//! `\connect ROLE`, which begins a label's session.

ghost use Rattle.std.specs.Prelude.{◌≡◌, ℕ, true, List, MatchOption, Err, IfOk, take, drop};
ghost use Rattle.std.specs.List.{prefix_len};
ghost use Rattle.rls_value.specs.Giving.{Gives};
ghost use Rattle.rls_value.specs.Names.{is_letter_or_digit};
ghost use Rattle.rls_text.specs.ParseResults.{first_limit};
ghost use Rattle.rls_text.specs.Words.{words_of};
ghost use Rattle.rls_script.specs.Connects as spec;
ghost use Rattle.rls_script.specs.Connects.{IsConnect, is_white, is_long_name, limit_on_words, name_of, role_named};

use rls_text::parse;
use rls_value::{Limit, MAX_NAME, Name, Refusal};
use std::alloc::{AllocError, Global};

/// What stands behind `\connect`; none where the command is no `\connect`, which is one only before white space
/// or at the command's end.
pub fn behind_connect(command: &str) -> Option<&str>
    ensures { MatchOption result ((behind : List ℕ) → ¬ IsConnect command.now behind) (λ behind. IsConnect command.now behind.now) }
{
    match command.strip_prefix("\\connect") {
        Some(behind) if begins_white(behind.as_bytes()) => Some(behind),
        _ => None,
    }
}

fn begins_white(bytes: &[u8]) -> bool
    ensures { result ≡ spec.begins_white bytes.now }
{
    match bytes {
        [] => true,
        [first, ..] => is_white(*first),
    }
}

/// The role that is named behind `\connect`: one name, and then nothing but a comment. The limits on words come first.
pub fn role_in(alloc: Global, text: &str) -> Result<Name, Refusal>
    ensures role { Gives result (role_named text.now) }

    // A name over its limit is refused as such, and never as want of memory.
    ensures long_name { is_long_name text.now ≡ true → result ≡ Err (Refusal.Limit Limit.Name) }
{
    if role_word(text).len() > MAX_NAME {
        return Err(Refusal::Limit(Limit::Name));
    }
    match limit_passed(alloc, text)? {
        Some(limit) => Err(Refusal::Limit(limit)),
        None => one_name(alloc, text),
    }
}

fn role_word(text: &str) -> &str
    ensures { result.now ≡ spec.role_word text.now }
{
    let (word, _) = split_word(without_white(text));
    word
}

/// The first limit that the words pass, from the left: the grammar's answer tells it, whatever else it is.
fn limit_passed(alloc: Global, text: &str) -> Result<Option<Limit>, AllocError>
    ensures { IfOk result (λ limit. limit ≡ first_limit (words_of text.now)) }
{
    match parse(alloc, text) {
        Ok(statement) => {
            drop(statement);
            Ok(None)
        }
        Err(Refusal::NoMemory) => Err(AllocError),
        Err(Refusal::Limit(limit)) => Ok(on_words(limit)),
        Err(refusal) => {
            drop(refusal);
            Ok(None)
        }
    }
}

// The limit, where it is one on words and not on statements.
fn on_words(limit: Limit) -> Option<Limit>
    ensures { result ≡ limit_on_words limit }
{
    match limit {
        Limit::Columns | Limit::Nesting | Limit::Subqueries => None,
        limit => Some(limit),
    }
}

fn one_name(alloc: Global, text: &str) -> Result<Name, Refusal>
    ensures { Gives result (spec.one_name text.now) }
{
    let (word, behind) = split_word(without_white(text));
    let role = named(alloc, word)?;
    if is_comment(without_white(behind).as_bytes()) {
        Ok(role)
    } else {
        drop(role);
        Err(Refusal::Syntax)
    }
}

// A word is refused for its length or as no name, and else for want of memory alone.
fn named(alloc: Global, word: &str) -> Result<Name, Refusal>
    ensures { Gives result (name_of word.now) }
{
    match Name::new(alloc, word) {
        Ok(role) => Ok(role),
        Err(refusal) => {
            let known = match &refusal {
                Refusal::Limit(Limit::Name) => Refusal::Limit(Limit::Name),
                Refusal::Syntax => Refusal::Syntax,
                _ => Refusal::NoMemory,
            };
            drop(refusal);
            Err(known)
        }
    }
}

fn is_comment(bytes: &[u8]) -> bool
    ensures { result ≡ spec.is_comment bytes.now }
{
    matches!(bytes, [] | [b'-', b'-', ..])
}

#[tactic(auto, using(crate::proofs::LineLemmas::whites_boundary))]
fn without_white(text: &str) -> &str
    ensures { result.now ≡ spec.without_white text.now }
{
    &text[white_len(text.as_bytes())..]
}

fn white_len(bytes: &[u8]) -> usize
    ensures { result ≡ prefix_len is_white bytes.now }
{
    let mut len = 0;
    let mut rest = bytes;
    while let [first, tail @ ..] = rest {
        if !is_white(*first) {
            break;
        }
        len += 1;
        rest = tail;
    }
    len
}

fn is_white(byte: u8) -> bool
    ensures { result ≡ spec.is_white byte }
{
    matches!(byte, b' ' | b'\t' | b'\n' | b'\r')
}

#[tactic(auto, using(crate::proofs::LineLemmas::word_boundary))]
fn split_word(text: &str) -> (&str, &str)
    ensures word { result.0.now ≡ take (spec.word_len text.now) text.now }
    ensures behind { result.1.now ≡ drop (spec.word_len text.now) text.now }
{
    text.split_at(word_len(text.as_bytes()))
}

// A digit begins no name.
fn word_len(bytes: &[u8]) -> usize
    ensures { result ≡ spec.word_len bytes.now }
{
    match bytes {
        [b'0'..=b'9', ..] => 0,
        _ => letters_len(bytes),
    }
}

fn letters_len(bytes: &[u8]) -> usize
    ensures { result ≡ prefix_len is_letter_or_digit bytes.now }
{
    let mut len = 0;
    let mut rest = bytes;
    while let [first, tail @ ..] = rest {
        if !is_word_byte(*first) {
            break;
        }
        len += 1;
        rest = tail;
    }
    len
}

fn is_word_byte(byte: u8) -> bool
    ensures { result ≡ is_letter_or_digit byte }
{
    matches!(byte, b'a'..=b'z' | b'A'..=b'Z' | b'0'..=b'9' | b'_')
}
