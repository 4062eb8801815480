//! The script that tells its answers apart, and the answers in what a run of it wrote.

ghost use Rattle.std.specs.Prelude.{◌≡◌, ◌≤◌, false, length, map, codes, ◌++◌, ◌∷◌, [], IfOk};
ghost use Rattle.std.specs.List.{position_or_len};
ghost use Rattle.std.specs.Str.Lines as lines_of;
ghost use Rattle.rls_value.specs.declared.refusal.Refusal.TheVariants.{Syntax};
ghost use Rattle.rls_script.specs.Rendering.{answer_text};
ghost use Rattle.rls_script.specs.declared.answer.Answer.TheVariants.{Refused};
ghost use Rattle.rls_transcript.specs.Marks as spec;
ghost use Rattle.rls_transcript.specs.Marks.{mark, mark_answer, tolds_in};
ghost use Rattle.rls_transcript.specs.Told.{ended};

use crate::line::{push_line, split_lines};
use crate::told::Told;
use rls_script::{Line, read_line};
use std::alloc::{AllocError, Global};

/// A mark is answered so, as every line without a label is.
pub fn mark_is_answered()
    ensures { answer_text false mark (Refused Syntax) ≡ mark_answer ++ (10 ∷ []) }
{}

/// The script of these lines with a mark behind each that is answered: a line without a label, so that no session changes. Lines that
/// are skipped are left out.
pub fn marked(alloc: Global, lines: &[&[u8]]) -> Result<Vec<u8>, AllocError>
    ensures { IfOk result (λ script. script.items ≡ ended (spec.marked (map (λ line. line.now) lines.now))) }
{
    let mut script = Vec::new(alloc);
    let mut rest = lines;
    while let [line, behind @ ..] = rest {
        if is_asked(line) {
            push_line(&mut script, line)?;
            push_line(&mut script, b"?")?;
        }
        rest = behind;
    }
    Ok(script)
}

/// What each of the lines is answered in what a run of their marked script wrote.
pub fn tolds_of(alloc: Global, lines: &[&[u8]], text: &[u8]) -> Result<Vec<Told>, AllocError>
    ensures cut { IfOk result (λ tolds. tolds.items ≡ tolds_in (map (λ line. line.now) lines.now) (lines_of.lines text.now)) }
    ensures all { IfOk result (λ tolds. length tolds.items ≡ length lines.now) }
{
    let written = split_lines(alloc, text)?;
    let mut tolds = Vec::new(alloc);
    let mut rest = lines;
    let mut left = written.as_slice();
    while let [line, behind @ ..] = rest {
        tolds.reserve(1)?;
        let told = told_in(alloc, line, left)?;
        tolds.push_reserved(told);
        left = left_behind(line, left);
        rest = behind;
    }
    Ok(tolds)
}

/// How many of the lines are told of in what an unfinished run wrote: those up to the last that is answered in it.
pub fn lines_told(alloc: Global, lines: &[&[u8]], text: &[u8]) -> Result<usize, AllocError>
    ensures { IfOk result (λ count. count ≤ length lines.now) }
{
    let written = split_lines(alloc, text)?;
    let mut rest = lines;
    let mut left = written.as_slice();
    while let [line, behind @ ..] = rest {
        if left.is_empty() {
            break;
        }
        left = left_behind(line, left);
        rest = behind;
    }
    Ok(lines.len() - rest.len())
}

/// What the line is answered, where these lines of the text are left.
fn told_in(alloc: Global, line: &[u8], text: &[&[u8]]) -> Result<Told, AllocError>
    ensures { IfOk result (λ told. told ≡ spec.told_in line.now (map (λ line. line.now) text.now)) }
{
    match is_asked(line) {
        true => Told::of(alloc, first_answer(text)),
        false => Ok(Told::nothing(alloc)),
    }
}

/// What is left of the text behind the line's answer.
fn left_behind<'s, 't>(line: &[u8], text: &'s [&'t [u8]]) -> &'s [&'t [u8]]
    ensures { map (λ line. line.now) result.now ≡ spec.left_behind line.now (map (λ line. line.now) text.now) }
{
    if !is_asked(line) {
        return text;
    }
    behind_answer(text)
}

/// Whether these are the bytes that are written for a mark.
pub fn is_mark_text(text: &[u8]) -> bool {
    match text {
        [line @ .., b'\n'] => is_mark(line),
        _ => false,
    }
}

fn is_asked(line: &[u8]) -> bool
    ensures { result ≡ spec.is_asked line.now }
{
    !matches!(read_line(line), Line::Skipped | Line::Phase)
}

fn is_mark(line: &[u8]) -> bool
    ensures { result ≡ spec.is_mark line.now }
{
    line == b"?: ERROR 42601 syntax error".as_slice()
}

/// The first answer in the lines of a text.
#[tactic(auto, using(crate::proofs::MarkLemmas::first_lines))]
fn first_answer<'s, 't>(text: &'s [&'t [u8]]) -> &'s [&'t [u8]]
    ensures { map (λ line. line.now) result.now ≡ spec.first_answer (map (λ line. line.now) text.now) }
{
    &text[..answer_len(text)]
}

/// What is behind it and its mark.
#[tactic(auto, using(crate::proofs::MarkLemmas::left_lines, crate::proofs::MarkLemmas::no_lines))]
fn behind_answer<'s, 't>(text: &'s [&'t [u8]]) -> &'s [&'t [u8]]
    ensures { map (λ line. line.now) result.now ≡ spec.behind_answer (map (λ line. line.now) text.now) }
{
    let len = answer_len(text);
    if len == text.len() {
        return &[];
    }
    &text[len + 1..]
}

/// How many lines the first answer has.
fn answer_len(text: &[&[u8]]) -> usize
    ensures len { result ≡ spec.answer_len (map (λ line. line.now) text.now) }
    ensures within { result ≤ length text.now }
{
    match text {
        [] => 0,
        [_, more @ ..] => mark_place(more) + 1,
    }
}

/// The place of the first mark in the lines of a text; where there is none, their number.
fn mark_place(text: &[&[u8]]) -> usize
    ensures place { result ≡ position_or_len spec.is_mark (map (λ line. line.now) text.now) }
    ensures within { result ≤ length text.now }
{
    let mut place = 0;
    let mut rest = text;
    while let [line, behind @ ..] = rest {
        if is_mark(line) {
            break;
        }
        place += 1;
        rest = behind;
    }
    place
}
