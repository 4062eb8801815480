//! Transcripts: scripts whose answers stand indented below their commands.

ghost use Rattle.std.specs.Prelude.{◌≡◌, ◌≤◌, ◌++◌, ◌∷◌, [], true, false, None, length, take, drop, replicate, map, codes, IfOk, OnOk, IfSome};
ghost use Rattle.std.specs.Str.{bytes_eq};
ghost use Rattle.rls_transcript.specs.Told.{ended, told_lines};
ghost use Rattle.rls_transcript.specs.Transcripts as spec;

use crate::line::{has_label, push_line};
use crate::told::Told;
use rls_script::{Line, read_line};
use std::alloc::{AllocError, Global};

/// How many spaces answers are indented more than commands.
const ANSWER_INDENT: usize = 4;

/// How far a transcript of these lines is indented as a whole: as its first line that has a label.
pub fn indent_of(lines: &[&[u8]]) -> usize
    ensures { result ≡ spec.indent_of (map (λ line. line.now) lines.now) }
{
    let mut rest = lines;
    while let [line, behind @ ..] = rest {
        let spaces = spaces_of(line);
        if has_label(&line[spaces..]) {
            return spaces;
        }
        rest = behind;
    }
    0
}

/// How many spaces a line begins with.
fn spaces_of(line: &[u8]) -> usize
    ensures spaces { result ≡ spec.spaces_of line.now }
    ensures within { result ≤ length line.now }
{
    let mut len = 0;
    let mut rest = line;
    while let [b' ', tail @ ..] = rest {
        len += 1;
        rest = tail;
    }
    len
}

/// The answer that the line is a line of, without its indent.
fn answer_in(indent: usize, line: &[u8]) -> Option<&[u8]>
    ensures none { result ≡ None → spec.is_answer indent line.now ≡ false }
    ensures some { IfSome result (λ text. (spec.is_answer indent line.now ≡ true) × (text.now ≡ spec.answer_in indent line.now)) }
{
    let spaces = spaces_of(line);
    if spaces < indent || spaces - indent < ANSWER_INDENT {
        return None;
    }
    Some(&line[indent + ANSWER_INDENT..])
}

/// The line without the indent, where answers belong to it: a command of the script or of another program.
fn head_in(indent: usize, line: &[u8]) -> Option<&[u8]>
    ensures none { result ≡ None → spec.is_head indent line.now ≡ false }
    ensures some { IfSome result (λ text. (spec.is_head indent line.now ≡ true) × (text.now ≡ drop indent line.now)) }
{
    let spaces = spaces_of(line);
    if spaces < indent || spaces - indent >= ANSWER_INDENT {
        return None;
    }
    let text = &line[indent..];
    match read_line(text) {
        Line::Skipped | Line::Phase => None,
        Line::Command { .. } | Line::Unlabelled => Some(text),
    }
}

/// Whether a line without its indent is a command of another program.
fn is_shell(text: &[u8]) -> bool
    ensures { result ≡ bytes_eq (take 2 text.now) (codes "$ ") }
{
    matches!(text, [b'$', b' ', ..])
}

/// The command of the script that the line is, without its indent.
pub fn command_in(indent: usize, line: &[u8]) -> Option<&[u8]>
    ensures none { result ≡ None → spec.is_command indent line.now ≡ false }
    ensures some { IfSome result (λ text. (spec.is_command indent line.now ≡ true) × (text.now ≡ drop indent line.now)) }
{
    match head_in(indent, line) {
        Some(text) if !is_shell(text) => Some(text),
        _ => None,
    }
}

/// The lines of the script, as many as the transcript has.
pub fn script_of<'t>(alloc: Global, lines: &[&'t [u8]]) -> Result<Vec<&'t [u8]>, AllocError>
    ensures script { IfOk result (λ script. map (λ line. line.now) script.items ≡ spec.script_of (map (λ line. line.now) lines.now)) }
    ensures all { IfOk result (λ script. length script.items ≡ length lines.now) }
{
    let indent = indent_of(lines);
    let mut script = Vec::with_capacity(alloc, lines.len())?;
    let mut rest = lines;
    while let [line, behind @ ..] = rest {
        script.push(command_in(indent, *line).unwrap_or(&[]))?;
        rest = behind;
    }
    Ok(script)
}

/// The answer lines up to the next line that answers belong to.
pub fn answers_behind<'t>(
    alloc: Global,
    indent: usize,
    lines: &[&'t [u8]],
) -> Result<Vec<&'t [u8]>, AllocError>
    ensures { IfOk result (λ answers. map (λ line. line.now) answers.items ≡ spec.answers_behind indent (map (λ line. line.now) lines.now)) }
{
    let mut answers = Vec::new(alloc);
    let mut rest = lines;
    while let [line, behind @ ..] = rest {
        if head_in(indent, line).is_some() {
            return Ok(answers);
        }
        if let Some(text) = answer_in(indent, *line) {
            answers.push(text)?;
        }
        rest = behind;
    }
    Ok(answers)
}

/// The number of the first answer line that belongs to no line above it, counted from 1.
pub fn loose_in(lines: &[&[u8]]) -> Option<u64>
    ensures { result ≡ spec.loose_in (map (λ line. line.now) lines.now) }
{
    let indent = indent_of(lines);
    let mut rest = lines;
    while let [line, behind @ ..] = rest {
        if head_in(indent, line).is_some() {
            return None;
        }
        if answer_in(indent, line).is_some() {
            return Some((lines.len() - behind.len()) as u64);
        }
        rest = behind;
    }
    None
}

/// Whether the lines are the same.
fn same_lines(expected: &[&[u8]], answered: &[&[u8]]) -> bool
    ensures { result ≡ spec.same_lines (map (λ line. line.now) expected.now) (map (λ line. line.now) answered.now) }
{
    let mut left = expected;
    let mut right = answered;
    while let [line, lines @ ..] = left {
        match right {
            [other, others @ ..] if *line == *other => right = others,
            _ => return false,
        }
        left = lines;
    }
    right.is_empty()
}

/// Whether a command passes of which these lines are expected: it is answered by just these, or, where none is expected, by anything
/// but a refusal.
pub fn passes(expected: &[&[u8]], told: &Told, answered: &[&[u8]]) -> bool
    requires { map (λ line. line.now) answered.now ≡ told_lines told.now.text }
    ensures { result ≡ spec.passes (map (λ line. line.now) expected.now) told.now }
{
    if expected.is_empty() {
        return !told.is_refused();
    }
    same_lines(expected, answered)
}

/// The transcript with the answers that came, each line with its end.
pub fn filled(alloc: Global, lines: &[&[u8]], tolds: &[Told]) -> Result<Vec<u8>, AllocError>
    ensures { IfOk result (λ text. text.items ≡ ended (spec.filled (map (λ line. line.now) lines.now) tolds.now)) }
{
    let indent = indent_of(lines);
    let mut text = Vec::new(alloc);
    let mut of_shell = false;
    let mut rest = lines;
    let mut answers = tolds;
    while let [line, behind @ ..] = rest {
        let [told, others @ ..] = answers else {
            break;
        };
        match head_in(indent, line) {
            Some(head) => {
                of_shell = is_shell(head);
                push_line(&mut text, line)?;
                if !of_shell {
                    push_answer(alloc, &mut text, indent, behind, told)?;
                }
            }
            None if answer_in(indent, line).is_some() && !of_shell => {}
            None => push_line(&mut text, line)?,
        }
        rest = behind;
        answers = others;
    }
    Ok(text)
}

/// Puts the answer behind the text, where one is expected and where it is a refusal.
fn push_answer(
    alloc: Global,
    text: &mut Vec<u8>,
    indent: usize,
    behind: &[&[u8]],
    told: &Told,
) -> Result<(), AllocError>
    ensures { OnOk result (text.new.items ≡ text.old.items ++ ended (spec.shown_below indent (spec.answers_behind indent (map (λ line. line.now) behind.now)) told.now)) }
{
    let expected = answers_behind(alloc, indent, behind)?;
    let is_shown = !expected.is_empty() || told.is_refused();
    drop(expected);
    if !is_shown {
        return Ok(());
    }
    let lines = told.lines(alloc)?;
    push_indented(text, indent, lines.as_slice())
}

/// Puts lines of an answer behind the text, indented.
fn push_indented(text: &mut Vec<u8>, indent: usize, lines: &[&[u8]]) -> Result<(), AllocError>
    ensures { OnOk result (text.new.items ≡ text.old.items ++ ended (map (spec.indented indent) (map (λ line. line.now) lines.now))) }
{
    let mut rest = lines;
    while let [line, more @ ..] = rest {
        push_spaces(text, indent)?;
        push_spaces(text, ANSWER_INDENT)?;
        push_line(text, line)?;
        rest = more;
    }
    Ok(())
}

fn push_spaces(text: &mut Vec<u8>, count: usize) -> Result<(), AllocError>
    ensures { OnOk result (text.new.items ≡ text.old.items ++ replicate count 32) }
{
    let mut left = count;
    while left > 0 {
        text.push(b' ')?;
        left -= 1;
    }
    Ok(())
}
