//! The lines of a script: `LABEL: COMMAND`, what is skipped, and what has no label.

ghost use Rattle.std.specs.Prelude.{◌≡◌, ◌<◌, false, length, drop};
ghost use Rattle.std.specs.List.{position_or_len, after_first, prefix_len, list_all};
ghost use Rattle.rls_script.specs.Lines as spec;
ghost use Rattle.rls_script.specs.Lines.{IsRead, ends_line, first_line_of, is_skipped, is_phase, is_blank};

use std::str;

/// A line of a script.
#[derive(Clone, Copy)]
pub enum Line<'a> {
    /// An empty line, or a comment.
    Skipped,
    /// `==`, which parts phases.
    Phase,
    /// A command under its label.
    Command { label: &'a str, command: &'a str },
    /// A line without a label, or not UTF-8.
    Unlabelled,
}

/// The bytes of the first line, and those behind it. A line ends before LF or CR LF, or at the end of the script.
pub fn first_line(script: &[u8]) -> (&[u8], &[u8])
    requires { 0 < length script.now }
    ensures line { result.0.now ≡ first_line_of script.now }
    ensures behind { result.1.now ≡ after_first ends_line script.now }
    ensures falls { length result.1.now < length script.now }
{
    let end = line_len(script);
    if end < script.len() {
        (without_return(&script[..end]), &script[end + 1..])
    } else {
        (script, &[])
    }
}

// How many bytes stand before the first LF.
fn line_len(script: &[u8]) -> usize
    ensures { result ≡ position_or_len ends_line script.now }
{
    let mut len = 0;
    let mut rest = script;
    while let [first, tail @ ..] = rest {
        if *first == b'\n' {
            break;
        }
        len += 1;
        rest = tail;
    }
    len
}

fn without_return(line: &[u8]) -> &[u8]
    ensures { result.now ≡ spec.without_return line.now }
{
    match line {
        [front @ .., b'\r'] => front,
        _ => line,
    }
}

/// What a line, without its end, is.
pub fn read_line(line: &[u8]) -> Line<'_>
    ensures { IsRead line.now result }
{
    match line {
        [] | [b'-', b'-', ..] => Line::Skipped,
        _ => written(line),
    }
}

fn written(line: &[u8]) -> Line<'_>
    requires { is_skipped line.now ≡ false }
    ensures { IsRead line.now result }
{
    if line == b"==".as_slice() {
        return Line::Phase;
    }
    match str::from_utf8(line) {
        Ok(text) => labelled(text),
        Err(_) => Line::Unlabelled,
    }
}

#[tactic(auto, using(crate::proofs::LineLemmas::split_at_colon))]
fn labelled(text: &str) -> Line<'_>
    requires shown { is_skipped text.now ≡ false }
    requires no_phase { is_phase text.now ≡ false }
    ensures { IsRead text.now result }
{
    match text.split_once(':') {
        Some((label, rest)) if is_label(label.as_bytes()) => Line::Command {
            label,
            command: without_blanks(rest),
        },
        _ => Line::Unlabelled,
    }
}

#[tactic(auto, using(crate::proofs::LineLemmas::blanks_boundary))]
fn without_blanks(text: &str) -> &str
    ensures { result.now ≡ drop (prefix_len is_blank text.now) text.now }
{
    &text[blank_len(text.as_bytes())..]
}

fn blank_len(bytes: &[u8]) -> usize
    ensures { result ≡ prefix_len is_blank bytes.now }
{
    let mut len = 0;
    let mut rest = bytes;
    while let [b' ' | b'\t', tail @ ..] = rest {
        len += 1;
        rest = tail;
    }
    len
}

// 1 to 63 lower case letters, digits or underscores.
fn is_label(bytes: &[u8]) -> bool
    ensures { result ≡ spec.is_label bytes.now }
{
    !bytes.is_empty() && bytes.len() <= 63 && are_label_bytes(bytes)
}

fn are_label_bytes(bytes: &[u8]) -> bool
    ensures { result ≡ list_all spec.is_label_byte bytes.now }
{
    bytes.iter().all(|byte| is_label_byte(*byte))
}

fn is_label_byte(byte: u8) -> bool
    ensures { result ≡ spec.is_label_byte byte }
{
    matches!(byte, b'a'..=b'z' | b'0'..=b'9' | b'_')
}
