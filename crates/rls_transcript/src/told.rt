//! What a line of a script is answered, apart from all other lines.

ghost use Rattle.std.specs.Prelude.{◌≡◌, drop, map, take, IfOk};
ghost use Rattle.rls_transcript.specs.Numbers.{code_in};
ghost use Rattle.rls_transcript.specs.Told as spec;
ghost use Rattle.rls_transcript.specs.Told.{behind_label, told_by, told_lines, untold};

use crate::line::{colon_len, push_lines};
use rls_script::first_line;
use std::alloc::{AllocError, Global};
use std::marker::Model;

/// What a line is answered: the bytes that are written for it, none where it is skipped, and whether they tell a refusal.
#[derive(Drop)]
pub struct Told {
    text: Vec<u8>,
    refused: bool,
}

impl Model for Told {
    ghost use Rattle.rls_transcript.specs.Told.{Told};

    ghost Value = { Told };

    ghost view = { λ it. record { text = it.text.items; refused = it.refused } };
}

impl Told {
    /// Nothing, of a line that is skipped.
    pub fn nothing(alloc: Global) -> Told
        ensures { result ≡ untold }
    {
        Told {
            text: Vec::new(alloc),
            refused: false,
        }
    }

    /// An answer of these lines.
    pub fn of(alloc: Global, lines: &[&[u8]]) -> Result<Told, AllocError>
        ensures { IfOk result (λ told. told ≡ told_by (map (λ line. line.now) lines.now)) }
    {
        let mut text = Vec::new(alloc);
        push_lines(&mut text, lines)?;
        Ok(Told {
            text,
            refused: is_refusal(lines),
        })
    }

    /// Whether it tells a refusal.
    pub fn is_refused(&self) -> bool
        ensures { result ≡ self.now.refused }
    {
        self.refused
    }

    /// The code of the refusal that it tells; none otherwise.
    pub fn code(&self) -> &[u8]
        ensures { result.now ≡ code_in self.now }
    {
        if self.refused {
            code_behind(without_label(self.text.as_slice()))
        } else {
            &[]
        }
    }

    /// The bytes that are written.
    pub fn text(&self) -> &[u8]
        ensures { result.now ≡ self.now.text }
    {
        self.text.as_slice()
    }

    /// The lines of the answer, without the label.
    pub fn lines(&self, alloc: Global) -> Result<Vec<&[u8]>, AllocError>
        ensures { IfOk result (λ all. map (λ line. line.now) all.items ≡ told_lines self.now.text) }
    {
        let mut all = Vec::new(alloc);
        let mut rest = self.text.as_slice();
        while !rest.is_empty() {
            let (line, behind) = first_line(rest);
            all.push(without_label(line))?;
            rest = behind;
        }
        Ok(all)
    }
}

/// Whether an answer of these lines is a refusal.
fn is_refusal(lines: &[&[u8]]) -> bool
    ensures { result ≡ spec.is_refusal (map (λ line. line.now) lines.now) }
{
    match lines {
        [line] => is_error(line),
        _ => false,
    }
}

/// The five bytes behind ERROR and a space.
fn code_behind(text: &[u8]) -> &[u8]
    ensures { result.now ≡ take 5 (drop 6 text.now) }
{
    if text.len() <= 6 {
        return &[];
    }
    first_five(&text[6..])
}

fn first_five(code: &[u8]) -> &[u8]
    ensures { result.now ≡ take 5 code.now }
{
    if code.len() <= 5 {
        return code;
    }
    &code[..5]
}

fn is_error(line: &[u8]) -> bool
    ensures { result ≡ spec.is_error line.now }
{
    matches!(
        without_label(line),
        [b'E', b'R', b'R', b'O', b'R', b' ', ..]
    )
}

/// Whether what is written for a line is a refusal: one line, which is an error.
pub fn is_refusal_text(text: &[u8]) -> bool {
    match text {
        [line @ .., b'\n'] => is_error(line) && line.iter().all(|byte| *byte != b'\n'),
        _ => false,
    }
}

// What stands behind the first colon and the space after it.
fn without_label(line: &[u8]) -> &[u8]
    ensures { result.now ≡ behind_label line.now }
{
    let end = colon_len(line);
    if line.len() - end < 2 {
        return &[];
    }
    &line[end + 2..]
}
