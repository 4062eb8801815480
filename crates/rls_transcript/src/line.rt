//! Lines of a text.

ghost use Rattle.std.specs.Prelude.{◌≡◌, ◌≤◌, ◌++◌, ◌∷◌, [], length, map, IfOk, OnOk};
ghost use Rattle.std.specs.List.{list_all, position_or_len};
ghost use Rattle.std.specs.Str.Lines.{lines};
ghost use Rattle.rls_script.specs.Lines as script;
ghost use Rattle.rls_transcript.specs.Told.{ended};

use rls_script::first_line;
use std::alloc::{AllocError, Global};

/// The lines of a text, without their ends.
pub fn split_lines(alloc: Global, text: &[u8]) -> Result<Vec<&[u8]>, AllocError>
    ensures { IfOk result (λ all. map (λ line. line.now) all.items ≡ lines text.now) }
{
    let mut all = Vec::new(alloc);
    let mut rest = text;
    while !rest.is_empty() {
        let (line, behind) = first_line(rest);
        all.push(line)?;
        rest = behind;
    }
    Ok(all)
}

/// Whether what stands before the line's first colon is a label.
pub fn has_label(line: &[u8]) -> bool
    ensures { result ≡ script.is_labelled line.now }
{
    let end = colon_len(line);
    end < line.len() && is_label(&line[..end])
}

/// How many bytes stand before the first colon.
pub fn colon_len(line: &[u8]) -> usize
    ensures first { result ≡ position_or_len script.is_colon line.now }
    ensures within { result ≤ length line.now }
{
    let mut len = 0;
    let mut rest = line;
    while let [first, tail @ ..] = rest {
        if *first == b':' {
            break;
        }
        len += 1;
        rest = tail;
    }
    len
}

// 1 to 63 lower case letters, digits or underscores.
fn is_label(bytes: &[u8]) -> bool
    ensures { result ≡ script.is_label bytes.now }
{
    !bytes.is_empty() && bytes.len() <= 63 && are_label_bytes(bytes)
}

fn are_label_bytes(bytes: &[u8]) -> bool
    ensures { result ≡ list_all script.is_label_byte bytes.now }
{
    bytes.iter().all(|byte| is_label_byte(*byte))
}

fn is_label_byte(byte: u8) -> bool
    ensures { result ≡ script.is_label_byte byte }
{
    matches!(byte, b'a'..=b'z' | b'0'..=b'9' | b'_')
}

/// Puts lines with their ends behind the text.
pub fn push_lines(text: &mut Vec<u8>, lines: &[&[u8]]) -> Result<(), AllocError>
    ensures { OnOk result (text.new.items ≡ text.old.items ++ ended (map (λ line. line.now) lines.now)) }
{
    let mut rest = lines;
    while let [line, more @ ..] = rest {
        push_line(text, line)?;
        rest = more;
    }
    Ok(())
}

/// Puts a line with its end behind the text.
pub fn push_line(text: &mut Vec<u8>, line: &[u8]) -> Result<(), AllocError>
    ensures { OnOk result (text.new.items ≡ text.old.items ++ (line.now ++ (10 ∷ []))) }
{
    text.extend_from_slice(line)?;
    text.push(b'\n')?;
    Ok(())
}
