//! Labels in pictures.

ghost use Rattle.std.specs.Prelude.{◌≡◌, ◌<◌, ◌++◌, ◌∷◌, ◌/◌, ◌%◌, ◌||◌, true, nat_eq, nat_lt, codes, string_bytes, IfOk, OnOk};
ghost use Rattle.std.specs.Char.{encode_utf8};
ghost use Rattle.std.specs.Fmt.{decimal};
ghost use Rattle.rls_audit.specs.rls_printing.specs.Escaped.{hex_digit};
ghost use Rattle.std.specs.Str.{chars};
ghost use Rattle.rls_check.specs.GraphLabels as spec;

use crate::graph_form::Picture;
use std::alloc::{AllocError, Global};

/// So many characters of the text at most, of which none ends the label.
pub(crate) fn label(
    alloc: Global,
    picture: Picture,
    most: usize,
    text: &str,
) -> Result<String, AllocError>
    ensures { IfOk result (λ label. string_bytes label ≡ spec.label_text picture most text.now) }
{
    let letters = chars_of(alloc, text)?;
    let mut label = String::new(alloc);
    let pushed = push_cut(&mut label, picture, most, letters.as_slice());
    drop(letters);
    pushed?;
    Ok(label)
}

fn chars_of(alloc: Global, text: &str) -> Result<Vec<char>, AllocError>
    ensures { IfOk result (λ letters. letters.items ≡ chars text.now) }
{
    text.chars().collect(alloc)
}

/// So many of the characters at most, and a mark where there are more.
fn push_cut(
    label: &mut String,
    picture: Picture,
    most: usize,
    letters: &[char],
) -> Result<(), AllocError>
    ensures { OnOk result (string_bytes label.new ≡ string_bytes label.old ++ spec.cut_text picture most letters.now) }
{
    if most < letters.len() {
        push_chars(label, picture, &letters[..most])?;
        label.push_str("..")
    } else {
        push_chars(label, picture, letters)
    }
}

fn push_chars(label: &mut String, picture: Picture, mut letters: &[char]) -> Result<(), AllocError>
    ensures { OnOk result (string_bytes label.new ≡ string_bytes label.old ++ spec.letters_text picture letters.entry.now) }
{
    while let [letter, rest @ ..] = letters {
        push_char(label, picture, *letter)?;
        letters = rest;
    }
    Ok(())
}

fn push_char(label: &mut String, picture: Picture, c: char) -> Result<(), AllocError>
    ensures { OnOk result (string_bytes label.new ≡ string_bytes label.old ++ spec.char_in picture c) }
{
    match picture {
        Picture::Mermaid => push_mermaid(label, c),
        Picture::Dot => push_dot(label, c),
    }
}

fn push_mermaid(label: &mut String, c: char) -> Result<(), AllocError>
    ensures { OnOk result (string_bytes label.new ≡ string_bytes label.old ++ spec.mermaid_char c) }
{
    if is_plain(c) {
        label.push(c)
    } else {
        push_code(label, c as u32)
    }
}

fn is_plain(c: char) -> bool
    ensures { result ≡ spec.is_plain c }
{
    match c {
        '0'..='9' | 'A'..='Z' | 'a'..='z' | ' ' | '.' | '_' | ',' => true,
        _ => false,
    }
}

fn push_code(label: &mut String, code: u32) -> Result<(), AllocError>
    ensures { OnOk result (string_bytes label.new ≡ string_bytes label.old ++ (codes "#" ++ (decimal code ++ codes ";"))) }
{
    write!(label, "#{code};")
}

/// A quote and a backslash with a backslash in front; control characters and backslashes are escaped first, as in lines.
fn push_dot(label: &mut String, c: char) -> Result<(), AllocError>
    ensures { OnOk result (string_bytes label.new ≡ string_bytes label.old ++ spec.dot_char c) }
{
    match c {
        '"' => label.push_str("\\\""),
        '\\' => label.push_str("\\\\\\\\"),
        '\n' => label.push_str("\\\\n"),
        '\r' => label.push_str("\\\\r"),
        '\t' => label.push_str("\\\\t"),
        _ if is_control(c) => push_hex(label, c as u8),
        _ => label.push(c),
    }
}

fn is_control(c: char) -> bool
    ensures control { result ≡ (nat_lt c 32 || nat_eq c 127) }
    ensures ascii { result ≡ true → c < 128 }
{
    let code = c as u32;
    code < 32 || code == 127
}

/// The code in two hexadecimal digits.
fn push_hex(label: &mut String, code: u8) -> Result<(), AllocError>
    requires { code < 128 }
    ensures { OnOk result (string_bytes label.new ≡ string_bytes label.old ++ (92 ∷ 92 ∷ 120 ∷ (encode_utf8 (hex_digit (code / 16)) ++ encode_utf8 (hex_digit (code % 16))))) }
{
    label.push_str("\\\\x")?;
    push_digit(label, code / 16)?;
    push_digit(label, code % 16)
}

fn push_digit(label: &mut String, digit: u8) -> Result<(), AllocError>
    requires { digit < 16 }
    ensures { OnOk result (string_bytes label.new ≡ string_bytes label.old ++ encode_utf8 (hex_digit digit)) }
{
    label.push(hex_digit(digit) as char)
}

fn hex_digit(digit: u8) -> u8
    requires { digit < 16 }
    ensures { result ≡ hex_digit digit }
{
    if digit < 10 { 48 + digit } else { 55 + digit }
}
