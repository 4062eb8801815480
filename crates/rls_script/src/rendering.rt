//! Answers as they are written: rows, then the tag; or the refusal. Each line stands under its label.

ghost use Rattle.std.specs.Prelude.{◌≡◌, ◌≤◌, ◌++◌, codes, length, take, drop, string_bytes, OnOk, IfOk};
ghost use Rattle.std.specs.List.{prefix_len};
ghost use Rattle.rls_script.specs.Rendering.{escaped_byte, escaped, is_plain, field_text, more_fields, row_line, row_lines, line_of, counted_tag, terse_text, told_text, refusal_line, tag_line, rows_in, last_line, answer_text};

use crate::answer::Answer;
use rls_guard::Reply;
use rls_value::{Cause, Refusal, Row, Tag, Value};
use std::alloc::{AllocError, Global};

/// The bytes that are written for an answer. Told tersely, a serialization failure names no objects and no transactions.
pub fn render(
    alloc: Global,
    terse: bool,
    label: &str,
    answer: &Answer,
) -> Result<Vec<u8>, AllocError>
    ensures { IfOk result (λ bytes. bytes.items ≡ answer_text terse label.now answer.now) }
{
    let mut out = Vec::new(alloc);
    push_rows(alloc, &mut out, label, rows_of(answer))?;
    push_last(alloc, &mut out, terse, label, answer)?;
    Ok(out)
}

/// The rows that an answer lists.
pub(crate) fn rows_of(answer: &Answer) -> &[Row]
    ensures { result.now ≡ rows_in answer.now }
{
    match answer {
        Answer::Replied(_, Reply::Rows(rows)) => rows.get().as_slice(),
        _ => &[],
    }
}

/// The line behind the rows: the tag, or the refusal.
pub(crate) fn push_last(
    alloc: Global,
    out: &mut Vec<u8>,
    terse: bool,
    label: &str,
    answer: &Answer,
) -> Result<(), AllocError>
    ensures { OnOk result (out.new.items ≡ out.old.items ++ last_line terse label.now answer.now) }
{
    match answer {
        Answer::Replied(tag, reply) => push_reply(alloc, out, label, *tag, reply),
        Answer::Refused(refusal) => push_refusal(alloc, out, terse, label, refusal),
    }
}

fn push_reply(
    alloc: Global,
    out: &mut Vec<u8>,
    label: &str,
    tag: Tag,
    reply: &Reply,
) -> Result<(), AllocError>
    ensures { OnOk result (out.new.items ≡ out.old.items ++ tag_line label.now tag reply.now) }
{
    match reply {
        Reply::Rows(rows) => push_counted(alloc, out, label, tag, rows.get().len() as u64),
        Reply::Count(count) => push_counted(alloc, out, label, tag, *count),
        Reply::Done => push_line(out, label, tag.text()),
    }
}

fn push_rows(
    alloc: Global,
    out: &mut Vec<u8>,
    label: &str,
    mut rows: &[Row],
) -> Result<(), AllocError>
    ensures { OnOk result (out.new.items ≡ out.old.items ++ row_lines label.now rows.entry.now) }
{
    while let [row, rest @ ..] = rows {
        push_row(alloc, out, label, row.as_slice())?;
        rows = rest;
    }
    Ok(())
}

fn push_row(
    alloc: Global,
    out: &mut Vec<u8>,
    label: &str,
    values: &[Value],
) -> Result<(), AllocError>
    ensures { OnOk result (out.new.items ≡ out.old.items ++ row_line label.now values.now) }
{
    push_label(out, label)?;
    if let [first, rest @ ..] = values {
        push_field(alloc, out, first)?;
        push_more_fields(alloc, out, rest)?;
    }
    out.push(b'\n')?;
    Ok(())
}

fn push_more_fields(
    alloc: Global,
    out: &mut Vec<u8>,
    mut values: &[Value],
) -> Result<(), AllocError>
    ensures { OnOk result (out.new.items ≡ out.old.items ++ more_fields values.entry.now) }
{
    while let [value, rest @ ..] = values {
        out.push(b'|')?;
        push_field(alloc, out, value)?;
        values = rest;
    }
    Ok(())
}

pub(crate) fn push_field(alloc: Global, out: &mut Vec<u8>, value: &Value) -> Result<(), AllocError>
    ensures { OnOk result (out.new.items ≡ out.old.items ++ field_text value.now) }
{
    match value {
        Value::Null => out.extend_from_slice(b"\\N"),
        Value::Int(number) => {
            let digits = format!(in alloc; "{number}")?;
            out.extend_from_slice(digits.as_bytes())
        }
        Value::Text(text) => push_escaped(out, text.as_str().as_bytes()),
        Value::Bool(true) => out.extend_from_slice(b"t"),
        Value::Bool(false) => out.extend_from_slice(b"f"),
    }
}

fn push_escaped(out: &mut Vec<u8>, bytes: &[u8]) -> Result<(), AllocError>
    ensures { OnOk result (out.new.items ≡ out.old.items ++ escaped bytes.now) }
{
    let mut rest = push_plain(out, bytes)?;
    while let [byte, behind @ ..] = rest {
        push_escaped_byte(out, *byte)?;
        rest = push_plain(out, behind)?;
    }
    Ok(())
}

// The plain bytes at the front at once; what is behind them is given back.
fn push_plain<'a>(out: &mut Vec<u8>, bytes: &'a [u8]) -> Result<&'a [u8], AllocError>
    ensures pushed { IfOk result (λ rest. out.new.items ++ escaped rest.now ≡ out.old.items ++ escaped bytes.now) }
    ensures shorter { IfOk result (λ rest. length rest.now ≤ length bytes.now) }
{
    let (plain, behind) = split_plain(bytes);
    out.extend_from_slice(plain)?;
    Ok(behind)
}

fn split_plain(bytes: &[u8]) -> (&[u8], &[u8])
    ensures plain { result.0.now ≡ take (prefix_len is_plain bytes.now) bytes.now }
    ensures behind { result.1.now ≡ drop (prefix_len is_plain bytes.now) bytes.now }
{
    bytes.split_at(plain_len(bytes))
}

fn plain_len(bytes: &[u8]) -> usize
    ensures value { result ≡ prefix_len is_plain bytes.now }
    ensures within { result ≤ length bytes.now }
{
    let mut len = 0;
    let mut rest = bytes;
    while let [first, tail @ ..] = rest {
        if !is_plain(*first) {
            break;
        }
        len += 1;
        rest = tail;
    }
    len
}

fn is_plain(byte: u8) -> bool
    ensures { result ≡ Rattle.rls_script.specs.Rendering.is_plain byte }
{
    !matches!(byte, b'\\' | b'|' | b'\n' | b'\r')
}

fn push_escaped_byte(out: &mut Vec<u8>, byte: u8) -> Result<(), AllocError>
    ensures { OnOk result (out.new.items ≡ out.old.items ++ escaped_byte byte) }
{
    match byte {
        b'\\' => out.extend_from_slice(b"\\\\"),
        b'|' => out.extend_from_slice(b"\\|"),
        b'\n' => out.extend_from_slice(b"\\n"),
        b'\r' => out.extend_from_slice(b"\\r"),
        _ => out.extend_from_slice(&[byte]),
    }
}

// INSERT's tag has a zero before its count (PostgreSQL manual, 55.7, "CommandComplete").
fn push_counted(
    alloc: Global,
    out: &mut Vec<u8>,
    label: &str,
    tag: Tag,
    count: u64,
) -> Result<(), AllocError>
    ensures { OnOk result (out.new.items ≡ out.old.items ++ line_of label.now (counted_tag tag count)) }
{
    let text = match tag {
        Tag::Insert => format!(in alloc; "INSERT 0 {count}")?,
        _ => format!(in alloc; "{tag} {count}")?,
    };
    push_line(out, label, text.as_str())
}

fn push_refusal(
    alloc: Global,
    out: &mut Vec<u8>,
    terse: bool,
    label: &str,
    refusal: &Refusal,
) -> Result<(), AllocError>
    ensures { OnOk result (out.new.items ≡ out.old.items ++ refusal_line terse label.now refusal.now) }
{
    let code = refusal.code();
    let told = told(alloc, terse, refusal)?;
    let text = format!(in alloc; "ERROR {code} {told}")?;
    push_line(out, label, text.as_str())
}

/// The refusal's text.
fn told(alloc: Global, terse: bool, refusal: &Refusal) -> Result<String, AllocError>
    ensures { IfOk result (λ text. string_bytes text ≡ told_text terse refusal.now) }
{
    match terse {
        true => told_tersely(alloc, refusal),
        false => format!(in alloc; "{refusal}"),
    }
}

fn told_tersely(alloc: Global, refusal: &Refusal) -> Result<String, AllocError>
    ensures { IfOk result (λ text. string_bytes text ≡ terse_text refusal.now) }
{
    match refusal {
        Refusal::Serial(cause) => {
            let why = terse_cause(cause);
            format!(in alloc; "could not serialize access: {why}")
        }
        refusal => format!(in alloc; "{refusal}"),
    }
}

fn terse_cause(cause: &Cause) -> &'static str
    ensures { result.now ≡ Rattle.rls_script.specs.Rendering.terse_cause cause.now }
{
    match cause {
        Cause::Written(_, _) => "concurrent update",
        Cause::Structure { .. } => "read/write dependencies among transactions",
    }
}

fn push_line(out: &mut Vec<u8>, label: &str, text: &str) -> Result<(), AllocError>
    ensures { OnOk result (out.new.items ≡ out.old.items ++ line_of label.now text.now) }
{
    push_label(out, label)?;
    out.extend_from_slice(text.as_bytes())?;
    out.push(b'\n')?;
    Ok(())
}

pub(crate) fn push_label(out: &mut Vec<u8>, label: &str) -> Result<(), AllocError>
    ensures { OnOk result (out.new.items ≡ out.old.items ++ (label.now ++ codes ": ")) }
{
    out.extend_from_slice(label.as_bytes())?;
    out.extend_from_slice(b": ")
}
