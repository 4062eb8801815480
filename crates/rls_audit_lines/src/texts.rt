//! Parts of texts, and the numbers and objects in them.

ghost use Rattle.std.specs.Prelude.{◌≡◌, Some, option_map};
ghost use Rattle.std.specs.List.{list_all};
ghost use Rattle.std.specs.Char.{is_ascii_digit};
ghost use Rattle.rls_audit_lines.specs.Texts as spec;
ghost use Rattle.rls_audit_lines.specs.Texts.{number_found, cut_at, object_found, row_found, row_behind};
ghost use Rattle.rls_codec.specs.Reading.{Reads};

use crate::names::read_name;
use crate::values::id_of;
use rls_codec::Unread;
use rls_value::Object;
use std::alloc::Global;

/// The number of 64 bits that the digits write.
pub fn read_number(text: &str) -> Result<u64, Unread>
    ensures { Reads result (number_found text.now) }
{
    if !are_digits(text.as_bytes()) {
        return Err(Unread::Bad);
    }
    match text.parse::<u64>() {
        Ok(number) => Ok(number),
        Err(_) => Err(Unread::Bad),
    }
}

fn are_digits(bytes: &[u8]) -> bool
    ensures { result ≡ list_all is_ascii_digit bytes.now }
{
    bytes.iter().all(|byte| byte.is_ascii_digit())
}

/// What stands before the first dot, and behind it.
pub fn at_dot(text: &str) -> Option<(&str, &str)>
    ensures { option_map (λ p. (p.0.now, p.1.now)) result ≡ cut_at 46 text.now }
{
    text.split_once('.')
}

/// What stands before the first blank, and behind it.
pub fn at_blank(text: &str) -> Option<(&str, &str)>
    ensures { option_map (λ p. (p.0.now, p.1.now)) result ≡ cut_at 32 text.now }
{
    text.split_once(' ')
}

/// What stands behind the prefix.
pub fn behind<'a>(text: &'a str, prefix: &str) -> Option<&'a str>
    ensures { option_map (λ rest. rest.now) result ≡ spec.stripped prefix.now text.now }
{
    text.strip_prefix(prefix)
}

/// The object of a change.
pub fn read_object(alloc: Global, text: &str) -> Result<Object, Unread>
    ensures { Reads result (object_found text.now) }
{
    if let Some(name) = behind(text, "role ") {
        return Ok(Object::Role(read_name(alloc, name)?));
    }
    if let Some(name) = behind(text, "members of ") {
        return Ok(Object::Members(read_name(alloc, name)?));
    }
    if let Some(name) = behind(text, "table ") {
        return Ok(Object::Table(read_name(alloc, name)?));
    }
    if let Some(name) = behind(text, "grants on ") {
        return Ok(Object::Grants(read_name(alloc, name)?));
    }
    if let Some(name) = behind(text, "policies on ") {
        return Ok(Object::Policies(read_name(alloc, name)?));
    }
    if let Some(rest) = behind(text, "row ") {
        return read_row(alloc, rest);
    }
    Err(Unread::Bad)
}

/// The number's two parts, and the table.
fn read_row(alloc: Global, text: &str) -> Result<Object, Unread>
    ensures { Reads result (row_found text.now) }
{
    match at_dot(text) {
        Some((txn, rest)) => {
            let txn = read_number(txn)?;
            match at_blank(rest) {
                Some((n, behind_it)) => read_row_behind(alloc, txn, n, behind_it),
                None => Err(Unread::Bad),
            }
        }
        None => Err(Unread::Bad),
    }
}

/// The number, and behind `of` the table.
fn read_row_behind(alloc: Global, txn: u64, number: &str, rest: &str) -> Result<Object, Unread>
    ensures { Reads result (row_behind txn (number.now, rest.now)) }
{
    let id = id_of(txn, read_number(number)?)?;
    match behind(rest, "of ") {
        Some(table) => Ok(Object::RowOf(read_name(alloc, table)?, id)),
        None => Err(Unread::Bad),
    }
}
