//! Lines as texts: written in the second format, read in both.

ghost use Rattle.std.specs.Prelude.{◌≡◌, true, Some, Ok, IfOk, string_bytes};
ghost use Rattle.std.specs.List.{All};
ghost use Rattle.rls_audit_lines.specs.Reading as spec;
ghost use Rattle.rls_audit_lines.specs.Reading.{line_found, line_text, TellsWhether, IsStatementText, IsPolicyText, HasStatement, HasPolicies, TextsParse, MeansLine, IsLineRead};

use crate::changes::Changed;
use crate::format::{Audit, Format, Second};
use crate::lines::{Answered, Line};
use rls_codec::Unread;
use rls_statement::Statement;
use rls_text::{parse, parse_command};
use rls_value::{Name, Refusal, Text};
use std::alloc::{AllocError, Global};

/// The text of the line in the second format, without its end: compact JSON, the keys of objects in byte order. It is read back as
/// the line.
pub fn write_line(alloc: Global, line: &Line) -> Result<String, AllocError>
    ensures text { IfOk result (λ text. string_bytes text ≡ line_text line.now) }
    ensures back { IfOk result (λ text. line_found true (string_bytes text) ≡ Some line.now) }
{
    rls_codec::write_line::<Audit<Second>, Line>(alloc, line)
}

/// The line that the text is in the format, in any layout and order of keys; `BadAudit` of its number exactly where it is none, or
/// one of its texts is no statement, or no policy of the table.
pub fn read_line<F: Format>(alloc: Global, number: u64, text: &str) -> Result<Line, Refusal>
    ensures { IsLineRead number result (MeansLine F.second text.now) }
{
    match rls_codec::read_line::<Audit<F>, Line>(alloc, text) {
        Ok(line) => {
            if texts_parse(alloc, &line)? {
                Ok(line)
            } else {
                Err(Refusal::BadAudit(number))
            }
        }
        Err(Unread::Bad) => Err(Refusal::BadAudit(number)),
        Err(Unread::NoMemory) => Err(Refusal::NoMemory),
    }
}

/// Whether each text of the line is a statement's or a policy's.
fn texts_parse(alloc: Global, line: &Line) -> Result<bool, AllocError>
    ensures { IfOk result (λ all. TellsWhether all (TextsParse line.now)) }
{
    match line {
        Line::Txn(shown) => {
            if statements_parse(alloc, shown.statements.as_slice())? {
                policies_parse(alloc, shown.changes.as_slice())
            } else {
                Ok(false)
            }
        }
        Line::Head | Line::End(_, _) => Ok(true),
    }
}

pub(crate) fn statements_parse(alloc: Global, statements: &[Answered]) -> Result<bool, AllocError>
    ensures { IfOk result (λ all. TellsWhether all (All HasStatement statements.now)) }
{
    for answered in statements {
        if !is_statement(alloc, &answered.text)? {
            return Ok(false);
        }
    }
    Ok(true)
}

fn policies_parse(alloc: Global, changes: &[Changed]) -> Result<bool, AllocError>
    ensures { IfOk result (λ all. TellsWhether all (All HasPolicies changes.now)) }
{
    for changed in changes {
        if !has_policies(alloc, changed)? {
            return Ok(false);
        }
    }
    Ok(true)
}

fn has_policies(alloc: Global, changed: &Changed) -> Result<bool, AllocError>
    ensures { IfOk result (λ all. TellsWhether all (HasPolicies changed.now)) }
{
    match changed {
        Changed::Policies(table, texts) => are_policies(alloc, table, texts.as_slice()),
        _ => Ok(true),
    }
}

fn are_policies(alloc: Global, table: &Name, texts: &[Text]) -> Result<bool, AllocError>
    ensures { IfOk result (λ all. TellsWhether all (All (IsPolicyText table.now) texts.now)) }
{
    for text in texts {
        if !is_policy(alloc, table, text)? {
            return Ok(false);
        }
    }
    Ok(true)
}

/// Whether the text is a statement's, or what begins or ends a block.
fn is_statement(alloc: Global, text: &Text) -> Result<bool, AllocError>
    ensures { IfOk result (λ is. TellsWhether is (IsStatementText text.now)) }
{
    match parse_command(alloc, text.as_str()) {
        Ok(command) => {
            drop(command);
            Ok(true)
        }
        Err(Refusal::NoMemory) => Err(AllocError),
        Err(refusal) => {
            drop(refusal);
            Ok(false)
        }
    }
}

/// Whether the text creates a policy of the table.
fn is_policy(alloc: Global, table: &Name, text: &Text) -> Result<bool, AllocError>
    ensures { IfOk result (λ is. TellsWhether is (IsPolicyText table.now text.now)) }
{
    match parse(alloc, text.as_str()) {
        Ok(statement) => Ok(creates_on(table, &statement)),
        Err(Refusal::NoMemory) => Err(AllocError),
        Err(refusal) => {
            drop(refusal);
            Ok(false)
        }
    }
}

/// Whether the statement creates a policy of the table.
fn creates_on(table: &Name, statement: &Statement) -> bool
    ensures { result ≡ spec.creates_on table.now (Ok statement.now) }
{
    match statement {
        Statement::CreatePolicy(create) => create.table.is(table),
        _ => false,
    }
}
