//! Lines of a file of attempts, which are transactions that ended without a commit, as JSON.

ghost use Rattle.std.specs.Prelude.{◌≡◌, Some, string_bytes, IfOk, OnOk};
ghost use Rattle.rls_audit_lines.specs.AttemptCodecs as codec;
ghost use Rattle.rls_audit_lines.specs.AttemptCodecs.{attempt_fields, attempt_line, attempt_to, conflict_fields, end_word, ended_fields, serial_word};
ghost use Rattle.rls_audit_lines.specs.AttemptReading.{AttemptsParse, MeansAttempt, attempt_found, attempt_text};
ghost use Rattle.rls_audit_lines.specs.Reading.{IsLineRead, TellsWhether};
ghost use Rattle.rls_audit_lines.specs.declared.attempts.AttemptLine.TheVariants as line;
ghost use Rattle.rls_codec.specs.Reading.{ReadsAs};
ghost use Rattle.rls_audit_lines.specs.declared.attempts.SerialWord.TheVariants.{Serial};
ghost use Rattle.serde_json.specs.Data.{object};
ghost use Rattle.serde_json.specs.View.{view};

use crate::format::{Audit, Format, Second};
use crate::lines::Answered;
use crate::reading::statements_parse;
use rls_codec::{Coded, Unread, Worded, has_size, json_of, member, read_word, write_word};
use rls_guard::Mode;
use rls_value::{Items, Name, Refusal, Text};
use serde_json::{Value, json};
use std::alloc::{AllocError, Global};

/// What ended a transaction without a commit, where no serialization failure did.
#[derive(Clone, Copy)]
pub enum EndWord {
    /// ROLLBACK.
    Rollback,
    /// A `\connect` of its label.
    Connect,
    /// The end of the script.
    End,
}

/// That a serialization failure ended it.
#[derive(Clone, Copy)]
pub enum SerialWord {
    Serial,
}

/// How a transaction ended without a commit.
#[derive(Drop)]
pub enum AttemptEnd {
    /// By a serialization failure with this text.
    Conflict(Text),
    By(EndWord),
}

/// What is shown of a transaction that ended without a commit: what is shown of one that committed, but its commit and its changes.
#[derive(Drop)]
pub struct AttemptShown {
    pub login: Name,
    pub mode: Mode,
    pub role: Name,
    pub snap: u64,
    pub statements: Items<Answered>,
    pub txn: u64,
}

/// A line of a file of attempts.
#[derive(Drop)]
pub enum AttemptLine {
    /// The first one.
    Head,
    Attempt(AttemptEnd, AttemptShown),
}

impl<F: Format> Worded<Audit<F>> for EndWord {
    ghost word = { end_word };

    fn word(self) -> &'static str {
        match self {
            EndWord::Rollback => "rollback",
            EndWord::Connect => "connect",
            EndWord::End => "end",
        }
    }
}

impl<F: Format> Coded<Audit<F>> for EndWord {
    ghost codec = { codec.ended };

    fn to_json(&self, alloc: Global) -> Result<Value, AllocError> {
        write_word::<Audit<F>, _>(alloc, *self)
    }

    fn from_json(_alloc: Global, json: &Value) -> Result<EndWord, Unread> {
        read_word::<Audit<F>, _>(json, &[EndWord::Rollback, EndWord::Connect, EndWord::End])
    }
}

impl<F: Format> Worded<Audit<F>> for SerialWord {
    ghost word = { serial_word };

    fn word(self) -> &'static str {
        match self {
            SerialWord::Serial => "40001",
        }
    }
}

impl<F: Format> Coded<Audit<F>> for SerialWord {
    ghost codec = { codec.serial };

    fn to_json(&self, alloc: Global) -> Result<Value, AllocError> {
        write_word::<Audit<F>, _>(alloc, *self)
    }

    fn from_json(_alloc: Global, json: &Value) -> Result<SerialWord, Unread> {
        read_word::<Audit<F>, _>(json, &[SerialWord::Serial])
    }
}

impl Coded<Audit<Second>> for AttemptLine {
    ghost codec = { codec.attempt_line };

    fn to_json(&self, alloc: Global) -> Result<Value, AllocError> {
        match self {
            AttemptLine::Head => json!(in alloc; {"attempts": 1u64}),
            AttemptLine::Attempt(end, shown) => attempt_json(alloc, end, shown),
        }
    }

    fn from_json(alloc: Global, json: &Value) -> Result<AttemptLine, Unread> {
        if has_size(json, 8) {
            let cause = member::<Audit<Second>, Text>(alloc, json, "cause")?;
            let _ended = member::<Audit<Second>, SerialWord>(alloc, json, "ended")?;
            let shown = attempt_in(alloc, json)?;
            return Ok(AttemptLine::Attempt(AttemptEnd::Conflict(cause), shown));
        }
        if has_size(json, 7) {
            let word = member::<Audit<Second>, EndWord>(alloc, json, "ended")?;
            let shown = attempt_in(alloc, json)?;
            return Ok(AttemptLine::Attempt(AttemptEnd::By(word), shown));
        }
        if has_size(json, 1) {
            let attempts = member::<Audit<Second>, u64>(alloc, json, "attempts")?;
            if attempts == 1 {
                return Ok(AttemptLine::Head);
            }
        }
        Err(Unread::Bad)
    }
}

/// The line of an attempt that ended so.
fn attempt_json(alloc: Global, end: &AttemptEnd, shown: &AttemptShown) -> Result<Value, AllocError>
    ensures json { IfOk result (λ json. view json ≡ attempt_line.written (line.Attempt end.now shown.now)) }
    ensures fits { OnOk result (attempt_line.Fits (line.Attempt end.now shown.now)) }
{
    match end {
        AttemptEnd::Conflict(cause) => conflict_json(alloc, cause, shown),
        AttemptEnd::By(word) => ended_json(alloc, word, shown),
    }
}

/// The line of an attempt that a serialization failure ended.
fn conflict_json(alloc: Global, cause: &Text, shown: &AttemptShown) -> Result<Value, AllocError>
    ensures json { IfOk result (λ json. view json ≡ object (conflict_fields.written (cause.now, (Serial, attempt_to shown.now)))) }
    ensures fits { OnOk result (conflict_fields.Fits (cause.now, (Serial, attempt_to shown.now))) }
{
    json!(in alloc; {
        "cause": json_of::<Audit<Second>, _>(alloc, cause)?,
        "ended": json_of::<Audit<Second>, _>(alloc, &SerialWord::Serial)?,
        "login": json_of::<Audit<Second>, _>(alloc, &shown.login)?,
        "mode": json_of::<Audit<Second>, _>(alloc, &shown.mode)?,
        "role": json_of::<Audit<Second>, _>(alloc, &shown.role)?,
        "snap": shown.snap,
        "statements": json_of::<Audit<Second>, _>(alloc, &shown.statements)?,
        "txn": shown.txn
    })
}

/// The line of an attempt that ended otherwise.
fn ended_json(alloc: Global, word: &EndWord, shown: &AttemptShown) -> Result<Value, AllocError>
    ensures json { IfOk result (λ json. view json ≡ object (ended_fields.written (word.now, attempt_to shown.now))) }
    ensures fits { OnOk result (ended_fields.Fits (word.now, attempt_to shown.now)) }
{
    json!(in alloc; {
        "ended": json_of::<Audit<Second>, _>(alloc, word)?,
        "login": json_of::<Audit<Second>, _>(alloc, &shown.login)?,
        "mode": json_of::<Audit<Second>, _>(alloc, &shown.mode)?,
        "role": json_of::<Audit<Second>, _>(alloc, &shown.role)?,
        "snap": shown.snap,
        "statements": json_of::<Audit<Second>, _>(alloc, &shown.statements)?,
        "txn": shown.txn
    })
}

/// What is shown of an attempt.
fn attempt_in(alloc: Global, json: &Value) -> Result<AttemptShown, Unread>
    ensures { ReadsAs attempt_to result (attempt_fields.found (view json.now)) }
{
    let login = member::<Audit<Second>, _>(alloc, json, "login")?;
    let mode = member::<Audit<Second>, _>(alloc, json, "mode")?;
    let role = member::<Audit<Second>, _>(alloc, json, "role")?;
    let snap = member::<Audit<Second>, _>(alloc, json, "snap")?;
    let statements = member::<Audit<Second>, _>(alloc, json, "statements")?;
    let txn = member::<Audit<Second>, _>(alloc, json, "txn")?;
    Ok(AttemptShown {
        login,
        mode,
        role,
        snap,
        statements,
        txn,
    })
}

/// The text of the line, without its end: compact JSON, the keys of objects in byte order. It is read back as the line.
pub fn write_attempt(alloc: Global, line: &AttemptLine) -> Result<String, AllocError>
    ensures text { IfOk result (λ text. string_bytes text ≡ attempt_text line.now) }
    ensures back { IfOk result (λ text. attempt_found (string_bytes text) ≡ Some line.now) }
{
    rls_codec::write_line::<Audit<Second>, AttemptLine>(alloc, line)
}

/// The line that the text is, in any layout and order of keys; `BadAudit` of its number exactly where it is none, or one of its texts is
/// no statement.
pub fn read_attempt(alloc: Global, number: u64, text: &str) -> Result<AttemptLine, Refusal>
    ensures { IsLineRead number result (MeansAttempt text.now) }
{
    match rls_codec::read_line::<Audit<Second>, AttemptLine>(alloc, text) {
        Ok(line) => {
            if attempts_parse(alloc, &line)? {
                Ok(line)
            } else {
                Err(Refusal::BadAudit(number))
            }
        }
        Err(Unread::Bad) => Err(Refusal::BadAudit(number)),
        Err(Unread::NoMemory) => Err(Refusal::NoMemory),
    }
}

/// Whether each text of the line is a statement's.
fn attempts_parse(alloc: Global, line: &AttemptLine) -> Result<bool, AllocError>
    ensures { IfOk result (λ all. TellsWhether all (AttemptsParse line.now)) }
{
    match line {
        AttemptLine::Head => Ok(true),
        AttemptLine::Attempt(_, shown) => statements_parse(alloc, shown.statements.as_slice()),
    }
}
