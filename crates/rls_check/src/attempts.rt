//! Attempts, which are transactions that ended without a commit, and how a file of them is read beside its audit.

ghost use Rattle.std.specs.Prelude.{◌≡◌, ◌⊎◌, ◌<◌, ◌+◌, ◌++◌, ◌∷◌, [], ℕ, List, length, nat_eq, string_bytes, IfOk, IfErr};
ghost use Rattle.std.specs.List.{All, list_any};
ghost use Rattle.rls_value.specs.declared.refusal.Refusal.TheVariants as r;
ghost use Rattle.rls_audit.specs.rls_audit_lines.specs.AttemptCodecs.{end_word as spec_end_word};
ghost use Rattle.rls_audit.specs.rls_audit_lines.specs.Reading.{HasStatement, IsLineRead};
ghost use Rattle.rls_check.specs.AttemptTexts.{ended_text as spec_ended_text};
ghost use Rattle.rls_check.specs.Attempts as spec;
ghost use Rattle.rls_check.specs.Attempts.{AreAttempts, BeginNoAttempts, HasReadAttempts, IsAttemptOf, IsAttemptTaken, IsAttemptText, IsAttemptsHead, IsKeptWithin, KeepsAttempt, missing_attempt as spec_missing_attempt};
ghost use Rattle.rls_check.specs.Keeping.{IsMade};

use crate::audit::Audit;
use crate::keeping::kept;
use crate::transaction::Transaction;
use rls_audit::{AttemptEnd, AttemptLine, AttemptShown, EndWord, Shown, read_attempt};
use rls_value::{Items, Refusal};
use std::alloc::{AllocError, Global};
use std::str;

/// A transaction that ended without a commit.
#[derive(Drop)]
pub struct Attempt {
    pub end: AttemptEnd,
    /// What began, and its statements with what they were answered. It shows no changes.
    pub ran: Transaction,
}

/// Reads a file of attempts line by line.
#[derive(Drop)]
pub struct AttemptReader {
    /// So many transactions committed, by the audit beside it.
    commits: u64,
    /// So many lines were read.
    lines: u64,
    attempts: Items<Attempt>,
}

impl AttemptReader {
    /// Of the file that was written beside the audit.
    #[tactic(auto, using(crate::proofs::AttemptLemmas::nothing_read))]
    pub fn new(alloc: Global, audit: &Audit) -> AttemptReader
        ensures { HasReadAttempts (length audit.now.transactions) [] result }
    {
        AttemptReader {
            commits: audit.transactions.len() as u64,
            lines: 0,
            attempts: Items::new(alloc),
        }
    }

    /// Reads the next line, without its end, and keeps what it means. `BadAudit` of its number exactly where no file of attempts
    /// beside the audit begins with the lines so far and this one; nothing is left to go on with then.
    pub fn line(self, alloc: Global, text: &[u8]) -> Result<AttemptReader, Refusal>
        ensures whole { (commits : ℕ) (texts : List (List ℕ)) → HasReadAttempts commits texts self → IfOk result (HasReadAttempts commits (texts ++ text.now ∷ [])) }
        ensures refused { (commits : ℕ) (texts : List (List ℕ)) → HasReadAttempts commits texts self → IfErr result (λ refusal. (refusal ≡ r.NoMemory) ⊎ ((refusal ≡ r.BadAudit (length texts + 1)) × BeginNoAttempts commits (texts ++ text.now ∷ []))) }
    {
        let mut reader = self;
        match reader.take(alloc, text) {
            Ok(()) => Ok(reader),
            Err(refusal) => {
                drop(reader);
                Err(refusal)
            }
        }
    }

    /// The same in place.
    fn take(&mut self, alloc: Global, text: &[u8]) -> Result<(), Refusal>
        ensures { IsAttemptTaken text.now self.old self.new result }
    {
        let Some(number) = self.lines.checked_add(1) else {
            return Err(Refusal::NoMemory);
        };
        if self.lines == 0 {
            self.take_head(alloc, number, text)
        } else {
            self.take_attempt(alloc, number, text)
        }
    }

    /// The first line.
    #[tactic(auto, using(crate::proofs::AttemptLemmas::head_taken, crate::proofs::AttemptLemmas::head_refused))]
    fn take_head(&mut self, alloc: Global, number: u64, text: &[u8]) -> Result<(), Refusal>
        requires number { number ≡ self.old.lines + 1 }
        requires first { self.old.lines ≡ 0 }
        ensures { IsAttemptTaken text.now self.old self.new result }
    {
        read_head(alloc, number, text)?;
        self.lines = number;
        Ok(())
    }

    /// Another one.
    #[tactic(auto, using(crate::proofs::AttemptLemmas::attempt_taken, crate::proofs::AttemptLemmas::attempt_refused))]
    fn take_attempt(&mut self, alloc: Global, number: u64, text: &[u8]) -> Result<(), Refusal>
        requires number { number ≡ self.old.lines + 1 }
        requires later { 0 < self.old.lines }
        ensures { IsAttemptTaken text.now self.old self.new result }
    {
        let attempt = attempt_in(alloc, self.commits, number, text)?;
        self.attempts.push(attempt)?;
        self.lines = number;
        Ok(())
    }

    /// The attempts; the first line is missing where none was read.
    #[tactic(auto, using(crate::proofs::AttemptLemmas::attempts_read, crate::proofs::AttemptLemmas::no_head))]
    pub fn finish(self) -> Result<Items<Attempt>, Refusal>
        ensures whole { (commits : ℕ) (texts : List (List ℕ)) → HasReadAttempts commits texts self → IfOk result (AreAttempts commits texts) }
        ensures refused { (commits : ℕ) (texts : List (List ℕ)) → HasReadAttempts commits texts self → IfErr result (λ refusal. (refusal ≡ r.BadAudit (length texts + 1)) × (texts ≡ [])) }
    {
        let AttemptReader {
            commits: _,
            lines,
            attempts,
        } = self;
        if lines == 0 {
            drop(attempts);
            return Err(Refusal::BadAudit(1));
        }
        Ok(attempts)
    }
}

/// The first of the numbers that no attempt has.
pub fn missing_attempt(attempts: &[Attempt], txns: &[u64]) -> Option<u64>
    ensures { result ≡ spec_missing_attempt attempts.now txns.now }
{
    for txn in txns {
        if !have(attempts, *txn) {
            return Some(*txn);
        }
    }
    None
}

fn have(attempts: &[Attempt], txn: u64) -> bool
    ensures { result ≡ list_any (λ it. nat_eq it.ran.txn txn) attempts.now }
{
    attempts.iter().any(|attempt| attempt.ran.txn == txn)
}

/// That the bytes are the first line.
#[tactic(auto, using(crate::proofs::AttemptLemmas::no_other_head, crate::proofs::AttemptLemmas::head_unread))]
fn read_head(alloc: Global, number: u64, bytes: &[u8]) -> Result<(), Refusal>
    ensures { IsLineRead number result (λ _. IsAttemptsHead bytes.now) }
{
    match line_in(alloc, number, bytes) {
        Ok(AttemptLine::Head) => Ok(()),
        Ok(AttemptLine::Attempt(end, shown)) => {
            drop(end);
            drop(shown);
            Err(Refusal::BadAudit(number))
        }
        Err(refusal) => Err(refusal),
    }
}

/// The attempt that the line shows, which began after no more commits than these.
#[tactic(auto, using(crate::proofs::AttemptLemmas::kept_read, crate::proofs::AttemptLemmas::no_attempt, crate::proofs::AttemptLemmas::attempt_unread))]
fn attempt_in(alloc: Global, commits: u64, number: u64, bytes: &[u8]) -> Result<Attempt, Refusal>
    ensures { IsLineRead number result (IsAttemptOf commits bytes.now) }
{
    match line_in(alloc, number, bytes) {
        Ok(AttemptLine::Attempt(end, shown)) => keep_within(alloc, commits, number, end, shown),
        Ok(AttemptLine::Head) => Err(Refusal::BadAudit(number)),
        Err(refusal) => Err(refusal),
    }
}

/// The line that the bytes are.
fn line_in(alloc: Global, number: u64, bytes: &[u8]) -> Result<AttemptLine, Refusal>
    ensures { IsLineRead number result (IsAttemptText bytes.now) }
{
    match str::from_utf8(bytes) {
        Ok(text) => read_attempt(alloc, number, text),
        Err(_) => Err(Refusal::BadAudit(number)),
    }
}

/// What is kept of an attempt that ended so, where it began after no more commits than these.
fn keep_within(
    alloc: Global,
    commits: u64,
    number: u64,
    end: AttemptEnd,
    shown: AttemptShown,
) -> Result<Attempt, Refusal>
    requires { All HasStatement shown.statements }
    ensures { IsKeptWithin commits number end shown result }
{
    if shown.snap <= commits {
        return keep(alloc, end, shown);
    }
    drop(end);
    drop(shown);
    Err(Refusal::BadAudit(number))
}

/// The same, whenever it began.
fn keep(alloc: Global, end: AttemptEnd, shown: AttemptShown) -> Result<Attempt, Refusal>
    requires { All HasStatement shown.statements }
    ensures { IsMade (KeepsAttempt end shown) result }
{
    match kept(alloc, as_shown(alloc, shown)) {
        Ok(ran) => Ok(Attempt { end, ran }),
        Err(refusal) => {
            drop(end);
            Err(refusal)
        }
    }
}

/// As a transaction that changed nothing.
fn as_shown(alloc: Global, shown: AttemptShown) -> Shown
    ensures { result ≡ spec.as_shown shown }
{
    let AttemptShown {
        login,
        mode,
        role,
        snap,
        statements,
        txn,
    } = shown;
    Shown {
        changes: Items::new(alloc),
        commit: 0,
        login,
        mode,
        role,
        snap,
        statements,
        txn,
    }
}

/// How an attempt ended.
pub(crate) fn ended_text(alloc: Global, end: &AttemptEnd) -> Result<String, AllocError>
    ensures { IfOk result (λ text. string_bytes text ≡ spec_ended_text end.now) }
{
    match end {
        AttemptEnd::Conflict(cause) => {
            let cause = cause.as_str();
            format!(in alloc; "40001: {cause}")
        }
        AttemptEnd::By(word) => {
            let word = end_word(*word);
            format!(in alloc; "{word}")
        }
    }
}

fn end_word(word: EndWord) -> &'static str
    ensures { result.now ≡ spec_end_word word }
{
    match word {
        EndWord::Rollback => "rollback",
        EndWord::Connect => "connect",
        EndWord::End => "end",
    }
}
