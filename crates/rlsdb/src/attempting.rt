//! The command that runs a script and keeps what ended without a commit.

ghost use Rattle.std.specs.Prelude.{◌≡◌, ◌++◌, ◌∷◌, [], ℕ, List, Option, map, IfOk, OnOk};
ghost use Rattle.std.specs.Io.Buffered.{writer_buffer};
ghost use Rattle.rls_check.specs.rls_audit.specs.Printed.{printed_attempt};
ghost use Rattle.rls_check.specs.rls_audit.specs.rls_audit_lines.specs.AttemptReading.{attempt_text};
ghost use Rattle.rls_check.specs.rls_audit.specs.rls_core.specs.Records.{Record};
ghost use Rattle.rls_check.specs.rls_meaning.specs.rls_guard.specs.rls_catalog.specs.rls_value.specs.Refusals.{cause_text as told_cause};
ghost use Rattle.rls_session.specs.Parts.{tried_by};
ghost use Rattle.rls_session.specs.rls_script.specs.Streams.{GrewBy};
ghost use Rattle.rlsdb.specs.Answers.{IsAudited, IsTextWithAttempts, IsWithAudit};
ghost use Rattle.rlsdb.specs.Attempts as spec;
ghost use Rattle.rlsdb.specs.Attempts.{WritesAttempts, attempted_text, attempts_texts};
ghost use Rattle.rlsdb.specs.AuditLines.{ended_lines};

use crate::audit_file::write_text_line;
use crate::device::DeviceOut;
use crate::fault::Fault;
use crate::out_file::OutFile;
use crate::running::{require_own_audit, run_kept, write_book};
use crate::same_file::{STANDARD_INPUT, require_own};
use crate::stopping::write_wanted;
use rls_check::rls_audit::{AttemptEnd, AttemptLine, EndWord, line_of_attempt, write_attempt};
use rls_check::rls_guard::rls_catalog::rls_value::{Cause, Text};
use rls_command_line::ScriptFile;
use rls_session::rls_script::{RunFault, ScriptOut};
use rls_session::{Attempted, End, Ran};
use std::alloc::{AllocError, Global};
use std::fs::File;
use std::io::Write;
use std::sync::Wait;
use std::thread::Threads;
use std::time::Clock;

/// Runs the script, and then writes its audit where one is wanted, and what ended without a commit.
#[tactic(auto, using(crate::proofs::AttemptLemmas::kept_apart))]
pub fn run_keeping<'a, W, D>(
    rt: &HostRuntime,
    waits: &W,
    run: ScriptFile<'a>,
    out: &'a str,
    output: &mut DeviceOut<D>,
) -> Result<(), Fault<'a>>
where
    W: Threads + Wait + Clock + Sync,
    D: Write + Drop,
    ensures { OnOk result (GrewBy output.old.taken.bytes output.new.taken.bytes (λ written. (history : List Record) × (taken : Option (List ℕ)) × IsTextWithAttempts run.entry.threads run.entry.terse written history × IsAudited run.entry.audit history taken)) }
{
    require_own_audit(rt, run)?;
    require_own_attempts(rt, run, out)?;
    let Ran { book, attempts } = run_kept(rt, waits, run, true, output)?;
    let audit = write_wanted(rt, run.audit, &book)?;
    drop(audit);
    let kept = write_attempts(rt, out, attempts.as_slice())?;
    drop(kept);
    Ok(())
}

/// The same, with the audit behind the answers.
pub fn run_keeping_with_audit<'a, W, D>(
    rt: &HostRuntime,
    waits: &W,
    run: ScriptFile<'a>,
    out: &'a str,
    output: &mut DeviceOut<D>,
) -> Result<(), Fault<'a>>
where
    W: Threads + Wait + Clock + Sync,
    D: Write + Drop,
    ensures { OnOk result (GrewBy output.old.taken.bytes output.new.taken.bytes (IsWithAudit (IsTextWithAttempts run.entry.threads run.entry.terse))) }
{
    require_own_attempts(rt, run, out)?;
    let Ran { book, attempts } = run_kept(rt, waits, run, true, output)?;
    let order = book.order(rt.alloc())?;
    write_book(rt.alloc(), &book, order, output)?;
    let kept = write_attempts(rt, out, attempts.as_slice())?;
    drop(kept);
    Ok(())
}

/// That the file of the attempts is its own.
fn require_own_attempts<'a>(
    rt: &HostRuntime,
    run: ScriptFile<'a>,
    out: &str,
) -> Result<(), Fault<'a>> {
    match run.file {
        "-" => require_own(rt, STANDARD_INPUT, "standard input", out)?,
        file => require_own(rt, file, "FILE", out)?,
    }
    match run.audit {
        Some(audit) => require_own(rt, audit, "--audit", out),
        None => Ok(()),
    }
}

/// Writes the attempts. The file takes its place once all of them are there.
#[tactic(auto, using(crate::proofs::AttemptLemmas::attempts_whole))]
fn write_attempts<'a>(
    rt: &HostRuntime,
    name: &'a str,
    attempts: &[Attempted],
) -> Result<DeviceOut<File>, Fault<'a>>
    ensures attempts { IfOk result (λ file. WritesAttempts (map tried_by attempts.now) file.taken.bytes) }
    ensures emptied { IfOk result (λ file. writer_buffer file.writer ≡ []) }
{
    let mut file = OutFile::open(rt, name)?;
    match write_lines(rt.alloc(), attempts, &mut file.output) {
        Ok(()) => file.put(rt),
        Err(fault) => {
            let error = file.output.error();
            file.discard(rt);
            Err(fault.unwritten(name, error))
        }
    }
}

/// Writes the first line, and a line for each.
#[tactic(auto, using(crate::proofs::AttemptLemmas::lines_written))]
fn write_lines<'a, O: ScriptOut>(
    alloc: Global,
    attempts: &[Attempted],
    output: &mut O,
) -> Result<(), Fault<'a>>
    ensures { OnOk result (O.taken output.new ≡ O.taken output.old ++ ended_lines (attempts_texts attempts.now)) }
{
    write_line(alloc, &AttemptLine::Head, output)?;
    write_each(alloc, attempts, output)
}

fn write_each<'a, O: ScriptOut>(
    alloc: Global,
    mut attempts: &[Attempted],
    output: &mut O,
) -> Result<(), Fault<'a>>
    ensures { OnOk result (O.taken output.new ≡ O.taken output.old ++ ended_lines (map attempted_text attempts.entry.now)) }
{
    while let [attempted, rest @ ..] = attempts {
        let line = line_of(alloc, attempted)?;
        write_line(alloc, &line, output)?;
        attempts = rest;
    }
    Ok(())
}

/// Writes a line as compact JSON, with its LF.
fn write_line<O: ScriptOut>(
    alloc: Global,
    line: &AttemptLine,
    output: &mut O,
) -> Result<(), RunFault>
    ensures { OnOk result (O.taken output.new ≡ O.taken output.old ++ (attempt_text line.now ++ (10 ∷ []))) }
{
    let text = write_attempt(alloc, line)?;
    write_text_line(text.as_str(), output)
}

/// The line of an attempt.
fn line_of<'a>(alloc: Global, attempted: &Attempted) -> Result<AttemptLine, Fault<'a>>
    ensures { IfOk result (λ line. line ≡ printed_attempt (spec.end_shown attempted.now.end) attempted.now.attempt) }
{
    let end = end_shown(alloc, &attempted.end)?;
    Ok(line_of_attempt(alloc, end, &attempted.attempt)?)
}

/// What is shown of how it ended.
fn end_shown(alloc: Global, end: &End) -> Result<AttemptEnd, AllocError>
    ensures { IfOk result (λ shown. shown ≡ spec.end_shown end.now) }
{
    match end {
        End::Rollback => Ok(AttemptEnd::By(EndWord::Rollback)),
        End::Conflict(why) => Ok(AttemptEnd::Conflict(cause_text(alloc, why)?)),
        End::Connect => Ok(AttemptEnd::By(EndWord::Connect)),
        End::Script => Ok(AttemptEnd::By(EndWord::End)),
    }
}

fn cause_text(alloc: Global, why: &Cause) -> Result<Text, AllocError>
    ensures { IfOk result (λ text. text ≡ told_cause why.now) }
{
    let text = format!(in alloc; "{why}")?;
    Text::from_string(text)
}
