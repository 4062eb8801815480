//! The command that runs a script up to its first refusal.

ghost use Rattle.std.specs.Prelude.{◌≡◌, ◌++◌, ℕ, List, Option, option_map, IfOk, OnOk};
ghost use Rattle.std.specs.List.{All, flat_map};
ghost use Rattle.std.specs.Str.Lines.{lines};
ghost use Rattle.rls_check.specs.rls_audit.specs.Showing.{AreTexts};
ghost use Rattle.rls_check.specs.rls_audit.specs.rls_core.specs.Records.{Record};
ghost use Rattle.rls_session.specs.rls_script.specs.Streams.{GrewBy};
ghost use Rattle.rlsdb.specs.Answers.{IsAudited, IsWithAudit};
ghost use Rattle.rlsdb.specs.Tests.{AreAnsweredUntil, IsStopText};

use crate::answering::{Answered, answer_until_refused};
use crate::device::{DeviceIn, DeviceOut};
use crate::fault::Fault;
use crate::hinting::Hinted;
use crate::running::{require_own_audit, write_audit, write_book};
use crate::script_file::input_of;
use rls_command_line::ScriptFile;
use rls_session::Book;
use rls_session::rls_script::{Failed, RunFault, ScriptIn, ScriptOut, read_script, write_all};
use rls_transcript::{Told, split_lines};
use std::alloc::Global;
use std::fs::File;
use std::io::{Read, Write};
use std::sync::Wait;
use std::time::Clock;

/// Runs the script in the order of its lines, up to the first that is refused, and then writes its audit where one is wanted. Says
/// whether none was refused. The answers are written once the run has ended.
#[tactic(auto, using(crate::proofs::TestLemmas::stopped))]
pub fn run_stopping<'a, W, D>(
    rt: &HostRuntime,
    waits: &W,
    run: ScriptFile<'a>,
    output: &mut DeviceOut<D>,
) -> Result<bool, Fault<'a>>
where
    W: Wait + Clock,
    D: Write + Drop,
    ensures { IfOk result (λ done. GrewBy output.old.taken.bytes output.new.taken.bytes (λ written. (history : List Record) × (taken : Option (List ℕ)) × IsStopText run.entry.terse written history done × IsAudited run.entry.audit history taken)) }
{
    require_own_audit(rt, run)?;
    let (answered, done) = run_file(rt, waits, run)?;
    write_answers(answered.tolds.as_slice(), output)?;
    let audit = write_wanted(rt, run.audit, &answered.book)?;
    drop(audit);
    Ok(done)
}

/// The same, with the audit behind the answers.
pub fn run_stopping_with_audit<'a, W, D>(
    rt: &HostRuntime,
    waits: &W,
    run: ScriptFile<'a>,
    output: &mut DeviceOut<D>,
) -> Result<bool, Fault<'a>>
where
    W: Wait + Clock,
    D: Write + Drop,
    ensures { IfOk result (λ done. GrewBy output.old.taken.bytes output.new.taken.bytes (IsWithAudit (λ text history. IsStopText run.entry.terse text history done))) }
{
    let (answered, done) = run_file(rt, waits, run)?;
    write_answers(answered.tolds.as_slice(), output)?;
    let order = answered.book.order(rt.alloc())?;
    write_book(rt.alloc(), &answered.book, order, output)?;
    Ok(done)
}

/// Writes the answers, and gives them on.
fn write_answers<'a, D: Write + Drop>(
    tolds: &[Told],
    output: &mut DeviceOut<D>,
) -> Result<(), Fault<'a>>
    ensures { OnOk result (output.new.taken.bytes ≡ output.old.taken.bytes ++ flat_map (λ told. told.text) tolds.now) }
{
    let written = write_tolds(tolds, output);
    let finished = output.finish();
    written?;
    finished?;
    Ok(())
}

/// Writes the audit of the book where one is wanted.
#[tactic(auto, using(crate::proofs::AnswerLemmas::audit_taken, crate::proofs::AnswerLemmas::no_audit))]
pub(crate) fn write_wanted<'a>(
    rt: &HostRuntime,
    audit: Option<&'a str>,
    book: &Book,
) -> Result<Option<DeviceOut<File>>, Fault<'a>>
    requires { All AreTexts book.now.seen.committed }
    ensures { IfOk result (λ file. IsAudited audit.entry book.now.seen.committed (option_map (λ it. it.taken.bytes) file)) }
{
    match audit {
        Some(name) => Ok(Some(write_audit(rt, name, book)?)),
        None => Ok(None),
    }
}

/// Runs the script that is in the file, or the standard input.
fn run_file<'a, W: Wait + Clock>(
    rt: &HostRuntime,
    waits: &W,
    run: ScriptFile<'a>,
) -> Result<(Answered, bool), Fault<'a>>
    ensures answered { IfOk result (λ it. (script : List ℕ) × AreAnsweredUntil run.entry.terse (lines script) it.0.tolds.items it.0.book.seen.committed it.1) }
    ensures texts { IfOk result (λ it. All AreTexts it.0.book.seen.committed) }
{
    match run.file {
        "-" => run_from(rt, waits, run, rt.reader()),
        name => match File::open(rt, name) {
            Ok(file) => run_from(rt, waits, run, file),
            Err(error) => Err(Fault::of_script(name, error)),
        },
    }
}

/// Runs the script that the reader gives.
fn run_from<'a, W, R>(
    rt: &HostRuntime,
    waits: &W,
    run: ScriptFile<'a>,
    reader: R,
) -> Result<(Answered, bool), Fault<'a>>
where
    W: Wait + Clock,
    R: Read + Drop,
    ensures answered { IfOk result (λ it. (script : List ℕ) × AreAnsweredUntil run.entry.terse (lines script) it.0.tolds.items it.0.book.seen.committed it.1) }
    ensures texts { IfOk result (λ it. All AreTexts it.0.book.seen.committed) }
{
    let mut input = input_of(rt, run.file, reader)?;
    if run.hints {
        run_hinted(rt, waits, run, input)
    } else {
        match run_input(rt.alloc(), waits, run.terse, &mut input) {
            Ok(answered) => Ok(answered),
            Err(fault) => Err(Fault::Ended(fault).named(run.file, input.error())),
        }
    }
}

/// The same of the script that the device gives, and standard error is told of its lines that aren't taken.
fn run_hinted<'a, W, R>(
    rt: &HostRuntime,
    waits: &W,
    run: ScriptFile<'a>,
    input: DeviceIn<R>,
) -> Result<(Answered, bool), Fault<'a>>
where
    W: Wait + Clock,
    R: Read + Drop,
    ensures answered { IfOk result (λ it. (script : List ℕ) × AreAnsweredUntil run.entry.terse (lines script) it.0.tolds.items it.0.book.seen.committed it.1) }
    ensures texts { IfOk result (λ it. All AreTexts it.0.book.seen.committed) }
{
    let mut hinted = Hinted::new(rt, run.file, input);
    match run_input(rt.alloc(), waits, run.terse, &mut hinted) {
        Ok(answered) => Ok(answered),
        Err(fault) => Err(Fault::Ended(fault).named(run.file, hinted.error())),
    }
}

/// The same of the script that is given.
#[tactic(auto, using(crate::proofs::TestLemmas::of_script))]
fn run_input<W: Wait + Clock, I: ScriptIn>(
    alloc: Global,
    waits: &W,
    terse: bool,
    input: &mut I,
) -> Result<(Answered, bool), RunFault>
    ensures answered { IfOk result (λ it. (script : List ℕ) × AreAnsweredUntil terse (lines script) it.0.tolds.items it.0.book.seen.committed it.1) }
    ensures texts { IfOk result (λ it. All AreTexts it.0.book.seen.committed) }
{
    let script = read_script(alloc, input)?;
    let all = split_lines(alloc, script.as_slice())?;
    answer_until_refused(alloc, waits, terse, all.as_slice())
}

/// Writes the answers.
fn write_tolds<O: ScriptOut>(tolds: &[Told], output: &mut O) -> Result<(), RunFault>
    ensures { OnOk result (O.taken output.new ≡ O.taken output.old ++ flat_map (λ told. told.text) tolds.now) }
{
    let mut rest = tolds;
    while let [told, more @ ..] = rest {
        match write_all(told.text(), output) {
            Ok(()) => rest = more,
            Err(Failed) => return Err(RunFault::Write),
        }
    }
    Ok(())
}
