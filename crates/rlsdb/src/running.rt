//! The command that runs a script.

ghost use Rattle.std.specs.Prelude.{◌≡◌, ◌⊎◌, ◌+◌, ◌<◌, ◌++◌, [], List, length, map, option_map, true, IfOk, OnOk, IsErrOf};
ghost use Rattle.std.specs.List.{All};
ghost use Rattle.std.specs.Io.Buffered.{writer_buffer};
ghost use Rattle.rls_check.specs.rls_audit.specs.Showing.{AreTexts};
ghost use Rattle.rls_check.specs.rls_audit.specs.rls_core.specs.Calls.{IsOrderBy};
ghost use Rattle.rls_check.specs.rls_audit.specs.rls_core.specs.Records.{Record};
ghost use Rattle.rls_session.specs.rls_script.specs.Streams.{GrewBy};
ghost use Rattle.rls_session.specs.Parts.{tried_by};
ghost use Rattle.rlsdb.specs.Answers.{IsAudited, IsKeptText, IsRunText, IsWithAudit, RunsGivenKeeping};
ghost use Rattle.rlsdb.specs.AuditLines.{WritesAudit, WritesRecords};

use crate::audit_file::write_audit_line;
use crate::device::{DeviceIn, DeviceOut};
use crate::fault::Fault;
use crate::hinting::Hinted;
use crate::out_file::OutFile;
use crate::same_file::{STANDARD_INPUT, require_own};
use crate::script_file::input_of;
use rls_check::rls_audit::{Line, line_of_record, written_lines_mean};
use rls_check::rls_guard::rls_catalog::rls_value::Items;
use rls_command_line::ScriptFile;
use rls_laws::records_are_texts;
use rls_session::rls_script::{MAX_SCRIPT, RunFault, ScriptIn, ScriptOut};
use rls_session::{Book, NoGate, Ran, run_script_keeping, run_threads_keeping};
use std::alloc::Global;
use std::fs::File;
use std::io::{Read, Write};
use std::mem;
use std::sync::Wait;
use std::thread::Threads;
use std::time::Clock;

/// Runs the script, and then writes its audit where one is wanted. The file that took it is given back.
#[tactic(auto, using(crate::proofs::AnswerLemmas::audited, crate::proofs::AnswerLemmas::unaudited))]
pub fn run<'a, W, D>(
    rt: &HostRuntime,
    waits: &W,
    run: ScriptFile<'a>,
    output: &mut DeviceOut<D>,
) -> Result<Option<DeviceOut<File>>, Fault<'a>>
where
    W: Threads + Wait + Clock + Sync,
    D: Write + Drop,
    ensures { IfOk result (λ audit. GrewBy output.old.taken.bytes output.new.taken.bytes (λ written. (history : List Record) × IsRunText run.entry.threads run.entry.terse written history × IsAudited run.entry.audit history (option_map (λ file. file.taken.bytes) audit))) }
{
    require_own_audit(rt, run)?;
    let book = run_file(rt, waits, run, output)?;
    match run.audit {
        Some(name) => {
            let audit = write_audit(rt, name, &book)?;
            leave(book);
            Ok(Some(audit))
        }
        None => {
            leave(book);
            Ok(None)
        }
    }
}

/// Leaves the book as it is: the process ends soon, and with it goes its memory, which needn't be given back piece by piece.
fn leave(book: Book) {
    mem::forget(book);
}

/// Runs the script, and writes its audit behind the answers.
pub fn run_with_audit<'a, W, D>(
    rt: &HostRuntime,
    waits: &W,
    run: ScriptFile<'a>,
    output: &mut DeviceOut<D>,
) -> Result<(), Fault<'a>>
where
    W: Threads + Wait + Clock + Sync,
    D: Write + Drop,
    ensures { OnOk result (GrewBy output.old.taken.bytes output.new.taken.bytes (IsWithAudit (IsRunText run.entry.threads run.entry.terse))) }
{
    let book = run_file(rt, waits, run, output)?;
    let order = book.order(rt.alloc())?;
    write_book(rt.alloc(), &book, order, output)?;
    Ok(())
}

/// That the audit's file is its own.
pub(crate) fn require_own_audit<'a>(
    rt: &HostRuntime,
    run: ScriptFile<'a>,
) -> Result<(), Fault<'a>> {
    match (run.audit, run.file) {
        (None, _) => Ok(()),
        (Some(out), "-") => require_own(rt, STANDARD_INPUT, "standard input", out),
        (Some(out), file) => require_own(rt, file, "FILE", out),
    }
}

/// Runs the script that is in the file, or the standard input.
fn run_file<'a, W, D>(
    rt: &HostRuntime,
    waits: &W,
    run: ScriptFile<'a>,
    output: &mut DeviceOut<D>,
) -> Result<Book, Fault<'a>>
where
    W: Threads + Wait + Clock + Sync,
    D: Write + Drop,
    ensures text { IfOk result (λ book. GrewBy output.old.taken.bytes output.new.taken.bytes (λ written. IsRunText run.entry.threads run.entry.terse written book.seen.committed)) }
    ensures texts { IfOk result (λ book. All AreTexts book.seen.committed) }
{
    let Ran { book, attempts } = run_kept(rt, waits, run, false, output)?;
    drop(attempts);
    Ok(book)
}

/// Runs the script that is in the file, or the standard input. Transactions that end without a commit are kept, if that is wanted.
pub(crate) fn run_kept<'a, W, D>(
    rt: &HostRuntime,
    waits: &W,
    run: ScriptFile<'a>,
    keeps: bool,
    output: &mut DeviceOut<D>,
) -> Result<Ran, Fault<'a>>
where
    W: Threads + Wait + Clock + Sync,
    D: Write + Drop,
    ensures text { IfOk result (λ ran. GrewBy output.old.taken.bytes output.new.taken.bytes (λ written. IsKeptText run.entry.threads run.entry.terse keeps written ran.book.seen.committed (map tried_by ran.attempts.items))) }
    ensures texts { IfOk result (λ ran. All AreTexts ran.book.seen.committed) }
{
    match run.file {
        "-" => Ok(run_from(rt, waits, run, keeps, rt.reader(), output)?),
        name => match File::open(rt, name) {
            Ok(file) => Ok(run_from(rt, waits, run, keeps, file, output)?),
            Err(error) => Err(Fault::of_script(name, error)),
        },
    }
}

/// Runs the script that the reader gives, and writes all of its answers.
fn run_from<'a, W, R, D>(
    rt: &HostRuntime,
    waits: &W,
    run: ScriptFile<'a>,
    keeps: bool,
    reader: R,
    output: &mut DeviceOut<D>,
) -> Result<Ran, Fault<'a>>
where
    W: Threads + Wait + Clock + Sync,
    R: Read + Drop,
    D: Write + Drop,
    ensures text { IfOk result (λ ran. GrewBy output.old.taken.bytes output.new.taken.bytes (λ written. IsKeptText run.entry.threads run.entry.terse keeps written ran.book.seen.committed (map tried_by ran.attempts.items))) }
    ensures texts { IfOk result (λ ran. All AreTexts ran.book.seen.committed) }
    ensures emptied { OnOk result (writer_buffer output.new.writer ≡ []) }
{
    let mut input = input_of(rt, run.file, reader)?;
    if run.hints {
        run_hinted(rt, waits, run, keeps, input, output)
    } else {
        match run_input(rt.alloc(), waits, run, keeps, &mut input, output) {
            Ok(ran) => Ok(ran),
            Err(fault) => Err(fault.named(run.file, input.error())),
        }
    }
}

/// The same of the script that the device gives, and standard error is told of its lines that aren't taken.
fn run_hinted<'a, W, R, D>(
    rt: &HostRuntime,
    waits: &W,
    run: ScriptFile<'a>,
    keeps: bool,
    input: DeviceIn<R>,
    output: &mut DeviceOut<D>,
) -> Result<Ran, Fault<'a>>
where
    W: Threads + Wait + Clock + Sync,
    R: Read + Drop,
    D: Write + Drop,
    ensures text { IfOk result (λ ran. GrewBy output.old.taken.bytes output.new.taken.bytes (λ written. IsKeptText run.entry.threads run.entry.terse keeps written ran.book.seen.committed (map tried_by ran.attempts.items))) }
    ensures texts { IfOk result (λ ran. All AreTexts ran.book.seen.committed) }
    ensures emptied { OnOk result (writer_buffer output.new.writer ≡ []) }
{
    let mut hinted = Hinted::new(rt, run.file, input);
    let ran = run_on(rt.alloc(), waits, run, keeps, &mut hinted, output);
    let error = hinted.error();
    let finished = output.finish();
    let ran = match ran {
        Ok(ran) => ran,
        Err(fault) => {
            return Err(Fault::Ended(fault).named(run.file, error));
        }
    };
    finished?;
    Ok(ran)
}

/// The same of the script that is given.
fn run_input<'a, W, I, D>(
    alloc: Global,
    waits: &W,
    run: ScriptFile<'a>,
    keeps: bool,
    input: &mut I,
    output: &mut DeviceOut<D>,
) -> Result<Ran, Fault<'a>>
where
    W: Threads + Wait + Clock + Sync,
    I: ScriptIn,
    D: Write + Drop,
    ensures text { IfOk result (λ ran. GrewBy output.old.taken.bytes output.new.taken.bytes (λ written. IsKeptText run.entry.threads run.entry.terse keeps written ran.book.seen.committed (map tried_by ran.attempts.items))) }
    ensures texts { IfOk result (λ ran. All AreTexts ran.book.seen.committed) }
    ensures emptied { OnOk result (writer_buffer output.new.writer ≡ []) }
{
    let ran = run_on(alloc, waits, run, keeps, input, output);
    let finished = output.finish();
    let ran = ran?;
    finished?;
    Ok(ran)
}

/// Runs the script that is given, in phases or in the order of its lines. What is written is its text, and the book has the records
/// of the transactions that this shows as committed; texts spell what they have, since some order explains them.
#[tactic(auto, using(crate::proofs::BookLemmas::kept_texts_of))]
fn run_on<W, I, O>(
    alloc: Global,
    waits: &W,
    run: ScriptFile<'_>,
    keeps: bool,
    input: &mut I,
    output: &mut O,
) -> Result<Ran, RunFault>
where
    W: Threads + Wait + Clock + Sync,
    I: ScriptIn,
    O: ScriptOut,
    ensures text { IfOk result (λ ran. RunsGivenKeeping run.entry.threads run.entry.terse keeps (I.given input.old) (I.given input.new) (O.taken output.old) (O.taken output.new) ran.book.seen.committed (map tried_by ran.attempts.items)) }
    ensures texts { IfOk result (λ ran. All AreTexts ran.book.seen.committed) }
    ensures ended { OnOk result (I.ended input.new ≡ true) }
    ensures read { IsErrOf result RunFault.Read → (I.failures input.old < I.failures input.new) ⊎ (length (I.given input.old) + MAX_SCRIPT < length (I.given input.new)) }
    ensures write { IsErrOf result RunFault.Write → O.failures output.old < O.failures output.new }
{
    records_are_texts();
    if run.threads {
        run_threads_keeping(waits, alloc, run.terse, keeps, input, output, &NoGate)
    } else {
        run_script_keeping(waits, alloc, run.terse, keeps, input, output)
    }
}

/// Writes the audit of the book. The file is opened once the order is found.
#[tactic(auto, using(crate::proofs::AnswerLemmas::audit_whole))]
pub(crate) fn write_audit<'a>(
    rt: &HostRuntime,
    name: &'a str,
    book: &Book,
) -> Result<DeviceOut<File>, Fault<'a>>
    requires { All AreTexts book.now.seen.committed }
    ensures audit { IfOk result (λ file. WritesAudit book.now.seen.committed [] file.taken.bytes) }
    ensures emptied { IfOk result (λ file. writer_buffer file.writer ≡ []) }
{
    let order = book.order(rt.alloc())?;
    let mut file = OutFile::open(rt, name)?;
    match write_book(rt.alloc(), book, order, &mut file.output) {
        Ok(()) => file.put(rt),
        Err(fault) => {
            let error = file.output.error();
            file.discard(rt);
            Err(fault.unwritten(name, error))
        }
    }
}

/// Writes the head, the records in the order of their commits, and the end with the numbers of the book's order: byte by byte the
/// texts of these lines (`texts_of` of `rls_audit`). They mean just the records and the order, since texts spell the records.
pub(crate) fn write_book<'a, O: ScriptOut>(
    alloc: Global,
    book: &Book,
    order: Vec<u64>,
    output: &mut O,
) -> Result<(), Fault<'a>>
    requires texts { All AreTexts book.now.seen.committed }
    requires order { IsOrderBy book.now.seen.committed order.items }
    ensures { OnOk result (WritesAudit book.now.seen.committed (O.taken output.old) (O.taken output.new)) }
{
    written_lines_mean();
    write_audit_line(alloc, &Line::Head, output)?;
    write_records(alloc, book, output)?;
    let end = Line::End(book.records().len() as u64, Items::from_vec(order));
    write_audit_line(alloc, &end, output)?;
    Ok(())
}

/// Writes the records.
fn write_records<'a, O: ScriptOut>(
    alloc: Global,
    book: &Book,
    output: &mut O,
) -> Result<(), Fault<'a>>
    ensures { OnOk result (All AreTexts book.now.seen.committed → WritesRecords 1 book.now.seen.committed (O.taken output.old) (O.taken output.new)) }
{
    written_lines_mean();
    let records = book.records();
    for (place, record) in records.iter().enumerate() {
        let line = line_of_record(alloc, place as u64 + 1, record)?;
        write_audit_line(alloc, &line, output)?;
    }
    Ok(())
}
