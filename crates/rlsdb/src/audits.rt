//! The commands about audits.

ghost use Rattle.std.specs.Prelude.{◌≡◌, ◌++◌, ◌∷◌, [], ℕ, nat_lt, true, false, ◌&&◌, List, length, map, is_some, IfOk, OnOk};
ghost use Rattle.std.specs.Io.Buffered.{writer_buffer};
ghost use Rattle.rls_check.specs.Checking.{IsFirst};
ghost use Rattle.rls_check.specs.Findings.{finding_text};
ghost use Rattle.rls_check.specs.Wholes.{HasConverted, HasRead, IsAuditOf};
ghost use Rattle.rls_check.specs.{LongTexts.long_text, WhyTexts.explanation_text};
ghost use Rattle.rls_session.specs.rls_script.specs.Streams.{GrewBy};
ghost use Rattle.rlsdb.specs.Answers.{AreChecked, IsCheckOfOne, checked_text, IsMigrationOf, IsOrderOf, IsWhyOf, lines_text, order_text, placed_if as spec_placed_if, why_text};
ghost use Rattle.rlsdb.specs.AuditLines.{Converted, Reads, ended_lines};
ghost use Rattle.rlsdb.specs.Faults.{IsToldOf, ended_fault, named_fault};

use crate::audit_file::{AuditIn, MAX_AUDIT, NextLine, write_text_line};
use crate::device::{DeviceIn, DeviceOut, Nowhere, Source};
use crate::fault::Fault;
use crate::missing::{Missing, missing_in};
use crate::out_file::OutFile;
use crate::progress::ProgressLine;
use crate::same_file::{require_apart, require_own};
use rls_check::{Audit, Converter, Finding, Placed, Reader, Why};
use rls_command_line::Explain;
use rls_session::rls_script::{Failed, RunFault, ScriptIn, ScriptOut, write_all};
use std::alloc::{AllocError, Global};
use std::fs;
use std::fs::File;
use std::io::Read;

/// Writes the numbers of the serial order, one a line.
#[tactic(auto, using(crate::proofs::AnswerLemmas::of_some))]
pub fn order<'a, O: ScriptOut>(
    rt: &HostRuntime,
    name: &'a str,
    output: &mut O,
) -> Result<(), Fault<'a>>
    ensures { OnOk result (GrewBy (O.taken output.old) (O.taken output.new) (λ written. (texts : List (List ℕ)) × IsOrderOf texts written)) }
{
    let mut input = audit_in(rt, name)?;
    match write_order(rt.alloc(), name, &mut input, output) {
        Ok(()) => Ok(()),
        Err(fault) => Err(told(fault, name, &input)),
    }
}

/// The same of the audit that is read.
#[tactic(auto, using(crate::proofs::AnswerLemmas::ordered))]
fn write_order<'a, I: ScriptIn + Drop, O: ScriptOut>(
    alloc: Global,
    name: &'a str,
    input: &mut AuditIn<I>,
    output: &mut O,
) -> Result<(), Fault<'a>>
    ensures { OnOk result (Reads (I.given input.old.input) (I.given input.new.input) (λ texts. GrewBy (O.taken output.old) (O.taken output.new) (IsOrderOf texts))) }
{
    let audit = read_audit(alloc, name, input)?;
    write_numbers(alloc, audit.order(), output)?;
    Ok(())
}

/// Writes numbers, one a line.
fn write_numbers<O: ScriptOut>(
    alloc: Global,
    mut numbers: &[u64],
    output: &mut O,
) -> Result<(), RunFault>
    ensures { OnOk result (O.taken output.new ≡ O.taken output.old ++ order_text numbers.entry.now) }
{
    while let [number, rest @ ..] = numbers {
        let text = format!(in alloc; "{number}")?;
        write_text_line(text.as_str(), output)?;
        numbers = rest;
    }
    Ok(())
}

/// Writes what is found first in each of the audits, and says whether all of them hold. Of several each has its name in front.
pub fn check_all<'a, O: ScriptOut>(
    rt: &HostRuntime,
    names: &[&'a str],
    progress: &mut ProgressLine<'_>,
    output: &mut O,
) -> Result<bool, Fault<'a>>
    ensures { IfOk result (λ hold. GrewBy (O.taken output.old) (O.taken output.new) (λ written. AreChecked (nat_lt 1 (length names.now)) (map (λ name. name.now) names.now) written hold)) }
{
    check_each(rt, names, names.len() > 1, progress, output)
}

/// The same, with names or without.
#[tactic(auto, using(crate::proofs::CheckLemmas::begins))]
fn check_each<'a, O: ScriptOut>(
    rt: &HostRuntime,
    names: &[&'a str],
    named: bool,
    progress: &mut ProgressLine<'_>,
    output: &mut O,
) -> Result<bool, Fault<'a>>
    ensures { IfOk result (λ hold. GrewBy (O.taken output.old) (O.taken output.new) (λ written. AreChecked named (map (λ name. name.now) names.now) written hold)) }
{
    let mut hold = true;
    let mut rest = names;
    while let [name, more @ ..] = rest {
        let holds = check(rt, *name, named, progress, output)?;
        hold = both_hold(hold, holds);
        rest = more;
    }
    Ok(hold)
}

fn both_hold(all: bool, one: bool) -> bool
    ensures { result ≡ (all && one) }
{
    all && one
}

/// Writes what is found first, and says whether the audit holds.
#[tactic(auto, using(crate::proofs::AnswerLemmas::of_some))]
fn check<'a, O: ScriptOut>(
    rt: &HostRuntime,
    name: &'a str,
    named: bool,
    progress: &mut ProgressLine<'_>,
    output: &mut O,
) -> Result<bool, Fault<'a>>
    ensures { IfOk result (λ holds. GrewBy (O.taken output.old) (O.taken output.new) (λ written. (texts : List (List ℕ)) × IsCheckOfOne named name.entry.now texts written holds)) }
{
    let mut input = one_audit_in(rt, name, named)?;
    match write_check(rt.alloc(), name, named, &mut input, progress, output) {
        Ok(holds) => Ok(holds),
        Err(fault) => Err(told(fault, name, &input)),
    }
}

/// The same of the audit that is read.
#[tactic(auto, using(crate::proofs::AnswerLemmas::checked))]
fn write_check<'a, I: ScriptIn + Drop, O: ScriptOut>(
    alloc: Global,
    name: &'a str,
    named: bool,
    input: &mut AuditIn<I>,
    progress: &mut ProgressLine<'_>,
    output: &mut O,
) -> Result<bool, Fault<'a>>
    ensures { IfOk result (λ holds. Reads (I.given input.old.input) (I.given input.new.input) (λ texts. GrewBy (O.taken output.old) (O.taken output.new) (λ written. IsCheckOfOne named name.entry.now texts written holds))) }
{
    let audit = read_audit(alloc, name, input)?;
    let finding = found_in(alloc, &audit, progress)?;
    drop(audit);
    write_finding(alloc, name, named, finding, output)?;
    Ok(is_yes(finding))
}

/// What is found first in the audit. Nothing of the progress is left to be seen then.
fn found_in(
    alloc: Global,
    audit: &Audit,
    progress: &mut ProgressLine<'_>,
) -> Result<Finding, AllocError>
    ensures found { IfOk result (IsFirst audit.now.transactions audit.now.order) }
    ensures wiped { progress.new.stands ≡ false }
{
    progress.begin("checked", audit.order().len());
    let found = audit.check_telling(alloc, progress);
    progress.wipe();
    found
}

/// Writes what is found.
fn write_finding<O: ScriptOut>(
    alloc: Global,
    name: &str,
    named: bool,
    finding: Finding,
    output: &mut O,
) -> Result<(), RunFault>
    ensures { OnOk result (O.taken output.new ≡ O.taken output.old ++ checked_text named name.now (finding_text finding ++ (10 ∷ []))) }
{
    if named {
        write_part(name, output)?;
        write_part(": ", output)?;
    }
    let text = format!(in alloc; "{finding}")?;
    write_text_line(text.as_str(), output)
}

fn write_part<O: ScriptOut>(text: &str, output: &mut O) -> Result<(), RunFault>
    ensures { OnOk result (O.taken output.new ≡ O.taken output.old ++ text.now) }
{
    match write_all(text.as_bytes(), output) {
        Ok(()) => Ok(()),
        Err(Failed) => Err(RunFault::Write),
    }
}

fn is_yes(finding: Finding) -> bool
    ensures { result ≡ Rattle.rlsdb.specs.Answers.is_yes finding }
{
    matches!(finding, Finding::Holds)
}

/// Writes why a statement did what it did, and says whether there is such a decision.
#[tactic(auto, using(crate::proofs::AnswerLemmas::of_some))]
pub fn explain<'a, O: ScriptOut>(
    rt: &HostRuntime,
    asked: Explain<'a>,
    output: &mut O,
) -> Result<bool, Fault<'a>>
    ensures { IfOk result (λ said. GrewBy (O.taken output.old) (O.taken output.new) (λ written. (texts : List (List ℕ)) × IsWhyOf asked.entry.txn asked.entry.statement asked.entry.row asked.entry.long texts written said)) }
{
    let mut input = audit_in(rt, asked.audit)?;
    match write_explained(rt.alloc(), &mut input, asked, output) {
        Ok((said, missing)) => {
            report_missing(rt, asked, missing);
            Ok(said)
        }
        Err(fault) => Err(told(fault, asked.audit, &input)),
    }
}

/// The same of the audit that is read, and what is missing where there is nothing to say.
#[tactic(auto, using(crate::proofs::AnswerLemmas::explained))]
fn write_explained<'a, I: ScriptIn + Drop, O: ScriptOut>(
    alloc: Global,
    input: &mut AuditIn<I>,
    asked: Explain<'a>,
    output: &mut O,
) -> Result<(bool, Option<Missing>), Fault<'a>>
    ensures { IfOk result (λ it. Reads (I.given input.old.input) (I.given input.new.input) (λ texts. GrewBy (O.taken output.old) (O.taken output.new) (λ written. IsWhyOf asked.entry.txn asked.entry.statement asked.entry.row asked.entry.long texts written it.0))) }
{
    let audit = read_audit(alloc, asked.audit, input)?;
    let placed = placed_if(alloc, &audit, asked)?;
    let why = audit.explain(alloc, asked.txn, asked.statement, asked.row, asked.long)?;
    let missing = match &why {
        Some(_) => None,
        None => Some(missing_in(alloc, &audit, asked.txn, asked.statement)),
    };
    drop(audit);
    let said = write_why(alloc, why, placed, output)?;
    Ok((said, missing))
}

/// Where the transaction stands, if that is to be told.
fn placed_if<'a>(
    alloc: Global,
    audit: &Audit,
    asked: Explain<'a>,
) -> Result<Option<Placed>, AllocError>
    ensures { IfOk result (λ placed. placed ≡ spec_placed_if asked.entry.long audit.now asked.entry.txn) }
{
    if asked.long {
        audit.placed(alloc, asked.txn)
    } else {
        Ok(None)
    }
}

/// Tells standard error what is missing.
fn report_missing(rt: &HostRuntime, asked: Explain<'_>, missing: Option<Missing>) {
    let Explain {
        audit,
        txn,
        statement,
        row,
        long: _,
    } = asked;
    match (missing, row) {
        (Some(Missing::Txn), _) => {
            let _ = eprintln!(rt; "rlsdb: {audit}: no transaction {txn} in its order");
        }
        (Some(Missing::Statement), _) => {
            let _ = eprintln!(rt;
                "rlsdb: {audit}: transaction {txn} has no statement {statement}, or the order is none"
            );
        }
        (Some(Missing::Row), Some(row)) => {
            let _ = eprintln!(rt; "rlsdb: {audit}: no decision on row {row}");
        }
        _ => {}
    }
}

/// Writes why, or that there is nothing to say, and says whether there is.
fn write_why<O: ScriptOut>(
    alloc: Global,
    why: Option<Why>,
    placed: Option<Placed>,
    output: &mut O,
) -> Result<bool, RunFault>
    ensures text { OnOk result (O.taken output.new ≡ O.taken output.old ++ why_text why placed) }
    ensures said { IfOk result (λ said. said ≡ is_some why) }
{
    match why {
        Some(why) => {
            write_lines(alloc, why, placed, output)?;
            Ok(true)
        }
        None => {
            drop(placed);
            write_text_line("no such decision", output)?;
            Ok(false)
        }
    }
}

/// The lines: at length where it is known where the transaction stands.
fn write_lines<O: ScriptOut>(
    alloc: Global,
    why: Why,
    placed: Option<Placed>,
    output: &mut O,
) -> Result<(), RunFault>
    ensures { OnOk result (O.taken output.new ≡ O.taken output.old ++ lines_text why placed) }
{
    match placed {
        Some(placed) => write_long_lines(alloc, why, placed, output),
        None => write_short_lines(alloc, why, output),
    }
}

fn write_short_lines<O: ScriptOut>(alloc: Global, why: Why, output: &mut O) -> Result<(), RunFault>
    ensures { OnOk result (O.taken output.new ≡ O.taken output.old ++ explanation_text why) }
{
    let lines = why.lines(alloc);
    drop(why);
    let lines = lines?;
    match write_all(lines.as_bytes(), output) {
        Ok(()) => Ok(()),
        Err(Failed) => Err(RunFault::Write),
    }
}

fn write_long_lines<O: ScriptOut>(
    alloc: Global,
    why: Why,
    placed: Placed,
    output: &mut O,
) -> Result<(), RunFault>
    ensures { OnOk result (O.taken output.new ≡ O.taken output.old ++ long_text why placed) }
{
    let lines = why.long_lines(alloc, &placed);
    drop(why);
    drop(placed);
    let lines = lines?;
    match write_all(lines.as_slice(), output) {
        Ok(()) => Ok(()),
        Err(Failed) => Err(RunFault::Write),
    }
}

/// Writes the audit again in the second format. It is read twice, so that the second file is opened only where the first one is
/// an audit, and neither stands whole in memory. The file that took it is given back, and has its place.
#[tactic(auto, using(crate::proofs::AnswerLemmas::migrated_whole))]
pub fn migrate<'a>(
    rt: &HostRuntime,
    from: &'a str,
    to: &'a str,
) -> Result<DeviceOut<File>, Fault<'a>>
    ensures audit { IfOk result (λ file. (texts : List (List ℕ)) × IsMigrationOf texts file.taken.bytes) }
    ensures emptied { IfOk result (λ file. writer_buffer file.writer ≡ []) }
{
    require_own(rt, from, "AUDIT", to)?;
    require_file(rt, from)?;
    convert_file(rt, from, &mut Nowhere::new())?;
    let mut file = OutFile::open(rt, to)?;
    match convert_file(rt, from, &mut file.output) {
        Ok(()) => file.put(rt),
        Err(fault) => {
            let error = file.output.error();
            file.discard(rt);
            Err(fault.unwritten(to, error))
        }
    }
}

/// Writes the audit again in the second format, as an answer.
pub fn migrate_out<'a, O: ScriptOut>(
    rt: &HostRuntime,
    from: &'a str,
    output: &mut O,
) -> Result<(), Fault<'a>>
    ensures { OnOk result (GrewBy (O.taken output.old) (O.taken output.new) (λ written. (texts : List (List ℕ)) × IsMigrationOf texts written)) }
{
    require_apart(rt, from, "AUDIT")?;
    require_file(rt, from)?;
    convert_file(rt, from, &mut Nowhere::new())?;
    convert_file(rt, from, output)
}

/// That the audit is a regular file, which can be read twice.
fn require_file<'a>(rt: &HostRuntime, name: &'a str) -> Result<(), Fault<'a>> {
    let metadata = fs::metadata(rt, name).map_err(|error| Fault::of_audit(name, false, error))?;
    if metadata.is_file() {
        Ok(())
    } else {
        Err(Fault::NoFile(name))
    }
}

/// Writes the audit of that name in the second format.
#[tactic(auto, using(crate::proofs::AnswerLemmas::of_some))]
fn convert_file<'a, O: ScriptOut>(
    rt: &HostRuntime,
    name: &'a str,
    output: &mut O,
) -> Result<(), Fault<'a>>
    ensures { OnOk result (GrewBy (O.taken output.old) (O.taken output.new) (λ written. (texts : List (List ℕ)) × IsMigrationOf texts written)) }
{
    let mut input = audit_in(rt, name)?;
    match convert(rt.alloc(), name, &mut input, output) {
        Ok(()) => Ok(()),
        Err(fault) => Err(told(fault, name, &input)),
    }
}

/// The audit in the file of that name, or on the standard input.
pub fn audit_in<'a>(
    rt: &HostRuntime,
    name: &'a str,
) -> Result<AuditIn<DeviceIn<Source>>, Fault<'a>> {
    one_audit_in(rt, name, false)
}

/// The same of an audit alone, or of one of several.
fn one_audit_in<'a>(
    rt: &HostRuntime,
    name: &'a str,
    of_several: bool,
) -> Result<AuditIn<DeviceIn<Source>>, Fault<'a>> {
    let source = match name {
        "-" => Source::Typed(rt.reader()),
        name => Source::File(audit_file(rt, name, of_several)?),
    };
    match DeviceIn::new(rt.alloc(), source) {
        Ok(input) => Ok(AuditIn::new(input)),
        Err(_) => Err(Fault::Ended(RunFault::NoMemory)),
    }
}

/// The audit file of that name.
// A file that is too long is not read for it: its first line may be as long.
fn audit_file<'a>(rt: &HostRuntime, name: &'a str, of_several: bool) -> Result<File, Fault<'a>> {
    let file = File::open(rt, name).map_err(|error| Fault::of_audit(name, of_several, error))?;
    let metadata = file
        .metadata()
        .map_err(|error| Fault::of_script(name, error))?;
    if metadata.len() > MAX_AUDIT {
        return Err(Fault::Ended(RunFault::Read));
    }
    Ok(file)
}

/// The fault, and of an audit that can't be read, or has no last line, which it is.
pub fn told<'a, R: Read + Drop>(
    fault: Fault<'a>,
    name: &'a str,
    input: &AuditIn<DeviceIn<R>>,
) -> Fault<'a>
    ensures { result ≡ named_fault name.entry input.now.input.error (ended_fault name.entry fault.entry) }
{
    fault.of_end(name).named(name, input.error())
}

/// The audit that is read. Where a line is bad the rest is read too: that it can't be read would come first.
pub fn read_audit<'a, I: ScriptIn + Drop>(
    alloc: Global,
    name: &'a str,
    input: &mut AuditIn<I>,
) -> Result<Audit, Fault<'a>>
    ensures { IfOk result (λ audit. Reads (I.given input.old.input) (I.given input.new.input) (λ texts. IsAuditOf texts audit)) }
{
    let mut line = Vec::new(alloc);
    match read_lines(alloc, input, &mut line) {
        Ok(reader) => Ok(reader.finish()?),
        Err(fault) => Err(first_of(input, fault).of_line(alloc, name, line.as_slice())),
    }
}

/// Reads the lines to the end. The last one that was read stays in `line`.
fn read_lines<'a, I: ScriptIn + Drop>(
    alloc: Global,
    input: &mut AuditIn<I>,
    line: &mut Vec<u8>,
) -> Result<Reader, Fault<'a>>
    ensures lines { IfOk result (λ reader. Reads (I.given input.old.input) (I.given input.new.input) (λ texts. HasRead texts reader)) }
    ensures ended { OnOk result (I.ended input.new.input ≡ true) }
{
    let mut reader = Reader::new(alloc);
    for _ in 0..=MAX_AUDIT {
        match input.next_line(line)? {
            NextLine::Whole => reader = reader.line(alloc, line.as_slice())?,
            NextLine::Last => return Ok(reader.line(alloc, line.as_slice())?),
            NextLine::End => return Ok(reader),
        }
    }
    Err(Fault::Ended(RunFault::Read))
}

/// Writes the audit that is read in the second format.
#[tactic(auto, using(crate::proofs::AnswerLemmas::migration))]
fn convert<'a, I: ScriptIn + Drop, O: ScriptOut>(
    alloc: Global,
    name: &'a str,
    input: &mut AuditIn<I>,
    output: &mut O,
) -> Result<(), Fault<'a>>
    ensures { OnOk result (Reads (I.given input.old.input) (I.given input.new.input) (λ texts. GrewBy (O.taken output.old) (O.taken output.new) (IsMigrationOf texts))) }
{
    let mut line = Vec::new(alloc);
    match convert_lines(alloc, input, &mut line, output) {
        Ok(converter) => Ok(converter.finish()?),
        Err(fault) => Err(first_of(input, fault).of_line(alloc, name, line.as_slice())),
    }
}

/// Writes the lines that are read, to the end. The last one that was read stays in `line`.
fn convert_lines<'a, I: ScriptIn + Drop, O: ScriptOut>(
    alloc: Global,
    input: &mut AuditIn<I>,
    line: &mut Vec<u8>,
    output: &mut O,
) -> Result<Converter, Fault<'a>>
    ensures lines { IfOk result (λ converter. Reads (I.given input.old.input) (I.given input.new.input) (λ texts. (written : List (List ℕ)) × (O.taken output.new ≡ O.taken output.old ++ ended_lines written) × HasConverted texts written converter)) }
    ensures ended { OnOk result (I.ended input.new.input ≡ true) }
{
    let mut converter = Converter::new(alloc);
    for _ in 0..=MAX_AUDIT {
        match input.next_line(line)? {
            NextLine::Whole => {
                converter = convert_line(alloc, converter, line.as_slice(), output)?;
            }
            NextLine::Last => {
                return Ok(convert_line(alloc, converter, line.as_slice(), output)?);
            }
            NextLine::End => return Ok(converter),
        }
    }
    Err(Fault::Ended(RunFault::Read))
}

/// Writes one line that is read.
fn convert_line<'a, O: ScriptOut>(
    alloc: Global,
    converter: Converter,
    line: &[u8],
    output: &mut O,
) -> Result<Converter, Fault<'a>>
    ensures { (texts written : List (List ℕ)) → HasConverted texts written converter → IfOk result (λ behind. Converted texts written line.now (O.taken output.old) (O.taken output.new) behind) }
{
    let (behind, text) = converter.line(alloc, line)?;
    write_text_line(text.as_str(), output)?;
    Ok(behind)
}

/// The fault, or that the rest can't be read where a line is bad.
pub(crate) fn first_of<'a, I: ScriptIn + Drop>(
    input: &mut AuditIn<I>,
    fault: Fault<'a>,
) -> Fault<'a>
    ensures { IsToldOf fault.entry (I.ended input.new.input) result }
{
    match fault {
        Fault::BadLine(line) => match input.read_on() {
            Ok(()) => Fault::BadLine(line),
            Err(unread) => Fault::Ended(unread),
        },
        fault => fault,
    }
}
