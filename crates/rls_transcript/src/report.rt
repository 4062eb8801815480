//! What a transcript's test tells.

ghost use Rattle.std.specs.Prelude.{◌≡◌, ◌+◌, ◌++◌, ◌∷◌, [], ◌<◌, ◌≤◌, true, length, drop, map, OnErr, OnOk, IfOk};
ghost use Rattle.std.specs.List.{flat_map};
ghost use Rattle.rls_transcript.specs.Reports.{IsReport, Reports, ReportsLine, failure_text, step_text, tally_text};
ghost use Rattle.rls_script.specs.Streams.{GrewBy};
ghost use Rattle.rls_transcript.specs.Transcripts.{is_command};

use crate::difference::{Step, difference_of};
use crate::told::Told;
use crate::transcript::{answers_behind, command_in, indent_of, passes};
use rls_script::{Failed, RunFault, ScriptOut, write_all};
use std::alloc::Global;

/// How many commands of a transcript passed, and how many didn't.
#[derive(Clone, Copy)]
struct Tally {
    passed: u64,
    failed: u64,
}

/// Writes what is told of a transcript of that name, whose lines are answered so: each command that is answered otherwise than is
/// expected, with its place and the difference, and how many passed. Gives how many didn't.
#[tactic(auto, using(crate::proofs::ReportLemmas::whole))]
pub fn write_report<'a, O: ScriptOut>(
    alloc: Global,
    name: &'a str,
    lines: &'a [&'a [u8]],
    tolds: &[Told],
    output: &mut O,
) -> Result<u64, RunFault>
    requires { length tolds.now ≡ length lines.now }
    ensures { IfOk result (λ failed. GrewBy (O.taken output.old) (O.taken output.new) (IsReport name.now (map (λ line. line.now) lines.now) tolds.now failed)) }
{
    let indent = indent_of(lines);
    let tally = report_lines(alloc, name, indent, lines, tolds, output)?;
    write_tally(alloc, name, tally, output)?;
    Ok(tally.failed)
}

/// Writes each command that is answered otherwise, and counts them all.
#[tactic(auto, using(crate::proofs::ReportLemmas::begins))]
fn report_lines<'a, O: ScriptOut>(
    alloc: Global,
    name: &'a str,
    indent: usize,
    lines: &'a [&'a [u8]],
    tolds: &[Told],
    output: &mut O,
) -> Result<Tally, RunFault>
    requires { length tolds.now ≡ length lines.now }
    ensures { IfOk result (λ tally. GrewBy (O.taken output.old) (O.taken output.new) (λ written. Reports name.now indent 1 (map (λ line. line.now) lines.now) tolds.now written tally.passed tally.failed)) }
{
    let mut passed = 0;
    let mut failed = 0;
    let mut rest = lines;
    let mut answers = tolds;
    while let [line, behind @ ..] = rest {
        let [told, others @ ..] = answers else {
            return Ok(Tally { passed, failed });
        };
        let place = Place {
            name,
            indent,
            number: (lines.len() - behind.len()) as u64,
            line: *line,
            behind,
        };
        let tally = report_line(alloc, place, told, output)?;
        passed += tally.passed;
        failed += tally.failed;
        rest = behind;
        answers = others;
    }
    Ok(Tally { passed, failed })
}

/// A line of a transcript: the transcript's name and indent, the line's number from 1, and the lines behind it.
#[derive(Clone, Copy)]
struct Place<'a> {
    name: &'a str,
    indent: usize,
    number: u64,
    line: &'a [u8],
    behind: &'a [&'a [u8]],
}

/// Writes the line where it is a command that is answered otherwise than is expected, and counts it where it is a command.
fn report_line<O: ScriptOut>(
    alloc: Global,
    place: Place<'_>,
    told: &Told,
    output: &mut O,
) -> Result<Tally, RunFault>
    ensures line { IfOk result (λ tally. GrewBy (O.taken output.old) (O.taken output.new) (λ written. ReportsLine place.entry.name.now place.entry.indent place.entry.number place.entry.line.now (map (λ line. line.now) place.entry.behind.now) told.now written tally.passed tally.failed)) }
    ensures one { IfOk result (λ tally. tally.passed + tally.failed ≤ 1) }
{
    match command_in(place.indent, place.line) {
        None => Ok(Tally {
            passed: 0,
            failed: 0,
        }),
        Some(command) => report_command(alloc, place, command, told, output),
    }
}

/// The same of a command.
fn report_command<O: ScriptOut>(
    alloc: Global,
    place: Place<'_>,
    command: &[u8],
    told: &Told,
    output: &mut O,
) -> Result<Tally, RunFault>
    requires command { is_command place.indent place.line.now ≡ true }
    requires text { command.now ≡ drop place.indent place.line.now }
    ensures line { IfOk result (λ tally. GrewBy (O.taken output.old) (O.taken output.new) (λ written. ReportsLine place.entry.name.now place.entry.indent place.entry.number place.entry.line.now (map (λ line. line.now) place.entry.behind.now) told.now written tally.passed tally.failed)) }
    ensures one { IfOk result (λ tally. tally.passed + tally.failed ≤ 1) }
{
    let expected = answers_behind(alloc, place.indent, place.behind)?;
    let answered = told.lines(alloc)?;
    if passes(expected.as_slice(), told, answered.as_slice()) {
        return Ok(Tally {
            passed: 1,
            failed: 0,
        });
    }
    let steps = difference_of(alloc, expected.as_slice(), answered.as_slice())?;
    write_failure(alloc, place, command, steps.as_slice(), output)?;
    Ok(Tally {
        passed: 0,
        failed: 1,
    })
}

fn write_failure<O: ScriptOut>(
    alloc: Global,
    place: Place<'_>,
    command: &[u8],
    steps: &[Step<'_>],
    output: &mut O,
) -> Result<(), RunFault>
    ensures { OnOk result (O.taken output.new ≡ O.taken output.old ++ failure_text place.entry.name.now place.entry.number command.now steps.now) }
{
    let (name, number) = (place.name, place.number);
    let head = format!(in alloc; "{name}:{number}: ")?;
    write(head.as_bytes(), output)?;
    write(command, output)?;
    write(b"\n", output)?;
    write_steps(steps, output)
}

fn write_steps<O: ScriptOut>(steps: &[Step<'_>], output: &mut O) -> Result<(), RunFault>
    ensures { OnOk result (O.taken output.new ≡ O.taken output.old ++ flat_map step_text steps.now) }
{
    let mut rest = steps;
    while let [step, more @ ..] = rest {
        write_step(*step, output)?;
        rest = more;
    }
    Ok(())
}

fn write_step<O: ScriptOut>(step: Step<'_>, output: &mut O) -> Result<(), RunFault>
    ensures { OnOk result (O.taken output.new ≡ O.taken output.old ++ step_text step.entry) }
{
    match step {
        Step::Both(line) => write_marked(b" ", line, output),
        Step::Expected(line) => write_marked(b"-", line, output),
        Step::Answered(line) => write_marked(b"+", line, output),
    }
}

fn write_marked<O: ScriptOut>(mark: &[u8], line: &[u8], output: &mut O) -> Result<(), RunFault>
    ensures { OnOk result (O.taken output.new ≡ O.taken output.old ++ (mark.now ++ (line.now ++ (10 ∷ [])))) }
{
    write(mark, output)?;
    write(line, output)?;
    write(b"\n", output)
}

fn write_tally<O: ScriptOut>(
    alloc: Global,
    name: &str,
    tally: Tally,
    output: &mut O,
) -> Result<(), RunFault>
    ensures { OnOk result (O.taken output.new ≡ O.taken output.old ++ tally_text name.now tally.passed tally.failed) }
{
    let Tally { passed, failed } = tally;
    let text = format!(in alloc; "{name}: {passed} passed, {failed} failed\n")?;
    write(text.as_bytes(), output)
}

fn write<O: ScriptOut>(bytes: &[u8], output: &mut O) -> Result<(), RunFault>
    ensures ok { OnOk result (O.taken output.new ≡ O.taken output.old ++ bytes.now) }
    ensures failed { OnErr result (O.failures output.old < O.failures output.new) }
{
    match write_all(bytes, output) {
        Ok(()) => Ok(()),
        Err(Failed) => Err(RunFault::Write),
    }
}
