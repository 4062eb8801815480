//! The command that tests transcripts.

ghost use Rattle.std.specs.Prelude.{◌≡◌, ◌&&◌, nat_eq, ℕ, List, map, option_map, IfOk};
ghost use Rattle.rls_session.specs.rls_script.specs.Streams.{GrewBy};
ghost use Rattle.rlsdb.specs.Tests.{AreTested, IsFilledBy, IsTested, IsTestedSo, IsTextTested};

use crate::answering::{Answered, answer_lines};
use crate::device::DeviceOut;
use crate::fault::Fault;
use crate::out_file::OutFile;
use crate::script_file::read_file;
use rls_command_line::Tests;
use rls_session::rls_script::{Failed, RunFault, ScriptOut, write_all};
use rls_transcript::{Told, filled, loose_in, script_of, split_lines, write_report};
use std::alloc::Global;
use std::fs::File;
use std::io::Write;
use std::sync::Wait;
use std::time::Clock;

/// Tests the transcripts one after another, and says whether all commands of all of them passed.
#[tactic(auto, using(crate::proofs::TestLemmas::begins))]
pub fn test<'a, W, D>(
    rt: &HostRuntime,
    waits: &W,
    tests: &Tests<'a>,
    output: &mut DeviceOut<D>,
) -> Result<bool, Fault<'a>>
where
    W: Wait + Clock,
    D: Write + Drop,
    ensures { IfOk result (λ passed. GrewBy output.old.taken.bytes output.new.taken.bytes (λ written. AreTested (map (λ name. name.now) tests.now.files.items) written passed)) }
{
    let mut passed = true;
    let mut rest = tests.files.as_slice();
    while let [name, more @ ..] = rest {
        let failed = test_file(rt, waits, *name, tests.write, output)?;
        passed = still_passed(passed, failed);
        rest = more;
    }
    Ok(passed)
}

/// Whether none failed so far.
fn still_passed(passed: bool, failed: u64) -> bool
    ensures { result ≡ (passed && nat_eq failed 0) }
{
    passed && failed == 0
}

/// Tests the transcript in the file of that name, and gives how many of its commands failed.
#[tactic(auto, using(crate::proofs::TestLemmas::of_text))]
fn test_file<'a, W, D>(
    rt: &HostRuntime,
    waits: &W,
    name: &'a str,
    write: bool,
    output: &mut DeviceOut<D>,
) -> Result<u64, Fault<'a>>
where
    W: Wait + Clock,
    D: Write + Drop,
    ensures { IfOk result (λ failed. GrewBy output.old.taken.bytes output.new.taken.bytes (λ written. (lines : List (List ℕ)) × IsTested name.entry.now lines written failed)) }
{
    let text = read_file(rt, name)?;
    let (failed, file) = test_text(rt, waits, name, text.as_slice(), write, output)?;
    drop(file);
    Ok(failed)
}

/// Tests the transcript of this text, and gives how many of its commands failed. The file that took the answers that came, where they
/// are to be written into it, is given back.
#[tactic(auto, using(crate::proofs::TestLemmas::unwritten, crate::proofs::TestLemmas::written))]
fn test_text<'a, W, D>(
    rt: &HostRuntime,
    waits: &W,
    name: &'a str,
    text: &[u8],
    write: bool,
    output: &mut DeviceOut<D>,
) -> Result<(u64, Option<DeviceOut<File>>), Fault<'a>>
where
    W: Wait + Clock,
    D: Write + Drop,
    ensures { IfOk result (λ it. GrewBy output.old.taken.bytes output.new.taken.bytes (λ written. IsTextTested write name.entry.now text.now written it.0 (option_map (λ file. file.taken.bytes) it.1))) }
{
    let lines = split_lines(rt.alloc(), text)?;
    if let Some(number) = loose_in(lines.as_slice()) {
        return Err(Fault::Loose(name, number));
    }
    let (failed, tolds) = test_lines(rt.alloc(), waits, name, lines.as_slice(), output)?;
    if write {
        let file = write_filled(rt, name, text, lines.as_slice(), tolds.as_slice())?;
        return Ok((failed, file));
    }
    Ok((failed, None))
}

/// Runs the script of a transcript of these lines on an empty database, and writes what is told of it.
#[tactic(auto, using(crate::proofs::TestLemmas::tested))]
fn test_lines<W: Wait + Clock, O: ScriptOut>(
    alloc: Global,
    waits: &W,
    name: &str,
    lines: &[&[u8]],
    output: &mut O,
) -> Result<(u64, Vec<Told>), RunFault>
    ensures { IfOk result (λ it. GrewBy (O.taken output.old) (O.taken output.new) (λ written. IsTestedSo name.now (map (λ line. line.now) lines.now) it.1.items written it.0)) }
{
    let script = script_of(alloc, lines)?;
    let answered = answer_lines(alloc, waits, false, script.as_slice());
    drop(script);
    let Answered { tolds, book } = answered?;
    drop(book);
    match write_report(alloc, name, lines, tolds.as_slice(), output) {
        Ok(failed) => Ok((failed, tolds)),
        Err(fault) => {
            drop(tolds);
            Err(fault)
        }
    }
}

/// Writes the transcript again with the answers that came, where that changes it. The file that took it is given back.
#[tactic(auto, using(crate::proofs::TestLemmas::kept_text))]
fn write_filled<'a>(
    rt: &HostRuntime,
    name: &'a str,
    text: &[u8],
    lines: &[&[u8]],
    tolds: &[Told],
) -> Result<Option<DeviceOut<File>>, Fault<'a>>
    ensures { IfOk result (λ file. IsFilledBy text.now (map (λ line. line.now) lines.now) tolds.now (option_map (λ it. it.taken.bytes) file)) }
{
    let again = filled(rt.alloc(), lines, tolds)?;
    if again.as_slice() == text {
        return Ok(None);
    }
    let mut file = OutFile::open(rt, name)?;
    match write_all(again.as_slice(), &mut file.output) {
        Ok(()) => Ok(Some(file.put(rt)?)),
        Err(Failed) => {
            let error = file.output.error();
            file.discard(rt);
            Err(Fault::Ended(RunFault::Write).unwritten(name, error))
        }
    }
}
