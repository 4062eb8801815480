//! The commands, and how the program ends.

ghost use Rattle.std.specs.Prelude.{◌≡◌, ◌⊎◌, ◌≤◌, ℕ, List, map, IfOk};
ghost use Rattle.std.specs.IoError.{error_kind};
ghost use Rattle.std.specs.declared.io.ErrorKind.TheVariants.{OutOfMemory};
ghost use Rattle.rls_session.specs.rls_script.specs.Streams.{GrewBy};
ghost use Rattle.rlsdb.specs.Answers.{Answers};
ghost use Rattle.rlsdb.specs.Commands.{EndsWords};
ghost use Rattle.rlsdb.specs.Faults.{EndsAnswer, EndsWith, EndsMistake};

use crate::device::{DeviceOut, Nowhere};
use crate::fault::Fault;
use crate::progress::ProgressLine;
use crate::{
    attempting, audits, dumping, graphing, hinting, linting, listing, numbering, reporting,
    running, shown, shown_attempts, stopping, testing,
};
use clap::error::ErrorKind;
use rls_command_line::{
    Checks, Mistake, Reported, Request, ScriptFile, is_output, is_output_wanted, request_of,
};
use rls_session::rls_script::RunFault;
use std::convert::AsStr;
use std::io::Write;
use std::sync::Wait;
use std::thread::Threads;
use std::time::Clock;
use std::{env, io};

const DONE: u8 = 0;

// A read or a write fault, or want of memory.
const FAULT: u8 = 1;

const USAGE: u8 = 2;

// A check or a test says no, a refusal stopped a run, a line of an audit is bad or what it shows is false, there is no such decision,
// a state has a mistake or no script that rebuilds it, or a line of a script isn't taken.
const NO: u8 = 3;

// What stands for the name of the answers' file.
const STANDARD_OUTPUT: &str = "standard output";

// What stands behind a mistake of usage.
const MORE: &str = "\nFor more information, try '--help'.";

/// The end where the system gives no stack.
pub fn no_stack(rt: &HostRuntime) -> u8
    ensures { result ≡ 1 }
{
    report(rt, Fault::Ended(RunFault::NoMemory))
}

/// Does what the words of the command line ask for, and gives the exit status.
pub fn run<W: Threads + Wait + Clock + Sync>(rt: &HostRuntime, waits: &W) -> u8
    ensures { result ≤ 3 }
{
    let words = match env::args(rt) {
        Ok(words) => words,
        Err(error) => return unread_words(rt, &error),
    };
    let Ok(words) = words.collect::<Vec<String>>(rt.alloc()) else {
        return report(rt, Fault::Ended(RunFault::NoMemory));
    };
    match DeviceOut::new(rt.alloc(), io::writer(rt)) {
        Ok(mut output) => run_words(rt, waits, words.as_slice(), &mut output),
        Err(error) => report(rt, Fault::from(error)),
    }
}

/// Does what these words ask for. The status goes with what the output took.
#[tactic(auto, using(crate::proofs::CommandLemmas::by_request, crate::proofs::CommandLemmas::by_mistake))]
fn run_words<W: Threads + Wait + Clock + Sync, T: AsStr, D: Write + Drop>(
    rt: &HostRuntime,
    waits: &W,
    words: &[T],
    output: &mut DeviceOut<D>,
) -> u8
    ensures { EndsWords (map T.text words.now) output.old.taken.bytes output.new.taken.bytes result }
{
    match request_of(rt.alloc(), words) {
        Ok(request) => end(rt, serve(rt, waits, request, output)),
        Err(mistake) => explain(rt, mistake),
    }
}

/// Ends as the command came out.
fn end(rt: &HostRuntime, came: Result<bool, Fault<'_>>) -> u8
    ensures { EndsAnswer came.entry result }
{
    match came {
        Ok(true) => DONE,
        Ok(false) => NO,
        Err(fault) => report(rt, fault),
    }
}

// A word that isn't UTF-8 is a mistake of usage.
fn unread_words(rt: &HostRuntime, error: &io::Error) -> u8
    ensures memory { error_kind error.now ≡ OutOfMemory → result ≡ 1 }
    ensures usage { ¬ (error_kind error.now ≡ OutOfMemory) → result ≡ 2 }
{
    if error.kind() == io::ErrorKind::OutOfMemory {
        return report(rt, Fault::Ended(RunFault::NoMemory));
    }
    let _ = eprintln!(rt; "error: a word of the command line is not UTF-8");
    USAGE
}

/// Does what is asked for, and gives on all that was written. False where the answer is no.
fn serve<'a, W: Threads + Wait + Clock + Sync, D: Write + Drop>(
    rt: &HostRuntime,
    waits: &W,
    request: Request<'a>,
    output: &mut DeviceOut<D>,
) -> Result<bool, Fault<'a>>
    ensures { IfOk result (λ done. GrewBy output.old.taken.bytes output.new.taken.bytes (λ written. Answers request.entry written done)) }
{
    let came = answer(rt, waits, request, output);
    let finished = output.finish();
    match came {
        Ok(done) => match finished {
            Ok(()) => Ok(done),
            Err(error) => Err(Fault::from(error).of_answers(STANDARD_OUTPUT, output.error())),
        },
        Err(fault) => Err(fault.of_answers(STANDARD_OUTPUT, output.error())),
    }
}

/// Does what is asked for.
#[tactic(auto, using(crate::proofs::CommandLemmas::ran, crate::proofs::CommandLemmas::ordered, crate::proofs::ListingLemmas::answered_long, crate::proofs::CommandLemmas::checked, crate::proofs::CommandLemmas::explained, crate::proofs::ShownLemmas::answered_shown, crate::proofs::ShownAttemptLemmas::answered_attempts, crate::proofs::LintLemmas::answered_lint, crate::proofs::DumpLemmas::answered_dump, crate::proofs::GraphLemmas::answered_graph, crate::proofs::ReportLemmas::answered_report, crate::proofs::CommandLemmas::migrated, crate::proofs::CommandLemmas::parsed, crate::proofs::TestLemmas::tests_answered, crate::proofs::TestLemmas::stop_answered, crate::proofs::NumberLemmas::numbers_answered, crate::proofs::AttemptLemmas::attempts_answered))]
fn answer<'a, W: Threads + Wait + Clock + Sync, D: Write + Drop>(
    rt: &HostRuntime,
    waits: &W,
    request: Request<'a>,
    output: &mut DeviceOut<D>,
) -> Result<bool, Fault<'a>>
    ensures { IfOk result (λ done. GrewBy output.old.taken.bytes output.new.taken.bytes (λ written. Answers request.entry written done)) }
{
    match request {
        Request::Run(run) => Ok(run_script(rt, waits, run, output)?),
        Request::RunStopping(run) => Ok(run_stopping(rt, waits, run, output)?),
        Request::RunNumbered(run) => Ok(run_numbered(rt, waits, run, output)?),
        Request::RunKeeping(run, out) => Ok(run_keeping(rt, waits, run, out, output)?),
        Request::Test(tests) => Ok(testing::test(rt, waits, &tests, output)?),
        Request::Order(audit) => {
            audits::order(rt, audit, output)?;
            Ok(true)
        }
        Request::OrderLong(audit) => Ok(listing::list(rt, audit, output)?),
        Request::Check(checks) => Ok(check(rt, &checks, output)?),
        Request::Explain(asked) => Ok(audits::explain(rt, asked, output)?),
        Request::Shown(asked) => Ok(shown::shown(rt, asked, output)?),
        Request::ShownAttempts(asked, out) => {
            Ok(shown_attempts::shown_attempts(rt, asked, out, output)?)
        }
        Request::Lint(asked) => Ok(linting::lint(rt, asked, output)?),
        Request::Dump(asked) => Ok(dumping::dump(rt, waits, asked, output)?),
        Request::Graph(asked) => Ok(graphing::graph(rt, asked, output)?),
        Request::Report(asked) => Ok(report_page(rt, asked, output)?),
        Request::Migrate(from, to) => Ok(migrate(rt, from, to, output)?),
        Request::Parse(file) => Ok(hinting::parse(rt, file, output)?),
    }
}

/// Runs the script, and writes its audit where one is wanted.
#[tactic(auto, using(crate::proofs::CommandLemmas::ran_apart, crate::proofs::CommandLemmas::ran_together))]
fn run_script<'a, W: Threads + Wait + Clock + Sync, D: Write + Drop>(
    rt: &HostRuntime,
    waits: &W,
    run: ScriptFile<'a>,
    output: &mut DeviceOut<D>,
) -> Result<bool, Fault<'a>>
    ensures { IfOk result (λ done. GrewBy output.old.taken.bytes output.new.taken.bytes (λ written. Answers (Request.Run run.entry) written done)) }
{
    if is_output_wanted(run.audit) {
        running::run_with_audit(rt, waits, run, output)?;
        return Ok(true);
    }
    let audit = running::run(rt, waits, run, output)?;
    drop(audit);
    Ok(true)
}

/// The same, up to the first refusal. False where there is one.
#[tactic(auto, using(crate::proofs::TestLemmas::stopped_apart, crate::proofs::TestLemmas::stopped_together))]
fn run_stopping<'a, W: Threads + Wait + Clock + Sync, D: Write + Drop>(
    rt: &HostRuntime,
    waits: &W,
    run: ScriptFile<'a>,
    output: &mut DeviceOut<D>,
) -> Result<bool, Fault<'a>>
    ensures { IfOk result (λ done. GrewBy output.old.taken.bytes output.new.taken.bytes (λ written. Answers (Request.RunStopping run.entry) written done)) }
{
    if is_output_wanted(run.audit) {
        stopping::run_stopping_with_audit(rt, waits, run, output)
    } else {
        stopping::run_stopping(rt, waits, run, output)
    }
}

/// Runs the script, each answer behind the transaction that its line was answered in.
#[tactic(auto, using(crate::proofs::NumberLemmas::numbered_apart, crate::proofs::NumberLemmas::numbered_together))]
fn run_numbered<'a, W: Threads + Wait + Clock + Sync, D: Write + Drop>(
    rt: &HostRuntime,
    waits: &W,
    run: ScriptFile<'a>,
    output: &mut DeviceOut<D>,
) -> Result<bool, Fault<'a>>
    ensures { IfOk result (λ done. GrewBy output.old.taken.bytes output.new.taken.bytes (λ written. Answers (Request.RunNumbered run.entry) written done)) }
{
    if is_output_wanted(run.audit) {
        numbering::run_numbered_with_audit(rt, waits, run, output)?;
        return Ok(true);
    }
    numbering::run_numbered(rt, waits, run, output)?;
    Ok(true)
}

/// Runs the script, and keeps what ended without a commit in a file.
#[tactic(auto, using(crate::proofs::AttemptLemmas::answered_apart, crate::proofs::AttemptLemmas::answered_together))]
fn run_keeping<'a, W: Threads + Wait + Clock + Sync, D: Write + Drop>(
    rt: &HostRuntime,
    waits: &W,
    run: ScriptFile<'a>,
    out: &'a str,
    output: &mut DeviceOut<D>,
) -> Result<bool, Fault<'a>>
    ensures { IfOk result (λ done. GrewBy output.old.taken.bytes output.new.taken.bytes (λ written. Answers (Request.RunKeeping run.entry out.entry) written done)) }
{
    if is_output_wanted(run.audit) {
        attempting::run_keeping_with_audit(rt, waits, run, out, output)?;
        return Ok(true);
    }
    attempting::run_keeping(rt, waits, run, out, output)?;
    Ok(true)
}

/// Checks the audits, and writes what is found unless the status alone is to say it.
#[tactic(auto, using(crate::proofs::CheckLemmas::told, crate::proofs::CheckLemmas::untold))]
fn check<'a, D: Write + Drop>(
    rt: &HostRuntime,
    checks: &Checks<'a>,
    output: &mut DeviceOut<D>,
) -> Result<bool, Fault<'a>>
    ensures { IfOk result (λ done. GrewBy output.old.taken.bytes output.new.taken.bytes (λ written. Answers (Request.Check checks.now) written done)) }
{
    let audits = checks.audits.as_slice();
    if checks.quiet {
        let mut progress = ProgressLine::silent(rt);
        audits::check_all(rt, audits, &mut progress, &mut Nowhere::new())
    } else {
        let mut progress = ProgressLine::new(rt);
        audits::check_all(rt, audits, &mut progress, output)
    }
}

/// Writes a report of the audit.
#[tactic(auto, using(crate::proofs::ReportLemmas::reported_together))]
fn report_page<'a, D: Write + Drop>(
    rt: &HostRuntime,
    asked: Reported<'a>,
    output: &mut DeviceOut<D>,
) -> Result<bool, Fault<'a>>
    ensures { IfOk result (λ done. GrewBy output.old.taken.bytes output.new.taken.bytes (λ written. Answers (Request.Report asked.entry) written done)) }
{
    if is_output(asked.out) {
        reporting::report_out(rt, asked, output)
    } else {
        reporting::report(rt, asked)
    }
}

/// Writes the audit again in the second format.
#[tactic(auto, using(crate::proofs::CommandLemmas::migrated_together))]
fn migrate<'a, D: Write + Drop>(
    rt: &HostRuntime,
    from: &'a str,
    to: &'a str,
    output: &mut DeviceOut<D>,
) -> Result<bool, Fault<'a>>
    ensures { IfOk result (λ done. GrewBy output.old.taken.bytes output.new.taken.bytes (λ written. Answers (Request.Migrate from.entry to.entry) written done)) }
{
    if is_output(to) {
        audits::migrate_out(rt, from, output)?;
        return Ok(true);
    }
    let file = audits::migrate(rt, from, to)?;
    drop(file);
    Ok(true)
}

// Help goes to standard output, all else to standard error.
fn explain(rt: &HostRuntime, mistake: Mistake<'_>) -> u8
    ensures { EndsMistake mistake.entry result }
{
    match mistake {
        Mistake::Value(argument, value, wanted) => {
            let _ = eprintln!(rt;
                "error: invalid value '{value}' for '{argument}': {wanted} is wanted\n{MORE}"
            );
            USAGE
        }
        Mistake::Together(one, other) => {
            let _ = eprintln!(rt;
                "error: the argument '{one}' cannot be used with '{other}'\n{MORE}"
            );
            USAGE
        }
        Mistake::Words(error) => {
            if error.kind() == ErrorKind::OutOfMemory {
                return report(rt, Fault::Ended(RunFault::NoMemory));
            }
            match error.print(rt) {
                Err(failed) if !error.use_stderr() => report_unwritten(rt, &failed),
                _ if error.use_stderr() => USAGE,
                _ => DONE,
            }
        }
        Mistake::Nothing => USAGE,
    }
}

/// Tells the fault, and gives its status.
fn report(rt: &HostRuntime, fault: Fault<'_>) -> u8
    ensures { EndsWith fault.entry result }
{
    match fault {
        Fault::BadLine(line) => return report_bad(rt, line),
        Fault::BadAudit(name, line, flaw) => {
            if let Some(text) = flaw.text() {
                let _ = eprintln!(rt; "rlsdb: {name}: line {line}: {text}");
            }
            return report_bad(rt, line);
        }
        Fault::Unread(name, error) => {
            let _ = eprintln!(rt; "rlsdb: cannot read\nrlsdb: {name}: {error}");
        }
        Fault::NoFile(name) => {
            let _ = eprintln!(rt;
                "rlsdb: cannot read\nrlsdb: {name}: not a regular file, and AUDIT is read twice"
            );
        }
        Fault::Unwritten(name, error) => {
            let _ = eprintln!(rt; "rlsdb: cannot write\nrlsdb: {name}: {error}");
        }
        Fault::OverLong(name) => {
            let _ = eprintln!(rt;
                "rlsdb: {name}: over 20,000,000 bytes; narrow it by --role, --table or --txn"
            );
        }
        // Who closes a pipe has read enough.
        Fault::Closed => {}
        Fault::Loose(name, line) => {
            let _ = eprintln!(rt; "rlsdb: {name}:{line}: an answer without a command");
            return USAGE;
        }
        Fault::SameFile(argument) => {
            let _ = eprintln!(rt; "error: {argument} and OUT are the same file\n{MORE}");
            return USAGE;
        }
        Fault::Ended(fault) => return report_run(rt, fault),
    }
    FAULT
}

/// Tells which line of an audit is bad.
fn report_bad(rt: &HostRuntime, line: u64) -> u8
    ensures { (result ≡ 3) ⊎ (result ≡ 1) }
{
    match println!(rt; "bad audit line {line}") {
        Ok(()) => NO,
        Err(error) => report_unwritten(rt, &error),
    }
}

/// Tells that the standard output can't be written, unless nobody reads it any more.
fn report_unwritten(rt: &HostRuntime, error: &io::Error) -> u8
    ensures { result ≡ 1 }
{
    if error.kind() != io::ErrorKind::BrokenPipe {
        let _ = eprintln!(rt; "rlsdb: cannot write\nrlsdb: standard output: {error}");
    }
    FAULT
}

fn report_run(rt: &HostRuntime, fault: RunFault) -> u8
    ensures { result ≡ 1 }
{
    let _ = eprintln!(rt; "rlsdb: {fault}");
    FAULT
}
