//! The command line: its commands with their arguments, and what they ask for.

ghost use Rattle.std.specs.Prelude.{◌≡◌, false, map, codes, Some, option_map, IfOk, IfErr};
ghost use Rattle.clap.specs.Words.{app_of, first_of, found_of, new_app, new_rule, rows_of, rule_of};
ghost use Rattle.clap.specs.declared.builder.command.Command.TheViews.{out-Command};
ghost use Rattle.rls_command_line.specs.declared.command_line.Mistake.TheVariants.{Words};
ghost use Rattle.rls_command_line.specs.CommandLine.{Asks, AsksFor, IsFlag, IsMistaken, IsNumber, IsOfMemory, IsOwn, IsRow, IsRun, attempts_option, audit_option, audits_argument, check_line, command_line, explain_line, long_flag, migrate_line, needed, numbers_flag, hints_flag, order_line, parse_line, program_line, quiet_flag, run_line, stop_flag, terse_flag, test_line, threads_flag, transcripts_argument, write_flag};

use crate::dump_line::{dump_command, dump_of};
use crate::graph_line::{graph_command, graph_of};
use crate::lint_line::{lint_command, lint_of};
use crate::report_line::{report_command, report_of};
use crate::shown_line::{shown_command, shown_of};
use crate::words::{Checks, Explain, Request, ScriptFile, Tests, number_of, row_of};
use clap::{Arg, ArgAction, ArgMatches, Command};
use rls_value::RowId;
use std::alloc::{AllocError, Global};
use std::convert::AsStr;

const VERSION: &str = "0.1.0";

const AFTER_HELP: &str = "\
Examples:

    rlsdb run FILE --audit AUDIT
    rlsdb check AUDIT
    rlsdb explain AUDIT 16 1 10.2
    rlsdb shown AUDIT --role ann
    rlsdb lint AUDIT
    rlsdb dump AUDIT --after 12
    rlsdb graph AUDIT --mermaid
    rlsdb report AUDIT report.html

Exit status:
    0  done, even if statements were refused
    1  a file cannot be read or written, or memory ran out
    2  usage
    3  `check` says no, a test fails, an ERROR ends `run --stop`, a line of an audit is bad, there is no such decision, `shown`,
       `graph`, `report` or `order --long` finds a fault, `lint` finds a mistake or a fault, `dump` finds a fault or no script, or
       `parse` finds a line that is no statement";

const AFTER_RUN: &str = "\
Each line of FILE is a command: `LABEL: \\connect ROLE` or `LABEL: STATEMENT`. The superuser `postgres` exists from the start:

    p: \\connect postgres
    p: CREATE TABLE t (a int)
    p: SELECT * FROM t

A label is 1 to 63 lower case letters, digits or underscores. Each label has its own session; there may be up to 64.
Empty lines and lines that begin with `--` are skipped. Each answer is written as `LABEL: TEXT`.
With --threads each label runs its lines on its own thread up to the next line `==`. Answers are then written label by label.
With --numbers each line of an answer stands behind a mark and a tab: the number of the line in FILE, and where it was answered:
`-` in no transaction, `T` transaction T began, `T.S` in statement S of T, `rows T.N` it inserted these rows, `commit C` T is commit
C, `T over` T ended without a commit. The answers are written once the run has ended.
With --attempts each transaction that ends without a commit has a line in OUT, with what its statements were answered and how it
ended. It goes with --threads and --audit, and not with --stop or --numbers.

Example: rlsdb run FILE --threads --audit AUDIT";

const AFTER_TEST: &str = "\
A FILE is a script whose answers are indented by four spaces more than their commands, without the label:

    a: SELECT * FROM notes
        ann|tea
        SELECT 1

A command without an answer below it passes if it isn't refused. Each command that is answered otherwise is written with the
difference: `-` is expected, `+` was answered. If the first line with a label is indented, so is the whole FILE: lines that are
indented less are skipped, and so is a line that begins with `$ `, with the lines below it.
With --write the answers that came are put into each FILE; the status is that of the FILE before.

Example: rlsdb test notes.transcript";

const AFTER_ORDER: &str = "\
Writes the numbers of the transactions of AUDIT in serial order, one for each line. With --long each has below it, indented, its
commit, its login, its role, and its statements with what they come to where the transactions run again in that order.

Example: rlsdb order AUDIT --long";

const AFTER_CHECK: &str = "\
Writes `yes`, or the first fault that it finds: `no: order`, `no: reply T.S` (transaction T, statement S), `no: changes T` or
`no: state`. Of several AUDITs each has a line, with the AUDIT and a colon in front.

Example: rlsdb check AUDIT";

const AFTER_EXPLAIN: &str = "\
TXN is the number of a transaction in AUDIT, STATEMENT the number of its statement, counted from 1. Without ROW it writes all
decisions of the statement; with ROW only those on this row, each with the value of every policy that applies. With --long
each part of a condition is written with its value, which rows subqueries see, and why a policy is not asked.

Example: rlsdb explain AUDIT 16 1 10.2";

const AFTER_MIGRATE: &str = "\
AUDIT is read twice, so it cannot be a pipe. OUT must be another file. It is written only if the whole AUDIT is valid.

Example: rlsdb migrate AUDIT OUT";

const AFTER_PARSE: &str = "\
Runs nothing. For each line that is no statement it writes the place, the word at which the line goes wrong, and what could
stand there.

Example: rlsdb parse FILE";

pub const NUMBER: &str = "a decimal number up to 18446744073709551615";

const TWICE: &str = "a file that can be read twice";

const FILLED: &str = "with --write, a file";

pub const KEPT: &str = "a file";

pub const ROW: &str = "T.N with decimal numbers up to 18446744073709551615 and 4294967295";

/// Why the words ask for nothing.
#[derive(Drop)]
pub enum Mistake<'a> {
    /// As `clap` says; also that help or the version is wanted, or that memory doesn't suffice.
    Words(clap::Error),
    /// The argument, its value, and what is wanted.
    Value(&'a str, &'a str, &'a str),
    /// Both arguments are given, and only one of them may be.
    Together(&'a str, &'a str),
    /// An argument is absent, which `clap` doesn't let through.
    Nothing,
}

impl<'a> From<clap::Error> for Mistake<'a> {
    ghost from_gives = { λ error mistake. mistake ≡ Words error };

    fn from(error: clap::Error) -> Mistake<'a> {
        Mistake::Words(error)
    }
}

impl<'a> From<AllocError> for Mistake<'a> {
    ghost from_gives = { λ _ mistake. IsOfMemory mistake };

    fn from(error: AllocError) -> Mistake<'a> {
        Mistake::Words(clap::Error::from(error))
    }
}

/// What the words ask for.
#[tactic(auto, using(crate::proofs::CommandLineLemmas::of_memory, crate::proofs::CommandLineLemmas::own))]
pub fn request_of<'a, T: AsStr>(alloc: Global, words: &'a [T]) -> Result<Request<'a>, Mistake<'a>>
    ensures ok { IfOk result (Asks (map T.text words.now)) }
    ensures err { IfErr result (IsMistaken (map T.text words.now)) }
{
    let command = command(alloc)?;
    let matches = command.try_get_matches_from(words)?;
    match matches.subcommand() {
        Some((name, found)) => Ok(request_in(alloc, name, found)?),
        None => Err(Mistake::Nothing),
    }
}

/// What the command of that name asks for, with its words.
fn request_in<'a>(
    alloc: Global,
    name: &str,
    words: &ArgMatches<'a>,
) -> Result<Request<'a>, Mistake<'a>>
    ensures ok { IfOk result (AsksFor name.now (rows_of (found_of words.now))) }
    ensures err { IfErr result IsOwn }
{
    match name {
        "run" => run_of(words),
        "test" => test_of(alloc, words),
        "order" => order_of(words),
        "check" => check_of(alloc, words),
        "explain" => explain_of(words),
        "shown" => shown_of(alloc, words),
        "lint" => lint_of(words),
        "dump" => dump_of(words),
        "graph" => graph_of(words),
        "report" => report_of(alloc, words),
        "migrate" => migrate_of(words),
        "parse" => Ok(Request::Parse(value(words, "FILE")?)),
        _ => Err(Mistake::Nothing),
    }
}

fn run_of<'a>(words: &ArgMatches<'a>) -> Result<Request<'a>, Mistake<'a>>
    ensures ok { IfOk result (AsksFor (codes "run") (rows_of (found_of words.now))) }
    ensures err { IfErr result IsOwn }
{
    let run = ScriptFile {
        file: value(words, "FILE")?,
        threads: flag(words, "threads"),
        audit: given(words, "audit"),
        terse: flag(words, "terse-conflicts"),
        hints: flag(words, "hints"),
    };
    if let Some(out) = given(words, "attempts") {
        return run_keeping_of(words, run, out);
    }
    match (flag(words, "stop"), flag(words, "numbers")) {
        (false, false) => Ok(Request::Run(run)),
        (true, _) if run.threads => Err(Mistake::Together("--stop", "--threads")),
        (true, false) => Ok(Request::RunStopping(run)),
        (false, true) if run.threads => Err(Mistake::Together("--numbers", "--threads")),
        (false, true) => Ok(Request::RunNumbered(run)),
        (true, true) => Err(Mistake::Together("--numbers", "--stop")),
    }
}

/// The same, where transactions that end without a commit are kept in the file.
fn run_keeping_of<'a>(
    words: &ArgMatches<'a>,
    run: ScriptFile<'a>,
    out: &'a str,
) -> Result<Request<'a>, Mistake<'a>>
    requires run { IsRun (rows_of (found_of words.now)) run }
    requires out { first_of (codes "attempts") (rows_of (found_of words.now)) ≡ Some out.now }
    ensures ok { IfOk result (AsksFor (codes "run") (rows_of (found_of words.now))) }
    ensures err { IfErr result IsOwn }
{
    if out == "-" {
        return Err(Mistake::Value("--attempts <OUT>", "-", KEPT));
    }
    match (flag(words, "stop"), flag(words, "numbers")) {
        (false, false) => Ok(Request::RunKeeping(run, out)),
        (true, _) => Err(Mistake::Together("--attempts", "--stop")),
        (false, true) => Err(Mistake::Together("--attempts", "--numbers")),
    }
}

#[tactic(auto, using(crate::proofs::CommandLineLemmas::all_given))]
fn test_of<'a>(alloc: Global, words: &ArgMatches<'a>) -> Result<Request<'a>, Mistake<'a>>
    ensures ok { IfOk result (AsksFor (codes "test") (rows_of (found_of words.now))) }
    ensures err { IfErr result IsOwn }
{
    let Some(names) = words.get_strs("FILE") else {
        return Err(Mistake::Nothing);
    };
    let write = flag(words, "write");
    if write && names.iter().any(|name| *name == "-") {
        return Err(Mistake::Value("<FILE>...", "-", FILLED));
    }
    match names.to_vec(alloc) {
        Ok(files) => Ok(Request::Test(Tests { files, write })),
        Err(error) => Err(Mistake::from(error)),
    }
}

fn order_of<'a>(words: &ArgMatches<'a>) -> Result<Request<'a>, Mistake<'a>>
    ensures ok { IfOk result (AsksFor (codes "order") (rows_of (found_of words.now))) }
    ensures err { IfErr result IsOwn }
{
    let audit = value(words, "AUDIT")?;
    if flag(words, "long") {
        Ok(Request::OrderLong(audit))
    } else {
        Ok(Request::Order(audit))
    }
}

#[tactic(auto, using(crate::proofs::CommandLineLemmas::all_given))]
fn check_of<'a>(alloc: Global, words: &ArgMatches<'a>) -> Result<Request<'a>, Mistake<'a>>
    ensures ok { IfOk result (AsksFor (codes "check") (rows_of (found_of words.now))) }
    ensures err { IfErr result IsOwn }
{
    let Some(names) = words.get_strs("AUDIT") else {
        return Err(Mistake::Nothing);
    };
    let quiet = flag(words, "quiet");
    match names.to_vec(alloc) {
        Ok(audits) => Ok(Request::Check(Checks { audits, quiet })),
        Err(error) => Err(Mistake::from(error)),
    }
}

fn explain_of<'a>(words: &ArgMatches<'a>) -> Result<Request<'a>, Mistake<'a>>
    ensures ok { IfOk result (AsksFor (codes "explain") (rows_of (found_of words.now))) }
    ensures err { IfErr result IsOwn }
{
    Ok(Request::Explain(Explain {
        audit: value(words, "AUDIT")?,
        txn: number(words, "TXN", "<TXN>")?,
        statement: number(words, "STATEMENT", "<STATEMENT>")?,
        row: row(words)?,
        long: flag(words, "long"),
    }))
}

fn migrate_of<'a>(words: &ArgMatches<'a>) -> Result<Request<'a>, Mistake<'a>>
    ensures ok { IfOk result (AsksFor (codes "migrate") (rows_of (found_of words.now))) }
    ensures err { IfErr result IsOwn }
{
    let audit = value(words, "AUDIT")?;
    if audit == "-" {
        return Err(Mistake::Value("<AUDIT>", "-", TWICE));
    }
    Ok(Request::Migrate(audit, value(words, "OUT")?))
}

/// Whether the flag is given.
pub fn flag(words: &ArgMatches<'_>, name: &str) -> bool
    ensures { IsFlag name.now (rows_of (found_of words.now)) result }
{
    words.get_flag(name)
}

/// The argument's value, if it has one.
pub fn given<'a>(words: &ArgMatches<'a>, name: &str) -> Option<&'a str>
    ensures { option_map (λ text. text.now) result ≡ first_of name.now (rows_of (found_of words.now)) }
{
    words.get_str(name)
}

/// The argument's value.
pub fn value<'a>(words: &ArgMatches<'a>, name: &str) -> Result<&'a str, Mistake<'a>>
    ensures ok { IfOk result (λ text. first_of name.now (rows_of (found_of words.now)) ≡ Some text.now) }
    ensures err { IfErr result IsOwn }
{
    given(words, name).ok_or(Mistake::Nothing)
}

/// The number that is the argument's value.
fn number<'a>(words: &ArgMatches<'a>, name: &str, shown: &'static str) -> Result<u64, Mistake<'a>>
    ensures ok { IfOk result (IsNumber name.now (rows_of (found_of words.now))) }
    ensures err { IfErr result IsOwn }
{
    let text = value(words, name)?;
    match number_of(text) {
        Some(number) => Ok(number),
        None => Err(Mistake::Value(shown, text, NUMBER)),
    }
}

/// The row's number, if it is given.
fn row<'a>(words: &ArgMatches<'a>) -> Result<Option<RowId>, Mistake<'a>>
    ensures ok { IfOk result (IsRow (rows_of (found_of words.now))) }
    ensures err { IfErr result IsOwn }
{
    let Some(text) = given(words, "ROW") else {
        return Ok(None);
    };
    match row_of(text) {
        Some(row) => Ok(Some(row)),
        None => Err(Mistake::Value("[ROW]", text, ROW)),
    }
}

fn command<'a>(alloc: Global) -> Result<Command<'a>, AllocError>
    ensures app { IfOk result (λ made. app_of made ≡ command_line) }
{
    let program = program(alloc);
    let program = program.subcommand(run_command(alloc)?)?;
    let program = program.subcommand(test_command(alloc)?)?;
    let program = program.subcommand(order_command(alloc)?)?;
    let program = program.subcommand(check_command(alloc)?)?;
    let program = program.subcommand(explain_command(alloc)?)?;
    let program = program.subcommand(shown_command(alloc)?)?;
    let program = program.subcommand(lint_command(alloc)?)?;
    let program = program.subcommand(dump_command(alloc)?)?;
    let program = program.subcommand(graph_command(alloc)?)?;
    let program = program.subcommand(report_command(alloc)?)?;
    let program = program.subcommand(migrate_command(alloc)?)?;
    let program = program.subcommand(parse_command(alloc)?)?;
    Ok(program)
}

/// The program, without its commands.
fn program<'a>(alloc: Global) -> Command<'a>
    ensures { app_of result ≡ program_line }
{
    named(
        alloc,
        "rlsdb",
        "A database with row-level security",
        AFTER_HELP,
    )
    .version(VERSION)
    .subcommand_required(true)
}

/// A command of that name, with its help, before any argument.
pub fn named<'a>(
    alloc: Global,
    name: &'static str,
    about: &'static str,
    after_help: &'static str,
) -> Command<'a>
    ensures app { app_of result ≡ new_app name.now }
    ensures local { (out-Command result).has_globals ≡ false }
{
    Command::new(alloc, name)
        .about(about)
        .after_help(after_help)
}

fn run_command<'a>(alloc: Global) -> Result<Command<'a>, AllocError>
    ensures app { IfOk result (λ made. app_of made ≡ run_line) }
    ensures local { IfOk result (λ made. (out-Command made).has_globals ≡ false) }
{
    let about = "Runs a script on an empty database and writes every answer";
    let script = script(alloc, "The script to run, or `-` for standard input");
    let command = named(alloc, "run", about, AFTER_RUN);
    let command = command.arg(script)?;
    let command = command.arg(threads(alloc))?;
    let command = command.arg(audit_out(alloc))?;
    let command = command.arg(terse_conflicts(alloc))?;
    let command = command.arg(hints(alloc))?;
    let command = command.arg(stop(alloc))?;
    let command = command.arg(numbers(alloc))?;
    let command = command.arg(attempts_out(alloc))?;
    Ok(command)
}

fn numbers<'a>(alloc: Global) -> Arg<'a>
    ensures rule { rule_of result ≡ numbers_flag }
    ensures local { result.global ≡ false }
{
    Arg::new(alloc, "numbers")
        .long("numbers")
        .action(ArgAction::SetTrue)
        .help(
            "Put the line, the transaction, the statement, the rows and the commit before each answer",
        )
}

fn attempts_out<'a>(alloc: Global) -> Arg<'a>
    ensures rule { rule_of result ≡ attempts_option }
    ensures local { result.global ≡ false }
{
    Arg::new(alloc, "attempts")
        .long("attempts")
        .value_name("OUT")
        .help("Write what ended without a commit to the file OUT")
}

fn stop<'a>(alloc: Global) -> Arg<'a>
    ensures rule { rule_of result ≡ stop_flag }
    ensures local { result.global ≡ false }
{
    Arg::new(alloc, "stop")
        .long("stop")
        .action(ArgAction::SetTrue)
        .help("End the run at the first ERROR, with status 3")
}

fn test_command<'a>(alloc: Global) -> Result<Command<'a>, AllocError>
    ensures app { IfOk result (λ made. app_of made ≡ test_line) }
    ensures local { IfOk result (λ made. (out-Command made).has_globals ≡ false) }
{
    let about = "Runs scripts that say what they expect, and writes what differs";
    let command = named(alloc, "test", about, AFTER_TEST);
    let command = command.arg(transcripts(alloc))?;
    let command = command.arg(write(alloc))?;
    Ok(command)
}

fn transcripts<'a>(alloc: Global) -> Arg<'a>
    ensures rule { rule_of result ≡ transcripts_argument }
    ensures local { result.global ≡ false }
{
    file(
        alloc,
        "FILE",
        "A script with its answers, or `-` for standard input",
    )
    .action(ArgAction::Append)
}

fn write<'a>(alloc: Global) -> Arg<'a>
    ensures rule { rule_of result ≡ write_flag }
    ensures local { result.global ≡ false }
{
    Arg::new(alloc, "write")
        .long("write")
        .action(ArgAction::SetTrue)
        .help("Put the answers that came into each FILE")
}

fn script<'a>(alloc: Global, help: &'static str) -> Arg<'a>
    ensures rule { rule_of result ≡ needed (codes "FILE") }
    ensures local { result.global ≡ false }
{
    file(alloc, "FILE", help)
}

fn threads<'a>(alloc: Global) -> Arg<'a>
    ensures rule { rule_of result ≡ threads_flag }
    ensures local { result.global ≡ false }
{
    Arg::new(alloc, "threads")
        .long("threads")
        .action(ArgAction::SetTrue)
        .help("Run each label on its own thread")
}

fn audit_out<'a>(alloc: Global) -> Arg<'a>
    ensures rule { rule_of result ≡ audit_option }
    ensures local { result.global ≡ false }
{
    Arg::new(alloc, "audit")
        .long("audit")
        .value_name("OUT")
        .help("Write an audit of the run to the file OUT, or `-` for standard output")
}

fn terse_conflicts<'a>(alloc: Global) -> Arg<'a>
    ensures rule { rule_of result ≡ terse_flag }
    ensures local { result.global ≡ false }
{
    Arg::new(alloc, "terse-conflicts")
        .long("terse-conflicts")
        .action(ArgAction::SetTrue)
        .help("Leave rows, keys and transactions out of the text of a 40001")
}

fn hints<'a>(alloc: Global) -> Arg<'a>
    ensures rule { rule_of result ≡ hints_flag }
    ensures local { result.global ≡ false }
{
    Arg::new(alloc, "hints")
        .long("hints")
        .action(ArgAction::SetTrue)
        .help(
            "Show on standard error where a line stops being a statement, and what could stand there",
        )
}

fn order_command<'a>(alloc: Global) -> Result<Command<'a>, AllocError>
    ensures app { IfOk result (λ made. app_of made ≡ order_line) }
    ensures local { IfOk result (λ made. (out-Command made).has_globals ≡ false) }
{
    let about = "Writes the serial order of an audit";
    let command = named(alloc, "order", about, AFTER_ORDER);
    let command = command.arg(audit(alloc))?;
    let command = command.arg(long(alloc))?;
    Ok(command)
}

fn long<'a>(alloc: Global) -> Arg<'a>
    ensures rule { rule_of result ≡ long_flag }
    ensures local { result.global ≡ false }
{
    Arg::new(alloc, "long")
        .long("long")
        .action(ArgAction::SetTrue)
        .help("Write below each number who committed what, and what it was answered")
}

fn check_command<'a>(alloc: Global) -> Result<Command<'a>, AllocError>
    ensures app { IfOk result (λ made. app_of made ≡ check_line) }
    ensures local { IfOk result (λ made. (out-Command made).has_globals ≡ false) }
{
    let about =
        "Runs the transactions of an audit again in its order, and compares every answer and change";
    let command = named(alloc, "check", about, AFTER_CHECK);
    let command = command.arg(checked(alloc))?;
    let command = command.arg(quiet(alloc))?;
    Ok(command)
}

fn checked<'a>(alloc: Global) -> Arg<'a>
    ensures rule { rule_of result ≡ audits_argument }
    ensures local { result.global ≡ false }
{
    file(
        alloc,
        "AUDIT",
        "An audit, as `rlsdb run --audit` writes it, or `-` for standard input",
    )
    .action(ArgAction::Append)
}

fn quiet<'a>(alloc: Global) -> Arg<'a>
    ensures rule { rule_of result ≡ quiet_flag }
    ensures local { result.global ≡ false }
{
    Arg::new(alloc, "quiet")
        .long("quiet")
        .action(ArgAction::SetTrue)
        .help("Write no findings; the exit status says whether all audits hold")
}

fn explain_command<'a>(alloc: Global) -> Result<Command<'a>, AllocError>
    ensures app { IfOk result (λ made. app_of made ≡ explain_line) }
    ensures local { IfOk result (λ made. (out-Command made).has_globals ≡ false) }
{
    let about = "Explains the result of a statement of an audit, row by row";
    let txn = file(alloc, "TXN", "The number of the transaction");
    let statement = file(
        alloc,
        "STATEMENT",
        "The number of the statement in it, from 1",
    );
    let command = named(alloc, "explain", about, AFTER_EXPLAIN);
    let command = command.arg(audit(alloc))?;
    let command = command.arg(txn)?;
    let command = command.arg(statement)?;
    let command = command.arg(row_argument(alloc))?;
    let command = command.arg(long_reasons(alloc))?;
    Ok(command)
}

fn row_argument<'a>(alloc: Global) -> Arg<'a>
    ensures rule { rule_of result ≡ new_rule (codes "ROW") }
    ensures local { result.global ≡ false }
{
    Arg::new(alloc, "ROW").help("The row, as T.N")
}

fn long_reasons<'a>(alloc: Global) -> Arg<'a>
    ensures rule { rule_of result ≡ long_flag }
    ensures local { result.global ≡ false }
{
    Arg::new(alloc, "long")
        .long("long")
        .action(ArgAction::SetTrue)
        .help("With the values and the reasons, indented below its lines")
}

fn migrate_command<'a>(alloc: Global) -> Result<Command<'a>, AllocError>
    ensures app { IfOk result (λ made. app_of made ≡ migrate_line) }
    ensures local { IfOk result (λ made. (out-Command made).has_globals ≡ false) }
{
    let old = file(
        alloc,
        "AUDIT",
        "The audit, as `rlsdb run --audit` writes it",
    );
    let out = out(alloc);
    let command = named(
        alloc,
        "migrate",
        "Writes an audit again in the newest format",
        AFTER_MIGRATE,
    );
    let command = command.arg(old)?;
    let command = command.arg(out)?;
    Ok(command)
}

fn parse_command<'a>(alloc: Global) -> Result<Command<'a>, AllocError>
    ensures app { IfOk result (λ made. app_of made ≡ parse_line) }
    ensures local { IfOk result (λ made. (out-Command made).has_globals ≡ false) }
{
    let about = "Says of each line of a script that isn't taken where it goes wrong";
    let script = script(alloc, "The script to read, or `-` for standard input");
    let command = named(alloc, "parse", about, AFTER_PARSE);
    let command = command.arg(script)?;
    Ok(command)
}

pub fn audit<'a>(alloc: Global) -> Arg<'a>
    ensures rule { rule_of result ≡ needed (codes "AUDIT") }
    ensures local { result.global ≡ false }
{
    file(
        alloc,
        "AUDIT",
        "The audit, as `rlsdb run --audit` writes it, or `-` for standard input",
    )
}

pub fn out<'a>(alloc: Global) -> Arg<'a>
    ensures rule { rule_of result ≡ needed (codes "OUT") }
    ensures local { result.global ≡ false }
{
    file(
        alloc,
        "OUT",
        "The file that it is written to, or `-` for standard output",
    )
}

fn file<'a>(alloc: Global, name: &'static str, help: &'static str) -> Arg<'a>
    ensures rule { rule_of result ≡ needed name.now }
    ensures local { result.global ≡ false }
{
    Arg::new(alloc, name).required(true).help(help)
}
