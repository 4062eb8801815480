//! The command line of `shown`: its options, and the statements and rows that they ask for.

ghost use Rattle.std.specs.Prelude.{◌≡◌, [], false, map, codes, unwrap_or, IfOk, IfErr};
ghost use Rattle.std.specs.List.{AllZip};
ghost use Rattle.clap.specs.Words.{all_of, app_of, found_of, rows_of, rule_of};
ghost use Rattle.clap.specs.declared.builder.command.Command.TheViews.{out-Command};
ghost use Rattle.rls_command_line.specs.CommandLine.{AsksFor, IsNameOf, IsNumberOf, IsOwn, all_flag, attempts_option, denied_flag, json_flag, many_option, shown_line};
ghost use Rattle.rls_command_line.specs.CommandLine as spec;
ghost use Rattle.rls_command_line.specs.Words.{IsRowText};

use crate::command_line::{KEPT, Mistake, NUMBER, ROW, audit, flag, given, named, value};
use crate::words::{Request, Shown, Wanted, number_of, row_of};
use clap::{Arg, ArgAction, ArgMatches, Command};
use rls_value::{Items, Name, Refusal, RowId};
use std::alloc::{AllocError, Global};

const AFTER_SHOWN: &str = "\
Runs each statement of AUDIT on rows again, in the serial order, and writes what it did with each row that it came to:

    listed, counted              a SELECT lists it, or counts it
    changed, deleted, inserted   as the statement did
    returned                     RETURNING lists it
    hidden                       the policies for SELECT deny it
    barred                       those for the statement's own type deny it
    skipped                      WHERE is not true of it
    refused                      a policy denies the new row, so that the statement was refused
    matched, proposed            a row, and a new one, of a statement that was refused
    seen                         a subquery, of the statement or of a policy, could see it

Rows that are hidden, barred or skipped are counted, and of those that could be seen 20 of a table are written. With --denied,
--table, --row or --all each is written on its line, and with --json in an object a statement. An option that is repeated means
`or`; different options mean `and`.

With --attempts it does the same with the transactions of OUT, which `run --attempts OUT` wrote beside AUDIT: they ended without a
commit. Each runs alone, on the state after the commits of AUDIT that it began behind, and has `attempt` for `txn`, and how it ended.

Example: rlsdb shown AUDIT --role ann --denied";

const NAME: &str = "a name";

/// What the words of the command ask for.
pub fn shown_of<'a>(alloc: Global, words: &ArgMatches<'a>) -> Result<Request<'a>, Mistake<'a>>
    ensures ok { IfOk result (AsksFor (codes "shown") (rows_of (found_of words.now))) }
    ensures err { IfErr result IsOwn }
{
    let shown = Shown {
        audit: value(words, "AUDIT")?,
        wanted: wanted_of(alloc, words)?,
    };
    if let Some(out) = given(words, "attempts") {
        if out == "-" {
            drop(shown);
            return Err(Mistake::Value("--attempts <OUT>", "-", KEPT));
        }
        return Ok(Request::ShownAttempts(shown, out));
    }
    Ok(Request::Shown(shown))
}

/// Which statements and rows they ask for.
fn wanted_of<'a>(alloc: Global, words: &ArgMatches<'a>) -> Result<Wanted, Mistake<'a>>
    ensures ok { IfOk result (spec.IsWanted (rows_of (found_of words.now))) }
    ensures err { IfErr result IsOwn }
{
    let roles = names(alloc, words, "role", "--role <ROLE>")?;
    let logins = names(alloc, words, "login", "--login <ROLE>")?;
    let txns = txns(alloc, words)?;
    let tables = names(alloc, words, "table", "--table <TABLE>")?;
    let rows = rows(alloc, words)?;
    Ok(Wanted {
        roles,
        logins,
        txns,
        tables,
        rows,
        denied: flag(words, "denied"),
        all: flag(words, "all"),
        json: flag(words, "json"),
    })
}

/// The names that are the option's values.
pub fn names<'a>(
    alloc: Global,
    words: &ArgMatches<'a>,
    id: &str,
    shown: &'static str,
) -> Result<Items<Name>, Mistake<'a>>
    ensures ok { IfOk result (AllZip IsNameOf (unwrap_or (all_of id.now (rows_of (found_of words.now))) [])) }
    ensures err { IfErr result IsOwn }
{
    match words.get_strs(id) {
        Some(texts) => names_of(alloc, texts, shown),
        None => Ok(Items::new(alloc)),
    }
}

#[tactic(auto, using(crate::proofs::ShownLineLemmas::zip_on, crate::proofs::ShownLineLemmas::zip_all))]
fn names_of<'a>(
    alloc: Global,
    mut texts: &[&'a str],
    shown: &'static str,
) -> Result<Items<Name>, Mistake<'a>>
    ensures ok { IfOk result (AllZip IsNameOf (map (λ text. text.now) texts.entry.now)) }
    ensures err { IfErr result IsOwn }
{
    let mut names = Items::new(alloc);
    while let [text, rest @ ..] = texts {
        names.push(name_of(alloc, *text, shown)?)?;
        texts = rest;
    }
    Ok(names)
}

fn name_of<'a>(alloc: Global, text: &'a str, shown: &'static str) -> Result<Name, Mistake<'a>>
    ensures ok { IfOk result (IsNameOf text.entry.now) }
    ensures err { IfErr result IsOwn }
{
    match Name::new(alloc, text) {
        Ok(name) => Ok(name),
        Err(Refusal::NoMemory) => Err(Mistake::from(AllocError)),
        Err(refusal) => {
            drop(refusal);
            Err(Mistake::Value(shown, text, NAME))
        }
    }
}

/// The numbers that --txn has.
pub fn txns<'a>(alloc: Global, words: &ArgMatches<'a>) -> Result<Items<u64>, Mistake<'a>>
    ensures ok { IfOk result (AllZip IsNumberOf (unwrap_or (all_of (codes "txn") (rows_of (found_of words.now))) [])) }
    ensures err { IfErr result IsOwn }
{
    match words.get_strs("txn") {
        Some(texts) => numbers_of(alloc, texts),
        None => Ok(Items::new(alloc)),
    }
}

#[tactic(auto, using(crate::proofs::ShownLineLemmas::zip_on, crate::proofs::ShownLineLemmas::zip_all))]
fn numbers_of<'a>(alloc: Global, mut texts: &[&'a str]) -> Result<Items<u64>, Mistake<'a>>
    ensures ok { IfOk result (AllZip IsNumberOf (map (λ text. text.now) texts.entry.now)) }
    ensures err { IfErr result IsOwn }
{
    let mut numbers = Items::new(alloc);
    while let [text, rest @ ..] = texts {
        match number_of(*text) {
            Some(number) => numbers.push(number)?,
            None => return Err(Mistake::Value("--txn <TXN>", *text, NUMBER)),
        }
        texts = rest;
    }
    Ok(numbers)
}

/// The rows that --row has.
fn rows<'a>(alloc: Global, words: &ArgMatches<'a>) -> Result<Items<RowId>, Mistake<'a>>
    ensures ok { IfOk result (AllZip IsRowText (unwrap_or (all_of (codes "row") (rows_of (found_of words.now))) [])) }
    ensures err { IfErr result IsOwn }
{
    match words.get_strs("row") {
        Some(texts) => rows_named(alloc, texts),
        None => Ok(Items::new(alloc)),
    }
}

#[tactic(auto, using(crate::proofs::ShownLineLemmas::zip_on, crate::proofs::ShownLineLemmas::zip_all))]
fn rows_named<'a>(alloc: Global, mut texts: &[&'a str]) -> Result<Items<RowId>, Mistake<'a>>
    ensures ok { IfOk result (AllZip IsRowText (map (λ text. text.now) texts.entry.now)) }
    ensures err { IfErr result IsOwn }
{
    let mut rows = Items::new(alloc);
    while let [text, rest @ ..] = texts {
        match row_of(*text) {
            Some(row) => rows.push(row)?,
            None => return Err(Mistake::Value("--row <T.N>", *text, ROW)),
        }
        texts = rest;
    }
    Ok(rows)
}

/// The command, before its words.
pub fn shown_command<'a>(alloc: Global) -> Result<Command<'a>, AllocError>
    ensures app { IfOk result (λ made. app_of made ≡ shown_line) }
    ensures local { IfOk result (λ made. (out-Command made).has_globals ≡ false) }
{
    let about = "Shows what each statement of an audit did with each row that it came to";
    let command = named(alloc, "shown", about, AFTER_SHOWN);
    let command = command.arg(audit(alloc))?;
    let command = command.arg(role(alloc))?;
    let command = command.arg(login(alloc))?;
    let command = command.arg(txn(alloc))?;
    let command = command.arg(table(alloc))?;
    let command = command.arg(row(alloc))?;
    let command = command.arg(denied(alloc))?;
    let command = command.arg(all(alloc))?;
    let command = command.arg(json(alloc))?;
    let command = command.arg(attempts(alloc))?;
    Ok(command)
}

pub fn role<'a>(alloc: Global) -> Arg<'a>
    ensures rule { rule_of result ≡ many_option (codes "role") }
    ensures local { result.global ≡ false }
{
    let help = "Only statements that were run in this role";
    repeated(alloc, "role", "ROLE", help)
}

pub fn login<'a>(alloc: Global) -> Arg<'a>
    ensures rule { rule_of result ≡ many_option (codes "login") }
    ensures local { result.global ≡ false }
{
    let help = "Only those of sessions that connected as this role";
    repeated(alloc, "login", "ROLE", help)
}

pub fn txn<'a>(alloc: Global) -> Arg<'a>
    ensures rule { rule_of result ≡ many_option (codes "txn") }
    ensures local { result.global ≡ false }
{
    repeated(alloc, "txn", "TXN", "Only those of this transaction")
}

pub fn table<'a>(alloc: Global) -> Arg<'a>
    ensures rule { rule_of result ≡ many_option (codes "table") }
    ensures local { result.global ≡ false }
{
    repeated(alloc, "table", "TABLE", "Only rows of this table")
}

fn row<'a>(alloc: Global) -> Arg<'a>
    ensures rule { rule_of result ≡ many_option (codes "row") }
    ensures local { result.global ≡ false }
{
    repeated(alloc, "row", "T.N", "Only this row: its life")
}

/// An option that may be repeated.
fn repeated<'a>(alloc: Global, id: &'static str, value: &'static str, help: &'static str) -> Arg<'a>
    ensures rule { rule_of result ≡ many_option id.now }
    ensures local { result.global ≡ false }
{
    Arg::new(alloc, id)
        .long(id)
        .value_name(value)
        .action(ArgAction::Append)
        .help(help)
}

pub fn denied<'a>(alloc: Global) -> Arg<'a>
    ensures rule { rule_of result ≡ denied_flag }
    ensures local { result.global ≡ false }
{
    Arg::new(alloc, "denied")
        .long("denied")
        .action(ArgAction::SetTrue)
        .help("Only rows that were hidden, barred or refused")
}

fn all<'a>(alloc: Global) -> Arg<'a>
    ensures rule { rule_of result ≡ all_flag }
    ensures local { result.global ≡ false }
{
    Arg::new(alloc, "all")
        .long("all")
        .action(ArgAction::SetTrue)
        .help("Write each row on its line")
}

fn json<'a>(alloc: Global) -> Arg<'a>
    ensures rule { rule_of result ≡ json_flag }
    ensures local { result.global ≡ false }
{
    Arg::new(alloc, "json")
        .long("json")
        .action(ArgAction::SetTrue)
        .help("Write an object a statement, with all rows")
}

fn attempts<'a>(alloc: Global) -> Arg<'a>
    ensures rule { rule_of result ≡ attempts_option }
    ensures local { result.global ≡ false }
{
    Arg::new(alloc, "attempts")
        .long("attempts")
        .value_name("OUT")
        .help("Of the transactions of this file, which ended without a commit")
}
