//! The command line of `report`.

ghost use Rattle.std.specs.Prelude.{◌≡◌, false, codes, IfOk, IfErr};
ghost use Rattle.clap.specs.Words.{app_of, found_of, rows_of, rule_of};
ghost use Rattle.clap.specs.declared.builder.command.Command.TheViews.{out-Command};
ghost use Rattle.rls_command_line.specs.CommandLine.{AsksFor, IsMost, IsOwn, IsReportWanted, report_line, rows_option};

use crate::command_line::{Mistake, NUMBER, audit, flag, given, named, out, value};
use crate::shown_line::{denied, login, names, role, table, txn, txns};
use crate::words::{Reported, Request, Wanted, number_of};
use clap::{Arg, ArgMatches, Command};
use rls_value::Items;
use std::alloc::{AllocError, Global};

const AFTER_REPORT: &str = "\
Writes a page in HTML that a browser shows without a network: a timeline of the transactions of AUDIT, and of each statement the
rows that it came to, each with its decisions, their policies and the parts of their conditions. What the options leave out isn't
on the page. An option that is repeated means `or`; different options mean `and`.

Example: rlsdb report AUDIT report.html --role ann";

/// So many rows are written without --rows.
const MOST: u64 = 50;

/// What the words of the command ask for.
pub fn report_of<'a>(alloc: Global, words: &ArgMatches<'a>) -> Result<Request<'a>, Mistake<'a>>
    ensures ok { IfOk result (AsksFor (codes "report") (rows_of (found_of words.now))) }
    ensures err { IfErr result IsOwn }
{
    Ok(Request::Report(Reported {
        audit: value(words, "AUDIT")?,
        out: value(words, "OUT")?,
        most: most_of(words)?,
        wanted: wanted_of(alloc, words)?,
    }))
}

/// How many rows of a table in a statement are written at most.
fn most_of<'a>(words: &ArgMatches<'a>) -> Result<u64, Mistake<'a>>
    ensures ok { IfOk result (IsMost (rows_of (found_of words.now))) }
    ensures err { IfErr result IsOwn }
{
    let Some(text) = given(words, "rows") else {
        return Ok(MOST);
    };
    match number_of(text) {
        Some(number) => Ok(number),
        None => Err(Mistake::Value("--rows <N>", text, NUMBER)),
    }
}

/// Which statements and rows they ask for.
fn wanted_of<'a>(alloc: Global, words: &ArgMatches<'a>) -> Result<Wanted, Mistake<'a>>
    ensures ok { IfOk result (IsReportWanted (rows_of (found_of words.now))) }
    ensures err { IfErr result IsOwn }
{
    let roles = names(alloc, words, "role", "--role <ROLE>")?;
    let logins = names(alloc, words, "login", "--login <ROLE>")?;
    let txns = txns(alloc, words)?;
    let tables = names(alloc, words, "table", "--table <TABLE>")?;
    Ok(Wanted {
        roles,
        logins,
        txns,
        tables,
        rows: Items::new(alloc),
        denied: flag(words, "denied"),
        all: false,
        json: false,
    })
}

/// The command, before its words.
pub fn report_command<'a>(alloc: Global) -> Result<Command<'a>, AllocError>
    ensures app { IfOk result (λ made. app_of made ≡ report_line) }
    ensures local { IfOk result (λ made. (out-Command made).has_globals ≡ false) }
{
    let about = "Writes a page in HTML of an audit: who saw what, and why";
    let command = named(alloc, "report", about, AFTER_REPORT);
    let command = command.arg(audit(alloc))?;
    let command = command.arg(out(alloc))?;
    let command = command.arg(role(alloc))?;
    let command = command.arg(login(alloc))?;
    let command = command.arg(txn(alloc))?;
    let command = command.arg(table(alloc))?;
    let command = command.arg(denied(alloc))?;
    let command = command.arg(rows(alloc))?;
    Ok(command)
}

fn rows<'a>(alloc: Global) -> Arg<'a>
    ensures rule { rule_of result ≡ rows_option }
    ensures local { result.global ≡ false }
{
    Arg::new(alloc, "rows").long("rows").value_name("N").help(
        "Write so many rows of a table in a statement at most; 50 without it",
    )
}
