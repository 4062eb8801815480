//! The command line of `lint`.

ghost use Rattle.std.specs.Prelude.{◌≡◌, false, codes, IfOk, IfErr};
ghost use Rattle.clap.specs.Words.{app_of, found_of, rows_of, rule_of};
ghost use Rattle.clap.specs.declared.builder.command.Command.TheViews.{out-Command};
ghost use Rattle.rls_command_line.specs.CommandLine.{AsksFor, IsAfter, IsOwn, after_option, lint_line};

use crate::command_line::{Mistake, NUMBER, audit, given, named, value};
use crate::words::{AuditState, Request, number_of};
use clap::{Arg, ArgMatches, Command};
use std::alloc::{AllocError, Global};

const AFTER_LINT: &str = "\
Writes a line for each policy, privilege or table that is likely a mistake in the state at the end of AUDIT, or behind the
transaction TXN in the serial order (0: before all):

    blind-lookup       a policy reads a table that shows its roles no row
    check-true         WITH CHECK is TRUE, and USING is not
    loop               policies lead back to a table that they came from
    no-check           a policy FOR INSERT has no WITH CHECK
    no-policy          roles hold a privilege, and no policy applies
    null-compared      a policy compares with NULL, which is never true
    open-lookup        a policy reads a table that its roles can read, and that has no row security
    owner-unbound      row security is not forced, and roles with the owner's privileges may log in
    restrictive-alone  roles hold a privilege, and only restrictive policies apply
    rls-off            a table has policies, and row security is not enabled
    to-nobody          a policy is for roles that nobody has
    unreadable         a policy reads a table that its roles may not read

If nothing is found it writes `nothing found`.

Example: rlsdb lint AUDIT --after 12";

/// What the words of the command ask for.
pub fn lint_of<'a>(words: &ArgMatches<'a>) -> Result<Request<'a>, Mistake<'a>>
    ensures ok { IfOk result (AsksFor (codes "lint") (rows_of (found_of words.now))) }
    ensures err { IfErr result IsOwn }
{
    Ok(Request::Lint(AuditState {
        audit: value(words, "AUDIT")?,
        after: after_of(words)?,
    }))
}

/// The number of the transaction, if it is given.
pub fn after_of<'a>(words: &ArgMatches<'a>) -> Result<Option<u64>, Mistake<'a>>
    ensures ok { IfOk result (IsAfter (rows_of (found_of words.now))) }
    ensures err { IfErr result IsOwn }
{
    let Some(text) = given(words, "after") else {
        return Ok(None);
    };
    match number_of(text) {
        Some(number) => Ok(Some(number)),
        None => Err(Mistake::Value("--after <TXN>", text, NUMBER)),
    }
}

pub fn lint_command<'a>(alloc: Global) -> Result<Command<'a>, AllocError>
    ensures app { IfOk result (λ made. app_of made ≡ lint_line) }
    ensures local { IfOk result (λ made. (out-Command made).has_globals ≡ false) }
{
    let about = "Tells what in a state is likely a mistake";
    let command = named(alloc, "lint", about, AFTER_LINT);
    let command = command.arg(audit(alloc))?;
    let command = command.arg(after(alloc))?;
    Ok(command)
}

pub fn after<'a>(alloc: Global) -> Arg<'a>
    ensures rule { rule_of result ≡ after_option }
    ensures local { result.global ≡ false }
{
    Arg::new(alloc, "after")
        .long("after")
        .value_name("TXN")
        .help("Take the state behind this transaction, not the end")
}
