//! The command line of `dump`.

ghost use Rattle.std.specs.Prelude.{◌≡◌, false, codes, IfOk, IfErr};
ghost use Rattle.clap.specs.Words.{app_of, found_of, rows_of};
ghost use Rattle.clap.specs.declared.builder.command.Command.TheViews.{out-Command};
ghost use Rattle.rls_command_line.specs.CommandLine.{AsksFor, IsOwn, dump_line};

use crate::command_line::{Mistake, audit, named, value};
use crate::lint_line::{after, after_of};
use crate::words::{AuditState, Request};
use clap::{ArgMatches, Command};
use std::alloc::{AllocError, Global};

const AFTER_DUMP: &str = "\
Writes a script that rebuilds the state at the end of AUDIT, or behind the transaction TXN in the serial order (0: before all).
Run on an empty database it makes the same roles, memberships, tables, grants, policies and rows. Numbers of rows and of
transactions differ. Its lines have the label `p`: the lines behind it may use it too.

It runs the script before it writes it. Where no script rebuilds the state, as with a row that no line holds, it writes nothing.

Example: (rlsdb dump AUDIT --after 12; cat MORE) | rlsdb run -";

/// What the words of the command ask for.
pub fn dump_of<'a>(words: &ArgMatches<'a>) -> Result<Request<'a>, Mistake<'a>>
    ensures ok { IfOk result (AsksFor (codes "dump") (rows_of (found_of words.now))) }
    ensures err { IfErr result IsOwn }
{
    Ok(Request::Dump(AuditState {
        audit: value(words, "AUDIT")?,
        after: after_of(words)?,
    }))
}

pub fn dump_command<'a>(alloc: Global) -> Result<Command<'a>, AllocError>
    ensures app { IfOk result (λ made. app_of made ≡ dump_line) }
    ensures local { IfOk result (λ made. (out-Command made).has_globals ≡ false) }
{
    let about = "Writes a script that rebuilds a state";
    let command = named(alloc, "dump", about, AFTER_DUMP);
    let command = command.arg(audit(alloc))?;
    let command = command.arg(after(alloc))?;
    Ok(command)
}
