//! The command line of `graph`.

ghost use Rattle.std.specs.Prelude.{◌≡◌, false, codes, IfOk, IfErr};
ghost use Rattle.clap.specs.Words.{app_of, found_of, rows_of, rule_of};
ghost use Rattle.clap.specs.declared.builder.command.Command.TheViews.{out-Command};
ghost use Rattle.rls_command_line.specs.CommandLine.{AsksFor, IsGraphWanted, IsLanguage, IsOwn, all_flag, dot_flag, graph_line, mermaid_flag};

use crate::command_line::{Mistake, audit, flag, named, value};
use crate::words::{GraphWanted, Graphed, Language, Request};
use clap::{Arg, ArgAction, ArgMatches, Command};
use std::alloc::{AllocError, Global};

const AFTER_GRAPH: &str = "\
Writes the transactions of AUDIT in serial order, one for each line, then what comes before what:

    txn N commit C snap S login L  transaction N committed as number C; it saw the first S commits
    before T U                     T had committed when U began, and no third transaction stands between them
    rw T U OBJECT                  T read OBJECT, and U, concurrent with T, changed it: so T comes before U

--mermaid and --dot write a picture of the transactions with an `rw` line; with --all, of all.

Example: rlsdb graph AUDIT --mermaid";

/// What the words of the command ask for.
pub fn graph_of<'a>(words: &ArgMatches<'a>) -> Result<Request<'a>, Mistake<'a>>
    ensures ok { IfOk result (AsksFor (codes "graph") (rows_of (found_of words.now))) }
    ensures err { IfErr result IsOwn }
{
    Ok(Request::Graph(Graphed {
        audit: value(words, "AUDIT")?,
        wanted: wanted_of(words)?,
    }))
}

/// How it is written.
fn wanted_of<'a>(words: &ArgMatches<'a>) -> Result<GraphWanted, Mistake<'a>>
    ensures ok { IfOk result (IsGraphWanted (rows_of (found_of words.now))) }
    ensures err { IfErr result IsOwn }
{
    Ok(GraphWanted {
        language: language_of(words)?,
        all: flag(words, "all"),
    })
}

/// The language of the picture, or none.
fn language_of<'a>(words: &ArgMatches<'a>) -> Result<Option<Language>, Mistake<'a>>
    ensures ok { IfOk result (IsLanguage (rows_of (found_of words.now))) }
    ensures err { IfErr result IsOwn }
{
    match (flag(words, "mermaid"), flag(words, "dot")) {
        (false, false) => Ok(None),
        (true, false) => Ok(Some(Language::Mermaid)),
        (false, true) => Ok(Some(Language::Dot)),
        (true, true) => Err(Mistake::Together("--mermaid", "--dot")),
    }
}

pub fn graph_command<'a>(alloc: Global) -> Result<Command<'a>, AllocError>
    ensures app { IfOk result (λ made. app_of made ≡ graph_line) }
    ensures local { IfOk result (λ made. (out-Command made).has_globals ≡ false) }
{
    let about = "Writes which transaction of an audit comes before which, and why";
    let command = named(alloc, "graph", about, AFTER_GRAPH);
    let command = command.arg(audit(alloc))?;
    let command = command.arg(mermaid(alloc))?;
    let command = command.arg(dot(alloc))?;
    let command = command.arg(every(alloc))?;
    Ok(command)
}

fn mermaid<'a>(alloc: Global) -> Arg<'a>
    ensures rule { rule_of result ≡ mermaid_flag }
    ensures local { result.global ≡ false }
{
    Arg::new(alloc, "mermaid")
        .long("mermaid")
        .action(ArgAction::SetTrue)
        .help("Write a picture in Mermaid")
}

fn dot<'a>(alloc: Global) -> Arg<'a>
    ensures rule { rule_of result ≡ dot_flag }
    ensures local { result.global ≡ false }
{
    Arg::new(alloc, "dot")
        .long("dot")
        .action(ArgAction::SetTrue)
        .help("Write a picture in DOT, the language of Graphviz")
}

fn every<'a>(alloc: Global) -> Arg<'a>
    ensures rule { rule_of result ≡ all_flag }
    ensures local { result.global ≡ false }
{
    Arg::new(alloc, "all")
        .long("all")
        .action(ArgAction::SetTrue)
        .help("Draw all transactions, not only those with an `rw` line")
}
