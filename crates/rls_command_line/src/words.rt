//! What the words of the command line ask for.

ghost use Rattle.std.specs.Prelude.{◌≡◌, ◌^◌, SomeIff, MatchOption};
ghost use Rattle.std.specs.Str.Parse.{digits_value};
ghost use Rattle.rls_value.specs.declared.row.RowId.{RowId};
ghost use Rattle.rls_command_line.specs.Words as spec;
ghost use Rattle.rls_command_line.specs.Words.{IsDecimal, IsRowText};

use rls_value::{Items, Name, RowId};

/// A script to run.
#[derive(Clone, Copy)]
pub struct ScriptFile<'a> {
    /// Its file, or `-` for standard input.
    pub file: &'a str,
    /// Whether each label has a thread.
    pub threads: bool,
    /// The file that its audit is written to, or `-` for standard output.
    pub audit: Option<&'a str>,
    /// Whether serialization failures are told without the objects and the transactions.
    pub terse: bool,
    /// Whether standard error is told what is wrong with lines that aren't taken.
    pub hints: bool,
}

/// A statement of an audit to be explained, and perhaps a row.
#[derive(Clone, Copy)]
pub struct Explain<'a> {
    pub audit: &'a str,
    pub txn: u64,
    /// Counted from 1.
    pub statement: u64,
    pub row: Option<RowId>,
    /// With values and reasons.
    pub long: bool,
}

/// An audit, and which of its statements and rows are asked for.
#[derive(Drop)]
pub struct Shown<'a> {
    /// Its file, or `-` for standard input.
    pub audit: &'a str,
    pub wanted: Wanted,
}

/// Which statements and rows of an audit are asked for: of each list one, where it has any, and all of the lists together.
#[derive(Drop)]
pub struct Wanted {
    /// The role that a statement was run in.
    pub roles: Items<Name>,
    /// The role that its session connected as.
    pub logins: Items<Name>,
    /// Its transaction.
    pub txns: Items<u64>,
    pub tables: Items<Name>,
    pub rows: Items<RowId>,
    /// Only rows that policies denied.
    pub denied: bool,
    /// Each row on its line.
    pub all: bool,
    /// An object a statement, with all rows.
    pub json: bool,
}

/// A state of an audit.
#[derive(Clone, Copy)]
pub struct AuditState<'a> {
    /// Its file, or `-` for standard input.
    pub audit: &'a str,
    /// The transaction behind which it stands; none for the end.
    pub after: Option<u64>,
}

/// An audit whose graph is asked for.
#[derive(Clone, Copy)]
pub struct Graphed<'a> {
    /// Its file, or `-` for standard input.
    pub audit: &'a str,
    pub wanted: GraphWanted,
}

/// An audit of which a report is asked for.
#[derive(Drop)]
pub struct Reported<'a> {
    /// Its file, or `-` for standard input.
    pub audit: &'a str,
    /// The file that the report is written to, or `-` for standard output.
    pub out: &'a str,
    pub wanted: Wanted,
    /// So many rows of a table in a statement at most.
    pub most: u64,
}

/// How the graph is to be written: as lines, or as a picture.
#[derive(Clone, Copy)]
pub struct GraphWanted {
    /// The language of the picture; none for lines.
    pub language: Option<Language>,
    /// Whether a picture has all transactions.
    pub all: bool,
}

/// A language of pictures.
#[derive(Clone, Copy)]
pub enum Language {
    Mermaid,
    Dot,
}

/// Transcripts to be tested.
#[derive(Drop)]
pub struct Tests<'a> {
    /// Their files, or `-` for standard input.
    pub files: Vec<&'a str>,
    /// Whether the answers that come are written into them.
    pub write: bool,
}

/// Audits to be checked.
#[derive(Drop)]
pub struct Checks<'a> {
    /// Their files, or `-` for standard input.
    pub audits: Vec<&'a str>,
    /// Whether the exit status alone says what is found.
    pub quiet: bool,
}

/// A command with what it is about.
#[derive(Drop)]
pub enum Request<'a> {
    Run(ScriptFile<'a>),
    /// The same, up to the first refusal.
    RunStopping(ScriptFile<'a>),
    /// Each answer behind the transaction that its line was answered in.
    RunNumbered(ScriptFile<'a>),
    /// With the transactions that end without a commit in this file.
    RunKeeping(ScriptFile<'a>, &'a str),
    Test(Tests<'a>),
    Order(&'a str),
    /// The same, with who committed what.
    OrderLong(&'a str),
    Check(Checks<'a>),
    Explain(Explain<'a>),
    Shown(Shown<'a>),
    /// The same of the transactions in this file, which ended without a commit.
    ShownAttempts(Shown<'a>, &'a str),
    Lint(AuditState<'a>),
    Dump(AuditState<'a>),
    Graph(Graphed<'a>),
    Report(Reported<'a>),
    /// From the first file into the second, or, where that is `-`, to standard output.
    Migrate(&'a str, &'a str),
    /// What of this script isn't taken.
    Parse(&'a str),
}

/// Whether the file that a command writes is the standard output.
pub fn is_output(name: &str) -> bool
    ensures { result ≡ spec.is_output name.now }
{
    name == "-"
}

/// The same of a file that may not be wanted.
pub fn is_output_wanted(name: Option<&str>) -> bool
    ensures { result ≡ spec.is_output_wanted name.entry }
{
    match name {
        Some(name) => is_output(name),
        None => false,
    }
}

/// The number below 2^64 that the text is: decimal digits alone.
pub fn number_of(text: &str) -> Option<u64>
    ensures { SomeIff result (IsDecimal (2 ^ 64) text.now) (digits_value 10 text.now) }
{
    // `parse` would take a plus.
    if text.starts_with('+') {
        return None;
    }
    match text.parse::<u64>() {
        Ok(number) => Some(number),
        Err(_) => None,
    }
}

/// The same below 2^32.
fn place_of(text: &str) -> Option<u32>
    ensures { SomeIff result (IsDecimal (2 ^ 32) text.now) (digits_value 10 text.now) }
{
    if text.starts_with('+') {
        return None;
    }
    match text.parse::<u32>() {
        Ok(place) => Some(place),
        Err(_) => None,
    }
}

/// The number of a row that the text is: `T.N`.
pub fn row_of(text: &str) -> Option<RowId>
    ensures { MatchOption result ((row : RowId) → ¬ (IsRowText text.now row)) (IsRowText text.now) }
{
    match text.split_once('.') {
        Some((txn, n)) => row_with(txn, n),
        None => None,
    }
}

/// The row whose numbers the two texts are.
fn row_with(txn: &str, n: &str) -> Option<RowId>
    ensures { SomeIff result (IsDecimal (2 ^ 64) txn.now × IsDecimal (2 ^ 32) n.now) (record { txn = digits_value 10 txn.now; n = digits_value 10 n.now }) }
{
    match (number_of(txn), place_of(n)) {
        (Some(txn), Some(n)) => Some(RowId { txn, n }),
        _ => None,
    }
}
