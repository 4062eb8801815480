//! What a command requests of its label's session.

ghost use Rattle.std.specs.Prelude.{◌≡◌, ℕ, true, length, nat_lt, IfOk, IsOkAnd, Ok};
ghost use Rattle.rls_script.specs.Requests as spec;
ghost use Rattle.rls_script.specs.Requests.{AsksAs, AsksOf, IsAtOnce, IsReadAs, Requests, RequestsAs, requested_connect, within_line};
ghost use Rattle.rls_script.specs.Connects.{ConnectsToLongName, is_long_name, role_named};
ghost use Rattle.rls_script.specs.Spelled.{IfAsked, IfRequested, IsSpellable};
ghost use Rattle.rls_text.specs.Commands.{IfRun};

use crate::connect::{behind_connect, role_in};
use rls_guard::Mode;
use rls_statement::{AccessMode, Command, Statement};
use rls_text::parse_command;
use rls_value::shared::Share;
use rls_value::{Limit, Name, Refusal, TxnState};
use std::alloc::{AllocError, Global};

/// The most bytes that a line's command has, after the blanks behind its label.
pub const MAX_COMMAND: usize = 65_536;

/// How a label stands: nobody is connected, or its session is outside a block, in an open one, or in one that is over.
#[derive(Clone, Copy)]
pub enum Status {
    Nobody,
    Outside,
    Open,
    Over,
}

/// What is asked of a session.
#[derive(Drop)]
pub enum Ask {
    /// A transaction, for a block.
    Begin(Mode),
    /// The statement, in the transaction of the open block.
    Post(Share<Statement>),
    /// The statement, in a transaction of its own: a begin, a post and a commit.
    Run(Share<Statement>),
    Commit,
    /// The end of a block, open or over.
    Rollback,
}

/// What a command requests.
#[derive(Drop)]
pub enum Request {
    /// Nothing: it is refused at once.
    Nothing(Refusal),
    /// A session of the role, by a transaction without statements; that of an open block is rolled back.
    Connect(Name),
    Ask(Ask),
}

/// What the command requests under a label that stands so.
pub fn request_for(alloc: Global, status: Status, command: &str) -> Result<Request, AllocError>
    ensures requests { IfOk result (Requests status command.now) }
    ensures spelled { IfOk result (IfRequested IsSpellable) }

    // A name over its limit is refused as such, and never as want of memory.
    ensures long_name { ConnectsToLongName command.now → IsOkAnd result IsAtOnce }
{
    match behind_connect(command) {
        Some(behind) => request_connect(alloc, command, behind),
        None => request_as(alloc, status, command),
    }
}

fn request_connect(alloc: Global, command: &str, behind: &str) -> Result<Request, AllocError>
    ensures requests { IfOk result (λ request. request ≡ requested_connect (within_line command.now (role_named behind.now))) }
    ensures spelled { IfOk result (IfRequested IsSpellable) }
    ensures long_name { is_long_name behind.now ≡ true → IsOkAnd result IsAtOnce }
{
    if command.len() > MAX_COMMAND {
        return Ok(Request::Nothing(Refusal::Limit(Limit::Line)));
    }
    match role_in(alloc, behind) {
        Ok(role) => Ok(Request::Connect(role)),
        Err(Refusal::NoMemory) => Err(AllocError),
        Err(refusal) => Ok(Request::Nothing(refusal)),
    }
}

fn request_as(alloc: Global, status: Status, command: &str) -> Result<Request, AllocError>
    ensures requests { IfOk result (RequestsAs status command.now) }
    ensures spelled { IfOk result (IfRequested IsSpellable) }
{
    match ask_as(alloc, status, command) {
        Ok(Ok(ask)) => Ok(Request::Ask(ask)),
        Ok(Err(refusal)) => Ok(Request::Nothing(refusal)),
        Err(refused) => Err(refused),
    }
}

fn ask_as(alloc: Global, status: Status, command: &str) -> Result<Result<Ask, Refusal>, AllocError>
    ensures asks { IfOk result (AsksAs status command.now) }
    ensures spelled { IfOk result (λ given. IfOk given (IfAsked IsSpellable)) }
{
    match status {
        Status::Nobody => Ok(Err(Refusal::NoLogin(None))),
        Status::Outside => ask_of(alloc, Status::Outside, command),
        Status::Open => ask_of(alloc, Status::Open, command),
        Status::Over => ask_of(alloc, Status::Over, command),
    }
}

/// What a command that is no `\connect` asks of a session that stands so, or why it is refused at once.
pub fn ask_of(
    alloc: Global,
    status: Status,
    command: &str,
) -> Result<Result<Ask, Refusal>, AllocError>
    ensures asks { IfOk result (AsksOf status command.now) }
    ensures spelled { IfOk result (λ given. IfOk given (IfAsked IsSpellable)) }
{
    let read = read(alloc, command)?;
    let asked = asked(alloc, status, read)?;
    Ok(asked)
}

/// What the command is read as. Want of memory ends the run, and is no answer.
#[tactic(auto, using(crate::proofs::SpelledLaws::run_spelled))]
fn read(alloc: Global, command: &str) -> Result<Result<Command, Refusal>, AllocError>
    ensures reads { IfOk result (IsReadAs (nat_lt 65536 (length command.now)) command.now) }
    ensures spelled { IfOk result (λ given. IfOk given (λ command. IfRun command IsSpellable)) }
{
    if command.len() > MAX_COMMAND {
        return Ok(Err(Refusal::Limit(Limit::Line)));
    }
    match parse_command(alloc, command) {
        Ok(command) => Ok(Ok(command)),
        Err(Refusal::NoMemory) => Err(AllocError),
        Err(refusal) => Ok(Err(refusal)),
    }
}

// A block that is over is told before what the command is.
fn asked(
    alloc: Global,
    status: Status,
    read: Result<Command, Refusal>,
) -> Result<Result<Ask, Refusal>, AllocError>
    ensures { IfOk result (λ given. given ≡ spec.asked status read) }
{
    match status {
        Status::Nobody => {
            drop(read);
            Ok(Err(Refusal::NoLogin(None)))
        }
        Status::Over => {
            let ask = asked_over(&read);
            drop(read);
            Ok(ask)
        }
        Status::Outside => match read {
            Ok(command) => asked_outside(alloc, command),
            Err(refusal) => Ok(Err(refusal)),
        },
        Status::Open => match read {
            Ok(command) => asked_inside(alloc, command),
            Err(refusal) => Ok(Err(refusal)),
        },
    }
}

fn asked_outside(alloc: Global, command: Command) -> Result<Result<Ask, Refusal>, AllocError>
    ensures { IfOk result (λ given. given ≡ spec.asked_outside command) }
{
    match command {
        Command::Begin(mode) => Ok(Ok(Ask::Begin(mode_of(mode)))),
        Command::Commit | Command::Rollback => {
            Ok(Err(Refusal::TxnState(TxnState::NoneInProgress)))
        }
        Command::Run(statement) => Ok(Ok(Ask::Run(Share::new(alloc, statement)?))),
    }
}

fn asked_inside(alloc: Global, command: Command) -> Result<Result<Ask, Refusal>, AllocError>
    ensures { IfOk result (λ given. given ≡ spec.asked_inside command) }
{
    match command {
        Command::Begin(_) => Ok(Err(Refusal::TxnState(TxnState::AlreadyInProgress))),
        Command::Commit => Ok(Ok(Ask::Commit)),
        Command::Rollback => Ok(Ok(Ask::Rollback)),
        Command::Run(statement) => Ok(Ok(Ask::Post(Share::new(alloc, statement)?))),
    }
}

fn asked_over(read: &Result<Command, Refusal>) -> Result<Ask, Refusal>
    ensures { result ≡ spec.asked_over read.now }
{
    match read {
        Ok(Command::Commit) => Ok(Ask::Rollback),
        Ok(Command::Rollback) => Ok(Ask::Rollback),
        _ => Err(Refusal::TxnState(TxnState::Over)),
    }
}

fn mode_of(mode: AccessMode) -> Mode
    ensures { result ≡ spec.mode_of mode }
{
    match mode {
        AccessMode::ReadWrite => Mode::Write,
        AccessMode::ReadOnly => Mode::Read,
    }
}
