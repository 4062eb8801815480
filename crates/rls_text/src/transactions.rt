//! What begins and ends a block of statements, from tokens.

ghost use Rattle.std.specs.Prelude.{◌≡◌, length, Some};
ghost use Rattle.rls_text.specs.{Heads.sees, Parses.read_many};
ghost use Rattle.rls_text.specs.Commands as spec;
ghost use Rattle.rls_text.specs.Gives.{Gives, GivesWhole, with_front};
ghost use Rattle.rls_text.specs.Transactions as g;

use crate::fault::Fault;
use crate::reading::{only, sees_one_of, sees_symbol, symbol, two_words, word};
use crate::token::{Symbol, Token};
use rls_statement::{AccessMode, Command};
use rls_value::Items;
use std::alloc::Global;

/// A mode of a transaction as it is written.
#[derive(Clone, Copy, PartialEq, Eq)]
pub enum TransactionMode {
    /// `ISOLATION LEVEL SERIALIZABLE`, which each transaction has.
    Serializable,
    /// `READ ONLY` or `READ WRITE`.
    Access(AccessMode),
}

const BEGIN: [&[u8]; 2] = [b"begin", b"start"];

const COMMIT: [&[u8]; 2] = [b"commit", b"end"];

const MODES: [&[u8]; 2] = [b"isolation", b"read"];

const TRANSACTION: [&[u8]; 6] = [b"begin", b"start", b"commit", b"end", b"rollback", b"abort"];

/// Whether the first word begins or ends a block, as that of no statement does.
pub fn starts_transaction(tokens: &[Token]) -> bool
    ensures { result ≡ sees g.transaction_heads tokens.now }
{
    sees_one_of(tokens, &TRANSACTION)
}

/// What begins or ends a block, and takes up all of the tokens.
#[tactic(auto, unfolding(crate::specs::Commands::whole_transaction))]
pub fn whole_transaction(alloc: Global, tokens: &[Token]) -> Result<Command, Fault>
    ensures { GivesWhole result (spec.whole_transaction tokens.now) }
{
    let (command, rest) = transaction(alloc, tokens)?;
    match rest {
        [] => Ok(command),
        [_, ..] => {
            drop(command);
            Err(Fault::Syntax)
        }
    }
}

/// What begins or ends a block, with a semicolon or without.
#[tactic(auto, unfolding(crate::specs::Transactions::transaction))]
fn transaction(alloc: Global, tokens: &[Token]) -> Result<(Command, &[Token]), Fault>
    ensures { Gives result (g.transaction.parses.read tokens.now) }
{
    let (command, rest) = bare_transaction(alloc, tokens)?;
    match symbol(rest, Symbol::Semicolon) {
        Some(rest) => Ok((command, rest)),
        None => Ok((command, rest)),
    }
}

#[tactic(auto, unfolding(crate::specs::Transactions::bare_transaction))]
fn bare_transaction(alloc: Global, tokens: &[Token]) -> Result<(Command, &[Token]), Fault>
    ensures { Gives result (g.bare_transaction.parses.read tokens.now) }
{
    if sees_one_of(tokens, &BEGIN) {
        begin(alloc, tokens)
    } else if sees_one_of(tokens, &COMMIT) {
        commit(tokens)
    } else {
        rollback(tokens)
    }
}

#[tactic(auto, unfolding(crate::specs::Transactions::begin))]
fn begin(alloc: Global, tokens: &[Token]) -> Result<(Command, &[Token]), Fault>
    ensures { Gives result (g.begin.parses.read tokens.now) }
{
    let (mode, rest) = begun_or_started(alloc, tokens)?;
    Ok((Command::Begin(mode), rest))
}

#[tactic(auto, unfolding(crate::specs::Transactions::begun_or_started, crate::specs::Transactions::begun, crate::specs::Transactions::started))]
fn begun_or_started(alloc: Global, tokens: &[Token]) -> Result<(AccessMode, &[Token]), Fault>
    ensures { Gives result (g.begun_or_started.parses.read tokens.now) }
{
    if let Some(rest) = word(tokens, b"begin") {
        access_mode(alloc, behind_work(rest))
    } else if let Some(rest) = two_words(tokens, b"start", b"transaction") {
        access_mode(alloc, rest)
    } else {
        Err(Fault::Syntax)
    }
}

#[tactic(auto, unfolding(crate::specs::Transactions::commit))]
fn commit(tokens: &[Token]) -> Result<(Command, &[Token]), Fault>
    ensures { Gives result (g.commit.parses.read tokens.now) }
{
    if let Some(rest) = word(tokens, b"commit") {
        Ok((Command::Commit, behind_work(rest)))
    } else if let Some(rest) = word(tokens, b"end") {
        Ok((Command::Commit, behind_work(rest)))
    } else {
        Err(Fault::Syntax)
    }
}

#[tactic(auto, unfolding(crate::specs::Transactions::rollback))]
fn rollback(tokens: &[Token]) -> Result<(Command, &[Token]), Fault>
    ensures { Gives result (g.rollback.parses.read tokens.now) }
{
    if let Some(rest) = word(tokens, b"rollback") {
        Ok((Command::Rollback, behind_work(rest)))
    } else if let Some(rest) = word(tokens, b"abort") {
        Ok((Command::Rollback, behind_work(rest)))
    } else {
        Err(Fault::Syntax)
    }
}

/// What stands behind WORK or TRANSACTION, which needn't be written.
#[tactic(auto, unfolding(crate::specs::Transactions::work))]
fn behind_work(tokens: &[Token]) -> &[Token]
    ensures { g.work.parses.read tokens.now ≡ Some (tt, result.now) }
{
    if let Some(rest) = word(tokens, b"work") {
        rest
    } else if let Some(rest) = word(tokens, b"transaction") {
        rest
    } else {
        tokens
    }
}

/// The access that the modes say, if some are written.
#[tactic(auto, unfolding(crate::specs::Transactions::access_mode))]
fn access_mode(alloc: Global, tokens: &[Token]) -> Result<(AccessMode, &[Token]), Fault>
    ensures { Gives result (g.access_mode.parses.read tokens.now) }
{
    if sees_one_of(tokens, &MODES) {
        let (written, rest) = modes(alloc, tokens)?;
        let mode = access_of(written.as_slice());
        drop(written);
        Ok((mode, rest))
    } else {
        Ok((AccessMode::ReadWrite, tokens))
    }
}

/// Modes, each kind once at most.
#[tactic(auto, unfolding(crate::specs::Transactions::modes))]
fn modes(alloc: Global, tokens: &[Token]) -> Result<(Items<TransactionMode>, &[Token]), Fault>
    ensures { Gives result (g.modes.parses.read tokens.now) }
{
    let (all, rest) = first_and_more(alloc, tokens)?;
    if each_once(all.as_slice()) {
        Ok((all, rest))
    } else {
        drop(all);
        Err(Fault::Syntax)
    }
}

#[tactic(auto, unfolding(crate::specs::Transactions::first_and_more, crate::specs::Gives::with_front))]
fn first_and_more(
    alloc: Global,
    tokens: &[Token],
) -> Result<(Items<TransactionMode>, &[Token]), Fault>
    ensures { Gives result (g.first_and_more.parses.read tokens.now) }
{
    let (first, rest) = mode(tokens)?;
    let all = only(alloc, first)?;
    more_modes(all, rest)
}

#[tactic(auto, using(crate::proofs::Loops::front_begins, crate::proofs::Loops::loop_stops, crate::proofs::Loops::loop_ends, crate::proofs::Loops::loop_fails, crate::proofs::Loops::loop_goes_on))]
fn more_modes(
    first: Items<TransactionMode>,
    tokens: &[Token],
) -> Result<(Items<TransactionMode>, &[Token]), Fault>
    ensures { Gives result (with_front first (read_many g.mode_more g.next_mode.parses.read (length tokens.now) tokens.now)) }
{
    let mut all = first;
    let mut rest = tokens;
    for _turn in 0..tokens.len() {
        if !starts_next(rest) {
            return Ok((all, rest));
        }
        match next_mode(rest) {
            Ok((next, behind)) => {
                if all.push(next).is_err() {
                    return Err(Fault::NoMemory);
                }
                rest = behind;
            }
            Err(fault) => return Err(fault),
        }
    }
    Ok((all, rest))
}

#[tactic(auto, using(crate::proofs::Loops::sees_more, crate::proofs::Loops::sees_first))]
fn starts_next(tokens: &[Token]) -> bool
    ensures { result ≡ sees g.mode_more tokens.now }
{
    if sees_symbol(tokens, Symbol::Comma) {
        true
    } else {
        sees_one_of(tokens, &MODES)
    }
}

/// A mode, with a comma before it or without.
#[tactic(auto, unfolding(crate::specs::Transactions::next_mode))]
fn next_mode(tokens: &[Token]) -> Result<(TransactionMode, &[Token]), Fault>
    ensures { Gives result (g.next_mode.parses.read tokens.now) }
{
    match symbol(tokens, Symbol::Comma) {
        Some(rest) => mode(rest),
        None => mode(tokens),
    }
}

#[tactic(auto, unfolding(crate::specs::Transactions::mode, crate::specs::Transactions::isolation))]
fn mode(tokens: &[Token]) -> Result<(TransactionMode, &[Token]), Fault>
    ensures { Gives result (g.mode.parses.read tokens.now) }
{
    if let Some(rest) = word(tokens, b"isolation") {
        match two_words(rest, b"level", b"serializable") {
            Some(rest) => Ok((TransactionMode::Serializable, rest)),
            None => Err(Fault::Syntax),
        }
    } else {
        access(tokens)
    }
}

#[tactic(auto, unfolding(crate::specs::Transactions::access))]
fn access(tokens: &[Token]) -> Result<(TransactionMode, &[Token]), Fault>
    ensures { Gives result (g.access.parses.read tokens.now) }
{
    let Some(rest) = word(tokens, b"read") else {
        return Err(Fault::Syntax);
    };
    if let Some(rest) = word(rest, b"only") {
        Ok((TransactionMode::Access(AccessMode::ReadOnly), rest))
    } else if let Some(rest) = word(rest, b"write") {
        Ok((TransactionMode::Access(AccessMode::ReadWrite), rest))
    } else {
        Err(Fault::Syntax)
    }
}

fn each_once(mut modes: &[TransactionMode]) -> bool
    ensures { result ≡ g.each_once modes.entry.now }
{
    while let [first, rest @ ..] = modes {
        if !lacks(*first, rest) {
            return false;
        }
        modes = rest;
    }
    true
}

fn lacks(mode: TransactionMode, mut others: &[TransactionMode]) -> bool
    ensures { result ≡ g.lacks mode others.entry.now }
{
    while let [other, rest @ ..] = others {
        if are_one_kind(mode, *other) {
            return false;
        }
        others = rest;
    }
    true
}

fn are_one_kind(left: TransactionMode, right: TransactionMode) -> bool
    ensures { result ≡ g.are_one_kind left right }
{
    match (left, right) {
        (TransactionMode::Serializable, TransactionMode::Serializable) => true,
        (TransactionMode::Access(_), TransactionMode::Access(_)) => true,
        _ => false,
    }
}

/// Where no access is written a block may write.
fn access_of(mut modes: &[TransactionMode]) -> AccessMode
    ensures { result ≡ g.access_of modes.entry.now }
{
    while let [first, rest @ ..] = modes {
        if let TransactionMode::Access(mode) = first {
            return *mode;
        }
        modes = rest;
    }
    AccessMode::ReadWrite
}
