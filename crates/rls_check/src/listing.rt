//! The transactions of an audit along its order, each with what its statements come to.

ghost use Rattle.std.specs.Prelude.{◌≡◌, ◌<◌, ◌++◌, [], ◌∷◌, Ok, None, length, IfOk, IfSome, OnOk, OnErr};
ghost use Rattle.std.specs.Fmt.{decimal};
ghost use Rattle.std.specs.List.{flat_map};
ghost use Rattle.rls_check.specs.Checking.{IsPlaced, ctx_of, state_behind};
ghost use Rattle.rls_audit.specs.rls_printing.specs.Escaped.{escaped_text};
ghost use Rattle.rls_check.specs.Listing as spec;
ghost use Rattle.rls_check.specs.Listing.{IsListedAt, IsListing, IsNextListed, NumbersStandOut, ended_all, standing_lines};
ghost use Rattle.rls_check.specs.ShownAudits.{FirstDiffers};
ghost use Rattle.rls_check.specs.Walking.{left_alone, standings_alone, state_to_come};
ghost use Rattle.rls_check.specs.WhyTexts.{ended_line};

use crate::audit::Audit;
use crate::finding::Finding;
use crate::ordering::{places_of, transaction_at};
use crate::stored::Stored;
use crate::texts::came_text;
use crate::transaction::Transaction;
use crate::walking::{Running, Turn};
use rls_audit::printed;
use rls_audit::rls_printing::push_escaped_line;
use rls_audit::rls_rows::State;
use rls_explain::rls_guard::Mode;
use std::alloc::{AllocError, Global};
use std::marker::Model;

/// The transactions of an audit that are still to be listed, along its order.
#[derive(Drop)]
pub struct Listing<'a> {
    transactions: &'a [Stored],
    places: Vec<usize>,
    /// So many of the transactions at these places were listed.
    listed: usize,
    /// What they leave.
    state: State,
}

impl<'a> Model for Listing<'a> {
    ghost use Rattle.std.specs.Prelude.{◌<◌, drop, length};
    ghost use Rattle.std.specs.List.{All};
    ghost use Rattle.rls_check.specs.Listing.{Unlisted, unlisted_code};

    ghost Value = { Unlisted };

    ghost coded = { unlisted_code };

    ghost view = { λ it. record { transactions = it.transactions.now; state = it.state; places = drop it.listed it.places.items } };

    ghost invariant = { λ it. All (λ place. place < length it.transactions.now) it.places.items };
}

/// A transaction with its statements, as lines, and the first of these that comes to another answer than the audit shows.
#[derive(Drop)]
pub struct Listed {
    pub text: Vec<u8>,
    pub differs: Option<Finding>,
}

/// Of the lines of a listing those that begin with no blank are the numbers of the order.
pub fn numbers_stand_out()
    ensures { NumbersStandOut }
{}

impl Audit {
    /// Its transactions along the order, which run alone from the opening state. None where the order isn't one.
    pub fn list<'a>(&'a self, alloc: Global) -> Result<Option<Listing<'a>>, AllocError>
        ensures { IfOk result (IsListing self.now.transactions self.now.order) }
    {
        let transactions = self.transactions.as_slice();
        match places_of(alloc, transactions, self.order.as_slice())? {
            Some(places) => list_along(alloc, transactions, self.order.as_slice(), places),
            None => Ok(None),
        }
    }
}

/// The same along these places.
#[tactic(auto, using(crate::proofs::ListingLemmas::within))]
fn list_along<'a>(
    alloc: Global,
    transactions: &'a [Stored],
    order: &[u64],
    places: Vec<usize>,
) -> Result<Option<Listing<'a>>, AllocError>
    requires { IsPlaced transactions.now order.now places.items }
    ensures { IfOk result (IsListing transactions.now order.now) }
{
    match State::opening(alloc) {
        Ok(state) => Ok(Some(Listing {
            transactions,
            places,
            listed: 0,
            state,
        })),
        Err(refused) => {
            drop(places);
            Err(refused)
        }
    }
}

impl<'a> Listing<'a> {
    /// The next transaction; none at the end.
    #[tactic(auto, using(crate::proofs::ListingLemmas::within_next, crate::proofs::ListingLemmas::next_listed, crate::proofs::ListingLemmas::none_listed))]
    pub fn next(&mut self, alloc: Global) -> Result<Option<Listed>, AllocError>
        ensures next { IfOk result (λ found. IfSome found (λ it. IsNextListed self.old it self.new)) }
        ensures end { result ≡ Ok None → self.old.places ≡ [] }
        ensures last { result ≡ Ok None → self.new ≡ self.old }
        ensures kept { OnErr result (self.new ≡ self.old) }
    {
        if self.listed >= self.places.len() {
            return Ok(None);
        }
        let place = self.places[self.listed];
        let (listed, state) = list_at(alloc, self.transactions, place, &self.state)?;
        self.listed += 1;
        self.state = state;
        Ok(Some(listed))
    }
}

/// The transaction at the place, run alone from the state, and the state that it leaves.
#[tactic(auto, using(crate::proofs::ListingLemmas::listed_at))]
fn list_at(
    alloc: Global,
    transactions: &[Stored],
    place: usize,
    state: &State,
) -> Result<(Listed, State), AllocError>
    requires { place < length transactions.now }
    ensures { IfOk result (λ it. IsListedAt transactions.now state.now place it.0 it.1) }
{
    let transaction = transaction_at(transactions, place).read(alloc)?;
    let text = match transaction_text(alloc, place as u64 + 1, &transaction) {
        Ok(text) => text,
        Err(refused) => {
            drop(transaction);
            return Err(refused);
        }
    };
    match list_statements(alloc, place, transaction, state, text) {
        Ok(it) => Ok(it),
        Err(refused) => Err(refused),
    }
}

/// Its statements behind this text.
#[tactic(auto, using(crate::proofs::ListingLemmas::differs_so, crate::proofs::ListingLemmas::text_so))]
fn list_statements(
    alloc: Global,
    place: usize,
    transaction: Transaction,
    state: &State,
    text: Vec<u8>,
) -> Result<(Listed, State), AllocError>
    ensures text { IfOk result (λ it. it.0.text.items ≡ text.items ++ ended_all (flat_map standing_lines (standings_alone place 1 (ctx_of transaction) state.now transaction.answers))) }
    ensures differs { IfOk result (λ it. FirstDiffers (standings_alone place 1 (ctx_of transaction) state.now transaction.answers) it.0.differs) }
    ensures state { IfOk result (λ it. it.1 ≡ state_behind transaction state.now) }
{
    let mut text = text;
    let mut running = match Running::of(place, transaction, state) {
        Ok(running) => running,
        Err(refused) => {
            drop(text);
            return Err(refused);
        }
    };
    match push_statements(alloc, &mut running, &mut text) {
        Ok(differs) => Ok((Listed { text, differs }, running.into_state())),
        Err(refused) => {
            drop(text);
            drop(running);
            Err(refused)
        }
    }
}

/// Its number, and how it began and committed.
fn transaction_text(alloc: Global, commit: u64, it: &Transaction) -> Result<Vec<u8>, AllocError>
    ensures { IfOk result (λ text. text.items ≡ ended_all (decimal it.now.txn ∷ escaped_text (spec.begin_line commit it.now) ∷ [])) }
{
    let mut text = Vec::new(alloc);
    push_transaction(alloc, commit, it, &mut text)?;
    Ok(text)
}

fn push_transaction(
    alloc: Global,
    commit: u64,
    it: &Transaction,
    text: &mut Vec<u8>,
) -> Result<(), AllocError>
    ensures { OnOk result (text.new.items ≡ text.old.items ++ ended_all (decimal it.now.txn ∷ escaped_text (spec.begin_line commit it.now) ∷ [])) }
{
    let txn = it.txn;
    let snap = it.snap;
    let login = &it.begin.login;
    let role = &it.begin.role;
    let mode = mode_word(it.begin.mode);
    let number = format!(in alloc; "{txn}\n")?;
    text.extend_from_slice(number.as_bytes())?;
    drop(number);
    let line = format!(in alloc; "  commit {commit} snap {snap} login {login} role {role} {mode}")?;
    push_escaped_line(text, line.as_str())
}

/// Whether it may write.
fn mode_word(mode: Mode) -> &'static str
    ensures { result.now ≡ spec.mode_word mode }
{
    match mode {
        Mode::Read => "read",
        Mode::Write => "write",
    }
}

/// The statements that are left of the transaction that runs; the first of them that comes to another answer.
#[tactic(auto, using(crate::proofs::ListingLemmas::written_on, crate::proofs::ListingLemmas::written_all, crate::proofs::ListingLemmas::found_on, crate::proofs::ListingLemmas::found_all, crate::proofs::ListingLemmas::fewer_left, crate::proofs::ListingLemmas::none_alone, crate::proofs::ListingLemmas::state_there))]
fn push_statements(
    alloc: Global,
    running: &mut Running,
    text: &mut Vec<u8>,
) -> Result<Option<Finding>, AllocError>
    ensures text { OnOk result (text.new.items ≡ text.old.items ++ ended_all (flat_map standing_lines (left_alone running.old))) }
    ensures differs { IfOk result (FirstDiffers (left_alone running.old)) }
    ensures state { OnOk result (running.new.state ≡ state_to_come running.old) }
{
    let mut found = None;
    while running.has_next() {
        let turn = running.next(alloc)?;
        found = first_of(found, &turn);
        let pushed = push_turn(alloc, &turn, text);
        drop(turn);
        pushed?;
    }
    Ok(found)
}

/// What was found before, else whether the statement comes to another answer.
fn first_of(found: Option<Finding>, turn: &Turn) -> Option<Finding>
    ensures { result ≡ spec.first_or found (spec.differing turn.now) }
{
    match found {
        Some(found) => Some(found),
        None if turn.agrees => None,
        None => Some(Finding::Reply(turn.ctx.txn, turn.number)),
    }
}

/// The lines of a statement.
fn push_turn(alloc: Global, turn: &Turn, text: &mut Vec<u8>) -> Result<(), AllocError>
    ensures { OnOk result (text.new.items ≡ text.old.items ++ ended_all (spec.statement_lines turn.now.number turn.now.ctx turn.now.statement turn.now.outcome.effect)) }
{
    push_asked(alloc, turn, text)?;
    push_came(alloc, turn, text)
}

fn push_asked(alloc: Global, turn: &Turn, text: &mut Vec<u8>) -> Result<(), AllocError>
    ensures { OnOk result (text.new.items ≡ text.old.items ++ ended_line (escaped_text (spec.asked_line turn.now.number turn.now.ctx turn.now.statement))) }
{
    let number = turn.number;
    let role = &turn.ctx.role;
    let printed = printed(alloc, turn.statement.get())?;
    let line = format!(in alloc; "  {number} {role}: {printed}")?;
    drop(printed);
    push_escaped_line(text, line.as_str())
}

fn push_came(alloc: Global, turn: &Turn, text: &mut Vec<u8>) -> Result<(), AllocError>
    ensures { OnOk result (text.new.items ≡ text.old.items ++ ended_line (escaped_text (spec.came_line turn.now.statement turn.now.outcome.effect))) }
{
    let came = came_text(alloc, turn.statement.get().tag(), &turn.outcome.effect)?;
    let line = format!(in alloc; "    {came}")?;
    drop(came);
    push_escaped_line(text, line.as_str())
}
