//! A graph as lines.

ghost use Rattle.std.specs.Prelude.{◌≡◌, ◌++◌, ◌<◌, length, string_bytes, IfOk, OnOk};
ghost use Rattle.std.specs.List.{All, flat_map};
ghost use Rattle.rls_audit.specs.rls_printing.specs.Escaped.{escaped_line};
ghost use Rattle.rls_check.specs.Audited.{transaction_at};
ghost use Rattle.rls_check.specs.GraphTexts as spec;

use crate::edges::{Before, Conflict};
use crate::ordering::transaction_at;
use crate::stored::Stored;
use rls_audit::rls_printing::push_escaped_line;
use std::alloc::{AllocError, Global};

/// The transactions, then which stand right before which, then the rw-antidependencies.
pub(crate) fn push_lines(
    alloc: Global,
    transactions: &[Stored],
    places: &[usize],
    befores: &[Before],
    conflicts: &[Conflict],
    text: &mut Vec<u8>,
) -> Result<(), AllocError>
    requires { All (λ place. place < length transactions.now) places.now }
    ensures { OnOk result (text.new.items ≡ text.old.items ++ spec.lines_text transactions.now places.now befores.now conflicts.now) }
{
    push_heads(alloc, transactions, places, text)?;
    push_befores(alloc, transactions, befores, text)?;
    push_conflicts(alloc, transactions, conflicts, text)
}

/// The number of the transaction at the place.
pub(crate) fn txn_at(transactions: &[Stored], place: usize) -> u64
    ensures { result ≡ (transaction_at transactions.now place).txn }
{
    match transactions.get(place) {
        Some(stored) => stored.txn(),
        None => 0,
    }
}

fn push_heads(
    alloc: Global,
    transactions: &[Stored],
    places: &[usize],
    text: &mut Vec<u8>,
) -> Result<(), AllocError>
    requires { All (λ place. place < length transactions.now) places.now }
    ensures { OnOk result (text.new.items ≡ text.old.items ++ flat_map (λ place. escaped_line (spec.head_of place (transaction_at transactions.now place))) places.now) }
{
    for place in places {
        push_head(alloc, transactions, *place, text)?;
    }
    Ok(())
}

fn push_head(
    alloc: Global,
    transactions: &[Stored],
    place: usize,
    text: &mut Vec<u8>,
) -> Result<(), AllocError>
    requires { place < length transactions.now }
    ensures { OnOk result (text.new.items ≡ text.old.items ++ escaped_line (spec.head_of place (transaction_at transactions.now place))) }
{
    let line = head_of(alloc, transactions, place)?;
    push_escaped_line(text, line.as_str())
}

#[tactic(auto, unfolding(crate::specs::GraphTexts::head_of))]
fn head_of(alloc: Global, transactions: &[Stored], place: usize) -> Result<String, AllocError>
    requires { place < length transactions.now }
    ensures { IfOk result (λ text. string_bytes text ≡ spec.head_of place (transaction_at transactions.now place)) }
{
    let it = transaction_at(transactions, place).read(alloc)?;
    let txn = it.txn;
    let snap = it.snap;
    let login = &it.begin.login;
    let commit = place as u64 + 1;
    format!(in alloc; "txn {txn} commit {commit} snap {snap} login {login}")
}

fn push_befores(
    alloc: Global,
    transactions: &[Stored],
    mut edges: &[Before],
    text: &mut Vec<u8>,
) -> Result<(), AllocError>
    ensures { OnOk result (text.new.items ≡ text.old.items ++ flat_map (λ it. escaped_line (spec.before_line transactions.now it)) edges.entry.now) }
{
    while let [edge, rest @ ..] = edges {
        push_before(alloc, transactions, *edge, text)?;
        edges = rest;
    }
    Ok(())
}

fn push_before(
    alloc: Global,
    transactions: &[Stored],
    edge: Before,
    text: &mut Vec<u8>,
) -> Result<(), AllocError>
    ensures { OnOk result (text.new.items ≡ text.old.items ++ escaped_line (spec.before_line transactions.now edge)) }
{
    let one = txn_at(transactions, edge.one);
    let other = txn_at(transactions, edge.other);
    let line = format!(in alloc; "before {one} {other}")?;
    push_escaped_line(text, line.as_str())
}

fn push_conflicts(
    alloc: Global,
    transactions: &[Stored],
    mut edges: &[Conflict],
    text: &mut Vec<u8>,
) -> Result<(), AllocError>
    ensures { OnOk result (text.new.items ≡ text.old.items ++ flat_map (λ it. escaped_line (spec.rw_line transactions.now it)) edges.entry.now) }
{
    while let [edge, rest @ ..] = edges {
        push_conflict(alloc, transactions, edge, text)?;
        edges = rest;
    }
    Ok(())
}

fn push_conflict(
    alloc: Global,
    transactions: &[Stored],
    edge: &Conflict,
    text: &mut Vec<u8>,
) -> Result<(), AllocError>
    ensures { OnOk result (text.new.items ≡ text.old.items ++ escaped_line (spec.rw_line transactions.now edge.now)) }
{
    let reader = txn_at(transactions, edge.reader);
    let writer = txn_at(transactions, edge.writer);
    let object = &edge.object;
    let line = format!(in alloc; "rw {reader} {writer} {object}")?;
    push_escaped_line(text, line.as_str())
}
