//! How many statements of each transaction a report has, and how many of their rows were shown, written and denied.

ghost use Rattle.std.specs.Prelude.{◌≡◌, filter, length, replicate, IfOk, OnOk};
ghost use Rattle.rls_check.specs.Tallies as spec;
ghost use Rattle.rls_check.specs.Walking.{IsMeant};

use crate::filtering::ShownFilter;
use crate::walking::Turn;
use rls_audit::rls_access::Ctx;
use rls_explain::{RowOutcome, RowWord};
use std::alloc::{AllocError, Global};

/// Of a transaction: its statements in the report, and their rows.
#[derive(Clone, Copy)]
pub(crate) struct Tally {
    pub(crate) statements: u64,
    /// Listed, counted or returned.
    pub(crate) shown: u64,
    /// Inserted, changed or deleted.
    pub(crate) written: u64,
    /// Hidden, barred or refused.
    pub(crate) denied: u64,
}

/// None, of so many transactions.
pub(crate) fn no_tallies(alloc: Global, count: usize) -> Result<Vec<Tally>, AllocError>
    ensures { IfOk result (λ tallies. tallies.items ≡ replicate count spec.no_tally) }
{
    let mut tallies = Vec::with_capacity(alloc, count)?;
    for i in 0..count {
        let _place = i;
        tallies.push(Tally::nothing())?;
    }
    Ok(tallies)
}

/// Counts the statement of a turn, where the report has it.
pub(crate) fn count_turn(
    alloc: Global,
    wanted: &ShownFilter,
    tallies: &mut Vec<Tally>,
    turn: &Turn,
) -> Result<(), AllocError>
    requires { IsMeant turn.now }
    ensures { OnOk result (tallies.new.items ≡ spec.tallied_turn wanted.now tallies.old.items turn.now) }
{
    let rows = turn.rows_wanted(alloc, wanted)?;
    if is_in_report(wanted, &turn.ctx, rows.as_slice()) {
        tally_at(tallies, turn.place, rows.as_slice());
    }
    drop(rows);
    Ok(())
}

fn tally_at(tallies: &mut Vec<Tally>, place: usize, rows: &[RowOutcome])
    ensures { tallies.new.items ≡ spec.tallied_at tallies.old.items place rows.now }
{
    if let Some(it) = tallies.get_mut(place) {
        *it = it.with_rows(rows);
    }
}

/// Whether the report has the statement that is run in this, and has these of the rows that are asked for.
pub(crate) fn is_in_report(wanted: &ShownFilter, ctx: &Ctx, rows: &[RowOutcome]) -> bool
    ensures { result ≡ spec.is_in_report wanted.now ctx.now rows.now }
{
    wanted.asks_for(ctx) && (!wanted.is_narrow() || rows.len() > 0)
}

/// All together.
pub(crate) fn sum_of(mut tallies: &[Tally]) -> Tally
    ensures { result ≡ spec.sum_from spec.no_tally tallies.entry.now }
{
    let mut sum = Tally::nothing();
    while let [it, rest @ ..] = tallies {
        sum = sum.and(*it);
        tallies = rest;
    }
    sum
}

/// Of how many transactions the report has a statement.
pub(crate) fn count_in_report(tallies: &[Tally]) -> usize
    ensures { result ≡ length (filter spec.has_statements tallies.now) }
{
    tallies.iter().filter(|it| it.has_statements()).count()
}

impl Tally {
    pub(crate) fn nothing() -> Tally
        ensures { result ≡ spec.no_tally }
    {
        Tally {
            statements: 0,
            shown: 0,
            written: 0,
            denied: 0,
        }
    }

    /// Whether the report has one.
    pub(crate) fn has_statements(&self) -> bool
        ensures { result ≡ spec.has_statements self.now }
    {
        self.statements > 0
    }

    /// A statement with these rows more.
    fn with_rows(self, rows: &[RowOutcome]) -> Tally
        ensures { result ≡ spec.with_rows self rows.now }
    {
        Tally {
            statements: plus(self.statements, 1),
            shown: plus(self.shown, count_shown(rows)),
            written: plus(self.written, count_written(rows)),
            denied: plus(self.denied, count_denied(rows)),
        }
    }

    fn and(self, other: Tally) -> Tally
        ensures { result ≡ spec.both_tallies self other }
    {
        Tally {
            statements: plus(self.statements, other.statements),
            shown: plus(self.shown, other.shown),
            written: plus(self.written, other.written),
            denied: plus(self.denied, other.denied),
        }
    }
}

/// So many more, as far as 64 bits go.
pub(crate) fn plus(count: u64, more: u64) -> u64
    ensures { result ≡ spec.plus count more }
{
    count.saturating_add(more)
}

fn count_shown(rows: &[RowOutcome]) -> u64
    ensures { result ≡ length (filter spec.is_shown_row rows.now) }
{
    rows.iter().filter(|one| is_shown_row(one)).count() as u64
}

fn count_written(rows: &[RowOutcome]) -> u64
    ensures { result ≡ length (filter spec.is_written_row rows.now) }
{
    rows.iter().filter(|one| is_written_row(one)).count() as u64
}

pub(crate) fn count_denied(rows: &[RowOutcome]) -> u64
    ensures { result ≡ length (filter spec.is_denied_row rows.now) }
{
    rows.iter().filter(|one| is_denied_row(one)).count() as u64
}

pub(crate) fn is_shown_row(one: &RowOutcome) -> bool
    ensures { result ≡ spec.is_shown_row one.now }
{
    matches!(
        one.word,
        RowWord::Listed | RowWord::Counted | RowWord::Returned
    )
}

pub(crate) fn is_written_row(one: &RowOutcome) -> bool
    ensures { result ≡ spec.is_written_row one.now }
{
    matches!(
        one.word,
        RowWord::Inserted | RowWord::Changed | RowWord::Deleted
    )
}

pub(crate) fn is_denied_row(one: &RowOutcome) -> bool
    ensures { result ≡ spec.is_denied_row one.now }
{
    matches!(
        one.word,
        RowWord::Hidden | RowWord::Barred | RowWord::Refused
    )
}
