//! Which statements and rows are shown.

ghost use Rattle.std.specs.Prelude.{◌≡◌, nat_eq};
ghost use Rattle.std.specs.List.{list_any};
ghost use Rattle.rls_value.specs.Names.{one_of};
ghost use Rattle.rls_catalog.specs.State.{is_same_id as spec_is_same_id};
ghost use Rattle.rls_check.specs.ShownFilters as spec;

use rls_audit::rls_access::Ctx;
use rls_explain::{RowOutcome, RowWord};
use rls_value::{Items, Name, RowId};
use std::cmp::Ordering;

/// Which statements and rows are shown: of each list one, where it has any, and all of the lists together.
#[derive(Drop)]
pub struct ShownFilter {
    /// The role that a statement was run in.
    pub roles: Items<Name>,
    /// The role that its session connected as.
    pub logins: Items<Name>,
    /// Its transaction.
    pub txns: Items<u64>,
    pub tables: Items<Name>,
    pub rows: Items<RowId>,
    /// Only rows that policies denied.
    pub denied: bool,
    /// Each row on its line.
    pub all: bool,
    /// An object a statement, with all rows.
    pub json: bool,
}

impl ShownFilter {
    /// Whether the statements that are run in this are asked for.
    pub fn asks_for(&self, ctx: &Ctx) -> bool
        ensures { result ≡ spec.is_asked_in self.now ctx.now }
    {
        is_named(self.roles.as_slice(), &ctx.role)
            && is_named(self.logins.as_slice(), &ctx.login)
            && is_numbered(self.txns.as_slice(), ctx.txn)
    }

    /// Whether the row is.
    pub fn wants(&self, one: &RowOutcome) -> bool
        ensures { result ≡ spec.is_wanted self.now one.now }
    {
        is_named(self.tables.as_slice(), &one.table)
            && is_row(self.rows.as_slice(), one.id)
            && (!self.denied || is_denied_word(one.word))
    }

    /// Whether only some rows are.
    pub fn is_narrow(&self) -> bool
        ensures { result ≡ spec.is_narrow self.now }
    {
        self.denied || self.tables.len() > 0 || self.rows.len() > 0
    }
}

/// All where nothing is named, else those that are.
fn is_named(names: &[Name], name: &Name) -> bool
    ensures { result ≡ spec.names_it names.now name.now }
{
    match names {
        [] => true,
        [_, ..] => is_among(names, name),
    }
}

fn is_among(mut names: &[Name], name: &Name) -> bool
    ensures { result ≡ one_of names.entry.now name.now }
{
    while let [one, rest @ ..] = names {
        if one.is(name) {
            return true;
        }
        names = rest;
    }
    false
}

fn is_numbered(numbers: &[u64], number: u64) -> bool
    ensures { result ≡ spec.numbers_it numbers.now number }
{
    match numbers {
        [] => true,
        [_, ..] => is_number_among(numbers, number),
    }
}

fn is_number_among(mut numbers: &[u64], number: u64) -> bool
    ensures { result ≡ list_any (λ it. nat_eq it number) numbers.entry.now }
{
    while let [one, rest @ ..] = numbers {
        if *one == number {
            return true;
        }
        numbers = rest;
    }
    false
}

fn is_row(rows: &[RowId], id: RowId) -> bool
    ensures { result ≡ spec.rows_it rows.now id }
{
    match rows {
        [] => true,
        [_, ..] => is_row_among(rows, id),
    }
}

fn is_row_among(mut rows: &[RowId], id: RowId) -> bool
    ensures { result ≡ list_any (spec_is_same_id id) rows.entry.now }
{
    while let [one, rest @ ..] = rows {
        if is_same_id(id, *one) {
            return true;
        }
        rows = rest;
    }
    false
}

pub(crate) fn is_same_id(id: RowId, other: RowId) -> bool
    ensures { result ≡ spec_is_same_id id other }
{
    match id.cmp(&other) {
        Ordering::Equal => true,
        Ordering::Less | Ordering::Greater => false,
    }
}

fn is_denied_word(word: RowWord) -> bool
    ensures { result ≡ spec.is_denied_word word }
{
    matches!(word, RowWord::Hidden | RowWord::Barred | RowWord::Refused)
}
