//! The rows that a statement replaces.

ghost use Rattle.std.specs.Prelude.{◌≡◌, [], map, IfOk};
ghost use Rattle.rls_dml.specs.Numbers as spec;
ghost use Rattle.rls_dml.specs.Numbers.{has_number, AreNumbers};

use rls_guard::rls_catalog::BorrowedRow;
use rls_value::RowId;
use std::alloc::{AllocError, Global};
use std::collections::BTreeSet;
use std::marker::Model;

/// The rows that a statement replaces.
#[derive(Drop)]
pub struct Replaced<'r, 'c> {
    rows: &'r [&'r BorrowedRow<'c>],
    may_be_all: bool,
}

impl<'r, 'c> Model for Replaced<'r, 'c> {
    ghost use Rattle.std.specs.Prelude.{List, map};
    ghost use Rattle.rls_guard.specs.rls_catalog.specs.declared.stored.Stored.{Stored as Seen};

    ghost Value = { List Seen };

    ghost view = { λ it. map (λ row. row.now) it.rows.now };
}

impl<'r, 'c> Replaced<'r, 'c> {
    /// Whoever made them says whether they may be all rows of the table, so that it is worth a look whether they are.
    pub fn new(rows: &'r [&'r BorrowedRow<'c>], may_be_all: bool) -> Replaced<'r, 'c>
        ensures { result ≡ map (λ row. row.now) rows.now }
    {
        Replaced { rows, may_be_all }
    }

    pub fn rows(&self) -> &'r [&'r BorrowedRow<'c>]
        ensures { map (λ row. row.now) result.now ≡ self.now }
    {
        self.rows
    }

    /// What was said of them. It tells where to look, and no answer hangs on it.
    pub fn may_be_all(&self) -> bool {
        self.may_be_all
    }

    /// Whether the rows have the numbers of these, one by one.
    pub fn are_numbered_as(&self, rows: &[BorrowedRow<'_>]) -> bool
        ensures { result ≡ spec.are_numbered_as rows.now self.now }
    {
        are_numbered_as(rows, self.rows)
    }

    /// Their numbers.
    pub fn numbers(&self, alloc: Global) -> Result<Numbers<'r, 'c>, AllocError>
        ensures { IfOk result (λ numbers. numbers ≡ self.now) }
    {
        let numbers = numbers_of(alloc, self.rows)?;
        Ok(Numbers {
            rows: self.rows,
            numbers,
        })
    }
}

/// Rows, by whose numbers one is found fast.
#[derive(Drop)]
pub struct Numbers<'r, 'c> {
    rows: &'r [&'r BorrowedRow<'c>],
    numbers: BTreeSet<RowId>,
}

impl<'r, 'c> Model for Numbers<'r, 'c> {
    ghost use Rattle.std.specs.Prelude.{List, map};
    ghost use Rattle.rls_guard.specs.rls_catalog.specs.declared.stored.Stored.{Stored as Seen};
    ghost use Rattle.rls_dml.specs.Numbers.{AreNumbers};

    ghost Value = { List Seen };

    ghost view = { λ it. map (λ row. row.now) it.rows.now };

    ghost invariant = { λ it. AreNumbers it.numbers.keys (map (λ row. row.now) it.rows.now) };
}

impl<'r, 'c> Numbers<'r, 'c> {
    /// Whether the row of that number is one of them.
    pub fn has(&self, id: RowId) -> bool
        ensures { result ≡ has_number self.now id }
    {
        self.numbers.contains(&id)
    }
}

/// Whether the rows have the numbers of the others, one by one; there may be more of the others.
fn are_numbered_as(rows: &[BorrowedRow<'_>], others: &[&BorrowedRow<'_>]) -> bool
    ensures { result ≡ spec.are_numbered_as rows.now (map (λ row. row.now) others.now) }
{
    let mut left = others;
    for row in rows {
        match left {
            [other, rest @ ..] => {
                if row.id() != other.id() {
                    return false;
                }
                left = rest;
            }
            [] => return false,
        }
    }
    true
}

/// The numbers of the rows, in time linear in how many they are where they ascend.
fn numbers_of(alloc: Global, rows: &[&BorrowedRow<'_>]) -> Result<BTreeSet<RowId>, AllocError>
    ensures { IfOk result (λ numbers. AreNumbers numbers.keys (map (λ row. row.now) rows.now)) }
{
    let listed = list_numbers(alloc, rows)?;
    Ok(BTreeSet::from_iter(alloc, listed)?)
}

fn list_numbers(alloc: Global, rows: &[&BorrowedRow<'_>]) -> Result<Vec<RowId>, AllocError>
    ensures { IfOk result (λ numbers. numbers.items ≡ map (λ stored. stored.id) (map (λ row. row.now) rows.now)) }
{
    let mut numbers = Vec::with_capacity(alloc, rows.len())?;
    for row in rows {
        numbers.push(row.id())?;
    }
    Ok(numbers)
}
