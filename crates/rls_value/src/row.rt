//! Rows and their numbers.

ghost use Rattle.std.specs.Prelude.{◌≡◌, length, slice_get, IfOk};
ghost use Rattle.std.specs.Option.{option_copied};
ghost use Rattle.std.specs.Cmp.Lexicographic.{slice_cmp};
ghost use Rattle.rls_value.specs.Values.{listed, value_at};

use crate::value::{Value, cmp_values};
use shared::Shared;
use std::alloc::{AllocError, Global};
use std::cmp::Ordering;
use std::fmt;
use std::marker::Model;
use std::sync::ArcSlice;

/// A row, or the values of a key, seen as the list of its values. Copies share them.
#[derive(Drop)]
pub struct Row {
    values: ArcSlice<Value>,
}

impl Model for Row {
    ghost use Rattle.std.specs.Prelude.{List};
    ghost use Rattle.std.specs.Arc.{arc_slice_items};
    ghost use Rattle.rls_value.specs.declared.value.Value.{Value as Datum};

    ghost Value = { List Datum };

    ghost view = { λ row. arc_slice_items row.values };
}

impl Row {
    /// The row of these values.
    pub fn new(values: Vec<Value>) -> Result<Row, AllocError>
        ensures { IfOk result (λ row. row ≡ values.items) }
    {
        Ok(Row {
            values: ArcSlice::from_vec(values)?,
        })
    }

    /// The values, each copied.
    pub fn to_vec(&self, alloc: Global) -> Result<Vec<Value>, AllocError>
        ensures { IfOk result (λ values. values.items ≡ self.now) }
    {
        copy_values(alloc, self.as_slice())
    }

    pub fn as_slice(&self) -> &[Value]
        ensures { result.now ≡ self.now }
    {
        self.values.as_slice()
    }

    pub fn get(&self, column: usize) -> Option<&Value>
        ensures { option_copied result ≡ slice_get self.now column }
    {
        self.as_slice().get(column)
    }

    /// A copy of the value of a column; null where there is no such column.
    pub fn value(&self, column: usize) -> Result<Value, AllocError>
        ensures { IfOk result (λ value. value ≡ value_at self.now column) }
    {
        match self.as_slice().get(column) {
            Some(value) => value.copy(),
            None => Ok(Value::Null),
        }
    }

    /// The same row, as all that is copied is asked for. Its values are shared, so no memory is taken.
    pub fn copy(&self, _: Global) -> Result<Row, AllocError>
        ensures { IfOk result (λ row. row ≡ self.now) }
    {
        Ok(Row {
            values: self.values.clone()?,
        })
    }
}

impl Clone for Row {
    ghost use Rattle.std.specs.Prelude.{◌≡◌};

    ghost is_clone = { λ x y. y ≡ x };

    fn clone(&self) -> Result<Row, AllocError> {
        Ok(Row {
            values: self.values.clone()?,
        })
    }
}

impl Shared for Row {
    ghost same = { λ x y h. h };
}

fn copy_values(alloc: Global, values: &[Value]) -> Result<Vec<Value>, AllocError>
    ensures { IfOk result (λ copies. copies.items ≡ values.now) }
{
    let mut copies = Vec::with_capacity(alloc, values.len())?;
    for value in values {
        copies.push(value.copy()?)?;
    }
    Ok(copies)
}

/// Rows are ordered as they are listed.
impl Ord for Row {
    ghost use Rattle.std.specs.Cmp.Lexicographic.{slice_cmp};
    ghost use Rattle.std.proofs.Common.{rules};
    ghost use Rattle.std.specs.Cmp.Rules.{comparing};
    ghost use Rattle.rls_value.specs.Values.{listed};
    ghost use Rattle.rls_value.specs.Listing.{rows_total};

    ghost cmp = { slice_cmp listed };

    ghost total = { rows_total };

    ghost matches_partial_cmp = { Prim.search (comparing, rules) };

    ghost matches_eq = { Prim.search (comparing, rules) };

    fn cmp(&self, other: &Row) -> Ordering {
        cmp_rows(self, other)
    }
}

impl PartialOrd for Row {
    ghost use Rattle.std.specs.Cmp.Lexicographic.{slice_cmp};
    ghost use Rattle.std.specs.Ordering.{as_partial_cmp};
    ghost use Rattle.std.proofs.Common.{rules};
    ghost use Rattle.std.specs.Cmp.{partial_order_from_own_ties};
    ghost use Rattle.std.specs.Cmp.Rules.{comparing};
    ghost use Rattle.rls_value.specs.Values.{listed};
    ghost use Rattle.rls_value.specs.Listing.{rows_total};

    ghost partial_cmp = { as_partial_cmp (slice_cmp listed) };

    ghost laws = { partial_order_from_own_ties (Prim.search (comparing, rules, rows_total)) (Prim.search (comparing, rules)) };

    fn partial_cmp(&self, other: &Row) -> Option<Ordering> {
        Some(self.cmp(other))
    }
}

impl PartialEq for Row {
    ghost use Rattle.std.specs.Cmp.Lexicographic.{slice_cmp};
    ghost use Rattle.std.specs.Ordering.{eq_by_cmp};
    ghost use Rattle.std.proofs.lemmas.Cmp.{eq_by_cmp_equiv};
    ghost use Rattle.std.proofs.Common.{rules};
    ghost use Rattle.std.specs.Cmp.Rules.{comparing};
    ghost use Rattle.rls_value.specs.Values.{listed};
    ghost use Rattle.rls_value.specs.Listing.{rows_total};

    ghost eq = { eq_by_cmp (slice_cmp listed) };

    ghost laws = { Prim.search (comparing, rules, eq_by_cmp_equiv rows_total) };

    fn eq(&self, other: &Row) -> bool {
        cmp_rows(self, other) == Ordering::Equal
    }
}

impl Eq for Row {
    ghost use Rattle.std.proofs.lemmas.Cmp.{eq_by_cmp_equiv};
    ghost use Rattle.rls_value.specs.Listing.{rows_total};

    ghost laws = { eq_by_cmp_equiv rows_total };
}

/// The order in which rows are listed: by their values, left to right; where none differ the shorter comes first.
/// Keys of one number, which indexes compare most, are told at once.
#[inline]
pub fn cmp_rows(left: &Row, right: &Row) -> Ordering
    ensures { result ≡ slice_cmp listed left.now right.now }
{
    match (left.as_slice(), right.as_slice()) {
        ([Value::Int(left)], [Value::Int(right)]) => left.cmp(right),
        (left, right) => cmp_lists(left, right),
    }
}

fn cmp_lists(mut left: &[Value], mut right: &[Value]) -> Ordering
    ensures { result ≡ slice_cmp listed left.entry.now right.entry.now }
{
    while let [one, rest @ ..] = left {
        match right {
            [other, others @ ..] => {
                let order = cmp_values(one, other);
                if order != Ordering::Equal {
                    return order;
                }
                right = others;
            }
            [] => return Ordering::Greater,
        }
        left = rest;
    }
    if right.is_empty() {
        Ordering::Equal
    } else {
        Ordering::Less
    }
}

/// The number of a row: the transaction that inserted it, and its place among that one's insertions, from 0.
#[derive(Clone, Copy, PartialEq, Eq, PartialOrd, Ord)]
pub struct RowId {
    pub txn: u64,
    pub n: u32,
}

impl Shared for RowId {
    ghost use Rattle.std.proofs.Common.{rules};

    ghost same = { Prim.search rules };
}

/// As `17.0`.
impl fmt::Display for RowId {
    ghost use Rattle.std.specs.Prelude.{Some};
    ghost use Rattle.rls_value.specs.Objects.{row_id_text};

    ghost output = { λ id. Some (row_id_text id) };

    fn fmt<W: fmt::Write>(&self, f: &mut fmt::Formatter<W>) -> fmt::Result {
        let txn = self.txn;
        let n = self.n;
        write!(f, "{txn}.{n}")
    }
}
