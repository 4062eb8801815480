//! The values of the columns further out that a subquery names, by which its answers are kept.

ghost use Rattle.std.specs.Prelude.{◌≡◌, IfOk};
ghost use Rattle.std.specs.Cmp.Lexicographic.{slice_cmp};
ghost use Rattle.rls_value.specs.Values.{listed, value_at};
ghost use Rattle.rls_evaluation.specs.Environments.{row_at};
ghost use Rattle.rls_evaluation.specs.OuterColumns.{outer_values};
ghost use Rattle.rls_evaluation.specs.OuterValues.{values_kept};
ghost use Rattle.rls_evaluation.specs.Scoping.{env_of};

use crate::outer_columns::OuterColumn;
use crate::scope::{Env, column_value};
use crate::value_set::{Listed, listed_datum};
use std::alloc::{AllocError, Global};
use std::cmp::Ordering;
use std::marker::Model;
use std::slice;

/// Values in the order of listing, seen as their list.
#[derive(Drop)]
pub struct OuterValues {
    values: Kept,
}

// Mostly a subquery names one column, whose value needs no list.
#[derive(Drop)]
enum Kept {
    One(Listed),
    Many(Vec<Listed>),
}

impl Model for OuterValues {
    ghost use Rattle.std.specs.Prelude.{List};
    ghost use Rattle.rls_value.specs.declared.value.Value.{Value as SqlValue};
    ghost use Rattle.rls_evaluation.specs.OuterValues.{values_kept};

    ghost Value = { List SqlValue };

    ghost view = { λ it. values_kept it.values };
}

impl OuterValues {
    /// The values of these columns.
    pub fn of(alloc: Global, columns: &[OuterColumn], env: &Env) -> Result<OuterValues, AllocError>
        ensures { IfOk result (λ values. values ≡ outer_values columns.now (env_of env.now)) }
    {
        let values = match columns {
            [outer] => Kept::One(value_of(alloc, outer, env)?),
            _ => Kept::Many(values_of(alloc, columns, env)?),
        };
        Ok(OuterValues { values })
    }
}

fn value_of(alloc: Global, outer: &OuterColumn, env: &Env) -> Result<Listed, AllocError>
    ensures { IfOk result (λ value. value ≡ value_at (row_at (env_of env.now).rows outer.now.level) outer.now.column) }
{
    let datum = column_value(&env.rows, outer.level, outer.column);
    listed_datum(alloc, &datum)
}

fn values_of(alloc: Global, columns: &[OuterColumn], env: &Env) -> Result<Vec<Listed>, AllocError>
    ensures { IfOk result (λ values. values.items ≡ outer_values columns.now (env_of env.now)) }
{
    let mut values = Vec::with_capacity(alloc, columns.len())?;
    for outer in columns {
        values.push(value_of(alloc, outer, env)?)?;
    }
    Ok(values)
}

/// The lists of the two compared.
#[tactic(auto, using(crate::proofs::OuterValueLemmas::one_by_one))]
fn cmp_kept(left: &Kept, right: &Kept) -> Ordering
    ensures { result ≡ slice_cmp listed (values_kept left.now) (values_kept right.now) }
{
    match (left, right) {
        (Kept::One(left), Kept::One(right)) => left.cmp(right),
        (_, _) => list_of(left).cmp(list_of(right)),
    }
}

fn list_of(kept: &Kept) -> &[Listed]
    ensures { result.now ≡ values_kept kept.now }
{
    match kept {
        Kept::One(value) => slice::from_ref(value),
        Kept::Many(values) => values.as_slice(),
    }
}

impl Ord for OuterValues {
    ghost use Rattle.std.specs.Cmp.Lexicographic.{slice_cmp};
    ghost use Rattle.std.proofs.Common.{rules};
    ghost use Rattle.std.specs.Cmp.Rules.{comparing};
    ghost use Rattle.rls_value.specs.Values.{listed};
    ghost use Rattle.rls_value.specs.Listing.{rows_total};

    ghost cmp = { slice_cmp listed };

    ghost total = { rows_total };

    ghost matches_partial_cmp = { Prim.search (comparing, rules) };

    ghost matches_eq = { Prim.search (comparing, rules) };

    fn cmp(&self, other: &OuterValues) -> Ordering {
        cmp_kept(&self.values, &other.values)
    }
}

impl PartialOrd for OuterValues {
    ghost use Rattle.std.specs.Cmp.Lexicographic.{slice_cmp};
    ghost use Rattle.std.specs.Ordering.{as_partial_cmp};
    ghost use Rattle.std.proofs.Common.{rules};
    ghost use Rattle.std.specs.Cmp.{partial_order_from_own_ties};
    ghost use Rattle.std.specs.Cmp.Rules.{comparing};
    ghost use Rattle.rls_value.specs.Values.{listed};
    ghost use Rattle.rls_value.specs.Listing.{rows_total};

    ghost partial_cmp = { as_partial_cmp (slice_cmp listed) };

    ghost laws = { partial_order_from_own_ties (Prim.search (comparing, rules, rows_total)) (Prim.search (comparing, rules)) };

    fn partial_cmp(&self, other: &OuterValues) -> Option<Ordering> {
        Some(self.cmp(other))
    }
}

impl PartialEq for OuterValues {
    ghost use Rattle.std.specs.Cmp.Lexicographic.{slice_cmp};
    ghost use Rattle.std.specs.Ordering.{eq_by_cmp};
    ghost use Rattle.std.proofs.lemmas.Cmp.{eq_by_cmp_equiv};
    ghost use Rattle.std.proofs.Common.{rules};
    ghost use Rattle.std.specs.Cmp.Rules.{comparing};
    ghost use Rattle.rls_value.specs.Values.{listed};
    ghost use Rattle.rls_value.specs.Listing.{rows_total};

    ghost eq = { eq_by_cmp (slice_cmp listed) };

    ghost laws = { Prim.search (comparing, rules, eq_by_cmp_equiv rows_total) };

    fn eq(&self, other: &OuterValues) -> bool {
        cmp_kept(&self.values, &other.values) == Ordering::Equal
    }
}

impl Eq for OuterValues {
    ghost use Rattle.std.proofs.lemmas.Cmp.{eq_by_cmp_equiv};
    ghost use Rattle.rls_value.specs.Listing.{rows_total};

    ghost laws = { eq_by_cmp_equiv rows_total };
}
