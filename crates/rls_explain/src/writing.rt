//! New rows: the values of a statement's expressions in their columns.

ghost use Rattle.std.specs.Prelude.{◌≡◌, slice_get, slice_set};
ghost use Rattle.rls_value.specs.Giving.{Gives};
ghost use Rattle.rls_meaning.specs.rls_guard.specs.rls_evaluation.specs.{Holding.Holds, Scoping.datum_value, Scoping.env_of, Showing.shows};
ghost use Rattle.rls_meaning.specs.rls_dml.specs.Writing.{given_to as spec_given_to};
ghost use Rattle.rls_explain.specs.Found as spec;

use rls_expr::{Column, Expr};
use rls_meaning::rls_guard::rls_catalog::Catalog;
use rls_meaning::rls_guard::rls_evaluation::{
    Datum, Env, ExecutionState, Looked, SecuredRelation, Tables, VisibleRelations, eval,
};
use rls_value::{Refusal, Row, Value};
use std::alloc::Global;

/// The row with the values of the expressions in the columns at the places, each in its column's range.
pub fn row_written<'a, 'c>(
    alloc: Global,
    catalog: &'c Catalog,
    relations: &'a [SecuredRelation<'c>],
    env: &Env<'a>,
    columns: &[Column],
    places: &[usize],
    terms: &'a [Expr],
    row: Vec<Value>,
) -> Result<Row, Refusal>
    ensures { Gives result (spec.row_written catalog.now (shows relations.now env.now.user.now) (env_of env.now) columns.now places.now terms.now row.items) }
{
    let mut execution = ExecutionState::new(alloc);
    let mut tables = Looked::new(catalog);
    let written = write_row(
        alloc,
        &mut tables,
        &mut execution,
        relations,
        env,
        columns,
        places,
        terms,
        row,
    );
    drop(execution);
    written
}

/// The same, over tables that are looked at.
fn write_row<'a, 'c, T: Tables>(
    alloc: Global,
    tables: &mut T,
    execution: &mut ExecutionState,
    relations: &'a [SecuredRelation<'c>],
    env: &Env<'a>,
    columns: &[Column],
    places: &[usize],
    terms: &'a [Expr],
    row: Vec<Value>,
) -> Result<Row, Refusal>
    requires { Holds relations.now env.now.user.now (T.state tables.old) execution.old }
    ensures { Gives result (spec.row_written (T.state tables.old) (shows relations.now env.now.user.now) (env_of env.now) columns.now places.now terms.now row.items) }
{
    let visible = VisibleRelations { relations, from: 0 };
    let mut row = row;
    let mut places_left = places;
    let mut left = terms;
    while let [term, further @ ..] = left {
        match places_left {
            [place, others @ ..] => {
                let datum = eval(alloc, tables, execution, visible, term, env)?;
                let given = given_to(alloc, columns, *place, &datum)?;
                put_value(&mut row, *place, given);
                places_left = others;
            }
            [] => return Ok(Row::new(row)?),
        }
        left = further;
    }
    Ok(Row::new(row)?)
}

/// What the column at that place is given, in the column's range.
fn given_to(
    alloc: Global,
    columns: &[Column],
    place: usize,
    value: &Datum,
) -> Result<Value, Refusal>
    ensures { Gives result (spec_given_to (slice_get columns.now place) (datum_value value.now)) }
{
    match columns.get(place) {
        Some(column) => value.to_column(alloc, column),
        None => Ok(Value::Null),
    }
}

/// The value in its place.
fn put_value(values: &mut Vec<Value>, place: usize, value: Value)
    ensures { values.new.items ≡ slice_set values.old.items place value }
{
    if place < values.len() {
        values[place] = value;
    }
}
