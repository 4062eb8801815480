//! New rows: the values that columns are given, and what the rows are refused for.

ghost use Rattle.std.specs.Prelude.{◌≡◌, [], ◌∷◌, ◌++◌, OnOk, map, slice_get, slice_set, Some, None, Ok, IfOk, MatchOption};
ghost use Rattle.rls_value.specs.{Giving.Gives, Values.is_null, Values.value_at};
ghost use Rattle.rls_evaluation.specs.Scoping.{datum_value};
ghost use Rattle.rls_judging.specs.Handed.{datum_values};
ghost use Rattle.rls_guard.specs.rls_source.specs.{Answering.Answers, Sequences.each_or_refused};
ghost use Rattle.rls_dml.specs.Checking.{columns_at};
ghost use Rattle.rls_dml.specs.Writing as spec;

use crate::checking::has_some;
use crate::keys::require_unique;
use crate::replaced::Replaced;
use rls_evaluation::{Datum, allows};
use rls_expr::{Column, FromTable, SelectedTable, copies, put_if};
use rls_guard::rls_catalog::{Stored, Verdict};
use rls_guard::rls_source::Asker;
use rls_guard::{Decision, PermissionCheck, RolePrivileges};
use rls_value::{Items, Name, Privilege, Refusal, Row, Value, Why};
use std::alloc::{AllocError, Global};

/// What a command is asked for: its own privilege for these columns, SELECT for those that it reads beside, if there are some,
/// and SELECT for those of the other tables.
pub fn checks_of(
    alloc: Global,
    privilege: Privilege,
    name: &Name,
    own: Items<Name>,
    read: Items<Name>,
    others: &[SelectedTable],
) -> Result<Items<PermissionCheck>, AllocError>
    ensures { IfOk result (λ checks. checks ≡ spec.checks_of privilege name.now own read others.now) }
{
    let mut checks = Items::new(alloc);
    put_check(&mut checks, privilege, name, own)?;
    if has_some(read.as_slice()) {
        put_check(&mut checks, Privilege::Select, name, read)?;
    } else {
        drop(read);
    }
    put_others(alloc, &mut checks, others)?;
    Ok(checks)
}

/// SELECT for these columns of each of the tables, behind the others.
fn put_others(
    alloc: Global,
    checks: &mut Items<PermissionCheck>,
    others: &[SelectedTable],
) -> Result<(), AllocError>
    ensures { OnOk result (checks.new ≡ checks.old ++ spec.readable others.now) }
{
    for one in others {
        let columns = copies(alloc, one.columns.as_slice())?;
        put_check(checks, Privilege::Select, &one.table, columns)?;
    }
    Ok(())
}

/// One more, behind the others.
fn put_check(
    checks: &mut Items<PermissionCheck>,
    privilege: Privilege,
    table: &Name,
    columns: Items<Name>,
) -> Result<(), AllocError>
    ensures { OnOk result (checks.new ≡ checks.old ++ record { privilege = privilege; table = table.now; columns = columns } ∷ []) }
{
    match table.copy() {
        Ok(table) => checks.push(PermissionCheck {
            privilege,
            table,
            columns,
        }),
        Err(refused) => {
            drop(columns);
            Err(refused)
        }
    }
}

/// Denied where the role lacks one of them; the first counts.
pub fn require_all(
    asker: &mut Asker,
    role_privileges: &RolePrivileges,
    checks: Items<PermissionCheck>,
) -> Result<(), Refusal>
    ensures { Answers (spec.permissions_or_denied role_privileges.now checks) asker.old asker.new result }
{
    let permitted = require_permissions(asker, role_privileges, checks.as_slice());
    drop(checks);
    permitted
}

fn require_permissions(
    asker: &mut Asker,
    role_privileges: &RolePrivileges,
    checks: &[PermissionCheck],
) -> Result<(), Refusal>
    ensures { Answers (spec.permissions_or_denied role_privileges.now checks.now) asker.old asker.new result }
{
    for check in checks {
        role_privileges.require_permission(asker, check)?;
    }
    Ok(())
}

/// The row with each of these places given its value, in order, within the column's range.
pub fn assign(
    alloc: Global,
    columns: &[Column],
    places: &[usize],
    values: &[Datum],
    row: Vec<Value>,
) -> Result<Row, Refusal>
    ensures { Gives result (spec.assigned columns.now places.now (map datum_value values.now) row.items) }
{
    let mut row = row;
    let mut places_left = places;
    let mut left = values;
    while let [value, further @ ..] = left {
        match places_left {
            [place, others @ ..] => {
                let given = given_to(alloc, columns, *place, value)?;
                put_value(&mut row, *place, given);
                places_left = others;
            }
            [] => return Ok(Row::new(row)?),
        }
        left = further;
    }
    Ok(Row::new(row)?)
}

/// What the column at that place is given, in the column's range.
fn given_to(
    alloc: Global,
    columns: &[Column],
    place: usize,
    value: &Datum,
) -> Result<Value, Refusal>
    ensures { Gives result (spec.given_to (slice_get columns.now place) (datum_value value.now)) }
{
    match columns.get(place) {
        Some(column) => value.to_column(alloc, column),
        None => Ok(Value::Null),
    }
}

/// The first values, if there are some.
pub fn first_of<'x, 'a>(values: &'x [Vec<Datum<'a>>]) -> &'x [Datum<'a>]
    ensures { map datum_value result.now ≡ spec.first_of (map datum_values values.now) }
{
    match values {
        [first, ..] => first.as_slice(),
        [] => &[],
    }
}

/// And those behind them.
pub fn behind_first<'x, 'a>(values: &'x [Vec<Datum<'a>>]) -> &'x [Vec<Datum<'a>>]
    ensures { map datum_values result.now ≡ spec.behind_first (map datum_values values.now) }
{
    match values {
        [_, further @ ..] => further,
        [] => &[],
    }
}

/// The value in its place.
fn put_value(values: &mut Vec<Value>, place: usize, value: Value)
    ensures { values.new.items ≡ slice_set values.old.items place value }
{
    if place < values.len() {
        values[place] = value;
    }
}

/// The places in the order in which a row is looked through: those that are written, then the others.
pub fn order_of(
    alloc: Global,
    places: &[usize],
    columns: &[Column],
) -> Result<Vec<usize>, AllocError>
    ensures { IfOk result (λ order. order.items ≡ spec.order_of places.now columns.now) }
{
    let mut order = places.to_vec(alloc)?;
    for (place, _column) in columns.iter().enumerate() {
        if !is_written(places, place) {
            order.push(place)?;
        }
    }
    Ok(order)
}

/// The columns at these places, in the table's order.
pub fn columns_written(
    alloc: Global,
    places: &[usize],
    columns: &[Column],
) -> Result<Items<Name>, AllocError>
    ensures { IfOk result (λ names. names ≡ columns_at (spec.is_written places.now) columns.now) }
{
    let mut names = Items::new(alloc);
    for (place, column) in columns.iter().enumerate() {
        put_if(&mut names, is_written(places, place), column)?;
    }
    Ok(names)
}

/// Whether the place is one of these.
pub fn is_written(places: &[usize], place: usize) -> bool
    ensures { result ≡ spec.is_written places.now place }
{
    places.iter().any(|written| *written == place)
}

/// The first denied row, then the first null where none may be, then a key that is taken by a row that stays.
#[tactic(auto, unfolding(crate::specs::Writing::rows_or_refused))]
pub fn require_rows<'c, 'x>(
    asker: &mut Asker<'c>,
    from: FromTable<'x>,
    order: &[usize],
    decisions: &[Decision],
    replaced: &Replaced<'_, 'c>,
    rows: &[Stored],
) -> Result<(), Refusal>
    ensures { Answers (spec.rows_or_refused from.entry.name.now from.entry.table.now.columns order.now decisions.now replaced.now rows.now) asker.old asker.new result }
{
    require_allowed(from.name, decisions)?;
    require_constraints(asker, from, order, replaced, rows)
}

/// The first null where none may be, then a key that is taken.
#[tactic(auto, unfolding(crate::specs::Writing::constraints_or_refused))]
fn require_constraints<'c, 'x>(
    asker: &mut Asker<'c>,
    from: FromTable<'x>,
    order: &[usize],
    replaced: &Replaced<'_, 'c>,
    rows: &[Stored],
) -> Result<(), Refusal>
    ensures { Answers (spec.constraints_or_refused from.entry.name.now from.entry.table.now.columns order.now replaced.now rows.now) asker.old asker.new result }
{
    require_values(rows, from.table.columns.as_slice(), order)?;
    require_unique(asker, from.name, replaced, rows)
}

fn require_allowed(table: &Name, decisions: &[Decision]) -> Result<(), Refusal>
    ensures refused { Gives result (spec.unless_denied table.now (spec.first_denial decisions.now)) }

    // Where none denies, no memory is wanted.
    ensures allowed { spec.first_denial decisions.now ≡ None → result ≡ Ok tt }
{
    match first_denial(decisions) {
        None => Ok(()),
        Some(decision) => require_verdict(table, decision),
    }
}

/// The first decision that denies its row, if one does.
fn first_denial(decisions: &[Decision]) -> Option<&Decision>
    ensures { MatchOption result (spec.first_denial decisions.now ≡ None) (λ decision. spec.first_denial decisions.now ≡ Some decision.now) }
{
    for decision in decisions {
        if !allows(&decision.verdict) {
            return Some(decision);
        }
    }
    None
}

fn require_verdict(table: &Name, decision: &Decision) -> Result<(), Refusal>
    ensures { Gives result (spec.allowed_or_denied table.now decision.now) }
{
    match &decision.verdict {
        Verdict::Exempt | Verdict::By(_) => Ok(()),
        Verdict::NoPermissive => Err(Refusal::Denied(Why::NoPermissive(
            table.copy()?,
            decision.kind,
        ))),
        Verdict::Restrictive(policy) => Err(Refusal::Denied(Why::Restrictive(
            policy.copy()?,
            table.copy()?,
        ))),
    }
}

/// The first column of the first row that has a null and takes none.
fn require_values(rows: &[Stored], columns: &[Column], order: &[usize]) -> Result<(), Refusal>
    ensures { Gives result (each_or_refused (spec.has_values columns.now order.now) rows.now) }
{
    for stored in rows {
        row_has_values(stored, columns, order)?;
    }
    Ok(())
}

fn row_has_values(stored: &Stored, columns: &[Column], order: &[usize]) -> Result<(), Refusal>
    ensures { Gives result (spec.has_values columns.now order.now stored.now) }
{
    for place in order {
        require_value(&stored.row, columns, *place)?;
    }
    Ok(())
}

fn require_value(row: &Row, columns: &[Column], place: usize) -> Result<(), Refusal>
    ensures { Gives result (spec.value_or_not_null (slice_get columns.now place) (value_at row.now place)) }
{
    match columns.get(place) {
        None => Ok(()),
        Some(column) => {
            if column.not_null && is_null_at(row, place) {
                Err(Refusal::NotNull(column.name.copy()?))
            } else {
                Ok(())
            }
        }
    }
}

fn is_null_at(row: &Row, place: usize) -> bool
    ensures { result ≡ is_null (value_at row.now place) }
{
    match row.get(place) {
        Some(value) => value.is_null(),
        None => true,
    }
}
