//! UPDATE.

ghost use Rattle.std.specs.Prelude.{◌≡◌, ◌++◌, [], ◌∷◌, ◌≤◌, None, length, map, take, drop, IfOk};
ghost use Rattle.rls_value.specs.Giving.{Gives};
ghost use Rattle.rls_evaluation.specs.Scoping.{datum_value};
ghost use Rattle.rls_guard.specs.rls_source.specs.Answering.{Answers, Tells};
ghost use Rattle.rls_dml.specs.Listings as listings;
ghost use Rattle.rls_dml.specs.Writing.{checks_of, rows_or_refused, order_of as spec_order_of};
ghost use Rattle.rls_expansion.specs.Expanding.{expansion_of, permission_checks};
ghost use Rattle.rls_dml.specs.Updating as spec;

use crate::analysed_update::{
    AnalysedUpdate, analysed_update_tables, columns_of_update, columns_set, known_analysed_update,
    places_set, update_selected,
};
use crate::checking::has_some;
use crate::checking_rows::{judged_under, qualifying_rows_under};
use crate::keys::key_like;
use crate::replaced::Replaced;
use crate::replying::reply_of_new;
use crate::writing::{assign, checks_of, order_of, require_all, require_rows};
use rls_evaluation::{Datum, Scoped};
use rls_expansion::{PolicyExpansion, expansion_of};
use rls_expr::{FromTable, TableDef};
use rls_guard::rls_catalog::{BorrowedRow, Change, Delta, Keyed, RowChange, Stored};
use rls_guard::rls_source::Asker;
use rls_guard::{Ctx, Decision, Effect, PermissionCheck, RolePrivileges, role_privileges_of};
use rls_judging::{assignments_of, scanned_rows};
use rls_statement::Update;
use rls_value::{Items, Kind, Name, Privilege, Refusal};
use std::alloc::{AllocError, Global};

/// Changes the rows that row security lets change and that meet the condition. What it hides stays; a new row that it
/// doesn't allow refuses the statement.
pub fn run_update(asker: &mut Asker, ctx: &Ctx, update: &Update) -> Result<Effect, Refusal>
    ensures { Answers (spec.update ctx.now update.now) asker.old asker.new result }
{
    let table = asker.table_named(&update.table)?;
    let from = FromTable {
        name: &update.table,
        table,
    };
    let analysed_update = known_analysed_update(asker, update, table)?;
    let updated = update_in(asker, &ctx.role, from, &analysed_update);
    drop(analysed_update);
    updated
}

/// The role's privileges, the policy expansion, and the rows.
#[tactic(auto, unfolding(crate::specs::Updating::update_in))]
fn update_in<'x>(
    asker: &mut Asker,
    role: &Name,
    from: FromTable<'x>,
    analysed_update: &AnalysedUpdate,
) -> Result<Effect, Refusal>
    ensures { Answers (spec.update_in role.now from.entry.name.now from.entry.table.now analysed_update.now) asker.old asker.new result }
{
    let role_privileges = role_privileges_of(asker, role)?;
    let updated = update_as(asker, &role_privileges, role, from, analysed_update);
    drop(role_privileges);
    updated
}

/// The policy expansion, before and after, and the rows.
#[tactic(auto, unfolding(crate::specs::Updating::update_as))]
fn update_as<'x>(
    asker: &mut Asker,
    role_privileges: &RolePrivileges,
    role: &Name,
    from: FromTable<'x>,
    analysed_update: &AnalysedUpdate,
) -> Result<Effect, Refusal>
    ensures { Answers (spec.update_as role_privileges.now role.now from.entry.name.now from.entry.table.now analysed_update.now) asker.old asker.new result }
{
    let columns_read = columns_of_update(asker.alloc(), from.table, analysed_update)?;
    let expansion = expansion(
        asker,
        role_privileges,
        from,
        analysed_update,
        has_some(columns_read.as_slice()),
    )?;
    let updated = update_with_quals(
        asker,
        role_privileges,
        &expansion,
        analysed_update,
        columns_read,
        role,
        from,
    );
    drop(expansion);
    updated
}

/// The policy expansion.
fn expansion<'c, 'x>(
    asker: &mut Asker<'c>,
    role_privileges: &RolePrivileges,
    from: FromTable<'x>,
    analysed_update: &AnalysedUpdate,
    reads: bool,
) -> Result<PolicyExpansion<'c>, Refusal>
    ensures { Answers (expansion_of role_privileges.now from.entry.name.now from.entry.table.now Kind.Update reads (spec.analysed_update_tables analysed_update.now)) asker.old asker.new result }
{
    let tables = analysed_update_tables(asker.alloc(), analysed_update)?;
    let expansion = expansion_of(
        asker,
        role_privileges,
        from,
        Kind::Update,
        reads,
        tables.as_slice(),
    );
    drop(tables);
    expansion
}

/// The rows, where the role may change them.
#[tactic(auto, unfolding(crate::specs::Updating::update_with_quals))]
fn update_with_quals<'c, 'x>(
    asker: &mut Asker<'c>,
    role_privileges: &RolePrivileges,
    expansion: &PolicyExpansion<'c>,
    analysed_update: &AnalysedUpdate,
    columns_read: Items<Name>,
    role: &Name,
    from: FromTable<'x>,
) -> Result<Effect, Refusal>
    requires { columns_read ≡ spec.update_columns_read from.table.now analysed_update.now }
    ensures { Answers (spec.update_with_quals role_privileges.now expansion.now analysed_update.now role.now from.entry.name.now from.entry.table.now) asker.old asker.new result }
{
    let checks = checks(
        asker.alloc(),
        from,
        expansion,
        analysed_update,
        columns_read,
    )?;
    require_all(asker, role_privileges, checks)?;
    let rows = scanned_rows(asker, role, from, &analysed_update.condition)?;
    update_qualifying_rows(
        asker,
        &*expansion,
        &*analysed_update,
        &*role,
        from,
        rows.as_slice(),
    )
}

/// What the role is asked for.
fn checks<'c, 'x>(
    alloc: Global,
    from: FromTable<'x>,
    expansion: &PolicyExpansion<'c>,
    analysed_update: &AnalysedUpdate,
    columns_read: Items<Name>,
) -> Result<Items<PermissionCheck>, AllocError>
    requires { columns_read ≡ spec.update_columns_read from.table.now analysed_update.now }
    ensures { IfOk result (λ checks. checks ≡ checks_of Privilege.Update from.entry.name.now (spec.update_columns from.entry.table.now analysed_update.now) (spec.update_columns_read from.entry.table.now analysed_update.now) (permission_checks expansion.now (spec.update_selected analysed_update.now))) }
{
    let own = columns_set(alloc, from.table.columns.as_slice(), analysed_update)?;
    let queries = update_selected(alloc, analysed_update)?;
    let others = expansion.permission_checks(alloc, queries.as_slice())?;
    drop(queries);
    checks_of(
        alloc,
        Privilege::Update,
        from.name,
        own,
        columns_read,
        others.as_slice(),
    )
}

/// Judges each scanned row; those that are allowed and meet the condition get their new values.
#[tactic(auto, unfolding(crate::specs::Updating::update_qualifying_rows))]
fn update_qualifying_rows<'a, 'c, 'x>(
    asker: &mut Asker<'c>,
    expansion: &'a PolicyExpansion<'c>,
    analysed_update: &'a AnalysedUpdate,
    role: &'a Name,
    from: FromTable<'x>,
    scanned_rows: &'a [BorrowedRow<'c>],
) -> Result<Effect, Refusal>
    ensures { Answers (spec.update_qualifying_rows role.now from.entry.name.now from.entry.table.now expansion.now analysed_update.now scanned_rows.now) asker.old asker.new result }
{
    let (decisions, qualifying_rows) = qualifying_rows_under(
        asker,
        expansion,
        role,
        &analysed_update.condition,
        scanned_rows,
    )?;
    let replaced = replaced_of(&qualifying_rows, scanned_rows);
    update_values(
        asker,
        &*expansion,
        &*analysed_update,
        &*role,
        from,
        decisions,
        &replaced,
    )
}

/// The qualifying rows. Where they are all of several scanned rows, which no key was pinned for then, they may be all rows
/// of the table.
fn replaced_of<'r, 'c>(
    qualifying_rows: &'r [&'r BorrowedRow<'c>],
    scanned_rows: &[BorrowedRow<'c>],
) -> Replaced<'r, 'c>
    ensures { result ≡ map (λ qualifying_row. qualifying_row.now) qualifying_rows.now }
{
    Replaced::new(
        qualifying_rows,
        qualifying_rows.len() > 1 && qualifying_rows.len() == scanned_rows.len(),
    )
}

/// The new values of all qualifying rows, and then the rows.
#[tactic(auto, unfolding(crate::specs::Updating::update_values))]
fn update_values<'a, 'c, 'x>(
    asker: &mut Asker<'c>,
    expansion: &'a PolicyExpansion<'c>,
    analysed_update: &'a AnalysedUpdate,
    role: &'a Name,
    from: FromTable<'x>,
    decisions: Vec<Decision>,
    replaced: &Replaced<'a, 'c>,
) -> Result<Effect, Refusal>
    ensures { Answers (spec.update_values role.now from.entry.name.now from.entry.table.now expansion.now analysed_update.now decisions.items replaced.now) asker.old asker.new result }
{
    let nothing = Scoped::Nothing;
    let values = assignments_of(
        asker,
        expansion.relations.as_slice(),
        role,
        &nothing,
        analysed_update.assignments.as_slice(),
        replaced.rows(),
    )?;
    let updated = update_made(
        asker,
        expansion,
        analysed_update,
        role,
        from,
        decisions,
        replaced,
        &values,
    );
    drop(values);
    updated
}

/// The ranges of the new values, and then the rows.
#[tactic(auto, unfolding(crate::specs::Updating::update_made))]
fn update_made<'a, 'c, 'x>(
    asker: &mut Asker<'c>,
    expansion: &'a PolicyExpansion<'c>,
    analysed_update: &'a AnalysedUpdate,
    role: &'a Name,
    from: FromTable<'x>,
    decisions: Vec<Decision>,
    replaced: &Replaced<'a, 'c>,
    values: &[Datum],
) -> Result<Effect, Refusal>
    ensures { Answers (spec.update_made role.now from.entry.name.now from.entry.table.now expansion.now analysed_update.now decisions.items replaced.now (map datum_value values.now)) asker.old asker.new result }
{
    let alloc = asker.alloc();
    match updated_rows(alloc, from.table, analysed_update, replaced.rows(), values) {
        Ok(new) => Ok(update_rows(
            asker,
            expansion,
            analysed_update,
            role,
            from,
            decisions,
            replaced,
            new,
        )?),
        Err(refusal) => {
            drop(decisions);
            Err(refusal)
        }
    }
}

/// The new rows, whose values are in range.
fn updated_rows<'c>(
    alloc: Global,
    table: &TableDef,
    analysed_update: &AnalysedUpdate,
    qualifying_rows: &[&BorrowedRow<'c>],
    values: &[Datum],
) -> Result<Items<Stored>, Refusal>
    ensures { Gives result (spec.updated_rows table.now (spec.places_set analysed_update.now.assignments) (map (λ qualifying_row. qualifying_row.now) qualifying_rows.now) (map datum_value values.now)) }
{
    let places = places_set(alloc, analysed_update.assignments.as_slice())?;
    let rows = rows_with(alloc, table, &places, qualifying_rows, values);
    drop(places);
    rows
}

fn rows_with<'c>(
    alloc: Global,
    table: &TableDef,
    places: &[usize],
    qualifying_rows: &[&BorrowedRow<'c>],
    values: &[Datum],
) -> Result<Items<Stored>, Refusal>
    ensures { Gives result (spec.updated_rows table.now places.now (map (λ qualifying_row. qualifying_row.now) qualifying_rows.now) (map datum_value values.now)) }
{
    let mut rows = Items::with_capacity(alloc, qualifying_rows.len())?;
    let mut left = values;
    for qualifying_row in qualifying_rows {
        let row = updated_row(
            alloc,
            table,
            places,
            qualifying_row,
            share_of(left, places.len()),
        )?;
        rows.push(row)?;
        left = behind_share(left, places.len());
    }
    Ok(rows)
}

/// The first so many of the values, or all where there are fewer.
fn share_of<'x, 'a>(values: &'x [Datum<'a>], many: usize) -> &'x [Datum<'a>]
    ensures { map datum_value result.now ≡ take many (map datum_value values.now) }
{
    &values[..within(values, many)]
}

/// And those behind them.
fn behind_share<'x, 'a>(values: &'x [Datum<'a>], many: usize) -> &'x [Datum<'a>]
    ensures { map datum_value result.now ≡ drop many (map datum_value values.now) }
{
    &values[within(values, many)..]
}

/// The number, or how many values there are where there are fewer.
fn within(values: &[Datum], many: usize) -> usize
    ensures count { result ≤ length values.now }
    ensures share { take result values.now ≡ take many values.now }
    ensures behind { drop result values.now ≡ drop many values.now }
{
    if many < values.len() {
        many
    } else {
        values.len()
    }
}

fn updated_row<'c>(
    alloc: Global,
    table: &TableDef,
    places: &[usize],
    stored: &BorrowedRow<'c>,
    values: &[Datum],
) -> Result<Stored, Refusal>
    ensures { Gives result (spec.updated_row table.now places.now stored.now (map datum_value values.now)) }
{
    let old = stored.row().to_vec(alloc)?;
    let row = assign(alloc, table.columns.as_slice(), places, values, old)?;
    let key = key_like(alloc, table.key.as_slice(), &row, stored.key())?;
    Ok(Stored {
        id: stored.id(),
        key,
        row,
    })
}

/// Each new row is judged, and then all are changed or none.
#[tactic(auto, unfolding(crate::specs::Updating::update_rows))]
fn update_rows<'a, 'c, 'x>(
    asker: &mut Asker<'c>,
    expansion: &'a PolicyExpansion<'c>,
    analysed_update: &AnalysedUpdate,
    role: &'a Name,
    from: FromTable<'x>,
    before: Vec<Decision>,
    replaced: &Replaced<'_, 'c>,
    new: Items<Stored>,
) -> Result<Effect, AllocError>
    ensures { Tells (spec.update_rows role.now from.entry.name.now from.entry.table.now expansion.now analysed_update.now before.items replaced.now new) asker.old asker.new result }
{
    let after = judged_under(asker, &*expansion, &*role, &new)?;
    update_judged(
        asker,
        analysed_update,
        role,
        from,
        before,
        after,
        replaced,
        new,
    )
}

/// Where none of the new rows is refused, all are changed.
#[tactic(auto, unfolding(crate::specs::Updating::update_judged))]
fn update_judged<'c, 'x>(
    asker: &mut Asker<'c>,
    analysed_update: &AnalysedUpdate,
    role: &Name,
    from: FromTable<'x>,
    before: Vec<Decision>,
    after: Vec<Decision>,
    replaced: &Replaced<'_, 'c>,
    new: Items<Stored>,
) -> Result<Effect, AllocError>
    ensures { Tells (spec.update_judged role.now from.entry.name.now from.entry.table.now analysed_update.now before.items replaced.now new after.items) asker.old asker.new result }
{
    match require_updated(
        asker,
        analysed_update,
        from,
        &after,
        replaced,
        new.as_slice(),
    ) {
        Ok(()) => updated(
            asker.alloc(),
            from.name,
            analysed_update,
            role,
            before,
            after,
            replaced.rows(),
            new,
        ),
        Err(Refusal::NoMemory) => Err(AllocError),
        Err(refusal) => refused(refusal, before, after),
    }
}

/// What the new rows are refused for.
fn require_updated<'c, 'x>(
    asker: &mut Asker<'c>,
    analysed_update: &AnalysedUpdate,
    from: FromTable<'x>,
    decisions: &[Decision],
    replaced: &Replaced<'_, 'c>,
    new: &[Stored],
) -> Result<(), Refusal>
    ensures { Answers (rows_or_refused from.entry.name.now from.entry.table.now.columns (spec_order_of (spec.places_set analysed_update.now.assignments) from.entry.table.now.columns) decisions.now replaced.now new.now) asker.old asker.new result }
{
    let places = places_set(asker.alloc(), analysed_update.assignments.as_slice())?;
    let order = order_of(asker.alloc(), &places, from.table.columns.as_slice())?;
    drop(places);
    let found = require_rows(asker, from, &order, decisions, replaced, new);
    drop(order);
    found
}

/// The decisions on old rows, then those on new ones.
fn joined(
    mut before: Vec<Decision>,
    mut after: Vec<Decision>,
) -> Result<Items<Decision>, AllocError>
    ensures { IfOk result (λ decisions. decisions ≡ before.items ++ after.items) }
{
    before.append(&mut after)?;
    Ok(Items::from_vec(before))
}

/// A refusal of new rows, with all decisions.
fn refused(
    refusal: Refusal,
    before: Vec<Decision>,
    after: Vec<Decision>,
) -> Result<Effect, AllocError>
    ensures { IfOk result (λ effect. effect ≡ Effect.Refused refusal (before.items ++ after.items)) }
{
    match joined(before, after) {
        Ok(decisions) => Ok(Effect::Refused(refusal, decisions)),
        Err(failed) => {
            drop(refusal);
            Err(failed)
        }
    }
}

/// The new rows go over into the changes.
fn updated<'c>(
    alloc: Global,
    name: &Name,
    analysed_update: &AnalysedUpdate,
    role: &Name,
    before: Vec<Decision>,
    after: Vec<Decision>,
    qualifying_rows: &[&BorrowedRow<'c>],
    new: Items<Stored>,
) -> Result<Effect, AllocError>
    ensures { IfOk result (λ effect. effect ≡ Effect.Done (listings.reply_of analysed_update.now.returning role.now (map (λ stored. stored.row) new)) (before.items ++ after.items) (spec.changed_rows name.now (map (λ qualifying_row. qualifying_row.now) qualifying_rows.now) new) None) }
{
    let decisions = joined(before, after)?;
    let reply = reply_of_new(alloc, &analysed_update.returning, role, new.as_slice())?;
    match changes_of(alloc, name, qualifying_rows, new.into_vec()) {
        Ok(delta) => Ok(Effect::Done(reply, decisions, delta, None)),
        Err(refused) => {
            drop(decisions);
            drop(reply);
            Err(refused)
        }
    }
}

/// The changes from the old rows to the new ones.
fn changes_of<'c>(
    alloc: Global,
    name: &Name,
    mut qualifying_rows: &[&BorrowedRow<'c>],
    new: Vec<Stored>,
) -> Result<Delta, AllocError>
    ensures { IfOk result (λ delta. delta ≡ spec.changed_rows name.now (map (λ qualifying_row. qualifying_row.now) qualifying_rows.entry.now) new.items) }
{
    let mut delta = Delta::with_capacity(alloc, qualifying_rows.len())?;
    for row in new {
        match qualifying_rows {
            [old, others @ ..] => {
                delta.push(changed_row(alloc, name, old, row)?)?;
                qualifying_rows = others;
            }
            [] => {
                drop(row);
                return Ok(delta);
            }
        }
    }
    Ok(delta)
}

fn changed_row<'c>(
    alloc: Global,
    table: &Name,
    old: &BorrowedRow<'c>,
    new: Stored,
) -> Result<Change, AllocError>
    ensures { IfOk result (λ change. change ≡ spec.changed_row table.now old.now new) }
{
    let Stored { id: _, key, row } = new;
    let after = Keyed { key, row };
    match row_before(alloc, table, old) {
        Ok((table, before)) => Ok(Change::Row(RowChange {
            table,
            id: old.id(),
            before: Some(before),
            after: Some(after),
        })),
        Err(refused) => {
            drop(after);
            Err(refused)
        }
    }
}

/// The table's name and the old row, copied for a change.
fn row_before<'c>(
    alloc: Global,
    table: &Name,
    old: &BorrowedRow<'c>,
) -> Result<(Name, Keyed), AllocError>
    ensures { IfOk result (λ pair. pair ≡ (table.now, record { key = old.now.key; row = old.now.row })) }
{
    let before = Keyed {
        key: old.key().copy(alloc)?,
        row: old.row().copy(alloc)?,
    };
    match table.copy() {
        Ok(table) => Ok((table, before)),
        Err(refused) => {
            drop(before);
            Err(refused)
        }
    }
}
