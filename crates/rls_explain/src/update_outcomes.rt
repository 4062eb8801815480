//! UPDATE: what it did with the rows that it scans, and their new versions where it was refused.

ghost use Rattle.std.specs.Prelude.{◌≡◌, ◌++◌, Some, None, Ok, true, is_some, map, List, Result, IfOk, OnOk};
ghost use Rattle.rls_value.specs.{declared.refusal.Refusal.Refusal as SpecRefusal, declared.value.Value.Value as SpecValue, Giving.Gives};
ghost use Rattle.std.specs.List.{flat_map};
ghost use Rattle.rls_meaning.specs.rls_guard.specs.rls_catalog.specs.State.{table_of};
ghost use Rattle.rls_expr.specs.Scopes.{in_scope};
ghost use Rattle.rls_statement.specs.declared.statement.Statement.TheVariants as asked;
ghost use Rattle.rls_meaning.specs.rls_guard.specs.rls_evaluation.specs.Showing.{shows};
ghost use Rattle.rls_judging.specs.ScannedRows.{pinned_key};
ghost use Rattle.rls_meaning.specs.{Meaning.effect_of, Showing.rows_at_key};
ghost use Rattle.rls_meaning.specs.rls_expansion.specs.Used.{all_tables, tables_if};
ghost use Rattle.rls_explain.specs.Explaining.{decisions_of};
ghost use Rattle.rls_explain.specs.Found.{Decides, are_read, expansion_found, on_row, qualifying_found};
ghost use Rattle.rls_explain.specs.FoundOutcomes as finding;
ghost use Rattle.rls_explain.specs.Outcomes as spec;

use crate::asking::{expansion_if, new_rows, old_rows, rows_qualifying, rows_scanned};
use crate::fates::{denial_on, fate_of, put_denied, put_scanned, put_skipped, put_told};
use crate::outcome::{Fate, Met, RowOutcome, RowWord};
use crate::outcome_laws::outcomes_found;
use crate::resolving::{UpdateParts, update_parts};
use crate::seen::{Looks, with_seen};
use crate::updating::new_version;
use rls_expr::{Column, FromTable, TableDef};
use rls_judging::CheckContext;
use rls_meaning::rls_access::Ctx;
use rls_meaning::rls_expansion::PolicyExpansion;
use rls_meaning::rls_guard::rls_catalog::{BorrowedRow, Catalog};
use rls_meaning::rls_guard::rls_source::Footprint;
use rls_statement::Update;
use rls_value::{Items, Kind, Name, Refusal, Row, RowId};
use std::alloc::{AllocError, Global};

/// How an UPDATE ended: it was done, with RETURNING or without it, or refused.
#[derive(Clone, Copy)]
pub struct Ended {
    pub returning: bool,
    pub done: bool,
}

/// What an UPDATE did, which decided on this row.
#[tactic(auto, using(crate::proofs::OutcomeLemmas::update_decides_none))]
pub fn update_outcomes(
    alloc: Global,
    catalog: &Catalog,
    ctx: &Ctx,
    update: &Update,
    reads: bool,
    done: bool,
    read: &Footprint,
    id: RowId,
) -> Result<Items<RowOutcome>, AllocError>
    requires decides { Decides catalog.now ctx.now (asked.Update update.now) (on_row id) }
    requires reads { are_read (decisions_of (effect_of catalog.now ctx.now (asked.Update update.now))) ≡ reads }
    ensures { IfOk result (λ rows. rows ≡ finding.told_of catalog.now ctx.now (asked.Update update.now) done read.now) }
{
    match catalog.table(&update.table) {
        Some(table) => updated_outcomes(alloc, catalog, ctx, update, table, reads, done, read, id),
        None => Ok(Items::new(alloc)),
    }
}

/// The same of a table that is there.
fn updated_outcomes(
    alloc: Global,
    catalog: &Catalog,
    ctx: &Ctx,
    update: &Update,
    table: &TableDef,
    reads: bool,
    done: bool,
    read: &Footprint,
    id: RowId,
) -> Result<Items<RowOutcome>, AllocError>
    requires there { table_of catalog.now update.now.table ≡ Some table.now }
    requires decides { Decides catalog.now ctx.now (asked.Update update.now) (on_row id) }
    requires reads { are_read (decisions_of (effect_of catalog.now ctx.now (asked.Update update.now))) ≡ reads }
    ensures { IfOk result (λ rows. rows ≡ finding.told_of catalog.now ctx.now (asked.Update update.now) done read.now) }
{
    outcomes_found();
    let from = FromTable {
        name: &update.table,
        table,
    };
    let returning = update.returning.is_some();
    let ended = Ended { returning, done };
    let parts = update_parts(alloc, catalog, from, update)?;
    let rows = outcomes_by(alloc, catalog, &ctx.role, from, &parts, reads, ended, read);
    drop(parts);
    rows
}

/// By the parts of the statement.
fn outcomes_by<'x>(
    alloc: Global,
    catalog: &Catalog,
    role: &Name,
    from: FromTable<'x>,
    parts: &UpdateParts,
    reads: bool,
    ended: Ended,
    read: &Footprint,
) -> Result<Items<RowOutcome>, AllocError>
    ensures { IfOk result (λ rows. rows ≡ finding.updated_told catalog.now role.now from.entry.name.now from.entry.table.now.columns parts.now.places.items parts.now.values parts.now.condition ended.returning ended.done read.now (all_tables parts.now.values ++ tables_if parts.now.condition) (rows_at_key catalog.now from.entry.name.now (pinned_key role.now from.entry.table.now.key parts.now.condition)) (expansion_found catalog.now role.now (in_scope from.entry) Kind.Update reads (all_tables parts.now.values ++ tables_if parts.now.condition))) }
{
    let queries = parts.tables(alloc)?;
    let looks = Looks {
        queries: queries.as_slice(),
        read,
    };
    let rows = outcomes_looking(alloc, catalog, role, from, parts, reads, ended, looks);
    drop(queries);
    rows
}

/// The same, where subqueries look at these tables.
fn outcomes_looking<'x>(
    alloc: Global,
    catalog: &Catalog,
    role: &Name,
    from: FromTable<'x>,
    parts: &UpdateParts,
    reads: bool,
    ended: Ended,
    looks: Looks<'x>,
) -> Result<Items<RowOutcome>, AllocError>
    ensures { IfOk result (λ rows. rows ≡ finding.updated_told catalog.now role.now from.entry.name.now from.entry.table.now.columns parts.now.places.items parts.now.values parts.now.condition ended.returning ended.done looks.entry.read.now looks.entry.queries.now (rows_at_key catalog.now from.entry.name.now (pinned_key role.now from.entry.table.now.key parts.now.condition)) (expansion_found catalog.now role.now (in_scope from.entry) Kind.Update reads looks.entry.queries.now)) }
{
    let kind = Kind::Update;
    let found = expansion_if(alloc, catalog, role, from, kind, reads, looks.queries)?;
    let rows = outcomes_if(alloc, catalog, role, from, parts, ended, looks, &found);
    drop(found);
    rows
}

/// The same under the policy expansion, if there is one.
fn outcomes_if<'c, 'x>(
    alloc: Global,
    catalog: &'c Catalog,
    role: &Name,
    from: FromTable<'x>,
    parts: &UpdateParts,
    ended: Ended,
    looks: Looks<'x>,
    found: &Option<PolicyExpansion<'c>>,
) -> Result<Items<RowOutcome>, AllocError>
    ensures { IfOk result (λ rows. rows ≡ finding.updated_told catalog.now role.now from.entry.name.now from.entry.table.now.columns parts.now.places.items parts.now.values parts.now.condition ended.returning ended.done looks.entry.read.now looks.entry.queries.now (rows_at_key catalog.now from.entry.name.now (pinned_key role.now from.entry.table.now.key parts.now.condition)) found.now) }
{
    match found {
        Some(expansion) => {
            let outcomes = ended_outcomes(alloc, catalog, role, from, parts, ended, expansion)?;
            with_seen(alloc, catalog, role, expansion, looks, outcomes)
        }
        None => Ok(Items::new(alloc)),
    }
}

/// Without what subqueries could see.
fn ended_outcomes<'c, 'x>(
    alloc: Global,
    catalog: &'c Catalog,
    role: &Name,
    from: FromTable<'x>,
    parts: &UpdateParts,
    ended: Ended,
    expansion: &PolicyExpansion<'c>,
) -> Result<Items<RowOutcome>, AllocError>
    ensures { IfOk result (λ rows. rows ≡ finding.ended_told catalog.now role.now from.entry.name.now from.entry.table.now.columns parts.now.places.items parts.now.values parts.now.condition ended.returning ended.done (rows_at_key catalog.now from.entry.name.now (pinned_key role.now from.entry.table.now.key parts.now.condition)) expansion.now) }
{
    let rows = rows_scanned(alloc, catalog, role, from, &parts.condition)?;
    if ended.done {
        done_outcomes(
            alloc,
            catalog,
            role,
            from,
            parts,
            ended.returning,
            expansion,
            rows.as_slice(),
        )
    } else {
        refused_outcomes(
            alloc,
            catalog,
            role,
            from,
            parts,
            expansion,
            rows.as_slice(),
        )
    }
}

/// Of an UPDATE that was done.
fn done_outcomes<'c, 'x>(
    alloc: Global,
    catalog: &'c Catalog,
    role: &Name,
    from: FromTable<'x>,
    parts: &UpdateParts,
    returning: bool,
    expansion: &PolicyExpansion<'c>,
    rows: &[BorrowedRow<'c>],
) -> Result<Items<RowOutcome>, AllocError>
    ensures { IfOk result (λ outcomes. outcomes ≡ finding.update_told catalog.now role.now from.entry.name.now from.entry.table.now.columns parts.now.places.items parts.now.values parts.now.condition returning rows.now expansion.now) }
{
    let mut outcomes = Vec::new(alloc);
    put_done(
        alloc,
        catalog,
        old_rows(expansion, role),
        from,
        parts,
        returning,
        rows,
        &mut outcomes,
    )?;
    Ok(Items::from_vec(outcomes))
}

/// Tells of each of its rows.
fn put_done<'a, 'c, 'x>(
    alloc: Global,
    catalog: &'c Catalog,
    context: CheckContext<'a, 'c>,
    from: FromTable<'x>,
    parts: &UpdateParts,
    returning: bool,
    rows: &[BorrowedRow<'c>],
    outcomes: &mut Vec<RowOutcome>,
) -> Result<(), AllocError>
    ensures { OnOk result (outcomes.new.items ≡ outcomes.old.items ++ finding.scanned_found catalog.now (shows context.entry.relations.now context.entry.role.now) context.entry.role.now context.entry.row_checks.now from.entry.name.now parts.now.condition (λ stored. finding.changed_by from.entry.name.now returning stored (finding.version_found catalog.now (shows context.entry.relations.now context.entry.role.now) context.entry.role.now from.entry.table.now.columns parts.now.places.items parts.now.values stored)) rows.now) }
{
    for stored in rows {
        put_updated(
            alloc, catalog, context, from, parts, returning, stored, outcomes,
        )?;
    }
    Ok(())
}

/// Tells of one of them.
fn put_updated<'a, 'c, 'x>(
    alloc: Global,
    catalog: &'c Catalog,
    context: CheckContext<'a, 'c>,
    from: FromTable<'x>,
    parts: &UpdateParts,
    returning: bool,
    stored: &BorrowedRow<'c>,
    outcomes: &mut Vec<RowOutcome>,
) -> Result<(), AllocError>
    ensures { OnOk result (outcomes.new.items ≡ outcomes.old.items ++ spec.scanned_as from.entry.name.now (finding.fate_found catalog.now (shows context.entry.relations.now context.entry.role.now) context.entry.role.now context.entry.row_checks.now parts.now.condition stored.now) stored.now (finding.changed_by from.entry.name.now returning stored.now (finding.version_found catalog.now (shows context.entry.relations.now context.entry.role.now) context.entry.role.now from.entry.table.now.columns parts.now.places.items parts.now.values stored.now))) }
{
    match fate_of(alloc, catalog, context, &parts.condition, stored)? {
        Fate::Met => put_changed(
            alloc, catalog, context, from, parts, returning, stored, outcomes,
        ),
        Fate::Denied(reason) => put_denied(alloc, from.name, reason, stored, outcomes),
        Fate::Unmet(truth) => put_skipped(alloc, from.name, truth, stored, outcomes),
    }
}

/// Tells of a row that was changed.
fn put_changed<'a, 'c, 'x>(
    alloc: Global,
    catalog: &'c Catalog,
    context: CheckContext<'a, 'c>,
    from: FromTable<'x>,
    parts: &UpdateParts,
    returning: bool,
    stored: &BorrowedRow<'c>,
    outcomes: &mut Vec<RowOutcome>,
) -> Result<(), AllocError>
    ensures { OnOk result (outcomes.new.items ≡ outcomes.old.items ++ finding.changed_by from.entry.name.now returning stored.now (finding.version_found catalog.now (shows context.entry.relations.now context.entry.role.now) context.entry.role.now from.entry.table.now.columns parts.now.places.items parts.now.values stored.now)) }
{
    match version_of(
        alloc,
        catalog,
        context,
        from.table.columns.as_slice(),
        parts,
        stored,
    ) {
        Ok(row) => put_version(alloc, from.name, returning, stored, row, outcomes),
        Err(Refusal::NoMemory) => Err(AllocError),
        Err(refusal) => {
            drop(refusal);
            Ok(())
        }
    }
}

/// What UPDATE writes in the place of the row.
fn version_of<'a, 'c>(
    alloc: Global,
    catalog: &'c Catalog,
    context: CheckContext<'a, 'c>,
    columns: &[Column],
    parts: &UpdateParts,
    stored: &BorrowedRow<'c>,
) -> Result<Row, Refusal>
    ensures { Gives result (finding.version_found catalog.now (shows context.entry.relations.now context.entry.role.now) context.entry.role.now columns.now parts.now.places.items parts.now.values stored.now) }
{
    let relations = &*context.relations;
    let role = &*context.role;
    let places = parts.places.as_slice();
    let terms = parts.values.as_slice();
    new_version(
        alloc,
        catalog,
        relations,
        role,
        columns,
        places,
        terms,
        stored.row(),
    )
}

/// Tells of a row with what it is now.
fn put_version<'c>(
    alloc: Global,
    table: &Name,
    returning: bool,
    stored: &BorrowedRow<'c>,
    new: Row,
    outcomes: &mut Vec<RowOutcome>,
) -> Result<(), AllocError>
    ensures { OnOk result (outcomes.new.items ≡ outcomes.old.items ++ finding.changed_by table.now returning stored.now (Ok new)) }
{
    let changed = changed_to(alloc, table, stored, &new)?;
    outcomes.push(changed)?;
    if returning {
        put_told(
            alloc,
            RowWord::Returned,
            table,
            stored.id(),
            &new,
            None,
            outcomes,
        )
    } else {
        Ok(())
    }
}

fn changed_to<'c>(
    alloc: Global,
    table: &Name,
    stored: &BorrowedRow<'c>,
    new: &Row,
) -> Result<RowOutcome, AllocError>
    ensures word { IfOk result (λ outcome. outcome.word ≡ RowWord.Changed) }
    ensures table { IfOk result (λ outcome. outcome.table ≡ table.now) }
    ensures id { IfOk result (λ outcome. outcome.id ≡ stored.now.id) }
    ensures row { IfOk result (λ outcome. outcome.row ≡ stored.now.row) }
    ensures new { IfOk result (λ outcome. outcome.new ≡ Some new.now) }
    ensures reason { IfOk result (λ outcome. outcome.reason ≡ None) }
{
    let table = table.copy()?;
    match both_rows(alloc, stored.row(), new) {
        Ok((row, new)) => Ok(RowOutcome {
            word: RowWord::Changed,
            table,
            id: stored.id(),
            row,
            new: Some(new),
            reason: None,
        }),
        Err(refused) => {
            drop(table);
            Err(refused)
        }
    }
}

fn both_rows(alloc: Global, row: &Row, new: &Row) -> Result<(Row, Row), AllocError>
    ensures row { IfOk result (λ both. both.0 ≡ row.now) }
    ensures new { IfOk result (λ both. both.1 ≡ new.now) }
{
    let row = row.copy(alloc)?;
    match new.copy(alloc) {
        Ok(new) => Ok((row, new)),
        Err(refused) => {
            drop(row);
            Err(refused)
        }
    }
}

/// Of an UPDATE that was refused: its rows, then the new ones.
fn refused_outcomes<'c, 'x>(
    alloc: Global,
    catalog: &'c Catalog,
    role: &Name,
    from: FromTable<'x>,
    parts: &UpdateParts,
    expansion: &PolicyExpansion<'c>,
    rows: &[BorrowedRow<'c>],
) -> Result<Items<RowOutcome>, AllocError>
    ensures { IfOk result (λ outcomes. outcomes ≡ finding.refusal_told catalog.now role.now from.entry.name.now from.entry.table.now.columns parts.now.places.items parts.now.values parts.now.condition rows.now expansion.now) }
{
    let qualifying = rows_qualifying(alloc, catalog, role, expansion, &parts.condition, rows)?;
    let mut outcomes = Vec::new(alloc);
    let met = Met {
        word: RowWord::Matched,
        returning: false,
    };
    let old = old_rows(expansion, role);
    let new = new_rows(expansion, role);
    put_scanned(
        alloc,
        catalog,
        old,
        from.name,
        &parts.condition,
        met,
        rows,
        &mut outcomes,
    )?;
    put_refused(alloc, catalog, new, from, parts, &qualifying, &mut outcomes)?;
    Ok(Items::from_vec(outcomes))
}

/// Tells of the new versions of the rows.
fn put_refused<'a, 'c, 'x>(
    alloc: Global,
    catalog: &'c Catalog,
    context: CheckContext<'a, 'c>,
    from: FromTable<'x>,
    parts: &UpdateParts,
    rows: &[&BorrowedRow<'c>],
    outcomes: &mut Vec<RowOutcome>,
) -> Result<(), AllocError>
    ensures { OnOk result (outcomes.new.items ≡ outcomes.old.items ++ flat_map (λ stored. finding.refused_by catalog.now (shows context.entry.relations.now context.entry.role.now) context.entry.role.now context.entry.row_checks.now from.entry.name.now stored.id (finding.version_found catalog.now (shows context.entry.relations.now context.entry.role.now) context.entry.role.now from.entry.table.now.columns parts.now.places.items parts.now.values stored)) (map (λ row. row.now) rows.now)) }
{
    for stored in rows {
        let columns = from.table.columns.as_slice();
        let made = version_of(alloc, catalog, context, columns, parts, stored);
        put_refused_one(
            alloc,
            catalog,
            context,
            from.name,
            stored.id(),
            made,
            outcomes,
        )?;
    }
    Ok(())
}

/// Tells of a new row of a statement that was refused; nothing where a value is out of range.
pub fn put_refused_one<'a, 'c>(
    alloc: Global,
    catalog: &'c Catalog,
    context: CheckContext<'a, 'c>,
    table: &Name,
    id: RowId,
    made: Result<Row, Refusal>,
    outcomes: &mut Vec<RowOutcome>,
) -> Result<(), AllocError>
    ensures { (given : Result (List SpecValue) SpecRefusal) → Gives made given → OnOk result (outcomes.new.items ≡ outcomes.old.items ++ finding.refused_by catalog.now (shows context.entry.relations.now context.entry.role.now) context.entry.role.now context.entry.row_checks.now table.now id given) }
{
    match made {
        Ok(row) => {
            let put = put_judged(alloc, catalog, context, table, id, &row, outcomes);
            drop(row);
            put
        }
        Err(Refusal::NoMemory) => Err(AllocError),
        Err(refusal) => {
            drop(refusal);
            Ok(())
        }
    }
}

fn put_judged<'a, 'c>(
    alloc: Global,
    catalog: &'c Catalog,
    context: CheckContext<'a, 'c>,
    table: &Name,
    id: RowId,
    row: &Row,
    outcomes: &mut Vec<RowOutcome>,
) -> Result<(), AllocError>
    ensures { OnOk result (outcomes.new.items ≡ outcomes.old.items ++ finding.refused_by catalog.now (shows context.entry.relations.now context.entry.role.now) context.entry.role.now context.entry.row_checks.now table.now id (Ok row.now)) }
{
    match denial_on(alloc, catalog, context, id, row)? {
        Some(reason) => put_told(
            alloc,
            RowWord::Refused,
            table,
            id,
            row,
            Some(reason),
            outcomes,
        ),
        None => put_told(alloc, RowWord::Proposed, table, id, row, None, outcomes),
    }
}
