//! The rows that subqueries could see.

ghost use Rattle.std.specs.Prelude.{◌≡◌, ◌++◌, [], None, true, false, filter, map, IfOk, OnOk};
ghost use Rattle.rls_value.specs.Names.{one_of};
ghost use Rattle.rls_expr.specs.Scopes.{in_scope};
ghost use Rattle.rls_meaning.specs.rls_guard.specs.rls_evaluation.specs.Showing.{shows};
ghost use Rattle.rls_meaning.specs.rls_guard.specs.rls_catalog.specs.State.{rows_of, table_of};
ghost use Rattle.rls_meaning.specs.rls_guard.specs.rls_source.specs.Footprints.{is_among};
ghost use Rattle.rls_explain.specs.Found.{expansion_found};
ghost use Rattle.rls_explain.specs.FoundOutcomes as finding;
ghost use Rattle.rls_explain.specs.Seen as spec;

use crate::asking::{expansion_if, old_rows};
use crate::fates::{fate_of, put_told};
use crate::outcome::{Fate, RowOutcome, RowWord};
use rls_expr::{FromTable, SelectedTable};
use rls_judging::CheckContext;
use rls_meaning::rls_expansion::PolicyExpansion;
use rls_meaning::rls_guard::rls_catalog::{BorrowedRow, Catalog};
use rls_meaning::rls_guard::rls_source::Footprint;
use rls_value::{Items, Kind, Name, Object, Row};
use std::alloc::{AllocError, Global};
use std::collections::BTreeSet;

/// The tables of a statement's own subqueries, and all objects that it read.
#[derive(Clone, Copy)]
pub struct Looks<'x> {
    pub queries: &'x [Name],
    pub read: &'x Footprint,
}

/// The rows, and behind them those that subqueries could see.
pub fn with_seen<'c, 'x>(
    alloc: Global,
    catalog: &'c Catalog,
    role: &Name,
    expansion: &PolicyExpansion<'c>,
    looks: Looks<'x>,
    rows: Items<RowOutcome>,
) -> Result<Items<RowOutcome>, AllocError>
    ensures { IfOk result (λ all. all ≡ rows ++ finding.seen_found catalog.now role.now looks.entry.read.now (finding.names_listed expansion.now looks.entry.queries.now)) }
{
    let mut outcomes = rows.into_vec();
    match put_seen(alloc, catalog, role, expansion, looks, &mut outcomes) {
        Ok(()) => Ok(Items::from_vec(outcomes)),
        Err(refused) => {
            drop(outcomes);
            Err(refused)
        }
    }
}

/// Tells of the rows that subqueries could see, by table and number.
fn put_seen<'c, 'x>(
    alloc: Global,
    catalog: &'c Catalog,
    role: &Name,
    expansion: &PolicyExpansion<'c>,
    looks: Looks<'x>,
    outcomes: &mut Vec<RowOutcome>,
) -> Result<(), AllocError>
    ensures { OnOk result (outcomes.new.items ≡ outcomes.old.items ++ finding.seen_found catalog.now role.now looks.entry.read.now (finding.names_listed expansion.now looks.entry.queries.now)) }
{
    let names = tables_seen(alloc, expansion, looks)?;
    let put = put_each(alloc, catalog, role, looks.read, names.as_slice(), outcomes);
    drop(names);
    put
}

/// Those of the tables.
fn put_each(
    alloc: Global,
    catalog: &Catalog,
    role: &Name,
    read: &Footprint,
    names: &[Name],
    outcomes: &mut Vec<RowOutcome>,
) -> Result<(), AllocError>
    ensures { OnOk result (outcomes.new.items ≡ outcomes.old.items ++ finding.seen_each catalog.now role.now read.now names.now) }
{
    for name in names {
        put_there(alloc, catalog, role, read, name, outcomes)?;
    }
    Ok(())
}

/// Those of a table, if it is there.
fn put_there(
    alloc: Global,
    catalog: &Catalog,
    role: &Name,
    read: &Footprint,
    name: &Name,
    outcomes: &mut Vec<RowOutcome>,
) -> Result<(), AllocError>
    ensures { OnOk result (outcomes.new.items ≡ outcomes.old.items ++ finding.seen_there catalog.now role.now read.now name.now (table_of catalog.now name.now)) }
{
    match catalog.table(name) {
        Some(table) => {
            let from = FromTable { name, table };
            put_of(alloc, catalog, role, read, from, outcomes)
        }
        None => Ok(()),
    }
}

/// The same by the policies of the table.
fn put_of<'x>(
    alloc: Global,
    catalog: &Catalog,
    role: &Name,
    read: &Footprint,
    from: FromTable<'x>,
    outcomes: &mut Vec<RowOutcome>,
) -> Result<(), AllocError>
    ensures { OnOk result (outcomes.new.items ≡ outcomes.old.items ++ finding.seen_under catalog.now role.now read.now from.entry.name.now (rows_of catalog.now from.entry.name.now) (expansion_found catalog.now role.now (in_scope from.entry) Kind.Select false [])) }
{
    let found = expansion_if(alloc, catalog, role, from, Kind::Select, false, &[])?;
    let put = put_if(alloc, catalog, role, read, from.name, &found, outcomes);
    drop(found);
    put
}

/// The same under the policy expansion, if there is one.
fn put_if<'c>(
    alloc: Global,
    catalog: &'c Catalog,
    role: &Name,
    read: &Footprint,
    name: &Name,
    found: &Option<PolicyExpansion<'c>>,
    outcomes: &mut Vec<RowOutcome>,
) -> Result<(), AllocError>
    ensures { OnOk result (outcomes.new.items ≡ outcomes.old.items ++ finding.seen_under catalog.now role.now read.now name.now (rows_of catalog.now name.now) found.now) }
{
    match found {
        Some(expansion) => {
            let context = old_rows(expansion, role);
            put_rows(alloc, catalog, context, read, name, outcomes)
        }
        None => Ok(()),
    }
}

/// Its rows that were read and that are shown.
fn put_rows<'a, 'c>(
    alloc: Global,
    catalog: &'c Catalog,
    context: CheckContext<'a, 'c>,
    read: &Footprint,
    name: &Name,
    outcomes: &mut Vec<RowOutcome>,
) -> Result<(), AllocError>
    ensures { OnOk result (outcomes.new.items ≡ outcomes.old.items ++ finding.seen_by catalog.now (shows context.entry.relations.now context.entry.role.now) context.entry.role.now context.entry.row_checks.now read.now name.now (rows_of catalog.now name.now)) }
{
    let whole = is_whole(read, name)?;
    let rows = catalog.rows(alloc, name)?;
    let put = put_read(
        alloc,
        catalog,
        context,
        whole,
        read,
        name,
        rows.as_slice(),
        outcomes,
    );
    drop(rows);
    put
}

/// Those of these rows; whether all of the table were read is known.
fn put_read<'a, 'c>(
    alloc: Global,
    catalog: &'c Catalog,
    context: CheckContext<'a, 'c>,
    whole: bool,
    read: &Footprint,
    name: &Name,
    rows: &[BorrowedRow<'c>],
    outcomes: &mut Vec<RowOutcome>,
) -> Result<(), AllocError>
    requires { whole ≡ is_among read.now (Object.Rows name.now) }
    ensures { OnOk result (outcomes.new.items ≡ outcomes.old.items ++ finding.seen_by catalog.now (shows context.entry.relations.now context.entry.role.now) context.entry.role.now context.entry.row_checks.now read.now name.now rows.now) }
{
    for stored in rows {
        if is_read(alloc, whole, read, name, stored)? {
            put_shown(alloc, catalog, context, name, stored, outcomes)?;
        }
    }
    Ok(())
}

/// Tells of the row, which was read, where it is shown.
fn put_shown<'a, 'c>(
    alloc: Global,
    catalog: &'c Catalog,
    context: CheckContext<'a, 'c>,
    name: &Name,
    stored: &BorrowedRow<'c>,
    outcomes: &mut Vec<RowOutcome>,
) -> Result<(), AllocError>
    ensures { OnOk result (outcomes.new.items ≡ outcomes.old.items ++ finding.seen_if true name.now stored.now (finding.fate_found catalog.now (shows context.entry.relations.now context.entry.role.now) context.entry.role.now context.entry.row_checks.now None stored.now)) }
{
    match fate_of(alloc, catalog, context, &None, stored)? {
        Fate::Met => {
            let word = RowWord::Seen;
            put_told(alloc, word, name, stored.id(), stored.row(), None, outcomes)
        }
        Fate::Denied(reason) => {
            drop(reason);
            Ok(())
        }
        Fate::Unmet(_) => Ok(()),
    }
}

/// Whether all rows of the table were read.
fn is_whole(read: &Footprint, name: &Name) -> Result<bool, AllocError>
    ensures { IfOk result (λ whole. whole ≡ is_among read.now (Object.Rows name.now)) }
{
    let rows = Object::Rows(name.copy()?);
    let whole = read.contains(&rows);
    drop(rows);
    Ok(whole)
}

/// Whether the row was read: with all of its table, or by its key.
fn is_read<'c>(
    alloc: Global,
    whole: bool,
    read: &Footprint,
    name: &Name,
    stored: &BorrowedRow<'c>,
) -> Result<bool, AllocError>
    requires { whole ≡ is_among read.now (Object.Rows name.now) }
    ensures { IfOk result (λ found. found ≡ spec.is_read read.now name.now stored.now) }
{
    if whole {
        return Ok(true);
    }
    let key = key_of(alloc, name, stored.key())?;
    let found = read.contains(&key);
    drop(key);
    Ok(found)
}

fn key_of(alloc: Global, name: &Name, key: &Row) -> Result<Object, AllocError>
    ensures { IfOk result (λ object. object ≡ Object.Key name.now key.now) }
{
    let name = name.copy()?;
    match key.copy(alloc) {
        Ok(key) => Ok(Object::Key(name, key)),
        Err(refused) => {
            drop(name);
            Err(refused)
        }
    }
}

/// The tables whose rows were read and that subqueries look at.
fn tables_seen<'c, 'x>(
    alloc: Global,
    expansion: &PolicyExpansion<'c>,
    looks: Looks<'x>,
) -> Result<Items<Name>, AllocError>
    ensures { IfOk result (λ names. names ≡ filter (one_of (finding.names_listed expansion.now looks.entry.queries.now)) (spec.tables_read looks.entry.read.now)) }
{
    let listed = tables_listed(alloc, expansion, looks.queries)?;
    let names = read_among(alloc, looks.read, listed.as_slice());
    drop(listed);
    names
}

/// The tables that SELECT is asked of, as they are met.
fn tables_listed<'c>(
    alloc: Global,
    expansion: &PolicyExpansion<'c>,
    queries: &[Name],
) -> Result<Items<SelectedTable>, AllocError>
    ensures { IfOk result (λ tables. map (λ one. one.table) tables ≡ finding.names_listed expansion.now queries.now) }
{
    let bare = bare_tables(alloc, queries)?;
    let listed = expansion.permission_checks(alloc, bare.as_slice());
    drop(bare);
    listed
}

/// The tables alone, without columns.
fn bare_tables(alloc: Global, names: &[Name]) -> Result<Vec<SelectedTable>, AllocError>
    ensures { IfOk result (λ tables. tables.items ≡ map finding.bare names.now) }
{
    let mut tables = Vec::with_capacity(alloc, names.len())?;
    for name in names {
        tables.push(bare(alloc, name)?)?;
    }
    Ok(tables)
}

fn bare(alloc: Global, name: &Name) -> Result<SelectedTable, AllocError>
    ensures { IfOk result (λ table. table ≡ finding.bare name.now) }
{
    match name.copy() {
        Ok(table) => Ok(SelectedTable {
            table,
            columns: Items::new(alloc),
        }),
        Err(refused) => Err(refused),
    }
}

/// The tables whose rows were read, each once, as far as they are among these.
fn read_among(
    alloc: Global,
    read: &Footprint,
    listed: &[SelectedTable],
) -> Result<Items<Name>, AllocError>
    ensures { IfOk result (λ names. names ≡ filter (one_of (map (λ one. one.table) listed.now)) (spec.tables_read read.now)) }
{
    let tables = tables_read(alloc, read)?;
    let names = kept_among(alloc, &tables, listed);
    drop(tables);
    names
}

fn kept_among(
    alloc: Global,
    tables: &BTreeSet<Name>,
    listed: &[SelectedTable],
) -> Result<Items<Name>, AllocError>
    ensures { IfOk result (λ names. names ≡ filter (one_of (map (λ one. one.table) listed.now)) tables.now.keys) }
{
    let mut names = Items::new(alloc);
    for name in tables.iter() {
        if is_listed(name, listed) {
            names.push(name.copy()?)?;
        }
    }
    Ok(names)
}

fn is_listed(name: &Name, mut listed: &[SelectedTable]) -> bool
    ensures { result ≡ one_of (map (λ one. one.table) listed.entry.now) name.now }
{
    while let [one, rest @ ..] = listed {
        if one.table.is(name) {
            return true;
        }
        listed = rest;
    }
    false
}

/// The tables whose rows were read.
fn tables_read(alloc: Global, read: &Footprint) -> Result<BTreeSet<Name>, AllocError>
    ensures { IfOk result (λ tables. tables.keys ≡ spec.tables_read read.now) }
{
    let mut tables = BTreeSet::new(alloc);
    for object in read.iter() {
        put_table(&mut tables, object)?;
    }
    Ok(tables)
}

/// Puts the table whose rows the object is in its place.
fn put_table(tables: &mut BTreeSet<Name>, object: &Object) -> Result<(), AllocError>
    ensures { OnOk result (tables.new.keys ≡ spec.with_name tables.old.keys (spec.table_read object.now)) }
{
    match object {
        Object::Rows(name) | Object::Key(name, _) => {
            tables.insert(name.copy()?)?;
            Ok(())
        }
        Object::Role(_)
        | Object::Members(_)
        | Object::Table(_)
        | Object::Grants(_)
        | Object::Policies(_)
        | Object::RowOf(_, _) => Ok(()),
    }
}
