//! DELETE.

ghost use Rattle.std.specs.Prelude.{◌≡◌, [], ◌∷◌, None, map, IfOk};
ghost use Rattle.rls_value.specs.Giving.{Gives};
ghost use Rattle.rls_guard.specs.rls_source.specs.Answering.{Answers, Tells};
ghost use Rattle.rls_expr.specs.Naming.{step_of};
ghost use Rattle.rls_guard.specs.Naming.{named, names_over};
ghost use Rattle.rls_expansion.specs.{Expanding.expansion_of, Expanding.permission_checks, Used.tables_if};
ghost use Rattle.rls_dml.specs.{Checking.has_some as spec_has_some, Checking.returning_resolved, Checking.where_resolved, Checking.where_selected as spec_where_selected, Writing.checks_of};
ghost use Rattle.rls_dml.specs.Deleting as spec;

use crate::checking::{
    columns_read, has_some, put_returning, put_returning_names, put_where, require_fitting,
    require_supported, resolve_returning, resolve_where, returning_fits, returning_unsupported,
    returns_all, where_fits, where_selected, where_tables, where_unsupported,
};
use crate::checking_rows::qualifying_rows_under;
use crate::replying::{reply_of, standing_rows};
use crate::writing::{checks_of, require_all};
use rls_expansion::{PolicyExpansion, expansion_of};
use rls_expr::{Expr, FromTable, NameStep, NamedTable, Scope, TableDef, put_names_if};
use rls_guard::rls_catalog::{BorrowedRow, Change, Delta, Keyed, RowChange};
use rls_guard::rls_source::Asker;
use rls_guard::{
    Ctx, Decision, Effect, Found, PermissionCheck, Reply, RolePrivileges, named_over,
    role_privileges_of,
};
use rls_judging::scanned_rows;
use rls_statement::{Delete, Selected};
use rls_value::{Items, Kind, Name, Privilege, Refusal};
use std::alloc::{AllocError, Global};

/// A DELETE whose names are resolved.
#[derive(Drop)]
pub struct AnalysedDelete<'c> {
    pub condition: Option<Expr>,
    pub returning: Option<Selected>,
    /// The tables that its subqueries name.
    pub found: Found<'c>,
}

/// Deletes the rows that row security lets go and that meet the condition. What it hides stays.
pub fn run_delete(asker: &mut Asker, ctx: &Ctx, delete: &Delete) -> Result<Effect, Refusal>
    ensures { Answers (spec.delete ctx.now delete.now) asker.old asker.new result }
{
    let table = asker.table_named(&delete.table)?;
    let from = FromTable {
        name: &delete.table,
        table,
    };
    let analysed_delete = known_analysed_delete(asker, delete, table)?;
    let deleted = delete_from(asker, &ctx.role, from, &analysed_delete);
    drop(analysed_delete);
    deleted
}

/// The parts of the statement.
fn known_analysed_delete<'c>(
    asker: &mut Asker<'c>,
    delete: &Delete,
    table: &'c TableDef,
) -> Result<AnalysedDelete<'c>, Refusal>
    ensures { Answers (spec.analysed_delete_for delete.now table.now) asker.old asker.new result }
{
    let found = found_for(asker, delete, table)?;
    check_analysed_delete(asker.alloc(), delete, table, found)
}

/// Looks for the names of the condition and of RETURNING.
fn found_for<'c>(
    asker: &mut Asker<'c>,
    delete: &Delete,
    table: &'c TableDef,
) -> Result<Found<'c>, Refusal>
    ensures { Answers (named (spec.analysed_delete_names delete.now) ((delete.now.table, table.now) ∷ []) []) asker.old asker.new result }
{
    let steps = names_of(asker.alloc(), delete)?;
    let found = named_over(asker, &steps, &delete.table, table);
    drop(steps);
    found
}

fn names_of<'x>(alloc: Global, delete: &'x Delete) -> Result<Vec<NameStep<'x>>, AllocError>
    ensures { IfOk result (λ steps. map step_of steps.items ≡ spec.analysed_delete_names delete.now) }
{
    let mut steps = Vec::new(alloc);
    put_names_if(&mut steps, &delete.condition)?;
    put_returning_names(&mut steps, &delete.returning)?;
    Ok(steps)
}

/// Resolves the parts, and checks their types and that nothing isn't supported.
fn check_analysed_delete<'c>(
    alloc: Global,
    delete: &Delete,
    table: &TableDef,
    found: Found<'c>,
) -> Result<AnalysedDelete<'c>, Refusal>
    ensures { Gives result (spec.analysed_delete_in delete.now (delete.now.table, table.now) found.entry) }
{
    let analysed_delete = resolve_delete(alloc, delete, table, found)?;
    checked(analysed_delete)
}

/// The parts, if none is refused.
fn checked<'c>(analysed_delete: AnalysedDelete<'c>) -> Result<AnalysedDelete<'c>, Refusal>
    ensures { Gives result (spec.analysed_delete_checked analysed_delete.entry) }
{
    match require_analysed_delete(&analysed_delete) {
        Ok(()) => Ok(analysed_delete),
        Err(refusal) => {
            drop(analysed_delete);
            Err(refusal)
        }
    }
}

fn resolve_delete<'c>(
    alloc: Global,
    delete: &Delete,
    table: &TableDef,
    found: Found<'c>,
) -> Result<AnalysedDelete<'c>, AllocError>
    ensures { IfOk result (λ analysed_delete. analysed_delete ≡ spec.analysed_delete_resolved delete.now (names_over (delete.now.table, table.now) found.entry)) }
{
    let (condition, returning) = resolve_parts(alloc, delete, table, found.as_slice())?;
    Ok(AnalysedDelete {
        condition,
        returning,
        found,
    })
}

/// The condition and RETURNING, with resolved columns.
fn resolve_parts<'x>(
    alloc: Global,
    delete: &Delete,
    table: &'x TableDef,
    known: &'x [NamedTable<'x>],
) -> Result<(Option<Expr>, Option<Selected>), AllocError>
    ensures condition { IfOk result (λ parts. parts.0 ≡ where_resolved (names_over (delete.now.table, table.now) known.now) delete.now.condition) }
    ensures returning { IfOk result (λ parts. parts.1 ≡ returning_resolved (names_over (delete.now.table, table.now) known.now) delete.now.returning) }
{
    let tables = [NamedTable::new(&delete.table, table)?];
    let scope = Scope {
        tables: &tables,
        known,
    };
    let condition = resolve_where(alloc, &delete.condition, &scope)?;
    match resolve_returning(alloc, &delete.returning, &scope) {
        Ok(returning) => Ok((condition, returning)),
        Err(refused) => {
            drop(condition);
            Err(refused)
        }
    }
}

fn require_analysed_delete(analysed_delete: &AnalysedDelete) -> Result<(), Refusal>
    ensures { Gives result (spec.analysed_delete_or_refused analysed_delete.now) }
{
    require_fitting(
        where_fits(&analysed_delete.condition) && returning_fits(&analysed_delete.returning),
    )?;
    require_supported(
        where_unsupported(&analysed_delete.condition)
            || returning_unsupported(&analysed_delete.returning),
    )
}

/// The columns that it reads.
fn columns_of_delete(
    alloc: Global,
    table: &TableDef,
    analysed_delete: &AnalysedDelete,
) -> Result<Items<Name>, AllocError>
    ensures { IfOk result (λ columns. columns ≡ spec.delete_columns table.now analysed_delete.now) }
{
    let mut terms = Vec::new(alloc);
    put_where(&mut terms, &analysed_delete.condition)?;
    put_returning(&mut terms, &analysed_delete.returning)?;
    let all = returns_all(&analysed_delete.returning);
    columns_read(alloc, table.columns.as_slice(), all, &terms)
}

/// The role's privileges, the policy expansion, and the rows.
#[tactic(auto, unfolding(crate::specs::Deleting::delete_from))]
fn delete_from<'x>(
    asker: &mut Asker,
    role: &Name,
    from: FromTable<'x>,
    analysed_delete: &AnalysedDelete,
) -> Result<Effect, Refusal>
    ensures { Answers (spec.delete_from role.now from.entry.name.now from.entry.table.now analysed_delete.now) asker.old asker.new result }
{
    let role_privileges = role_privileges_of(asker, role)?;
    let deleted = delete_as(asker, &role_privileges, role, from, analysed_delete);
    drop(role_privileges);
    deleted
}

/// The policy expansion, and the rows.
#[tactic(auto, unfolding(crate::specs::Deleting::delete_as))]
fn delete_as<'x>(
    asker: &mut Asker,
    role_privileges: &RolePrivileges,
    role: &Name,
    from: FromTable<'x>,
    analysed_delete: &AnalysedDelete,
) -> Result<Effect, Refusal>
    ensures { Answers (spec.delete_as role_privileges.now role.now from.entry.name.now from.entry.table.now analysed_delete.now) asker.old asker.new result }
{
    let expansion = expansion(asker, role_privileges, from, analysed_delete)?;
    let deleted = delete_with_quals(
        asker,
        role_privileges,
        &expansion,
        analysed_delete,
        role,
        from,
    );
    drop(expansion);
    deleted
}

/// The policy expansion.
fn expansion<'c, 'x>(
    asker: &mut Asker<'c>,
    role_privileges: &RolePrivileges,
    from: FromTable<'x>,
    analysed_delete: &AnalysedDelete,
) -> Result<PolicyExpansion<'c>, Refusal>
    ensures { Answers (expansion_of role_privileges.now from.entry.name.now from.entry.table.now Kind.Delete (spec_has_some (spec.delete_columns from.entry.table.now analysed_delete.now)) (tables_if analysed_delete.now.condition)) asker.old asker.new result }
{
    let columns = columns_of_delete(asker.alloc(), from.table, analysed_delete)?;
    let reads = has_some(columns.as_slice());
    drop(columns);
    let tables = where_tables(asker.alloc(), &analysed_delete.condition)?;
    let expansion = expansion_of(
        asker,
        role_privileges,
        from,
        Kind::Delete,
        reads,
        tables.as_slice(),
    );
    drop(tables);
    expansion
}

/// The rows, where the role may delete them.
#[tactic(auto, unfolding(crate::specs::Deleting::delete_with_quals))]
fn delete_with_quals<'c, 'x>(
    asker: &mut Asker<'c>,
    role_privileges: &RolePrivileges,
    expansion: &PolicyExpansion<'c>,
    analysed_delete: &AnalysedDelete,
    role: &Name,
    from: FromTable<'x>,
) -> Result<Effect, Refusal>
    ensures { Answers (spec.delete_with_quals role_privileges.now expansion.now analysed_delete.now role.now from.entry.name.now from.entry.table.now) asker.old asker.new result }
{
    let checks = checks(asker.alloc(), from, expansion, analysed_delete)?;
    require_all(asker, role_privileges, checks)?;
    let rows = scanned_rows(asker, role, from, &analysed_delete.condition)?;
    let deleted = delete_qualifying_rows(
        asker,
        from.name,
        &*expansion,
        &*analysed_delete,
        &*role,
        rows.as_slice(),
    )?;
    Ok(deleted)
}

/// What the role is asked for.
fn checks<'c, 'x>(
    alloc: Global,
    from: FromTable<'x>,
    expansion: &PolicyExpansion<'c>,
    analysed_delete: &AnalysedDelete,
) -> Result<Items<PermissionCheck>, AllocError>
    ensures { IfOk result (λ checks. checks ≡ checks_of Privilege.Delete from.entry.name.now [] (spec.delete_columns from.entry.table.now analysed_delete.now) (permission_checks expansion.now (spec_where_selected analysed_delete.now.found analysed_delete.now.condition))) }
{
    let read = columns_of_delete(alloc, from.table, analysed_delete)?;
    let queries = where_selected(
        alloc,
        analysed_delete.found.as_slice(),
        &analysed_delete.condition,
    )?;
    let others = expansion.permission_checks(alloc, queries.as_slice())?;
    drop(queries);
    checks_of(
        alloc,
        Privilege::Delete,
        from.name,
        Items::new(alloc),
        read,
        others.as_slice(),
    )
}

/// Judges each scanned row; those that are allowed and meet the condition go.
#[tactic(auto, unfolding(crate::specs::Deleting::delete_qualifying_rows))]
fn delete_qualifying_rows<'a, 'c>(
    asker: &mut Asker<'c>,
    name: &Name,
    expansion: &'a PolicyExpansion<'c>,
    analysed_delete: &'a AnalysedDelete,
    role: &'a Name,
    scanned_rows: &'a [BorrowedRow<'c>],
) -> Result<Effect, AllocError>
    ensures { Tells (spec.delete_qualifying_rows role.now name.now expansion.now analysed_delete.now scanned_rows.now) asker.old asker.new result }
{
    let (decisions, qualifying_rows) = qualifying_rows_under(
        asker,
        expansion,
        role,
        &analysed_delete.condition,
        scanned_rows,
    )?;
    deleted(
        asker.alloc(),
        name,
        analysed_delete,
        role,
        decisions,
        &qualifying_rows,
    )
}

/// The qualifying rows go.
fn deleted<'c>(
    alloc: Global,
    name: &Name,
    analysed_delete: &AnalysedDelete,
    role: &Name,
    decisions: Vec<Decision>,
    qualifying_rows: &[&BorrowedRow<'c>],
) -> Result<Effect, AllocError>
    ensures { IfOk result (λ effect. effect ≡ spec.deleted name.now analysed_delete.now role.now (decisions.items, map (λ qualifying_row. qualifying_row.now) qualifying_rows.now)) }
{
    let rows = standing_rows(alloc, qualifying_rows)?;
    let reply = reply_of(alloc, &analysed_delete.returning, role, &rows)?;
    drop(rows);
    taken_out(
        alloc,
        name,
        qualifying_rows,
        reply,
        Items::from_vec(decisions),
    )
}

/// The qualifying rows, as changes beside the reply.
fn taken_out<'c>(
    alloc: Global,
    name: &Name,
    qualifying_rows: &[&BorrowedRow<'c>],
    reply: Reply,
    decisions: Items<Decision>,
) -> Result<Effect, AllocError>
    ensures { IfOk result (λ effect. effect ≡ Effect.Done reply decisions (map (spec.deleted_row name.now) (map (λ qualifying_row. qualifying_row.now) qualifying_rows.now)) None) }
{
    match changes_of(alloc, name, qualifying_rows) {
        Ok(delta) => Ok(Effect::Done(reply, decisions, delta, None)),
        Err(refused) => {
            drop(decisions);
            drop(reply);
            Err(refused)
        }
    }
}

fn changes_of<'c>(
    alloc: Global,
    name: &Name,
    qualifying_rows: &[&BorrowedRow<'c>],
) -> Result<Delta, AllocError>
    ensures { IfOk result (λ delta. delta ≡ map (spec.deleted_row name.now) (map (λ qualifying_row. qualifying_row.now) qualifying_rows.now)) }
{
    let mut delta = Delta::with_capacity(alloc, qualifying_rows.len())?;
    for qualifying_row in qualifying_rows {
        delta.push(deleted_row(alloc, name, qualifying_row)?)?;
    }
    Ok(delta)
}

fn deleted_row<'c>(
    alloc: Global,
    table: &Name,
    stored: &BorrowedRow<'c>,
) -> Result<Change, AllocError>
    ensures { IfOk result (λ change. change ≡ spec.deleted_row table.now stored.now) }
{
    let before = Keyed {
        key: stored.key().copy(alloc)?,
        row: stored.row().copy(alloc)?,
    };
    match table.copy() {
        Ok(table) => Ok(Change::Row(RowChange {
            table,
            id: stored.id(),
            before: Some(before),
            after: None,
        })),
        Err(refused) => {
            drop(before);
            Err(refused)
        }
    }
}
