//! SELECT.

ghost use Rattle.std.specs.Prelude.{◌≡◌, [], ◌∷◌, false, map, IfOk};
ghost use Rattle.rls_value.specs.Giving.{Gives};
ghost use Rattle.rls_expr.specs.Naming.{step_of};
ghost use Rattle.rls_guard.specs.Naming.{named, names_over};
ghost use Rattle.rls_guard.specs.rls_source.specs.Answering.{Answers, Tells};
ghost use Rattle.rls_expansion.specs.{Expanding.expansion_of, Expanding.permission_checks, Used.tables_if};
ghost use Rattle.rls_dml.specs.{Checking.selection_resolved, Checking.where_resolved, Checking.where_selected as spec_where_selected, Writing.checks_of};
ghost use Rattle.rls_dml.specs.Selecting as spec;

use crate::checking::{
    columns_read, put_selection, put_selection_names, put_where, require_fitting,
    require_supported, resolve_selection, resolve_where, selection_fits, selection_unsupported,
    selects_all, where_fits, where_selected, where_tables, where_unsupported,
};
use crate::checking_rows::qualifying_rows_under;
use crate::replying::{listed_reply, standing_rows};
use crate::writing::{checks_of, require_all};
use rls_expansion::{PolicyExpansion, expansion_of};
use rls_expr::{Expr, FromTable, NameStep, NamedTable, Scope, TableDef, put_names_if};
use rls_guard::rls_catalog::{BorrowedRow, Delta};
use rls_guard::rls_source::Asker;
use rls_guard::{
    Ctx, Decision, Effect, Found, PermissionCheck, RolePrivileges, named_over, role_privileges_of,
};
use rls_judging::scanned_rows;
use rls_statement::{Select, Selected};
use rls_value::{Items, Kind, Name, Privilege, Refusal, Row};
use std::alloc::{AllocError, Global};

/// A SELECT whose names are resolved; no condition stands for one that is true.
#[derive(Drop)]
pub struct AnalysedSelect<'c> {
    pub items: Selected,
    pub condition: Option<Expr>,
    /// The tables that its subqueries name.
    pub found: Found<'c>,
}

/// The rows that the role sees and that meet the condition, in listing order, or how many they are.
pub fn run_select(asker: &mut Asker, ctx: &Ctx, select: &Select) -> Result<Effect, Refusal>
    ensures { Answers (spec.select ctx.now select.now) asker.old asker.new result }
{
    let table = asker.table_named(&select.table)?;
    let from = FromTable {
        name: &select.table,
        table,
    };
    let analysed_select = known_analysed_select(asker, select, table)?;
    let listed = select_from(asker, &ctx.role, from, &analysed_select);
    drop(analysed_select);
    listed
}

/// The parts of the statement, over the table under its qualifier.
fn known_analysed_select<'c>(
    asker: &mut Asker<'c>,
    select: &Select,
    table: &'c TableDef,
) -> Result<AnalysedSelect<'c>, Refusal>
    ensures { Answers (spec.analysed_select_for select.now (spec.qualifier_of select.now, table.now)) asker.old asker.new result }
{
    let found = found_for(asker, select, table)?;
    check_analysed_select(asker.alloc(), select, table, found)
}

/// Looks for the names of the items and of the condition.
fn found_for<'c>(
    asker: &mut Asker<'c>,
    select: &Select,
    table: &'c TableDef,
) -> Result<Found<'c>, Refusal>
    ensures { Answers (named (spec.analysed_select_names select.now) ((spec.qualifier_of select.now, table.now) ∷ []) []) asker.old asker.new result }
{
    let steps = names_of(asker.alloc(), select)?;
    let found = named_over(asker, &steps, qualifier(select), table);
    drop(steps);
    found
}

fn names_of<'x>(alloc: Global, select: &'x Select) -> Result<Vec<NameStep<'x>>, AllocError>
    ensures { IfOk result (λ steps. map step_of steps.items ≡ spec.analysed_select_names select.now) }
{
    let mut steps = Vec::new(alloc);
    put_selection_names(&mut steps, &select.items)?;
    put_names_if(&mut steps, &select.condition)?;
    Ok(steps)
}

/// What qualifies the table's columns: its alias or, without one, its name.
fn qualifier(select: &Select) -> &Name
    ensures { result.now ≡ spec.qualifier_of select.now }
{
    match &select.alias {
        Some(alias) => alias,
        None => &select.table,
    }
}

/// Resolves the parts, and checks their types and that nothing isn't supported.
fn check_analysed_select<'c>(
    alloc: Global,
    select: &Select,
    table: &TableDef,
    found: Found<'c>,
) -> Result<AnalysedSelect<'c>, Refusal>
    ensures { Gives result (spec.analysed_select_in select.now (spec.qualifier_of select.now, table.now) found.entry) }
{
    let analysed_select = resolve_select(alloc, select, table, found)?;
    match require_analysed_select(&analysed_select) {
        Ok(()) => Ok(analysed_select),
        Err(refusal) => {
            drop(analysed_select);
            Err(refusal)
        }
    }
}

fn resolve_select<'c>(
    alloc: Global,
    select: &Select,
    table: &TableDef,
    found: Found<'c>,
) -> Result<AnalysedSelect<'c>, AllocError>
    ensures { IfOk result (λ analysed_select. analysed_select ≡ spec.analysed_select_resolved select.now (names_over (spec.qualifier_of select.now, table.now) found.entry)) }
{
    let (items, condition) = resolve_parts(alloc, select, table, found.as_slice())?;
    Ok(AnalysedSelect {
        items,
        condition,
        found,
    })
}

/// The items and the condition, with resolved columns.
fn resolve_parts<'x>(
    alloc: Global,
    select: &Select,
    table: &'x TableDef,
    known: &'x [NamedTable<'x>],
) -> Result<(Selected, Option<Expr>), AllocError>
    ensures items { IfOk result (λ parts. parts.0 ≡ selection_resolved (names_over (spec.qualifier_of select.now, table.now) known.now) select.now.items) }
    ensures condition { IfOk result (λ parts. parts.1 ≡ where_resolved (names_over (spec.qualifier_of select.now, table.now) known.now) select.now.condition) }
{
    let tables = [NamedTable::new(qualifier(select), table)?];
    let scope = Scope {
        tables: &tables,
        known,
    };
    let items = resolve_selection(alloc, &select.items, &scope)?;
    match resolve_where(alloc, &select.condition, &scope) {
        Ok(condition) => Ok((items, condition)),
        Err(refused) => {
            drop(items);
            Err(refused)
        }
    }
}

fn require_analysed_select(analysed_select: &AnalysedSelect) -> Result<(), Refusal>
    ensures { Gives result (spec.analysed_select_or_refused analysed_select.now) }
{
    require_fitting(
        selection_fits(&analysed_select.items) && where_fits(&analysed_select.condition),
    )?;
    require_supported(
        selection_unsupported(&analysed_select.items)
            || where_unsupported(&analysed_select.condition),
    )
}

/// The role's privileges, the policy expansion, and the rows.
#[tactic(auto, unfolding(crate::specs::Selecting::select_from))]
fn select_from<'x>(
    asker: &mut Asker,
    role: &Name,
    from: FromTable<'x>,
    analysed_select: &AnalysedSelect,
) -> Result<Effect, Refusal>
    ensures { Answers (spec.select_from role.now from.entry.name.now from.entry.table.now analysed_select.now) asker.old asker.new result }
{
    let role_privileges = role_privileges_of(asker, role)?;
    let listed = select_as(asker, &role_privileges, role, from, analysed_select);
    drop(role_privileges);
    listed
}

/// The policy expansion, and the rows.
#[tactic(auto, unfolding(crate::specs::Selecting::select_as))]
fn select_as<'x>(
    asker: &mut Asker,
    role_privileges: &RolePrivileges,
    role: &Name,
    from: FromTable<'x>,
    analysed_select: &AnalysedSelect,
) -> Result<Effect, Refusal>
    ensures { Answers (spec.select_as role_privileges.now role.now from.entry.name.now from.entry.table.now analysed_select.now) asker.old asker.new result }
{
    let expansion = expansion(asker, role_privileges, from, analysed_select)?;
    let listed = list_with_quals(
        asker,
        role_privileges,
        &expansion,
        analysed_select,
        role,
        from,
    );
    drop(expansion);
    listed
}

/// The policy expansion.
fn expansion<'c, 'x>(
    asker: &mut Asker<'c>,
    role_privileges: &RolePrivileges,
    from: FromTable<'x>,
    analysed_select: &AnalysedSelect,
) -> Result<PolicyExpansion<'c>, Refusal>
    ensures { Answers (expansion_of role_privileges.now from.entry.name.now from.entry.table.now Kind.Select false (tables_if analysed_select.now.condition)) asker.old asker.new result }
{
    let tables = where_tables(asker.alloc(), &analysed_select.condition)?;
    let expansion = expansion_of(
        asker,
        role_privileges,
        from,
        Kind::Select,
        false,
        tables.as_slice(),
    );
    drop(tables);
    expansion
}

/// The rows, where the role may read the table.
#[tactic(auto, unfolding(crate::specs::Selecting::listed_for))]
fn list_with_quals<'c, 'x>(
    asker: &mut Asker<'c>,
    role_privileges: &RolePrivileges,
    expansion: &PolicyExpansion<'c>,
    analysed_select: &AnalysedSelect,
    role: &Name,
    from: FromTable<'x>,
) -> Result<Effect, Refusal>
    ensures { Answers (spec.listed_for role_privileges.now expansion.now analysed_select.now role.now from.entry.name.now from.entry.table.now) asker.old asker.new result }
{
    let checks = checks(asker.alloc(), from, expansion, analysed_select)?;
    require_all(asker, role_privileges, checks)?;
    let rows = scanned_rows(asker, role, from, &analysed_select.condition)?;
    let listed = list(
        asker,
        &*expansion,
        &*analysed_select,
        &*role,
        rows.as_slice(),
    )?;
    Ok(listed)
}

/// What the role is asked for.
fn checks<'c, 'x>(
    alloc: Global,
    from: FromTable<'x>,
    expansion: &PolicyExpansion<'c>,
    analysed_select: &AnalysedSelect,
) -> Result<Items<PermissionCheck>, AllocError>
    ensures { IfOk result (λ checks. checks ≡ checks_of Privilege.Select from.entry.name.now (spec.select_columns from.entry.table.now analysed_select.now) [] (permission_checks expansion.now (spec_where_selected analysed_select.now.found analysed_select.now.condition))) }
{
    let own = mentioned(alloc, from.table, analysed_select)?;
    let queries = where_selected(
        alloc,
        analysed_select.found.as_slice(),
        &analysed_select.condition,
    )?;
    let others = expansion.permission_checks(alloc, queries.as_slice())?;
    drop(queries);
    checks_of(
        alloc,
        Privilege::Select,
        from.name,
        own,
        Items::new(alloc),
        others.as_slice(),
    )
}

/// The columns that it mentions.
fn mentioned(
    alloc: Global,
    table: &TableDef,
    analysed_select: &AnalysedSelect,
) -> Result<Items<Name>, AllocError>
    ensures { IfOk result (λ columns. columns ≡ spec.select_columns table.now analysed_select.now) }
{
    let mut terms = Vec::new(alloc);
    put_where(&mut terms, &analysed_select.condition)?;
    put_selection(&mut terms, &analysed_select.items)?;
    let all = selects_all(&analysed_select.items);
    columns_read(alloc, table.columns.as_slice(), all, &terms)
}

/// Judges each scanned row, and answers from those that are allowed and meet the condition.
#[tactic(auto, unfolding(crate::specs::Selecting::listed_from))]
fn list<'a, 'c>(
    asker: &mut Asker<'c>,
    expansion: &'a PolicyExpansion<'c>,
    analysed_select: &'a AnalysedSelect,
    role: &'a Name,
    scanned_rows: &'a [BorrowedRow<'c>],
) -> Result<Effect, AllocError>
    ensures { Tells (spec.listed_from role.now expansion.now analysed_select.now scanned_rows.now) asker.old asker.new result }
{
    let (decisions, qualifying_rows) = qualifying_rows_under(
        asker,
        expansion,
        role,
        &analysed_select.condition,
        scanned_rows,
    )?;
    answer(
        asker.alloc(),
        analysed_select,
        role,
        decisions,
        &qualifying_rows,
    )
}

/// The answer from the qualifying rows.
fn answer<'c>(
    alloc: Global,
    analysed_select: &AnalysedSelect,
    role: &Name,
    decisions: Vec<Decision>,
    qualifying_rows: &[&BorrowedRow<'c>],
) -> Result<Effect, AllocError>
    ensures { IfOk result (λ effect. effect ≡ spec.listed_by analysed_select.now role.now (decisions.items, map (λ qualifying_row. qualifying_row.now) qualifying_rows.now)) }
{
    let rows = standing_rows(alloc, qualifying_rows)?;
    match listed_reply(alloc, &analysed_select.items, role, &rows) {
        Ok(reply) => Ok(Effect::Done(reply, Items::from_vec(decisions), Delta::new(alloc), None)),
        Err(refused) => {
            drop(decisions);
            Err(refused)
        }
    }
}
