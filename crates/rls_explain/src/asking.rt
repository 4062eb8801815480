//! The policy expansion of a command, its rows, and those that qualify.

ghost use Rattle.std.specs.Prelude.{◌≡◌, IfOk};
ghost use Rattle.rls_value.specs.Giving.{Gives};
ghost use Rattle.rls_expr.specs.Scopes.{in_scope};
ghost use Rattle.rls_meaning.specs.rls_guard.specs.RolePrivileges.{role_privileges_in};
ghost use Rattle.rls_judging.specs.{Handed.rows_borrowed, ScannedRows.pinned_key};
ghost use Rattle.rls_meaning.specs.Showing.{rows_at_key};
ghost use Rattle.rls_meaning.specs.rls_expansion.specs.Expanding as expanding;
ghost use Rattle.rls_explain.specs.Found as spec;

use rls_expr::{Expr, FromTable};
use rls_judging::{CheckContext, qualifying_rows_of, scanned_rows};
use rls_meaning::rls_expansion::{PolicyExpansion, expansion_of};
use rls_meaning::rls_guard::rls_catalog::{BorrowedRow, Catalog};
use rls_meaning::rls_guard::rls_source::Asker;
use rls_meaning::rls_guard::role_privileges_of;
use rls_value::{Items, Kind, Name, Refusal, or_drop};
use std::alloc::{AllocError, Global};

/// The policy expansion of a command of that type on the table, whose own subqueries look at those tables; none where a chain of
/// policies closes.
pub fn expansion_if<'c, 'x>(
    alloc: Global,
    catalog: &'c Catalog,
    role: &Name,
    from: FromTable<'x>,
    kind: Kind,
    reads: bool,
    queries: &[Name],
) -> Result<Option<PolicyExpansion<'c>>, AllocError>
    ensures { IfOk result (λ found. found ≡ spec.expansion_found catalog.now role.now (in_scope from.entry) kind reads queries.now) }
{
    match expansion_for(alloc, catalog, role, from, kind, reads, queries) {
        Ok(expansion) => Ok(Some(expansion)),
        Err(Refusal::NoMemory) => Err(AllocError),
        Err(refusal) => {
            drop(refusal);
            Ok(None)
        }
    }
}

/// The same, a chain that closes as a refusal. What is read is forgotten.
fn expansion_for<'c, 'x>(
    alloc: Global,
    catalog: &'c Catalog,
    role: &Name,
    from: FromTable<'x>,
    kind: Kind,
    reads: bool,
    queries: &[Name],
) -> Result<PolicyExpansion<'c>, Refusal>
    ensures { Gives result ((expanding.expansion_of (role_privileges_in catalog.now role.now) from.entry.name.now from.entry.table.now kind reads queries.now).in_state catalog.now).gives }
{
    let mut asker = Asker::new(alloc, catalog);
    let role_privileges = or_drop!(role_privileges_of(&mut asker, role), asker);
    let expansion = expansion_of(&mut asker, &role_privileges, from, kind, reads, queries);
    drop(role_privileges);
    drop(asker);
    expansion
}

/// The rows that a command on the table scans.
#[tactic(auto, using(crate::proofs::AskingLemmas::scanned_are))]
pub fn rows_scanned<'c, 'x>(
    alloc: Global,
    catalog: &'c Catalog,
    role: &Name,
    from: FromTable<'x>,
    condition: &Option<Expr>,
) -> Result<Items<BorrowedRow<'c>>, AllocError>
    ensures { IfOk result (λ rows. rows ≡ rows_at_key catalog.now from.entry.name.now (pinned_key role.now from.entry.table.now.key condition.now)) }
{
    let mut asker = Asker::new(alloc, catalog);
    let rows = scanned_rows(&mut asker, role, from, condition);
    drop(asker);
    rows
}

/// Those of the scanned rows that qualify.
#[tactic(auto, using(crate::proofs::AskingLemmas::qualifying_are))]
pub fn rows_qualifying<'a, 'c>(
    alloc: Global,
    catalog: &'c Catalog,
    role: &'a Name,
    expansion: &'a PolicyExpansion<'c>,
    condition: &'a Option<Expr>,
    scanned: &'a [BorrowedRow<'c>],
) -> Result<Vec<&'a BorrowedRow<'c>>, AllocError>
    ensures { IfOk result (λ rows. rows_borrowed rows ≡ spec.qualifying_found catalog.now expansion.now role.now condition.now scanned.now) }
{
    let mut asker = Asker::new(alloc, catalog);
    let judged = qualifying_rows_of(&mut asker, old_rows(expansion, role), condition, scanned, 0);
    drop(asker);
    let (decisions, rows) = judged?;
    drop(decisions);
    Ok(rows)
}

/// What rows are judged by as they stand.
pub fn old_rows<'a, 'c>(expansion: &'a PolicyExpansion<'c>, role: &'a Name) -> CheckContext<'a, 'c>
    ensures checks { result.row_checks.now ≡ expansion.now.old }
    ensures relations { result.relations.now ≡ expansion.now.relations }
    ensures role { result.role.now ≡ role.now }
{
    CheckContext {
        row_checks: expansion.old.as_slice(),
        relations: expansion.relations.as_slice(),
        role,
    }
}

/// What new rows are judged by.
pub fn new_rows<'a, 'c>(expansion: &'a PolicyExpansion<'c>, role: &'a Name) -> CheckContext<'a, 'c>
    ensures checks { result.row_checks.now ≡ expansion.now.new }
    ensures relations { result.relations.now ≡ expansion.now.relations }
    ensures role { result.role.now ≡ role.now }
{
    CheckContext {
        row_checks: expansion.new.as_slice(),
        relations: expansion.relations.as_slice(),
        role,
    }
}
