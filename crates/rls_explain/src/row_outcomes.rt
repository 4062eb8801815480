//! What a statement did with each row that it came to.

ghost use Rattle.std.specs.Prelude.{◌≡◌, [], ◌∷◌, true, IfOk, IfSome, IfNone};
ghost use Rattle.rls_meaning.specs.Meaning.{effect_of};
ghost use Rattle.rls_explain.specs.Explaining.{decisions_of as spec_decisions_of};
ghost use Rattle.rls_explain.specs.Found.{Decides, are_read as spec_are_read, is_decided, on_row};
ghost use Rattle.rls_explain.specs.FoundOutcomes.{told_of};
ghost use Rattle.rls_explain.specs.Outcomes as spec;

use crate::explaining::{are_read, decisions_of};
use crate::insert_outcomes::insert_outcomes;
use crate::outcome::RowOutcome;
use crate::scan_outcomes::{delete_outcomes, select_outcomes};
use crate::update_outcomes::update_outcomes;
use rls_meaning::rls_access::{Ctx, Decision, Effect};
use rls_meaning::rls_guard::rls_catalog::Catalog;
use rls_meaning::rls_guard::rls_source::Footprint;
use rls_statement::Statement;
use rls_value::{Items, RowId};
use std::alloc::{AllocError, Global};

/// What the statement, which comes to this effect and reads these objects, did with each row: those that it scanned, in their order,
/// then the new ones, then those that subqueries could see.
#[tactic(auto, using(crate::proofs::OutcomeLemmas::nothing_decided, crate::proofs::OutcomeLemmas::some_decided))]
pub fn outcomes(
    alloc: Global,
    catalog: &Catalog,
    ctx: &Ctx,
    statement: &Statement,
    effect: &Effect,
    read: &Footprint,
) -> Result<Items<RowOutcome>, AllocError>
    requires { effect.now ≡ effect_of catalog.now ctx.now statement.now }
    ensures { IfOk result (λ rows. rows ≡ spec.outcomes_in catalog.now ctx.now statement.now read.now) }
{
    let decisions = decisions_of(effect);
    match first_id(decisions) {
        Some(id) => outcomes_decided(
            alloc,
            catalog,
            ctx,
            statement,
            are_read(decisions),
            is_done(effect),
            read,
            id,
        ),
        None => Ok(Items::new(alloc)),
    }
}

/// The row that is decided on first.
fn first_id(decisions: &[Decision]) -> Option<RowId>
    ensures some { IfSome result (λ id. is_decided (on_row id) decisions.now ≡ true) }
    ensures none { IfNone result (decisions.now ≡ []) }
{
    match decisions {
        [decision, ..] => Some(decision.id),
        [] => None,
    }
}

/// Whether it was done.
fn is_done(effect: &Effect) -> bool
    ensures { result ≡ spec.is_done effect.now }
{
    match effect {
        Effect::Done(_, _, _, _) => true,
        Effect::Refused(_, _) => false,
    }
}

/// Those of a statement that decided on this row.
fn outcomes_decided(
    alloc: Global,
    catalog: &Catalog,
    ctx: &Ctx,
    statement: &Statement,
    reads: bool,
    done: bool,
    read: &Footprint,
    id: RowId,
) -> Result<Items<RowOutcome>, AllocError>
    requires decides { Decides catalog.now ctx.now statement.now (on_row id) }
    requires reads { spec_are_read (spec_decisions_of (effect_of catalog.now ctx.now statement.now)) ≡ reads }
    ensures { IfOk result (λ rows. rows ≡ told_of catalog.now ctx.now statement.now done read.now) }
{
    match statement {
        Statement::Select(select) => select_outcomes(alloc, catalog, ctx, select, done, read, id),
        Statement::Insert(insert) => {
            insert_outcomes(alloc, catalog, ctx, insert, reads, done, read, id)
        }
        Statement::Update(update) => {
            update_outcomes(alloc, catalog, ctx, update, reads, done, read, id)
        }
        Statement::Delete(delete) => {
            delete_outcomes(alloc, catalog, ctx, delete, reads, done, read, id)
        }
        Statement::CreateRole(_)
        | Statement::AlterRole(_)
        | Statement::CreateTable(_)
        | Statement::AlterTable(_)
        | Statement::CreatePolicy(_)
        | Statement::AlterPolicy(_)
        | Statement::DropPolicy(_)
        | Statement::Grant(_)
        | Statement::GrantRoles(_)
        | Statement::Revoke(_)
        | Statement::RevokeRoles(_)
        | Statement::SetRole(_)
        | Statement::Transaction(_) => Ok(Items::new(alloc)),
    }
}
