//! CREATE TABLE.

ghost use Rattle.std.specs.Prelude.{◌≡◌, [], ◌∷◌, IfOk};
ghost use Rattle.rls_guard.specs.rls_source.specs.Answering.{Answers};
ghost use Rattle.rls_guard.specs.Effects.{writes};
ghost use Rattle.rls_ddl.specs.CreatingTables as spec;
ghost use Rattle.rls_ddl.specs.CreatingTables.{table_with};
ghost use Rattle.rls_guard.specs.rls_grant.specs.Granting.{own_grants, with_grants};

use crate::primary_keys::{columns_of, key_places};
use rls_expr::TableDef;
use rls_guard::rls_catalog::{Change, Delta, Grants};
use rls_guard::rls_grant::{own_grants, put_grants};
use rls_guard::rls_source::Asker;
use rls_guard::{Ctx, Effect};
use rls_statement::CreateTable;
use rls_value::{DefinedKind, Items, Name, Refusal};
use std::alloc::{AllocError, Global};

/// Adds a table, owned by the current role, which gets every privilege on it (PostgreSQL manual, CREATE TABLE).
pub fn run_create_table(
    asker: &mut Asker,
    ctx: &Ctx,
    create: &CreateTable,
) -> Result<Effect, Refusal>
    ensures { Answers (spec.create_table ctx.now create.now) asker.old asker.new result }
{
    let key = key_places(asker.alloc(), create)?;
    let effect = make_unless_taken(asker, ctx, create, key.as_slice());
    drop(key);
    effect
}

#[tactic(auto, unfolding(crate::specs::CreatingTables::table_unless_taken))]
fn make_unless_taken(
    asker: &mut Asker,
    ctx: &Ctx,
    create: &CreateTable,
    key: &[usize],
) -> Result<Effect, Refusal>
    ensures { Answers (spec.table_unless_taken ctx.now create.now key.now) asker.old asker.new result }
{
    if asker.table(&create.name)?.is_some() {
        return Err(Refusal::Duplicate(DefinedKind::Relation, create.name.copy()?));
    }
    make_table(asker, ctx, create, key)
}

#[tactic(auto, unfolding(crate::specs::CreatingTables::table_made))]
fn make_table(
    asker: &mut Asker,
    ctx: &Ctx,
    create: &CreateTable,
    key: &[usize],
) -> Result<Effect, Refusal>
    ensures { Answers (spec.table_made ctx.now create.now key.now) asker.old asker.new result }
{
    let grants = asker.grants(&create.name)?;
    Ok(made(asker.alloc(), &ctx.role, create, key, grants)?)
}

fn made(
    alloc: Global,
    owner: &Name,
    create: &CreateTable,
    key: &[usize],
    grants: &Grants,
) -> Result<Effect, AllocError>
    ensures { IfOk result (λ effect. effect ≡ writes (Change.Table create.now.name (table_with owner.now create.now key.now) ∷ Change.Grants create.now.name (with_grants grants.now (own_grants owner.now)) ∷ [])) }
{
    let mut delta = Delta::new(alloc);
    delta.push(table_change(alloc, owner, create, key)?)?;
    delta.push(grants_change(alloc, owner, create, grants)?)?;
    Ok(Effect::done(alloc, delta))
}

fn table_change(
    alloc: Global,
    owner: &Name,
    create: &CreateTable,
    key: &[usize],
) -> Result<Change, AllocError>
    ensures { IfOk result (λ change. change ≡ Change.Table create.now.name (table_with owner.now create.now key.now)) }
{
    let name = create.name.copy()?;
    match new_table(alloc, owner, create, key) {
        Ok(table) => Ok(Change::Table(name, table)),
        Err(refused) => Err(refused),
    }
}

fn grants_change(
    alloc: Global,
    owner: &Name,
    create: &CreateTable,
    grants: &Grants,
) -> Result<Change, AllocError>
    ensures { IfOk result (λ change. change ≡ Change.Grants create.now.name (with_grants grants.now (own_grants owner.now))) }
{
    let grants = with_own(alloc, owner, grants)?;
    match create.name.copy() {
        Ok(name) => Ok(Change::Grants(name, grants)),
        Err(refused) => {
            drop(grants);
            Err(refused)
        }
    }
}

fn with_own(alloc: Global, owner: &Name, grants: &Grants) -> Result<Grants, AllocError>
    ensures { IfOk result (λ all. all ≡ with_grants grants.now (own_grants owner.now)) }
{
    let own = own_grants(alloc, owner)?;
    match grants.copy() {
        Ok(grants) => put_grants(alloc, grants, own),
        Err(refused) => {
            drop(own);
            Err(refused)
        }
    }
}

fn new_table(
    alloc: Global,
    owner: &Name,
    create: &CreateTable,
    key: &[usize],
) -> Result<TableDef, AllocError>
    ensures { IfOk result (λ table. table ≡ table_with owner.now create.now key.now) }
{
    Ok(TableDef {
        owner: owner.copy()?,
        enabled: false,
        forced: false,
        columns: columns_of(alloc, create)?,
        key: Items::from_vec(key.to_vec(alloc)?),
    })
}
