//! ALTER TABLE of row security.

ghost use Rattle.std.specs.Prelude.{◌≡◌, [], ◌∷◌, IfOk};
ghost use Rattle.rls_guard.specs.rls_source.specs.Answering.{Answers};
ghost use Rattle.rls_guard.specs.Effects.{writes};
ghost use Rattle.rls_ddl.specs.AlteringTables.{altered, alter_table};

use rls_expr::TableDef;
use rls_guard::rls_catalog::Change;
use rls_guard::rls_source::Asker;
use rls_guard::{Ctx, Effect, require_ownership};
use rls_statement::{AlterTable, RowSecurity};
use rls_value::Refusal;
use std::alloc::{AllocError, Global};

/// Turns row security on or off, or makes it bind the owner too or no longer (PostgreSQL manual, ALTER TABLE). The
/// policies stay.
pub fn run_alter_table(asker: &mut Asker, ctx: &Ctx, alter: &AlterTable) -> Result<Effect, Refusal>
    ensures { Answers (alter_table ctx.now alter.now) asker.old asker.new result }
{
    let table = asker.table_named(&alter.table)?;
    require_ownership(asker, &ctx.role, &alter.table, table)?;
    Ok(table_changed(asker.alloc(), alter, table)?)
}

fn table_changed(alloc: Global, alter: &AlterTable, table: &TableDef) -> Result<Effect, AllocError>
    ensures { IfOk result (λ effect. effect ≡ writes (Change.Table alter.now.table (altered alter.now.change table.now) ∷ [])) }
{
    let name = alter.table.copy()?;
    let mut table = table.copy(alloc)?;
    match alter.change {
        RowSecurity::Enable => table.enabled = true,
        RowSecurity::Disable => table.enabled = false,
        RowSecurity::Force => table.forced = true,
        RowSecurity::NoForce => table.forced = false,
    }
    Effect::changed(alloc, Change::Table(name, table))
}
