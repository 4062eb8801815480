//! What a statement leaves of the rows of a state, each law a clause of a function that does nothing.

ghost use Rattle.std.specs.Prelude.{◌≡◌, ℕ};
ghost use Rattle.rls_guard.specs.rls_catalog.specs.Changed.{changed_all, opening};
ghost use Rattle.rls_guard.specs.rls_catalog.specs.SoundRows.{RowsAreSound};
ghost use Rattle.rls_guard.specs.rls_catalog.specs.State.{State};
ghost use Rattle.rls_statement.specs.declared.statement.Statement.{Statement};
ghost use Rattle.rls_guard.specs.declared.context.Ctx.{Ctx};
ghost use Rattle.rls_guard.specs.Effects.{changes_of};
ghost use Rattle.rls_guard.specs.Keeping.{TablesStay};
ghost use Rattle.rls_dml.specs.NextRows.{AllFree, next_row};
ghost use Rattle.rls_access.specs.Leaving.{GoOn};
ghost use Rattle.rls_access.specs.Statements.{effect_in};

use rls_ddl::{grants_leave_rows, roles_and_policies_leave_rows, tables_leave_rows};
use rls_dml::{
    changes_fit, numbers_stay_free, numbers_stay_in_range, rows_are_numbered_on, sound_rows_mean,
    tables_stay,
};

/// The rows of the opening state are sound, and a statement leaves sound rows sound: keys that were unique stay unique,
/// each row carries its own, without a null, and rows stand in tables that there are. A table stays, with its primary key.
pub fn rows_stay_sound()
    ensures opening { RowsAreSound opening }
    ensures step { (s : State) (ctx : Ctx) (asked : Statement) → RowsAreSound s → RowsAreSound (changed_all s (changes_of (effect_in s ctx asked))) }
    ensures tables { (s : State) (ctx : Ctx) (asked : Statement) → RowsAreSound s → TablesStay s (changes_of (effect_in s ctx asked)) }
{
    tables_leave_rows();
    roles_and_policies_leave_rows();
    grants_leave_rows();
    rls_dml::rows_stay_sound();
    tables_stay();
}

/// Where the rows of a state are sound, and no row has a number of the transaction from its next on, the changes of a
/// statement fit the state, and number new rows on.
pub fn changes_go_on()
    ensures { (s : State) (ctx : Ctx) (asked : Statement) → RowsAreSound s → AllFree s ctx.txn ctx.next → GoOn s ctx (changes_of (effect_in s ctx asked)) }
{
    tables_leave_rows();
    roles_and_policies_leave_rows();
    grants_leave_rows();
    rls_dml::rows_stay_sound();
    changes_fit();
    rows_are_numbered_on();
    sound_rows_mean();
    numbers_stay_in_range();
}

/// Afterwards no row has a number of the transaction from the one on that the changes make the next: one further for each
/// row that wasn't there before. What is free of another transaction stays free.
pub fn numbers_go_on()
    ensures next { (s : State) (ctx : Ctx) (asked : Statement) → RowsAreSound s → AllFree s ctx.txn ctx.next → AllFree (changed_all s (changes_of (effect_in s ctx asked))) ctx.txn (next_row ctx.next (changes_of (effect_in s ctx asked))) }
    ensures others { (s : State) (ctx : Ctx) (asked : Statement) (other from : ℕ) → RowsAreSound s → AllFree s ctx.txn ctx.next → ¬ (other ≡ ctx.txn) → AllFree s other from → AllFree (changed_all s (changes_of (effect_in s ctx asked))) other from }
{
    changes_go_on();
    numbers_stay_free();
}
