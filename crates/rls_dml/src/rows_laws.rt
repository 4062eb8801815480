//! Laws of the rows that statements on rows leave, each a clause of a function that does nothing.

ghost use Rattle.std.specs.Prelude.{◌≡◌, ℕ, List, Some};
ghost use Rattle.rls_expr.specs.declared.table.TableDef.{TableDef};
ghost use Rattle.rls_guard.specs.rls_catalog.specs.{declared.change.Change.Change, Bases.FitsAll, Changed.changed_all, SoundRows.RowsAreSound, InOrder.RowsInOrder};
ghost use Rattle.rls_guard.specs.rls_catalog.specs.State.{State, rows_of, table_of};
ghost use Rattle.rls_statement.specs.{declared.changing.Delete.Delete, declared.changing.Update.Update, declared.statement.Insert.Insert, declared.statement.Select.Select};
ghost use Rattle.rls_guard.specs.Keeping.{IfDone, KeepsRowsSound, KeepsTables, LeavesRows};
ghost use Rattle.rls_guard.specs.declared.context.Ctx.{Ctx};
ghost use Rattle.rls_dml.specs.{Deleting.delete, Inserting.insert, Keys.CarryKeys, Selecting.select, Updating.update};
ghost use Rattle.rls_dml.specs.NextRows.{AllFree, InRange, NumberOn, next_row};

/// Where the rows of a state are sound, they are so with the changes of a statement on rows: keys that were unique stay
/// unique, and each row carries its own, without a null.
#[tactic(auto, using(crate::proofs::KeepingLemmas::insert_keeps, crate::proofs::KeepingLemmas::update_keeps, crate::proofs::KeepingLemmas::delete_keeps))]
pub fn rows_stay_sound()
    ensures insert { (ctx : Ctx) (asked : Insert) → KeepsRowsSound (insert ctx asked) }
    ensures update { (ctx : Ctx) (asked : Update) → KeepsRowsSound (update ctx asked) }
    ensures delete { (ctx : Ctx) (asked : Delete) → KeepsRowsSound (delete ctx asked) }
    ensures select { (ctx : Ctx) (asked : Select) → LeavesRows (select ctx asked) }
{}

/// A statement on rows leaves each table, with its primary key.
#[tactic(auto, using(crate::proofs::KeepingLemmas::insert_tables, crate::proofs::KeepingLemmas::update_tables, crate::proofs::KeepingLemmas::delete_tables))]
pub fn tables_stay()
    ensures insert { (ctx : Ctx) (asked : Insert) → KeepsTables (insert ctx asked) }
    ensures update { (ctx : Ctx) (asked : Update) → KeepsTables (update ctx asked) }
    ensures delete { (ctx : Ctx) (asked : Delete) → KeepsTables (delete ctx asked) }
{}

/// An INSERT numbers its rows on from the transaction's next; an UPDATE and a DELETE use no number.
#[tactic(auto, using(crate::proofs::KeepingLemmas::insert_numbers_on, crate::proofs::KeepingLemmas::update_numbers_on, crate::proofs::KeepingLemmas::delete_numbers_on))]
pub fn rows_are_numbered_on()
    ensures insert { (s : State) (ctx : Ctx) (asked : Insert) → IfDone ((insert ctx asked).in_state s).gives (NumberOn ctx.txn ctx.next) }
    ensures update { (s : State) (ctx : Ctx) (asked : Update) → RowsAreSound s → IfDone ((update ctx asked).in_state s).gives (NumberOn ctx.txn ctx.next) }
    ensures delete { (s : State) (ctx : Ctx) (asked : Delete) → IfDone ((delete ctx asked).in_state s).gives (NumberOn ctx.txn ctx.next) }
{}

/// The next number stays in its range: an INSERT past the last one is refused.
#[tactic(auto, using(crate::proofs::RangeLemmas::insert_in_range, crate::proofs::RangeLemmas::update_in_range, crate::proofs::RangeLemmas::delete_in_range))]
pub fn numbers_stay_in_range()
    ensures insert { (s : State) (ctx : Ctx) (asked : Insert) → IfDone ((insert ctx asked).in_state s).gives (InRange ctx.next) }
    ensures update { (s : State) (ctx : Ctx) (asked : Update) → RowsAreSound s → IfDone ((update ctx asked).in_state s).gives (InRange ctx.next) }
    ensures delete { (s : State) (ctx : Ctx) (asked : Delete) → IfDone ((delete ctx asked).in_state s).gives (InRange ctx.next) }
{}

/// Sound rows are what the other laws ask for: each row of a table is stored with its own key, and the rows of each table
/// stand in order.
#[tactic(auto, using(crate::proofs::SoundLemmas::sound_carry, crate::proofs::SoundLemmas::sound_in_order))]
pub fn sound_rows_mean()
    ensures keys { (s : State) (name : List ℕ) (table : TableDef) → RowsAreSound s → table_of s name ≡ Some table → CarryKeys table.key (rows_of s name) }
    ensures order { (s : State) (name : List ℕ) → RowsAreSound s → RowsInOrder s name }
{}

/// Where changes fit the state and number new rows on, the numbers behind those that they give stay free, and so do those
/// of other transactions.
#[tactic(auto, using(crate::proofs::FreeLemmas::own_stay_free, crate::proofs::FreeLemmas::others_stay_free))]
pub fn numbers_stay_free()
    ensures own { (s : State) (txn next : ℕ) (changes : List Change) → FitsAll s changes → NumberOn txn next changes → AllFree s txn next → AllFree (changed_all s changes) txn (next_row next changes) }
    ensures others { (s : State) (txn next : ℕ) (changes : List Change) (other from : ℕ) → FitsAll s changes → NumberOn txn next changes → ¬ (other ≡ txn) → AllFree s other from → AllFree (changed_all s changes) other from }
{}
