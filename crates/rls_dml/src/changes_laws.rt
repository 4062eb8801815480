//! Laws of what INSERT, UPDATE and DELETE change, each a clause of a function that does nothing.

ghost use Rattle.std.specs.Prelude.{ℕ, List, Ok, length, map};
ghost use Rattle.rls_expr.specs.declared.table.TableDef.{TableDef};
ghost use Rattle.rls_guard.specs.rls_catalog.specs.{declared.stored.Stored.Stored, Bases.FitsAll, InOrder.RowsInOrder, State.State};
ghost use Rattle.rls_statement.specs.{declared.changing.Delete.Delete, declared.changing.Update.Update, declared.statement.Insert.Insert};
ghost use Rattle.rls_guard.specs.{declared.context.Ctx.Ctx, declared.reply.Decision.Decision};
ghost use Rattle.rls_expansion.specs.declared.expansion.PolicyExpansion.{PolicyExpansion};
ghost use Rattle.rls_dml.specs.{declared.deleting.AnalysedDelete.AnalysedDelete, declared.analysed_update.AnalysedUpdate.AnalysedUpdate, Inserting.insert};
ghost use Rattle.rls_dml.specs.Deleting.{delete, deleted};
ghost use Rattle.rls_dml.specs.Fitting.{IfDone, NumbersFree, numbers_from, Overwrite};
ghost use Rattle.rls_dml.specs.Updating.{update, update_values};

/// Each change of a statement names as before what the earlier ones leave at its place: of an INSERT where the numbers
/// that it gives are free, of an UPDATE and a DELETE where the rows of the table stand in order.
#[tactic(auto, using(crate::proofs::FittingLemmas::insert_fits, crate::proofs::FittingLemmas::update_fits, crate::proofs::FittingLemmas::delete_fits))]
pub fn changes_fit()
    ensures insert { (s : State) (ctx : Ctx) (asked : Insert) → NumbersFree s asked.table ctx.txn ctx.next → IfDone ((insert ctx asked).in_state s).gives (FitsAll s) }
    ensures update { (s : State) (ctx : Ctx) (asked : Update) → RowsInOrder s asked.table → IfDone ((update ctx asked).in_state s).gives (FitsAll s) }
    ensures delete { (s : State) (ctx : Ctx) (asked : Delete) → RowsInOrder s asked.table → IfDone ((delete ctx asked).in_state s).gives (FitsAll s) }
{}

/// An INSERT writes one row for each tuple, numbered on from the transaction's next; of the rows that an UPDATE or a
/// DELETE looks at, it writes those that qualify.
#[tactic(auto, using(crate::proofs::FittingLemmas::insert_overwrites, crate::proofs::FittingLemmas::update_overwrites, crate::proofs::FittingLemmas::delete_overwrites))]
pub fn changes_overwrite()
    ensures insert { (s : State) (ctx : Ctx) (asked : Insert) → IfDone ((insert ctx asked).in_state s).gives (Overwrite asked.table (numbers_from ctx.txn ctx.next (length asked.tuples))) }
    ensures update { (s : State) (role name : List ℕ) (table : TableDef) (expansion : PolicyExpansion) (analysed_update : AnalysedUpdate) (decisions : List Decision) (qualifying_rows : List Stored) → IfDone ((update_values role name table expansion analysed_update decisions qualifying_rows).in_state s).gives (Overwrite name (map (λ stored. stored.id) qualifying_rows)) }
    ensures delete { (name : List ℕ) (analysed_delete : AnalysedDelete) (role : List ℕ) (judged : List Decision × List Stored) → IfDone (Ok (deleted name analysed_delete role judged)) (Overwrite name (map (λ stored. stored.id) judged.1)) }
{}
