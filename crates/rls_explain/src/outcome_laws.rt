//! What is found of a statement's rows is what is meant.

ghost use Rattle.rls_explain.specs.FoundOutcomes.{DeleteIsTold, InsertIsTold, SelectIsTold, UpdateIsTold};
ghost use Rattle.rls_explain.specs.Found.{InsertHasRoom};
ghost use Rattle.rls_explain.specs.OutcomeLaws.{DeleteTellsChanges, InsertTellsChanges, MetQualify, RefusedInsertTellsNone, RefusedUpdateTellsNone, ScansQualify, SeenTellsNone, UpdateTellsChanges};

use crate::laws::decisions_found;
use rls_meaning::rls_expansion::expression_taken;
use rls_meaning::{expansion_means, role_means};

/// What is found through the policy expansion of a statement that decides on a row is what it did with its rows.
pub(crate) fn outcomes_found()
    ensures select { SelectIsTold }
    ensures insert { InsertIsTold }
    ensures room { InsertHasRoom }
    ensures update { UpdateIsTold }
    ensures delete { DeleteIsTold }
{
    decisions_found();
    expansion_means();
    role_means();
    expression_taken()
}

/// The rows of which it isn't told that policies or WHERE left them out are just those that qualify, in their order: of a SELECT
/// those that it lists, of an UPDATE or a DELETE those that it changes.
pub fn outcomes_tell_rows()
    ensures met { MetQualify }
    ensures scans { ScansQualify }
{}

/// The changes that are told are those of the statement: just the rows that it put, changed and deleted, with their values before and
/// behind it; none of a statement that was refused.
pub fn outcomes_tell_changes()
    ensures update { UpdateTellsChanges }
    ensures delete { DeleteTellsChanges }
    ensures insert { InsertTellsChanges }
    ensures refused_update { RefusedUpdateTellsNone }
    ensures refused_insert { RefusedInsertTellsNone }
    ensures seen { SeenTellsNone }
{}
