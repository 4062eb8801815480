//! Laws of the definitions, each a clause of a function that does nothing.

ghost use Rattle.std.specs.Prelude.{◌≡◌, Bool, map};
ghost use Rattle.std.specs.List.{All};
ghost use Rattle.rls_meaning.specs.rls_guard.specs.rls_catalog.specs.State.{State};
ghost use Rattle.rls_statement.specs.declared.statement.Statement.{Statement};
ghost use Rattle.rls_meaning.specs.rls_guard.specs.declared.context.Ctx.{Ctx};
ghost use Rattle.rls_meaning.specs.Meaning.{effect_of};
ghost use Rattle.rls_explain.specs.Explaining.{IsOfTruths, decisions_of, explained_all};
ghost use Rattle.rls_explain.specs.DetailLaws.{DetailsSay, ExemptByReason, PartsAreResolved, VerdictIsTold};
ghost use Rattle.rls_explain.specs.Found.{DeleteIsFound, InsertHasRoom, InsertIsFound, SelectIsFound, UpdateIsFound};

use rls_meaning::rls_expansion::expression_taken;
use rls_meaning::{expansion_means, role_means};

/// The decisions that are explained are those of what the statement means, and the verdict of each is that of the truths which
/// are shown beside it. At length, a role is exempt exactly where there is a reason; the policies that are asked say what is said of the
/// decision; its verdict is that of the truths which are told; and the parts of a condition are resolved as it is.
pub fn explanations_mean()
    ensures decisions { (long : Bool) (s : State) (ctx : Ctx) (asked : Statement) → map (λ one. one.decision) (explained_all long s ctx asked) ≡ decisions_of (effect_of s ctx asked) }
    ensures truths { (long : Bool) (s : State) (ctx : Ctx) (asked : Statement) → All IsOfTruths (explained_all long s ctx asked) }
    ensures reasons { ExemptByReason }
    ensures details { DetailsSay }
    ensures verdict { VerdictIsTold }
    ensures parts { PartsAreResolved }
{}

/// What is found through the policy expansion of a statement that decides on a row is what is explained of it.
pub(crate) fn decisions_found()
    ensures select { SelectIsFound }
    ensures insert { InsertIsFound }
    ensures room { InsertHasRoom }
    ensures update { UpdateIsFound }
    ensures delete { DeleteIsFound }
{
    expansion_means();
    role_means();
    expression_taken()
}
