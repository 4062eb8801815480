//! Laws of walks, as clauses of a function that does nothing.

ghost use Rattle.rls_check.specs.WalkLaws.{EachAgrees, EffectsAreAlone};

/// The statements of a walk come to what they come to where their transaction runs alone, and where the audit is found to hold
/// each comes to the reply and the decisions that it shows.
pub fn walks_tell_the_run()
    ensures effects { EffectsAreAlone }
    ensures agree { EachAgrees }
{}
