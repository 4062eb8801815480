//! What the laws over statements are told of.

ghost use Rattle.rls_history.specs.Lawful.{Conditions};
ghost use Rattle.rls_history.specs.States.{States};
ghost use Rattle.rls_history.specs.Statements.{Statements};

/// Its states, its statements, and what may be asked of states. A law over events holds of each for which `IsLawful` is proved
/// of the last.
pub trait Database {
    ghost states: { States };

    ghost statements: { Statements states };

    ghost conditions: { Conditions statements };
}
