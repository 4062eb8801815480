//! Laws of transaction blocks, each a clause of a function that does nothing.

ghost use Rattle.std.specs.Prelude.{◌≡◌, ◌⊎◌, ℕ, List, Some, Ok, Err, Result};
ghost use Rattle.rls_value.specs.declared.refusal.Refusal.{Refusal};
ghost use Rattle.rls_value.specs.declared.refusal.TxnState.TheVariants.{Over};
ghost use Rattle.rls_statement.specs.declared.command.Command.{Command};
ghost use Rattle.rls_statement.specs.declared.command.Command.TheVariants as c;
ghost use Rattle.rls_statement.specs.declared.statement.Statement.{Statement};
ghost use Rattle.rls_script.specs.rls_guard.specs.declared.effect.Effect.{Effect};
ghost use Rattle.rls_script.specs.Requests.{asked};
ghost use Rattle.rls_script.specs.declared.requesting.Ask.TheVariants as a;
ghost use Rattle.rls_script.specs.declared.requesting.Status.TheVariants as st;
ghost use Rattle.rls_session.specs.Blocks.{behind, committed, inside, outside, role_behind, rolled_back};
ghost use Rattle.rls_session.specs.Parts.{Block};

/// In a block that is over each command is refused as such, but COMMIT and ROLLBACK, which end it.
pub fn over_until_ended()
    ensures { (read : Result Command Refusal) → (asked st.Over read ≡ Err (Refusal.TxnState Over)) ⊎ ((asked st.Over read ≡ Ok a.Rollback) × ((read ≡ Ok c.Commit) ⊎ (read ≡ Ok c.Rollback))) }
{}

/// A role that was set in a block goes with its rollback.
pub fn role_goes_with_rollback()
    ensures { (login role : List ℕ) (block : Block) (posts : List (Statement × Effect)) → (rolled_back (inside login role (behind block posts))).session ≡ Some (outside login role) }
{}

/// The role that the statements of a block leave lasts from its commit on.
pub fn role_lasts_from_commit()
    ensures { (login role : List ℕ) (block : Block) (posts : List (Statement × Effect)) (number : ℕ) → (committed (inside login role (behind block posts)) (behind block posts) (Ok number)).session ≡ Some (outside login (role_behind block.role posts)) }
{}
