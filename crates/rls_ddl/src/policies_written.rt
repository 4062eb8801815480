//! What a statement that changes a table's policies comes to.

ghost use Rattle.std.specs.Prelude.{◌≡◌, [], ◌∷◌, IfOk};
ghost use Rattle.rls_guard.specs.Effects.{writes};

use rls_guard::Effect;
use rls_guard::rls_catalog::{Change, Policies};
use rls_value::Name;
use std::alloc::{AllocError, Global};

/// The table has these policies from now on.
pub fn written(alloc: Global, table: &Name, policies: Policies) -> Result<Effect, AllocError>
    ensures { IfOk result (λ effect. effect ≡ writes (Change.Policies table.now policies ∷ [])) }
{
    match table.copy() {
        Ok(table) => Effect::changed(alloc, Change::Policies(table, policies)),
        Err(refused) => {
            drop(policies);
            Err(refused)
        }
    }
}
