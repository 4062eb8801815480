//! Laws of the definitions, each a clause of a function that does nothing.

ghost use Rattle.std.specs.Prelude.{◌≡◌, false};
ghost use Rattle.rls_catalog.specs.rls_value.specs.declared.object.Object.{Object};
ghost use Rattle.rls_catalog.specs.Bases.{Fits, covers};
ghost use Rattle.rls_catalog.specs.Changed.{changed};
ghost use Rattle.rls_catalog.specs.State.{State, AgreesAt};
ghost use Rattle.rls_catalog.specs.declared.change.Change.{Change};

/// A change that names rightly what stood at its place leaves the content of every object that it doesn't cover.
#[tactic(auto, using(rls_catalog::proofs::Covering::uncovered_agrees))]
pub fn uncovered_stays()
    ensures { (s : State) (change : Change) (object : Object) → Fits s change → covers object change ≡ false → AgreesAt s (changed s change) object }
{}
