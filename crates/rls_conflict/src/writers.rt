//! Who wrote an object first.

ghost use Rattle.std.specs.Prelude.{◌≡◌, ℕ, List, true};
ghost use Rattle.std.specs.List.{list_any};
ghost use Rattle.rls_value.specs.declared.object.Object.{Object};
ghost use Rattle.rls_catalog.specs.declared.change.Change.{Change};
ghost use Rattle.rls_conflict.specs.Known.{Known};
ghost use Rattle.rls_conflict.specs.Written.{IsFree, IsWritten, concurrent_with, writes_object};

/// Changes that are free have no writer before them; and where a concurrent transaction wrote an object that they write, one
/// can be named.
pub fn writers_are_named()
    ensures free { (known : Known) (txn : ℕ) (changes : List Change) (object : Object) (number : ℕ) → IsFree known txn changes → IsWritten known txn changes object number → ⊥ }
    ensures named { (known : Known) (txn : ℕ) (changes : List Change) (object : Object) → writes_object changes object ≡ true → list_any (λ other. writes_object other.changes object) (concurrent_with known txn) ≡ true → (number : ℕ) × IsWritten known txn changes object number }
{}
