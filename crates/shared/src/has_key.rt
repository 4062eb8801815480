//! Values that have a place by a key.

ghost use Rattle.std.specs.Prelude.{◌≡◌, IfOk};
ghost use Rattle.std.specs.FinMap.{IsAntisymmetric};

use std::alloc::AllocError;

/// A value that has its place in a list by a key.
pub trait HasKey<K: Ord> {
    ghost key_of: { Self → K };

    /// Its key.
    fn key(&self) -> Result<K, AllocError>
        ensures { IfOk result (λ key. key ≡ key_of self.now) };

    /// Keys that compare as equal are the same.
    ghost exact: { IsAntisymmetric K.cmp };
}
