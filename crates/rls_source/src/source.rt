//! Who stands for a state.

ghost use Rattle.std.specs.Prelude.{◌≡◌, List, [], ◌++◌, OnOk, OnErr};
ghost use Rattle.rls_catalog.specs.State.{State};
ghost use Rattle.rls_catalog.specs.rls_value.specs.declared.object.Object.{Object as Read};

use rls_catalog::Catalog;
use rls_catalog::rls_value::Object;
use std::alloc::{AllocError, Global};

/// Stands for one state, which no read changes. What is found is borrowed for the lifetime `'c`. `Reading` has the look-ups.
pub trait RowSource<'c> {
    /// The state that it stands for.
    ghost state: { Self → State };

    /// What reads of these objects, in order, make of it.
    ghost after: { Self → List Read → Self };

    /// The state. To look at it is no read: whoever looks marks what was looked at.
    fn catalog(&self) -> &'c Catalog
        ensures { result.now ≡ state self.now };

    /// Marks that the objects were read. After an `Err` the source still stands for its state.
    fn mark(&mut self, alloc: Global, objects: &[Object]) -> Result<(), AllocError>
        ensures read { OnOk result (self.new ≡ after self.old objects.now) }
        ensures err { OnErr result (state self.new ≡ state self.old) };

    /// No read changes the state.
    ghost stands: { (s : Self) (os : List Read) → state (after s os) ≡ state s };

    /// No reads change nothing.
    ghost after_none: { (s : Self) → after s [] ≡ s };

    /// Reads after reads are the reads of both, in order.
    ghost after_more: { (s : Self) (os more : List Read) → after (after s os) more ≡ after s (os ++ more) };
}
