//! What a statement is run over.

ghost use Rattle.std.specs.Prelude.{◌≡◌, OnOk, OnErr};
ghost use Rattle.rls_source.specs.Footprints.{CountsOnce};

use crate::footprint::Footprint;
use crate::source::RowSource;
use std::alloc::{AllocError, Global};

/// A source over which a statement can be run: it takes the reads of a footprint at once.
pub trait StatementSource<'c>: RowSource<'c> {
    /// Marks that the objects of the footprint were read. After an `Err` the source is as before.
    fn mark_all(&mut self, alloc: Global, objects: &Footprint) -> Result<(), AllocError>
        ensures read { OnOk result (self.new ≡ Self.after self.old objects.now) }
        ensures err { OnErr result (self.new ≡ self.old) };

    /// Reads count as a set: those of a footprint are those that it is made of.
    ghost counts_once: { (s : Self) → CountsOnce (Self.after s) };
}
