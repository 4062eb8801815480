//! What a commit needs.

ghost use Rattle.std.specs.Prelude.{◌≡◌};

use crate::transaction::Transaction;
use rls_source::Footprint;
use shared_map::Share;

/// What a commit needs, made ready before it, so that it takes no memory and can't fail.
#[derive(Drop)]
pub struct Ready {
    pub(crate) transaction: Share<Transaction>,
    /// The objects that its changes cover.
    pub(crate) covered: Footprint,
    /// The places of those that committed before, and wrote what it had read before.
    pub(crate) read: Vec<usize>,
    /// The places of those that committed before, and read what it wrote after.
    pub(crate) readers: Vec<usize>,
}

impl Ready {
    /// The transaction that commits, with all that it noted and changed.
    pub fn transaction(&self) -> &Share<Transaction>
        ensures { result.now ≡ self.now.transaction }
    {
        &self.transaction
    }
}
