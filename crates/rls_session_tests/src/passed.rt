//! The bytes that went through a reader or a writer, as proofs see them.

ghost use Rattle.std.specs.Borrow.{ftrue};
ghost use Rattle.std.specs.Prelude.{◌≡◌, ℕ, List, [], ◌++◌};

use std::marker::{Model, PhantomData};

/// Bytes that only clauses read. It takes no memory, and its methods do nothing when the program runs.
#[derive(Drop)]
pub struct Passed {
    marker: PhantomData<u8>,
    pub ghost bytes: { List ℕ },
}

impl Model for Passed {
    ghost also_owns = { λ _. ftrue };
}

impl Passed {
    pub fn new() -> Passed
        ensures { result.bytes ≡ [] }
    {
        Passed {
            marker: PhantomData,
        }
    }

    pub fn add(&mut self, _bytes: &[u8])
        ensures { self.new.bytes ≡ self.old.bytes ++ _bytes.now }
    {}
}
