//! How far a search is.

ghost use Rattle.std.specs.Prelude.{◌≡◌, [], ◌∷◌, ◌++◌, IfOk, OnOk};
ghost use Rattle.rls_value.specs.Names.{one_of};
ghost use Rattle.rls_recursion.specs.Searching.{nothing_yet, put_listed, put_done};

use rls_value::{Items, Name};
use std::alloc::{AllocError, Global};
use std::marker::Model;

/// The tables that are done, seen with the last one in front.
#[derive(Drop)]
pub struct Finished {
    // The last one at the end, so that one more moves none of them.
    tables: Vec<Name>,
}

impl Model for Finished {
    ghost use Rattle.std.specs.Prelude.{List, ℕ, reverse};

    ghost Value = { List (List ℕ) };

    ghost view = { λ finished. reverse finished.tables.items };
}

impl Finished {
    pub fn new(alloc: Global) -> Finished
        ensures { result ≡ [] }
    {
        Finished {
            tables: Vec::new(alloc),
        }
    }

    #[tactic(auto, using(crate::proofs::Reversing::one_of_reversed))]
    pub fn has(&self, table: &Name) -> bool
        ensures { result ≡ one_of self.now table.now }
    {
        is_among(&self.tables, table)
    }

    /// One more, in front.
    pub fn put(&mut self, table: Name) -> Result<(), AllocError>
        ensures { OnOk result (self.new ≡ table ∷ self.old) }
    {
        self.tables.push(table)?;
        Ok(())
    }

    /// The tables, the last one in front.
    pub fn into_items(self) -> Items<Name>
        ensures { result ≡ self }
    {
        let Finished { mut tables } = self;
        tables.reverse();
        Items::from_vec(tables)
    }
}

/// Whether the table is among them.
fn is_among(tables: &[Name], table: &Name) -> bool
    ensures { result ≡ one_of tables.now table.now }
{
    let mut rest = tables;
    while let [first, others @ ..] = rest {
        if first.is(table) {
            return true;
        }
        rest = others;
    }
    false
}

/// The tables that are done, the last one in front, and those that were met, in the order of the first visits.
#[derive(Drop)]
pub struct Progress {
    pub done: Finished,
    pub listed: Items<Name>,
}

impl Progress {
    pub fn new(alloc: Global) -> Progress
        ensures { result ≡ nothing_yet }
    {
        Progress {
            done: Finished::new(alloc),
            listed: Items::new(alloc),
        }
    }

    /// The table is met.
    pub fn list(&mut self, table: &Name) -> Result<(), AllocError>
        ensures { OnOk result (self.new ≡ put_listed self.old table.now) }
    {
        push_copy(&mut self.listed, table)
    }

    /// The table is met, and done at once.
    pub fn pass(&mut self, table: &Name) -> Result<(), AllocError>
        ensures { OnOk result (self.new ≡ put_done (put_listed self.old table.now) table.now) }
    {
        self.list(table)?;
        self.finish(table)
    }

    /// The table is done.
    pub fn finish(&mut self, table: &Name) -> Result<(), AllocError>
        ensures { OnOk result (self.new ≡ put_done self.old table.now) }
    {
        match table.copy() {
            Ok(table) => self.done.put(table),
            Err(refused) => Err(refused),
        }
    }
}

/// A copy of the name behind the others.
pub fn push_copy(names: &mut Items<Name>, name: &Name) -> Result<(), AllocError>
    ensures { OnOk result (names.new ≡ names.old ++ name.now ∷ []) }
{
    match name.copy() {
        Ok(name) => names.push(name),
        Err(refused) => Err(refused),
    }
}
