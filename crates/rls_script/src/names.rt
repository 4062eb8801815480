//! The labels of a script, in the order in which they first appear.

ghost use Rattle.std.specs.Prelude.{◌≡◌, [], length, map, slice_index_or, IfOk};
ghost use Rattle.rls_script.specs.Plans as spec;
ghost use Rattle.rls_script.specs.Plans.{found_at, with_name};

use std::alloc::{AllocError, AllocFailed, Global};
use std::collections::HashMap;
use std::marker::Model;

/// The labels that have come, with the place of each.
#[derive(Drop)]
pub struct Names<'s> {
    list: Vec<&'s str>,
    index: HashMap<&'s str, usize>,
}

impl<'s> Model for Names<'s> {
    ghost use Rattle.std.specs.Prelude.{◌≡◌, ℕ, List, map, length};
    ghost use Rattle.std.specs.HashMap.{get_by};
    ghost use Rattle.std.specs.Str.{bytes_eq};
    ghost use Rattle.rls_script.specs.Plans.{found_at, place_in};

    ghost Value = { List (List ℕ) };

    ghost view = { λ it. map (λ name. name.now) it.list.items };

    ghost invariant = { λ it. (name : List ℕ) → get_by (λ key. bytes_eq name key.now) it.index ≡ found_at (length it.list.items) (place_in (map (λ name. name.now) it.list.items) name) };
}

impl<'s> Names<'s> {
    /// None has come.
    pub(crate) fn new(alloc: Global) -> Names<'s>
        ensures { result ≡ [] }
    {
        Names {
            list: Vec::new(alloc),
            index: HashMap::new(alloc),
        }
    }

    /// The labels.
    pub fn as_slice(&self) -> &[&'s str]
        ensures { map (λ name. name.now) result.now ≡ self.now }
    {
        let _index = &self.index;
        self.list.as_slice()
    }

    /// The label at a place.
    pub fn name(&self, place: usize) -> &'s str
        ensures { result.now ≡ slice_index_or self.now place [] }
    {
        let _index = &self.index;
        match self.list.get(place) {
            Some(name) => name,
            None => "",
        }
    }

    /// The place of a label; one that hasn't come is behind them all.
    pub fn find(&self, name: &'s str) -> usize
        ensures { result ≡ spec.place_in self.now name.now }
    {
        match self.index.get(&name) {
            Some(place) => *place,
            None => self.list.len(),
        }
    }

    /// The place of a label that comes.
    pub(crate) fn place(&mut self, name: &'s str) -> Result<usize, AllocError>
        ensures place { IfOk result (λ place. place ≡ spec.place_in self.old name.now) }
        ensures names { IfOk result (λ place. self.new ≡ with_name self.old name.now) }
    {
        let place = self.find(name);
        if place < self.list.len() {
            return Ok(place);
        }
        self.list.reserve(1)?;
        match self.index.insert(name, place) {
            Ok(_) => {
                self.list.push_reserved(name);
                Ok(place)
            }
            Err(_) => Err(AllocError),
        }
    }
}
