//! Places of committed transactions.

ghost use Rattle.std.specs.Prelude.{◌≡◌, ℕ, [], ◌||◌, nat_eq, IfOk, OnOk};
ghost use Rattle.rls_conflict.specs.Commits.{is_place_in};
ghost use Rattle.rls_conflict.specs.Concurrent.{is_at_place, is_place_of, has_accessed, holds_since};

use crate::committed::{Access, Committed};
use rls_siread::Sireads;
use rls_value::Object;
use std::alloc::{AllocError, Global};
use std::collections::BTreeSet;
use std::marker::Model;

/// Places of committed transactions, each once, in order.
#[derive(Drop)]
pub(crate) struct Places {
    places: BTreeSet<usize>,
}

impl Model for Places {
    ghost use Rattle.std.specs.Prelude.{List, ℕ};
    ghost use Rattle.std.specs.Coded.{coded_list, coded_ℕ};

    ghost Value = { List ℕ };

    ghost coded = { coded_list coded_ℕ };

    ghost view = { λ it. it.places.keys };
}

impl Places {
    pub(crate) fn new(alloc: Global) -> Places
        ensures { result ≡ [] }
    {
        Places {
            places: BTreeSet::new(alloc),
        }
    }

    /// Puts the places of those that hold the object and committed once so many had. Of all that hold it and all that
    /// committed since, it goes through those that are fewer.
    pub(crate) fn note_held(
        &mut self,
        sireads: &Sireads,
        held: &[u64],
        committed: &[Committed],
        access: Access,
        object: &Object,
        snap: usize,
    ) -> Result<(), AllocError>
        requires { (place : ℕ) → is_place_of sireads.now snap held.now place ≡ holds_since (has_accessed access object.now) committed.now snap place }
        ensures { OnOk result ((place : ℕ) → is_place_in self.new place ≡ (is_place_in self.old place || is_place_of sireads.now snap held.now place)) }
    {
        if held.len() <= committed.len().saturating_sub(snap) {
            return self.note_all(sireads, held, snap);
        }
        self.note_since(committed, access, object, snap)
    }

    /// Puts the places of those that accessed the object and committed once so many had.
    fn note_since(
        &mut self,
        committed: &[Committed],
        access: Access,
        object: &Object,
        snap: usize,
    ) -> Result<(), AllocError>
        ensures { OnOk result ((place : ℕ) → is_place_in self.new place ≡ (is_place_in self.old place || holds_since (has_accessed access object.now) committed.now snap place)) }
    {
        for place in snap..committed.len() {
            if committed[place].has_accessed(access, object) {
                self.put(place)?;
            }
        }
        Ok(())
    }

    /// Puts the places of those that committed once so many had.
    fn note_all(
        &mut self,
        sireads: &Sireads,
        numbers: &[u64],
        snap: usize,
    ) -> Result<(), AllocError>
        ensures { OnOk result ((place : ℕ) → is_place_in self.new place ≡ (is_place_in self.old place || is_place_of sireads.now snap numbers.now place)) }
    {
        for number in numbers {
            self.note(sireads.commit(*number), snap)?;
        }
        Ok(())
    }

    /// Puts the place of the commit, where it is one after so many.
    fn note(&mut self, commit: Option<u64>, snap: usize) -> Result<(), AllocError>
        ensures { OnOk result ((place : ℕ) → is_place_in self.new place ≡ (is_place_in self.old place || is_at_place snap commit place)) }
    {
        match commit {
            Some(commit) if commit > snap as u64 => self.put((commit - 1) as usize),
            _ => Ok(()),
        }
    }

    fn put(&mut self, place: usize) -> Result<(), AllocError>
        ensures { OnOk result ((other : ℕ) → is_place_in self.new other ≡ (nat_eq other place || is_place_in self.old other)) }
    {
        self.places.insert(place)?;
        Ok(())
    }

    /// The places, in order.
    pub(crate) fn to_vec(&self, alloc: Global) -> Result<Vec<usize>, AllocError>
        ensures { IfOk result (λ places. places.items ≡ self.now) }
    {
        let mut places = Vec::with_capacity(alloc, self.places.len())?;
        for place in self.places.iter() {
            places.push(*place)?;
        }
        Ok(places)
    }
}
