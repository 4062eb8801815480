//! The committed states.

ghost use Rattle.std.specs.Prelude.{◌≡◌, ◌≤◌, ◌<◌, ◌+◌, ◌++◌, ◌∷◌, [], length, slice_get, IfOk, OnOk, OnErr};
ghost use Rattle.std.specs.Option.{option_copied};
ghost use Rattle.rls_catalog.specs.Changed.{opening, changed_all};
ghost use Rattle.rls_rows.specs.States.{newest_of, IsThere};

use crate::state::State;
use rls_catalog::Delta;
use std::alloc::{AllocError, Global};
use std::marker::Model;

/// The committed states, for good: the opening one, and behind it one for each commit. Seen as their list, the one after n
/// commits at place n, with the number of those for which there is room.
#[derive(Drop)]
pub struct Versions {
    states: Vec<State>,
}

impl Model for Versions {
    ghost use Rattle.rls_rows.specs.States.{Stored, stored_code};
    ghost use Rattle.std.specs.Prelude.{◌-◌};
    ghost use Rattle.std.specs.Vec.{vec_len, vec_capacity};

    ghost Value = { Stored };

    ghost coded = { stored_code };

    ghost use Rattle.rls_rows.specs.States.{IsThere};

    ghost view = { λ it. record { states = it.states.items; room = vec_capacity it.states - vec_len it.states } };

    ghost invariant = { λ it. IsThere it.states.items };
}

impl Versions {
    /// The opening state alone.
    pub fn new(alloc: Global) -> Result<Versions, AllocError>
        ensures { IfOk result (λ versions. versions.states ≡ opening ∷ []) }
    {
        let mut states = Vec::new(alloc);
        states.push(State::opening(alloc)?)?;
        Ok(Versions { states })
    }

    /// How many commits there are.
    pub fn commits(&self) -> usize
        ensures { result + 1 ≡ length self.now.states }
    {
        self.states.len() - 1
    }

    /// The state after so many commits.
    pub fn at(&self, commits: usize) -> Option<&State>
        ensures { option_copied result ≡ slice_get self.now.states commits }
    {
        self.states.get(commits)
    }

    /// The state after all commits.
    pub fn newest(&self) -> &State
        ensures newest { result.now ≡ newest_of self.now.states }
        ensures there { IsThere self.now.states }
    {
        let last = self.states.len() - 1;
        &self.states[last]
    }

    /// The newest state with the changes on, for `seal`.
    pub fn ready(&self, alloc: Global, delta: &Delta) -> Result<State, AllocError>
        ensures { IfOk result (λ state. state ≡ changed_all (newest_of self.now.states) delta.now) }
    {
        self.newest().with(alloc, delta)
    }

    /// Makes room for so many states more.
    pub fn reserve(&mut self, more: usize) -> Result<(), AllocError>
        ensures room { OnOk result (more ≤ self.new.room) }
        ensures grows { self.old.room ≤ self.new.room }
        ensures states { self.new.states ≡ self.old.states }
    {
        self.states.reserve(more)
    }

    /// Puts a state behind the others, in the room that there is. It takes no memory.
    pub fn seal(&mut self, state: State)
        requires { 0 < self.old.room }
        ensures states { self.new.states ≡ self.old.states ++ state ∷ [] }
        ensures room { self.new.room + 1 ≡ self.old.room }
    {
        self.states.push_reserved(state);
    }

    /// Puts the newest state with the changes on behind the others. It answers its number: how many commits there are then.
    pub fn append(&mut self, alloc: Global, delta: &Delta) -> Result<u64, AllocError>
        ensures number { IfOk result (λ number. number ≡ length self.old.states) }
        ensures ok { OnOk result (self.new.states ≡ self.old.states ++ changed_all (newest_of self.old.states) delta.now ∷ []) }
        ensures err { OnErr result (self.new.states ≡ self.old.states) }
    {
        let state = self.ready(alloc, delta)?;
        self.reserve(1)?;
        self.seal(state);
        Ok(self.commits() as u64)
    }
}
