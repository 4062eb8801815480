//! A state that stands for good.

ghost use Rattle.std.specs.Prelude.{◌≡◌, IfOk};
ghost use Rattle.rls_catalog.specs.Changed.{opening, changed_all};

use crate::snapshot::Snapshot;
use rls_catalog::shared_map::Share;
use rls_catalog::{Catalog, Delta};
use std::alloc::{AllocError, Global};
use std::marker::Model;

/// A state that nothing changes. Copies share everything, and a state with changes on shares all that they leave.
#[derive(Drop)]
pub struct State {
    catalog: Share<Catalog>,
}

impl Model for State {
    ghost use Rattle.rls_catalog.specs.State.{State};
    ghost use Rattle.rls_catalog.specs.StateCode.{state_code};

    ghost Value = { State };

    ghost coded = { state_code };

    ghost view = { λ state. state.catalog };
}

impl State {
    /// The state before all transactions.
    pub fn opening(alloc: Global) -> Result<State, AllocError>
        ensures { IfOk result (λ state. state ≡ opening) }
    {
        Ok(State {
            catalog: Share::new(alloc, Catalog::new(alloc)?)?,
        })
    }

    /// The same state, all of it shared.
    pub fn copy(&self) -> Result<State, AllocError>
        ensures { IfOk result (λ copy. copy ≡ self.now) }
    {
        Ok(State {
            catalog: self.catalog.copy()?,
        })
    }

    /// The state with the changes put on, one after another.
    pub fn with(&self, alloc: Global, delta: &Delta) -> Result<State, AllocError>
        ensures { IfOk result (λ state. state ≡ changed_all self.now delta.now) }
    {
        if delta.as_slice().is_empty() {
            return self.copy();
        }
        let mut catalog = self.catalog.get().copy(alloc)?;
        catalog.apply(alloc, delta)?;
        Ok(State {
            catalog: Share::new(alloc, catalog)?,
        })
    }

    /// What statements read.
    pub fn view(&self) -> Snapshot<'_>
        ensures { result ≡ self.now }
    {
        Snapshot::new(self.catalog.get())
    }
}
