//! A state as a source of rows.

ghost use Rattle.std.specs.Prelude.{◌≡◌, refl};

use rls_catalog::Catalog;
use rls_source::rls_value::Object;
use rls_source::{Footprint, RowSource, StatementSource};
use std::alloc::{AllocError, Global};
use std::marker::Model;

/// A borrowed state, as a source that keeps no note of what is read; seen as the state.
#[derive(Drop)]
pub struct Snapshot<'c> {
    catalog: &'c Catalog,
}

impl<'c> Model for Snapshot<'c> {
    ghost use Rattle.rls_catalog.specs.State.{State};
    ghost use Rattle.rls_catalog.specs.StateCode.{state_code};

    ghost Value = { State };

    ghost coded = { state_code };

    ghost view = { λ snapshot. snapshot.catalog.now };
}

impl<'c> Snapshot<'c> {
    pub(crate) fn new(catalog: &'c Catalog) -> Snapshot<'c>
        ensures { result ≡ catalog.now }
    {
        Snapshot { catalog }
    }
}

impl<'c> RowSource<'c> for Snapshot<'c> {
    ghost state = { λ s. s };

    ghost after = { λ s os. s };

    fn catalog(&self) -> &'c Catalog {
        self.catalog
    }

    fn mark(&mut self, _: Global, _: &[Object]) -> Result<(), AllocError> {
        Ok(())
    }

    ghost stands = { λ s os. refl };

    ghost after_none = { λ s. refl };

    ghost after_more = { λ s os more. refl };
}

impl<'c> StatementSource<'c> for Snapshot<'c> {
    fn mark_all(&mut self, _: Global, _: &Footprint) -> Result<(), AllocError> {
        Ok(())
    }

    ghost counts_once = { λ s. record { counted = λ os. refl } };
}
