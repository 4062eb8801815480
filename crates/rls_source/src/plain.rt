//! A whole state as a source.

ghost use Rattle.std.specs.Prelude.{◌≡◌, refl};

use crate::footprint::Footprint;
use crate::source::RowSource;
use crate::statement_source::StatementSource;
use rls_catalog::Catalog;
use rls_catalog::rls_value::Object;
use std::alloc::{AllocError, Global};

/// A borrowed catalogue, as a source that keeps no note of what is read.
#[derive(Clone, Copy)]
pub struct Plain<'c> {
    pub catalog: &'c Catalog,
}

impl<'c> Plain<'c> {
    pub fn new(catalog: &'c Catalog) -> Plain<'c>
        ensures { result.catalog.now ≡ catalog.now }
    {
        Plain { catalog }
    }
}

impl<'c> RowSource<'c> for Plain<'c> {
    ghost state = { λ s. s.catalog.now };

    ghost after = { λ s os. s };

    fn catalog(&self) -> &'c Catalog {
        self.catalog
    }

    fn mark(&mut self, _: Global, _: &[Object]) -> Result<(), AllocError> {
        Ok(())
    }

    ghost stands = { λ s os. refl };

    ghost after_none = { λ s. refl };

    ghost after_more = { λ s os more. refl };
}

impl<'c> StatementSource<'c> for Plain<'c> {
    fn mark_all(&mut self, _: Global, _: &Footprint) -> Result<(), AllocError> {
        Ok(())
    }

    ghost counts_once = { λ s. record { counted = λ os. refl } };
}
