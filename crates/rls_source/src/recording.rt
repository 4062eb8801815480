//! A source with a note of what was read from it.

ghost use Rattle.std.specs.Prelude.{◌≡◌, []};
ghost use Rattle.rls_source.specs.Footprints.{with_reads};
ghost use Rattle.rls_source.specs.FootprintLaws.{with_reads_more};
ghost use Rattle.rls_source.specs.FootprintSets.{with_footprint};

use crate::footprint::Footprint;
use crate::source::RowSource;
use crate::statement_source::StatementSource;
use rls_catalog::Catalog;
use rls_catalog::rls_value::Object;
use std::alloc::{AllocError, Global};

/// A source, and what was read from it.
#[derive(Drop)]
pub struct Recording<S> {
    pub source: S,
    pub footprint: Footprint,
}

impl<S> Recording<S> {
    pub fn new(alloc: Global, source: S) -> Recording<S>
        ensures source { result.source ≡ source }
        ensures footprint { result.footprint ≡ [] }
    {
        Recording {
            source,
            footprint: Footprint::new(alloc),
        }
    }
}

impl<'c, S: RowSource<'c>> RowSource<'c> for Recording<S> {
    ghost state = { λ s. S.state s.source };

    ghost after = { λ s os. record { source = S.after s.source os; footprint = with_reads s.footprint os } };

    fn catalog(&self) -> &'c Catalog {
        self.source.catalog()
    }

    fn mark(&mut self, alloc: Global, objects: &[Object]) -> Result<(), AllocError> {
        self.source.mark(alloc, objects)?;
        self.footprint.note_all(alloc, objects)
    }

    ghost stands = { λ s os. S.stands s.source os };

    ghost after_none = { λ s i. record { source = S.after_none s.source i; footprint = s.footprint } };

    ghost after_more = { λ s os more i. record { source = S.after_more s.source os more i; footprint = with_reads_more s.footprint os more i } };
}

impl<'c, S: StatementSource<'c>> StatementSource<'c> for Recording<S> {
    fn mark_all(&mut self, alloc: Global, objects: &Footprint) -> Result<(), AllocError> {
        let noted = self.footprint.with_all(alloc, objects)?;
        match self.source.mark_all(alloc, objects) {
            Ok(()) => {
                self.footprint = noted;
                Ok(())
            }
            Err(refused) => {
                drop(noted);
                Err(refused)
            }
        }
    }

    ghost counts_once = { λ s. record { counted = λ os i. record { source = (S.counts_once s.source).counted os i; footprint = with_footprint s.footprint os i } } };
}
