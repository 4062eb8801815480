//! A source, and changes that are put on it.

ghost use Rattle.std.specs.Prelude.{◌≡◌, refl, IfOk};
ghost use Rattle.rls_catalog.specs.Changed.{changed_all};

use crate::footprint::Footprint;
use crate::source::RowSource;
use crate::statement_source::StatementSource;
use rls_catalog::rls_value::Object;
use rls_catalog::{Catalog, Delta};
use std::alloc::{AllocError, Global};
use std::marker::PhantomData;

/// A source, and changes that are put on it one after another: it stands for the state behind them, from which all is borrowed. Each
/// read is one of the source.
#[derive(Drop)]
pub struct Overlay<'c, 'r, S> {
    pub source: S,
    pub behind: &'r Catalog,
    lends: PhantomData<&'c Catalog>,
}

impl<'c, 'r, S: RowSource<'c> + Drop> Overlay<'c, 'r, S> {
    /// The source behind the changes. The state with them on is kept in the room, from which it is borrowed; all that the changes leave
    /// is shared. Nothing is read.
    pub fn new(
        alloc: Global,
        source: S,
        changes: &Delta,
        room: &'r mut Option<Catalog>,
    ) -> Result<Overlay<'c, 'r, S>, AllocError>
        ensures source { IfOk result (λ overlay. overlay.source ≡ source) }
        ensures behind { IfOk result (λ overlay. overlay.behind.now ≡ changed_all (S.state source) changes.now) }
    {
        match state_behind(alloc, &source, changes) {
            Ok(behind) => Ok(Overlay {
                source,
                behind: room.insert(behind),
                lends: PhantomData,
            }),
            Err(refused) => {
                drop(source);
                Err(refused)
            }
        }
    }
}

/// The state of the source with the changes put on.
fn state_behind<'c, S: RowSource<'c>>(
    alloc: Global,
    source: &S,
    changes: &Delta,
) -> Result<Catalog, AllocError>
    ensures { IfOk result (λ behind. behind ≡ changed_all (S.state source.now) changes.now) }
{
    let mut behind = source.catalog().copy(alloc)?;
    behind.apply(alloc, changes)?;
    Ok(behind)
}

impl<'c, 'r, S: RowSource<'c>> RowSource<'r> for Overlay<'c, 'r, S> {
    ghost state = { λ s. s.behind.now };

    ghost after = { λ s os. record s { source = S.after s.source os } };

    fn catalog(&self) -> &'r Catalog {
        self.behind
    }

    fn mark(&mut self, alloc: Global, objects: &[Object]) -> Result<(), AllocError> {
        self.source.mark(alloc, objects)
    }

    ghost stands = { λ s os. refl };

    ghost after_none = { λ s i. record s { source = S.after_none s.source i } };

    ghost after_more = { λ s os more i. record s { source = S.after_more s.source os more i } };
}

impl<'c, 'r, S: StatementSource<'c>> StatementSource<'r> for Overlay<'c, 'r, S> {
    fn mark_all(&mut self, alloc: Global, objects: &Footprint) -> Result<(), AllocError> {
        self.source.mark_all(alloc, objects)
    }

    ghost counts_once = { λ s. record { counted = λ os i. record s { source = (S.counts_once s.source).counted os i } } };
}
