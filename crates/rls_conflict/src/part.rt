//! The changes of one post.

ghost use Rattle.std.specs.Prelude.{◌≡◌, IfOk};
ghost use Rattle.rls_value.specs.declared.object.Object.{Object as Written};
ghost use Rattle.rls_catalog.specs.Bases.{covers_any};
ghost use Rattle.rls_source.specs.Footprints.{is_among};

use rls_catalog::{Change, Delta};
use rls_siread::covered;
use rls_source::Footprint;
use std::alloc::{AllocError, Global};

/// The changes of one post, with the objects that they cover.
#[derive(Drop)]
pub(crate) struct Part {
    pub(crate) changes: Vec<Change>,
    pub(crate) covered: Footprint,
}

/// The part that the changes are.
pub(crate) fn part_of(alloc: Global, delta: &Delta) -> Result<Part, AllocError>
    ensures changes { IfOk result (λ part. part.changes.items ≡ delta.now) }
    ensures covered { IfOk result (λ part. (object : Written) → is_among part.covered object ≡ covers_any object part.changes.items) }
{
    let changes = copy_changes(alloc, delta.as_slice())?;
    let covered = covered(alloc, changes.as_slice())?;
    Ok(Part { changes, covered })
}

fn copy_changes(alloc: Global, changes: &[Change]) -> Result<Vec<Change>, AllocError>
    ensures { IfOk result (λ copies. copies.items ≡ changes.now) }
{
    let mut copies = Vec::with_capacity(alloc, changes.len())?;
    for change in changes {
        copies.push(change.copy(alloc)?)?;
    }
    Ok(copies)
}
