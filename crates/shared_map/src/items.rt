//! Items that nodes share: the same once more, and halves of them.

ghost use Rattle.std.specs.Prelude.{◌≡◌, ◌<◌, ◌++◌, length, IfOk};

use shared::Shared;
use std::alloc::{AllocError, Global};

/// The same items, shared.
pub(crate) fn copies<T: Shared>(alloc: Global, items: &[T]) -> Result<Vec<T>, AllocError>
    ensures { IfOk result (λ copies. copies.items ≡ items.now) }
{
    Vec::from_clones(alloc, items)
}

/// The same items, shared, with room for one more.
pub(crate) fn copies_with_room<T: Shared>(alloc: Global, items: &[T]) -> Result<Vec<T>, AllocError>
    ensures { IfOk result (λ copies. copies.items ≡ items.now) }
{
    let mut copies = Vec::with_capacity(alloc, items.len().saturating_add(1))?;
    for item in items {
        copies.push(copy_of(item)?)?;
    }
    Ok(copies)
}

fn copy_of<T: Shared>(item: &T) -> Result<T, AllocError>
    ensures { IfOk result (λ copy. copy ≡ item.now) }
{
    item.clone()
}

/// The items before the place, and the others.
pub(crate) fn halves<T: Shared>(
    alloc: Global,
    items: &[T],
    at: usize,
) -> Result<(Vec<T>, Vec<T>), AllocError>
    requires above { 0 < at }
    requires below { at < length items.now }
    ensures items { IfOk result (λ halves. halves.0.items ++ halves.1.items ≡ items.now) }
    ensures some { IfOk result (λ halves. 0 < length halves.0.items × 0 < length halves.1.items) }
{
    let low = copies(alloc, &items[..at])?;
    let high = copies(alloc, &items[at..])?;
    Ok((low, high))
}

/// Where to split so many items: before the last one where more are to come at the end, and in the middle elsewhere.
pub(crate) fn middle(len: usize, grows_at_end: bool) -> usize
    requires { 1 < len }
    ensures above { 0 < result }
    ensures below { result < len }
{
    if grows_at_end { len - 1 } else { len / 2 }
}
