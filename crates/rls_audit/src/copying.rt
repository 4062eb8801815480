//! Plain copies of lists that versions share.

ghost use Rattle.std.specs.Prelude.{◌≡◌, IfOk};

use rls_core::rls_guard::rls_catalog::shared_map::{HasKey, Shared, SharedList};
use rls_value::Items;
use std::alloc::{AllocError, Global};

/// The items of the list, in order.
pub(crate) fn copies<K: Ord + Shared, T: HasKey<K> + Shared>(
    alloc: Global,
    list: &SharedList<K, T>,
) -> Result<Items<T>, AllocError>
    ensures { IfOk result (λ copies. copies ≡ list.now) }
{
    let mut copies = Vec::with_capacity(alloc, list.len())?;
    for item in list.iter() {
        copies.push(copy_of(item)?)?;
    }
    Ok(Items::from_vec(copies))
}

fn copy_of<T: Shared>(item: &T) -> Result<T, AllocError>
    ensures { IfOk result (λ copy. copy ≡ item.now) }
{
    item.clone()
}
