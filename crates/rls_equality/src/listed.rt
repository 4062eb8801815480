//! Whether lists that versions share have items that a plain list has.

ghost use Rattle.std.specs.Prelude.{◌≡◌, true, ◌↔◌};

use crate::same::Same;
use rls_catalog::Policies;
use rls_catalog::rls_expr::Policy;
use rls_catalog::shared_map::{HasKey, Shared, SharedList};

/// Whether these are the items of the list, in order.
pub fn are_items_of<K: Ord + Shared, T: HasKey<K> + Shared + Same>(
    mut items: &[T],
    list: &SharedList<K, T>,
) -> bool
    ensures { (result ≡ true) ↔ (items.entry.now ≡ list.now) }
{
    let mut left = list.iter();
    while let Some(item) = left.next() {
        match items {
            [first, others @ ..] => {
                if !first.is_same(item) {
                    return false;
                }
                items = others;
            }
            [] => return false,
        }
    }
    items.is_empty()
}

/// Whether these are the policies of the list, in order.
pub fn are_policies_of(mut policies: &[Policy], list: &Policies) -> bool
    ensures { (result ≡ true) ↔ (policies.entry.now ≡ list.now) }
{
    let mut left = list.iter();
    while let Some(policy) = left.next() {
        match policies {
            [first, others @ ..] => {
                if !first.is_same(policy.get()) {
                    return false;
                }
                policies = others;
            }
            [] => return false,
        }
    }
    policies.is_empty()
}
