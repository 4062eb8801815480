//! Equality of what contracts see.

ghost use Rattle.std.specs.Prelude.{◌≡◌, true, ◌↔◌};
ghost use Rattle.std.specs.Option.{option_copied};

use rls_catalog::Grants;
use rls_catalog::rls_value::Items;
use rls_catalog::shared_map::{HasKey, Share, Shared, SharedList, Values};

/// Values that can be told apart.
pub trait Same {
    /// Whether the two are the same. It takes no memory.
    fn is_same(&self, other: &Self) -> bool
        ensures { (result ≡ true) ↔ (self.now ≡ other.now) };
}

impl<T: Same> Same for Items<T> {
    fn is_same(&self, other: &Items<T>) -> bool {
        are_same(self.as_slice(), other.as_slice())
    }
}

impl<T: Same + Drop> Same for Share<T> {
    fn is_same(&self, other: &Share<T>) -> bool {
        self.get().is_same(other.get())
    }
}

impl<K: Ord + Shared, T: HasKey<K> + Shared + Same> Same for SharedList<K, T> {
    fn is_same(&self, other: &SharedList<K, T>) -> bool {
        are_left_same(self.iter(), other.iter())
    }
}

impl Same for Grants {
    fn is_same(&self, other: &Grants) -> bool {
        are_left_same(self.iter(), other.iter())
    }
}

/// Whether the same items are left in both lists, in order.
fn are_left_same<K: Ord + Shared, T: Shared + Same>(
    mut left: Values<'_, K, T>,
    mut right: Values<'_, K, T>,
) -> bool
    ensures { (result ≡ true) ↔ (left.entry ≡ right.entry) }
{
    while let Some(first) = left.next() {
        match right.next() {
            Some(other) => {
                if !first.is_same(other) {
                    return false;
                }
            }
            None => return false,
        }
    }
    right.next().is_none()
}

/// Whether the two lists have the same elements, in order.
pub fn are_same<T: Same>(mut left: &[T], mut right: &[T]) -> bool
    ensures { (result ≡ true) ↔ (left.entry.now ≡ right.entry.now) }
{
    while let [first, rest @ ..] = left {
        match right {
            [other, others @ ..] => {
                if !first.is_same(other) {
                    return false;
                }
                right = others;
            }
            [] => return false,
        }
        left = rest;
    }
    right.is_empty()
}

/// Whether both are there and the same, or neither is there.
pub fn are_both_same<T: Same>(left: Option<&T>, right: Option<&T>) -> bool
    ensures { (result ≡ true) ↔ (option_copied left.entry ≡ option_copied right.entry) }
{
    match (left, right) {
        (Some(left), Some(right)) => left.is_same(right),
        (None, None) => true,
        (_, _) => false,
    }
}
