//! Lists in the order of their items' keys, whose copies share their nodes.

ghost use Rattle.std.specs.Prelude.{◌≡◌, [], false, length, IfOk, OnOk, OnErr};
ghost use Rattle.std.specs.Option.{option_copied};
ghost use Rattle.std.specs.BTreeMap.{is_at};
ghost use Rattle.shared_map.specs.Entries.{is_reached};
ghost use Rattle.shared_map.specs.Lists.{InKeyOrder, item_at, items_from, with_item, without_item};

use crate::map::SharedMap;
use crate::values::Values;
use shared::{HasKey, Shared};
use std::alloc::{AllocError, Global};
use std::marker::Model;

/// Items in the order of their keys, each key once, seen as their list. Copies share what they have in common.
#[derive(Drop)]
pub struct SharedList<K: Ord + Shared, T: HasKey<K> + Shared> {
    items: SharedMap<K, T>,
}

impl<K: Ord + Shared, T: HasKey<K> + Shared> Model for SharedList<K, T> {
    ghost use Rattle.std.specs.Prelude.{List};
    ghost use Rattle.std.specs.Coded.{coded_list};
    ghost use Rattle.std.specs.Map.{values_of};
    ghost use Rattle.shared_map.specs.Lists.{HaveKeys};

    ghost Value = { List T };

    ghost coded = { coded_list T.code };

    ghost view = { λ list. values_of list.items };

    ghost invariant = { λ list. HaveKeys T.key_of list.items };
}

impl<K: Ord + Shared, T: HasKey<K> + Shared> SharedList<K, T> {
    pub fn new() -> SharedList<K, T>
        ensures { result ≡ [] }
    {
        SharedList {
            items: SharedMap::new(),
        }
    }

    /// A list with the same items, all of them shared.
    pub fn copy(&self) -> Result<SharedList<K, T>, AllocError>
        ensures { IfOk result (λ copy. copy ≡ self.now) }
    {
        Ok(SharedList {
            items: self.items.copy()?,
        })
    }

    #[tactic(auto, using(crate::proofs::Listed::keys_ascend))]
    pub fn len(&self) -> usize
        ensures len { result ≡ length self.now }
        ensures ordered { InKeyOrder K.cmp T.key_of self.now }
    {
        self.items.len()
    }

    /// The list itself, told to be in order.
    #[tactic(auto, using(crate::proofs::Listed::keys_ascend))]
    pub fn in_order(&self) -> &SharedList<K, T>
        ensures list { result.now ≡ self.now }
        ensures ordered { InKeyOrder K.cmp T.key_of self.now }
    {
        let _ = self.items.len();
        self
    }

    /// All items, in order.
    #[tactic(auto, using(crate::proofs::Listed::keys_ascend))]
    pub fn iter(&self) -> Values<'_, K, T>
        ensures left { result ≡ self.now }
        ensures ordered { InKeyOrder K.cmp T.key_of self.now }
    {
        self.items.values()
    }

    /// The items from the key on, in order.
    #[tactic(auto, using(crate::proofs::Listed::keys_ascend, crate::proofs::Listed::left_from))]
    pub fn iter_from<'m>(&'m self, key: &K) -> Values<'m, K, T>
        ensures left { result ≡ items_from (is_reached (K.cmp key.now) false) T.key_of self.now }
        ensures ordered { InKeyOrder K.cmp T.key_of self.now }
    {
        self.items.values_from(key)
    }

    /// The item with the key, if there is one.
    #[tactic(auto, using(crate::proofs::Listed::keys_ascend, crate::proofs::Listed::found))]
    pub fn get(&self, key: &K) -> Option<&T>
        ensures item { option_copied result ≡ item_at (is_at (K.cmp key.now)) T.key_of self.now }
        ensures ordered { InKeyOrder K.cmp T.key_of self.now }
    {
        self.items.get(key)
    }

    /// Puts the item in its place, or in place of the one that has its key.
    #[tactic(auto, using(crate::proofs::Listed::keys_ascend, crate::proofs::Listed::put_in, crate::proofs::Listed::put_keys))]
    pub fn put(&mut self, alloc: Global, item: T) -> Result<(), AllocError>
        ensures ok { OnOk result (self.new ≡ with_item K.cmp T.key_of self.old item) }
        ensures err { OnErr result (self.new ≡ self.old) }
        ensures ordered { OnOk result (InKeyOrder K.cmp T.key_of self.new) }
    {
        let key = match item.key() {
            Ok(key) => key,
            Err(refused) => {
                drop(item);
                return Err(refused);
            }
        };
        self.items.insert(alloc, key, item)?;
        Ok(())
    }

    /// Takes the item with the key away, if there is one.
    #[tactic(auto, using(crate::proofs::Listed::keys_ascend, crate::proofs::Listed::taken, crate::proofs::Listed::keys_taken))]
    pub fn remove(&mut self, alloc: Global, key: &K) -> Result<(), AllocError>
        ensures ok { OnOk result (self.new ≡ without_item (is_at (K.cmp key.now)) T.key_of self.old) }
        ensures err { OnErr result (self.new ≡ self.old) }
        ensures ordered { InKeyOrder K.cmp T.key_of self.new }
    {
        self.items.remove(alloc, key)?;
        Ok(())
    }
}

impl<K: Ord + Shared, T: HasKey<K> + Shared> Clone for SharedList<K, T> {
    ghost use Rattle.std.specs.Prelude.{◌≡◌};

    ghost is_clone = { λ x y. y ≡ x };

    fn clone(&self) -> Result<SharedList<K, T>, AllocError> {
        self.copy()
    }
}

impl<K: Ord + Shared, T: HasKey<K> + Shared> Shared for SharedList<K, T> {
    ghost same = { λ x y h. h };
}
