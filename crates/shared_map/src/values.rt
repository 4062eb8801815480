//! The way through the values of a map.

ghost use Rattle.std.specs.Prelude.{◌≡◌, false};
ghost use Rattle.std.specs.Map.{values_of};
ghost use Rattle.shared_map.specs.Entries.{Ascend, entries_from, is_reached};

use crate::iter::Iter;
use crate::map::SharedMap;
use shared::Shared;
use std::marker::Model;

/// The values of a map that are left, in the order of their keys, lent one after another.
#[derive(Drop)]
pub struct Values<'m, K: Ord + Shared, V: Shared> {
    entries: Iter<'m, K, V>,
}

impl<'m, K: Ord + Shared, V: Shared> Model for Values<'m, K, V> {
    ghost use Rattle.std.specs.Prelude.{List};
    ghost use Rattle.std.specs.Coded.{coded_list};
    ghost use Rattle.std.specs.Map.{values_of};

    ghost Value = { List V };

    ghost coded = { coded_list V.code };

    ghost view = { λ values. values_of values.entries };
}

impl<'m, K: Ord + Shared, V: Shared> Iterator for Values<'m, K, V> {
    ghost use Rattle.std.specs.Iterator.{YieldsFirstRef, item_count};

    type Item = &'m V;

    ghost next_gives = { YieldsFirstRef (λ left. left) };

    ghost remaining = { item_count (λ left. left) };

    fn next(&mut self) -> Option<&'m V> {
        match self.entries.next() {
            Some(entry) => Some(&entry.1),
            None => None,
        }
    }
}

impl<K: Ord + Shared, V: Shared> SharedMap<K, V> {
    /// All values, in the order of their keys.
    pub fn values(&self) -> Values<'_, K, V>
        ensures left { result ≡ values_of self.now }
        ensures ordered { Ascend K.cmp self.now }
    {
        Values {
            entries: self.iter(),
        }
    }

    /// The values from the key on, in the order of their keys.
    pub fn values_from<'m>(&'m self, key: &K) -> Values<'m, K, V>
        ensures left { result ≡ values_of (entries_from (is_reached (K.cmp key.now) false) self.now) }
        ensures ordered { Ascend K.cmp self.now }
    {
        Values {
            entries: self.iter_from(key),
        }
    }
}
