//! The way through the entries of a map.

ghost use Rattle.std.specs.Prelude.{◌≡◌, false};
ghost use Rattle.shared_map.specs.Entries.{Ascend, entries_from, is_reached};
ghost use Rattle.shared_map.specs.Left.{entries_after, entries_left};

use crate::map::SharedMap;
use shared::Shared;
use std::marker::Model;

/// The entries of a map that are left, in order, lent one after another.
#[derive(Drop)]
pub struct Iter<'m, K: Ord + Shared, V: Shared> {
    map: &'m SharedMap<K, V>,
    // Those that stand side by side, as far as they are left: none only at the end.
    run: &'m [(K, V)],
}

impl<'m, K: Ord + Shared, V: Shared> Model for Iter<'m, K, V> {
    ghost use Rattle.std.specs.Prelude.{List};
    ghost use Rattle.std.specs.Coded.{coded_list, coded×};

    ghost Value = { List (K × V) };

    ghost coded = { coded_list (coded× K.code V.code) };

    ghost use Rattle.shared_map.specs.Entries.{Ascend};
    ghost use Rattle.shared_map.specs.Left.{entries_left};

    ghost view = { λ entries. entries_left K.cmp entries.map.now entries.run.now };

    ghost invariant = { λ entries. Ascend K.cmp (entries_left K.cmp entries.map.now entries.run.now) };
}

impl<'m, K: Ord + Shared, V: Shared> Iterator for Iter<'m, K, V> {
    ghost use Rattle.std.specs.Iterator.{YieldsFirstRef, item_count};

    type Item = &'m (K, V);

    ghost next_gives = { YieldsFirstRef (λ left. left) };

    ghost remaining = { item_count (λ left. left) };

    fn next(&mut self) -> Option<&'m (K, V)> {
        let (entry, rest) = self.run.split_first()?;
        self.run = run_behind(self.map, entry, rest);
        Some(entry)
    }
}

/// The run that is left behind the entry: the rest of its own, or the next one.
fn run_behind<'m, K: Ord + Shared, V: Shared>(
    map: &'m SharedMap<K, V>,
    entry: &(K, V),
    rest: &'m [(K, V)],
) -> &'m [(K, V)]
    ensures { entries_left K.cmp map.now result.now ≡ entries_after K.cmp map.now entry.now rest.now }
{
    if rest.is_empty() {
        map.run_after(&entry.0)
    } else {
        rest
    }
}

impl<K: Ord + Shared, V: Shared> SharedMap<K, V> {
    /// All entries, in order.
    pub fn iter(&self) -> Iter<'_, K, V>
        ensures left { result ≡ self.now }
        ensures ordered { Ascend K.cmp self.now }
    {
        Iter {
            map: self,
            run: self.first_run(),
        }
    }

    /// The entries from the key on, in order.
    pub fn iter_from<'m>(&'m self, key: &K) -> Iter<'m, K, V>
        ensures left { result ≡ entries_from (is_reached (K.cmp key.now) false) self.now }
        ensures left_ordered { Ascend K.cmp result }
        ensures ordered { Ascend K.cmp self.now }
    {
        Iter {
            map: self,
            run: self.run_from(key),
        }
    }
}
