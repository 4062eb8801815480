//! The map.

ghost use Rattle.std.specs.Prelude.{◌≡◌, [], true, false, ◌∷◌, length, Some, IfOk, OnOk, OnErr, map};
ghost use Rattle.std.specs.Option.{option_copied};
ghost use Rattle.std.specs.Map.{lookup, remove_entry};
ghost use Rattle.std.specs.BTreeMap.{insert_entry, is_at};
ghost use Rattle.shared_map.specs.Entries.{Ascend, IsFirstRun, entries_from, is_reached, joined};

use crate::branch::Branch;
use crate::page::Page;
use crate::part::Part;
use crate::tree;
use shared::Shared;
use std::alloc::{AllocError, Global};
use std::marker::Model;
use std::sync::Arc;

type Root<K, V> = Branch<K, Branch<K, Branch<K, Page<K, V>>>>;

/// A map in order, seen as the list of its entries. Copies share what they have in common.
#[derive(Drop)]
pub struct SharedMap<K: Ord + Shared, V: Shared> {
    root: Option<Arc<Root<K, V>>>,
    len: usize,
}

impl<K: Ord + Shared, V: Shared> Model for SharedMap<K, V> {
    ghost use Rattle.std.specs.Prelude.{List};
    ghost use Rattle.std.specs.Coded.{coded_list, coded×};

    ghost Value = { List (K × V) };

    ghost coded = { coded_list (coded× K.code V.code) };

    ghost use Rattle.shared_map.specs.Tree.{tree_entries, IsTree};

    ghost view = { λ map. tree_entries map.root };

    ghost invariant = { λ map. IsTree K.cmp map.root map.len };
}

impl<K: Ord + Shared, V: Shared> Clone for SharedMap<K, V> {
    ghost use Rattle.std.specs.Prelude.{◌≡◌};

    ghost is_clone = { λ x y. y ≡ x };

    fn clone(&self) -> Result<SharedMap<K, V>, AllocError> {
        self.copy()
    }
}

impl<K: Ord + Shared, V: Shared> Shared for SharedMap<K, V> {
    ghost same = { λ x y h. h };
}

impl<K: Ord + Shared, V: Shared> SharedMap<K, V> {
    pub fn new() -> SharedMap<K, V>
        ensures { result ≡ [] }
    {
        SharedMap { root: None, len: 0 }
    }

    /// A map with the same entries, all of them shared.
    pub fn copy(&self) -> Result<SharedMap<K, V>, AllocError>
        ensures { IfOk result (λ copy. copy ≡ self.now) }
    {
        Ok(SharedMap {
            root: tree::copy(&self.root)?,
            len: self.len,
        })
    }

    pub fn len(&self) -> usize
        ensures len { result ≡ length self.now }
        ensures ordered { Ascend K.cmp self.now }
    {
        self.len
    }

    pub fn get(&self, key: &K) -> Option<&V>
        ensures value { option_copied result ≡ lookup (is_at (K.cmp key.now)) self.now }
        ensures ordered { Ascend K.cmp self.now }
    {
        tree::get(&self.root, key)
    }

    /// Puts the value at the key. An equal key stays, and takes the value.
    pub fn insert(&mut self, alloc: Global, key: K, value: V) -> Result<(), AllocError>
        ensures ok { OnOk result (self.new ≡ insert_entry K.cmp self.old key value) }
        ensures err { OnErr result (self.new ≡ self.old) }
        ensures ordered { Ascend K.cmp self.new }
    {
        let len = tree::len_with(&self.root, self.len, &key)?;
        tree::insert(&mut self.root, alloc, key, value)?;
        self.len = len;
        Ok(())
    }

    pub fn remove(&mut self, alloc: Global, key: &K) -> Result<(), AllocError>
        ensures ok { OnOk result (self.new ≡ remove_entry (is_at (K.cmp key.now)) self.old) }
        ensures err { OnErr result (self.new ≡ self.old) }
        ensures ordered { Ascend K.cmp self.new }
    {
        let len = tree::len_without(&self.root, self.len, key);
        self.root = tree::without(&self.root, alloc, key)?;
        self.len = len;
        Ok(())
    }

    /// The entries in order, in runs.
    pub fn runs(&self, alloc: Global) -> Result<Vec<&[(K, V)]>, AllocError>
        ensures all { IfOk result (λ runs. joined runs.items ≡ self.now) }
        ensures ordered { Ascend K.cmp self.now }
    {
        tree::runs(&self.root, alloc)
    }

    /// The first entries, as far as they stand side by side: none only in an empty map.
    pub fn first_run(&self) -> &[(K, V)]
        ensures run { IsFirstRun self.now result.now }
        ensures ordered { Ascend K.cmp self.now }
    {
        tree::first_run(&self.root)
    }

    /// The first entries from the key on, as far as they stand side by side: none only where the map has none.
    pub fn run_from<'m>(&'m self, key: &K) -> &'m [(K, V)]
        ensures run { IsFirstRun (entries_from (is_reached (K.cmp key.now) false) self.now) result.now }
        ensures ordered { Ascend K.cmp self.now }
    {
        tree::run_from(&self.root, key, false)
    }

    /// The first entries after the key, as far as they stand side by side: none only where the map has none.
    pub fn run_after<'m>(&'m self, key: &K) -> &'m [(K, V)]
        ensures run { IsFirstRun (entries_from (is_reached (K.cmp key.now) true) self.now) result.now }
        ensures ordered { Ascend K.cmp self.now }
    {
        tree::run_from(&self.root, key, true)
    }
}
