//! Changes of maps and lists that share their nodes with copies, or don't.

use rls_session::rls_core::rls_guard::rls_catalog::rls_value::Refusal;
use rls_session::rls_core::rls_guard::rls_catalog::shared_map::SharedMap;
use scenario::{Scenario, play};
use std::alloc::{AllocError, Global};

type Map = SharedMap<u64, u64>;

/// So many keys that, put in falling order, they fill the first page and each of the branches above it but the top.
const ENTRIES: usize = 8_464;

/// A change of a map of so many entries, which shares its nodes with a copy or not.
#[derive(Clone, Copy)]
struct Change {
    key: u64,
    entries: usize,
    shares: bool,
}

/// So many even keys from 2 on, put in falling order.
fn evens(alloc: Global, entries: usize) -> Result<Map, AllocError> {
    let mut map = SharedMap::new();
    for n in (0..entries as u64).rev() {
        map.insert(alloc, n.saturating_mul(2).saturating_add(2), 0)?;
    }
    Ok(map)
}

/// A map, and what shares its nodes.
#[derive(Drop)]
struct Trial {
    map: Map,
    copy: Option<Map>,
    change: Change,
}

impl Trial {
    fn new(alloc: Global, change: Change) -> Result<Trial, Refusal> {
        let map = evens(alloc, change.entries)?;
        let copy = if change.shares {
            Some(map.copy()?)
        } else {
            None
        };
        Ok(Trial { map, copy, change })
    }

    /// Puts its key.
    fn put(&mut self, alloc: Global) -> Result<(), Refusal> {
        Ok(self.map.insert(alloc, self.change.key, 1)?)
    }

    /// Removes its key.
    fn remove(&mut self, alloc: Global) -> Result<(), Refusal> {
        Ok(self.map.remove(alloc, &self.change.key)?)
    }

    fn is_same(&self, other: &Trial) -> bool {
        are_same(&self.map, &other.map) && is_kept(&self.copy, &other.map)
    }
}

/// Whether the copy, if there is one, has the entries of the other map.
fn is_kept(copy: &Option<Map>, other: &Map) -> bool {
    match copy {
        Some(copy) => are_same(copy, other),
        None => true,
    }
}

fn are_same(left: &Map, right: &Map) -> bool {
    let mut others = right.iter();
    for entry in left.iter() {
        match others.next() {
            Some(other) if *entry == *other => {}
            _ => return false,
        }
    }
    others.next().is_none()
}

#[derive(Drop)]
struct Putting {
    trial: Trial,
}

impl Putting {
    fn new(alloc: Global, change: Change) -> Result<Putting, Refusal> {
        Ok(Putting {
            trial: Trial::new(alloc, change)?,
        })
    }
}

impl Scenario for Putting {
    type Answer = ();

    fn call(&mut self, alloc: Global) -> Result<(), Refusal> {
        self.trial.put(alloc)
    }

    fn is_like(&self, twin: &Putting, _alloc: Global) -> Result<bool, Refusal> {
        Ok(self.trial.is_same(&twin.trial))
    }

    fn is_answer(&self, _answer: &(), _alloc: Global) -> Result<bool, Refusal> {
        Ok(self.trial.map.get(&self.trial.change.key) == Some(&1))
    }
}

#[derive(Drop)]
struct Removing {
    trial: Trial,
}

impl Removing {
    fn new(alloc: Global, change: Change) -> Result<Removing, Refusal> {
        Ok(Removing {
            trial: Trial::new(alloc, change)?,
        })
    }
}

impl Scenario for Removing {
    type Answer = ();

    fn call(&mut self, alloc: Global) -> Result<(), Refusal> {
        self.trial.remove(alloc)
    }

    fn is_like(&self, twin: &Removing, _alloc: Global) -> Result<bool, Refusal> {
        Ok(self.trial.is_same(&twin.trial))
    }

    fn is_answer(&self, _answer: &(), _alloc: Global) -> Result<bool, Refusal> {
        Ok(self.trial.map.get(&self.trial.change.key).is_none())
    }
}

fn play_put(rt: &impl Print, alloc: Global, change: Change) {
    play(
        rt,
        alloc,
        "SharedMap::insert",
        Putting::new(alloc, change),
        Putting::new(alloc, change),
    );
}

fn play_remove(rt: &impl Print, alloc: Global, change: Change) {
    play(
        rt,
        alloc,
        "SharedMap::remove",
        Removing::new(alloc, change),
        Removing::new(alloc, change),
    );
}

/// Puts before all, between, after all, in place, and the first entry.
const PUT: [(u64, usize); 5] = [
    (1, ENTRIES),
    (1_001, ENTRIES),
    (1_000_000, ENTRIES),
    (1_000, ENTRIES),
    (2, 0),
];

/// Removes one, one that isn't there, and the only one.
const REMOVED: [(u64, usize); 3] = [(1_000, ENTRIES), (1_001, ENTRIES), (2, 1)];

/// A map that shares its nodes, and one that doesn't.
pub fn play_all(rt: &impl Print, alloc: Global) {
    for shares in [true, false] {
        for (key, entries) in PUT {
            play_put(
                rt,
                alloc,
                Change {
                    key,
                    entries,
                    shares,
                },
            );
        }
        for (key, entries) in REMOVED {
            play_remove(
                rt,
                alloc,
                Change {
                    key,
                    entries,
                    shares,
                },
            );
        }
    }
}
