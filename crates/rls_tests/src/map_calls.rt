//! Each call once, with ample memory.

use shared_map::{Share, Shared, SharedMap};
use std::alloc::{AllocError, Global};

type Map = SharedMap<u64, u64>;

/// Under 0, 10, and so on to 990 the next number.
fn tens(alloc: Global) -> Result<Map, AllocError> {
    let mut map = SharedMap::new();
    for n in 0..100 {
        map.insert(alloc, 10 * n, 10 * n + 1)?;
    }
    Ok(map)
}

fn value_at(map: &Map, key: u64) -> Option<u64> {
    map.get(&key).copied()
}

fn key_of(entry: Option<&(u64, u64)>) -> Option<u64> {
    entry.map(|entry| entry.0)
}

/// How many entries there are, and what stands at a key and beside it.
fn looked_up(map: &Map) -> (usize, Option<u64>, Option<u64>) {
    (map.len(), value_at(map, 20), value_at(map, 21))
}

/// The first keys of the ways through the map.
fn firsts(map: &Map) -> [Option<u64>; 6] {
    [
        key_of(map.first_run().first()),
        key_of(map.run_from(&15).first()),
        key_of(map.run_after(&20).first()),
        key_of(map.iter().next()),
        key_of(map.iter_from(&15).next()),
        key_of(map.iter_from(&991).next()),
    ]
}

/// How many entries the ways through the map come by.
fn counted(map: &Map, alloc: Global) -> Result<[usize; 3], AllocError> {
    let mut in_runs = 0usize;
    for run in &map.runs(alloc)? {
        in_runs = in_runs.saturating_add(run.len());
    }
    let all: Vec<u64> = map.iter().map(|entry| entry.0).collect(alloc)?;
    let from: Vec<u64> = map.iter_from(&505).map(|entry| entry.0).collect(alloc)?;
    Ok([in_runs, all.len(), from.len()])
}

fn clone_of<T: Shared>(value: &T) -> Result<T, AllocError> {
    value.clone()
}

/// What the map, a copy and a clone of it have at a key, once it is removed from the map.
fn removed(map: &mut Map, alloc: Global) -> Result<[Option<u64>; 3], AllocError> {
    let copy = map.copy()?;
    let clone = clone_of(map)?;
    map.remove(alloc, &20)?;
    Ok([value_at(map, 20), value_at(&copy, 20), value_at(&clone, 20)])
}

/// The value, as it is lent by what shares it.
fn borrowed(alloc: Global, value: u64) -> Result<[u64; 3], AllocError> {
    let share = Share::new(alloc, value)?;
    let copy = share.copy()?;
    let clone = clone_of(&share)?;
    Ok([*share.get(), *copy.get(), *clone.get()])
}

#[test]
fn each_call_succeeds(rt: HostRuntime) {
    let Ok(mut map) = tens(rt.alloc()) else {
        assert!(rt; false);
        return;
    };
    assert!(rt; looked_up(&map) == (100, Some(21), None));
    assert!(rt; firsts(&map) == [Some(0), Some(20), Some(30), Some(0), Some(20), None]);
    assert!(rt; counted(&map, rt.alloc()) == Ok([100, 100, 49]));
    assert!(rt; removed(&mut map, rt.alloc()) == Ok([None, Some(21), Some(21)]));
    assert!(rt; looked_up(&map) == (99, None, None));
    assert!(rt; borrowed(rt.alloc(), 7) == Ok([7, 7, 7]));
}
