//! Copies that are kept stay as they were made.

use crate::map_changes::{change_of, is_shown, note, put_on, slots};
use shared_map::SharedMap;
use std::alloc::{AllocError, Global};

/// How many changes there are.
pub(crate) const CHANGES: u64 = 20_000;

/// A copy from before each change, and the map after the last.
pub(crate) fn versions(alloc: Global) -> Result<Vec<SharedMap<u64, u64>>, AllocError> {
    let mut versions = Vec::new(alloc);
    let mut map = SharedMap::new();
    for n in 0..CHANGES {
        versions.push(map.copy()?)?;
        put_on(&mut map, alloc, change_of(n))?;
    }
    versions.push(map)?;
    Ok(versions)
}

/// The first of the copies, at each of these places, that isn't what the changes before it make.
pub(crate) fn first_wrong(
    versions: &[SharedMap<u64, u64>],
    alloc: Global,
    step: usize,
    from: usize,
) -> Result<Option<usize>, AllocError> {
    let mut slots = slots(alloc)?;
    for (n, version) in versions.iter().enumerate() {
        if n.checked_rem(step) == Some(from) && !is_shown(version, &slots) {
            return Ok(Some(n));
        }
        note(&mut slots, change_of(n as u64));
    }
    Ok(None)
}

/// How many copies there are, and the first wrong one.
fn kept(alloc: Global) -> Result<(usize, Option<usize>), AllocError> {
    let versions = versions(alloc)?;
    let wrong = first_wrong(&versions, alloc, 1, 0)?;
    Ok((versions.len(), wrong))
}

#[test]
fn each_copy_stays_as_it_was(rt: HostRuntime) {
    assert!(rt; kept(rt.alloc()) == Ok((20_001, None)));
}
