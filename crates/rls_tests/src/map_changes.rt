//! A long list of changes, and what they make, told plainly.

use shared_map::SharedMap;
use std::alloc::{AllocError, Global};

/// How many keys there are: more than the parts of one branch hold.
pub(crate) const KEYS: u64 = 2_000;

/// How many changes of one kind follow each other.
const STRETCH: u64 = 2_500;

/// Numbers for a second choice.
const OTHER: u64 = 1 << 40;

/// A change of the map.
#[derive(Clone, Copy)]
pub(crate) enum Change {
    Put(u64, u64),
    Remove(u64),
}

/// A number by which neighbours differ as if by chance.
fn spread(n: u64) -> u64 {
    let n = n.wrapping_add(1).wrapping_mul(0x9E37_79B9_7F4A_7C15);
    let n = (n ^ (n >> 30)).wrapping_mul(0xBF58_476D_1CE4_E5B9);
    let n = (n ^ (n >> 27)).wrapping_mul(0x94D0_49BB_1331_11EB);
    n ^ (n >> 31)
}

/// The change of this number: puts and removals here and there, then puts of neighbours, then removals of neighbours,
/// so that whole parts go.
pub(crate) fn change_of(n: u64) -> Change {
    match n / STRETCH % 4 {
        1 => Change::Put(n % KEYS, n),
        3 => Change::Remove(n % KEYS),
        _ if spread(n ^ OTHER) % 3 == 0 => Change::Remove(spread(n) % KEYS),
        _ => Change::Put(spread(n) % KEYS, n),
    }
}

pub(crate) fn put_on(
    map: &mut SharedMap<u64, u64>,
    alloc: Global,
    change: Change,
) -> Result<(), AllocError> {
    match change {
        Change::Put(key, value) => map.insert(alloc, key, value),
        Change::Remove(key) => map.remove(alloc, &key),
    }
}

/// Puts the change on slots, of which each key has one.
pub(crate) fn note(slots: &mut [Option<u64>], change: Change) {
    let (key, value) = match change {
        Change::Put(key, value) => (key, Some(value)),
        Change::Remove(key) => (key, None),
    };
    if let Some(slot) = slots.get_mut(key as usize) {
        *slot = value;
    }
}

/// Empty slots for all keys.
pub(crate) fn slots(alloc: Global) -> Result<Vec<Option<u64>>, AllocError> {
    let mut slots = Vec::new(alloc);
    for _ in 0..KEYS {
        slots.push(None)?;
    }
    Ok(slots)
}

/// Whether the map has just the entries that the slots show, in the order of their keys.
pub(crate) fn is_shown(map: &SharedMap<u64, u64>, slots: &[Option<u64>]) -> bool {
    let mut entries = map.iter();
    for (key, slot) in slots.iter().enumerate() {
        if let Some(value) = slot {
            match entries.next() {
                Some(entry) if entry.0 == key as u64 && entry.1 == *value => {}
                _ => return false,
            }
        }
    }
    entries.next().is_none()
}
