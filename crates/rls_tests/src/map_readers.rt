//! Threads read older copies while one makes new ones.

use crate::map_changes::{change_of, is_shown, note, put_on, slots};
use crate::map_versions::{CHANGES, first_wrong, versions};
use shared_map::SharedMap;
use std::alloc::{AllocError, Global};
use std::thread;
use std::thread::Threads;

/// How many threads read.
const READERS: usize = 4;

/// Makes as many changes again on a copy of the last version, with a copy kept of each, and says whether the last of
/// these is what all changes make.
fn goes_on(versions: &[SharedMap<u64, u64>], alloc: Global) -> Result<bool, AllocError> {
    let mut slots = slots(alloc)?;
    let mut kept = Vec::new(alloc);
    let mut map = match versions.last() {
        Some(last) => last.copy()?,
        None => return Ok(false),
    };
    for n in 0..CHANGES {
        note(&mut slots, change_of(n));
    }
    for n in CHANGES..2 * CHANGES {
        kept.push(map.copy()?)?;
        put_on(&mut map, alloc, change_of(n))?;
        note(&mut slots, change_of(n));
    }
    Ok(is_shown(&map, &slots))
}

/// What one of the threads finds: whether all that it looks at is as it should be.
fn is_right(
    versions: &[SharedMap<u64, u64>],
    alloc: Global,
    thread: usize,
) -> Result<bool, AllocError> {
    if thread < READERS {
        Ok(first_wrong(versions, alloc, READERS, thread)?.is_none())
    } else {
        goes_on(versions, alloc)
    }
}

/// What the threads find.
fn found<R: Threads + Sync>(rt: &R, alloc: Global) -> Result<Vec<bool>, AllocError> {
    let versions = versions(alloc)?;
    let answers = thread::map_indices(
        rt,
        alloc,
        READERS + 1,
        &|thread| { is_right(&versions, alloc, thread) == Ok(true) },
    )?;
    Ok(answers)
}

/// Whether each thread finds all as it should be.
fn are_right<R: Threads + Sync>(rt: &R, alloc: Global) -> bool {
    match found(rt, alloc) {
        Ok(answers) => answers.len() == READERS + 1 && answers.iter().all(|it| *it),
        Err(_) => false,
    }
}

#[test]
fn copies_are_read_while_others_are_made(rt: HostRuntime) {
    assert!(rt; are_right(&rt, rt.alloc()));
}
