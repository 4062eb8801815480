//! Calls of read locks.

use crate::opening::{GRANTS, are_same_objects, changes_of, state_after};
use rls_session::rls_core::rls_conflict::rls_siread::{
    LockTable, Sireads, covered, promote, written,
};
use rls_session::rls_core::rls_guard::rls_catalog::Delta;
use rls_session::rls_core::rls_guard::rls_catalog::rls_value::{Name, Object, Refusal, Row, Value};
use rls_session::rls_core::rls_guard::rls_source::Footprint;
use scenario::{Scenario, after, both, play, taken};
use std::alloc::Global;

/// The keys of one table that a transaction notes before its rows stand for them.
const MANY: usize = 256;

/// The key of the number in the table `t`.
fn key(alloc: Global, number: i64) -> Result<Object, Refusal> {
    let values = vec![in alloc; Value::Int(number)]?;
    let (table, key) = both(Name::new(alloc, "t"), taken(Row::new(values)))?;
    Ok(Object::Key(table, key))
}

/// The keys of these numbers.
fn keys(alloc: Global, numbers: &[i64]) -> Result<Footprint, Refusal> {
    let mut keys = Footprint::new(alloc);
    let noted = note_keys(&mut keys, alloc, numbers);
    after(keys, noted)
}

fn note_keys(keys: &mut Footprint, alloc: Global, numbers: &[i64]) -> Result<(), Refusal> {
    for number in numbers {
        keys.note(key(alloc, *number)?)?;
    }
    Ok(())
}

/// What is asked of read locks.
#[derive(Clone, Copy)]
enum Ask {
    /// That a transaction has read keys.
    Note,
    /// How many hold what a change covers.
    Holders,
    /// That rows stand for all keys that were noted, and for keys that weren't.
    PromoteAll,
    Promote,
    /// How many objects two changes write, and cover.
    Written,
    Covered,
    /// The objects of a transaction that noted them in two steps, for its record.
    Share,
    /// Room for the holder of keys, in a table without notes.
    MakeRoom,
}

/// Each call, and the number that is expected.
const ASKS: [(&str, Ask, usize); 8] = [
    ("Sireads::note", Ask::Note, 2),
    ("Sireads::holders", Ask::Holders, 2),
    ("Sireads::promote", Ask::PromoteAll, 0),
    ("promote", Ask::Promote, 1),
    ("written", Ask::Written, 4),
    ("covered", Ask::Covered, 5),
    ("Sireads::share_noted", Ask::Share, 2),
    ("LockTable::make_room", Ask::MakeRoom, 0),
];

/// Locks of two transactions, one of which has committed, and the other has noted its keys in two steps.
fn locks_of_two(alloc: Global) -> Result<Sireads, Refusal> {
    let mut locks = Sireads::new(alloc);
    let came = lock_two(&mut locks, alloc);
    after(locks, came)
}

fn lock_two(locks: &mut Sireads, alloc: Global) -> Result<(), Refusal> {
    note(locks, alloc, 7, &[1, 3])?;
    note(locks, alloc, 8, &[1])?;
    note(locks, alloc, 8, &[2])?;
    locks.committed(7, 3);
    Ok(())
}

/// The transaction has read the keys of these numbers.
fn note(locks: &mut Sireads, alloc: Global, txn: u64, numbers: &[i64]) -> Result<(), Refusal> {
    let keys = keys(alloc, numbers)?;
    locks.note(alloc, txn, keys, MANY)?;
    Ok(())
}

/// The changes of two rows.
fn changes(alloc: Global) -> Result<Delta, Refusal> {
    let state = state_after(alloc, &GRANTS)?;
    let changes = changes_of(alloc, &state, 9, "UPDATE t SET n = 0");
    drop(state);
    changes
}

/// Keys, one of them, and the changes of two rows.
#[derive(Drop)]
struct Asked {
    keys: Footprint,
    second: Object,
    changes: Delta,
}

impl Asked {
    fn new(alloc: Global) -> Result<Asked, Refusal> {
        let noted = both(keys(alloc, &[2, 4]), key(alloc, 2));
        let ((keys, second), changes) = both(noted, changes(alloc))?;
        Ok(Asked {
            keys,
            second,
            changes,
        })
    }
}

/// Locks, a table of holders without any, and what is asked of them.
#[derive(Drop)]
struct Locks {
    ask: Ask,
    locks: Sireads,
    table: LockTable,
    asked: Asked,
    wanted: usize,
}

impl Locks {
    fn new(alloc: Global, ask: Ask, wanted: usize) -> Result<Locks, Refusal> {
        let (locks, asked) = both(locks_of_two(alloc), Asked::new(alloc))?;
        Ok(Locks {
            ask,
            locks,
            table: LockTable::new(alloc),
            asked,
            wanted,
        })
    }

    /// Whether the same transactions as there hold the object.
    fn has_holders_of(&self, twin: &Locks, object: Object) -> bool {
        let are_same = self.locks.held(&object) == twin.locks.held(&object)
            && self.table.held(&object) == twin.table.held(&object);
        drop(object);
        are_same
    }

    /// How many hold what the first change covers.
    fn holders(&self, alloc: Global) -> Result<usize, Refusal> {
        match self.asked.changes.as_slice() {
            [first, ..] => Ok(self.locks.holders(alloc, first)?.len()),
            [] => Err(Refusal::Foreign),
        }
    }

    /// How many objects the record of the transaction shares that noted them in two steps.
    fn shared(&self, alloc: Global) -> Result<usize, Refusal> {
        let noted = self.locks.share_noted(alloc, 8)?;
        let count = noted.get().len();
        drop(noted);
        Ok(count)
    }
}

impl Scenario for Locks {
    type Answer = usize;

    fn call(&mut self, alloc: Global) -> Result<usize, Refusal> {
        match self.ask {
            Ask::Note => {
                let keys = self.asked.keys.copy(alloc)?;
                self.locks.note(alloc, 9, keys, MANY)?;
            }
            Ask::Holders => return self.holders(alloc),
            Ask::PromoteAll => self.locks.promote(alloc, 0)?,
            Ask::Promote => return Ok(promote(alloc, &self.asked.keys, 1)?.len()),
            Ask::Written => return Ok(written(alloc, self.asked.changes.as_slice())?.len()),
            Ask::Covered => return Ok(covered(alloc, self.asked.changes.as_slice())?.len()),
            Ask::Share => return self.shared(alloc),
            Ask::MakeRoom => {
                self.table.make_room(alloc, 7, &self.asked.keys)?;
                return Ok(self.table.held(&self.asked.second).len());
            }
        }
        Ok(self.locks.held(&self.asked.second).len())
    }

    fn is_like(&self, twin: &Locks, alloc: Global) -> Result<bool, Refusal> {
        for number in 0..5i64 {
            let key = key(alloc, number)?;
            if !self.has_holders_of(twin, key) {
                return Ok(false);
            }
        }
        let rows = Object::Rows(Name::new(alloc, "t")?);
        Ok(self.has_holders_of(twin, rows) && are_same_notes(&self.locks, &twin.locks))
    }

    fn is_answer(&self, answer: &usize, _alloc: Global) -> Result<bool, Refusal> {
        Ok(*answer == self.wanted)
    }
}

fn are_same_notes(left: &Sireads, right: &Sireads) -> bool {
    for txn in 6..10u64 {
        let are_same = match (left.noted(txn), right.noted(txn)) {
            (Some(noted), Some(other)) => are_same_objects(noted, other),
            (None, None) => true,
            _ => false,
        };
        if !are_same || left.commit(txn) != right.commit(txn) {
            return false;
        }
    }
    true
}

pub fn play_all(rt: &impl Print, alloc: Global) {
    for (call, ask, wanted) in ASKS {
        let object = Locks::new(alloc, ask, wanted);
        play(rt, alloc, call, object, Locks::new(alloc, ask, wanted));
    }
}
