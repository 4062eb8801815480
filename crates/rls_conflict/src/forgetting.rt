//! What the indexes needn't know any longer.

ghost use Rattle.std.specs.Prelude.{◌≡◌, ◌≤◌, ℕ, not, ◌&&◌, nat_eq, length};
ghost use Rattle.std.specs.Map.{values_of};
ghost use Rattle.rls_value.specs.declared.object.Object.{Object as Written};
ghost use Rattle.rls_source.specs.Footprints.{is_among};
ghost use Rattle.rls_siread.specs.Locks.{is_number_in};
ghost use Rattle.rls_siread.specs.Index.{held_at};
ghost use Rattle.rls_conflict.specs.Begun.{least_snap};
ghost use Rattle.rls_conflict.specs.Kept.{IsReleased};

use crate::committed::Committed;
use crate::running::Running;
use rls_siread::LockTable;
use std::collections::BTreeMap;

/// How many had committed before all that run began.
pub(crate) fn oldest(running: &BTreeMap<u64, Running>, commits: usize) -> usize
    ensures { result ≡ least_snap commits (values_of running.now.entries) }
{
    let mut least = commits;
    for it in running.values() {
        least = least.min(it.snap());
    }
    least
}

/// Those that committed at those places hold no object that they covered.
pub(crate) fn release_old(committed: &[Committed], writers: &mut LockTable, from: usize, to: usize)
    requires ordered { from ≤ to }
    requires within { to ≤ length committed.now }
    ensures { IsReleased committed.now from to writers.old writers.new }
{
    for place in from..to {
        release_one(writers, &committed[place]);
    }
}

/// One that committed holds no object that it covered.
fn release_one(writers: &mut LockTable, it: &Committed)
    ensures { (object : Written) (txn : ℕ) → is_number_in (held_at writers.new object) txn ≡ (not (nat_eq txn it.now.transaction.number && is_among it.now.covered object) && is_number_in (held_at writers.old object) txn) }
{
    writers.release_all(it.transaction.get().number, &it.covered);
}
