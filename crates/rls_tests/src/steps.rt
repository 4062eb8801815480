//! Steps of transactions as plain data, and what takes them.

use crate::objects::{Made, Part, delta_of, footprint_of};
use crate::states::says;
use rls_catalog::Delta;
use rls_conflict::Conflicts;
use rls_source::Footprint;
use rls_value::Refusal;
use std::alloc::{AllocError, Global};

/// The keys of one table that a transaction notes before its rows stand for them.
const MANY: usize = 256;

/// A step, of the transaction of a number.
#[derive(Clone, Copy)]
pub enum Step {
    Begin(u64),
    Read(u64, Part),
    Make(u64, Made),
    /// It commits, and its commit has this number.
    Commit(u64, usize),
    /// All notes are promoted.
    Promote,
}

/// Whether all steps are taken, then those behind them, and each commit has its number.
pub fn are_taken(alloc: Global, steps: &[Step], then: &[Step]) -> bool {
    let mut conflicts = Conflicts::new(alloc);
    let taken = takes(&mut conflicts, alloc, steps, then);
    drop(conflicts);
    taken
}

/// Whether the steps are taken, and the last one, behind them, is refused with the text.
pub fn is_refused(alloc: Global, steps: &[Step], then: &[Step], last: Step, text: &str) -> bool {
    let mut conflicts = Conflicts::new(alloc);
    let is = takes(&mut conflicts, alloc, steps, then)
        && refuses(&mut conflicts, alloc, last, text);
    drop(conflicts);
    is
}

fn takes(conflicts: &mut Conflicts, alloc: Global, steps: &[Step], then: &[Step]) -> bool {
    says(take(conflicts, alloc, steps), true) && says(take(conflicts, alloc, then), true)
}

fn take(conflicts: &mut Conflicts, alloc: Global, steps: &[Step]) -> Result<bool, Refusal> {
    for step in steps {
        if !is_taken(conflicts, alloc, *step)? {
            return Ok(false);
        }
    }
    Ok(true)
}

fn refuses(conflicts: &mut Conflicts, alloc: Global, step: Step, text: &str) -> bool {
    match is_taken(conflicts, alloc, step) {
        Ok(_) => false,
        Err(refusal) => is_printed(alloc, refusal, text),
    }
}

fn is_printed(alloc: Global, refusal: Refusal, text: &str) -> bool {
    let printed = refusal.to_string(alloc);
    drop(refusal);
    match printed {
        Ok(printed) => printed.as_str() == text,
        Err(AllocError) => false,
    }
}

/// Whether it may be asked, and comes to what it says.
fn is_taken(conflicts: &mut Conflicts, alloc: Global, step: Step) -> Result<bool, Refusal> {
    match step {
        Step::Begin(txn) => begins(conflicts, alloc, txn),
        Step::Read(txn, part) => reads(conflicts, alloc, txn, part),
        Step::Make(txn, made) => makes(conflicts, alloc, txn, made),
        Step::Commit(txn, number) => commits(conflicts, alloc, txn, number),
        Step::Promote => promotes(conflicts, alloc),
    }
}

fn begins(conflicts: &mut Conflicts, alloc: Global, txn: u64) -> Result<bool, Refusal> {
    if conflicts.is_new(txn) {
        conflicts.begin(alloc, txn)?;
        Ok(true)
    } else {
        Ok(false)
    }
}

fn reads(conflicts: &mut Conflicts, alloc: Global, txn: u64, part: Part) -> Result<bool, Refusal> {
    let footprint = footprint_of(alloc, part)?;
    let delta = Delta::new(alloc);
    let posted = posts(conflicts, alloc, txn, footprint, &delta);
    drop(delta);
    posted
}

fn makes(conflicts: &mut Conflicts, alloc: Global, txn: u64, made: Made) -> Result<bool, Refusal> {
    let delta = delta_of(alloc, made)?;
    let footprint = Footprint::new(alloc);
    let posted = posts(conflicts, alloc, txn, footprint, &delta);
    drop(delta);
    posted
}

fn posts(
    conflicts: &mut Conflicts,
    alloc: Global,
    txn: u64,
    footprint: Footprint,
    delta: &Delta,
) -> Result<bool, Refusal> {
    if conflicts.is_running(txn) {
        conflicts.post(alloc, txn, footprint, delta, MANY)?;
        Ok(true)
    } else {
        drop(footprint);
        Ok(false)
    }
}

fn commits(
    conflicts: &mut Conflicts,
    alloc: Global,
    txn: u64,
    number: usize,
) -> Result<bool, Refusal> {
    if conflicts.is_running(txn) {
        Ok(conflicts.commit(alloc, txn)? == number)
    } else {
        Ok(false)
    }
}

fn promotes(conflicts: &mut Conflicts, alloc: Global) -> Result<bool, Refusal> {
    conflicts.promote(alloc, 0)?;
    Ok(true)
}
