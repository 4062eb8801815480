//! Read locks.

ghost use Rattle.std.specs.Prelude.{◌≡◌, ◌<◌, ◌≤◌, ℕ, [], true, false, ◌&&◌, not, if◌then◌else◌, length, is_some, IfOk, OnOk, OnErr, MatchOption, nat_eq, min};
ghost use Rattle.rls_value.specs.declared.object.Object.{Object as Read};
ghost use Rattle.std.specs.Option.{option_map};
ghost use Rattle.rls_source.specs.Footprints.{with_reads, is_among, IsInOrder};
ghost use Rattle.rls_siread.specs.Index.{IsIndexed, held_at, locks_of};
ghost use Rattle.rls_siread.specs.Promotion.{noted_with};
ghost use Rattle.rls_siread.specs.Locks.{no_locks, held_by, noted_by, notes_at, objects_in, commit_in, commit_of, marked, noting, with_holders, without, is_number_in, is_reader, is_committed_by, is_left, holders_of, HasNoted, HasCommitted, HasForgotten, HasPromoted};

use crate::alone::{copy_index, forget_old, forget_one, holders_at, note_reads};
use crate::covering::covered_by_one;
use crate::holders::Holders;
use crate::index::Index;
use crate::notes::Noted;
use crate::promotion::{More, is_plain, missing, noted_more, stay_plain};
use rls_catalog::Change;
use rls_source::Footprint;
use rls_value::Object;
use rls_value::shared::Share;
use std::alloc::{AllocError, Global};
use std::collections::BTreeMap;
use std::marker::Model;

/// Read locks: what each transaction noted as read, and who holds each object. They block nobody.
#[derive(Drop)]
pub struct Sireads {
    // Where one transaction alone holds objects, it is this one: they are those that it noted, and the index isn't used.
    alone: Option<u64>,
    index: Index,
    notes: BTreeMap<u64, Noted>,
    // No commit that isn't forgotten has a lower number.
    least: u64,
}

impl Model for Sireads {
    ghost use Rattle.rls_siread.specs.Locks.{Locks};
    ghost use Rattle.rls_siread.specs.Index.{holders_by, locks_by, IsKept};
    ghost use Rattle.rls_siread.specs.LocksCode.{locks_code};

    ghost Value = { Locks };

    ghost coded = { locks_code };

    ghost view = { λ it. locks_by it.alone it.index.holders.entries it.notes.entries };

    // Who holds what is told by the notes.
    ghost invariant = { λ it. IsKept (holders_by it.alone it.index.holders.entries it.notes.entries) it.notes.entries it.least };
}

impl Sireads {
    pub fn new(alloc: Global) -> Sireads
        ensures { result ≡ no_locks }
    {
        Sireads {
            alone: None,
            index: Index::new(alloc),
            notes: BTreeMap::new(alloc),
            least: 0,
        }
    }

    /// The objects that the transaction noted, in order; none where it has noted nothing.
    pub fn noted(&self, txn: u64) -> Option<&Footprint>
        ensures { MatchOption result (noted_by self.now txn ≡ []) (λ objects. objects.now ≡ noted_by self.now txn) }
    {
        match self.notes.get(&txn) {
            Some(noted) => Some(noted.objects()),
            None => None,
        }
    }

    /// The same objects, for the record of the transaction: shared, where it noted them at once.
    pub fn share_noted(&self, alloc: Global, txn: u64) -> Result<Share<Footprint>, AllocError>
        ensures { IfOk result (λ objects. objects ≡ noted_by self.now txn) }
    {
        match self.notes.get(&txn) {
            Some(noted) => noted.share(alloc),
            None => Share::new(alloc, Footprint::new(alloc)),
        }
    }

    /// Who holds an object are those that noted it.
    pub fn stands(&self)
        ensures { (object : Read) (txn : ℕ) → is_number_in (held_by self.now object) txn ≡ is_among (noted_by self.now txn) object }
    {
        let _index = &self.index;
    }

    /// The transactions that hold the object, in the order of their first notes of it.
    pub fn held(&self, object: &Object) -> &[u64]
        ensures { result.now ≡ held_by self.now object.now }
    {
        holders_at(&self.alone, &self.index, &self.notes, object)
    }

    /// The number of the transaction's commit, if it committed and isn't forgotten.
    pub fn commit(&self, txn: u64) -> Option<u64>
        ensures { result ≡ commit_of self.now txn }
    {
        match self.notes.get(&txn) {
            Some(noted) => noted.commit(),
            None => None,
        }
    }

    /// The transactions that hold an object which the change covers, each once: by object in the order of objects, and
    /// within one object in the order of their first notes of it.
    pub fn holders(&self, alloc: Global, change: &Change) -> Result<Vec<u64>, AllocError>
        ensures holders { IfOk result (λ found. found.items ≡ holders_of self.now change.now) }
        ensures readers { IfOk result (λ found. (txn : ℕ) → is_number_in found.items txn ≡ is_reader self.now change.now txn) }
    {
        self.stands();
        let objects = covered_by_one(alloc, change)?;
        let found = self.find_all(alloc, &objects)?;
        Vec::from_slice(alloc, found.as_slice())
    }

    /// The holders of the objects, each once: by object in their order, and within one object in the order of their first
    /// notes of it.
    fn find_all(&self, alloc: Global, objects: &Footprint) -> Result<Holders, AllocError>
        ensures { IfOk result (λ found. found.txns ≡ with_holders self.now.holders [] objects.now) }
    {
        let mut found = Holders::new();
        for object in objects.iter() {
            found.add_all(alloc, self.held(object))?;
        }
        Ok(found)
    }

    /// Notes that the transaction read the objects. Where more than `limit` keys of one table are noted, or all of its
    /// rows, these stand for its keys, also for those noted later. An `Err` leaves all as it was.
    pub fn note(
        &mut self,
        alloc: Global,
        txn: u64,
        footprint: Footprint,
        limit: usize,
    ) -> Result<(), AllocError>
        ensures ok { OnOk result (HasNoted txn (noted_with limit (noted_by self.old txn) footprint) self.old self.new) }
        ensures err { OnErr result (self.new ≡ self.old) }
    {
        note_reads(
            alloc,
            &mut self.alone,
            &mut self.index,
            &mut self.notes,
            txn,
            footprint,
            limit,
        )
    }

    /// Puts the rows of a table in place of its keys wherever a transaction noted more than `limit` of them, in the order of
    /// the transactions' numbers. An `Err` leaves all as it was.
    pub fn promote(&mut self, alloc: Global, limit: usize) -> Result<(), AllocError>
        ensures ok { OnOk result (HasPromoted limit self.old self.new) }
        ensures err { OnErr result (self.new ≡ self.old) }
    {
        let mut index = copy_index(alloc, self.alone, &self.index, &self.notes)?;
        let mut notes = copy_notes(alloc, &self.notes)?;
        promote_all(alloc, &mut index, &mut notes, &self.notes, limit)?;
        self.alone = None;
        self.index = index;
        self.notes = notes;
        Ok(())
    }

    /// The transaction's commit has that number. It holds what it held.
    pub fn committed(&mut self, txn: u64, commit: u64)
        ensures { HasCommitted txn commit self.old self.new }
    {
        mark(&mut self.notes, txn, commit);
        self.least = lesser(self.least, commit);
    }

    /// Drops the transaction and its notes.
    pub fn forget(&mut self, txn: u64)
        ensures { HasForgotten (nat_eq txn) self.old self.new }
    {
        forget_one(self.alone, &mut self.index, &mut self.notes, txn);
    }

    /// Drops the transactions that committed at that number or before, and their notes.
    pub fn forget_before(&mut self, last: u64)
        ensures { HasForgotten (λ txn. is_committed_by last (commit_of self.old txn)) self.old self.new }
    {
        // Most calls find nothing to drop, and go through no notes.
        if self.least <= last {
            forget_old(self.alone, &mut self.index, &mut self.notes, last);
            self.least = last.saturating_add(1);
        }
    }
}

/// Puts the notes of the transaction anew, once more was read. All memory is had before anything changes.
pub(crate) fn renew(
    alloc: Global,
    index: &mut Index,
    notes: &mut BTreeMap<u64, Noted>,
    txn: u64,
    footprint: &Footprint,
    limit: usize,
) -> Result<(), AllocError>
    requires { IsIndexed index.old.holders.entries notes.old.entries }
    ensures indexed { IsIndexed index.new.holders.entries notes.new.entries }
    ensures ok { OnOk result (HasNoted txn (noted_with limit (objects_in (notes_at notes.old.entries txn)) footprint.now) (locks_of index.old.holders.entries notes.old.entries) (locks_of index.new.holders.entries notes.new.entries)) }
    ensures err { OnErr result (locks_of index.new.holders.entries notes.new.entries ≡ locks_of index.old.holders.entries notes.old.entries) }
    ensures commits { (other : ℕ) → commit_in (notes_at notes.new.entries other) ≡ commit_in (notes_at notes.old.entries other) }
{
    // Most statements are the first of their transaction, or read one object that those before it didn't, its key.
    if put_plainly(alloc, index, notes, txn, footprint, limit)?
        || add_plainly(alloc, index, notes, txn, footprint, limit)?
    {
        return Ok(());
    }
    renew_all(alloc, index, notes, txn, footprint, limit)
}

/// Notes the reads of a transaction that has noted nothing, where nothing is promoted; whether it did.
fn put_plainly(
    alloc: Global,
    index: &mut Index,
    notes: &mut BTreeMap<u64, Noted>,
    txn: u64,
    footprint: &Footprint,
    limit: usize,
) -> Result<bool, AllocError>
    requires { IsIndexed index.old.holders.entries notes.old.entries }
    ensures indexed { IsIndexed index.new.holders.entries notes.new.entries }
    ensures done { IfOk result (λ done. done ≡ true → HasNoted txn (noted_with limit (objects_in (notes_at notes.old.entries txn)) footprint.now) (locks_of index.old.holders.entries notes.old.entries) (locks_of index.new.holders.entries notes.new.entries)) }
    ensures left { IfOk result (λ done. done ≡ false → (locks_of index.new.holders.entries notes.new.entries ≡ locks_of index.old.holders.entries notes.old.entries)) }
    ensures err { OnErr result (locks_of index.new.holders.entries notes.new.entries ≡ locks_of index.old.holders.entries notes.old.entries) }
    ensures commits { (other : ℕ) → commit_in (notes_at notes.new.entries other) ≡ commit_in (notes_at notes.old.entries other) }
{
    let Some(noted) = notes.get(&txn) else {
        return Ok(false);
    };
    if noted.objects().len() > 0 || !is_plain(footprint, limit) {
        return Ok(false);
    }
    put_first(alloc, index, notes, txn, footprint)?;
    Ok(true)
}

/// Notes the first reads of a transaction. All memory is had before anything changes.
fn put_first(
    alloc: Global,
    index: &mut Index,
    notes: &mut BTreeMap<u64, Noted>,
    txn: u64,
    footprint: &Footprint,
) -> Result<(), AllocError>
    requires indexed { IsIndexed index.old.holders.entries notes.old.entries }
    requires there { is_some (notes_at notes.old.entries txn) ≡ true }
    requires nothing { objects_in (notes_at notes.old.entries txn) ≡ [] }
    ensures indexed { IsIndexed index.new.holders.entries notes.new.entries }
    ensures ok { OnOk result (HasNoted txn footprint.now (locks_of index.old.holders.entries notes.old.entries) (locks_of index.new.holders.entries notes.new.entries)) }
    ensures err { OnErr result (locks_of index.new.holders.entries notes.new.entries ≡ locks_of index.old.holders.entries notes.old.entries) }
    ensures commits { (other : ℕ) → commit_in (notes_at notes.new.entries other) ≡ commit_in (notes_at notes.old.entries other) }
    ensures ordered { IsInOrder footprint.now }
{
    let _in_order = footprint.iter();
    let objects = footprint.copy(alloc)?;
    index.make_room(alloc, txn, footprint)?;
    index.hold_all(txn, footprint);
    put_at(notes, txn, objects);
    Ok(())
}

/// Puts the first objects that the transaction noted.
fn put_at(notes: &mut BTreeMap<u64, Noted>, txn: u64, objects: Footprint)
    requires { objects_in (notes_at notes.old.entries txn) ≡ [] }
    ensures { IsInOrder objects → (other : ℕ) → notes_at notes.new.entries other ≡ (if nat_eq txn other then option_map (noting objects) (notes_at notes.old.entries other) else notes_at notes.old.entries other) }
{
    match notes.get_mut(&txn) {
        Some(noted) => noted.put(objects),
        None => drop(objects),
    }
}

/// Notes what is fresh of the reads beside what is there, where that is one object at most and nothing is promoted; whether
/// it did.
fn add_plainly(
    alloc: Global,
    index: &mut Index,
    notes: &mut BTreeMap<u64, Noted>,
    txn: u64,
    footprint: &Footprint,
    limit: usize,
) -> Result<bool, AllocError>
    requires { IsIndexed index.old.holders.entries notes.old.entries }
    ensures indexed { IsIndexed index.new.holders.entries notes.new.entries }
    ensures done { IfOk result (λ done. done ≡ true → HasNoted txn (noted_with limit (objects_in (notes_at notes.old.entries txn)) footprint.now) (locks_of index.old.holders.entries notes.old.entries) (locks_of index.new.holders.entries notes.new.entries)) }
    ensures left { IfOk result (λ done. done ≡ false → locks_of index.new.holders.entries notes.new.entries ≡ locks_of index.old.holders.entries notes.old.entries) }
    ensures err { OnErr result (locks_of index.new.holders.entries notes.new.entries ≡ locks_of index.old.holders.entries notes.old.entries) }
    ensures commits { (other : ℕ) → commit_in (notes_at notes.new.entries other) ≡ commit_in (notes_at notes.old.entries other) }
{
    let Some(noted) = notes.get(&txn) else {
        return Ok(false);
    };
    let objects = noted.objects();
    let _in_order = objects.iter();
    let fresh = missing(alloc, footprint, objects)?;
    if !stay_plain(objects, &fresh, limit) {
        return Ok(false);
    }
    add_one(alloc, index, notes, txn, &fresh)?;
    Ok(true)
}

/// Notes one object at most, beside what is there. All memory is had before anything changes.
fn add_one(
    alloc: Global,
    index: &mut Index,
    notes: &mut BTreeMap<u64, Noted>,
    txn: u64,
    fresh: &Footprint,
) -> Result<(), AllocError>
    requires indexed { IsIndexed index.old.holders.entries notes.old.entries }
    requires few { length fresh.now ≤ 1 }
    requires there { is_some (notes_at notes.old.entries txn) ≡ true }
    requires new { (object : Read) → is_among fresh.now object ≡ true → is_among (objects_in (notes_at notes.old.entries txn)) object ≡ false }
    ensures indexed { IsIndexed index.new.holders.entries notes.new.entries }
    ensures ok { OnOk result (HasNoted txn (with_reads (objects_in (notes_at notes.old.entries txn)) fresh.now) (locks_of index.old.holders.entries notes.old.entries) (locks_of index.new.holders.entries notes.new.entries)) }
    ensures err { OnErr result (locks_of index.new.holders.entries notes.new.entries ≡ locks_of index.old.holders.entries notes.old.entries) }
    ensures commits { (other : ℕ) → commit_in (notes_at notes.new.entries other) ≡ commit_in (notes_at notes.old.entries other) }
{
    index.make_room(alloc, txn, fresh)?;
    add_at(alloc, notes, txn, fresh)?;
    index.hold_all(txn, fresh);
    Ok(())
}

/// Puts one object at most among those that the transaction noted.
fn add_at(
    alloc: Global,
    notes: &mut BTreeMap<u64, Noted>,
    txn: u64,
    fresh: &Footprint,
) -> Result<(), AllocError>
    requires { length fresh.now ≤ 1 }
    ensures ok { OnOk result ((other : ℕ) → notes_at notes.new.entries other ≡ (if nat_eq txn other then option_map (noting fresh.now) (notes_at notes.old.entries other) else notes_at notes.old.entries other)) }
    ensures err { OnErr result (notes.new.entries ≡ notes.old.entries) }
{
    match notes.get_mut(&txn) {
        Some(noted) => match noted.add(alloc, fresh) {
            Ok(()) => Ok(()),
            Err(refused) => Err(refused),
        },
        None => Ok(()),
    }
}

/// Puts the notes of the transaction anew, once more was read. All memory is had before anything changes.
fn renew_all(
    alloc: Global,
    index: &mut Index,
    notes: &mut BTreeMap<u64, Noted>,
    txn: u64,
    footprint: &Footprint,
    limit: usize,
) -> Result<(), AllocError>
    requires { IsIndexed index.old.holders.entries notes.old.entries }
    ensures indexed { IsIndexed index.new.holders.entries notes.new.entries }
    ensures ok { OnOk result (HasNoted txn (noted_with limit (objects_in (notes_at notes.old.entries txn)) footprint.now) (locks_of index.old.holders.entries notes.old.entries) (locks_of index.new.holders.entries notes.new.entries)) }
    ensures err { OnErr result (locks_of index.new.holders.entries notes.new.entries ≡ locks_of index.old.holders.entries notes.old.entries) }
    ensures commits { (other : ℕ) → commit_in (notes_at notes.new.entries other) ≡ commit_in (notes_at notes.old.entries other) }
{
    let Renewal {
        noted,
        fresh,
        dropped,
    } = renoted(alloc, notes, txn, footprint, limit)?;
    index.make_room(alloc, txn, &fresh)?;
    notes.insert(txn, noted)?;
    index.hold_all(txn, &fresh);
    index.release_all(txn, &dropped);
    Ok(())
}

/// What a transaction has noted once more was read; which of it is new; and which of its objects it holds no longer.
#[derive(Drop)]
struct Renewal {
    noted: Noted,
    fresh: Footprint,
    dropped: Footprint,
}

fn renoted(
    alloc: Global,
    notes: &BTreeMap<u64, Noted>,
    txn: u64,
    footprint: &Footprint,
    limit: usize,
) -> Result<Renewal, AllocError>
    ensures objects { IfOk result (λ renoted. renoted.noted.objects ≡ noted_with limit (objects_in (notes_at notes.now.entries txn)) footprint.now) }
    ensures commit { IfOk result (λ renoted. renoted.noted.commit ≡ commit_in (notes_at notes.now.entries txn)) }
    ensures fresh { IfOk result (λ renoted. (object : Read) → is_among renoted.fresh object ≡ (is_among renoted.noted.objects object && not (is_among (objects_in (notes_at notes.now.entries txn)) object))) }
    ensures dropped { IfOk result (λ renoted. (object : Read) → is_among renoted.dropped object ≡ (is_among (objects_in (notes_at notes.now.entries txn)) object && not (is_among renoted.noted.objects object))) }
{
    match notes.get(&txn) {
        Some(noted) => {
            let more = noted_more(alloc, noted.objects(), footprint, limit)?;
            Ok(renewal_of(noted.commit(), more))
        }
        None => {
            let nothing = Footprint::new(alloc);
            let more = noted_more(alloc, &nothing, footprint, limit)?;
            Ok(renewal_of(None, more))
        }
    }
}

fn renewal_of(commit: Option<u64>, more: More) -> Renewal
    ensures noted { result.noted ≡ record { commit = commit; objects = more.objects } }
    ensures fresh { result.fresh ≡ more.fresh }
    ensures dropped { result.dropped ≡ more.dropped }
{
    let More {
        objects,
        fresh,
        dropped,
    } = more;
    Renewal {
        noted: Noted::new(commit, objects),
        fresh,
        dropped,
    }
}

/// Copies of the notes of all.
fn copy_notes(
    alloc: Global,
    notes: &BTreeMap<u64, Noted>,
) -> Result<BTreeMap<u64, Noted>, AllocError>
    ensures { IfOk result (λ copied. (txn : ℕ) → notes_at copied.entries txn ≡ notes_at notes.now.entries txn) }
{
    let mut copied = BTreeMap::new(alloc);
    for txn in notes.keys() {
        if let Some(noted) = notes.get(txn) {
            copied.insert(*txn, noted.copy(alloc)?)?;
        }
    }
    Ok(copied)
}

/// Promotes what each has noted, in a copy of the index and of the notes.
fn promote_all(
    alloc: Global,
    index: &mut Index,
    promoted: &mut BTreeMap<u64, Noted>,
    notes: &BTreeMap<u64, Noted>,
    limit: usize,
) -> Result<(), AllocError>
    requires indexed { IsIndexed index.old.holders.entries promoted.old.entries }
    requires same { (txn : ℕ) → notes_at promoted.old.entries txn ≡ notes_at notes.now.entries txn }
    ensures indexed { IsIndexed index.new.holders.entries promoted.new.entries }
    ensures ok { OnOk result (HasPromoted limit (locks_of index.old.holders.entries notes.now.entries) (locks_of index.new.holders.entries promoted.new.entries)) }
{
    let nothing = Footprint::new(alloc);
    for txn in notes.keys() {
        renew(alloc, index, promoted, *txn, &nothing, limit)?;
    }
    Ok(())
}

/// The commit of the transaction has that number.
fn mark(notes: &mut BTreeMap<u64, Noted>, txn: u64, commit: u64)
    ensures { (other : ℕ) → notes_at notes.new.entries other ≡ (if nat_eq txn other then marked commit (notes_at notes.old.entries other) else notes_at notes.old.entries other) }
{
    if let Some(noted) = notes.get_mut(&txn) {
        noted.mark(commit);
    }
}

fn lesser(one: u64, other: u64) -> u64
    ensures { result ≡ min one other }
{
    if one < other { one } else { other }
}

/// Drops the notes of the transaction. It holds nothing then.
pub(crate) fn drop_notes(index: &mut Index, notes: &mut BTreeMap<u64, Noted>, txn: u64)
    requires { IsIndexed index.old.holders.entries notes.old.entries }
    ensures indexed { IsIndexed index.new.holders.entries notes.new.entries }
    ensures gone { HasForgotten (nat_eq txn) (locks_of index.old.holders.entries notes.old.entries) (locks_of index.new.holders.entries notes.new.entries) }
    ensures fewer { is_some (notes_at notes.old.entries txn) ≡ true → length notes.new.entries < length notes.old.entries }
{
    if let Some(noted) = notes.remove(&txn) {
        give_back(index, txn, noted.objects(), notes);
    }
}

/// The transaction, which has no notes any longer, holds none of the objects that it noted.
fn give_back(index: &mut Index, txn: u64, objects: &Footprint, others: &BTreeMap<u64, Noted>)
    requires noted { (object : Read) → is_number_in (held_at index.old.holders.entries object) txn ≡ is_among objects.now object }
    requires alone { others.now.entries ≡ [] → (object : Read) → without (held_at index.old.holders.entries object) txn ≡ [] }
    ensures { (object : Read) → held_at index.new.holders.entries object ≡ without (held_at index.old.holders.entries object) txn }
{
    // Mostly nobody else has noted anything.
    if others.is_empty() {
        index.clear();
        return;
    }
    index.release_all(txn, objects);
}

/// Drops the notes of those that committed at that number or before.
pub(crate) fn drop_committed(index: &mut Index, notes: &mut BTreeMap<u64, Noted>, last: u64)
    requires { IsIndexed index.old.holders.entries notes.old.entries }
    ensures indexed { IsIndexed index.new.holders.entries notes.new.entries }
    ensures gone { HasForgotten (λ txn. is_committed_by last (commit_in (notes_at notes.old.entries txn))) (locks_of index.old.holders.entries notes.old.entries) (locks_of index.new.holders.entries notes.new.entries) }
{
    match first_left(notes, last) {
        Some(_) => drop_each(index, notes, last),
        // Nobody holds anything then.
        None => {
            index.clear();
            notes.clear();
        }
    }
}

/// The first transaction that stays once those are dropped that committed at that number or before.
pub(crate) fn first_left(notes: &BTreeMap<u64, Noted>, last: u64) -> Option<u64>
    ensures { MatchOption result ((txn : ℕ) → is_left last (notes_at notes.now.entries txn) ≡ false) (λ txn. is_left last (notes_at notes.now.entries txn) ≡ true) }
{
    for txn in notes.keys() {
        if is_left(notes, *txn, last) {
            return Some(*txn);
        }
    }
    None
}

/// Whether the transaction stays.
fn is_left(notes: &BTreeMap<u64, Noted>, txn: u64, last: u64) -> bool
    ensures { result ≡ is_left last (notes_at notes.now.entries txn) }
{
    match notes.get(&txn) {
        Some(noted) => !is_by(noted.commit(), last),
        None => false,
    }
}

/// Drops the notes of those that committed at that number or before, one after another.
fn drop_each(index: &mut Index, notes: &mut BTreeMap<u64, Noted>, last: u64)
    requires { IsIndexed index.old.holders.entries notes.old.entries }
    ensures indexed { IsIndexed index.new.holders.entries notes.new.entries }
    ensures gone { HasForgotten (λ txn. is_committed_by last (commit_in (notes_at notes.old.entries txn))) (locks_of index.old.holders.entries notes.old.entries) (locks_of index.new.holders.entries notes.new.entries) }
{
    while let Some(txn) = first_committed(notes, last) {
        drop_notes(index, notes, txn);
    }
}

/// The first transaction that committed at that number or before.
pub(crate) fn first_committed(notes: &BTreeMap<u64, Noted>, last: u64) -> Option<u64>
    ensures { MatchOption result ((txn : ℕ) → is_committed_by last (commit_in (notes_at notes.now.entries txn)) ≡ false) (λ txn. is_committed_by last (commit_in (notes_at notes.now.entries txn)) ≡ true) }
{
    for txn in notes.keys() {
        if is_committed(notes, *txn, last) {
            return Some(*txn);
        }
    }
    None
}

/// Whether the transaction committed at that number or before.
fn is_committed(notes: &BTreeMap<u64, Noted>, txn: u64, last: u64) -> bool
    ensures { result ≡ is_committed_by last (commit_in (notes_at notes.now.entries txn)) }
{
    match notes.get(&txn) {
        Some(noted) => is_by(noted.commit(), last),
        None => false,
    }
}

fn is_by(commit: Option<u64>, last: u64) -> bool
    ensures { result ≡ is_committed_by last commit }
{
    match commit {
        Some(commit) => commit <= last,
        None => false,
    }
}
