//! An order of those that committed.

ghost use Rattle.std.specs.Prelude.{◌≡◌, ◌<◌, ◌&&◌, ◌||◌, ℕ, true, false, nat_eq, length, slice_get, IfOk, IfSome, OnOk, MatchOption};
ghost use Rattle.rls_history.specs.History.{History};
ghost use Rattle.rls_history.specs.Structures.{NoStructureBelow};
ghost use Rattle.rls_history.specs.Orders.{IsHistory, IsNext, IsOrder, IsFirstLeft, IsReaderLeft, NoReaderLeft, none_placed};
ghost use Rattle.rls_conflict.specs.Transactions.{history_of};
ghost use Rattle.rls_conflict.specs.Commits.{CanBeOrdered, is_place_in};
ghost use Rattle.rls_conflict.specs.Kept.{AreEntries, all_committed};
ghost use Rattle.rls_conflict.specs.Ordering.{placed_in, list_at, is_listed, AreListed, AreWithin, IsFirst, readers_in};

use crate::committed::Committed;
use crate::conflicts::Conflicts;
use rls_history::orders_are_made;
use std::alloc::{AllocError, Global};
use std::marker::Model;

impl Conflicts {
    /// An order of those that committed that keeps `before` and `rw`, by their places.
    pub fn order(&self, alloc: Global) -> Result<Vec<usize>, AllocError>
        requires { CanBeOrdered self.now.committed }
        ensures { IfOk result (λ order. IsOrder (history_of self.now.committed) order.items) }
    {
        ordered(alloc, self.committed.as_slice())
    }
}

/// Those that read from one transaction and may be left, by their places, the least last.
#[derive(Drop)]
struct Readers {
    places: Vec<usize>,
}

impl Model for Readers {
    ghost use Rattle.std.specs.Prelude.{ℕ, List};
    ghost use Rattle.std.specs.Coded.{coded_list, coded_ℕ};

    ghost Value = { List ℕ };

    ghost coded = { coded_list coded_ℕ };

    ghost view = { λ it. it.places.items };
}

/// Of those left, the first in the order of commits is next; but before it the least that read from it, and before that one the
/// least that read from that.
fn ordered(alloc: Global, committed: &[Committed]) -> Result<Vec<usize>, AllocError>
    requires entries { AreEntries committed.now }
    requires may { CanBeOrdered (all_committed committed.now) }
    ensures { IfOk result (λ order. IsOrder (history_of (all_committed committed.now)) order.items) }
{
    orders_are_made();
    let mut lists = readers_of_all(alloc, committed)?;
    let mut placed = Vec::new(alloc);
    placed.resize(committed.len(), false)?;
    let mut order = Vec::new(alloc);
    let mut from = 0;
    while let Some(first) = first_left(placed.as_slice(), from) {
        let next = next_in_turn(&mut lists, placed.as_slice(), first);
        order.push(next)?;
        placed[next] = true;
        from = first;
    }
    Ok(order)
}

/// The first that isn't placed.
fn first_left(placed: &[bool], from: usize) -> Option<usize>
    requires { (i : ℕ) → i < from → placed_in placed.now i ≡ true }
    ensures { MatchOption result ((i : ℕ) → i < length placed.now → placed_in placed.now i ≡ true) (IsFirst placed.now) }
{
    for place in from..placed.len() {
        if !placed[place] {
            return Some(place);
        }
    }
    None
}

/// The next in turn, where this is the first that isn't placed.
fn next_in_turn(lists: &mut Vec<Readers>, placed: &[bool], first: usize) -> usize
    requires size { length placed.now ≡ length lists.old.items }
    requires within { AreWithin (length placed.now) lists.old.items }
    requires first { first < length placed.now }
    ensures kept { (h : History) → AreListed h (placed_in placed.now) lists.old.items → AreListed h (placed_in placed.now) lists.new.items }
    ensures next { (h : History) → IsHistory h → NoStructureBelow h h.count → AreListed h (placed_in placed.now) lists.old.items → IsFirstLeft h (placed_in placed.now) first → IsNext h (placed_in placed.now) result }
{
    orders_are_made();
    let Some(second) = reader_left(lists, placed, first) else {
        return first;
    };
    match reader_left(lists, placed, second) {
        Some(third) => third,
        None => second,
    }
}

/// The least that isn't placed and read from the one at the place.
fn reader_left(lists: &mut Vec<Readers>, placed: &[bool], place: usize) -> Option<usize>
    requires size { length placed.now ≡ length lists.old.items }
    requires within { AreWithin (length placed.now) lists.old.items }
    requires place { place < length placed.now }
    ensures reader { IfSome result (λ reader. reader < length placed.now) }
    ensures size { length lists.new.items ≡ length lists.old.items }
    ensures within { AreWithin (length placed.now) lists.new.items }
    ensures kept { (h : History) → AreListed h (placed_in placed.now) lists.old.items → AreListed h (placed_in placed.now) lists.new.items }
    ensures found { (h : History) → AreListed h (placed_in placed.now) lists.old.items → MatchOption result (NoReaderLeft h (placed_in placed.now) place) (IsReaderLeft h (placed_in placed.now) place) }
{
    let readers = &mut lists[place];
    last_left(&mut readers.places, placed)
}

/// The last that isn't placed; those behind it are dropped. In falling order it is the least.
fn last_left(readers: &mut Vec<usize>, placed: &[bool]) -> Option<usize>
    requires { (reader : ℕ) → is_place_in readers.old.items reader ≡ true → reader < length placed.now }
    ensures within { IfSome result (λ reader. reader < length placed.now) }
    ensures only { (reader : ℕ) → is_place_in readers.new.items reader ≡ true → is_place_in readers.old.items reader ≡ true }
    ensures left { (reader : ℕ) → is_place_in readers.old.items reader ≡ true → placed_in placed.now reader ≡ false → is_place_in readers.new.items reader ≡ true }
    ensures found { MatchOption result ((reader : ℕ) → is_place_in readers.old.items reader ≡ true → placed_in placed.now reader ≡ true) (λ reader. (is_place_in readers.old.items reader ≡ true) × (placed_in placed.now reader ≡ false)) }
{
    while let Some(reader) = readers.last() {
        let reader = *reader;
        if !placed[reader] {
            return Some(reader);
        }
        readers.pop();
    }
    None
}

/// For each that committed the list of all that read from it, in falling order.
fn readers_of_all(alloc: Global, committed: &[Committed]) -> Result<Vec<Readers>, AllocError>
    requires { AreEntries committed.now }
    ensures { IfOk result (λ lists. AreListed (history_of (all_committed committed.now)) none_placed lists.items) }
{
    let mut lists = earlier_readers(alloc, committed)?;
    for place in 0..committed.len() {
        add_reader(&mut lists, committed[place].read.as_slice(), place)?;
    }
    put_least_last(&mut lists);
    Ok(lists)
}

/// For each that committed the list of those before it that read from it.
fn earlier_readers(alloc: Global, committed: &[Committed]) -> Result<Vec<Readers>, AllocError>
    ensures size { IfOk result (λ lists. length lists.items ≡ length committed.now) }
    ensures lists { IfOk result (λ lists. (place : ℕ) → list_at lists.items place ≡ readers_in (slice_get committed.now place)) }
{
    let mut lists = Vec::new(alloc);
    for it in committed {
        lists.push(Readers {
            places: Vec::from_slice(alloc, it.readers.as_slice())?,
        })?;
    }
    Ok(lists)
}

/// Puts the reader into the list of each that it read from.
fn add_reader(lists: &mut Vec<Readers>, read: &[usize], reader: usize) -> Result<(), AllocError>
    requires { (place : ℕ) → is_place_in read.now place ≡ true → place < length lists.old.items }
    ensures size { length lists.new.items ≡ length lists.old.items }
    ensures ok { OnOk result ((place other : ℕ) → is_listed lists.new.items place other ≡ (is_listed lists.old.items place other || (nat_eq other reader && is_place_in read.now place))) }
{
    for place in read {
        let list = &mut lists[*place];
        list.places.push(reader)?;
    }
    Ok(())
}

/// Puts each list in falling order.
fn put_least_last(lists: &mut Vec<Readers>)
    ensures size { length lists.new.items ≡ length lists.old.items }
    ensures same { (place reader : ℕ) → is_listed lists.new.items place reader ≡ is_listed lists.old.items place reader }
{
    for place in 0..lists.len() {
        let list = &mut lists[place];
        list.places.sort_unstable();
        list.places.reverse();
    }
}
