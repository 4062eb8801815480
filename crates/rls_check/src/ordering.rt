//! Whether numbers are an order of the transactions that puts each after those that had committed when it began.

ghost use Rattle.std.specs.Prelude.{◌≡◌, ◌<◌, ◌≤◌, ◌++◌, ◌∷◌, [], true, false, length, get_or, set, ℕ, IfOk, IfSome, IfNone, OnOk};
ghost use Rattle.std.specs.List.{All};
ghost use Rattle.rls_check.specs.Audited.{transaction_at};
ghost use Rattle.rls_check.specs.Checking.{IsNoOrder, IsPlaced, numbers_of};
ghost use Rattle.rls_check.specs.Placing.{AreApart, HasToWait, IsIndex, IsPlacing};

use crate::stored::Stored;
use std::alloc::{AllocError, Global};
use std::collections::BTreeMap;

/// The transactions that are placed.
#[derive(Drop)]
struct Placing {
    /// Of each transaction, whether it is placed.
    placed: Vec<bool>,
    /// All below are placed; this one isn't, if there is one.
    left: usize,
    /// The places of those that are placed, in order.
    places: Vec<usize>,
}

/// The places of the transactions that the numbers name; none where they are no order of all of them, or put one before one
/// that had committed when it began.
#[tactic(auto, using(crate::proofs::PlacingLemmas::doubled_no_order))]
pub(crate) fn places_of(
    alloc: Global,
    transactions: &[Stored],
    order: &[u64],
) -> Result<Option<Vec<usize>>, AllocError>
    ensures placed { IfOk result (λ found. IfSome found (λ places. IsPlaced transactions.now order.now places.items)) }
    ensures none { IfOk result (λ found. IfNone found (IsNoOrder transactions.now order.now)) }
{
    match index_of(alloc, transactions)? {
        Some(index) => places_by(alloc, transactions, &index, order),
        None => Ok(None),
    }
}

/// The same, with the places of the numbers.
fn places_by(
    alloc: Global,
    transactions: &[Stored],
    index: &BTreeMap<u64, usize>,
    order: &[u64],
) -> Result<Option<Vec<usize>>, AllocError>
    requires { IsIndex transactions.now (length transactions.now) index.now }
    ensures placed { IfOk result (λ found. IfSome found (λ places. IsPlaced transactions.now order.now places.items)) }
    ensures none { IfOk result (λ found. IfNone found (IsNoOrder transactions.now order.now)) }
{
    let mut placing = Placing::new(alloc, transactions.len())?;
    for number in order {
        if !place_next(transactions, index, &mut placing, *number)? {
            return Ok(None);
        }
    }
    if placing.left < transactions.len() {
        return Ok(None);
    }
    Ok(Some(placing.into_places()))
}

/// The place of each number; none where a number is used twice.
#[tactic(auto, using(crate::proofs::PlacingLemmas::one_more))]
fn index_of(
    alloc: Global,
    transactions: &[Stored],
) -> Result<Option<BTreeMap<u64, usize>>, AllocError>
    ensures index { IfOk result (λ found. IfSome found (IsIndex transactions.now (length transactions.now))) }
    ensures none { IfOk result (λ found. IfNone found (¬ AreApart transactions.now)) }
{
    let mut index = BTreeMap::new(alloc);
    for (place, transaction) in transactions.iter().enumerate() {
        let txn = transaction.txn();
        if index.contains_key(&txn) {
            return Ok(None);
        }
        index.insert(txn, place)?;
    }
    Ok(Some(index))
}

/// Places the transaction of that number, if it may stand next.
#[tactic(auto, using(crate::proofs::PlacingLemmas::numbers_push))]
fn place_next(
    transactions: &[Stored],
    index: &BTreeMap<u64, usize>,
    placing: &mut Placing,
    number: u64,
) -> Result<bool, AllocError>
    requires index { IsIndex transactions.now (length transactions.now) index.now }
    requires placing { IsPlacing transactions.now placing.old.placed.items placing.old.left placing.old.places.items }
    ensures placing { IfOk result (λ went. went ≡ true → IsPlacing transactions.now placing.new.placed.items placing.new.left placing.new.places.items) }
    ensures waits { IfOk result (λ went. went ≡ false → HasToWait transactions.now placing.old.placed.items placing.old.left number) }
    ensures named { IfOk result (λ went. went ≡ true → numbers_of transactions.now placing.new.places.items ≡ numbers_of transactions.now placing.old.places.items ++ number ∷ []) }
{
    match next_place(transactions, index, placing, number) {
        Some(place) => {
            placing.place(transactions, place)?;
            Ok(true)
        }
        None => Ok(false),
    }
}

/// The place of the transaction of that number, if it may stand next.
fn next_place(
    transactions: &[Stored],
    index: &BTreeMap<u64, usize>,
    placing: &Placing,
    number: u64,
) -> Option<usize>
    requires index { IsIndex transactions.now (length transactions.now) index.now }
    requires size { length placing.now.placed.items ≡ length transactions.now }
    ensures within { IfSome result (λ place. place < length transactions.now) }
    ensures number { IfSome result (λ place. (transaction_at transactions.now place).txn ≡ number) }
    ensures is_left { IfSome result (λ place. get_or placing.now.placed.items place false ≡ false) }
    ensures snap { IfSome result (λ place. (transaction_at transactions.now place).snap ≤ placing.now.left) }
    ensures none { IfNone result (HasToWait transactions.now placing.now.placed.items placing.now.left number) }
{
    let place = *index.get(&number)?;
    if placing.placed[place] || transaction_at(transactions, place).snap() > placing.left as u64 {
        return None;
    }
    Some(place)
}

/// The transaction at the place.
#[tactic(auto, using(std::proofs::lemmas::List::get_or_read))]
pub(crate) fn transaction_at(transactions: &[Stored], place: usize) -> &Stored
    requires { place < length transactions.now }
    ensures { result.now ≡ transaction_at transactions.now place }
{
    &transactions[place]
}

impl Placing {
    /// None is placed.
    fn new(alloc: Global, count: usize) -> Result<Placing, AllocError>
        ensures size { IfOk result (λ placing. length placing.placed.items ≡ count) }
        ensures none { IfOk result (λ placing. All (λ placed. placed ≡ false) placing.placed.items) }
        ensures left { IfOk result (λ placing. placing.left ≡ 0) }
        ensures places { IfOk result (λ placing. placing.places.items ≡ []) }
    {
        let mut placed = Vec::with_capacity(alloc, count)?;
        for i in 0..count {
            let _count = i;
            placed.push(false)?;
        }
        Ok(Placing {
            placed,
            left: 0,
            places: Vec::new(alloc),
        })
    }

    /// Places the transaction.
    #[tactic(auto, using(crate::proofs::PlacingLemmas::goes_on))]
    fn place(&mut self, transactions: &[Stored], place: usize) -> Result<(), AllocError>
        requires placing { IsPlacing transactions.now self.old.placed.items self.old.left self.old.places.items }
        requires within { place < length transactions.now }
        requires is_left { get_or self.old.placed.items place false ≡ false }
        requires snap { (transaction_at transactions.now place).snap ≤ self.old.left }
        ensures placing { OnOk result (IsPlacing transactions.now self.new.placed.items self.new.left self.new.places.items) }
        ensures places { OnOk result (self.new.places.items ≡ self.old.places.items ++ place ∷ []) }
    {
        self.places.push(place)?;
        self.placed[place] = true;
        self.left = first_left(self.placed.as_slice(), self.left);
        Ok(())
    }

    fn into_places(self) -> Vec<usize>
        ensures { result ≡ self.places }
    {
        let Placing {
            placed,
            left: _,
            places,
        } = self;
        drop(placed);
        places
    }
}

/// The first that isn't placed, from this one on; all below it are.
fn first_left(placed: &[bool], from: usize) -> usize
    requires { (i : ℕ) → i < from → get_or placed.now i false ≡ true }
    ensures before { (i : ℕ) → i < result → get_or placed.now i false ≡ true }
    ensures is_left { result < length placed.now → get_or placed.now result false ≡ false }
{
    for left in from..placed.len() {
        if !placed[left] {
            return left;
        }
    }
    placed.len()
}
