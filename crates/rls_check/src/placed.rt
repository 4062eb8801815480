//! Where a transaction stands in its audit.

ghost use Rattle.std.specs.Prelude.{◌≡◌, ◌<◌, length, IfOk, IfSome};
ghost use Rattle.rls_check.specs.Audited.{transaction_at as spec_transaction_at};
ghost use Rattle.rls_check.specs.Placed as spec;

use crate::audit::Audit;
use crate::ordering::transaction_at;
use crate::stored::Stored;
use rls_value::Name;
use std::alloc::{AllocError, Global};

/// Who ran a transaction, and where it stands.
#[derive(Drop)]
pub struct Placed {
    pub login: Name,
    /// The number of its commit.
    pub commit: u64,
    /// Its place in the serial order, from 1.
    pub place: u64,
    /// How many there are.
    pub count: u64,
}

impl Audit {
    /// Where the transaction of that number stands; none where there is none.
    pub fn placed(&self, alloc: Global, txn: u64) -> Result<Option<Placed>, AllocError>
        ensures { IfOk result (λ placed. placed ≡ spec.placed_in self.now.transactions self.now.order txn) }
    {
        let transactions = self.transactions.as_slice();
        let numbers = self.order.as_slice();
        match commit_of(transactions, txn) {
            Some(commit) => match place_of(numbers, txn) {
                Some(place) => {
                    let login = login_of(alloc, transactions, commit)?;
                    Ok(Some(Placed {
                        login,
                        commit: commit as u64 + 1,
                        place: place as u64 + 1,
                        count: numbers.len() as u64,
                    }))
                }
                None => Ok(None),
            },
            None => Ok(None),
        }
    }
}

/// The place of the first transaction of that number in the order of commits, from 0.
fn commit_of(transactions: &[Stored], txn: u64) -> Option<usize>
    ensures found { result ≡ spec.commit_from 0 transactions.now txn }
    ensures within { IfSome result (λ place. place < length transactions.now) }
{
    for (place, stored) in transactions.iter().enumerate() {
        if stored.txn() == txn {
            return Some(place);
        }
    }
    None
}

/// The first place of the number.
fn place_of(numbers: &[u64], txn: u64) -> Option<usize>
    ensures found { result ≡ spec.place_from 0 numbers.now txn }
    ensures within { IfSome result (λ place. place < length numbers.now) }
{
    for (place, number) in numbers.iter().enumerate() {
        if *number == txn {
            return Some(place);
        }
    }
    None
}

/// Who the transaction at the place began as.
fn login_of(alloc: Global, transactions: &[Stored], place: usize) -> Result<Name, AllocError>
    requires { place < length transactions.now }
    ensures { IfOk result (λ login. login ≡ (spec_transaction_at transactions.now place).begin.login) }
{
    let transaction = transaction_at(transactions, place).read(alloc)?;
    let login = transaction.begin.login.copy();
    drop(transaction);
    login
}
