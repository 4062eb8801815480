//! What is known of a transaction.

use rls_catalog::Delta;
use rls_source::Footprint;
use shared_map::Share;
use std::marker::Model;

/// What others can conflict with: a transaction's number, its snapshot, the objects that it noted as read, and its changes.
#[derive(Drop)]
pub struct Transaction {
    pub number: u64,
    /// How many had committed when it began.
    pub snap: usize,
    pub noted: Share<Footprint>,
    pub changes: Delta,
}

impl Model for Transaction {
    ghost use Rattle.rls_conflict.specs.KnownCode.{transaction_code};
    ghost use Rattle.rls_conflict.specs.Transactions.{Transaction};

    ghost Value = { Transaction };

    ghost coded = { transaction_code };

    ghost view = { λ it. record { number = it.number; snap = it.snap; noted = it.noted; changes = it.changes } };
}
