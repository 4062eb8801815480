//! What is kept of a committed transaction for good.

ghost use Rattle.std.specs.Prelude.{◌≡◌, map, IfOk};
ghost use Rattle.rls_core.specs.Posts.{record_of, statement_of, effect_of};

use crate::begin::Begin;
use crate::posted::Posted;
use rls_catalog::Delta;
use rls_catalog::shared_map::Share;
use rls_conflict::Transaction;
use rls_meaning::rls_guard::rls_source::Footprint;
use rls_value::Items;
use std::alloc::AllocError;
use std::marker::Model;

/// A committed transaction: what it began as, its statements with what each came to, and what others can conflict with. Copies
/// share it all.
#[derive(Drop)]
pub struct Record {
    pub(crate) transaction: Share<Transaction>,
    pub(crate) begin: Share<Begin>,
    pub(crate) posts: Share<Items<Share<Posted>>>,
}

impl Model for Record {
    ghost use Rattle.rls_core.specs.Records.{Record};
    ghost use Rattle.rls_core.specs.Codes.{record_code};

    ghost Value = { Record };

    ghost coded = { record_code };

    ghost use Rattle.rls_core.specs.Posts.{record_of};

    ghost view = { λ it. record_of it.transaction it.begin it.posts };
}

impl Record {
    /// The same record, all of it shared.
    pub fn copy(&self) -> Result<Record, AllocError>
        ensures { IfOk result (λ copy. copy ≡ self.now) }
    {
        let transaction = self.transaction.copy()?;
        let begin = self.begin.copy()?;
        Ok(Record {
            transaction,
            begin,
            posts: self.posts.copy()?,
        })
    }

    /// The transaction's number.
    pub fn txn(&self) -> u64
        ensures { result ≡ self.now.txn }
    {
        self.transaction.get().number
    }

    /// How many had committed when it began.
    pub fn snap(&self) -> usize
        ensures { result ≡ self.now.snap }
    {
        self.transaction.get().snap
    }

    /// What it began as.
    pub fn begin(&self) -> &Begin
        ensures { result.now ≡ self.now.begin }
    {
        self.begin.get()
    }

    /// Its statements, each with what it came to.
    pub fn posts(&self) -> &[Share<Posted>]
        ensures statements { map statement_of result.now ≡ self.now.statements }
        ensures effects { map effect_of result.now ≡ self.now.effects }
    {
        self.posts.get().as_slice()
    }

    /// The changes of its statements, one behind the other.
    pub fn changes(&self) -> &Delta
        ensures { result.now ≡ self.now.changes }
    {
        &self.transaction.get().changes
    }

    /// The objects that it noted as read.
    pub fn noted(&self) -> &Footprint
        ensures { result.now ≡ self.now.noted }
    {
        self.transaction.get().noted.get()
    }
}
