//! A transaction of an audit, kept as the text of its line.

ghost use Rattle.rls_check.specs.Stored.{IsLineWith, tells_one};

use crate::form::read_as;
use crate::keeping::kept;
use crate::transaction::Transaction;
use rls_audit::{Line, Shown};
use rls_value::Text;
use std::alloc::{AllocError, Global};
use std::marker::Model;
use std::str;

/// A transaction, of which the text of its line is kept: what its statements are parsed to takes several times as much memory.
#[derive(Drop)]
pub(crate) struct Stored {
    second: bool,
    text: Text,
    txn: u64,
    snap: u64,
    ghost tells: { IsLineWith second text txn snap } by { tells_one second text txn snap },
}

impl Model for Stored {
    ghost use Rattle.rls_check.specs.declared.transaction.Transaction.{Transaction};
    ghost use Rattle.rls_check.specs.contracts.transaction.Transaction as transaction;

    ghost Value = { Transaction };

    ghost coded = { transaction.the_row.coded };

    ghost view = { λ it. it.tells.0 };
}

impl Stored {
    ghost use Rattle.std.specs.Prelude.{◌≡◌, IfOk, IsUtf8};
    ghost use Rattle.rls_audit.specs.rls_audit_lines.specs.Reading.{MeansLine};
    ghost use Rattle.rls_audit.specs.rls_audit_lines.specs.declared.lines.Line.TheVariants.{Txn};
    ghost use Rattle.rls_check.specs.Keeping.{Keeps};

    /// The transaction that the text shows, which was read as such a line of the format.
    pub(crate) fn new(
        alloc: Global,
        second: bool,
        text: &[u8],
        shown: &Shown,
    ) -> Result<Stored, AllocError>
        requires utf8 { IsUtf8 text.now }
        requires means { MeansLine second text.now (Txn shown.now) }
        ensures { IfOk result (Keeps shown.now) }
    {
        match str::from_utf8(text) {
            Ok(text) => Ok(Stored {
                second,
                text: Text::new(alloc, text)?,
                txn: shown.txn,
                snap: shown.snap,
            }),
            Err(_) => Err(AllocError),
        }
    }

    pub(crate) fn txn(&self) -> u64
        ensures { result ≡ self.now.txn }
    {
        self.txn
    }

    /// How many had committed when it began.
    pub(crate) fn snap(&self) -> u64
        ensures { result ≡ self.now.snap }
    {
        self.snap
    }

    /// The transaction, read again from its line; that fails for want of memory alone.
    pub(crate) fn read(&self, alloc: Global) -> Result<Transaction, AllocError>
        ensures { IfOk result (λ it. it ≡ self.now) }
    {
        match read_as(alloc, self.second, 0, self.text.as_str()) {
            Ok(Line::Txn(shown)) => match kept(alloc, shown) {
                Ok(transaction) => Ok(transaction),
                Err(refusal) => {
                    drop(refusal);
                    Err(AllocError)
                }
            },
            Ok(line) => {
                drop(line);
                Err(AllocError)
            }
            Err(refusal) => {
                drop(refusal);
                Err(AllocError)
            }
        }
    }
}
