//! What ties an engine, its transactions and its receipts together.

ghost use Rattle.std.specs.Prelude.{◌≡◌};

use crate::commit::Commit;
use crate::step::Step;
use boxcar::Vec as Shared;
use std::alloc::{AllocError, Global};
use std::marker::Brand;
use std::sync::ledger::{Blank, Ledger};

/// Names a vector of commits, a vector of steps and a ledger of commits, and says what is known of each statement that is run.
/// `Brand` stands for any.
pub trait Named: Ledger {
    ghost use Rattle.boxcar.specs.Table.{Shelves};
    ghost use Rattle.rls_statement.specs.declared.statement.Statement.{Statement};

    /// The vector of commits.
    ghost commits: { Shelves };

    /// The vector of the steps of transactions.
    ghost steps: { Shelves };

    /// What is known of each statement that is run.
    ghost asks: { Statement → Type 0 };
}

impl Named for Brand {
    ghost use Rattle.std.specs.Prelude.{[]};

    ghost commits = { record { tag = []; buckets = [] } };

    ghost steps = { record { tag = []; buckets = [] } };

    ghost asks = { λ _. Unit {0} };
}

/// Two empty vectors and an empty ledger, which have no name yet.
#[derive(Drop)]
pub struct Records {
    pub(crate) commits: Shared<Commit>,
    pub(crate) steps: Shared<Step>,
    pub(crate) blank: Blank,
    pub ghost wide: { blank.parts ≡ 18446744073709551615 },
}

impl Records {
    pub fn new(alloc: Global) -> Result<Records, AllocError> {
        let commits = Shared::new(alloc)?;
        match Shared::new(alloc) {
            Ok(steps) => Ok(Records {
                commits,
                steps,
                blank: Blank::new(u64::MAX),
            }),
            Err(refused) => {
                drop(commits);
                Err(refused)
            }
        }
    }
}
