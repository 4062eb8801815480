//! Why there is no decision to explain.

ghost use Rattle.rlsdb.specs.Missing.{IsMissing};

use rls_check::Audit;
use std::alloc::Global;

/// What an audit doesn't have of a decision that is to be explained.
#[derive(Clone, Copy)]
pub enum Missing {
    /// Memory doesn't suffice to say.
    Unsaid,
    /// Its order hasn't the transaction.
    Txn,
    /// The transaction hasn't the statement, or the order is none.
    Statement,
    /// The statement has no decision on the row.
    Row,
}

/// What is missing, where the audit has no decision of this statement on the row that is asked for, or no such statement.
pub fn missing_in(alloc: Global, audit: &Audit, txn: u64, statement: u64) -> Missing
    ensures { IsMissing audit.now txn statement result }
{
    if !audit.order().contains(&txn) {
        return Missing::Txn;
    }
    match audit.explain(alloc, txn, statement, None, false) {
        Ok(Some(why)) => {
            drop(why);
            Missing::Row
        }
        Ok(None) => Missing::Statement,
        Err(_) => Missing::Unsaid,
    }
}
