//! Checks an audit.

ghost use Rattle.std.specs.Prelude.{◌≡◌, ◌↔◌, IfOk};
ghost use Rattle.rls_history.specs.Orders.{IsOrder};
ghost use Rattle.rls_audit.specs.Audits.{AuditHolds};
ghost use Rattle.rls_check.specs.Audited.{lines_of};
ghost use Rattle.rls_check.specs.Checking.{IsFirst, IsFoundAlong, history_of};
ghost use Rattle.rls_check.specs.declared.finding.Finding.TheVariants.{Holds};

use crate::audit::Audit;
use crate::finding::Finding;
use crate::ordering::places_of;
use crate::progress::{Progress, Silent};
use crate::running::{RanAlong, run_along};
use crate::stored::Stored;
use rls_agreement::Committing;
use rls_explain::rls_guard::rls_source::uncovered_stays;
use std::alloc::{AllocError, Global};

impl Audit {
    /// What is found first along the order: that the audit holds, or the order, the reply or the decisions of a statement, the
    /// changes of a transaction, or the final state.
    pub fn check(&self, alloc: Global) -> Result<Finding, AllocError>
        ensures first { IfOk result (IsFirst self.now.transactions self.now.order) }
        ensures exactly { IfOk result (λ found. (found ≡ Holds) ↔ AuditHolds (lines_of self.now.transactions self.now.order)) }
    {
        self.check_telling(alloc, &mut Silent)
    }

    /// The same, while it tells how many transactions were run.
    #[tactic(auto, using(crate::proofs::FirstLemmas::exactly_held))]
    pub fn check_telling<P: Progress>(
        &self,
        alloc: Global,
        progress: &mut P,
    ) -> Result<Finding, AllocError>
        ensures first { IfOk result (IsFirst self.now.transactions self.now.order) }
        ensures exactly { IfOk result (λ found. (found ≡ Holds) ↔ AuditHolds (lines_of self.now.transactions self.now.order)) }
    {
        uncovered_stays();
        let transactions = self.transactions.as_slice();
        first_found(alloc, transactions, self.order.as_slice(), progress)
    }
}

/// What is found first.
#[tactic(auto, using(crate::proofs::FirstLemmas::first_along, crate::proofs::FirstLemmas::first_none))]
fn first_found<P: Progress>(
    alloc: Global,
    transactions: &[Stored],
    order: &[u64],
    progress: &mut P,
) -> Result<Finding, AllocError>
    ensures { IfOk result (IsFirst transactions.now order.now) }
{
    match places_of(alloc, transactions, order)? {
        Some(places) => check_along(alloc, transactions, places.as_slice(), progress),
        None => Ok(Finding::Order),
    }
}

/// What is found along the order.
fn check_along<P: Progress>(
    alloc: Global,
    transactions: &[Stored],
    places: &[usize],
    progress: &mut P,
) -> Result<Finding, AllocError>
    requires { IsOrder (history_of transactions.now) places.now }
    ensures { IfOk result (IsFoundAlong transactions.now places.now) }
{
    let mut committing = Committing::new(alloc, transactions.len())?;
    match run_along(alloc, transactions, places, &mut committing, progress)? {
        RanAlong::Agrees(end) => {
            if committing.ends_in(alloc, &end)? {
                Ok(Finding::Holds)
            } else {
                Ok(Finding::FinalState)
            }
        }
        RanAlong::Differs(finding) => Ok(finding),
    }
}
