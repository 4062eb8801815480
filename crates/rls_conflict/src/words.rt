//! What rls_history says of histories, in the catalogue's words.

ghost use Rattle.rls_conflict.specs.Laws.{AntidependenciesAreReads, HistoriesAreTold, ReadsAreCovered, AgreementIsShown, CommonObjectsAreWritten};

/// A rw-antidependency is a noted object that a concurrent transaction's change covers; the history of transactions is that of
/// rls_history at the catalogue's states; coverage, agreement and common objects are the catalogue's.
pub fn words_are_told()
    ensures antidependencies { AntidependenciesAreReads }
    ensures histories { HistoriesAreTold }
    ensures coverage { ReadsAreCovered }
    ensures agreement { AgreementIsShown }
    ensures common { CommonObjectsAreWritten }
{}
