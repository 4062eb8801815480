//! Worked histories over tables and their rows.

ghost use Rattle.std.specs.Prelude.{◌≡◌, ◌∷◌, [], true, false};
ghost use Rattle.rls_history.specs.Orders.{is_order};
ghost use Rattle.rls_history.specs.Structures.{is_dangerous};
ghost use Rattle.rls_conflict.specs.Transactions.{history_of};
ghost use Rattle.rls_conflict.specs.Examples.{clearance_race, write_skew, batch_closed, report, late_receipt, reader, writing_reader, pivot, third, kept_receipt};
ghost use Rattle.rls_conflict.specs.Written.{write_common};

/// Which commit is refused, and which order there is. The reader that keeps its snapshot commits, and stands before the writer,
/// against the order of commits. The second of a write skew is refused, and so is the late receipt that would make a report
/// wrong, but not where there is no report. A chain of three commits where the third of them commits last, and also where it
/// commits first, as long as the reader only reads; where the reader has written too, the last of them is refused. Two rows of a
/// table without a primary key are no common object, one row is.
pub fn examples_mean()
    ensures clearance { is_dangerous (history_of clearance_race) 1 ≡ false }
    ensures reader_first { is_order (history_of clearance_race) (1 ∷ 0 ∷ []) ≡ true }
    ensures not_by_commit { is_order (history_of clearance_race) (0 ∷ 1 ∷ []) ≡ false }
    ensures skew { is_dangerous (history_of write_skew) 1 ≡ true }
    ensures reported { is_dangerous (history_of (batch_closed ∷ report ∷ late_receipt ∷ [])) 2 ≡ true }
    ensures no_report { is_dangerous (history_of (batch_closed ∷ late_receipt ∷ [])) 1 ≡ false }
    ensures chain { is_dangerous (history_of (reader ∷ pivot ∷ third ∷ [])) 2 ≡ false }
    ensures chain_from_third { is_dangerous (history_of (third ∷ reader ∷ pivot ∷ [])) 2 ≡ false }
    ensures chain_order { is_order (history_of (third ∷ reader ∷ pivot ∷ [])) (1 ∷ 2 ∷ 0 ∷ []) ≡ true }
    ensures keyless { write_common (kept_receipt 2) (kept_receipt 3) ≡ false }
    ensures same_row { write_common (kept_receipt 2) (kept_receipt 2) ≡ true }
    ensures writing_chain { is_dangerous (history_of (third ∷ writing_reader ∷ pivot ∷ [])) 2 ≡ true }
{}
