//! Worked histories, and a small database of numbers.

ghost use Rattle.std.specs.Prelude.{◌≡◌, ◌∷◌, [], true, false};
ghost use Rattle.rls_history.specs.Examples.{worked, all_commit_as, last_is_refused, clearance_race, write_skew, batch_report, batch_without_report, reader, writing_reader, pivot, third};
ghost use Rattle.rls_history.specs.Orders.{is_order};

/// Which of the worked histories commit, in which order they may be run one after another, and which commit is refused. The
/// reader that keeps its snapshot stands before the writer, against the order of commits. The second of a write skew is refused,
/// and so is the late receipt that would make a report wrong, but not where there is no report. A chain of three commits where
/// the third of them commits last, and also where it commits first, as long as the reader only reads; where the reader has
/// written too, the last of them is refused.
pub fn examples_mean()
    ensures clearance { all_commit_as clearance_race (1 ∷ 0 ∷ []) ≡ true }
    ensures not_by_commit { is_order (worked clearance_race) (0 ∷ 1 ∷ []) ≡ false }
    ensures skew { last_is_refused write_skew ≡ true }
    ensures report { last_is_refused batch_report ≡ true }
    ensures no_report { all_commit_as batch_without_report (1 ∷ 0 ∷ []) ≡ true }
    ensures chain { all_commit_as (reader ∷ pivot ∷ third ∷ []) (0 ∷ 1 ∷ 2 ∷ []) ≡ true }
    ensures chain_from_third { all_commit_as (third ∷ reader ∷ pivot ∷ []) (1 ∷ 2 ∷ 0 ∷ []) ≡ true }
    ensures writing_chain { last_is_refused (third ∷ writing_reader ∷ pivot ∷ []) ≡ true }
{}
