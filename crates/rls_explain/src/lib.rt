//! Why a statement did with a row what it did: the decisions on the row, and what each policy that applies says of it.
#![tactic(auto)]

mod asking;
mod comparing;
mod detailing;
mod details;
mod explaining;
mod explanation;
mod fates;
mod insert_outcomes;
mod inserting;
mod judging;
mod laws;
mod outcome;
mod outcome_laws;
mod parts;
mod reasons;
mod resolving;
mod row_outcomes;
mod scan_outcomes;
mod scanning;
mod seeing;
mod seen;
mod subterms;
mod telling;
mod texts;
mod update_outcomes;
mod updating;
mod valuing;
mod writing;

pub use details::{Asking, Consulted, Consulting, Details, Exemption, Part, Seen, SeenRow};
pub use explaining::explain_row;
pub use explanation::{Explained, Explanation, Said, Wanted};
pub use laws::explanations_mean;
pub use outcome::{Reason, RowOutcome, RowWord};
pub use outcome_laws::{outcomes_tell_changes, outcomes_tell_rows};
pub use rls_meaning;
pub use rls_meaning::rls_guard;
pub use row_outcomes::outcomes;
pub use texts::{DecisionText, permissive_word, policy_kind_word, truth_word};
