//! What a statement gives.

ghost use Rattle.std.specs.Prelude.{◌≡◌};
ghost use Rattle.rls_guard.specs.Effects.{changes_of};
ghost use Rattle.rls_dml.specs.NextRows.{is_new_row, new_rows};

use rls_guard::Effect;
use rls_guard::rls_catalog::Change;
use rls_guard::rls_source::Footprint;
use rls_value::Name;

/// What a statement gives.
#[derive(Drop)]
pub struct Outcome {
    /// What it comes to, with a decision for each row that was looked at, then one for each new row.
    pub effect: Effect,
    /// The objects that were read, each once, those of a refused statement included.
    pub footprint: Footprint,
    /// The current role afterwards.
    pub role: Name,
}

impl Outcome {
    /// How many rows the statement puts where none was: its transaction's next new row is numbered so many further.
    pub fn new_rows(&self) -> usize
        ensures { result ≡ new_rows (changes_of self.now.effect) }
    {
        match &self.effect {
            Effect::Done(_, _, delta, _) => new_rows_of(delta.as_slice()),
            Effect::Refused(_, _) => 0,
        }
    }
}

/// How many of the changes put a row where none was.
fn new_rows_of(changes: &[Change]) -> usize
    ensures { result ≡ new_rows changes.now }
{
    changes.iter().filter(|change| is_new_row(change)).count()
}

/// Whether the change puts a row where none was.
fn is_new_row(change: &Change) -> bool
    ensures { result ≡ is_new_row change.now }
{
    match change {
        Change::Row(row) => row.before.is_none(),
        Change::Role(_, _)
        | Change::Members(_, _)
        | Change::Table(_, _)
        | Change::Grants(_, _)
        | Change::Policies(_, _) => false,
    }
}
