//! What stands of each step of a transaction, its beginning and its posts.

ghost use Rattle.std.specs.Prelude.{◌≡◌};
ghost use Rattle.rls_core.specs.Seen.{runs_at};
ghost use Rattle.rls_engine.specs.Stands.{begun_on, posted_on, stand_at};

use rls_core::{Begin, Core};
use rls_statement::Statement;
use std::marker::Model;
use std::snapshot::Snapshot;

/// A step of a transaction, seen as what the transaction stands on behind it. It remembers for proofs alone the core before the
/// step and what was asked of it, and no bytes of these.
#[derive(Drop)]
pub struct Step {
    txn: u64,
    core: Snapshot<Core>,
    begin: Option<Snapshot<Begin>>,
    asked: Option<Snapshot<Statement>>,
}

impl Model for Step {
    ghost use Rattle.std.specs.Option.{option_map};
    ghost use Rattle.rls_engine.specs.Stands.{Stand, stand_code, led_to};

    ghost Value = { Stand };

    ghost coded = { stand_code };

    ghost view = { λ it. led_to it.core.value it.txn (option_map (λ begin. begin.value) it.begin) (option_map (λ asked. asked.value) it.asked) };
}

impl Step {
    /// A transaction begins.
    pub(crate) fn begun(core: &Core, txn: u64, begin: &Begin) -> Step
        ensures { result ≡ begun_on core.now begin.now }
    {
        Step {
            txn,
            core: Snapshot::of(core),
            begin: Some(Snapshot::of(begin)),
            asked: None,
        }
    }

    /// The transaction that runs under the number posts the statement.
    pub(crate) fn posted(core: &Core, txn: u64, asked: &Statement) -> Step
        ensures { result ≡ posted_on (stand_at core.now.committed (runs_at core.now txn)) asked.now }
    {
        Step {
            txn,
            core: Snapshot::of(core),
            begin: None,
            asked: Some(Snapshot::of(asked)),
        }
    }
}
