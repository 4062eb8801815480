//! This database, as rls_history sees one.

ghost use Rattle.rls_core.specs.Theory.{statements, conditions};
ghost use Rattle.rls_conflict.specs.States.{states};

use rls_history::Database;

/// The states of rls_catalog and the statements of rls_access.
pub(crate) struct Rls;

impl Database for Rls {
    ghost states = { states };

    ghost statements = { statements };

    ghost conditions = { conditions };
}
