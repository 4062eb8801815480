//! What rows are seen through.

ghost use Rattle.std.specs.Prelude.{◌≡◌, OnOk};
ghost use Rattle.rls_evaluation.specs.rls_source.specs.Answering.{having_read};

use rls_evaluation::rls_source::Asker;
use rls_evaluation::{ExecutionState, SecuredRelation};
use rls_guard::RowCheck;
use rls_value::Name;
use std::alloc::AllocError;

/// What a statement's rows are judged by: the row checks, the relations that subqueries look through, and the role.
#[derive(Clone, Copy)]
pub struct CheckContext<'a, 'c> {
    pub row_checks: &'a [RowCheck<'c>],
    pub relations: &'a [SecuredRelation<'c>],
    pub role: &'a Name,
}

/// Notes what was read.
pub(crate) fn note_all(asker: &mut Asker, execution: ExecutionState) -> Result<(), AllocError>
    ensures { OnOk result (asker.new ≡ having_read asker.old execution.read_set) }
{
    let objects = execution.into_read_set().into_objects(asker.alloc())?;
    asker.note_all(objects)
}
