//! The rows that a statement looks at.

ghost use Rattle.std.specs.Prelude.{◌≡◌, IfOk};
ghost use Rattle.std.specs.List.{list_any};
ghost use Rattle.rls_value.specs.Values.{is_null};
ghost use Rattle.rls_evaluation.specs.rls_source.specs.Answering.{Tells};
ghost use Rattle.rls_judging.specs.ScannedRows as spec;

use rls_evaluation::rls_source::Asker;
use rls_evaluation::{Env, Scoped, key_of};
use rls_guard::rls_catalog::BorrowedRow;
use rls_guard::rls_catalog::rls_expr::{Expr, FromTable};
use rls_value::{Items, Name, Row, Value};
use std::alloc::{AllocError, Global};

/// The rows with the key, where the condition pins the table's whole primary key by literals and the current role; else
/// all rows of the table. A key with a null is nobody's, and nothing is read for it.
pub fn scanned_rows<'c, 'x>(
    asker: &mut Asker<'c>,
    role: &Name,
    from: FromTable<'x>,
    condition: &Option<Expr>,
) -> Result<Items<BorrowedRow<'c>>, AllocError>
    ensures { Tells (spec.scanned_rows role.now from.entry.name.now from.entry.table.now condition.now) asker.old asker.new result }
{
    let key = pinned_key(asker.alloc(), from.table.key.as_slice(), condition, role)?;
    let found = scanned_rows_with(asker, from.name, &key);
    drop(key);
    found
}

fn scanned_rows_with<'c>(
    asker: &mut Asker<'c>,
    name: &Name,
    key: &Option<Row>,
) -> Result<Items<BorrowedRow<'c>>, AllocError>
    ensures { Tells (spec.scanned_rows_with name.now key.now) asker.old asker.new result }
{
    match key {
        None => asker.scan(name),
        Some(key) => {
            if has_null(key) {
                Ok(Items::new(asker.alloc()))
            } else {
                asker.by_key(name, key)
            }
        }
    }
}

fn has_null(key: &Row) -> bool
    ensures { result ≡ list_any is_null key.now }
{
    key.as_slice().iter().any(|value| value.is_null())
}

/// The key that the condition pins, if it pins one.
fn pinned_key(
    alloc: Global,
    places: &[usize],
    condition: &Option<Expr>,
    role: &Name,
) -> Result<Option<Row>, AllocError>
    ensures { IfOk result (λ key. key ≡ spec.pinned_key role.now places.now condition.now) }
{
    let env = Env {
        user: role,
        rows: Scoped::Nothing,
    };
    key_of(alloc, places, condition, &env)
}
