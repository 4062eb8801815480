//! Names of columns, as they are written.

ghost use Rattle.std.specs.Prelude.{◌≡◌, IfOk};

use rls_value::{Name, or_drop};
use std::alloc::AllocError;

/// The name of a column, with what qualifies it where that is written: `t.a`, or `a`.
#[derive(Drop)]
pub struct ColumnName {
    pub qualifier: Option<Name>,
    pub name: Name,
}

impl ColumnName {
    /// The name alone.
    pub fn plain(name: Name) -> ColumnName
        ensures { result ≡ record { qualifier = None; name = name } }
    {
        ColumnName {
            qualifier: None,
            name,
        }
    }

    pub fn copy(&self) -> Result<ColumnName, AllocError>
        ensures { IfOk result (λ column. column ≡ self.now) }
    {
        let qualifier = copy_qualifier(&self.qualifier)?;
        let name = or_drop!(self.name.copy(), qualifier);
        Ok(ColumnName { qualifier, name })
    }
}

fn copy_qualifier(qualifier: &Option<Name>) -> Result<Option<Name>, AllocError>
    ensures { IfOk result (λ copied. copied ≡ qualifier.now) }
{
    match qualifier {
        Some(name) => Ok(Some(name.copy()?)),
        None => Ok(None),
    }
}
