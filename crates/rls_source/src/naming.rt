//! What a statement names, which an asker looks for.

ghost use Rattle.rls_source.specs.Answering.{Answers, lent_now};
ghost use Rattle.rls_source.specs.Named.{table_or_undefined, role_or_undefined, roles_or_undefined, grantees_or_undefined};

use crate::asker::Asker;
use rls_catalog::RoleDef;
use rls_catalog::rls_expr::{Grantee, TableDef};
use rls_catalog::rls_value::{Name, NameKind, Refusal};

impl<'c> Asker<'c> {
    /// The table of that name; undefined where there is none.
    pub fn table_named(&mut self, name: &Name) -> Result<&'c TableDef, Refusal>
        ensures { Answers (table_or_undefined name.now) self.old self.new (lent_now result) }
    {
        match self.table(name)? {
            Some(table) => Ok(table),
            None => Err(Refusal::Undefined(NameKind::Relation, name.copy()?)),
        }
    }

    /// The role of that name; undefined where there is none.
    pub fn role_named(&mut self, name: &Name) -> Result<&'c RoleDef, Refusal>
        ensures { Answers (role_or_undefined name.now) self.old self.new (lent_now result) }
    {
        match self.role(name)? {
            Some(role) => Ok(role),
            None => Err(Refusal::Undefined(NameKind::Role, name.copy()?)),
        }
    }

    /// The first of the roles that isn't there is undefined.
    pub fn require_roles(&mut self, names: &[Name]) -> Result<(), Refusal>
        ensures { Answers (roles_or_undefined names.now) self.old self.new result }
    {
        for name in names {
            self.role_named(name)?;
        }
        Ok(())
    }

    /// The first role among the grantees that isn't there is undefined.
    pub fn require_grantees(&mut self, grantees: &[Grantee]) -> Result<(), Refusal>
        ensures { Answers (grantees_or_undefined grantees.now) self.old self.new result }
    {
        for grantee in grantees {
            if let Grantee::Role(name) = grantee {
                self.role_named(name)?;
            }
        }
        Ok(())
    }
}
