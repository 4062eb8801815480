//! Reads of a source.

ghost use Rattle.std.specs.Prelude.{◌≡◌, [], ◌∷◌, IfOk, OnOk, OnErr};
ghost use Rattle.std.specs.Option.{option_copied};
ghost use Rattle.rls_catalog.specs.InOrder.{RowsInOrder};
ghost use Rattle.rls_catalog.specs.PolicyLists.{InNameOrder};
ghost use Rattle.rls_catalog.specs.State.{role_of, members_of, table_of, grants_of, policies_of, rows_of, rows_with_key};

use crate::source::RowSource;
use rls_catalog::rls_expr::TableDef;
use rls_catalog::rls_value::{Items, Name, Object, Row};
use rls_catalog::{BorrowedRow, Grants, Memberships, Policies, RoleDef};
use std::alloc::{AllocError, Global};

/// The look-ups of a source. Each is a read of one object: it is marked, and looked at. After an `Err` the source still stands
/// for its state. Every source has them.
pub trait Reading<'c>: RowSource<'c> {
    /// The role, if there is one.
    fn role(&mut self, alloc: Global, name: &Name) -> Result<Option<&'c RoleDef>, AllocError>
        ensures found { IfOk result (λ found. option_copied found ≡ role_of (Self.state self.old) name.now) }
        ensures read { OnOk result (self.new ≡ Self.after self.old (Object.Role name.now ∷ [])) }
        ensures err { OnErr result (Self.state self.new ≡ Self.state self.old) };

    /// The memberships that the role has.
    fn members(&mut self, alloc: Global, member: &Name) -> Result<&'c Memberships, AllocError>
        ensures found { IfOk result (λ found. found.now ≡ members_of (Self.state self.old) member.now) }
        ensures read { OnOk result (self.new ≡ Self.after self.old (Object.Members member.now ∷ [])) }
        ensures err { OnErr result (Self.state self.new ≡ Self.state self.old) };

    /// The table, if there is one.
    fn table(&mut self, alloc: Global, name: &Name) -> Result<Option<&'c TableDef>, AllocError>
        ensures found { IfOk result (λ found. option_copied found ≡ table_of (Self.state self.old) name.now) }
        ensures read { OnOk result (self.new ≡ Self.after self.old (Object.Table name.now ∷ [])) }
        ensures err { OnErr result (Self.state self.new ≡ Self.state self.old) };

    /// The grants on the table.
    fn grants(&mut self, alloc: Global, table: &Name) -> Result<&'c Grants, AllocError>
        ensures found { IfOk result (λ found. found.now ≡ grants_of (Self.state self.old) table.now) }
        ensures read { OnOk result (self.new ≡ Self.after self.old (Object.Grants table.now ∷ [])) }
        ensures err { OnErr result (Self.state self.new ≡ Self.state self.old) };

    /// The policies of the table, in byte order of their names, each name once.
    fn policies(&mut self, alloc: Global, table: &Name) -> Result<&'c Policies, AllocError>
        ensures found { IfOk result (λ found. found.now ≡ policies_of (Self.state self.old) table.now) }
        ensures ordered { IfOk result (λ found. InNameOrder found.now) }
        ensures read { OnOk result (self.new ≡ Self.after self.old (Object.Policies table.now ∷ [])) }
        ensures err { OnErr result (Self.state self.new ≡ Self.state self.old) };

    /// The rows of the table, in order of their numbers.
    fn scan(&mut self, alloc: Global, table: &Name) -> Result<Items<BorrowedRow<'c>>, AllocError>
        ensures found { IfOk result (λ found. found ≡ rows_of (Self.state self.old) table.now) }
        ensures ordered { OnOk result (RowsInOrder (Self.state self.old) table.now) }
        ensures read { OnOk result (self.new ≡ Self.after self.old (Object.Rows table.now ∷ [])) }
        ensures err { OnErr result (Self.state self.new ≡ Self.state self.old) };

    /// The rows of the table that have the key, in order of their numbers.
    fn by_key(
        &mut self,
        alloc: Global,
        table: &Name,
        key: &Row,
    ) -> Result<Items<BorrowedRow<'c>>, AllocError>
        ensures found { IfOk result (λ found. found ≡ rows_with_key (Self.state self.old) table.now key.now) }
        ensures ordered { OnOk result (RowsInOrder (Self.state self.old) table.now) }
        ensures read { OnOk result (self.new ≡ Self.after self.old (Object.Key table.now key.now ∷ [])) }
        ensures err { OnErr result (Self.state self.new ≡ Self.state self.old) };
}

impl<'c, S: RowSource<'c>> Reading<'c> for S {
    fn role(&mut self, alloc: Global, name: &Name) -> Result<Option<&'c RoleDef>, AllocError> {
        let found = self.catalog().role(name);
        let objects = [Object::Role(name.copy()?)];
        self.mark(alloc, &objects)?;
        Ok(found)
    }

    fn members(&mut self, alloc: Global, member: &Name) -> Result<&'c Memberships, AllocError> {
        let found = self.catalog().members(member);
        let objects = [Object::Members(member.copy()?)];
        self.mark(alloc, &objects)?;
        Ok(found)
    }

    fn table(&mut self, alloc: Global, name: &Name) -> Result<Option<&'c TableDef>, AllocError> {
        let found = self.catalog().table(name);
        let objects = [Object::Table(name.copy()?)];
        self.mark(alloc, &objects)?;
        Ok(found)
    }

    fn grants(&mut self, alloc: Global, table: &Name) -> Result<&'c Grants, AllocError> {
        let found = self.catalog().grants(table);
        let objects = [Object::Grants(table.copy()?)];
        self.mark(alloc, &objects)?;
        Ok(found)
    }

    fn policies(&mut self, alloc: Global, table: &Name) -> Result<&'c Policies, AllocError> {
        let found = self.catalog().policies(table);
        let objects = [Object::Policies(table.copy()?)];
        self.mark(alloc, &objects)?;
        Ok(found)
    }

    fn scan(&mut self, alloc: Global, table: &Name) -> Result<Items<BorrowedRow<'c>>, AllocError> {
        let catalog = self.catalog();
        let objects = [Object::Rows(table.copy()?)];
        self.mark(alloc, &objects)?;
        catalog.rows(alloc, table)
    }

    fn by_key(
        &mut self,
        alloc: Global,
        table: &Name,
        key: &Row,
    ) -> Result<Items<BorrowedRow<'c>>, AllocError> {
        let catalog = self.catalog();
        let objects = [Object::Key(table.copy()?, key.copy(alloc)?)];
        self.mark(alloc, &objects)?;
        catalog.rows_with_key(alloc, table, key)
    }
}
