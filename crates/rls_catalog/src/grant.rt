//! Grants of privileges on tables.

ghost use Rattle.std.specs.Prelude.{◌≡◌, IfOk};
ghost use Rattle.rls_catalog.specs.GrantKeys as keys;
ghost use Rattle.rls_catalog.specs.Privileges.{is_whole};

use rls_expr::Grantee;
use rls_expr::rls_value::{Name, Privilege};
use shared_map::{HasKey, Shared};
use std::alloc::AllocError;

/// A grant on a table, or on one column of it (PostgreSQL manual, GRANT).
#[derive(Drop)]
pub struct Grant {
    pub privilege: Privilege,
    pub grantee: Grantee,
    pub grantor: Name,
    /// Whether the grantee may grant it further.
    pub option: bool,
    /// The column that it is on; none for the whole table.
    pub column: Option<Name>,
    /// Where the column stands among the table's columns, counted from one; 0 for the whole table.
    pub place: usize,
}

/// What tells grants on one table apart, and orders them by its fields in turn.
#[derive(Drop, PartialEq, Eq, PartialOrd, Ord)]
pub struct GrantKey {
    /// The place of the privilege among the four.
    privilege: u8,
    /// None is PUBLIC, which stands first.
    grantee: Option<Name>,
    /// None stands first: no grant has it, and a search may begin there.
    grantor: Option<Name>,
    /// The place of the column among the table's columns, counted from one; 0 for the whole table.
    place: usize,
}

impl GrantKey {
    /// The first key that a grant of the privilege to the grantee can have.
    pub fn first(privilege: Privilege, grantee: &Grantee) -> Result<GrantKey, AllocError>
        ensures { IfOk result (λ key. key ≡ keys.first_key privilege grantee.now) }
    {
        Ok(GrantKey {
            privilege: place_of(privilege),
            grantee: role_of(grantee)?,
            grantor: None,
            place: 0,
        })
    }
}

impl Clone for GrantKey {
    ghost use Rattle.std.specs.Prelude.{◌≡◌};

    ghost is_clone = { λ x y. y ≡ x };

    fn clone(&self) -> Result<GrantKey, AllocError> {
        Ok(GrantKey {
            privilege: self.privilege,
            grantee: copy_name(&self.grantee)?,
            grantor: copy_name(&self.grantor)?,
            place: self.place,
        })
    }
}

impl Shared for GrantKey {
    ghost same = { λ x y h. h };
}

impl Grant {
    /// Whether it is on the whole table.
    pub fn is_whole(&self) -> bool
        ensures { result ≡ is_whole self.now }
    {
        self.column.is_none()
    }

    pub fn copy(&self) -> Result<Grant, AllocError>
        ensures { IfOk result (λ grant. grant ≡ self.now) }
    {
        Ok(Grant {
            privilege: self.privilege,
            grantee: self.grantee.copy()?,
            grantor: self.grantor.copy()?,
            option: self.option,
            column: copy_name(&self.column)?,
            place: self.place,
        })
    }
}

impl Clone for Grant {
    ghost use Rattle.std.specs.Prelude.{◌≡◌};

    ghost is_clone = { λ x y. y ≡ x };

    fn clone(&self) -> Result<Grant, AllocError> {
        self.copy()
    }
}

impl Shared for Grant {
    ghost same = { λ x y h. h };
}

impl HasKey<GrantKey> for Grant {
    ghost use Rattle.rls_catalog.specs.GrantKeys.{key_of, keys_exact};

    ghost key_of = { key_of };

    ghost exact = { keys_exact };

    fn key(&self) -> Result<GrantKey, AllocError> {
        let grantee = role_of(&self.grantee)?;
        match self.grantor.copy() {
            Ok(grantor) => Ok(GrantKey {
                privilege: place_of(self.privilege),
                grantee,
                grantor: Some(grantor),
                place: self.place,
            }),
            Err(refused) => {
                drop(grantee);
                Err(refused)
            }
        }
    }
}

fn place_of(privilege: Privilege) -> u8
    ensures { result ≡ keys.place_of privilege }
{
    match privilege {
        Privilege::Select => 0,
        Privilege::Insert => 1,
        Privilege::Update => 2,
        Privilege::Delete => 3,
    }
}

fn role_of(grantee: &Grantee) -> Result<Option<Name>, AllocError>
    ensures { IfOk result (λ role. role ≡ keys.role_of grantee.now) }
{
    match grantee {
        Grantee::Public => Ok(None),
        Grantee::Role(name) => Ok(Some(name.copy()?)),
    }
}

pub(crate) fn copy_name(name: &Option<Name>) -> Result<Option<Name>, AllocError>
    ensures { IfOk result (λ copied. copied ≡ name.now) }
{
    match name {
        Some(name) => Ok(Some(name.copy()?)),
        None => Ok(None),
    }
}
