//! Definitions of policies, and whom they are for.

ghost use Rattle.std.specs.Prelude.{◌≡◌, IfOk};
ghost use Rattle.std.specs.Option.{option_copied};

use crate::expr::Expr;
use rls_value::shared::{HasKey, Share};
use rls_value::{Items, Name, PolicyKind, or_drop};
use std::alloc::{AllocError, Global};

/// Whom a grant or a policy is for.
#[derive(Drop)]
pub enum Grantee {
    /// Every role.
    Public,
    Role(Name),
}

/// A policy of a table (PostgreSQL manual, CREATE POLICY).
#[derive(Drop)]
pub struct Policy {
    pub name: Name,
    /// PERMISSIVE, and else RESTRICTIVE.
    pub permissive: bool,
    pub kind: PolicyKind,
    pub to: Items<Grantee>,
    pub using: Option<Share<Expr>>,
    pub check: Option<Share<Expr>>,
}

impl Grantee {
    pub fn copy(&self) -> Result<Grantee, AllocError>
        ensures { IfOk result (λ grantee. grantee ≡ self.now) }
    {
        match self {
            Grantee::Public => Ok(Grantee::Public),
            Grantee::Role(role) => Ok(Grantee::Role(role.copy()?)),
        }
    }

    /// A copy of the list.
    pub fn copy_all(alloc: Global, grantees: &[Grantee]) -> Result<Items<Grantee>, AllocError>
        ensures { IfOk result (λ copies. copies ≡ grantees.now) }
    {
        let mut copies = Vec::with_capacity(alloc, grantees.len())?;
        for grantee in grantees {
            copies.push(grantee.copy()?)?;
        }
        Ok(Items::from_vec(copies))
    }
}

/// The policies of a table stand in byte order of their names.
impl HasKey<Name> for Policy {
    ghost use Rattle.std.specs.FinMap.{nat_cmp-IsAntisymmetric, slice_cmp-IsAntisymmetric};

    ghost key_of = { λ policy. policy.name };

    ghost exact = { slice_cmp-IsAntisymmetric nat_cmp-IsAntisymmetric };

    fn key(&self) -> Result<Name, AllocError> {
        self.name.copy()
    }
}

impl Policy {
    /// A copy, which shares its expressions.
    pub fn copy(&self, alloc: Global) -> Result<Policy, AllocError>
        ensures { IfOk result (λ policy. policy ≡ self.now) }
    {
        let name = self.name.copy()?;
        let to = or_drop!(Grantee::copy_all(alloc, self.to.as_slice()), name);
        let using = or_drop!(copy_shared(&self.using), name, to);
        let check = or_drop!(copy_shared(&self.check), name, to, using);
        Ok(Policy {
            name,
            permissive: self.permissive,
            kind: self.kind,
            to,
            using,
            check,
        })
    }
}

/// The expression that is shared, if there is one.
pub fn shared_expr(expr: &Option<Share<Expr>>) -> Option<&Expr>
    ensures { option_copied result ≡ expr.now }
{
    match expr {
        Some(expr) => Some(expr.get()),
        None => None,
    }
}

/// The same expression, shared, if there is one.
pub fn copy_shared(expr: &Option<Share<Expr>>) -> Result<Option<Share<Expr>>, AllocError>
    ensures { IfOk result (λ copy. copy ≡ expr.now) }
{
    match expr {
        Some(expr) => Ok(Some(expr.copy()?)),
        None => Ok(None),
    }
}
