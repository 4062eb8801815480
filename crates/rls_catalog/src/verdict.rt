//! What row security says of a row.

ghost use Rattle.std.specs.Prelude.{◌≡◌, IfOk};

use rls_expr::rls_value::Name;
use std::alloc::AllocError;

/// Which row is judged: the one that was there, or the one that a command makes.
#[derive(Clone, Copy, PartialEq, Eq)]
pub enum Side {
    Old,
    New,
}

/// What row security says of a row.
#[derive(Drop)]
pub enum Verdict {
    /// Row security doesn't apply.
    Exempt,
    /// Allowed; the first permissive policy, by name, that allows it.
    By(Name),
    /// No permissive policy allows it.
    NoPermissive,
    /// Denied; the first restrictive policy, by name, that doesn't allow it.
    Restrictive(Name),
}

impl Verdict {
    pub fn copy(&self) -> Result<Verdict, AllocError>
        ensures { IfOk result (λ verdict. verdict ≡ self.now) }
    {
        match self {
            Verdict::Exempt => Ok(Verdict::Exempt),
            Verdict::By(policy) => Ok(Verdict::By(policy.copy()?)),
            Verdict::NoPermissive => Ok(Verdict::NoPermissive),
            Verdict::Restrictive(policy) => Ok(Verdict::Restrictive(policy.copy()?)),
        }
    }
}
