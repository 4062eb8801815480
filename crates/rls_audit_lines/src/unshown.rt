//! Why an audit has no line of something.

ghost use Rattle.std.specs.Prelude.{◌≡◌};

use std::alloc::{AllocError, AllocFailed};

/// Why there is no line.
#[derive(Drop)]
pub enum Unshown {
    NoMemory,
    /// No audit can say this: a refusal that none has, or a primary key with a column that isn't there.
    Never,
}

impl From<AllocError> for Unshown {
    ghost use Rattle.rls_audit_lines.specs.declared.unshown.Unshown.TheVariants.{NoMemory};

    ghost from_gives = { λ _ unshown. unshown ≡ NoMemory };

    fn from(_error: AllocError) -> Unshown {
        Unshown::NoMemory
    }
}

impl<T: Drop> From<AllocFailed<T>> for Unshown {
    ghost use Rattle.rls_audit_lines.specs.declared.unshown.Unshown.TheVariants.{NoMemory};

    ghost from_gives = { λ _ unshown. unshown ≡ NoMemory };

    fn from(_failed: AllocFailed<T>) -> Unshown {
        Unshown::NoMemory
    }
}
