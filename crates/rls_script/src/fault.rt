//! What ends a run before its script's end.

ghost use Rattle.std.specs.Prelude.{◌≡◌};

use rls_value::Refusal;
use std::alloc::{AllocError, AllocFailed};
use thiserror::Error;

/// Why a run ended before its script's end. What was written until then stays written.
#[derive(Debug, Drop, Error)]
pub enum RunFault {
    #[error("cannot read")]
    Read,
    #[error("cannot write")]
    Write,
    #[error("out of memory")]
    NoMemory,
    /// Something is of another engine, which no script brings about.
    #[error("internal fault")]
    Foreign,
}

impl From<AllocError> for RunFault {
    ghost use Rattle.rls_script.specs.declared.fault.RunFault.TheVariants.{NoMemory};

    ghost from_gives = { λ _ fault. fault ≡ NoMemory };

    fn from(_fault: AllocError) -> RunFault {
        RunFault::NoMemory
    }
}

impl<T: Drop> From<AllocFailed<T>> for RunFault {
    ghost use Rattle.rls_script.specs.declared.fault.RunFault.TheVariants.{NoMemory};

    ghost from_gives = { λ _ fault. fault ≡ NoMemory };

    fn from(_fault: AllocFailed<T>) -> RunFault {
        RunFault::NoMemory
    }
}

impl RunFault {
    /// The fault that ends a run: want of memory, or else `Foreign`.
    pub fn of(refusal: Refusal) -> RunFault
        ensures read { ¬ (result ≡ RunFault.Read) }
        ensures write { ¬ (result ≡ RunFault.Write) }
    {
        match refusal {
            Refusal::NoMemory => RunFault::NoMemory,
            refusal => {
                drop(refusal);
                RunFault::Foreign
            }
        }
    }
}
