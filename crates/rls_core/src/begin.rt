//! How a transaction begins.

ghost use Rattle.std.specs.Prelude.{◌≡◌, IfOk};

use rls_meaning::rls_guard::Mode;
use rls_value::Name;
use std::alloc::AllocError;
use std::marker::Model;

/// What a transaction begins as: the role that its session began as, the current one, and whether it may write.
#[derive(Drop)]
pub struct Begin {
    pub login: Name,
    pub role: Name,
    pub mode: Mode,
}

impl Model for Begin {
    ghost use Rattle.rls_meaning.specs.rls_access.specs.Transactions.{Begin};
    ghost use Rattle.rls_core.specs.Codes.{begin_code};

    ghost Value = { Begin };

    ghost coded = { begin_code };

    ghost view = { λ it. record { login = it.login; role = it.role; mode = it.mode } };
}

impl Begin {
    pub fn copy(&self) -> Result<Begin, AllocError>
        ensures { IfOk result (λ begin. begin ≡ self.now) }
    {
        let login = self.login.copy()?;
        let role = self.role.copy()?;
        Ok(Begin {
            login,
            role,
            mode: self.mode,
        })
    }

    /// The role that the session began as.
    pub(crate) fn into_login(self) -> Name
        ensures { result ≡ self.login }
    {
        self.login
    }
}
