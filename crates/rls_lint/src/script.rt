//! A script that is written line by line.

use rls_value::Name;
use std::alloc::{AllocError, Global};

// The label of each line, and what stands behind it.
const LABEL: &str = "p: ";

/// The lines so far, all of one session of `postgres`, and its current role.
#[derive(Drop)]
pub(crate) struct Script {
    text: String,
    role: Name,
}

impl Script {
    /// The session begins.
    pub(crate) fn new(alloc: Global) -> Result<Script, AllocError> {
        let mut script = Script {
            text: String::new(alloc),
            role: Name::postgres(alloc)?,
        };
        script.line("\\connect postgres")?;
        Ok(script)
    }

    /// A line with this command.
    pub(crate) fn line(&mut self, command: &str) -> Result<(), AllocError> {
        self.text.push_str(LABEL)?;
        self.text.push_str(command)?;
        self.text.push_str("\n")
    }

    /// The role is the current one from here on.
    pub(crate) fn set_role(&mut self, alloc: Global, role: &Name) -> Result<(), AllocError> {
        if self.role.is(role) {
            return Ok(());
        }
        self.role = role.copy()?;
        if is_postgres(role) {
            return self.line("RESET ROLE");
        }
        let command = format!(in alloc; "SET ROLE {role}")?;
        self.line(command.as_str())
    }

    /// The login is the current role from here on.
    pub(crate) fn reset_role(&mut self, alloc: Global) -> Result<(), AllocError> {
        let postgres = Name::postgres(alloc)?;
        self.set_role(alloc, &postgres)
    }

    /// The text.
    pub(crate) fn into_text(self) -> String {
        let Script { text, role } = self;
        drop(role);
        text
    }
}

pub(crate) fn is_postgres(role: &Name) -> bool {
    role.as_str() == "postgres"
}
