//! The lines of a script that grant privileges on a table. Each is run by its grantor, who has to hold the grant option by then.

use crate::script::Script;
use rls_catalog::Grant;
use rls_expr::Grantee;
use rls_meaning::rls_guard::rls_source::Reading;
use rls_rows::State;
use rls_value::{Name, Privilege};
use std::alloc::{AllocError, Global};
use std::mem;

/// The grants of one privilege on a table that are still to be made, who holds its grant option, who holds it from the owner, and who
/// of them gives it back.
#[derive(Drop)]
struct Granting<'x> {
    table: &'x Name,
    owner: &'x Name,
    privilege: &'static str,
    left: Vec<Grant>,
    holders: Vec<Name>,
    direct: Vec<Name>,
    lent: Vec<Name>,
}

/// The grants on the table, by privilege. Its owner has granted all four to itself when the table is there.
pub(crate) fn grant_all(
    alloc: Global,
    state: &State,
    table: &Name,
    owner: &Name,
    script: &mut Script,
) -> Result<(), AllocError> {
    grant_each(alloc, state, table, owner, Privilege::Select, script)?;
    grant_each(alloc, state, table, owner, Privilege::Insert, script)?;
    grant_each(alloc, state, table, owner, Privilege::Update, script)?;
    grant_each(alloc, state, table, owner, Privilege::Delete, script)
}

/// Those of one privilege: first the options from holder to holder, then the others, those by the owner last.
fn grant_each(
    alloc: Global,
    state: &State,
    table: &Name,
    owner: &Name,
    privilege: Privilege,
    script: &mut Script,
) -> Result<(), AllocError> {
    let mut granting = Granting {
        table,
        owner,
        privilege: privilege_text(privilege),
        left: grants_of(alloc, state, table, privilege)?,
        holders: Vec::new(alloc),
        direct: Vec::new(alloc),
        lent: Vec::new(alloc),
    };
    granting.note_holder(owner, true)?;
    granting.keep_own(alloc, script)?;
    granting.hand_on(alloc, script)?;
    granting.grant_where(alloc, true, true, script)?;
    granting.grant_where(alloc, true, false, script)?;
    granting.grant_where(alloc, false, false, script)?;
    granting.take_back(alloc, script)?;
    granting.grant_where(alloc, false, true, script)
}

fn privilege_text(privilege: Privilege) -> &'static str {
    match privilege {
        Privilege::Select => "SELECT",
        Privilege::Insert => "INSERT",
        Privilege::Update => "UPDATE",
        Privilege::Delete => "DELETE",
    }
}

/// The grants of the privilege, in their order.
fn grants_of(
    alloc: Global,
    state: &State,
    table: &Name,
    privilege: Privilege,
) -> Result<Vec<Grant>, AllocError> {
    let mut source = state.view();
    let mut found = Vec::new(alloc);
    let grants = source.grants(alloc, table)?;
    for grant in grants.iter() {
        if grant.privilege == privilege {
            found.push(grant.copy()?)?;
        }
    }
    Ok(found)
}

/// Whether the name is among these.
fn is_among(names: &[Name], name: &Name) -> bool {
    names.iter().any(|one| one.is(name))
}

/// Whether the grant is to one of these.
fn is_to_one_of(names: &[Name], grant: &Grant) -> bool {
    match &grant.grantee {
        Grantee::Public => false,
        Grantee::Role(role) => is_among(names, role),
    }
}

fn is_to(name: &Name, grant: &Grant) -> bool {
    match &grant.grantee {
        Grantee::Public => false,
        Grantee::Role(role) => role.is(name),
    }
}

impl<'x> Granting<'x> {
    /// The grants that are left, which are looked at one by one.
    fn take_left(&mut self, alloc: Global) -> Vec<Grant> {
        mem::replace(&mut self.left, Vec::new(alloc))
    }

    /// The owner's own privilege is there: it is revoked where the state hasn't it, and needs no line where it has no option.
    fn keep_own(&mut self, alloc: Global, script: &mut Script) -> Result<(), AllocError> {
        let mut has_own = false;
        for grant in self.take_left(alloc) {
            let is_own = self.is_own(&grant);
            has_own = has_own || is_own;
            if !is_own || grant.option {
                self.left.push(grant)?;
            }
        }
        if has_own {
            return Ok(());
        }
        self.revoke_from(alloc, self.owner, script)
    }

    fn is_own(&self, grant: &Grant) -> bool {
        grant.is_whole() && grant.grantor.is(self.owner) && is_to(self.owner, grant)
    }

    /// Options, from who holds it to who doesn't yet, until there is no such grant.
    fn hand_on(&mut self, alloc: Global, script: &mut Script) -> Result<(), AllocError> {
        for _ in 0..self.left.len() {
            if !self.hand_on_once(alloc, script)? {
                return Ok(());
            }
        }
        Ok(())
    }

    /// The same in one look at all grants; whether some was made.
    fn hand_on_once(&mut self, alloc: Global, script: &mut Script) -> Result<bool, AllocError> {
        let mut made = false;
        for grant in self.take_left(alloc) {
            if self.is_handed_on(&grant) {
                self.make(alloc, &grant, script)?;
                made = true;
            } else {
                self.left.push(grant)?;
            }
        }
        Ok(made)
    }

    fn is_handed_on(&self, grant: &Grant) -> bool {
        let holders = self.holders.as_slice();
        grant.option && is_among(holders, &grant.grantor) && !is_to_one_of(holders, grant)
    }

    /// Grants with the option or without, by the owner or by others.
    fn grant_where(
        &mut self,
        alloc: Global,
        option: bool,
        by_owner: bool,
        script: &mut Script,
    ) -> Result<(), AllocError> {
        for grant in self.take_left(alloc) {
            if grant.option == option && grant.grantor.is(self.owner) == by_owner {
                self.lend_for(alloc, &grant, script)?;
                self.make(alloc, &grant, script)?;
            } else {
                self.left.push(grant)?;
            }
        }
        Ok(())
    }

    /// Lends the grantor the option, unless the grant is accepted without. A grant with the option is accepted if the grantor holds it
    /// from the owner: then it holds it also without the grantee. A grant without the option is accepted however the grantor holds it.
    fn lend_for(
        &mut self,
        alloc: Global,
        grant: &Grant,
        script: &mut Script,
    ) -> Result<(), AllocError> {
        if self.is_able(grant) {
            return Ok(());
        }
        script.set_role(alloc, self.owner)?;
        let (privilege, table, grantor) = (self.privilege, self.table, &grant.grantor);
        let command = format!(in alloc;
            "GRANT {privilege} ON {table} TO {grantor} WITH GRANT OPTION"
        )?;
        script.line(command.as_str())?;
        self.lent.push(grantor.copy()?)?;
        self.note_holder(grantor, true)
    }

    fn is_able(&self, grant: &Grant) -> bool {
        if grant.option {
            is_among(self.direct.as_slice(), &grant.grantor)
        } else {
            is_among(self.holders.as_slice(), &grant.grantor)
        }
    }

    /// The line of the grant. It may make its grantee a holder of the option.
    fn make(
        &mut self,
        alloc: Global,
        grant: &Grant,
        script: &mut Script,
    ) -> Result<(), AllocError> {
        script.set_role(alloc, &grant.grantor)?;
        let command = self.command_of(alloc, grant)?;
        script.line(command.as_str())?;
        if !grant.option {
            return Ok(());
        }
        let direct = grant.grantor.is(self.owner);
        match &grant.grantee {
            Grantee::Public => Ok(()),
            Grantee::Role(role) => self.note_holder(role, direct),
        }
    }

    fn note_holder(&mut self, role: &Name, direct: bool) -> Result<(), AllocError> {
        if direct {
            self.direct.push(role.copy()?)?;
        }
        self.holders.push(role.copy()?)?;
        Ok(())
    }

    fn command_of(&self, alloc: Global, grant: &Grant) -> Result<String, AllocError> {
        let (privilege, table) = (self.privilege, self.table);
        let on = column_text(alloc, grant)?;
        let to = grantee_text(&grant.grantee);
        let with = option_text(grant.option);
        format!(in alloc; "GRANT {privilege}{on} ON {table} TO {to}{with}")
    }

    /// What was lent goes back, where nothing else is granted to them by the owner yet.
    fn take_back(&self, alloc: Global, script: &mut Script) -> Result<(), AllocError> {
        for role in self.lent.as_slice() {
            self.revoke_from(alloc, role, script)?;
        }
        Ok(())
    }

    fn revoke_from(
        &self,
        alloc: Global,
        role: &Name,
        script: &mut Script,
    ) -> Result<(), AllocError> {
        script.set_role(alloc, self.owner)?;
        let (privilege, table) = (self.privilege, self.table);
        let command = format!(in alloc; "REVOKE {privilege} ON {table} FROM {role}")?;
        script.line(command.as_str())
    }
}

/// The column that the grant is on, in parentheses.
fn column_text(alloc: Global, grant: &Grant) -> Result<String, AllocError> {
    match &grant.column {
        Some(column) => format!(in alloc; " ({column})"),
        None => Ok(String::new(alloc)),
    }
}

fn option_text(option: bool) -> &'static str {
    if option { " WITH GRANT OPTION" } else { "" }
}

fn grantee_text(grantee: &Grantee) -> &str {
    match grantee {
        Grantee::Public => "PUBLIC",
        Grantee::Role(role) => role.as_str(),
    }
}
