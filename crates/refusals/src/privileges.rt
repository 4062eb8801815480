//! Calls that tell whose privileges a role has, which policies apply to it, and what GRANT and REVOKE change.

use crate::opening::{CREWS, GRANTS, INFORMATION, state_after};
use rls_session::rls_core::rls_guard::rls_catalog::rls_value::{
    Items, Kind, Name, Privilege, Reference, Refusal, Truth,
};
use rls_session::rls_core::rls_guard::rls_catalog::{Catalog, Delta, Side, Verdict};
use rls_session::rls_core::rls_guard::rls_grant::{grant, holds, missing, option, revoke};
use rls_session::rls_core::rls_guard::rls_policy::{applying, combine, is_exempt};
use rls_session::rls_core::rls_guard::rls_role::rls_statement::Statement;
use rls_session::rls_core::rls_guard::rls_role::{can_set, grant_member, has, revoke_member};
use rls_session::rls_core::rls_guard::rls_source::{Asker, Plain};
use rls_session::rls_text::parse;
use scenario::{Scenario, after, both, play};
use std::alloc::Global;

/// What is asked of a role of a state.
#[derive(Clone, Copy)]
enum Ask {
    /// Whether it has the privileges of the other one, or may set it.
    Has,
    CanSet,
    /// What its statement changes.
    Changes,
    /// Whether it holds SELECT on the table; what it lacks to update two columns.
    Holds,
    Missing,
    /// How many hold the grant option for SELECT on the table.
    Options,
    /// How many policies of the table apply to its SELECT, and whether it is exempt from them.
    Applying,
    Exempt,
    /// Whether a table's policies let a row by of which the first is true.
    Combined,
}

/// A call, what is asked, the statements that lead to the state, the role, the other one or the table, the role's statement, and the
/// number that is expected.
type Row = (
    &'static str,
    Ask,
    &'static [&'static str],
    &'static str,
    &'static str,
    &'static str,
    usize,
);

const NOTHING: &str = "RESET ROLE";

const ROWS: [Row; 12] = [
    ("has", Ask::Has, &CREWS, "bob", "fleet", NOTHING, 1),
    ("can_set", Ask::CanSet, &CREWS, "bob", "team", NOTHING, 0),
    (
        "grant_member",
        Ask::Changes,
        &CREWS,
        "postgres",
        "bob",
        "GRANT team TO fleet, crew",
        2,
    ),
    (
        "revoke_member",
        Ask::Changes,
        &CREWS,
        "postgres",
        "bob",
        "REVOKE fleet FROM crew, bob",
        2,
    ),
    ("holds", Ask::Holds, &GRANTS, "a", "t", NOTHING, 1),
    ("missing", Ask::Missing, &GRANTS, "b", "t", NOTHING, 1),
    ("option", Ask::Options, &GRANTS, "a", "t", NOTHING, 2),
    (
        "grant",
        Ask::Changes,
        &GRANTS,
        "a",
        "t",
        "GRANT SELECT ON t TO b, PUBLIC",
        1,
    ),
    (
        "revoke",
        Ask::Changes,
        &GRANTS,
        "postgres",
        "t",
        "REVOKE ALL ON t FROM a, b CASCADE",
        1,
    ),
    (
        "applying",
        Ask::Applying,
        &INFORMATION,
        "bob",
        "information",
        NOTHING,
        1,
    ),
    (
        "is_exempt",
        Ask::Exempt,
        &INFORMATION,
        "bob",
        "information",
        NOTHING,
        0,
    ),
    (
        "combine",
        Ask::Combined,
        &INFORMATION,
        "bob",
        "information",
        NOTHING,
        1,
    ),
];

/// A role, the other one or the table, and two columns of that.
#[derive(Drop)]
struct Names {
    role: Name,
    other: Name,
    columns: Items<Name>,
}

impl Names {
    fn new(alloc: Global, role: &str, other: &str) -> Result<Names, Refusal> {
        let names = both(Name::new(alloc, role), Name::new(alloc, other));
        let ((role, other), columns) = both(names, columns(alloc))?;
        Ok(Names {
            role,
            other,
            columns,
        })
    }
}

fn columns(alloc: Global) -> Result<Items<Name>, Refusal> {
    let mut columns = Items::new(alloc);
    let put = put_columns(alloc, &mut columns);
    after(columns, put)
}

fn put_columns(alloc: Global, columns: &mut Items<Name>) -> Result<(), Refusal> {
    columns.push(Name::new(alloc, "n")?)?;
    columns.push(Name::new(alloc, "k")?)?;
    Ok(())
}

#[derive(Drop)]
struct Asking {
    ask: Ask,
    names: Names,
    state: Catalog,
    statement: Statement,
    wanted: usize,
}

impl Asking {
    fn new(alloc: Global, row: Row) -> Result<Asking, Refusal> {
        let (_, ask, texts, role, other, statement, wanted) = row;
        let place = both(Names::new(alloc, role, other), state_after(alloc, texts));
        let (statement, (names, state)) = both(parse(alloc, statement), place)?;
        Ok(Asking {
            ask,
            names,
            state,
            statement,
            wanted,
        })
    }

    /// Whether it has the privileges of the other one, or may set it, as a number.
    fn has(&self, alloc: Global) -> Result<usize, Refusal> {
        let source = &mut Plain::new(&self.state);
        let has = has(alloc, source, &self.names.role, &self.names.other)?;
        Ok(usize::from(has))
    }

    fn can_set(&self, alloc: Global) -> Result<usize, Refusal> {
        let source = &mut Plain::new(&self.state);
        let can = can_set(alloc, source, &self.names.role, &self.names.other)?;
        Ok(usize::from(can))
    }

    /// How many objects its statement changes.
    fn changed(&self, alloc: Global) -> Result<usize, Refusal> {
        let changes = self.changes(alloc)?;
        let changed = changes.as_slice().len();
        drop(changes);
        Ok(changed)
    }

    fn holds(&self, alloc: Global) -> Result<usize, Refusal> {
        let source = &mut Plain::new(&self.state);
        let names = &self.names;
        let holds = holds(alloc, source, &names.role, Privilege::Select, &names.other)?;
        Ok(usize::from(holds))
    }

    fn missing(&self, alloc: Global) -> Result<usize, Refusal> {
        let source = &mut Plain::new(&self.state);
        let Names {
            role,
            other,
            columns,
        } = &self.names;
        let columns = columns.as_slice();
        let missing = missing(alloc, source, role, Privilege::Update, other, columns)?;
        let is_some = missing.is_some();
        drop(missing);
        Ok(usize::from(is_some))
    }

    fn options(&self, alloc: Global) -> Result<usize, Refusal> {
        let source = &mut Plain::new(&self.state);
        let holders = option(alloc, source, &self.names.other, Privilege::Select)?;
        let options = holders.len();
        drop(holders);
        Ok(options)
    }

    fn applying(&self, alloc: Global) -> Result<usize, Refusal> {
        let source = &mut Plain::new(&self.state);
        let Names { role, other, .. } = &self.names;
        let policies = applying(alloc, source, role, other, Kind::Select, Side::Old)?;
        Ok(policies.len())
    }

    /// What the statement changes.
    fn changes(&self, alloc: Global) -> Result<Delta, Refusal> {
        let mut asker = Asker::new(alloc, &self.state);
        let changes = self.changes_asked(&mut asker);
        drop(asker);
        changes
    }

    fn changes_asked(&self, asker: &mut Asker) -> Result<Delta, Refusal> {
        let role = &self.names.role;
        match &self.statement {
            Statement::GrantRoles(roles) => grant_member(asker, role, roles),
            Statement::RevokeRoles(roles) => revoke_member(asker, role, roles),
            Statement::Grant(privileges) => grant(asker, role, privileges),
            Statement::Revoke(privileges) => revoke(asker, role, privileges),
            _ => Err(Refusal::Foreign),
        }
    }

    /// Whether the role is exempt from the table's policies.
    fn exempt(&self, alloc: Global) -> Result<usize, Refusal> {
        match self.state.table(&self.names.other) {
            Some(table) => {
                let source = &mut Plain::new(&self.state);
                let is_exempt = is_exempt(alloc, source, &self.names.role, table)?;
                Ok(usize::from(is_exempt))
            }
            None => Err(Refusal::Foreign),
        }
    }

    /// Whether a row passes by the first policy of the table, where that alone is true.
    fn combined(&self) -> Result<usize, Refusal> {
        let mut policies = self.state.policies(&self.names.other).iter();
        let (Some(first), Some(second)) = (policies.next(), policies.next()) else {
            return Err(Refusal::Foreign);
        };
        let judged = [
            (Reference::new(first.get()), Truth::True),
            (Reference::new(second.get()), Truth::False),
        ];
        let verdict = combine(&judged)?;
        let is_let_by = matches!(verdict, Verdict::By(_));
        drop(verdict);
        Ok(usize::from(is_let_by))
    }
}

impl Scenario for Asking {
    type Answer = usize;

    fn call(&mut self, alloc: Global) -> Result<usize, Refusal> {
        match self.ask {
            Ask::Has => self.has(alloc),
            Ask::CanSet => self.can_set(alloc),
            Ask::Changes => self.changed(alloc),
            Ask::Holds => self.holds(alloc),
            Ask::Missing => self.missing(alloc),
            Ask::Options => self.options(alloc),
            Ask::Applying => self.applying(alloc),
            Ask::Exempt => self.exempt(alloc),
            Ask::Combined => self.combined(),
        }
    }

    fn is_answer(&self, answer: &usize, _alloc: Global) -> Result<bool, Refusal> {
        Ok(*answer == self.wanted)
    }
}

pub fn play_all(rt: &impl Print, alloc: Global) {
    for row in ROWS {
        play(
            rt,
            alloc,
            row.0,
            Asking::new(alloc, row),
            Asking::new(alloc, row),
        );
    }
}
