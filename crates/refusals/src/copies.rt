//! Copies of values, definitions and changes. That a copy is equal is proved; here it is made.

use crate::opening::{GRANTS, INFORMATION, changes_of, state_after};
use rls_session::rls_core::rls_guard::rls_catalog::rls_expr::{Expr, Policy, TableDef};
use rls_session::rls_core::rls_guard::rls_catalog::rls_value::{
    Cause, GrantFault, Name, Object, Privilege, Refusal, Row, Text, Value, Why,
};
use rls_session::rls_core::rls_guard::rls_catalog::{Catalog, Change, Delta, Grant, Verdict};
use scenario::{Scenario, both, play, taken};
use std::alloc::{AllocError, Global};

/// What is copied.
#[derive(Clone, Copy)]
enum Kept {
    Name,
    Value,
    Row,
    Object,
    Cause,
    Why,
    Fault,
    Refusal,
    Table,
    Policy,
    Expr,
    Grant,
    Delta,
    Change,
    Verdict,
}

/// Each copy.
const COPIES: [(&str, Kept); 15] = [
    ("Name::copy", Kept::Name),
    ("Value::copy", Kept::Value),
    ("Row::copy", Kept::Row),
    ("Object::copy", Kept::Object),
    ("Cause::copy", Kept::Cause),
    ("Why::copy", Kept::Why),
    ("GrantFault::copy", Kept::Fault),
    ("Refusal::copy", Kept::Refusal),
    ("TableDef::copy", Kept::Table),
    ("Policy::copy", Kept::Policy),
    ("Expr::copy", Kept::Expr),
    ("Grant::copy", Kept::Grant),
    ("Delta::copy", Kept::Delta),
    ("Change::copy", Kept::Change),
    ("Verdict::copy", Kept::Verdict),
];

/// Values, and what is refused.
#[derive(Drop)]
struct Values {
    value: Value,
    row: Row,
    object: Object,
    refusal: Refusal,
}

impl Values {
    fn new(alloc: Global) -> Result<Values, Refusal> {
        let plain = both(value(alloc), row(alloc));
        let others = both(key_of(alloc, "t"), refusal(alloc));
        let ((value, row), (object, refusal)) = both(plain, others)?;
        Ok(Values {
            value,
            row,
            object,
            refusal,
        })
    }
}

fn value(alloc: Global) -> Result<Value, Refusal> {
    Ok(Value::Text(Text::new(alloc, "barely secret")?))
}

/// A key of the table.
fn key_of(alloc: Global, table: &str) -> Result<Object, Refusal> {
    let (table, key) = both(Name::new(alloc, table), row(alloc))?;
    Ok(Object::Key(table, key))
}

/// What is refused, and why.
#[derive(Drop)]
struct Causes {
    why: Why,
    fault: GrantFault,
    verdict: Verdict,
}

impl Causes {
    fn new(alloc: Global) -> Result<Causes, Refusal> {
        let faults = both(why(alloc), fault(alloc));
        let ((why, fault), policy) = both(faults, Name::new(alloc, "t"))?;
        Ok(Causes {
            why,
            fault,
            verdict: Verdict::Restrictive(policy),
        })
    }
}

fn why(alloc: Global) -> Result<Why, Refusal> {
    let (table, column) = both(Name::new(alloc, "t"), Name::new(alloc, "k"))?;
    Ok(Why::Column(Privilege::Select, table, column))
}

fn fault(alloc: Global) -> Result<GrantFault, Refusal> {
    let (role, member) = both(Name::new(alloc, "t"), Name::new(alloc, "bob"))?;
    Ok(GrantFault::Cycle(role, member))
}

/// States with the table `t`, and with policies of `information`.
#[derive(Drop)]
struct States {
    name: Name,
    tables: Catalog,
    information: Name,
    policies: Catalog,
}

impl States {
    fn new(alloc: Global) -> Result<States, Refusal> {
        let names = both(Name::new(alloc, "t"), Name::new(alloc, "information"));
        let states = both(
            state_after(alloc, &GRANTS),
            state_after(alloc, &INFORMATION),
        );
        let ((name, information), (tables, policies)) = both(names, states)?;
        Ok(States {
            name,
            tables,
            information,
            policies,
        })
    }

    /// The table `t`.
    fn table(&self) -> Result<&TableDef, Refusal> {
        self.tables.table(&self.name).ok_or(Refusal::Foreign)
    }

    fn grant(&self) -> Result<&Grant, Refusal> {
        self.tables
            .grants(&self.name)
            .iter()
            .next()
            .ok_or(Refusal::Foreign)
    }

    /// A policy whose condition has a subquery.
    fn policy(&self) -> Result<&Policy, Refusal> {
        match self.policies.policies(&self.information).iter().next() {
            Some(policy) => Ok(policy.get()),
            None => Err(Refusal::Foreign),
        }
    }

    /// The change that makes the table.
    fn change(&self, alloc: Global) -> Result<Change, Refusal> {
        let name = taken(self.name.copy());
        let (name, table) = both(name, copy_of(alloc, self.table()))?;
        Ok(Change::Table(name, table))
    }
}

fn copy_of(alloc: Global, table: Result<&TableDef, Refusal>) -> Result<TableDef, Refusal> {
    match table {
        Ok(table) => taken(table.copy(alloc)),
        Err(refusal) => Err(refusal),
    }
}

/// Changes of these states.
#[derive(Drop)]
struct Changes {
    delta: Delta,
    change: Change,
}

impl Changes {
    fn new(alloc: Global, states: &States) -> Result<Changes, Refusal> {
        let delta = changes_of(alloc, &states.tables, 9, "UPDATE t SET n = 0");
        let (delta, change) = both(delta, states.change(alloc))?;
        Ok(Changes { delta, change })
    }
}

/// One of each.
#[derive(Drop)]
struct Originals {
    values: Values,
    causes: Causes,
    changes: Changes,
    states: States,
}

impl Originals {
    fn new(alloc: Global) -> Result<Originals, Refusal> {
        let plain = both(Values::new(alloc), Causes::new(alloc));
        let ((values, causes), (changes, states)) = both(plain, changed(alloc))?;
        Ok(Originals {
            values,
            causes,
            changes,
            states,
        })
    }
}

/// States, and changes of them.
fn changed(alloc: Global) -> Result<(Changes, States), Refusal> {
    let states = States::new(alloc)?;
    match Changes::new(alloc, &states) {
        Ok(changes) => Ok((changes, states)),
        Err(refusal) => {
            drop(states);
            Err(refusal)
        }
    }
}

/// A row of three values.
fn row(alloc: Global) -> Result<Row, Refusal> {
    let text = Value::Text(Text::new(alloc, "it's")?);
    let values = vec![in alloc; text, Value::Int(-7), Value::Null]?;
    taken(Row::new(values))
}

/// A refusal for a conflict.
fn refusal(alloc: Global) -> Result<Refusal, Refusal> {
    let (key, table) = both(key_of(alloc, "users"), Name::new(alloc, "information"))?;
    Ok(Refusal::Serial(Cause::Structure {
        first: 17,
        read_by_first: key,
        pivot: 18,
        read_by_pivot: Object::Rows(table),
        last: 17,
    }))
}

fn cause(refusal: &Refusal) -> Result<&Cause, Refusal> {
    match refusal {
        Refusal::Serial(cause) => Ok(cause),
        _ => Err(Refusal::Foreign),
    }
}

fn condition(policy: &Policy) -> Result<&Expr, Refusal> {
    match &policy.using {
        Some(condition) => Ok(condition.get()),
        None => Err(Refusal::Foreign),
    }
}

#[derive(Drop)]
struct Copying {
    it: Originals,
    kept: Kept,
}

impl Copying {
    fn new(alloc: Global, kept: Kept) -> Result<Copying, Refusal> {
        Ok(Copying {
            it: Originals::new(alloc)?,
            kept,
        })
    }
}

/// That it was copied.
fn done<T: Drop>(copied: Result<T, AllocError>) -> Result<(), Refusal> {
    match copied {
        Ok(copy) => {
            drop(copy);
            Ok(())
        }
        Err(error) => Err(Refusal::from(error)),
    }
}

impl Copying {
    fn copy_value(&self, alloc: Global) -> Result<(), Refusal> {
        let values = &self.it.values;
        match self.kept {
            Kept::Value => done(values.value.copy()),
            Kept::Row => done(values.row.copy(alloc)),
            Kept::Object => done(values.object.copy(alloc)),
            Kept::Refusal => done(values.refusal.copy(alloc)),
            _ => done(cause(&values.refusal)?.copy(alloc)),
        }
    }

    fn copy_cause(&self) -> Result<(), Refusal> {
        let causes = &self.it.causes;
        match self.kept {
            Kept::Why => done(causes.why.copy()),
            Kept::Fault => done(causes.fault.copy()),
            _ => done(causes.verdict.copy()),
        }
    }

    fn copy_definition(&self, alloc: Global) -> Result<(), Refusal> {
        let states = &self.it.states;
        match self.kept {
            Kept::Name => done(states.name.copy()),
            Kept::Table => done(states.table()?.copy(alloc)),
            Kept::Policy => done(states.policy()?.copy(alloc)),
            Kept::Expr => done(condition(states.policy()?)?.copy(alloc)),
            _ => done(states.grant()?.copy()),
        }
    }
}

impl Scenario for Copying {
    type Answer = ();

    fn call(&mut self, alloc: Global) -> Result<(), Refusal> {
        match self.kept {
            Kept::Delta => done(self.it.changes.delta.copy(alloc)),
            Kept::Change => done(self.it.changes.change.copy(alloc)),
            Kept::Why | Kept::Fault | Kept::Verdict => self.copy_cause(),
            Kept::Value | Kept::Row | Kept::Object | Kept::Refusal | Kept::Cause => {
                self.copy_value(alloc)
            }
            _ => self.copy_definition(alloc),
        }
    }

    fn is_answer(&self, _answer: &(), _alloc: Global) -> Result<bool, Refusal> {
        Ok(true)
    }
}

pub fn play_all(rt: &impl Print, alloc: Global) {
    for (call, kept) in COPIES {
        play(
            rt,
            alloc,
            call,
            Copying::new(alloc, kept),
            Copying::new(alloc, kept),
        );
    }
}
