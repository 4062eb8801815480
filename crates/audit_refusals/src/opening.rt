//! Cores that audits begin on, and whether two states are the same.

use rls_check::rls_agreement::agrees_on;
use rls_check::rls_audit::rls_access::Mode;
use rls_check::rls_audit::rls_core::{Begin, Core};
use rls_check::rls_audit::rls_rows::State;
use rls_check::rls_audit::rls_text::parse;
use rls_check::rls_guard::rls_role::rls_statement::Statement;
use rls_check::rls_guard::rls_source::Footprint;
use rls_value::shared::Share;
use rls_value::{Name, Object, Refusal};
use scenario::{after, both, taken};
use std::alloc::Global;

/// A core on which `postgres` has connected, and run each statement in a transaction of its own.
pub fn core_after(alloc: Global, texts: &[&str]) -> Result<Core, Refusal> {
    let mut core = Core::new(alloc)?;
    let ran = run_all(&mut core, alloc, texts);
    after(core, ran)
}

fn run_all(core: &mut Core, alloc: Global, texts: &[&str]) -> Result<(), Refusal> {
    connect(core, alloc, "postgres")?;
    for text in texts {
        run_alone(core, alloc, "postgres", text)?;
    }
    Ok(())
}

/// The statement of the role in a transaction of its own.
pub fn run_alone(core: &mut Core, alloc: Global, role: &str, text: &str) -> Result<(), Refusal> {
    let txn = core.begin(alloc, begin_as(alloc, role)?)?;
    core.post(alloc, txn, shared(alloc, text)?)?;
    core.commit(alloc, txn)?;
    Ok(())
}

/// The role connects, which takes a number.
pub fn connect(core: &mut Core, alloc: Global, role: &str) -> Result<(), Refusal> {
    let txn = core.begin(alloc, begin_as(alloc, role)?)?;
    core.rollback(txn)
}

/// One begins as that role.
fn begin_as(alloc: Global, role: &str) -> Result<Begin, Refusal> {
    let (login, role) = both(Name::new(alloc, role), Name::new(alloc, role))?;
    Ok(Begin {
        login,
        role,
        mode: Mode::Write,
    })
}

/// The statement of the text, shared.
fn shared(alloc: Global, text: &str) -> Result<Share<Statement>, Refusal> {
    let statement = parse(alloc, text)?;
    taken(Share::new(alloc, statement))
}

/// Whether the two states have the same contents under these names.
pub fn are_same_versions<'x>(
    alloc: Global,
    left: &'x State,
    right: &'x State,
    names: &[&str],
) -> Result<bool, Refusal> {
    let all = everything(alloc, names)?;
    let mut left = left.view();
    let mut right = right.view();
    let agree = agrees_on(alloc, &mut left, &mut right, &all);
    drop(all);
    Ok(agree?)
}

/// All that a state has under these names, of roles and of tables.
fn everything(alloc: Global, names: &[&str]) -> Result<Footprint, Refusal> {
    let mut all = Footprint::new(alloc);
    let noted = note_everything(alloc, &mut all, names);
    after(all, noted)
}

fn note_everything(alloc: Global, all: &mut Footprint, names: &[&str]) -> Result<(), Refusal> {
    for text in names {
        let name = Name::new(alloc, text)?;
        let noted = note_all_of(all, &name);
        drop(name);
        noted?;
    }
    Ok(())
}

/// Notes all that a state has under the name.
fn note_all_of(all: &mut Footprint, name: &Name) -> Result<(), Refusal> {
    all.note(Object::Role(name.copy()?))?;
    all.note(Object::Members(name.copy()?))?;
    all.note(Object::Table(name.copy()?))?;
    all.note(Object::Grants(name.copy()?))?;
    all.note(Object::Policies(name.copy()?))?;
    all.note(Object::Rows(name.copy()?))?;
    Ok(())
}
