//! A script, read into its phases.

ghost use Rattle.std.specs.Prelude.{◌≡◌, [], IfOk, OnOk, codes, length, map};
ghost use Rattle.std.specs.Str.Lines.{lines};
ghost use Rattle.rls_script.specs.Plans.{ReadsLines, found_at, next_phase, opening_plan, phases_of, with_line, with_task};

use crate::line::{Line, first_line, read_line};
use crate::names::Names;
use std::alloc::{AllocError, Global};
use std::marker::Model;
use std::mem;

/// A line that is answered: the place of its label among the script's labels, its number from 1, and its command.
#[derive(Drop)]
pub struct Task<'s> {
    pub place: usize,
    pub line: u32,
    pub command: &'s str,
}

impl<'s> Model for Task<'s> {
    ghost use Rattle.rls_script.specs.Plans.{Task};

    ghost Value = { Task };

    ghost view = { λ it. record { place = it.place; command = it.command.now } };
}

/// What was read of a script.
#[derive(Drop)]
pub struct Plan<'s> {
    names: Names<'s>,
    before: Vec<Vec<Task<'s>>>,
    now: Vec<Task<'s>>,
}

impl<'s> Model for Plan<'s> {
    ghost use Rattle.std.specs.Prelude.{map};
    ghost use Rattle.rls_script.specs.Plans.{Plan};

    ghost Value = { Plan };

    ghost view = { λ it. record { names = it.names; before = map (λ phase. phase.items) it.before.items; now = it.now.items } };
}

impl<'s> Plan<'s> {
    fn new(alloc: Global) -> Plan<'s>
        ensures { result ≡ opening_plan }
    {
        Plan {
            names: Names::new(alloc),
            before: Vec::new(alloc),
            now: Vec::new(alloc),
        }
    }

    /// Puts a line behind the others.
    fn put(&mut self, alloc: Global, number: u32, line: Line<'s>) -> Result<(), AllocError>
        ensures { OnOk result (self.new ≡ with_line line.entry self.old) }
    {
        match line {
            Line::Skipped => Ok(()),
            Line::Phase => self.end_phase(alloc),
            Line::Command { label, command } => self.put_task(number, label, command),
            Line::Unlabelled => self.put_task(number, "?", ""),
        }
    }

    fn end_phase(&mut self, alloc: Global) -> Result<(), AllocError>
        ensures { OnOk result (self.new ≡ next_phase self.old) }
    {
        if self.now.is_empty() {
            return Ok(());
        }
        self.before.reserve(1)?;
        let phase = mem::replace(&mut self.now, Vec::new(alloc));
        self.before.push_reserved(phase);
        Ok(())
    }

    fn put_task(&mut self, number: u32, label: &'s str, command: &'s str) -> Result<(), AllocError>
        ensures { OnOk result (self.new ≡ with_task self.old label.now command.now) }
    {
        self.now.reserve(1)?;
        let place = self.names.place(label)?;
        self.now.push_reserved(Task {
            place,
            line: number,
            command,
        });
        Ok(())
    }

    /// The labels, and all phases.
    pub fn into_parts(self) -> Result<(Names<'s>, Vec<Vec<Task<'s>>>), AllocError>
        ensures names { IfOk result (λ parts. parts.0 ≡ self.entry.names) }
        ensures phases { IfOk result (λ parts. map (λ phase. phase.items) parts.1.items ≡ phases_of self.entry) }
    {
        let Plan {
            names,
            mut before,
            now,
        } = self;
        before.reserve(1)?;
        before.push_reserved(now);
        Ok((names, before))
    }
}

/// Reads a script's lines.
pub fn read_plan(alloc: Global, script: &[u8]) -> Result<Plan<'_>, AllocError>
    ensures { IfOk result (ReadsLines (lines script.now) opening_plan) }
{
    let mut plan = Plan::new(alloc);
    let mut number = 0u32;
    let mut rest = script;
    while !rest.is_empty() {
        let (line, behind) = first_line(rest);
        number = number.saturating_add(1);
        plan.put(alloc, number, read_line(line))?;
        rest = behind;
    }
    Ok(plan)
}
