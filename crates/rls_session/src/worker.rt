//! A label's thread.

ghost use Rattle.std.specs.Prelude.{◌≡◌, ◌<◌, ◌++◌, None, codes, length, false, slice_index_or, IfOk, OnOk, OnErr, IsErrOf, IfErr};
ghost use Rattle.rls_script.specs.Rendering.{answer_text};
ghost use Rattle.rls_script.specs.Plans.{standing_of};
ghost use Rattle.rls_script.specs.Spelled.{AsksTexts};
ghost use Rattle.rls_session.specs.Blocks.{Executes, open_part};
ghost use Rattle.rls_session.specs.Parts.{joined, alike, with_end, with_ended};
ghost use Rattle.rls_session.specs.Phases.{Follows, RunsAs, RunsServed, RunsTask, opening_seat, refused_text};
ghost use Rattle.rls_session.specs.Works.{IsRan, entered, finished};

use crate::gate::{At, Gate};
use crate::label::Label;
use crate::notes::Notes;
use crate::tried::End;
use rls_engine::{Engine, Named};
use rls_script::{Answer, Failed, RunFault, ScriptOut, Standing, Task, render, write_all};
use rls_value::Refusal;
use std::alloc::Global;
use std::marker::Model;
use std::sync::Wait;
use std::time::Clock;

/// What a label's thread works with in a phase: its seat, what it was shown, and what is to be written for it. It must be closed.
pub(crate) struct Worker<'a, N: Named, G: Gate> {
    alloc: Global,
    gate: &'a G,
    place: usize,
    name: &'a str,
    standing: Standing,
    number: u32,
    label: Label<'a, N>,
    notes: Notes<N>,
    text: Vec<u8>,
    fault: Option<Refusal>,
}

impl<'a, N: Named, G: Gate> Model for Worker<'a, N, G> {
    ghost use Rattle.std.specs.Prelude.{is_some};
    ghost use Rattle.rls_session.specs.Works.{Work, work_code};

    ghost Value = { Work };

    ghost coded = { work_code };

    ghost view = { λ it. record { track = record { seat = record { place = it.place; name = it.name.now; standing = it.standing; session = it.label }; notes = it.notes; written = it.text.items }; failed = is_some it.fault } };
}

impl<'a, N: Named, G: Gate> Worker<'a, N, G> {
    /// The label at a place, of which `unlabelled` is that of `?`, with nobody connected.
    pub(crate) fn new(
        alloc: Global,
        engine: &'a Engine<N>,
        gate: &'a G,
        place: usize,
        name: &'a str,
        unlabelled: usize,
    ) -> Worker<'a, N, G>
        requires { place < 65 }
        ensures { result.track.seat ≡ record { place = place; name = name.now; standing = standing_of unlabelled place; session = None } }
    {
        let before = if unlabelled < place { place - 1 } else { place };
        Worker {
            alloc,
            gate,
            place,
            name,
            standing: Standing::of(unlabelled, place),
            number: before as u32 + 1,
            label: Label::new(engine),
            notes: Notes::new(alloc, engine.tag(), false),
            text: Vec::new(alloc),
            fault: None,
        }
    }

    /// Ends its session.
    pub(crate) fn close<R: Wait>(self, rt: &R) {
        let Worker {
            alloc: _,
            gate: _,
            place: _,
            name: _,
            standing: _,
            number: _,
            label,
            notes: _,
            text: _,
            fault: _,
        } = self;
        label.close(rt);
    }

    /// Ends an open block, as at the end of a script.
    pub(crate) fn end<R: Wait>(&mut self, rt: &R, notes: &mut Notes<N>) -> Result<(), RunFault>
        ensures ok { OnOk result (notes.new ≡ with_end End.Script (with_ended notes.old (open_part self.old.track.seat.session))) }
        ensures read { ¬ IsErrOf result RunFault.Read }
        ensures write { ¬ IsErrOf result RunFault.Write }
    {
        match self.label.end(rt, notes) {
            Ok(()) => {
                notes.tell(End::Script)?;
                Ok(())
            }
            Err(refusal) => Err(RunFault::of(refusal)),
        }
    }

    /// Begins a phase, knowing what all know.
    pub(crate) fn enter(&mut self, notes: &Notes<N>)
        ensures { self.new ≡ entered notes.now self.old }
    {
        self.notes = notes.alike(self.alloc);
        self.text.clear();
        self.fault = None;
    }

    /// Runs its lines of a phase.
    pub(crate) fn run<R: Wait + Clock>(&mut self, rt: &R, tasks: &[Task<'_>])
        requires wide { N.parts ≡ 18446744073709551615 }
        requires texts { AsksTexts N.asks }
        ensures { IsRan self.old tasks.now self.new }
    {
        if let Err(fault) = self.run_tasks(rt, tasks) {
            self.fault = Some(fault);
        }
    }

    fn run_tasks<R: Wait + Clock>(&mut self, rt: &R, tasks: &[Task<'_>]) -> Result<(), Refusal>
        requires wide { N.parts ≡ 18446744073709551615 }
        requires texts { AsksTexts N.asks }
        ensures { OnOk result (Follows self.old.track tasks.now self.new.track) }
    {
        for task in tasks {
            self.run_task(rt, task)?;
        }
        Ok(())
    }

    /// Runs a line, if it is the label's.
    fn run_task<R: Wait + Clock>(&mut self, rt: &R, task: &Task<'_>) -> Result<(), Refusal>
        requires wide { N.parts ≡ 18446744073709551615 }
        requires texts { AsksTexts N.asks }
        ensures { OnOk result (RunsTask self.old.track task.now self.new.track) }
    {
        if task.place != self.place {
            return Ok(());
        }
        self.run_own(rt, task.line, task.command)
    }

    fn run_own<R: Wait + Clock>(&mut self, rt: &R, line: u32, command: &str) -> Result<(), Refusal>
        requires wide { N.parts ≡ 18446744073709551615 }
        requires texts { AsksTexts N.asks }
        ensures { OnOk result (RunsAs self.old.track.seat.standing self.old.track command.now self.new.track) }
    {
        match self.standing {
            Standing::Served => self.execute(rt, line, command),
            Standing::Unlabelled => self.say(
                false,
                Answer::Refused(Standing::Unlabelled.refusal()),
            ),
            Standing::Beyond => self.say(false, Answer::Refused(Standing::Beyond.refusal())),
        }
    }

    /// Executes a command in the label's session.
    fn execute<R: Wait + Clock>(&mut self, rt: &R, line: u32, command: &str) -> Result<(), Refusal>
        requires wide { N.parts ≡ 18446744073709551615 }
        requires texts { AsksTexts N.asks }
        ensures { OnOk result (RunsServed self.old.track command.now self.new.track) }
    {
        let at = At {
            gate: self.gate,
            session: self.number,
            line,
        };
        let terse = self.notes.is_terse();
        let answer = self
            .label
            .execute_at(rt, self.alloc, &at, &mut self.notes, command)?;
        let Ok(()) = self.notes.tell_by(self.alloc, &answer) else {
            drop(answer);
            return Err(Refusal::NoMemory);
        };
        self.say(terse, answer)
    }

    /// Puts an answer behind what is to be written.
    fn say(&mut self, terse: bool, answer: Answer) -> Result<(), Refusal>
        ensures { OnOk result (self.new.track ≡ record { seat = self.old.track.seat; notes = self.old.track.notes; written = self.old.track.written ++ answer_text terse self.old.track.seat.name answer }) }
    {
        let rendered = render(self.alloc, terse, self.name, &answer);
        drop(answer);
        let Ok(bytes) = rendered else {
            return Err(Refusal::NoMemory);
        };
        let Ok(()) = self.text.extend_from_slice(bytes.as_slice()) else {
            drop(bytes);
            return Err(Refusal::NoMemory);
        };
        drop(bytes);
        Ok(())
    }

    /// Leaves what it was shown to the others, and writes its text.
    pub(crate) fn finish<O: ScriptOut>(
        &mut self,
        notes: &mut Notes<N>,
        output: &mut O,
    ) -> Result<(), RunFault>
        requires wide { N.parts ≡ 18446744073709551615 }
        ensures whole { OnOk result (self.old.failed ≡ false) }
        ensures left { OnOk result (self.new ≡ finished self.old) }
        ensures notes { OnOk result (notes.new ≡ joined notes.old self.old.track.notes) }
        ensures text { OnOk result (O.taken output.new ≡ O.taken output.old ++ self.old.track.written) }
        ensures ok { OnOk result (O.failures output.new ≡ O.failures output.old) }
        ensures read { ¬ IsErrOf result RunFault.Read }
        ensures write { IsErrOf result RunFault.Write → O.failures output.old < O.failures output.new }
        ensures write_failed { O.failures output.old < O.failures output.new → IsErrOf result RunFault.Write }
    {
        if let Some(fault) = self.fault.take() {
            return Err(RunFault::of(fault));
        }
        match notes.join(&mut self.notes) {
            Ok(()) => match write_all(self.text.as_slice(), output) {
                Ok(()) => Ok(()),
                Err(Failed) => Err(RunFault::Write),
            },
            Err(fault) => Err(RunFault::of(fault)),
        }
    }
}
