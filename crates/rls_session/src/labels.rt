//! The labels of a script, each with a session of its own.

ghost use Rattle.std.specs.Prelude.{◌≡◌, ◌<◌, ◌≤◌, [], length, List, ℕ, IfOk, OnOk, IsErrOf};
ghost use Rattle.std.specs.Str.{bytes_eq};
ghost use Rattle.rls_script.specs.Spelled.{AsksTexts};
ghost use Rattle.rls_session.specs.Labels as spec;
ghost use Rattle.rls_session.specs.Blocks.{open_part};
ghost use Rattle.rls_session.specs.Labels.{AnswersUnder, ExecutesUnder, ended_all, sessions_of};
ghost use Rattle.rls_session.specs.Parts.{with_end, with_ended};

use crate::gate::{At, NoGate};
use crate::label::Label;
use crate::notes::Notes;
use crate::tried::End;
use rls_engine::{Engine, Named};
use rls_script::{Answer, RunFault};
use rls_value::{Limit, Refusal, Text};
use std::alloc::Global;
use std::marker::Model;
use std::sync::Wait;
use std::time::Clock;

/// The most labels that have sessions in a script.
pub const MAX_LABELS: usize = 64;

/// A label that has come, by its name. It must be closed.
pub(crate) struct Entry<'a, N: Named> {
    name: Text,
    label: Label<'a, N>,
}

impl<'a, N: Named> Model for Entry<'a, N> {
    ghost use Rattle.rls_session.specs.Labels.{Entry, entry_code};

    ghost Value = { Entry };

    ghost coded = { entry_code };

    ghost view = { λ it. record { name = it.name; session = it.label } };
}

impl<'a, N: Named> Entry<'a, N> {
    /// Ends an open block, as at the end of a script.
    fn end<R: Wait>(&mut self, rt: &R, notes: &mut Notes<N>) -> Result<(), RunFault>
        ensures ok { OnOk result (notes.new ≡ with_end End.Script (with_ended notes.old (open_part self.old.session))) }
        ensures read { ¬ IsErrOf result RunFault.Read }
        ensures write { ¬ IsErrOf result RunFault.Write }
    {
        match self.label.end(rt, notes) {
            Ok(()) => {
                notes.tell(End::Script)?;
                Ok(())
            }
            Err(refusal) => Err(RunFault::of(refusal)),
        }
    }
}

/// The labels in the order in which they came, seen as their list. They must be closed.
pub(crate) struct Labels<'a, N: Named> {
    engine: &'a Engine<N>,
    labels: Vec<Entry<'a, N>>,
}

impl<'a, N: Named> Model for Labels<'a, N> {
    ghost use Rattle.std.specs.Prelude.{List};
    ghost use Rattle.std.specs.Coded.{coded_list};
    ghost use Rattle.rls_session.specs.Labels.{Entry, entry_code};

    ghost Value = { List Entry };

    ghost coded = { coded_list entry_code };

    ghost view = { λ it. it.labels.items };
}

impl<'a, N: Named> Labels<'a, N> {
    /// No label has come.
    pub(crate) fn new(alloc: Global, engine: &'a Engine<N>) -> Labels<'a, N>
        ensures { result ≡ [] }
    {
        Labels {
            engine,
            labels: Vec::new(alloc),
        }
    }

    /// Ends every session.
    pub(crate) fn close<R: Wait>(self, rt: &R) {
        let Labels {
            engine: _,
            mut labels,
        } = self;
        while let Some(entry) = labels.pop() {
            let Entry { name: _, label } = entry;
            label.close(rt);
        }
        labels.destroy_empty();
    }

    /// Ends the open blocks, as at the end of a script, in the order of the labels.
    pub(crate) fn end<R: Wait>(&mut self, rt: &R, notes: &mut Notes<N>) -> Result<(), RunFault>
        ensures ok { OnOk result (notes.new ≡ ended_all (sessions_of self.old) notes.old) }
        ensures read { ¬ IsErrOf result RunFault.Read }
        ensures write { ¬ IsErrOf result RunFault.Write }
    {
        match end_entries(rt, self.labels.as_mut_slice(), notes) {
            Ok(()) => Ok(()),
            Err(fault) => Err(fault),
        }
    }

    fn len(&self) -> usize
        ensures { result ≡ length self.now }
    {
        self.labels.len()
    }

    /// The place of the label; one that hasn't come is behind them all.
    fn place_of(&self, name: &str) -> usize
        ensures { result ≡ spec.place_of self.now name.now }
    {
        place_among(self.labels.as_slice(), name)
    }

    /// Executes one command under a label. A label counts from its first command, whatever that is answered; each command under a
    /// 65th is refused.
    pub(crate) fn answer<R: Wait + Clock>(
        &mut self,
        rt: &R,
        alloc: Global,
        notes: &mut Notes<N>,
        name: &str,
        command: &str,
    ) -> Result<Answer, RunFault>
        requires wide { N.parts ≡ 18446744073709551615 }
        requires texts { AsksTexts N.asks }
        ensures ok { IfOk result (λ answer. AnswersUnder record { labels = self.old; notes = notes.old } name.now command.now answer record { labels = self.new; notes = notes.new }) }
        ensures read { ¬ IsErrOf result RunFault.Read }
        ensures write { ¬ IsErrOf result RunFault.Write }
    {
        let place = self.place_of(name);
        if place >= MAX_LABELS {
            return Ok(Answer::Refused(Refusal::Limit(Limit::Sessions)));
        }
        let answer = if place < self.len() {
            self.execute_at(rt, alloc, notes, place, command)
        } else {
            self.execute_first(rt, alloc, notes, name, command)
        };
        match answer {
            Ok(answer) => Ok(answer),
            Err(refusal) => Err(RunFault::of(refusal)),
        }
    }

    /// Executes the command in the session of a label that has come.
    fn execute_at<R: Wait + Clock>(
        &mut self,
        rt: &R,
        alloc: Global,
        notes: &mut Notes<N>,
        place: usize,
        command: &str,
    ) -> Result<Answer, Refusal>
        requires wide { N.parts ≡ 18446744073709551615 }
        requires texts { AsksTexts N.asks }
        requires place { place < length self.old }
        ensures { IfOk result (λ answer. (name : List ℕ) → place ≡ spec.place_of self.old name → ExecutesUnder notes.old self.old name command.now answer notes.new self.new) }
    {
        let entry = &mut self.labels[place];
        entry
            .label
            .execute_at(rt, alloc, &nowhere(), notes, command)
    }

    /// Executes the first command under a label.
    #[tactic(auto, using(crate::proofs::LabelLemmas::under_first))]
    fn execute_first<R: Wait + Clock>(
        &mut self,
        rt: &R,
        alloc: Global,
        notes: &mut Notes<N>,
        name: &str,
        command: &str,
    ) -> Result<Answer, Refusal>
        requires wide { N.parts ≡ 18446744073709551615 }
        requires texts { AsksTexts N.asks }
        requires new { length self.old ≤ spec.place_of self.old name.now }
        ensures { IfOk result (λ answer. ExecutesUnder notes.old self.old name.now command.now answer notes.new self.new) }
    {
        let Ok(name) = Text::new(alloc, name) else {
            return Err(Refusal::NoMemory);
        };
        let labels = &mut self.labels;
        let Ok(()) = labels.reserve(1) else {
            drop(name);
            return Err(Refusal::NoMemory);
        };
        let mut label = Label::new(self.engine);
        let answer = match label.execute_at(rt, alloc, &nowhere(), notes, command) {
            Ok(answer) => answer,
            Err(refusal) => {
                drop(name);
                label.close(rt);
                return Err(refusal);
            }
        };
        labels.push_reserved(Entry { name, label });
        Ok(answer)
    }
}

/// Where no gate is.
fn nowhere<'g>() -> At<'g, NoGate> {
    At {
        gate: &NoGate,
        session: 0,
        line: 0,
    }
}

/// Ends the open blocks, as at the end of a script, in the order of the labels.
fn end_entries<N: Named, R: Wait>(
    rt: &R,
    entries: &mut [Entry<'_, N>],
    notes: &mut Notes<N>,
) -> Result<(), RunFault>
    ensures ok { OnOk result (notes.new ≡ ended_all (sessions_of entries.old) notes.old) }
    ensures read { ¬ IsErrOf result RunFault.Read }
    ensures write { ¬ IsErrOf result RunFault.Write }
{
    for i in 0..entries.len() {
        entries[i].end(rt, notes)?;
    }
    Ok(())
}

fn place_among<N: Named>(labels: &[Entry<'_, N>], name: &str) -> usize
    ensures { result ≡ spec.place_of labels.now name.now }
{
    let mut place = 0;
    let mut rest = labels;
    while let [first, tail @ ..] = rest {
        if first.name.as_str() == name {
            break;
        }
        place += 1;
        rest = tail;
    }
    place
}
