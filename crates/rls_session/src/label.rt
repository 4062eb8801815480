//! A label, under which somebody may be connected.

ghost use Rattle.std.specs.Prelude.{◌≡◌, None, Some, IfOk, OnOk, IfErr, IsOk, OnErr};
ghost use Rattle.rls_value.specs.declared.refusal.Refusal.TheVariants.{NoMemory, Foreign};
ghost use Rattle.rls_script.specs.Connects.{ConnectsToLongName};
ghost use Rattle.rls_script.specs.Requests.{IsAtOnce};
ghost use Rattle.rls_script.specs.Spelled.{AsksTexts, IfAsked, IfRequested};
ghost use Rattle.rls_script.specs.declared.requesting.Ask.TheVariants as a;
ghost use Rattle.rls_script.specs.declared.requesting.Request.TheVariants as q;
ghost use Rattle.rls_session.specs.Blocks.{Carries, Executes, open_part, status_of};
ghost use Rattle.rls_session.specs.Parts.{with_ended};
ghost use Rattle.rls_session.specs.Stops.{AnswersRefused, IsFault};

use crate::gate::{At, Gate, Point};
use crate::notes::Notes;
use crate::session::{Session, answered};
use rls_engine::rls_access::Reply;
use rls_engine::{Engine, Named};
use rls_script::{Answer, Ask, Request, Status, request_for};
use rls_value::{Name, Refusal, Tag};
use std::alloc::Global;
use std::marker::Model;
use std::mem;
use std::sync::Wait;
use std::time::Clock;

/// A label with its session, if somebody is connected. It must be closed.
pub struct Label<'a, N: Named> {
    engine: &'a Engine<N>,
    session: Option<Session<'a, N>>,
}

impl<'a, N: Named> Model for Label<'a, N> {
    ghost use Rattle.std.specs.Prelude.{Option};
    ghost use Rattle.std.specs.Coded.{coded_option};
    ghost use Rattle.rls_session.specs.Parts.{Session, session_code};

    ghost Value = { Option Session };

    ghost coded = { coded_option session_code };

    ghost view = { λ it. it.session };
}

impl<'a, N: Named> Label<'a, N> {
    /// Nobody is connected.
    pub fn new(engine: &'a Engine<N>) -> Label<'a, N>
        ensures { result ≡ None }
    {
        Label {
            engine,
            session: None,
        }
    }

    /// Ends its session, if there is one. It takes no memory.
    pub fn close<R: Wait>(self, rt: &R) {
        let Label { engine: _, session } = self;
        leave(rt, session);
    }

    /// Ends its session, as at the end of a script. The transaction of an open block ends without a commit.
    pub(crate) fn end<R: Wait>(&mut self, rt: &R, notes: &mut Notes<N>) -> Result<(), Refusal>
        ensures ok { OnOk result (notes.new ≡ with_ended notes.old (open_part self.old)) }
        ensures nobody { self.new ≡ None }
        ensures fault { IfErr result (λ why. why ≡ Foreign) }
    {
        let session = self.session.take();
        match leave_noting(rt, notes, session) {
            Ok(()) => Ok(()),
            Err(fault) => Err(fault),
        }
    }

    /// Executes a command, a `\connect` or another, at a gate. A transaction that it shows as committed is learnt and noted. `Err`
    /// is want of memory, which leaves the label and the notes as they were, but that a transaction may have begun which is rolled
    /// back; or `Foreign`, where the notes are of another engine.
    pub fn execute_at<R: Wait + Clock, G: Gate>(
        &mut self,
        rt: &R,
        alloc: Global,
        at: &At<'_, G>,
        notes: &mut Notes<N>,
        command: &str,
    ) -> Result<Answer, Refusal>
        requires wide { N.parts ≡ 18446744073709551615 }
        requires texts { AsksTexts N.asks }
        ensures ok { IfOk result (λ answer. Executes notes.old self.old command.now answer notes.new self.new) }
        ensures memory { IfErr result (λ why. why ≡ NoMemory → (self.new ≡ self.old) × (notes.new ≡ notes.old)) }
        ensures fault { IfErr result IsFault }

        // A name over its limit behind `\connect` is refused as such, and never as want of memory.
        ensures long_name { ConnectsToLongName command.now → IsOk result }
    {
        at.pass(rt, Point::Start);
        let answer = self.answer(rt, alloc, at, notes, command);
        at.pass(rt, Point::Done);
        answer
    }

    #[tactic(auto, using(crate::proofs::RuleLemmas::executes_as, rls_script::proofs::SpelledLaws::may_request))]
    fn answer<R: Wait + Clock, G: Gate>(
        &mut self,
        rt: &R,
        alloc: Global,
        at: &At<'_, G>,
        notes: &mut Notes<N>,
        command: &str,
    ) -> Result<Answer, Refusal>
        requires wide { N.parts ≡ 18446744073709551615 }
        requires texts { AsksTexts N.asks }
        ensures ok { IfOk result (λ answer. Executes notes.old self.old command.now answer notes.new self.new) }
        ensures memory { IfErr result (λ why. why ≡ NoMemory → (self.new ≡ self.old) × (notes.new ≡ notes.old)) }
        ensures fault { IfErr result IsFault }
        ensures long_name { ConnectsToLongName command.now → IsOk result }
    {
        match request_for(alloc, self.status(), command) {
            Ok(request) => self.give(rt, at, notes, request),
            Err(_) => Err(Refusal::NoMemory),
        }
    }

    fn status(&self) -> Status
        ensures { result ≡ status_of self.now }
    {
        match &self.session {
            Some(session) => session.status(),
            None => Status::Nobody,
        }
    }

    /// Does what is requested.
    #[tactic(auto, using(crate::proofs::RuleLemmas::carries_nothing))]
    fn give<R: Wait + Clock, G: Gate>(
        &mut self,
        rt: &R,
        at: &At<'_, G>,
        notes: &mut Notes<N>,
        request: Request,
    ) -> Result<Answer, Refusal>
        requires wide { N.parts ≡ 18446744073709551615 }
        requires known { IfRequested N.asks request }
        ensures ok { IfOk result (λ answer. Carries notes.old self.old request answer notes.new self.new) }
        ensures memory { IfErr result (λ why. why ≡ NoMemory → (self.new ≡ self.old) × (notes.new ≡ notes.old)) }
        ensures fault { IfErr result IsFault }
        ensures at_once { IsAtOnce request → IsOk result }
    {
        match request {
            Request::Nothing(refusal) => Ok(Answer::Refused(refusal)),
            Request::Connect(role) => self.connect(rt, notes, role),
            Request::Ask(ask) => self.ask(rt, at, notes, ask),
        }
    }

    #[tactic(auto, using(crate::proofs::RuleLemmas::carries_nobody))]
    fn ask<R: Wait + Clock, G: Gate>(
        &mut self,
        rt: &R,
        at: &At<'_, G>,
        notes: &mut Notes<N>,
        ask: Ask,
    ) -> Result<Answer, Refusal>
        requires wide { N.parts ≡ 18446744073709551615 }
        requires known { IfAsked N.asks ask }
        ensures ok { IfOk result (λ answer. Carries notes.old self.old (q.Ask ask) answer notes.new self.new) }
        ensures memory { IfErr result (λ why. why ≡ NoMemory → (self.new ≡ self.old) × (notes.new ≡ notes.old)) }
        ensures fault { IfErr result IsFault }
    {
        match &mut self.session {
            Some(session) => session.give(rt, at, notes, ask),
            None => {
                drop(ask);
                Ok(Answer::Refused(Refusal::NoLogin(None)))
            }
        }
    }

    // The old session ends in any case, but for want of memory.
    #[tactic(auto, using(crate::proofs::RuleLemmas::connect_entered, crate::proofs::RuleLemmas::connect_stopped, crate::proofs::RuleLemmas::only_foreign, crate::proofs::RuleLemmas::foreign_fault))]
    fn connect<R: Wait>(
        &mut self,
        rt: &R,
        notes: &mut Notes<N>,
        role: Name,
    ) -> Result<Answer, Refusal>
        ensures ok { IfOk result (λ answer. Carries notes.old self.old (q.Connect role) answer notes.new self.new) }
        ensures memory { IfErr result (λ why. why ≡ NoMemory → (self.new ≡ self.old) × (notes.new ≡ notes.old)) }
        ensures fault { IfErr result IsFault }
    {
        let begun = Session::connect(self.engine, rt, &role, notes.seen());
        drop(role);
        match begun {
            Ok(session) => self.enter(rt, notes, session),
            Err(refusal) => self.refuse(rt, notes, refusal),
        }
    }

    // A session in place of the old one.
    fn enter<R: Wait>(
        &mut self,
        rt: &R,
        notes: &mut Notes<N>,
        session: Session<'a, N>,
    ) -> Result<Answer, Refusal>
        ensures ok { IfOk result (λ answer. answer ≡ Answer.Replied Tag.Connect Reply.Done) }
        ensures session { OnOk result (self.new ≡ Some session.entry) }
        ensures notes { OnOk result (notes.new ≡ with_ended notes.old (open_part self.old)) }
        ensures fault { IfErr result (λ why. why ≡ Foreign) }
    {
        let before = mem::replace(&mut self.session, Some(session));
        match leave_noting(rt, notes, before) {
            Ok(()) => Ok(Answer::Replied(Tag::Connect, Reply::Done)),
            Err(fault) => Err(fault),
        }
    }

    // Nobody is connected behind a connect that is refused.
    fn refuse<R: Wait>(
        &mut self,
        rt: &R,
        notes: &mut Notes<N>,
        refusal: Refusal,
    ) -> Result<Answer, Refusal>
        ensures ok { AnswersRefused refusal result }
        ensures nobody { OnOk result (self.new ≡ None) }
        ensures notes { OnOk result (notes.new ≡ with_ended notes.old (open_part self.old)) }
        ensures memory { IfErr result (λ why. why ≡ NoMemory → (self.new ≡ self.old) × (notes.new ≡ notes.old)) }
        ensures fault { IfErr result IsFault }
    {
        match answered(refusal) {
            Ok(answer) => match self.end(rt, notes) {
                Ok(()) => Ok(answer),
                Err(fault) => {
                    drop(answer);
                    Err(fault)
                }
            },
            Err(fault) => Err(fault),
        }
    }
}

/// Closes a session.
fn leave<N: Named, R: Wait>(rt: &R, session: Option<Session<'_, N>>) {
    match session {
        Some(session) => session.close(rt),
        None => {}
    }
}

/// The same, where the transaction of an open block ends without a commit.
fn leave_noting<N: Named, R: Wait>(
    rt: &R,
    notes: &mut Notes<N>,
    session: Option<Session<'_, N>>,
) -> Result<(), Refusal>
    ensures ok { OnOk result (notes.new ≡ with_ended notes.old (open_part session.entry)) }
    ensures fault { IfErr result (λ why. why ≡ Foreign) }
{
    match session {
        Some(session) => match session.leave(rt, notes) {
            Ok(()) => Ok(()),
            Err(fault) => Err(fault),
        },
        None => Ok(()),
    }
}
