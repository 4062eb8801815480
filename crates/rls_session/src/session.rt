//! A label's session over an engine.

ghost use Rattle.std.specs.Prelude.{◌≡◌, ◌≢◌, true, Some, None, IfOk, IfErr, IfSome, IfNone, OnOk, OnErr};
ghost use Rattle.rls_value.specs.declared.refusal.Refusal.TheVariants.{NoMemory, Foreign};
ghost use Rattle.rls_statement.specs.Tags.{tag_of};
ghost use Rattle.rls_engine.specs.Drafts.{RefusesBegin};
ghost use Rattle.rls_script.specs.rls_guard.specs.declared.context.Mode.TheVariants.{Write};
ghost use Rattle.rls_script.specs.Spelled.{AsksTexts, IfAsked};
ghost use Rattle.rls_script.specs.declared.requesting.Ask.TheVariants as a;
ghost use Rattle.rls_script.specs.declared.requesting.Request.TheVariants as q;
ghost use Rattle.rls_session.specs.Blocks.{Carries, ExecutesIn, begin_of, inside, open_part, outside, status_of};
ghost use Rattle.std.specs.Option.{option_map};
ghost use Rattle.rls_session.specs.Parts.{Block, Part, noted, part_by, with_ended};
ghost use Rattle.rls_session.specs.Parts.{unanswered as spec_unanswered};
ghost use Rattle.rls_session.specs.Stops.{AnswersRefused, CommitsAlone, IsConflictAnswer, IsFault, IsStarted, WhenStopped};

use crate::answering::answer_of;
use crate::gate::{At, Gate, NoGate, Point};
use crate::notes::Notes;
use crate::open::{Open, Stopped};
use rls_engine::rls_access::{Mode, Reply};
use rls_engine::rls_core::Begin;
use rls_engine::{Ended, Engine, Named, Seen};
use rls_script::{Answer, Ask, Status, ask_of};
use rls_statement::Statement;
use rls_value::shared::Share;
use rls_value::{Cause, Name, Refusal, Tag, TxnState};
use std::alloc::{AllocError, Global};
use std::marker::Model;
use std::mem;
use std::sync::Wait;
use std::time::Clock;

/// A session of a role, which may have an open block. It must be closed.
pub struct Session<'a, N: Named> {
    engine: &'a Engine<N>,
    login: Name,
    role: Name,
    block: Option<Open<'a, N>>,
    over: bool,
}

impl<'a, N: Named> Model for Session<'a, N> {
    ghost use Rattle.std.specs.Prelude.{◌≡◌, true, None};
    ghost use Rattle.rls_session.specs.Parts.{Session, session_code};

    ghost Value = { Session };

    ghost coded = { session_code };

    ghost view = { λ it. record { login = it.login; role = it.role; block = it.block; over = it.over } };

    ghost invariant = { λ it. it.over ≡ true → it.block ≡ None };
}

impl<'a, N: Named> Session<'a, N> {
    /// Begins a session of the role, by a transaction that is rolled back at once.
    pub fn connect<R: Wait>(
        engine: &'a Engine<N>,
        rt: &R,
        role: &Name,
        seen: &Seen<N>,
    ) -> Result<Session<'a, N>, Refusal>
        ensures ok { IfOk result (λ session. session ≡ outside role.now role.now) }
        ensures why { IfErr result (RefusesBegin record { login = role.now; role = role.now; mode = Write }) }
        ensures known { seen.now.tag ≡ engine.now → seen.now.number ≡ 0 → IfErr result (λ why. why ≢ Foreign) }
    {
        let Ok(begin) = begin_as(role, role, Mode::Write) else {
            return Err(Refusal::NoMemory);
        };
        let Ok((login, role)) = twice(role) else {
            drop(begin);
            return Err(Refusal::NoMemory);
        };
        match engine.begin(rt, begin, seen) {
            Ok(txn) => {
                txn.rollback(rt);
                Ok(Session {
                    engine,
                    login,
                    role,
                    block: None,
                    over: false,
                })
            }
            Err(refusal) => {
                drop(login);
                drop(role);
                Err(refusal)
            }
        }
    }

    /// Ends the session, and rolls an open block back. It takes no memory.
    pub fn close<R: Wait>(self, rt: &R) {
        let Session {
            engine: _,
            login: _,
            role: _,
            block,
            over: _,
        } = self;
        spend(rt, block);
    }

    /// Ends the session. The transaction of an open block ends without a commit.
    pub(crate) fn leave<R: Wait>(self, rt: &R, notes: &mut Notes<N>) -> Result<(), Refusal>
        ensures ok { OnOk result (notes.new ≡ with_ended notes.old (open_part (Some self.entry))) }
        ensures fault { IfErr result (λ why. why ≡ Foreign) }
    {
        let Session {
            engine: _,
            login: _,
            role: _,
            block,
            over: _,
        } = self;
        match give_up(rt, notes, block) {
            Ok(()) => Ok(()),
            Err(fault) => Err(fault),
        }
    }

    /// Executes a command that is no `\connect`. A transaction that it shows as committed is learnt and noted. `Err` is want of
    /// memory, which leaves the session and the notes as they were, but that outside a block a transaction may have begun which
    /// is rolled back; or `Foreign`, where the notes are of another engine.
    pub fn execute<R: Wait + Clock>(
        &mut self,
        rt: &R,
        alloc: Global,
        notes: &mut Notes<N>,
        command: &str,
    ) -> Result<Answer, Refusal>
        requires wide { N.parts ≡ 18446744073709551615 }
        requires texts { AsksTexts N.asks }
        ensures ok { IfOk result (λ answer. ExecutesIn notes.old self.old command.now answer notes.new self.new) }
        ensures memory { IfErr result (λ why. why ≡ NoMemory → (self.new ≡ self.old) × (notes.new ≡ notes.old)) }
        ensures fault { IfErr result IsFault }
    {
        let at = At {
            gate: &NoGate,
            session: 0,
            line: 0,
        };
        self.execute_at(rt, alloc, &at, notes, command)
    }

    /// The same, at a gate.
    #[tactic(auto, using(crate::proofs::RuleLemmas::executes_nothing, crate::proofs::RuleLemmas::executes_asked, rls_script::proofs::SpelledLaws::may_ask))]
    pub fn execute_at<R: Wait + Clock, G: Gate>(
        &mut self,
        rt: &R,
        alloc: Global,
        at: &At<'_, G>,
        notes: &mut Notes<N>,
        command: &str,
    ) -> Result<Answer, Refusal>
        requires wide { N.parts ≡ 18446744073709551615 }
        requires texts { AsksTexts N.asks }
        ensures ok { IfOk result (λ answer. ExecutesIn notes.old self.old command.now answer notes.new self.new) }
        ensures memory { IfErr result (λ why. why ≡ NoMemory → (self.new ≡ self.old) × (notes.new ≡ notes.old)) }
        ensures fault { IfErr result IsFault }
    {
        at.pass(rt, Point::Start);
        let answer = match ask_of(alloc, self.status(), command) {
            Ok(Ok(ask)) => self.give(rt, at, notes, ask),
            Ok(Err(refusal)) => Ok(Answer::Refused(refusal)),
            Err(_) => Err(Refusal::NoMemory),
        };
        at.pass(rt, Point::Done);
        answer
    }

    /// How it stands.
    pub(crate) fn status(&self) -> Status
        ensures { result ≡ status_of (Some self.now) }
    {
        if self.over {
            return Status::Over;
        }
        match &self.block {
            Some(_) => Status::Open,
            None => Status::Outside,
        }
    }

    /// Does what is asked.
    pub(crate) fn give<R: Wait + Clock, G: Gate>(
        &mut self,
        rt: &R,
        at: &At<'_, G>,
        notes: &mut Notes<N>,
        ask: Ask,
    ) -> Result<Answer, Refusal>
        requires wide { N.parts ≡ 18446744073709551615 }
        requires known { IfAsked N.asks ask }
        ensures ok { IfOk result (λ answer. Carries notes.old (Some self.old) (q.Ask ask) answer notes.new (Some self.new)) }
        ensures memory { IfErr result (λ why. why ≡ NoMemory → (self.new ≡ self.old) × (notes.new ≡ notes.old)) }
        ensures fault { IfErr result IsFault }
    {
        match ask {
            Ask::Begin(mode) => self.give_begin(rt, notes, mode),
            Ask::Post(statement) => self.give_post(rt, at, notes, statement),
            Ask::Run(statement) => self.give_run(rt, at, notes, statement),
            Ask::Commit => self.give_commit(rt, notes),
            Ask::Rollback => self.give_rollback(rt, notes),
        }
    }

    /// BEGIN.
    #[tactic(auto, using(crate::proofs::RuleLemmas::carries_begin, crate::proofs::RuleLemmas::begin_stopped))]
    fn give_begin<R: Wait>(
        &mut self,
        rt: &R,
        notes: &Notes<N>,
        mode: Mode,
    ) -> Result<Answer, Refusal>
        ensures ok { IfOk result (λ answer. Carries notes.now (Some self.old) (q.Ask (a.Begin mode)) answer notes.now (Some self.new)) }
        ensures same { OnErr result (self.new ≡ self.old) }
        ensures fault { IfErr result IsFault }
    {
        let Ok(begin) = self.begin(mode) else {
            return Err(Refusal::NoMemory);
        };
        match Open::begin(rt, self.engine, begin, notes.seen()) {
            Ok(open) => {
                self.put(rt, open);
                Ok(Answer::Replied(Tag::Begin, Reply::Done))
            }
            Err(refusal) => answered(refusal),
        }
    }

    /// A statement in a block.
    #[tactic(auto, using(crate::proofs::RuleLemmas::post_without, crate::proofs::RuleLemmas::carries_post, crate::proofs::RuleLemmas::post_over, crate::proofs::RuleLemmas::put_back, crate::proofs::RuleLemmas::only_foreign, crate::proofs::RuleLemmas::foreign_fault))]
    fn give_post<R: Wait + Clock, G: Gate>(
        &mut self,
        rt: &R,
        at: &At<'_, G>,
        notes: &mut Notes<N>,
        asked: Share<Statement>,
    ) -> Result<Answer, Refusal>
        requires known { N.asks asked }
        ensures ok { IfOk result (λ answer. Carries notes.old (Some self.old) (q.Ask (a.Post asked)) answer notes.new (Some self.new)) }
        ensures memory { IfErr result (λ why. why ≡ NoMemory → (self.new ≡ self.old) × (notes.new ≡ notes.old)) }
        ensures fault { IfErr result IsFault }
    {
        let Some(open) = self.take_open() else {
            drop(asked);
            return Ok(none_in_progress());
        };
        match open.post(rt, at, &asked) {
            Ok((open, told)) => {
                self.put(rt, open);
                Ok(answer_of(tag(&asked), told))
            }
            Err(Stopped::Over(why, ended)) => {
                self.over = true;
                answer_conflict(notes, why, ended)
            }
            Err(Stopped::NoMemory(open)) => {
                self.put(rt, open);
                Err(Refusal::NoMemory)
            }
            Err(Stopped::Foreign) => Err(Refusal::Foreign),
        }
    }

    /// COMMIT.
    #[tactic(auto, using(crate::proofs::RuleLemmas::commit_without, crate::proofs::RuleLemmas::carries_commit, crate::proofs::RuleLemmas::commit_over, crate::proofs::RuleLemmas::put_back, crate::proofs::RuleLemmas::only_foreign, crate::proofs::RuleLemmas::foreign_fault))]
    fn give_commit<R: Wait>(&mut self, rt: &R, notes: &mut Notes<N>) -> Result<Answer, Refusal>
        requires wide { N.parts ≡ 18446744073709551615 }
        ensures ok { IfOk result (λ answer. Carries notes.old (Some self.old) (q.Ask a.Commit) answer notes.new (Some self.new)) }
        ensures memory { IfErr result (λ why. why ≡ NoMemory → (self.new ≡ self.old) × (notes.new ≡ notes.old)) }
        ensures fault { IfErr result IsFault }
    {
        let Some(open) = self.take_open() else {
            return Ok(none_in_progress());
        };
        match notes.commit(rt, open) {
            Ok(role) => {
                self.role = role;
                Ok(Answer::Replied(Tag::Commit, Reply::Done))
            }
            Err(Stopped::Over(why, ended)) => answer_conflict(notes, why, ended),
            Err(Stopped::NoMemory(open)) => {
                self.put(rt, open);
                Err(Refusal::NoMemory)
            }
            Err(Stopped::Foreign) => Err(Refusal::Foreign),
        }
    }

    /// ROLLBACK, and COMMIT of a block that is over.
    #[tactic(auto, using(crate::proofs::RuleLemmas::carries_rollback))]
    fn give_rollback<R: Wait>(&mut self, rt: &R, notes: &mut Notes<N>) -> Result<Answer, Refusal>
        ensures ok { IfOk result (λ answer. Carries notes.old (Some self.old) (q.Ask a.Rollback) answer notes.new (Some self.new)) }
        ensures memory { IfErr result (λ why. why ≡ NoMemory → (self.new ≡ self.old) × (notes.new ≡ notes.old)) }
        ensures fault { IfErr result IsFault }
    {
        let block = self.block.take();
        self.over = false;
        match give_up(rt, notes, block) {
            Ok(()) => Ok(Answer::Replied(Tag::Rollback, Reply::Done)),
            Err(fault) => Err(fault),
        }
    }

    /// A statement outside a block.
    #[tactic(auto, using(crate::proofs::RuleLemmas::run_unbegun))]
    fn give_run<R: Wait + Clock, G: Gate>(
        &mut self,
        rt: &R,
        at: &At<'_, G>,
        notes: &mut Notes<N>,
        asked: Share<Statement>,
    ) -> Result<Answer, Refusal>
        requires wide { N.parts ≡ 18446744073709551615 }
        requires known { N.asks asked }
        ensures ok { IfOk result (λ answer. Carries notes.old (Some self.old) (q.Ask (a.Run asked)) answer notes.new (Some self.new)) }
        ensures same { OnErr result ((self.new ≡ self.old) × (notes.new ≡ notes.old)) }
        ensures fault { IfErr result IsFault }
    {
        let Ok(begin) = self.begin(Mode::Write) else {
            drop(asked);
            return Err(Refusal::NoMemory);
        };
        match Open::begin(rt, self.engine, begin, notes.seen()) {
            Ok(open) => self.run_in(rt, at, notes, open, asked),
            Err(refusal) => {
                drop(asked);
                answered(refusal)
            }
        }
    }

    /// The same, in the transaction that began for it.
    #[tactic(auto, using(crate::proofs::RuleLemmas::stays))]
    fn run_in<R: Wait + Clock, G: Gate>(
        &mut self,
        rt: &R,
        at: &At<'_, G>,
        notes: &mut Notes<N>,
        open: Open<'a, N>,
        asked: Share<Statement>,
    ) -> Result<Answer, Refusal>
        requires wide { N.parts ≡ 18446744073709551615 }
        requires known { N.asks asked }
        requires started { IsStarted notes.old.newest (begin_of self.old Write) «open» }
        ensures ok { IfOk result (λ answer. Carries notes.old (Some self.old) (q.Ask (a.Run asked)) answer notes.new (Some self.new)) }
        ensures same { OnErr result ((self.new ≡ self.old) × (notes.new ≡ notes.old)) }
        ensures fault { IfErr result IsFault }
    {
        match open.post(rt, at, &asked) {
            Ok((open, told)) => {
                let answer = answer_of(tag(&asked), told);
                self.commit_alone(rt, notes, open, answer)
            }
            Err(stopped) => {
                drop(asked);
                stop(rt, notes, stopped)
            }
        }
    }

    /// Commits a transaction of one statement, which is answered then.
    #[tactic(auto, using(crate::proofs::RuleLemmas::commit_stopped, crate::proofs::RuleLemmas::committed_alone, crate::proofs::RuleLemmas::stays))]
    fn commit_alone<R: Wait>(
        &mut self,
        rt: &R,
        notes: &mut Notes<N>,
        open: Open<'a, N>,
        answer: Answer,
    ) -> Result<Answer, Refusal>
        requires wide { N.parts ≡ 18446744073709551615 }
        ensures ok { IfOk result (λ said. CommitsAlone «open».entry answer notes.old self.old said notes.new self.new) }
        ensures same { OnErr result ((self.new ≡ self.old) × (notes.new ≡ notes.old)) }
        ensures fault { IfErr result IsFault }
    {
        match notes.commit(rt, open) {
            Ok(role) => {
                spend(rt, self.block.take());
                self.over = false;
                self.role = role;
                Ok(answer)
            }
            Err(stopped) => {
                drop(answer);
                stop(rt, notes, stopped)
            }
        }
    }

    /// What a transaction of the session begins with.
    fn begin(&self, mode: Mode) -> Result<Begin, AllocError>
        ensures { IfOk result (λ begin. begin ≡ begin_of self.now mode) }
    {
        begin_as(&self.login, &self.role, mode)
    }

    /// Takes the open block out.
    fn take_open(&mut self) -> Option<Open<'a, N>>
        ensures some { IfSome result (λ it. (self.old ≡ inside self.old.login self.old.role it) × (self.new ≡ outside self.old.login self.old.role)) }
        ensures none { IfNone result ((self.old.block ≡ None) × (self.new ≡ self.old)) }
    {
        if self.over {
            return None;
        }
        self.block.take()
    }

    /// Has the block open.
    fn put<R: Wait>(&mut self, rt: &R, open: Open<'a, N>)
        ensures { self.new ≡ inside self.old.login self.old.role «open».entry }
    {
        self.over = false;
        spend(rt, mem::replace(&mut self.block, Some(open)));
    }
}

/// What a statement is answered with.
fn tag(asked: &Share<Statement>) -> Tag
    ensures { result ≡ tag_of asked.now }
{
    asked.get().tag()
}

/// Rolls back what is open.
fn spend<N: Named, R: Wait>(rt: &R, open: Option<Open<'_, N>>) {
    match open {
        Some(open) => open.rollback(rt),
        None => {}
    }
}

/// Ends what is open without a commit.
#[tactic(auto, using(crate::proofs::TriedLemmas::gave_up))]
fn give_up<N: Named, R: Wait>(
    rt: &R,
    notes: &mut Notes<N>,
    block: Option<Open<'_, N>>,
) -> Result<(), Refusal>
    ensures ok { OnOk result (notes.new ≡ with_ended notes.old (option_map (λ it. it.part) block.entry)) }
    ensures fault { IfErr result (λ why. why ≡ Foreign) }
{
    match block {
        Some(open) => match notes.keep(open.give_up(rt)) {
            Ok(()) => Ok(()),
            Err(fault) => Err(fault),
        },
        None => Ok(()),
    }
}

/// Answers 40001, and keeps the transaction that it ended.
fn answer_conflict<N: Named>(
    notes: &mut Notes<N>,
    why: Cause,
    ended: Option<Ended<N>>,
) -> Result<Answer, Refusal>
    ensures ok { IfOk result (λ answer. answer ≡ Answer.Refused (Refusal.Serial why)) }
    ensures notes { (part : Part) → IfSome ended (λ it. part_by it ≡ part) → OnOk result (notes.new ≡ with_ended notes.old (Some part)) }
    ensures same { OnErr result (notes.new ≡ notes.old) }
    ensures fault { IfErr result (λ why. why ≡ Foreign) }
{
    match notes.keep(ended) {
        Ok(()) => Ok(Answer::Refused(Refusal::Serial(why))),
        Err(fault) => {
            drop(why);
            Err(fault)
        }
    }
}

/// Without its statements: what isn't answered isn't shown.
#[tactic(auto, using(crate::proofs::TriedLemmas::unanswered_part))]
fn unanswered<N: Named>(ended: Option<Ended<N>>) -> Option<Ended<N>>
    ensures { (part : Part) → IfSome ended (λ it. part_by it ≡ part) → IfSome result (λ it. part_by it ≡ spec_unanswered part) }
{
    match ended {
        Some(ended) => Some(ended.without_posts()),
        None => None,
    }
}

/// The answer to what stopped a transaction of one statement, or the fault. What is left of the transaction is rolled back.
#[tactic(auto, using(crate::proofs::TriedLemmas::stopped_ends))]
fn stop<N: Named, R: Wait>(
    rt: &R,
    notes: &mut Notes<N>,
    stopped: Stopped<'_, N>,
) -> Result<Answer, Refusal>
    ensures ok { IfOk result IsConflictAnswer }
    ensures notes { (block : Block) → WhenStopped block stopped.entry → OnOk result (notes.new ≡ with_ended notes.old (Some (spec_unanswered block.part))) }
    ensures same { OnErr result (notes.new ≡ notes.old) }
    ensures fault { IfErr result IsFault }
{
    match stopped {
        Stopped::Over(why, ended) => match answer_conflict(notes, why, unanswered(ended)) {
            Ok(answer) => Ok(answer),
            Err(fault) => Err(fault),
        },
        Stopped::NoMemory(open) => {
            open.rollback(rt);
            Err(Refusal::NoMemory)
        }
        Stopped::Foreign => Err(Refusal::Foreign),
    }
}

/// The answer to what refused a begin, or the fault.
pub(crate) fn answered(refusal: Refusal) -> Result<Answer, Refusal>
    ensures ok { AnswersRefused refusal result }
    ensures fault { IfErr result IsFault }
{
    match refusal {
        Refusal::NoMemory => Err(Refusal::NoMemory),
        Refusal::Foreign => Err(Refusal::Foreign),
        refusal => Ok(Answer::Refused(refusal)),
    }
}

fn none_in_progress() -> Answer
    ensures { result ≡ Answer.Refused (Refusal.TxnState TxnState.NoneInProgress) }
{
    Answer::Refused(Refusal::TxnState(TxnState::NoneInProgress))
}

fn begin_as(login: &Name, role: &Name, mode: Mode) -> Result<Begin, AllocError>
    ensures { IfOk result (λ begin. begin ≡ record { login = login.now; role = role.now; mode = mode }) }
{
    let login = login.copy()?;
    match role.copy() {
        Ok(role) => Ok(Begin { login, role, mode }),
        Err(refused) => {
            drop(login);
            Err(refused)
        }
    }
}

fn twice(name: &Name) -> Result<(Name, Name), AllocError>
    ensures { IfOk result (λ both. (both.0 ≡ name.now) × (both.1 ≡ name.now)) }
{
    let first = name.copy()?;
    match name.copy() {
        Ok(second) => Ok((first, second)),
        Err(refused) => {
            drop(first);
            Err(refused)
        }
    }
}
