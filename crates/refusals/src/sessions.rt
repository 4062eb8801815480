//! Calls of sessions. What a session is shows in its next answers: an open block stays open where its COMMIT was refused.

ghost use Rattle.std.specs.Prelude.{◌≡◌};
ghost use Rattle.rls_session.specs.rls_script.specs.Spelled.{AsksTexts};

use rls_session::rls_core::rls_guard::rls_catalog::rls_value::{Name, Refusal};
use rls_session::rls_engine::{Engine, Named, Records, Seen};
use rls_session::rls_script::{Answer, render};
use rls_session::{At, Label, NoGate, Notes, Session};
use scenario::{Ending, Scenario, begin, end, made, made_again, play, tell, wants_memory};
use std::alloc::Global;
use std::marker::Brand;
use std::sync::Wait;
use std::time::Clock;

/// The tag of the engine.
const TAG: u64 = 1;

/// Commands of a session, and how they are answered. What is written outside a block and in one is there once it is committed.
const COMMANDS: [(&str, &str); 10] = [
    ("CREATE TABLE t (a int)", "p: CREATE TABLE\n"),
    ("INSERT INTO t VALUES (1), (2)", "p: INSERT 0 2\n"),
    ("BEGIN", "p: BEGIN\n"),
    ("INSERT INTO t VALUES (3)", "p: INSERT 0 1\n"),
    ("SELECT * FROM t", "p: 1\np: 2\np: 3\np: SELECT 3\n"),
    ("COMMIT", "p: COMMIT\n"),
    ("BEGIN", "p: BEGIN\n"),
    ("DELETE FROM t", "p: DELETE 3\n"),
    ("ROLLBACK", "p: ROLLBACK\n"),
    ("SELECT count(*) FROM t", "p: 3\np: SELECT 1\n"),
];

pub fn play_all<R: Wait + Clock + Print>(rt: &R, alloc: Global) {
    match Records::new(alloc) {
        Ok(records) => play_named::<Brand, R>(rt, alloc, records),
        Err(_) => tell(rt, "Session::connect", Ending::NotMade),
    }
}

fn play_named<N: Named, R: Wait + Clock + Print>(rt: &R, alloc: Global, records: Records)
    requires commits { records.commits ≡ N.commits }
    requires steps { records.steps ≡ N.steps }
    requires name { records.blank.name ≡ N.name }
    requires parts { records.blank.parts ≡ N.parts }
    requires texts { AsksTexts N.asks }
{
    match Engine::<N>::new(alloc, TAG, records) {
        Ok(engine) => play_engine(rt, alloc, &engine),
        Err(_) => tell(rt, "Session::connect", Ending::NotMade),
    }
}

fn play_engine<N: Named, R: Wait + Clock + Print>(rt: &R, alloc: Global, engine: &Engine<N>)
    requires wide { N.parts ≡ 18446744073709551615 }
    requires texts { AsksTexts N.asks }
{
    let mut notes = Notes::new(alloc, TAG, false);
    play_role(rt, alloc, engine, &mut notes);
    play_label(rt, alloc, engine, &mut notes);
    drop(notes);
}

fn play_role<N: Named, R: Wait + Clock + Print>(
    rt: &R,
    alloc: Global,
    engine: &Engine<N>,
    notes: &mut Notes<N>,
)
    requires wide { N.parts ≡ 18446744073709551615 }
    requires texts { AsksTexts N.asks }
{
    match Name::postgres(alloc) {
        Ok(role) => {
            play_connect(rt, alloc, engine, &role, notes);
            drop(role);
        }
        Err(_) => tell(rt, "Session::connect", Ending::NotMade),
    }
}

/// The role connects, and then its session executes the commands.
fn play_connect<N: Named, R: Wait + Clock + Print>(
    rt: &R,
    alloc: Global,
    engine: &Engine<N>,
    role: &Name,
    notes: &mut Notes<N>,
)
    requires wide { N.parts ≡ 18446744073709551615 }
    requires texts { AsksTexts N.asks }
{
    match tried_connect(rt, engine, role, notes.seen()) {
        Ok(session) => {
            tell(rt, "Session::connect", made(true));
            play_session(rt, alloc, session, notes);
        }
        Err(refusal) => {
            let told = told_connect_again(rt, engine, role, notes.seen(), refusal);
            tell(rt, "Session::connect", told);
        }
    }
}

/// What came of it when the role connected again, once that was refused.
fn told_connect_again<N: Named, R: Wait + Print>(
    rt: &R,
    engine: &Engine<N>,
    role: &Name,
    seen: &Seen<N>,
    refusal: Refusal,
) -> Ending {
    if !wants_memory(refusal) {
        return Ending::OtherCause;
    }
    match tried_connect(rt, engine, role, seen) {
        Ok(session) => {
            session.close(rt);
            made_again(true)
        }
        Err(refusal) => {
            drop(refusal);
            Ending::RefusedAgain
        }
    }
}

fn tried_connect<'a, N: Named, R: Wait + Print>(
    rt: &R,
    engine: &'a Engine<N>,
    role: &Name,
    seen: &Seen<N>,
) -> Result<Session<'a, N>, Refusal> {
    begin(rt, "Session::connect");
    let came = Session::connect(engine, rt, role, seen);
    end(rt);
    came
}

fn play_session<N: Named, R: Wait + Clock + Print>(
    rt: &R,
    alloc: Global,
    session: Session<'_, N>,
    notes: &mut Notes<N>,
)
    requires wide { N.parts ≡ 18446744073709551615 }
    requires texts { AsksTexts N.asks }
{
    let mut session = session;
    for (command, wanted) in COMMANDS {
        play_command(rt, alloc, &mut session, notes, command, wanted);
    }
    session.close(rt);
}

fn play_command<N: Named, R: Wait + Clock + Print>(
    rt: &R,
    alloc: Global,
    session: &mut Session<'_, N>,
    notes: &mut Notes<N>,
    command: &str,
    wanted: &'static str,
)
    requires wide { N.parts ≡ 18446744073709551615 }
    requires texts { AsksTexts N.asks }
{
    match tried(rt, alloc, session, notes, command) {
        Ok(answer) => play_answer(rt, alloc, answer, wanted),
        Err(refusal) => {
            let told = told_again(rt, alloc, session, notes, command, wanted, refusal);
            tell(rt, "Session::execute", told);
        }
    }
}

/// An answer to the first try, which is then written.
fn play_answer<R: Print>(rt: &R, alloc: Global, answer: Answer, wanted: &'static str) {
    let told = made(is_written(alloc, &answer, wanted));
    tell(rt, "Session::execute", told);
    play_render(rt, alloc, &answer, wanted);
    drop(answer);
}

/// What came of a command when it was executed again, once it was refused.
fn told_again<N: Named, R: Wait + Clock + Print>(
    rt: &R,
    alloc: Global,
    session: &mut Session<'_, N>,
    notes: &mut Notes<N>,
    command: &str,
    wanted: &str,
    refusal: Refusal,
) -> Ending
    requires wide { N.parts ≡ 18446744073709551615 }
    requires texts { AsksTexts N.asks }
{
    if !wants_memory(refusal) {
        return Ending::OtherCause;
    }
    match tried(rt, alloc, session, notes, command) {
        Ok(answer) => made_again(is_answer(alloc, answer, wanted)),
        Err(refusal) => {
            drop(refusal);
            Ending::RefusedAgain
        }
    }
}

fn tried<N: Named, R: Wait + Clock + Print>(
    rt: &R,
    alloc: Global,
    session: &mut Session<'_, N>,
    notes: &mut Notes<N>,
    command: &str,
) -> Result<Answer, Refusal>
    requires wide { N.parts ≡ 18446744073709551615 }
    requires texts { AsksTexts N.asks }
{
    begin(rt, "Session::execute");
    let came = session.execute(rt, alloc, notes, command);
    end(rt);
    came
}

/// Whether the answer is written so.
fn is_answer(alloc: Global, answer: Answer, wanted: &str) -> bool {
    let is_so = is_written(alloc, &answer, wanted);
    drop(answer);
    is_so
}

fn is_written(alloc: Global, answer: &Answer, wanted: &str) -> bool {
    match render(alloc, false, "p", answer) {
        Ok(bytes) => bytes.as_slice() == wanted.as_bytes(),
        Err(_) => false,
    }
}

/// An answer is written as the bytes of its lines.
fn play_render<R: Print>(rt: &R, alloc: Global, answer: &Answer, wanted: &'static str) {
    play(
        rt,
        alloc,
        "render",
        Ok(Rendering { answer, wanted }),
        Ok(Rendering { answer, wanted }),
    );
}

#[derive(Drop)]
struct Rendering<'b> {
    answer: &'b Answer,
    wanted: &'static str,
}

impl<'b> Scenario for Rendering<'b> {
    type Answer = Vec<u8>;

    fn call(&mut self, alloc: Global) -> Result<Vec<u8>, Refusal> {
        Ok(render(alloc, false, "p", self.answer)?)
    }

    fn is_answer(&self, answer: &Vec<u8>, _alloc: Global) -> Result<bool, Refusal> {
        Ok(answer.as_slice() == self.wanted.as_bytes())
    }
}

/// A label connects, and writes.
fn play_label<N: Named, R: Wait + Clock + Print>(
    rt: &R,
    alloc: Global,
    engine: &Engine<N>,
    notes: &mut Notes<N>,
)
    requires wide { N.parts ≡ 18446744073709551615 }
    requires texts { AsksTexts N.asks }
{
    let mut label = Label::new(engine);
    for (command, wanted) in [
        ("\\connect postgres", "p: CONNECT\n"),
        ("INSERT INTO t VALUES (4)", "p: INSERT 0 1\n"),
    ] {
        let told = told_at(rt, alloc, &mut label, notes, command, wanted);
        tell(rt, "Label::execute_at", told);
    }
    label.close(rt);
}

fn told_at<N: Named, R: Wait + Clock + Print>(
    rt: &R,
    alloc: Global,
    label: &mut Label<'_, N>,
    notes: &mut Notes<N>,
    command: &str,
    wanted: &str,
) -> Ending
    requires wide { N.parts ≡ 18446744073709551615 }
    requires texts { AsksTexts N.asks }
{
    match tried_at(rt, alloc, label, notes, command) {
        Ok(answer) => made(is_answer(alloc, answer, wanted)),
        Err(refusal) => {
            if wants_memory(refusal) {
                told_at_again(rt, alloc, label, notes, command, wanted)
            } else {
                Ending::OtherCause
            }
        }
    }
}

fn told_at_again<N: Named, R: Wait + Clock + Print>(
    rt: &R,
    alloc: Global,
    label: &mut Label<'_, N>,
    notes: &mut Notes<N>,
    command: &str,
    wanted: &str,
) -> Ending
    requires wide { N.parts ≡ 18446744073709551615 }
    requires texts { AsksTexts N.asks }
{
    match tried_at(rt, alloc, label, notes, command) {
        Ok(answer) => made_again(is_answer(alloc, answer, wanted)),
        Err(refusal) => {
            drop(refusal);
            Ending::RefusedAgain
        }
    }
}

fn tried_at<N: Named, R: Wait + Clock + Print>(
    rt: &R,
    alloc: Global,
    label: &mut Label<'_, N>,
    notes: &mut Notes<N>,
    command: &str,
) -> Result<Answer, Refusal>
    requires wide { N.parts ≡ 18446744073709551615 }
    requires texts { AsksTexts N.asks }
{
    let at = At {
        gate: &NoGate,
        session: 1,
        line: 1,
    };
    begin(rt, "Label::execute_at");
    let came = label.execute_at(rt, alloc, &at, notes, command);
    end(rt);
    came
}
