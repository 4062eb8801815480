//! Which transactions the lines of a run were answered in, told from the lines and what each was answered.

ghost use Rattle.std.specs.Prelude.{◌≡◌, ◌≤◌, length, map, nat_lt, IfOk, IfSome, OnOk};
ghost use Rattle.rls_script.specs.Plans.{place_in, with_name};
ghost use Rattle.rls_transcript.specs.Numbers as spec;
ghost use Rattle.rls_transcript.specs.Numbers.{AreNumbered, IsNumbered, IsNumberedIf, opening_run};

use crate::told::Told;
use rls_script::{Ask, Line, Request, Status, read_line, request_for};
use rls_statement::Statement;
use std::alloc::{AllocError, Global};
use std::marker::Model;

/// The most labels that have sessions in a script.
const MAX_LABELS: usize = 64;

/// Rows that a statement inserts: the number of the first, from 0, and how many they are.
#[derive(Clone, Copy)]
pub struct Rows {
    pub first: u64,
    pub count: u64,
}

/// Which transaction a line was answered in.
#[derive(Clone, Copy)]
pub enum Where {
    /// In none.
    Nowhere,
    /// A connect's, or one that BEGIN began.
    Begun(u64),
    /// That of a block: a statement, by its number in it, and the rows that it inserted.
    Posted(u64, u64, Rows),
    /// One that has this statement alone: the rows that it inserted, and the number of its commit.
    Alone(u64, Rows, u64),
    /// One that COMMIT ended, and the number of its commit.
    Committed(u64, u64),
    /// One that ended without a commit.
    Over(u64),
}

/// An open block: its transaction, and how many statements it has and rows it inserted.
#[derive(Clone, Copy)]
pub struct Block {
    pub txn: u64,
    pub statements: u64,
    pub rows: u64,
}

/// How a label stands.
#[derive(Clone, Copy)]
pub enum Stand {
    /// Nobody is connected.
    Nobody,
    Outside,
    Open(Block),
    /// In a block whose transaction, of this number, ended.
    Over(u64),
}

/// How many transactions began, and how many committed.
#[derive(Clone, Copy)]
pub struct Counts {
    pub begun: u64,
    pub committed: u64,
}

/// Where a command was answered, how its label stands behind it, and what is counted then.
#[derive(Clone, Copy)]
pub struct Step {
    pub at: Where,
    pub stand: Stand,
    pub counts: Counts,
}

/// How a run stands: the labels in the order in which they came, how each stands, and what was counted.
#[derive(Drop)]
struct Numbering<'s> {
    names: Vec<&'s str>,
    stands: Vec<Stand>,
    counts: Counts,
}

impl<'s> Model for Numbering<'s> {
    ghost use Rattle.std.specs.Prelude.{map};
    ghost use Rattle.rls_transcript.specs.Numbers.{Run};

    ghost Value = { Run };

    ghost view = { λ it. record { names = map (λ name. name.now) it.names.items; stands = it.stands.items; counts = it.counts } };
}

/// Which transaction each of the lines was answered in. Behind the last answer lines are left out.
#[tactic(auto, using(crate::proofs::NumberLemmas::numbered_more, crate::proofs::NumberLemmas::numbered_all))]
pub fn wheres_of(alloc: Global, lines: &[&[u8]], tolds: &[Told]) -> Result<Vec<Where>, AllocError>
    requires { length tolds.now ≤ length lines.now }
    ensures { IfOk result (λ wheres. AreNumbered (map (λ line. line.now) lines.now) opening_run tolds.now wheres.items) }
{
    let mut numbering = Numbering::new(alloc);
    let mut wheres = Vec::new(alloc);
    for place in 0..tolds.len() {
        let at = numbering.next(alloc, &lines[place], &tolds[place])?;
        wheres.push(at)?;
    }
    Ok(wheres)
}

impl<'s> Numbering<'s> {
    /// No line was read.
    fn new(alloc: Global) -> Numbering<'s>
        ensures { result ≡ opening_run }
    {
        Numbering {
            names: Vec::new(alloc),
            stands: Vec::new(alloc),
            counts: Counts {
                begun: 0,
                committed: 0,
            },
        }
    }

    /// The next line, and what it was answered.
    fn next(&mut self, alloc: Global, line: &&'s [u8], told: &Told) -> Result<Where, AllocError>
        ensures { IfOk result (λ at. IsNumbered line.now.now self.old told.now at self.new) }
    {
        match read_line(*line) {
            Line::Command { label, command } => self.command(alloc, label, command, told),
            Line::Skipped | Line::Phase | Line::Unlabelled => Ok(Where::Nowhere),
        }
    }

    /// A command under its label.
    #[tactic(auto, using(crate::proofs::NumberLemmas::stepped_under, crate::proofs::NumberLemmas::nowhere_under))]
    fn command(
        &mut self,
        alloc: Global,
        label: &'s str,
        command: &str,
        told: &Told,
    ) -> Result<Where, AllocError>
        ensures { IfOk result (λ at. IsNumberedIf (nat_lt (place_in self.old.names label.now) 64) self.old label.now command.now told.now at self.new) }
    {
        let place = place_among(self.names.as_slice(), label);
        if place >= MAX_LABELS {
            return Ok(Where::Nowhere);
        }
        let stand = self.stand_at(place);
        let request = request_for(alloc, status_of(stand), command)?;
        let step = step_of(self.counts, stand, &request, told);
        drop(request);
        let Some(step) = step else {
            return Err(AllocError);
        };
        self.put(place, label, step)?;
        Ok(step.at)
    }

    fn stand_at(&self, place: usize) -> Stand
        ensures { result ≡ spec.stand_at self.now place }
    {
        match self.stands.get(place) {
            Some(stand) => *stand,
            None => Stand::Nobody,
        }
    }

    /// The label at the place took the step.
    #[tactic(auto, using(crate::proofs::NumberLemmas::put_so))]
    fn put(&mut self, place: usize, label: &'s str, step: Step) -> Result<(), AllocError>
        requires { place ≡ place_in self.old.names label.now }
        ensures { OnOk result (self.new ≡ spec.run_behind self.old label.now step) }
    {
        self.put_name(place, label)?;
        self.put_stand(place, step.stand)?;
        self.counts = step.counts;
        Ok(())
    }

    fn put_name(&mut self, place: usize, label: &'s str) -> Result<(), AllocError>
        requires { place ≡ place_in self.old.names label.now }
        ensures names { OnOk result (self.new.names ≡ with_name self.old.names label.now) }
        ensures stands { self.new.stands ≡ self.old.stands }
        ensures counts { self.new.counts ≡ self.old.counts }
    {
        if place < self.names.len() {
            return Ok(());
        }
        self.names.push(label)?;
        Ok(())
    }

    fn put_stand(&mut self, place: usize, stand: Stand) -> Result<(), AllocError>
        ensures stands { OnOk result (self.new.stands ≡ spec.with_stand self.old.stands place stand) }
        ensures names { self.new.names ≡ self.old.names }
        ensures counts { self.new.counts ≡ self.old.counts }
    {
        if place < self.stands.len() {
            self.stands[place] = stand;
            return Ok(());
        }
        self.stands.push(stand)?;
        Ok(())
    }
}

/// The place of a label; one that hasn't come is behind them all.
fn place_among(names: &[&str], name: &str) -> usize
    ensures { result ≡ place_in (map (λ name. name.now) names.now) name.now }
{
    let mut place = 0;
    let mut rest = names;
    while let [first, behind @ ..] = rest {
        if *first == name {
            break;
        }
        place += 1;
        rest = behind;
    }
    place
}

fn status_of(stand: Stand) -> Status
    ensures { result ≡ spec.status_of stand }
{
    match stand {
        Stand::Nobody => Status::Nobody,
        Stand::Outside => Status::Outside,
        Stand::Open(_) => Status::Open,
        Stand::Over(_) => Status::Over,
    }
}

/// The step of a command; none over 64 bits, which no script reaches.
fn step_of(counts: Counts, stand: Stand, request: &Request, told: &Told) -> Option<Step>
    ensures { IfSome result (λ step. step ≡ spec.step_of counts stand request.now told.now) }
{
    match request {
        Request::Nothing(_) => Some(stays(counts, stand, Where::Nowhere)),
        Request::Connect(_) => connect_step(counts, told),
        Request::Ask(ask) => asked_step(counts, stand, ask, told),
    }
}

fn asked_step(counts: Counts, stand: Stand, ask: &Ask, told: &Told) -> Option<Step>
    ensures { IfSome result (λ step. step ≡ spec.asked_step counts stand ask.now told.now) }
{
    match ask {
        Ask::Begin(_) => begin_step(counts, stand, told),
        Ask::Post(statement) => post_step(counts, stand, statement.get(), told),
        Ask::Run(statement) => run_step(counts, stand, statement.get(), told),
        Ask::Commit => commit_step(counts, stand, told),
        Ask::Rollback => Some(rollback_step(counts, stand)),
    }
}

/// The label stands so.
fn stays(counts: Counts, stand: Stand, at: Where) -> Step
    ensures { result ≡ spec.stays counts stand at }
{
    Step { at, stand, counts }
}

fn one_begun(counts: Counts) -> Option<Counts>
    ensures { IfSome result (λ after. after ≡ spec.one_begun counts) }
{
    match counts.begun.checked_add(1) {
        Some(begun) => Some(Counts {
            begun,
            committed: counts.committed,
        }),
        None => None,
    }
}

fn one_committed(counts: Counts) -> Option<Counts>
    ensures { IfSome result (λ after. after ≡ spec.one_committed counts) }
{
    match counts.committed.checked_add(1) {
        Some(committed) => Some(Counts {
            begun: counts.begun,
            committed,
        }),
        None => None,
    }
}

/// A connect.
fn connect_step(counts: Counts, told: &Told) -> Option<Step>
    ensures { IfSome result (λ step. step ≡ spec.connect_step counts told.now) }
{
    if told.is_refused() {
        return Some(stays(counts, Stand::Nobody, Where::Nowhere));
    }
    match one_begun(counts) {
        Some(after) => Some(stays(after, Stand::Outside, Where::Begun(after.begun))),
        None => None,
    }
}

/// BEGIN.
fn begin_step(counts: Counts, stand: Stand, told: &Told) -> Option<Step>
    ensures { IfSome result (λ step. step ≡ spec.begin_step counts stand told.now) }
{
    if told.is_refused() {
        return Some(stays(counts, stand, Where::Nowhere));
    }
    let Some(after) = one_begun(counts) else {
        return None;
    };
    let block = Block {
        txn: after.begun,
        statements: 0,
        rows: 0,
    };
    Some(stays(after, Stand::Open(block), Where::Begun(after.begun)))
}

/// A statement in a block.
fn post_step(counts: Counts, stand: Stand, asked: &Statement, told: &Told) -> Option<Step>
    ensures { IfSome result (λ step. step ≡ spec.post_step counts stand asked.now told.now) }
{
    match stand {
        Stand::Open(block) => open_step(counts, block, asked, told),
        _ => Some(stays(counts, stand, Where::Nowhere)),
    }
}

fn open_step(counts: Counts, block: Block, asked: &Statement, told: &Told) -> Option<Step>
    ensures { IfSome result (λ step. step ≡ spec.open_step counts block asked.now told.now) }
{
    if is_conflict(told) {
        let txn = block.txn;
        return Some(stays(counts, Stand::Over(txn), Where::Over(txn)));
    }
    let count = inserted(asked, told);
    let Some(after) = block_behind(block, count) else {
        return None;
    };
    let rows = Rows {
        first: block.rows,
        count,
    };
    let at = Where::Posted(block.txn, after.statements, rows);
    Some(stays(counts, Stand::Open(after), at))
}

/// The block behind one statement more, which inserted so many rows.
fn block_behind(block: Block, count: u64) -> Option<Block>
    ensures { IfSome result (λ after. after ≡ spec.block_behind block count) }
{
    match (
        block.statements.checked_add(1),
        block.rows.checked_add(count),
    ) {
        (Some(statements), Some(rows)) => Some(Block {
            txn: block.txn,
            statements,
            rows,
        }),
        _ => None,
    }
}

/// A statement outside a block.
fn run_step(counts: Counts, stand: Stand, asked: &Statement, told: &Told) -> Option<Step>
    ensures { IfSome result (λ step. step ≡ spec.run_step counts stand asked.now told.now) }
{
    if is_unbegun(told) {
        return Some(stays(counts, stand, Where::Nowhere));
    }
    let Some(after) = one_begun(counts) else {
        return None;
    };
    if is_conflict(told) {
        return Some(stays(after, stand, Where::Over(after.begun)));
    }
    let rows = Rows {
        first: 0,
        count: inserted(asked, told),
    };
    match one_committed(after) {
        Some(last) => Some(stays(last, stand, Where::Alone(last.begun, rows, last.committed))),
        None => None,
    }
}

/// COMMIT.
fn commit_step(counts: Counts, stand: Stand, told: &Told) -> Option<Step>
    ensures { IfSome result (λ step. step ≡ spec.commit_step counts stand told.now) }
{
    let Stand::Open(block) = stand else {
        return Some(stays(counts, stand, Where::Nowhere));
    };
    if told.is_refused() {
        return Some(stays(counts, Stand::Outside, Where::Over(block.txn)));
    }
    match one_committed(counts) {
        Some(after) => Some(stays(
            after,
            Stand::Outside,
            Where::Committed(block.txn, after.committed),
        )),
        None => None,
    }
}

/// ROLLBACK, and COMMIT of a block that is over.
fn rollback_step(counts: Counts, stand: Stand) -> Step
    ensures { result ≡ spec.rollback_step counts stand }
{
    match stand {
        Stand::Open(block) => stays(counts, Stand::Outside, Where::Over(block.txn)),
        Stand::Over(txn) => stays(counts, Stand::Outside, Where::Over(txn)),
        Stand::Nobody | Stand::Outside => stays(counts, stand, Where::Nowhere),
    }
}

/// How many rows the statement inserts: each tuple of an INSERT that is done.
fn inserted(asked: &Statement, told: &Told) -> u64
    ensures { result ≡ spec.inserted asked.now told.now }
{
    match asked {
        Statement::Insert(_) if told.is_refused() => 0,
        Statement::Insert(it) => it.tuples.len() as u64,
        _ => 0,
    }
}

/// Whether it is answered 40001.
fn is_conflict(told: &Told) -> bool
    ensures { result ≡ spec.is_conflict told.now }
{
    told.code() == b"40001".as_slice()
}

/// Whether it is answered 28000.
fn is_unbegun(told: &Told) -> bool
    ensures { result ≡ spec.is_unbegun told.now }
{
    told.code() == b"28000".as_slice()
}
