//! The form of an audit across its lines: which line may stand next.

ghost use Rattle.std.specs.Prelude.{◌≡◌, ◌+◌, false, OnOk, IsUtf8};
ghost use Rattle.rls_audit.specs.rls_audit_lines.specs.Reading.{MeansLine, TellsWhether, IsLineRead};
ghost use Rattle.rls_audit.specs.rls_audit_lines.specs.declared.lines.Line.TheVariants.{Head};
ghost use Rattle.rls_check.specs.Forms as spec;
ghost use Rattle.rls_check.specs.Forms.{FollowsAll, Follows, IsNext, IsBehind, IsUnread, HeadOf, FollowerOf, IsFoundAmong, IsTakenAmong, IsEnded, used_behind};

use rls_audit::{First, Line, Second, Shown, read_line};
use rls_value::Refusal;
use std::alloc::{AllocError, Global};
use std::collections::BTreeSet;
use std::str;

/// What was read last.
#[derive(Clone, Copy, PartialEq, Eq)]
pub(crate) enum Stage {
    Nothing,
    /// The head or a transaction, of the second format or the first.
    Inside(bool),
    End,
}

/// How far an audit is read.
#[derive(Drop)]
pub(crate) struct Form {
    pub(crate) stage: Stage,
    /// How many lines were read.
    pub(crate) lines: u64,
    /// The numbers of the transactions so far.
    pub(crate) used: BTreeSet<u64>,
}

impl Form {
    pub(crate) fn new(alloc: Global) -> Form
        ensures { IsUnread result }
    {
        Form {
            stage: Stage::Nothing,
            lines: 0,
            used: BTreeSet::new(alloc),
        }
    }

    /// The line that the bytes are, where it may stand next, and its format.
    #[tactic(auto, using(crate::proofs::FormLemmas::taken))]
    pub(crate) fn next(&mut self, alloc: Global, bytes: &[u8]) -> Result<(Line, bool), Refusal>
        ensures { IsTakenAmong (self.old.lines + 1) (IsNext self.old bytes.now) (λ it second given. (given ≡ (it, second)) × IsBehind self.old it second self.new) result }
    {
        let (line, second) = self.found(alloc, bytes)?;
        match self.go_on(&line, second) {
            Ok(()) => Ok((line, second)),
            Err(_) => {
                drop(line);
                Err(Refusal::NoMemory)
            }
        }
    }

    /// The same, with its format, and nothing changes.
    #[tactic(auto, using(crate::proofs::FormLemmas::no_text))]
    fn found(&self, alloc: Global, bytes: &[u8]) -> Result<(Line, bool), Refusal>
        ensures { IsFoundAmong (self.now.lines + 1) (IsNext self.now bytes.now) result }
    {
        let Some(number) = self.lines.checked_add(1) else {
            return Err(Refusal::NoMemory);
        };
        match str::from_utf8(bytes) {
            Ok(text) => self.found_in(alloc, number, text),
            Err(_) => Err(Refusal::BadAudit(number)),
        }
    }

    #[tactic(auto, using(crate::proofs::FormLemmas::next_first, crate::proofs::FormLemmas::next_inside, crate::proofs::FormLemmas::next_never))]
    fn found_in(&self, alloc: Global, number: u64, text: &str) -> Result<(Line, bool), Refusal>
        requires { IsUtf8 text.now }
        ensures { IsFoundAmong number (IsNext self.now text.now) result }
    {
        match self.stage {
            Stage::Nothing => read_head(alloc, number, text),
            Stage::Inside(second) => self.following(alloc, second, number, text),
            Stage::End => Err(Refusal::BadAudit(number)),
        }
    }

    /// Behind the head, whose format this is.
    #[tactic(auto, using(crate::proofs::FormLemmas::no_follower, crate::proofs::FormLemmas::line_refused))]
    fn following(
        &self,
        alloc: Global,
        second: bool,
        number: u64,
        text: &str,
    ) -> Result<(Line, bool), Refusal>
        ensures { IsFoundAmong number (FollowerOf second self.now.used text.now) result }
    {
        match read_as(alloc, second, number, text) {
            Ok(line) => {
                if self.follows(&line) {
                    return Ok((line, second));
                }
                drop(line);
                Err(Refusal::BadAudit(number))
            }
            Err(refusal) => Err(refusal),
        }
    }

    /// Whether the line may stand behind the head.
    fn follows(&self, line: &Line) -> bool
        ensures { TellsWhether result (Follows self.now.used line.now) }
    {
        match line {
            Line::Head => false,
            Line::Txn(shown) => self.follows_all(shown),
            Line::End(count, _) => *count == self.used.len() as u64,
        }
    }

    /// Whether the transaction may stand behind the others.
    fn follows_all(&self, shown: &Shown) -> bool
        ensures { TellsWhether result (FollowsAll self.now.used shown.now) }
    {
        let commits = self.used.len() as u64;
        shown.txn > 0
            && shown.commit > 0
            && shown.commit - 1 == commits
            && shown.snap <= commits
            && !self.used.contains(&shown.txn)
    }

    /// The line is read.
    #[tactic(auto, using(crate::proofs::FormLemmas::fewer))]
    fn go_on(&mut self, line: &Line, second: bool) -> Result<(), AllocError>
        ensures { OnOk result (IsBehind self.old line.now second self.new) }
    {
        let Some(lines) = self.lines.checked_add(1) else {
            return Err(AllocError);
        };
        note_used(&mut self.used, line)?;
        self.stage = stage_behind(line, second);
        self.lines = lines;
        Ok(())
    }

    /// Whether the last line is read.
    pub(crate) fn finish(self) -> Result<(), Refusal>
        ensures { IsEnded self (λ _. Unit {0}) result }
    {
        match self.stage {
            Stage::End => Ok(()),
            Stage::Nothing | Stage::Inside(_) => match self.lines.checked_add(1) {
                Some(number) => Err(Refusal::BadAudit(number)),
                None => Err(Refusal::NoMemory),
            },
        }
    }
}

/// The number of the line's transaction is used.
fn note_used(used: &mut BTreeSet<u64>, line: &Line) -> Result<(), AllocError>
    ensures { OnOk result (used.new.keys ≡ used_behind line.now used.old.keys) }
{
    if let Line::Txn(shown) = line {
        used.insert(shown.txn)?;
    }
    Ok(())
}

/// What was read last once the line is.
fn stage_behind(line: &Line, second: bool) -> Stage
    ensures { result ≡ spec.stage_behind line.now second }
{
    match line {
        Line::Head | Line::Txn(_) => Stage::Inside(second),
        Line::End(_, _) => Stage::End,
    }
}

/// The first line, in either format.
#[tactic(auto, using(crate::proofs::FormLemmas::other_head, crate::proofs::FormLemmas::head_found, crate::proofs::FormLemmas::line_refused))]
fn read_head(alloc: Global, number: u64, text: &str) -> Result<(Line, bool), Refusal>
    ensures { IsFoundAmong number (HeadOf text.now) result }
{
    match read_line::<Second>(alloc, number, text) {
        Ok(line) => {
            if is_head(&line) {
                return Ok((line, true));
            }
            drop(line);
            read_first_head(alloc, number, text)
        }
        Err(Refusal::BadAudit(_)) => read_first_head(alloc, number, text),
        Err(refusal) => Err(refusal),
    }
}

/// The head of the first format.
#[tactic(auto, using(crate::proofs::FormLemmas::no_first_head, crate::proofs::FormLemmas::line_refused))]
fn read_first_head(alloc: Global, number: u64, text: &str) -> Result<(Line, bool), Refusal>
    ensures { IsFoundAmong number (λ it second. HeadOf text.now it second × (second ≡ false)) result }
{
    match read_line::<First>(alloc, number, text) {
        Ok(line) => {
            if is_head(&line) {
                return Ok((line, false));
            }
            drop(line);
            Err(Refusal::BadAudit(number))
        }
        Err(refusal) => Err(refusal),
    }
}

fn is_head(line: &Line) -> bool
    ensures { TellsWhether result (line.now ≡ Head) }
{
    match line {
        Line::Head => true,
        Line::Txn(_) | Line::End(_, _) => false,
    }
}

/// The line that the text is in the format.
pub(crate) fn read_as(alloc: Global, second: bool, number: u64, text: &str) -> Result<Line, Refusal>
    ensures { IsLineRead number result (MeansLine second text.now) }
{
    if second {
        read_line::<Second>(alloc, number, text)
    } else {
        read_line::<First>(alloc, number, text)
    }
}
