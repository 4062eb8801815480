//! What ends a command before its end.

ghost use Rattle.std.specs.Prelude.{◌≡◌, true, false, None, IfSome};
ghost use Rattle.std.specs.IoError.{error_kind};
ghost use Rattle.std.specs.declared.io.ErrorKind.TheVariants.{OutOfMemory};
ghost use Rattle.rls_session.specs.rls_script.specs.declared.fault.RunFault.TheVariants.{NoMemory, Foreign, Write};
ghost use Rattle.rls_check.specs.rls_audit.specs.rls_audit_lines.specs.declared.unshown.Unshown.TheVariants.{Never};
ghost use Rattle.rlsdb.specs.declared.fault.Fault.TheVariants.{Ended};
ghost use Rattle.rlsdb.specs.Faults.{IsFlawed, attempt_fault, ended_fault, line_fault, named_fault, unread_fault, unwritten_fault};

use crate::flaw::{Flaw, flaw_of};
use rls_check::rls_audit::Unshown;
use rls_check::rls_guard::rls_catalog::rls_value::Refusal;
use rls_session::rls_script::RunFault;
use std::alloc::{AllocError, AllocFailed, Global};
use std::io;
use std::io::ErrorKind;

/// What ends a command before its end.
#[derive(Drop)]
pub enum Fault<'a> {
    /// As a run ends.
    Ended(RunFault),
    /// The file can't be read.
    Unread(&'a str, io::Error),
    /// The audit is read twice, and isn't a regular file.
    NoFile(&'a str),
    /// The file can't be written.
    Unwritten(&'a str, io::Error),
    /// Nobody reads the answers any more: the other end of the pipe is closed.
    Closed,
    /// This line of a transcript is an answer without a command.
    Loose(&'a str, u64),
    /// This line of an audit isn't one.
    BadLine(u64),
    /// The same, of which audit, and what is wrong with the line.
    BadAudit(&'a str, u64, Flaw),
    /// The page has more bytes than a page may have; it isn't written.
    OverLong(&'a str),
    /// OUT would be written over what is read, or over the answers: this says which.
    SameFile(&'static str),
}

impl<'a> From<AllocError> for Fault<'a> {
    ghost from_gives = { λ _ fault. fault ≡ Ended NoMemory };

    fn from(_error: AllocError) -> Fault<'a> {
        Fault::Ended(RunFault::NoMemory)
    }
}

impl<'a, T: Drop> From<AllocFailed<T>> for Fault<'a> {
    ghost from_gives = { λ _ fault. fault ≡ Ended NoMemory };

    fn from(_error: AllocFailed<T>) -> Fault<'a> {
        Fault::Ended(RunFault::NoMemory)
    }
}

impl<'a> From<RunFault> for Fault<'a> {
    ghost from_gives = { λ run fault. fault ≡ Ended run };

    fn from(fault: RunFault) -> Fault<'a> {
        Fault::Ended(fault)
    }
}

// Of a call that writes.
impl<'a> From<io::Error> for Fault<'a> {
    ghost from_gives = { λ error fault. (error_kind error ≡ OutOfMemory → fault ≡ Ended NoMemory) × (¬ (error_kind error ≡ OutOfMemory) → fault ≡ Ended Write) };

    fn from(error: io::Error) -> Fault<'a> {
        match error.kind() {
            ErrorKind::OutOfMemory => Fault::Ended(RunFault::NoMemory),
            _ => Fault::Ended(RunFault::Write),
        }
    }
}

impl<'a> From<Unshown> for Fault<'a> {
    ghost from_gives = { λ why fault. (why ≡ Never → fault ≡ Ended Foreign) × (¬ (why ≡ Never) → fault ≡ Ended NoMemory) };

    fn from(why: Unshown) -> Fault<'a> {
        match why {
            Unshown::NoMemory => Fault::Ended(RunFault::NoMemory),
            Unshown::Never => Fault::Ended(RunFault::Foreign),
        }
    }
}

// Of a call that reads a line of an audit.
impl<'a> From<Refusal> for Fault<'a> {
    ghost from_gives = { λ refusal fault. fault ≡ line_fault refusal };

    fn from(refusal: Refusal) -> Fault<'a> {
        match refusal {
            Refusal::BadAudit(line) => Fault::BadLine(line),
            Refusal::NoMemory => Fault::Ended(RunFault::NoMemory),
            refusal => {
                drop(refusal);
                Fault::Ended(RunFault::Foreign)
            }
        }
    }
}

impl<'a> Fault<'a> {
    /// The same. Of a file that can't be read it says which, and why, where the system said why: not where it has too many bytes.
    pub fn named(self, name: &'a str, error: Option<io::Error>) -> Fault<'a>
        ensures { result ≡ named_fault name.entry error self.entry }
    {
        match self {
            Fault::Ended(run) => match (run, error) {
                (RunFault::Read, Some(error)) => Fault::Unread(name, error),
                (run, _) => Fault::Ended(run),
            },
            fault => fault,
        }
    }

    /// The same. Of a file that can't be written it says which, and why, where that is known.
    pub fn unwritten(self, name: &'a str, error: Option<io::Error>) -> Fault<'a>
        ensures { result ≡ unwritten_fault name.entry error self.entry }
    {
        match self {
            Fault::Ended(run) => match (run, error) {
                (RunFault::Write, Some(error)) => Fault::Unwritten(name, error),
                (run, _) => Fault::Ended(run),
            },
            fault => fault,
        }
    }

    /// The same of the answers. That nobody reads them any more is a fault of its own.
    pub fn of_answers(self, name: &'a str, error: Option<io::Error>) -> Fault<'a>
        ensures closed { IfSome error (λ it. error_kind it ≡ ErrorKind.BrokenPipe → result ≡ unread_fault self.entry) }
        ensures other { IfSome error (λ it. ¬ (error_kind it ≡ ErrorKind.BrokenPipe) → result ≡ unwritten_fault name.entry error self.entry) }
        ensures none { error ≡ None → result ≡ self.entry }
    {
        match error {
            Some(it) => match it.kind() {
                ErrorKind::BrokenPipe => self.unread(),
                _ => self.unwritten(name, error),
            },
            None => self,
        }
    }

    fn unread(self) -> Fault<'a>
        ensures { result ≡ unread_fault self.entry }
    {
        match self {
            Fault::Ended(run) => match run {
                RunFault::Write => Fault::Closed,
                run => Fault::Ended(run),
            },
            fault => fault,
        }
    }

    /// The same. Of a bad line, which is this, it says of which audit it is, and what is wrong with it.
    pub fn of_line(self, alloc: Global, name: &'a str, line: &[u8]) -> Fault<'a>
        ensures { IsFlawed name.entry line.now self.entry result }
    {
        match self {
            Fault::BadLine(number) => Fault::BadAudit(name, number, flaw_of(alloc, number, line)),
            fault => fault,
        }
    }

    /// The same where the last line is missing.
    pub fn of_end(self, name: &'a str) -> Fault<'a>
        ensures { result ≡ ended_fault name.entry self.entry }
    {
        match self {
            Fault::BadLine(number) => Fault::BadAudit(name, number, Flaw::NoEnd),
            fault => fault,
        }
    }

    /// The same of a line of a file of attempts.
    pub fn of_attempts(self, name: &'a str) -> Fault<'a>
        ensures { result ≡ attempt_fault name.entry self.entry }
    {
        match self {
            Fault::BadLine(number) => Fault::BadAudit(name, number, Flaw::NoAttempt),
            fault => fault,
        }
    }

    /// That of a file that can't be opened to be read.
    pub fn of_script(name: &'a str, error: io::Error) -> Fault<'a>
        ensures memory { error_kind error ≡ ErrorKind.OutOfMemory → result ≡ Fault.Ended RunFault.NoMemory }
        ensures other { ¬ (error_kind error ≡ ErrorKind.OutOfMemory) → result ≡ Fault.Unread name.entry error }
    {
        match error.kind() {
            ErrorKind::OutOfMemory => Fault::Ended(RunFault::NoMemory),
            _ => Fault::Unread(name, error),
        }
    }

    /// That of an audit that can't be opened. Which one, and why, is said where it is one of several.
    pub fn of_audit(name: &'a str, of_several: bool, error: io::Error) -> Fault<'a>
        ensures memory { error_kind error ≡ ErrorKind.OutOfMemory → result ≡ Fault.Ended RunFault.NoMemory }
        ensures one { ¬ (error_kind error ≡ ErrorKind.OutOfMemory) → of_several ≡ false → result ≡ Fault.Ended RunFault.Read }
        ensures several { ¬ (error_kind error ≡ ErrorKind.OutOfMemory) → of_several ≡ true → result ≡ Fault.Unread name.entry error }
    {
        match error.kind() {
            ErrorKind::OutOfMemory => Fault::Ended(RunFault::NoMemory),
            _ => {
                if of_several {
                    Fault::Unread(name, error)
                } else {
                    Fault::Ended(RunFault::Read)
                }
            }
        }
    }

    /// That of a file that can't be written.
    pub fn of_create(name: &'a str, error: io::Error) -> Fault<'a>
        ensures memory { error_kind error ≡ ErrorKind.OutOfMemory → result ≡ Fault.Ended RunFault.NoMemory }
        ensures other { ¬ (error_kind error ≡ ErrorKind.OutOfMemory) → result ≡ Fault.Unwritten name.entry error }
    {
        match error.kind() {
            ErrorKind::OutOfMemory => Fault::Ended(RunFault::NoMemory),
            _ => Fault::Unwritten(name, error),
        }
    }
}
