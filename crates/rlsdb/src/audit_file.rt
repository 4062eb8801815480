//! The lines of an audit file, read and written one by one.

ghost use Rattle.std.specs.Prelude.{◌≡◌, ◌∷◌, [], ◌++◌, ◌⊎◌, ◌+◌, ◌<◌, ◌≤◌, length, true, IfOk, IfErr, OnOk, OnErr, IsNone};
ghost use Rattle.std.specs.Option.{option_to_list};
ghost use Rattle.rlsdb.specs.AuditLines.{ReadsNext, WritesLine};

use crate::device::DeviceIn;
use rls_check::rls_audit::{Line, write_line};
use rls_session::rls_script::{Failed, RunFault, ScriptIn, ScriptOut, write_all};
use std::alloc::Global;
use std::io;
use std::io::Read;

/// The most bytes that an audit file has.
pub const MAX_AUDIT: u64 = 4_294_967_296;

/// What a read of a line came to.
#[derive(Clone, Copy, PartialEq, Eq)]
pub enum NextLine {
    /// A line with its LF.
    Whole,
    /// A last line, which has none.
    Last,
    /// There is no line any more.
    End,
}

/// An audit file that is read.
#[derive(Drop)]
pub struct AuditIn<I: ScriptIn + Drop> {
    input: I,
    // How many bytes it may still give.
    left: u64,
}

impl<I: ScriptIn + Drop> AuditIn<I> {
    pub fn new(input: I) -> AuditIn<I>
        ensures input { result.input ≡ input }
        ensures left { result.left ≡ MAX_AUDIT }
    {
        AuditIn {
            input,
            left: MAX_AUDIT,
        }
    }

    /// Reads the next line, without its LF, which the last one may lack.
    pub fn next_line(&mut self, line: &mut Vec<u8>) -> Result<NextLine, RunFault>
        ensures line { IfOk result (λ came. ReadsNext came (I.given self.old.input) (I.given self.new.input) (I.ended self.new.input) line.new.items) }
        ensures err { IfErr result (λ fault. (fault ≡ RunFault.Read) ⊎ (fault ≡ RunFault.NoMemory)) }
    {
        line.clear();
        for _ in 0..=MAX_AUDIT {
            match self.next_byte()? {
                Some(b'\n') => return Ok(NextLine::Whole),
                Some(byte) => line.push(byte)?,
                None if line.is_empty() => return Ok(NextLine::End),
                None => return Ok(NextLine::Last),
            }
        }
        Err(RunFault::Read)
    }

    /// Reads on to the end.
    pub fn read_on(&mut self) -> Result<(), RunFault>
        ensures ok { OnOk result (I.ended self.new.input ≡ true) }
        ensures err { IfErr result (λ fault. fault ≡ RunFault.Read) }
    {
        for _ in 0..=MAX_AUDIT {
            if self.next_byte()?.is_none() {
                return Ok(());
            }
        }
        Err(RunFault::Read)
    }

    #[inline(always)]
    fn next_byte(&mut self) -> Result<Option<u8>, RunFault>
        ensures byte { IfOk result (λ byte. I.given self.new.input ≡ I.given self.old.input ++ option_to_list byte) }
        ensures end { IfOk result (λ byte. IsNone byte → I.ended self.new.input ≡ true) }
        ensures err { IfErr result (λ fault. fault ≡ RunFault.Read) }

        // Where there are more bytes than it may give, the call that would give the next one fails.
        ensures left { OnOk result (self.new.left + length (I.given self.new.input) ≡ self.old.left + length (I.given self.old.input)) }
    {
        match self.input.next_byte() {
            Ok(Some(byte)) if self.left > 0 => {
                self.left -= 1;
                Ok(Some(byte))
            }
            Ok(None) => Ok(None),
            Ok(Some(_)) | Err(Failed) => Err(RunFault::Read),
        }
    }
}

impl<R: Read + Drop> AuditIn<DeviceIn<R>> {
    /// Why the file's last read that failed did, if one did.
    pub fn error(&self) -> Option<io::Error>
        ensures { result ≡ self.now.input.error }
    {
        self.input.error()
    }
}

/// Writes a line of an audit as compact JSON, with its LF.
#[tactic(auto, using(crate::proofs::LineLemmas::line_written))]
pub fn write_audit_line<O: ScriptOut>(
    alloc: Global,
    line: &Line,
    output: &mut O,
) -> Result<(), RunFault>
    ensures { OnOk result (WritesLine line.now (O.taken output.old) (O.taken output.new)) }
{
    let text = write_line(alloc, line)?;
    write_text_line(text.as_str(), output)
}

/// Writes a text, and LF.
pub fn write_text_line<O: ScriptOut>(text: &str, output: &mut O) -> Result<(), RunFault>
    ensures ok { OnOk result (O.taken output.new ≡ O.taken output.old ++ (text.now ++ (10 ∷ []))) }
    ensures err { IfErr result (λ fault. fault ≡ RunFault.Write) }
    ensures failed { OnErr result (O.failures output.old < O.failures output.new) }
{
    match write_all(text.as_bytes(), output) {
        Ok(()) => {}
        Err(Failed) => return Err(RunFault::Write),
    }
    match write_all(b"\n", output) {
        Ok(()) => Ok(()),
        Err(Failed) => Err(RunFault::Write),
    }
}
