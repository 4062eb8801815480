//! A file to read a script from, and a standard output to write to, both through buffers.

ghost use Rattle.std.specs.Prelude.{◌≡◌, ◌⊎◌, [], ◌∷◌, ◌+◌, ◌++◌, ◌<◌, ◌≤◌, length, take, true, false, Some, None, Ok, IsNone, IsSome, IfSome, IfOk, IfErr, OnOk, OnErr};
ghost use Rattle.std.specs.Option.{option_to_list};
ghost use Rattle.rlsdb.specs.Flaws as spec;
ghost use Rattle.std.specs.Io.Buffered.{reader_buffer, reader_remaining, writer_buffer, writer_contents};
ghost use Rattle.std.specs.Io.KnownBytes.{Consumes, Appends, Keeps};

use crate::passed::Passed;
use rls_session::rls_script::{Failed, ScriptIn, ScriptOut};
use std::alloc::Global;
use std::fs::File;
use std::io;
use std::io::{BufRead, BufReader, BufWriter, ErrorKind, Read, StdinLock, Write};

/// Whether the bytes begin with a byte order mark.
pub fn begins_with_mark(bytes: &[u8]) -> bool
    ensures { result ≡ spec.begins_with_mark bytes.now }
{
    bytes.starts_with(b"\xEF\xBB\xBF")
}

/// A file that is read, or the standard input.
#[derive(Drop)]
pub enum Source {
    File(File),
    Typed(StdinLock<'static>),
}

impl Read for Source {
    fn read(&mut self, buf: &mut [u8]) -> io::Result<usize> {
        match self {
            Source::File(file) => file.read(buf),
            Source::Typed(typed) => typed.read(buf),
        }
    }
}

/// A reader that notes, for proofs, what its calls gave.
#[derive(Drop)]
pub struct DeviceIn<R: Read + Drop> {
    reader: BufReader<R>,
    given: Passed,
    ended: bool,
    // A byte for each call that failed.
    failed: Passed,
    // Why the last of them did.
    error: Option<io::Error>,
}

impl<R: Read + Drop> DeviceIn<R> {
    pub fn new(alloc: Global, reader: R) -> io::Result<DeviceIn<R>>
        ensures whole { IfOk result (λ device. device.failed.bytes ≡ []) }
        ensures fresh { IfOk result (λ device. device.given.bytes ≡ []) }
        ensures begins { IfOk result (λ device. device.ended ≡ false) }
    {
        Ok(DeviceIn {
            reader: BufReader::new(alloc, reader)?,
            given: Passed::new(),
            ended: false,
            failed: Passed::new(),
            error: None,
        })
    }

    /// Why the last call that failed did, if one did.
    pub fn error(&self) -> Option<io::Error>
        ensures { result ≡ self.now.error }
    {
        self.error
    }

    /// Whether a byte order mark stands in front, as far as the first read tells. Nothing is taken.
    pub fn is_marked(&mut self) -> io::Result<bool>
        ensures mark { IfOk result (λ marked. marked ≡ spec.begins_with_mark (reader_buffer self.new.reader)) }
        ensures given { self.new.given ≡ self.old.given }
        ensures ended { self.new.ended ≡ self.old.ended }
        ensures failed { self.new.failed ≡ self.old.failed }
    {
        if let Err(error) = self.reader.fill_buf() {
            // The read that takes a byte tries again.
            if error.kind() != ErrorKind::Interrupted {
                return Err(error);
            }
        }
        Ok(begins_with_mark(self.reader.buffer()))
    }

    // The next byte, by a read that fills the buffer.
    fn read_byte(&mut self) -> Result<Option<u8>, Failed>
        ensures byte { IfOk result (λ byte. self.new.given.bytes ≡ self.old.given.bytes ++ option_to_list byte) }
        ensures end { IfOk result (λ byte. IsNone byte → self.new.ended ≡ true) }
        ensures before_end { self.new.ended ≡ true → (self.old.ended ≡ true) ⊎ (result ≡ Ok None) }
        ensures ok { OnOk result (length self.new.failed.bytes ≡ length self.old.failed.bytes) }
        ensures err { OnErr result (length self.new.failed.bytes ≡ length self.old.failed.bytes + 1) }
        ensures none_given { OnErr result (self.new.given.bytes ≡ self.old.given.bytes) }
        ensures known { IfOk result (λ byte. IfSome byte (λ first. Consumes (reader_remaining R.remaining self.old.reader) (reader_remaining R.remaining self.new.reader) (first ∷ []))) }
        ensures why { OnErr result (IsSome self.new.error) }
    {
        let mut byte = [0u8; 1];
        match self.reader.read_exact(&mut byte) {
            Ok(()) => {
                self.given.add(&byte);
                Ok(Some(byte[0]))
            }
            Err(error) if error.kind() == ErrorKind::UnexpectedEof => {
                self.ended = true;
                Ok(None)
            }
            Err(error) => {
                self.failed.add(&[0]);
                self.error = Some(error);
                Err(Failed)
            }
        }
    }
}

impl<R: Read + Drop> ScriptIn for DeviceIn<R> {
    ghost failures = { λ device. length device.failed.bytes };

    ghost given = { λ device. device.given.bytes };

    ghost ended = { λ device. device.ended };

    #[inline(always)]
    fn next_byte(&mut self) -> Result<Option<u8>, Failed>
        ensures byte { IfOk result (λ byte. self.new.given.bytes ≡ self.old.given.bytes ++ option_to_list byte) }
        ensures end { IfOk result (λ byte. IsNone byte → self.new.ended ≡ true) }
        ensures before_end { self.new.ended ≡ true → (self.old.ended ≡ true) ⊎ (result ≡ Ok None) }
        ensures ok { OnOk result (length self.new.failed.bytes ≡ length self.old.failed.bytes) }
        ensures err { OnErr result (length self.new.failed.bytes ≡ length self.old.failed.bytes + 1) }
        ensures none_given { OnErr result (self.new.given.bytes ≡ self.old.given.bytes) }

        // Where the reader's bytes are known, it is the first of them.
        ensures known { IfOk result (λ byte. IfSome byte (λ first. Consumes (reader_remaining R.remaining self.old.reader) (reader_remaining R.remaining self.new.reader) (first ∷ []))) }
    {
        match self.reader.buffer().first().copied() {
            Some(byte) => {
                self.reader.consume(1);
                self.given.add(&[byte]);
                Ok(Some(byte))
            }
            None => self.read_byte(),
        }
    }
}

/// A writer that notes, for proofs, what its calls took, which stays in a buffer until `finish`.
#[derive(Drop)]
pub struct DeviceOut<W: Write + Drop> {
    writer: BufWriter<W>,
    taken: Passed,
    // A byte for each call that failed.
    failed: Passed,
    // Why the last call that failed did, also one that gives on what is in the buffer.
    error: Option<io::Error>,
}

impl<W: Write + Drop> DeviceOut<W> {
    pub fn new(alloc: Global, writer: W) -> io::Result<DeviceOut<W>>
        ensures whole { IfOk result (λ device. device.failed.bytes ≡ []) }
        ensures fresh { IfOk result (λ device. device.taken.bytes ≡ []) }
    {
        Ok(DeviceOut {
            writer: BufWriter::new(alloc, writer)?,
            taken: Passed::new(),
            failed: Passed::new(),
            error: None,
        })
    }

    /// Why the last call that failed did, if one did.
    pub fn error(&self) -> Option<io::Error>
        ensures { result ≡ self.now.error }
    {
        self.error
    }

    /// Writes what is still in the buffer.
    pub fn finish(&mut self) -> io::Result<()>
        ensures emptied { OnOk result (writer_buffer self.new.writer ≡ []) }
        ensures known { Keeps (writer_contents W.contents self.old.writer) (writer_contents W.contents self.new.writer) }
        ensures taken { self.new.taken.bytes ≡ self.old.taken.bytes }
        ensures why { IfErr result (λ error. self.new.error ≡ Some error) }
    {
        match self.writer.flush() {
            Ok(()) => Ok(()),
            Err(error) => {
                self.error = Some(error);
                Err(error)
            }
        }
    }
}

impl DeviceOut<File> {
    /// Waits until the system has stored what was given on.
    pub fn store(&self) -> io::Result<()> {
        self.writer.get_ref().sync_all()
    }
}

impl<W: Write + Drop> ScriptOut for DeviceOut<W> {
    ghost failures = { λ device. length device.failed.bytes };

    ghost taken = { λ device. device.taken.bytes };

    fn write_some(&mut self, bytes: &[u8]) -> Result<usize, Failed>
        requires { 0 < length bytes.now }
        ensures count { IfOk result (λ count. (0 < count) × (count ≤ length bytes.now)) }
        ensures bytes { IfOk result (λ count. self.new.taken.bytes ≡ self.old.taken.bytes ++ take count bytes.now) }
        ensures ok { OnOk result (length self.new.failed.bytes ≡ length self.old.failed.bytes) }
        ensures err { OnErr result (length self.new.failed.bytes ≡ length self.old.failed.bytes + 1) }

        // Where what the writer holds is known, they are behind it.
        ensures known { IfOk result (λ count. Appends (writer_contents W.contents self.old.writer) (writer_contents W.contents self.new.writer) (take count bytes.now)) }
    {
        match self.writer.write_all(bytes) {
            Ok(()) => {
                self.taken.add(bytes);
                Ok(bytes.len())
            }
            Err(error) => {
                self.failed.add(&[0]);
                self.error = Some(error);
                Err(Failed)
            }
        }
    }
}

/// A writer that keeps nothing.
#[derive(Drop)]
pub struct Nowhere {
    taken: Passed,
}

impl Nowhere {
    pub fn new() -> Nowhere
        ensures { result.taken.bytes ≡ [] }
    {
        Nowhere {
            taken: Passed::new(),
        }
    }
}

impl ScriptOut for Nowhere {
    ghost failures = { λ _. 0 };

    ghost taken = { λ nowhere. nowhere.taken.bytes };

    fn write_some(&mut self, bytes: &[u8]) -> Result<usize, Failed> {
        self.taken.add(bytes);
        Ok(bytes.len())
    }
}
