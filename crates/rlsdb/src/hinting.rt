//! What is told of a script's lines that aren't taken: by the command that runs nothing, and beside a run.

ghost use Rattle.std.specs.Prelude.{◌≡◌, ◌⊎◌, ◌++◌, ◌+◌, true, length, None, Ok, IsNone, IfSome, IfOk, OnOk, OnErr};
ghost use Rattle.std.specs.Option.{option_to_list};
ghost use Rattle.rls_session.specs.rls_script.specs.Streams.{GrewBy};
ghost use Rattle.rlsdb.specs.Answers.{IsParsed};

use crate::device::DeviceIn;
use crate::fault::Fault;
use crate::script_file::{input_of, read_file};
use rls_hints::{Place, hint_of, label_hint};
use rls_session::rls_script::{
    Failed, Line, RunFault, ScriptIn, ScriptOut, first_line, read_line, read_script, write_all,
};
use std::alloc::{AllocError, Global};
use std::fs::File;
use std::io::Read;
use std::{io, str};

/// Writes what isn't taken of the script that is in the file, or on the standard input. True where all of it is.
pub fn parse<'a, O: ScriptOut>(
    rt: &HostRuntime,
    name: &'a str,
    output: &mut O,
) -> Result<bool, Fault<'a>>
    ensures { IfOk result (λ fine. GrewBy (O.taken output.old) (O.taken output.new) (λ written. IsParsed written fine)) }
{
    let script = read_file(rt, name)?;
    let fine = parse_lines(rt.alloc(), name, script.as_slice(), output);
    drop(script);
    Ok(fine?)
}

/// The same of these lines.
#[tactic(auto, using(crate::proofs::ParsingLemmas::none_parsed, crate::proofs::ParsingLemmas::more_parsed, crate::proofs::ParsingLemmas::no_more_parsed))]
fn parse_lines<O: ScriptOut>(
    alloc: Global,
    name: &str,
    script: &[u8],
    output: &mut O,
) -> Result<bool, RunFault>
    ensures { IfOk result (λ fine. GrewBy (O.taken output.old) (O.taken output.new) (λ written. IsParsed written fine)) }
{
    let mut fine = true;
    let mut number: u64 = 0;
    let mut rest = script;
    while !rest.is_empty() {
        let (line, behind) = first_line(rest);
        number = number.saturating_add(1);
        let is_taken = parse_line(alloc, name, number, line, output)?;
        fine = fine && is_taken;
        rest = behind;
    }
    Ok(fine)
}

#[tactic(auto, using(crate::proofs::ParsingLemmas::none_parsed, crate::proofs::ParsingLemmas::some_parsed))]
fn parse_line<O: ScriptOut>(
    alloc: Global,
    name: &str,
    number: u64,
    line: &[u8],
    output: &mut O,
) -> Result<bool, RunFault>
    ensures { IfOk result (λ fine. GrewBy (O.taken output.old) (O.taken output.new) (λ written. IsParsed written fine)) }
{
    match hint_in(alloc, name, number, line)? {
        Some(hint) => {
            let written = write_all(hint.as_bytes(), output);
            drop(hint);
            match written {
                Ok(()) => Ok(false),
                Err(Failed) => Err(RunFault::Write),
            }
        }
        None => Ok(true),
    }
}

/// What is told of the line.
fn hint_in(
    alloc: Global,
    file: &str,
    number: u64,
    line: &[u8],
) -> Result<Option<String>, AllocError> {
    match read_line(line) {
        Line::Skipped | Line::Phase => Ok(None),
        Line::Unlabelled => Ok(Some(label_hint(alloc, file, number)?)),
        Line::Command { command, .. } => match str::from_utf8(line) {
            Ok(text) => {
                let place = Place {
                    file,
                    line: number,
                    text,
                };
                hint_of(alloc, place, command)
            }
            Err(_) => Ok(Some(label_hint(alloc, file, number)?)),
        },
    }
}

/// All bytes of the script that is in the file, or on the standard input. Standard error is told of its lines that aren't taken.
pub fn read_hinted<'a>(rt: &HostRuntime, name: &'a str) -> Result<Vec<u8>, Fault<'a>> {
    match name {
        "-" => read_telling(rt, name, rt.reader()),
        name => match File::open(rt, name) {
            Ok(file) => read_telling(rt, name, file),
            Err(error) => Err(Fault::of_script(name, error)),
        },
    }
}

/// The same of a reader.
fn read_telling<'a, R: Read + Drop>(
    rt: &HostRuntime,
    name: &'a str,
    reader: R,
) -> Result<Vec<u8>, Fault<'a>> {
    let input = input_of(rt, name, reader)?;
    let mut hinted = Hinted::new(rt, name, input);
    match read_script(rt.alloc(), &mut hinted) {
        Ok(script) => Ok(script),
        Err(fault) => Err(Fault::Ended(fault).named(name, hinted.error())),
    }
}

/// A script's reader that tells standard error of lines that aren't taken, as they are read.
#[derive(Drop)]
pub struct Hinted<'r, R: Read + Drop> {
    device: DeviceIn<R>,
    rt: &'r HostRuntime,
    file: &'r str,
    number: u64,
    line: Vec<u8>,
    // Memory sufficed for all of the line.
    is_whole: bool,
}

impl<'r, R: Read + Drop> Hinted<'r, R> {
    pub fn new(rt: &'r HostRuntime, file: &'r str, device: DeviceIn<R>) -> Hinted<'r, R>
        ensures { result.device ≡ device }
    {
        Hinted {
            device,
            rt,
            file,
            number: 1,
            line: Vec::new(rt.alloc()),
            is_whole: true,
        }
    }

    /// Why the last read that failed did, if one did.
    pub fn error(&self) -> Option<io::Error>
        ensures { result ≡ self.now.device.error }
    {
        self.device.error()
    }

    // As in a script: a line ends before LF or CR LF, or at the end.
    fn note(&mut self, byte: Option<u8>)
        ensures { self.new.device ≡ self.old.device }
    {
        match byte {
            Some(b'\n') => {
                self.tell(without_return(self.line.as_slice()));
                self.begin_line();
            }
            Some(byte) => self.keep(byte),
            None if self.line.is_empty() => (),
            None => {
                self.tell(self.line.as_slice());
                self.begin_line();
            }
        }
    }

    fn keep(&mut self, byte: u8)
        ensures { self.new.device ≡ self.old.device }
    {
        if self.line.push(byte).is_err() {
            self.is_whole = false;
        }
    }

    fn begin_line(&mut self)
        ensures { self.new.device ≡ self.old.device }
    {
        self.number = self.number.saturating_add(1);
        self.line.clear();
        self.is_whole = true;
    }

    // What memory doesn't suffice for isn't told.
    fn tell(&self, line: &[u8]) {
        if self.is_whole {
            if let Ok(Some(hint)) = hint_in(self.rt.alloc(), self.file, self.number, line) {
                let _ = eprint!(self.rt; "{hint}");
            }
        }
    }
}

fn without_return(line: &[u8]) -> &[u8] {
    match line {
        [front @ .., b'\r'] => front,
        _ => line,
    }
}

impl<'r, R: Read + Drop> ScriptIn for Hinted<'r, R> {
    ghost failures = { λ hinted. length hinted.device.failed.bytes };

    ghost given = { λ hinted. hinted.device.given.bytes };

    ghost ended = { λ hinted. hinted.device.ended };

    fn next_byte(&mut self) -> Result<Option<u8>, Failed> {
        match self.device.next_byte() {
            Ok(byte) => {
                self.note(byte);
                Ok(byte)
            }
            Err(Failed) => Err(Failed),
        }
    }
}
