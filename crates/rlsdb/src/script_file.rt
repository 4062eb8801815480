//! The bytes of scripts and of transcripts.

ghost use Rattle.std.specs.Prelude.{◌≡◌, [], false, IfOk};

use crate::device::{DeviceIn, begins_with_mark};
use crate::fault::Fault;
use rls_session::rls_script::read_script;
use std::fs::File;
use std::io::Read;

/// All bytes of the file, or of the standard input. Standard error is told of a byte order mark in front.
pub fn read_file<'a>(rt: &HostRuntime, name: &'a str) -> Result<Vec<u8>, Fault<'a>> {
    match name {
        "-" => read_from(rt, name, rt.reader()),
        name => match File::open(rt, name) {
            Ok(file) => read_from(rt, name, file),
            Err(error) => Err(Fault::of_script(name, error)),
        },
    }
}

/// The same of a reader.
fn read_from<'a, R: Read + Drop>(
    rt: &HostRuntime,
    name: &'a str,
    reader: R,
) -> Result<Vec<u8>, Fault<'a>> {
    let mut input = DeviceIn::new(rt.alloc(), reader)?;
    match read_script(rt.alloc(), &mut input) {
        Ok(script) => {
            if begins_with_mark(script.as_slice()) {
                tell_mark(rt, name);
            }
            Ok(script)
        }
        Err(fault) => Err(Fault::Ended(fault).named(name, input.error())),
    }
}

/// A device that gives the reader's bytes one by one. Standard error is told of a byte order mark in front.
pub fn input_of<'a, R: Read + Drop>(
    rt: &HostRuntime,
    name: &'a str,
    reader: R,
) -> Result<DeviceIn<R>, Fault<'a>>
    ensures whole { IfOk result (λ device. device.failed.bytes ≡ []) }
    ensures fresh { IfOk result (λ device. device.given.bytes ≡ []) }
    ensures begins { IfOk result (λ device. device.ended ≡ false) }
{
    let mut input = DeviceIn::new(rt.alloc(), reader)?;
    match input.is_marked() {
        Ok(true) => tell_mark(rt, name),
        Ok(false) => {}
        Err(error) => return Err(Fault::of_script(name, error)),
    }
    Ok(input)
}

/// Tells standard error that the script begins with a byte order mark. Its first line is then no command's.
fn tell_mark(rt: &HostRuntime, name: &str) {
    let _ = eprintln!(rt;
        "rlsdb: {name}: line 1: a byte order mark; save the file as UTF-8 without one"
    );
}
