//! Whether two names are of one file.

use crate::fault::Fault;
use std::fs;
use std::os::unix::fs::MetadataExt;

/// The names of the standard input and output, as far as the system tells them.
pub const STANDARD_INPUT: &str = "/proc/self/fd/0";

const STANDARD_OUTPUT: &str = "/proc/self/fd/1";

/// That OUT is a file of its own: neither the argument's, which is read, nor the one that answers go to.
pub fn require_own<'a>(
    rt: &HostRuntime,
    read: &str,
    argument: &'static str,
    out: &str,
) -> Result<(), Fault<'a>> {
    if read == out || is_one_file(rt, read, out) {
        return Err(Fault::SameFile(argument));
    }
    if is_one_file(rt, STANDARD_OUTPUT, out) {
        return Err(Fault::SameFile("standard output"));
    }
    Ok(())
}

/// That the argument's file, which is read, isn't the one that answers go to.
pub fn require_apart<'a>(
    rt: &HostRuntime,
    read: &str,
    argument: &'static str,
) -> Result<(), Fault<'a>> {
    if is_one_file(rt, STANDARD_OUTPUT, read) {
        return Err(Fault::SameFile(argument));
    }
    Ok(())
}

/// Whether both names lead to one file. What isn't a file can be read and written at a time.
fn is_one_file(rt: &HostRuntime, left: &str, right: &str) -> bool {
    match (fs::metadata(rt, left), fs::metadata(rt, right)) {
        (Ok(left), Ok(right)) => {
            left.is_file() && left.dev() == right.dev() && left.ino() == right.ino()
        }
        _ => false,
    }
}
