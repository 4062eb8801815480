//! A file to be written that takes its place once all of it is there.

ghost use Rattle.std.specs.Prelude.{◌≡◌, [], IfOk, OnOk};
ghost use Rattle.std.specs.Io.Buffered.{writer_buffer};

use crate::device::DeviceOut;
use crate::fault::Fault;
use std::fs::{File, Metadata, OpenOptions};
use std::io::ErrorKind;
use std::os::unix::fs::{MetadataExt, OpenOptionsExt};
use std::{fs, io};

/// How many names are tried for what is being written.
const TRIES: u32 = 100;

/// A file to be written. Where a file has its name, or none, it is written beside it, under a name that no file has, and takes its
/// place once all of it is there; until then what stood there stands. What isn't a file, as a pipe, is written as it stands.
#[derive(Drop)]
pub struct OutFile<'a> {
    name: &'a str,
    pub output: DeviceOut<File>,
    draft: Option<Draft>,
}

/// The name under which a file is written, and the place that it takes.
#[derive(Drop)]
struct Draft {
    under: String,
    place: String,
}

impl<'a> OutFile<'a> {
    pub fn open(rt: &HostRuntime, name: &'a str) -> Result<OutFile<'a>, Fault<'a>>
        ensures { IfOk result (λ file. file.output.taken.bytes ≡ []) }
    {
        let (file, draft) = match open_file(rt, name) {
            Ok(opened) => opened,
            Err(error) => return Err(Fault::of_create(name, error)),
        };
        match DeviceOut::new(rt.alloc(), file) {
            Ok(output) => Ok(OutFile {
                name,
                output,
                draft,
            }),
            Err(error) => {
                remove(rt, draft);
                Err(Fault::from(error))
            }
        }
    }

    /// Gives on all that was written, and puts it in its place.
    pub fn put(self, rt: &HostRuntime) -> Result<DeviceOut<File>, Fault<'a>>
        ensures taken { IfOk result (λ output. output.taken.bytes ≡ self.entry.output.taken.bytes) }
        ensures emptied { IfOk result (λ output. writer_buffer output.writer ≡ []) }
    {
        let OutFile {
            name,
            mut output,
            draft,
        } = self;
        match finish(rt, name, &mut output, &draft) {
            Ok(()) => Ok(output),
            Err(fault) => {
                remove(rt, draft);
                Err(fault)
            }
        }
    }

    /// Leaves what stands in its place.
    pub fn discard(self, rt: &HostRuntime) {
        let OutFile {
            name: _,
            output,
            draft,
        } = self;
        drop(output);
        remove(rt, draft);
    }
}

fn remove(rt: &HostRuntime, draft: Option<Draft>) {
    if let Some(draft) = draft {
        let _ = fs::remove_file(rt, draft.under.as_str());
    }
}

// The system has to have stored it before the other file is gone.
fn finish<'a>(
    rt: &HostRuntime,
    name: &'a str,
    output: &mut DeviceOut<File>,
    draft: &Option<Draft>,
) -> Result<(), Fault<'a>>
    ensures taken { output.new.taken.bytes ≡ output.old.taken.bytes }
    ensures emptied { OnOk result (writer_buffer output.new.writer ≡ []) }
{
    if let Err(error) = output.finish() {
        return Err(Fault::of_create(name, error));
    }
    match draft {
        None => Ok(()),
        Some(draft) => {
            if let Err(error) = output.store() {
                return Err(Fault::of_create(name, error));
            }
            match fs::rename(rt, draft.under.as_str(), draft.place.as_str()) {
                Ok(()) => Ok(()),
                Err(error) => Err(Fault::of_create(name, error)),
            }
        }
    }
}

fn open_file(rt: &HostRuntime, name: &str) -> io::Result<(File, Option<Draft>)> {
    match OpenOptions::new().write(true).open(rt, name) {
        Ok(file) => open_instead(rt, name, file),
        Err(error) if error.kind() == ErrorKind::NotFound => open_new(rt, name),
        Err(error) => Err(error),
    }
}

/// Opens what is written instead of what stands under the name.
fn open_instead(rt: &HostRuntime, name: &str, file: File) -> io::Result<(File, Option<Draft>)> {
    let there = file.metadata()?;
    if !there.is_file() {
        return Ok((file, None));
    }
    match place_of(rt, name, &there)? {
        Some(place) => open_beside(rt, place, Some(there)),
        None => {
            file.set_len(0)?;
            Ok((file, None))
        }
    }
}

/// The same where no file has the name. A link that leads to none leads to where its file is made.
fn open_new(rt: &HostRuntime, name: &str) -> io::Result<(File, Option<Draft>)> {
    match fs::symlink_metadata(rt, name) {
        Ok(_) => Ok((File::create(rt, name)?, None)),
        Err(_) => open_beside(rt, name.to_string(rt.alloc())?, None),
    }
}

/// Where the file that the name leads to stands, or none where it has no name of its own any more.
fn place_of(rt: &HostRuntime, name: &str, there: &Metadata) -> io::Result<Option<String>> {
    let place = match fs::canonicalize(rt, name) {
        Ok(place) => place.into_string(),
        Err(error) if error.kind() == ErrorKind::OutOfMemory => return Err(error),
        Err(_) => return Ok(None),
    };
    match fs::metadata(rt, place.as_str()) {
        Ok(it) if it.dev() == there.dev() && it.ino() == there.ino() => Ok(Some(place)),
        _ => Ok(None),
    }
}

fn open_beside(
    rt: &HostRuntime,
    place: String,
    there: Option<Metadata>,
) -> io::Result<(File, Option<Draft>)> {
    for number in 0..TRIES {
        let under = format!(in rt.alloc(); "{place}.new{number}")?;
        match create_like(rt, under.as_str(), &there) {
            Ok(file) => return Ok((file, Some(Draft { under, place }))),
            Err(error) if error.kind() == ErrorKind::AlreadyExists => {}
            Err(error) => return Err(error),
        }
    }
    Err(io::Error::from(ErrorKind::AlreadyExists))
}

/// Makes a file of a name that no file has. It has the rights of the one that is there.
fn create_like(rt: &HostRuntime, name: &str, there: &Option<Metadata>) -> io::Result<File> {
    let Some(there) = there else {
        return File::create_new(rt, name);
    };
    let file = OpenOptions::new()
        .write(true)
        .create_new(true)
        .mode(0o600)
        .open(rt, name)?;
    // Where the system doesn't take them it stays its owner's alone.
    let _ = file.set_permissions(there.permissions());
    Ok(file)
}
