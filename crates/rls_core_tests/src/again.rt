//! Lines that are read and written again.

use rls_audit::{Format, Line, read_line, write_line};
use rls_value::Refusal;
use std::alloc::Global;

/// Whether the text is read, and written in the second format as the other.
pub fn is_read_as<F: Format>(alloc: Global, text: &str, wanted: &str) -> bool {
    match read_line::<F>(alloc, 3, text) {
        Ok(line) => is_written(alloc, line, wanted),
        Err(refusal) => {
            drop(refusal);
            false
        }
    }
}

/// Whether the line is written so.
pub fn is_written(alloc: Global, line: Line, wanted: &str) -> bool {
    let written = write_line(alloc, &line);
    drop(line);
    match written {
        Ok(text) => text.as_str() == wanted,
        Err(_) => false,
    }
}

/// Whether the text is a bad line, by its number.
pub fn is_bad<F: Format>(alloc: Global, text: &str) -> bool {
    match read_line::<F>(alloc, 3, text) {
        Ok(line) => {
            drop(line);
            false
        }
        Err(Refusal::BadAudit(number)) => number == 3,
        Err(refusal) => {
            drop(refusal);
            false
        }
    }
}
