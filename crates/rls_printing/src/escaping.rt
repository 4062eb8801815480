//! Lines of which no byte moves a terminal's cursor or ends the line.

ghost use Rattle.std.specs.Prelude.{◌≡◌, ◌<◌, ◌++◌, ◌||◌, nat_eq, nat_lt, OnOk};
ghost use Rattle.rls_printing.specs.Escaped as spec;

use std::alloc::AllocError;

/// Appends the line to `text`, and its end (`\n`): a byte that ends a line or moves a terminal's cursor stands as `\n`, `\r`,
/// `\t` or `\x1B`, and a backslash as two, so that the line is one line and can be read back. All other bytes stay as they are.
///
/// # Errors
///
/// `AllocError` where there is no memory: `text` may then hold a part of the line.
pub fn push_escaped_line(text: &mut Vec<u8>, line: &str) -> Result<(), AllocError>
    ensures { OnOk result (text.new.items ≡ text.old.items ++ spec.escaped_line line.now) }
{
    push_escaped(text, line.as_bytes())?;
    text.extend_from_slice(b"\n")
}

fn push_escaped(text: &mut Vec<u8>, mut bytes: &[u8]) -> Result<(), AllocError>
    ensures { OnOk result (text.new.items ≡ text.old.items ++ spec.escaped_text bytes.entry.now) }
{
    while let [byte, rest @ ..] = bytes {
        push_byte(text, *byte)?;
        bytes = rest;
    }
    Ok(())
}

/// A byte as a line has it.
fn push_byte(text: &mut Vec<u8>, byte: u8) -> Result<(), AllocError>
    ensures { OnOk result (text.new.items ≡ text.old.items ++ spec.escaped_byte byte) }
{
    match byte {
        b'\\' => text.extend_from_slice(b"\\\\"),
        b'\n' => text.extend_from_slice(b"\\n"),
        b'\r' => text.extend_from_slice(b"\\r"),
        b'\t' => text.extend_from_slice(b"\\t"),
        _ if is_control(byte) => {
            text.extend_from_slice(&[b'\\', b'x', hex_digit(byte / 16), hex_digit(byte % 16)])
        }
        _ => text.extend_from_slice(&[byte]),
    }
}

fn is_control(byte: u8) -> bool
    ensures { result ≡ (nat_lt byte 32 || nat_eq byte 127) }
{
    byte < 32 || byte == 127
}

fn hex_digit(digit: u8) -> u8
    requires { digit < 16 }
    ensures { result ≡ spec.hex_digit digit }
{
    if digit < 10 { 48 + digit } else { 55 + digit }
}
