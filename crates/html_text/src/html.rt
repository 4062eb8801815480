//! Texts in HTML.

ghost use Rattle.std.specs.Prelude.{◌≡◌, ◌++◌, OnOk};
ghost use Rattle.html_text.specs.Html as spec;

use std::alloc::AllocError;

/// Appends a text to a page, so that no byte of it opens a tag, ends an attribute or begins a reference of its own.
///
/// # Errors
///
/// `AllocError` where there is no memory: the page may then have a part of the text.
pub fn push_marked(page: &mut Vec<u8>, mut bytes: &[u8]) -> Result<(), AllocError>
    ensures { OnOk result (page.new.items ≡ page.old.items ++ spec.marked_text bytes.entry.now) }
{
    while let [byte, rest @ ..] = bytes {
        push_byte(page, *byte)?;
        bytes = rest;
    }
    Ok(())
}

fn push_byte(page: &mut Vec<u8>, byte: u8) -> Result<(), AllocError>
    ensures { OnOk result (page.new.items ≡ page.old.items ++ spec.html_byte byte) }
{
    match byte {
        b'&' => page.extend_from_slice(b"&amp;"),
        b'<' => page.extend_from_slice(b"&lt;"),
        b'>' => page.extend_from_slice(b"&gt;"),
        b'"' => page.extend_from_slice(b"&quot;"),
        b'\'' => page.extend_from_slice(b"&#39;"),
        _ => page.extend_from_slice(&[byte]),
    }
}
