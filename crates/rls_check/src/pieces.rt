//! The pieces of a page in HTML.

ghost use Rattle.std.specs.Prelude.{◌≡◌, [], ◌∷◌, ◌++◌, ◌-◌, length, take, IfOk, OnOk};
ghost use Rattle.rls_audit.specs.rls_printing.specs.Escaped.{escaped_text};
ghost use Rattle.rls_check.specs.Pieces.{Data, Number, Tag, page_text};

use html_text::push_marked;
use rls_audit::rls_printing::push_escaped_line;
use rls_value::Name;
use std::alloc::{AllocError, Global};

/// Appends markup of the program's own.
#[tactic(auto, unfolding(crate::specs::Pieces::page_text))]
pub(crate) fn push_tag(page: &mut Vec<u8>, markup: &'static str) -> Result<(), AllocError>
    ensures { OnOk result (page.new.items ≡ page.old.items ++ page_text (Tag markup.now ∷ [])) }
{
    page.extend_from_slice(markup.as_bytes())
}

/// Appends a number.
#[tactic(auto, unfolding(crate::specs::Pieces::page_text))]
pub(crate) fn push_number(alloc: Global, page: &mut Vec<u8>, number: u64) -> Result<(), AllocError>
    ensures { OnOk result (page.new.items ≡ page.old.items ++ page_text (Number number ∷ [])) }
{
    let digits = format!(in alloc; "{number}")?;
    page.extend_from_slice(digits.as_bytes())
}

/// Appends a text that comes from the audit or the command line. No byte of it opens a tag, ends an attribute or begins a reference.
#[tactic(auto, unfolding(crate::specs::Pieces::page_text))]
pub(crate) fn push_data(alloc: Global, page: &mut Vec<u8>, text: &str) -> Result<(), AllocError>
    ensures { OnOk result (page.new.items ≡ page.old.items ++ page_text (Data text.now ∷ [])) }
{
    let escaped = escaped(alloc, text)?;
    let pushed = push_marked(page, escaped.as_slice());
    drop(escaped);
    pushed
}

/// Appends a name.
pub(crate) fn push_name(alloc: Global, page: &mut Vec<u8>, name: &Name) -> Result<(), AllocError>
    ensures { OnOk result (page.new.items ≡ page.old.items ++ page_text (Data name.now ∷ [])) }
{
    push_data(alloc, page, name.as_str())?;
    Ok(())
}

/// The text without a control character.
fn escaped(alloc: Global, text: &str) -> Result<Vec<u8>, AllocError>
    ensures { IfOk result (λ escaped. escaped.items ≡ escaped_text text.now) }
{
    let mut line = Vec::new(alloc);
    push_escaped_line(&mut line, text)?;
    take_end_off(&mut line);
    Ok(line)
}

fn take_end_off(line: &mut Vec<u8>)
    ensures { line.new.items ≡ take (length line.old.items - 1) line.old.items }
{
    let _end = line.pop();
}
