//! A text that is written word by word.

ghost use Rattle.std.specs.Prelude.{◌≡◌, ◌||◌, ◌++◌, ◌∷◌, true, Some, OnOk};
ghost use Rattle.std.specs.Fmt.{signed_decimal};
ghost use Rattle.std.specs.List.{flat_map};
ghost use Rattle.std.specs.Str.{chars};
ghost use Rattle.rls_value.specs.Names.{is_word};
ghost use Rattle.rls_printing.specs.OutputTokens as p;
ghost use Rattle.rls_printing.specs.Outputs as spec;
ghost use Rattle.rls_printing.specs.Outputs.{blank, put, output_of, text_of};

use std::alloc::{AllocError, Global};
use std::fmt::Write;

/// A sign that parts words.
#[derive(Clone, Copy)]
pub enum Mark {
    Open,
    Close,
    Comma,
    Star,
    Plus,
    Minus,
    Equal,
    NotEqual,
    Less,
    LessOrEqual,
    Greater,
    GreaterOrEqual,
}

/// What is written so far.
#[derive(Drop)]
pub struct OutputBuffer {
    text: String,
    /// No space follows: nothing is written yet, or an open parenthesis is the last word.
    tight: bool,
}

impl OutputBuffer {
    pub fn new(alloc: Global) -> OutputBuffer
        ensures { output_of result ≡ blank }
    {
        OutputBuffer {
            text: String::new(alloc),
            tight: true,
        }
    }

    /// A keyword or a name.
    pub fn word(&mut self, word: &str) -> Result<(), AllocError>
        requires { is_word word.now ≡ true }
        ensures { OnOk result (put (Some (output_of self.old)) (p.Word word.now) ≡ Some (output_of self.new)) }
    {
        space(&mut self.text, self.tight)?;
        write(&mut self.text, word)?;
        self.tight = false;
        Ok(())
    }

    /// A name behind what qualifies it.
    pub fn qualified(&mut self, qualifier: &str, name: &str) -> Result<(), AllocError>
        requires qualifies { is_word qualifier.now ≡ true }
        requires named { is_word name.now ≡ true }
        ensures { OnOk result (put (Some (output_of self.old)) (p.Qualified qualifier.now name.now) ≡ Some (output_of self.new)) }
    {
        space(&mut self.text, self.tight)?;
        write_qualified(&mut self.text, qualifier, name)?;
        self.tight = false;
        Ok(())
    }

    /// A number with its sign.
    pub fn number(&mut self, number: i64) -> Result<(), AllocError>
        ensures { OnOk result (put (Some (output_of self.old)) (p.Number number) ≡ Some (output_of self.new)) }
    {
        space(&mut self.text, self.tight)?;
        write_number(&mut self.text, number)?;
        self.tight = false;
        Ok(())
    }

    /// A text, between quotes.
    pub fn quoted(&mut self, text: &str) -> Result<(), AllocError>
        ensures { OnOk result (put (Some (output_of self.old)) (p.Text text.now) ≡ Some (output_of self.new)) }
    {
        space(&mut self.text, self.tight)?;
        write_quoted(&mut self.text, text)?;
        self.tight = false;
        Ok(())
    }

    /// A mark.
    pub fn mark(&mut self, mark: Mark) -> Result<(), AllocError>
        ensures { OnOk result (put (Some (output_of self.old)) (p.Marked mark) ≡ Some (output_of self.new)) }
    {
        let none = is_tight(self.tight, mark);
        space(&mut self.text, none)?;
        write(&mut self.text, mark_text(mark))?;
        self.tight = opens(mark);
        Ok(())
    }

    /// `COUNT(*)`
    pub fn count(&mut self) -> Result<(), AllocError>
        ensures { OnOk result (put (Some (output_of self.old)) p.Count ≡ Some (output_of self.new)) }
    {
        space(&mut self.text, self.tight)?;
        write(&mut self.text, "COUNT(*)")?;
        self.tight = false;
        Ok(())
    }

    /// The text.
    pub fn into_text(self) -> String
        ensures { text_of result ≡ (output_of self).0 }
    {
        let OutputBuffer { text, tight: _ } = self;
        text
    }
}

/// The space before a word, unless there is none.
fn space(text: &mut String, none: bool) -> Result<(), AllocError>
    ensures { OnOk result (text_of text.new ≡ text_of text.old ++ spec.space none) }
{
    if none { Ok(()) } else { write(text, " ") }
}

#[tactic(auto, unfolding(crate::specs::Outputs::text_of))]
fn write(text: &mut String, more: &str) -> Result<(), AllocError>
    ensures { OnOk result (text_of text.new ≡ text_of text.old ++ chars more.now) }
{
    text.push_str(more)
}

fn write_qualified(text: &mut String, qualifier: &str, name: &str) -> Result<(), AllocError>
    ensures { OnOk result (text_of text.new ≡ text_of text.old ++ (chars qualifier.now ++ 46 ∷ chars name.now)) }
{
    write(text, qualifier)?;
    write(text, ".")?;
    write(text, name)
}

#[tactic(auto, unfolding(crate::specs::Outputs::text_of))]
fn write_number(text: &mut String, number: i64) -> Result<(), AllocError>
    ensures { OnOk result (text_of text.new ≡ text_of text.old ++ signed_decimal number) }
{
    write!(text, "{number}")
}

fn write_quoted(text: &mut String, content: &str) -> Result<(), AllocError>
    ensures { OnOk result (text_of text.new ≡ text_of text.old ++ p.quoted (chars content.now)) }
{
    write(text, "'")?;
    write_doubled(text, content)?;
    write(text, "'")
}

/// The content, each quote twice.
fn write_doubled(text: &mut String, content: &str) -> Result<(), AllocError>
    ensures { OnOk result (text_of text.new ≡ text_of text.old ++ flat_map p.doubled (chars content.now)) }
{
    for letter in content.chars() {
        write_letter(text, letter)?;
    }
    Ok(())
}

#[tactic(auto, unfolding(crate::specs::Outputs::text_of))]
fn write_letter(text: &mut String, letter: char) -> Result<(), AllocError>
    ensures { OnOk result (text_of text.new ≡ text_of text.old ++ p.doubled letter) }
{
    if letter == '\'' {
        write(text, "''")
    } else {
        text.push(letter)
    }
}

/// Whether no space stands before the mark.
fn is_tight(tight: bool, mark: Mark) -> bool
    ensures { result ≡ (tight || spec.closes (p.Marked mark)) }
{
    tight || closes(mark)
}

/// An open parenthesis: no space behind it.
fn opens(mark: Mark) -> bool
    ensures { result ≡ spec.opens (p.Marked mark) }
{
    matches!(mark, Mark::Open)
}

/// A closed parenthesis or a comma: no space before it.
fn closes(mark: Mark) -> bool
    ensures { result ≡ spec.closes (p.Marked mark) }
{
    matches!(mark, Mark::Close | Mark::Comma)
}

fn mark_text(mark: Mark) -> &'static str
    ensures { result.now ≡ p.mark_text mark }
{
    match mark {
        Mark::Open => "(",
        Mark::Close => ")",
        Mark::Comma => ",",
        Mark::Star => "*",
        Mark::Plus => "+",
        Mark::Minus => "-",
        Mark::Equal => "=",
        Mark::NotEqual => "<>",
        Mark::Less => "<",
        Mark::LessOrEqual => "<=",
        Mark::Greater => ">",
        Mark::GreaterOrEqual => ">=",
    }
}
