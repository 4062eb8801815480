//! A text that its copies share, seen as its bytes in UTF-8.

ghost use Rattle.std.specs.Prelude.{◌≡◌, ℕ, List, IfOk};
ghost use Rattle.std.specs.String.{string_bytes};
ghost use Rattle.std.specs.Str.{bytes_eq};
ghost use Rattle.std.specs.Cmp.Lexicographic.{slice_cmp};
ghost use Rattle.std.specs.Ordering.{nat_cmp};

use std::alloc::{AllocError, Global};
use std::cmp::Ordering;
use std::marker::Model;
use std::sync::ArcStr;

/// A text value; texts are compared by their bytes.
#[derive(Drop)]
pub struct Text {
    // Shared by the copies, so that a copy takes no memory.
    content: ArcStr,
}

impl Model for Text {
    ghost use Rattle.std.specs.Prelude.{List, ℕ};
    ghost use Rattle.std.specs.Arc.{arc_str_bytes};

    ghost Value = { List ℕ };

    ghost view = { λ text. arc_str_bytes text.content };
}

impl Text {
    pub fn new(alloc: Global, content: &str) -> Result<Text, AllocError>
        ensures { IfOk result (λ text. text ≡ content.now) }
    {
        Ok(Text {
            content: ArcStr::from_str(alloc, content)?,
        })
    }

    /// Takes the string's bytes.
    pub fn from_string(content: String) -> Result<Text, AllocError>
        ensures { IfOk result (λ text. text ≡ string_bytes content) }
    {
        Ok(Text {
            content: ArcStr::from_string(content)?,
        })
    }

    pub fn as_str(&self) -> &str
        ensures { result.now ≡ self.now }
    {
        self.content.as_str()
    }

    pub fn copy(&self) -> Result<Text, AllocError>
        ensures { IfOk result (λ text. text ≡ self.now) }
    {
        Ok(Text {
            content: self.content.clone()?,
        })
    }

    /// Whether the two have the same bytes.
    pub fn is(&self, other: &Text) -> bool
        ensures { result ≡ bytes_eq self.now other.now }
    {
        self.content.as_str() == other.content.as_str()
    }

    /// The order of the bytes.
    pub fn compare(&self, other: &Text) -> Ordering
        ensures { result ≡ slice_cmp nat_cmp self.now other.now }
    {
        self.content.as_str().cmp(other.content.as_str())
    }
}
