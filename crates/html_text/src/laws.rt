//! Laws of texts in HTML, as clauses of functions that do nothing.

ghost use Rattle.std.specs.Prelude.{◌≡◌, [], ℕ, List};
ghost use Rattle.html_text.specs.Html as spec;

/// No byte of a text opens or ends a tag or an attribute, and what stands behind each `&` is one of the five references.
#[tactic(auto, using(crate::proofs::HtmlLemmas::no_marks, crate::proofs::HtmlLemmas::references))]
pub fn texts_open_nothing()
    ensures marks { (text : List ℕ) → spec.marks_of (spec.marked_text text) ≡ [] }
    ensures references { (text : List ℕ) → spec.AreReferences (spec.marked_text text) }
{}

/// A text in HTML is read back.
#[tactic(auto, using(crate::proofs::HtmlLemmas::read_back))]
pub fn texts_are_read_back()
    ensures { (text : List ℕ) → spec.html_read (spec.marked_text text) ≡ text }
{}
