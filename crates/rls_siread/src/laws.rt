//! Laws of what is noted.

ghost use Rattle.std.specs.Prelude.{ℕ};
ghost use Rattle.rls_siread.specs.Promotion.{noted_with};
ghost use Rattle.rls_siread.specs.Widening.{NotesWiden};

/// Promotion only widens what is noted, whatever the limit: each object that was noted, or is read now, lies in one that is noted
/// then.
pub fn notes_only_widen()
    ensures { (limit : ℕ) → NotesWiden (noted_with limit) }
{}
