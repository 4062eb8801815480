//! Writes an audit again in the second format.

ghost use Rattle.std.specs.Prelude.{◌≡◌, ◌⊎◌, ◌+◌, ◌++◌, ◌∷◌, [], ℕ, List, length, string_bytes, IfOk, IfErr};
ghost use Rattle.rls_value.specs.declared.refusal.Refusal.TheVariants as r;
ghost use Rattle.rls_check.specs.Forms.{IsNext, IsBehind, IsUnread, IsTakenAmong, IsEnded, IsWritten};
ghost use Rattle.rls_check.specs.Wholes.{AreConverted, AreNoAudit, BeginNoAudit, HasConverted};

use crate::form::Form;
use rls_audit::write_line;
use rls_value::Refusal;
use std::alloc::Global;

/// Converts an audit line by line.
#[derive(Drop)]
pub struct Converter {
    form: Form,
}

impl Converter {
    #[tactic(auto, using(crate::proofs::WholeLemmas::nothing_converted))]
    pub fn new(alloc: Global) -> Converter
        ensures unread { IsUnread result.form }
        ensures whole { HasConverted [] [] result }
    {
        Converter {
            form: Form::new(alloc),
        }
    }

    /// The next line in the second format, both without their ends, and what goes on behind it; the line is bad where it is to a
    /// `Reader`.
    pub fn line(self, alloc: Global, text: &[u8]) -> Result<(Converter, String), Refusal>
        ensures taken { IsTakenAmong (self.form.lines + 1) (IsNext self.form text.now) (λ it second after. IsBehind self.form it second after.0.form × IsWritten it (string_bytes after.1)) result }
        ensures whole { (texts written : List (List ℕ)) → HasConverted texts written self → IfOk result (λ after. HasConverted (texts ++ text.now ∷ []) (written ++ string_bytes after.1 ∷ []) after.0) }
        ensures refused { (texts written : List (List ℕ)) → HasConverted texts written self → IfErr result (λ refusal. (refusal ≡ r.NoMemory) ⊎ ((refusal ≡ r.BadAudit (length texts + 1)) × BeginNoAudit (texts ++ text.now ∷ []))) }
    {
        let mut converter = self;
        match converter.take(alloc, text) {
            Ok(written) => Ok((converter, written)),
            Err(refusal) => {
                drop(converter);
                Err(refusal)
            }
        }
    }

    /// The same in place.
    #[tactic(auto, using(crate::proofs::FormLemmas::taken_more))]
    fn take(&mut self, alloc: Global, text: &[u8]) -> Result<String, Refusal>
        ensures { IsTakenAmong (self.old.form.lines + 1) (IsNext self.old.form text.now) (λ it second written. IsBehind self.old.form it second self.new.form × IsWritten it (string_bytes written)) result }
    {
        let (line, _) = self.form.next(alloc, text)?;
        let written = write_line(alloc, &line);
        drop(line);
        Ok(written?)
    }

    /// Whether the last line was read; else the line behind the last one is missing.
    #[tactic(auto, using(crate::proofs::WholeLemmas::whole_converted, crate::proofs::WholeLemmas::refused_conversion_end))]
    pub fn finish(self) -> Result<(), Refusal>
        ensures ended { IsEnded self.form (λ _. Unit {0}) result }
        ensures whole { (texts written : List (List ℕ)) → HasConverted texts written self → IfOk result (λ _. AreConverted texts written) }
        ensures refused { (texts written : List (List ℕ)) → HasConverted texts written self → IfErr result (λ refusal. (refusal ≡ r.NoMemory) ⊎ ((refusal ≡ r.BadAudit (length texts + 1)) × AreNoAudit texts)) }
    {
        self.form.finish()
    }
}
