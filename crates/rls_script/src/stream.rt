//! What a script is read from, and what its answers are written to.

ghost use Rattle.std.specs.Prelude.{◌≡◌, ◌⊎◌, ℕ, Bool, true, List, ◌+◌, ◌++◌, ◌<◌, ◌≤◌, length, take, None, Ok, IsNone, IfOk, OnOk, OnErr};
ghost use Rattle.std.specs.Option.{option_to_list};

/// A call of a reader or of a writer that failed.
#[derive(Clone, Copy, Debug, PartialEq, Eq)]
pub struct Failed;

/// A script's bytes, one by one.
pub trait ScriptIn {
    /// How many calls have failed.
    ghost failures: { Self → ℕ };

    /// The bytes that were given, in order.
    ghost given: { Self → List ℕ };

    /// Whether the end was reached.
    ghost ended: { Self → Bool };

    /// The next byte, or none at the end.
    fn next_byte(&mut self) -> Result<Option<u8>, Failed>
        ensures byte { IfOk result (λ byte. given self.new ≡ given self.old ++ option_to_list byte) }
        ensures end { IfOk result (λ byte. IsNone byte → ended self.new ≡ true) }

        // It says that it has ended only at its end.
        ensures before_end { ended self.new ≡ true → (ended self.old ≡ true) ⊎ (result ≡ Ok None) }
        ensures ok { OnOk result (failures self.new ≡ failures self.old) }
        ensures err { OnErr result (failures self.new ≡ failures self.old + 1) }
        ensures none_given { OnErr result (given self.new ≡ given self.old) };
}

/// A place for bytes.
pub trait ScriptOut {
    /// How many calls have failed.
    ghost failures: { Self → ℕ };

    /// The bytes that were taken, in order, by calls that didn't fail.
    ghost taken: { Self → List ℕ };

    /// Takes some of the bytes from the front, at least one, and says how many.
    fn write_some(&mut self, bytes: &[u8]) -> Result<usize, Failed>
        requires { 0 < length bytes.now }
        ensures count { IfOk result (λ count. (0 < count) × (count ≤ length bytes.now)) }
        ensures bytes { IfOk result (λ count. taken self.new ≡ taken self.old ++ take count bytes.now) }
        ensures ok { OnOk result (failures self.new ≡ failures self.old) }
        ensures err { OnErr result (failures self.new ≡ failures self.old + 1) };
}
