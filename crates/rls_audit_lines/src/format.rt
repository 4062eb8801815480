//! The formats of audits: the second is written, both are read.

ghost use Rattle.std.specs.Prelude.{◌≡◌, Bool};

use std::marker::PhantomData;

/// A format.
pub trait Format {
    /// Whether it is the second, in which a grant says of which columns it is.
    ghost second: { Bool };

    fn is_second() -> bool
        ensures { result ≡ second };
}

/// The marker of what is coded in a format.
pub struct Audit<F> {
    format: PhantomData<F>,
}

/// That of audits written before there were privileges on columns.
pub struct First;

/// The one that is written.
pub struct Second;

impl Format for First {
    ghost use Rattle.std.specs.Prelude.{false};

    ghost second = { false };

    fn is_second() -> bool {
        false
    }
}

impl Format for Second {
    ghost use Rattle.std.specs.Prelude.{true};

    ghost second = { true };

    fn is_second() -> bool {
        true
    }
}
