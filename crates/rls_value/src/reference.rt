//! A reference, which contracts see as the value that it is of.

ghost use Rattle.std.specs.Prelude.{◌≡◌};

use std::marker::Model;

/// A value that stands elsewhere for the lifetime, seen as that value.
#[derive(Drop)]
pub struct Reference<'c, T> {
    place: &'c T,
}

impl<'c, T> Model for Reference<'c, T> {
    ghost Value = { T };

    ghost coded = { T.code };

    ghost view = { λ it. it.place.now };
}

impl<'c, T> Reference<'c, T> {
    pub fn new(place: &'c T) -> Reference<'c, T>
        ensures { result ≡ place.now }
    {
        Reference { place }
    }

    pub fn get(&self) -> &'c T
        ensures { result.now ≡ self.now }
    {
        self.place
    }
}
