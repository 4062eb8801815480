//! A value that copies share, and that contracts see as the value.

ghost use Rattle.std.specs.Prelude.{◌≡◌, IfOk};

use crate::clones::Shared;
use crate::has_key::HasKey;
use std::alloc::{AllocError, Global};
use std::marker::Model;
use std::sync::Arc;

/// A value that copies share, seen as that value.
#[derive(Drop)]
pub struct Share<T: Drop> {
    place: Arc<T>,
}

impl<T: Drop> Model for Share<T> {
    ghost use Rattle.std.specs.Arc.{arc_value};

    ghost Value = { T };

    ghost coded = { T.code };

    ghost view = { λ it. arc_value it.place };
}

impl<T: Drop> Share<T> {
    pub fn new(alloc: Global, value: T) -> Result<Share<T>, AllocError>
        ensures { IfOk result (λ share. share ≡ value) }
    {
        Ok(Share {
            place: Arc::new(alloc, value)?,
        })
    }

    pub fn get(&self) -> &T
        ensures { result.now ≡ self.now }
    {
        &self.place
    }

    /// The same value, shared.
    pub fn copy(&self) -> Result<Share<T>, AllocError>
        ensures { IfOk result (λ share. share ≡ self.now) }
    {
        Ok(Share {
            place: self.place.clone()?,
        })
    }
}

impl<T: Drop> Clone for Share<T> {
    ghost use Rattle.std.specs.Prelude.{◌≡◌};

    ghost is_clone = { λ x y. y ≡ x };

    fn clone(&self) -> Result<Share<T>, AllocError> {
        self.copy()
    }
}

impl<T: Drop> Shared for Share<T> {
    ghost same = { λ x y h. h };
}

/// It has the key of its value.
impl<K: Ord, T: HasKey<K> + Drop> HasKey<K> for Share<T> {
    ghost key_of = { λ it. T.key_of it };

    ghost exact = { T.exact };

    fn key(&self) -> Result<K, AllocError> {
        self.place.key()
    }
}
