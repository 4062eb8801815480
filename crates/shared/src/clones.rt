//! Values whose clones are equal to them.

ghost use Rattle.std.specs.Prelude.{◌≡◌};

/// A value whose clones are equal to it.
pub trait Shared: Clone {
    ghost same: { (x y : Self) → Self.is_clone x y → y ≡ x };
}

impl<K: Shared, V: Shared> Shared for (K, V) {
    ghost use Rattle.std.specs.Prelude.{◌≡◌};
    ghost use Rattle.std.proofs.Common.{ap₂};

    ghost same = { λ x y h. ap₂ (λ k v. (k, v)) (K.same x.0 y.0 h.0) (V.same x.1 y.1 h.1) };
}

impl<V: Shared> Shared for Option<V> {
    ghost use Rattle.std.specs.Prelude.{◌≡◌, Some, None, refl};
    ghost use Rattle.std.proofs.Common.{ap};

    ghost same = { elim [ None ↦ elim [ None ↦ λ h. refl | Some b ↦ λ h. absurd h ] | Some a ↦ elim [ None ↦ λ h. absurd h | Some b ↦ λ h. ap Some (V.same a b h) ] ] };
}

/// So a map of keys with this is a set.
impl Shared for () {
    ghost same = { λ x y h. h };
}

impl Shared for u8 {
    ghost same = { λ x y h. h };
}

impl Shared for u32 {
    ghost same = { λ x y h. h };
}

impl Shared for u64 {
    ghost same = { λ x y h. h };
}

impl Shared for usize {
    ghost same = { λ x y h. h };
}
