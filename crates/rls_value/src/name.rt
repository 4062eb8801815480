//! Names of roles, tables, columns and policies.

ghost use Rattle.std.specs.Prelude.{◌≡◌, ◌<◌, ◌↔◌, true, false, map, length, ◌≤◌, nat_le, IfOk, IfErr, IsErrOf};
ghost use Rattle.std.specs.{Str.bytes_eq, List.list_all, Cmp.Lexicographic.slice_cmp, Ordering.nat_cmp, Ordering.as_partial_cmp};
ghost use Rattle.rls_value.specs.NameHeads.{head_of, weight};
ghost use Rattle.rls_value.specs.Names as spec;
ghost use Rattle.rls_value.specs.Names.{folded, spells_name, is_name_text, one_of, reserved, IsName};

use crate::refusal::{Limit, Refusal};
use shared::Shared;
use std::alloc::{AllocError, Global};
use std::cmp::Ordering;
use std::fmt;
use std::hash::{Hash, Hasher};
use std::marker::Model;
use std::sync::ArcStr;

/// The most bytes that a name has.
pub const MAX_NAME: usize = 63;

// How many of its bytes a name's head has.
const HEAD: usize = 8;

/// A name, in lower case, seen as its bytes (PostgreSQL manual, 4.1.1, without quoted names).
#[derive(Drop)]
pub struct Name {
    // Its first eight bytes as a number, the first counting most: by it most names are told apart.
    head: u64,
    // Shared by the copies, so that a copy takes no memory.
    letters: ArcStr,
}

impl Model for Name {
    ghost use Rattle.std.specs.Prelude.{◌≡◌, List, ℕ};
    ghost use Rattle.std.specs.Arc.{arc_str_bytes};
    ghost use Rattle.rls_value.specs.Names.{IsName};

    ghost Value = { List ℕ };

    ghost view = { λ name. arc_str_bytes name.letters };

    ghost use Rattle.rls_value.specs.NameHeads.{head_of};

    ghost invariant = { λ name. IsName (arc_str_bytes name.letters) × (name.head ≡ head_of 8 (arc_str_bytes name.letters)) };
}

impl Name {
    ghost use Rattle.rls_value.specs.NameRefusals.{RefusesName};

    /// The name that the text spells, folded to lower case. `Limit` where it is over `MAX_NAME` bytes,
    /// whatever they are; `Syntax` where it is no name, as a reserved word.
    pub fn new(alloc: Global, text: &str) -> Result<Name, Refusal>
        ensures name { IfOk result (λ name. name ≡ folded text.now) }
        ensures spelled { IfOk result (λ _. spells_name text.now ≡ true) }
        ensures too_long { IsErrOf result (Refusal.Limit Limit.Name) ↔ (MAX_NAME < length text.now) }
        ensures syntax { IsErrOf result Refusal.Syntax → spells_name text.now ≡ false }
        ensures refused { IfErr result RefusesName }
    {
        if text.len() > MAX_NAME {
            return Err(Refusal::Limit(Limit::Name));
        }
        if !is_name_text_of(text.as_bytes()) {
            return Err(Refusal::Syntax);
        }
        let letters = text.to_ascii_lowercase(alloc)?;
        if is_reserved(letters.as_bytes()) {
            return Err(Refusal::Syntax);
        }
        let head = head_of(8, letters.as_bytes());
        Ok(Name {
            head,
            letters: ArcStr::from_string(letters)?,
        })
    }

    /// `postgres`, the role of the opening state.
    pub fn postgres(alloc: Global) -> Result<Name, AllocError>
        ensures { IfOk result (λ name. name ≡ Rattle.rls_value.specs.Names.postgres) }
    {
        Ok(Name {
            head: head_of(8, b"postgres"),
            letters: ArcStr::from_str(alloc, "postgres")?,
        })
    }

    /// Its letters: a name in lower case, and no reserved word.
    pub fn as_str(&self) -> &str
        ensures text { result.now ≡ self.now }
        ensures name { IsName result.now }
    {
        self.letters.as_str()
    }

    pub fn copy(&self) -> Result<Name, AllocError>
        ensures { IfOk result (λ name. name ≡ self.now) }
    {
        Ok(Name {
            head: self.head,
            letters: self.letters.clone()?,
        })
    }

    /// Whether the two are the same name.
    pub fn is(&self, other: &Name) -> bool
        ensures { result ≡ bytes_eq self.now other.now }
    {
        if self.head != other.head {
            return false;
        }
        if self.is_short() && other.is_short() {
            return true;
        }
        self.letters.as_str() == other.letters.as_str()
    }

    /// Whether its head has all its letters: short names with the same head are the same.
    fn is_short(&self) -> bool
        ensures { result ≡ nat_le (length self.now) HEAD }
    {
        self.letters.as_str().len() <= HEAD
    }
}

impl Clone for Name {
    ghost use Rattle.std.specs.Prelude.{◌≡◌};

    ghost is_clone = { λ x y. y ≡ x };

    fn clone(&self) -> Result<Name, AllocError> {
        self.copy()
    }
}

impl Shared for Name {
    ghost same = { λ x y h. h };
}

impl fmt::Display for Name {
    ghost use Rattle.std.specs.Prelude.{Some};

    ghost output = { λ name. Some name };

    fn fmt<W: fmt::Write>(&self, f: &mut fmt::Formatter<W>) -> fmt::Result {
        f.write_str(self.letters.as_str())
    }
}

/// Names are ordered by their bytes.
impl Ord for Name {
    ghost use Rattle.std.specs.Cmp.Lexicographic.{slice_cmp};
    ghost use Rattle.std.specs.Ordering.{nat_cmp};
    ghost use Rattle.std.proofs.Common.{rules};
    ghost use Rattle.std.specs.Cmp.Rules.{comparing};

    ghost cmp = { slice_cmp nat_cmp };

    ghost total = { Prim.search (comparing, rules) };

    ghost matches_partial_cmp = { Prim.search (comparing, rules) };

    ghost matches_eq = { Prim.search (comparing, rules) };

    fn cmp(&self, other: &Name) -> Ordering {
        match self.head.cmp(&other.head) {
            Ordering::Equal => {
                // Most names with the same head are the same, which is told sooner than their order.
                if self.is(other) {
                    Ordering::Equal
                } else {
                    self.letters.as_str().cmp(other.letters.as_str())
                }
            }
            order => order,
        }
    }
}

impl PartialOrd for Name {
    ghost use Rattle.std.specs.Cmp.Lexicographic.{slice_cmp};
    ghost use Rattle.std.specs.Ordering.{nat_cmp, as_partial_cmp};
    ghost use Rattle.std.proofs.Common.{rules};
    ghost use Rattle.std.specs.Cmp.{partial_order_from_own_ties};
    ghost use Rattle.std.specs.Cmp.Rules.{comparing};

    ghost partial_cmp = { as_partial_cmp (slice_cmp nat_cmp) };

    ghost laws = { partial_order_from_own_ties (Prim.search (comparing, rules)) (Prim.search (comparing, rules)) };

    fn partial_cmp(&self, other: &Name) -> Option<Ordering> {
        Some(self.cmp(other))
    }
}

impl PartialEq for Name {
    ghost use Rattle.std.specs.Prelude.{nat_eq};
    ghost use Rattle.std.specs.Str.{bytes_eq};
    ghost use Rattle.std.proofs.Common.{rules};
    ghost use Rattle.std.specs.Cmp.Rules.{comparing};
    ghost use lib.Pointwise.{pointwise};

    ghost eq = { pointwise nat_eq };

    ghost laws = { Prim.search (comparing, rules) };

    fn eq(&self, other: &Name) -> bool {
        self.is(other)
    }
}

impl Eq for Name {
    ghost use Rattle.std.proofs.Common.{rules};
    ghost use Rattle.std.specs.Cmp.Rules.{comparing};

    ghost laws = { Prim.search (comparing, rules) };
}

/// A name is hashed as its letters.
impl Hash for Name {
    ghost use Rattle.std.specs.Hash as fed;
    ghost use Rattle.std.specs.Cmp.Rules.{hashing};
    ghost use Rattle.std.proofs.Common.{rules};

    ghost hash_input = { λ name. fed.str name };

    ghost respects_eq = { Prim.search (hashing, rules) };

    fn hash<H: Hasher>(&self, state: &mut H) {
        self.letters.as_str().hash(state);
    }
}

/// The first so many bytes as a number, the first counting most; 0 stands for each that isn't there.
fn head_of(count: u32, bytes: &[u8]) -> u64
    requires { count ≤ 8 }
    ensures value { result ≡ head_of count bytes.now }
    ensures below { result < weight count }
{
    if count == 0 {
        return 0;
    }
    match bytes {
        [first, rest @ ..] => u64::from(*first) * weight(count - 1) + head_of(count - 1, rest),
        [] => 0,
    }
}

/// 256 as often multiplied by itself.
fn weight(count: u32) -> u64
    requires { count < 8 }
    ensures { result ≡ weight count }
{
    match count {
        0 => 1,
        1 => 0x100,
        2 => 0x1_0000,
        3 => 0x100_0000,
        4 => 0x1_0000_0000,
        5 => 0x100_0000_0000,
        6 => 0x1_0000_0000_0000,
        _ => 0x100_0000_0000_0000,
    }
}

fn is_name_text_of(bytes: &[u8]) -> bool
    ensures { result ≡ is_name_text bytes.now }
{
    match bytes {
        [first, ..] => is_letter(*first) && are_letters_or_digits(bytes),
        [] => false,
    }
}

fn are_letters_or_digits(bytes: &[u8]) -> bool
    ensures { result ≡ list_all spec.is_letter_or_digit bytes.now }
{
    bytes.iter().all(|byte| is_letter_or_digit(*byte))
}

fn is_letter(byte: u8) -> bool
    ensures { result ≡ spec.is_letter byte }
{
    match byte {
        b'A'..=b'Z' | b'_' | b'a'..=b'z' => true,
        _ => false,
    }
}

fn is_letter_or_digit(byte: u8) -> bool
    ensures { result ≡ spec.is_letter_or_digit byte }
{
    match byte {
        b'0'..=b'9' => true,
        _ => is_letter(byte),
    }
}

/// Whether the word, in lower case, is reserved, so that it is no name. Its first letter leaves few words that it may be.
#[tactic(auto, unfolding(crate::specs::Names::reserved))]
pub fn is_reserved(word: &[u8]) -> bool
    ensures { result ≡ reserved word.now }
{
    match word {
        [b'a', ..] => is_one_of(&[b"all", b"and", b"as"], word),
        [b'c', ..] => is_one_of(&[b"check", b"create", b"current_user"], word),
        [b'd', ..] => is_one_of(&[b"default"], word),
        [b'e', ..] => is_one_of(&[b"exists"], word),
        [b'f', ..] => is_one_of(&[b"false", b"for", b"from"], word),
        [b'g', ..] => is_one_of(&[b"grant", b"group"], word),
        [b'i', ..] => is_one_of(&[b"in", b"into", b"is"], word),
        [b'n', ..] => is_one_of(&[b"none", b"not", b"null"], word),
        [b'o', ..] => is_one_of(&[b"on", b"or", b"order"], word),
        [b'p', ..] => is_one_of(&[b"primary", b"public"], word),
        [b'r', ..] => is_one_of(&[b"returning"], word),
        [b's', ..] => is_one_of(&[b"select", b"session_user"], word),
        [b't', ..] => is_one_of(&[b"table", b"to", b"true"], word),
        [b'u', ..] => is_one_of(&[b"unique", b"user", b"using"], word),
        [b'w', ..] => is_one_of(&[b"where", b"with"], word),
        _ => false,
    }
}

fn is_one_of(mut words: &[&[u8]], word: &[u8]) -> bool
    ensures { result ≡ one_of (map (λ w. w.now) words.entry.now) word.now }
{
    while let [first, rest @ ..] = words {
        if is_same_word(*first, word) {
            return true;
        }
        words = rest;
    }
    false
}

/// Whether the words are the same. Most aren't, which their lengths tell.
fn is_same_word(word: &[u8], other: &[u8]) -> bool
    ensures { result ≡ bytes_eq word.now other.now }
{
    word.len() == other.len() && word == other
}
