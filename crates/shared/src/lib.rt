//! Values whose clones are equal to them, values that copies share, and values that have a place by a key.
#![tactic(auto)]

mod clones;
mod has_key;
mod share;

pub use clones::Shared;
pub use has_key::HasKey;
pub use share::Share;
