//! A map in order, and a list in the order of its items' keys, whose copies share their nodes.
#![tactic(auto)]

mod branch;
mod items;
mod iter;
mod list;
mod map;
mod page;
mod part;
mod tree;
mod values;

pub use iter::Iter;
pub use list::SharedList;
pub use map::SharedMap;
pub use shared::{HasKey, Share, Shared};
pub use values::Values;
