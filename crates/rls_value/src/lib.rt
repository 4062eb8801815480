//! Values, truth, names, row numbers, objects, and the refusals with their texts.
#![tactic(auto)]

mod dropping;
mod items;
mod name;
mod object;
mod reference;
mod refusal;
mod row;
mod tag;
mod text;
mod truth;
mod value;
mod verb;

pub use items::Items;
pub use name::{MAX_NAME, Name, is_reserved};
pub use object::{Object, cmp_objects};
pub use reference::Reference;
pub use refusal::{Cause, DefinedKind, GrantFault, Limit, NameKind, Refusal, TxnState, Why};
pub use row::{Row, RowId, cmp_rows};
pub use shared;
pub use tag::Tag;
pub use text::Text;
pub use truth::Truth;
pub use value::{ColType, Value, cmp_values, fits};
pub use verb::{Kind, PolicyKind, Privilege};
