//! The catalogue and the rows: roles, memberships, tables, grants, policies; what changes them; whole states.
#![tactic(auto)]

mod borrowed;
mod catalog;
mod change;
mod grant;
mod grants;
mod index_key;
mod lists;
mod policies;
mod putting;
mod role;
mod same;
mod stored;
mod table_index;
mod table_rows;
mod verdict;

pub use borrowed::BorrowedRow;
pub use catalog::Catalog;
pub use change::{Change, Delta, RowChange};
pub use grant::{Grant, GrantKey};
pub use grants::Grants;
pub use lists::{Memberships, Policies};
pub use policies::{find_policy, with_policy, with_replaced, without_policy};
pub use rls_expr;
pub use rls_expr::rls_value;
pub use role::{Membership, RoleDef};
pub use same::is_same_row;
pub use shared_map;
pub use stored::{Keyed, Stored};
pub use verdict::{Side, Verdict};
