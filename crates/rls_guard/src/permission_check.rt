//! What a role is asked for before a statement looks at rows.

use rls_evaluation::rls_catalog::rls_expr::rls_value::{Items, Name, Privilege};

/// A privilege on a table, for these columns of it, in the table's order. Where there are none, the privilege on some column
/// of the table does.
#[derive(Drop)]
pub struct PermissionCheck {
    pub privilege: Privilege,
    pub table: Name,
    pub columns: Items<Name>,
}
