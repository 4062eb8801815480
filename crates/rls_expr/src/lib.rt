//! Definitions of tables and policies, expressions, and the typing of expressions.
#![tactic(auto)]

mod column_name;
mod columns;
mod expr;
mod laws;
mod names;
mod parts;
mod policy;
mod resolving;
mod scope;
mod selecting;
mod table;
mod typing;

pub use column_name::ColumnName;
pub use columns::{SelectedTable, all_columns, columns_of, copies, put_if};
pub use expr::{
    Category, Comparison, Expr, FromItem, Node, Selects, Sign, Subquery, Var, boxed, boxed_query,
};
pub use laws::selected_tables_are_named;
pub use names::{NameStep, put_all_names, put_names, put_names_if, put_shared_names, put_step};
pub use parts::{has_query, has_sum, reads_column, reads_target};
pub use policy::{Grantee, Policy, copy_shared, shared_expr};
pub use resolving::{Scope, resolve_columns};
pub use rls_value;
pub use scope::{FromTable, NamedTable, inside, known_table, unqualified, var_of};
pub use selecting::put_selected;
pub use table::{Column, TableDef, category_of};
pub use typing::{Typing, goes_into, is_boolean, is_typed, typing_of};
