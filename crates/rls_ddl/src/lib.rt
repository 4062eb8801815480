//! Statements that define: CREATE ROLE, ALTER ROLE, CREATE TABLE, ALTER TABLE, CREATE, ALTER and DROP POLICY, GRANT and
//! REVOKE of privileges and of roles; and SET ROLE.
#![tactic(auto)]

mod altering_policies;
mod altering_roles;
mod altering_tables;
mod conditions;
mod creating_policies;
mod creating_roles;
mod creating_tables;
mod dropping_policies;
mod granting;
mod laws;
mod named_policies;
mod policies_written;
mod primary_keys;
mod rows_laws;
mod setting_roles;

pub use altering_policies::run_alter_policy;
pub use altering_roles::run_alter_role;
pub use altering_tables::run_alter_table;
pub use creating_policies::run_create_policy;
pub use creating_roles::run_create_role;
pub use creating_tables::run_create_table;
pub use dropping_policies::run_drop_policy;
pub use granting::{run_grant, run_grant_roles, run_revoke, run_revoke_roles};
pub use laws::{key_takes_no_null, policies_in_order};
pub use rows_laws::{grants_leave_rows, roles_and_policies_leave_rows, tables_leave_rows};
pub use setting_roles::run_set_role;
