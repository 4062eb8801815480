//! Policies, GRANT and REVOKE, printed.

ghost use Rattle.std.specs.Prelude.{◌≡◌, Some, OnOk};
ghost use Rattle.rls_printing.specs.Outputs.{put_all, output_of};
ghost use Rattle.rls_printing.specs.StatementForms as form;
ghost use Rattle.rls_statement.specs.declared.statement.Statement.TheVariants as st;

use crate::buffer::OutputBuffer;
use crate::expression::put_enclosed;
use crate::lists::put_listed;
use crate::privileges::put_privileges;
use crate::words::{
    put_cascade, put_option_for, put_option_only, put_options, put_permissive, put_policy_kind,
    put_with_option,
};
use rls_expr::{Expr, Grantee, Policy};
use rls_statement::{
    AlterPolicy, DropPolicy, GrantPrivileges, GrantRoles, RevokePrivileges, RevokeRoles,
};
use rls_value::shared::Share;
use rls_value::{Items, Name};
use std::alloc::AllocError;

/// A policy of the table, as CREATE POLICY.
pub fn put_policy(
    buffer: &mut OutputBuffer,
    table: &Name,
    policy: &Policy,
) -> Result<(), AllocError>
    ensures { OnOk result (put_all (Some (output_of buffer.old)) (form.policy table.now policy.now) ≡ Some (output_of buffer.new)) }
{
    buffer.word("CREATE")?;
    buffer.word("POLICY")?;
    put_policy_on(buffer, &policy.name, table)?;
    put_description(buffer, policy)
}

fn put_policy_on(buffer: &mut OutputBuffer, policy: &Name, table: &Name) -> Result<(), AllocError>
    ensures { OnOk result (put_all (Some (output_of buffer.old)) (form.policy_on policy.now table.now) ≡ Some (output_of buffer.new)) }
{
    buffer.word(policy.as_str())?;
    buffer.word("ON")?;
    buffer.word(table.as_str())
}

fn put_description(buffer: &mut OutputBuffer, policy: &Policy) -> Result<(), AllocError>
    ensures { OnOk result (put_all (Some (output_of buffer.old)) (form.description policy.now) ≡ Some (output_of buffer.new)) }
{
    buffer.word("AS")?;
    put_permissive(buffer, policy.permissive)?;
    buffer.word("FOR")?;
    put_policy_kind(buffer, policy.kind)?;
    buffer.word("TO")?;
    put_listed(buffer, policy.to.as_slice())?;
    put_using(buffer, &policy.using)?;
    put_check(buffer, &policy.check)?;
    Ok(())
}

fn put_using(buffer: &mut OutputBuffer, using: &Option<Share<Expr>>) -> Result<(), AllocError>
    ensures { OnOk result (put_all (Some (output_of buffer.old)) (form.using_ using.now) ≡ Some (output_of buffer.new)) }
{
    match using {
        None => Ok(()),
        Some(expr) => {
            buffer.word("USING")?;
            put_enclosed(buffer, expr.get())
        }
    }
}

fn put_check(buffer: &mut OutputBuffer, check: &Option<Share<Expr>>) -> Result<(), AllocError>
    ensures { OnOk result (put_all (Some (output_of buffer.old)) (form.check_ check.now) ≡ Some (output_of buffer.new)) }
{
    match check {
        None => Ok(()),
        Some(expr) => {
            buffer.word("WITH")?;
            buffer.word("CHECK")?;
            put_enclosed(buffer, expr.get())
        }
    }
}

fn put_to_if_any(buffer: &mut OutputBuffer, to: &Option<Items<Grantee>>) -> Result<(), AllocError>
    ensures { OnOk result (put_all (Some (output_of buffer.old)) (form.to_if_any to.now) ≡ Some (output_of buffer.new)) }
{
    match to {
        None => Ok(()),
        Some(to) => {
            buffer.word("TO")?;
            put_listed(buffer, to.as_slice())
        }
    }
}

pub fn put_alter_policy(
    buffer: &mut OutputBuffer,
    statement: &AlterPolicy,
) -> Result<(), AllocError>
    ensures { OnOk result (put_all (Some (output_of buffer.old)) (form.statement (st.AlterPolicy statement.now)) ≡ Some (output_of buffer.new)) }
{
    buffer.word("ALTER")?;
    buffer.word("POLICY")?;
    put_policy_on(buffer, &statement.name, &statement.table)?;
    put_to_if_any(buffer, &statement.to)?;
    put_using(buffer, &statement.using)?;
    put_check(buffer, &statement.check)?;
    Ok(())
}

pub fn put_drop_policy(buffer: &mut OutputBuffer, statement: &DropPolicy) -> Result<(), AllocError>
    ensures { OnOk result (put_all (Some (output_of buffer.old)) (form.statement (st.DropPolicy statement.now)) ≡ Some (output_of buffer.new)) }
{
    buffer.word("DROP")?;
    buffer.word("POLICY")?;
    put_policy_on(buffer, &statement.name, &statement.table)
}

pub fn put_grant(buffer: &mut OutputBuffer, statement: &GrantPrivileges) -> Result<(), AllocError>
    ensures { OnOk result (put_all (Some (output_of buffer.old)) (form.statement (st.Grant statement.now)) ≡ Some (output_of buffer.new)) }
{
    buffer.word("GRANT")?;
    put_privileges(buffer, &statement.privileges)?;
    buffer.word("ON")?;
    buffer.word(statement.table.as_str())?;
    buffer.word("TO")?;
    put_listed(buffer, statement.to.as_slice())?;
    put_with_option(buffer, statement.with_option)?;
    Ok(())
}

pub fn put_revoke(buffer: &mut OutputBuffer, statement: &RevokePrivileges) -> Result<(), AllocError>
    ensures { OnOk result (put_all (Some (output_of buffer.old)) (form.statement (st.Revoke statement.now)) ≡ Some (output_of buffer.new)) }
{
    buffer.word("REVOKE")?;
    put_option_only(buffer, statement.option_only)?;
    put_privileges(buffer, &statement.privileges)?;
    buffer.word("ON")?;
    buffer.word(statement.table.as_str())?;
    buffer.word("FROM")?;
    put_listed(buffer, statement.from.as_slice())?;
    put_cascade(buffer, statement.cascade)?;
    Ok(())
}

pub fn put_grant_roles(buffer: &mut OutputBuffer, statement: &GrantRoles) -> Result<(), AllocError>
    ensures { OnOk result (put_all (Some (output_of buffer.old)) (form.statement (st.GrantRoles statement.now)) ≡ Some (output_of buffer.new)) }
{
    buffer.word("GRANT")?;
    put_listed(buffer, statement.roles.as_slice())?;
    buffer.word("TO")?;
    put_listed(buffer, statement.to.as_slice())?;
    put_options(buffer, statement.options)?;
    Ok(())
}

pub fn put_revoke_roles(
    buffer: &mut OutputBuffer,
    statement: &RevokeRoles,
) -> Result<(), AllocError>
    ensures { OnOk result (put_all (Some (output_of buffer.old)) (form.statement (st.RevokeRoles statement.now)) ≡ Some (output_of buffer.new)) }
{
    buffer.word("REVOKE")?;
    put_option_for(buffer, statement.option)?;
    put_listed(buffer, statement.roles.as_slice())?;
    buffer.word("FROM")?;
    put_listed(buffer, statement.from.as_slice())?;
    put_cascade(buffer, statement.cascade)?;
    Ok(())
}
