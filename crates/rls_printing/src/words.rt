//! Small parts of statements, printed.

ghost use Rattle.std.specs.Prelude.{◌≡◌, ◌||◌, true, Some, OnOk};
ghost use Rattle.rls_value.specs.Names.{is_word};
ghost use Rattle.rls_printing.specs.Outputs.{put, put_all, output_of};
ghost use Rattle.rls_printing.specs.StatementForms as form;
ghost use Rattle.rls_statement.specs.declared.statement.RowSecurity.TheVariants as change;

use crate::buffer::{Mark, OutputBuffer};
use rls_statement::{Attributes, MembershipOption, MembershipOptions, RowSecurity};
use rls_value::{ColType, Kind, PolicyKind};
use std::alloc::AllocError;

/// A word, if it is written, and which.
pub fn put_flag(
    buffer: &mut OutputBuffer,
    flag: Option<bool>,
    on: &str,
    off: &str,
) -> Result<(), AllocError>
    requires on { is_word on.now ≡ true }
    requires off { is_word off.now ≡ true }
    ensures { OnOk result (put_all (Some (output_of buffer.old)) (form.flag flag on.now off.now) ≡ Some (output_of buffer.new)) }
{
    match flag {
        None => Ok(()),
        Some(true) => buffer.word(on),
        Some(false) => buffer.word(off),
    }
}

/// The attributes of a role.
pub fn put_attributes(buffer: &mut OutputBuffer, attributes: Attributes) -> Result<(), AllocError>
    ensures { OnOk result (put_all (Some (output_of buffer.old)) (form.attributes attributes) ≡ Some (output_of buffer.new)) }
{
    put_flag(buffer, attributes.superuser, "SUPERUSER", "NOSUPERUSER")?;
    put_flag(buffer, attributes.login, "LOGIN", "NOLOGIN")?;
    put_flag(buffer, attributes.bypass_rls, "BYPASSRLS", "NOBYPASSRLS")
}

/// The type of a column.
pub fn put_column_type(buffer: &mut OutputBuffer, kind: ColType) -> Result<(), AllocError>
    ensures { OnOk result (put (Some (output_of buffer.old)) (form.column_type kind) ≡ Some (output_of buffer.new)) }
{
    match kind {
        ColType::Integer => buffer.word("INTEGER"),
        ColType::BigInt => buffer.word("BIGINT"),
        ColType::Text => buffer.word("TEXT"),
        ColType::Boolean => buffer.word("BOOLEAN"),
    }
}

pub fn put_not_null(buffer: &mut OutputBuffer, not_null: bool) -> Result<(), AllocError>
    ensures { OnOk result (put_all (Some (output_of buffer.old)) (form.not_null not_null) ≡ Some (output_of buffer.new)) }
{
    if not_null {
        buffer.word("NOT")?;
        buffer.word("NULL")
    } else {
        Ok(())
    }
}

pub fn put_is_key(buffer: &mut OutputBuffer, is_key: bool) -> Result<(), AllocError>
    ensures { OnOk result (put_all (Some (output_of buffer.old)) (form.is_key is_key) ≡ Some (output_of buffer.new)) }
{
    if is_key {
        buffer.word("PRIMARY")?;
        buffer.word("KEY")
    } else {
        Ok(())
    }
}

pub fn put_row_change(buffer: &mut OutputBuffer, change: RowSecurity) -> Result<(), AllocError>
    ensures { OnOk result (put_all (Some (output_of buffer.old)) (form.row_change change) ≡ Some (output_of buffer.new)) }
{
    match change {
        RowSecurity::Enable => buffer.word("ENABLE"),
        RowSecurity::Disable => buffer.word("DISABLE"),
        RowSecurity::Force => buffer.word("FORCE"),
        RowSecurity::NoForce => put_no_force(buffer),
    }
}

fn put_no_force(buffer: &mut OutputBuffer) -> Result<(), AllocError>
    ensures { OnOk result (put_all (Some (output_of buffer.old)) (form.row_change change.NoForce) ≡ Some (output_of buffer.new)) }
{
    buffer.word("NO")?;
    buffer.word("FORCE")
}

pub fn put_permissive(buffer: &mut OutputBuffer, permissive: bool) -> Result<(), AllocError>
    ensures { OnOk result (put (Some (output_of buffer.old)) (form.permissive permissive) ≡ Some (output_of buffer.new)) }
{
    match permissive {
        true => buffer.word("PERMISSIVE"),
        false => buffer.word("RESTRICTIVE"),
    }
}

pub fn put_policy_kind(buffer: &mut OutputBuffer, kind: PolicyKind) -> Result<(), AllocError>
    ensures { OnOk result (put (Some (output_of buffer.old)) (form.policy_kind kind) ≡ Some (output_of buffer.new)) }
{
    match kind {
        PolicyKind::All => buffer.word("ALL"),
        PolicyKind::Only(Kind::Select) => buffer.word("SELECT"),
        PolicyKind::Only(Kind::Insert) => buffer.word("INSERT"),
        PolicyKind::Only(Kind::Update) => buffer.word("UPDATE"),
        PolicyKind::Only(Kind::Delete) => buffer.word("DELETE"),
    }
}

pub fn put_comma_if(buffer: &mut OutputBuffer, before: bool) -> Result<(), AllocError>
    ensures { OnOk result (put_all (Some (output_of buffer.old)) (form.comma_if before) ≡ Some (output_of buffer.new)) }
{
    if before {
        buffer.mark(Mark::Comma)
    } else {
        Ok(())
    }
}

/// Whether one of them is so.
pub fn either(left: bool, right: bool) -> bool
    ensures { result ≡ (left || right) }
{
    left || right
}

pub fn put_with_option(buffer: &mut OutputBuffer, with_option: bool) -> Result<(), AllocError>
    ensures { OnOk result (put_all (Some (output_of buffer.old)) (form.with_option with_option) ≡ Some (output_of buffer.new)) }
{
    if with_option {
        buffer.word("WITH")?;
        buffer.word("GRANT")?;
        buffer.word("OPTION")
    } else {
        Ok(())
    }
}

pub fn put_option_only(buffer: &mut OutputBuffer, option_only: bool) -> Result<(), AllocError>
    ensures { OnOk result (put_all (Some (output_of buffer.old)) (form.option_only option_only) ≡ Some (output_of buffer.new)) }
{
    if option_only {
        buffer.word("GRANT")?;
        buffer.word("OPTION")?;
        buffer.word("FOR")
    } else {
        Ok(())
    }
}

pub fn put_cascade(buffer: &mut OutputBuffer, cascade: bool) -> Result<(), AllocError>
    ensures { OnOk result (put_all (Some (output_of buffer.old)) (form.cascade cascade) ≡ Some (output_of buffer.new)) }
{
    if cascade {
        buffer.word("CASCADE")
    } else {
        Ok(())
    }
}

fn put_option_if(
    buffer: &mut OutputBuffer,
    option: Option<bool>,
    before: bool,
    word: &str,
) -> Result<(), AllocError>
    requires { is_word word.now ≡ true }
    ensures { OnOk result (put_all (Some (output_of buffer.old)) (form.option_if option before word.now) ≡ Some (output_of buffer.new)) }
{
    match option {
        None => Ok(()),
        Some(on) => {
            put_comma_if(buffer, before)?;
            buffer.word(word)?;
            put_flag(buffer, Some(on), "TRUE", "FALSE")
        }
    }
}

fn put_some_options(buffer: &mut OutputBuffer, options: MembershipOptions) -> Result<(), AllocError>
    ensures { OnOk result (put_all (Some (output_of buffer.old)) (form.some_options options) ≡ Some (output_of buffer.new)) }
{
    let has_admin = options.admin.is_some();
    let has_inherit = options.inherit.is_some();
    let before_set = either(has_admin, has_inherit);
    put_option_if(buffer, options.admin, false, "ADMIN")?;
    put_option_if(buffer, options.inherit, has_admin, "INHERIT")?;
    put_option_if(buffer, options.set, before_set, "SET")
}

pub fn put_options(buffer: &mut OutputBuffer, options: MembershipOptions) -> Result<(), AllocError>
    ensures { OnOk result (put_all (Some (output_of buffer.old)) (form.options options) ≡ Some (output_of buffer.new)) }
{
    let more = either(options.inherit.is_some(), options.set.is_some());
    if either(options.admin.is_some(), more) {
        buffer.word("WITH")?;
        put_some_options(buffer, options)
    } else {
        Ok(())
    }
}

fn put_option(buffer: &mut OutputBuffer, option: MembershipOption) -> Result<(), AllocError>
    ensures { OnOk result (put (Some (output_of buffer.old)) (form.option_word option) ≡ Some (output_of buffer.new)) }
{
    match option {
        MembershipOption::Admin => buffer.word("ADMIN"),
        MembershipOption::Inherit => buffer.word("INHERIT"),
        MembershipOption::Set => buffer.word("SET"),
    }
}

pub fn put_option_for(
    buffer: &mut OutputBuffer,
    option: Option<MembershipOption>,
) -> Result<(), AllocError>
    ensures { OnOk result (put_all (Some (output_of buffer.old)) (form.option_for option) ≡ Some (output_of buffer.new)) }
{
    match option {
        None => Ok(()),
        Some(option) => {
            put_option(buffer, option)?;
            buffer.word("OPTION")?;
            buffer.word("FOR")
        }
    }
}
