//! The privileges that GRANT and REVOKE name, printed.

ghost use Rattle.std.specs.Prelude.{◌≡◌, Some, OnOk};
ghost use Rattle.rls_statement.specs.Extents as spec;
ghost use Rattle.rls_text.specs.WaysBack as back;
ghost use Rattle.rls_value.specs.declared.verb.Privilege.TheVariants as p;
ghost use Rattle.rls_printing.specs.Outputs.{put, put_all, output_of};
ghost use Rattle.rls_printing.specs.StatementForms as form;

use crate::buffer::OutputBuffer;
use crate::lists::put_enclosed_names;
use crate::words::{either, put_comma_if};
use rls_statement::{Extent, Privileges};
use rls_value::{Name, Privilege};
use std::alloc::AllocError;

pub fn put_privileges(buffer: &mut OutputBuffer, privileges: &Privileges) -> Result<(), AllocError>
    ensures { OnOk result (put_all (Some (output_of buffer.old)) (form.privileges privileges.now) ≡ Some (output_of buffer.new)) }
{
    if are_all(privileges) {
        buffer.word("ALL")
    } else {
        put_named(buffer, privileges)
    }
}

/// The four for the whole table, and no list of columns.
fn are_all(privileges: &Privileges) -> bool
    ensures { result ≡ back.are_all privileges.now }
{
    privileges.select.whole
        && privileges.insert.whole
        && privileges.update.whole
        && privileges.delete
        && !privileges.has_columns()
}

/// Each that is named, in order.
fn put_named(buffer: &mut OutputBuffer, privileges: &Privileges) -> Result<(), AllocError>
    ensures { OnOk result (put_all (Some (output_of buffer.old)) (form.listed form.named_privilege (back.named_of privileges.now)) ≡ Some (output_of buffer.new)) }
{
    let select = privileges.select.is_named();
    let insert = either(select, privileges.insert.is_named());
    let update = either(insert, privileges.update.is_named());
    put_extent(buffer, false, Privilege::Select, &privileges.select)?;
    put_extent(buffer, select, Privilege::Insert, &privileges.insert)?;
    put_extent(buffer, insert, Privilege::Update, &privileges.update)?;
    put_whole_if(buffer, update, Privilege::Delete, privileges.delete)
}

/// A privilege for what it is named for.
fn put_extent(
    buffer: &mut OutputBuffer,
    before: bool,
    privilege: Privilege,
    extent: &Extent,
) -> Result<(), AllocError>
    ensures { OnOk result (put_all (Some (output_of buffer.old)) (form.listed_behind before form.named_privilege (back.naming privilege extent.now)) ≡ Some (output_of buffer.new)) }
{
    put_whole_if(buffer, before, privilege, extent.whole)?;
    let before = either(before, extent.whole);
    put_columns_of(buffer, before, privilege, extent.columns.as_slice())
}

/// A privilege for the whole table, where it is named so.
fn put_whole_if(
    buffer: &mut OutputBuffer,
    before: bool,
    privilege: Privilege,
    whole: bool,
) -> Result<(), AllocError>
    ensures { OnOk result (put_all (Some (output_of buffer.old)) (form.listed_behind before form.named_privilege (back.where_whole privilege whole)) ≡ Some (output_of buffer.new)) }
{
    if whole {
        put_comma_if(buffer, before)?;
        put_privilege(buffer, privilege)
    } else {
        Ok(())
    }
}

/// A privilege for columns, where there are some.
fn put_columns_of(
    buffer: &mut OutputBuffer,
    before: bool,
    privilege: Privilege,
    columns: &[Name],
) -> Result<(), AllocError>
    ensures { OnOk result (put_all (Some (output_of buffer.old)) (form.listed_behind before form.named_privilege (back.where_listed privilege columns.now)) ≡ Some (output_of buffer.new)) }
{
    match columns {
        [] => Ok(()),
        [_, ..] => {
            put_comma_if(buffer, before)?;
            put_privilege(buffer, privilege)?;
            put_enclosed_names(buffer, columns)
        }
    }
}

fn put_privilege(buffer: &mut OutputBuffer, privilege: Privilege) -> Result<(), AllocError>
    ensures { OnOk result (put (Some (output_of buffer.old)) (form.privilege_word privilege) ≡ Some (output_of buffer.new)) }
{
    match privilege {
        Privilege::Select => buffer.word("SELECT"),
        Privilege::Insert => buffer.word("INSERT"),
        Privilege::Update => buffer.word("UPDATE"),
        Privilege::Delete => buffer.word("DELETE"),
    }
}
