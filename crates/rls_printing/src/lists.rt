//! Lists, printed.

ghost use Rattle.std.specs.Prelude.{◌≡◌, List, Some, OnOk};
ghost use Rattle.rls_printing.specs.{ExprForms.enclosed, OutputTokens.OutputToken, Outputs.put_all, Outputs.output_of};
ghost use Rattle.rls_printing.specs.StatementForms as form;

use crate::buffer::{Mark, OutputBuffer};
use crate::expression::{put_expr, put_tuple};
use crate::words::{put_column_type, put_is_key, put_not_null};
use rls_expr::{Expr, Grantee};
use rls_statement::{Assignment, MarkedColumn};
use rls_value::{Items, Name};
use std::alloc::AllocError;

/// An item of a list.
pub trait Printed {
    ghost form: { Self → List OutputToken };

    fn put(&self, buffer: &mut OutputBuffer) -> Result<(), AllocError>
        ensures { OnOk result (put_all (Some (output_of buffer.old)) (form self.now) ≡ Some (output_of buffer.new)) };
}

/// Items with commas between them.
pub fn put_listed<P: Printed>(buffer: &mut OutputBuffer, items: &[P]) -> Result<(), AllocError>
    ensures { OnOk result (put_all (Some (output_of buffer.old)) (form.listed P.form items.now) ≡ Some (output_of buffer.new)) }
{
    match items {
        [] => Ok(()),
        [first, rest @ ..] => {
            first.put(buffer)?;
            put_more(buffer, rest)
        }
    }
}

fn put_more<P: Printed>(buffer: &mut OutputBuffer, items: &[P]) -> Result<(), AllocError>
    ensures { OnOk result (put_all (Some (output_of buffer.old)) (form.also P.form items.now) ≡ Some (output_of buffer.new)) }
{
    for item in items {
        buffer.mark(Mark::Comma)?;
        item.put(buffer)?;
    }
    Ok(())
}

/// Names in parentheses.
pub fn put_enclosed_names(buffer: &mut OutputBuffer, names: &[Name]) -> Result<(), AllocError>
    ensures { OnOk result (put_all (Some (output_of buffer.old)) (enclosed (form.listed form.name names.now)) ≡ Some (output_of buffer.new)) }
{
    buffer.mark(Mark::Open)?;
    put_listed(buffer, names)?;
    buffer.mark(Mark::Close)?;
    Ok(())
}

impl Printed for Name {
    ghost form = { form.name };

    fn put(&self, buffer: &mut OutputBuffer) -> Result<(), AllocError> {
        buffer.word(self.as_str())
    }
}

impl Printed for Grantee {
    ghost form = { form.grantee };

    fn put(&self, buffer: &mut OutputBuffer) -> Result<(), AllocError> {
        match self {
            Grantee::Public => buffer.word("PUBLIC"),
            Grantee::Role(role) => buffer.word(role.as_str()),
        }
    }
}

/// A row of INSERT.
impl Printed for Items<Expr> {
    ghost form = { form.tuple };

    fn put(&self, buffer: &mut OutputBuffer) -> Result<(), AllocError> {
        put_tuple(buffer, self.as_slice())
    }
}

/// What a column is set to.
impl Printed for Assignment {
    ghost form = { form.assignment };

    fn put(&self, buffer: &mut OutputBuffer) -> Result<(), AllocError> {
        buffer.word(self.column.as_str())?;
        buffer.mark(Mark::Equal)?;
        put_expr(buffer, &self.value)
    }
}

/// A column of a new table.
impl Printed for MarkedColumn {
    ghost form = { form.column };

    fn put(&self, buffer: &mut OutputBuffer) -> Result<(), AllocError> {
        buffer.word(self.column.name.as_str())?;
        put_column_type(buffer, self.column.kind)?;
        put_not_null(buffer, self.column.not_null)?;
        put_is_key(buffer, self.is_key)
    }
}
