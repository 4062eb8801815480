//! What objects have, as JSON.

ghost use Rattle.rls_audit_lines.specs.ContentCodecs as codec;
ghost use Rattle.rls_audit_lines.specs.ContentCodecs.{ending};
ghost use Rattle.rls_codec.specs.Reading.{Reads};
ghost use Rattle.serde_json.specs.View.{view};

use crate::format::{Audit, Format};
use rls_codec::{Coded, Unread, item, json_of, require_length};
use rls_expr::{Column, Grantee};
use rls_guard::rls_catalog::{Membership, RoleDef};
use rls_value::{Items, Name, Privilege};
use serde_json::{Value, json};
use std::alloc::{AllocError, Global};

/// What a table is, but for its name; its key by the names of the columns.
#[derive(Drop)]
pub struct TableShape {
    pub owner: Name,
    pub enabled: bool,
    pub forced: bool,
    pub columns: Items<Column>,
    pub key: Items<Name>,
}

/// What a grant on a table is; its column by its name alone.
#[derive(Drop)]
pub struct GrantShape {
    pub privilege: Privilege,
    pub grantee: Grantee,
    pub grantor: Name,
    /// Whether the grantee may grant it further.
    pub option: bool,
    /// None for the whole table.
    pub column: Option<Name>,
}

impl<F: Format> Coded<Audit<F>> for RoleDef {
    ghost codec = { codec.role_def };

    fn to_json(&self, alloc: Global) -> Result<Value, AllocError> {
        json!(in alloc; [self.superuser, self.login, self.bypass_rls])
    }

    fn from_json(alloc: Global, json: &Value) -> Result<RoleDef, Unread> {
        let superuser = item::<Audit<F>, _>(alloc, json, 0)?;
        let login = item::<Audit<F>, _>(alloc, json, 1)?;
        let bypass_rls = item::<Audit<F>, _>(alloc, json, 2)?;
        require_length(json, 3)?;
        Ok(RoleDef {
            superuser,
            login,
            bypass_rls,
        })
    }
}

impl<F: Format> Coded<Audit<F>> for Membership {
    ghost codec = { codec.membership };

    fn to_json(&self, alloc: Global) -> Result<Value, AllocError> {
        json!(in alloc; [
            json_of::<Audit<F>, _>(alloc, &self.role)?,
            self.admin,
            self.inherit,
            self.set
        ])
    }

    fn from_json(alloc: Global, json: &Value) -> Result<Membership, Unread> {
        let role = item::<Audit<F>, _>(alloc, json, 0)?;
        let admin = item::<Audit<F>, _>(alloc, json, 1)?;
        let inherit = item::<Audit<F>, _>(alloc, json, 2)?;
        let set = item::<Audit<F>, _>(alloc, json, 3)?;
        require_length(json, 4)?;
        Ok(Membership {
            role,
            admin,
            inherit,
            set,
        })
    }
}

impl<F: Format> Coded<Audit<F>> for Column {
    ghost codec = { codec.column };

    fn to_json(&self, alloc: Global) -> Result<Value, AllocError> {
        json!(in alloc; [
            json_of::<Audit<F>, _>(alloc, &self.name)?,
            json_of::<Audit<F>, _>(alloc, &self.kind)?,
            self.not_null
        ])
    }

    fn from_json(alloc: Global, json: &Value) -> Result<Column, Unread> {
        let name = item::<Audit<F>, _>(alloc, json, 0)?;
        let kind = item::<Audit<F>, _>(alloc, json, 1)?;
        let not_null = item::<Audit<F>, _>(alloc, json, 2)?;
        require_length(json, 3)?;
        Ok(Column {
            name,
            kind,
            not_null,
        })
    }
}

impl<F: Format> Coded<Audit<F>> for TableShape {
    ghost codec = { codec.table };

    fn to_json(&self, alloc: Global) -> Result<Value, AllocError> {
        json!(in alloc; [
            json_of::<Audit<F>, _>(alloc, &self.owner)?,
            self.enabled,
            self.forced,
            json_of::<Audit<F>, _>(alloc, &self.columns)?,
            json_of::<Audit<F>, _>(alloc, &self.key)?
        ])
    }

    fn from_json(alloc: Global, json: &Value) -> Result<TableShape, Unread> {
        let owner = item::<Audit<F>, _>(alloc, json, 0)?;
        let enabled = item::<Audit<F>, _>(alloc, json, 1)?;
        let forced = item::<Audit<F>, _>(alloc, json, 2)?;
        let columns = item::<Audit<F>, _>(alloc, json, 3)?;
        let key = item::<Audit<F>, _>(alloc, json, 4)?;
        require_length(json, 5)?;
        Ok(TableShape {
            owner,
            enabled,
            forced,
            columns,
            key,
        })
    }
}

impl<F: Format> Coded<Audit<F>> for GrantShape {
    ghost codec = { codec.grant F.second };

    // One on a column has no form in the first format, which nobody writes.
    fn to_json(&self, alloc: Global) -> Result<Value, AllocError> {
        if F::is_second() {
            return json!(in alloc; [
                json_of::<Audit<F>, _>(alloc, &self.privilege)?,
                json_of::<Audit<F>, _>(alloc, &self.grantee)?,
                json_of::<Audit<F>, _>(alloc, &self.grantor)?,
                self.option,
                json_of::<Audit<F>, _>(alloc, &self.column)?
            ]);
        }
        if self.column.is_some() {
            return Err(AllocError);
        }
        json!(in alloc; [
            json_of::<Audit<F>, _>(alloc, &self.privilege)?,
            json_of::<Audit<F>, _>(alloc, &self.grantee)?,
            json_of::<Audit<F>, _>(alloc, &self.grantor)?,
            self.option
        ])
    }

    fn from_json(alloc: Global, json: &Value) -> Result<GrantShape, Unread> {
        let privilege = item::<Audit<F>, _>(alloc, json, 0)?;
        let grantee = item::<Audit<F>, _>(alloc, json, 1)?;
        let grantor = item::<Audit<F>, _>(alloc, json, 2)?;
        let option = item::<Audit<F>, _>(alloc, json, 3)?;
        let column = read_column::<F>(alloc, json)?;
        Ok(GrantShape {
            privilege,
            grantee,
            grantor,
            option,
            column,
        })
    }
}

/// What stands behind the option of a grant: its column, or none in the first format.
fn read_column<F: Format>(alloc: Global, json: &Value) -> Result<Option<Name>, Unread>
    ensures { Reads result ((ending F.second).found 4 (view json.now)) }
{
    if !F::is_second() {
        require_length(json, 4)?;
        return Ok(None);
    }
    let column = item::<Audit<F>, _>(alloc, json, 4)?;
    require_length(json, 5)?;
    Ok(column)
}
