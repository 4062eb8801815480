//! Names, and whom a grant is for, as JSON.

ghost use Rattle.std.specs.Prelude.{◌≡◌, Some};
ghost use Rattle.rls_audit_lines.specs.NameCodecs as codec;
ghost use Rattle.rls_audit_lines.specs.NamesFound.{name_found, grantee_found};
ghost use Rattle.rls_codec.specs.Reading.{Reads};

use crate::format::{Audit, Format};
use rls_codec::{Coded, NeverNull, Unread, read_text};
use rls_expr::Grantee;
use rls_value::{Name, Refusal};
use serde_json::Value;
use std::alloc::{AllocError, Global};

impl<F: Format> Coded<Audit<F>> for Name {
    ghost use Rattle.rls_audit_lines.specs.NameCodecs.{name};

    ghost codec = { name };

    fn to_json(&self, alloc: Global) -> Result<Value, AllocError> {
        Value::try_from_str(alloc, self.as_str())
    }

    fn from_json(alloc: Global, json: &Value) -> Result<Name, Unread> {
        read_name(alloc, read_text(json)?)
    }
}

/// Its JSON is a text.
impl<F: Format> NeverNull<Audit<F>> for Name {
    ghost use Rattle.std.proofs.Common.{refl};

    ghost apart = { λ name. refl };
}

impl<F: Format> Coded<Audit<F>> for Grantee {
    ghost use Rattle.rls_audit_lines.specs.NameCodecs.{grantee};

    ghost codec = { grantee };

    fn to_json(&self, alloc: Global) -> Result<Value, AllocError> {
        match self {
            Grantee::Public => Value::try_from_str(alloc, "PUBLIC"),
            Grantee::Role(role) => Value::try_from_str(alloc, role.as_str()),
        }
    }

    fn from_json(alloc: Global, json: &Value) -> Result<Grantee, Unread> {
        read_grantee(alloc, read_text(json)?)
    }
}

/// The name that the text spells.
pub fn read_name(alloc: Global, text: &str) -> Result<Name, Unread>
    ensures { Reads result (name_found text.now) }
{
    match Name::new(alloc, text) {
        Ok(name) => Ok(name),
        Err(Refusal::Syntax | Refusal::Limit(_)) => Err(Unread::Bad),
        Err(_) => Err(Unread::NoMemory),
    }
}

fn read_grantee(alloc: Global, text: &str) -> Result<Grantee, Unread>
    ensures { Reads result (grantee_found text.now) }
{
    if text == "PUBLIC" {
        return Ok(Grantee::Public);
    }
    Ok(Grantee::Role(read_name(alloc, text)?))
}
