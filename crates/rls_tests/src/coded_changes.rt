//! Changes of objects, grants, and their JSON.

ghost use Rattle.rls_tests.specs.CodedChanges.{change, grant};

use crate::coded_values::{Datum, Items};
use crate::coded_words::{Audit, Word};
use rls_codec::{Coded, Unread, item, json_of, require_length};
use serde_json::{Value, json};
use std::alloc::{AllocError, Global};

/// A row's values then, or none where it is gone.
#[derive(Drop)]
pub struct Change {
    pub object: Word,
    pub content: Option<Items<Datum>>,
}

#[cfg(test)]
impl Coded<Audit> for Change {
    ghost codec = { change };

    fn to_json(&self, alloc: Global) -> Result<Value, AllocError> {
        json!(in alloc; [json_of::<Audit, _>(alloc, &self.object)?, json_of::<Audit, _>(alloc, &self.content)?])
    }

    fn from_json(alloc: Global, json: &Value) -> Result<Change, Unread> {
        let (object, content) = <(Word, Option<Items<Datum>>) as Coded<Audit>>::from_json(
            alloc, json,
        )?;
        Ok(Change { object, content })
    }
}

/// A privilege, its grantee, and whether that may grant it on.
#[derive(Drop)]
pub struct Grant {
    pub privilege: Word,
    pub grantee: Word,
    pub option: bool,
}

#[cfg(test)]
impl Coded<Audit> for Grant {
    ghost codec = { grant };

    fn to_json(&self, alloc: Global) -> Result<Value, AllocError> {
        json!(in alloc; [
            json_of::<Audit, _>(alloc, &self.privilege)?,
            json_of::<Audit, _>(alloc, &self.grantee)?,
            self.option
        ])
    }

    fn from_json(alloc: Global, json: &Value) -> Result<Grant, Unread> {
        let privilege = item::<Audit, _>(alloc, json, 0)?;
        let grantee = item::<Audit, _>(alloc, json, 1)?;
        let option = item::<Audit, _>(alloc, json, 2)?;
        require_length(json, 3)?;
        Ok(Grant {
            privilege,
            grantee,
            option,
        })
    }
}
