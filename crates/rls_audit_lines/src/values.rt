//! Values, rows and numbers of rows as JSON.

ghost use Rattle.std.specs.Prelude.{◌≡◌, IfOk, false};
ghost use Rattle.std.specs.{List.list_all, Char.is_ascii_digit};
ghost use Rattle.serde_json.specs.View.{view};
ghost use Rattle.rls_audit_lines.specs.Texts as spec;
ghost use Rattle.rls_audit_lines.specs.Texts.{number_found, row_id_found};
ghost use Rattle.rls_audit_lines.specs.ValueCodecs as codec;
ghost use Rattle.rls_codec.specs.Codecs.{list_of, text as text_codec};
ghost use Rattle.rls_codec.specs.Reading.{Reads};

use crate::format::{Audit, Format, Second};
use crate::texts::{at_dot, read_number};
use rls_codec::{Coded, NeverNull, Unread, json_of, list_from_json, list_to_json, read_text};
use rls_value::{Items, Row, RowId, Text, Value as Datum};
use serde_json::Value;
use std::alloc::{AllocError, Global};

impl<F: Format, T: Coded<Audit<F>> + Drop> Coded<Audit<F>> for Items<T> {
    ghost codec = { list_of T.codec };

    fn to_json(&self, alloc: Global) -> Result<Value, AllocError> {
        list_to_json::<Audit<F>, _>(alloc, self.as_slice())
    }

    fn from_json(alloc: Global, json: &Value) -> Result<Items<T>, Unread> {
        Ok(Items::from_vec(list_from_json::<Audit<F>, T>(alloc, json)?))
    }
}

impl<F: Format> Coded<Audit<F>> for Text {
    ghost codec = { text_codec };

    fn to_json(&self, alloc: Global) -> Result<Value, AllocError> {
        Value::try_from_str(alloc, self.as_str())
    }

    fn from_json(alloc: Global, json: &Value) -> Result<Text, Unread> {
        Ok(Text::new(alloc, read_text(json)?)?)
    }
}

impl<F: Format> Coded<Audit<F>> for Datum {
    ghost codec = { codec.value };

    fn to_json(&self, alloc: Global) -> Result<Value, AllocError> {
        match self {
            Datum::Null => Ok(Value::Null),
            Datum::Int(number) => Ok(Value::from(*number)),
            Datum::Text(text) => Value::try_from_str(alloc, text.as_str()),
            Datum::Bool(flag) => Ok(Value::Bool(*flag)),
        }
    }

    fn from_json(alloc: Global, json: &Value) -> Result<Datum, Unread> {
        match json {
            Value::Null => Ok(Datum::Null),
            Value::Bool(flag) => Ok(Datum::Bool(*flag)),
            Value::Number(_) => Ok(Datum::Int(<i64 as Coded<Audit<F>>>::from_json(alloc, json)?)),
            Value::String(text) => Ok(Datum::Text(Text::new(alloc, text.as_str())?)),
            Value::Array(_) | Value::Object(_) => Err(Unread::Bad),
        }
    }
}

impl<F: Format> Coded<Audit<F>> for Row {
    ghost codec = { codec.row };

    fn to_json(&self, alloc: Global) -> Result<Value, AllocError> {
        list_to_json::<Audit<F>, Datum>(alloc, self.as_slice())
    }

    fn from_json(alloc: Global, json: &Value) -> Result<Row, Unread> {
        Ok(Row::new(list_from_json::<Audit<F>, Datum>(alloc, json)?)?)
    }
}

/// Its JSON is an array.
impl<F: Format> NeverNull<Audit<F>> for Row {
    ghost use Rattle.std.proofs.Common.{refl};

    ghost apart = { λ _. refl };
}

impl<F: Format> Coded<Audit<F>> for RowId {
    ghost codec = { codec.row_id };

    fn to_json(&self, alloc: Global) -> Result<Value, AllocError> {
        let txn = self.txn;
        let n = self.n;
        let text = format!(in alloc; "{txn}.{n}")?;
        Value::try_from_str(alloc, text.as_str())
    }

    fn from_json(_alloc: Global, json: &Value) -> Result<RowId, Unread> {
        read_row_id(read_text(json)?)
    }
}

/// The number of a row as lines have it.
pub fn row_id_json(alloc: Global, id: &RowId) -> Result<Value, AllocError>
    ensures { IfOk result (λ json. view json ≡ codec.row_id.written id.now) }
{
    json_of::<Audit<Second>, _>(alloc, id)
}

/// The values of a row as lines have them.
pub fn row_values_json(alloc: Global, row: &Row) -> Result<Value, AllocError>
    ensures { IfOk result (λ json. view json ≡ codec.row.written row.now) }
{
    json_of::<Audit<Second>, _>(alloc, row)
}

/// The number of a row.
fn read_row_id(text: &str) -> Result<RowId, Unread>
    ensures { Reads result (row_id_found text.now) }
{
    match at_dot(text) {
        Some((txn, n)) => {
            let txn = read_number(txn)?;
            id_of(txn, read_number(n)?)
        }
        None => Err(Unread::Bad),
    }
}

/// The row of the transaction, where the number among its rows has 32 bits.
pub fn id_of(txn: u64, n: u64) -> Result<RowId, Unread>
    ensures { Reads result (spec.id_of (Some txn) (Some n)) }
{
    if n < 1 << 32 {
        Ok(RowId { txn, n: n as u32 })
    } else {
        Err(Unread::Bad)
    }
}
